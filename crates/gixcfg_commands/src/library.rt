//! Calls without options, where they follow other rules than git's: the library's lookups and edits, as they are.
ghost use Rattle.std.specs.Option.{option_map};
ghost use Rattle.std.specs.Prelude.{◌≡◌, ◌⊎◌, ◌++◌, ◌∷◌, true, false, flat_map, map, IfOk, IfErr, List, ℕ, Ok, Some, None};
ghost use Rattle.bstr.specs.Owned.{bstring_bytes};
ghost use Rattle.gitconf_layout.specs.Layout.{default_options};
ghost use Rattle.gitconf_lookups.specs.Lookups.{texts_of, value_at};
ghost use Rattle.gitconf_sources.specs.Key.{key_of};
ghost use Rattle.gitconf_text.specs.Header.{name_of, subsection_of};
ghost use Rattle.gitconf_state.specs.Clean.{IsClean};
ghost use Rattle.gitconf_state.specs.Edits.{Remove, apply, numbered};
ghost use Rattle.gitconf_state.specs.Printing.{printed};
ghost use Rattle.gitconf_views.specs.Views.{shown};
ghost use Rattle.gix_config.specs.SectionEditors.{edited, lent, number_of};
ghost use Rattle.gixcfg_words.specs.Keys.{is_nameless};
ghost use Rattle.gixcfg_words.specs.Plain as plains;
ghost use Rattle.gixcfg_words.specs.declared.command.Choice.TheVariants.{All};
ghost use Rattle.gixcfg_words.specs.declared.kinds.Kind.TheVariants as types;
ghost use Rattle.gixcfg_core.specs.Entries.{key_text};
ghost use Rattle.gixcfg_core.specs.Troubles.{refusal_status, status_of};
ghost use Rattle.gixcfg_core.specs.declared.origins.Located.TheVariants as located;
ghost use Rattle.gixcfg_core.specs.declared.trouble.Trouble.TheVariants as kinds;
ghost use Rattle.gixcfg_commands.specs.Layouts.{layout_asked};
ghost use Rattle.gixcfg_commands.specs.Plainly as spec;
ghost use Rattle.gixcfg_commands.specs.Plainly.{of_all, of_last, of_set, of_typed, of_unset, of_values, section_text, Gives, GivesOfInput, IsLast, IsLoad, IsOfClean, IsOutcome, IsSet, IsValues, OfFile, last_number};

use crate::layouts::layout_of;
use crate::refusals::{by_number, told};
use bstr::BString;
use gitconf_parse::lookup::value_in;
use gitconf_sources::Disk;
use gitconf_text::NoMemory;
use gitconf_text::parse::section::header;
use gitconf_views::section::SectionRef;
use gix_config::file::{SectionId, SectionMut, includes, init, section_mut, set_raw_value};
use gix_config::format::normalize;
use gix_config::lookup::existing;
use gix_config::{File, KeyRef};
use gixcfg_core::names::add_names;
use gixcfg_core::origins::Located;
use gixcfg_core::outside::Inputs;
use gixcfg_core::places::meta_at;
use gixcfg_core::streams::read_all;
use gixcfg_core::trouble::Trouble;
use gixcfg_words::command::{Choice, Fmt, Get};
use gixcfg_words::kinds::Kind;
use gixcfg_words::plain::is_nameless;
use std::alloc::{AllocGlobal, Global};
use std::fmt::Display;
use std::io::Read;
use std::rt::Files;

/// The lines of the values that are asked for of a key. They are those in a file with what it includes or in standard
/// input.
///
/// # Errors
///
/// There is none; what is read can't be read, or is refused; out of memory.
pub fn values<R: Files + AllocGlobal + Copy, I: Read + Drop>(
    inputs: &mut Inputs<'_, R, I>,
    key: KeyRef<'_>,
    get: &Get<'_>,
    read: &Located,
) -> Result<Vec<u8>, Trouble>
    ensures { read.now ≡ located.Input → GivesOfInput (λ lines. lines.items) (IsValues get.now.choice get.now.form.kind (key_of key.entry))
        (I.remaining inputs.old.input) result }
{
    let (alloc, home) = (inputs.rt.alloc(), inputs.outside.home);
    match read.path() {
        Some(path) => values_at(inputs.rt, path, home, key, get),
        None => match read_all(alloc, &mut inputs.input) {
            Ok(text) => values_in(alloc, text, key, get),
            Err(trouble) => Err(trouble),
        },
    }
}

/// The lines of the values that are asked for of a key in the file at a path.
fn values_at<R: Files + AllocGlobal + Copy>(
    rt: &R,
    path: &str,
    home: Option<&str>,
    key: KeyRef<'_>,
    get: &Get<'_>,
) -> Result<Vec<u8>, Trouble> {
    let file = loaded(rt.alloc(), path, home, &mut Disk::new(*rt))?;
    values_of(rt.alloc(), &file, key, get)
}

/// The lines of the values that are asked for of a key in a text. The last one, as it is, is found without a file.
fn values_in(
    alloc: Global,
    text: Vec<u8>,
    key: KeyRef<'_>,
    get: &Get<'_>,
) -> Result<Vec<u8>, Trouble>
    ensures { Gives (λ lines. lines.items) (IsValues get.now.choice get.now.form.kind (key_of key.entry) text.items) result }
{
    match (get.choice, get.form.kind) {
        (Choice::Last { default: _ }, None) => last_in(alloc, &text, key),
        (Choice::Last { default: _ }, Some(_)) => values_loaded(alloc, text, key, get),
        (Choice::All, _) => values_loaded(alloc, text, key, get),
    }
}

/// The same of the file that a text is.
fn values_loaded(
    alloc: Global,
    text: Vec<u8>,
    key: KeyRef<'_>,
    get: &Get<'_>,
) -> Result<Vec<u8>, Trouble>
    ensures { Gives (λ lines. lines.items) (OfFile true text.items (of_values get.now.choice get.now.form.kind (key_of key.entry))) result }
{
    match loaded_lossy(alloc, text) {
        Ok(file) => values_of(alloc, &file, key, get),
        Err(trouble) => Err(trouble),
    }
}

/// The line of the last value of a key in a text.
fn last_in(alloc: Global, text: &[u8], key: KeyRef<'_>) -> Result<Vec<u8>, Trouble>
    ensures { Gives (λ line. line.items) (IsLast (key_of key.entry) text.now) result }
{
    match told(alloc, value_in(alloc, text, key)) {
        Ok(value) => value_line(value),
        Err(trouble) => Err(trouble),
    }
}

/// A text as a file in which values are looked up: without its whitespace, line ends and comments.
fn loaded_lossy(alloc: Global, text: Vec<u8>) -> Result<File, Trouble>
    ensures { IsLoad true text.items result }
{
    told(alloc, File::try_from_bytes_owned_lossy(alloc, text))
}

/// The lines of the values that are asked for of a key in a file.
fn values_of(alloc: Global, file: &File, key: KeyRef<'_>, get: &Get<'_>) -> Result<Vec<u8>, Trouble>
    ensures { Gives (λ lines. lines.items) (λ outcome. outcome ≡ of_values get.now.choice get.now.form.kind (key_of key.entry) file.now) result }
{
    match (get.form.kind, get.choice) {
        (Some(Kind::Bool), _) => bool_line(alloc, file, key),
        (Some(_), _) => int_line(alloc, file, key),
        (None, Choice::Last { default: _ }) => last_of(file, key),
        (None, Choice::All) => all_of(alloc, file, key),
    }
}

/// The line of a key's last value as a boolean.
fn bool_line(alloc: Global, file: &File, key: KeyRef<'_>) -> Result<Vec<u8>, Trouble>
    ensures { Gives (λ line. line.items) (λ outcome. outcome ≡ of_values All (Some types.Bool) (key_of key.entry) file.now) result }
{
    match told(alloc, file.boolean(key)) {
        Ok(value) => line(alloc, value),
        Err(trouble) => Err(trouble),
    }
}

/// The line of a key's last value as an integer.
fn int_line(alloc: Global, file: &File, key: KeyRef<'_>) -> Result<Vec<u8>, Trouble>
    ensures { Gives (λ line. line.items) (λ outcome. outcome ≡ of_values All (Some types.Int) (key_of key.entry) file.now) result }
{
    match told(alloc, file.integer(key)) {
        Ok(value) => line(alloc, value),
        Err(trouble) => Err(trouble),
    }
}

/// The line of a key's last value.
fn last_of(file: &File, key: KeyRef<'_>) -> Result<Vec<u8>, Trouble>
    ensures { Gives (λ line. line.items) (λ outcome. outcome ≡ of_last (value_at (key_of key.entry) (λ _. true) file.now)) result }
{
    match file.string(key) {
        Ok(value) => value_line(value),
        Err(_) => Err(Trouble::Memory),
    }
}

/// The lines of all values of a key.
fn all_of(alloc: Global, file: &File, key: KeyRef<'_>) -> Result<Vec<u8>, Trouble>
    ensures { Gives (λ lines. lines.items) (λ outcome. outcome ≡ of_values All None (key_of key.entry) file.now) result }
{
    match file.strings(key) {
        Ok(values) => value_lines(alloc, values),
        Err(_) => Err(Trouble::Memory),
    }
}

/// The file at a path, with what it includes. There is no repository for conditions to be about.
fn loaded<F: gix_config::host::Files>(
    alloc: Global,
    path: &str,
    home: Option<&str>,
    files: &mut F,
) -> Result<File, Trouble> {
    let mut metas = Vec::new(alloc);
    metas.push(meta_at(alloc, path)?)?;
    let options = init::Options {
        includes: includes::Options::follow_without_conditional(home, None),
        lossy: true,
        ignore_io_errors: false,
    };
    match told(
        alloc,
        File::from_paths_metadata_of(alloc, metas, options, files),
    )? {
        Some(file) => Ok(file),
        None => Err(Trouble::Missing),
    }
}

/// A value on a line.
fn value_line(value: Option<BString>) -> Result<Vec<u8>, Trouble>
    ensures { Gives (λ line. line.items) (λ outcome. outcome ≡ of_last (option_map bstring_bytes value)) result }
{
    let Some(value) = value else {
        return Err(Trouble::Missing);
    };
    let mut line = value.into_vec();
    line.push(b'\n')?;
    Ok(line)
}

/// Values, each on a line.
fn value_lines(alloc: Global, values: Option<Vec<BString>>) -> Result<Vec<u8>, Trouble>
    ensures { Gives (λ lines. lines.items) (λ outcome. outcome ≡ of_all (option_map texts_of values)) result }
{
    match values {
        Some(values) => Ok(lines_of(alloc, &values)?),
        None => Err(Trouble::Missing),
    }
}

/// Values, each on a line.
fn lines_of(alloc: Global, values: &[BString]) -> Result<Vec<u8>, NoMemory>
    ensures { IfOk result (λ lines. lines.items ≡ flat_map spec.line (map bstring_bytes values.now)) }
{
    let mut lines = Vec::new(alloc);
    for value in values {
        lines.extend_from_slice(value)?;
        lines.push(b'\n')?;
    }
    Ok(lines)
}

/// A boolean or an integer on a line.
fn line<T: Display + Drop>(alloc: Global, value: Option<T>) -> Result<Vec<u8>, Trouble>
    ensures { (shown : T → List ℕ) → ((t : T) → T.output t ≡ Some (shown t))
        → Gives (λ line. line.items) (λ outcome. outcome ≡ of_typed shown (option_map Ok value)) result }
{
    match value {
        Some(value) => Ok(format!(in alloc; "{value}\n")?.into_bytes()),
        None => Err(Trouble::Missing),
    }
}

/// The entries of a text's sections, each on a line.
///
/// # Errors
///
/// The text is refused; out of memory.
pub fn entries(alloc: Global, text: Vec<u8>) -> Result<Vec<u8>, Trouble>
    ensures { Gives (λ lines. lines.items) (IsOutcome plains.Entries text.items) result }
{
    match loaded_lossy(alloc, text) {
        Ok(file) => Ok(entries_of(alloc, &file)?),
        Err(trouble) => Err(trouble),
    }
}

/// The entries of a file's sections, each on a line.
fn entries_of(alloc: Global, file: &File) -> Result<Vec<u8>, NoMemory>
    ensures { IfOk result (λ lines. lines.items ≡ flat_map section_text file.now.sections) }
{
    let mut lines = Vec::new(alloc);
    for section in file.sections() {
        add_entries(&mut lines, &section)?;
    }
    Ok(lines)
}

/// Adds the entries of a section, each on a line.
fn add_entries(lines: &mut Vec<u8>, section: &SectionRef<'_>) -> Result<(), NoMemory>
    ensures { IfOk result (λ _. lines.new.items ≡ lines.old.items ++ section_text (shown section.now)) }
{
    for entry in section.body() {
        let (name, value) = entry?;
        add_entry(lines, section, name.as_bytes(), &value)?;
    }
    Ok(())
}

/// Adds an entry of a section on a line.
fn add_entry(
    lines: &mut Vec<u8>,
    section: &SectionRef<'_>,
    name: &[u8],
    value: &[u8],
) -> Result<(), NoMemory>
    ensures { let header = (shown section.now).header in IfOk result (λ _.
        lines.new.items ≡ lines.old.items ++ (key_text (name_of header) (subsection_of header) name.now ++ (61 ∷ spec.line value.now))) }
{
    let header = section.header();
    add_names(lines, header.name(), header.subsection_name(), name)?;
    lines.push(b'=')?;
    lines.extend_from_slice(value)?;
    lines.push(b'\n')?;
    Ok(())
}

/// A text as a file.
///
/// # Errors
///
/// It is refused; out of memory.
fn load(alloc: Global, text: Vec<u8>) -> Result<File, Trouble>
    ensures clean { IfOk result IsClean }
    ensures made { IsLoad false text.items result }
{
    told(alloc, File::try_from_bytes_owned(alloc, text))
}

/// What is printed of a file.
fn text_of(file: &File) -> Result<Vec<u8>, NoMemory>
    ensures { IfOk result (λ text. text.items ≡ printed file.now) }
{
    Ok(file.to_bstring()?.into_vec())
}

/// What is printed of a text.
///
/// # Errors
///
/// It is refused; out of memory.
pub fn printed(alloc: Global, text: Vec<u8>) -> Result<Vec<u8>, Trouble>
    ensures { Gives (λ text. text.items) (IsOutcome plains.Print text.items) result }
{
    match load(alloc, text) {
        Ok(file) => Ok(text_of(&file)?),
        Err(trouble) => Err(trouble),
    }
}

/// A text formatted as by default.
///
/// # Errors
///
/// It is refused; out of memory.
pub fn laid_out(alloc: Global, text: &[u8], fmt: &Fmt<'_>) -> Result<Vec<u8>, Trouble>
    ensures { layout_asked fmt.now ≡ default_options → Gives (λ text. text.items) (IsOutcome plains.Fmt text.now) result }
{
    match told(alloc, normalize(alloc, text, layout_of(fmt))) {
        Ok(laid_out) => Ok(laid_out.into_vec()),
        Err(trouble) => Err(trouble),
    }
}

/// A text in which a key has the value. The file of which it is printed is clean, so that it reads back.
///
/// # Errors
///
/// The text or the key is refused; out of memory.
pub fn with_value(
    alloc: Global,
    text: Vec<u8>,
    key: KeyRef<'_>,
    value: &str,
) -> Result<Vec<u8>, Trouble>
    ensures clean { IfOk result IsOfClean }
    ensures set { Gives (λ text. text.items) (IsOutcome (plains.Set (key_of key.entry) value.now) text.items) result }
{
    match load(alloc, text) {
        Ok(mut file) => text_with(alloc, &mut file, key, value),
        Err(trouble) => Err(trouble),
    }
}

/// A text without a key's last entry in the last section that has one. The file of which it is printed is clean, too.
///
/// # Errors
///
/// There is none; the text is refused; out of memory.
pub fn without_entry(alloc: Global, text: Vec<u8>, key: KeyRef<'_>) -> Result<Vec<u8>, Trouble>
    ensures clean { IfOk result IsOfClean }
    ensures unset { Gives (λ text. text.items) (IsOutcome (plains.Unset (key_of key.entry)) text.items) result }
{
    match load(alloc, text) {
        Ok(mut file) => text_without(&mut file, key),
        Err(trouble) => Err(trouble),
    }
}

/// The text of a file in which a key gets a value.
fn text_with(
    alloc: Global,
    file: &mut File,
    key: KeyRef<'_>,
    value: &str,
) -> Result<Vec<u8>, Trouble>
    ensures clean { IsClean file.old → IfOk result IsOfClean }
    ensures set { Gives (λ text. text.items) (λ outcome. outcome ≡ of_set (key_of key.entry) value.now file.old) result }
{
    match set(alloc, file, key, value) {
        Ok(()) => Ok(text_of(file)?),
        Err(trouble) => Err(trouble),
    }
}

/// The text of a file in which a key loses its last entry.
fn text_without(file: &mut File, key: KeyRef<'_>) -> Result<Vec<u8>, Trouble>
    ensures clean { IsClean file.old → IfOk result IsOfClean }
    ensures unset { Gives (λ text. text.items) (λ outcome. outcome ≡ of_unset (key_of key.entry) file.old) result }
{
    match last_with(file, key) {
        Ok(id) => match remove(file, id, key) {
            Ok(()) => Ok(text_of(file)?),
            Err(trouble) => Err(trouble),
        },
        Err(trouble) => Err(trouble),
    }
}

/// Gives a key a value.
fn set(alloc: Global, file: &mut File, key: KeyRef<'_>, value: &str) -> Result<(), Trouble>
    ensures clean { IsClean file.old → IfOk result (λ _. IsClean file.new) }
    ensures told { IsSet (key_of key.entry) value.now result file.old file.new }
{
    match file.set_raw_value(key, value.as_bytes()) {
        Ok(old) => {
            drop(old);
            check_named(alloc, key)
        }
        Err(refusal) => Err(by_number(alloc, &refusal)),
    }
}

/// Refuses a section of neither a name nor a subsection, which the library makes and no text may have.
fn check_named(alloc: Global, key: KeyRef<'_>) -> Result<(), Trouble>
    ensures named { let names = key_of key.entry in IfOk result (λ _. is_nameless names.section names.subsection ≡ false) }
    ensures refused { let names = key_of key.entry in
        IfErr result (λ trouble. (trouble ≡ kinds.Memory) ⊎ ((is_nameless names.section names.subsection ≡ true) × (status_of trouble ≡ refusal_status 4))) }
{
    if is_nameless(key.section_name, key.subsection_name) {
        let refusal = set_raw_value::Error::Header(header::Error::InvalidName);
        Err(by_number(alloc, &refusal))
    } else {
        Ok(())
    }
}

/// The number of the last section that has an entry of a key.
fn last_with(file: &File, key: KeyRef<'_>) -> Result<SectionId, Trouble>
    ensures found { IfOk result (λ id. last_number (key_of key.entry) file.now ≡ Some id) }
    ensures missing { IfErr result (λ trouble. (trouble ≡ kinds.Memory) ⊎ ((trouble ≡ kinds.Missing) × (last_number (key_of key.entry) file.now ≡ None))) }
{
    match file.raw_values_with_sections(key) {
        Ok(found) => match found.last() {
            Some(found) => Ok(found.1.id()),
            None => Err(Trouble::Missing),
        },
        Err(existing::Error::Memory) => Err(Trouble::Memory),
        Err(_) => Err(Trouble::Missing),
    }
}

/// Takes the last entry of a key out of the section of a number.
fn remove(file: &mut File, id: SectionId, key: KeyRef<'_>) -> Result<(), Trouble>
    ensures clean { IsClean file.old → IfOk result (λ _. IsClean file.new) }
    ensures done { IfOk result (λ _. file.new ≡ apply (Remove id (key_of key.entry).name) file.old) }
    ensures refused { IfErr result (λ trouble. (trouble ≡ kinds.Memory) ⊎ ((trouble ≡ kinds.Missing) × (numbered id file.old ≡ None))) }
{
    match file.section_mut_by_id(id) {
        Ok(mut section) => remove_from(&mut section, key.value_name),
        Err(section_mut::Error::NonePasses) => Err(Trouble::Missing),
        Err(section_mut::Error::Lookup(_)) => Err(Trouble::Memory),
    }
}

/// Takes the last entry of a name out of a section.
fn remove_from(section: &mut SectionMut<'_>, name: &str) -> Result<(), Trouble>
    ensures same_file { lent section.new ≡ lent section.old }
    ensures clean { IsClean (edited section.old) → IfOk result (λ _. IsClean (edited section.new)) }
    ensures done { IfOk result (λ _. edited section.new ≡ apply (Remove (number_of section.old) name.now) (edited section.old)) }
    ensures refused { IfErr result (λ trouble. trouble ≡ kinds.Memory) }
{
    match section.remove(name) {
        Ok(old) => {
            drop(old);
            Ok(())
        }
        Err(_) => Err(Trouble::Memory),
    }
}
