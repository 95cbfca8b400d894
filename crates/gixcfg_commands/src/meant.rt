//! The entries of a key whose values are meant, and what becomes of them.
ghost use Rattle.std.specs.Prelude.{◌≡◌, ◌⊎◌, ◌++◌, [], true, map, length, option_map, take, drop, unwrap_or, IfErr, IfOk, OnOk, Some};
ghost use Rattle.std.specs.List.{list_all, list_any};
ghost use Rattle.std.specs.Option.{option_eq};
ghost use Rattle.std.specs.Str.{bytes_eq};
ghost use Rattle.bstr.specs.Owned.{bstring_bytes};
ghost use Rattle.gitconf_sources.specs.Key.{key_of};
ghost use Rattle.gitconf_state.specs.Edits.{RemoveMarked, apply, apply_all};
ghost use Rattle.gitconf_views.specs.Views.{shown};
ghost use Rattle.gitconf_store.specs.Edited.{has_number};
ghost use Rattle.gix_config.specs.SectionEditors.{edited, lent, number_of};
ghost use Rattle.gixcfg_core.specs.Entries.{values_of_name};
ghost use Rattle.gixcfg_core.specs.Patterns.{MeansNothing};
ghost use Rattle.gixcfg_core.specs.declared.trouble.Trouble.TheVariants as kinds;
ghost use Rattle.gixcfg_commands.specs.Meant as spec;
ghost use Rattle.gixcfg_commands.specs.Emptied.{losses_of};
ghost use Rattle.gixcfg_commands.specs.Setting.{has_value};
ghost use Rattle.gixcfg_commands.specs.Meant.{are_named, count_marked, holders_of, last_at, last_marked, plain_holder, removals, spared, values_of_key, IsMeant, MeansEntries};

use bstr::BString;
use gitconf_text::NoMemory;
use gitconf_views::section::SectionRef;
use gix_config::file::{SectionId, SectionMut, section_mut};
use gix_config::{File, KeyRef};
use gixcfg_core::entries::{add_values, is_listed_under, is_named};
use gixcfg_core::patterns::{is_missing_meant, marks_of};
use gixcfg_core::trouble::Trouble;
use gixcfg_words::command::Values;
use std::alloc::{AllocError, Global};

/// A section that has entries of a key.
#[derive(Clone, Copy)]
struct Holder {
    /// Its number.
    id: SectionId,
    /// How many it has.
    count: usize,
}

/// The entries of a key in file order: the sections that have them, their values, and which of them are meant.
#[derive(Drop)]
pub struct Meant {
    holders: Vec<Holder>,
    values: Vec<Option<BString>>,
    marks: Vec<bool>,
}

impl Meant {
    /// The place of the last one that is meant, among all.
    pub fn last(&self) -> Option<usize>
        ensures { result ≡ last_marked self.now.marks.items }
    {
        self.marks.iter().rposition(|mark| *mark)
    }

    /// How many are meant.
    pub fn count(&self) -> usize
        ensures { result ≡ count_marked self.now.marks.items }
    {
        self.marks.iter().filter(|mark| **mark).count()
    }

    /// Whether the one at a place has this value.
    pub fn is_at(&self, at: usize, value: &[u8]) -> bool
        ensures { result ≡ has_value (map (option_map bstring_bytes) self.now.values.items) at value.now }
    {
        match self.values.get(at) {
            Some(found) => is_value(found, value),
            None => false,
        }
    }

    /// Of which sections some entry is meant.
    ///
    /// # Errors
    ///
    /// Out of memory.
    pub fn losses(&self, alloc: Global) -> Result<Vec<bool>, AllocError>
        ensures { IfOk result (λ losses. losses.items ≡ losses_of self.now.marks.items (map plain_holder self.now.holders.items)) }
    {
        losses_of(alloc, &self.holders, &self.marks)
    }

    /// The one at a place isn't meant any more.
    pub fn spare(&mut self, at: usize)
        ensures marks { self.new.marks.items ≡ spared self.old.marks.items at }
        ensures holders { self.new.holders ≡ self.old.holders }
    {
        if let Some(mark) = self.marks.get_mut(at) {
            *mark = false;
        }
    }
}

/// Of which sections some entry is marked.
fn losses_of(alloc: Global, holders: &[Holder], marks: &[bool]) -> Result<Vec<bool>, AllocError>
    ensures { IfOk result (λ losses. losses.items ≡ losses_of marks.now (map plain_holder holders.now)) }
{
    let mut losses = Vec::with_capacity(alloc, holders.len())?;
    let mut left = marks;
    for holder in holders {
        let (own, behind) = split_marks(left, holder.count);
        losses.push(is_any(own))?;
        left = behind;
    }
    Ok(losses)
}

/// Whether one of some marks is set.
fn is_any(marks: &[bool]) -> bool
    ensures { result ≡ list_any (λ mark. mark) marks.now }
{
    marks.iter().any(|mark| *mark)
}

/// Whether there is a value, and it is this one.
fn is_value(found: &Option<BString>, value: &[u8]) -> bool
    ensures { result ≡ option_eq bytes_eq (option_map bstring_bytes found.now) (Some value.now) }
{
    match found {
        Some(found) => found.as_bytes() == value,
        None => false,
    }
}

/// The entries of a key, as `get` finds them, with those that are meant. One walk over the sections.
///
/// # Errors
///
/// A pattern can't be read; out of memory.
pub fn entries_meant(
    alloc: Global,
    file: &File,
    key: KeyRef<'_>,
    meant: Values<'_>,
) -> Result<Meant, Trouble>
    ensures found { IfOk result (λ found. (means : _) × MeansEntries meant.entry means × IsMeant (key_of key.entry) means file.now found) }
    ensures refused { IfErr result (λ trouble. (trouble ≡ kinds.Memory) ⊎ ((trouble ≡ kinds.BadPattern) × MeansNothing meant.entry)) }
{
    let (mut holders, mut values) = (Vec::new(alloc), Vec::new(alloc));
    add_entries(&mut holders, &mut values, file, key)?;
    let marks = marks_by(alloc, &values, meant)?;
    Ok(Meant {
        holders,
        values,
        marks,
    })
}

/// Adds the sections under whose names `get` finds entries of a key, and the values that these have.
fn add_entries(
    holders: &mut Vec<Holder>,
    values: &mut Vec<Option<BString>>,
    file: &File,
    key: KeyRef<'_>,
) -> Result<(), NoMemory>
    ensures holders { IfOk result (λ _. map plain_holder holders.new.items ≡ map plain_holder holders.old.items ++ holders_of (key_of key.entry) file.now) }
    ensures values { IfOk result (λ _. map (option_map bstring_bytes) values.new.items
        ≡ map (option_map bstring_bytes) values.old.items ++ values_of_key (key_of key.entry) file.now) }
{
    for section in file.sections() {
        if is_listed_under(&section, key)? {
            let count = count_added(values, &section, key.value_name)?;
            let id = section.id();
            holders.push(Holder { id, count })?;
        }
    }
    Ok(())
}

/// Adds the values of a section's entries of a name, and counts them.
fn count_added(
    values: &mut Vec<Option<BString>>,
    section: &SectionRef<'_>,
    value_name: &str,
) -> Result<usize, NoMemory>
    ensures values { IfOk result (λ _. map (option_map bstring_bytes) values.new.items
        ≡ map (option_map bstring_bytes) values.old.items ++ values_of_name value_name.now (shown section.now)) }
    ensures count { IfOk result (λ count. count ≡ length (values_of_name value_name.now (shown section.now))) }
{
    let before = values.len();
    add_values(values, section, value_name)?;
    Ok(values.len().saturating_sub(before))
}

/// Which values are meant.
fn marks_by(
    alloc: Global,
    values: &[Option<BString>],
    meant: Values<'_>,
) -> Result<Vec<bool>, Trouble>
    ensures marks { IfOk result (λ marks. (means : _) × MeansEntries meant.entry means
        × (marks.items ≡ map means (map (option_map bstring_bytes) values.now))) }
    ensures refused { IfErr result (λ trouble. (trouble ≡ kinds.Memory) ⊎ ((trouble ≡ kinds.BadPattern) × MeansNothing meant.entry)) }
{
    let texts = texts_of(alloc, values)?;
    let found = marks_of(alloc, meant, &texts)?;
    Ok(marks_of_entries(alloc, values, &found, is_missing_meant(meant))?)
}

/// The bytes of values, none of one that is missing.
fn texts_of(alloc: Global, values: &[Option<BString>]) -> Result<Vec<&[u8]>, AllocError>
    ensures { IfOk result (λ texts. map (λ t. t.now) texts.items ≡ map (λ v. unwrap_or v []) (map (option_map bstring_bytes) values.now)) }
{
    let mut texts = Vec::with_capacity(alloc, values.len())?;
    for value in values {
        texts.push(text_of(value))?;
    }
    Ok(texts)
}

/// The bytes of a value, none if it is missing.
fn text_of(value: &Option<BString>) -> &[u8]
    ensures { result.now ≡ unwrap_or (option_map bstring_bytes value.now) [] }
{
    match value {
        Some(value) => value.as_bytes(),
        None => b"",
    }
}

/// The marks of values, with another one for each that is missing.
fn marks_of_entries(
    alloc: Global,
    values: &[Option<BString>],
    marks: &[bool],
    is_missing_meant: bool,
) -> Result<Vec<bool>, AllocError>
    ensures { IfOk result (λ all. all.items ≡ spec.marks_with is_missing_meant (map (option_map bstring_bytes) values.now) marks.now) }
{
    let mut all = Vec::with_capacity(alloc, values.len())?;
    for (value, mark) in values.iter().zip(marks) {
        all.push(mark_of(value, *mark, is_missing_meant))?;
    }
    Ok(all)
}

/// The mark of a value, or another one if it is missing.
fn mark_of(value: &Option<BString>, mark: bool, is_missing_meant: bool) -> bool
    ensures { result ≡ spec.mark_with is_missing_meant (option_map bstring_bytes value.now) mark }
{
    match value {
        Some(_) => mark,
        None => is_missing_meant,
    }
}

/// The section in which the entry at a place is the last of a key. The place is one among the key's entries.
///
/// # Errors
///
/// Out of memory.
pub fn section_of_last(
    alloc: Global,
    file: &File,
    key: KeyRef<'_>,
    at: usize,
) -> Result<Option<SectionId>, NoMemory>
    ensures { IfOk result (λ id. id ≡ last_at at (holders_of (key_of key.entry) file.now)) }
{
    let (mut holders, mut values) = (Vec::new(alloc), Vec::new(alloc));
    add_entries(&mut holders, &mut values, file, key)?;
    Ok(last_at(&holders, at))
}

/// The section in which the entry at a place is the last one, of sections that have so many.
fn last_at(holders: &[Holder], at: usize) -> Option<SectionId>
    ensures { result ≡ last_at at (map plain_holder holders.now) }
{
    let (mut left, mut behind) = (holders, at);
    while let Some((holder, others)) = left.split_first() {
        if behind < holder.count {
            return if behind + 1 == holder.count {
                Some(holder.id)
            } else {
                None
            };
        }
        behind -= holder.count;
        left = others;
    }
    None
}

/// Whether all sections that have entries of a key have its names. None is as `[a.b "c"]` then.
///
/// # Errors
///
/// Out of memory.
pub fn are_named(file: &File, key: KeyRef<'_>) -> Result<bool, AllocError>
    ensures { IfOk result (λ are. are ≡ are_named (key_of key.entry) file.now) }
{
    for section in file.sections() {
        if is_listed_under(&section, key)? && !is_named(&section, key) {
            return Ok(false);
        }
    }
    Ok(true)
}

/// Removes the entries of a name that are meant, from each section in one walk.
///
/// # Errors
///
/// Out of memory.
pub fn remove_meant(file: &mut File, name: &str, meant: &Meant) -> Result<(), Trouble>
    ensures ok { OnOk result (file.new ≡ apply_all (removals name.now meant.now.marks.items (map plain_holder meant.now.holders.items)) file.old) }
    ensures memory { list_all (λ h. has_number h.0 file.old) (map plain_holder meant.now.holders.items) ≡ true → IfErr result (λ trouble. trouble ≡ kinds.Memory) }
{
    remove_from_each(file, name, &meant.holders, &meant.marks)
}

/// Removes the marked ones of the entries of a name from sections, of which each has the marks of its own entries.
fn remove_from_each(
    file: &mut File,
    name: &str,
    holders: &[Holder],
    marks: &[bool],
) -> Result<(), Trouble>
    ensures ok { OnOk result (file.new ≡ apply_all (removals name.now marks.now (map plain_holder holders.now)) file.old) }
    ensures memory { list_all (λ h. has_number h.0 file.old) (map plain_holder holders.now) ≡ true → IfErr result (λ trouble. trouble ≡ kinds.Memory) }
{
    let (mut left, mut rest) = (holders, marks);
    while let Some((holder, others)) = left.split_first() {
        let (own, behind) = split_marks(rest, holder.count);
        remove_marked(file, holder.id, name, own)?;
        rest = behind;
        left = others;
    }
    Ok(())
}

/// So many marks, and those behind them.
fn split_marks(marks: &[bool], count: usize) -> (&[bool], &[bool])
    ensures own { result.0.now ≡ take count marks.now }
    ensures behind { result.1.now ≡ drop count marks.now }
{
    marks.split_at(count.min(marks.len()))
}

/// Removes the marked ones of a section's entries of a name.
fn remove_marked(file: &mut File, id: SectionId, name: &str, marks: &[bool]) -> Result<(), Trouble>
    ensures ok { OnOk result (file.new ≡ apply (RemoveMarked id name.now marks.now) file.old) }
    ensures memory { has_number id file.old ≡ true → IfErr result (λ trouble. trouble ≡ kinds.Memory) }
{
    match file.section_mut_by_id(id) {
        Ok(mut editor) => remove_from(&mut editor, name, marks),
        Err(section_mut::Error::NonePasses) => Err(Trouble::Missing),
        Err(section_mut::Error::Lookup(_)) => Err(Trouble::Memory),
    }
}

/// Removes the marked ones of the entries of a name from a section.
fn remove_from(editor: &mut SectionMut<'_>, name: &str, marks: &[bool]) -> Result<(), Trouble>
    ensures same_file { lent editor.new ≡ lent editor.old }
    ensures ok { OnOk result (edited editor.new ≡ apply (RemoveMarked (number_of editor.old) name.now marks.now) (edited editor.old)) }
    ensures memory { IfErr result (λ trouble. trouble ≡ kinds.Memory) }
{
    let _ = editor.remove_marked(name, marks)?;
    Ok(())
}
