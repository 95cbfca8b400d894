//! The entries of a file.
ghost use Rattle.std.specs.Prelude.{◌≡◌, ◌⊎◌, ℕ, Bool, List, IfErr, IfOk, map};
ghost use Rattle.gitconf_sources.specs.Key.{key_of};
ghost use Rattle.gixcfg_core.specs.Entries.{plain_found};
ghost use Rattle.gixcfg_core.specs.Pieces.{IsGiven};
ghost use Rattle.gixcfg_core.specs.Patterns.{is_found, IsNoPatternOfKeys, IsRegexOfKeys, Means, MeansNothing, Regex};
ghost use Rattle.gixcfg_core.specs.declared.trouble.Trouble.TheVariants as kinds;
ghost use Rattle.gixcfg_commands.specs.Entries as spec;
ghost use Rattle.gixcfg_commands.specs.Entries.{file_entries, file_lines, key_entries, value_text, AreLike, AreMeant};

use gix_config::{File, KeyRef};
use gixcfg_core::entries::{Found, Sought, add_found, is_listed_under, put_lines};
use gixcfg_core::lines::Line;
use gixcfg_core::origins::{Located, before_of};
use gixcfg_core::patterns::{marks_of, marks_of_keys};
use gixcfg_core::streams::put;
use gixcfg_core::trouble::Trouble;
use gixcfg_words::command::{Form, Values};
use std::alloc::{AllocError, Global};
use std::io::Write;

/// All entries of a file's sections, in order.
///
/// # Errors
///
/// Out of memory.
pub fn all_entries(
    alloc: Global,
    file: &File,
    form: &Form,
    read: &Located,
) -> Result<Vec<Found>, Trouble>
    ensures { IfOk result (λ found. map plain_found found.items ≡ file_entries form.now read.now file.now) }
{
    let mut found = Vec::new(alloc);
    for section in file.sections() {
        let before = before_of(alloc, section.meta(), form, read)?;
        let sought = Sought {
            before: &before,
            value_name: None,
            has_subsection: true,
        };
        add_found(&mut found, &section, &sought)?;
    }
    Ok(found)
}

/// Gives a stream all entries of a file's sections, in order, a line each. The lines are as `list` prints them. They are written by pieces
/// as they are made.
///
/// # Errors
///
/// The stream fails; out of memory. It was given a beginning.
pub fn put_all_lines<W: Write>(
    alloc: Global,
    file: &File,
    form: &Form,
    read: &Located,
    out: &mut W,
) -> Result<(), Trouble>
    ensures { IsGiven (file_lines form.now read.now file.now) result (W.contents out.old) (W.contents out.new) }
{
    let line = Line::of_entries(form);
    let mut held = Vec::new(alloc);
    for section in file.sections() {
        let before = before_of(alloc, section.meta(), form, read)?;
        put_lines(&mut held, &line, &before, &section, out)?;
    }
    put(&held, out)
}

/// All entries of a key, in order.
pub fn entries_of(
    alloc: Global,
    file: &File,
    key: KeyRef<'_>,
    form: &Form,
    read: &Located,
) -> Result<Vec<Found>, Trouble>
    ensures { IfOk result (λ found. map plain_found found.items ≡ key_entries form.now read.now (key_of key.entry) file.now) }
{
    let mut found = Vec::new(alloc);
    for section in file.sections() {
        if is_listed_under(&section, key)? {
            let before = before_of(alloc, section.meta(), form, read)?;
            let sought = Sought {
                before: &before,
                value_name: Some(key.value_name),
                has_subsection: true,
            };
            add_found(&mut found, &section, &sought)?;
        }
    }
    Ok(found)
}

/// The entries in whose keys a pattern is found.
///
/// # Errors
///
/// The pattern can't be read; out of memory.
pub fn entries_like(
    alloc: Global,
    entries: Vec<Found>,
    pattern: &str,
) -> Result<Vec<Found>, Trouble>
    ensures found { IfOk result (λ found. AreLike pattern.now (map plain_found entries.items) (map plain_found found.items)) }
    ensures refused { IfErr result (λ trouble. (trouble ≡ kinds.Memory) ⊎ ((trouble ≡ kinds.BadPattern) × IsNoPatternOfKeys pattern.now)) }
{
    let marks = marks_by_keys(alloc, &entries, pattern)?;
    Ok(marked(alloc, entries, &marks)?)
}

/// The entries whose values are meant.
///
/// # Errors
///
/// A pattern can't be read; out of memory.
pub fn entries_meant(
    alloc: Global,
    entries: Vec<Found>,
    values: Values<'_>,
) -> Result<Vec<Found>, Trouble>
    ensures found { IfOk result (λ found. AreMeant values.entry (map plain_found entries.items) (map plain_found found.items)) }
    ensures refused { IfErr result (λ trouble. (trouble ≡ kinds.Memory) ⊎ ((trouble ≡ kinds.BadPattern) × MeansNothing values.entry)) }
{
    if let Values::Any = values {
        return Ok(entries);
    }
    let marks = marks_by_values(alloc, &entries, values)?;
    Ok(marked(alloc, entries, &marks)?)
}

/// In the keys of which entries a pattern is found.
fn marks_by_keys(alloc: Global, entries: &[Found], pattern: &str) -> Result<Vec<bool>, Trouble>
    ensures marks { IfOk result (λ marks. (regex : Regex) × IsRegexOfKeys pattern.now regex
        × (marks.items ≡ map (λ f. is_found regex f.names) (map plain_found entries.now))) }
    ensures refused { IfErr result (λ trouble. (trouble ≡ kinds.Memory) ⊎ ((trouble ≡ kinds.BadPattern) × IsNoPatternOfKeys pattern.now)) }
{
    let keys = keys_of(alloc, entries)?;
    marks_of_keys(alloc, pattern, &keys)
}

/// The keys of entries.
fn keys_of(alloc: Global, entries: &[Found]) -> Result<Vec<&[u8]>, AllocError>
    ensures { IfOk result (λ keys. map (λ k. k.now) keys.items ≡ map (λ f. f.names) (map plain_found entries.now)) }
{
    let mut keys = Vec::with_capacity(alloc, entries.len())?;
    for entry in entries {
        keys.push(entry.names.as_slice())?;
    }
    Ok(keys)
}

/// Which entries have a value that is meant.
fn marks_by_values(
    alloc: Global,
    entries: &[Found],
    values: Values<'_>,
) -> Result<Vec<bool>, Trouble>
    ensures marks { IfOk result (λ marks. (test : List ℕ → Bool) × Means values.entry test
        × (marks.items ≡ map (λ f. test (value_text f)) (map plain_found entries.now))) }
    ensures refused { IfErr result (λ trouble. (trouble ≡ kinds.Memory) ⊎ ((trouble ≡ kinds.BadPattern) × MeansNothing values.entry)) }
{
    let texts = texts_of(alloc, entries)?;
    marks_of(alloc, values, &texts)
}

/// What the values of entries are, no bytes for one without `=`.
fn texts_of(alloc: Global, entries: &[Found]) -> Result<Vec<&[u8]>, AllocError>
    ensures { IfOk result (λ texts. map (λ t. t.now) texts.items ≡ map value_text (map plain_found entries.now)) }
{
    let mut texts = Vec::with_capacity(alloc, entries.len())?;
    for entry in entries {
        texts.push(entry.value().unwrap_or(b""))?;
    }
    Ok(texts)
}

/// Those that are marked, in order.
fn marked(alloc: Global, entries: Vec<Found>, marks: &[bool]) -> Result<Vec<Found>, AllocError>
    ensures { IfOk result (λ found. map plain_found found.items ≡ spec.marked marks.now (map plain_found entries.items)) }
{
    let mut found = Vec::new(alloc);
    for (entry, mark) in entries.into_iter().zip(marks) {
        if *mark {
            found.push(entry)?;
        }
    }
    Ok(found)
}
