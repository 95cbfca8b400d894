//! What a file's settings have wrong beside the names that git knows.
ghost use Rattle.std.specs.Prelude.{◌≡◌, ◌<◌, ◌++◌, ◌∷◌, List, IfOk, length, map, reverse, slice_index_or};
ghost use Rattle.std.specs.List.{list_any};
ghost use Rattle.std.specs.Option.{option_copied, option_map};
ghost use Rattle.gitconf_sources.specs.Key.{key_of};
ghost use Rattle.gixcfg_names.specs.Findings as spec;
ghost use Rattle.gixcfg_names.specs.Findings.{Plain, has_key};
ghost use Rattle.gixcfg_names.specs.Rows.{plain};
ghost use Rattle.gixcfg_names.specs.Seen.{Sees};

use crate::known::{has_section, row_of};
use crate::nearest::nearest;
use crate::rows::Row;
use crate::values::{is_of, is_one_of};
use gitconf_sources::key::KeyRef;
use gixcfg_words::kinds::Kind;
use std::alloc::{AllocError, Global};
use std::collections::BTreeSet;

/// A setting of a file.
#[derive(Clone, Copy)]
pub struct Setting<'a> {
    /// Where it is, in bytes.
    pub at: usize,
    /// Its key as git has it: the names with dots between them, the first and the last in lower case.
    pub key: &'a [u8],
    /// Its value, if it has one.
    pub value: Option<&'a [u8]>,
}

/// What is wrong with a setting.
#[derive(Clone, Copy)]
pub enum Wrong {
    /// git knows no such name in this section. The name that it was meant to be, if one is near.
    Unknown(Option<Row>),
    /// git has given the name up. What took its place, or `none` if nothing did.
    GivenUp(&'static str),
    /// The value isn't of the name's type.
    NotOf(Kind),
    /// The value is none of the words that the name's is one of, which have commas between them.
    NoneOf(&'static str),
    /// The file sets the key again, and only the last setting counts.
    SetAgain,
}

/// A setting that has something wrong.
#[derive(Clone, Copy)]
pub struct Finding<'a> {
    /// The setting.
    pub setting: Setting<'a>,
    /// What is wrong.
    pub wrong: Wrong,
}

/// What is wrong with each setting, by what git knows. It is in their order, of each the first of [`Wrong`].
///
/// Of names in a section that git doesn't know nothing is told. In a section with a subsection, where other programs keep names of their
/// own, a name that git doesn't know is told only if it is near one that git does. For each setting one walk over the rows, and a look
/// into the set of those that come behind.
///
/// # Errors
///
/// Out of memory.
pub fn findings<'a>(
    alloc: Global,
    rows: &[Row],
    settings: &[Setting<'a>],
) -> Result<Vec<Finding<'a>>, AllocError>
    ensures { IfOk result (λ found. map spec.plain_finding found.items ≡ spec.findings (map plain rows.now) (map spec.plain_setting settings.now)) }
{
    let mut seen = BTreeSet::new(alloc);
    let mut found = Vec::new(alloc);
    let mut at = settings.len();
    while at > 0 {
        at -= 1;
        note(alloc, rows, &mut seen, &mut found, setting_at(settings, at))?;
    }
    found.reverse();
    Ok(found)
}

/// A copy of the setting at a place.
fn setting_at<'a>(settings: &[Setting<'a>], at: usize) -> Setting<'a>
    requires { at < length settings.now }
    ensures { result ≡ slice_index_or settings.now at result }
{
    copied(&settings[at])
}

/// A copy of what is behind a reference. The proof does not cover `*item` itself where `T` is a struct of references.
fn copied<T: Copy>(item: &T) -> T
    ensures { result ≡ item.now }
{
    *item
}

/// Adds a setting to what is found, if something is wrong with it, and its key to those of the settings behind it.
fn note<'a>(
    alloc: Global,
    rows: &[Row],
    seen: &mut BTreeSet<&'a [u8]>,
    found: &mut Vec<Finding<'a>>,
    setting: Setting<'a>,
) -> Result<(), AllocError>
    ensures { (behind : List Plain) → Sees seen.old behind
        → reverse (map spec.plain_finding found.old.items) ≡ spec.findings (map plain rows.now) behind
        → IfOk result (λ _. Sees seen.new (spec.plain_setting setting.entry ∷ behind)
        × (reverse (map spec.plain_finding found.new.items) ≡ spec.findings (map plain rows.now) (spec.plain_setting setting.entry ∷ behind))) }
{
    let is_again = is_again(seen, setting.key)?;
    let wrong = told(alloc, rows, setting, is_again)?;
    add_found(found, setting, wrong)
}

/// Whether a set of the keys of settings has this one, which it has from then on.
fn is_again<'a>(seen: &mut BTreeSet<&'a [u8]>, key: &'a [u8]) -> Result<bool, AllocError>
    ensures { (s : Plain) (behind : List Plain) → s.key ≡ key.entry.now → Sees seen.old behind
        → IfOk result (λ again. (again ≡ list_any (has_key s.key) behind) × Sees seen.new (s ∷ behind)) }
{
    Ok(!seen.insert(key)?)
}

/// Adds a setting, if something is wrong with it.
fn add_found<'a>(
    found: &mut Vec<Finding<'a>>,
    setting: Setting<'a>,
    wrong: Option<Wrong>,
) -> Result<(), AllocError>
    ensures { IfOk result (λ _. map spec.plain_finding found.new.items ≡ map spec.plain_finding found.old.items
        ++ spec.found_with (spec.plain_setting setting.entry) (option_map spec.plain_wrong wrong)) }
{
    if let Some(wrong) = wrong {
        found.push(Finding { setting, wrong })?;
    }
    Ok(())
}

/// What is wrong with a setting, if something is.
fn told(
    alloc: Global,
    rows: &[Row],
    setting: Setting<'_>,
    is_again: bool,
) -> Result<Option<Wrong>, AllocError>
    ensures { IfOk result (λ told. option_map spec.plain_wrong told ≡ spec.told (map plain rows.now) (spec.plain_setting setting.entry) is_again) }
{
    match KeyRef::parse_unvalidated(setting.key) {
        Some(key) => told_of(alloc, rows, key, setting.value, is_again),
        None => Ok(None),
    }
}

/// What is wrong with a setting of a key, if something is.
fn told_of(
    alloc: Global,
    rows: &[Row],
    key: KeyRef<'_>,
    value: Option<&[u8]>,
    is_again: bool,
) -> Result<Option<Wrong>, AllocError>
    ensures { IfOk result (λ told. option_map spec.plain_wrong told
        ≡ spec.told_of (map plain rows.now) (key_of key.entry) (option_copied value.entry) is_again) }
{
    match row_of(rows, key) {
        Some(row) => Ok(told_of_known(&row, value, is_again)),
        None => told_of_unknown(alloc, rows, key),
    }
}

/// What is wrong with a setting of a name that git knows, if something is.
fn told_of_known(row: &Row, value: Option<&[u8]>, is_again: bool) -> Option<Wrong>
    ensures { option_map spec.plain_wrong result ≡ spec.told_of_known (plain row.now) (option_copied value.entry) is_again }
{
    if let Some(instead) = row.instead {
        return Some(Wrong::GivenUp(instead));
    }
    if let Some(kind) = wrong_kind(row.kind, value) {
        return Some(Wrong::NotOf(kind));
    }
    if let Some(words) = wrong_words(row.words, value) {
        return Some(Wrong::NoneOf(words));
    }
    if is_again && row.is_single {
        return Some(Wrong::SetAgain);
    }
    None
}

/// The type of a name, if a value isn't of it.
fn wrong_kind(kind: Option<Kind>, value: Option<&[u8]>) -> Option<Kind>
    ensures { result ≡ spec.wrong_kind kind (option_copied value.entry) }
{
    match kind {
        Some(kind) if !is_of(value, kind) => Some(kind),
        _ => None,
    }
}

/// The words of a name, if a value is none of them.
fn wrong_words(words: Option<&'static str>, value: Option<&[u8]>) -> Option<&'static str>
    ensures { option_map (λ text. text.now) result
        ≡ spec.wrong_words (option_map (λ text. text.now) words.entry) (option_copied value.entry) }
{
    match words {
        Some(words) if !is_one_of(value, words) => Some(words),
        _ => None,
    }
}

/// What is told of a name that git doesn't know.
fn told_of_unknown(
    alloc: Global,
    rows: &[Row],
    key: KeyRef<'_>,
) -> Result<Option<Wrong>, AllocError>
    ensures { IfOk result (λ told. option_map spec.plain_wrong told ≡ spec.told_of_unknown (map plain rows.now) (key_of key.entry)) }
{
    if !has_section(rows, key.section_name) {
        return Ok(None);
    }
    match nearest(alloc, rows, key)? {
        None if key.subsection_name.is_some() => Ok(None),
        row => Ok(Some(Wrong::Unknown(row))),
    }
}
