//! What the values of entries mean, and the last entry of a key.
ghost use Rattle.std.specs.Prelude.{◌≡◌, ◌≢◌, ℕ, List, IfOk, MatchResult, OnErr, None, Some, filter};
ghost use Rattle.std.specs.List.{last_or};
ghost use Rattle.std.specs.Option.{option_map};
ghost use Rattle.bstr.specs.Owned.{bstring_bytes};
ghost use Rattle.gitconf_text.specs.Document.{document_entry};
ghost use Rattle.gitconf_text.specs.Names.{is_same_name};
ghost use Rattle.gitconf_text.specs.Value.{raw_of, plain};
ghost use Rattle.gitconf_items.specs.Items.{entry_of, items_of, value_of};
ghost use Rattle.gitconf_state.specs.Lookup as state;
ghost use Rattle.gitconf_state.specs.State.{entries_of};

use crate::seeking::last_place;
use crate::values::raw_text;
use bstr::BString;
use gitconf_items::entry::{AssignedRef, Entry, Value};
use gitconf_items::items::Item;
use gitconf_text::NoMemory;
use gitconf_text::value::normalize;
use std::alloc::Global;

/// What a raw text means.
fn decoded(alloc: Global, raw: &[u8]) -> Result<BString, NoMemory>
    ensures { IfOk result (λ text. bstring_bytes text ≡ plain raw.now) }
{
    let meaning = normalize(alloc, raw)?;
    Ok(BString::new(meaning.into_owned(alloc)?))
}

/// What a value of several pieces means. Memory is taken for the result, and for the raw text.
fn joined(alloc: Global, buffer: &[u8], value: &Value) -> Result<BString, NoMemory>
    ensures { IfOk result (λ text. bstring_bytes text ≡ plain (raw_of (value_of buffer.now value.now))) }
{
    let raw = raw_text(alloc, buffer, value)?;
    decoded(alloc, &raw)
}

/// What an entry means: an empty text without `=`, which takes no memory. Memory is taken for the result, and for the raw
/// text of a value of several pieces.
pub fn entry_meaning(alloc: Global, buffer: &[u8], entry: &Entry) -> Result<BString, NoMemory>
    ensures { let e = document_entry (entry_of buffer.now entry.now) in MatchResult result (λ text. bstring_bytes text ≡ state.meaning e) (λ _. e.raw ≢ None) }
{
    match entry.assigned() {
        AssignedRef::Nothing => Ok(BString::new(Vec::new(alloc))),
        AssignedRef::Plain { value, .. } => decoded(alloc, value.bytes_in(buffer)),
        AssignedRef::Continued(continued) => joined(alloc, buffer, &continued.value),
    }
}

/// What the value of an entry means, if it has one. Takes memory as [`entry_meaning`] does.
pub fn entry_value(alloc: Global, buffer: &[u8], entry: &Entry) -> Result<Option<BString>, NoMemory>
    ensures ok { IfOk result (λ value. option_map bstring_bytes value ≡ option_map plain (document_entry (entry_of buffer.now entry.now)).raw) }
    ensures err { OnErr result ((bytes : List ℕ) × ((document_entry (entry_of buffer.now entry.now)).raw ≡ Some bytes)) }
{
    match entry.assigned() {
        AssignedRef::Nothing => Ok(None),
        AssignedRef::Plain { value, .. } => Ok(Some(decoded(alloc, value.bytes_in(buffer))?)),
        AssignedRef::Continued(continued) => Ok(Some(joined(alloc, buffer, &continued.value)?)),
    }
}

/// The last entry of a key among items, if there is one. It walks from the end up to that entry.
pub fn last_entry<'a>(buffer: &[u8], items: &'a [Item], key: &[u8]) -> Option<&'a Entry>
    ensures { option_map (λ e. document_entry (entry_of buffer.now e.now)) result
        ≡ last_or None (filter (λ e. is_same_name key.now e.name) (entries_of (items_of buffer.now items.now))) }
{
    let at = last_place(buffer, items, key)?;
    match items.get(at) {
        Some(Item::Entry(entry)) => Some(entry),
        _ => unreachable!(),
    }
}
