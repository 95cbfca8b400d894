//! Entries that are removed from a body.
ghost use Rattle.std.specs.Prelude.{◌≡◌, ℕ, List, ◌≤◌, ◌<◌, ◌+◌, ◌++◌, length, take, drop, Some, None, IfOk, OnOk, OnErr, IsOk, option_map};
ghost use Rattle.gitconf_text.specs.Part as parts;
ghost use Rattle.gitconf_text.specs.Value.{plain};
ghost use Rattle.gitconf_items.specs.Items.{entry_of, item_of, items_of};
ghost use Rattle.gitconf_state.specs.Edit.{is_entry_of, old_value};
ghost use Rattle.gitconf_state.specs.Editors.{key_and_meaning, popped, popped_entry, removed};
ghost use Rattle.gitconf_body.specs.Places.{IsLastAt, IsLastPlace};
ghost use Rattle.gitconf_body.specs.Spacings.{is_stored_entry};
ghost use Rattle.gitconf_body.specs.Taken as spec;
ghost use Rattle.gitconf_body.specs.Taken.{StayWithin};

use crate::seeking::last_place;
use crate::values::{entry_text, item_text};
use gitconf_items::entry::Entry;
use gitconf_items::items::Item;
use gitconf_text::NoMemory;
use gitconf_text::value::normalize;
use std::alloc::Global;

/// Whether line endings come first.
fn begins_line_ends(items: &[Item]) -> bool
    ensures { result ≡ spec.begins_line_ends items.now }
{
    matches!(items, [Item::LineEnds(_), ..])
}

/// Whether blanks come last.
#[tactic(auto, using(crate::proofs::Taken::ends_with))]
fn ends_blanks(items: &[Item]) -> bool
    ensures { result ≡ spec.ends_blanks items.now }
{
    match items.split_last() {
        Some((item, _)) => matches!(item, Item::Blanks(_)),
        None => false,
    }
}

/// Removes the line endings at a place, if there are any.
fn drop_line_ends(items: &mut Vec<Item>, at: usize)
    requires within { at ≤ length items.old.items }
    ensures { items.new.items ≡ take at items.old.items ++ spec.behind_line_ends (drop at items.old.items) }
{
    if begins_line_ends(items.split_at(at).1) {
        drop(items.remove(at));
    }
}

/// Removes the blanks directly before a place, if there are any.
fn drop_blanks(items: &mut Vec<Item>, at: usize)
    requires within { at ≤ length items.old.items }
    ensures { items.new.items ≡ spec.before_blanks (take at items.old.items) ++ drop at items.old.items }
{
    if ends_blanks(items.split_at(at).0) {
        drop(items.remove(at - 1));
    }
}

/// Removes the item at a place, the line endings directly after it, and the blanks directly before it.
fn take_out(items: &mut Vec<Item>, at: usize)
    requires within { at < length items.old.items }
    ensures { items.new.items ≡ spec.before_blanks (take at items.old.items) ++ spec.behind_line_ends (drop (at + 1) items.old.items) }
{
    drop_line_ends(items, at + 1);
    drop(items.remove(at));
    drop_blanks(items, at);
}

/// Removes the entry at a place. The blanks directly before it and the line endings directly after it go too. All else in the body
/// stays. Returns the raw text of its value: its pieces joined, not decoded; no bytes for an entry without `=`.
///
/// Takes memory for the result alone.
///
/// # Errors
///
/// Out of memory. The items are then as they were.
pub fn remove_at(buffer: &[u8], items: &mut Vec<Item>, at: usize) -> Result<Vec<u8>, NoMemory>
    requires within { at < length items.old.items }
    ensures ok { (key : List ℕ) → IsLastAt (λ i. is_entry_of key (item_of buffer.now i)) items.old.items at
        → OnOk result (items_of buffer.now items.new.items ≡ removed key (items_of buffer.now items.old.items)) }
    ensures answer { (key : List ℕ) → IsLastAt (λ i. is_entry_of key (item_of buffer.now i)) items.old.items at
        → IfOk result (λ v. Some v.items ≡ old_value key (items_of buffer.now items.old.items)) }
    ensures within { StayWithin items.old.items items.new.items }
    ensures err { OnErr result (items.new.items ≡ items.old.items) }
{
    let old = item_text(*items.allocator(), buffer, &items[at])?;
    take_out(items, at);
    Ok(old)
}

/// The place of the last entry, if there is one. It walks from the end up to that entry. Takes no memory.
#[tactic(auto, using(crate::proofs::Places::fronts))]
pub fn last_entry(items: &[Item]) -> Option<usize>
    ensures { IsLastPlace is_stored_entry items.now result }
{
    let mut rest = items;
    while let Some((item, before)) = rest.split_last() {
        if matches!(item, Item::Entry(_)) {
            return Some(before.len());
        }
        rest = before;
    }
    None
}

/// What a value means. Takes memory for the result, and for its raw text.
fn meaning(alloc: Global, raw: &[u8]) -> Result<Vec<u8>, NoMemory>
    ensures { IfOk result (λ text. text.items ≡ plain raw.now) }
{
    let text = normalize(alloc, raw)?;
    Ok(text.into_owned(alloc)?)
}

/// The key of the entry at a place, and what its value means.
fn told(alloc: Global, buffer: &[u8], entry: &Entry) -> Result<(Vec<u8>, Vec<u8>), NoMemory>
    ensures { IfOk result (λ t. Some (t.0.items, t.1.items) ≡ key_and_meaning (parts.EntryItem (entry_of buffer.now entry.now))) }
{
    let mut name = Vec::new(alloc);
    name.extend_from_slice(entry.name().bytes_in(buffer))?;
    let raw = entry_text(alloc, buffer, entry)?;
    let value = meaning(alloc, &raw)?;
    Ok((name, value))
}

/// Removes the last entry, which is at the place. The blanks directly before it and everything after it go too. Returns its key as it
/// is spelled, and what its value means; no bytes for an entry without `=`.
///
/// Takes memory for the result, and for the raw text of the value.
///
/// # Errors
///
/// Out of memory. The items are then as they were.
pub fn pop_at(
    buffer: &[u8],
    items: &mut Vec<Item>,
    at: usize,
) -> Result<(Vec<u8>, Vec<u8>), NoMemory>
    requires last { IsLastAt is_stored_entry items.old.items at }
    ensures ok { OnOk result (items_of buffer.now items.new.items ≡ popped (items_of buffer.now items.old.items)) }
    ensures answer { IfOk result (λ t. Some (t.0.items, t.1.items) ≡ popped_entry (items_of buffer.now items.old.items)) }
    ensures within { StayWithin items.old.items items.new.items }
    ensures err { OnErr result (items.new.items ≡ items.old.items) }
{
    let told = match &items[at] {
        Item::Entry(entry) => told(*items.allocator(), buffer, entry)?,
        _ => unreachable!(),
    };
    items.truncate(at);
    drop_blanks(items, at);
    Ok(told)
}

/// Removes the last entry, whatever its key, as [`pop_at`] does. If there is no entry, all items are removed, and the result is `None`.
///
/// One walk over the items. Takes memory for the result, and for the raw text of the value.
///
/// # Errors
///
/// Out of memory, only if there is an entry. The items are then as they were.
pub fn pop(buffer: &[u8], items: &mut Vec<Item>) -> Result<Option<(Vec<u8>, Vec<u8>)>, NoMemory>
    ensures ok { OnOk result (items_of buffer.now items.new.items ≡ popped (items_of buffer.now items.old.items)) }
    ensures answer { IfOk result (λ o. option_map (λ t. (t.0.items, t.1.items)) o ≡ popped_entry (items_of buffer.now items.old.items)) }
    ensures none { popped_entry (items_of buffer.now items.old.items) ≡ None → IsOk result }
    ensures within { StayWithin items.old.items items.new.items }
    ensures err { OnErr result (items.new.items ≡ items.old.items) }
{
    let Some(at) = last_entry(items) else {
        items.clear();
        return Ok(None);
    };
    Ok(Some(pop_at(buffer, items, at)?))
}
