//! Values that are set in a body with an editor of it.
ghost use Rattle.std.specs.Prelude.{◌≡◌, ◌↔◌, ℕ, List, ◌+◌, ◌-◌, ◌<◌, ◌≤◌, ◌^◌, min, true, Option, Some, None, ◌∷◌, [], length, IfOk, IfErr, OnOk, OnErr, IsErrOf, option_map};
ghost use Rattle.gitconf_text.specs.Part as parts;
ghost use Rattle.gitconf_text.specs.Value.{escaped};
ghost use Rattle.gitconf_items.specs.declared.items.Item.TheVariants as kinds;
ghost use Rattle.gitconf_items.specs.Items.{item_of, entry_of, items_of};
ghost use Rattle.gitconf_items.specs.ItemsFit.{AreItemsWithin, EntryFits};
ghost use Rattle.gitconf_state.specs.Edit.{is_entry_of, item_raw, old_value, with_value};
ghost use Rattle.gitconf_state.specs.Editors as state;
ghost use Rattle.gitconf_body.specs.Buffers.{Grows, StandsAt};
ghost use Rattle.gitconf_body.specs.Editors as spec;
ghost use Rattle.gitconf_body.specs.Editors.{around_in, editor_in, AroundFits, EditorFits, IfEntry};
ghost use Rattle.gitconf_body.specs.Places.{IsLastAt, IsLastPlace};
ghost use Rattle.gitconf_body.specs.Standing.{Stand};

use crate::buffer::check_room;
use crate::editor::{Around, Editor};
use crate::push::{around_len, check_push, entry_with, push, put_around, put_value};
use crate::seeking::last_place;
use crate::values::item_text;
use gitconf_items::entry::{AssignedRef, Entry};
use gitconf_items::event::Span;
use gitconf_items::items::Item;
use gitconf_text::parse::span;
use gitconf_text::value::escaped_len;

/// The blanks before and after the `=` of an entry; if it has none, those of the editor, added to the buffer if they aren't
/// there.
#[tactic(auto, using(crate::proofs::Buffers::extending))]
fn separator_of(
    buffer: &mut Vec<u8>,
    around: &Around<'_>,
    entry: &Entry,
) -> Result<(Span, Span), span::Error>
    requires room { length buffer.old.items < 2 ^ 32 }
    requires entry { EntryFits (length buffer.old.items) entry.now }
    requires fits { AroundFits (length buffer.old.items) around.now }
    ensures before { IfOk result (λ p. StandsAt buffer.new.items p.0 (spec.separator_in buffer.old.items around.now entry.now).0) }
    ensures behind { IfOk result (λ p. StandsAt buffer.new.items p.1 (spec.separator_in buffer.old.items around.now entry.now).1) }
    ensures grows { Grows result (spec.separator_put around.now entry.now) buffer.old.items buffer.new.items }
{
    match entry.assigned() {
        AssignedRef::Nothing => put_around(buffer, around),
        AssignedRef::Plain { blanks, .. } => Ok((entry.blanks(), blanks)),
        AssignedRef::Continued(continued) => Ok((entry.blanks(), continued.blanks)),
    }
}

/// The entry with another value, which is added to the buffer: with its own blanks around `=`, or those of the editor if it has none.
#[tactic(auto, using(crate::proofs::Buffers::extending))]
fn changed_entry(
    buffer: &mut Vec<u8>,
    around: &Around<'_>,
    entry: &Entry,
    value: &[u8],
) -> Result<Entry, span::Error>
    requires room { length buffer.old.items < 2 ^ 32 }
    requires entry { EntryFits (length buffer.old.items) entry.now }
    requires fits { AroundFits (length buffer.old.items) around.now }
    ensures stands { (blanks : Option (List ℕ)) → IfOk result (λ e. Stand buffer.new.items (kinds.Entry e ∷ [])
        (with_value (record {
          leading = blanks;
          before = (around_in buffer.old.items around.now).0;
          behind = (around_in buffer.old.items around.now).1;
        }) value.now
        (parts.EntryItem (entry_of buffer.old.items entry.now)) ∷ [])) }
    ensures grows { Grows result (spec.separator_put around.now entry.now + length (escaped value.now)) buffer.old.items buffer.new.items }
{
    let (before, behind) = separator_of(buffer, around, entry)?;
    let value = put_value(buffer, value)?;
    Ok(entry_with(*buffer.allocator(), entry.name(), before, behind, value)?)
}

/// How many bytes an item's entry adds to the buffer when it gets another value, or `usize::MAX` if there are more.
fn changed_len(around: &Around<'_>, item: &Item, value: &[u8]) -> usize
    ensures { IfEntry item.now (λ e. result ≡ min (spec.separator_put around.now e + length (escaped value.now)) (2 ^ 64 - 1)) }
{
    let Item::Entry(entry) = item else {
        return 0;
    };
    match entry.assigned() {
        AssignedRef::Nothing => escaped_len(value).saturating_add(around_len(around)),
        AssignedRef::Plain { .. } | AssignedRef::Continued(_) => escaped_len(value),
    }
}

/// Checks that a buffer has room for what [`change`] adds to it.
fn check_change(
    buffer: &[u8],
    items: &[Item],
    at: usize,
    editor: &Editor<'_>,
    key: &[u8],
    value: &[u8],
) -> Result<(), span::Error>
    requires room { length buffer.now < 2 ^ 32 }
    requires last { IsLastAt (λ i. is_entry_of key.now (item_of buffer.now i)) items.now at }
    ensures too_large { IsErrOf result 3
        ↔ (2 ^ 32 ≤ length buffer.now + spec.set_put editor.now key.now value.now (items_of buffer.now items.now)) }
    ensures only { IfErr result (λ e. e ≡ 3) }
{
    check_room(buffer, changed_len(&editor.around, &items[at], value))
}

/// Gives the entry at a place another value.
fn change(
    buffer: &mut Vec<u8>,
    items: &mut Vec<Item>,
    at: usize,
    editor: &Editor<'_>,
    key: &[u8],
    value: &[u8],
) -> Result<(), span::Error>
    requires room { length buffer.old.items < 2 ^ 32 }
    requires within { AreItemsWithin (length buffer.old.items) items.old.items }
    requires fits { EditorFits (length buffer.old.items) editor.now }
    requires last { IsLastAt (λ i. is_entry_of key.now (item_of buffer.old.items i)) items.old.items at }
    ensures ok { OnOk result (items_of buffer.new.items items.new.items
        ≡ state.value_set (editor_in buffer.old.items editor.now) key.now value.now (items_of buffer.old.items items.old.items)) }
    ensures within { AreItemsWithin (length buffer.new.items) items.new.items }
    ensures grows { Grows result (spec.set_put editor.now key.now value.now (items_of buffer.old.items items.old.items)) buffer.old.items buffer.new.items }
    ensures err { OnErr result (items.new.items ≡ items.old.items) }
{
    let entry = match &items[at] {
        Item::Entry(entry) => changed_entry(buffer, &editor.around, entry, value)?,
        _ => unreachable!(),
    };
    items[at] = Item::Entry(entry);
    Ok(())
}

/// The place of the last entry of a key, `None` if none has it. There is a result if the buffer has room for what [`set_at`] adds to
/// it there. One walk over the items. Takes no memory.
///
/// # Errors
///
/// A [`span::Error`] (E3) if the buffer would be longer than 4294967295 bytes.
pub fn place_to_set(
    buffer: &[u8],
    items: &[Item],
    editor: &Editor<'_>,
    key: &[u8],
    value: &[u8],
) -> Result<Option<usize>, span::Error>
    requires room { length buffer.now < 2 ^ 32 }
    ensures place { IfOk result (λ place. IsLastPlace (λ i. is_entry_of key.now (item_of buffer.now i)) items.now place) }
    ensures too_large { IsErrOf result 3
        ↔ (2 ^ 32 ≤ length buffer.now + spec.set_put editor.now key.now value.now (items_of buffer.now items.now)) }
    ensures only { IfErr result (λ e. e ≡ 3) }
{
    let place = last_place(buffer, items, key);
    match place {
        Some(at) => check_change(buffer, items, at, editor, key, value)?,
        None => check_push(buffer, editor, key, Some(value), None)?,
    }
    Ok(place)
}

/// Sets the value of a key, as [`set`] does, at the place that [`place_to_set`] found.
///
/// # Errors
///
/// A [`span::Error`]: E3 where the buffer would be longer than 4294967295 bytes, otherwise E27 when out of memory. The items are then as
/// they were, and the buffer may have grown.
pub fn set_at(
    buffer: &mut Vec<u8>,
    items: &mut Vec<Item>,
    place: Option<usize>,
    editor: &Editor<'_>,
    key: &[u8],
    value: &[u8],
) -> Result<Option<Vec<u8>>, span::Error>
    requires room { length buffer.old.items < 2 ^ 32 }
    requires within { AreItemsWithin (length buffer.old.items) items.old.items }
    requires fits { EditorFits (length buffer.old.items) editor.now }
    requires place { IsLastPlace (λ i. is_entry_of key.now (item_of buffer.old.items i)) items.old.items place }
    ensures ok { OnOk result (items_of buffer.new.items items.new.items
        ≡ state.value_set (editor_in buffer.old.items editor.now) key.now value.now (items_of buffer.old.items items.old.items)) }
    ensures answer { IfOk result (λ o. option_map (λ v. v.items) o ≡ old_value key.now (items_of buffer.old.items items.old.items)) }
    ensures within { AreItemsWithin (length buffer.new.items) items.new.items }
    ensures grows { Grows result (spec.set_put editor.now key.now value.now (items_of buffer.old.items items.old.items)) buffer.old.items buffer.new.items }
    ensures err { OnErr result (items.new.items ≡ items.old.items) }
{
    let Some(at) = place else {
        push(buffer, items, editor, key, Some(value), None)?;
        return Ok(None);
    };
    let old = item_text(*buffer.allocator(), buffer, &items[at])?;
    change(buffer, items, at, editor, key, value)?;
    Ok(Some(old))
}

/// Gives the last entry of a key another value: what follows `=` is replaced, and `=` is added if there is none, with the
/// editor's blanks around it. If no entry has the key, a line with it is pushed, as [`push`] does. Returns the raw
/// text of the old value: its pieces joined, not decoded; no bytes for an entry without `=`; `None` if there was no entry.
///
/// One walk over the items. Takes memory for the old value, for what is added to the buffer, and for new items.
///
/// # Errors
///
/// A [`span::Error`]: E3 if and only if the buffer would be longer than 4294967295 bytes, before any allocation, otherwise E27 when
/// out of memory. The items are then as they were, and the buffer may have grown.
pub fn set(
    buffer: &mut Vec<u8>,
    items: &mut Vec<Item>,
    editor: &Editor<'_>,
    key: &[u8],
    value: &[u8],
) -> Result<Option<Vec<u8>>, span::Error>
    requires room { length buffer.old.items < 2 ^ 32 }
    requires within { AreItemsWithin (length buffer.old.items) items.old.items }
    requires fits { EditorFits (length buffer.old.items) editor.now }
    ensures ok { OnOk result (items_of buffer.new.items items.new.items
        ≡ state.value_set (editor_in buffer.old.items editor.now) key.now value.now (items_of buffer.old.items items.old.items)) }
    ensures answer { IfOk result (λ o. option_map (λ v. v.items) o ≡ old_value key.now (items_of buffer.old.items items.old.items)) }
    ensures within { AreItemsWithin (length buffer.new.items) items.new.items }
    ensures grows { Grows result (spec.set_put editor.now key.now value.now (items_of buffer.old.items items.old.items)) buffer.old.items buffer.new.items }
    ensures refused { 2 ^ 32 ≤ length buffer.old.items + spec.set_put editor.now key.now value.now (items_of buffer.old.items items.old.items)
        → IsErrOf result 3 }
    ensures err { OnErr result (items.new.items ≡ items.old.items) }
{
    let place = place_to_set(buffer, items, editor, key, value)?;
    set_at(buffer, items, place, editor, key, value)
}
