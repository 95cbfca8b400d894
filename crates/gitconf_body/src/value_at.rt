//! Entries that are written at a place among the items of a body.
ghost use Rattle.std.specs.Prelude.{◌≡◌, ◌↔◌, ◌+◌, ◌-◌, ◌<◌, ◌≤◌, ◌^◌, ◌∷◌, ◌++◌, min, drop, take, length, true, IfErr, OnOk, OnErr, IsErrOf};
ghost use Rattle.gitconf_text.specs.Value.{escaped};
ghost use Rattle.gitconf_items.specs.declared.items.Item.TheVariants as kinds;
ghost use Rattle.gitconf_items.specs.Items.{assigned_of, items_of};
ghost use Rattle.gitconf_items.specs.ItemsFit.{AreItemsWithin, EntryFits};
ghost use Rattle.gitconf_state.specs.Editors as state;
ghost use Rattle.gitconf_body.specs.Buffers.{Grows};
ghost use Rattle.gitconf_body.specs.Editors.{editor_in, EditorFits};
ghost use Rattle.gitconf_body.specs.Standing.{Stand, end_items};
ghost use Rattle.gitconf_body.specs.ValuesAt as spec;
ghost use Rattle.gitconf_body.specs.ValuesAt.{IfReplaces, behind_way, instead_of, written_put};

use crate::buffer::check_room;
use crate::editor::Editor;
use crate::push::{put_entry, value_len};
use gitconf_items::entry::{AssignedRef, Entry, Value};
use gitconf_items::event::Span;
use gitconf_items::items::Item;
use gitconf_text::NoMemory;
use gitconf_text::parse::span;

/// What an entry that is written at a place replaces.
#[derive(Clone, Copy)]
pub enum InPlaceOf {
    /// Nothing: what is there stays after the new entry.
    Nothing,
    /// The whole entry there.
    Entry,
    /// The entry there, except that the last line ending of its value may stay. It stays if that value ends in an empty last piece and a
    /// comment comes next, apart from blanks: it keeps the comment off the new value.
    EntryButLineEnd,
}

/// The last line ending among the pieces of a value of several pieces; no bytes if none of them has one.
fn last_line_end(value: &Value) -> Span
    ensures { result ≡ spec.last_end value.now.pieces.items }
{
    let mut last = Span::NOTHING;
    for piece in value.pieces.iter() {
        if piece.line_end.len != 0 {
            last = piece.line_end;
        }
    }
    last
}

/// Whether a comment comes next, apart from blanks.
fn is_before_comment(items: &[Item]) -> bool
    ensures { result ≡ spec.is_before_comment items.now }
{
    for item in items {
        match item {
            Item::Blanks(_) => {}
            Item::Comment { .. } => return true,
            Item::LineEnds(_) | Item::Entry(_) => return false,
        }
    }
    false
}

/// The line ending of an entry's value that stays when the value is rewritten before these items, if one does.
fn kept_line_end(entry: &Entry, behind: &[Item]) -> Option<Span>
    ensures { result ≡ spec.kept_end entry.now.assigned behind.now }
{
    let value = match entry.assigned() {
        AssignedRef::Nothing | AssignedRef::Plain { .. } => return None,
        AssignedRef::Continued(continued) => &continued.value,
    };
    if value.last.len != 0 || !is_before_comment(behind) {
        return None;
    }
    let run = last_line_end(value);
    if run.len == 0 {
        return None;
    }
    Some(run)
}

/// How an entry is put at a place.
#[derive(Clone, Copy)]
enum Way {
    /// Before what is there.
    Before,
    /// In place of the entry there, and before a line ending that stays, if one does.
    Over(Option<Span>),
}

/// How an entry is put before these items, or in place of the first of them.
fn way_before(items: &[Item], in_place_of: InPlaceOf) -> Way
    ensures { result ≡ spec.way_before in_place_of items.now }
{
    let Some((Item::Entry(entry), behind)) = items.split_first() else {
        return Way::Before;
    };
    match in_place_of {
        InPlaceOf::Nothing => Way::Before,
        InPlaceOf::Entry => Way::Over(None),
        InPlaceOf::EntryButLineEnd => Way::Over(kept_line_end(entry, behind)),
    }
}

/// Puts an entry at a place. Takes one allocation, or none.
fn put(items: &mut Vec<Item>, at: usize, entry: Entry, way: Way) -> Result<(), NoMemory>
    requires within { at ≤ length items.old.items }
    requires over { IfReplaces way (at < length items.old.items) }
    ensures ok { OnOk result (items.new.items ≡ take at items.old.items ++ kinds.Entry entry ∷ behind_way way (drop at items.old.items)) }
    ensures err { OnErr result (items.new.items ≡ items.old.items) }
{
    match way {
        Way::Before => items.insert(at, Item::Entry(entry))?,
        Way::Over(None) => items[at] = Item::Entry(entry),
        Way::Over(Some(run)) => {
            items.insert(at + 1, Item::LineEnds(run))?;
            items[at] = Item::Entry(entry);
        }
    }
    Ok(())
}

/// How many bytes an entry that is written adds to the buffer, or `usize::MAX` if there are more.
fn written_len(editor: &Editor<'_>, key: &[u8], value: &[u8]) -> usize
    ensures { result ≡ min (written_put editor.now key.now value.now) (2 ^ 64 - 1) }
{
    key.len()
        .saturating_add(value_len(&editor.around, Some(value)))
}

/// Checks that a buffer has room for what [`write_at`] adds to it. Takes no memory.
///
/// # Errors
///
/// A [`span::Error`] (E3) if the buffer would be longer than 4294967295 bytes.
pub fn check_write(
    buffer: &[u8],
    editor: &Editor<'_>,
    key: &[u8],
    value: &[u8],
) -> Result<(), span::Error>
    requires room { length buffer.now < 2 ^ 32 }
    ensures too_large { IsErrOf result 3 ↔ (2 ^ 32 ≤ length buffer.now + written_put editor.now key.now value.now) }
    ensures only { IfErr result (λ e. e ≡ 3) }
{
    check_room(buffer, written_len(editor, key, value))
}

/// Writes an entry at a place among the items. The place is counted in items from 0; if there are fewer, the entry comes after all
/// of them. The entry has the key as it is given, and `=` with the editor's blanks around it and the value as a file spells it. It
/// replaces the entry there, as `in_place_of` says; if no entry is there, it comes before what is there. All other items stay.
///
/// It looks at the items from the place on up to the first that is not blanks. Takes memory for what is added to the buffer, and for at
/// most one more item. It doesn't ask first whether the buffer has room: the caller has asked [`check_write`].
///
/// # Errors
///
/// A [`span::Error`]: E3 where the buffer would be longer than 4294967295 bytes, otherwise E27 when out of memory. The items are then as
/// they were, and the buffer may have grown.
#[tactic(auto, using(crate::proofs::Buffers::extending))]
pub fn write_at(
    buffer: &mut Vec<u8>,
    items: &mut Vec<Item>,
    editor: &Editor<'_>,
    place: usize,
    in_place_of: InPlaceOf,
    key: &[u8],
    value: &[u8],
) -> Result<(), span::Error>
    requires room { length buffer.old.items < 2 ^ 32 }
    requires within { AreItemsWithin (length buffer.old.items) items.old.items }
    requires fits { EditorFits (length buffer.old.items) editor.now }
    ensures ok { OnOk result (items_of buffer.new.items items.new.items ≡ state.written_at (editor_in buffer.old.items editor.now)
        place (instead_of in_place_of) key.now value.now (items_of buffer.old.items items.old.items)) }
    ensures within { AreItemsWithin (length buffer.new.items) items.new.items }
    ensures grows { Grows result (written_put editor.now key.now value.now) buffer.old.items buffer.new.items }
    ensures err { OnErr result (items.new.items ≡ items.old.items) }
{
    let entry = put_entry(buffer, &editor.around, key, Some(value))?;
    let at = place.min(items.len());
    let way = way_before(items.split_at(at).1, in_place_of);
    put(items, at, entry, way)?;
    Ok(())
}
