//! The raw texts of values.
ghost use Rattle.std.specs.Prelude.{◌≡◌, ◌++◌, IfOk, flat_map, take};
ghost use Rattle.gitconf_text.specs.Value.{raw_of};
ghost use Rattle.gitconf_text.specs.Part.{EntryItem};
ghost use Rattle.gitconf_items.specs.Items.{value_of, entry_of, item_of};
ghost use Rattle.gitconf_state.specs.Edit.{item_raw};

use gitconf_items::entry::{AssignedRef, Entry, Value};
use gitconf_items::items::Item;
use gitconf_text::NoMemory;
use std::alloc::Global;

/// The raw text of a value: its pieces joined. One pass; memory is taken for the text as it grows.
///
/// # Errors
///
/// Out of memory.
pub fn raw_text(alloc: Global, buffer: &[u8], value: &Value) -> Result<Vec<u8>, NoMemory>
    ensures { IfOk result (λ raw. raw.items ≡ raw_of (value_of buffer.now value.now)) }
{
    let mut raw = Vec::new(alloc);
    for piece in value.pieces.as_slice() {
        raw.extend_from_slice(piece.text.bytes_in(buffer))?;
    }
    raw.extend_from_slice(value.last.bytes_in(buffer))?;
    Ok(raw)
}

/// The raw text of an entry's value; no bytes if it has none.
pub fn entry_text(alloc: Global, buffer: &[u8], entry: &Entry) -> Result<Vec<u8>, NoMemory>
    ensures { IfOk result (λ raw. raw.items ≡ item_raw (EntryItem (entry_of buffer.now entry.now))) }
{
    match entry.assigned() {
        AssignedRef::Nothing => Ok(Vec::new(alloc)),
        AssignedRef::Plain { value, .. } => {
            let mut raw = Vec::new(alloc);
            raw.extend_from_slice(value.bytes_in(buffer))?;
            Ok(raw)
        }
        AssignedRef::Continued(continued) => raw_text(alloc, buffer, &continued.value),
    }
}

/// The raw text of an item's value; no bytes if it has none.
pub fn item_text(alloc: Global, buffer: &[u8], item: &Item) -> Result<Vec<u8>, NoMemory>
    ensures { IfOk result (λ raw. raw.items ≡ item_raw (item_of buffer.now item.now)) }
{
    match item {
        Item::Entry(entry) => entry_text(alloc, buffer, entry),
        Item::Blanks(_) | Item::LineEnds(_) | Item::Comment { .. } => Ok(Vec::new(alloc)),
    }
}
