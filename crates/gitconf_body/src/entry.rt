//! Setting the value of a key in a body.
ghost use Rattle.std.specs.Prelude.{◌≡◌, ◌+◌, ◌-◌, ◌<◌, ◌≤◌, ◌^◌, min, length, IfOk, OnOk, OnErr, IsErrOf, option_map};
ghost use Rattle.gitconf_text.specs.Value.{escaped};
ghost use Rattle.gitconf_items.specs.Items.{items_of};
ghost use Rattle.gitconf_items.specs.ItemsFit.{AreItemsWithin};
ghost use Rattle.gitconf_state.specs.Edit as state;
ghost use Rattle.gitconf_text.specs.LineEnds.{bytes_of_line_end};
ghost use Rattle.gitconf_body.specs.Buffers.{Grows};

use crate::editor::editor_of;
use crate::set::set;
use gitconf_items::items::Item;
use gitconf_text::line_end::LineEnd;
use gitconf_text::parse::span;
use gitconf_text::value::escaped_len;

/// How many bytes a new entry adds to a buffer, or `usize::MAX` if there are more.
pub(crate) fn entry_len(blanks: usize, line_end: LineEnd, key: &[u8], value: &[u8]) -> usize
    ensures { result ≡ min (blanks + (length key.now + length (escaped value.now) + length (bytes_of_line_end line_end))) (2 ^ 64 - 1) }
{
    blanks
        .saturating_add(key.len())
        .saturating_add(escaped_len(value))
        .saturating_add(line_end.as_bytes().len())
}

/// Gives the last entry of a key another value: what follows `=` is replaced, and `=` is added if there is none, with the
/// blanks that the items use. If no entry has the key, a new one is put on a line of its own after the items, with these blanks and
/// the line ending. Returns the raw text of the old value: its pieces joined, not decoded; no bytes for an entry without `=`; `None` if
/// there was no entry.
///
/// One walk over the items. Takes memory for the old value, for what is added to the buffer, and for a new entry.
///
/// # Errors
///
/// A [`span::Error`]: E3 if and only if the buffer would be longer than 4294967295 bytes, before any allocation, otherwise E27 when
/// out of memory. The items are then as they were, and the buffer may have grown.
pub fn set_value(
    buffer: &mut Vec<u8>,
    items: &mut Vec<Item>,
    line_end: LineEnd,
    key: &[u8],
    value: &[u8],
) -> Result<Option<Vec<u8>>, span::Error>
    requires room { length buffer.old.items < 2 ^ 32 }
    requires within { AreItemsWithin (length buffer.old.items) items.old.items }
    ensures ok { OnOk result (items_of buffer.new.items items.new.items
        ≡ state.set_value (bytes_of_line_end line_end) key.now value.now (items_of buffer.old.items items.old.items)) }
    ensures old { IfOk result (λ o. option_map (λ v. v.items) o ≡ state.old_value key.now (items_of buffer.old.items items.old.items)) }
    ensures within { AreItemsWithin (length buffer.new.items) items.new.items }
    ensures grows { Grows result (state.set_bytes (bytes_of_line_end line_end) key.now value.now (items_of buffer.old.items items.old.items))
        buffer.old.items buffer.new.items }
    ensures refused { 2 ^ 32 ≤ length buffer.old.items + state.set_bytes (bytes_of_line_end line_end) key.now value.now
        (items_of buffer.old.items items.old.items)
        → IsErrOf result 3 }
    ensures err { OnErr result (items.new.items ≡ items.old.items) }
{
    let editor = editor_of(items, line_end);
    set(buffer, items, &editor, key, value)
}
