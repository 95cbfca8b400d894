//! Entries of a key, and the last one among items.
ghost use Rattle.std.specs.Prelude.{◌≡◌};
ghost use Rattle.gitconf_text.specs.Names as names;
ghost use Rattle.gitconf_items.specs.Events.{bytes_of};
ghost use Rattle.gitconf_items.specs.Items.{item_of};
ghost use Rattle.gitconf_state.specs.Edit as state;
ghost use Rattle.gitconf_body.specs.Places.{IsLastPlace};

use gitconf_items::event::Span;
use gitconf_items::items::Item;
use gitconf_text::parse::section::bytes::is_same_name;

/// Whether the bytes of a span are a name, without ASCII case.
pub fn is_named(buffer: &[u8], span: Span, name: &[u8]) -> bool
    ensures { result ≡ names.is_same_name name.now (bytes_of buffer.now span) }
{
    // Most names that differ do so in length, and if the span is within the buffer, its length is that of its bytes.
    let (start, len) = (span.start as usize, span.len as usize);
    if len != name.len() && start + len <= buffer.len() {
        return false;
    }
    is_same_name(name, span.bytes_in(buffer))
}

/// Whether the item is an entry of the key.
pub fn is_entry_of(buffer: &[u8], item: &Item, key: &[u8]) -> bool
    ensures { result ≡ state.is_entry_of key.now (item_of buffer.now item.now) }
{
    matches!(item, Item::Entry(entry) if is_named(buffer, entry.name(), key))
}

/// The place of the last entry of a key, if there is one. It walks from the end up to that entry.
#[tactic(auto, using(crate::proofs::Places::fronts))]
pub fn last_place(buffer: &[u8], items: &[Item], key: &[u8]) -> Option<usize>
    ensures { IsLastPlace (λ i. state.is_entry_of key.now (item_of buffer.now i)) items.now result }
{
    let mut rest = items;
    while let Some((item, before)) = rest.split_last() {
        if is_entry_of(buffer, item, key) {
            return Some(before.len());
        }
        rest = before;
    }
    None
}
