//! Walks over the entries among items.
ghost use Rattle.std.specs.Prelude.{◌≡◌, ◌<◌, ℕ, List, true, length, IfSome, MatchOption, [], ◌∷◌};
ghost use Rattle.std.specs.List.{count_by, list_all};
ghost use Rattle.gitconf_body.specs.Spacings.{is_stored_entry};
ghost use Rattle.gitconf_text.specs.Document.{document_entry};
ghost use Rattle.gitconf_text.specs.Names.{is_value_name};
ghost use Rattle.gitconf_items.specs.Events.{bytes_of};
ghost use Rattle.gitconf_items.specs.Items.{entry_of, items_of};
ghost use Rattle.gitconf_state.specs.State.{entries_of, is_item};
ghost use Rattle.gitconf_body.specs.Bodies.{has_key, values_in, AreFound};

use crate::meanings::entry_meaning;
use crate::seeking::is_named;
use bstr::BString;
use gitconf_items::entry::Entry;
use gitconf_items::items::Item;
use gitconf_text::NoMemory;
use std::alloc::Global;

/// The first entry of items, and the items after it.
pub fn next_entry(items: &[Item]) -> Option<(&Entry, &[Item])>
    ensures entry { (buffer : List ℕ) → MatchOption result (entries_of (items_of buffer items.now) ≡ [])
        (λ r. entries_of (items_of buffer items.now) ≡ document_entry (entry_of buffer r.0.now) ∷ entries_of (items_of buffer r.1.now)) }
    ensures fits { (buffer : List ℕ) → list_all is_item (items_of buffer items.now) ≡ true
        → IfSome result (λ r. (is_value_name (bytes_of buffer r.0.now.name) ≡ true) × (list_all is_item (items_of buffer r.1.now) ≡ true)) }
    ensures fewer { IfSome result (λ r. length r.1.now < length items.now) }
{
    let mut rest = items;
    while let Some((item, behind)) = rest.split_first() {
        if let Item::Entry(entry) = item {
            return Some((entry, behind));
        }
        rest = behind;
    }
    None
}

/// The name of an entry, as text.
pub fn name_text<'a>(buffer: &'a [u8], entry: &Entry) -> &'a str
    requires { is_value_name (bytes_of buffer.now entry.now.name) ≡ true }
    ensures { result.now ≡ bytes_of buffer.now entry.now.name }
{
    str::from_utf8(entry.name().bytes_in(buffer)).unwrap()
}

/// What all entries of a key mean, in order.
///
/// # Errors
///
/// Out of memory.
pub fn meanings(
    alloc: Global,
    buffer: &[u8],
    items: &[Item],
    key: &[u8],
) -> Result<Vec<BString>, NoMemory>
    ensures { AreFound result (values_in key.now (entries_of (items_of buffer.now items.now))) }
{
    let mut values = Vec::new(alloc);
    let mut rest = items;
    while let Some((entry, behind)) = next_entry(rest) {
        if is_named(buffer, entry.name(), key) {
            let value = entry_meaning(alloc, buffer, entry)?;
            values.push(value)?;
        }
        rest = behind;
    }
    Ok(values)
}

/// Whether there is an entry of a key.
pub fn contains_key(buffer: &[u8], items: &[Item], key: &[u8]) -> bool
    ensures { result ≡ has_key key.now (entries_of (items_of buffer.now items.now)) }
{
    let mut rest = items;
    while let Some((entry, behind)) = next_entry(rest) {
        if is_named(buffer, entry.name(), key) {
            return true;
        }
        rest = behind;
    }
    false
}

/// How many of the items are entries.
pub fn entry_count(items: &[Item]) -> usize
    ensures { result ≡ count_by is_stored_entry items.now }
{
    items
        .iter()
        .filter(|item| matches!(item, Item::Entry(_)))
        .count()
}
