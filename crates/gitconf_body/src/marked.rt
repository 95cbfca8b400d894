//! Marked entries that are removed from a body, all in one walk.
ghost use Rattle.std.specs.Prelude.{◌≡◌, ◌+◌, ◌-◌, ◌≤◌, ◌&&◌, ◌++◌, ◌∷◌, [], false, length, get_or, reverse as reversed, if◌then◌else◌, IfOk, OnOk, OnErr};
ghost use Rattle.std.specs.List.{count_by};
ghost use Rattle.std.specs.Vec.{vec_capacity};
ghost use Rattle.gitconf_items.specs.Items.{item_of, items_of};
ghost use Rattle.gitconf_state.specs.Edit as state;
ghost use Rattle.gitconf_state.specs.Editors.{marked_count, removed_marked};
ghost use Rattle.gitconf_body.specs.Taken as spec;
ghost use Rattle.gitconf_body.specs.Taken.{StayWithin};

use crate::seeking::is_entry_of;
use gitconf_items::items::Item;
use gitconf_text::NoMemory;

/// How many entries of a key there are.
fn entries_of_key(buffer: &[u8], items: &[Item], key: &[u8]) -> usize
    ensures { result ≡ count_by (λ i. state.is_entry_of key.now (item_of buffer.now i)) items.now }
{
    items
        .iter()
        .filter(|item| is_entry_of(buffer, item, key))
        .count()
}

/// How many entries of the key come before an item, of so many up to it.
fn entries_before(entries: usize, of_key: bool) -> usize
    ensures { result ≡ entries - (if of_key then 1 else 0) }
{
    if of_key {
        entries.saturating_sub(1)
    } else {
        entries
    }
}

/// Whether an item goes: it is an entry of the key, and its mark is `true`.
fn goes(of_key: bool, marks: &[bool], at: usize) -> bool
    ensures { result ≡ (of_key && get_or marks.now at false) }
{
    of_key && matches!(marks.get(at), Some(true))
}

/// Removes the item that was moved last, if it is line endings.
fn drop_line_ends(moved: &mut Vec<Item>)
    ensures items { reversed moved.new.items ≡ spec.behind_line_ends (reversed moved.old.items) }
    ensures capacity { vec_capacity moved.new ≡ vec_capacity moved.old }
{
    if matches!(moved.last(), Some(Item::LineEnds(_))) {
        drop(moved.pop());
    }
}

/// Moves an item over, unless it is blanks before an entry that goes.
fn keep(moved: &mut Vec<Item>, item: Item, goes_behind: bool)
    requires room { length moved.old.items + 1 ≤ vec_capacity moved.old }
    ensures items { reversed moved.new.items
        ≡ (if goes_behind then spec.unless_blanks item else item ∷ []) ++ reversed moved.old.items }
    ensures capacity { vec_capacity moved.new ≡ vec_capacity moved.old }
{
    if !(goes_behind && matches!(item, Item::Blanks(_))) {
        moved.push_reserved(item);
    }
}

/// Moves the items over, the last one first, but those that go. Returns how many entries went.
fn move_unmarked(
    buffer: &[u8],
    items: &mut Vec<Item>,
    moved: &mut Vec<Item>,
    key: &[u8],
    marks: &[bool],
) -> usize
    requires empty { moved.old.items ≡ [] }
    requires room { length items.old.items ≤ vec_capacity moved.old }
    ensures moved { items_of buffer.now (reversed moved.new.items) ≡ removed_marked key.now marks.now (items_of buffer.now items.old.items) }
    ensures count { result ≡ marked_count key.now marks.now (items_of buffer.now items.old.items) }
    ensures within { StayWithin items.old.items (reversed moved.new.items) }
{
    let mut entries = entries_of_key(buffer, items, key);
    let mut gone = 0;
    let mut goes_behind = false;
    while let Some(item) = items.pop() {
        let of_key = is_entry_of(buffer, &item, key);
        entries = entries_before(entries, of_key);
        let goes = goes(of_key, marks, entries);
        if goes {
            gone += 1;
            drop_line_ends(moved);
        } else {
            keep(moved, item, goes_behind);
        }
        goes_behind = goes;
    }
    gone
}

/// Removes the marked entries of a key: the first of its entries goes if the first mark is `true`, and so on; those behind the last mark
/// stay. Blanks directly before an entry that goes and line endings directly after it go too, as [`remove_at`](crate::take_out::remove_at)
/// removes them. All else in the body stays. Returns how many entries went.
///
/// One walk over the items, after one that counts the key's entries. Takes memory for a list of as many items.
///
/// # Errors
///
/// Out of memory. The items are then as they were.
pub fn remove_marked(
    buffer: &[u8],
    items: &mut Vec<Item>,
    key: &[u8],
    marks: &[bool],
) -> Result<usize, NoMemory>
    ensures ok { OnOk result (items_of buffer.now items.new.items ≡ removed_marked key.now marks.now (items_of buffer.now items.old.items)) }
    ensures answer { IfOk result (λ n. n ≡ marked_count key.now marks.now (items_of buffer.now items.old.items)) }
    ensures within { StayWithin items.old.items items.new.items }
    ensures err { OnErr result (items.new.items ≡ items.old.items) }
{
    let mut moved = Vec::with_capacity(*items.allocator(), items.len())?;
    let gone = move_unmarked(buffer, items, &mut moved, key, marks);
    moved.reverse();
    *items = moved;
    Ok(gone)
}
