//! A line that is put in below the last entry of a body.
ghost use Rattle.std.specs.Prelude.{◌≡◌, ℕ, List, ◌↔◌, ◌+◌, ◌<◌, ◌≤◌, ◌^◌, ◌∷◌, ◌++◌, [], length, take, drop, min, Option, Some, None, IfOk, IfErr, OnOk, OnErr, IsErrOf, if◌then◌else◌};
ghost use Rattle.std.specs.Option.{option_copied};
ghost use Rattle.gitconf_items.specs.declared.items.Item.TheVariants as kinds;
ghost use Rattle.gitconf_items.specs.Events.{bytes_of, SpanFits};
ghost use Rattle.gitconf_items.specs.Items.{items_of};
ghost use Rattle.gitconf_items.specs.ItemsFit.{AreItemsWithin};
ghost use Rattle.gitconf_state.specs.Editors as state;
ghost use Rattle.gitconf_state.specs.Editors.{end_bytes, line_end_item, pushed_after_last};
ghost use Rattle.gitconf_text.specs.LineEnds.{bytes_of_line_end};
ghost use Rattle.gitconf_body.specs.Below.{is_stored_line_ends, below_put, lacking_put, items_below, IsGap, IsLineEnd};
ghost use Rattle.gitconf_body.specs.Buffers.{Grows, StandsAt};
ghost use Rattle.gitconf_body.specs.Editors.{editor_in, EditorFits};
ghost use Rattle.gitconf_body.specs.Spacings.{is_stored_entry};
ghost use Rattle.gitconf_body.specs.Standing.{Stand, end_items, line_items};

use crate::buffer::{append, check_room};
use crate::editor::Editor;
use crate::push::{Line, line_len, push_items, put_line};
use gitconf_items::event::Span;
use gitconf_items::items::Item;
use gitconf_text::NoMemory;
use gitconf_text::parse::span;

/// Whether the item is an entry.
fn is_entry(item: &Item) -> bool
    ensures { result ≡ is_stored_entry item.now }
{
    matches!(item, Item::Entry(_))
}

/// The place, if the item there is line endings; otherwise what was found behind it.
fn first_end(item: &Item, at: usize, found: Option<usize>) -> Option<usize>
    ensures { result ≡ (if is_stored_line_ends item.now then Some at else found) }
{
    if matches!(item, Item::LineEnds(_)) {
        Some(at)
    } else {
        found
    }
}

/// The place of the first line endings behind the last entry, or of the first ones if there is no entry. It walks from the end up to that
/// entry.
fn line_end_place(items: &[Item]) -> Option<usize>
    ensures { IsLineEnd items.now result }
{
    let mut found = None;
    let mut rest = items;
    while let Some((item, before)) = rest.split_last() {
        if is_entry(item) {
            break;
        }
        found = first_end(item, before.len(), found);
        rest = before;
    }
    found
}

/// How many bytes the first line ending of a run has.
fn end_len(run: &[u8]) -> usize
    ensures { result ≡ end_bytes run.now }
{
    match run {
        [b'\r', ..] => 2,
        _ => 1,
    }
}

/// The first line ending of a run, and those behind it, if there are any.
fn cut_run(buffer: &[u8], run: Span) -> (Span, Option<Span>)
    requires room { length buffer.now < 2 ^ 32 }
    requires fits { SpanFits (length buffer.now) run }
    ensures first { StandsAt buffer.now result.0 (take (end_bytes (bytes_of buffer.now run)) (bytes_of buffer.now run)) }
    ensures behind { Stand buffer.now (end_items result.1) (line_end_item (drop (end_bytes (bytes_of buffer.now run)) (bytes_of buffer.now run))) }
{
    let start = run.start as usize;
    let end = start + run.len as usize;
    let cut = end.min(start + end_len(run.bytes_in(buffer)));
    let behind = if cut < end {
        Some(Span::between(cut, end))
    } else {
        None
    };
    (Span::between(start, cut), behind)
}

/// Where a line is put in: the items from one place up to another give way to a line ending, the line, and the line endings behind it.
#[derive(Clone, Copy)]
struct Gap {
    from: usize,
    to: usize,
    before: Span,
    behind: Option<Span>,
}

/// The gap below the last entry. A line ending that is not there is added to the buffer.
fn gap_of(buffer: &mut Vec<u8>, items: &[Item], editor: &Editor<'_>) -> Result<Gap, span::Error>
    requires room { length buffer.old.items < 2 ^ 32 }
    requires within { AreItemsWithin (length buffer.old.items) items.now }
    ensures order { IfOk result (λ g. (g.from ≤ g.to) × (g.to ≤ length items.now)) }
    ensures gap { IfOk result (λ g. IsGap buffer.old.items buffer.new.items items.now (bytes_of_line_end editor.now.line_end) g) }
    ensures grows { Grows result (lacking_put editor.now (items_of buffer.old.items items.now)) buffer.old.items buffer.new.items }
{
    match line_end_place(items) {
        Some(at) => {
            let run = match &items[at] {
                Item::LineEnds(run) => *run,
                _ => unreachable!(),
            };
            let (before, behind) = cut_run(buffer, run);
            Ok(Gap {
                from: at,
                to: at + 1,
                before,
                behind,
            })
        }
        None => Ok(Gap {
            from: items.len(),
            to: items.len(),
            before: append(buffer, editor.line_end.as_bytes())?,
            behind: None,
        }),
    }
}

/// A line, and where it is put in.
#[derive(Drop)]
struct Below {
    line: Line,
    gap: Gap,
}

/// A line, and the gap below the last entry for it. What is not there yet is added to the buffer.
fn put_below(
    buffer: &mut Vec<u8>,
    items: &[Item],
    editor: &Editor<'_>,
    key: &[u8],
    value: Option<&[u8]>,
) -> Result<Below, span::Error>
    requires room { length buffer.old.items < 2 ^ 32 }
    requires within { AreItemsWithin (length buffer.old.items) items.now }
    requires fits { EditorFits (length buffer.old.items) editor.now }
    ensures order { IfOk result (λ p. (p.gap.from ≤ p.gap.to) × (p.gap.to ≤ length items.now)) }
    ensures stands { IfOk result (λ p. Stand buffer.new.items (items_below p items.now)
        (pushed_after_last (editor_in buffer.old.items editor.now) key.now (option_copied value.entry) (items_of buffer.old.items items.now))) }
    ensures grows { Grows result (below_put editor.now key.now (option_copied value.entry) (items_of buffer.old.items items.now)) buffer.old.items
        buffer.new.items }
{
    let line = put_line(buffer, editor, key, value, None)?;
    let gap = gap_of(buffer, items, editor)?;
    Ok(Below { line, gap })
}

/// The items of a line in its gap.
fn items_in(gap: Gap, mut new: Vec<Item>, line: Line) -> Result<Vec<Item>, NoMemory>
    requires { new.items ≡ [] }
    ensures { IfOk result (λ is. is.items ≡ kinds.LineEnds gap.before ∷ (line_items line ++ end_items gap.behind)) }
{
    new.push(Item::LineEnds(gap.before))?;
    push_items(&mut new, line)?;
    if let Some(run) = gap.behind {
        new.push(Item::LineEnds(run))?;
    }
    Ok(new)
}

/// Puts items in place of those from one place up to another. Takes one allocation, and memory for the items behind.
fn replace(
    items: &mut Vec<Item>,
    from: usize,
    to: usize,
    mut new: Vec<Item>,
) -> Result<(), NoMemory>
    requires { (from ≤ to) × (to ≤ length items.old.items) }
    ensures ok { OnOk result (items.new.items ≡ take from items.old.items ++ (new.items ++ drop to items.old.items)) }
    ensures err { OnErr result (items.new.items ≡ items.old.items) }
{
    items.reserve(new.len())?;
    let mut behind = items.split_off(to)?;
    items.truncate(from);
    items.append(&mut new).unwrap();
    items.append(&mut behind).unwrap();
    Ok(())
}

/// Puts a line into its gap. Takes two allocations, and memory for the items behind the gap.
fn put_in(items: &mut Vec<Item>, below: Below) -> Result<(), NoMemory>
    requires order { (below.gap.from ≤ below.gap.to) × (below.gap.to ≤ length items.old.items) }
    ensures ok { OnOk result (items.new.items ≡ items_below below items.old.items) }
    ensures err { OnErr result (items.new.items ≡ items.old.items) }
{
    let Below { line, gap } = below;
    let new = items_in(gap, Vec::new(*items.allocator()), line)?;
    replace(items, gap.from, gap.to, new)
}

/// How many bytes [`gap_of`] adds to the buffer.
fn lacking_len(items: &[Item], editor: &Editor<'_>) -> usize
    ensures { (buffer : List ℕ) → result ≡ lacking_put editor.now (items_of buffer items.now) }
{
    match line_end_place(items) {
        Some(_) => 0,
        None => editor.line_end.as_bytes().len(),
    }
}

/// Checks that a buffer has room for what [`push_after_last`] adds to it. One walk from the end up to the last entry. Takes no memory.
///
/// # Errors
///
/// A [`span::Error`] (E3) if the buffer would be longer than 4294967295 bytes.
pub fn check_push_after_last(
    buffer: &[u8],
    items: &[Item],
    editor: &Editor<'_>,
    key: &[u8],
    value: Option<&[u8]>,
) -> Result<(), span::Error>
    requires room { length buffer.now < 2 ^ 32 }
    ensures too_large { IsErrOf result 3
        ↔ (2 ^ 32 ≤ length buffer.now + below_put editor.now key.now (option_copied value.entry) (items_of buffer.now items.now)) }
    ensures only { IfErr result (λ e. e ≡ 3) }
{
    let count = line_len(editor, key, value, None);
    check_room(buffer, lacking_len(items, editor).saturating_add(count))
}

/// Pushes a line below the line of the last entry, whatever its key. If there is no entry, it goes below the header's line. The line is
/// the editor's blanks, the key, and if a value is given `=` with the editor's blanks around it and the value as a file spells it; then
/// the editor's line ending, unless it is switched off. The comments and blank lines that come after the last entry come after it. If
/// the line before it has no line ending, it gets the editor's one first. The key is written as it is.
///
/// It walks from the end up to the last entry. Takes memory for what is added to the buffer, for the new items and for those behind them.
///
/// # Errors
///
/// A [`span::Error`]: E3 where the buffer would be longer than 4294967295 bytes, which [`check_push_after_last`] tells before any
/// allocation, otherwise E27 when out of memory. The items are then as they were, and the buffer may have grown.
#[tactic(auto, using(crate::proofs::Buffers::extending))]
pub fn push_after_last(
    buffer: &mut Vec<u8>,
    items: &mut Vec<Item>,
    editor: &Editor<'_>,
    key: &[u8],
    value: Option<&[u8]>,
) -> Result<(), span::Error>
    requires room { length buffer.old.items < 2 ^ 32 }
    requires within { AreItemsWithin (length buffer.old.items) items.old.items }
    requires fits { EditorFits (length buffer.old.items) editor.now }
    ensures ok { OnOk result (items_of buffer.new.items items.new.items
        ≡ pushed_after_last (editor_in buffer.old.items editor.now) key.now (option_copied value.entry) (items_of buffer.old.items items.old.items)) }
    ensures within { AreItemsWithin (length buffer.new.items) items.new.items }
    ensures grows { Grows result (below_put editor.now key.now (option_copied value.entry) (items_of buffer.old.items items.old.items)) buffer.old.items
        buffer.new.items }
    ensures err { OnErr result (items.new.items ≡ items.old.items) }
{
    let below = put_below(buffer, items, editor, key, value)?;
    put_in(items, below)?;
    Ok(())
}
