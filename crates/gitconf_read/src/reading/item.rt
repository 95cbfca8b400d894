//! Items, read as they are in a text.
ghost use Rattle.std.specs.Prelude.{◌≡◌, ◌≤◌, ◌<◌, ◌+◌, ◌^◌, ◌==◌, ◌∷◌, ◌++◌, [], false, None, length, get_or, IfOk, IfErr, OnOk, IsOkUnless};
ghost use Rattle.gitconf_text.specs.Token.{HeaderToken, item_tokens};
ghost use Rattle.gitconf_text.specs.Part.{EntryItem};
ghost use Rattle.gitconf_read.specs.declared.reading.Expected.TheVariants.{Name};
ghost use Rattle.gitconf_read.specs.declared.reading.ReadError.TheVariants.{Memory};
ghost use Rattle.gitconf_read.specs.declared.reading.run.Run.TheVariants.{Blanks, LineEnds};
ghost use Rattle.gitconf_items.specs.Events.{bytes_of, header_of, SpanFits, HeaderFits};
ghost use Rattle.gitconf_read.specs.ItemReading.{IsReadTo, IsRefusal, IsValueRead, IsValueRefusal, IsEntryWith, IsKeptRead};
ghost use Rattle.gitconf_items.specs.Items.{entry_of, tokens_of_items, tokens_of_value};
ghost use Rattle.gitconf_items.specs.ItemsFit.{AreItemsWithin, EntryFits, ValueFits};
ghost use Rattle.gitconf_read.specs.Reading.{entry_at, part_at, run_end_at, span};
ghost use Rattle.gitconf_read.specs.declared.reading.Expected.{Expected};
ghost use Rattle.gitconf_read.specs.Stretches.{IsStretch, IsKeptStretch, IsGapRead, IsBreak};

use super::entry::sign_ends;
use super::header::header;
use super::part::{Opening, part_opening};
use super::run::{Run, comment_end, gap_ends, long_run_end, run_end};
use super::value::{PieceEnd, piece_end};
use super::{Expected, Fault, ReadError};
use gitconf_items::entry::{Assigned, Entry, EntryParts, Piece, Value};
use gitconf_items::event::{Header, Span};
use gitconf_items::items::{Item, Keep};
use gitconf_items::stripping::kept_entry;
use smallvec::SmallVec;
use std::alloc::Global;

/// The value that begins at an offset, and the offset after it.
fn value(alloc: Global, input: &[u8], first: usize) -> Result<(Value, usize), ReadError>
    requires within { first ≤ length input.now }
    requires fits { length input.now < 2 ^ 32 }
    ensures found { IfOk result (λ r. IsValueRead input.now first r.1 (tokens_of_value input.now r.0)) }
    ensures spans { IfOk result (λ r. ValueFits (length input.now) r.0) }
    ensures behind { IfOk result (λ r. first ≤ r.1) }
    ensures inside { IfOk result (λ r. r.1 ≤ length input.now) }
    ensures refused { IfErr result (IsValueRefusal input.now first) }
{
    let mut pieces = SmallVec::new(alloc);
    let mut from = first;
    let mut quoted = false;
    loop {
        match piece_end(input, from, quoted) {
            PieceEnd::Last(end) => {
                let last = Span::between(from, end);
                return Ok((Value { pieces, last }, end));
            }
            PieceEnd::GoesOn {
                at,
                line_end,
                quoted: open,
            } => {
                let end = at + 1 + line_end;
                pieces.push(Piece {
                    text: Span::between(from, at),
                    line_end: Span::between(at + 1, end),
                })?;
                from = end;
                quoted = open;
            }
            PieceEnd::Unended(at) => {
                pieces.push(Piece {
                    text: Span::between(from, at),
                    line_end: Span::NOTHING,
                })?;
                let last = Span::between(at + 1, at + 1);
                return Ok((Value { pieces, last }, at + 1));
            }
            PieceEnd::Refused => {
                return Err(ReadError::Fault(Fault {
                    at: first,
                    expected: Expected::Value,
                }));
            }
        }
    }
}

/// An entry whose value isn't short, or has several pieces.
#[cold]
fn long_entry(
    alloc: Global,
    input: &[u8],
    name: Span,
    blanks: Span,
    behind: Span,
    first: usize,
) -> Result<(Entry, usize), ReadError>
    requires within { first ≤ length input.now }
    requires fits { length input.now < 2 ^ 32 }
    requires spans { SpanFits (length input.now) name × SpanFits (length input.now) blanks × SpanFits (length input.now) behind }
    ensures found { IfOk result (λ r. IsEntryWith input.now name blanks behind first r.0 r.1) }
    ensures spans { IfOk result (λ r. EntryFits (length input.now) r.0) }
    ensures behind { IfOk result (λ r. first ≤ r.1) }
    ensures inside { IfOk result (λ r. r.1 ≤ length input.now) }
    ensures refused { IfErr result (IsValueRefusal input.now first) }
{
    let (value, end) = value(alloc, input, first)?;
    let parts = EntryParts {
        name,
        blanks,
        assigned: Assigned::of_value(behind, value),
    };
    Ok((Entry::try_new(alloc, parts)?, end))
}

/// An entry up to its value, by the offsets where the name begins and ends, where the blanks after it end, at `=`, and where the blanks
/// after that end.
#[derive(Clone, Copy)]
struct Front {
    start: usize,
    name_end: usize,
    sign: usize,
    first: usize,
}

/// The entry that begins like this, and the offset after it.
#[inline(always)]
fn assigned_entry(alloc: Global, input: &[u8], front: Front) -> Result<(Entry, usize), ReadError>
    requires name { front.start ≤ front.name_end }
    requires blanks { front.name_end ≤ front.sign }
    requires sign { front.sign < front.first }
    requires within { front.first ≤ length input.now }
    requires fits { length input.now < 2 ^ 32 }
    ensures found { IfOk result (λ r. IsEntryWith input.now (span front.start front.name_end) (span front.name_end front.sign)
        (span (front.sign + 1) front.first) front.first r.0 r.1) }
    ensures spans { IfOk result (λ r. EntryFits (length input.now) r.0) }
    ensures behind { IfOk result (λ r. front.first ≤ r.1) }
    ensures inside { IfOk result (λ r. r.1 ≤ length input.now) }
    ensures refused { IfErr result (IsValueRefusal input.now front.first) }
{
    let Front {
        start,
        name_end,
        sign,
        first,
    } = front;
    if let PieceEnd::Last(end) = piece_end(input, first, false) {
        if let Some(entry) = Entry::of_line(start, name_end, sign, first, end) {
            return Ok((entry, end));
        }
    }
    let name = Span::between(start, name_end);
    let blanks = Span::between(name_end, sign);
    let behind = Span::between(sign + 1, first);
    long_entry(alloc, input, name, blanks, behind, first)
}

/// An entry without a value. `input` is the text that its spans are offsets of.
#[cold]
fn bare_entry(alloc: Global, input: &[u8], name: Span, blanks: Span) -> Result<Entry, ReadError>
    requires spans { SpanFits (length input.now) name × SpanFits (length input.now) blanks }
    ensures told { IfOk result (λ e. entry_of input.now e ≡ record { name = bytes_of input.now name; blanks = bytes_of input.now blanks; assigned = None }) }
    ensures spans { IfOk result (EntryFits (length input.now)) }
    ensures memory { IsOkUnless result Memory }
{
    // Only the contract speaks of the text.
    let _ = input;
    let parts = EntryParts {
        name,
        blanks,
        assigned: Assigned::Nothing,
    };
    Ok(Entry::try_new(alloc, parts)?)
}

/// The entry whose name begins, with a letter, at an offset, and the offset after it.
#[inline(always)]
fn entry(alloc: Global, input: &[u8], at: usize) -> Result<(Entry, usize), ReadError>
    requires within { at < length input.now }
    requires fits { length input.now < 2 ^ 32 }
    ensures found { IfOk result (λ r. IsReadTo input.now (entry_at input.now at []) r.1 (item_tokens (EntryItem (entry_of input.now r.0)))) }
    ensures spans { IfOk result (λ r. EntryFits (length input.now) r.0) }
    ensures behind { IfOk result (λ r. at < r.1) }
    ensures inside { IfOk result (λ r. r.1 ≤ length input.now) }
    ensures refused { IfErr result (IsRefusal (entry_at input.now at [])) }
{
    let name_end = long_run_end(input, at + 1, Run::NameBytes);
    let (sign, first) = sign_ends(input, name_end);
    match first {
        Some(first) => {
            let front = Front {
                start: at,
                name_end,
                sign,
                first,
            };
            assigned_entry(alloc, input, front)
        }
        None => {
            let name = Span::between(at, name_end);
            let blanks = Span::between(name_end, sign);
            let entry = bare_entry(alloc, input, name, blanks)?;
            Ok((entry, sign))
        }
    }
}

/// Adds what is kept of the item at an offset, where no header begins, and returns the offset after it; `wanted` is reported as
/// looked for if no item is there.
#[inline(always)]
fn push_item(
    alloc: Global,
    input: &[u8],
    at: usize,
    wanted: Expected,
    keep: Keep,
    items: &mut Vec<Item>,
) -> Result<usize, ReadError>
    requires within { at < length input.now }
    requires fits { length input.now < 2 ^ 32 }
    requires no_header { (get_or input.now at 0 == 91) ≡ false }
    ensures found { IfOk result (IsKeptRead keep input.now at wanted items.old.items items.new.items) }
    ensures ahead { IfOk result (λ end. at < end) }
    ensures inside { IfOk result (λ end. end ≤ length input.now) }
    ensures refused { IfErr result (IsRefusal (part_at input.now at wanted [])) }
{
    match part_opening(input, at) {
        Opening::Blanks => {
            let end = run_end(input, at + 1, Run::Blanks);
            match keep {
                Keep::All => items.push(Item::Blanks(Span::between(at, end)))?,
                Keep::Meaning => {}
            }
            Ok(end)
        }
        Opening::LineEnds => {
            let end = run_end(input, at + 1, Run::LineEnds);
            match keep {
                Keep::All => items.push(Item::LineEnds(Span::between(at, end)))?,
                Keep::Meaning => {}
            }
            Ok(end)
        }
        Opening::Comment => {
            let end = comment_end(input, at + 1);
            let text = Span::between(at + 1, end);
            let tag = input[at];
            match keep {
                Keep::All => items.push(Item::Comment { tag, text })?,
                Keep::Meaning => {}
            }
            Ok(end)
        }
        Opening::Entry => {
            let (entry, end) = entry(alloc, input, at)?;
            items.push(Item::Entry(kept_entry(entry, keep)))?;
            Ok(end)
        }
        Opening::Header | Opening::Nothing => Err(ReadError::Fault(Fault {
            at,
            expected: wanted,
        })),
    }
}

/// Adds the line endings from one offset up to another, if there are any and they are kept.
#[inline(always)]
fn push_line_ends(
    input: &[u8],
    at: usize,
    end: usize,
    keep: Keep,
    items: &mut Vec<Item>,
) -> Result<(), ReadError>
    requires ends { end ≡ run_end_at input.now LineEnds at }
    requires ordered { at ≤ end }
    requires within { end ≤ length input.now }
    requires fits { length input.now < 2 ^ 32 }
    ensures found { OnOk result ((wanted : Expected) → IsGapRead keep input.now at wanted items.old.items items.new.items end) }
    ensures memory { IsOkUnless result Memory }
{
    // Only the contract speaks of the text.
    let _ = input;
    if at == end {
        return Ok(());
    }
    match keep {
        Keep::All => items.push(Item::LineEnds(Span::between(at, end)))?,
        Keep::Meaning => {}
    }
    Ok(())
}

/// Adds the blanks from one offset up to another, if there are any and they are kept.
#[inline(always)]
fn push_blanks(
    input: &[u8],
    at: usize,
    end: usize,
    keep: Keep,
    items: &mut Vec<Item>,
) -> Result<(), ReadError>
    requires ends { end ≡ run_end_at input.now Blanks at }
    requires ordered { at ≤ end }
    requires within { end ≤ length input.now }
    requires fits { length input.now < 2 ^ 32 }
    ensures found { OnOk result ((wanted : Expected) → IsGapRead keep input.now at wanted items.old.items items.new.items end) }
    ensures memory { IsOkUnless result Memory }
{
    // Only the contract speaks of the text.
    let _ = input;
    if at == end {
        return Ok(());
    }
    match keep {
        Keep::All => items.push(Item::Blanks(Span::between(at, end)))?,
        Keep::Meaning => {}
    }
    Ok(())
}

/// Adds what is kept of the items from an offset on. They go up to a header or the end. Returns the offset after them.
pub fn push_items(
    alloc: Global,
    input: &[u8],
    start: usize,
    wanted: Expected,
    keep: Keep,
    items: &mut Vec<Item>,
) -> Result<usize, ReadError>
    requires within { start ≤ length input.now }
    requires fits { length input.now < 2 ^ 32 }
    requires empty { items.old.items ≡ [] }
    ensures read { IfOk result (λ end. IsKeptStretch keep input.now start wanted end wanted (tokens_of_items input.now items.new.items)) }
    ensures spans { OnOk result (AreItemsWithin (length input.now) items.new.items) }
    ensures inside { IfOk result (λ end. end ≤ length input.now) }
    ensures headed { IfOk result (λ end. end < length input.now → get_or input.now end 0 ≡ 91) }
    ensures broken { IfErr result (IsBreak input.now start wanted) }
{
    let mut at = start;
    while at < input.len() && input[at] != b'[' {
        let end = push_item(alloc, input, at, wanted, keep, items)?;
        // What follows an item is mostly the end of its line, and then blanks.
        let (line_end, next) = gap_ends(input, end);
        push_line_ends(input, end, line_end, keep, items)?;
        push_blanks(input, line_end, next, keep, items)?;
        at = next;
    }
    Ok(at)
}

/// The header whose bracket is at an offset, and the offset after it. `wanted` is reported as looked for if no header is there.
#[inline(always)]
pub fn header_first(input: &[u8], at: usize, wanted: Expected) -> Result<(Header, usize), ReadError>
    requires within { at < length input.now }
    requires headed { get_or input.now at 0 ≡ 91 }
    requires fits { length input.now < 2 ^ 32 }
    ensures read { IfOk result (λ r. IsStretch input.now at wanted r.1 Name (HeaderToken (header_of input.now r.0) ∷ [])) }
    ensures spans { IfOk result (λ r. HeaderFits (length input.now) r.0) }
    ensures ahead { IfOk result (λ r. at < r.1) }
    ensures inside { IfOk result (λ r. r.1 ≤ length input.now) }
    ensures broken { IfErr result (IsBreak input.now at wanted) }
{
    match header(input, at) {
        Some(found) => Ok(found),
        None => Err(ReadError::Fault(Fault {
            at,
            expected: wanted,
        })),
    }
}
