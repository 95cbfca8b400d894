//! Events grouped to items.
ghost use Rattle.std.specs.Prelude.{◌≡◌, ◌≤◌, ◌∷◌, ◌++◌, [], true, false, length, map, IfOk, OnOk};
ghost use Rattle.gitconf_text.specs.Token.{WhitespaceToken, NewlineToken, ValueNotDoneToken, item_tokens, assigned_tokens, filled};
ghost use Rattle.gitconf_items.specs.Events.{bytes_of, token_of, SpanFits, EventFits};
ghost use Rattle.gitconf_items.specs.Sections.{is_header_event, is_cut};
ghost use Rattle.gitconf_items.specs.ItemsFit.{EventsWithin, AreItemsWithin, AssignedFits, ItemFits, ValueFits};
ghost use Rattle.gitconf_items.specs.Items as spec;
ghost use Rattle.gitconf_items.specs.Items.{item_of, assigned_of};
ghost use Rattle.gitconf_items.specs.Grouping.{Between, BehindName, BehindNameBlanks, BehindSeparator, BehindSeparatorBlanks, BehindPiece, BehindPieceEnd, are_items, AreBehind};
ghost use Rattle.gitconf_read.specs.Compact.{events_of};

use gitconf_items::entry::{Assigned, Entry, EntryParts, Piece, Value};
use gitconf_items::event::{Event, Span, is_header};
use gitconf_items::few::{FewItems, taken};
use gitconf_items::items::Item;
use gitconf_items::section_sink::SectionSink;
use gitconf_read::compact::EventSlice;
use gitconf_text::NoMemory;
use smallvec::SmallVec;
use std::alloc::Global;

/// The blanks that the events begin with, or no bytes, and the events after them.
fn blanks_first<'e>(buffer: &[u8], events: EventSlice<'e>) -> (Span, EventSlice<'e>)
    requires within { EventsWithin (length buffer.now) (events_of events) }
    ensures name { are_items BehindName (map (token_of buffer.now) (events_of events.entry)) ≡ true → AreBehind BehindNameBlanks
        (filled WhitespaceToken (bytes_of buffer.now result.0)) (map (token_of buffer.now) (events_of result.1))
        (map (token_of buffer.now) (events_of events.entry)) }
    ensures separator { are_items BehindSeparator (map (token_of buffer.now) (events_of events.entry)) ≡ true → AreBehind BehindSeparatorBlanks
        (filled WhitespaceToken (bytes_of buffer.now result.0)) (map (token_of buffer.now) (events_of result.1))
        (map (token_of buffer.now) (events_of events.entry)) }
    ensures first { SpanFits (length buffer.now) result.0 }
    ensures others { EventsWithin (length buffer.now) (events_of result.1) }
{
    match events.split_first() {
        Some((Event::Whitespace(run), behind)) => (run, behind),
        _ => (Span::NOTHING, events),
    }
}

/// The line ending that the events begin with, or no bytes, and the events after it.
fn line_end_first<'e>(buffer: &[u8], events: EventSlice<'e>) -> (Span, EventSlice<'e>)
    requires items { are_items BehindPiece (map (token_of buffer.now) (events_of events)) ≡ true }
    requires within { EventsWithin (length buffer.now) (events_of events) }
    ensures tokens { AreBehind BehindPieceEnd
        (filled NewlineToken (bytes_of buffer.now result.0)) (map (token_of buffer.now) (events_of result.1))
        (map (token_of buffer.now) (events_of events.entry)) }
    ensures first { SpanFits (length buffer.now) result.0 }
    ensures others { EventsWithin (length buffer.now) (events_of result.1) }
    ensures shorter { length (events_of result.1) ≤ length (events_of events.entry) }
{
    match events.split_first() {
        Some((Event::Newline(run), behind)) => (run, behind),
        _ => (Span::NOTHING, events),
    }
}

/// A value that begins with a piece of this text, and the events after it.
fn pieces_first<'e>(
    alloc: Global,
    buffer: &[u8],
    text: Span,
    events: EventSlice<'e>,
) -> Result<(Value, EventSlice<'e>), NoMemory>
    requires items { are_items BehindPiece (map (token_of buffer.now) (events_of events)) ≡ true }
    requires text { SpanFits (length buffer.now) text }
    requires within { EventsWithin (length buffer.now) (events_of events) }
    ensures tokens { IfOk result (λ r. AreBehind Between (spec.tokens_of_value buffer.now r.0) (map (token_of buffer.now) (events_of r.1))
        (ValueNotDoneToken (bytes_of buffer.now text) ∷ map (token_of buffer.now) (events_of events.entry))) }
    ensures first { IfOk result (λ r. ValueFits (length buffer.now) r.0) }
    ensures others { IfOk result (λ r. EventsWithin (length buffer.now) (events_of r.1)) }
{
    let mut pieces = SmallVec::new(alloc);
    let mut text = text;
    let mut rest = events;
    loop {
        let (line_end, behind) = line_end_first(buffer, rest);
        pieces.push(Piece { text, line_end })?;
        match behind.split_first() {
            Some((Event::ValueNotDone(next), behind)) => {
                text = next;
                rest = behind;
            }
            Some((Event::ValueDone(last), behind)) => {
                return Ok((Value { pieces, last }, behind));
            }
            _ => unreachable!(),
        }
    }
}

/// The value that the events begin with, and the events after it.
fn value_first<'e>(
    alloc: Global,
    buffer: &[u8],
    events: EventSlice<'e>,
) -> Result<(Value, EventSlice<'e>), NoMemory>
    requires items { are_items BehindSeparatorBlanks (map (token_of buffer.now) (events_of events)) ≡ true }
    requires within { EventsWithin (length buffer.now) (events_of events) }
    ensures first { IfOk result (λ r. ValueFits (length buffer.now) r.0) }
    ensures others { IfOk result (λ r. EventsWithin (length buffer.now) (events_of r.1)) }
    ensures tokens { IfOk result (λ r. AreBehind Between (spec.tokens_of_value buffer.now r.0) (map (token_of buffer.now) (events_of r.1))
        (map (token_of buffer.now) (events_of events.entry))) }
{
    match events.split_first() {
        Some((Event::Value(last), behind)) => {
            let value = Value {
                pieces: SmallVec::new(alloc),
                last,
            };
            Ok((value, behind))
        }
        Some((Event::ValueNotDone(text), behind)) => pieces_first(alloc, buffer, text, behind),
        _ => unreachable!(),
    }
}

/// What the events after a name assign, and the events after that.
fn assigned_first<'e>(
    alloc: Global,
    buffer: &[u8],
    events: EventSlice<'e>,
) -> Result<(Assigned, EventSlice<'e>), NoMemory>
    requires items { are_items BehindNameBlanks (map (token_of buffer.now) (events_of events)) ≡ true }
    requires within { EventsWithin (length buffer.now) (events_of events) }
    ensures first { IfOk result (λ r. AssignedFits (length buffer.now) r.0) }
    ensures others { IfOk result (λ r. EventsWithin (length buffer.now) (events_of r.1)) }
    ensures tokens { IfOk result (λ r. AreBehind Between (assigned_tokens (assigned_of buffer.now r.0)) (map (token_of buffer.now) (events_of r.1))
        (map (token_of buffer.now) (events_of events.entry))) }
{
    match events.split_first() {
        Some((Event::Value(_), behind)) => Ok((Assigned::Nothing, behind)),
        Some((Event::KeyValueSeparator, behind)) => {
            let (blanks, behind) = blanks_first(buffer, behind);
            let (value, behind) = value_first(alloc, buffer, behind)?;
            Ok((Assigned::of_value(blanks, value), behind))
        }
        _ => unreachable!(),
    }
}

/// The item of the first event, which is not a header, and of some after it, and the events after these.
fn item_first<'e>(
    alloc: Global,
    buffer: &[u8],
    first: Event,
    behind: EventSlice<'e>,
) -> Result<(Item, EventSlice<'e>), NoMemory>
    requires items { are_items Between (token_of buffer.now first ∷ map (token_of buffer.now) (events_of behind)) ≡ true }
    requires no_header { is_header_event first ≡ false }
    requires first_within { EventFits (length buffer.now) first }
    requires within { EventsWithin (length buffer.now) (events_of behind) }
    ensures first { IfOk result (λ r. ItemFits (length buffer.now) r.0) }
    ensures others { IfOk result (λ r. EventsWithin (length buffer.now) (events_of r.1)) }
    ensures tokens { IfOk result (λ r. AreBehind Between (item_tokens (item_of buffer.now r.0)) (map (token_of buffer.now) (events_of r.1))
        (token_of buffer.now first ∷ map (token_of buffer.now) (events_of behind.entry))) }
{
    match first {
        Event::Comment { tag, text } => Ok((Item::Comment { tag, text }, behind)),
        Event::Newline(run) => Ok((Item::LineEnds(run), behind)),
        Event::Whitespace(run) => Ok((Item::Blanks(run), behind)),
        Event::SectionValueName(name) => {
            let (blanks, behind) = blanks_first(buffer, behind);
            let (assigned, behind) = assigned_first(alloc, buffer, behind)?;
            let parts = EntryParts {
                name,
                blanks,
                assigned,
            };
            Ok((Item::Entry(Entry::try_new(alloc, parts)?), behind))
        }
        _ => unreachable!(),
    }
}

/// Adds the items that the events begin with, up to a header or the end, and returns the events after them.
fn push_items<'e>(
    alloc: Global,
    buffer: &[u8],
    events: EventSlice<'e>,
    items: &mut Vec<Item>,
) -> Result<EventSlice<'e>, NoMemory>
    requires empty { items.old.items ≡ [] }
    requires items { are_items Between (map (token_of buffer.now) (events_of events)) ≡ true }
    requires within { EventsWithin (length buffer.now) (events_of events) }
    ensures first { OnOk result (AreItemsWithin (length buffer.now) items.new.items) }
    ensures others { IfOk result (λ behind. EventsWithin (length buffer.now) (events_of behind)) }
    ensures items { IfOk result (λ behind. AreBehind Between (spec.tokens_of_items buffer.now items.new.items)
        (map (token_of buffer.now) (events_of behind)) (map (token_of buffer.now) (events_of events.entry))) }
    ensures cut { IfOk result (λ behind. is_cut is_header_event (events_of behind) ≡ true) }
{
    let mut rest = events;
    while let Some((first, behind)) = rest.split_first() {
        if is_header(&first) {
            break;
        }
        let (item, behind) = item_first(alloc, buffer, first, behind)?;
        items.push(item)?;
        rest = behind;
    }
    Ok(rest)
}

/// Hands over the sections that the events are, in order; their spans are offsets of the buffer. The items of each section go through
/// `scratch`.
fn push_sections<S: SectionSink>(
    alloc: Global,
    buffer: &[u8],
    events: EventSlice<'_>,
    scratch: &mut Vec<Item>,
    sections: &mut S,
) -> Result<(), NoMemory>
    requires empty { scratch.old.items ≡ [] }
    requires items { are_items Between (map (token_of buffer.now) (events_of events)) ≡ true }
    requires cut { is_cut is_header_event (events_of events) ≡ true }
    requires within { EventsWithin (length buffer.now) (events_of events) }
    requires keeps { (first : S) × S.keeps buffer.now first sections.old }
    ensures keeps { OnOk result ((first : S) → S.keeps buffer.now first sections.old → S.keeps buffer.now first sections.new) }
    ensures tokens { OnOk result (S.tokens buffer.now sections.new ≡ S.tokens buffer.now sections.old ++ map (token_of buffer.now) (events_of events.entry)) }
{
    let mut rest = events;
    while let Some((Event::SectionHeader(header), behind)) = rest.split_first() {
        rest = push_items(alloc, buffer, behind, scratch)?;
        sections.take(buffer, header, scratch)?;
    }
    Ok(())
}

/// The items of events before their first header; the sections are handed over in order. All spans are offsets of the buffer,
/// and the tokens of both are those of the events.
///
/// One pass, without a copy of a byte.
///
/// # Errors
///
/// Out of memory.
pub(crate) fn grouped<S: SectionSink>(
    alloc: Global,
    buffer: &[u8],
    events: EventSlice<'_>,
    sections: &mut S,
) -> Result<FewItems, NoMemory>
    requires items { are_items Between (map (token_of buffer.now) (events_of events)) ≡ true }
    requires within { EventsWithin (length buffer.now) (events_of events) }
    requires keeps { (first : S) × S.keeps buffer.now first sections.old }
    requires none { S.tokens buffer.now sections.old ≡ [] }
    ensures within { IfOk result (λ front. AreItemsWithin (length buffer.now) front.items) }
    ensures keeps { OnOk result ((first : S) → S.keeps buffer.now first sections.old → S.keeps buffer.now first sections.new) }
    ensures tokens { IfOk result (λ front. spec.tokens_of_items buffer.now front.items ++ S.tokens buffer.now sections.new
        ≡ map (token_of buffer.now) (events_of events.entry)) }
{
    let mut scratch = Vec::new(alloc);
    let behind = push_items(alloc, buffer, events, &mut scratch)?;
    let front = taken(alloc, &mut scratch);
    push_sections(alloc, buffer, behind, &mut scratch, sections)?;
    Ok(front)
}
