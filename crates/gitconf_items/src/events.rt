//! The events of items, made one by one from their spans.
ghost use Rattle.std.specs.Prelude.{◌≡◌, [], ◌++◌, map, IfSome};
ghost use Rattle.std.specs.Option.{IfNone};
ghost use Rattle.gitconf_text.specs.Token.{NewlineToken, item_tokens, assigned_tokens, filled};
ghost use Rattle.gitconf_items.specs.Events.{bytes_of};
ghost use Rattle.gitconf_items.specs.Items.{item_of, assigned_of, items_of, tokens_in};
ghost use Rattle.gitconf_items.specs.ShownEvents.{shown_token};
ghost use Rattle.gitconf_items.specs.ItemEvents.{IsFirst, events_left, named_left, separated_left, pieces_left, tokens_left, value_left};

use crate::entry::{AssignedRef, Entry, Piece};
use crate::event::Span;
use crate::event_ref::EventRef;
use crate::items::Item;
use std::fmt;

/// Where an iterator is: between items, or within an entry, of which it still has the rest.
#[derive(Clone, Copy)]
enum Place<'a> {
    Between,
    BehindName(&'a Entry),
    BehindNameBlanks(&'a Entry),
    /// After `=`: the blanks before the value, and the value's pieces and its last one.
    BehindSeparator {
        blanks: Span,
        pieces: &'a [Piece],
        last: Span,
    },
    BehindSeparatorBlanks {
        pieces: &'a [Piece],
        last: Span,
    },
    /// After a piece's text: its line ending, and the rest of the value.
    BehindPiece {
        line_end: Span,
        pieces: &'a [Piece],
        last: Span,
    },
    /// After a piece and its line ending.
    BehindPieceEnd {
        pieces: &'a [Piece],
        last: Span,
    },
}

/// The events of items, in order.
///
/// Whitespace, line endings and a comment are one event each. An entry is its name, its whitespace, and then an empty value
/// if it has no `=`, otherwise the separator, the whitespace after that, and its value: one event, or several if it has
/// more than one piece. Within an entry, empty whitespace and line endings have no event.
///
/// It takes no memory, and a step takes constant time.
#[derive(Clone, Copy)]
pub struct ItemEvents<'a> {
    buffer: &'a [u8],
    place: Place<'a>,
    items: &'a [Item],
}

impl fmt::Debug for ItemEvents<'_> {
    fn fmt<W: fmt::Write>(&self, f: &mut fmt::Formatter<W>) -> fmt::Result {
        f.debug_struct("ItemEvents").finish_non_exhaustive()
    }
}

/// The event of the next piece of a value of several, or of its last one.
fn piece_event<'a>(buffer: &'a [u8], pieces: &'a [Piece], last: Span) -> (EventRef<'a>, Place<'a>)
    ensures { IsFirst buffer.now result (pieces_left buffer.now pieces.now last) }
{
    match pieces.split_first() {
        Some((piece, pieces)) => (
            EventRef::ValueNotDone(piece.text.bytes_in(buffer)),
            Place::BehindPiece {
                line_end: piece.line_end,
                pieces,
                last,
            },
        ),
        None => (EventRef::ValueDone(last.bytes_in(buffer)), Place::Between),
    }
}

/// The first event after a piece's text.
fn line_end_event<'a>(
    buffer: &'a [u8],
    line_end: Span,
    pieces: &'a [Piece],
    last: Span,
) -> (EventRef<'a>, Place<'a>)
    ensures { IsFirst buffer.now result (filled NewlineToken (bytes_of buffer.now line_end) ++ pieces_left buffer.now pieces.now last) }
{
    let bytes = line_end.bytes_in(buffer);
    if bytes.is_empty() {
        return piece_event(buffer, pieces, last);
    }
    (
        EventRef::Newline(bytes),
        Place::BehindPieceEnd { pieces, last },
    )
}

/// The first event of a value.
fn value_event<'a>(buffer: &'a [u8], pieces: &'a [Piece], last: Span) -> (EventRef<'a>, Place<'a>)
    ensures { IsFirst buffer.now result (value_left buffer.now pieces.now last) }
{
    if pieces.is_empty() {
        return (EventRef::Value(last.bytes_in(buffer)), Place::Between);
    }
    piece_event(buffer, pieces, last)
}

/// The first event after `=`.
fn separated_event<'a>(
    buffer: &'a [u8],
    blanks: Span,
    pieces: &'a [Piece],
    last: Span,
) -> (EventRef<'a>, Place<'a>)
    ensures { IsFirst buffer.now result (separated_left buffer.now blanks pieces.now last) }
{
    let bytes = blanks.bytes_in(buffer);
    if bytes.is_empty() {
        return value_event(buffer, pieces, last);
    }
    (
        EventRef::Whitespace(bytes),
        Place::BehindSeparatorBlanks { pieces, last },
    )
}

/// The first event after a name and its blanks.
fn assigned_event<'a>(buffer: &'a [u8], entry: &'a Entry) -> (EventRef<'a>, Place<'a>)
    ensures { IsFirst buffer.now result (assigned_tokens (assigned_of buffer.now entry.now.assigned)) }
{
    match entry.assigned() {
        AssignedRef::Nothing => (EventRef::Value(b""), Place::Between),
        AssignedRef::Plain { blanks, value } => (
            EventRef::KeyValueSeparator,
            Place::BehindSeparator {
                blanks,
                pieces: &[],
                last: value,
            },
        ),
        AssignedRef::Continued(continued) => (
            EventRef::KeyValueSeparator,
            Place::BehindSeparator {
                blanks: continued.blanks,
                pieces: continued.value.pieces.as_slice(),
                last: continued.value.last,
            },
        ),
    }
}

/// The first event after a name.
fn named_event<'a>(buffer: &'a [u8], entry: &'a Entry) -> (EventRef<'a>, Place<'a>)
    ensures { IsFirst buffer.now result (named_left buffer.now entry.now) }
{
    let blanks = entry.blanks().bytes_in(buffer);
    if blanks.is_empty() {
        return assigned_event(buffer, entry);
    }
    (EventRef::Whitespace(blanks), Place::BehindNameBlanks(entry))
}

/// The first event of an item.
fn item_event<'a>(buffer: &'a [u8], item: &'a Item) -> (EventRef<'a>, Place<'a>)
    ensures { IsFirst buffer.now result (item_tokens (item_of buffer.now item.now)) }
{
    match item {
        Item::Blanks(run) => (EventRef::Whitespace(run.bytes_in(buffer)), Place::Between),
        Item::LineEnds(run) => (EventRef::Newline(run.bytes_in(buffer)), Place::Between),
        Item::Comment { tag, text } => (
            EventRef::Comment {
                tag: *tag,
                text: text.bytes_in(buffer),
            },
            Place::Between,
        ),
        Item::Entry(entry) => (
            EventRef::SectionValueName(entry.name().bytes_in(buffer)),
            Place::BehindName(entry),
        ),
    }
}

/// The first event of the entry that the iterator is in; `None` between items.
fn entry_event<'a>(buffer: &'a [u8], place: Place<'a>) -> Option<(EventRef<'a>, Place<'a>)>
    ensures first { IfSome result (λ r. IsFirst buffer.now r (tokens_left buffer.now place.entry)) }
    ensures between { IfNone result (tokens_left buffer.now place.entry ≡ []) }
{
    match place {
        Place::Between => None,
        Place::BehindName(entry) => Some(named_event(buffer, entry)),
        Place::BehindNameBlanks(entry) => Some(assigned_event(buffer, entry)),
        Place::BehindSeparator {
            blanks,
            pieces,
            last,
        } => Some(separated_event(buffer, blanks, pieces, last)),
        Place::BehindSeparatorBlanks { pieces, last } => Some(value_event(buffer, pieces, last)),
        Place::BehindPiece {
            line_end,
            pieces,
            last,
        } => Some(line_end_event(buffer, line_end, pieces, last)),
        Place::BehindPieceEnd { pieces, last } => Some(piece_event(buffer, pieces, last)),
    }
}

impl<'a> ItemEvents<'a> {
    ghost use Rattle.std.specs.Prelude.{◌≡◌, map};
    ghost use Rattle.gitconf_items.specs.ShownEvents.{shown_token};
    ghost use Rattle.gitconf_items.specs.Items.{items_of, tokens_in};
    ghost use Rattle.gitconf_items.specs.ItemEvents.{events_left};

    /// The events of items whose spans are offsets of the buffer.
    pub fn over(buffer: &'a [u8], items: &'a [Item]) -> ItemEvents<'a>
        ensures { events_left result ≡ map shown_token (tokens_in (items_of buffer.now items.now)) }
    {
        ItemEvents {
            buffer,
            place: Place::Between,
            items,
        }
    }
}

impl<'a> Iterator for ItemEvents<'a> {
    type Item = EventRef<'a>;

    ghost use Rattle.std.specs.Iterator.{YieldsFirstBy, item_count};
    ghost use Rattle.gitconf_items.specs.EventRef.{shown};
    ghost use Rattle.gitconf_items.specs.ItemEvents.{events_left};

    ghost next_gives = { YieldsFirstBy shown events_left };

    ghost remaining = { item_count events_left };

    #[tactic(auto, using(crate::proofs::ItemEvents::first_of_all))]
    fn next(&mut self) -> Option<EventRef<'a>> {
        if let Some((event, place)) = entry_event(self.buffer, self.place) {
            self.place = place;
            return Some(event);
        }
        let (item, others) = self.items.split_first()?;
        let (event, place) = item_event(self.buffer, item);
        self.place = place;
        self.items = others;
        Some(event)
    }
}
