//! Items and headers after other bytes were put before their buffer: their spans are moved, and no byte is copied.
ghost use Rattle.std.specs.Prelude.{◌≡◌, ◌+◌, ◌-◌, ◌<◌, ◌^◌, length};
ghost use Rattle.gitconf_items.specs.Events.{bytes_of, HeaderFits, OptionFits, SpanFits};
ghost use Rattle.gitconf_items.specs.Items.{piece_of, value_of, assigned_of, entry_of, item_of};
ghost use Rattle.gitconf_items.specs.ItemsFit.{PieceFits, ValueFits, AssignedFits, EntryFits, ItemFits, AreItemsWithin};
ghost use Rattle.gitconf_items.specs.Forms.{FormFits, parts_in};
ghost use Rattle.gitconf_items.specs.ShownEvents.{CopyFits};
ghost use Rattle.gitconf_items.specs.Moves.{continued_of, copy_of, option_bytes_of, pieces_of, AreItemsMoved, ContinuedFits, IsHeaderMoved, IsMoved, PiecesFit};

use crate::entry::{Assigned, Continued, Entry, EntryParts, Form, Line, Piece, Value};
use crate::event::{Copied, Header, Span};
use crate::items::Item;
use std::mem::replace;

/// The same bytes, after `by` others were put before them.
#[tactic(auto, using(crate::proofs::Moves::moving))]
fn moved_span(span: Span, by: u32) -> Span
    requires { SpanFits (2 ^ 32 - 1 - by) span }
    ensures start { result.start ≡ by + span.start }
    ensures len { result.len ≡ span.len }
    ensures moved { IsMoved bytes_of SpanFits by span result }
{
    Span {
        start: by + span.start,
        len: span.len,
    }
}

#[tactic(auto, using(crate::proofs::Moves::moving))]
fn moved_option(span: Option<Span>, by: u32) -> Option<Span>
    requires { OptionFits (2 ^ 32 - 1 - by) span }
    ensures { IsMoved option_bytes_of OptionFits by span result }
{
    match span {
        Some(span) => Some(moved_span(span, by)),
        None => None,
    }
}

#[tactic(auto, using(crate::proofs::Moves::moving))]
fn moved_copy(copy: Option<Copied>, by: u32) -> Option<Copied>
    requires { CopyFits (2 ^ 32 - 1 - by) copy }
    ensures { IsMoved copy_of CopyFits by copy result }
{
    match copy {
        Some(copy) => Some(Copied {
            start: by + copy.start,
            len: copy.len,
        }),
        None => None,
    }
}

/// A header of a buffer, after bytes were put before those of the buffer. These are `by` bytes, and `copies_by` were put
/// before the decoded copies.
pub fn moved_header(header: Header, by: u32, copies_by: u32) -> Header
    requires fits { HeaderFits (2 ^ 32 - 1 - by) header }
    requires copy_fits { CopyFits (2 ^ 32 - 1 - copies_by) header.decoded }
    ensures { IsHeaderMoved by copies_by header result }
{
    Header {
        name: moved_span(header.name, by),
        separator: moved_option(header.separator, by),
        subsection: moved_option(header.subsection, by),
        decoded: moved_copy(header.decoded, copies_by),
    }
}

#[tactic(auto, using(crate::proofs::Moves::moving))]
fn moved_piece(piece: Piece, by: u32) -> Piece
    requires { PieceFits (2 ^ 32 - 1 - by) piece }
    ensures { IsMoved piece_of PieceFits by piece result }
{
    Piece {
        text: moved_span(piece.text, by),
        line_end: moved_span(piece.line_end, by),
    }
}

fn move_pieces(pieces: &mut [Piece], by: u32)
    requires { PiecesFit (2 ^ 32 - 1 - by) pieces.old }
    ensures moved { IsMoved pieces_of PiecesFit by pieces.old pieces.new }
    ensures len { length pieces.new ≡ length pieces.old }
{
    for at in 0..pieces.len() {
        let piece = pieces[at];
        pieces[at] = moved_piece(piece, by);
    }
}

#[tactic(auto, using(crate::proofs::Moves::moving))]
fn move_value(value: &mut Value, by: u32)
    requires { ValueFits (2 ^ 32 - 1 - by) value.old }
    ensures { IsMoved value_of ValueFits by value.old value.new }
{
    move_pieces(value.pieces.as_mut_slice(), by);
    value.last = moved_span(value.last, by);
}

#[tactic(auto, using(crate::proofs::Moves::moving))]
fn move_continued(continued: &mut Continued, by: u32)
    requires { ContinuedFits (2 ^ 32 - 1 - by) continued.old }
    ensures { IsMoved continued_of ContinuedFits by continued.old continued.new }
{
    continued.blanks = moved_span(continued.blanks, by);
    move_value(&mut continued.value, by);
}

/// What is assigned, if anything.
#[tactic(auto, using(crate::proofs::Moves::moving))]
fn move_assigned(assigned: &mut Assigned, by: u32)
    requires { AssignedFits (2 ^ 32 - 1 - by) assigned.old }
    ensures { IsMoved assigned_of AssignedFits by assigned.old assigned.new }
{
    match assigned {
        Assigned::Nothing => {}
        Assigned::Plain { blanks, value } => {
            *blanks = moved_span(*blanks, by);
            *value = moved_span(*value, by);
        }
        Assigned::Continued(continued) => move_continued(continued, by),
    }
}

#[tactic(auto, using(crate::proofs::Moves::moving))]
fn move_parts(parts: &mut EntryParts, by: u32)
    requires { EntryFits (2 ^ 32 - 1 - by) parts.old }
    ensures { IsMoved entry_of EntryFits by parts.old parts.new }
{
    parts.name = moved_span(parts.name, by);
    parts.blanks = moved_span(parts.blanks, by);
    move_assigned(&mut parts.assigned, by);
}

/// An entry in a box stays in its box.
#[tactic(auto, using(crate::proofs::Moves::moving))]
fn moved_form(form: Form, by: u32) -> Form
    requires inside { FormFits form }
    requires fits { EntryFits (2 ^ 32 - 1 - by) (parts_in form) }
    ensures inside { FormFits result }
    ensures moved { IsMoved entry_of EntryFits by (parts_in form) (parts_in result) }
{
    match form {
        Form::Name { name, blanks } => Form::Name {
            name: moved_span(name, by),
            blanks,
        },
        Form::Line(line) => Form::Line(Line {
            start: by + line.start,
            ..line
        }),
        Form::Bare(line) => Form::Bare(Line {
            start: by + line.start,
            ..line
        }),
        Form::Apart(mut parts) => {
            move_parts(&mut *parts, by);
            Form::Apart(parts)
        }
    }
}

#[tactic(auto, using(crate::proofs::Moves::moving))]
fn moved_entry(entry: Entry, by: u32) -> Entry
    requires { EntryFits (2 ^ 32 - 1 - by) entry }
    ensures { IsMoved entry_of EntryFits by entry result }
{
    Entry {
        form: moved_form(entry.into_form(), by),
    }
}

#[tactic(auto, using(crate::proofs::Moves::moving))]
fn moved_item(item: Item, by: u32) -> Item
    requires { ItemFits (2 ^ 32 - 1 - by) item }
    ensures { IsMoved item_of ItemFits by item result }
{
    match item {
        Item::Blanks(run) => Item::Blanks(moved_span(run, by)),
        Item::LineEnds(run) => Item::LineEnds(moved_span(run, by)),
        Item::Comment { tag, text } => Item::Comment {
            tag,
            text: moved_span(text, by),
        },
        Item::Entry(entry) => Item::Entry(moved_entry(entry, by)),
    }
}

/// Moves the items of a buffer, after `by` bytes were put before the buffer's. One pass, which takes no memory.
pub fn move_items(items: &mut [Item], by: u32)
    requires { AreItemsWithin (2 ^ 32 - 1 - by) items.old }
    ensures moved { AreItemsMoved by items.old items.new }
    ensures len { length items.new ≡ length items.old }
{
    for at in 0..items.len() {
        let item = replace(&mut items[at], Item::LineEnds(Span::NOTHING));
        drop(replace(&mut items[at], moved_item(item, by)));
    }
}
