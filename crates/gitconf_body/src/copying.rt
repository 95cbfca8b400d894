//! Items and headers of one buffer, copied to another.
ghost use Rattle.std.specs.Prelude.{◌≡◌, ◌+◌, ◌<◌, ◌^◌, length, map, IfOk, OnOk};
ghost use Rattle.std.specs.List.{AllByRecursion};
ghost use Rattle.gitconf_items.specs.Events.{bytes_of, header_of, HeaderFits};
ghost use Rattle.gitconf_items.specs.Items.{piece_of, value_of, assigned_of, entry_of, item_of, items_of, lent};
ghost use Rattle.gitconf_items.specs.ItemsFit.{PieceFits, ValueFits, AssignedFits, EntryFits, ItemFits, AreItemsWithin};
ghost use Rattle.gitconf_body.specs.Buffers.{StandsAt};
ghost use Rattle.gitconf_body.specs.Copies.{assigned_size, entry_size, header_size, item_size, items_size, piece_size, pieces_size, value_size, IsCopy, IsLonger};

use crate::buffer::append;
use gitconf_items::entry::{Assigned, AssignedRef, Entry, EntryParts, Piece, Value};
use gitconf_items::event::{Header, Span};
use gitconf_items::items::Item;
use gitconf_text::parse::span;
use smallvec::SmallVec;

/// A copy of the bytes of a span.
#[tactic(auto, using(crate::proofs::Copies::copying))]
fn copied_span(from: &[u8], to: &mut Vec<u8>, source: Span) -> Result<Span, span::Error>
    requires room { length to.old.items < 2 ^ 32 }
    ensures stands { IfOk result (λ s. StandsAt to.new.items s (bytes_of from.now source)) }
    ensures longer { OnOk result (IsLonger to.old.items to.new.items) }
    ensures put { OnOk result (length to.new.items ≡ length to.old.items + length (bytes_of from.now source)) }
{
    append(to, source.bytes_in(from))
}

#[tactic(auto, using(crate::proofs::Copies::copying))]
fn copied_piece(from: &[u8], to: &mut Vec<u8>, piece: Piece) -> Result<Piece, span::Error>
    requires room { length to.old.items < 2 ^ 32 }
    ensures copy { IfOk result (λ p. IsCopy piece_of PieceFits from.now to.new.items piece p) }
    ensures longer { OnOk result (IsLonger to.old.items to.new.items) }
    ensures put { OnOk result (length to.new.items ≡ length to.old.items + piece_size (piece_of from.now piece)) }
{
    let text = copied_span(from, to, piece.text)?;
    let line_end = copied_span(from, to, piece.line_end)?;
    Ok(Piece { text, line_end })
}

#[tactic(auto, using(crate::proofs::Copies::copying))]
fn copied_pieces(
    from: &[u8],
    to: &mut Vec<u8>,
    pieces: &[Piece],
) -> Result<SmallVec<Piece, 4>, span::Error>
    requires room { length to.old.items < 2 ^ 32 }
    ensures copies { IfOk result (λ ps. IsCopy (λ b. map (piece_of b)) (λ limit. AllByRecursion (PieceFits limit)) from.now to.new.items pieces.now ps.items) }
    ensures longer { OnOk result (IsLonger to.old.items to.new.items) }
    ensures put { OnOk result (length to.new.items ≡ length to.old.items + pieces_size (map (piece_of from.now) pieces.now)) }
{
    let mut copies = SmallVec::with_capacity(*to.allocator(), pieces.len())?;
    let mut rest = pieces;
    while let Some((piece, behind)) = rest.split_first() {
        let copy = copied_piece(from, to, *piece)?;
        copies.push(copy)?;
        rest = behind;
    }
    Ok(copies)
}

#[tactic(auto, using(crate::proofs::Copies::copying))]
fn copied_value(from: &[u8], to: &mut Vec<u8>, value: &Value) -> Result<Value, span::Error>
    requires room { length to.old.items < 2 ^ 32 }
    ensures copy { IfOk result (λ v. IsCopy value_of ValueFits from.now to.new.items value.now v) }
    ensures longer { OnOk result (IsLonger to.old.items to.new.items) }
    ensures put { OnOk result (length to.new.items ≡ length to.old.items + value_size (value_of from.now value.now)) }
{
    let pieces = copied_pieces(from, to, &value.pieces)?;
    let last = copied_span(from, to, value.last)?;
    Ok(Value { pieces, last })
}

/// A copy of what is assigned, if anything.
#[tactic(auto, using(crate::proofs::Copies::copying))]
fn copied_assigned(
    from: &[u8],
    to: &mut Vec<u8>,
    assigned: AssignedRef<'_>,
) -> Result<Assigned, span::Error>
    requires room { length to.old.items < 2 ^ 32 }
    ensures copy { IfOk result (λ a. IsCopy assigned_of AssignedFits from.now to.new.items (lent assigned.entry) a) }
    ensures longer { OnOk result (IsLonger to.old.items to.new.items) }
    ensures put { OnOk result (length to.new.items ≡ length to.old.items + assigned_size (assigned_of from.now (lent assigned.entry))) }
{
    match assigned {
        AssignedRef::Nothing => Ok(Assigned::Nothing),
        AssignedRef::Plain { blanks, value } => {
            let blanks = copied_span(from, to, blanks)?;
            let value = copied_span(from, to, value)?;
            Ok(Assigned::Plain { blanks, value })
        }
        AssignedRef::Continued(continued) => {
            let blanks = copied_span(from, to, continued.blanks)?;
            let value = copied_value(from, to, &continued.value)?;
            Ok(Assigned::of_value(blanks, value))
        }
    }
}

#[tactic(auto, using(crate::proofs::Copies::copying))]
fn copied_entry(from: &[u8], to: &mut Vec<u8>, entry: &Entry) -> Result<Entry, span::Error>
    requires room { length to.old.items < 2 ^ 32 }
    ensures copy { IfOk result (λ e. IsCopy entry_of EntryFits from.now to.new.items entry.now e) }
    ensures longer { OnOk result (IsLonger to.old.items to.new.items) }
    ensures put { OnOk result (length to.new.items ≡ length to.old.items + entry_size (entry_of from.now entry.now)) }
{
    let name = copied_span(from, to, entry.name())?;
    let blanks = copied_span(from, to, entry.blanks())?;
    let assigned = copied_assigned(from, to, entry.assigned())?;
    let parts = EntryParts {
        name,
        blanks,
        assigned,
    };
    Ok(Entry::try_new(*to.allocator(), parts)?)
}

#[tactic(auto, using(crate::proofs::Copies::copying))]
fn copied_item(from: &[u8], to: &mut Vec<u8>, item: &Item) -> Result<Item, span::Error>
    requires room { length to.old.items < 2 ^ 32 }
    ensures copy { IfOk result (λ i. IsCopy item_of ItemFits from.now to.new.items item.now i) }
    ensures longer { OnOk result (IsLonger to.old.items to.new.items) }
    ensures put { OnOk result (length to.new.items ≡ length to.old.items + item_size (item_of from.now item.now)) }
{
    Ok(match item {
        Item::Blanks(run) => Item::Blanks(copied_span(from, to, *run)?),
        Item::LineEnds(run) => Item::LineEnds(copied_span(from, to, *run)?),
        Item::Comment { tag, text } => Item::Comment {
            tag: *tag,
            text: copied_span(from, to, *text)?,
        },
        Item::Entry(entry) => Item::Entry(copied_entry(from, to, entry)?),
    })
}

/// Copies of items of one buffer, with their bytes added to another. One pass, which takes memory for the items and their bytes.
///
/// # Errors
///
/// A [`span::Error`]: E3 if the other buffer would be longer than 4294967295 bytes, otherwise E27 when out of memory. It may have
/// grown.
#[tactic(auto, using(crate::proofs::Copies::copying))]
pub fn copied_items(from: &[u8], to: &mut Vec<u8>, items: &[Item]) -> Result<Vec<Item>, span::Error>
    requires room { length to.old.items < 2 ^ 32 }
    ensures copies { IfOk result (λ is. IsCopy items_of AreItemsWithin from.now to.new.items items.now is.items) }
    ensures longer { OnOk result (IsLonger to.old.items to.new.items) }
    ensures put { OnOk result (length to.new.items ≡ length to.old.items + items_size (items_of from.now items.now)) }
{
    let mut copies = Vec::with_capacity(*to.allocator(), items.len())?;
    let mut rest = items;
    while let Some((item, behind)) = rest.split_first() {
        let copy = copied_item(from, to, item)?;
        copies.push(copy)?;
        rest = behind;
    }
    Ok(copies)
}

/// A copy of a header of one buffer, with its bytes added to another. It comes without the decoded copy of its subsection.
///
/// # Errors
///
/// Those of [`copied_items`].
pub fn copied_header(from: &[u8], to: &mut Vec<u8>, header: Header) -> Result<Header, span::Error>
    requires room { length to.old.items < 2 ^ 32 }
    ensures copy { IfOk result (λ h. IsCopy header_of HeaderFits from.now to.new.items header h) }
    ensures longer { OnOk result (IsLonger to.old.items to.new.items) }
    ensures put { OnOk result (length to.new.items ≡ length to.old.items + header_size (header_of from.now header)) }
{
    let name = copied_span(from, to, header.name)?;
    let (Some(separator), Some(subsection)) = (header.separator, header.subsection) else {
        return Ok(Header {
            name,
            separator: None,
            subsection: None,
            decoded: None,
        });
    };
    let separator = copied_span(from, to, separator)?;
    let subsection = copied_span(from, to, subsection)?;
    Ok(Header {
        name,
        separator: Some(separator),
        subsection: Some(subsection),
        decoded: None,
    })
}
