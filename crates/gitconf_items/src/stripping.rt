//! What a lossy load keeps of items: entries, without the blanks and the line endings in them.
ghost use Rattle.std.specs.Prelude.{◌≡◌, ℕ, List, length, map};
ghost use Rattle.std.specs.Option.{option_map};
ghost use Rattle.gitconf_text.specs.Part.{EntryItem};
ghost use Rattle.gitconf_text.specs.Token.{item_tokens};
ghost use Rattle.gitconf_items.specs.Forms.{FormFits, parts_in};
ghost use Rattle.gitconf_items.specs.Items.{assigned_of, entry_of, piece_of};
ghost use Rattle.gitconf_items.specs.ItemsFit.{AssignedFits, EntryFits, PieceFits};
ghost use Rattle.gitconf_items.specs.Moves.{continued_of, pieces_of, ContinuedFits, PiecesFit};
ghost use Rattle.gitconf_items.specs.TokenDocument.{tokens_kept};
ghost use Rattle.gitconf_items.specs.Stripped.{stripped_assigned, stripped_entry, stripped_piece, IsStripped};

use crate::entry::{Assigned, Continued, Entry, EntryParts, Form, Piece};
use crate::event::Span;
use crate::items::Keep;

#[tactic(auto, using(crate::proofs::Strips::stripping))]
fn stripped_piece(piece: Piece) -> Piece
    ensures { IsStripped piece_of stripped_piece PieceFits piece result }
{
    Piece {
        text: piece.text,
        line_end: Span::NOTHING,
    }
}

fn strip_pieces(pieces: &mut [Piece])
    ensures stripped { IsStripped pieces_of (map stripped_piece) PiecesFit pieces.old pieces.new }
    ensures len { length pieces.new ≡ length pieces.old }
{
    for at in 0..pieces.len() {
        let piece = pieces[at];
        pieces[at] = stripped_piece(piece);
    }
}

#[tactic(auto, using(crate::proofs::Strips::stripping))]
fn strip_continued(continued: &mut Continued)
    ensures { IsStripped continued_of stripped_assigned ContinuedFits continued.old continued.new }
{
    continued.blanks = Span::NOTHING;
    strip_pieces(continued.value.pieces.as_mut_slice());
}

#[tactic(auto, using(crate::proofs::Strips::stripping))]
fn strip_assigned(assigned: &mut Assigned)
    ensures { IsStripped assigned_of (option_map stripped_assigned) AssignedFits assigned.old assigned.new }
{
    match assigned {
        Assigned::Nothing => {}
        Assigned::Plain { blanks, .. } => *blanks = Span::NOTHING,
        Assigned::Continued(continued) => strip_continued(continued),
    }
}

#[tactic(auto, using(crate::proofs::Strips::stripping))]
fn strip_parts(parts: &mut EntryParts)
    ensures { IsStripped entry_of stripped_entry EntryFits parts.old parts.new }
{
    parts.blanks = Span::NOTHING;
    strip_assigned(&mut parts.assigned);
}

/// An entry in a box stays in its box.
#[tactic(auto, using(crate::proofs::Strips::stripping))]
fn stripped_form(form: Form) -> Form
    requires inside { FormFits form }
    ensures inside { FormFits result }
    ensures stripped { IsStripped entry_of stripped_entry EntryFits (parts_in form) (parts_in result) }
{
    match form {
        Form::Name { name, .. } => Form::Name { name, blanks: 0 },
        Form::Line(line) => Form::Bare(line),
        Form::Bare(line) => Form::Bare(line),
        Form::Apart(mut parts) => {
            strip_parts(&mut *parts);
            Form::Apart(parts)
        }
    }
}

#[tactic(auto, using(crate::proofs::Strips::stripping))]
fn stripped_entry(entry: Entry) -> Entry
    ensures { IsStripped entry_of stripped_entry EntryFits entry result }
{
    Entry {
        form: stripped_form(entry.into_form()),
    }
}

/// What is kept of an entry.
#[inline(always)]
pub fn kept_entry(entry: Entry, keep: Keep) -> Entry
    ensures told { (buffer : List ℕ) → item_tokens (EntryItem (entry_of buffer result)) ≡ tokens_kept keep (item_tokens (EntryItem (entry_of buffer entry))) }
    ensures fits { (limit : ℕ) → EntryFits limit entry → EntryFits limit result }
{
    match keep {
        Keep::All => entry,
        Keep::Meaning => stripped_entry(entry),
    }
}
