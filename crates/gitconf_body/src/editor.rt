//! The editor of a body: the blanks and the line ending that it writes.
ghost use Rattle.std.specs.Prelude.{◌≡◌, ◌+◌, ℕ, List, None, true};
ghost use Rattle.gitconf_items.specs.ItemsFit.{AreItemsWithin};
ghost use Rattle.gitconf_state.specs.Edit.{blank_bytes, spacing_of};
ghost use Rattle.gitconf_items.specs.Items.{items_of};
ghost use Rattle.gitconf_text.specs.LineEnds.{bytes_of_line_end};
ghost use Rattle.gitconf_body.specs.Editors.{around_bytes, around_put, editor_in, leading_put, stored_leading, EditorFits};
ghost use Rattle.gitconf_body.specs.Spacings.{leading_span};

use crate::spacing::{has_entry, leading_blanks, separator_blanks};
use gitconf_items::event::Span;
use gitconf_items::items::Item;
use gitconf_text::line_end::LineEnd;

/// The blanks before a key.
#[derive(Clone, Copy)]
pub enum Leading<'a> {
    /// There are none.
    Nothing,
    /// Those at a span of the buffer that is edited.
    Stored(Span),
    /// These bytes, which are added to the buffer with each key.
    Given(&'a [u8]),
}

/// The blanks before and after `=`.
#[derive(Clone, Copy)]
pub enum Around<'a> {
    /// A space on both sides, which is added to the buffer with each value.
    Spaces,
    /// Those at spans of the buffer that is edited. A span of no bytes stands for none.
    Stored { before: Span, behind: Span },
    /// These bytes, which are added to the buffer with each value.
    Given { before: &'a [u8], behind: &'a [u8] },
}

/// What an editor of a body writes besides names and values. It stays as it was made, even while the body changes.
#[derive(Clone, Copy)]
pub struct Editor<'a> {
    /// The blanks before a key.
    pub leading: Leading<'a>,
    /// The blanks before and after `=`.
    pub around: Around<'a>,
    /// What a line ends with.
    pub line_end: LineEnd,
    /// Whether a line ending is added after what is pushed.
    pub ends: bool,
}

/// The blanks directly before the first entry.
fn found_leading(items: &[Item]) -> Leading<'static>
    ensures { result ≡ stored_leading (leading_span None items.now) }
{
    match leading_blanks(items) {
        Some(run) => Leading::Stored(run),
        None => Leading::Nothing,
    }
}

/// The editor of these items, which adds this line ending after what is pushed. Its blanks are those directly before the first entry, if
/// there are any, and those around the first `=`. If no entry has `=`, none are around it; if there is no entry, the blanks are a
/// tab, a space and a space. Takes no memory, and adds nothing to a buffer; one walk over the items.
pub fn editor_of(items: &[Item], line_end: LineEnd) -> Editor<'static>
    ensures told { (buffer : List ℕ) → editor_in buffer result
        ≡ record { spacing = spacing_of (items_of buffer items.now); line_end = bytes_of_line_end line_end; ends = true } }
    ensures fits { (limit : ℕ) → AreItemsWithin limit items.now → EditorFits limit result }
    ensures blanks { (buffer : List ℕ) → leading_put result.leading + around_put result.around ≡ blank_bytes (items_of buffer items.now) }
    ensures around { (buffer : List ℕ) → around_put result.around ≡ around_bytes (items_of buffer items.now) }
{
    if !has_entry(items) {
        return Editor {
            leading: Leading::Given(b"\t"),
            around: Around::Spaces,
            line_end,
            ends: true,
        };
    }
    let (before, behind) = separator_blanks(items);
    Editor {
        leading: found_leading(items),
        around: Around::Stored { before, behind },
        line_end,
        ends: true,
    }
}
