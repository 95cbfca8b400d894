//! Line endings: which one a text uses, and where items end with one.
ghost use Rattle.std.specs.Prelude.{◌≡◌, option_map};
ghost use Rattle.std.specs.Option.{unwrap_or};
ghost use Rattle.gitconf_text.specs.Token.{item_tokens};
ghost use Rattle.gitconf_state.specs.LineEnds as spec;
ghost use Rattle.gitconf_state.specs.LineEnds.{line_end_of};
ghost use Rattle.gitconf_items.specs.Items.{item_of, tokens_of_value, items_of, tokens_in};
ghost use Rattle.gitconf_text.specs.LineEnds.{bytes_of_line_end, line_end_in};
ghost use Rattle.gitconf_print.specs.LineEnds.{first_newline, both_end_line};

use gitconf_items::entry::{AssignedRef, Value};
use gitconf_items::items::Item;
use gitconf_text::line_end::LineEnd;

/// The line ending of the first piece of a value that has one.
#[tactic(auto, using(crate::proofs::Newlines::newlines))]
fn value_line_end(buffer: &[u8], value: &Value) -> Option<LineEnd>
    ensures { option_map bytes_of_line_end result ≡ first_newline (tokens_of_value buffer.now value.now) }
{
    for piece in value.pieces.as_slice() {
        let run = piece.line_end.bytes_in(buffer);
        if !run.is_empty() {
            return Some(LineEnd::of_newline(run));
        }
    }
    None
}

/// The line ending of an item's first newline.
#[tactic(auto, using(crate::proofs::Newlines::newlines))]
fn item_line_end(buffer: &[u8], item: &Item) -> Option<LineEnd>
    ensures { option_map bytes_of_line_end result ≡ first_newline (item_tokens (item_of buffer.now item.now)) }
{
    match item {
        Item::Blanks(_) | Item::Comment { .. } => None,
        Item::LineEnds(run) => Some(LineEnd::of_newline(run.bytes_in(buffer))),
        Item::Entry(entry) => match entry.assigned() {
            AssignedRef::Nothing | AssignedRef::Plain { .. } => None,
            AssignedRef::Continued(continued) => value_line_end(buffer, &continued.value),
        },
    }
}

/// The line ending of the first newline among items, including those in values.
///
/// It stops at the first one.
#[tactic(auto, using(crate::proofs::Newlines::newlines))]
pub fn first_line_end(buffer: &[u8], items: &[Item]) -> Option<LineEnd>
    ensures { option_map bytes_of_line_end result ≡ first_newline (tokens_in (items_of buffer.now items.now)) }
{
    for item in items {
        if let Some(found) = item_line_end(buffer, item) {
            return Some(found);
        }
    }
    None
}

/// The line ending that a body uses: that of its first newline, or LF.
#[tactic(auto, using(crate::proofs::Newlines::newlines))]
pub fn body_line_end(buffer: &[u8], items: &[Item]) -> LineEnd
    ensures { bytes_of_line_end result ≡ line_end_of (tokens_in (items_of buffer.now items.now)) }
{
    first_line_end(buffer, items).unwrap_or(LineEnd::Lf)
}

/// Whether the line ending is somewhere in a run of line endings.
fn holds(line_end: &[u8], run: &[u8]) -> bool
    ensures { result ≡ spec.holds line_end.now run.now }
{
    let mut rest = run;
    while let Some((_, behind)) = rest.split_first() {
        if rest.starts_with(line_end) {
            return true;
        }
        rest = behind;
    }
    false
}

/// Whether items end with a line ending: among the blanks and line endings at their end one holds it.
///
/// It walks from the end, up to an entry, a comment or a line ending.
pub fn ends_line(buffer: &[u8], items: &[Item], line_end: LineEnd) -> bool
    ensures { result ≡ spec.ends_line (bytes_of_line_end line_end) (items_of buffer.now items.now) }
{
    let mut rest = items;
    while let Some((item, before)) = rest.split_last() {
        match item {
            Item::Blanks(_) => rest = before,
            Item::LineEnds(run) => {
                if holds(line_end.as_bytes(), run.bytes_in(buffer)) {
                    return true;
                }
                rest = before;
            }
            Item::Comment { .. } | Item::Entry(_) => return false,
        }
    }
    false
}

/// Whether a section ends with a line ending, with what is held after its body.
///
/// It walks from the end, as `ends_line` does.
pub fn ends_with_line(buffer: &[u8], items: &[Item], held: &[Item], line_end: LineEnd) -> bool
    ensures { result ≡ both_end_line (bytes_of_line_end line_end) (items_of buffer.now items.now) (items_of buffer.now held.now) }
{
    if held.is_empty() {
        ends_line(buffer, items, line_end)
    } else {
        ends_line(buffer, held, line_end)
    }
}
