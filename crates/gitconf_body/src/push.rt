//! Lines that are pushed after the items of a body.
ghost use Rattle.std.specs.Prelude.{◌≡◌, ◌↔◌, ℕ, List, ◌+◌, ◌-◌, ◌<◌, ◌≤◌, ◌^◌, min, not, Option, Some, None, ◌∷◌, ◌++◌, [], length, IfOk, IfErr, OnOk, OnErr, IsErrOf};
ghost use Rattle.std.specs.Option.{option_copied};
ghost use Rattle.gitconf_text.specs.Text.{begins};
ghost use Rattle.gitconf_text.specs.Bytes.{is_whitespace};
ghost use Rattle.gitconf_text.specs.Part as parts;
ghost use Rattle.gitconf_text.specs.Value.{escaped};
ghost use Rattle.gitconf_items.specs.declared.items.Item.TheVariants as kinds;
ghost use Rattle.gitconf_items.specs.Events.{bytes_of, SpanFits};
ghost use Rattle.gitconf_items.specs.Items.{entry_of, items_of};
ghost use Rattle.gitconf_items.specs.ItemsFit.{AreItemsWithin, EntryFits};
ghost use Rattle.gitconf_state.specs.Edit.{leading_item};
ghost use Rattle.gitconf_state.specs.Editors as state;
ghost use Rattle.gitconf_text.specs.LineEnds.{bytes_of_line_end};
ghost use Rattle.gitconf_body.specs.Buffers.{Grows, StandsAt};
ghost use Rattle.gitconf_body.specs.Editors as spec;
ghost use Rattle.gitconf_body.specs.Editors.{editor_in, leading_in, around_in, EditorFits, LeadingFits, AroundFits};
ghost use Rattle.gitconf_body.specs.Spacings.{leading_items};
ghost use Rattle.gitconf_body.specs.Standing.{Stand, comment_items, end_items, line_items};

use crate::buffer::{append, check_room};
use crate::editor::{Around, Editor, Leading};
use gitconf_items::entry::{Assigned, Entry, EntryParts};
use gitconf_items::event::Span;
use gitconf_items::items::Item;
use gitconf_text::NoMemory;
use gitconf_text::parse::span;
use gitconf_text::value::{escape, escaped_len};
use std::alloc::Global;

/// The blanks before a key, added to the buffer if they aren't there.
#[tactic(auto, using(crate::proofs::Buffers::extending, crate::proofs::Standing::standing))]
fn put_leading(buffer: &mut Vec<u8>, leading: &Leading<'_>) -> Result<Option<Span>, span::Error>
    requires room { length buffer.old.items < 2 ^ 32 }
    requires fits { LeadingFits (length buffer.old.items) leading.now }
    ensures stands { IfOk result (λ s. Stand buffer.new.items (leading_items s) (leading_item (leading_in buffer.old.items leading.now))) }
    ensures grows { Grows result (spec.leading_put leading.now) buffer.old.items buffer.new.items }
{
    match leading {
        Leading::Nothing => Ok(None),
        Leading::Stored(run) => Ok(Some(*run)),
        Leading::Given(bytes) => Ok(Some(append(buffer, bytes)?)),
    }
}

/// The blanks before and after `=`, added to the buffer if they aren't there.
#[tactic(auto, using(crate::proofs::Buffers::extending))]
pub fn put_around(buffer: &mut Vec<u8>, around: &Around<'_>) -> Result<(Span, Span), span::Error>
    requires room { length buffer.old.items < 2 ^ 32 }
    requires fits { AroundFits (length buffer.old.items) around.now }
    ensures before { IfOk result (λ p. StandsAt buffer.new.items p.0 (around_in buffer.old.items around.now).0) }
    ensures behind { IfOk result (λ p. StandsAt buffer.new.items p.1 (around_in buffer.old.items around.now).1) }
    ensures grows { Grows result (spec.around_put around.now) buffer.old.items buffer.new.items }
{
    match around {
        Around::Spaces => {
            let space = append(buffer, b" ")?;
            Ok((space, space))
        }
        Around::Stored { before, behind } => Ok((*before, *behind)),
        Around::Given { before, behind } => {
            let before = append(buffer, before)?;
            let behind = append(buffer, behind)?;
            Ok((before, behind))
        }
    }
}

/// Adds a value to the buffer, as a file spells it.
#[tactic(auto, using(crate::proofs::Buffers::extending))]
pub fn put_value(buffer: &mut Vec<u8>, value: &[u8]) -> Result<Span, span::Error>
    requires room { length buffer.old.items < 2 ^ 32 }
    ensures stands { IfOk result (λ s. StandsAt buffer.new.items s (escaped value.now)) }
    ensures grows { Grows result (length (escaped value.now)) buffer.old.items buffer.new.items }
{
    let text = escape(*buffer.allocator(), value)?;
    append(buffer, &text)
}

/// An entry with a value of one piece.
pub fn entry_with(
    alloc: Global,
    name: Span,
    before: Span,
    behind: Span,
    value: Span,
) -> Result<Entry, NoMemory>
    ensures told { IfOk result (λ e. (buffer : List ℕ) → entry_of buffer e ≡ record {
      name = bytes_of buffer name;
      blanks = bytes_of buffer before;
      assigned = Some (record { blanks = bytes_of buffer behind; value = record { pieces = []; last = bytes_of buffer value } });
    }) }
    ensures fits { IfOk result (λ e. (limit : ℕ) → SpanFits limit name → SpanFits limit before → SpanFits limit behind → SpanFits limit value
        → EntryFits limit e) }
{
    let parts = EntryParts {
        name,
        blanks: before,
        assigned: Assigned::Plain {
            blanks: behind,
            value,
        },
    };
    Ok(Entry::try_new(alloc, parts)?)
}

/// An entry of a key, with a value or without one, added to the buffer.
#[tactic(auto, using(crate::proofs::Buffers::extending))]
pub fn put_entry(
    buffer: &mut Vec<u8>,
    around: &Around<'_>,
    key: &[u8],
    value: Option<&[u8]>,
) -> Result<Entry, span::Error>
    requires room { length buffer.old.items < 2 ^ 32 }
    requires fits { AroundFits (length buffer.old.items) around.now }
    ensures stands { (blanks : Option (List ℕ)) → IfOk result (λ e. Stand buffer.new.items (kinds.Entry e ∷ [])
        (state.entry_made (record {
          leading = blanks;
          before = (around_in buffer.old.items around.now).0;
          behind = (around_in buffer.old.items around.now).1;
        }) key.now (option_copied value.entry) ∷ [])) }
    ensures grows { Grows result (length key.now + spec.value_put around.now (option_copied value.entry)) buffer.old.items buffer.new.items }
{
    let Some(value) = value else {
        let name = append(buffer, key)?;
        let parts = EntryParts {
            name,
            blanks: Span::NOTHING,
            assigned: Assigned::Nothing,
        };
        return Ok(Entry::try_new(*buffer.allocator(), parts)?);
    };
    let (before, behind) = put_around(buffer, around)?;
    let name = append(buffer, key)?;
    let value = put_value(buffer, value)?;
    Ok(entry_with(*buffer.allocator(), name, before, behind, value)?)
}

/// Whether there is a first byte, and it is not whitespace.
fn begins_with_word(text: &[u8]) -> bool
    ensures { result ≡ begins (λ b. not (is_whitespace b)) text.now }
{
    match text {
        [first, ..] => !first.is_ascii_whitespace(),
        [] => false,
    }
}

/// The text of a comment after its mark: after a space, unless it begins with whitespace, with each LF turned to a space.
fn comment_text(alloc: Global, text: &[u8]) -> Result<Vec<u8>, NoMemory>
    ensures { IfOk result (λ t. t.items ≡ state.comment_text text.now) }
{
    let mut out = Vec::new(alloc);
    if begins_with_word(text) {
        out.push(b' ')?;
    }
    for b in text {
        out.push(if *b == b'\n' { b' ' } else { *b })?;
    }
    Ok(out)
}

/// How many bytes [`comment_text`] has, or `usize::MAX` if there are more.
fn comment_len(text: &[u8]) -> usize
    ensures { result ≡ min (length (state.comment_text text.now)) (2 ^ 64 - 1) }
{
    if begins_with_word(text) {
        text.len().saturating_add(1)
    } else {
        text.len()
    }
}

/// A comment that begins with `#`, and the blanks before it.
#[derive(Clone, Copy)]
struct Comment {
    blanks: Span,
    text: Span,
}

/// A comment, if one is given, added to the buffer with a space before it.
#[tactic(auto, using(crate::proofs::Buffers::extending, crate::proofs::Standing::standing))]
fn put_comment(buffer: &mut Vec<u8>, comment: Option<&[u8]>) -> Result<Option<Comment>, span::Error>
    requires room { length buffer.old.items < 2 ^ 32 }
    ensures stands { IfOk result (λ c. Stand buffer.new.items (comment_items c) (state.comment_made (option_copied comment.entry))) }
    ensures grows { Grows result (spec.comment_put (option_copied comment.entry)) buffer.old.items buffer.new.items }
{
    let Some(comment) = comment else {
        return Ok(None);
    };
    let made = comment_text(*buffer.allocator(), comment)?;
    let blanks = append(buffer, b" ")?;
    let text = append(buffer, &made)?;
    Ok(Some(Comment { blanks, text }))
}

/// The line ending after what is pushed, added to the buffer, unless it is switched off.
#[tactic(auto, using(crate::proofs::Buffers::extending, crate::proofs::Standing::standing))]
fn put_end(buffer: &mut Vec<u8>, editor: &Editor<'_>) -> Result<Option<Span>, span::Error>
    requires room { length buffer.old.items < 2 ^ 32 }
    ensures stands { IfOk result (λ s. Stand buffer.new.items (end_items s) (state.end_made (editor_in buffer.old.items editor.now))) }
    ensures grows { Grows result (spec.end_put editor.now) buffer.old.items buffer.new.items }
{
    if !editor.ends {
        return Ok(None);
    }
    Ok(Some(append(buffer, editor.line_end.as_bytes())?))
}

/// The parts of a line that is pushed.
#[derive(Drop)]
pub(crate) struct Line {
    leading: Option<Span>,
    entry: Entry,
    comment: Option<Comment>,
    line_end: Option<Span>,
}

/// The parts of a line, added to the buffer.
#[tactic(auto, using(crate::proofs::Buffers::extending))]
pub(crate) fn put_line(
    buffer: &mut Vec<u8>,
    editor: &Editor<'_>,
    key: &[u8],
    value: Option<&[u8]>,
    comment: Option<&[u8]>,
) -> Result<Line, span::Error>
    requires room { length buffer.old.items < 2 ^ 32 }
    requires fits { EditorFits (length buffer.old.items) editor.now }
    ensures stands { IfOk result (λ l. Stand buffer.new.items (line_items l)
        (state.line_made (editor_in buffer.old.items editor.now) key.now (option_copied value.entry) (option_copied comment.entry))) }
    ensures grows { Grows result (spec.line_put editor.now key.now (option_copied value.entry) (option_copied comment.entry)) buffer.old.items
        buffer.new.items }
{
    let leading = put_leading(buffer, &editor.leading)?;
    let entry = put_entry(buffer, &editor.around, key, value)?;
    let comment = put_comment(buffer, comment)?;
    let line_end = put_end(buffer, editor)?;
    Ok(Line {
        leading,
        entry,
        comment,
        line_end,
    })
}

/// Adds the items of a line after the others. Takes one allocation.
pub(crate) fn push_items(items: &mut Vec<Item>, line: Line) -> Result<(), NoMemory>
    ensures ok { OnOk result (items.new.items ≡ items.old.items ++ line_items line) }
    ensures err { OnErr result (items.new.items ≡ items.old.items) }
{
    items.reserve(5)?;
    if let Some(run) = line.leading {
        items.push_reserved(Item::Blanks(run));
    }
    items.push_reserved(Item::Entry(line.entry));
    if let Some(comment) = line.comment {
        items.push_reserved(Item::Blanks(comment.blanks));
        items.push_reserved(Item::Comment {
            tag: b'#',
            text: comment.text,
        });
    }
    if let Some(run) = line.line_end {
        items.push_reserved(Item::LineEnds(run));
    }
    Ok(())
}

/// How many bytes [`put_leading`] adds to the buffer.
fn leading_len(leading: &Leading<'_>) -> usize
    ensures { result ≡ spec.leading_put leading.now }
{
    match leading {
        Leading::Nothing | Leading::Stored(_) => 0,
        Leading::Given(bytes) => bytes.len(),
    }
}

/// How many bytes [`put_around`] adds to the buffer, or `usize::MAX` if there are more.
pub fn around_len(around: &Around<'_>) -> usize
    ensures { result ≡ min (spec.around_put around.now) (2 ^ 64 - 1) }
{
    match around {
        Around::Spaces => 1,
        Around::Stored { .. } => 0,
        Around::Given { before, behind } => before.len().saturating_add(behind.len()),
    }
}

/// How many bytes a value and the blanks around its `=` add to the buffer. It is `usize::MAX` if there are more.
pub fn value_len(around: &Around<'_>, value: Option<&[u8]>) -> usize
    ensures { result ≡ min (spec.value_put around.now (option_copied value.entry)) (2 ^ 64 - 1) }
{
    match value {
        Some(value) => escaped_len(value).saturating_add(around_len(around)),
        None => 0,
    }
}

/// How many bytes [`put_comment`] adds to the buffer, or `usize::MAX` if there are more.
fn spaced_comment_len(comment: Option<&[u8]>) -> usize
    ensures { result ≡ min (spec.comment_put (option_copied comment.entry)) (2 ^ 64 - 1) }
{
    match comment {
        Some(comment) => comment_len(comment).saturating_add(1),
        None => 0,
    }
}

/// How many bytes [`put_end`] adds to the buffer.
fn end_len(editor: &Editor<'_>) -> usize
    ensures { result ≡ spec.end_put editor.now }
{
    if editor.ends {
        editor.line_end.as_bytes().len()
    } else {
        0
    }
}

/// How many bytes [`put_line`] adds to the buffer, or `usize::MAX` if there are more.
pub(crate) fn line_len(
    editor: &Editor<'_>,
    key: &[u8],
    value: Option<&[u8]>,
    comment: Option<&[u8]>,
) -> usize
    ensures { result ≡ min (spec.line_put editor.now key.now (option_copied value.entry) (option_copied comment.entry)) (2 ^ 64 - 1) }
{
    leading_len(&editor.leading)
        .saturating_add(key.len())
        .saturating_add(value_len(&editor.around, value))
        .saturating_add(spaced_comment_len(comment))
        .saturating_add(end_len(editor))
}

/// Checks that a buffer has room for what [`push`] adds to it. Takes no memory.
///
/// # Errors
///
/// A [`span::Error`] (E3) if the buffer would be longer than 4294967295 bytes.
pub fn check_push(
    buffer: &[u8],
    editor: &Editor<'_>,
    key: &[u8],
    value: Option<&[u8]>,
    comment: Option<&[u8]>,
) -> Result<(), span::Error>
    requires room { length buffer.now < 2 ^ 32 }
    ensures too_large { IsErrOf result 3
        ↔ (2 ^ 32 ≤ length buffer.now + spec.line_put editor.now key.now (option_copied value.entry) (option_copied comment.entry)) }
    ensures only { IfErr result (λ e. e ≡ 3) }
{
    check_room(buffer, line_len(editor, key, value, comment))
}

/// Pushes a line after the items: the editor's blanks, the key, and if a value is given `=` with the editor's blanks around it and the
/// value as a file spells it; then the comment, if one is given, after a space and `#`, with a space before a first byte that is not
/// whitespace , and each LF turned to a space; then the editor's line ending, unless it is switched off. The key is written as it is.
///
/// It looks at no item. Takes memory for what is added to the buffer, and for the new items.
///
/// # Errors
///
/// A [`span::Error`]: E3 where the buffer would be longer than 4294967295 bytes, which [`check_push`] tells before any allocation,
/// otherwise E27 when out of memory. The items are then as they were, and the buffer may have grown.
#[tactic(auto, using(crate::proofs::Buffers::extending))]
pub fn push(
    buffer: &mut Vec<u8>,
    items: &mut Vec<Item>,
    editor: &Editor<'_>,
    key: &[u8],
    value: Option<&[u8]>,
    comment: Option<&[u8]>,
) -> Result<(), span::Error>
    requires room { length buffer.old.items < 2 ^ 32 }
    requires within { AreItemsWithin (length buffer.old.items) items.old.items }
    requires fits { EditorFits (length buffer.old.items) editor.now }
    ensures ok { OnOk result (items_of buffer.new.items items.new.items ≡ state.pushed (editor_in buffer.old.items editor.now)
        key.now (option_copied value.entry) (option_copied comment.entry) (items_of buffer.old.items items.old.items)) }
    ensures within { AreItemsWithin (length buffer.new.items) items.new.items }
    ensures grows { Grows result (spec.line_put editor.now key.now (option_copied value.entry) (option_copied comment.entry)) buffer.old.items
        buffer.new.items }
    ensures err { OnErr result (items.new.items ≡ items.old.items) }
{
    let line = put_line(buffer, editor, key, value, comment)?;
    push_items(items, line)?;
    Ok(())
}

/// Checks that a buffer has room for what [`push_newline`] adds to it. Takes no memory.
///
/// # Errors
///
/// Those of [`check_push`].
pub fn check_newline(buffer: &[u8], editor: &Editor<'_>) -> Result<(), span::Error>
    requires room { length buffer.now < 2 ^ 32 }
    ensures too_large { IsErrOf result 3 ↔ (2 ^ 32 ≤ length buffer.now + length (bytes_of_line_end editor.now.line_end)) }
    ensures only { IfErr result (λ e. e ≡ 3) }
{
    check_room(buffer, editor.line_end.as_bytes().len())
}

/// Pushes the editor's line ending after the items. It does so even if the line ending is switched off after lines. It looks at no
/// item. Takes memory for the line ending in the buffer, and for the new item.
///
/// # Errors
///
/// Those of [`push`].
#[tactic(auto, using(crate::proofs::Buffers::extending))]
pub fn push_newline(
    buffer: &mut Vec<u8>,
    items: &mut Vec<Item>,
    editor: &Editor<'_>,
) -> Result<(), span::Error>
    requires room { length buffer.old.items < 2 ^ 32 }
    requires within { AreItemsWithin (length buffer.old.items) items.old.items }
    ensures ok { OnOk result (items_of buffer.new.items items.new.items
        ≡ state.line_end_pushed (editor_in buffer.old.items editor.now) (items_of buffer.old.items items.old.items)) }
    ensures within { AreItemsWithin (length buffer.new.items) items.new.items }
    ensures grows { Grows result (length (bytes_of_line_end editor.now.line_end)) buffer.old.items buffer.new.items }
    ensures refused { 2 ^ 32 ≤ length buffer.old.items + length (bytes_of_line_end editor.now.line_end) → IsErrOf result 3 }
    ensures err { OnErr result (items.new.items ≡ items.old.items) }
{
    let run = append(buffer, editor.line_end.as_bytes())?;
    items.push(Item::LineEnds(run))?;
    Ok(())
}
