//! Items, written as they are printed.
ghost use Rattle.std.specs.Prelude.{◌≡◌, ◌≤◌, ◌++◌, IfOk};
ghost use Rattle.gitconf_text.specs.Part.{EntryItem, spelled_item};
ghost use Rattle.gitconf_text.specs.Value.{spelled_value};
ghost use Rattle.gitconf_items.specs.Sink.{Writes, Counts};
ghost use Rattle.gitconf_items.specs.Items.{piece_of, value_of, entry_of, item_of, items_of};
ghost use Rattle.gitconf_state.specs.Printing.{closed_piece, closed_item};
ghost use Rattle.gitconf_state.specs.Writing.{Closed};
ghost use Rattle.gitconf_text.specs.LineEnds.{bytes_of_line_end};
ghost use Rattle.gitconf_print.specs.Texts.{spelled_piece, closed_value, items_text, line_end_before, open_before, next_text, behind_next};
ghost use Rattle.gitconf_print.specs.Runs.{run_of, WritesBut};
ghost use Rattle.gitconf_print.specs.Open.{open_of};

use crate::open::Open;
use crate::runs::{Run, item_run};
use gitconf_items::entry::{AssignedRef, Entry, Piece, Value};
use gitconf_items::items::Item;
use gitconf_items::sink::{Sink, SinkFault, write_all};
use gitconf_text::line_end::LineEnd;

/// Writes a piece of a value, and after its backslash its own line ending, or this one if it has none.
#[tactic(auto, using(gitconf_items::proofs::SinkLaws::in_turn))]
fn write_piece<W: Sink>(
    out: &mut W,
    buffer: &[u8],
    piece: &Piece,
    line_end: LineEnd,
) -> Result<(), SinkFault>
    ensures written { Writes result (spelled_piece (closed_piece (bytes_of_line_end line_end) (piece_of buffer.now piece.now))) (W.told out.old)
        (W.told out.new) }
    ensures counted { Counts result (W.faults out.old) (W.faults out.new) }
{
    write_all(out, piece.text.bytes_in(buffer))?;
    write_all(out, b"\\")?;
    let own = piece.line_end.bytes_in(buffer);
    if own.is_empty() {
        write_all(out, line_end.as_bytes())
    } else {
        write_all(out, own)
    }
}

/// Writes a value, with a line ending after each piece but the last.
#[tactic(auto, using(crate::proofs::Left::in_rest))]
fn write_value<W: Sink>(
    out: &mut W,
    buffer: &[u8],
    value: &Value,
    line_end: LineEnd,
) -> Result<(), SinkFault>
    ensures written { Writes result (spelled_value (closed_value (bytes_of_line_end line_end) (value_of buffer.now value.now))) (W.told out.old)
        (W.told out.new) }
    ensures counted { Counts result (W.faults out.old) (W.faults out.new) }
{
    for piece in value.pieces.as_slice() {
        write_piece(out, buffer, piece, line_end)?;
    }
    write_all(out, value.last.bytes_in(buffer))
}

/// Writes an entry, with a line ending after each piece of its value but the last.
#[tactic(auto, using(gitconf_items::proofs::SinkLaws::in_turn))]
fn write_entry<W: Sink>(
    out: &mut W,
    buffer: &[u8],
    entry: &Entry,
    line_end: LineEnd,
) -> Result<(), SinkFault>
    ensures written { Writes result (spelled_item (closed_item (bytes_of_line_end line_end) (EntryItem (entry_of buffer.now entry.now))))
        (W.told out.old) (W.told out.new) }
    ensures counted { Counts result (W.faults out.old) (W.faults out.new) }
{
    write_all(out, entry.name().bytes_in(buffer))?;
    write_all(out, entry.blanks().bytes_in(buffer))?;
    match entry.assigned() {
        AssignedRef::Nothing => Ok(()),
        AssignedRef::Plain { blanks, value } => {
            write_all(out, b"=")?;
            write_all(out, blanks.bytes_in(buffer))?;
            write_all(out, value.bytes_in(buffer))
        }
        AssignedRef::Continued(continued) => {
            write_all(out, b"=")?;
            write_all(out, continued.blanks.bytes_in(buffer))?;
            write_value(out, buffer, &continued.value, line_end)
        }
    }
}

/// Writes an item, with a line ending after each piece of a value but the last.
#[tactic(auto, using(gitconf_items::proofs::SinkLaws::in_turn))]
fn write_item<W: Sink>(
    out: &mut W,
    buffer: &[u8],
    item: &Item,
    line_end: LineEnd,
) -> Result<(), SinkFault>
    ensures written { Writes result (spelled_item (closed_item (bytes_of_line_end line_end) (item_of buffer.now item.now))) (W.told out.old) (W.told out.new) }
    ensures counted { Counts result (W.faults out.old) (W.faults out.new) }
{
    match item {
        Item::Blanks(run) | Item::LineEnds(run) => write_all(out, run.bytes_in(buffer)),
        Item::Comment { tag, text } => {
            write_all(out, &[*tag])?;
            write_all(out, text.bytes_in(buffer))
        }
        Item::Entry(entry) => write_entry(out, buffer, entry, line_end),
    }
}

/// Writes a run.
fn write_run<W: Sink>(out: &mut W, buffer: &[u8], run: Run) -> Result<(), SinkFault>
    ensures written { Writes result (run_of buffer.now run) (W.told out.old) (W.told out.new) }
    ensures counted { Counts result (W.faults out.old) (W.faults out.new) }
{
    write_all(out, run.bytes_in(buffer))
}

/// Writes a run, and then a line ending.
#[tactic(auto, using(gitconf_items::proofs::SinkLaws::in_turn))]
pub(crate) fn end_run<W: Sink>(
    out: &mut W,
    buffer: &[u8],
    run: Run,
    line_end: LineEnd,
) -> Result<(), SinkFault>
    ensures written { Writes result (run_of buffer.now run ++ bytes_of_line_end line_end) (W.told out.old) (W.told out.new) }
    ensures counted { Counts result (W.faults out.old) (W.faults out.new) }
{
    write_run(out, buffer, run)?;
    write_all(out, line_end.as_bytes())
}

/// Writes a run, unless the next one directly follows it, and returns what is left to write of both.
fn go_on<W: Sink>(out: &mut W, buffer: &[u8], run: Run, next: Run) -> Result<Run, SinkFault>
    requires ordered { run.start ≤ run.end }
    requires next { next.start ≤ next.end }
    ensures written { WritesBut result (run_of buffer.now) (run_of buffer.now run ++ run_of buffer.now next) (W.told out.old) (W.told out.new) }
    ensures counted { Counts result (W.faults out.old) (W.faults out.new) }
    ensures ordered { IfOk result (λ r. r.start ≤ r.end) }
{
    match run.joined(next) {
        Some(both) => Ok(both),
        None => {
            write_run(out, buffer, run)?;
            Ok(next)
        }
    }
}

/// Writes a run and an item, and returns what is left to write of them.
fn gather<W: Sink>(
    out: &mut W,
    buffer: &[u8],
    run: Run,
    item: &Item,
    line_end: LineEnd,
) -> Result<Run, SinkFault>
    requires ordered { run.start ≤ run.end }
    ensures written { WritesBut result (run_of buffer.now) (run_of buffer.now run
        ++ spelled_item (closed_item (bytes_of_line_end line_end) (item_of buffer.now item.now))) (W.told out.old) (W.told out.new) }
    ensures counted { Counts result (W.faults out.old) (W.faults out.new) }
    ensures ordered { IfOk result (λ r. r.start ≤ r.end) }
{
    match item_run(buffer, item) {
        Some(next) => go_on(out, buffer, run, next),
        None => {
            write_run(out, buffer, run)?;
            write_item(out, buffer, item, line_end)?;
            Ok(Run::none())
        }
    }
}

/// What comes before an item, and the run of it that is still to be written.
#[derive(Clone, Copy)]
struct Before {
    open: Open,
    run: Run,
}

/// Writes a line ending after what comes before, if the item would otherwise run together with it.
fn end_before<W: Sink>(
    out: &mut W,
    buffer: &[u8],
    before: Before,
    item: &Item,
    in_body: bool,
    line_end: LineEnd,
) -> Result<Before, SinkFault>
    requires ordered { before.run.start ≤ before.run.end }
    ensures written { WritesBut result (λ b. run_of buffer.now b.run) (run_of buffer.now before.run
        ++ line_end_before in_body (bytes_of_line_end line_end) (open_of before.open) (item_of buffer.now item.now)) (W.told out.old) (W.told out.new) }
    ensures counted { Counts result (W.faults out.old) (W.faults out.new) }
    ensures open { IfOk result (λ b. open_of b.open ≡ open_before in_body (open_of before.open) (item_of buffer.now item.now)) }
    ensures ordered { IfOk result (λ b. b.run.start ≤ b.run.end) }
{
    if !before.open.breaks(in_body, item) {
        return Ok(before);
    }
    end_run(out, buffer, before.run, line_end)?;
    Ok(Before {
        open: Open::Closed,
        run: Run::none(),
    })
}

/// Writes what comes before and a comment or an entry, with a line ending between if they would otherwise run together, and returns
/// what comes before the next item, with the run that is still to be written.
fn write_words<W: Sink>(
    out: &mut W,
    buffer: &[u8],
    before: Before,
    item: &Item,
    in_body: bool,
    line_end: LineEnd,
) -> Result<Before, SinkFault>
    requires ordered { before.run.start ≤ before.run.end }
    ensures written { WritesBut result (λ b. run_of buffer.now b.run) (run_of buffer.now before.run
        ++ next_text in_body (bytes_of_line_end line_end) (open_of before.open) (item_of buffer.now item.now)) (W.told out.old) (W.told out.new) }
    ensures counted { Counts result (W.faults out.old) (W.faults out.new) }
    ensures behind { IfOk result (λ b. open_of b.open ≡ behind_next in_body (open_of before.open) (item_of buffer.now item.now)) }
    ensures ordered { IfOk result (λ b. b.run.start ≤ b.run.end) }
{
    let before = end_before(out, buffer, before, item, in_body, line_end)?;
    let run = gather(out, buffer, before.run, item, line_end)?;
    Ok(Before {
        open: before.open.after(buffer, item),
        run,
    })
}

/// Writes what comes before and an item, with a line ending between if they would otherwise run together, and returns what
/// comes before the next item, with the run that is still to be written.
///
/// Most items are blanks and line endings, which run together with nothing, so they are a short way of their own.
#[inline(always)]
fn write_next<W: Sink>(
    out: &mut W,
    buffer: &[u8],
    before: Before,
    item: &Item,
    in_body: bool,
    line_end: LineEnd,
) -> Result<Before, SinkFault>
    requires ordered { before.run.start ≤ before.run.end }
    ensures written { WritesBut result (λ b. run_of buffer.now b.run) (run_of buffer.now before.run
        ++ next_text in_body (bytes_of_line_end line_end) (open_of before.open) (item_of buffer.now item.now)) (W.told out.old) (W.told out.new) }
    ensures counted { Counts result (W.faults out.old) (W.faults out.new) }
    ensures behind { IfOk result (λ b. open_of b.open ≡ behind_next in_body (open_of before.open) (item_of buffer.now item.now)) }
    ensures ordered { IfOk result (λ b. b.run.start ≤ b.run.end) }
{
    match item {
        Item::Blanks(blanks) => {
            let run = go_on(out, buffer, before.run, Run::of(*blanks))?;
            let open = before.open.after_blanks(buffer, *blanks);
            Ok(Before { open, run })
        }
        Item::LineEnds(line_ends) => {
            let run = go_on(out, buffer, before.run, Run::of(*line_ends))?;
            let open = Open::Closed;
            Ok(Before { open, run })
        }
        Item::Comment { .. } | Item::Entry(_) => {
            write_words(out, buffer, before, item, in_body, line_end)
        }
    }
}

/// Writes a run and items after it, as [`write_items`] does.
///
/// Bytes that are side by side in the buffer, from the run on, are gathered and written at once.
pub(crate) fn write_behind<W: Sink>(
    out: &mut W,
    buffer: &[u8],
    run: Run,
    items: &[Item],
    in_body: bool,
    line_end: LineEnd,
) -> Result<(), SinkFault>
    requires ordered { run.start ≤ run.end }
    ensures written { Writes result (run_of buffer.now run ++ items_text in_body (bytes_of_line_end line_end) Closed (items_of buffer.now items.now))
        (W.told out.old) (W.told out.new) }
    ensures counted { Counts result (W.faults out.old) (W.faults out.new) }
{
    let mut before = Before {
        open: Open::Closed,
        run,
    };
    for item in items {
        before = write_next(out, buffer, before, item, in_body, line_end)?;
    }
    write_run(out, buffer, before.run)
}

/// Writes items as they are printed: with a line ending before a comment after a comment, in a body also before a
/// name after an entry or a comment, and after each piece of a value but the last.
///
/// One pass, which takes no memory of its own. Bytes that are side by side in the buffer are written at once.
///
/// # Errors
///
/// A write failed, or took nothing. It is not tried again, and a beginning of the text may have been written.
pub fn write_items<W: Sink>(
    out: &mut W,
    buffer: &[u8],
    items: &[Item],
    in_body: bool,
    line_end: LineEnd,
) -> Result<(), SinkFault>
    ensures written { Writes result (items_text in_body (bytes_of_line_end line_end) Closed (items_of buffer.now items.now)) (W.told out.old) (W.told out.new) }
    ensures counted { Counts result (W.faults out.old) (W.faults out.new) }
{
    write_behind(out, buffer, Run::none(), items, in_body, line_end)
}
