//! Headers and sections, written as they are printed.
ghost use Rattle.std.specs.Prelude.{◌≡◌, ◌≤◌, ℕ, List, true, false, flat_map, IfOk};
ghost use Rattle.gitconf_text.specs.Header.{spelled_header};
ghost use Rattle.gitconf_text.specs.Part.{spelled_item};
ghost use Rattle.gitconf_items.specs.Sink.{Writes, Counts};
ghost use Rattle.gitconf_items.specs.Events.{header_of};
ghost use Rattle.gitconf_state.specs.Printing as spec;
ghost use Rattle.gitconf_state.specs.Printing.{unless};
ghost use Rattle.gitconf_state.specs.Writing.{Closed};
ghost use Rattle.gitconf_items.specs.Items.{items_of};
ghost use Rattle.gitconf_text.specs.LineEnds.{bytes_of_line_end};
ghost use Rattle.gitconf_print.specs.Runs.{run_of, WritesBut};
ghost use Rattle.gitconf_print.specs.Texts.{items_text, subsection_text, section_text, held_text};

use crate::items::{end_run, write_behind, write_items};
use crate::line_end::{body_line_end, ends_line};
use crate::runs::{Run, header_run};
use gitconf_items::event::Header;
use gitconf_items::items::Item;
use gitconf_items::sink::{Sink, SinkFault, write_all};
use gitconf_text::line_end::LineEnd;

/// Writes a header as it is spelled: in brackets the name, and the subsection after a dot or, in quotes, after blanks.
///
/// It takes no memory of its own.
///
/// # Errors
///
/// A write failed, or took nothing. It is not tried again, and a beginning of the header may have been written.
#[tactic(auto, using(gitconf_items::proofs::SinkLaws::in_turn, crate::proofs::Headers::header_parts))]
pub fn write_header<W: Sink>(out: &mut W, buffer: &[u8], header: &Header) -> Result<(), SinkFault>
    ensures written { Writes result (spelled_header (header_of buffer.now header.now)) (W.told out.old) (W.told out.new) }
    ensures counted { Counts result (W.faults out.old) (W.faults out.new) }
{
    write_all(out, b"[")?;
    write_all(out, header.name.bytes_in(buffer))?;
    if let (Some(separator), Some(subsection)) = (header.separator, header.subsection) {
        write_subsection(out, separator.bytes_in(buffer), subsection.bytes_in(buffer))?;
    }
    write_all(out, b"]")
}

/// Writes a subsection after its separator: after a dot as it is, otherwise in quotes.
#[tactic(auto, using(gitconf_items::proofs::SinkLaws::in_turn))]
fn write_subsection<W: Sink>(
    out: &mut W,
    separator: &[u8],
    subsection: &[u8],
) -> Result<(), SinkFault>
    ensures written { Writes result (subsection_text separator.now subsection.now) (W.told out.old) (W.told out.new) }
    ensures counted { Counts result (W.faults out.old) (W.faults out.new) }
{
    write_all(out, separator)?;
    if separator == b".".as_slice() {
        return write_all(out, subsection);
    }
    write_all(out, b"\"")?;
    write_all(out, subsection)?;
    write_all(out, b"\"")
}

/// Writes a line ending, unless what comes before ends with one.
///
/// # Errors
///
/// A write failed, or took nothing. It is not tried again, and a beginning of the line ending may have been written.
#[tactic(auto, using(gitconf_items::proofs::SinkLaws::in_turn))]
pub fn write_line_end_unless<W: Sink>(
    out: &mut W,
    ended: bool,
    line_end: LineEnd,
) -> Result<(), SinkFault>
    ensures written { Writes result (flat_map spelled_item (unless ended (bytes_of_line_end line_end))) (W.told out.old) (W.told out.new) }
    ensures counted { Counts result (W.faults out.old) (W.faults out.new) }
{
    if ended {
        Ok(())
    } else {
        write_all(out, line_end.as_bytes())
    }
}

/// Whether a line ending comes before the first entry, or, without an entry, anywhere.
fn begins_on_a_line(items: &[Item]) -> bool
    ensures { (buffer : List ℕ) → result ≡ spec.begins_on_a_line (items_of buffer items.now) }
{
    let mut rest = items;
    while let Some((item, behind)) = rest.split_first() {
        match item {
            Item::LineEnds(_) => return true,
            Item::Entry(_) => return false,
            Item::Blanks(_) | Item::Comment { .. } => rest = behind,
        }
    }
    false
}

/// Whether items can follow a header without a line ending inserted between.
fn stand_behind_header(items: &[Item]) -> bool
    ensures { (buffer line_end : List ℕ) → spec.behind_header line_end (items_of buffer items.now) ≡ unless result line_end }
{
    items.is_empty() || begins_on_a_line(items)
}

/// Writes a header, unless its parts are side by side in the buffer, and returns what of it is still to be written.
fn begin_header<W: Sink>(out: &mut W, buffer: &[u8], header: &Header) -> Result<Run, SinkFault>
    ensures written { WritesBut result (run_of buffer.now) (spelled_header (header_of buffer.now header.now)) (W.told out.old) (W.told out.new) }
    ensures counted { Counts result (W.faults out.old) (W.faults out.new) }
    ensures ordered { IfOk result (λ r. r.start ≤ r.end) }
{
    match header_run(buffer, header) {
        Some(run) => Ok(run),
        None => {
            write_header(out, buffer, header)?;
            Ok(Run::none())
        }
    }
}

/// Writes a section: its header, and its body as it is printed, with the body's line ending.
///
/// A line ending is put after the header if the body isn't empty and doesn't begin on a line of its own. The body is
/// searched for its first line ending, and then read once more; no memory is taken.
///
/// # Errors
///
/// A write failed, or took nothing. It is not tried again, and a beginning of the section may have been written.
#[tactic(auto, using(gitconf_items::proofs::SinkLaws::in_turn))]
pub fn write_section<W: Sink>(
    out: &mut W,
    buffer: &[u8],
    header: &Header,
    items: &[Item],
) -> Result<(), SinkFault>
    ensures written { Writes result (section_text (header_of buffer.now header.now) (items_of buffer.now items.now)) (W.told out.old) (W.told out.new) }
    ensures counted { Counts result (W.faults out.old) (W.faults out.new) }
{
    let line_end = body_line_end(buffer, items);
    let run = begin_header(out, buffer, header)?;
    if stand_behind_header(items) {
        return write_behind(out, buffer, run, items, true, line_end);
    }
    end_run(out, buffer, run, line_end)?;
    write_items(out, buffer, items, true, line_end)
}

/// Writes what is held after a section with this body. It is written on a line of its own.
///
/// One pass over what is held, and a look at the body's end; no memory is taken.
///
/// # Errors
///
/// A write failed, or took nothing. It is not tried again, and a beginning of the text may have been written.
#[tactic(auto, using(gitconf_items::proofs::SinkLaws::in_turn))]
pub fn write_held<W: Sink>(
    out: &mut W,
    buffer: &[u8],
    items: &[Item],
    held: &[Item],
    line_end: LineEnd,
) -> Result<(), SinkFault>
    ensures written { Writes result (held_text (bytes_of_line_end line_end) (items_of buffer.now items.now) (items_of buffer.now held.now))
        (W.told out.old) (W.told out.new) }
    ensures counted { Counts result (W.faults out.old) (W.faults out.new) }
{
    if held.is_empty() {
        return Ok(());
    }
    let ended = ends_line(buffer, items, line_end);
    write_line_end_unless(out, ended, line_end)?;
    write_items(out, buffer, held, false, line_end)
}

/// Writes what comes before the first section.
///
/// One pass, which takes no memory of its own.
///
/// # Errors
///
/// A write failed, or took nothing. It is not tried again, and a beginning of the text may have been written.
pub fn write_front<W: Sink>(
    out: &mut W,
    buffer: &[u8],
    front: &[Item],
    line_end: LineEnd,
) -> Result<(), SinkFault>
    ensures written { Writes result (items_text false (bytes_of_line_end line_end) Closed (items_of buffer.now front.now)) (W.told out.old) (W.told out.new) }
    ensures counted { Counts result (W.faults out.old) (W.faults out.new) }
{
    write_items(out, buffer, front, false, line_end)
}
