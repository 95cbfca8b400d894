//! The parts of a text, one after the other.
ghost use Rattle.std.specs.Prelude.{◌≡◌, ◌≤◌, ◌<◌, ◌^◌, length, drop, IfOk, OnOk, IsOkUnless};
ghost use Rattle.std.specs.Char.{is_ascii_alphabetic};
ghost use Rattle.gitconf_read.specs.declared.reading.Expected.TheVariants.{SectionHeader};
ghost use Rattle.gitconf_read.specs.declared.reading.ReadError.TheVariants.{Memory};
ghost use Rattle.gitconf_read.specs.Reading.{Gives, GivesAll, opening_of, part_at, text_from, with_line_ends};

use super::entry::{entry, push_blanks};
use super::header::header;
use super::run::{Run, comment_end, gap_ends, is_line_end, run_end};
use super::{Expected, Fault, ReadError};
use crate::compact::EventVec;
use gitconf_items::event::{Event, Span};

/// Which part may begin at an offset.
#[derive(Clone, Copy)]
pub enum Opening {
    Blanks,
    LineEnds,
    Comment,
    Header,
    Entry,
    Nothing,
}

/// Whether the byte is a letter.
#[inline(always)]
fn is_letter(byte: u8) -> bool
    ensures { result ≡ is_ascii_alphabetic byte }
{
    byte.is_ascii_alphabetic()
}

/// Which part may begin at an offset, by its first byte.
#[inline(always)]
pub fn part_opening(input: &[u8], at: usize) -> Opening
    requires { at < length input.now }
    ensures { result ≡ opening_of (drop at input.now) }
{
    let first = input[at];
    // Most parts at which this is asked are entries.
    if is_letter(first) {
        return Opening::Entry;
    }
    if first == b' ' || first == b'\t' {
        return Opening::Blanks;
    }
    if is_line_end(input, at) {
        return Opening::LineEnds;
    }
    match first {
        b';' | b'#' => Opening::Comment,
        b'[' => Opening::Header,
        _ => Opening::Nothing,
    }
}

/// One part, and the offset after it; `wanted` is reported as looked for if no part is there.
#[inline(always)]
#[tactic(auto, unfolding(crate::specs::Reading::part_at))]
fn part(
    input: &[u8],
    at: usize,
    wanted: Expected,
    events: &mut EventVec,
) -> Result<usize, ReadError>
    requires within { at < length input.now }
    requires fits { length input.now < 2 ^ 32 }
    ensures gives { Gives result events.new (part_at input.now at wanted events.old) }
    ensures behind { IfOk result (λ end. at < end) }
    ensures inside { IfOk result (λ end. end ≤ length input.now) }
{
    let refused = ReadError::Fault(Fault {
        at,
        expected: wanted,
    });
    match part_opening(input, at) {
        Opening::Blanks => {
            let end = run_end(input, at + 1, Run::Blanks);
            events.push(Event::Whitespace(Span::between(at, end)))?;
            Ok(end)
        }
        Opening::LineEnds => {
            let end = run_end(input, at + 1, Run::LineEnds);
            events.push(Event::Newline(Span::between(at, end)))?;
            Ok(end)
        }
        Opening::Comment => {
            let end = comment_end(input, at + 1);
            let text = Span::between(at + 1, end);
            events.push(Event::Comment {
                tag: input[at],
                text,
            })?;
            Ok(end)
        }
        Opening::Header => match header(input, at) {
            Some((spans, end)) => {
                events.push(Event::SectionHeader(spans))?;
                Ok(end)
            }
            None => Err(refused),
        },
        Opening::Entry => entry(input, at, events),
        Opening::Nothing => Err(refused),
    }
}

/// Adds the line endings from one offset up to another, if there are any.
#[inline(always)]
fn push_line_ends(from: usize, end: usize, events: &mut EventVec) -> Result<(), ReadError>
    requires ordered { from ≤ end }
    requires fits { end < 2 ^ 32 }
    ensures events { OnOk result (events.new ≡ with_line_ends events.old from end) }
    ensures memory { IsOkUnless result Memory }
{
    if from < end {
        events.push(Event::Newline(Span::between(from, end)))?;
    }
    Ok(())
}

/// All parts from an offset on.
#[tactic(auto, unfolding(crate::specs::Reading::text_from))]
pub fn parts(input: &[u8], start: usize, events: &mut EventVec) -> Result<(), ReadError>
    requires within { start ≤ length input.now }
    requires fits { length input.now < 2 ^ 32 }
    ensures { GivesAll result events.new (text_from input.now SectionHeader events.old start 0 (drop start input.now)) }
{
    let mut wanted = Expected::SectionHeader;
    let mut at = start;
    while at < input.len() {
        let end = part(input, at, wanted, events)?;
        // What follows a part is mostly the end of its line, and then blanks.
        let (line_end, next) = gap_ends(input, end);
        push_line_ends(end, line_end, events)?;
        push_blanks(line_end, next, events)?;
        if input[at] == b'[' {
            wanted = Expected::Name;
        }
        at = next;
    }
    Ok(())
}
