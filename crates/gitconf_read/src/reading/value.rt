//! Values, piece by piece.
ghost use Rattle.std.specs.Prelude.{◌≡◌, ◌≤◌, ◌<◌, ◌+◌, ◌^◌, ◌++◌, ◌∷◌, [], ℕ, Bool, slice_index, length, drop, IfOk, IsOkUnless};
ghost use Rattle.gitconf_text.specs.Unit.{class_of, Other};
ghost use Rattle.gitconf_items.specs.declared.event.Event.TheVariants.{Newline, ValueNotDone};
ghost use Rattle.gitconf_read.specs.declared.reading.ReadError.TheVariants.{Memory};
ghost use Rattle.gitconf_read.specs.Reading.{Gives, span, value_at, piece_from};
ghost use Rattle.gitconf_read.specs.ItemReading.{EndsWithin};

use super::block::{BLOCK, plain_front};
use super::class::is_plain;
use super::run::{Run, run_end};
use super::{Expected, Fault, ReadError};
use crate::compact::EventVec;
use gitconf_items::event::{Event, Span};

/// How a piece of a value ends.
#[derive(Clone, Copy)]
pub enum PieceEnd {
    /// At the end of the value, which is at an offset; whitespace after that is no part of it.
    Last(usize),
    /// At a backslash before a line ending of that many bytes; what follows may be between quotes.
    GoesOn {
        at: usize,
        line_end: usize,
        quoted: bool,
    },
    /// At a backslash with which the text ends.
    Unended(usize),
    /// It is refused: a quote is not closed, or a byte follows a backslash that may not.
    Refused,
}

/// An offset after bytes that stand for themselves, the first of which is at an offset. Others may follow.
#[inline(always)]
fn plain_end(input: &[u8], at: usize) -> usize
    requires within { at < length input.now }
    requires plain { class_of (slice_index input.now at) ≡ Other }
    ensures goes_on { (kept : ℕ) (quoted : Bool) → piece_from kept quoted at 0 (drop at input.now) ≡ piece_from result quoted result 0 (drop result input.now) }
    ensures behind { at < result }
    ensures inside { result ≤ length input.now }
{
    let mut i = at + 1;
    while input.len() - i >= BLOCK {
        let front = plain_front(input, i);
        i += front;
        if front < BLOCK {
            return i;
        }
    }
    run_end(input, i, Run::PlainBytes)
}

/// How the piece ends that begins at an offset, between quotes or not.
#[inline(always)]
#[tactic(auto, unfolding(crate::specs::Reading::piece_from))]
pub fn piece_end(input: &[u8], from: usize, quoted: bool) -> PieceEnd
    requires within { from ≤ length input.now }
    requires fits { length input.now < 2 ^ 32 }
    ensures told { result ≡ piece_from from quoted from 0 (drop from input.now) }
    ensures ends { EndsWithin from (length input.now) result }
{
    let mut quoted = quoted;
    let mut kept = from;
    let mut i = from;
    while i < input.len() {
        let byte = input[i];
        if is_plain(byte) {
            i = plain_end(input, i);
            kept = i;
            // Most values end here.
            if i < input.len() && input[i] == b'\n' {
                break;
            }
            continue;
        }
        match byte {
            b'\n' => break,
            b';' | b'#' if !quoted => break,
            b'"' => {
                quoted = !quoted;
                i += 1;
                kept = i;
            }
            b'\\' => match input.get(i + 1).copied() {
                None if quoted => return PieceEnd::Refused,
                None => return PieceEnd::Unended(i),
                Some(b'\n') => {
                    return PieceEnd::GoesOn {
                        at: i,
                        line_end: 1,
                        quoted,
                    };
                }
                Some(b'\r') if input.get(i + 2).copied() == Some(b'\n') => {
                    return PieceEnd::GoesOn {
                        at: i,
                        line_end: 2,
                        quoted,
                    };
                }
                Some(b'n' | b't' | b'b' | b'\\' | b'"') => {
                    i += 2;
                    kept = i;
                }
                Some(_) => return PieceEnd::Refused,
            },
            b' ' | b'\t' | b'\r' | b'\x0c' => i += 1,
            _ => {
                i += 1;
                kept = i;
            }
        }
    }
    if quoted {
        PieceEnd::Refused
    } else {
        PieceEnd::Last(kept)
    }
}

/// A piece of a value, from one offset up to the backslash at another, and the line ending of that many bytes after it.
fn unfinished(
    from: usize,
    at: usize,
    line_end: usize,
    events: &mut EventVec,
) -> Result<usize, ReadError>
    requires ordered { from ≤ at }
    requires fits { at + 1 + line_end < 2 ^ 32 }
    ensures events { IfOk result (λ end. events.new ≡ events.old ++ ValueNotDone (span from at) ∷ [] ++ Newline (span (at + 1) (at + 1 + line_end)) ∷ []) }
    ensures end { IfOk result (λ end. end ≡ at + 1 + line_end) }
    ensures memory { IsOkUnless result Memory }
{
    events.push(Event::ValueNotDone(Span::between(from, at)))?;
    let end = at + 1 + line_end;
    events.push(Event::Newline(Span::between(at + 1, end)))?;
    Ok(end)
}

/// The value that begins at `first`; returns the offset after it.
pub fn value_events(input: &[u8], first: usize, events: &mut EventVec) -> Result<usize, ReadError>
    requires within { first ≤ length input.now }
    requires fits { length input.now < 2 ^ 32 }
    ensures gives { Gives result events.new (value_at first events.old (drop first input.now)) }
    ensures behind { IfOk result (λ end. first ≤ end) }
    ensures inside { IfOk result (λ end. end ≤ length input.now) }
{
    let mut joined = false;
    let mut quoted = false;
    let mut from = first;
    loop {
        match piece_end(input, from, quoted) {
            PieceEnd::Last(end) => {
                let last = Span::between(from, end);
                if joined {
                    events.push(Event::ValueDone(last))?;
                } else {
                    events.push(Event::Value(last))?;
                }
                return Ok(end);
            }
            PieceEnd::GoesOn {
                at,
                line_end,
                quoted: open,
            } => {
                from = unfinished(from, at, line_end, events)?;
                joined = true;
                quoted = open;
            }
            PieceEnd::Unended(at) => {
                events.push(Event::ValueNotDone(Span::between(from, at)))?;
                events.push(Event::ValueDone(Span::between(at + 1, at + 1)))?;
                return Ok(at + 1);
            }
            PieceEnd::Refused => {
                return Err(ReadError::Fault(Fault {
                    at: first,
                    expected: Expected::Value,
                }));
            }
        }
    }
}
