//! Headers in their three forms.
ghost use Rattle.std.specs.Prelude.{◌≡◌, ◌≤◌, ◌<◌, ◌^◌, true, slice_index, length, drop, IfSome};
ghost use Rattle.std.specs.Option.{option_map};
ghost use Rattle.gitconf_read.specs.Reading as spec;
ghost use Rattle.gitconf_read.specs.Reading.{unquoted_header, quoted_header, header_at, spelling_from};

use super::block::{BLOCK, spelled_front};
use super::class::is_spelled;
use super::run::{Run, long_run_end, run_end};
use gitconf_items::event::{Header, Span};

/// The header without quotes whose name, from `from` on, ends with the bracket at `end`.
fn unquoted(input: &[u8], from: usize, end: usize) -> Option<(Header, usize)>
    requires ordered { from ≤ end }
    requires within { end < length input.now }
    requires fits { length input.now < 2 ^ 32 }
    ensures found { result ≡ unquoted_header input.now from end }
    ensures behind { IfSome result (λ found. from < found.1) }
    ensures inside { IfSome result (λ found. found.1 ≤ length input.now) }
{
    let dot = long_run_end(input, from, Run::NameBytes);
    if dot < end {
        let header = Header {
            name: Span::between(from, dot),
            separator: Some(Span::between(dot, dot + 1)),
            subsection: Some(Span::between(dot + 1, end)),
            decoded: None,
        };
        Some((header, end + 1))
    } else if from < end {
        let header = Header {
            name: Span::between(from, end),
            separator: None,
            subsection: None,
            decoded: None,
        };
        Some((header, end + 1))
    } else {
        None
    }
}

/// An offset after bytes that stand for themselves between quotes, the first of which is at an offset. Others may follow.
#[inline(always)]
fn spelled_end(input: &[u8], at: usize) -> usize
    requires within { at < length input.now }
    requires spelled { spec.is_spelled (slice_index input.now at) ≡ true }
    ensures goes_on { spelling_from at 0 (drop at input.now) ≡ spelling_from result 0 (drop result input.now) }
    ensures behind { at < result }
    ensures inside { result ≤ length input.now }
{
    let mut i = at + 1;
    while input.len() - i >= BLOCK {
        let front = spelled_front(input, i);
        i += front;
        if front < BLOCK {
            return i;
        }
    }
    i
}

/// The offset of the quote that ends the subsection whose spelling begins at an offset.
#[inline(always)]
#[tactic(auto, unfolding(crate::specs::Reading::spelling_from))]
fn spelling_end(input: &[u8], from: usize) -> Option<usize>
    requires within { from ≤ length input.now }
    requires fits { length input.now < 2 ^ 32 }
    ensures found { result ≡ spelling_from from 0 (drop from input.now) }
    ensures behind { IfSome result (λ end. from ≤ end) }
    ensures inside { IfSome result (λ end. end < length input.now) }
{
    let mut i = from;
    while i < input.len() {
        let byte = input[i];
        if is_spelled(byte) {
            i = spelled_end(input, i);
            continue;
        }
        match byte {
            b'"' => return Some(i),
            b'\n' => return None,
            b'\\' => match input.get(i + 1).copied() {
                None | Some(b'\n') => return None,
                Some(_) => i += 2,
            },
            _ => i += 1,
        }
    }
    None
}

/// The header with quotes whose name, from `from` on, ends at `end`, where blanks may be.
#[inline(always)]
#[tactic(auto, unfolding(crate::specs::Reading::quoted_header))]
fn quoted(input: &[u8], from: usize, end: usize) -> Option<(Header, usize)>
    requires ordered { from ≤ end }
    requires within { end ≤ length input.now }
    requires fits { length input.now < 2 ^ 32 }
    ensures found { result ≡ quoted_header input.now from end }
    ensures behind { IfSome result (λ found. from < found.1) }
    ensures inside { IfSome result (λ found. found.1 ≤ length input.now) }
{
    let blanks_end = run_end(input, end, Run::Blanks);
    if end == blanks_end || input.get(blanks_end).copied() != Some(b'"') {
        return None;
    }
    let quote = spelling_end(input, blanks_end + 1)?;
    if input.get(quote + 1).copied() != Some(b']') {
        return None;
    }
    let header = Header {
        name: Span::between(from, end),
        separator: Some(Span::between(end, blanks_end)),
        subsection: Some(Span::between(blanks_end + 1, quote)),
        decoded: None,
    };
    Some((header, quote + 2))
}

/// The header whose bracket is at an offset, and the offset after it.
#[inline(always)]
#[tactic(auto, unfolding(crate::specs::Reading::header_at))]
pub fn header(input: &[u8], at: usize) -> Option<(Header, usize)>
    requires within { at < length input.now }
    requires fits { length input.now < 2 ^ 32 }
    ensures found { result ≡ header_at input.now at }
    ensures behind { IfSome result (λ found. at < found.1) }
    ensures inside { IfSome result (λ found. found.1 ≤ length input.now) }
{
    let name_end = long_run_end(input, at + 1, Run::HeaderBytes);
    if input.get(name_end).copied() == Some(b']') {
        unquoted(input, at + 1, name_end)
    } else {
        quoted(input, at + 1, name_end)
    }
}
