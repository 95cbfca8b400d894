//! What a value means, found again by the offset at which it begins.
ghost use Rattle.std.specs.Prelude.{◌≡◌, ◌≤◌, ◌<◌, ◌^◌, length, IfOk};
ghost use Rattle.std.specs.Option.{option_map};
ghost use Rattle.bstr.specs.Owned.{bstring_bytes};
ghost use Rattle.gitconf_text.specs.Value.{plain};
ghost use Rattle.gitconf_parse.specs.Met.{raw_meaning};
ghost use Rattle.gitconf_parse.specs.Places.{raw_at, ValueInside};

use bstr::BString;
use gitconf_items::event::Span;
use gitconf_read::reading::value::{PieceEnd, piece_end};
use gitconf_text::NoMemory;
use gitconf_text::value::normalize;
use std::alloc::Global;

/// The raw text of the value that begins at an offset: its pieces, put together.
#[cold]
fn raw_text(alloc: Global, input: &[u8], first: usize) -> Result<Vec<u8>, NoMemory>
    requires within { first ≤ length input.now }
    requires fits { length input.now < 2 ^ 32 }
    ensures { IfOk result (λ raw. raw.items ≡ raw_at input.now first) }
{
    let mut raw = Vec::new(alloc);
    let mut from = first;
    let mut quoted = false;
    loop {
        match piece_end(input, from, quoted) {
            PieceEnd::Last(end) => {
                raw.extend_from_slice(Span::between(from, end).bytes_in(input))?;
                return Ok(raw);
            }
            PieceEnd::GoesOn {
                at,
                line_end,
                quoted: open,
            } => {
                raw.extend_from_slice(Span::between(from, at).bytes_in(input))?;
                from = at + 1 + line_end;
                quoted = open;
            }
            PieceEnd::Unended(at) => {
                raw.extend_from_slice(Span::between(from, at).bytes_in(input))?;
                return Ok(raw);
            }
            PieceEnd::Refused => return Ok(Vec::new(alloc)),
        }
    }
}

/// What a raw text means.
fn decoded(alloc: Global, raw: &[u8]) -> Result<BString, NoMemory>
    ensures { IfOk result (λ text. bstring_bytes text ≡ plain raw.now) }
{
    let meaning = normalize(alloc, raw)?;
    Ok(BString::new(meaning.into_owned(alloc)?))
}

/// What the value means that begins at an offset. Memory is taken for the result, and for the raw text of a value of several pieces.
pub fn meaning(alloc: Global, input: &[u8], first: usize) -> Result<BString, NoMemory>
    requires within { first ≤ length input.now }
    requires fits { length input.now < 2 ^ 32 }
    ensures { IfOk result (λ text. bstring_bytes text ≡ plain (raw_at input.now first)) }
{
    if let PieceEnd::Last(end) = piece_end(input, first, false) {
        return decoded(alloc, Span::between(first, end).bytes_in(input));
    }
    let raw = raw_text(alloc, input, first)?;
    decoded(alloc, &raw)
}

/// What an entry means whose value begins at an offset. An entry without a value counts as empty.
pub fn entry_meaning(alloc: Global, input: &[u8], value: Option<usize>) -> Result<BString, NoMemory>
    requires within { ValueInside (length input.now) value }
    requires fits { length input.now < 2 ^ 32 }
    ensures { IfOk result (λ text. bstring_bytes text ≡ raw_meaning (option_map (raw_at input.now) value)) }
{
    match value {
        Some(first) => meaning(alloc, input, first),
        None => Ok(BString::new(Vec::new(alloc))),
    }
}
