//! From a raw value to its meaning.
ghost use Rattle.std.specs.Prelude.{◌≡◌, ◌≤◌, true, false, length, IfOk, IsOkAnd};
ghost use Rattle.std.specs.List.{list_any};
ghost use Rattle.std.specs.Cow.{cow_slice_items, IsBorrowedSlice, IsOwnedSlice};
ghost use Rattle.gitconf_text.specs.Value.{plain, escape_meaning};
ghost use Rattle.gitconf_text.specs.Stripped as spec;

use crate::memory::NoMemory;
use std::alloc::Global;
use std::borrow::CowSlice;

/// What the byte after a backslash stands for.
fn escape_meaning(b: u8) -> u8
    ensures { result ≡ escape_meaning b }
{
    match b {
        b'n' => b'\n',
        b't' => b'\t',
        b'b' => b'\x08',
        _ => b,
    }
}

/// Whether the first and the last byte are quotes, and the last doesn't follow a backslash.
#[tactic(auto, using(crate::proofs::ValuesPlain::enclosed_at))]
fn is_enclosed(text: &[u8]) -> bool
    ensures { result ≡ spec.is_enclosed text.now }
{
    let n = text.len();
    n >= 2 && text[0] == b'"' && text[n - 1] == b'"' && text[n - 2] != b'\\'
}

/// The text without its enclosing quotes.
#[tactic(auto, using(crate::proofs::ValuesPlain::stripping))]
fn stripped(text: &[u8]) -> &[u8]
    ensures { result.now ≡ spec.stripped text.now }
{
    let mut left = text;
    while is_enclosed(left) {
        left = &left[1..left.len() - 1];
    }
    left
}

/// Whether the text has a byte that doesn't stand for itself.
#[tactic(auto, using(crate::proofs::ValuesPlain::coding))]
fn has_coded_byte(text: &[u8]) -> bool
    ensures { result ≡ list_any spec.is_coded text.now }
{
    // Each search looks at many bytes at a time, so two are faster than a walk over single bytes.
    text.contains(&b'"') || text.contains(&b'\\')
}

/// The text without the quotes at its front.
#[tactic(auto, using(crate::proofs::ValuesPlain::passing_quotes))]
fn past_quotes(text: &[u8]) -> &[u8]
    ensures meant { plain result.now ≡ plain text.now }
    ensures few { length result.now ≤ length text.now }
{
    let mut left = text;
    // Four at a time, which takes two thirds of the time in a long run.
    while let [b'"', b'"', b'"', b'"', behind @ ..] = left {
        left = behind;
    }
    while let [b'"', behind @ ..] = left {
        left = behind;
    }
    left
}

/// The meaning, in memory of its own.
#[tactic(auto, using(crate::proofs::ValuesPlain::decoding))]
fn decoded(alloc: Global, text: &[u8]) -> Result<Vec<u8>, NoMemory>
    ensures { IfOk result (λ it. it.items ≡ plain text.now) }
{
    let mut out = Vec::with_capacity(alloc, text.len())?;
    let mut left = text;
    while let Some((first, behind)) = left.split_first() {
        left = behind;
        if *first == b'"' {
            left = past_quotes(behind);
        } else if *first != b'\\' {
            out.push_reserved(*first);
        } else if let Some((escaped, behind)) = behind.split_first() {
            out.push_reserved(escape_meaning(*escaped));
            left = behind;
        }
    }
    Ok(out)
}

/// The meaning of a raw value, as a file spells it after `=`.
///
/// Unescaped quotes are dropped, `\n`, `\t` and `\b` stand for LF, tab and byte 8, any other byte after a backslash
/// for itself, and a lone backslash at the end for nothing. (The escapes are those of the manual page of `git-config`,
/// section "Syntax"; what bytes mean that no file may hold is the Rust crate's rule.)
///
/// Quotes that enclose the whole are stripped first, as often as there are some, which leaves the meaning as it is. If
/// neither a quote nor a backslash is left then, the result is a part of `input`, and takes no memory. Otherwise it takes
/// memory once, at most `input.len()` bytes. The time is linear in `input.len()`.
///
/// # Errors
///
/// Only when out of memory, and never if the result is a part of `input`.
#[tactic(auto, using(crate::proofs::ValuesPlain::normalizing))]
pub fn normalize(alloc: Global, input: &[u8]) -> Result<CowSlice<'_, u8>, NoMemory>
    ensures meaning { IfOk result (λ it. cow_slice_items it ≡ plain input.now) }
    ensures borrowed { spec.needs_decoding input.now ≡ false → IsOkAnd result (λ it. IsBorrowedSlice it) }
    ensures owned { spec.needs_decoding input.now ≡ true → IfOk result (λ it. IsOwnedSlice it) }
{
    let text = stripped(input);
    if !has_coded_byte(text) {
        return Ok(CowSlice::Borrowed(text));
    }
    let bytes = decoded(alloc, text)?;
    Ok(CowSlice::Owned(bytes))
}
