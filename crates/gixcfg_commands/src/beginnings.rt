//! What a text begins with that the library drops or puts on a line of its own, and that edits keep.
ghost use Rattle.std.specs.Prelude.{◌≡◌, ◌+◌, ◌≤◌, ◌++◌, length, take, drop, IfOk, Ok, false};
ghost use Rattle.bstr.specs.Owned.{bstring_bytes};
ghost use Rattle.gixcfg_core.specs.Answers.{Answers};
ghost use Rattle.gixcfg_commands.specs.Beginnings as spec;

use bstr::BString;
use gixcfg_core::trouble::Trouble;
use std::alloc::{AllocError, Global};

/// The mark that a text in UTF-8 may begin with.
static MARK: [u8; 3] = *b"\xef\xbb\xbf";

/// What a byte before the first header of a text is.
#[derive(Clone, Copy)]
enum Leading {
    /// It begins the header.
    Header,
    /// It begins a comment.
    Comment,
    /// A blank.
    Blank,
    /// It ends a line.
    LineEnd,
    /// It begins an entry, or is none of a text.
    Other,
}

/// An edited text with what the text before began with: its mark, which the library drops and git keeps; and the whitespace before its
/// first header on the line of that, which the library ends behind it.
pub fn marked(alloc: Global, before: &[u8], edited: BString) -> Result<BString, Trouble>
    ensures { Answers bstring_bytes result (Ok (spec.marked before.now (bstring_bytes edited))) }
{
    if !before.starts_with(&MARK) {
        return Ok(indented(alloc, before, edited)?);
    }
    let edited = indented(alloc, before.split_at(MARK.len()).1, edited)?;
    let mut text = Vec::from_slice(alloc, &MARK)?;
    text.extend_from_slice(edited.as_bytes())?;
    Ok(BString::new(text))
}

/// An edited text whose first header has the indent that the first one had before.
fn indented(alloc: Global, before: &[u8], edited: BString) -> Result<BString, AllocError>
    ensures { IfOk result (λ text. bstring_bytes text ≡ spec.indented before.now (bstring_bytes edited)) }
{
    match end_of_indent(before) {
        Some(end)
            if edited
                .as_bytes()
                .starts_with(before.split_at(end.min(before.len())).0) => {
            joined(alloc, edited.as_bytes(), end)
        }
        _ => Ok(edited),
    }
}

/// Where the whitespace ends that the first header of a text stands behind on its line, if above it are but comments and blank lines.
fn end_of_indent(text: &[u8]) -> Option<usize>
    ensures { result ≡ spec.end_of_indent 0 false false text.now }
{
    let (mut at, mut is_comment, mut is_blank) = (0, false, false);
    for byte in text {
        if is_comment {
            is_comment = *byte != b'\n';
            is_blank = false;
        } else {
            match kind_of(*byte) {
                Leading::Header => return if is_blank { Some(at) } else { None },
                Leading::Comment => is_comment = true,
                Leading::Blank => is_blank = true,
                Leading::LineEnd => is_blank = false,
                Leading::Other => return None,
            }
        }
        at += 1;
    }
    None
}

/// What a byte is outside of comments.
fn kind_of(byte: u8) -> Leading
    ensures { result ≡ spec.kind_of byte }
{
    match byte {
        b'[' => Leading::Header,
        b'#' | b';' => Leading::Comment,
        b' ' | b'\t' => Leading::Blank,
        b'\r' | b'\n' => Leading::LineEnd,
        _ => Leading::Other,
    }
}

/// A text without the line ending at a place, if a header comes behind that.
fn joined(alloc: Global, text: &[u8], at: usize) -> Result<BString, AllocError>
    ensures { IfOk result (λ new. bstring_bytes new ≡ take at text.now ++ drop (at + spec.end_before_header (drop at text.now)) text.now) }
{
    let (front, behind) = text.split_at(at.min(text.len()));
    let mut new = Vec::from_slice(alloc, front)?;
    new.extend_from_slice(without_end(behind))?;
    Ok(BString::new(new))
}

/// A text without the line ending that it begins with, if a header comes behind that.
fn without_end(text: &[u8]) -> &[u8]
    ensures { result.now ≡ drop (spec.end_before_header text.now) text.now }
{
    text.split_at(end_before_header(text)).1
}

/// How long the line ending is that a text begins with, if a header comes behind it.
fn end_before_header(text: &[u8]) -> usize
    ensures exact { result ≡ spec.end_before_header text.now }
    ensures within { result ≤ length text.now }
{
    if text.starts_with(b"\n[") {
        1
    } else if text.starts_with(b"\r\n[") {
        2
    } else {
        0
    }
}
