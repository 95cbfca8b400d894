//! The message.
ghost use Rattle.std.specs.Prelude.{◌≡◌, drop, IfOk, length, string_bytes};
ghost use Rattle.gixcfg_core.specs.Message.{because as because_lem, blanks as blanks_lem, colors as colors_lem, dots as dots_lem, first_row as first_row_lem, left_of as left_of_lem, message_of};

use crate::place::{Place, place_of};
use crate::reason::{Reason, bytes_before_fault, name_of, reason_of, wanted_of};
use gixcfg_words::shown::Shown;
use std::alloc::{AllocError, Global};

/// A text that the parser refused.
#[derive(Clone, Copy)]
pub struct Refused<'a> {
    /// What the file is called.
    pub file: &'a str,
    /// Its text.
    pub text: &'a [u8],
    /// What was looked for there.
    pub kind: &'a str,
    /// The text from there on.
    pub rest: &'a [u8],
}

/// What comes before and after what is to be seen first, on a terminal that shows colors.
const BOLD: &str = "\x1b[1m";

const RED: &str = "\x1b[1;31m";

const PLAIN: &str = "\x1b[m";

/// The message in three lines: the place and what is wrong there, the line of the text, with dots for what is left out if it is long, and
/// a mark under the place. The column counts characters. In a value that is the place of the backslash or of the quote that is wrong, which may be lines below the value's start.
///
/// # Errors
///
/// Out of memory.
pub fn message(alloc: Global, refused: &Refused<'_>, is_colored: bool) -> Result<String, AllocError>
    ensures { IfOk result (λ s. string_bytes s ≡ message_of refused.now is_colored) }
{
    let place = place_of(alloc, refused.text, left_of(refused))?;
    let first = first_row(alloc, refused, &place, is_colored)?;
    let (dots, more) = (dots(place.is_cut_before), dots(place.is_cut_behind));
    let blanks = blanks(place.is_cut_before);
    let (before, behind, under) = (place.before, place.behind, place.under);
    let (red, plain) = (colors(is_colored, RED), colors(is_colored, PLAIN));
    format!(in alloc; "{first}{dots}{before}{behind}{more}\n{blanks}{under}{red}^{plain}\n")
}

/// How many bytes of the text are left from what is wrong on.
fn left_of(refused: &Refused<'_>) -> usize
    ensures { result ≡ left_of_lem refused.now }
{
    let wanted = wanted_of(refused.kind, refused.rest);
    refused
        .rest
        .split_at(bytes_before_fault(wanted, refused.rest))
        .1
        .len()
}

/// The first line: the place, what was looked for there, and why it isn't there.
fn first_row(
    alloc: Global,
    refused: &Refused<'_>,
    place: &Place,
    is_colored: bool,
) -> Result<String, AllocError>
    ensures { IfOk result (λ s. string_bytes s ≡ first_row_lem refused.now place.now.line place.now.column is_colored) }
{
    let wanted = wanted_of(refused.kind, refused.rest);
    let because = because(alloc, reason_of(wanted, refused.rest))?;
    let (file, what) = (refused.file, name_of(wanted));
    let (line, column) = (place.line, place.column);
    let bold = colors(is_colored, BOLD);
    let (red, plain) = (colors(is_colored, RED), colors(is_colored, PLAIN));
    format!(in alloc; "gixcfg: {bold}{file}:{line}:{column}: {red}{what}{plain}{because} [E1]\n")
}

/// What steers a terminal, where colors are shown.
fn colors(is_colored: bool, code: &'static str) -> &'static str
    ensures { result.now ≡ colors_lem is_colored code.entry.now }
{
    if is_colored { code } else { "" }
}

/// What stands for the part of a line that is left out.
fn dots(is_cut: bool) -> &'static str
    ensures { result.now ≡ dots_lem is_cut }
{
    if is_cut { "..." } else { "" }
}

/// What is as wide as that.
fn blanks(is_cut: bool) -> &'static str
    ensures { result.now ≡ blanks_lem is_cut }
{
    if is_cut { "   " } else { "" }
}

/// A reason after a colon, or nothing.
fn because(alloc: Global, reason: Option<Reason>) -> Result<String, AllocError>
    ensures { IfOk result (λ s. string_bytes s ≡ because_lem reason) }
{
    match reason {
        Some(reason) => format!(in alloc; ": {}", reason.words()),
        None => Ok(String::new(alloc)),
    }
}

/// The message of what git makes of a place in a text: a line with the place. The place is that many bytes from the start.
///
/// # Errors
///
/// Out of memory.
pub fn message_of_git(
    alloc: Global,
    file: &str,
    text: &[u8],
    at: usize,
    what: &str,
) -> Result<String, AllocError> {
    let behind = text.split_at(at.min(text.len())).1;
    let place = place_of(alloc, text, behind.len())?;
    let (file, line, column) = (Shown(file), place.line, place.column);
    format!(in alloc; "gixcfg: {file}:{line}:{column}: git: {what}\n")
}
