//! Runs: blanks, line endings, and the bytes of comments, names and values.
ghost use Rattle.std.specs.Prelude.{◌≡◌, ◌≤◌, ◌<◌, ◌+◌, true, length, drop};
ghost use Rattle.gitconf_text.specs.Text.{begins_line_end};
ghost use Rattle.gitconf_read.specs.declared.reading.run.Run.TheVariants.{Blanks, LineEnds, CommentText};
ghost use Rattle.gitconf_read.specs.Reading.{run_test, run_end_at};

use super::block::{BLOCK, line_front};
use super::class::{is_blank, is_header_byte, is_name_byte, is_plain};

/// What a run consists of.
#[derive(Clone, Copy)]
pub enum Run {
    /// Spaces and tabs.
    Blanks,
    /// LF, and CR before LF.
    LineEnds,
    /// All bytes before a line ending.
    CommentText,
    /// Letters, digits and dashes.
    NameBytes,
    /// The same, and dots.
    HeaderBytes,
    /// Bytes that stand for themselves in a value, quotes or not.
    PlainBytes,
}

/// Whether a line ending (LF, or CR and LF) is at an offset.
#[inline(always)]
pub fn is_line_end(input: &[u8], at: usize) -> bool
    requires { at < length input.now }
    ensures { result ≡ begins_line_end (drop at input.now) }
{
    let byte = input[at];
    byte == b'\n' || byte == b'\r' && input.get(at + 1).copied() == Some(b'\n')
}

impl Run {
    /// Whether the byte at an offset belongs to the run.
    #[inline(always)]
    fn goes_on(self, input: &[u8], at: usize) -> bool
        requires { at < length input.now }
        ensures { result ≡ run_test self (drop at input.now) }
    {
        let byte = input[at];
        match self {
            Run::Blanks => is_blank(byte),
            Run::LineEnds => is_line_end(input, at),
            Run::CommentText => !is_line_end(input, at),
            Run::NameBytes => is_name_byte(byte),
            Run::HeaderBytes => is_header_byte(byte),
            Run::PlainBytes => is_plain(byte),
        }
    }
}

/// The offset after the run that begins at an offset.
#[inline(always)]
#[tactic(auto, unfolding(crate::specs::Reading::end_of_run))]
pub fn run_end(input: &[u8], from: usize, run: Run) -> usize
    requires { from ≤ length input.now }
    ensures end { result ≡ run_end_at input.now run from }
    ensures behind { from ≤ result }
    ensures inside { result ≤ length input.now }
{
    let mut i = from;
    while i < input.len() && run.goes_on(input, i) {
        i += 1;
    }
    i
}

/// The offset after the run that begins at an offset. This is faster for a run that is mostly long.
#[inline(always)]
pub fn long_run_end(input: &[u8], from: usize, run: Run) -> usize
    requires { from ≤ length input.now }
    ensures end { result ≡ run_end_at input.now run from }
    ensures behind { from ≤ result }
    ensures inside { result ≤ length input.now }
{
    let mut i = from;
    while i + 3 < input.len() {
        if !run.goes_on(input, i) {
            return i;
        }
        if !run.goes_on(input, i + 1) {
            return i + 1;
        }
        if !run.goes_on(input, i + 2) {
            return i + 2;
        }
        if !run.goes_on(input, i + 3) {
            return i + 3;
        }
        i += 4;
    }
    run_end(input, i, run)
}

/// The offset after the text of a comment that begins at an offset.
#[inline(always)]
pub fn comment_end(input: &[u8], from: usize) -> usize
    requires { from ≤ length input.now }
    ensures end { result ≡ run_end_at input.now CommentText from }
    ensures behind { from ≤ result }
    ensures inside { result ≤ length input.now }
{
    let mut i = from;
    while input.len() - i >= BLOCK {
        let front = line_front(input, i);
        i += front;
        if front < BLOCK {
            if is_line_end(input, i) {
                return i;
            }
            i += 1;
        }
    }
    run_end(input, i, Run::CommentText)
}

/// Whether LF, a tab and no further blank are at an offset, as they are between most lines.
#[inline(always)]
fn is_plain_gap(input: &[u8], at: usize) -> bool
    requires { at ≤ length input.now }
    ensures { result ≡ true → (run_end_at input.now LineEnds at ≡ at + 1) × (run_end_at input.now Blanks (at + 1) ≡ at + 2) × (at + 2 ≤ length input.now) }
{
    if at + 2 >= input.len() || input[at] != b'\n' || input[at + 1] != b'\t' {
        return false;
    }
    !is_blank(input[at + 2])
}

/// Whether LF and the bracket of a header are at an offset.
#[inline(always)]
fn is_header_gap(input: &[u8], at: usize) -> bool
    requires { at ≤ length input.now }
    ensures { result ≡ true → (run_end_at input.now LineEnds at ≡ at + 1) × (run_end_at input.now Blanks (at + 1) ≡ at + 1) × (at + 1 ≤ length input.now) }
{
    if at + 1 >= input.len() || input[at] != b'\n' {
        return false;
    }
    input[at + 1] == b'['
}

/// The offsets after the line endings at an offset, and after the blanks that follow.
#[inline(always)]
pub fn gap_ends(input: &[u8], at: usize) -> (usize, usize)
    requires { at ≤ length input.now }
    ensures line_ends { result.0 ≡ run_end_at input.now LineEnds at }
    ensures blanks { result.1 ≡ run_end_at input.now Blanks result.0 }
    ensures behind { at ≤ result.0 }
    ensures ordered { result.0 ≤ result.1 }
    ensures inside { result.1 ≤ length input.now }
{
    if is_plain_gap(input, at) {
        return (at + 1, at + 2);
    }
    if is_header_gap(input, at) {
        return (at + 1, at + 1);
    }
    let line_ends = run_end(input, at, Run::LineEnds);
    (line_ends, run_end(input, line_ends, Run::Blanks))
}
