//! The line in which reading stopped, and the mark under it.
ghost use Rattle.std.specs.Prelude.{◌≡◌, ◌+◌, ◌-◌, ◌≤◌, ◌++◌, length, take, drop, map, chars, replicate, IfOk, OnOk, string_bytes};
ghost use Rattle.std.specs.List.{count_by, flat_map};
ghost use Rattle.bstr.specs.Utf8.{lossy_chars};
ghost use Rattle.gixcfg_core.specs.Line.{IsPlaceOf, is_feed, first_line as first_line_lem, last_line as last_line_lem, line_from as line_from_lem, most_before, most_behind, shown as shown_lem, shown_char as shown_char_lem, under_char, without_mark as without_mark_lem, without_return as without_return_lem};

use bstr::ByteSlice;
use gixcfg_words::shown::steers;
use std::alloc::{AllocError, Global};
use unicode_width::UnicodeWidthChar;

/// The mark of UTF-8, which is no part of a text.
const MARK: &[u8] = b"\xef\xbb\xbf";

/// How many bytes of a line are shown at most up to the place.
const MOST_BEFORE: usize = 100;

/// How many of them are shown at most from the place on.
const MOST_BEHIND: usize = 200;

/// The line in which reading stopped, in two parts. Also what comes under the first of them.
#[derive(Drop)]
pub struct Place {
    /// The number of the line, counted from 1.
    pub line: usize,
    /// How many characters of the line stand before the place, and one more.
    pub column: usize,
    /// Whether more of the line stands before what is shown.
    pub is_cut_before: bool,
    /// Whether more of it stands behind that.
    pub is_cut_behind: bool,
    /// The line up to the place, as it is shown.
    pub before: String,
    /// The line from the place on, as it is shown.
    pub behind: String,
    /// As wide as the first part.
    pub under: String,
}

/// Where something begins in a text.
#[derive(Clone, Copy)]
pub struct Position {
    /// The number of its line, counted from 1.
    pub line: usize,
    /// How many characters of the line stand before it, and one more.
    pub column: usize,
}

/// Positions in a text, each behind those that were asked for before. One pass over the text for all of them.
#[derive(Clone, Copy)]
pub struct Positions<'a> {
    /// The text from the start of a line on.
    rest: &'a [u8],
    /// How many bytes stand before that line.
    start: usize,
    /// The number of that line.
    line: usize,
}

impl<'a> Positions<'a> {
    /// Those of a text.
    pub fn new(text: &'a [u8]) -> Positions<'a> {
        Positions {
            rest: text,
            start: 0,
            line: 1,
        }
    }

    /// The position of what begins that many bytes behind the start of the text.
    pub fn at(&mut self, offset: usize) -> Position {
        let len = offset.saturating_sub(self.start).min(self.rest.len());
        let (read, _) = self.rest.split_at(len);
        let front = last_line(read);
        let passed = len.saturating_sub(front.len());
        self.line = self.line.saturating_add(line_of(read) - 1);
        self.start = self.start.saturating_add(passed);
        self.rest = self.rest.split_at(passed.min(self.rest.len())).1;
        Position {
            line: self.line,
            column: column_of(if self.start == 0 {
                without_mark(front)
            } else {
                front
            }),
        }
    }
}

/// The place in a text after which so many bytes are left.
///
/// # Errors
///
/// Out of memory.
pub fn place_of(alloc: Global, text: &[u8], left: usize) -> Result<Place, AllocError>
    ensures { IfOk result (IsPlaceOf text.now left) }
{
    let (read, rest) = text.split_at(text.len().saturating_sub(left));
    let front = last_line(without_mark(read));
    let back = line_from(rest);
    let before = shown(alloc, end_of(front))?;
    let behind = shown(alloc, start_of(back))?;
    let under = under(alloc, before.as_str())?;
    Ok(Place {
        line: line_of(read),
        column: column_of(front),
        is_cut_before: front.len() > MOST_BEFORE,
        is_cut_behind: back.len() > MOST_BEHIND,
        before,
        behind,
        under,
    })
}

/// The number of the line that follows a text.
fn line_of(before: &[u8]) -> usize
    ensures { result ≡ count_by is_feed before.now + 1 }
{
    before.iter().filter(|byte| **byte == b'\n').count() + 1
}

/// The column of what follows a text in its line.
fn column_of(before: &[u8]) -> usize
    ensures { result ≡ length (lossy_chars before.now) + 1 }
{
    before.chars().count() + 1
}

/// A text without the mark at its start.
fn without_mark(text: &[u8]) -> &[u8]
    ensures { result.now ≡ without_mark_lem text.now }
{
    if text.starts_with(MARK) {
        text.split_at(MARK.len()).1
    } else {
        text
    }
}

/// A text from its last line feed on.
fn last_line(text: &[u8]) -> &[u8]
    ensures { result.now ≡ last_line_lem text.now }
{
    match text.rfind_byte(b'\n') {
        Some(end) => text.split_at(end + 1).1,
        None => text,
    }
}

/// A text up to its first line ending.
fn line_from(text: &[u8]) -> &[u8]
    ensures { result.now ≡ line_from_lem text.now }
{
    match text.find_byte(b'\n') {
        Some(end) => without_return(text.split_at(end).0),
        None => text,
    }
}

/// The end of what stands before the place, as much as is shown.
fn end_of(line: &[u8]) -> &[u8]
    ensures { result.now ≡ drop (length line.now - most_before) line.now }
{
    line.split_at(line.len().saturating_sub(MOST_BEFORE)).1
}

/// The start of what stands from the place on, as much as is shown.
fn start_of(line: &[u8]) -> &[u8]
    ensures { result.now ≡ take most_behind line.now }
{
    if line.len() > MOST_BEHIND {
        line.split_at(MOST_BEHIND).0
    } else {
        line
    }
}

/// A line without the carriage return at its end, where that isn't all of it.
fn without_return(line: &[u8]) -> &[u8]
    ensures { result.now ≡ without_return_lem line.now }
{
    match line {
        [first @ .., b'\r'] if !first.is_empty() => first,
        _ => line,
    }
}

/// A text as it is shown: what isn't UTF-8 and what would steer a terminal as a replacement.
fn shown(alloc: Global, text: &[u8]) -> Result<String, AllocError>
    ensures { IfOk result (λ s. string_bytes s ≡ shown_lem (lossy_chars text.now)) }
{
    text.chars().map(|c| shown_char(c)).collect(alloc)
}

/// A character as it is shown.
fn shown_char(c: char) -> char
    ensures { result ≡ shown_char_lem c }
{
    if steers(c) && c != '\t' {
        '\u{fffd}'
    } else {
        c
    }
}

/// Spaces that are as wide as a text that is shown; its tabs stay.
fn under(alloc: Global, text: &str) -> Result<String, AllocError>
    ensures { IfOk result (λ s. string_bytes s ≡ flat_map under_char (chars text.now)) }
{
    let mut all = String::new(alloc);
    for c in text.chars() {
        add_under(&mut all, c)?;
    }
    Ok(all)
}

/// Adds what is as wide as a character.
fn add_under(all: &mut String, c: char) -> Result<(), AllocError>
    ensures { OnOk result (string_bytes all.new ≡ string_bytes all.old ++ under_char c) }
{
    if c == '\t' {
        return all.push('\t');
    }
    add_blanks(all, c.width().unwrap_or(0))
}

/// Adds so many spaces.
fn add_blanks(all: &mut String, count: usize) -> Result<(), AllocError>
    ensures { OnOk result (string_bytes all.new ≡ string_bytes all.old ++ replicate count 32) }
{
    for _ in 0..count {
        all.push(' ')?;
    }
    Ok(())
}
