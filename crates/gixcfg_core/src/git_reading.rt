//! How git reads a text: which entries it finds, and where it refuses. `check` compares that with how the library reads it.
//!
//! A carriage return before a line feed counts for nothing; whitespace is a space, a tab, a line feed and a carriage return. An entry is a
//! name that begins with a letter, spaces and tabs, and then the end of the line, or `=` and a value. A value has no whitespace at its
//! start, and none at its end, also where it goes on over lines.

mod decoding;

ghost use Rattle.std.specs.Prelude.{◌≡◌, ◌<◌, ◌≤◌, IfOk, length, true};
ghost use Rattle.gixcfg_core.specs.GitReading.{entries_left};

use crate::git_reading::decoding::{Decoded, ends_plain};
use crate::names::add_in_lower_case;
use gitconf_text::NoMemory;
use std::alloc::{AllocError, Global};

/// Why git refuses a text.
#[derive(Clone, Copy, PartialEq, Eq)]
pub enum Why {
    /// What begins a line is none of a header, a comment and a name.
    Name,
    /// A header is neither `[name]` nor `[name "subsection"]`.
    Header,
    /// Behind a name there is neither `=` nor the end of the line.
    BehindName,
    /// A quote isn't closed on its line.
    Quote,
    /// What is behind a backslash is no escape.
    Escape,
}

impl Why {
    /// In words.
    pub fn words(self) -> &'static str {
        match self {
            Why::Name => "neither a header nor a name, which begins with a letter",
            Why::Header => "not a header, which is [name] or [name \"subsection\"]",
            Why::BehindName => "behind a name there has to be = or the end of the line",
            Why::Quote => "the quote isn't closed",
            Why::Escape => "not an escape",
        }
    }
}

/// An entry as git reads it.
#[derive(Clone, Copy)]
pub struct GitEntry<'a> {
    /// Where its name begins, in bytes.
    pub at: usize,
    /// The names of its section with a dot behind each. The first is in lower case; there are none before the first section.
    pub section: &'a [u8],
    /// Its own name, as it is spelled.
    pub name: &'a [u8],
    /// Its value, if it has one. It is up to its first byte 0, as git hands it on.
    pub value: Option<&'a [u8]>,
}

impl GitEntry<'_> {
    /// Its key: the names with dots between them.
    ///
    /// # Errors
    ///
    /// Out of memory.
    pub fn key(&self, alloc: Global) -> Result<Vec<u8>, AllocError> {
        let mut key = self.section.to_vec(alloc)?;
        add_in_lower_case(&mut key, self.name)?;
        Ok(key)
    }
}

/// Why a text isn't read on.
#[derive(Drop)]
pub enum Stop {
    /// It is refused for this reason at this place.
    Refused(usize, Why),
    /// Out of memory.
    Memory,
}

impl From<NoMemory> for Stop {
    fn from(_: NoMemory) -> Stop {
        Stop::Memory
    }
}

impl From<AllocError> for Stop {
    fn from(_: AllocError) -> Stop {
        Stop::Memory
    }
}

/// The value of an entry.
#[derive(Clone, Copy)]
enum Value<'a> {
    /// There is none.
    Nothing,
    /// These bytes of the text.
    Plain(&'a [u8]),
    /// What the walk has decoded.
    Decoded,
}

/// A walk over a text, from entry to entry. One pass. It takes memory for the names of a section, and for a value that has a quote, a
/// backslash or a byte 0.
#[derive(Drop)]
pub struct GitWalk<'a> {
    /// How many bytes the text has.
    len: usize,
    /// What isn't read of it.
    rest: &'a [u8],
    /// Whether there are no more entries.
    is_over: bool,
    /// The names of the section with a dot behind each.
    section: Vec<u8>,
    /// The entry that was read last.
    at: usize,
    name: &'a [u8],
    value: Value<'a>,
    decoded: Decoded,
}

/// The mark that a text in UTF-8 may begin with.
static MARK: [u8; 3] = *b"\xef\xbb\xbf";

/// Whether git takes a byte for whitespace.
fn is_space(byte: u8) -> bool {
    matches!(byte, b' ' | b'\t' | b'\n' | b'\r')
}

/// Whether git takes a byte for whitespace within a line.
fn is_space_in_line(byte: u8) -> bool {
    matches!(byte, b' ' | b'\t' | b'\r')
}

/// Whether a byte may stand in a name.
fn is_of_name(byte: u8) -> bool {
    byte.is_ascii_alphanumeric() || byte == b'-'
}

/// What is behind the whitespace at the front of a text.
fn behind_spaces(text: &[u8]) -> &[u8]
    ensures { length result.now ≤ length text.now }
{
    let count = text.iter().take_while(|byte| is_space(**byte)).count();
    text.split_at(count).1
}

/// What is behind the whitespace at the front of a text, on its line.
fn behind_spaces_in_line(text: &[u8]) -> &[u8]
    ensures { length result.now ≤ length text.now }
{
    let count = text
        .iter()
        .take_while(|byte| is_space_in_line(**byte))
        .count();
    text.split_at(count).1
}

/// What is behind the first line of a text.
fn behind_line(text: &[u8]) -> &[u8]
    ensures { length result.now ≤ length text.now }
{
    let count = text.iter().take_while(|byte| **byte != b'\n').count();
    match text.split_at(count).1 {
        [_, behind @ ..] => behind,
        [] => b"",
    }
}

/// A text without the whitespace at its end.
fn before_spaces(text: &[u8]) -> &[u8] {
    match text.iter().rposition(|byte| !is_space_in_line(*byte)) {
        Some(last) => text.get(..=last).unwrap_or(text),
        None => b"",
    }
}

impl<'a> GitWalk<'a> {
    /// A walk from a text's start, behind the mark that it may begin with.
    pub fn new(alloc: Global, text: &'a [u8]) -> GitWalk<'a> {
        let rest = match text.strip_prefix(&MARK) {
            Some(rest) => rest,
            None => text,
        };
        GitWalk {
            len: text.len(),
            rest,
            is_over: false,
            section: Vec::new(alloc),
            at: 0,
            name: b"",
            value: Value::Nothing,
            decoded: Decoded::new(alloc),
        }
    }

    /// The entry that was read last.
    pub fn entry(&self) -> GitEntry<'_> {
        GitEntry {
            at: self.at,
            section: &self.section,
            name: self.name,
            value: match self.value {
                Value::Nothing => None,
                Value::Plain(bytes) => Some(bytes),
                Value::Decoded => Some(self.decoded.bytes()),
            },
        }
    }

    /// Reads on up to the end of the next entry. Returns whether there is one.
    ///
    /// # Errors
    ///
    /// git refuses the text; out of memory.
    pub fn advance(&mut self) -> Result<bool, Stop>
        ensures { IfOk result (λ more. more ≡ true → entries_left self.new < entries_left self.old) }
    {
        if self.is_over {
            return Ok(false);
        }
        let mut rest = behind_spaces(self.rest);
        while let Some((byte, behind)) = rest.split_first() {
            let at = self.place_of(rest);
            let left = match *byte {
                b'#' | b';' => behind_line(behind),
                b'[' => self.read_header(at, behind)?,
                byte if byte.is_ascii_alphabetic() => {
                    self.at = at;
                    self.rest = self.read_entry(rest, behind)?;
                    self.is_over = false;
                    return Ok(true);
                }
                _ => return Err(Stop::Refused(at, Why::Name)),
            };
            rest = behind_spaces(left);
        }
        self.is_over = true;
        Ok(false)
    }

    /// Where in the text a rest of it begins, in bytes.
    fn place_of(&self, rest: &[u8]) -> usize {
        self.len.saturating_sub(rest.len())
    }

    /// Reads a header, whose `[` is at this place, and returns what is behind it.
    fn read_header<'b>(&mut self, at: usize, text: &'b [u8]) -> Result<&'b [u8], Stop>
        ensures { IfOk result (λ behind. length behind.now ≤ length text.now) }
    {
        self.section.clear();
        let count = text
            .iter()
            .take_while(|byte| is_of_name(**byte) || **byte == b'.')
            .count();
        let (name, behind) = text.split_at(count);
        add_in_lower_case(&mut self.section, name)?;
        match behind_spaces_in_line(behind).split_first() {
            Some((b'"', inside)) if behind.first() != Some(&b'"') => {
                add(&mut self.section, b'.')?;
                self.read_subsection(at, inside)
            }
            Some((b']', left)) if behind.first() == Some(&b']') && count > 0 => {
                add(&mut self.section, b'.')?;
                Ok(left)
            }
            _ => Err(Stop::Refused(at, Why::Header)),
        }
    }

    /// Reads a subsection behind its first quote, and what closes its header, whose `[` is at this place, and returns what is behind that.
    fn read_subsection<'b>(&mut self, at: usize, text: &'b [u8]) -> Result<&'b [u8], Stop>
        ensures { IfOk result (λ behind. length behind.now ≤ length text.now) }
    {
        let mut rest = text;
        while let Some((byte, behind)) = rest.split_first() {
            rest = match (byte, behind) {
                (b'"', [b']', left @ ..]) => {
                    add(&mut self.section, b'.')?;
                    return Ok(left);
                }
                (b'"' | b'\n', _) | (b'\\', [] | [b'\n', ..]) => break,
                (b'\\', [byte, left @ ..]) => {
                    add(&mut self.section, *byte)?;
                    left
                }
                (byte, left) => {
                    add(&mut self.section, *byte)?;
                    left
                }
            };
        }
        Err(Stop::Refused(at, Why::Header))
    }

    /// Reads an entry from its first letter on, behind which comes `behind`, and returns what is behind it.
    fn read_entry(&mut self, text: &'a [u8], behind: &'a [u8]) -> Result<&'a [u8], Stop>
        ensures { IfOk result (λ left. length left.now ≤ length behind.now) }
    {
        let count = behind.iter().take_while(|byte| is_of_name(**byte)).count();
        self.name = text.get(..count + 1).unwrap_or(text);
        self.value = Value::Nothing;
        let left = behind_blanks(behind.split_at(count).1);
        match left {
            [b'=', value @ ..] => self.read_value(value),
            [b'\n', left @ ..] | [b'\r', b'\n', left @ ..] => Ok(left),
            [] => Ok(left),
            _ => Err(Stop::Refused(self.place_of(left), Why::BehindName)),
        }
    }

    /// Reads a value behind its `=`, and returns what is behind it.
    fn read_value(&mut self, text: &'a [u8]) -> Result<&'a [u8], Stop>
        ensures { IfOk result (λ left. length left.now ≤ length text.now) }
    {
        let text = behind_spaces_in_line(text);
        let count = text.iter().take_while(|byte| !ends_plain(**byte)).count();
        let (plain, behind) = text.split_at(count);
        match behind.first() {
            Some(b'"' | b'\\' | 0) => {
                self.value = Value::Decoded;
                let left = self.decoded.read(self.len, plain, behind)?;
                Ok(behind_line(left))
            }
            _ => {
                self.value = Value::Plain(before_spaces(plain));
                Ok(behind_line(behind))
            }
        }
    }
}

/// What is behind the spaces and tabs at the front of a text.
fn behind_blanks(text: &[u8]) -> &[u8]
    ensures { length result.now ≤ length text.now }
{
    let count = text
        .iter()
        .take_while(|byte| matches!(**byte, b' ' | b'\t'))
        .count();
    text.split_at(count).1
}

/// Adds a byte.
fn add(text: &mut Vec<u8>, byte: u8) -> Result<(), NoMemory> {
    Ok(text.push(byte)?)
}
