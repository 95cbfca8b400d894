//! Values that aren't but themselves: with quotes, with escapes, on several lines, or with a byte 0.

ghost use Rattle.std.specs.Prelude.{◌≤◌, IfOk, length};

use crate::git_reading::{Stop, Why};
use gitconf_text::NoMemory;
use std::alloc::Global;

/// The bytes up to `;` that end what is plain in a value, a bit for each.
const ENDS: u64 = 1 | 1 << b'\n' | 1 << b'"' | 1 << b'#' | 1 << b';';

/// Whether a byte ends what is plain in a value: it ends its line, or isn't but itself.
pub fn ends_plain(byte: u8) -> bool {
    if byte <= b';' {
        ENDS >> byte & 1 == 1
    } else {
        byte == b'\\'
    }
}

/// A value as it is decoded.
#[derive(Drop)]
pub struct Decoded {
    bytes: Vec<u8>,
    /// Where the quotes begin that the next byte is in.
    quote: Option<usize>,
    /// How long the value is up to the whitespace that it ends with, if it does.
    trimmed: Option<usize>,
    /// How long it is up to its first byte 0, if it has one.
    null: Option<usize>,
}

impl Decoded {
    /// Nothing was decoded yet.
    pub fn new(alloc: Global) -> Decoded {
        Decoded {
            bytes: Vec::new(alloc),
            quote: None,
            trimmed: None,
            null: None,
        }
    }

    /// What was decoded last, up to its first byte 0.
    pub fn bytes(&self) -> &[u8] {
        &self.bytes
    }

    /// Reads a value that begins with plain bytes, behind these. `text` is what is left of a text of `len` bytes. Returns what is left
    /// from where the value ends: a line feed, or a comment.
    pub fn read<'b>(&mut self, len: usize, plain: &[u8], text: &'b [u8]) -> Result<&'b [u8], Stop>
        ensures { IfOk result (λ left. length left.now ≤ length text.now) }
    {
        self.begin(plain)?;
        let mut rest = text;
        while let Some((byte, behind)) = rest.split_first() {
            let at = len.saturating_sub(rest.len());
            rest = match *byte {
                b'\r' if behind.first() == Some(&b'\n') => behind,
                b'\\' => self.read_escape(at, behind)?,
                byte if self.is_ended_by(byte) => break,
                byte => {
                    self.add(at, byte)?;
                    behind
                }
            };
        }
        self.end()?;
        Ok(rest)
    }

    /// Begins anew with these bytes.
    fn begin(&mut self, plain: &[u8]) -> Result<(), NoMemory> {
        self.quote = None;
        self.trimmed = None;
        self.null = None;
        self.bytes.clear();
        Ok(self.bytes.extend_from_slice(plain)?)
    }

    /// Whether a byte that isn't behind a backslash ends the value.
    fn is_ended_by(&self, byte: u8) -> bool {
        byte == b'\n' || self.quote.is_none() && matches!(byte, b'#' | b';')
    }

    /// Adds a byte that is in the text at this place.
    fn add(&mut self, at: usize, byte: u8) -> Result<(), NoMemory> {
        if self.quote.is_none() && matches!(byte, b' ' | b'\t' | b'\r') {
            return self.add_space(byte);
        }
        self.trimmed = None;
        match byte {
            b'"' => {
                self.quote = match self.quote {
                    Some(_) => None,
                    None => Some(at),
                };
                return Ok(());
            }
            0 if self.null.is_none() => self.null = Some(self.bytes.len()),
            _ => {}
        }
        Ok(self.bytes.push(byte)?)
    }

    /// Adds whitespace, of which none is at the value's start, and which goes if the value ends with it.
    fn add_space(&mut self, byte: u8) -> Result<(), NoMemory> {
        if self.bytes.is_empty() {
            return Ok(());
        }
        if self.trimmed.is_none() {
            self.trimmed = Some(self.bytes.len());
        }
        Ok(self.bytes.push(byte)?)
    }

    /// Reads what is behind a backslash at this place, and returns what is behind that.
    fn read_escape<'b>(&mut self, at: usize, text: &'b [u8]) -> Result<&'b [u8], Stop>
        ensures { IfOk result (λ left. length left.now ≤ length text.now) }
    {
        self.trimmed = None;
        let (meant, left) = match text {
            [] => return Ok(text),
            [b'\n', left @ ..] | [b'\r', b'\n', left @ ..] => return Ok(left),
            [b't', left @ ..] => (b'\t', left),
            [b'b', left @ ..] => (8, left),
            [b'n', left @ ..] => (b'\n', left),
            [byte @ (b'\\' | b'"'), left @ ..] => (*byte, left),
            _ => return Err(Stop::Refused(at, Why::Escape)),
        };
        self.push(meant)?;
        Ok(left)
    }

    /// Adds a byte.
    fn push(&mut self, byte: u8) -> Result<(), NoMemory> {
        Ok(self.bytes.push(byte)?)
    }

    /// Ends the value.
    fn end(&mut self) -> Result<(), Stop> {
        if let Some(from) = self.quote {
            return Err(Stop::Refused(from, Why::Quote));
        }
        if let Some(end) = self.null.or(self.trimmed) {
            self.bytes.truncate(end);
        }
        Ok(())
    }
}
