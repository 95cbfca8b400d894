//! How the parser refuses a text.
ghost use Rattle.std.specs.Prelude.{◌≡◌};
ghost use Rattle.std.proofs.Common.{rules};
ghost use Rattle.std.specs.Cmp.Rules.{comparing};
ghost use Rattle.gitconf_read.specs.ParseError.{kind_of, unexpected_token, too_large_input, want_of_memory, is_same_refusal};

pub use crate::reading::Expected;
use bstr::BStr;
use gitconf_text::NoMemory;
use std::fmt::Write;
use std::marker::Model;
use std::{fmt, str};

/// Why the parser refused a text: at some place no token begins that it knows, the text is too large, or memory ran out.
#[derive(Debug, Drop)]
pub struct Error {
    cause: Cause,
}

#[derive(Debug, Drop)]
enum Cause {
    Unexpected {
        line_number: usize,
        expected: Expected,
        remaining: Vec<u8>,
    },
    TooLarge(usize),
    Memory,
}

impl Model for Error {
    ghost use Rattle.gitconf_read.specs.ParseError.{Refusal};

    ghost Value = { Refusal };

    ghost use Rattle.gitconf_read.specs.ParseCause.{refusal_of};

    ghost view = { λ e. refusal_of e.cause };
}

impl Error {
    ghost use Rattle.std.specs.Prelude.{◌==◌};

    /// E1: at `remaining`, which begins in this line, no token can be read. It is for the crates above this one.
    pub fn unexpected(line_number: usize, expected: Expected, remaining: Vec<u8>) -> Error
        ensures { result ≡ unexpected_token line_number expected remaining.items }
    {
        Error {
            cause: Cause::Unexpected {
                line_number,
                expected,
                remaining,
            },
        }
    }

    /// E2: the input has more than 4294967295 bytes. It is for the crates above this one.
    pub fn too_large(actual: usize) -> Error
        ensures { result ≡ too_large_input actual }
    {
        Error {
            cause: Cause::TooLarge(actual),
        }
    }

    /// E27: an allocation failed. It is for the crates above this one.
    pub fn memory() -> Error
        ensures { result ≡ want_of_memory }
    {
        Error {
            cause: Cause::Memory,
        }
    }

    /// The error's number: 1 if no token can be read, 2 if the input is too large, and 27 when memory ran out.
    pub fn number(&self) -> u8
        ensures { result ≡ self.now.number }
    {
        match &self.cause {
            Cause::Unexpected { .. } => 1,
            Cause::TooLarge(_) => 2,
            Cause::Memory => 27,
        }
    }

    /// Whether memory ran out. It is for the crates above this one, whose own errors have a case for that.
    pub fn is_memory(&self) -> bool
        ensures { result ≡ (self.now.number == 27) }
    {
        matches!(&self.cause, Cause::Memory)
    }

    /// The line in which the remaining data begins, counted from 1. It is 1 except for E1.
    pub const fn line_number(&self) -> usize
        ensures { result ≡ self.now.line }
    {
        match &self.cause {
            Cause::Unexpected { line_number, .. } => *line_number,
            Cause::TooLarge(_) | Cause::Memory => 1,
        }
    }

    /// The text from the token on that could not be read. It is empty except for E1.
    pub fn remaining_data(&self) -> &[u8]
        ensures { result.now ≡ self.now.data }
    {
        match &self.cause {
            Cause::Unexpected { remaining, .. } => remaining.as_slice(),
            Cause::TooLarge(_) | Cause::Memory => b"",
        }
    }

    /// What was looked for: `section header`, `name` or `value`. It is empty except for E1.
    pub fn kind(&self) -> &str
        ensures { result.now ≡ self.now.kind }
    {
        match &self.cause {
            Cause::Unexpected { expected, .. } => kind_name(*expected),
            Cause::TooLarge(_) | Cause::Memory => "",
        }
    }

    /// The length of an input that is too large; 0 except for E2.
    fn size(&self) -> usize
        ensures { result ≡ self.now.size }
    {
        match &self.cause {
            Cause::TooLarge(size) => *size,
            Cause::Unexpected { .. } | Cause::Memory => 0,
        }
    }
}

/// What was looked for, in words.
fn kind_name(expected: Expected) -> &'static str
    ensures { result.now ≡ kind_of expected }
{
    match expected {
        Expected::SectionHeader => "section header",
        Expected::Name => "name",
        Expected::Value => "value",
    }
}

impl PartialEq for Error {
    ghost eq = { is_same_refusal };

    ghost laws = { Prim.search (comparing, rules) };

    fn eq(&self, other: &Error) -> bool {
        self.number() == other.number()
            && self.line_number() == other.line_number()
            && self.kind() == other.kind()
            && self.remaining_data() == other.remaining_data()
            && self.size() == other.size()
    }
}

impl fmt::Display for Error {
    fn fmt<W: fmt::Write>(&self, f: &mut fmt::Formatter<W>) -> fmt::Result {
        match &self.cause {
            Cause::Unexpected {
                line_number,
                expected,
                remaining,
            } => {
                let kind = kind_name(*expected);
                write!(
                    f,
                    "Got an unexpected token on line {line_number} while trying to parse a {kind}: "
                )?;
                write_remaining(remaining.as_slice(), f)
            }
            Cause::TooLarge(size) => {
                write!(
                    f,
                    "Configuration input is {size} bytes large, but at most 4294967295 bytes are supported"
                )
            }
            Cause::Memory => f.write_str("out of memory"),
        }
    }
}

/// How many characters of a long text are shown.
const SHOWN: usize = 10;

/// A text in quotes; of a long one the first characters, and how many bytes it has above their number. Data that isn't
/// UTF-8 is shown whole, without quotes, with U+FFFD for what isn't UTF-8.
fn write_remaining<W: fmt::Write>(remaining: &[u8], f: &mut fmt::Formatter<W>) -> fmt::Result {
    let Ok(text) = str::from_utf8(remaining) else {
        let shown = BStr::new(remaining);
        return write!(f, "{shown}");
    };
    if remaining.len() <= SHOWN {
        return write!(f, "'{text}'");
    }
    write_start(text, f)?;
    let omitted = remaining.len() - SHOWN;
    write!(f, " ... ({omitted} characters omitted)")
}

/// The first characters of a text, in quotes.
fn write_start<W: fmt::Write>(text: &str, f: &mut fmt::Formatter<W>) -> fmt::Result {
    f.write_char('\'')?;
    for ch in text.chars().take(SHOWN) {
        f.write_char(ch)?;
    }
    f.write_char('\'')
}

impl std::error::Error for Error {}

impl From<NoMemory> for Error {
    ghost from_gives = { λ _ e. e ≡ want_of_memory };

    fn from(_e: NoMemory) -> Error {
        Error::memory()
    }
}
