//! Why a value doesn't have the type that is asked for.
ghost use Rattle.std.specs.Prelude.{◌≡◌, Some, codes};
ghost use Rattle.bstr.specs.Owned.{bstring_bytes};
ghost use Rattle.gitconf_text.specs.ValueErrors.{refused, value_error_text, wanting};

use crate::memory::NoMemory;
use bstr::BString;
use std::fmt;
use std::marker::Model;

/// What is wrong, and with which bytes.
#[derive(Debug, Drop)]
struct Told {
    message: &'static str,
    input: BString,
}

/// A value of the wrong type or too large (E11), or a failed allocation (E27). The value is not a boolean or not an integer, or
/// it is an integer that is too large.
#[derive(Debug, Drop)]
pub struct Error {
    /// None when memory ran out.
    told: Option<Told>,
}

impl Model for Error {
    ghost use Rattle.gitconf_text.specs.ValueErrors.{ValueError, shown};

    ghost Value = { ValueError };

    ghost view = { λ e. shown e.told };
}

impl Error {
    /// The error for bytes that are not a boolean. It keeps them and takes no memory.
    pub fn not_a_boolean(input: BString) -> Error
        ensures { result ≡ refused (codes "not a boolean") (bstring_bytes input) }
    {
        Error {
            told: Some(Told {
                message: "not a boolean",
                input,
            }),
        }
    }

    /// The error for bytes that are not an integer. It keeps them and takes no memory.
    pub fn not_an_integer(input: BString) -> Error
        ensures { result ≡ refused (codes "not an integer") (bstring_bytes input) }
    {
        Error {
            told: Some(Told {
                message: "not an integer",
                input,
            }),
        }
    }

    /// The error for an integer that a signed 64-bit integer can't hold. It keeps its bytes and takes no memory.
    pub fn overflow(input: BString) -> Error
        ensures { result ≡ refused (codes "Integer overflow") (bstring_bytes input) }
    {
        Error {
            told: Some(Told {
                message: "Integer overflow",
                input,
            }),
        }
    }

    /// The error's number: 11, or 27 when memory ran out.
    pub fn number(&self) -> u8
        ensures { result ≡ self.now.number }
    {
        match self.told {
            Some(_) => 11,
            None => 27,
        }
    }

    /// What is wrong with the input; empty when memory ran out.
    pub fn message(&self) -> &str
        ensures { result.now ≡ self.now.message }
    {
        match &self.told {
            Some(told) => told.message,
            None => "",
        }
    }

    /// The bytes that were refused; none when memory ran out.
    pub fn input(&self) -> &[u8]
        ensures { result.now ≡ self.now.input }
    {
        match &self.told {
            Some(told) => told.input.as_bytes(),
            None => b"",
        }
    }
}

impl fmt::Display for Error {
    ghost output = { λ e. Some (value_error_text e) };

    fn fmt<W: fmt::Write>(&self, f: &mut fmt::Formatter<W>) -> fmt::Result {
        match &self.told {
            Some(told) => {
                let input = &told.input;
                let message = told.message;
                write!(f, "Could not decode '{input}': {message}")
            }
            None => f.write_str("out of memory"),
        }
    }
}

impl std::error::Error for Error {}

impl From<NoMemory> for Error {
    ghost from_gives = { λ _ e. e ≡ wanting };

    fn from(_e: NoMemory) -> Error {
        Error { told: None }
    }
}
