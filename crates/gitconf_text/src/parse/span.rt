//! Places in a file's text.
ghost use Rattle.std.specs.Prelude.{◌≡◌};

use crate::memory::{Cause, NoMemory};
use std::alloc::{AllocError, AllocFailed};
use std::fmt;
use std::marker::Model;

/// A place past byte 4294967295, no section number left, or a failed allocation.
#[derive(Clone, Copy, Debug, PartialEq, Eq, PartialOrd, Ord)]
pub struct Error {
    cause: Cause,
}

impl Model for Error {
    ghost use Rattle.std.specs.Prelude.{ℕ};
    ghost use Rattle.gitconf_text.specs.Cause.{number_of, cause_of};

    ghost Value = { ℕ };

    ghost view = { λ e. number_of 3 e.cause };

    ghost inverse = { λ n. record { cause = cause_of n } };
}

impl Error {
    ghost use Rattle.std.specs.Prelude.{◌==◌};

    /// The error for a place or a number that passes the limit.
    pub fn too_large() -> Error
        ensures { result ≡ 3 }
    {
        Error {
            cause: Cause::Refused,
        }
    }

    /// The error's number: 3, or 27 when memory ran out.
    pub fn number(&self) -> u8
        ensures { result ≡ self.now }
    {
        self.cause.number(3)
    }

    /// Whether memory ran out. It is for the crates above this one, whose own errors have a case for that.
    pub fn is_memory(&self) -> bool
        ensures { result ≡ (self.now == 27) }
    {
        self.cause == Cause::Memory
    }
}

impl fmt::Display for Error {
    ghost use Rattle.std.specs.Prelude.{Some, codes};
    ghost use Rattle.gitconf_text.specs.Cause.{text_of, cause_of};

    ghost output = { λ e. Some (text_of
        (codes "configuration data exceeds the supported span size of 4294967295 bytes") (cause_of e)) };

    fn fmt<W: fmt::Write>(&self, f: &mut fmt::Formatter<W>) -> fmt::Result {
        f.write_str(
            self.cause.text(
                "configuration data exceeds the supported span size of 4294967295 bytes",
            ),
        )
    }
}

impl std::error::Error for Error {}

impl From<NoMemory> for Error {
    ghost from_gives = { λ _ e. e ≡ 27 };

    fn from(_e: NoMemory) -> Error {
        Error {
            cause: Cause::Memory,
        }
    }
}

impl From<AllocError> for Error {
    ghost from_gives = { λ _ e. e ≡ 27 };

    fn from(_e: AllocError) -> Error {
        Error {
            cause: Cause::Memory,
        }
    }
}

impl<T: Drop> From<AllocFailed<T>> for Error {
    ghost from_gives = { λ _ e. e ≡ 27 };

    fn from(_e: AllocFailed<T>) -> Error {
        Error {
            cause: Cause::Memory,
        }
    }
}
