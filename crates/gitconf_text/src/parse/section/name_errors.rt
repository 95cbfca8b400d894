//! Why bytes are refused as a name.
ghost use Rattle.std.specs.Prelude.{◌≡◌};

use crate::memory::{Cause, NoMemory};
use std::alloc::AllocError;
use std::fmt;
use std::marker::Model;

/// Bytes that are not a section's name, or a failed allocation.
#[derive(Clone, Copy, Debug)]
pub struct NameError {
    cause: Cause,
}

impl Model for NameError {
    ghost use Rattle.std.specs.Prelude.{ℕ};
    ghost use Rattle.gitconf_text.specs.Cause.{number_of, cause_of};

    ghost Value = { ℕ };

    ghost view = { λ e. number_of 6 e.cause };

    ghost inverse = { λ n. record { cause = cause_of n } };
}

impl NameError {
    /// The error for bytes that are not such a name.
    pub(super) fn invalid() -> NameError
        ensures { result ≡ 6 }
    {
        NameError {
            cause: Cause::Refused,
        }
    }

    /// The error's number: 6, or 27 when memory ran out.
    pub fn number(&self) -> u8
        ensures { result ≡ self.now }
    {
        self.cause.number(6)
    }
}

impl fmt::Display for NameError {
    ghost use Rattle.std.specs.Prelude.{Some, codes};
    ghost use Rattle.gitconf_text.specs.Cause.{text_of, cause_of};

    ghost output = { λ e. Some (text_of (codes "Valid names consist of alphanumeric characters or dashes.") (cause_of e)) };

    fn fmt<W: fmt::Write>(&self, f: &mut fmt::Formatter<W>) -> fmt::Result {
        f.write_str(self.cause.text("Valid names consist of alphanumeric characters or dashes."))
    }
}

impl std::error::Error for NameError {}

impl From<AllocError> for NameError {
    ghost from_gives = { λ _ e. e ≡ 27 };

    fn from(_e: AllocError) -> NameError {
        NameError {
            cause: Cause::Memory,
        }
    }
}

impl From<NoMemory> for NameError {
    ghost from_gives = { λ _ e. e ≡ 27 };

    fn from(_e: NoMemory) -> NameError {
        NameError {
            cause: Cause::Memory,
        }
    }
}

/// Bytes that are not a value's name, or a failed allocation.
#[derive(Clone, Copy, Debug)]
pub struct ValueNameError {
    cause: Cause,
}

impl Model for ValueNameError {
    ghost use Rattle.std.specs.Prelude.{ℕ};
    ghost use Rattle.gitconf_text.specs.Cause.{number_of, cause_of};

    ghost Value = { ℕ };

    ghost view = { λ e. number_of 6 e.cause };

    ghost inverse = { λ n. record { cause = cause_of n } };
}

impl ValueNameError {
    /// The error for bytes that are not such a name.
    pub fn invalid() -> ValueNameError
        ensures { result ≡ 6 }
    {
        ValueNameError {
            cause: Cause::Refused,
        }
    }

    /// The error's number: 6, or 27 when memory ran out.
    pub fn number(&self) -> u8
        ensures { result ≡ self.now }
    {
        self.cause.number(6)
    }
}

impl fmt::Display for ValueNameError {
    ghost use Rattle.std.specs.Prelude.{Some, codes};
    ghost use Rattle.gitconf_text.specs.Cause.{text_of, cause_of};

    ghost output = { λ e. Some (text_of
        (codes "Valid value names consist of alphanumeric characters or dashes, starting with an alphabetic character.")
        (cause_of e)) };

    fn fmt<W: fmt::Write>(&self, f: &mut fmt::Formatter<W>) -> fmt::Result {
        f.write_str(
            self.cause.text(
                "Valid value names consist of alphanumeric characters or dashes, starting with an alphabetic character.",
            ),
        )
    }
}

impl std::error::Error for ValueNameError {}

impl From<AllocError> for ValueNameError {
    ghost from_gives = { λ _ e. e ≡ 27 };

    fn from(_e: AllocError) -> ValueNameError {
        ValueNameError {
            cause: Cause::Memory,
        }
    }
}

impl From<NoMemory> for ValueNameError {
    ghost from_gives = { λ _ e. e ≡ 27 };

    fn from(_e: NoMemory) -> ValueNameError {
        ValueNameError {
            cause: Cause::Memory,
        }
    }
}
