//! Running out of memory, which any call that needs memory may report.

use std::alloc::{AllocError, AllocFailed};
use thiserror::Error;

/// The call needed memory and was refused it.
#[derive(Clone, Copy, Debug, PartialEq, Eq, PartialOrd, Ord, Hash, Error)]
#[error("out of memory")]
pub struct NoMemory;

impl From<AllocError> for NoMemory {
    fn from(_e: AllocError) -> NoMemory {
        NoMemory
    }
}

impl<T: Drop> From<AllocFailed<T>> for NoMemory {
    fn from(_e: AllocFailed<T>) -> NoMemory {
        NoMemory
    }
}

/// What caused an error that has one number of its own: its own cause, or running out of memory.
#[derive(Clone, Copy, Debug, PartialEq, Eq, PartialOrd, Ord)]
pub(crate) enum Cause {
    Refused,
    Memory,
}

impl Cause {
    ghost use Rattle.std.specs.Prelude.{◌≡◌, codes};
    ghost use Rattle.gitconf_text.specs.Cause.{number_of, text_of};

    /// The number to show, where the error's own is `own`.
    pub(crate) fn number(self, own: u8) -> u8
        ensures { result ≡ number_of own self }
    {
        match self {
            Cause::Refused => own,
            Cause::Memory => 27,
        }
    }

    /// The text to show, where the error's own is `own`.
    pub(crate) fn text(self, own: &str) -> &str
        ensures { result.now ≡ text_of own.now self }
    {
        match self {
            Cause::Refused => own,
            Cause::Memory => "out of memory",
        }
    }
}
