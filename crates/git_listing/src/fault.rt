//! Why nothing is listed.

use gix_config::NoMemory;
use gix_config::file::init::{from_env, from_git_dir, from_paths};
use gix_config::parse::span;
use gix_config::refusals::Refusal;
use std::alloc::{AllocError, AllocFailed};

/// Why nothing is listed.
#[derive(Clone, Copy)]
pub enum Fault {
    /// The program was called in a way that isn't understood.
    Usage,
    /// A load was refused, with that number.
    Refused(u8),
    /// Standard output failed.
    Output,
}

impl Fault {
    /// The exit status.
    pub fn status(&self) -> u8 {
        match self {
            Fault::Usage => 2,
            Fault::Refused(_) | Fault::Output => 1,
        }
    }

    /// The number of the refusal; 0 for another fault.
    pub fn number(&self) -> u8 {
        match self {
            Fault::Refused(number) => *number,
            Fault::Usage => 0,
            Fault::Output => 28,
        }
    }
}

impl From<NoMemory> for Fault {
    fn from(_: NoMemory) -> Fault {
        Fault::Refused(27)
    }
}

impl From<AllocError> for Fault {
    fn from(_: AllocError) -> Fault {
        Fault::Refused(27)
    }
}

impl<T> From<AllocFailed<T>> for Fault
where
    T: Drop,
{
    fn from(_: AllocFailed<T>) -> Fault {
        Fault::Refused(27)
    }
}

impl From<span::Error> for Fault {
    fn from(refusal: span::Error) -> Fault {
        Fault::Refused(refusal.number())
    }
}

impl From<from_paths::Error> for Fault {
    fn from(refusal: from_paths::Error) -> Fault {
        Fault::Refused(refusal.number())
    }
}

impl From<from_env::Error> for Fault {
    fn from(refusal: from_env::Error) -> Fault {
        Fault::Refused(refusal.number())
    }
}

impl From<from_git_dir::Error> for Fault {
    fn from(refusal: from_git_dir::Error) -> Fault {
        Fault::Refused(refusal.number())
    }
}
