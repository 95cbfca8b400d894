//! Why a file can't be read or edited.
ghost use Rattle.std.specs.Prelude.{◌≡◌};
ghost use Rattle.gixcfg_files.specs.Faults.{unread, unwritten};
ghost use Rattle.gixcfg_files.specs.declared.fault.Fault.TheVariants.{Memory};

use crate::lock::Lock;
use std::alloc::AllocError;
use std::io::ErrorKind;
use std::{fmt, io};

/// Why a file can't be read or edited.
#[derive(Drop)]
pub enum Fault {
    /// Its lock exists already: another process works on the file, or one was killed while it did.
    Locked(Lock),
    /// Other processes change it each time before it is written.
    Changing,
    /// What is at its path is no regular file.
    NoFile,
    /// Its path leads through too many symbolic links.
    Links,
    /// The working directory is in no repository.
    NoRepository,
    /// The user's home directory isn't known.
    NoHome,
    /// It can't be opened or read.
    Unread(io::Error),
    /// It can't be locked or written.
    Unwritten(io::Error),
    /// It has its new text, but that isn't written down to the disk.
    Unsynced(io::Error),
    /// It has its new text, but its lock at this path can't be removed.
    Unremoved(String, io::Error),
    /// Out of memory.
    Memory,
}

impl Fault {
    /// The fault of an error that was met while the file was read.
    pub fn unread(error: io::Error) -> Fault
        ensures { result ≡ unread error }
    {
        match error.kind() {
            ErrorKind::OutOfMemory => Fault::Memory,
            _ => Fault::Unread(error),
        }
    }

    /// The fault of an error that was met while the file was locked or written.
    pub fn unwritten(error: io::Error) -> Fault
        ensures { result ≡ unwritten error }
    {
        match error.kind() {
            ErrorKind::OutOfMemory => Fault::Memory,
            _ => Fault::Unwritten(error),
        }
    }
}

impl From<AllocError> for Fault {
    ghost from_gives = { λ _ fault. fault ≡ Memory };

    fn from(_: AllocError) -> Fault {
        Fault::Memory
    }
}

impl fmt::Display for Fault {
    fn fmt<W: fmt::Write>(&self, f: &mut fmt::Formatter<W>) -> fmt::Result {
        match self {
            Fault::Locked(lock) => write!(f, "{lock}"),
            Fault::Changing => f.write_str("it keeps changing"),
            Fault::NoFile => f.write_str("not a regular file"),
            Fault::Links => f.write_str("too many symbolic links"),
            Fault::NoRepository => f.write_str("not in a git directory"),
            Fault::NoHome => f.write_str("HOME isn't set"),
            Fault::Unread(error) => write!(f, "not read: {error}"),
            Fault::Unwritten(error) => write!(f, "not written: {error}"),
            Fault::Unsynced(error) => write!(
                f,
                "written, but a loss of power may undo that: {error}"
            ),
            Fault::Unremoved(lock, error) => {
                write!(f, "written, but {lock} can't be removed: {error}")
            }
            Fault::Memory => f.write_str("out of memory"),
        }
    }
}
