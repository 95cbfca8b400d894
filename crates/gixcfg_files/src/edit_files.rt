//! What an edit asks of open files beside what `Files` has.

use std::fs::TryLockError;
use std::io;
use std::os::unix::fs::fchown;
use std::rt::{Files, LibcRuntime};

/// The files of a system on which files are edited in place. An open file can be given away, whatever its path leads to then, and a process can
/// hold it.
pub trait EditFiles: Files {
    /// Gives an open file another owner or group.
    ///
    /// # Errors
    ///
    /// The process may not do that.
    fn give(&self, file: &Self::File, owner: Option<u32>, group: Option<u32>) -> io::Result<()>;

    /// Holds an open file until it is closed, as it is when the process ends, however it ends. Tells whether it does: not if it is held already.
    ///
    /// # Errors
    ///
    /// Files of that kind, or on that disk, can't be held.
    fn hold(&self, file: &Self::File) -> io::Result<bool>;
}

impl EditFiles for LibcRuntime {
    fn give(&self, file: &Self::File, owner: Option<u32>, group: Option<u32>) -> io::Result<()> {
        fchown(file, owner, group)
    }

    fn hold(&self, file: &Self::File) -> io::Result<bool> {
        match file.try_lock() {
            Ok(()) => Ok(true),
            Err(TryLockError::WouldBlock) => Ok(false),
            Err(TryLockError::Error(error)) => Err(error),
        }
    }
}
