//! Files on the disk.
ghost use Rattle.std.specs.Prelude.{◌≡◌, ◌++◌, take, IfOk, IfSome};
ghost use Rattle.gitconf_sources.specs.Faults.{fault_at, read_fault};

use crate::source::Trust;
use crate::{FileFault, Files, Stage};
use std::alloc::AllocGlobal;
use std::io::{ErrorKind, Read};
use std::{fs, rt};

/// How many bytes of a file are read at most: one more than the parser takes, so that a file that is too long is still
/// refused with E2, and so is one without an end, such as `/dev/zero`.
const MOST: u64 = 4294967296;

/// The files of the system, by their paths. A relative path begins at the working directory. It reports neither a table
/// nor a count, since other programs may change any file at any time.
#[derive(Drop)]
pub struct Disk<R: rt::Files + AllocGlobal + Drop> {
    runtime: R,
}

impl<R: rt::Files + AllocGlobal + Drop> Disk<R> {
    /// The files of this runtime: in a program, of the one that `main` is given.
    pub fn new(runtime: R) -> Disk<R> {
        Disk { runtime }
    }
}

impl<R: rt::Files + AllocGlobal + Drop> Files for Disk<R> {
    ghost use Rattle.std.specs.Prelude.{◌≡◌, None, Ok};
    ghost use Rattle.gitconf_sources.specs.declared.source.Trust.TheVariants.{Full};

    ghost table = { λ _. None };

    ghost failures = { λ _. None };

    /// Whether a regular file is at the path, even one that can't be opened. A symbolic link counts as what it leads
    /// to. A directory, a pipe, a device and what the system says nothing of don't count.
    fn is_file(&mut self, path: &str) -> bool {
        match fs::metadata(&self.runtime, path) {
            Ok(metadata) => metadata.is_file(),
            Err(_) => false,
        }
    }

    /// The bytes of what is at the path, even a pipe or a device, up to its end or to the first 4294967296 of them.
    ///
    /// # Errors
    ///
    /// A fault of opening if nothing is there (only then with `not_found`), if the rights are missing, for a path with a NUL, and for a
    /// directory: the system opens a directory and refuses to read it, and here that counts as not opened. A fault of reading if reading
    /// fails for another cause. A fault of memory when out of memory, here or in the system.
    fn read(&mut self, path: &str) -> Result<Vec<u8>, FileFault> {
        match fs::open(&self.runtime, path) {
            Ok(file) => all_of(file, Vec::new(self.runtime.alloc())),
            Err(error) => Err(fault_of(Stage::Open, error.kind())),
        }
    }

    /// Full trust for each path; the system is not asked.
    fn trust(&mut self, _path: &str) -> Result<Trust, FileFault>
        ensures { result ≡ Ok Full }
    {
        Ok(Trust::Full)
    }
}

/// Reads an open file, up to its end or to the most that is read.
fn all_of<F: Read + Drop>(file: F, mut bytes: Vec<u8>) -> Result<Vec<u8>, FileFault>
    ensures { IfOk result (λ all. IfSome (F.remaining file) (λ left. all.items ≡ bytes.items ++ take 4294967296 left)) }
{
    match file.take(MOST).read_to_end(&mut bytes) {
        Ok(_) => Ok(bytes),
        Err(error) => Err(unread(error.kind())),
    }
}

/// The fault of a system error of this kind while a file was read: a directory counts as one that can't be opened.
fn unread(kind: ErrorKind) -> FileFault
    ensures { result ≡ read_fault kind }
{
    match kind {
        ErrorKind::IsADirectory => fault_of(Stage::Open, kind),
        _ => fault_of(Stage::Read, kind),
    }
}

/// The fault of a system error of this kind at a stage. Running out of memory is a stage of its own, wherever it happens.
fn fault_of(stage: Stage, kind: ErrorKind) -> FileFault
    ensures { result ≡ fault_at stage kind }
{
    match kind {
        ErrorKind::NotFound => FileFault {
            stage,
            not_found: true,
        },
        ErrorKind::OutOfMemory => FileFault {
            stage: Stage::Memory,
            not_found: false,
        },
        _ => FileFault {
            stage,
            not_found: false,
        },
    }
}
