//! Which process edits, as the system tells it in `/proc`, and what that draws.
ghost use Rattle.std.specs.Prelude.{◌≡◌, ◌++◌, IfOk, codes, string_bytes};

use crate::fault::Fault;
use crate::paths::is_number;
use std::alloc::{AllocError, AllocGlobal, Global};
use std::io::{ErrorKind, Read};
use std::path::AsPath;
use std::rt::Files;
use std::{fs, io};

/// Where the system tells what it drew when it was started: no other machine has that, nor has this one after another start.
const BOOT: &str = "/proc/sys/kernel/random/boot_id";

/// Where the system draws anew at each look.
const DRAWN: &str = "/proc/sys/kernel/random/uuid";

/// How many characters of what was drawn are taken, of which 60 bits are chance.
const LENGTH: usize = 18;

/// The process that edits.
#[derive(Drop)]
pub struct Process {
    /// Its number, in decimal. Others have it elsewhere, as in another container; so it is for people alone.
    pub number: String,
    /// What the system drew when it was started.
    pub boot: String,
}

impl Process {
    /// This process; none where the system doesn't tell of it.
    ///
    /// # Errors
    ///
    /// Out of memory.
    pub fn this<R: Files + AllocGlobal>(files: &R) -> Result<Option<Process>, Fault> {
        match (own_number(files)?, chance_at(files, BOOT)?) {
            (Some(number), Some(boot)) => Ok(Some(Process { number, boot })),
            _ => Ok(None),
        }
    }

    /// What its temporary files are called by, with what was drawn for one. Nobody else's are called by it.
    ///
    /// # Errors
    ///
    /// Out of memory.
    pub fn tag(&self, alloc: Global, drawn: &str) -> Result<String, AllocError> {
        let boot = &self.boot;
        format!(in alloc; "{boot}-{drawn}")
    }

    /// The line that a lock has of its process.
    ///
    /// # Errors
    ///
    /// Out of memory.
    pub fn line(&self, alloc: Global) -> Result<String, AllocError> {
        line_of(alloc, &self.number, &self.boot)
    }
}

/// The line of a process of this number since this start of the system.
fn line_of(alloc: Global, number: &str, boot: &str) -> Result<String, AllocError>
    ensures { IfOk result (λ line. string_bytes line ≡ codes "gixcfg " ++ (number.now ++ (codes " " ++ (boot.now ++ codes "\n")))) }
{
    format!(in alloc; "gixcfg {number} {boot}\n")
}

/// The number of this process, in decimal; none where the system doesn't tell it.
fn own_number<R: Files + AllocGlobal>(files: &R) -> Result<Option<String>, Fault> {
    match files.read_link(files.alloc(), "/proc/self") {
        Ok(number) if is_number(number.path_text()) => Ok(Some(number.into_string())),
        Err(error) if error.kind() == ErrorKind::OutOfMemory => Err(Fault::Memory),
        _ => Ok(None),
    }
}

/// What the system draws, which nobody else can know; none where it doesn't.
///
/// # Errors
///
/// Out of memory.
pub fn drawn<R: Files + AllocGlobal>(files: &R) -> Result<Option<String>, Fault> {
    chance_at(files, DRAWN)
}

/// The first characters of what the system drew and tells at a path.
fn chance_at<R: Files + AllocGlobal>(files: &R, path: &str) -> Result<Option<String>, Fault> {
    let mut bytes = [0u8; LENGTH];
    match fill(files, path, &mut bytes) {
        Ok(()) => match str::from_utf8(&bytes) {
            Ok(text) => Ok(Some(String::from_str(files.alloc(), text)?)),
            Err(_) => Ok(None),
        },
        Err(error) if error.kind() == ErrorKind::OutOfMemory => Err(Fault::Memory),
        Err(_) => Ok(None),
    }
}

/// Reads the first bytes of the file at a path.
fn fill<R: Files>(files: &R, path: &str, bytes: &mut [u8]) -> io::Result<()> {
    fs::open(files, path)?.read_exact(bytes)
}
