//! The lock of a file that stands already.

ghost use Rattle.std.specs.Prelude.{IfOk};
ghost use Rattle.gixcfg_files.specs.Acts.{HoldsLeft};

use crate::calls::{EditCalls, Open};
use crate::fault::Fault;
use crate::paths::{is_number, line_of};
use crate::sight::{Sight, sight_of};
use std::alloc::{AllocError, Global};
use std::fmt;
use std::io::ErrorKind;

/// What the line of a process in its lock begins with.
const START: &str = "gixcfg ";

/// How many bytes such a line has at most.
const LENGTH: usize = 64;

/// A lock that somebody else has.
#[derive(Drop)]
pub struct Lock {
    path: String,
    holder: Holder,
}

/// Who has a lock.
#[derive(Drop)]
pub enum Holder {
    /// It doesn't say, as git's, or can't be read.
    Unknown,
    /// The process of this number.
    Running(String),
    /// A process of this number on another machine, or on this one before it was started.
    Elsewhere(String),
}

impl Lock {
    /// The lock at a path, of which nothing is known.
    ///
    /// # Errors
    ///
    /// Out of memory.
    pub fn unknown(alloc: Global, path: &str) -> Result<Lock, AllocError> {
        Lock::of(alloc, path, Holder::Unknown)
    }

    /// The lock at a path that somebody has.
    fn of(alloc: Global, path: &str, holder: Holder) -> Result<Lock, AllocError> {
        let path = String::from_str(alloc, path)?;
        Ok(Lock { path, holder })
    }
}

impl fmt::Display for Lock {
    fn fmt<W: fmt::Write>(&self, f: &mut fmt::Formatter<W>) -> fmt::Result {
        let path = &self.path;
        match &self.holder {
            Holder::Unknown => write!(
                f,
                "{path} exists: another process may be editing the file; if none is, remove it"
            ),
            Holder::Running(number) => {
                write!(f, "{path} exists: process {number} is editing the file")
            }
            Holder::Elsewhere(number) => write!(
                f,
                "{path} exists: process {number} made it, on another machine or before this one was started; if it has ended, remove it"
            ),
        }
    }
}

/// What stands at the path of a lock.
#[derive(Drop)]
pub enum Standing<F: Drop> {
    /// Nothing.
    Nothing,
    /// A lock whose process has ended without removing it. It is held by this process from now on.
    Left(Open<F>),
    /// A lock that somebody else has.
    Taken(Holder),
}

/// Tests that no lock is at a path, or one that was left.
///
/// # Errors
///
/// Somebody else has it; it can't be looked at; out of memory.
pub fn check_free<D: EditCalls>(calls: &mut D, path: &str) -> Result<(), Fault> {
    match standing_at(calls, path)? {
        Standing::Taken(holder) => Err(Fault::Locked(Lock::of(calls.alloc(), path, holder)?)),
        _ => Ok(()),
    }
}

/// What stands at the path of a lock.
///
/// # Errors
///
/// It can't be looked at; out of memory.
pub fn standing_at<D: EditCalls>(calls: &mut D, path: &str) -> Result<Standing<D::File>, Fault>
    ensures { IfOk result (HoldsLeft (D.told calls.new)) }
{
    match calls.look(path) {
        Ok(Some(_)) => {}
        Ok(None) => return Ok(Standing::Nothing),
        Err(error) => return Err(Fault::unwritten(error)),
    }
    match sight_of(calls, path) {
        Ok(Sight::File(file)) => standing_of(calls, file),
        Ok(Sight::Nothing) => Ok(Standing::Nothing),
        Err(error) if error.kind() == ErrorKind::OutOfMemory => Err(Fault::Memory),
        _ => Ok(Standing::Taken(Holder::Unknown)),
    }
}

/// What a lock is that was found, by what it says.
fn standing_of<D: EditCalls>(
    calls: &mut D,
    mut file: Open<D::File>,
) -> Result<Standing<D::File>, Fault>
    ensures { IfOk result (HoldsLeft (D.told calls.new)) }
{
    let mut part = [0u8; LENGTH];
    let Ok(count) = calls.read_start(&mut file, &mut part) else {
        return Ok(Standing::Taken(Holder::Unknown));
    };
    let Some((number, boot)) = maker_in(part.split_at(count.min(LENGTH)).0) else {
        return Ok(Standing::Taken(Holder::Unknown));
    };
    let number = String::from_str(calls.alloc(), number)?;
    match calls.process()? {
        Some(own) if own.boot.as_str() == boot => Ok(of_this_boot(calls, file, number)),
        _ => Ok(Standing::Taken(Holder::Elsewhere(number))),
    }
}

/// What a lock is that a process of this number has made since the system was started: that one held it before it said so, so it has ended if
/// this process can hold it.
fn of_this_boot<D: EditCalls>(
    calls: &mut D,
    file: Open<D::File>,
    number: String,
) -> Standing<D::File>
    ensures { HoldsLeft (D.told calls.new) result }
{
    match calls.hold(&file) {
        Ok(true) => Standing::Left(file),
        Ok(false) => Standing::Taken(Holder::Running(number)),
        Err(_) => Standing::Taken(Holder::Unknown),
    }
}

/// Which process made a lock of this text, and since which start of its system, if it says so.
fn maker_in(text: &[u8]) -> Option<(&str, &str)> {
    match line_of(text, START)?.split_once(' ') {
        Some((number, boot)) if is_number(number) => Some((number, boot)),
        _ => None,
    }
}
