//! What a line is answered.

use crate::session::Done;
use crate::tree::Tree;
use gix_config::NoMemory;
use script_words::answers::{put_bytes, put_number};
use script_words::words::NotUnderstood;
use std::alloc::{AllocError, AllocFailed, Global};

/// Why a line isn't done.
#[derive(Clone, Copy)]
pub enum Refusal {
    /// There is no such command.
    Unknown,
    /// The words after the command are others than it takes.
    NotUnderstood,
    /// Out of memory, which ends the script.
    Memory,
}

impl From<NotUnderstood> for Refusal {
    fn from(_: NotUnderstood) -> Refusal {
        Refusal::NotUnderstood
    }
}

impl From<NoMemory> for Refusal {
    fn from(_: NoMemory) -> Refusal {
        Refusal::Memory
    }
}

impl From<AllocError> for Refusal {
    fn from(_: AllocError) -> Refusal {
        Refusal::Memory
    }
}

impl<T> From<AllocFailed<T>> for Refusal
where
    T: Drop,
{
    fn from(_: AllocFailed<T>) -> Refusal {
        Refusal::Memory
    }
}

/// The line of an answer: that of a call, or whether another command is done.
pub fn line_of(answer: &Result<Option<String>, Refusal>) -> &str {
    match answer {
        Ok(Some(line)) => line,
        Ok(None) => "ok\n",
        Err(Refusal::Unknown) => "unknown\n",
        Err(_) => "refused\n",
    }
}

/// How a call ended, with the files that are there then.
pub fn line_of_call(alloc: Global, done: &Done, tree: &Tree) -> Result<String, AllocError> {
    let mut line = String::from_str(alloc, "ok")?;
    put_number(&mut line, usize::from(done.status))?;
    put_bytes(alloc, &mut line, done.out.text())?;
    put_bytes(alloc, &mut line, done.err.text())?;
    put_number(&mut line, done.read)?;
    put_files(alloc, &mut line, tree)?;
    line.push('\n')?;
    Ok(line)
}

/// Each file: its path, its text and its rights.
fn put_files(alloc: Global, line: &mut String, tree: &Tree) -> Result<(), AllocError> {
    for place in 0..tree.count() {
        if let Some((path, text, mode)) = tree.file_at(place) {
            put_bytes(alloc, line, path.as_bytes())?;
            put_bytes(alloc, line, text)?;
            put_number(line, mode as usize)?;
        }
    }
    Ok(())
}
