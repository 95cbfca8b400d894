//! The calls, on both folders.

use crate::call::{BEGIN, Call, DRAFT, FILE, LOCK, call_of};
use crate::in_memory::InMemory;
use crate::memory::Memory;
use gixcfg_files::{DiskFolder, EditFiles, Manner, Process, Spot, System, find_file};
use gixcfg_replacing::FolderCalls;
use std::alloc::{AllocGlobal, Global};
use std::io;
use std::io::{ErrorKind, Read, Write};

/// The file on the disk, in the folder that this runs in.
const SPOT: Spot<'static> = Spot {
    folder: ".",
    path: FILE,
    lock: LOCK,
};

/// More calls than there are.
const MANY: usize = 1_000_000_000;

/// Replays the calls of all lines.
///
/// # Errors
///
/// A line is no call; the file can't be looked at; a stream failed; out of memory.
pub fn replay<R: EditFiles + AllocGlobal, I: Read + Drop, W: Write + Drop>(
    rt: &R,
    mut input: I,
    mut out: W,
) -> io::Result<()> {
    let alloc = rt.alloc();
    let mut text = String::new(alloc);
    input.read_to_string(&mut text)?;
    let mut memory = InMemory {
        memory: Memory::new(alloc, MANY, false),
    };
    let Ok(process) = Process::this(rt) else {
        return Err(io::Error::from(ErrorKind::OutOfMemory));
    };
    let manner = Manner {
        is_synced: true,
        process: process.as_ref(),
    };
    for lines in text.split(BEGIN) {
        replay_edit(rt, lines, manner, &mut memory, &mut out)?;
    }
    Ok(())
}

/// Replays the calls of an edit.
fn replay_edit<R: EditFiles + AllocGlobal, W: Write>(
    rt: &R,
    lines: &str,
    manner: Manner<'_>,
    memory: &mut InMemory,
    out: &mut W,
) -> io::Result<()> {
    let alloc = rt.alloc();
    let mut calls = System::new(rt);
    let found = find_file(&mut calls, FILE)?;
    let mut disk = DiskFolder::new(calls, SPOT, found.as_ref(), manner);
    for line in lines.lines() {
        match call_of(line) {
            Some(Call::Given(name, text)) => give(memory, name, text)?,
            Some(call) => {
                tell(alloc, "real: ", &mut disk, call, out)?;
                tell(alloc, "memory: ", memory, call, out)?;
            }
            None => return Err(io::Error::from(ErrorKind::InvalidInput)),
        }
    }
    Ok(())
}

/// Puts a file into memory that is on the disk already.
fn give(memory: &mut InMemory, name: &str, text: &str) -> io::Result<()> {
    if memory.make(name)? {
        memory.write(name, text.as_bytes())?;
    }
    Ok(())
}

/// Makes a call, and writes what it answers and what a reader finds then.
fn tell<C: FolderCalls, W: Write>(
    alloc: Global,
    which: &str,
    folder: &mut C,
    call: Call<'_>,
    out: &mut W,
) -> io::Result<()> {
    let mut line = Vec::from_slice(alloc, which.as_bytes())?;
    line.extend_from_slice(answer(folder, call).as_bytes())?;
    add_found(&mut line, folder, FILE)?;
    add_found(&mut line, folder, LOCK)?;
    add_found(&mut line, folder, DRAFT)?;
    line.push(b'\n')?;
    out.write_all(&line)
}

/// Makes a call, and says what it answered.
fn answer<C: FolderCalls>(folder: &mut C, call: Call<'_>) -> &'static str {
    let did = match call {
        Call::Make(name) => return made(folder.make(name)),
        Call::ShareRights => folder.share_rights(FILE, DRAFT),
        Call::Write(text) => folder.write(DRAFT, text.as_bytes()),
        Call::Sync => folder.sync(DRAFT),
        Call::Rename => folder.rename(DRAFT, FILE),
        Call::Remove(name) => folder.remove(name),
        Call::SyncNames => folder.sync_names(),
        Call::Given(..) => Ok(()),
    };
    match did {
        Ok(()) => "done",
        Err(_) => "failed",
    }
}

/// What a file that was to be made answered.
fn made(did: io::Result<bool>) -> &'static str {
    match did {
        Ok(true) => "made",
        Ok(false) => "there",
        Err(_) => "failed",
    }
}

/// What the line of a process in its lock begins with.
const SIGNED: &[u8] = b"gixcfg ";

/// Adds what a reader finds at a name: a text in brackets, or a dash. A lock that says whose it is counts as empty.
fn add_found<C: FolderCalls>(line: &mut Vec<u8>, folder: &mut C, name: &str) -> io::Result<()> {
    match folder.read(name)? {
        Some(text) => {
            line.extend_from_slice(b" [")?;
            if !text.starts_with(SIGNED) {
                line.extend_from_slice(&text)?;
            }
            line.push(b']')?;
        }
        None => line.extend_from_slice(b" -")?,
    }
    Ok(())
}
