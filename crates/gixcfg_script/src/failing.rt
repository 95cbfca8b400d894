//! An edit of which each file operation fails in turn.

use crate::machine::{Machine, State};
use crate::world::{Done, called, machine};
use gix_config::NoMemory;
use std::alloc::Global;
use std::test::Fail;

static BEFORE: &str = "[a]\n\tk = 1\n";

static AFTER: &str = "[a]\n\tk = 2\n";

/// The lock's other name.
const BESIDE: &str = "m.gixcfg-3b6f0c52-91d4-4e7a-c0ffee00-1234-4abc.lock";

/// What is told where the lock can't be removed.
static LEFT: &str =
    "gixcfg: m: written, but m.lock can't be removed: Permission denied (os error 13)\n";

/// What is told where the directory can't be synced.
static UNSYNCED: &str =
    "gixcfg: m: written, but a loss of power may undo that: Permission denied (os error 13)\n";

/// How many file operations an edit can't do without at the least: a link asked for, the lock looked for, the file looked at, opened,
/// looked at and read; the lock looked for again; the temporary file made, looked at, given the rights, written and synced; the lock's
/// other name made and looked at; the file looked at, opened, looked at and read again; the temporary file looked for and renamed.
const LEAST: usize = 20;

/// How many it does without: the number of the process asked for; what was drawn at the start opened and read; the directory opened, three
/// names and their end read; what is drawn opened and read; the temporary file held and looked for; the lock held, looked for, written,
/// given its name, and its other name looked for; the lock looked for before it is removed.
const SPARED: usize = 18;

/// How many come when the file has its new text: the directory opened and synced.
const AFTER_ALL: usize = 2;

/// More than an edit has.
const MOST: usize = 64;

/// What is there after an edit.
#[derive(Clone, Copy, PartialEq, Eq)]
enum Left {
    /// The old text, and nothing beside it.
    Old,
    /// The new text, and nothing beside it.
    New,
    /// The new text, and the lock.
    NewLocked,
    /// The new text, and the lock's other name, which the next edit removes.
    NewBeside,
    /// Something else.
    Other,
}

/// What is on a machine that had so many things before.
fn what_is_left(state: &State, count: usize) -> Left {
    let Ok(tree) = (Machine { state }).tree() else {
        return Left::Other;
    };
    let is_locked = tree.file("m.lock").is_some();
    let is_beside = tree.file(BESIDE).is_some();
    match tree.file("m") {
        Some((text, _)) if text == BEFORE.as_bytes() && tree.count() == count => Left::Old,
        Some((text, _)) if text == AFTER.as_bytes() && tree.count() == count => Left::New,
        Some((text, _)) if text == AFTER.as_bytes() && is_locked => Left::NewLocked,
        Some((text, _)) if text == AFTER.as_bytes() && is_beside => Left::NewBeside,
        _ => Left::Other,
    }
}

/// How many things are on a machine.
fn count_of(state: &State) -> usize {
    match (Machine { state }).tree() {
        Ok(tree) => tree.count(),
        Err(_) => 0,
    }
}

/// How an edit ended of which an operation was to fail.
#[derive(Clone, Copy, PartialEq, Eq)]
enum End {
    /// The operation came, and the file is as it was.
    Refused,
    /// The operation came, and the edit is done without it.
    Spared,
    /// The operation was to remove the lock, and the edit is done.
    Locked,
    /// The operation was to remove the lock's other name, and the edit is done.
    Beside,
    /// The edit is done, and it is told that it isn't written down.
    Unsynced,
    /// The operation did not come, and the edit is done.
    Done,
    /// Something else.
    Wrong,
}

/// How an edit ended.
fn end_of(has_failed: bool, done: &Done, left: Left) -> End {
    match (has_failed, done.status, left) {
        (true, 4, Left::Old) => End::Refused,
        (true, 0, Left::New) if done.is(0, "", "") => End::Spared,
        (true, 4, Left::New) if done.is(4, "", UNSYNCED) => End::Unsynced,
        (true, 4, Left::NewLocked) if done.is(4, "", LEFT) => End::Locked,
        (true, 0, Left::NewBeside) if done.is(0, "", "") => End::Beside,
        (false, 0, Left::New) if done.is(0, "", "") => End::Done,
        _ => End::Wrong,
    }
}

/// Does an edit of which the operation after so many others fails.
fn edited(alloc: Global, number: usize) -> Result<End, NoMemory> {
    let state = machine(alloc, "/r/sub/m", Some(BEFORE))?;
    let count = count_of(&state);
    state.fail_after(number);
    let done = called(&state, "set -f m a.k 2", "")?;
    Ok(end_of(state.has_failed(), &done, what_is_left(&state, count)))
}

/// How many edits ended in which way.
#[derive(Clone, Copy)]
struct Counts {
    refused: usize,
    spared: usize,
    locked: usize,
    beside: usize,
    unsynced: usize,
}

/// Lets the operations of an edit fail one after the other, until one is done; none if one ended otherwise.
fn count_all(alloc: Global) -> Result<Option<Counts>, NoMemory> {
    let mut counts = Counts {
        refused: 0,
        spared: 0,
        locked: 0,
        beside: 0,
        unsynced: 0,
    };
    for number in 0..MOST {
        match edited(alloc, number)? {
            End::Refused => counts.refused = counts.refused.saturating_add(1),
            End::Spared => counts.spared = counts.spared.saturating_add(1),
            End::Locked => counts.locked = counts.locked.saturating_add(1),
            End::Beside => counts.beside = counts.beside.saturating_add(1),
            End::Unsynced => counts.unsynced = counts.unsynced.saturating_add(1),
            End::Done => return Ok(Some(counts)),
            End::Wrong => return Ok(None),
        }
    }
    Ok(None)
}

/// Whichever operation fails, the file is the old one or the new one as is reported, and nothing is left beside it but a lock of which
/// that is told, or its other name.
#[test]
fn failed_operation_leaves_the_file(rt: HostRuntime) -> Result<(), Fail> {
    let counts = count_all(rt.alloc())?;
    assert!(rt;
        counts.is_some_and(|counts| counts.refused >= LEAST
            && counts.spared == SPARED
            && counts.locked == 1
            && counts.beside == 1
            && counts.unsynced == AFTER_ALL)
    );
    Ok(())
}
