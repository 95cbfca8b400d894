//! Edits of a folder in memory: done, refused, with a call that fails, and cut off.

use crate::crash::Chance;
use crate::memory::Memory;
use gixcfg_replacing::{Edited, Ended, Folder, draft_of, lock_of, replace};
use std::alloc::{AllocError, Global};
use std::io;
use std::io::ErrorKind;
use std::test::Fail;

/// The file that is edited, and the number of the process.
const FILE: &str = "config";

const NUMBER: &str = "77";

/// How many edits are cut off.
const CUTS: usize = 100_000;

/// How many calls make the file.
const BEFORE: usize = 4;

/// More calls than an edit makes.
const MANY: usize = 20;

/// Makes a file with a text.
fn put(folder: &mut Memory, name: &str, text: &[u8]) -> io::Result<()> {
    if !folder.make(name)? {
        return Err(io::Error::from(ErrorKind::AlreadyExists));
    }
    folder.write(name, text)
}

/// A folder with the file, written down, of which a call of the edit fails.
fn settled(alloc: Global, text: &[u8], until: usize, halfway: bool) -> io::Result<Memory> {
    let mut folder = Memory::new(alloc, until.saturating_add(BEFORE), halfway);
    put(&mut folder, FILE, text)?;
    folder.sync(FILE)?;
    folder.sync_names()?;
    Ok(folder)
}

/// An edit of the file.
fn edit(
    alloc: Global,
    folder: &mut Memory,
    before: &[u8],
    text: &[u8],
) -> Result<Edited, AllocError> {
    replace(alloc, folder, FILE, NUMBER, Some(before), text)
}

/// Whether the file has a text.
fn has(folder: &mut Memory, text: &[u8]) -> io::Result<bool> {
    Ok(folder.read(FILE)?.as_deref() == Some(text))
}

/// Whether nothing lies beside the file.
fn is_clean(alloc: Global, folder: &mut Memory) -> io::Result<bool> {
    let draft = draft_of(alloc, FILE, NUMBER)?;
    let lock = lock_of(alloc, FILE)?;
    Ok(folder.read(draft.as_str())?.is_none() && folder.read(lock.as_str())?.is_none())
}

/// Whether an edit is done, and what a crash leaves then is the new text.
fn is_done(alloc: Global) -> io::Result<bool> {
    let mut folder = settled(alloc, b"old", MANY, false)?;
    let edited = edit(alloc, &mut folder, b"old", b"new")?;
    let left = folder.after_crash(0, FILE, &mut Chance::new(1))?;
    Ok(
        matches!(edited.ended, Ended::Done)
            && has(&mut folder, b"new")?
            && is_clean(alloc, &mut folder)?
            && left.as_deref() == Some(b"new"),
    )
}

/// Whether a file is made that wasn't there.
fn is_made(alloc: Global) -> io::Result<bool> {
    let mut folder = Memory::new(alloc, MANY, false);
    let edited = replace(alloc, &mut folder, FILE, NUMBER, None, b"new")?;
    Ok(matches!(edited.ended, Ended::Done) && has(&mut folder, b"new")?)
}

/// Whether an edit of another text than the one that is there is none.
fn is_changed(alloc: Global) -> io::Result<bool> {
    let mut folder = settled(alloc, b"other", MANY, false)?;
    let edited = edit(alloc, &mut folder, b"old", b"new")?;
    Ok(
        matches!(edited.ended, Ended::Changed)
            && has(&mut folder, b"other")?
            && is_clean(alloc, &mut folder)?,
    )
}

/// Whether an edit leaves what somebody else has at this name.
fn leaves(alloc: Global, name: &str) -> io::Result<Ended> {
    let mut folder = settled(alloc, b"old", MANY, false)?;
    put(&mut folder, name, b"theirs")?;
    let edited = edit(alloc, &mut folder, b"old", b"new")?;
    if folder.read(name)?.as_deref() == Some(b"theirs") && has(&mut folder, b"old")? {
        Ok(edited.ended)
    } else {
        Ok(Ended::Done)
    }
}

/// Whether an edit of which a call fails leaves the old text or the new one, as it tells, and nothing beside it but what it couldn't remove.
fn fails_well(alloc: Global, until: usize, halfway: bool) -> io::Result<bool> {
    let mut folder = settled(alloc, b"old", until, halfway)?;
    let edited = edit(alloc, &mut folder, b"old", b"new")?;
    folder.mend();
    let is_old = has(&mut folder, b"old")?;
    let is_new = has(&mut folder, b"new")?;
    let is_as_told = match &edited.ended {
        Ended::Done | Ended::Unsynced(_) => is_new,
        Ended::Unsure(_) => is_old || is_new,
        _ => is_old,
    };
    let is_left = edited.draft.is_some() || edited.lock.is_some();
    Ok(is_as_told && (is_left || is_clean(alloc, &mut folder)?))
}

/// A text by chance.
fn text_of(alloc: Global, chance: &mut Chance) -> Result<Vec<u8>, AllocError> {
    let mut text = Vec::new(alloc);
    for _ in 0..chance.below(6) {
        match text.push(if chance.is_so() { b'a' } else { b'b' }) {
            Ok(()) => {}
            Err(_) => return Err(AllocError),
        }
    }
    Ok(text)
}

/// What a crash left of an edit that was cut off.
#[derive(Clone, Copy, PartialEq, Eq)]
enum Left {
    Old,
    New,
    Wrong,
}

/// Cuts an edit off after one of its calls, of which one may fail.
fn cut(alloc: Global, chance: &mut Chance) -> io::Result<Left> {
    let before = text_of(alloc, chance)?;
    let text = text_of(alloc, chance)?;
    let mut folder = settled(alloc, &before, chance.below(MANY), chance.is_so())?;
    let start = folder.count();
    let edited = edit(alloc, &mut folder, &before, &text)?;
    let last = chance.below(folder.count().saturating_sub(start).saturating_add(1));
    let left = folder.after_crash(last, FILE, chance)?;
    let is_done = last == 0 && matches!(edited.ended, Ended::Done);
    Ok(if left.as_deref() == Some(text.as_slice()) {
        Left::New
    } else if left.as_deref() == Some(before.as_slice()) && !is_done {
        Left::Old
    } else {
        Left::Wrong
    })
}

/// Whether a crash may tear what isn't synced, and lose a name that isn't written down.
fn tears_and_loses(alloc: Global) -> io::Result<bool> {
    let mut chance = Chance::new(3);
    let mut folder = Memory::new(alloc, MANY, false);
    put(&mut folder, FILE, b"text")?;
    let mut is_torn = false;
    let mut is_lost = false;
    for _ in 0..100 {
        match folder.after_crash(0, FILE, &mut chance)? {
            None => is_lost = true,
            Some(left) => is_torn = is_torn || left.as_slice() != b"text".as_slice(),
        }
    }
    Ok(is_torn && is_lost)
}

#[test]
fn an_edit_is_done(rt: HostRuntime) -> Result<(), Fail> {
    assert!(rt; is_done(rt.alloc())?);
    Ok(())
}

#[test]
fn a_file_is_made(rt: HostRuntime) -> Result<(), Fail> {
    assert!(rt; is_made(rt.alloc())?);
    Ok(())
}

#[test]
fn a_text_that_somebody_changed_stays(rt: HostRuntime) -> Result<(), Fail> {
    assert!(rt; is_changed(rt.alloc())?);
    Ok(())
}

#[test]
fn a_lock_of_somebody_else_stays(rt: HostRuntime) -> Result<(), Fail> {
    assert!(rt; matches!(leaves(rt.alloc(), "config.lock")?, Ended::Locked));
    Ok(())
}

#[test]
fn a_draft_of_somebody_else_stays(rt: HostRuntime) -> Result<(), Fail> {
    assert!(rt; matches!(leaves(rt.alloc(), "config.gixcfg-77")?, Ended::Drafted));
    Ok(())
}

#[test]
fn each_call_may_fail(rt: HostRuntime) -> Result<(), Fail> {
    for until in 0..MANY {
        assert!(rt;
            fails_well(rt.alloc(), until, false)? && fails_well(rt.alloc(), until, true)?,
            "after {until} calls"
        );
    }
    Ok(())
}

#[test]
fn a_crash_tears_and_loses(rt: HostRuntime) -> Result<(), Fail> {
    assert!(rt; tears_and_loses(rt.alloc())?);
    Ok(())
}

#[test]
fn edits_are_cut_off(rt: HostRuntime) -> Result<(), Fail> {
    let mut chance = Chance::new(20261128);
    let mut old = 0usize;
    let mut new = 0usize;
    for number in 0..CUTS {
        let left = cut(rt.alloc(), &mut chance)?;
        assert!(rt; left != Left::Wrong, "edit {number}");
        if left == Left::Old {
            old = old.saturating_add(1);
        } else {
            new = new.saturating_add(1);
        }
    }
    assert!(rt; old > CUTS / 4 && new > CUTS / 8, "{old} old, {new} new");
    Ok(())
}
