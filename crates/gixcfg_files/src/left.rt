//! What edits that were killed left beside a file.

ghost use Rattle.std.specs.Prelude.{IfSome};
ghost use Rattle.gixcfg_files.specs.Acts.{Grows, Has};
ghost use Rattle.gixcfg_files.specs.Acts.Act.{Held};

use crate::calls::{EditCalls, Open};
use crate::fault::Fault;
use crate::lock::{Standing, standing_at};
use crate::made::is_at;
use crate::paths::{after, folder_of, name_of};
use crate::process::Process;
use crate::sight::{Sight, sight_of};
use gixcfg_replacing::draft_of;
use std::io::{ErrorKind, Write};

/// The paths of the temporary files that edits of a file have made. The file is the one at a path, and the edits are those since the system
/// was started. Reads the names of all that is in the directory; none where they can't be read.
///
/// # Errors
///
/// Out of memory.
pub fn drafts_beside<D: EditCalls>(
    calls: &mut D,
    path: &str,
    process: &Process,
) -> Result<Vec<String>, Fault> {
    let alloc = calls.alloc();
    let names = names_beside(calls, path)?;
    let tag = process.tag(alloc, "")?;
    let start = draft_of(alloc, name_of(path), &tag)?;
    let mut drafts = Vec::new(alloc);
    for name in names.split(|byte| *byte == 0) {
        if let Some(drawn) = after(name, &start) {
            let tag = process.tag(alloc, drawn)?;
            if drafts.push(draft_of(alloc, path, &tag)?).is_err() {
                return Err(Fault::Memory);
            }
        }
    }
    Ok(drafts)
}

/// The names in the directory of a file, each with a zero byte behind it.
fn names_beside<D: EditCalls>(calls: &mut D, path: &str) -> Result<Vec<u8>, Fault> {
    let folder = folder_of(calls.alloc(), path)?;
    match calls.names_in(folder.as_str()) {
        Ok(names) => Ok(names),
        Err(error) if error.kind() == ErrorKind::OutOfMemory => Err(Fault::Memory),
        Err(_) => Ok(Vec::new(calls.alloc())),
    }
}

/// Removes of these temporary files each that was left.
pub fn remove_left_drafts<D: EditCalls, E: Write>(calls: &mut D, drafts: &[String], err: &mut E)
    ensures { Grows (D.told calls.old) (D.told calls.new) }
{
    for path in drafts {
        remove_left_draft(calls, path, err);
    }
}

/// Removes the temporary file at a path if it was left, and tells that. Who makes a temporary file holds it while he is there, so it was
/// left if this process can hold it.
fn remove_left_draft<D: EditCalls, E: Write>(calls: &mut D, path: &str, err: &mut E)
    ensures { Grows (D.told calls.old) (D.told calls.new) }
{
    let Ok(Sight::File(file)) = sight_of(calls, path) else {
        return;
    };
    if let Ok(true) = calls.hold(&file) {
        if remove_held(calls, &file, path) {
            tell_removed(path, err);
        }
    }
}

/// Removes the lock at a path if it was left, and tells that.
///
/// # Errors
///
/// It can't be looked at; out of memory.
pub fn remove_left_lock<D: EditCalls, E: Write>(
    calls: &mut D,
    path: &str,
    err: &mut E,
) -> Result<(), Fault> {
    if let Standing::Left(file) = standing_at(calls, path)? {
        if remove_held(calls, &file, path) {
            tell_removed(path, err);
        }
    }
    Ok(())
}

/// Removes a file that was left at a path and that this process holds, so that no other edit removes it, if it is there still; and tells whether
/// it did. What can't be removed stays.
fn remove_held<D: EditCalls>(calls: &mut D, file: &Open<D::File>, path: &str) -> bool
    requires { IfSome (D.told calls.old) (Has (Held file.now.original.identity)) }
    ensures { Grows (D.told calls.old) (D.told calls.new) }
{
    match is_at(calls, file, path) {
        Ok(true) => calls.remove(path).is_ok(),
        _ => false,
    }
}

/// Tells that a file was removed.
fn tell_removed<E: Write>(path: &str, err: &mut E) {
    let _ = writeln!(
        err,
        "gixcfg: {path}: removed, left by an edit that was stopped"
    );
}
