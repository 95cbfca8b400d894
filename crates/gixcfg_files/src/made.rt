//! A file that an edit makes: the temporary file with a file's new text, or its lock.

ghost use Rattle.std.specs.Prelude.{◌≡◌, IfSome, IfOk, true};
ghost use Rattle.gixcfg_files.specs.Acts.{LooksFor, Grows, Has, IsOurs, MayGive, MayRemove};
ghost use Rattle.gixcfg_files.specs.Acts.Act.{Held};

use crate::calls::{EditCalls, Open};
use crate::rights::Rights;
use std::io;
use std::io::ErrorKind;

/// An open file that an edit made.
#[derive(Drop)]
pub struct Made<F: Drop> {
    pub file: Open<F>,
    /// The path at which it was put.
    pub path: String,
}

/// Whether a temporary file has the owner and the group of the edited file.
#[derive(Clone, Copy, PartialEq, Eq)]
pub enum Owner {
    /// It has both.
    Kept,
    /// The process may not give it away, or not to that group.
    Lost,
}

/// Whether an open file is what is at a path. Somebody else may have taken it away, and put another file there.
///
/// # Errors
///
/// What is there can't be looked at.
pub fn is_at<D: EditCalls>(calls: &mut D, file: &Open<D::File>, path: &str) -> io::Result<bool>
    ensures looks { LooksFor (D.told calls.old) (D.told calls.new) path.now file.now.original.identity result }
{
    match calls.look(path)? {
        Some(look) => Ok(look.original.identity == file.original().identity),
        None => Ok(false),
    }
}

/// Removes a file that was made, if it is there still. It is also removed if that can't be found out.
///
/// # Errors
///
/// It can't be removed.
pub fn remove_made<D: EditCalls>(calls: &mut D, made: &Made<D::File>) -> io::Result<()>
    requires { IfSome (D.told calls.old) (IsOurs made.now) }
    ensures { Grows (D.told calls.old) (D.told calls.new) }
{
    match is_at(calls, &made.file, &made.path) {
        Ok(false) => Ok(()),
        Ok(true) => remove_there(calls, &made.path),
        Err(_) => remove_there(calls, &made.path),
    }
}

/// Removes what is at a path, if it is there still.
fn remove_there<D: EditCalls>(calls: &mut D, path: &str) -> io::Result<()>
    requires { IfSome (D.told calls.old) (MayRemove path.now) }
    ensures { Grows (D.told calls.old) (D.told calls.new) }
{
    match calls.remove(path) {
        Err(error) if error.kind() == ErrorKind::NotFound => Ok(()),
        done => done,
    }
}

/// Holds a file that was made, so nobody takes it for one that was left. Tells whether it is held, and where it was made: before it was
/// held, another edit may have begun to remove it.
pub fn is_kept<D: EditCalls>(calls: &mut D, made: &Made<D::File>) -> bool
    ensures held { result ≡ true → IfSome (D.told calls.new) (Has (Held made.now.file.original.identity)) }
    ensures grows { Grows (D.told calls.old) (D.told calls.new) }
{
    match calls.hold(&made.file) {
        Ok(true) => matches!(is_at(calls, &made.file, &made.path), Ok(true)),
        _ => false,
    }
}

/// Gives an empty temporary file what the edited file has: the owner and the group, as far as the process may, and the mode. Of the mode it
/// gets only who may read, write and run it where it is somebody else's.
///
/// # Errors
///
/// The mode can't be given.
pub fn share<D: EditCalls>(
    calls: &mut D,
    draft: &Open<D::File>,
    rights: Rights,
) -> io::Result<Owner>
    requires { IfSome (D.told calls.old) (MayGive draft.now.original.identity rights) }
    ensures { Grows (D.told calls.old) (D.told calls.new) }
{
    let owner = share_owner(calls, draft, rights);
    calls.allow(draft, rights, owner == Owner::Kept)?;
    Ok(owner)
}

/// Gives a temporary file a group, and then an owner, if it has others.
fn share_owner<D: EditCalls>(calls: &mut D, draft: &Open<D::File>, rights: Rights) -> Owner
    requires { IfSome (D.told calls.old) (MayGive draft.now.original.identity rights) }
    ensures { Grows (D.told calls.old) (D.told calls.new) }
{
    let has_group = shares_group(calls, draft, rights);
    let has_owner = shares_owner(calls, draft, rights);
    if has_group && has_owner {
        Owner::Kept
    } else {
        Owner::Lost
    }
}

/// Gives a temporary file a group, if it has another, and tells whether it has it.
fn shares_group<D: EditCalls>(calls: &mut D, draft: &Open<D::File>, rights: Rights) -> bool
    requires { IfSome (D.told calls.old) (MayGive draft.now.original.identity rights) }
    ensures { Grows (D.told calls.old) (D.told calls.new) }
{
    draft.original().rights.group == rights.group || calls.give_group(draft, rights).is_ok()
}

/// Gives a temporary file an owner, if it has another, and tells whether it has it.
fn shares_owner<D: EditCalls>(calls: &mut D, draft: &Open<D::File>, rights: Rights) -> bool
    requires { IfSome (D.told calls.old) (MayGive draft.now.original.identity rights) }
    ensures { Grows (D.told calls.old) (D.told calls.new) }
{
    draft.original().rights.owner == rights.owner || calls.give_owner(draft, rights).is_ok()
}
