//! A file that is edited in place.
ghost use Rattle.std.specs.Prelude.{◌≡◌, ◌≢◌, IfOk, IfSome, option_map, string_bytes};
ghost use Rattle.gixcfg_replacing.specs.Disk.{lock_of as lock_of_lem};
ghost use Rattle.gixcfg_replacing.specs.declared.ended.Ended.TheVariants as ends;
ghost use Rattle.gixcfg_files.specs.Acts.{Grows};
ghost use Rattle.gixcfg_files.specs.Ends.{TellsAs};
ghost use Rattle.gixcfg_files.specs.Replacing.{IsFound, IsReplaced, known};
ghost use Rattle.gixcfg_files.specs.declared.place.Replaced.TheVariants.{Done};

use crate::calls::{EditCalls, Found};
use crate::fault::Fault;
use crate::folder::{DiskFolder, Manner, Spot};
use crate::left::{drafts_beside, remove_left_drafts, remove_left_lock};
use crate::links::end_of_links;
use crate::lock::{Lock, check_free};
use crate::made::Owner;
use crate::paths::folder_of;
use crate::process::Process;
use crate::sight::{Sight, found_in, sight_of};
use gixcfg_replacing::{Ended, LoggedFolder, draft_of, lock_of, replace};
use std::alloc::{AllocGlobal, Global};
use std::io;
use std::io::{ErrorKind, Write};
use std::rt::Files;

/// How often a path is followed at most where others change what is there meanwhile.
const LOOKS: usize = 16;

/// How many temporary files are drawn at most that can be held.
const DRAWS: usize = 3;

/// What a temporary file is called by where the system draws nothing.
const UNKNOWN: &str = "0";

/// What the symbolic links at a path end at: a regular file, as it was when it was opened and read, or nothing, of which an edit may make a
/// file.
#[derive(Drop)]
pub struct Place<D: EditCalls> {
    /// The system on which that was found.
    pub calls: D,
    pub path: String,
    /// The path of its directory.
    pub folder: String,
    /// The path of its lock.
    pub lock: String,
    /// The file, if there is one.
    pub found: Option<Found>,
    ghost beside: { string_bytes lock ≡ lock_of_lem (string_bytes path) },
}

/// What an edit puts in place of the text of a file.
#[derive(Clone, Copy)]
pub struct Replacement<'a> {
    /// The text that it gets.
    pub text: &'a [u8],
    /// Whether that is written down to the disk. Then a loss of power doesn't undo it, or tear it.
    pub is_synced: bool,
}

/// How the replacement of a text ended.
#[derive(Clone, Copy, PartialEq, Eq)]
pub enum Replaced {
    /// The file has the new text.
    Done,
    /// The file isn't the one any more that it was, or has another text, which another process gave it. It keeps that.
    Changed,
}

impl<D: EditCalls> Place<D> {
    /// The place that a path leads to, and the text that is there. Nothing is written.
    ///
    /// # Errors
    ///
    /// The lock of the file exists, so git or another edit works on it; what is there is no regular file, or can't be opened or read; too many
    /// links lead there, or they keep changing; out of memory.
    pub fn find<R: Files + AllocGlobal>(
        files: &R,
        mut calls: D,
        path: &str,
    ) -> Result<Place<D>, Fault>
        ensures { IfOk result (λ place. IfSome (D.told place.calls) (IsFound (string_bytes place.path) (option_map known place.found))) }
    {
        let alloc = files.alloc();
        for _ in 0..LOOKS {
            let path = end_of_links(files, path)?;
            let lock = lock_of(alloc, &path)?;
            check_free(&mut calls, &lock)?;
            match sight_of(&mut calls, &path) {
                Ok(Sight::Nothing) => return Place::new(alloc, calls, path, lock, None),
                Ok(Sight::File(file)) => match found_in(&mut calls, file) {
                    Ok(found) => return Place::new(alloc, calls, path, lock, Some(found)),
                    Err(error) => return Err(Fault::unread(error)),
                },
                Ok(Sight::Irregular) => return Err(Fault::NoFile),
                Ok(Sight::Changing) => {}
                Err(error) => return Err(Fault::unread(error)),
            }
        }
        Err(Fault::Changing)
    }

    /// The place at a path, with its lock.
    fn new(
        alloc: Global,
        calls: D,
        path: String,
        lock: String,
        found: Option<Found>,
    ) -> Result<Place<D>, Fault>
        requires { string_bytes lock ≡ lock_of_lem (string_bytes path) }
        ensures calls { IfOk result (λ place. place.calls ≡ calls) }
        ensures path { IfOk result (λ place. place.path ≡ path) }
        ensures found { IfOk result (λ place. place.found ≡ found) }
    {
        let folder = folder_of(alloc, &path)?;
        Ok(Place {
            calls,
            path,
            folder,
            lock,
            found,
        })
    }

    /// The text of the file; none if there is no such file.
    pub fn text(&self) -> Option<&[u8]>
        ensures { option_map (λ text. text.now) result ≡ option_map (λ found. found.text.items) self.now.found }
    {
        match &self.found {
            Some(found) => Some(&found.text),
            None => None,
        }
    }

    /// Gives the file a text in place of its own, or of none. The text is written down to the disk as a temporary file beside the file.
    /// Then the lock is taken, and if the file is still the one that was found, with that text, the temporary file is renamed. A lock that
    /// was left by a process which has ended is removed before, and temporary files that were are then. What the user has to know of is
    /// told, a line each.
    ///
    /// # Errors
    ///
    /// The temporary file can't be written or renamed; the lock exists or can't be made; out of memory. The file is as it was, and neither
    /// a temporary file nor a lock is left. Or the file has the new text: [`Fault::Unsynced`], that isn't written down to the disk; or
    /// [`Fault::Unremoved`], its lock is left.
    pub fn replace<E: Write>(
        self,
        new: &Replacement<'_>,
        err: &mut E,
    ) -> Result<(D, Replaced), Fault>
        ensures { IfOk result (λ done. done.1 ≡ Done → IfSome (D.told done.0)
            (IsReplaced (string_bytes self.path) (string_bytes self.folder) (option_map known self.found) new.now.is_synced new.now.text.now)) }
    {
        let Place {
            calls,
            path,
            folder,
            lock,
            found,
        } = self;
        let edit = Edit {
            spot: Spot {
                folder: &folder,
                path: &path,
                lock: &lock,
            },
            found: found.as_ref(),
            new: *new,
        };
        edit.carry_out(calls, err)
    }
}

/// The replacement of a file's text, where the file was found so, or wasn't there.
#[derive(Clone, Copy)]
struct Edit<'a> {
    spot: Spot<'a>,
    found: Option<&'a Found>,
    new: Replacement<'a>,
}

impl Edit<'_> {
    /// Removes a lock that was left, replaces the text, and removes temporary files that were left.
    fn carry_out<D: EditCalls, E: Write>(
        &self,
        mut calls: D,
        err: &mut E,
    ) -> Result<(D, Replaced), Fault>
        requires { self.now.spot.lock.now ≡ lock_of_lem self.now.spot.path.now }
        ensures { IfOk result (λ done. done.1 ≡ Done → IfSome (D.told done.0) (IsReplaced self.now.spot.path.now self.now.spot.folder.now (option_map (λ found. known found.now) self.now.found) self.now.new.is_synced self.now.new.text.now)) }
    {
        let Some(process) = calls.process()? else {
            return self.write_unheld(calls, err);
        };
        let drafts = drafts_beside(&mut calls, self.spot.path, &process)?;
        remove_left_lock(&mut calls, self.spot.lock, err)?;
        match self.write(calls, &process, err)? {
            (mut calls, Replaced::Done) => {
                remove_left_drafts(&mut calls, &drafts, err);
                Ok((calls, Replaced::Done))
            }
            changed => Ok(changed),
        }
    }

    /// Replaces the text by a temporary file that the process holds; where that can't be, by one that it doesn't.
    fn write<D: EditCalls, E: Write>(
        &self,
        mut calls: D,
        process: &Process,
        err: &mut E,
    ) -> Result<(D, Replaced), Fault>
        requires { self.now.spot.lock.now ≡ lock_of_lem self.now.spot.path.now }
        ensures { IfOk result (λ done. done.1 ≡ Done → IfSome (D.told done.0) (IsReplaced self.now.spot.path.now self.now.spot.folder.now (option_map (λ found. known found.now) self.now.found) self.now.new.is_synced self.now.new.text.now)) }
    {
        let alloc = calls.alloc();
        for _ in 0..DRAWS {
            let Some(drawn) = calls.draw()? else {
                break;
            };
            let tag = process.tag(alloc, &drawn)?;
            // (while the file has its old text, since memory may be refused)
            let draft = draft_of(alloc, self.spot.path, &tag)?;
            let (after, ended) = self.write_once(calls, &tag, Some(process), err)?;
            match ended {
                Ended::Drafted => calls = after,
                ended => return Ok((after, outcome(alloc, ended, self.spot.lock, &draft)?)),
            }
        }
        self.write_unheld(calls, err)
    }

    /// Replaces the text by a temporary file that nobody can tell to be left.
    fn write_unheld<D: EditCalls, E: Write>(
        &self,
        mut calls: D,
        err: &mut E,
    ) -> Result<(D, Replaced), Fault>
        requires { self.now.spot.lock.now ≡ lock_of_lem self.now.spot.path.now }
        ensures { IfOk result (λ done. done.1 ≡ Done → IfSome (D.told done.0) (IsReplaced self.now.spot.path.now self.now.spot.folder.now (option_map (λ found. known found.now) self.now.found) self.now.new.is_synced self.now.new.text.now)) }
    {
        let alloc = calls.alloc();
        let drawn = calls.draw()?;
        let tag = drawn.as_deref().unwrap_or(UNKNOWN);
        let draft = draft_of(alloc, self.spot.path, tag)?;
        let (calls, ended) = self.write_once(calls, tag, None, err)?;
        Ok((calls, outcome(alloc, ended, self.spot.lock, &draft)?))
    }

    /// Replaces the text by a temporary file that isn't there yet.
    fn write_once<D: EditCalls, E: Write>(
        &self,
        calls: D,
        tag: &str,
        process: Option<&Process>,
        err: &mut E,
    ) -> Result<(D, Ended), Fault>
        requires { self.now.spot.lock.now ≡ lock_of_lem self.now.spot.path.now }
        ensures { IfOk result (λ done. done.1 ≡ ends.Done → IfSome (D.told done.0) (IsReplaced self.now.spot.path.now self.now.spot.folder.now (option_map (λ found. known found.now) self.now.found) self.now.new.is_synced self.now.new.text.now)) }
    {
        let alloc = calls.alloc();
        let path = self.spot.path;
        let before = match self.found {
            Some(found) => Some(found.text.as_slice()),
            None => None,
        };
        let manner = Manner {
            is_synced: self.new.is_synced,
            process,
        };
        let lock = String::from_str(alloc, self.spot.lock)?;
        let folder = DiskFolder::new(calls, self.spot, self.found, manner);
        let mut folder = LoggedFolder::new(alloc, folder, path, before)?;
        let edited = replace(alloc, &mut folder, path, tag, before, self.new.text)?;
        if is_new(&edited.ended) && folder.folder().owner() == Owner::Lost {
            let _ = writeln!(err, "gixcfg: {path}: its owner or its group isn't kept");
        }
        let calls = folder.into_folder().into_calls();
        match edited.lock {
            Some(error) => Ok((calls, unremoved(edited.ended, lock, error, err)?)),
            None => Ok((calls, edited.ended)),
        }
    }
}

/// Whether the file has the new text at this end.
fn is_new(ended: &Ended) -> bool {
    matches!(ended, Ended::Done | Ended::Unsynced(_))
}

/// Tells that the lock at a path can't be removed.
///
/// # Errors
///
/// The file has its new text.
fn unremoved<E: Write>(
    ended: Ended,
    lock: String,
    error: io::Error,
    err: &mut E,
) -> Result<Ended, Fault>
    ensures { IfOk result (λ told. told ≢ ends.Done) }
{
    if let Ended::Done = ended {
        return Err(Fault::Unremoved(lock, error));
    }
    let _ = writeln!(err, "gixcfg: {lock}: not removed: {error}");
    Ok(ended)
}

/// What is told of an end. Where the temporary file has gone, somebody else took it away, and it is as if he had changed the file.
///
/// # Errors
///
/// The new text isn't there, or not written down to the disk; out of memory.
fn outcome(alloc: Global, ended: Ended, lock: &str, draft: &str) -> Result<Replaced, Fault>
    ensures { TellsAs ended result }
{
    match ended {
        Ended::Done => Ok(Replaced::Done),
        Ended::Changed => Ok(Replaced::Changed),
        Ended::Locked => Err(Fault::Locked(Lock::unknown(alloc, lock)?)),
        Ended::Drafted => Err(Fault::Locked(Lock::unknown(alloc, draft)?)),
        Ended::Failed(error) => Err(Fault::unwritten(error)),
        Ended::Unsure(error) if error.kind() == ErrorKind::NotFound => Ok(Replaced::Changed),
        Ended::Unsure(error) => Err(Fault::unwritten(error)),
        Ended::Unsynced(error) => Err(Fault::Unsynced(error)),
    }
}
