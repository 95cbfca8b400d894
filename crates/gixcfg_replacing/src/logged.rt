//! A directory of which nothing is known, with a log of the calls on it.
ghost use Rattle.std.specs.Prelude.{◌≡◌, ◌≢◌, ◌≤◌, ◌<◌, ◌+◌, ◌∷◌, ℕ, List, [], None, IfOk, IfErr, Ok, OnOk, option_map, false, true};
ghost use Rattle.std.specs.Vec.{vec_len, vec_capacity};
ghost use Rattle.gixcfg_replacing.specs.Changes.{Change, MadeSince, if_done, if_made, Making, Sharing, Writing, Syncing, Renaming, Removing, SyncingNames};
ghost use Rattle.gixcfg_replacing.specs.Disk.{seen as seen_lem, IsAtRest, IsQuiet, IsLeftAlone, IsRespected, Did, GoesOn, HasCause, Makes};
ghost use Rattle.gixcfg_replacing.specs.Calls.{is_ours as is_ours_lem, counts_now, only_now};
ghost use Rattle.gixcfg_replacing.specs.Logged.{below, calls_of, logged_disk, IsFree, HasRoom, IsOthersDoing, Does};
ghost use Rattle.gixcfg_replacing.specs.declared.call.Call.TheVariants.{Fault};

use crate::call::{Call, is_ours, seen};
use crate::folder::Folder;
use crate::names::lock_of as lock_beside;
use std::alloc::{AllocError, Global};
use std::io;
use std::io::ErrorKind;

/// The calls of an edit on a directory, of which nothing is known. Those of [`Folder`](crate::Folder), with the names that it has, and
/// without any promise of what they do. A directory may say which changes may have been made on it.
pub trait FolderCalls {
    /// The changes that may have been made on it since it was the first one, the last one first.
    ghost has_made: { Self → Self → List Change → Type 0 };

    /// The text of the file at a name; none if nothing is there.
    ///
    /// # Errors
    ///
    /// It can't be opened or read.
    fn read(&mut self, name: &str) -> io::Result<Option<Vec<u8>>>
        ensures { MadeSince has_made self.old self.new [] };

    /// Makes an empty file if nothing is at the name, and tells whether it did.
    ///
    /// # Errors
    ///
    /// It can't be made.
    fn make(&mut self, name: &str) -> io::Result<bool>
        ensures { MadeSince has_made self.old self.new (if_made result name.now) };

    /// Gives a file the rights of another one if that is there, as far as the process may.
    ///
    /// # Errors
    ///
    /// They can't be given.
    fn share_rights(&mut self, from: &str, to: &str) -> io::Result<()>
        ensures { MadeSince has_made self.old self.new (if_done result (Sharing from.now to.now)) };

    /// Writes a text to a file that is empty.
    ///
    /// # Errors
    ///
    /// It can't be written.
    fn write(&mut self, name: &str, text: &[u8]) -> io::Result<()>
        ensures { MadeSince has_made self.old self.new (if_done result (Writing name.now text.now)) };

    /// Writes the text of a file down to the disk.
    ///
    /// # Errors
    ///
    /// It can't be written down.
    fn sync(&mut self, name: &str) -> io::Result<()>
        ensures { MadeSince has_made self.old self.new (if_done result (Syncing name.now)) };

    /// Gives a file another name, in place of the file that has it.
    ///
    /// # Errors
    ///
    /// It can't be renamed, or a disk that failed meanwhile has done it.
    fn rename(&mut self, from: &str, to: &str) -> io::Result<()>
        ensures { MadeSince has_made self.old self.new (if_done result (Renaming from.now to.now)) };

    /// Removes a file, if it is there still.
    ///
    /// # Errors
    ///
    /// It can't be removed.
    fn remove(&mut self, name: &str) -> io::Result<()>
        ensures { MadeSince has_made self.old self.new (if_done result (Removing name.now)) };

    /// Writes the names down to the disk.
    ///
    /// # Errors
    ///
    /// They can't be written down.
    fn sync_names(&mut self) -> io::Result<()>
        ensures { MadeSince has_made self.old self.new (if_done result SyncingNames) };
}

/// How many calls a log has room for from its beginning: more than an edit makes.
const LENGTH: usize = 32;

/// How many calls are kept of one at most.
const EACH: usize = 4;

/// What the name of a lock ends with.
const LOCK: &str = ".lock";

/// A directory of which nothing is known, seen by what calls on it answered. The log of these calls is a directory with a clock: what an
/// answer has otherwise than the log was done by others. While a lock is ours its file isn't looked at again, since others leave it alone.
#[derive(Drop)]
pub struct LoggedFolder<C: Drop> {
    alloc: Global,
    folder: C,
    /// The last one first.
    calls: Vec<Call>,
    /// Why the file of a lock that was made couldn't be read.
    unread: Option<io::Error>,
}

impl<C: FolderCalls + Drop> LoggedFolder<C> {
    /// A directory in which a file has had this text, or hasn't been there. The file is the one at a name, and that was so for so long
    /// that it is written down.
    ///
    /// # Errors
    ///
    /// Out of memory.
    pub fn new(
        alloc: Global,
        folder: C,
        name: &str,
        before: Option<&[u8]>,
    ) -> Result<LoggedFolder<C>, AllocError>
        ensures seen { IfOk result (λ logged. seen_lem (logged_disk C.has_made) logged name.now ≡ option_map (λ text. text.now) before.entry) }
        ensures rest { IfOk result (λ logged. IsAtRest (logged_disk C.has_made) logged name.now) }
        ensures folder { IfOk result (λ logged. below logged ≡ folder) }
    {
        let at = copied(alloc, name.as_bytes())?;
        let also = copied(alloc, name.as_bytes())?;
        let found = match before {
            Some(text) => Some(copied(alloc, text)?),
            None => None,
        };
        let mut calls = Vec::new(alloc);
        calls.reserve(LENGTH)?;
        put(&mut calls, Call::Found(at, found));
        put(&mut calls, Call::Synced(also));
        put(&mut calls, Call::Settled);
        Ok(LoggedFolder {
            alloc,
            folder,
            calls,
            unread: None,
        })
    }

    /// The directory.
    pub fn folder(&self) -> &C
        ensures { result.now ≡ below self.now }
    {
        &self.folder
    }

    /// The directory, without the log.
    pub fn into_folder(self) -> C
        ensures { result ≡ below self }
    {
        self.folder
    }

    /// Keeps a call.
    fn keep(&mut self, call: Call)
        requires { HasRoom self.old 1 }
        ensures kept { calls_of self.new ≡ call ∷ calls_of self.old }
        ensures folder { self.new.folder ≡ self.old.folder }
        ensures room { (count : ℕ) → HasRoom self.old (count + 1) → HasRoom self.new count }
    {
        put(&mut self.calls, call);
    }

    /// Keeps that a call failed with this error.
    fn failed(&mut self, error: io::Error) -> io::Error
        requires { HasRoom self.old 1 }
        ensures kept { calls_of self.new ≡ Fault ∷ calls_of self.old }
        ensures folder { self.new.folder ≡ self.old.folder }
        ensures answer { result ≡ error }
        ensures room { (count : ℕ) → HasRoom self.old (count + 1) → HasRoom self.new count }
    {
        self.keep(Call::Fault);
        error
    }

    /// Keeps a call that was done, or that it failed.
    fn done(&mut self, did: io::Result<()>, call: Call) -> io::Result<()>
        requires { HasRoom self.old 1 }
        ensures calls { Does call (calls_of self.old) (calls_of self.new) result }
        ensures folder { self.new.folder ≡ self.old.folder }
        ensures answer { result ≡ did }
    {
        match did {
            Ok(()) => {
                self.keep(call);
                Ok(())
            }
            Err(error) => Err(self.failed(error)),
        }
    }

    /// A copy of a name, and room in the log, so that a call that was done is kept.
    fn ready(&mut self, name: &str) -> Result<Vec<u8>, AllocError>
        ensures name { IfOk result (λ at. at.items ≡ name.now) }
        ensures calls { calls_of self.new ≡ calls_of self.old }
        ensures folder { self.new.folder ≡ self.old.folder }
        ensures room { OnOk result (HasRoom self.new 4) }
    {
        let at = copied(self.alloc, name.as_bytes())?;
        self.calls.reserve(EACH)?;
        Ok(at)
    }

    /// Whether others may change what is at a name.
    fn is_free(&self, name: &str) -> Result<bool, AllocError>
        ensures { IfOk result (λ free. free ≡ true → IsFree (calls_of self.now) name.now) }
    {
        let lock = lock_beside(self.alloc, name)?;
        Ok(!is_ours(&self.calls, name.as_bytes()) && !is_ours(&self.calls, lock.as_bytes()))
    }

    /// Looks at what is at a name, which others may have changed.
    fn look(&mut self, name: &str) -> io::Result<()>
        requires room { HasRoom self.old 3 }
        requires free { IsFree (calls_of self.old) name.now }
        ensures others { IsOthersDoing C.has_made self.old self.new }
        ensures cause { IfErr result (HasCause (logged_disk C.has_made) self.old self.new) }
        ensures room { HasRoom self.new 2 }
    {
        let at = copied(self.alloc, name.as_bytes())?;
        match self.folder.read(name) {
            Ok(found) => {
                if found.as_deref() != seen(&self.calls, name.as_bytes()) {
                    self.keep(Call::Found(at, found));
                }
                Ok(())
            }
            Err(error) => Err(self.failed(error)),
        }
    }

    /// Looks at the file of a lock that was made, which nobody else changes from then on. Why it can't be read is told when it is to be read.
    fn look_behind(&mut self, lock: &str)
        requires room { HasRoom self.old 3 }
        requires free { is_ours_lem (calls_of self.old) lock.now ≡ false }
        ensures others { IsOthersDoing C.has_made self.old self.new }
        ensures room { HasRoom self.new 2 }
    {
        let Some(file) = lock.strip_suffix(LOCK) else {
            return;
        };
        if is_ours(&self.calls, file.as_bytes()) {
            return;
        }
        if let Err(error) = self.look(file) {
            self.unread = Some(error);
        }
    }

    /// Notes whether others have made or removed what is at a name. What it has doesn't matter, since nobody reads a lock or a temporary
    /// file.
    fn note(&mut self, at: Vec<u8>, is_there: bool)
        requires room { HasRoom self.old 2 }
        requires free { IsFree (calls_of self.old) at.items }
        ensures others { IsOthersDoing C.has_made self.old self.new }
        ensures there { is_there ≡ true → IsQuiet (logged_disk C.has_made) self.old self.new at.items → seen_lem (logged_disk C.has_made) self.old at.items ≢ None }
        ensures gone { is_there ≡ false → IsQuiet (logged_disk C.has_made) self.old self.new at.items → seen_lem (logged_disk C.has_made) self.old at.items ≡ None }
        ensures room { HasRoom self.new 1 }
    {
        let was_there = seen(&self.calls, &at).is_some();
        if is_there && !was_there {
            self.keep(Call::Found(at, Some(Vec::new(self.alloc))));
        } else if was_there && !is_there {
            self.keep(Call::Found(at, None));
        }
    }

    /// Looks at what is at a name if others may change that; or tells why it couldn't be read when its lock was made.
    fn refresh(&mut self, name: &str) -> io::Result<()>
        ensures others { IsOthersDoing C.has_made self.old self.new }
        ensures cause { IfErr result (HasCause (logged_disk C.has_made) self.old self.new) }
    {
        self.calls.reserve(EACH)?;
        if let Some(error) = self.unread.take() {
            return Err(self.failed(error));
        }
        if self.is_free(name)? {
            return self.look(name);
        }
        Ok(())
    }

    /// Makes an empty file if nothing is at a name that others may change.
    fn make_free(&mut self, name: &str) -> io::Result<bool>
        requires { IsFree (calls_of self.old) name.now }
        ensures made { Makes (logged_disk C.has_made) self.old self.new name.now result }
        ensures alone { (other : List ℕ) → other ≢ name.now → IsLeftAlone (logged_disk C.has_made) self.old self.new other }
        ensures respect { (other : List ℕ) → IsRespected (logged_disk C.has_made) self.old self.new other }
        ensures did { result ≡ Ok true → Did (logged_disk C.has_made) self.old self.new (Making name.now ∷ []) }
        ensures time { GoesOn (logged_disk C.has_made) self.old self.new }
        ensures cause { IfErr result (HasCause (logged_disk C.has_made) self.old self.new) }
    {
        let at = copied(self.alloc, name.as_bytes())?;
        let also = self.ready(name)?;
        match self.folder.make(name) {
            Ok(true) => {
                self.look_behind(name);
                self.note(at, false);
                self.keep(Call::Made(also));
                Ok(true)
            }
            Ok(false) => {
                self.note(at, true);
                Ok(false)
            }
            Err(error) => Err(self.failed(error)),
        }
    }

    /// The text that the log has at a name.
    fn text_at(&self, name: &str) -> Result<Option<Vec<u8>>, AllocError>
        ensures { IfOk result (λ found. option_map (λ text. text.items) found ≡ seen_lem (logged_disk C.has_made) self.now name.now) }
    {
        match seen(&self.calls, name.as_bytes()) {
            Some(text) => Ok(Some(Vec::from_slice(self.alloc, text)?)),
            None => Ok(None),
        }
    }
}

impl<C: FolderCalls + Drop> Folder for LoggedFolder<C> {
    ghost disk = { logged_disk C.has_made };

    ghost counts_now = { λ folder t n left le now. counts_now (calls_of folder) t n left le now };

    ghost only_now = { λ folder n left since. only_now (calls_of folder) n left since };

    fn read(&mut self, name: &str) -> io::Result<Option<Vec<u8>>> {
        self.refresh(name)?;
        Ok(self.text_at(name)?)
    }

    fn make(&mut self, name: &str) -> io::Result<bool> {
        if self.is_free(name)? {
            return self.make_free(name);
        }
        self.calls.reserve(EACH)?;
        Err(self.failed(io::Error::from(ErrorKind::AlreadyExists)))
    }

    fn share_rights(&mut self, from: &str, to: &str) -> io::Result<()> {
        let source = copied(self.alloc, from.as_bytes())?;
        let target = self.ready(to)?;
        let did = self.folder.share_rights(from, to);
        self.done(did, Call::Shared(source, target))
    }

    fn write(&mut self, name: &str, text: &[u8]) -> io::Result<()> {
        let kept = copied(self.alloc, text)?;
        let at = self.ready(name)?;
        let did = self.folder.write(name, text);
        self.done(did, Call::Written(at, kept))
    }

    fn sync(&mut self, name: &str) -> io::Result<()> {
        let at = self.ready(name)?;
        let did = self.folder.sync(name);
        self.done(did, Call::Synced(at))
    }

    fn rename(&mut self, from: &str, to: &str) -> io::Result<()> {
        let old_name = copied(self.alloc, from.as_bytes())?;
        let new_name = self.ready(to)?;
        let did = self.folder.rename(from, to);
        self.done(did, Call::Renamed(old_name, new_name))
    }

    fn remove(&mut self, name: &str) -> io::Result<()> {
        let at = self.ready(name)?;
        let did = self.folder.remove(name);
        self.done(did, Call::Removed(at))
    }

    fn sync_names(&mut self) -> io::Result<()> {
        self.calls.reserve(EACH)?;
        let did = self.folder.sync_names();
        self.done(did, Call::Settled)
    }
}

/// Puts a call before the others, for which there is room.
fn put(calls: &mut Vec<Call>, call: Call)
    requires { vec_len calls.old < vec_capacity calls.old }
    ensures put { calls.new.items ≡ call ∷ calls.old.items }
    ensures room { (count : ℕ) → vec_len calls.old + (count + 1) ≤ vec_capacity calls.old → vec_len calls.new + count ≤ vec_capacity calls.new }
{
    let _ = calls.insert(0, call);
}

/// A copy of a text. If there is no memory it is tried again, since a lock or a temporary file that stays would stand in the way of others.
fn copied(alloc: Global, text: &[u8]) -> Result<Vec<u8>, AllocError>
    ensures { IfOk result (λ copy. copy.items ≡ text.now) }
{
    match Vec::from_slice(alloc, text) {
        Err(_) => Vec::from_slice(alloc, text),
        copy => copy,
    }
}
