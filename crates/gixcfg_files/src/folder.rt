//! The directory of a file that is edited, on the disk.
ghost use Rattle.std.specs.Prelude.{◌≡◌, ℕ, List, [], Option, None, Some, IfSome, IfOk, OnOk, true, option_map, string_bytes};
ghost use Rattle.gixcfg_files.specs.Acts.{Grows, Has, WasPut, IsAgain, IsOurs, IsPut, IsHeld, IsDraft, IsReady, Renames};
ghost use Rattle.gixcfg_files.specs.Replacing.{HasMade, known};

use crate::calls::{Beginning, EditCalls, Found};
use crate::made::{Made, Owner, is_at, is_kept, remove_made, share};
use crate::process::Process;
use crate::sight::{Sight, sight_of};
use gixcfg_replacing::{FolderCalls, lock_of};
use std::io;
use std::io::ErrorKind;
use std::marker::Model;

/// The rights of a lock, and of a temporary file in which nobody else may read before it has those of the file that it is for.
const HIDDEN: u32 = 0o600;

/// The rights of a new file, of which the process's mask takes some.
const NEW: u32 = 0o666;

/// Where a file is that is edited.
#[derive(Clone, Copy)]
pub struct Spot<'a> {
    /// The path of its directory.
    pub folder: &'a str,
    /// Its path.
    pub path: &'a str,
    /// The path of its lock.
    pub lock: &'a str,
}

/// How an edit is done.
#[derive(Clone, Copy)]
pub struct Manner<'a> {
    /// Whether texts and names are written down to the disk.
    pub is_synced: bool,
    /// The process, which holds what it makes; none where it doesn't. So others can tell when what it made was left.
    pub process: Option<&'a Process>,
}

/// The directory of a file that is edited, as one edit works in it. It is on the disk. Names in it are paths. The only calls of an edit
/// that change something on the disk are these.
#[derive(Drop)]
pub struct DiskFolder<'a, D: EditCalls> {
    calls: D,
    spot: Spot<'a>,
    /// The file, as it was found, if it was there.
    found: Option<&'a Found>,
    manner: Manner<'a>,
    /// The temporary file, from when it is made until it is renamed.
    draft: Option<Made<D::File>>,
    /// The lock, from when it is made until it is removed.
    lock: Option<Made<D::File>>,
    /// Whether the file was, at the last look under the lock, as it was found.
    is_same: bool,
    /// Whether the temporary file has been renamed, and is the file.
    is_renamed: bool,
    /// Whether the temporary file has the owner of the file.
    owner: Owner,
}

impl<'a, D: EditCalls> Model for DiskFolder<'a, D> {
    ghost use Rattle.std.specs.Prelude.{List, Option, IfSome, is_some, option_map};
    ghost use Rattle.gixcfg_files.specs.Acts.{Act, IsEditing};
    ghost use Rattle.gixcfg_files.specs.Replacing.{Work};
    ghost use Rattle.gixcfg_files.specs.declared.rights.Identity.{Identity};

    ghost Value = { Option (List Act) × Work × Option Identity };

    ghost view = { λ f. (
      D.told f.calls,
      record {
        path = f.spot.path.now;
        lock = f.spot.lock.now;
        folder = f.spot.folder.now;
        found = option_map (λ found. (found.now.original, found.now.text.items)) f.found;
        is_synced = f.manner.is_synced;
      },
      option_map (λ made. made.file.original.identity) f.draft,
    ) };

    ghost invariant = { λ f. IfSome (D.told f.calls) (IsEditing f.spot.path.now f.spot.lock.now (option_map (λ found. (found.now.original, found.now.text.items)) f.found) (is_some f.manner.process) f.draft f.lock f.is_same) };
}

impl<'a, D: EditCalls> DiskFolder<'a, D> {
    /// The directory of a file, which was found so, or wasn't there.
    pub fn new(
        mut calls: D,
        spot: Spot<'a>,
        found: Option<&'a Found>,
        manner: Manner<'a>,
    ) -> DiskFolder<'a, D>
        ensures made { HasMade result result [] }
        ensures work { result.1 ≡ record {
          path = spot.entry.path.now;
          lock = spot.entry.lock.now;
          folder = spot.entry.folder.now;
          found = option_map (λ found. known found.now) found.entry;
          is_synced = manner.entry.is_synced;
        } }
    {
        calls.begin(Beginning {
            path: spot.path,
            lock: spot.lock,
            found,
            holds: manner.process.is_some(),
        });
        DiskFolder {
            calls,
            spot,
            found,
            manner,
            draft: None,
            lock: None,
            is_same: false,
            is_renamed: false,
            owner: Owner::Kept,
        }
    }

    /// The calls that it makes.
    pub fn into_calls(self) -> D
        ensures { D.told result ≡ self.entry.0 }
    {
        let DiskFolder { calls, .. } = self;
        calls
    }

    /// Whether the temporary file has the owner and the group of the file.
    pub fn owner(&self) -> Owner {
        self.owner
    }

    /// Whether a name has what this edit made there.
    fn has_made(&self, name: &str) -> bool {
        if name == self.spot.lock {
            self.lock.is_some()
        } else {
            self.draft.is_some()
        }
    }
}

/// The text of a file under its lock, and whether it is as it was found. What isn't the file that the edit began with, with the rights that it had,
/// is told as a text that this one can't have had: none instead of one, an empty one instead of none.
fn read_again<D: EditCalls>(
    calls: &mut D,
    path: &str,
    found: Option<&Found>,
) -> io::Result<(Option<Vec<u8>>, bool)>
    ensures again { IfOk result (λ read. read.1 ≡ true → (lock : List ℕ) → IfSome (D.told calls.old) (WasPut lock)
        → IfSome (D.told calls.new) (IsAgain path.now lock (option_map (λ found. (found.now.original, found.now.text.items)) found.entry))) }
    ensures grows { Grows (D.told calls.old) (D.told calls.new) }
{
    match found {
        Some(found) => read_same(calls, path, found),
        None => read_none(calls, path),
    }
}

/// The same, of a file that was there.
fn read_same<D: EditCalls>(
    calls: &mut D,
    path: &str,
    found: &Found,
) -> io::Result<(Option<Vec<u8>>, bool)>
    ensures again { IfOk result (λ read. read.1 ≡ true → (lock : List ℕ) → IfSome (D.told calls.old) (WasPut lock)
        → IfSome (D.told calls.new) (IsAgain path.now lock (Some (found.now.original, found.now.text.items)))) }
    ensures grows { Grows (D.told calls.old) (D.told calls.new) }
{
    match sight_of(calls, path)? {
        Sight::File(file) if file.original() == found.original => {
            let text = calls.read(file)?;
            let is_same = text.as_slice() == found.text.as_slice();
            Ok((Some(text), is_same))
        }
        _ => Ok((None, false)),
    }
}

/// The same, of a file that wasn't there.
fn read_none<D: EditCalls>(calls: &mut D, path: &str) -> io::Result<(Option<Vec<u8>>, bool)>
    ensures again { IfOk result (λ read. read.1 ≡ true → (lock : List ℕ) → IfSome (D.told calls.old) (WasPut lock)
        → IfSome (D.told calls.new) (IsAgain path.now lock None)) }
    ensures grows { Grows (D.told calls.old) (D.told calls.new) }
{
    match sight_of(calls, path)? {
        Sight::Nothing => Ok((None, true)),
        _ => Ok((Some(Vec::new(calls.alloc())), false)),
    }
}

/// The text of what is at a path; none if nothing is.
fn read_at<D: EditCalls>(calls: &mut D, path: &str) -> io::Result<Option<Vec<u8>>>
    ensures grows { Grows (D.told calls.old) (D.told calls.new) }
{
    match calls.open(path) {
        Ok(file) => Ok(Some(calls.read(file)?)),
        Err(error) if error.kind() == ErrorKind::NotFound => Ok(None),
        Err(error) => Err(error),
    }
}

/// Makes a file; none if something is at the path.
fn make_at<D: EditCalls>(calls: &mut D, path: &str, mode: u32) -> io::Result<Option<Made<D::File>>>
    ensures made { IfOk result (λ it. IfSome it (λ made. IfSome (D.told calls.new) (IsPut path.now made))) }
    ensures grows { Grows (D.told calls.old) (D.told calls.new) }
{
    let at = String::from_str(calls.alloc(), path)?;
    match calls.make(path, mode) {
        Ok(file) => Ok(Some(Made { file, path: at })),
        Err(error) if error.kind() == ErrorKind::AlreadyExists => Ok(None),
        Err(error) => Err(error),
    }
}

/// Makes a file and holds it; none if something is at the path, or it isn't kept.
fn make_held<D: EditCalls>(
    calls: &mut D,
    path: &str,
    mode: u32,
) -> io::Result<Option<Made<D::File>>>
    ensures made { IfOk result (λ it. IfSome it (λ made. IfSome (D.told calls.new) (IsHeld path.now made))) }
    ensures grows { Grows (D.told calls.old) (D.told calls.new) }
{
    let Some(made) = make_at(calls, path, mode)? else {
        return Ok(None);
    };
    if is_kept(calls, &made) {
        return Ok(Some(made));
    }
    let _ = remove_made(calls, &made);
    Ok(None)
}

/// Makes a temporary file, which is held where the edit holds; none if something is at the path, or it isn't kept.
fn make_draft<D: EditCalls>(
    calls: &mut D,
    path: &str,
    mode: u32,
    holds: bool,
) -> io::Result<Option<Made<D::File>>>
    ensures made { IfOk result (λ it. IfSome it (λ made. IfSome (D.told calls.new) (IsDraft holds made))) }
    ensures grows { Grows (D.told calls.old) (D.told calls.new) }
{
    if holds {
        make_held(calls, path, mode)
    } else {
        make_at(calls, path, mode)
    }
}

/// Makes a lock; none if something is at the path. Where it can, it is held and says whose it is from its first moment on.
fn make_lock<D: EditCalls>(
    calls: &mut D,
    path: &str,
    process: Option<&Process>,
    draft: Option<&Made<D::File>>,
) -> io::Result<Option<Made<D::File>>>
    ensures made { IfOk result (λ it. IfSome it (λ made. IfSome (D.told calls.new) (IsPut path.now made))) }
    ensures grows { Grows (D.told calls.old) (D.told calls.new) }
{
    match (process, draft) {
        (Some(process), Some(draft)) => make_signed(calls, path, process, &draft.path),
        _ => make_at(calls, path, HIDDEN),
    }
}

/// Makes a lock that says whose it is: beside the temporary file, under a name that nobody else has, and then it gets its own. Where a disk
/// doesn't give a file a second name, or doesn't let it be held, the lock is made without that.
fn make_signed<D: EditCalls>(
    calls: &mut D,
    path: &str,
    process: &Process,
    draft: &str,
) -> io::Result<Option<Made<D::File>>>
    ensures made { IfOk result (λ it. IfSome it (λ made. IfSome (D.told calls.new) (IsPut path.now made))) }
    ensures grows { Grows (D.told calls.old) (D.told calls.new) }
{
    let alloc = calls.alloc();
    let line = process.line(alloc)?;
    let beside = lock_of(alloc, draft)?;
    let at = String::from_str(alloc, path)?;
    let Some(mut made) = make_held(calls, &beside, HIDDEN)? else {
        return make_at(calls, path, HIDDEN);
    };
    match sign_and_link(calls, &mut made, line.as_bytes(), path) {
        Ok(()) => {
            let Made { file, .. } = made;
            Ok(Some(Made { file, path: at }))
        }
        Err(error) if error.kind() == ErrorKind::AlreadyExists => Ok(None),
        Err(_) => make_at(calls, path, HIDDEN),
    }
}

/// Writes a line to a file that was made, gives it a second path, and takes the first one away.
fn sign_and_link<D: EditCalls>(
    calls: &mut D,
    made: &mut Made<D::File>,
    line: &[u8],
    path: &str,
) -> io::Result<()>
    requires { IfSome (D.told calls.old) (IsOurs made.old) }
    ensures linked { OnOk result (IfSome (D.told calls.new) (WasPut path.now)) }
    ensures file { made.new.file.original ≡ made.old.file.original }
    ensures grows { Grows (D.told calls.old) (D.told calls.new) }
{
    let linked = sign(calls, made, line, path);
    let _ = remove_made(calls, made);
    linked
}

/// Writes a line to a file that was made, and gives it a second path.
fn sign<D: EditCalls>(
    calls: &mut D,
    made: &mut Made<D::File>,
    line: &[u8],
    path: &str,
) -> io::Result<()>
    requires { IfSome (D.told calls.old) (IsOurs made.old) }
    ensures linked { OnOk result (IfSome (D.told calls.new) (WasPut path.now)) }
    ensures ours { IfSome (D.told calls.new) (IsOurs made.new) }
    ensures file { made.new.file.original ≡ made.old.file.original }
    ensures grows { Grows (D.told calls.old) (D.told calls.new) }
{
    match calls.write(&mut made.file, line) {
        Ok(()) => calls.link(&made.path, path),
        Err(error) => Err(error),
    }
}

/// Renames a temporary file over the file that it is for, if it is where it was put.
fn rename_made<D: EditCalls>(calls: &mut D, draft: &Made<D::File>, to: &str) -> io::Result<()>
    requires { IfSome (D.told calls.old) (IsReady to.now draft.now) }
    ensures grows { Grows (D.told calls.old) (D.told calls.new) }
    ensures renamed { OnOk result (Renames (D.told calls.old) (D.told calls.new) draft.now.file.original.identity to.now) }
{
    match is_at(calls, &draft.file, &draft.path) {
        Ok(true) => calls.rename(&draft.path, to),
        Ok(false) => Err(not_there()),
        Err(error) => Err(error),
    }
}

/// Removes a file if it was made.
fn remove_if_made<D: EditCalls>(calls: &mut D, made: Option<Made<D::File>>) -> io::Result<()>
    requires { IfSome made (λ it. IfSome (D.told calls.old) (IsOurs it)) }
    ensures { Grows (D.told calls.old) (D.told calls.new) }
{
    match made {
        Some(made) => remove_made(calls, &made),
        None => Ok(()),
    }
}

/// The error of a temporary file that isn't there, or of a file that isn't as it was found.
fn not_there() -> io::Error {
    io::Error::from(ErrorKind::NotFound)
}

impl<D: EditCalls> FolderCalls for DiskFolder<'_, D> {
    ghost has_made = { HasMade };

    fn read(&mut self, name: &str) -> io::Result<Option<Vec<u8>>> {
        if name != self.spot.path || self.is_renamed {
            return read_at(&mut self.calls, name);
        }
        match &self.lock {
            Some(_) => {
                self.is_same = false;
                let (text, is_same) = read_again(&mut self.calls, self.spot.path, self.found)?;
                self.is_same = is_same;
                Ok(text)
            }
            None => read_at(&mut self.calls, name),
        }
    }

    fn make(&mut self, name: &str) -> io::Result<bool> {
        if self.has_made(name) {
            return Ok(false);
        }
        if name == self.spot.lock {
            let made = make_lock(
                &mut self.calls,
                self.spot.lock,
                self.manner.process,
                self.draft.as_ref(),
            )?;
            let is_made = made.is_some();
            self.lock = made;
            Ok(is_made)
        } else {
            let mode = if self.found.is_some() { HIDDEN } else { NEW };
            let holds = self.manner.process.is_some();
            let made = make_draft(&mut self.calls, name, mode, holds)?;
            let is_made = made.is_some();
            self.draft = made;
            Ok(is_made)
        }
    }

    fn share_rights(&mut self, _from: &str, _to: &str) -> io::Result<()> {
        let Some(found) = self.found else {
            return Ok(());
        };
        let Some(draft) = &self.draft else {
            return Ok(());
        };
        self.owner = share(&mut self.calls, &draft.file, found.original.rights)?;
        Ok(())
    }

    fn write(&mut self, _name: &str, text: &[u8]) -> io::Result<()> {
        match &mut self.draft {
            Some(draft) => self.calls.write(&mut draft.file, text),
            None => Err(not_there()),
        }
    }

    fn sync(&mut self, _name: &str) -> io::Result<()> {
        match &self.draft {
            Some(draft) if self.manner.is_synced => self.calls.sync(&draft.file),
            _ => Ok(()),
        }
    }

    fn rename(&mut self, _from: &str, _to: &str) -> io::Result<()> {
        match &self.draft {
            Some(draft) if self.is_same => rename_made(&mut self.calls, draft, self.spot.path)?,
            _ => return Err(not_there()),
        }
        self.draft = None;
        self.is_renamed = true;
        Ok(())
    }

    fn remove(&mut self, name: &str) -> io::Result<()> {
        if name == self.spot.lock {
            remove_if_made(&mut self.calls, self.lock.take())
        } else {
            remove_if_made(&mut self.calls, self.draft.take())
        }
    }

    fn sync_names(&mut self) -> io::Result<()> {
        if self.manner.is_synced {
            self.calls.sync_folder(self.spot.folder)
        } else {
            Ok(())
        }
    }
}
