//! The text of a file replaced in place.
ghost use Rattle.std.specs.Prelude.{◌≡◌, ◌≢◌, ◌↔◌, ℕ, List, [], ◌∷◌, ◌++◌, Option, Some, None, option_map, IfOk, IfErr, IfSome, OnOk, OnErr, IsTrue};
ghost use Rattle.gixcfg_replacing.specs.Changes.{Renaming, SyncingNames};
ghost use Rattle.gixcfg_replacing.specs.Disk.{seen, lock_of, IsQuiet, KeepsName, IsLeftAlone, IsRespected, Did, GoesOn, HasCause, IsDown};
ghost use Rattle.gixcfg_replacing.specs.Edit.{draft_of as draft_of_lem, IsNext, IsTidied, LeavesOldOrNew, Edits, IsDoneBy, filling, swapping, editing};
ghost use Rattle.gixcfg_replacing.specs.Steps.{AreBeside, LeavesDraft, SwapsAs, LocksAs, SettlesAs, IsUndone, IsOwn, AddsOnly};
ghost use Rattle.gixcfg_replacing.specs.declared.ended.Ended.TheVariants.{Done};

use crate::ended::{Edited, Ended};
use crate::folder::Folder;
use crate::names::{draft_of, lock_of as lock_beside};
use std::alloc::{AllocError, Global};
use std::io;

/// Gives an empty temporary file the rights of the file that it is for, and a text, down to the disk.
fn fill<F: Folder>(folder: &mut F, file: &str, draft: &str, text: &[u8]) -> io::Result<()>
    requires ours { F.disk.ours folder.old draft.now }
    requires empty { seen F.disk folder.old draft.now ≡ Some [] }
    ensures filled { OnOk result (IsDown F.disk folder.new draft.now text.now) }
    ensures ours { F.disk.ours folder.new draft.now }
    ensures alone { (other : List ℕ) → other ≢ draft.now → IsLeftAlone F.disk folder.old folder.new other }
    ensures time { GoesOn F.disk folder.old folder.new }
    ensures cause { IfErr result (HasCause F.disk folder.old folder.new) }
    ensures did { OnOk result (Did F.disk folder.old folder.new (filling file.now draft.now text.now)) }
{
    folder.share_rights(file, draft)?;
    folder.write(draft, text)?;
    folder.sync(draft)
}

/// Whether a file whose lock is ours has the text that it is to have before the edit.
fn has<F: Folder>(folder: &mut F, file: &str, before: Option<&[u8]>) -> io::Result<bool>
    requires { F.disk.ours folder.old (lock_of file.now) }
    ensures same { IfOk result (λ same. IsTrue same ↔ (seen F.disk folder.old file.now ≡ option_map (λ text. text.now) before.entry)) }
    ensures kept { KeepsName F.disk folder.old folder.new file.now }
    ensures alone { (other : List ℕ) → IsLeftAlone F.disk folder.old folder.new other }
    ensures respect { (other : List ℕ) → IsRespected F.disk folder.old folder.new other }
    ensures time { GoesOn F.disk folder.old folder.new }
    ensures cause { IfErr result (HasCause F.disk folder.old folder.new) }
    ensures did { OnOk result (Did F.disk folder.old folder.new []) }
{
    let found = folder.read(file)?;
    Ok(found.as_deref() == before)
}

/// Renames a temporary file over the file that it is for, whose lock is ours, if that has what it is to have before.
///
/// # Errors
///
/// How the edit ended, without the temporary file in place of the file, or where the rename failed.
fn swap<F: Folder>(
    folder: &mut F,
    file: &str,
    draft: &str,
    before: Option<&[u8]>,
) -> Result<(), Ended>
    requires names { draft.now ≢ file.now }
    requires apart { lock_of file.now ≢ draft.now }
    requires locked { F.disk.ours folder.old (lock_of file.now) }
    requires ours { F.disk.ours folder.old draft.now }
    ensures ends { (text : List ℕ) → IsDown F.disk folder.old draft.now text
        → SwapsAs F.disk folder.old folder.new file.now (option_map (λ text. text.now) before.entry) text result }
    ensures crash { (text : List ℕ) → IsDown F.disk folder.old draft.now text → AddsOnly F.disk folder.old folder.new file.now text }
    ensures undone { IfErr result IsUndone }
    ensures draft { LeavesDraft F.disk folder.old folder.new draft.now result }
    ensures alone { (other : List ℕ) → other ≢ draft.now → other ≢ file.now → IsLeftAlone F.disk folder.old folder.new other }
    ensures respect { (other : List ℕ) → other ≢ draft.now → IsRespected F.disk folder.old folder.new other }
    ensures time { GoesOn F.disk folder.old folder.new }
    ensures did { OnOk result (Did F.disk folder.old folder.new (Renaming draft.now file.now ∷ [])) }
{
    match has(folder, file, before) {
        Err(error) => Err(Ended::Failed(error)),
        Ok(false) => Err(Ended::Changed),
        Ok(true) => match folder.rename(draft, file) {
            Ok(()) => Ok(()),
            Err(error) => Err(Ended::Unsure(error)),
        },
    }
}

/// Takes the lock of a file, renames a temporary file over it if it has what it is to have before, and removes the lock. Tells why that is
/// there still, if it couldn't be removed.
fn lock_and_swap<F: Folder>(
    folder: &mut F,
    file: &str,
    draft: &str,
    lock: &str,
    before: Option<&[u8]>,
) -> (Result<(), Ended>, Option<io::Error>)
    requires names { AreBeside file.now draft.now lock.now }
    requires ours { F.disk.ours folder.old draft.now }
    ensures ends { (text : List ℕ) → IsDown F.disk folder.old draft.now text → IsQuiet F.disk folder.old folder.new file.now
        → LocksAs F.disk folder.old folder.new file.now (option_map (λ text. text.now) before.entry) text lock.now result.0 }
    ensures next { (text : List ℕ) → IsDown F.disk folder.old draft.now text
        → OnOk result.0 (IsNext F.disk folder.old folder.new file.now (option_map (λ text. text.now) before.entry) text) }
    ensures crash { (text : List ℕ) → IsDown F.disk folder.old draft.now text → IsQuiet F.disk folder.old folder.new file.now
        → AddsOnly F.disk folder.old folder.new file.now text }
    ensures undone { IfErr result.0 IsUndone }
    ensures draft { LeavesDraft F.disk folder.old folder.new draft.now result.0 }
    ensures locked { IsTidied F.disk folder.old folder.new lock.now result.1 }
    ensures alone { (other : List ℕ) → other ≢ file.now → other ≢ draft.now → other ≢ lock.now → IsLeftAlone F.disk folder.old folder.new other }
    ensures time { GoesOn F.disk folder.old folder.new }
    ensures did { OnOk result.0 (result.1 ≡ None → Did F.disk folder.old folder.new (swapping file.now draft.now lock.now)) }
{
    match folder.make(lock) {
        Err(error) => (Err(Ended::Failed(error)), None),
        Ok(false) => (Err(Ended::Locked), None),
        Ok(true) => {
            let swapped = swap(folder, file, draft, before);
            (swapped, folder.remove(lock).err())
        }
    }
}

/// Writes the names down after a rename, and tells how the edit ended.
fn settle<F: Folder>(folder: &mut F) -> Ended
    ensures ends { SettlesAs F.disk folder.old folder.new result }
    ensures alone { (other : List ℕ) → IsLeftAlone F.disk folder.old folder.new other }
    ensures time { GoesOn F.disk folder.old folder.new }
    ensures did { result ≡ Done → Did F.disk folder.old folder.new (SyncingNames ∷ []) }
{
    match folder.sync_names() {
        Ok(()) => Ended::Done,
        Err(error) => Ended::Unsynced(error),
    }
}

/// Puts a temporary file that is down in place of the file that it is for, or removes it.
fn put<F: Folder>(
    folder: &mut F,
    file: &str,
    draft: &str,
    lock: &str,
    before: Option<&[u8]>,
    text: &[u8],
) -> Edited
    requires names { AreBeside file.now draft.now lock.now }
    requires ours { F.disk.ours folder.old draft.now }
    requires down { IsDown F.disk folder.old draft.now text.now }
    ensures edits { Edits F.disk folder.old folder.new file.now (option_map (λ text. text.now) before.entry) text.now draft.now lock.now result }
    ensures own { IsOwn result.ended }
    ensures gone { result.draft ≡ None → IsQuiet F.disk folder.old folder.new draft.now → seen F.disk folder.new draft.now ≡ None }
    ensures did { IsDoneBy result (Did F.disk folder.old folder.new (SyncingNames ∷ swapping file.now draft.now lock.now)) }
{
    let _text = text;
    let (swapped, lock) = lock_and_swap(folder, file, draft, lock, before);
    match swapped {
        Ok(()) => Edited {
            ended: settle(folder),
            draft: None,
            lock,
        },
        Err(ended) => Edited {
            ended,
            draft: folder.remove(draft).err(),
            lock,
        },
    }
}

/// Fills an empty temporary file and puts it in place of the file that it is for, or removes it.
fn fill_and_put<F: Folder>(
    folder: &mut F,
    file: &str,
    draft: &str,
    lock: &str,
    before: Option<&[u8]>,
    text: &[u8],
) -> Edited
    requires names { AreBeside file.now draft.now lock.now }
    requires ours { F.disk.ours folder.old draft.now }
    requires empty { seen F.disk folder.old draft.now ≡ Some [] }
    ensures edits { Edits F.disk folder.old folder.new file.now (option_map (λ text. text.now) before.entry) text.now draft.now lock.now result }
    ensures own { IsOwn result.ended }
    ensures gone { result.draft ≡ None → IsQuiet F.disk folder.old folder.new draft.now → seen F.disk folder.new draft.now ≡ None }
    ensures did { IsDoneBy result (Did F.disk folder.old folder.new (SyncingNames ∷ (swapping file.now draft.now lock.now ++ filling file.now draft.now text.now))) }
{
    match fill(folder, file, draft, text) {
        Ok(()) => put(folder, file, draft, lock, before, text),
        Err(error) => Edited {
            ended: Ended::Failed(error),
            draft: folder.remove(draft).err(),
            lock: None,
        },
    }
}

/// Makes a temporary file with a file's new text, and puts it in place of the file. Tells how that ended.
fn draft_and_put<F: Folder>(
    folder: &mut F,
    file: &str,
    draft: &str,
    lock: &str,
    before: Option<&[u8]>,
    text: &[u8],
) -> Edited
    requires { AreBeside file.now draft.now lock.now }
    ensures edits { Edits F.disk folder.old folder.new file.now (option_map (λ text. text.now) before.entry) text.now draft.now lock.now result }
    ensures drafted { IsTidied F.disk folder.old folder.new draft.now result.draft }
    ensures did { IsDoneBy result (Did F.disk folder.old folder.new (editing file.now text.now draft.now lock.now)) }
{
    match folder.make(draft) {
        Ok(true) => fill_and_put(folder, file, draft, lock, before, text),
        Ok(false) => Edited::without(Ended::Drafted),
        Err(error) => Edited::without(Ended::Failed(error)),
    }
}

/// Gives a file a text in place of the one before, or of none. The text is written down to the disk as the temporary file of the process of
/// a number. Then the lock is taken, and if the file has what it is to have before, the temporary file is renamed. Whenever the process or
/// the machine stops, the file has its old text or the new one, whole.
///
/// # Errors
///
/// Out of memory, before anything is done. How an edit ended that was begun is in the answer.
pub fn replace<F: Folder>(
    alloc: Global,
    folder: &mut F,
    file: &str,
    number: &str,
    before: Option<&[u8]>,
    text: &[u8],
) -> Result<Edited, AllocError>
    ensures edits { IfOk result (Edits F.disk folder.old folder.new file.now (option_map (λ text. text.now) before.entry) text.now (draft_of_lem file.now number.now) (lock_of file.now)) }
    // If nobody else changes the file meanwhile, a crash at any moment leaves it with its old text or with the new one, whole.
    ensures whole { OnOk result (IsQuiet F.disk folder.old folder.new file.now → LeavesOldOrNew F.disk folder.old folder.new file.now text.now) }
    ensures drafted { IfOk result (λ edited. IsTidied F.disk folder.old folder.new (draft_of_lem file.now number.now) edited.draft) }
    // An edit that is done has made these changes, in this order, and no other.
    ensures did { IfOk result (λ edited. IsDoneBy edited (Did F.disk folder.old folder.new (editing file.now text.now (draft_of_lem file.now number.now) (lock_of file.now)))) }
    ensures err { OnErr result (folder.new ≡ folder.old) }
{
    let draft = draft_of(alloc, file, number)?;
    let lock = lock_beside(alloc, file)?;
    Ok(draft_and_put(folder, file, draft.as_str(), lock.as_str(), before, text))
}
