//! A directory on a disk, as an edit in place sees it.
ghost use Rattle.std.specs.Prelude.{◌≡◌, ◌≢◌, ◌≤◌, ℕ, true, List, [], ◌∷◌, Option, Some, None, Ok, option_map, IfOk, IfErr, OnOk};
ghost use Rattle.gixcfg_replacing.specs.Changes.{Making, Sharing, Writing, Syncing, Renaming, Removing, SyncingNames};
ghost use Rattle.gixcfg_replacing.specs.Disk.{Disk, seen, lock_of, IsQuiet, IsLeftAlone, IsRespected, Did, GoesOn, HasCause, Makes, Moves, IsOldOrMoved, IsNameDown};

use std::io;

/// A directory on a disk, with a clock. Files have names in it; names that differ are of different files. The text of a file may be torn by
/// a crash until it is synced, and a name has its old file, its new one or none until the names are synced. Each call may fail, and others
/// may change the directory during it: but not what is ours, nor a file while we have its lock.
///
/// That a directory of a disk is one can't be proved. It is taken to be one where upper and lower case count, a rename puts one file in
/// place of the other in one step, also for a crash, and what was synced stays; where a lock counts as empty, whatever it says of who has
/// it; and where other programs make FILE.lock before they change FILE, and leave a lock or a temporary file that they didn't make. Whose a
/// file is, and which one it is where others have the same text, isn't said here.
pub trait Folder {
    /// What readers find, what a crash leaves, and what is whose.
    ghost disk: { Disk Self };

    /// The text of the file at a name; none if nothing is there.
    ///
    /// # Errors
    ///
    /// It can't be opened or read. Nothing is done.
    fn read(&mut self, name: &str) -> io::Result<Option<Vec<u8>>>
        ensures text { IfOk result (λ found. IsQuiet disk self.old self.new name.now → option_map (λ text. text.items) found ≡ seen disk self.old name.now) }
        ensures alone { (other : List ℕ) → IsLeftAlone disk self.old self.new other }
        ensures respect { (other : List ℕ) → IsRespected disk self.old self.new other }
        ensures did { OnOk result (Did disk self.old self.new []) }
        ensures time { GoesOn disk self.old self.new }
        ensures cause { IfErr result (HasCause disk self.old self.new) };

    /// Makes an empty file if nothing is at the name, and tells whether it did.
    ///
    /// # Errors
    ///
    /// It can't be made. Nothing is done.
    fn make(&mut self, name: &str) -> io::Result<bool>
        ensures made { Makes disk self.old self.new name.now result }
        ensures alone { (other : List ℕ) → other ≢ name.now → IsLeftAlone disk self.old self.new other }
        ensures respect { (other : List ℕ) → IsRespected disk self.old self.new other }
        ensures did { result ≡ Ok true → Did disk self.old self.new (Making name.now ∷ []) }
        ensures time { GoesOn disk self.old self.new }
        ensures cause { IfErr result (HasCause disk self.old self.new) };

    /// Gives a file of ours the rights of another one if that is there, as far as the process may.
    ///
    /// # Errors
    ///
    /// They can't be given. All texts stay.
    fn share_rights(&mut self, from: &str, to: &str) -> io::Result<()>
        requires { disk.ours self.old to.now }
        ensures alone { (other : List ℕ) → IsLeftAlone disk self.old self.new other }
        ensures respect { (other : List ℕ) → IsRespected disk self.old self.new other }
        ensures did { OnOk result (Did disk self.old self.new (Sharing from.now to.now ∷ [])) }
        ensures time { GoesOn disk self.old self.new }
        ensures cause { IfErr result (HasCause disk self.old self.new) };

    /// Writes a text to a file of ours that is empty.
    ///
    /// # Errors
    ///
    /// It can't be written. The file has any text then.
    fn write(&mut self, name: &str, text: &[u8]) -> io::Result<()>
        requires ours { disk.ours self.old name.now }
        requires empty { seen disk self.old name.now ≡ Some [] }
        ensures written { OnOk result (seen disk self.new name.now ≡ Some text.now) }
        ensures ours { disk.ours self.new name.now }
        ensures alone { (other : List ℕ) → other ≢ name.now → IsLeftAlone disk self.old self.new other }
        ensures respect { (other : List ℕ) → IsRespected disk self.old self.new other }
        ensures did { OnOk result (Did disk self.old self.new (Writing name.now text.now ∷ [])) }
        ensures time { GoesOn disk self.old self.new }
        ensures cause { IfErr result (HasCause disk self.old self.new) };

    /// Writes the text of a file of ours down to the disk: from then on, a crash leaves it whole wherever it leaves the file.
    ///
    /// # Errors
    ///
    /// It can't be written down. The file has any text then.
    fn sync(&mut self, name: &str) -> io::Result<()>
        requires { disk.ours self.old name.now }
        ensures seen { OnOk result (seen disk self.new name.now ≡ seen disk self.old name.now) }
        ensures down { OnOk result ((text : List ℕ) → disk.may_hold self.new name.now text → Some text ≡ seen disk self.old name.now) }
        ensures ours { disk.ours self.new name.now }
        ensures alone { (other : List ℕ) → other ≢ name.now → IsLeftAlone disk self.old self.new other }
        ensures respect { (other : List ℕ) → IsRespected disk self.old self.new other }
        ensures did { OnOk result (Did disk self.old self.new (Syncing name.now ∷ [])) }
        ensures time { GoesOn disk self.old self.new }
        ensures cause { IfErr result (HasCause disk self.old self.new) };

    /// Gives a file of ours another name, in place of the file that has it and whose lock is ours. At each moment readers find one of both
    /// there, and so does a crash.
    ///
    /// # Errors
    ///
    /// It can't be renamed, or a disk that failed meanwhile has done it.
    fn rename(&mut self, from: &str, to: &str) -> io::Result<()>
        requires apart { from.now ≢ to.now }
        requires ours { disk.ours self.old from.now }
        requires locked { disk.ours self.old (lock_of to.now) }
        ensures moved { Moves disk self.old self.new from.now to.now result }
        ensures crash { IsOldOrMoved disk self.old self.new from.now to.now }
        ensures alone { (other : List ℕ) → other ≢ from.now → other ≢ to.now → IsLeftAlone disk self.old self.new other }
        ensures respect { (other : List ℕ) → other ≢ from.now → IsRespected disk self.old self.new other }
        ensures did { OnOk result (Did disk self.old self.new (Renaming from.now to.now ∷ [])) }
        ensures time { GoesOn disk self.old self.new }
        ensures cause { IfErr result (HasCause disk self.old self.new) };

    /// Removes a file of ours, if it is there still.
    ///
    /// # Errors
    ///
    /// It can't be removed, and may be there still.
    fn remove(&mut self, name: &str) -> io::Result<()>
        requires { disk.ours self.old name.now }
        ensures gone { OnOk result (IsQuiet disk self.old self.new name.now → seen disk self.new name.now ≡ None) }
        ensures alone { (other : List ℕ) → other ≢ name.now → IsLeftAlone disk self.old self.new other }
        ensures respect { (other : List ℕ) → other ≢ name.now → IsRespected disk self.old self.new other }
        ensures did { OnOk result (Did disk self.old self.new (Removing name.now ∷ [])) }
        ensures time { GoesOn disk self.old self.new }
        ensures cause { IfErr result (HasCause disk self.old self.new) };

    /// Writes the names down to the disk: from then on, a crash leaves each file at its name.
    ///
    /// # Errors
    ///
    /// They can't be written down.
    fn sync_names(&mut self) -> io::Result<()>
        ensures down { OnOk result ((name : List ℕ) → IsQuiet disk self.old self.new name → IsNameDown disk self.new name) }
        ensures alone { (other : List ℕ) → IsLeftAlone disk self.old self.new other }
        ensures respect { (other : List ℕ) → IsRespected disk self.old self.new other }
        ensures did { OnOk result (Did disk self.old self.new (SyncingNames ∷ [])) }
        ensures time { GoesOn disk self.old self.new }
        ensures cause { IfErr result (HasCause disk self.old self.new) };

    /// This moment is one of those since an earlier one.
    ghost counts_now: { (folder : Self) (t : ℕ) (name : List ℕ) (left : Option (List ℕ)) → t ≤ disk.moment folder → disk.may_leave folder name left → disk.left_since folder t name left };

    /// Since this moment there is no other.
    ghost only_now: { (folder : Self) (name : List ℕ) (left : Option (List ℕ)) → disk.left_since folder (disk.moment folder) name left → disk.may_leave folder name left };
}
