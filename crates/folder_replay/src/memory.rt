//! A folder in memory, which keeps the calls that changed it.
ghost use Rattle.std.specs.Prelude.{◌≡◌, [], ◌∷◌, length, if◌then◌else◌, false, true, OnOk, OnErr, IfOk, option_map};
ghost use Rattle.gixcfg_replacing.specs.Disk.{last_found};
ghost use Rattle.gixcfg_replacing.specs.Calls.{past};

use crate::crash::{Chance, left_by_crash};
use gixcfg_replacing::{Call, seen};
use std::alloc::{AllocError, Global};
use std::io;
use std::io::ErrorKind;

/// A folder in memory, in which nobody else changes anything. It keeps the calls that changed it, so that it can tell what a crash after each of
/// them may leave, and one of its calls may be made to fail.
#[derive(Drop)]
pub struct Memory {
    alloc: Global,
    /// The last one first.
    calls: Vec<Call>,
    /// How many calls come before the one that fails.
    until: usize,
    /// Whether what fails is done all the same.
    halfway: bool,
    /// Whether it has failed.
    failed: bool,
}

impl Memory {
    ghost use Rattle.folder_replay.specs.Memory.{calls_of, faults_of, KeepsNone, Counts, MakesIn, SharesIn, WritesIn, SyncsIn, MovesIn, RemovesIn, SettlesIn};

    /// An empty directory, of which the call behind so many fails. That call is done all the same or not.
    pub fn new(alloc: Global, until: usize, halfway: bool) -> Memory
        ensures { calls_of result ≡ [] }
    {
        Memory {
            alloc,
            calls: Vec::new(alloc),
            until,
            halfway,
            failed: false,
        }
    }

    /// From now on no call fails.
    pub fn mend(&mut self) {
        self.failed = true;
    }

    /// How many calls have changed it.
    pub fn count(&self) -> usize
        ensures { result ≡ length (calls_of self.now) }
    {
        self.calls.len()
    }

    /// What a crash leaves at a name, by chance. The crash comes before the last so many of these calls.
    ///
    /// # Errors
    ///
    /// Out of memory.
    pub fn after_crash(
        &self,
        last: usize,
        name: &str,
        chance: &mut Chance,
    ) -> Result<Option<Vec<u8>>, AllocError> {
        let before = self.calls.split_at(last.min(self.calls.len())).1;
        left_by_crash(self.alloc, before, name.as_bytes(), chance)
    }

    /// Keeps a call.
    fn keep(&mut self, call: Call) -> Result<(), AllocError>
        ensures kept { OnOk result (calls_of self.new ≡ call ∷ calls_of self.old) }
        ensures err { OnErr result (calls_of self.new ≡ calls_of self.old) }
        ensures failed { self.new.failed ≡ self.old.failed }
    {
        match self.calls.insert(0, call) {
            Ok(()) => Ok(()),
            Err(_) => Err(AllocError),
        }
    }

    /// Whether this call is the one that fails.
    fn fails(&mut self) -> bool
        ensures calls { calls_of self.new ≡ calls_of self.old }
        ensures failed { self.new.failed ≡ (if result then true else self.old.failed) }
        ensures once { result ≡ true → self.old.failed ≡ false }
    {
        if self.failed {
            return false;
        }
        if self.until == 0 {
            self.failed = true;
            return true;
        }
        self.until -= 1;
        false
    }

    /// The text of the file at a name.
    pub(crate) fn text_at(&mut self, name: &[u8]) -> io::Result<Option<Vec<u8>>>
        ensures text { IfOk result (λ found. option_map (λ text. text.items) found ≡ last_found (past (calls_of self.old) name.now)) }
        ensures calls { KeepsNone self.old self.new }
        ensures counts { Counts self.old self.new result }
    {
        if self.fails() {
            return Err(io::Error::from(ErrorKind::Other));
        }
        match seen(&self.calls, name) {
            Some(text) => Ok(Some(Vec::from_slice(self.alloc, text)?)),
            None => Ok(None),
        }
    }

    /// Gives the file at a name the rights of another one. No file has any.
    pub(crate) fn share_at(&mut self, from: &[u8], to: &[u8]) -> io::Result<()>
        ensures shared { SharesIn self.old self.new from.now to.now result }
        ensures counts { Counts self.old self.new result }
    {
        if self.fails() {
            return Err(io::Error::from(ErrorKind::Other));
        }
        let source = Vec::from_slice(self.alloc, from)?;
        let target = Vec::from_slice(self.alloc, to)?;
        self.keep(Call::Shared(source, target))?;
        Ok(())
    }

    /// Makes an empty file if nothing is at the name.
    pub(crate) fn make_at(&mut self, name: &[u8]) -> io::Result<bool>
        ensures made { MakesIn self.old self.new name.now result }
        ensures counts { Counts self.old self.new result }
    {
        if self.fails() {
            return Err(io::Error::from(ErrorKind::Other));
        }
        if seen(&self.calls, name).is_some() {
            return Ok(false);
        }
        let at = Vec::from_slice(self.alloc, name)?;
        self.keep(Call::Made(at))?;
        Ok(true)
    }

    /// Gives the file at a name a text; where that fails, the first half of it.
    pub(crate) fn write_at(&mut self, name: &[u8], text: &[u8]) -> io::Result<()>
        ensures written { WritesIn self.old self.new name.now text.now result }
        ensures counts { Counts self.old self.new result }
    {
        let at = Vec::from_slice(self.alloc, name)?;
        if self.fails() {
            let half = Vec::from_slice(self.alloc, text.split_at(text.len() / 2).0)?;
            self.keep(Call::Written(at, half))?;
            return Err(io::Error::from(ErrorKind::Other));
        }
        let whole = Vec::from_slice(self.alloc, text)?;
        self.keep(Call::Written(at, whole))?;
        Ok(())
    }

    /// Writes down the text of the file at a name.
    pub(crate) fn sync_at(&mut self, name: &[u8]) -> io::Result<()>
        ensures synced { SyncsIn self.old self.new name.now result }
        ensures counts { Counts self.old self.new result }
    {
        if self.fails() {
            return Err(io::Error::from(ErrorKind::Other));
        }
        let at = Vec::from_slice(self.alloc, name)?;
        self.keep(Call::Synced(at))?;
        Ok(())
    }

    /// Gives the file at a name another one.
    pub(crate) fn move_at(&mut self, from: &[u8], to: &[u8]) -> io::Result<()>
        ensures moved { MovesIn self.old self.new from.now to.now result }
        ensures counts { Counts self.old self.new result }
    {
        let fails = self.fails();
        if fails && !self.halfway {
            return Err(io::Error::from(ErrorKind::Other));
        }
        let old_name = Vec::from_slice(self.alloc, from)?;
        let new_name = Vec::from_slice(self.alloc, to)?;
        self.keep(Call::Renamed(old_name, new_name))?;
        if fails {
            return Err(io::Error::from(ErrorKind::Other));
        }
        Ok(())
    }

    /// Removes the file at a name.
    pub(crate) fn remove_at(&mut self, name: &[u8]) -> io::Result<()>
        ensures removed { RemovesIn self.old self.new name.now result }
        ensures counts { Counts self.old self.new result }
    {
        let fails = self.fails();
        if fails && !self.halfway {
            return Err(io::Error::from(ErrorKind::Other));
        }
        let at = Vec::from_slice(self.alloc, name)?;
        self.keep(Call::Removed(at))?;
        if fails {
            return Err(io::Error::from(ErrorKind::Other));
        }
        Ok(())
    }

    /// Writes the names down.
    pub(crate) fn settle(&mut self) -> io::Result<()>
        ensures settled { SettlesIn self.old self.new result }
        ensures counts { Counts self.old self.new result }
    {
        if self.fails() {
            return Err(io::Error::from(ErrorKind::Other));
        }
        self.keep(Call::Settled)?;
        Ok(())
    }
}
