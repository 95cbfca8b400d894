//! The folder in memory, by the calls that the one on the disk has.

use crate::memory::Memory;
use gixcfg_replacing::{Folder, FolderCalls};
use std::io;
use std::io::ErrorKind;

/// The folder in memory.
#[derive(Drop)]
pub struct InMemory {
    pub memory: Memory,
}

/// The error of a call that an edit doesn't make.
fn not_made() -> io::Error {
    io::Error::from(ErrorKind::InvalidInput)
}

impl FolderCalls for InMemory {
    ghost has_made = { λ first now changes. Unit {0} };

    fn read(&mut self, name: &str) -> io::Result<Option<Vec<u8>>> {
        self.memory.read(name)
    }

    fn make(&mut self, name: &str) -> io::Result<bool> {
        self.memory.make(name)
    }

    fn share_rights(&mut self, from: &str, to: &str) -> io::Result<()> {
        self.memory.share_rights(from, to)
    }

    fn write(&mut self, name: &str, text: &[u8]) -> io::Result<()> {
        match self.memory.read(name)? {
            Some(found) if found.is_empty() => self.memory.write(name, text),
            _ => Err(not_made()),
        }
    }

    fn sync(&mut self, name: &str) -> io::Result<()> {
        self.memory.sync(name)
    }

    fn rename(&mut self, from: &str, to: &str) -> io::Result<()> {
        if from == to {
            return Err(not_made());
        }
        self.memory.rename(from, to)
    }

    fn remove(&mut self, name: &str) -> io::Result<()> {
        self.memory.remove(name)
    }

    fn sync_names(&mut self) -> io::Result<()> {
        self.memory.sync_names()
    }
}
