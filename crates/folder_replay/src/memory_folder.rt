//! The folder in memory is a folder with a clock.
ghost use Rattle.folder_replay.specs.Memory.{memory_disk};
ghost use Rattle.gixcfg_replacing.specs.Calls.{counts_now, only_now};

use crate::memory::Memory;
use gixcfg_replacing::Folder;
use std::io;

impl Folder for Memory {
    ghost disk = { memory_disk };

    ghost counts_now = { λ m t n left le now. counts_now m.calls.items t n left le now };

    ghost only_now = { λ m n left since. only_now m.calls.items n left since };

    fn read(&mut self, name: &str) -> io::Result<Option<Vec<u8>>> {
        self.text_at(name.as_bytes())
    }

    fn make(&mut self, name: &str) -> io::Result<bool> {
        self.make_at(name.as_bytes())
    }

    fn share_rights(&mut self, from: &str, to: &str) -> io::Result<()> {
        self.share_at(from.as_bytes(), to.as_bytes())
    }

    fn write(&mut self, name: &str, text: &[u8]) -> io::Result<()> {
        self.write_at(name.as_bytes(), text)
    }

    fn sync(&mut self, name: &str) -> io::Result<()> {
        self.sync_at(name.as_bytes())
    }

    fn rename(&mut self, from: &str, to: &str) -> io::Result<()> {
        self.move_at(from.as_bytes(), to.as_bytes())
    }

    fn remove(&mut self, name: &str) -> io::Result<()> {
        self.remove_at(name.as_bytes())
    }

    fn sync_names(&mut self) -> io::Result<()> {
        self.settle()
    }
}
