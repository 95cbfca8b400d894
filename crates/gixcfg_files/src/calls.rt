//! The calls on the system by which a file is edited: no other function of this crate changes anything on a disk.
ghost use Rattle.std.specs.Prelude.{◌≡◌, List, Option, None, Some, IfSome, option_map};
ghost use Rattle.gixcfg_files.specs.Acts.{Act, told_after, told_look, told_open, told_read, told_make, told_hold, told_done, IsMade, MayRename, MayRemove, MayGive};
ghost use Rattle.gixcfg_files.specs.Acts.Act.{Began, Linked, GaveGroup, GaveOwner, Allowed, Wrote, WroteDown, WroteDownNames, Renamed, Removed};

use crate::edit_files::EditFiles;
use crate::fault::Fault;
use crate::process::{Process, drawn};
use crate::reading::read_all;
use crate::rights::{Original, Rights};
use std::alloc::{AllocGlobal, Global};
use std::fs::{OpenFile, OpenOptions, Permissions};
use std::io::{ErrorKind, Read, Write};
use std::os::unix::fs::{OpenOptionsExt, PermissionsExt};
use std::{fs, io};

/// How many bytes of names a directory is asked for at a time.
const PART: usize = 4096;

/// The bits of a mode that give nobody the rights of the file's owner or group.
const PLAIN: u32 = 0o777;

/// What is at a path.
#[derive(Clone, Copy)]
pub struct Look {
    /// Which file it is, and its rights.
    pub original: Original,
    pub kind: Kind,
}

/// What kind of file is at a path.
#[derive(Clone, Copy)]
pub enum Kind {
    /// A regular one.
    File,
    /// A symbolic link.
    Link,
    Other,
}

/// An open file.
#[derive(Drop)]
pub struct Open<F: Drop> {
    file: F,
    /// Which file it is, and what its rights were when it was opened.
    original: Original,
}

impl<F: Drop> Open<F> {
    /// Which file it is, and what its rights were when it was opened.
    pub fn original(&self) -> Original
        ensures { result ≡ self.now.original }
    {
        self.original
    }
}

/// A file as an edit found it.
#[derive(Drop)]
pub struct Found {
    pub original: Original,
    pub text: Vec<u8>,
}

/// An edit that begins.
#[derive(Clone, Copy)]
pub struct Beginning<'a> {
    /// The path of the file.
    pub path: &'a str,
    /// The path of its lock.
    pub lock: &'a str,
    /// The file as it was found, if it was there.
    pub found: Option<&'a Found>,
    /// Whether the edit holds what it makes.
    pub holds: bool,
}

/// The system on which a file is edited, as it is asked and answers. It may answer anything: between two calls others may put another file or a
/// link at a path, or take away what is ours, and they may have our number. What is asked for has conditions, on what was answered before.
pub trait EditCalls: Drop {
    type File: Drop;

    /// What was asked and answered, the last first, where that is told.
    ghost told: { Self → Option (List Act) };

    fn alloc(&self) -> Global;

    /// The process that edits; none where the system doesn't tell of it.
    ///
    /// # Errors
    ///
    /// Out of memory.
    fn process(&mut self) -> Result<Option<Process>, Fault>
        ensures { told self.new ≡ told self.old };

    /// What the system draws; none where it doesn't.
    ///
    /// # Errors
    ///
    /// Out of memory.
    fn draw(&mut self) -> Result<Option<String>, Fault>
        ensures { told self.new ≡ told self.old };

    /// The names in a directory, each with a zero byte behind it.
    ///
    /// # Errors
    ///
    /// The directory can't be opened or read; out of memory.
    fn names_in(&mut self, folder: &str) -> io::Result<Vec<u8>>
        ensures { told self.new ≡ told self.old };

    /// Begins an edit. Does nothing.
    fn begin(&mut self, edit: Beginning<'_>)
        ensures { told self.new ≡ told_after (told self.old) (Began edit.entry.path.now edit.entry.lock.now (option_map (λ found. (found.now.original, found.now.text.items)) edit.entry.found) edit.entry.holds) };

    /// What is at a path, even a link; none if nothing is there.
    ///
    /// # Errors
    ///
    /// It can't be found out.
    fn look(&mut self, path: &str) -> io::Result<Option<Look>>
        ensures { told self.new ≡ told_look (told self.old) path.now result };

    /// Opens what is at a path, or where a link there leads, to be read.
    ///
    /// # Errors
    ///
    /// It can't be opened.
    fn open(&mut self, path: &str) -> io::Result<Open<Self::File>>
        ensures { told self.new ≡ told_open (told self.old) path.now result };

    /// The first bytes of an open file, and how many they are.
    ///
    /// # Errors
    ///
    /// It can't be read.
    fn read_start(&mut self, file: &mut Open<Self::File>, part: &mut [u8]) -> io::Result<usize>
        ensures told { told self.new ≡ told self.old }
        ensures file { file.new.original ≡ file.old.original };

    /// The text of an open file.
    ///
    /// # Errors
    ///
    /// It can't be read; out of memory.
    fn read(&mut self, file: Open<Self::File>) -> io::Result<Vec<u8>>
        ensures { told self.new ≡ told_read (told self.old) file.original result };

    /// Makes a file that isn't there, with these rights less what the process's mask takes, to be written.
    ///
    /// # Errors
    ///
    /// Something is at the path already; the file can't be made, or nothing can be told of it.
    fn make(&mut self, path: &str, mode: u32) -> io::Result<Open<Self::File>>
        ensures { told self.new ≡ told_make (told self.old) path.now result };

    /// Gives a file a second path.
    ///
    /// # Errors
    ///
    /// Something is at that path already; the file isn't there, or can't be given that path.
    fn link(&mut self, from: &str, to: &str) -> io::Result<()>
        ensures { told self.new ≡ told_done (told self.old) result (Linked from.now to.now) };

    /// Holds an open file until it is closed, as it is when the process ends, however it ends. Tells whether it does: not if it is held already.
    ///
    /// # Errors
    ///
    /// Files of that kind, or on that disk, can't be held.
    fn hold(&mut self, file: &Open<Self::File>) -> io::Result<bool>
        ensures { told self.new ≡ told_hold (told self.old) file.now.original.identity result };

    /// Gives an open file the group of these rights.
    ///
    /// # Errors
    ///
    /// The process may not do that.
    fn give_group(&mut self, file: &Open<Self::File>, rights: Rights) -> io::Result<()>
        requires { IfSome (told self.old) (MayGive file.now.original.identity rights) }
        ensures { told self.new ≡ told_after (told self.old) (GaveGroup file.now.original.identity rights.group) };

    /// Gives an open file the owner of these rights.
    ///
    /// # Errors
    ///
    /// The process may not do that.
    fn give_owner(&mut self, file: &Open<Self::File>, rights: Rights) -> io::Result<()>
        requires { IfSome (told self.old) (MayGive file.now.original.identity rights) }
        ensures { told self.new ≡ told_after (told self.old) (GaveOwner file.now.original.identity rights.owner) };

    /// Gives an open file the mode of these rights; or only who may read, write and run it.
    ///
    /// # Errors
    ///
    /// The process may not do that.
    fn allow(&mut self, file: &Open<Self::File>, rights: Rights, is_whole: bool) -> io::Result<()>
        requires { IfSome (told self.old) (MayGive file.now.original.identity rights) }
        ensures { told self.new ≡ told_after (told self.old) (Allowed file.now.original.identity rights.mode) };

    /// Writes a text to an open file.
    ///
    /// # Errors
    ///
    /// The text can't be written.
    fn write(&mut self, file: &mut Open<Self::File>, text: &[u8]) -> io::Result<()>
        requires { IfSome (told self.old) (IsMade file.old.original.identity) }
        ensures told { told self.new ≡ told_done (told self.old) result (Wrote file.old.original.identity text.now) }
        ensures file { file.new.original ≡ file.old.original };

    /// Writes the text of an open file down to the disk.
    ///
    /// # Errors
    ///
    /// It can't be written down.
    fn sync(&mut self, file: &Open<Self::File>) -> io::Result<()>
        ensures { told self.new ≡ told_done (told self.old) result (WroteDown file.now.original.identity) };

    /// Gives a file another path, in place of what is there.
    ///
    /// # Errors
    ///
    /// The file isn't there, or can't be given that path.
    fn rename(&mut self, from: &str, to: &str) -> io::Result<()>
        requires { IfSome (told self.old) (MayRename from.now to.now) }
        ensures { told self.new ≡ told_done (told self.old) result (Renamed from.now to.now) };

    /// Removes a file. If that fails for want of memory it is tried again, since what stays would stand in the way of others.
    ///
    /// # Errors
    ///
    /// The file isn't there, or can't be removed.
    fn remove(&mut self, path: &str) -> io::Result<()>
        requires { IfSome (told self.old) (MayRemove path.now) }
        ensures { told self.new ≡ told_after (told self.old) (Removed path.now) };

    /// Writes down to the disk which files a directory has. If that fails for want of memory it is tried again, since the file has its new
    /// text already.
    ///
    /// # Errors
    ///
    /// The directory can't be opened, or not be written down.
    fn sync_folder(&mut self, folder: &str) -> io::Result<()>
        ensures { told self.new ≡ told_done (told self.old) result (WroteDownNames folder.now) };
}

/// The files of a system. It tells nothing.
#[derive(Drop)]
pub struct System<'a, R: EditFiles + AllocGlobal> {
    files: &'a R,
}

impl<'a, R: EditFiles + AllocGlobal> System<'a, R> {
    /// The system of these files.
    pub fn new(files: &'a R) -> System<'a, R> {
        System { files }
    }
}

impl<R: EditFiles + AllocGlobal> EditCalls for System<'_, R> {
    type File = R::File;

    ghost told = { λ _. None };

    fn alloc(&self) -> Global {
        self.files.alloc()
    }

    fn process(&mut self) -> Result<Option<Process>, Fault> {
        Process::this(self.files)
    }

    fn draw(&mut self) -> Result<Option<String>, Fault> {
        drawn(self.files)
    }

    fn names_in(&mut self, folder: &str) -> io::Result<Vec<u8>> {
        let mut listing = self.files.open_dir(folder)?;
        let mut names = Vec::new(self.files.alloc());
        let mut part = [0u8; PART];
        for _ in 0..u64::MAX {
            let count = listing.read(&mut part)?;
            if count == 0 {
                break;
            }
            names.extend_from_slice(&part[..count])?;
        }
        Ok(names)
    }

    fn begin(&mut self, _edit: Beginning<'_>) {}

    fn look(&mut self, path: &str) -> io::Result<Option<Look>> {
        match self.files.symlink_metadata(path) {
            Ok(metadata) => Ok(Some(Look {
                original: Original::of(&metadata),
                kind: if metadata.is_file() {
                    Kind::File
                } else if metadata.is_symlink() {
                    Kind::Link
                } else {
                    Kind::Other
                },
            })),
            Err(error) if error.kind() == ErrorKind::NotFound => Ok(None),
            Err(error) => Err(error),
        }
    }

    fn open(&mut self, path: &str) -> io::Result<Open<R::File>> {
        let file = fs::open(self.files, path)?;
        let original = Original::of(&file.metadata()?);
        Ok(Open { file, original })
    }

    fn read_start(&mut self, file: &mut Open<R::File>, part: &mut [u8]) -> io::Result<usize> {
        file.file.read(part)
    }

    fn read(&mut self, file: Open<R::File>) -> io::Result<Vec<u8>>
        ensures { None ≡ told_read None file.original result }
    {
        read_all(file.file, Vec::new(self.files.alloc()))
    }

    fn make(&mut self, path: &str, mode: u32) -> io::Result<Open<R::File>> {
        let mut options = OpenOptions::new();
        options.write(true).create_new(true).mode(mode);
        let file = options.open(self.files, path)?;
        match file.metadata() {
            Ok(metadata) => Ok(Open {
                file,
                original: Original::of(&metadata),
            }),
            Err(error) => {
                let _ = remove(self.files, path);
                Err(error)
            }
        }
    }

    fn link(&mut self, from: &str, to: &str) -> io::Result<()> {
        self.files.hard_link(from, to)
    }

    fn hold(&mut self, file: &Open<R::File>) -> io::Result<bool> {
        self.files.hold(&file.file)
    }

    fn give_group(&mut self, file: &Open<R::File>, rights: Rights) -> io::Result<()> {
        self.files.give(&file.file, None, Some(rights.group))
    }

    fn give_owner(&mut self, file: &Open<R::File>, rights: Rights) -> io::Result<()> {
        self.files.give(&file.file, Some(rights.owner), None)
    }

    fn allow(&mut self, file: &Open<R::File>, rights: Rights, is_whole: bool) -> io::Result<()> {
        let mode = if is_whole {
            rights.mode
        } else {
            rights.mode & PLAIN
        };
        file.file.set_permissions(Permissions::from_mode(mode))
    }

    fn write(&mut self, file: &mut Open<R::File>, text: &[u8]) -> io::Result<()> {
        file.file.write_all(text)?;
        file.file.flush()
    }

    fn sync(&mut self, file: &Open<R::File>) -> io::Result<()> {
        file.file.sync_all()
    }

    fn rename(&mut self, from: &str, to: &str) -> io::Result<()> {
        self.files.rename(from, to)
    }

    fn remove(&mut self, path: &str) -> io::Result<()> {
        remove(self.files, path)
    }

    fn sync_folder(&mut self, folder: &str) -> io::Result<()> {
        let opened = match fs::open(self.files, folder) {
            Err(error) if error.kind() == ErrorKind::OutOfMemory => fs::open(self.files, folder),
            opened => opened,
        };
        opened?.sync_all()
    }
}

/// Removes a file, if need be by a second try.
fn remove<R: EditFiles>(files: &R, path: &str) -> io::Result<()> {
    match files.remove_file(path) {
        Err(error) if error.kind() == ErrorKind::OutOfMemory => files.remove_file(path),
        done => done,
    }
}
