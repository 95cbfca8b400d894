//! A runtime in memory: files, variables and a working directory, with the file operation that fails.
ghost use Rattle.std.specs.Io.{WritesAtMost};
ghost use Rattle.std.specs.Prelude.{◌≤◌, length};

use crate::refusal::Refusal;
use crate::tree::{Node, Tree};
use gixcfg_files::EditFiles;
use std::alloc::{AllocError, Allocator, Global};
use std::cell::{Cell, Ref, RefCell, RefMut};
use std::env::FillError;
use std::fs::{Metadata, OpenFile, OpenOptions, Permissions};
use std::io;
use std::io::{ErrorKind, Read, Seek, SeekFrom, Write};
use std::os::unix::fs::PermissionsExt;
use std::path::PathBuf;
use std::rt::{Env, Files};

/// The bits of a mode that say who may do what.
const RIGHTS: u32 = 0o777;

/// The number of the process that a machine runs.
const PROCESS: &str = "7";

/// A variable: its name and its text, which need not be UTF-8.
#[derive(Drop)]
pub struct Variable {
    pub name: String,
    pub text: Vec<u8>,
}

/// What another process does to a file.
#[derive(Clone, Copy)]
pub enum Change {
    /// It writes a line more.
    Grow,
    /// It removes it.
    Remove,
    /// It makes it.
    Make,
}

/// Another process, which changes a file each time before a lock is made, so many times.
#[derive(Drop)]
struct Other {
    path: String,
    change: Change,
    left: Cell<usize>,
}

/// What a machine has, and what was asked of it.
#[derive(Drop)]
pub struct State {
    alloc: Global,
    variables: Vec<Variable>,
    tree: RefCell<Tree>,
    /// How many file operations come before the one that fails.
    left: Cell<Option<usize>>,
    /// How many operations changed what a file or a path has.
    changes: Cell<usize>,
    other: Option<Other>,
    /// The file at this path is held by another process.
    held: Option<String>,
}

impl State {
    /// A machine of these files, in which none was changed, without variables. Its working directory is that in which paths of the tree
    /// begin.
    pub fn new(alloc: Global, tree: Tree) -> State {
        State {
            alloc,
            variables: Vec::new(alloc),
            tree: RefCell::new(tree),
            left: Cell::new(None),
            changes: Cell::new(0),
            other: None,
            held: None,
        }
    }

    /// Lets another process change a file each time before a lock is made. `count` says how many times.
    pub fn disturb(&mut self, path: &str, change: Change, count: usize) -> Result<(), AllocError> {
        self.other = Some(Other {
            path: String::from_str(self.alloc, path)?,
            change,
            left: Cell::new(count),
        });
        Ok(())
    }

    /// Lets another process hold the file at a path.
    pub fn hold(&mut self, path: &str) -> Result<(), AllocError> {
        self.held = Some(String::from_str(self.alloc, path)?);
        Ok(())
    }

    /// Puts something at a path where nothing is.
    pub fn put(&mut self, path: &str, node: Node) -> Result<(), AllocError> {
        self.tree.get_mut().put(path, node)?;
        Ok(())
    }

    /// Adds a variable, which isn't set yet.
    pub fn set(&mut self, name: &str, text: &[u8]) -> Result<(), AllocError> {
        let name = String::from_str(self.alloc, name)?;
        let text = Vec::from_slice(self.alloc, text)?;
        self.variables.push(Variable { name, text })?;
        Ok(())
    }

    /// The variables that are set.
    pub fn variables(&self) -> &[Variable] {
        &self.variables
    }

    /// Lets the file operation fail that comes after so many others.
    pub fn fail_after(&self, count: usize) {
        self.left.set(Some(count));
    }

    /// Whether the operation that was to fail has come.
    pub fn has_failed(&self) -> bool {
        self.left.get().is_none()
    }

    /// How many operations changed what a file or a path has.
    pub fn changes(&self) -> usize {
        self.changes.get()
    }
}

/// The runtime that a machine is.
#[derive(Clone, Copy)]
pub struct Machine<'a> {
    pub state: &'a State,
}

impl<'a> Machine<'a> {
    /// Begins a file operation, which may be the one that fails.
    fn begin(&self) -> io::Result<()> {
        match self.state.left.get() {
            Some(0) => {
                self.state.left.set(None);
                Err(Refusal::Forbidden.error())
            }
            Some(count) => {
                self.state.left.set(Some(count.saturating_sub(1)));
                Ok(())
            }
            None => Ok(()),
        }
    }

    /// Begins a file operation that changes what a file or a path has.
    fn change(&self) -> io::Result<()> {
        self.begin()?;
        let changes = self.state.changes.get();
        self.state.changes.set(changes.saturating_add(1));
        Ok(())
    }

    /// Lets the other process change its file, if it still does.
    fn be_disturbed(&self) -> io::Result<()> {
        match &self.state.other {
            Some(other) if other.left.get() > 0 => {
                other.left.set(other.left.get().saturating_sub(1));
                make_change(&mut *self.tree_mut()?, &other.path, other.change)
            }
            _ => Ok(()),
        }
    }

    /// What is there.
    pub fn tree(&self) -> io::Result<Ref<'a, Tree>> {
        match self.state.tree.try_borrow() {
            Ok(tree) => Ok(tree),
            Err(_) => Err(io::Error::from(ErrorKind::Other)),
        }
    }

    /// The same, to be changed.
    pub fn tree_mut(&self) -> io::Result<RefMut<'a, Tree>> {
        match self.state.tree.try_borrow_mut() {
            Ok(tree) => Ok(tree),
            Err(_) => Err(io::Error::from(ErrorKind::Other)),
        }
    }
}

impl Alloc for Machine<'_> {
    type A = Global;

    fn alloc(&self) -> Global {
        self.state.alloc
    }
}

/// Changes a file in a tree.
fn make_change(tree: &mut Tree, path: &str, change: Change) -> io::Result<()> {
    match change {
        Change::Grow => {
            let number = tree.open(path)?;
            tree.append(number, b"#\n")
        }
        Change::Remove => tree.remove(path),
        Change::Make => {
            tree.create(path)?;
            Ok(())
        }
    }
}

/// Copies a text to the start of a buffer, and returns its length.
fn filled(text: &[u8], buf: &mut [u8]) -> Result<usize, FillError>
    ensures { WritesAtMost result buf.new }
{
    let count = text.len();
    if count > buf.len() {
        return Err(FillError::TooLong);
    }
    buf[..count].copy_from_slice(text);
    Ok(count)
}

impl Env for Machine<'_> {
    fn arg(&self, _i: usize, _buf: &mut [u8]) -> Result<usize, FillError> {
        Err(FillError::NotPresent)
    }

    fn var(&self, name: &str, buf: &mut [u8]) -> Result<usize, FillError> {
        for variable in &self.state.variables {
            if variable.name.as_str() == name {
                return filled(&variable.text, buf);
            }
        }
        Err(FillError::NotPresent)
    }

    fn var_at(&self, _i: usize, _buf: &mut [u8]) -> Result<usize, FillError> {
        Err(FillError::NotPresent)
    }

    fn current_dir(&self, buf: &mut [u8]) -> io::Result<usize> {
        let tree = self.tree()?;
        match filled(tree.folder().as_bytes(), buf) {
            Ok(count) => Ok(count),
            Err(_) => Err(io::Error::from(ErrorKind::InvalidFilename)),
        }
    }
}

/// A file of a machine that is open, or a directory.
#[derive(Clone, Copy)]
pub struct Opened<'a> {
    machine: Machine<'a>,
    number: usize,
    /// How many bytes were read.
    at: usize,
}

impl Read for Opened<'_> {
    fn read(&mut self, buf: &mut [u8]) -> io::Result<usize> {
        self.machine.begin()?;
        let tree = self.machine.tree()?;
        let text = tree.text_of(self.number)?;
        let count = text.split_at(self.at.min(text.len())).1.read(buf)?;
        self.at = self.at.saturating_add(count);
        Ok(count)
    }
}

impl Write for Opened<'_> {
    fn write(&mut self, buf: &[u8]) -> io::Result<usize> {
        self.machine.change()?;
        let mut tree = self.machine.tree_mut()?;
        tree.append(self.number, buf)?;
        Ok(buf.len())
    }

    fn flush(&mut self) -> io::Result<()> {
        Ok(())
    }
}

impl Seek for Opened<'_> {
    fn seek(&mut self, _to: SeekFrom) -> io::Result<u64> {
        Err(Refusal::Unknown.error())
    }
}

impl OpenFile for Opened<'_> {
    fn metadata(&self) -> io::Result<Metadata> {
        self.machine.begin()?;
        self.machine.tree()?.metadata_of(self.number)
    }

    fn set_len(&self, _size: u64) -> io::Result<()> {
        Err(Refusal::Unknown.error())
    }

    fn sync_all(&self) -> io::Result<()> {
        self.machine.begin()
    }

    fn sync_data(&self) -> io::Result<()> {
        self.machine.begin()
    }

    fn set_permissions(&self, perm: Permissions) -> io::Result<()> {
        self.machine.begin()?;
        let mut tree = self.machine.tree_mut()?;
        // The mode also says what kind of file it was taken from.
        tree.set_mode(self.number, perm.mode() & RIGHTS);
        Ok(())
    }
}

/// The names in an open directory of a machine, each with a zero byte behind.
#[derive(Drop)]
pub struct Listing<'a> {
    machine: Machine<'a>,
    names: Vec<u8>,
    /// How many bytes were read.
    at: usize,
}

impl Read for Listing<'_> {
    /// Gives one name.
    fn read(&mut self, buf: &mut [u8]) -> io::Result<usize> {
        self.machine.begin()?;
        let left = self.names.split_at(self.at.min(self.names.len())).1;
        let count = left.split_at(first_of(left)).0.read(buf)?;
        self.at = self.at.saturating_add(count);
        Ok(count)
    }
}

/// How many bytes the first of some names has, with the zero byte behind it.
fn first_of(names: &[u8]) -> usize
    ensures { result ≤ length names.now }
{
    match names.iter().position(|byte| *byte == 0) {
        Some(end) => end.saturating_add(1).min(names.len()),
        None => 0,
    }
}

impl<'a> Files for Machine<'a> {
    type File = Opened<'a>;

    type Dir = Listing<'a>;

    fn open_file(&self, how: &OpenOptions, path: &str) -> io::Result<Opened<'a>> {
        how.check()?;
        self.begin()?;
        if path.ends_with(".lock") {
            self.be_disturbed()?;
        }
        let number = if how.asks_create_new() {
            self.tree_mut()?.create(path)?
        } else {
            self.tree()?.open(path)?
        };
        Ok(Opened {
            machine: *self,
            number,
            at: 0,
        })
    }

    fn open_dir(&self, path: &str) -> io::Result<Listing<'a>> {
        self.begin()?;
        let names = self.tree()?.names_in(path)?;
        Ok(Listing {
            machine: *self,
            names,
            at: 0,
        })
    }

    fn metadata(&self, path: &str) -> io::Result<Metadata> {
        self.begin()?;
        self.tree()?.metadata(path)
    }

    fn symlink_metadata(&self, path: &str) -> io::Result<Metadata> {
        self.begin()?;
        self.tree()?.symlink_metadata(path)
    }

    fn copy(&self, _from: &str, _to: &str) -> io::Result<u64> {
        Err(Refusal::Unknown.error())
    }

    fn rename(&self, from: &str, to: &str) -> io::Result<()> {
        self.change()?;
        self.tree_mut()?.rename(from, to)
    }

    fn hard_link(&self, original: &str, link: &str) -> io::Result<()> {
        self.begin()?;
        self.tree_mut()?.link(original, link)
    }

    fn remove_file(&self, path: &str) -> io::Result<()> {
        self.begin()?;
        self.tree_mut()?.remove(path)
    }

    fn create_dir(&self, _path: &str) -> io::Result<()> {
        Err(Refusal::Unknown.error())
    }

    fn remove_dir(&self, _path: &str) -> io::Result<()> {
        Err(Refusal::Unknown.error())
    }

    fn remove_dir_all<B: Allocator>(&self, _alloc: B, _path: &str) -> io::Result<()> {
        Err(Refusal::Unknown.error())
    }

    fn canonicalize<B: Allocator>(&self, alloc: B, path: &str) -> io::Result<PathBuf<B>> {
        self.begin()?;
        let path = self.tree()?.canonical(path)?;
        Ok(PathBuf::from_str(alloc, path.as_str())?)
    }

    fn read_link<B: Allocator>(&self, alloc: B, path: &str) -> io::Result<PathBuf<B>> {
        self.begin()?;
        if path == "/proc/self" {
            return Ok(PathBuf::from_str(alloc, PROCESS)?);
        }
        let tree = self.tree()?;
        Ok(PathBuf::from_str(alloc, tree.link_at(path)?)?)
    }
}

impl EditFiles for Machine<'_> {
    fn give(&self, _file: &Self::File, _owner: Option<u32>, _group: Option<u32>) -> io::Result<()> {
        Err(Refusal::Unknown.error())
    }

    fn hold(&self, file: &Self::File) -> io::Result<bool> {
        self.begin()?;
        match &self.state.held {
            Some(path) => Ok(self.tree()?.open(path)? != file.number),
            None => Ok(true),
        }
    }
}
