//! Files, directories and symbolic links in memory, by their paths. Links are followed where a path ends, and not on its way.

use crate::refusal::Refusal;
use std::alloc::{AllocError, Global};
use std::fs::Metadata;
use std::io;

/// How many links in a row are followed.
const MOST: usize = 8;

/// The rights of a file that a program makes.
pub const NEW: u32 = 0o600;

/// The bit of a file's rights by which its owner may read it.
const MAY_READ: u32 = 0o400;

/// What is at a path.
#[derive(Drop)]
pub enum Node {
    /// A directory.
    Folder,
    /// A file of this text, with these rights.
    File(Vec<u8>, u32),
    /// A symbolic link to what is at this path.
    Link(String),
}

/// Something at a path from the root, under a number that it keeps when it is renamed.
#[derive(Drop)]
struct Entry {
    number: usize,
    path: String,
    node: Node,
}

/// All that is there, and the directory in which relative paths begin.
#[derive(Drop)]
pub struct Tree {
    alloc: Global,
    folder: String,
    entries: Vec<Entry>,
    made: usize,
}

/// A path from the root without `.`, `..` and further slashes; a relative one begins in a directory. The root has the empty path.
fn absolute(alloc: Global, folder: &str, path: &str) -> Result<String, AllocError> {
    let mut whole = match path.starts_with('/') {
        true => String::new(alloc),
        false => String::from_str(alloc, folder)?,
    };
    for part in path.split('/') {
        whole = step(alloc, whole, part)?;
    }
    Ok(whole)
}

/// A path with one part more.
fn step(alloc: Global, path: String, part: &str) -> Result<String, AllocError> {
    match part {
        "" | "." => Ok(path),
        ".." => String::from_str(alloc, folder_of(&path)),
        _ => format!(in alloc; "{path}/{part}"),
    }
}

/// The directory that holds what is at a path.
fn folder_of(path: &str) -> &str {
    match path.rsplit_once('/') {
        Some((folder, _)) => folder,
        None => "",
    }
}

/// The name of what is at a path, if it is in a directory.
fn name_in<'a>(path: &'a str, folder: &str) -> Option<&'a str> {
    match path.rsplit_once('/') {
        Some((start, name)) if start == folder => Some(name),
        _ => None,
    }
}

impl Tree {
    /// A tree with nothing in it.
    pub fn new(alloc: Global, folder: &str) -> Result<Tree, AllocError> {
        Ok(Tree {
            alloc,
            folder: String::from_str(alloc, folder)?,
            entries: Vec::new(alloc),
            made: 0,
        })
    }

    /// The directory in which relative paths begin.
    pub fn folder(&self) -> &str {
        &self.folder
    }

    /// Puts something at a path where nothing is, and returns its number.
    pub fn put(&mut self, path: &str, node: Node) -> Result<usize, AllocError> {
        let number = self.made.saturating_add(1);
        let path = absolute(self.alloc, &self.folder, path)?;
        self.entries.push(Entry { number, path, node })?;
        self.made = number;
        Ok(number)
    }

    /// A copy.
    pub fn try_clone(&self) -> Result<Tree, AllocError> {
        let mut copy = Tree::new(self.alloc, &self.folder)?;
        for entry in &self.entries {
            copy.put(&entry.path, copied(self.alloc, &entry.node)?)?;
        }
        Ok(copy)
    }

    /// How many things are there.
    pub fn count(&self) -> usize {
        self.entries.len()
    }

    /// The file that is there as the thing of this place, counted from 0: its path from the root, its text, and its rights. None if that is
    /// no file.
    pub fn file_at(&self, place: usize) -> Option<(&str, &[u8], u32)> {
        match self.entries.get(place) {
            Some(
                Entry {
                    path,
                    node: Node::File(text, mode),
                    ..
                },
            ) => Some((path, text, *mode)),
            _ => None,
        }
    }

    /// What is at a path from the root.
    fn at(&self, path: &str) -> Option<&Entry> {
        self.entries
            .iter()
            .find(|entry| entry.path.as_str() == path)
    }

    /// What is at a path from the root.
    fn node_at(&self, path: &str) -> Option<&Node> {
        match self.at(path) {
            Some(entry) => Some(&entry.node),
            None => None,
        }
    }

    /// What has a number.
    fn numbered(&self, number: usize) -> Option<&Entry> {
        self.entries.iter().find(|entry| entry.number == number)
    }

    /// Why nothing is at a path from the root.
    fn missing(&self, path: &str) -> io::Error {
        match self.node_at(folder_of(path)) {
            Some(Node::File(..)) => Refusal::NoFolder.error(),
            _ => Refusal::Missing.error(),
        }
    }

    /// A path from the root. The empty path leads nowhere.
    fn whole(&self, path: &str) -> io::Result<String> {
        if path.is_empty() {
            return Err(Refusal::Missing.error());
        }
        Ok(absolute(self.alloc, &self.folder, path)?)
    }

    /// The path from the root at which the links that begin at a path end.
    fn end_of(&self, path: &str) -> io::Result<String> {
        let mut path = self.whole(path)?;
        for _ in 0..MOST {
            match self.node_at(&path) {
                Some(Node::Link(to)) => path = absolute(self.alloc, folder_of(&path), to)?,
                _ => return Ok(path),
            }
        }
        Err(Refusal::Loop.error())
    }

    /// What the links that begin at a path end at.
    fn found(&self, path: &str) -> io::Result<&Entry> {
        let path = self.end_of(path)?;
        match self.at(&path) {
            Some(entry) => Ok(entry),
            None => Err(self.missing(&path)),
        }
    }

    /// The number of the file or directory that a path leads to. It may be read.
    pub fn open(&self, path: &str) -> io::Result<usize> {
        let entry = self.found(path)?;
        match &entry.node {
            Node::File(_, mode) if *mode & MAY_READ == 0 => Err(Refusal::Forbidden.error()),
            _ => Ok(entry.number),
        }
    }

    /// Makes an empty file at a path, and returns its number. The directory for it is there.
    pub fn create(&mut self, path: &str) -> io::Result<usize> {
        let whole = self.whole(path)?;
        if self.at(&whole).is_some() {
            return Err(Refusal::Taken.error());
        }
        match self.node_at(folder_of(&whole)) {
            Some(Node::Folder) => Ok(self.put(path, Node::File(Vec::new(self.alloc), NEW))?),
            _ => Err(self.missing(&whole)),
        }
    }

    /// What is said of what a path leads to.
    pub fn metadata(&self, path: &str) -> io::Result<Metadata> {
        Ok(metadata_of(&self.found(path)?.node))
    }

    /// What is said of what has a number.
    pub fn metadata_of(&self, number: usize) -> io::Result<Metadata> {
        match self.numbered(number) {
            Some(entry) => Ok(metadata_of(&entry.node)),
            None => Err(Refusal::Missing.error()),
        }
    }

    /// What is said of what is at a path, even a link.
    pub fn symlink_metadata(&self, path: &str) -> io::Result<Metadata> {
        let path = self.whole(path)?;
        match self.node_at(&path) {
            Some(node) => Ok(metadata_of(node)),
            None => Err(self.missing(&path)),
        }
    }

    /// The path from the root of what a path leads to.
    pub fn canonical(&self, path: &str) -> io::Result<String> {
        Ok(String::from_str(self.alloc, &self.found(path)?.path)?)
    }

    /// The names in the directory that a path leads to. Each has a zero byte behind it.
    pub fn names_in(&self, path: &str) -> io::Result<Vec<u8>> {
        let folder = self.found(path)?;
        let Node::Folder = folder.node else {
            return Err(Refusal::NoFolder.error());
        };
        let mut names = Vec::new(self.alloc);
        for entry in &self.entries {
            if let Some(name) = name_in(&entry.path, &folder.path) {
                names.extend_from_slice(name.as_bytes())?;
                names.push(0)?;
            }
        }
        Ok(names)
    }

    /// What a link has.
    pub fn link_at(&self, path: &str) -> io::Result<&str> {
        let path = self.whole(path)?;
        match self.node_at(&path) {
            Some(Node::Link(to)) => Ok(to),
            Some(_) => Err(Refusal::NoLink.error()),
            None => Err(self.missing(&path)),
        }
    }

    /// The text of the file of a number.
    pub fn text_of(&self, number: usize) -> io::Result<&[u8]> {
        match self.numbered(number) {
            Some(
                Entry {
                    node: Node::File(text, _),
                    ..
                },
            ) => Ok(text),
            Some(_) => Err(Refusal::Folder.error()),
            None => Err(Refusal::Missing.error()),
        }
    }

    /// The text and the rights of the file that a path leads to, if any.
    pub fn file(&self, path: &str) -> Option<(&[u8], u32)> {
        match self.found(path) {
            Ok(
                Entry {
                    node: Node::File(text, mode),
                    ..
                },
            ) => Some((text, *mode)),
            _ => None,
        }
    }

    /// Writes behind what the file of a number has.
    pub fn append(&mut self, number: usize, more: &[u8]) -> io::Result<()> {
        for entry in &mut self.entries {
            if entry.number == number {
                return match &mut entry.node {
                    Node::File(text, _) => Ok(text.extend_from_slice(more)?),
                    _ => Err(Refusal::Folder.error()),
                };
            }
        }
        Err(Refusal::Missing.error())
    }

    /// Gives the file of a number these rights.
    pub fn set_mode(&mut self, number: usize, new: u32) {
        for entry in &mut self.entries {
            if entry.number == number {
                if let Node::File(_, mode) = &mut entry.node {
                    *mode = new;
                }
            }
        }
    }

    /// Gives the file at a path a second one, at which nothing is.
    pub fn link(&mut self, from: &str, to: &str) -> io::Result<()> {
        let path = self.whole(to)?;
        if self.at(&path).is_some() {
            return Err(Refusal::Taken.error());
        }
        let entry = self.found(from)?;
        let (number, node) = (entry.number, copied(self.alloc, &entry.node)?);
        self.entries.push(Entry { number, path, node })?;
        Ok(())
    }

    /// Removes what is at a path, even a link.
    pub fn remove(&mut self, path: &str) -> io::Result<()> {
        let path = self.whole(path)?;
        for at in 0..self.entries.len() {
            if self.entries[at].path == path {
                drop(self.entries.remove(at));
                return Ok(());
            }
        }
        Err(self.missing(&path))
    }

    /// Gives what is at a path another one, in place of what is there.
    pub fn rename(&mut self, from: &str, to: &str) -> io::Result<()> {
        let number = self.found(from)?.number;
        let path = self.whole(to)?;
        let _ = self.remove(to);
        for entry in &mut self.entries {
            if entry.number == number {
                entry.path = path;
                return Ok(());
            }
        }
        Err(Refusal::Missing.error())
    }
}

/// What is said of what is at a path.
fn metadata_of(node: &Node) -> Metadata {
    match node {
        Node::Folder => Metadata::of_dir(),
        Node::File(text, _) => Metadata::of_file(text.len() as u64),
        Node::Link(to) => Metadata::of_symlink(to.len() as u64),
    }
}

/// A copy of what is at a path.
fn copied(alloc: Global, node: &Node) -> Result<Node, AllocError> {
    Ok(match node {
        Node::Folder => Node::Folder,
        Node::File(text, mode) => Node::File(Vec::from_slice(alloc, text)?, *mode),
        Node::Link(to) => Node::Link(String::from_str(alloc, to)?),
    })
}
