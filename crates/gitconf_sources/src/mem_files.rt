//! Files in memory.
ghost use Rattle.std.specs.Prelude.{◌≡◌, ℕ, List, OnOk, OnErr, None, cond, string_bytes};
ghost use Rattle.std.specs.Map.{lookup};
ghost use Rattle.std.specs.Str.{bytes_eq};
ghost use Rattle.gitconf_sources.specs.Reports.{is_there, trust_of, IsReadOf};
ghost use Rattle.gitconf_sources.specs.InMemory.{with_entry, file_report, file_entries, file_at, IsCopyOf};

use crate::fault::{FileFault, Stage};
use crate::files::Files;
use crate::source::Trust;
use gitconf_text::NoMemory;
use std::alloc::Global;
use std::collections::BTreeMap;
use std::marker::Model;

/// What is at a path.
#[derive(Debug, Drop)]
pub enum MemFile {
    /// A file of these bytes, with this trust.
    Bytes(Vec<u8>, Trust),
    /// A file that can't be opened; the fault says whether it was found.
    OpenFault { not_found: bool },
    /// A file that can be opened but not read.
    ReadFault,
}

impl MemFile {
    ghost use Rattle.std.specs.Prelude.{◌≡◌};
    ghost use Rattle.gitconf_sources.specs.Reports.{trust_of, IsReadOf};
    ghost use Rattle.gitconf_sources.specs.InMemory.{file_report};

    /// A copy of its bytes.
    fn read(&self) -> Result<Vec<u8>, FileFault>
        ensures { IsReadOf result (file_report self.now) }
    {
        match self {
            MemFile::Bytes(bytes, _trust) => copied(*bytes.allocator(), bytes.as_slice()),
            MemFile::OpenFault { not_found } => Err(FileFault {
                stage: Stage::Open,
                not_found: *not_found,
            }),
            MemFile::ReadFault => Err(FileFault {
                stage: Stage::Read,
                not_found: false,
            }),
        }
    }

    /// How far it is trusted.
    fn trust(&self) -> Result<Trust, FileFault>
        ensures { result ≡ trust_of (file_report self.now) }
    {
        match self {
            MemFile::Bytes(_bytes, trust) => Ok(*trust),
            MemFile::OpenFault { not_found } => Err(FileFault {
                stage: Stage::Open,
                not_found: *not_found,
            }),
            MemFile::ReadFault => Err(FileFault {
                stage: Stage::Read,
                not_found: false,
            }),
        }
    }
}

/// A copy of bytes.
fn copied(alloc: Global, bytes: &[u8]) -> Result<Vec<u8>, FileFault>
    ensures { IsCopyOf result bytes.now }
{
    match Vec::from_slice(alloc, bytes) {
        Ok(copy) => Ok(copy),
        Err(_) => Err(FileFault {
            stage: Stage::Memory,
            not_found: false,
        }),
    }
}

/// Files by their paths, in memory. It reports its table: a path without an entry has no file, and the fault of such a path
/// is one of opening, that it wasn't found. It counts the faults that it returns; past 64 bits it reports no count.
#[derive(Drop)]
pub struct MemFiles {
    files: BTreeMap<String, MemFile>,
    failures: u64,
}

impl Model for MemFiles {
    ghost use Rattle.gitconf_sources.specs.InMemory.{FileTable, file_table, file_entries};

    ghost Value = { FileTable };

    ghost view = { λ m. file_table (file_entries m.files.entries) m.failures };
}

impl MemFiles {
    ghost use Rattle.std.specs.Prelude.{◌≡◌, ℕ, List, OnOk, OnErr, None, cond, string_bytes};
    ghost use Rattle.std.specs.Map.{lookup};
    ghost use Rattle.std.specs.Str.{bytes_eq};
    ghost use Rattle.gitconf_sources.specs.InMemory.{with_entry, file_report, file_at, no_files};

    /// No files, and no fault so far. Takes no memory.
    pub fn new(alloc: Global) -> MemFiles
        ensures { result ≡ no_files }
    {
        MemFiles {
            files: BTreeMap::new(alloc),
            failures: 0,
        }
    }

    /// Puts a file at a path, in place of the one that was there. Takes a walk down a tree of the paths.
    ///
    /// # Errors
    ///
    /// Out of memory, only for a new path. The files are then as they were. It doesn't count as a fault.
    pub fn insert(&mut self, path: String, file: MemFile) -> Result<(), NoMemory>
        ensures ok { OnOk result (self.new ≡ record self.old { files = with_entry (string_bytes path) (file_report file) self.old.files }) }
        ensures err { OnErr result (self.new ≡ self.old) }
        ensures absent { OnErr result (lookup (bytes_eq (string_bytes path)) self.old.files ≡ None) }
        // The file is at the path, and at each other path what was there.
        ensures last { OnOk result ((asked : List ℕ) → file_at self.new.files asked
            ≡ cond (bytes_eq (string_bytes path) asked) (file_report file) (file_at self.old.files asked)) }
    {
        put_file(&mut self.files, path, file)
    }
}

impl Files for MemFiles {
    ghost use Rattle.std.specs.Prelude.{◌≡◌, Some};
    ghost use Rattle.gitconf_sources.specs.Reports.{reported_count, trust_of, IsTrustOf, IsCounted};
    ghost use Rattle.gitconf_sources.specs.InMemory.{file_at};

    ghost table = { λ m. Some (file_at m.files) };

    ghost failures = { λ m. reported_count m.failures };

    /// Whether the path has an entry. Takes a walk down a tree of the paths.
    fn is_file(&mut self, path: &str) -> bool {
        is_entry(&self.files, path)
    }

    /// A copy of the bytes at the path. Takes a walk down a tree of the paths, and memory for the copy.
    fn read(&mut self, path: &str) -> Result<Vec<u8>, FileFault> {
        match bytes_of(&self.files, path) {
            Ok(bytes) => Ok(bytes),
            Err(fault) => {
                self.failures = self.failures.saturating_add(1);
                Err(fault)
            }
        }
    }

    /// The trust at the path. Takes a walk down a tree of the paths, and no memory, so it can't run out of memory.
    fn trust(&mut self, path: &str) -> Result<Trust, FileFault>
        ensures exact { result ≡ trust_of (file_at self.old.files path.now) }
        ensures told { IsTrustOf result (file_at self.old.files path.now) }
        ensures stays { self.new.files ≡ self.old.files }
        ensures counted { IsCounted result (reported_count self.old.failures) (reported_count self.new.failures) }
    {
        match trust_at(&self.files, path) {
            Ok(trust) => Ok(trust),
            Err(fault) => {
                self.failures = self.failures.saturating_add(1);
                Err(fault)
            }
        }
    }
}

/// Puts a file at a path in a tree of the paths.
fn put_file(
    files: &mut BTreeMap<String, MemFile>,
    path: String,
    file: MemFile,
) -> Result<(), NoMemory>
    ensures ok { OnOk result (file_entries files.new.entries ≡ with_entry (string_bytes path) (file_report file) (file_entries files.old.entries)) }
    ensures err { OnErr result (file_entries files.new.entries ≡ file_entries files.old.entries) }
    ensures absent { OnErr result (lookup (bytes_eq (string_bytes path)) (file_entries files.old.entries) ≡ None) }
    ensures last { OnOk result ((asked : List ℕ) → file_at (file_entries files.new.entries) asked
        ≡ cond (bytes_eq (string_bytes path) asked) (file_report file) (file_at (file_entries files.old.entries) asked)) }
{
    files.insert(path, file)?;
    Ok(())
}

/// Whether a tree of the paths has the path.
fn is_entry(files: &BTreeMap<String, MemFile>, path: &str) -> bool
    ensures { result ≡ is_there (file_at (file_entries files.now.entries) path.now) }
{
    files.contains_key(path)
}

/// A copy of the bytes at a path of a tree of the paths.
fn bytes_of(files: &BTreeMap<String, MemFile>, path: &str) -> Result<Vec<u8>, FileFault>
    ensures { IsReadOf result (file_at (file_entries files.now.entries) path.now) }
{
    match files.get(path) {
        Some(file) => file.read(),
        None => Err(FileFault {
            stage: Stage::Open,
            not_found: true,
        }),
    }
}

/// The trust at a path of a tree of the paths.
fn trust_at(files: &BTreeMap<String, MemFile>, path: &str) -> Result<Trust, FileFault>
    ensures { result ≡ trust_of (file_at (file_entries files.now.entries) path.now) }
{
    match files.get(path) {
        Some(file) => file.trust(),
        None => Err(FileFault {
            stage: Stage::Open,
            not_found: true,
        }),
    }
}
