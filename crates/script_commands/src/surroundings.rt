//! What a script sets that is outside of a file, as plain data. A command that needs it makes a host of its own of it.

use crate::failing::{Failure, TurnFiles};
use gix_config::NoMemory;
use gix_config::file::{includes, init};
use gix_config::host::{EnvVar, FileFault, MemEnv, MemFile, MemFiles, Places, Stage};
use gix_config::path::interpolate;
use gix_config::source::Trust;
use includes::conditional;
use script_words::outside::{self as words, Fault, Refuses};
use std::alloc::{AllocError, Global};

/// What is at a path.
#[derive(Drop)]
pub enum Content {
    /// A file of these bytes, fully trusted.
    Bytes(Vec<u8>),
    /// A file that can't be read.
    Fault(Fault),
}

impl Content {
    /// The same, for a host.
    fn for_host(&self) -> Result<MemFile, AllocError> {
        match self {
            Content::Bytes(bytes) => Ok(MemFile::Bytes(bytes.clone()?, Trust::Full)),
            Content::Fault(Fault::Unopened) => Ok(MemFile::OpenFault { not_found: false }),
            Content::Fault(Fault::NotFound) => Ok(MemFile::OpenFault { not_found: true }),
            Content::Fault(Fault::Unread) => Ok(MemFile::ReadFault),
        }
    }
}

/// A path, with what is there.
#[derive(Drop)]
struct FileEntry {
    path: String,
    content: Content,
}

/// A variable, with its text; none where it is set to bytes that aren't UTF-8.
#[derive(Drop)]
struct Variable {
    name: String,
    text: Option<String>,
}

impl Variable {
    /// What it is set to, for a host.
    fn for_host(&self) -> Result<EnvVar, AllocError> {
        match &self.text {
            Some(text) => Ok(EnvVar::Text(text.clone()?)),
            None => Ok(EnvVar::IllFormed),
        }
    }
}

/// What a script sets: files, which of their calls fail, variables, and how files that include others are expanded. Of two
/// entries for one path or name the later one counts.
#[derive(Drop)]
pub struct Outside {
    files: Vec<FileEntry>,
    reads: Failure,
    trusts: Failure,
    variables: Vec<Variable>,
    expansion: Expansion,
}

/// The parts of a host, two of which a host has in boxes.
#[derive(Drop)]
pub struct Parts {
    pub files: TurnFiles,
    pub variables: MemEnv,
    pub places: Places,
}

impl Outside {
    /// Nothing is set, and nothing expanded.
    pub fn new(alloc: Global) -> Outside {
        Outside {
            files: Vec::new(alloc),
            reads: Failure::none(),
            trusts: Failure::none(),
            variables: Vec::new(alloc),
            expansion: Expansion::none(),
        }
    }

    /// Sets what is at a path.
    pub fn put_file(&mut self, path: String, content: Content) -> Result<(), AllocError> {
        self.files.push(FileEntry { path, content })?;
        Ok(())
    }

    /// From now on, in each command that reads files, this read fails.
    pub fn fail_read(&mut self, failure: Failure) {
        self.reads = failure;
    }

    /// The same for the questions for the trust of a file.
    pub fn fail_trust(&mut self, failure: Failure) {
        self.trusts = failure;
    }

    /// Sets a variable.
    pub fn set_variable(&mut self, name: String, text: Option<String>) -> Result<(), AllocError> {
        self.variables.push(Variable { name, text })?;
        Ok(())
    }

    /// From now on files that include others are expanded so.
    pub fn set_expansion(&mut self, expansion: Expansion) {
        self.expansion = expansion;
    }

    /// Everything that a host is made of.
    pub fn parts(&self, alloc: Global) -> Result<Parts, NoMemory> {
        let places = self.places(alloc)?;
        let variables = self.variables(alloc)?;
        let files = TurnFiles::new(self.files(alloc)?, self.reads, self.trusts);
        Ok(Parts {
            files,
            variables,
            places,
        })
    }

    /// The files.
    fn files(&self, alloc: Global) -> Result<MemFiles, NoMemory> {
        let mut files = MemFiles::new(alloc);
        for entry in &self.files {
            files.insert(entry.path.clone()?, entry.content.for_host()?)?;
        }
        Ok(files)
    }

    /// The places that a program knows: no configuration of an installation, the root as the folder of the machine, the home
    /// folder that is set, and no users.
    pub fn places(&self, alloc: Global) -> Result<Places, NoMemory> {
        let home = owned_text(alloc, self.expansion.home.as_deref())?;
        Ok(Places {
            installation_config: None,
            system_prefix: String::from_str(alloc, "/")?,
            home,
            homes: None,
        })
    }

    /// The variables, for a host.
    pub fn variables(&self, alloc: Global) -> Result<MemEnv, NoMemory> {
        let mut variables = MemEnv::new(alloc);
        for variable in &self.variables {
            variables.insert(variable.name.clone()?, variable.for_host()?)?;
        }
        Ok(variables)
    }

    /// How files that include others are expanded.
    pub fn options(&self) -> init::Options<'_> {
        self.expansion.options()
    }

    /// The directory of the repository with its symbolic links resolved. A fault if none is set.
    pub fn real_folder(&self) -> Result<&str, FileFault> {
        self.expansion.real_folder()
    }
}

/// How files that include others are expanded.
#[derive(Drop)]
pub struct Expansion {
    max_depth: u8,
    refuses: Refuses,
    lossy: bool,
    home: Option<String>,
    install: Option<String>,
    git_dir: Option<String>,
    real: Option<String>,
    branch: Option<String>,
}

/// A text with memory of its own.
pub fn owned_text(alloc: Global, text: Option<&str>) -> Result<Option<String>, AllocError> {
    match text {
        Some(text) => Ok(Some(String::from_str(alloc, text)?)),
        None => Ok(None),
    }
}

impl Expansion {
    /// Nothing is expanded.
    fn none() -> Expansion {
        Expansion {
            max_depth: 0,
            refuses: Refuses {
                depth: false,
                shorthand: false,
                no_path: false,
            },
            lossy: false,
            home: None,
            install: None,
            git_dir: None,
            real: None,
            branch: None,
        }
    }

    /// The expansion that the words ask for.
    pub fn of(alloc: Global, words: &words::Expansion<'_>) -> Result<Expansion, AllocError> {
        let told = &words.told;
        Ok(Expansion {
            max_depth: words.max_depth,
            refuses: words.refuses,
            lossy: words.lossy,
            home: owned_text(alloc, told.home)?,
            install: owned_text(alloc, told.install)?,
            git_dir: owned_text(alloc, told.git_dir)?,
            real: owned_text(alloc, told.real)?,
            branch: owned_text(alloc, told.branch)?,
        })
    }

    /// The same, as options.
    fn options(&self) -> init::Options<'_> {
        init::Options {
            includes: includes::Options {
                max_depth: self.max_depth,
                err_on_max_depth_exceeded: self.refuses.depth,
                err_on_interpolation_failure: self.refuses.shorthand,
                err_on_missing_config_path: self.refuses.no_path,
                interpolate: self.folders(),
                conditional: self.conditions(),
            },
            lossy: self.lossy,
            ignore_io_errors: false,
        }
    }

    /// What shorthands of paths stand for. There is no table of users.
    fn folders(&self) -> interpolate::Context<'_> {
        interpolate::Context {
            git_install_dir: self.install.as_deref(),
            home_dir: self.home.as_deref(),
            home_for_user: None,
        }
    }

    /// What conditions are about.
    fn conditions(&self) -> conditional::Context<'_> {
        conditional::Context {
            git_dir: self.git_folder(),
            branch_name: self.branch.as_deref(),
        }
    }

    /// The folder of the repository, as it is given and as it is resolved.
    fn git_folder(&self) -> Option<conditional::GitDir<'_>> {
        let path = self.git_dir.as_deref()?;
        Some(conditional::GitDir {
            path,
            real: self.real_folder(),
        })
    }

    /// The folder that is resolved; a fault if none is set.
    fn real_folder(&self) -> Result<&str, FileFault> {
        match self.real.as_deref() {
            Some(real) => Ok(real),
            None => Err(FileFault {
                stage: Stage::Open,
                not_found: false,
            }),
        }
    }
}
