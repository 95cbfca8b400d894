//! The library's loads over a machine: its host has a copy of the machine's files and variables, since what is boxed holds no borrow.

use crate::machine::Machine;
use crate::tree::Tree;
use gix_config::file::init::{self, from_env, from_paths};
use gix_config::file::{Metadata, includes};
use gix_config::host::{EnvVar, FileFault, Files, Host, MemEnv, Places, Stage};
use gix_config::source::Trust;
use gix_config::{File, NoMemory};
use gixcfg_commands::Loads;
use std::alloc::{AllocGlobal, Global};
use std::io;
use std::io::ErrorKind;
use std::rc::Rc;

/// The files of a machine as they were.
#[derive(Drop)]
struct Copied {
    alloc: Global,
    tree: Tree,
}

impl Files for Copied {
    ghost use Rattle.std.specs.Prelude.{None};

    ghost table = { λ _. None };

    ghost failures = { λ _. None };

    fn is_file(&mut self, path: &str) -> bool {
        match self.tree.metadata(path) {
            Ok(metadata) => metadata.is_file(),
            // The read of it then tells.
            Err(error) => error.kind() == ErrorKind::OutOfMemory,
        }
    }

    fn read(&mut self, path: &str) -> Result<Vec<u8>, FileFault> {
        match text_at(self.alloc, &self.tree, path) {
            Ok(text) => Ok(text),
            Err(error) => Err(fault_of(error.kind())),
        }
    }

    fn trust(&mut self, _path: &str) -> Result<Trust, FileFault> {
        Ok(Trust::Full)
    }
}

/// The text of what is at a path.
fn text_at(alloc: Global, tree: &Tree, path: &str) -> io::Result<Vec<u8>> {
    let number = tree.open(path)?;
    Ok(Vec::from_slice(alloc, tree.text_of(number)?)?)
}

/// The fault of an error of this kind, as the disk has it: what can't be read can't be opened.
fn fault_of(kind: ErrorKind) -> FileFault {
    FileFault {
        stage: match kind {
            ErrorKind::OutOfMemory => Stage::Memory,
            _ => Stage::Open,
        },
        not_found: matches!(kind, ErrorKind::NotFound),
    }
}

/// A copy of a machine's files.
fn files_of(machine: &Machine<'_>) -> Result<Copied, NoMemory> {
    let Ok(tree) = machine.tree() else {
        return Err(NoMemory);
    };
    Ok(Copied {
        alloc: machine.alloc(),
        tree: tree.try_clone()?,
    })
}

/// What a variable of this text is.
fn value_of(alloc: Global, text: &[u8]) -> Result<EnvVar, NoMemory> {
    match str::from_utf8(text) {
        Ok(text) => Ok(EnvVar::Text(String::from_str(alloc, text)?)),
        Err(_) => Ok(EnvVar::IllFormed),
    }
}

/// A copy of a machine's variables.
fn variables_of(machine: &Machine<'_>) -> Result<MemEnv, NoMemory> {
    let alloc = machine.alloc();
    let mut variables = MemEnv::new(alloc);
    for variable in machine.state.variables() {
        let name = String::from_str(alloc, &variable.name)?;
        variables.insert(name, value_of(alloc, &variable.text)?)?;
    }
    Ok(variables)
}

/// No places, which no load here asks.
fn no_places(alloc: Global) -> Places {
    Places {
        installation_config: None,
        system_prefix: String::new(alloc),
        home: None,
        homes: None,
    }
}

impl Loads for Machine<'_> {
    fn from_text(
        &self,
        text: Vec<u8>,
        meta: Rc<Metadata>,
        options: init::Options<'_>,
    ) -> Result<File, init::Error> {
        let alloc = self.alloc();
        let (files, env) = (files_of(self)?, variables_of(self)?);
        let (Ok(files), Ok(env)) = (Box::new(alloc, files), Box::new(alloc, env)) else {
            return Err(init::Error::Memory);
        };
        let places = no_places(alloc);
        let mut host = Host { files, env, places };
        File::from_bytes_owned(alloc, text, meta, options, &mut host)
    }

    fn from_paths(
        &self,
        metas: Vec<Metadata>,
        options: init::Options<'_>,
    ) -> Result<Option<File>, from_paths::Error> {
        let alloc = self.alloc();
        let (files, env) = (files_of(self)?, variables_of(self)?);
        let (Ok(files), Ok(env)) = (Box::new(alloc, files), Box::new(alloc, env)) else {
            return Err(from_paths::Error::Memory);
        };
        let places = no_places(alloc);
        let mut host = Host { files, env, places };
        File::from_paths_metadata_buf(alloc, metas, false, options, &mut host)
    }

    fn from_variables(&self, options: init::Options<'_>) -> Result<Option<File>, from_env::Error> {
        let alloc = self.alloc();
        let (files, env) = (files_of(self)?, variables_of(self)?);
        let (Ok(files), Ok(env)) = (Box::new(alloc, files), Box::new(alloc, env)) else {
            return Err(from_env::Error::Memory);
        };
        let places = no_places(alloc);
        let mut host = Host { files, env, places };
        File::from_env(alloc, options, &mut host)
    }

    fn follow(&self, file: &mut File, options: init::Options<'_>) -> Result<(), includes::Error> {
        let alloc = self.alloc();
        let (files, env) = (files_of(self)?, variables_of(self)?);
        let (Ok(files), Ok(env)) = (Box::new(alloc, files), Box::new(alloc, env)) else {
            return Err(includes::Error::Memory);
        };
        let places = no_places(alloc);
        let mut host = Host { files, env, places };
        file.resolve_includes(options, &mut host)
    }
}
