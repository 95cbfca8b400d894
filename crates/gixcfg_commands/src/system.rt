//! Loads of the disk's files and the process's variables. Nothing else of the program names the system.

use crate::loads::Loads;
use gitconf_sources::{Disk, Process};
use gix_config::File;
use gix_config::file::init::{self, from_env, from_paths};
use gix_config::file::{Metadata, includes};
use gix_config::host::{Host, Places};
use std::alloc::Global;
use std::rc::Rc;

/// Places for a host of which no load here asks the places: home directories are in the options.
fn no_places(alloc: Global) -> Places {
    Places {
        installation_config: None,
        system_prefix: String::new(alloc),
        home: None,
        homes: None,
    }
}

impl Loads for HostRuntime {
    fn from_text(
        &self,
        text: Vec<u8>,
        meta: Rc<Metadata>,
        options: init::Options<'_>,
    ) -> Result<File, init::Error> {
        let alloc = self.alloc();
        let (Ok(files), Ok(env)) = (
            Box::new(alloc, Disk::new(*self)),
            Box::new(alloc, Process::new(*self)),
        ) else {
            return Err(init::Error::Memory);
        };
        let places = no_places(alloc);
        let mut host = Host { files, env, places };
        File::from_bytes_owned(alloc, text, meta, options, &mut host)
    }

    fn from_paths(
        &self,
        metas: Vec<Metadata>,
        options: init::Options<'_>,
    ) -> Result<Option<File>, from_paths::Error> {
        let alloc = self.alloc();
        let (Ok(files), Ok(env)) = (
            Box::new(alloc, Disk::new(*self)),
            Box::new(alloc, Process::new(*self)),
        ) else {
            return Err(from_paths::Error::Memory);
        };
        let places = no_places(alloc);
        let mut host = Host { files, env, places };
        File::from_paths_metadata_buf(alloc, metas, false, options, &mut host)
    }

    fn from_variables(&self, options: init::Options<'_>) -> Result<Option<File>, from_env::Error> {
        let alloc = self.alloc();
        let (Ok(files), Ok(env)) = (
            Box::new(alloc, Disk::new(*self)),
            Box::new(alloc, Process::new(*self)),
        ) else {
            return Err(from_env::Error::Memory);
        };
        let places = no_places(alloc);
        let mut host = Host { files, env, places };
        File::from_env(alloc, options, &mut host)
    }

    fn follow(&self, file: &mut File, options: init::Options<'_>) -> Result<(), includes::Error> {
        let alloc = self.alloc();
        let (Ok(files), Ok(env)) = (
            Box::new(alloc, Disk::new(*self)),
            Box::new(alloc, Process::new(*self)),
        ) else {
            return Err(includes::Error::Memory);
        };
        let places = no_places(alloc);
        let mut host = Host { files, env, places };
        file.resolve_includes(options, &mut host)
    }
}
