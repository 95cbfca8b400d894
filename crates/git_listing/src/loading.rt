//! Files that are loaded from the disk of this machine.
//
// A host is made in each call that needs one, and passed to no other function of ours: the check refuses a function that takes one
// and could put another box into it.

use crate::fault::Fault;
use gitconf_sources::{Disk, Process};
use gix_config::file::includes::{self, conditional};
use gix_config::file::{Metadata, init};
use gix_config::host::{Env, EnvVar, Host, Places, StorageLocation};
use gix_config::path::interpolate;
use gix_config::source::{Source, Trust};
use gix_config::{File, NoMemory};
use std::alloc::Global;
use std::rc::Rc;

/// A repository as conditions see it.
#[derive(Clone, Copy)]
pub struct Repository<'a> {
    /// Its folder, `.git`, as it is given.
    pub git_dir: &'a str,
    /// The same folder with its symbolic links resolved.
    pub real: &'a str,
    /// The full name of the branch, if there is one.
    pub branch: Option<&'a str>,
}

/// What the variable `HOME` is set to.
fn home_of(rt: &HostRuntime) -> Result<Option<String>, NoMemory> {
    match Process::new(*rt).var("HOME")? {
        EnvVar::Text(home) => Ok(Some(home)),
        EnvVar::Unset | EnvVar::IllFormed => Ok(None),
    }
}

/// The places of this machine, without the configuration that git was installed with.
fn places(rt: &HostRuntime) -> Result<Places, NoMemory> {
    Ok(Places {
        installation_config: None,
        system_prefix: String::from_str(rt.alloc(), "/")?,
        home: home_of(rt)?,
        homes: None,
    })
}

/// What git reads outside of a repository: the files of the machine and of the user, and then the variables that override everything.
pub fn of_machine(rt: &HostRuntime) -> Result<File, Fault> {
    let alloc = rt.alloc();
    let mut host = Host {
        files: Box::new(alloc, Disk::new(*rt))?,
        env: Box::new(alloc, Process::new(*rt))?,
        places: places(rt)?,
    };
    let mut file = File::from_globals(alloc, &mut host)?;
    let overrides = File::from_environment_overrides(alloc, &mut host)?;
    file.append(overrides)?;
    Ok(file)
}

/// The repository of a folder, with everything that is read for it.
pub fn of_folder(rt: &HostRuntime, git_dir: &str, real: &str) -> Result<File, Fault> {
    let alloc = rt.alloc();
    let mut host = Host {
        files: Box::new(alloc, Disk::new(*rt))?,
        env: Box::new(alloc, Process::new(*rt))?,
        places: places(rt)?,
    };
    Ok(File::from_git_dir(alloc, git_dir, Ok(real), &mut host)?)
}

/// What git reads in a repository: the files of the machine, of the user and of the repository, in that order, each with what it includes
/// under the conditions of the repository, and then the variables that override everything.
pub fn of_repository(rt: &HostRuntime, repository: &Repository<'_>) -> Result<File, Fault> {
    let alloc = rt.alloc();
    let mut host = Host {
        files: Box::new(alloc, Disk::new(*rt))?,
        env: Box::new(alloc, Process::new(*rt))?,
        places: places(rt)?,
    };
    let home = home_of(rt)?;
    let options = options_of(home.as_deref(), repository);
    let mut metas = Vec::new(alloc);
    for source in [Source::System, Source::Git, Source::User] {
        if let Some(place) = source.storage_location(alloc, &mut host.env, &host.places)? {
            metas.push(meta_of(source, place))?;
        }
    }
    metas.push(meta_of(Source::Local, local_place(alloc, repository.git_dir)?))?;
    let loaded = File::from_paths_metadata_buf(alloc, metas, false, options, &mut host)?;
    let mut file = loaded.unwrap_or(empty(alloc)?);
    if let Some(overrides) = File::from_env(alloc, options, &mut host)? {
        file.append(overrides)?;
    }
    Ok(file)
}

/// A file without sections.
fn empty(alloc: Global) -> Result<File, NoMemory> {
    Ok(File::new(alloc, Rc::new(alloc, Metadata::api())?))
}

/// The place of a repository's configuration.
fn local_place(alloc: Global, git_dir: &str) -> Result<String, NoMemory> {
    Ok(format!(in alloc; "{git_dir}/config")?)
}

/// A trusted file of a source.
fn meta_of(source: Source, place: String) -> Metadata {
    Metadata {
        path: Some(place),
        source,
        level: 0,
        trust: Trust::Full,
    }
}

/// Follows includes under the conditions of the repository.
fn options_of<'a>(home: Option<&'a str>, repository: &Repository<'a>) -> init::Options<'a> {
    let interpolate = interpolate::Context {
        git_install_dir: None,
        home_dir: home,
        home_for_user: None,
    };
    let conditional = conditional::Context {
        git_dir: Some(conditional::GitDir {
            path: repository.git_dir,
            real: Ok(repository.real),
        }),
        branch_name: repository.branch,
    };
    init::Options {
        includes: includes::Options::follow(interpolate, conditional),
        lossy: false,
        ignore_io_errors: false,
    }
}
