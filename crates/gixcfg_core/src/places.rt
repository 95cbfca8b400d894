//! Where the files are that git reads.

use gitconf_sources::meta::Metadata;
use gitconf_sources::source::{Source, Trust};
use gitconf_sources::{Env, EnvVar, Places, Process, StorageLocation};
use gitconf_text::NoMemory;
use std::alloc::{AllocGlobal, Global};
use std::rc::Rc;
use std::rt;

/// The home directory that the variables tell, if there is one: `HOME`, which is asked once.
///
/// # Errors
///
/// Out of memory.
pub fn home_of<V: Env>(env: &mut V) -> Result<Option<String>, NoMemory> {
    match env.var("HOME")? {
        EnvVar::Text(home) => Ok(Some(home)),
        EnvVar::Unset | EnvVar::IllFormed => Ok(None),
    }
}

/// The places of configuration on this system, with this home directory.
fn places_of(alloc: Global, home: Option<&str>) -> Result<Places, NoMemory> {
    let home = match home {
        Some(home) => Some(String::from_str(alloc, home)?),
        None => None,
    };
    Ok(Places {
        installation_config: None,
        system_prefix: String::from_str(alloc, "/")?,
        home,
        homes: None,
    })
}

/// Where the files of the system and of the user are.
pub fn metas_of_user<R: rt::Env + AllocGlobal>(
    rt: &R,
    home: Option<&str>,
) -> Result<Vec<Metadata>, NoMemory> {
    let alloc = rt.alloc();
    let (mut env, places) = (Process::new(rt), places_of(alloc, home)?);
    let mut metas = Vec::new(alloc);
    for source in [Source::System, Source::Git, Source::User] {
        if let Some(path) = source.storage_location(alloc, &mut env, &places)? {
            add(&mut metas, path, source)?;
        }
    }
    Ok(metas)
}

/// Adds where a file comes from, which is trusted.
pub fn add(metas: &mut Vec<Metadata>, path: String, source: Source) -> Result<(), NoMemory> {
    Ok(metas.push(Metadata {
        path: Some(path),
        source,
        level: 0,
        trust: Trust::Full,
    })?)
}

/// Where the file at a path comes from: the caller, who trusts it.
pub fn meta_at(alloc: Global, path: &str) -> Result<Metadata, NoMemory> {
    Ok(Metadata::api().at(String::from_str(alloc, path)?))
}

/// Where a text comes from: the file at a path, or no file.
pub fn meta_of(alloc: Global, path: Option<&str>) -> Result<Rc<Metadata>, NoMemory> {
    let meta = match path {
        Some(path) => meta_at(alloc, path)?,
        None => Metadata::api(),
    };
    Ok(Rc::new(alloc, meta)?)
}
