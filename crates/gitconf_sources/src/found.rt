//! The files at the places of sources.
ghost use Rattle.std.specs.Prelude.{◌≡◌, ◌++◌, List, IfOk, OnOk};
ghost use Rattle.gitconf_sources.specs.Metadata.{Meta};
ghost use Rattle.gitconf_sources.specs.FoundFiles.{found_list, global_sources, AreFound, IsFound};

use crate::meta::Metadata;
use crate::source::{Source, Trust};
use crate::storage::StorageLocation;
use crate::{Env, Files, Places};
use gitconf_text::NoMemory;
use std::alloc::Global;

/// Where the configuration of a source comes from, or `None` if no file is at its place.
///
/// # Errors
///
/// Out of memory.
fn found<F: Files, E: Env>(
    alloc: Global,
    files: &mut F,
    env: &mut E,
    places: &Places,
    source: Source,
) -> Result<Option<Metadata>, NoMemory>
    ensures found { IfOk result (λ meta. IsFound (E.variables env.old) places.now (F.table files.old) source (found_list meta)) }
    ensures table { F.table files.new ≡ F.table files.old }
    ensures counted { F.failures files.new ≡ F.failures files.old }
    ensures stays { E.variables env.new ≡ E.variables env.old }
{
    let Some(path) = source.storage_location(alloc, env, places)? else {
        return Ok(None);
    };
    if !files.is_file(&path) {
        return Ok(None);
    }
    Ok(Some(Metadata {
        path: Some(path),
        source,
        level: 0,
        trust: Trust::Full,
    }))
}

/// Adds the metadata of a source's file to that of the sources before, if there is a file.
///
/// # Errors
///
/// Out of memory.
fn find<F: Files, E: Env>(
    alloc: Global,
    files: &mut F,
    env: &mut E,
    places: &Places,
    source: Source,
    metas: &mut Vec<Metadata>,
) -> Result<(), NoMemory>
    ensures found { OnOk result ((here : List Meta) × IsFound (E.variables env.old) places.now (F.table files.old) source here
        × (metas.new.items ≡ metas.old.items ++ here)) }
    ensures table { F.table files.new ≡ F.table files.old }
    ensures counted { F.failures files.new ≡ F.failures files.old }
    ensures stays { E.variables env.new ≡ E.variables env.old }
{
    if let Some(meta) = found(alloc, files, env, places, source)? {
        metas.push(meta)?;
    }
    Ok(())
}

/// The same for all sources whose configuration is not that of one repository. They are in the order in which Git reads
/// them.
///
/// # Errors
///
/// Out of memory.
pub fn all_found<F: Files, E: Env>(
    alloc: Global,
    files: &mut F,
    env: &mut E,
    places: &Places,
) -> Result<Vec<Metadata>, NoMemory>
    ensures found { IfOk result (λ metas. AreFound (E.variables env.old) places.now (F.table files.old) global_sources metas.items) }
    ensures table { F.table files.new ≡ F.table files.old }
    ensures counted { F.failures files.new ≡ F.failures files.old }
    ensures stays { E.variables env.new ≡ E.variables env.old }
{
    let mut metas = Vec::new(alloc);
    find(
        alloc,
        files,
        env,
        places,
        Source::GitInstallation,
        &mut metas,
    )?;
    find(alloc, files, env, places, Source::System, &mut metas)?;
    find(alloc, files, env, places, Source::Git, &mut metas)?;
    find(alloc, files, env, places, Source::User, &mut metas)?;
    Ok(metas)
}
