//! The configuration of the machine and of the user.
ghost use Rattle.std.specs.Prelude.{◌≡◌, false, unwrap_or, IfOk};
ghost use Rattle.gitconf_sources.specs.Metadata.{api_meta};
ghost use Rattle.gitconf_includes.specs.Rules.{rules_of};
ghost use Rattle.gitconf_loaders.specs.Errors.{paths_number, paths_says};
ghost use Rattle.gitconf_loaders.specs.Globals.{empty_file, home_rules, IsGlobal};
ghost use Rattle.gitconf_loaders.specs.Paths.{CountsLoad, telling};

use crate::from_paths::Error;
use crate::paths::{from_paths, shared};
use gitconf_includes::includes;
use gitconf_includes::init::Options;
use gitconf_sources::meta::Metadata;
use gitconf_sources::{Env, Files, Places, all_found};
use gitconf_store::store::Store;
use gitconf_text::NoMemory;
use std::alloc::Global;

/// The options of these files: includes are followed with the home directories alone, and nothing is known that a condition could be
/// about.
pub fn home_options(places: &Places) -> Options<'_>
    ensures rules { rules_of result ≡ home_rules places.now }
    ensures faults { result.ignore_io_errors ≡ false }
{
    Options {
        includes: includes::Options::follow_without_conditional(
            places.home.as_deref(),
            places.homes.as_ref(),
        ),
        lossy: false,
        ignore_io_errors: false,
    }
}

/// The file, or an empty one from the calling program.
///
/// # Errors
///
/// Out of memory.
fn or_empty(alloc: Global, loaded: Option<Store>) -> Result<Store, NoMemory>
    ensures { IfOk result (λ file. file ≡ unwrap_or loaded (empty_file api_meta)) }
{
    match loaded {
        Some(file) => Ok(file),
        None => Ok(Store::new(alloc, shared(alloc, Metadata::api())?)),
    }
}

/// The configuration of the machine and of the user: what is at the places of their sources, each with what it includes, one after the
/// other; an empty file if there is none. Each is fully trusted, at level 0. Variables are asked again for each place.
///
/// # Errors
///
/// E21 if a file can't be opened or read; E1, E2 and E12 to E20 if a file or its includes are refused; E3 if there is no room for one;
/// E27 when out of memory.
pub fn from_globals<F: Files, E: Env>(
    alloc: Global,
    files: &mut F,
    env: &mut E,
    places: &Places,
) -> Result<Store, Error>
    ensures loaded { IsGlobal (E.variables env.old) places.now (F.table files.old) (telling paths_says result) }
    ensures table { F.table files.new ≡ F.table files.old }
    ensures counted { CountsLoad (telling paths_number result) (F.failures files.old) (F.failures files.new) }
    ensures stays { E.variables env.new ≡ E.variables env.old }
{
    let metas = all_found(alloc, files, env, places)?;
    let loaded = from_paths(alloc, files, metas, true, &home_options(places))?;
    Ok(or_empty(alloc, loaded)?)
}
