//! Loads of files, each as a beginning of the main theorem: a function that makes the call, and whose clause says that what is written after any
//! clean calls on the file reads back, and what of the loaded texts this asks. Hosts are any.
ghost use Rattle.std.specs.Prelude.{◌≡◌, ℕ, [], false, IfOk, IfSome, List, Some, true, string_bytes};
ghost use Rattle.gitconf_items.specs.EventList.{IsWhole};
ghost use Rattle.gitconf_includes.specs.Expansion.{IsLoaded};
ghost use Rattle.gitconf_includes.specs.Laws.{IncludesHeaded};
ghost use Rattle.gitconf_includes.specs.Outcomes.{asks_of};
ghost use Rattle.gitconf_includes.specs.Rules.{resolved};
ghost use Rattle.gitconf_loaders.specs.Globals.{home_rules};
ghost use Rattle.gitconf_loaders.specs.Headed.{AreHeadedAt, IsHeadedText};
ghost use Rattle.gitconf_sources.specs.FoundFiles.{AreFound, global_sources};
ghost use Rattle.gitconf_sources.specs.Metadata.{Meta};
ghost use Rattle.gitconf_sources.specs.Reports.{VariableReport};
ghost use Rattle.gitconf_state.specs.Clean.{IsClean};
ghost use Rattle.gitconf_state.specs.State.{entries_of, State};
ghost use Rattle.gix_config.specs.Environment.{HaveSectionNames, IncludeHeaded};
ghost use Rattle.gix_config.specs.Repository.{IsHeadedRepository};
ghost use Rattle.gix_config_laws.specs.Beginnings.{AlwaysReads};

use gitconf_includes::init::{Error as InitError, Options};
use gix_config::file::init::{from_env, from_git_dir, from_paths};
use gix_config::file::{File, Metadata};
use gix_config::host::{Env, FileFault, Files, Host};
use gix_config::parse::{Error, Events};
use gix_config::{NoMemory, Source};
use std::alloc::Global;
use std::rc::Rc;

/// A file that is loaded begins so if it is clean: its items are such as a text may have, as those of every file.
fn begins<E>(loaded: &Result<File, E>)
    ensures { IfOk loaded.now (λ f. IsClean f → AlwaysReads f) }
{
    match loaded {
        Ok(file) => {
            let _ = file.sections();
        }
        Err(_) => {}
    }
}

/// The same of a file that may not be there.
fn found_begins(found: &Option<File>)
    ensures { IfSome found.now (λ f. IsClean f → AlwaysReads f) }
{
    match found {
        Some(file) => {
            let _ = file.sections();
        }
        None => {}
    }
}

/// The same of a load that may find no file.
fn begins_if_some<E>(loaded: &Result<Option<File>, E>)
    ensures { IfOk loaded.now (λ o. IfSome o (λ f. IsClean f → AlwaysReads f)) }
{
    match loaded {
        Ok(found) => found_begins(found),
        Err(_) => {}
    }
}

/// [`File::try_from_bytes`].
pub fn try_from_bytes(alloc: Global, input: &[u8]) -> Result<File, Error>
    ensures { IfOk result AlwaysReads }
{
    let loaded = File::try_from_bytes(alloc, input);
    begins(&loaded);
    loaded
}

/// [`File::try_from_bytes_owned`].
pub fn try_from_bytes_owned(alloc: Global, text: Vec<u8>) -> Result<File, Error>
    ensures { IfOk result AlwaysReads }
{
    let loaded = File::try_from_bytes_owned(alloc, text);
    begins(&loaded);
    loaded
}

/// [`File::try_from_bytes_owned_lossy`].
pub fn try_from_bytes_owned_lossy(alloc: Global, text: Vec<u8>) -> Result<File, Error>
    ensures { IfOk result (λ f. entries_of f.front ≡ [] → AlwaysReads f) }
{
    let loaded = File::try_from_bytes_owned_lossy(alloc, text);
    begins(&loaded);
    loaded
}

/// [`File::from_parse_events_no_includes`].
pub fn from_parse_events_no_includes(
    alloc: Global,
    events: Events,
    meta: Rc<Metadata>,
) -> Result<File, NoMemory>
    requires { events.keeps_entries ≡ true }
    ensures headed { IfOk result (λ f. entries_of f.front ≡ [] → AlwaysReads f) }
    // If nothing was dropped.
    ensures whole { IfOk result (λ f. (text : List ℕ) → IsWhole text events → AlwaysReads f) }
{
    let loaded = File::from_parse_events_no_includes(alloc, events, meta);
    begins(&loaded);
    loaded
}

/// [`File::from_bytes_no_includes`].
pub fn from_bytes_no_includes(
    alloc: Global,
    input: &[u8],
    meta: Rc<Metadata>,
    options: Options<'_>,
) -> Result<File, InitError>
    ensures { IfOk result (λ f. (options.entry.lossy ≡ true → entries_of f.front ≡ []) → AlwaysReads f) }
{
    let loaded = File::from_bytes_no_includes(alloc, input, meta, options);
    begins(&loaded);
    loaded
}

/// [`File::from_bytes_owned`].
pub fn from_bytes_owned(
    alloc: Global,
    text: Vec<u8>,
    meta: Rc<Metadata>,
    options: Options<'_>,
    mut host: Host,
) -> Result<File, InitError>
    ensures headed { IsHeadedText (asks_of options.entry (⟦<Box<dyn Files> as Files>⟧.table host.files)) meta.value text.items → IfOk result AlwaysReads }
    // Of a whole load only what it includes is asked.
    ensures whole { let asks = asks_of options.entry (⟦<Box<dyn Files> as Files>⟧.table host.files) in asks.rules.lossy ≡ false
        → ((loaded : State) → IsLoaded false text.items meta.value loaded → IncludesHeaded asks.rules.max_depth asks loaded) → IfOk result AlwaysReads }
{
    let loaded = File::from_bytes_owned(alloc, text, meta, options, &mut host);
    begins(&loaded);
    loaded
}

/// [`File::from_path_no_includes`].
pub fn from_path_no_includes(
    alloc: Global,
    path: String,
    source: Source,
    mut host: Host,
) -> Result<File, from_paths::Error>
    ensures { IfOk result AlwaysReads }
{
    let loaded = File::from_path_no_includes(alloc, path, source, &mut host);
    begins(&loaded);
    loaded
}

/// [`File::from_paths_metadata`].
pub fn from_paths_metadata(
    alloc: Global,
    metas: Vec<Metadata>,
    options: Options<'_>,
    mut host: Host,
) -> Result<Option<File>, from_paths::Error>
    ensures { AreHeadedAt true options.entry.ignore_io_errors (asks_of options.entry (⟦<Box<dyn Files> as Files>⟧.table host.files)) metas.items
        → IfOk result (λ o. IfSome o AlwaysReads) }
{
    let loaded = File::from_paths_metadata(alloc, metas, options, &mut host);
    begins_if_some(&loaded);
    loaded
}

/// [`File::from_paths_metadata_buf`].
pub fn from_paths_metadata_buf(
    alloc: Global,
    metas: Vec<Metadata>,
    err_on_non_existing_paths: bool,
    options: Options<'_>,
    mut host: Host,
) -> Result<Option<File>, from_paths::Error>
    ensures { AreHeadedAt err_on_non_existing_paths options.entry.ignore_io_errors
        (asks_of options.entry (⟦<Box<dyn Files> as Files>⟧.table host.files)) metas.items → IfOk result (λ o. IfSome o AlwaysReads) }
{
    let loaded = File::from_paths_metadata_buf(
        alloc,
        metas,
        err_on_non_existing_paths,
        options,
        &mut host,
    );
    begins_if_some(&loaded);
    loaded
}

/// [`File::from_paths_metadata_of`].
pub fn from_paths_metadata_of<F: Files>(
    alloc: Global,
    metas: Vec<Metadata>,
    options: Options<'_>,
    files: &mut F,
) -> Result<Option<File>, from_paths::Error>
    ensures { AreHeadedAt true options.entry.ignore_io_errors (asks_of options.entry (F.table files.old)) metas.items
        → IfOk result (λ o. IfSome o AlwaysReads) }
{
    let loaded = File::from_paths_metadata_of(alloc, metas, options, files);
    begins_if_some(&loaded);
    loaded
}

/// [`File::from_globals`].
pub fn from_globals(alloc: Global, mut host: Host) -> Result<File, from_paths::Error>
    ensures { let table = ⟦<Box<dyn Files> as Files>⟧.table host.files in
        ((found : List Meta) → AreFound (⟦<Box<dyn Env> as Env>⟧.variables host.env) host.places table global_sources found
        → AreHeadedAt true false (record { rules = home_rules host.places; table = table }) found) → IfOk result AlwaysReads }
{
    let loaded = File::from_globals(alloc, &mut host);
    begins(&loaded);
    loaded
}

/// [`File::from_env`].
pub fn from_env(
    alloc: Global,
    options: Options<'_>,
    mut host: Host,
) -> Result<Option<File>, from_env::Error>
    ensures { (variables : List ℕ → VariableReport) → ⟦<Box<dyn Env> as Env>⟧.variables host.env ≡ Some variables → HaveSectionNames variables
        → IncludeHeaded variables (asks_of options.entry (⟦<Box<dyn Files> as Files>⟧.table host.files)) → IfOk result (λ o. IfSome o AlwaysReads) }
{
    let loaded = File::from_env(alloc, options, &mut host);
    begins_if_some(&loaded);
    loaded
}

/// [`File::from_environment_overrides`].
pub fn from_environment_overrides(alloc: Global, mut host: Host) -> Result<File, from_env::Error>
    ensures { (variables : List ℕ → VariableReport) → ⟦<Box<dyn Env> as Env>⟧.variables host.env ≡ Some variables → HaveSectionNames variables
        → IncludeHeaded variables (record { rules = home_rules host.places; table = ⟦<Box<dyn Files> as Files>⟧.table host.files })
        → IfOk result AlwaysReads }
{
    let loaded = File::from_environment_overrides(alloc, &mut host);
    begins(&loaded);
    loaded
}

/// [`File::from_git_dir`].
pub fn from_git_dir(
    alloc: Global,
    dir: &str,
    real: Result<&str, FileFault>,
    mut host: Host,
) -> Result<File, from_git_dir::Error>
    ensures { (variables : List ℕ → VariableReport) → ⟦<Box<dyn Env> as Env>⟧.variables host.env ≡ Some variables → HaveSectionNames variables
        → IsHeadedRepository variables host.places (⟦<Box<dyn Files> as Files>⟧.table host.files) dir.now (resolved real.entry)
        → IfOk result AlwaysReads }
{
    let loaded = File::from_git_dir(alloc, dir, real, &mut host);
    begins(&loaded);
    loaded
}
