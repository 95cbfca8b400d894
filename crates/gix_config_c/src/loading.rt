//! Files, loaded with what they include, and includes of files, by what a program told.
ghost use Rattle.std.specs.Prelude.{◌≡◌, ◌⊎◌, ◌∷◌, [], if◌then◌else◌, true, false, IfErr, IfOk, Ok, Err, Some};
ghost use Rattle.gitconf_includes.specs.Errors.{includes_number, says};
ghost use Rattle.gitconf_includes.specs.Expansion.{Resolves};
ghost use Rattle.gitconf_includes.specs.Rules.{rules_of_includes};
ghost use Rattle.gitconf_includes.specs.declared.includes.Error.TheVariants as refusals;
ghost use Rattle.gitconf_loaders.specs.Errors.{paths_number, paths_says};
ghost use Rattle.gitconf_loaders.specs.Paths.{IsLoadOfPaths, telling};
ghost use Rattle.gitconf_sources.specs.Metadata.{meta_of_file};
ghost use Rattle.gitconf_state.specs.State.{State};
ghost use Rattle.gix_config_c.specs.Answers.{OfFile, OfWanted};
ghost use Rattle.gix_config_c.specs.Blocks.{Holds, IsKept};
ghost use Rattle.gix_config_c.specs.Edited.{IsEditedFile};
ghost use Rattle.gix_config_c.specs.Followed.{rules_of};
ghost use Rattle.gix_config_c.specs.Loaded.{IsAnswered, IsKeptPath, IsLoadedBy, IsResolvedBy, IsResolvedFrom, OfRules, asks_by, include_path, load_path};
ghost use Rattle.gix_config_c.specs.Loads.{plain_wanted, wanted_of};
ghost use Rattle.gix_config_c.specs.Telling.{OfTold};
ghost use Rattle.gix_config_c.specs.Told.{is_told};
ghost use Rattle.gix_config_c.specs.declared.object.Object.TheVariants as object;

use crate::block::{Block, room};
use crate::includes::{Includes, followed};
use crate::lists::put_list;
use crate::load::{Load, Wanted, want};
use crate::object::Object;
use crate::slot::{Slot, in_handle};
use crate::told::ToldFiles;
use crate::{
    DONE, FILE_NOT_READ, INCLUDE_NOT_OPENED, INCLUDE_NOT_READ, INPUT_TOO_LARGE, NOT_TOLD, NOT_UTF8,
    NOTHING_THERE, OUT_OF_MEMORY, UNEXPECTED_TOKEN,
};
use gitconf_includes::{includes, init};
use gitconf_loaders::from_paths;
use gitconf_read::error as parse;
use gitconf_sources::meta::Metadata;
use gitconf_sources::source::{Source, Trust};
use gix_config::host::{Host, MemEnv, Places};
use gix_config::refusals::Refusal as _;
use gix_config::{File, NoMemory};
use std::alloc::Global;

/// Loads a file by its path, with what it includes, from what a program told. What was in the file's handle before is closed.
///
/// 103 if the load needs a file of which nothing was told: its path is then in the block, whose bytes from before are freed; tell it,
/// and call again. 21 if the file itself, and 19 or 20 if one that is included, was told to have a fault; 1 or 2 if the text of one is refused:
/// the file's path is then in the block, too. 3 and 12 to 18 if the file or its includes are refused, 100 if there is nothing to load.
/// 101 if a text that has to be UTF-8 isn't, 104 if no source or trust has the number, 102 if the handle is not one for what is told, 27
/// when out of memory. The file's handle is as it was after any number but 0, and the block after any but 1, 2, 19 to 21 and 103.
#[unsafe(no_mangle)]
pub extern "C" fn gix_config_load_told(
    alloc: Global,
    told: &mut Slot,
    load: &Load<'_>,
    file: &mut Slot,
    path: &mut Block,
) -> u32
    ensures answer { OfTold told.old.it result (λ t. OfWanted (wanted_of load.now) result (λ w. IsLoadedBy t.files w result file.new.it path.old path.new)) }
    ensures kept { (result ≡ 0 → ⊥) → file.new.it ≡ file.old.it }
    ensures kept_path { IsKeptPath result path.old path.new }
    ensures same { told.new.it ≡ told.old.it }
{
    in_handle!(alloc, &told, Object::Told(it) => load_by(alloc, &it.files, load, file, path))
}

/// Loads the file that a program wants.
fn load_by(
    alloc: Global,
    told: &ToldFiles,
    load: &Load<'_>,
    file: &mut Slot,
    path: &mut Block,
) -> u32
    ensures answer { OfWanted (wanted_of load.now) result (λ w. IsLoadedBy told.now w result file.new.it path.old path.new) }
    ensures kept { (result ≡ 0 → ⊥) → file.new.it ≡ file.old.it }
    ensures kept_path { IsKeptPath result path.old path.new }
{
    match want(load) {
        Ok(wanted) => put_loaded(alloc, told, wanted, file, path),
        Err(number) => number,
    }
}

/// Puts a file that is loaded into a handle.
fn put_loaded(
    alloc: Global,
    told: &ToldFiles,
    wanted: Wanted<'_>,
    file: &mut Slot,
    path: &mut Block,
) -> u32
    ensures answer { IsLoadedBy told.now (plain_wanted wanted.entry) result file.new.it path.old path.new }
    ensures kept { (result ≡ 0 → ⊥) → file.new.it ≡ file.old.it }
    ensures kept_path { IsKeptPath result path.old path.new }
{
    match loaded(alloc, told, wanted) {
        Ok(Some(made)) => put_list(alloc, Object::File(made), file),
        Ok(None) => NOTHING_THERE,
        Err(refusal) => refused_load(alloc, told, &refusal, path),
    }
}

/// The metadata of the one file that is loaded.
fn metas_of(
    alloc: Global,
    path: &str,
    source: Source,
    trust: Trust,
) -> Result<Vec<Metadata>, NoMemory>
    ensures { IfOk result (λ metas. metas.items ≡ meta_of_file path.now source trust ∷ []) }
{
    let path = Some(String::from_str(alloc, path)?);
    let mut metas = Vec::new(alloc);
    metas.push(Metadata {
        path,
        source,
        level: 0,
        trust,
    })?;
    Ok(metas)
}

/// The file that is loaded, with what it includes.
fn loaded(
    alloc: Global,
    told: &ToldFiles,
    wanted: Wanted<'_>,
) -> Result<Option<File>, from_paths::Error>
    ensures { IsLoadOfPaths true false (asks_by told.now (plain_wanted wanted.entry).rules) ((plain_wanted wanted.entry).meta ∷ [])
        (telling paths_says result) }
{
    let Wanted {
        path,
        source,
        trust,
        includes,
        lossy,
    } = wanted;
    let mut files = told.try_clone()?;
    let metas = metas_of(alloc, path, source, trust)?;
    let options = init::Options {
        includes,
        lossy,
        ignore_io_errors: false,
    };
    File::from_paths_metadata_of(alloc, metas, options, &mut files)
}

/// The number of a refused load. Returns the path of a file that can't be opened or read, or whose text is refused.
pub(crate) fn refused_load(
    alloc: Global,
    told: &ToldFiles,
    refusal: &from_paths::Error,
    path: &mut Block,
) -> u32
    ensures answer { (result ≡ 27 → ⊥) → IsAnswered told.now (load_path refusal.now) (paths_number refusal.now) result path.old path.new }
    ensures kept { IsKeptPath result path.old path.new }
{
    match refusal {
        from_paths::Error::Io { path: at, .. } => ask(alloc, told, at, FILE_NOT_READ, path),
        from_paths::Error::Init {
            path: at,
            source: init::Error::Parse(e),
        } => refused_text(alloc, told, at, e, path),
        from_paths::Error::Init {
            source: init::Error::Includes(e),
            ..
        } => refused_include(alloc, told, e, path),
        from_paths::Error::Init { source, .. } => u32::from(source.number()),
        from_paths::Error::Memory => OUT_OF_MEMORY,
    }
}

/// The number of a refused include. Returns the path of a file that can't be opened or read, or whose text is refused.
pub(crate) fn refused_include(
    alloc: Global,
    told: &ToldFiles,
    refusal: &includes::Error,
    path: &mut Block,
) -> u32
    ensures answer { (result ≡ 27 → ⊥) → IsAnswered told.now (include_path refusal.now) (includes_number refusal.now) result path.old path.new }
    ensures kept { IsKeptPath result path.old path.new }
{
    match refusal {
        includes::Error::Io { path: at, .. } => ask(alloc, told, at, INCLUDE_NOT_OPENED, path),
        includes::Error::CopyBuffer { path: at, .. } => ask(
            alloc,
            told,
            at,
            INCLUDE_NOT_READ,
            path,
        ),
        includes::Error::Parse { path: at, source } => refused_text(alloc, told, at, source, path),
        refusal => u32::from(refusal.number()),
    }
}

/// The number of the parser's error for the file at a path, which is returned.
fn refused_text(
    alloc: Global,
    told: &ToldFiles,
    at: &str,
    refusal: &parse::Error,
    path: &mut Block,
) -> u32
    ensures answer { (result ≡ 27 → ⊥) → IsAnswered told.now (Some at.now) refusal.now.number result path.old path.new }
    ensures kept { IsKeptPath result path.old path.new }
{
    match u32::from(refusal.number()) {
        UNEXPECTED_TOKEN => ask(alloc, told, at, UNEXPECTED_TOKEN, path),
        INPUT_TOO_LARGE => ask(alloc, told, at, INPUT_TOO_LARGE, path),
        _ => OUT_OF_MEMORY,
    }
}

/// Returns the path of a file. The number is that of the error if something was told of the file, else 103; or 27 when out of memory.
fn ask(alloc: Global, told: &ToldFiles, at: &str, refusal: u32, path: &mut Block) -> u32
    ensures answer { (result ≡ 27) ⊎ ((result ≡ (if is_told told.now at.now then refusal else 103)) × Holds at.now path.new) }
    ensures kept { result ≡ 27 → (refusal ≡ 27 → ⊥) → IsKept path.old path.new }
{
    let Some(room) = room(alloc) else {
        return OUT_OF_MEMORY;
    };
    let Ok(copy) = at.as_bytes().to_vec(alloc) else {
        return OUT_OF_MEMORY;
    };
    path.put(room, copy);
    if told.knows(at) { refusal } else { NOT_TOLD }
}

/// Reads the files that a file's sections include, from what a program told. Each is put after the section that includes it.
///
/// 103 if a file is needed of which nothing was told: its path is then in the block, whose bytes from before are freed; tell it, and call
/// again. 19 or 20 if one was told to have a fault, 1 or 2 if the text of one is refused: its path is then in the block, too. 3 and 12 to 18
/// if an include is refused. 101 if a text that has to be UTF-8 isn't, 102 if a handle is not one for what is told or has no file, 27 when out
/// of memory. The file is as it was after any number but 0, and the block after any but 1, 2, 19 to 21 and 103.
#[unsafe(no_mangle)]
pub extern "C" fn gix_config_resolve_includes_told(
    alloc: Global,
    told: &mut Slot,
    file: &mut Slot,
    includes: &Includes<'_>,
    path: &mut Block,
) -> u32
    ensures answer { OfFile file.old.it result (λ f. (g : State) × (file.new.it ≡ Some (object.File g)) × IsEditedFile result f g
        × IsResolvedFrom told.old.it (rules_of includes.now) f g result path.old path.new) }
    ensures other { ((f : State) → file.old.it ≡ Some (object.File f) → ⊥) → file.new.it ≡ file.old.it }
    ensures kept_path { IsKeptPath result path.old path.new }
    ensures same { told.new.it ≡ told.old.it }
{
    in_handle!(alloc, &mut file, Object::File(f) => resolve_from(alloc, told, f, includes, path))
}

/// Resolves the includes of a file by what was told in a handle.
fn resolve_from(
    alloc: Global,
    told: &mut Slot,
    file: &mut File,
    includes: &Includes<'_>,
    path: &mut Block,
) -> u32
    ensures edited { IsEditedFile result file.old file.new }
    ensures answer { IsResolvedFrom told.old.it (rules_of includes.now) file.old file.new result path.old path.new }
    ensures kept_path { IsKeptPath result path.old path.new }
    ensures same { told.new.it ≡ told.old.it }
{
    in_handle!(alloc, &told, Object::Told(it) => resolve_by(alloc, &it.files, file, includes, path))
}

/// Resolves the includes of a file as a program says it.
fn resolve_by(
    alloc: Global,
    told: &ToldFiles,
    file: &mut File,
    includes: &Includes<'_>,
    path: &mut Block,
) -> u32
    ensures edited { IsEditedFile result file.old file.new }
    ensures answer { OfRules (rules_of includes.now) result (λ rules. IsResolvedBy told.now rules file.old file.new result path.old path.new) }
    ensures kept_path { IsKeptPath result path.old path.new }
{
    let Some(options) = followed(includes) else {
        return NOT_UTF8;
    };
    match resolved(alloc, told, file, options, includes.lossy) {
        Ok(made) => {
            *file = made;
            DONE
        }
        Err(refusal) => refused_include(alloc, told, &refusal, path),
    }
}

/// A box of a value.
pub(crate) fn boxed<T: Drop>(alloc: Global, value: T) -> Result<Box<T>, NoMemory>
    ensures { IfOk result (λ boxed. boxed.value ≡ value) }
{
    Ok(Box::new(alloc, value)?)
}

/// A copy of a file, with what it includes.
fn resolved(
    alloc: Global,
    told: &ToldFiles,
    file: &File,
    includes: includes::Options<'_>,
    lossy: bool,
) -> Result<File, includes::Error>
    ensures made { IfOk result (λ made. Resolves says (asks_by told.now (record (rules_of_includes includes.entry) { lossy = lossy })) file.now (Ok tt) made) }
    ensures refused { IfErr result (λ e. (e ≡ refusals.Memory)
        ⊎ ((left : State) × Resolves says (asks_by told.now (record (rules_of_includes includes.entry) { lossy = lossy })) file.now (Err e) left)) }
{
    let mut made = file.try_clone()?;
    let mut host = Host {
        files: boxed(alloc, told.try_clone()?)?,
        env: boxed(alloc, MemEnv::new(alloc))?,
        places: Places {
            installation_config: None,
            system_prefix: String::new(alloc),
            home: None,
            homes: None,
        },
    };
    let options = init::Options {
        includes,
        lossy,
        ignore_io_errors: false,
    };
    match made.resolve_includes(options, &mut host) {
        Ok(()) => Ok(made),
        Err(refusal) => Err(refusal),
    }
}
