//! Files that are loaded by their paths.
ghost use Rattle.std.specs.Prelude.{◌≡◌, ◌⊎◌, ◌&&◌, ◌||◌, ℕ, if◌then◌else◌, List, [], ◌∷◌, Err, not, IfOk, string_bytes};
ghost use Rattle.gitconf_includes.specs.Outcomes.{asks_of};
ghost use Rattle.gitconf_loaders.specs.Errors.{paths_number, paths_says};
ghost use Rattle.gitconf_loaders.specs.Refused.{fault_refused, refused_number, OutOfMemory};
ghost use Rattle.gitconf_loaders.specs.Paths.{CountsLoad, is_among, IsLoadedFrom, IsLoadOfPaths, IsMetaLoaded, IsTextTaken, Joins, left_by, once, Sees, telling, text_taken};

use crate::from_paths::Error;
use crate::resolving::{load, resolved_text};
use gitconf_includes::init::{self, Options};
use gitconf_includes::paths::copied;
use gitconf_sources::meta::Metadata;
use gitconf_sources::source::Source;
use gitconf_sources::{FileFault, Files, Stage};
use gitconf_store::store::Store;
use gitconf_text::NoMemory;
use std::alloc::Global;
use std::collections::BTreeSet;
use std::rc::Rc;

/// Shares metadata.
///
/// # Errors
///
/// Out of memory.
pub(crate) fn shared(alloc: Global, meta: Metadata) -> Result<Rc<Metadata>, NoMemory>
    ensures { IfOk result (λ shared. shared.value ≡ meta) }
{
    Ok(Rc::new(alloc, meta)?)
}

/// How a load is refused for a fault of the file at that path.
fn refusal(fault: FileFault, path: String) -> Error
    ensures { paths_says result ≡ fault_refused (string_bytes path) fault }
{
    match fault.stage {
        Stage::Open | Stage::Read => Error::Io {
            path,
            source: fault,
        },
        Stage::Memory => Error::Memory,
    }
}

/// The file at a path, of that source, at level 0. Its trust is the one that the host reports, which is asked first. No include is
/// followed.
///
/// # Errors
///
/// E21 if the trust can't be asked, or the file can't be opened or read; E1 and E2 if the parser refuses it; E27 when out of memory.
pub fn from_path<F: Files>(
    alloc: Global,
    files: &mut F,
    path: String,
    source: Source,
) -> Result<Store, Error>
    ensures loaded { IsLoadedFrom (F.table files.old) (string_bytes path) source (telling paths_says result) }
    ensures table { F.table files.new ≡ F.table files.old }
    ensures counted { CountsLoad (telling paths_number result) (F.failures files.old) (F.failures files.new) }
{
    let trust = match files.trust(&path) {
        Ok(trust) => trust,
        Err(fault) => return Err(refusal(fault, path)),
    };
    let text = match files.read(&path) {
        Ok(text) => text,
        Err(fault) => return Err(refusal(fault, path)),
    };
    let at = copied(alloc, &path)?;
    let meta = Metadata {
        path: Some(path),
        source,
        level: 0,
        trust,
    };
    match load(alloc, text, false, shared(alloc, meta)?) {
        Ok(file) => Ok(file),
        Err(parse) => Err(Error::of(at, init::Error::from(parse))),
    }
}

/// Whether a path is new to the set, which then has it.
///
/// # Errors
///
/// Out of memory.
fn is_new(alloc: Global, seen: &mut BTreeSet<String>, path: &str) -> Result<bool, NoMemory>
    ensures { (before : List (List ℕ)) → Sees seen.old before
        → IfOk result (λ new. (new ≡ not (is_among path.now before)) × Sees seen.new (if new then path.now ∷ before else before)) }
{
    Ok(seen.insert(String::from_str(alloc, path)?)?)
}

/// The metadata that has a path, each path once.
///
/// # Errors
///
/// Out of memory.
fn once(alloc: Global, metas: Vec<Metadata>) -> Result<Vec<Metadata>, NoMemory>
    ensures { IfOk result (λ kept. kept.items ≡ once [] metas.items) }
{
    let mut seen = BTreeSet::new(alloc);
    let mut kept = Vec::new(alloc);
    for meta in metas {
        if let Some(path) = &meta.path
            && is_new(alloc, &mut seen, path)?
        {
            kept.push(meta)?;
        }
    }
    Ok(kept)
}

/// Whether a file that can't be opened is skipped.
fn is_passed_over(fault: FileFault, must_exist: bool, ignores: bool) -> bool
    ensures { result ≡ (ignores || (fault.not_found && not must_exist)) }
{
    ignores || (fault.not_found && !must_exist)
}

/// The text of a file that is to be loaded, or `None` if it is skipped.
///
/// # Errors
///
/// The fault that refuses the load.
fn text_of<F: Files>(
    alloc: Global,
    files: &mut F,
    must_exist: bool,
    ignores: bool,
    path: &str,
) -> Result<Option<Vec<u8>>, FileFault>
    ensures taken { (text_taken path.now result ≡ Err OutOfMemory)
        ⊎ IsTextTaken (F.table files.old) must_exist ignores path.now (text_taken path.now result) }
    ensures table { F.table files.new ≡ F.table files.old }
    ensures counted { CountsLoad (telling (λ fault. refused_number (fault_refused path.now fault)) result) (F.failures files.old) (F.failures files.new) }
{
    let fault = match files.read(path) {
        Ok(text) => return Ok(Some(text)),
        Err(fault) => fault,
    };
    match fault.stage {
        Stage::Open if is_passed_over(fault, must_exist, ignores) => Ok(None),
        Stage::Read if ignores => Ok(Some(Vec::new(alloc))),
        Stage::Open | Stage::Read | Stage::Memory => Err(fault),
    }
}

/// Appends the file at a path to those before it; the first one is the beginning.
///
/// # Errors
///
/// E3 if there is no room for it; E27 when out of memory.
fn join(target: &mut Option<Store>, made: Store, path: String) -> Result<(), Error>
    ensures joined { (left_by paths_says result target.new ≡ Err OutOfMemory)
        ⊎ Joins (string_bytes path) target.old made (left_by paths_says result target.new) }
{
    match target {
        Some(before) => match before.append(made) {
            Ok(()) => Ok(()),
            Err(span) => Err(Error::of(path, init::Error::from(span))),
        },
        None => {
            *target = Some(made);
            Ok(())
        }
    }
}

/// Appends the file at a path, with what it includes, to those before it.
///
/// # Errors
///
/// E21 if it can't be opened or read, unless that is ignored; otherwise those of `resolved_text`, and E3.
fn load_behind<F: Files>(
    alloc: Global,
    files: &mut F,
    must_exist: bool,
    options: &Options<'_>,
    meta: Metadata,
    target: &mut Option<Store>,
) -> Result<(), Error>
    ensures loaded { IsMetaLoaded must_exist options.now.ignore_io_errors (asks_of options.now (F.table files.old)) meta target.old
        (left_by paths_says result target.new) }
    ensures table { F.table files.new ≡ F.table files.old }
    ensures counted { CountsLoad (left_by paths_number result target.new) (F.failures files.old) (F.failures files.new) }
{
    let Metadata {
        path,
        source,
        level,
        trust,
    } = meta;
    let Some(path) = path else {
        return Ok(());
    };
    let text = match text_of(alloc, files, must_exist, options.ignore_io_errors, &path) {
        Ok(Some(text)) => text,
        Ok(None) => return Ok(()),
        Err(fault) => return Err(refusal(fault, path)),
    };
    let at = copied(alloc, &path)?;
    let meta = Metadata {
        path: Some(path),
        source,
        level,
        trust,
    };
    match resolved_text(alloc, files, options, text, shared(alloc, meta)?) {
        Ok(made) => join(target, made, at),
        Err(refusal) => Err(Error::of(at, refusal)),
    }
}

/// The files of metadata that has a path, one after the other, with their includes. Each comes with what it includes by the options.
/// The result is `None` if no file was loaded. Of several with one path the first is taken. A file that isn't there is skipped unless
/// it must exist; the options say whether other faults are ignored: then a file that can't be opened is skipped, and one that can't be
/// read counts as empty.
///
/// Each file is read and parsed once. What is appended is moved once, and the paths are kept in a tree.
///
/// # Errors
///
/// E21 if a file can't be opened or read, and that isn't ignored; E1, E2 and E12 to E20 if a file or its includes are refused; E3 if
/// there is no room for one; E27 when out of memory.
pub fn from_paths<F: Files>(
    alloc: Global,
    files: &mut F,
    metas: Vec<Metadata>,
    must_exist: bool,
    options: &Options<'_>,
) -> Result<Option<Store>, Error>
    ensures loaded { IsLoadOfPaths must_exist options.now.ignore_io_errors (asks_of options.now (F.table files.old)) metas.items
        (telling paths_says result) }
    ensures table { F.table files.new ≡ F.table files.old }
    ensures counted { CountsLoad (telling paths_number result) (F.failures files.old) (F.failures files.new) }
{
    let mut target = None;
    for meta in once(alloc, metas)? {
        load_behind(alloc, files, must_exist, options, meta, &mut target)?;
    }
    Ok(target)
}
