//! Where the file is that a call is about.
ghost use Rattle.std.specs.Prelude.{◌≡◌, Ok};
ghost use Rattle.gixcfg_words.specs.declared.command.Source.TheVariants as sources;
ghost use Rattle.gixcfg_words.specs.declared.command.Target.TheVariants as targets;
ghost use Rattle.gixcfg_core.specs.declared.origins.Located.TheVariants.{Input};

use gix_config::refusals::Refusal;
use gix_config::{File, KeyRef};
use gixcfg_core::origins::Located;
use gixcfg_core::trouble::Trouble;
use gixcfg_files::{
    Fault, find_repository, read, repository_file, system_file, user_file, variable,
};
use gixcfg_words::command::{Place, Source, Target};
use std::alloc::AllocGlobal;
use std::rt::{Env, Files};

/// Where what a call reads is.
///
/// # Errors
///
/// It is a file of git's that isn't found; out of memory.
pub fn located<R: Files + Env + AllocGlobal>(rt: &R, source: Source<'_>) -> Result<Located, Trouble>
    ensures { source.entry ≡ sources.Target targets.Input → result ≡ Ok Input }
{
    match source {
        Source::Effective => Ok(Located::Effective),
        Source::Target(Target::Default) => match variable(rt, "GIT_CONFIG")? {
            Some(path) => Ok(Located::File(path, None)),
            None => Ok(Located::Effective),
        },
        Source::Target(target) => located_target(rt, target),
    }
}

/// Where the file is that an edit is about.
///
/// # Errors
///
/// It is a file of git's that isn't found; out of memory.
pub fn located_target<R: Files + Env + AllocGlobal>(
    rt: &R,
    target: Target<'_>,
) -> Result<Located, Trouble>
    ensures { target.entry ≡ targets.Input → result ≡ Ok Input }
{
    match target {
        Target::Input => Ok(Located::Input),
        Target::File(path) => Ok(Located::File(String::from_str(rt.alloc(), path)?, None)),
        Target::Place(place) => Ok(Located::File(path_of(rt, place)?, Some(place))),
        Target::Default => match variable(rt, "GIT_CONFIG")? {
            Some(path) => Ok(Located::File(path, None)),
            None => Ok(Located::File(repository_file(rt)?, Some(Place::Local))),
        },
    }
}

/// The path of one of git's files.
fn path_of<R: Files + Env + AllocGlobal>(rt: &R, place: Place) -> Result<String, Trouble> {
    match place {
        Place::Global => Ok(user_file(rt)?),
        Place::System => Ok(system_file(rt)?),
        Place::Local => Ok(repository_file(rt)?),
        Place::Worktree => worktree_path(rt),
    }
}

/// The path of the working tree's file, if each has one of its own; else that of the repository's file.
fn worktree_path<R: Files + Env + AllocGlobal>(rt: &R) -> Result<String, Trouble> {
    let Some(found) = find_repository(rt)? else {
        return Err(Trouble::File(Fault::NoRepository));
    };
    let path = found.file(rt.alloc())?;
    if has_worktree_file(rt, path.as_str())? {
        Ok(found.worktree_file(rt.alloc())?)
    } else {
        Ok(path)
    }
}

/// Whether the repository's file says that each working tree has a file of its own. A text that is refused says nothing, and is
/// refused again when it is loaded.
pub fn has_worktree_file<R: Files + AllocGlobal>(rt: &R, path: &str) -> Result<bool, Trouble> {
    let Some(text) = read(rt, path)? else {
        return Ok(false);
    };
    match File::try_from_bytes_owned_lossy(rt.alloc(), text) {
        Ok(file) => is_set(&file),
        Err(refusal) if refusal.is_memory() => Err(Trouble::Memory),
        Err(_) => Ok(false),
    }
}

/// Whether a file says that each working tree has a file of its own.
fn is_set(file: &File) -> Result<bool, Trouble> {
    let Some(key) = KeyRef::parse_unvalidated(b"extensions.worktreeConfig") else {
        return Ok(false);
    };
    match file.boolean(key) {
        Ok(value) => Ok(value.unwrap_or(false)),
        Err(refusal) if refusal.number() == 27 => Err(Trouble::Memory),
        Err(_) => Ok(false),
    }
}
