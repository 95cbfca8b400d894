//! How far a repository is looked for: up to the root, or to a directory of `GIT_CEILING_DIRECTORIES`.
ghost use Rattle.std.specs.Prelude.{◌≡◌};
ghost use Rattle.gixcfg_files.specs.Paths.{folders_below as folders_below_lem, goes_on as goes_on_lem};

use crate::fault::Fault;
use crate::paths::{depth_of, is_absolute};
use crate::variables::variable;
use std::alloc::AllocGlobal;
use std::fs;
use std::io::ErrorKind;
use std::rt::{Env, Files};

/// How many bytes the path of a directory has at most.
const LONGEST: usize = 4096;

/// How many directories are looked at: the working directory, and those that hold it and lie below each directory of
/// `GIT_CEILING_DIRECTORIES` that holds it, as git has it. The working directory alone, where it isn't known which it is.
///
/// # Errors
///
/// Out of memory.
pub fn searched_folders<R: Env + Files + AllocGlobal>(rt: &R) -> Result<usize, Fault> {
    let mut path = [0u8; LONGEST];
    let Ok(len) = rt.current_dir(&mut path) else {
        return Ok(1);
    };
    let path = &path[..len];
    let all = depth_of(path).saturating_add(1);
    match variable(rt, "GIT_CEILING_DIRECTORIES")? {
        Some(ceilings) => below_all(rt, path, ceilings.as_str(), all),
        None => Ok(all),
    }
}

/// How many of these directories, from the one at a path up, lie below each ceiling that holds it.
fn below_all<R: Files + AllocGlobal>(
    rt: &R,
    path: &[u8],
    ceilings: &str,
    all: usize,
) -> Result<usize, Fault> {
    let mut least = all;
    let mut is_resolved = true;
    for ceiling in ceilings.split(':') {
        if ceiling.is_empty() {
            is_resolved = false;
        } else if is_absolute(ceiling) {
            least = least.min(below(rt, path, ceiling, is_resolved)?.unwrap_or(all));
        }
    }
    Ok(least)
}

/// How many directories lie below a ceiling, whose symbolic links are resolved or aren't.
fn below<R: Files + AllocGlobal>(
    rt: &R,
    path: &[u8],
    ceiling: &str,
    is_resolved: bool,
) -> Result<Option<usize>, Fault> {
    if !is_resolved {
        return Ok(folders_below(path, without_slash(ceiling)));
    }
    match fs::canonicalize(rt, ceiling) {
        Ok(folder) => Ok(folders_below(path, without_slash(folder.as_str()))),
        Err(error) if error.kind() == ErrorKind::OutOfMemory => Err(Fault::Memory),
        Err(_) => Ok(None),
    }
}

/// A path without the slash at its end.
fn without_slash(path: &str) -> &[u8] {
    path.strip_suffix('/').unwrap_or(path).as_bytes()
}

/// How many directories there are from the one at a path up, below one that holds it; none if that doesn't hold it.
fn folders_below(path: &[u8], folder: &[u8]) -> Option<usize>
    ensures { result ≡ folders_below_lem path.now folder.now }
{
    if path.starts_with(folder) && goes_on(&path[folder.len()..]) {
        Some(depth_of(&path[folder.len()..]))
    } else {
        None
    }
}

/// Whether a path goes on with a slash and a name.
fn goes_on(rest: &[u8]) -> bool
    ensures { result ≡ goes_on_lem rest.now }
{
    rest.len() > 1 && rest[0] == b'/'
}
