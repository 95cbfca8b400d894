//! The file of the repository that the working directory is in, as git finds it.
ghost use Rattle.std.specs.Prelude.{◌≡◌, ◌≤◌, ◌++◌, IfOk, codes, string_bytes};

use crate::ceilings::searched_folders;
use crate::fault::Fault;
use crate::paths::{as_folder, folder_of, is_absolute, joined, line_of, name_of, within};
use crate::reading::read;
use crate::variables::variable;
use std::alloc::{AllocError, AllocGlobal, Global};
use std::fs;
use std::io::ErrorKind;
use std::rt::{Env, Files};

/// A repository: its directories, each with a slash at its end, or empty for the working directory.
#[derive(Drop)]
pub struct Repository {
    /// The directory that is its own.
    pub folder: String,
    /// The directory that it has in common with its further working trees.
    pub common: String,
}

impl Repository {
    /// The path of its file.
    ///
    /// # Errors
    ///
    /// Out of memory.
    pub fn file(&self, alloc: Global) -> Result<String, AllocError>
        ensures { IfOk result (λ s. string_bytes s ≡ string_bytes self.now.common ++ codes "config") }
    {
        within(alloc, self.common.as_str(), "config")
    }

    /// The path of its working tree's file.
    ///
    /// # Errors
    ///
    /// Out of memory.
    pub fn worktree_file(&self, alloc: Global) -> Result<String, AllocError>
        ensures { IfOk result (λ s. string_bytes s ≡ string_bytes self.now.folder ++ codes "config.worktree") }
    {
        within(alloc, self.folder.as_str(), "config.worktree")
    }

    /// The path of its directory from the root, as the user came to it: what `GIT_DIR` names, or `.git` of the working directory, by `PWD`
    /// if that leads there. None if it was found otherwise, or the working directory isn't known so.
    ///
    /// # Errors
    ///
    /// Out of memory.
    pub fn shown_folder<R: Env + Files + AllocGlobal>(
        &self,
        rt: &R,
    ) -> Result<Option<String>, Fault> {
        let named = variable(rt, "GIT_DIR")?;
        let path = named.as_deref().unwrap_or(".git");
        let is_there = as_folder(rt.alloc(), path)?.as_str() == self.folder.as_str();
        if !is_there {
            return Ok(None);
        }
        if is_absolute(path) {
            return Ok(Some(String::from_str(rt.alloc(), path)?));
        }
        match variable(rt, "PWD")? {
            Some(pwd) if is_working_folder(rt, pwd.as_str())? => {
                Ok(Some(format!(in rt.alloc(); "{pwd}/{path}")?))
            }
            _ => Ok(None),
        }
    }

    /// The path of its directory from the root, without symbolic links.
    ///
    /// # Errors
    ///
    /// The path can't be found out; out of memory.
    pub fn real_folder<R: Files + AllocGlobal>(&self, files: &R) -> Result<String, Fault> {
        let path = within(files.alloc(), self.folder.as_str(), ".")?;
        match fs::canonicalize(files, path.as_str()) {
            Ok(path) => Ok(path.into_string()),
            Err(error) => Err(Fault::unread(error)),
        }
    }

    /// The full name of the branch that it is on, if it is on one.
    ///
    /// # Errors
    ///
    /// Its `HEAD` can't be read; out of memory.
    pub fn branch<R: Files + AllocGlobal>(&self, files: &R) -> Result<Option<String>, Fault> {
        let path = within(files.alloc(), self.folder.as_str(), "HEAD")?;
        let Some(text) = read(files, path.as_str())? else {
            return Ok(None);
        };
        match line_of(&text, "ref: ") {
            Some(name) => Ok(Some(String::from_str(files.alloc(), name)?)),
            None => Ok(None),
        }
    }
}

/// The repository that `GIT_DIR` names, else the first one that is found. It is looked for in the working directory, the directory that
/// holds it, and so on.
///
/// # Errors
///
/// A file that leads to it can't be read, or leads to none; out of memory.
pub fn find_repository<R: Env + Files + AllocGlobal>(rt: &R) -> Result<Option<Repository>, Fault> {
    match variable(rt, "GIT_DIR")? {
        Some(path) => repository_at(rt, path.as_str()),
        None => repository_above(rt),
    }
}

/// The path of the repository's file.
///
/// # Errors
///
/// There is no repository; those of [`find_repository`].
pub fn repository_file<R: Env + Files + AllocGlobal>(rt: &R) -> Result<String, Fault> {
    match find_repository(rt)? {
        Some(found) => Ok(found.file(rt.alloc())?),
        None => Err(Fault::NoRepository),
    }
}

/// Whether a file is a repository's own: `config` or `config.worktree` in the repository's directory.
///
/// # Errors
///
/// A file that leads to the repository can't be read; out of memory.
pub fn is_own_file<R: Env + Files + AllocGlobal>(rt: &R, path: &str) -> Result<bool, Fault> {
    if !matches!(name_of(path), "config" | "config.worktree") {
        return Ok(false);
    }
    let found = repository_in(rt, folder_of(rt.alloc(), path)?)?;
    Ok(found.is_some())
}

/// The first repository from the working directory upwards, as far as one is looked for.
fn repository_above<R: Env + Files + AllocGlobal>(rt: &R) -> Result<Option<Repository>, Fault> {
    let mut folder = String::new(rt.alloc());
    for _ in 0..searched_folders(rt)? {
        if let Some(found) = repository_of(rt, folder.as_str())? {
            return Ok(Some(found));
        }
        folder.push_str("../")?;
    }
    Ok(None)
}

/// Whether a path from the root on leads to the working directory.
fn is_working_folder<R: Files + AllocGlobal>(rt: &R, path: &str) -> Result<bool, Fault> {
    if !is_absolute(path) {
        return Ok(false);
    }
    match (resolved(rt, path)?, resolved(rt, ".")?) {
        (Some(path), Some(folder)) => Ok(path == folder),
        _ => Ok(false),
    }
}

/// A path from the root without symbolic links; none if it leads to nothing.
fn resolved<R: Files + AllocGlobal>(rt: &R, path: &str) -> Result<Option<String>, Fault> {
    match fs::canonicalize(rt, path) {
        Ok(path) => Ok(Some(path.into_string())),
        Err(error) if error.kind() == ErrorKind::OutOfMemory => Err(Fault::Memory),
        Err(_) => Ok(None),
    }
}

/// The repository that a directory has as `.git`, or that it is itself.
fn repository_of<R: Env + Files + AllocGlobal>(
    rt: &R,
    folder: &str,
) -> Result<Option<Repository>, Fault> {
    let path = within(rt.alloc(), folder, ".git")?;
    match repository_at(rt, path.as_str())? {
        Some(found) => Ok(Some(found)),
        None => repository_in(rt, String::from_str(rt.alloc(), folder)?),
    }
}

/// The repository at a path: a directory, or one that a file there leads to.
fn repository_at<R: Env + Files + AllocGlobal>(
    rt: &R,
    path: &str,
) -> Result<Option<Repository>, Fault> {
    if is_file(rt, path)? {
        let Some(folder) = folder_behind(rt, path, "gitdir: ")? else {
            return Err(Fault::NoRepository);
        };
        return match repository_in(rt, folder)? {
            Some(found) => Ok(Some(found)),
            None => Err(Fault::NoRepository),
        };
    }
    repository_in(rt, as_folder(rt.alloc(), path)?)
}

/// The repository that a directory is. It has `HEAD`, and `objects` and `refs` beside its file; these are in another directory if
/// `GIT_COMMON_DIR` is set, or `commondir` says so, as for a further working tree.
fn repository_in<R: Env + Files + AllocGlobal>(
    rt: &R,
    folder: String,
) -> Result<Option<Repository>, Fault> {
    if !has(rt, folder.as_str(), "HEAD")? {
        return Ok(None);
    }
    let common = common_folder(rt, folder.as_str())?;
    if has(rt, common.as_str(), "objects")? && has(rt, common.as_str(), "refs")? {
        Ok(Some(Repository { folder, common }))
    } else {
        Ok(None)
    }
}

/// The directory that working trees of a repository have in common: `GIT_COMMON_DIR`, else what its `commondir` leads to, else its own.
fn common_folder<R: Env + Files + AllocGlobal>(rt: &R, folder: &str) -> Result<String, Fault> {
    if let Some(path) = variable(rt, "GIT_COMMON_DIR")? {
        return Ok(as_folder(rt.alloc(), path.as_str())?);
    }
    let path = within(rt.alloc(), folder, "commondir")?;
    match folder_behind(rt, path.as_str(), "")? {
        Some(common) => Ok(common),
        None => Ok(String::from_str(rt.alloc(), folder)?),
    }
}

/// The directory that the file at a path leads to, after the text that it begins with; a relative one begins where the file is. None
/// if there is no such file, or it doesn't begin so.
fn folder_behind<R: Files + AllocGlobal>(
    rt: &R,
    path: &str,
    before: &str,
) -> Result<Option<String>, Fault> {
    let Some(text) = read(rt, path)? else {
        return Ok(None);
    };
    match line_of(&text, before) {
        Some(folder) => Ok(Some(joined(rt.alloc(), path, folder)?)),
        None => Ok(None),
    }
}

/// Whether a directory has something of this name.
fn has<R: Files + AllocGlobal>(rt: &R, folder: &str, name: &str) -> Result<bool, Fault> {
    let path = within(rt.alloc(), folder, name)?;
    match fs::symlink_metadata(rt, path.as_str()) {
        Ok(_) => Ok(true),
        Err(error) if error.kind() == ErrorKind::OutOfMemory => Err(Fault::Memory),
        Err(_) => Ok(false),
    }
}

/// Whether a regular file is at a path.
fn is_file<R: Files>(rt: &R, path: &str) -> Result<bool, Fault> {
    match fs::metadata(rt, path) {
        Ok(metadata) => Ok(metadata.is_file()),
        Err(error) if error.kind() == ErrorKind::OutOfMemory => Err(Fault::Memory),
        Err(_) => Ok(false),
    }
}
