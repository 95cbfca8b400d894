//! The files of the system and of the user, as git finds them.

use crate::fault::Fault;
use crate::paths::{home_file, other_file};
use crate::variables::variable;
use std::alloc::AllocGlobal;
use std::fs;
use std::io::ErrorKind;
use std::rt::{Env, Files};

/// The path of the system's file: `GIT_CONFIG_SYSTEM`, else `/etc/gitconfig`.
///
/// # Errors
///
/// Out of memory.
pub fn system_file<R: Env + AllocGlobal>(rt: &R) -> Result<String, Fault> {
    match variable(rt, "GIT_CONFIG_SYSTEM")? {
        Some(path) => Ok(path),
        None => Ok(String::from_str(rt.alloc(), "/etc/gitconfig")?),
    }
}

/// The path of the user's file: `GIT_CONFIG_GLOBAL`, else `.gitconfig` in the home directory. Where that can't be opened and
/// `git/config` in the directory `XDG_CONFIG_HOME` can, which is `.config` in the home directory if it isn't set, it is that one.
///
/// # Errors
///
/// There is no home directory; out of memory.
pub fn user_file<R: Env + Files + AllocGlobal>(rt: &R) -> Result<String, Fault> {
    if let Some(path) = variable(rt, "GIT_CONFIG_GLOBAL")? {
        return Ok(path);
    }
    let Some(home) = variable(rt, "HOME")? else {
        return Err(Fault::NoHome);
    };
    let path = home_file(rt.alloc(), home.as_str())?;
    if opens(rt, path.as_str())? {
        return Ok(path);
    }
    let other = other_user_file(rt, home.as_str())?;
    if opens(rt, other.as_str())? {
        Ok(other)
    } else {
        Ok(path)
    }
}

/// The path of the user's other file.
fn other_user_file<R: Env + AllocGlobal>(rt: &R, home: &str) -> Result<String, Fault> {
    let folder = variable(rt, "XDG_CONFIG_HOME")?;
    Ok(other_file(rt.alloc(), home, folder.as_deref())?)
}

/// Whether what is at a path can be opened.
fn opens<R: Files + AllocGlobal>(files: &R, path: &str) -> Result<bool, Fault> {
    match fs::open(files, path) {
        Ok(file) => {
            drop(file);
            Ok(true)
        }
        Err(error) if error.kind() == ErrorKind::OutOfMemory => Err(Fault::Memory),
        Err(_) => Ok(false),
    }
}
