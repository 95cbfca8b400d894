//! What includes are followed by: the home directory, and the repository that conditions are about.

use crate::trouble::Trouble;
use gitconf_includes::includes::{self, conditional};
use gitconf_includes::init;
use gitconf_values::path::interpolate;
use gixcfg_files::Repository;
use std::alloc::AllocGlobal;
use std::rt::{Env, Files};

/// What conditions of includes are about.
#[derive(Drop)]
pub struct Here {
    /// The directory of the repository, from the root, without symbolic links.
    folder: Option<String>,
    /// The same as the user came to it, where that is another path.
    shown: Option<String>,
    /// The full name of its branch.
    branch: Option<String>,
}

/// What conditions are about in a repository, or outside of one.
pub fn here_from<R: Env + Files + AllocGlobal>(
    rt: &R,
    found: Option<&Repository>,
) -> Result<Here, Trouble> {
    match found {
        Some(found) => Ok(Here {
            folder: Some(found.real_folder(rt)?),
            shown: found.shown_folder(rt)?,
            branch: found.branch(rt)?,
        }),
        None => Ok(Here {
            folder: None,
            shown: None,
            branch: None,
        }),
    }
}

/// Files to look things up in, with what they include or without.
pub fn options_of<'a>(
    home_dir: Option<&'a str>,
    here: &'a Here,
    follows: bool,
) -> init::Options<'a> {
    let interpolate = interpolate::Context {
        git_install_dir: None,
        home_dir,
        home_for_user: None,
    };
    let conditions = conditional::Context {
        git_dir: git_dir(here),
        branch_name: here.branch.as_deref(),
    };
    init::Options {
        includes: if follows {
            includes::Options::follow(interpolate, conditions)
        } else {
            includes::Options::no_follow()
        },
        lossy: true,
        ignore_io_errors: false,
    }
}

/// The directory of the repository, as git compares it: without symbolic links, and as the user came to it.
fn git_dir(here: &Here) -> Option<conditional::GitDir<'_>> {
    let real = here.folder.as_deref()?;
    Some(conditional::GitDir {
        path: here.shown.as_deref().unwrap_or(real),
        real: Ok(real),
    })
}
