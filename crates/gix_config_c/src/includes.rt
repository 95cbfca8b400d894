//! How includes are followed, as a program in C says it.
ghost use Rattle.std.specs.Prelude.{◌≡◌};
ghost use Rattle.std.specs.Option.{option_map};
ghost use Rattle.gitconf_includes.specs.Rules.{git_folder, rules_of_includes};
ghost use Rattle.gix_config_c.specs.Followed.{git_folder_of, rules_of};

use crate::folders::{Folders, context, text_if};
use crate::key::text;
use gitconf_includes::includes;
use gitconf_includes::includes::conditional::{Context, GitDir};

/// How includes are followed: ten files deep; deeper ones are refused, and so is a path relative to the directory of a file that has no
/// path.
#[repr(C)]
pub struct Includes<'a> {
    /// Whether an include that lacks something is refused; else it is left out. That is a path whose shorthand stands for nothing, or a
    /// condition on the repository's directory if there is no repository.
    pub strict: bool,
    /// Whether whitespace, line endings and comments of the files that are read are left out.
    pub lossy: bool,
    /// The directories that the shorthands of paths stand for.
    pub folders: Folders<'a>,
    /// Whether there is a repository.
    pub has_git_folder: bool,
    /// The directory of the repository, for the conditions `gitdir:` and `gitdir/i:`.
    pub git_folder: &'a [u8],
    /// The same directory, with its symbolic links resolved.
    pub real_git_folder: &'a [u8],
    /// Whether there is a branch.
    pub has_branch: bool,
    /// The full name of the branch, as `refs/heads/main`, for the condition `onbranch:`.
    pub branch: &'a [u8],
}

/// The directory of the repository, if there is one; `None` for one that is not UTF-8.
fn git_dir<'a>(includes: &'a Includes<'_>) -> Option<Option<GitDir<'a>>>
    ensures { option_map (λ dir. option_map git_folder dir) result ≡ git_folder_of includes.now }
{
    if !includes.has_git_folder {
        return Some(None);
    }
    let path = text(includes.git_folder)?;
    let real = text(includes.real_git_folder)?;
    Some(Some(GitDir {
        path,
        real: Ok(real),
    }))
}

/// The same for the library, but for `lossy`. `None` if a text that is known is not UTF-8.
pub fn followed<'a>(includes: &'a Includes<'_>) -> Option<includes::Options<'a>>
    ensures { option_map (λ o. record (rules_of_includes o) { lossy = includes.now.lossy }) result ≡ rules_of includes.now }
{
    let folders = context(&includes.folders)?;
    let git_dir = git_dir(includes)?;
    let branch_name = text_if(includes.has_branch, includes.branch)?;
    let mut options = includes::Options::follow(
        folders,
        Context {
            git_dir,
            branch_name,
        },
    );
    options.err_on_interpolation_failure = includes.strict;
    Some(options)
}
