//! What the conditions of `includeIf` are about.
use gitconf_sources::FileFault;

/// What the conditions of `includeIf` are about. The default has nothing, and no condition on it holds.
#[derive(Clone, Copy, Default)]
pub struct Context<'a> {
    /// The directory of the repository, for `gitdir:` and `gitdir/i:`.
    pub git_dir: Option<GitDir<'a>>,
    /// The full name of the branch, such as `refs/heads/main`, for `onbranch:`.
    pub branch_name: Option<&'a str>,
}

/// The directory of a repository, as a path.
#[derive(Clone, Copy)]
pub struct GitDir<'a> {
    /// The directory as it is given.
    pub path: &'a str,
    /// The same directory with its symbolic links resolved, or why it could not be.
    pub real: Result<&'a str, FileFault>,
}
