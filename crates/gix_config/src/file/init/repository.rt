//! The configuration of a repository.
ghost use Rattle.std.specs.Prelude.{◌≡◌, ◌⊎◌, Err, IfOk, string_bytes};
ghost use Rattle.std.specs.Result.{result_map_both};
ghost use Rattle.gitconf_includes.specs.Outcomes.{asks_of};
ghost use Rattle.gitconf_includes.specs.Rules.{resolved, rules_of};
ghost use Rattle.gitconf_loaders.specs.Errors.{git_number, git_says, paths_number, paths_says};
ghost use Rattle.gitconf_loaders.specs.Paths.{CountsLoad, left_by, telling};
ghost use Rattle.gitconf_loaders.specs.Refused.{OutOfMemory};
ghost use Rattle.gix_config.specs.Repository as spec;
ghost use Rattle.gix_config.specs.Repository.{AreOverridesBehind, AreOwnAndOverridesBehind, IsExpandedBehind, IsJoined, IsOwnBehind, IsReadOf, IsRepository, IsWorktree, IsWorktreeBehind, parts_of, repository_rules};

use crate::file::File;
use crate::file::init::environment::{expanded, overrides};
use gitconf_includes::includes;
use gitconf_includes::init::Options;
use gitconf_loaders::from_git_dir::Error;
use gitconf_loaders::from_paths;
use gitconf_loaders::globals::from_globals;
use gitconf_loaders::paths::from_path;
use gitconf_sources::source::Source;
use gitconf_sources::{Env, FileFault, Files, Host, Places};
use gitconf_text::NoMemory;
use gitconf_values::path::{interpolate, join, parent};
use includes::conditional::{Context, GitDir};
use std::alloc::Global;

/// The files that are a repository's own.
#[derive(Drop)]
struct Own {
    /// The repository's configuration.
    local: File,
    /// The configuration of its worktree, if it has some.
    worktree: Option<File>,
}

/// The files that make a repository's configuration, before they are put together.
#[derive(Drop)]
struct Parts {
    own: Own,
    /// The configuration of the machine and of the user.
    globals: File,
}

/// The directory that the repository's configuration is in.
fn folder_of(path: &str) -> &str
    ensures { result.now ≡ spec.folder_of path.now }
{
    match parent(path) {
        Some(folder) => folder,
        None => "",
    }
}

/// Whether the repository has configuration of its worktree.
///
/// # Errors
///
/// E27 when out of memory.
fn has_worktree(local: &File) -> Result<bool, NoMemory>
    ensures { IfOk result (λ has. has ≡ spec.has_worktree local.now) }
{
    match local.boolean_by("extensions", None, "worktreeConfig") {
        Ok(Some(on)) => Ok(on),
        Ok(None) => Ok(false),
        Err(refusal) if refusal.number() == 27 => Err(NoMemory),
        Err(_) => Ok(false),
    }
}

/// The configuration of the repository's worktree, if it has some.
///
/// # Errors
///
/// Those of [`File::from_path_no_includes`].
fn worktree<F: Files>(
    alloc: Global,
    files: &mut F,
    folder: &str,
    local: &File,
) -> Result<Option<File>, from_paths::Error>
    ensures loaded { (telling paths_says result ≡ Err OutOfMemory) ⊎ IsWorktree (F.table files.old) folder.now local.now (telling paths_says result) }
    ensures table { F.table files.new ≡ F.table files.old }
    ensures counted { CountsLoad (telling paths_number result) (F.failures files.old) (F.failures files.new) }
{
    if !has_worktree(local)? {
        return Ok(None);
    }
    let path = join(alloc, folder, "config.worktree")?;
    let store = from_path(alloc, files, path, Source::Worktree)?;
    Ok(Some(File { store }))
}

/// How the repository's files are expanded: with the home directory and the repository's own directory, and no branch.
fn options<'a>(places: &'a Places, folder: &'a str, real: Result<&'a str, FileFault>) -> Options<'a>
    ensures { rules_of result ≡ repository_rules places.now folder.now (resolved real.entry) }
{
    let folders = interpolate::Context {
        home_dir: places.home.as_deref(),
        ..interpolate::Context::default()
    };
    let conditions = Context {
        git_dir: Some(GitDir { path: folder, real }),
        branch_name: None,
    };
    Options {
        includes: includes::Options::follow(folders, conditions),
        ..Options::default()
    }
}

/// Expands a file, and appends it to another one.
///
/// # Errors
///
/// Those of includes; E3 if there is no room; E27 when out of memory.
fn put_behind<F: Files>(
    alloc: Global,
    files: &mut F,
    options: &Options<'_>,
    target: &mut File,
    file: File,
) -> Result<(), Error>
    ensures put { IsExpandedBehind (asks_of options.now (F.table files.old)) target.old file (left_by git_says result target.new) }
    ensures table { F.table files.new ≡ F.table files.old }
    ensures counted { CountsLoad (telling git_number result) (F.failures files.old) (F.failures files.new) }
{
    let file = expanded(alloc, files, options, file)?;
    Ok(target.append(file)?)
}

/// The same for the worktree's configuration, if it has some.
///
/// # Errors
///
/// Those of [`put_behind`].
fn put_worktree<F: Files>(
    alloc: Global,
    files: &mut F,
    options: &Options<'_>,
    target: &mut File,
    worktree: Option<File>,
) -> Result<(), Error>
    ensures put { IsWorktreeBehind (asks_of options.now (F.table files.old)) worktree target.old (left_by git_says result target.new) }
    ensures table { F.table files.new ≡ F.table files.old }
    ensures counted { CountsLoad (telling git_number result) (F.failures files.old) (F.failures files.new) }
{
    match worktree {
        Some(worktree) => put_behind(alloc, files, options, target, worktree),
        None => Ok(()),
    }
}

/// Appends the overrides to a file.
///
/// # Errors
///
/// Those of the overrides; E3 if there is no room; E27 when out of memory.
fn put_overrides<F: Files, E: Env>(
    alloc: Global,
    files: &mut F,
    env: &mut E,
    places: &Places,
    target: &mut File,
) -> Result<(), Error>
    ensures put { AreOverridesBehind (E.variables env.old) places.now (F.table files.old) target.old (left_by git_says result target.new) }
    ensures table { F.table files.new ≡ F.table files.old }
    ensures counted { CountsLoad (telling git_number result) (F.failures files.old) (F.failures files.new) }
    ensures stays { E.variables env.new ≡ E.variables env.old }
{
    let file = overrides(alloc, files, env, places)?;
    Ok(target.append(file)?)
}

/// Appends the repository's own files to another one.
///
/// # Errors
///
/// Those of [`put_behind`].
fn put_own<F: Files>(
    alloc: Global,
    files: &mut F,
    options: &Options<'_>,
    target: &mut File,
    own: Own,
) -> Result<(), Error>
    ensures put { IsOwnBehind (asks_of options.now (F.table files.old)) own.local own.worktree target.old (left_by git_says result target.new) }
    ensures table { F.table files.new ≡ F.table files.old }
    ensures counted { CountsLoad (telling git_number result) (F.failures files.old) (F.failures files.new) }
{
    let Own { local, worktree } = own;
    put_behind(alloc, files, options, target, local)?;
    put_worktree(alloc, files, options, target, worktree)
}

/// Appends the repository's own files to another one, and the overrides to all.
///
/// # Errors
///
/// Those of [`put_behind`], and of the overrides.
fn put_own_and_overrides<F: Files, E: Env>(
    alloc: Global,
    files: &mut F,
    env: &mut E,
    places: &Places,
    options: &Options<'_>,
    target: &mut File,
    own: Own,
) -> Result<(), Error>
    ensures put { AreOwnAndOverridesBehind (E.variables env.old) places.now (F.table files.old) (asks_of options.now (F.table files.old))
        own.local own.worktree target.old (left_by git_says result target.new) }
    ensures table { F.table files.new ≡ F.table files.old }
    ensures counted { CountsLoad (telling git_number result) (F.failures files.old) (F.failures files.new) }
    ensures stays { E.variables env.new ≡ E.variables env.old }
{
    put_own(alloc, files, options, target, own)?;
    put_overrides(alloc, files, env, places, target)
}

/// Appends the repository's files to those of the machine and of the user, and the overrides to all.
///
/// # Errors
///
/// Those of [`put_own_and_overrides`].
fn joined<F: Files, E: Env>(
    alloc: Global,
    files: &mut F,
    env: &mut E,
    places: &Places,
    options: &Options<'_>,
    parts: Parts,
) -> Result<File, Error>
    ensures joined { IsJoined (E.variables env.old) places.now (F.table files.old) (asks_of options.now (F.table files.old)) (parts_of parts)
        (telling git_says result) }
    ensures table { F.table files.new ≡ F.table files.old }
    ensures counted { CountsLoad (telling git_number result) (F.failures files.old) (F.failures files.new) }
    ensures stays { E.variables env.new ≡ E.variables env.old }
{
    let Parts { own, globals } = parts;
    let mut all = expanded(alloc, files, options, globals)?;
    put_own_and_overrides(alloc, files, env, places, options, &mut all, own)?;
    Ok(all)
}

/// Reads the files of a repository, and those of the machine and of the user.
///
/// # Errors
///
/// Those of [`File::from_path_no_includes`] and [`File::from_globals`].
fn read<F: Files, E: Env>(
    alloc: Global,
    files: &mut F,
    env: &mut E,
    places: &Places,
    path: String,
    folder: &str,
) -> Result<Parts, from_paths::Error>
    ensures read { IsReadOf (E.variables env.old) places.now (F.table files.old) (string_bytes path) folder.now (result_map_both parts_of paths_says result) }
    ensures table { F.table files.new ≡ F.table files.old }
    ensures counted { CountsLoad (telling paths_number result) (F.failures files.old) (F.failures files.new) }
    ensures stays { E.variables env.new ≡ E.variables env.old }
{
    let local = File {
        store: from_path(alloc, files, path, Source::Local)?,
    };
    let worktree = worktree(alloc, files, folder, &local)?;
    let globals = File {
        store: from_globals(alloc, files, env, places)?,
    };
    Ok(Parts {
        own: Own { local, worktree },
        globals,
    })
}

/// The configuration of the repository whose git directory is `dir`.
///
/// # Errors
///
/// Those of [`File::from_git_dir`].
fn repository<F: Files, E: Env>(
    alloc: Global,
    files: &mut F,
    env: &mut E,
    places: &Places,
    dir: &str,
    real: Result<&str, FileFault>,
) -> Result<File, Error>
    ensures loaded { IsRepository (E.variables env.old) places.now (F.table files.old) dir.now (resolved real.entry) (telling git_says result) }
    ensures table { F.table files.new ≡ F.table files.old }
    ensures counted { CountsLoad (telling git_number result) (F.failures files.old) (F.failures files.new) }
    ensures stays { E.variables env.new ≡ E.variables env.old }
{
    let place = join(alloc, dir, "config")?;
    let folder = folder_of(&place);
    let options = options(places, folder, real);
    let path = join(alloc, dir, "config")?;
    let parts = read(alloc, files, env, places, path, folder)?;
    joined(alloc, files, env, places, &options, parts)
}

impl File {
    ghost use Rattle.std.specs.Prelude.{◌≡◌};
    ghost use Rattle.gitconf_includes.specs.Rules.{resolved};
    ghost use Rattle.gitconf_loaders.specs.Errors.{git_number, git_says};
    ghost use Rattle.gitconf_loaders.specs.Paths.{CountsLoad, telling};
    ghost use Rattle.gix_config.specs.Repository.{IsRepository};

    /// The configuration of the repository whose git directory is `dir`. `real` is that directory with its symbolic links resolved. The
    /// configuration is that of the machine and of the user ([`File::from_globals`]), of the repository (`config` in the directory), of its
    /// worktree (`config.worktree`, if `extensions.worktreeConfig` is true), and the overrides ([`File::from_environment_overrides`]), one
    /// after the other as [`File::append`] puts them. Includes of the repository's files know the home directory of the host's places and
    /// the git directory; as in the Rust crate, the files of the machine and of the user are expanded once more with these.
    ///
    /// # Errors
    ///
    /// E21 if a file can't be opened or read, or its trust can't be asked; E18 if a condition asks for the resolved directory and that is a
    /// fault; otherwise those of the calls named above.
    pub fn from_git_dir(
        alloc: Global,
        dir: &str,
        real: Result<&str, FileFault>,
        host: &mut Host,
    ) -> Result<File, Error>
        ensures loaded { IsRepository (⟦<Box<dyn Env> as Env>⟧.variables host.old.env) host.old.places
            (⟦<Box<dyn Files> as Files>⟧.table host.old.files) dir.now (resolved real.entry) (telling git_says result) }
        ensures table { ⟦<Box<dyn Files> as Files>⟧.table host.new.files ≡ ⟦<Box<dyn Files> as Files>⟧.table host.old.files }
        ensures counted { CountsLoad (telling git_number result) (⟦<Box<dyn Files> as Files>⟧.failures host.old.files)
            (⟦<Box<dyn Files> as Files>⟧.failures host.new.files) }
        ensures env { ⟦<Box<dyn Env> as Env>⟧.variables host.new.env ≡ ⟦<Box<dyn Env> as Env>⟧.variables host.old.env }
        ensures places { host.new.places ≡ host.old.places }
    {
        let Host { files, env, places } = host;
        repository(alloc, files, env, places, dir, real)
    }
}
