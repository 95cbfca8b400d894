//! Where the configuration of each source is.
ghost use Rattle.std.specs.Prelude.{◌≡◌, codes, string_bytes, IfOk};
ghost use Rattle.std.specs.Option.{option_map};
ghost use Rattle.gitconf_sources.specs.Places as spec;
ghost use Rattle.gitconf_sources.specs.Places.{folder_place, git_place, in_folder, installation_place, IsPlaced, IsText, machine_place, system_place, unless_empty, user_place};

use crate::source::Source;
use crate::{Env, EnvVar, Places};
use bstr::BString;
use gitconf_text::NoMemory;
use gitconf_values::Boolean;
use gitconf_values::path::join;
use std::alloc::Global;

/// Where the configuration of a source is. In the Rust crate it is a method of the source itself.
pub trait StorageLocation {
    ghost use Rattle.std.specs.Prelude.{◌≡◌, string_bytes, IfOk};
    ghost use Rattle.std.specs.Option.{option_map};
    ghost use Rattle.gitconf_sources.specs.declared.source.Source.{Source};
    ghost use Rattle.gitconf_sources.specs.Places.{place_of, IsPlaced};

    ghost source: { Self → Source };

    /// The path of the source's configuration, or `None` if it has none. A variable that is set to bytes that aren't UTF-8 counts as unset.
    /// Each variable is asked at most once, and only if those before it leave the path open.
    ///
    /// # Errors
    ///
    /// Only when out of memory.
    fn storage_location<E: Env>(
        self,
        alloc: Global,
        env: &mut E,
        places: &Places,
    ) -> Result<Option<String>, NoMemory>
        ensures placed { IfOk result (λ place. IsPlaced (E.variables env.old) (λ var. place_of var places.now (source self)) (option_map string_bytes place)) }
        ensures stays { E.variables env.new ≡ E.variables env.old };
}

/// The text that a variable is set to, or `None` if it isn't set, or is set to bytes that aren't UTF-8.
fn text_of<E: Env>(env: &mut E, name: &str) -> Result<Option<String>, NoMemory>
    ensures told { IfOk result (λ text. IsText (E.variables env.old) name.now (option_map string_bytes text)) }
    ensures stays { E.variables env.new ≡ E.variables env.old }
{
    match env.var(name)? {
        EnvVar::Text(text) => Ok(Some(text)),
        EnvVar::Unset | EnvVar::IllFormed => Ok(None),
    }
}

/// Whether a text is a true boolean. One that is not a boolean counts as false.
fn is_true(text: String) -> bool
    ensures { result ≡ spec.is_true (string_bytes text) }
{
    match Boolean::try_from(BString::new(text.into_bytes())) {
        Ok(boolean) => boolean.0,
        Err(_) => false,
    }
}

/// Whether there is a text, and it is a true boolean.
fn is_on(text: Option<String>) -> bool
    ensures { result ≡ spec.is_on (option_map string_bytes text) }
{
    match text {
        Some(text) => is_true(text),
        None => false,
    }
}

/// The text, unless it is empty.
fn unless_empty(text: Option<String>) -> Option<String>
    ensures { option_map string_bytes result ≡ spec.unless_empty (option_map string_bytes text) }
{
    match text {
        Some(text) if !text.is_empty() => Some(text),
        _ => None,
    }
}

/// The path of a file in a directory, if there is a directory.
fn in_folder(alloc: Global, file: &str, folder: Option<String>) -> Result<Option<String>, NoMemory>
    ensures { IfOk result (λ place. option_map string_bytes place ≡ spec.in_folder file.now (option_map string_bytes folder)) }
{
    match folder {
        Some(folder) => Ok(Some(join(alloc, &folder, file)?)),
        None => Ok(None),
    }
}

/// A copy of the path of what was installed with Git.
fn installed(alloc: Global, places: &Places) -> Result<Option<String>, NoMemory>
    ensures { IfOk result (λ place. option_map string_bytes place ≡ option_map string_bytes places.now.installation_config) }
{
    match &places.installation_config {
        Some(path) => Ok(Some(String::from_str(alloc, path)?)),
        None => Ok(None),
    }
}

/// The path of what was installed with Git, unless that is switched off.
fn installation<E: Env>(
    alloc: Global,
    env: &mut E,
    places: &Places,
) -> Result<Option<String>, NoMemory>
    ensures placed { IfOk result (λ place. IsPlaced (E.variables env.old)
        (λ var. installation_place places.now (spec.text_of var (codes "GIT_CONFIG_NOSYSTEM"))) (option_map string_bytes place)) }
    ensures stays { E.variables env.new ≡ E.variables env.old }
{
    if is_on(text_of(env, "GIT_CONFIG_NOSYSTEM")?) {
        return Ok(None);
    }
    installed(alloc, places)
}

/// The path of the configuration of the whole machine.
fn machine<E: Env>(alloc: Global, env: &mut E, places: &Places) -> Result<Option<String>, NoMemory>
    ensures placed { IfOk result (λ place. IsPlaced (E.variables env.old)
        (λ var. machine_place places.now (spec.text_of var (codes "GIT_CONFIG_SYSTEM"))) (option_map string_bytes place)) }
    ensures stays { E.variables env.new ≡ E.variables env.old }
{
    match text_of(env, "GIT_CONFIG_SYSTEM")? {
        Some(path) => Ok(Some(path)),
        None => Ok(Some(join(alloc, &places.system_prefix, "etc/gitconfig")?)),
    }
}

/// The same, unless it is switched off.
fn system<E: Env>(alloc: Global, env: &mut E, places: &Places) -> Result<Option<String>, NoMemory>
    ensures placed { IfOk result (λ place. IsPlaced (E.variables env.old)
        (λ var. system_place places.now (spec.text_of var (codes "GIT_CONFIG_NOSYSTEM")) (spec.text_of var (codes "GIT_CONFIG_SYSTEM")))
        (option_map string_bytes place)) }
    ensures stays { E.variables env.new ≡ E.variables env.old }
{
    if is_on(text_of(env, "GIT_CONFIG_NOSYSTEM")?) {
        return Ok(None);
    }
    machine(alloc, env, places)
}

/// The path of a file in the home directory.
fn in_home<E: Env>(alloc: Global, env: &mut E, file: &str) -> Result<Option<String>, NoMemory>
    ensures placed { IfOk result (λ place. IsPlaced (E.variables env.old)
        (λ var. spec.in_folder file.now (spec.text_of var (codes "HOME"))) (option_map string_bytes place)) }
    ensures stays { E.variables env.new ≡ E.variables env.old }
{
    let home = text_of(env, "HOME")?;
    in_folder(alloc, file, home)
}

/// The path of the user's configuration in the directory for configuration.
fn in_config_folder<E: Env>(alloc: Global, env: &mut E) -> Result<Option<String>, NoMemory>
    ensures placed { IfOk result (λ place. IsPlaced (E.variables env.old)
        (λ var. folder_place (spec.text_of var (codes "XDG_CONFIG_HOME")) (spec.text_of var (codes "HOME"))) (option_map string_bytes place)) }
    ensures stays { E.variables env.new ≡ E.variables env.old }
{
    match unless_empty(text_of(env, "XDG_CONFIG_HOME")?) {
        Some(folder) => Ok(Some(join(alloc, &folder, "git/config")?)),
        None => in_home(alloc, env, ".config/git/config"),
    }
}

/// The same, unless a variable names another one.
fn git<E: Env>(alloc: Global, env: &mut E) -> Result<Option<String>, NoMemory>
    ensures placed { IfOk result (λ place. IsPlaced (E.variables env.old)
        (λ var. git_place (spec.text_of var (codes "GIT_CONFIG_GLOBAL")) (spec.text_of var (codes "XDG_CONFIG_HOME")) (spec.text_of var (codes "HOME")))
        (option_map string_bytes place)) }
    ensures stays { E.variables env.new ≡ E.variables env.old }
{
    match text_of(env, "GIT_CONFIG_GLOBAL")? {
        Some(path) => Ok(Some(path)),
        None => in_config_folder(alloc, env),
    }
}

/// The path of the user's configuration in the home directory, unless a variable names another one.
fn user<E: Env>(alloc: Global, env: &mut E) -> Result<Option<String>, NoMemory>
    ensures placed { IfOk result (λ place. IsPlaced (E.variables env.old)
        (λ var. user_place (spec.text_of var (codes "GIT_CONFIG_GLOBAL")) (spec.text_of var (codes "HOME"))) (option_map string_bytes place)) }
    ensures stays { E.variables env.new ≡ E.variables env.old }
{
    match text_of(env, "GIT_CONFIG_GLOBAL")? {
        Some(path) => Ok(Some(path)),
        None => in_home(alloc, env, ".gitconfig"),
    }
}

/// This path, as an owned text.
fn fixed(alloc: Global, path: &str) -> Result<Option<String>, NoMemory>
    ensures { IfOk result (λ place. option_map string_bytes place ≡ Some path.now) }
{
    Ok(Some(String::from_str(alloc, path)?))
}

impl StorageLocation for Source {
    ghost source = { λ s. s };

    fn storage_location<E: Env>(
        self,
        alloc: Global,
        env: &mut E,
        places: &Places,
    ) -> Result<Option<String>, NoMemory> {
        match self {
            Source::GitInstallation => installation(alloc, env, places),
            Source::System => system(alloc, env, places),
            Source::Git => git(alloc, env),
            Source::User => user(alloc, env),
            Source::Local => fixed(alloc, "config"),
            Source::Worktree => fixed(alloc, "config.worktree"),
            Source::Env | Source::Cli | Source::Api | Source::EnvOverride => Ok(None),
        }
    }
}
