//! Files that are made of the entries that variables of the environment set.
ghost use Rattle.std.specs.Option.{option_map};
ghost use Rattle.std.specs.Prelude.{◌≡◌, ℕ, Ok, unwrap_or, IfOk, string_bytes};
ghost use Rattle.gitconf_sources.specs.Key.{key_of, parsed_key};
ghost use Rattle.gitconf_sources.specs.Metadata.{api_meta};
ghost use Rattle.gitconf_includes.specs.Outcomes.{asks_of, CountsFaults};
ghost use Rattle.gitconf_includes.specs.Errors.{says};
ghost use Rattle.gitconf_loaders.specs.Errors.{env_number, env_says};
ghost use Rattle.gitconf_loaders.specs.Globals.{empty_file};
ghost use Rattle.gitconf_loaders.specs.Refused.{include_refused};
ghost use Rattle.gitconf_loaders.specs.Resolving.{MakesOf};
ghost use Rattle.gitconf_loaders.specs.Paths.{CountsLoad, left_by, telling};
ghost use Rattle.gix_config.specs.Environment.{AreEntriesPut, IsEntryPut, IsFromEnv, IsOverrides, IsValuePushed, IsValuePut, IsPutUnder};
ghost use Rattle.gix_config.specs.SectionEditors.{edited, lent, told};

use crate::file::section_mut::SectionMut;
use crate::file::{File, shared};
use gitconf_includes::includes;
use gitconf_includes::init::Options;
use gitconf_loaders::from_env::Error;
use gitconf_loaders::globals::home_options;
use gitconf_loaders::resolving::{Resolved, resolve};
use gitconf_loaders::variables::{count, key_at, value_at};
use gitconf_sources::key::KeyRef;
use gitconf_sources::meta::Metadata;
use gitconf_sources::source::Source;
use gitconf_sources::{Env, Files, Host, Places};
use gitconf_text::NoMemory;
use std::alloc::Global;

/// Pushes the value of an entry, counted from 0, after those of a section.
///
/// # Errors
///
/// E22 for a value that isn't UTF-8; E6 for an invalid name, E3 if there is no room; E27 when out of memory.
fn push_value(
    section: &mut SectionMut<'_>,
    name: &str,
    value: Option<String>,
    index: usize,
) -> Result<(), Error>
    ensures same_file { lent section.new ≡ lent section.old }
    ensures pushed { IsValuePushed index name.now (option_map string_bytes value) (edited section.old, told section.old) (left_by env_says result (edited section.new)) }
{
    let Some(value) = value else {
        return Err(Error::IllformedUtf8 {
            index,
            kind: "value",
        });
    };
    match section.push(name, Some(value.as_bytes())) {
        Ok(()) => Ok(()),
        Err(refusal) => Err(Error::from(refusal)),
    }
}

/// Puts an entry, counted from 0, into the last section of the key's names, or into one that is made.
///
/// # Errors
///
/// E4, E5 and E3 if a section can't be made, and those of [`push_value`].
fn put_value(
    file: &mut File,
    key: KeyRef<'_>,
    value: Option<String>,
    index: usize,
) -> Result<(), Error>
    ensures { IsValuePut index (key_of key.entry) (option_map string_bytes value) file.old (left_by env_says result file.new) }
{
    match file.section_mut_or_create_new(key.section_name, key.subsection_name) {
        Ok(mut section) => push_value(&mut section, key.value_name, value, index),
        Err(refusal) => Err(Error::from(refusal)),
    }
}

/// The same, by the text of the key.
///
/// # Errors
///
/// E25 for a text that has no dot, and those of [`put_value`].
fn put_under(file: &mut File, key: String, value: Option<String>, index: usize) -> Result<(), Error>
    ensures { IsPutUnder index (string_bytes key) (parsed_key (string_bytes key)) (option_map string_bytes value) file.old (left_by env_says result file.new) }
{
    match KeyRef::parse_unvalidated(key.as_bytes()) {
        Some(key) => put_value(file, key, value, index),
        None => Err(Error::InvalidKeyValue {
            key_id: index,
            key_val: key,
        }),
    }
}

/// Puts an entry that variables set, counted from 0, into the file.
///
/// # Errors
///
/// E24 if the key isn't set, E22 if it isn't UTF-8, E26 if the value isn't set, and those of [`put_under`].
fn put_entry<E: Env>(alloc: Global, env: &mut E, index: usize, file: &mut File) -> Result<(), Error>
    ensures put { IsEntryPut (E.variables env.old) index file.old (left_by env_says result file.new) }
    ensures stays { E.variables env.new ≡ E.variables env.old }
{
    let key = key_at(alloc, env, index)?;
    let value = value_at(alloc, env, index)?;
    put_under(file, key, value, index)
}

/// Puts that many entries into the file, in order.
///
/// # Errors
///
/// Those of [`put_entry`].
fn put_entries<E: Env>(
    alloc: Global,
    env: &mut E,
    count: usize,
    file: &mut File,
) -> Result<(), Error>
    ensures put { AreEntriesPut (E.variables env.old) count 0 file.old (left_by env_says result file.new) }
    ensures stays { E.variables env.new ≡ E.variables env.old }
{
    for index in 0..count {
        put_entry(alloc, env, index, file)?;
    }
    Ok(())
}

/// A file without sections, which comes from the environment.
///
/// # Errors
///
/// E27 when out of memory.
fn empty(alloc: Global, meta: Metadata) -> Result<File, NoMemory>
    ensures { IfOk result (λ file. file ≡ empty_file meta) }
{
    Ok(File::new(alloc, shared(alloc, meta)?))
}

/// The file, with what it includes.
///
/// # Errors
///
/// Those of includes.
pub(crate) fn expanded<F: Files>(
    alloc: Global,
    files: &mut F,
    options: &Options<'_>,
    file: File,
) -> Result<File, includes::Error>
    ensures expanded { MakesOf (λ e. include_refused (says e)) (asks_of options.now (F.table files.old)) result (Ok file) }
    ensures table { F.table files.new ≡ F.table files.old }
    ensures counted { CountsFaults result (F.failures files.old) (F.failures files.new) }
{
    let File { store } = file;
    let Resolved { store, result } = resolve(alloc, files, options, store);
    match result {
        Ok(()) => Ok(File { store }),
        Err(refusal) => {
            drop(store);
            Err(refusal)
        }
    }
}

/// The file of the entries that variables set, with what it includes; `None` without entries.
///
/// # Errors
///
/// Those of [`File::from_env`].
pub(crate) fn env_file<F: Files, E: Env>(
    alloc: Global,
    files: &mut F,
    env: &mut E,
    options: &Options<'_>,
) -> Result<Option<File>, Error>
    ensures made { IsFromEnv (E.variables env.old) (asks_of options.now (F.table files.old)) (telling env_says result) }
    ensures table { F.table files.new ≡ F.table files.old }
    ensures counted { CountsLoad (telling env_number result) (F.failures files.old) (F.failures files.new) }
    ensures stays { E.variables env.new ≡ E.variables env.old }
{
    let count = count(env)?;
    if count == 0 {
        return Ok(None);
    }
    let mut file = empty(alloc, Metadata::from(Source::Env))?;
    put_entries(alloc, env, count, &mut file)?;
    Ok(Some(expanded(alloc, files, options, file)?))
}

/// The file, or an empty one from the calling program.
///
/// # Errors
///
/// E27 when out of memory.
fn or_empty(alloc: Global, made: Option<File>) -> Result<File, NoMemory>
    ensures { IfOk result (λ file. file ≡ unwrap_or made (empty_file api_meta)) }
{
    match made {
        Some(file) => Ok(file),
        None => empty(alloc, Metadata::api()),
    }
}

/// The file of the overrides.
///
/// # Errors
///
/// Those of [`File::from_env`].
pub(crate) fn overrides<F: Files, E: Env>(
    alloc: Global,
    files: &mut F,
    env: &mut E,
    places: &Places,
) -> Result<File, Error>
    ensures made { IsOverrides (E.variables env.old) places.now (F.table files.old) (telling env_says result) }
    ensures table { F.table files.new ≡ F.table files.old }
    ensures counted { CountsLoad (telling env_number result) (F.failures files.old) (F.failures files.new) }
    ensures stays { E.variables env.new ≡ E.variables env.old }
{
    let made = env_file(alloc, files, env, &home_options(places))?;
    Ok(or_empty(alloc, made)?)
}

impl File {
    ghost use Rattle.std.specs.Prelude.{◌≡◌};
    ghost use Rattle.gitconf_includes.specs.Outcomes.{asks_of};
    ghost use Rattle.gitconf_loaders.specs.Errors.{env_number, env_says};
    ghost use Rattle.gitconf_loaders.specs.Paths.{CountsLoad, telling};
    ghost use Rattle.gix_config.specs.Environment.{IsFromEnv, IsOverrides};

    /// The file of the entries that variables set, with what it includes by the options. It comes from no path and from the source `Env`,
    /// fully trusted, at level 0. `GIT_CONFIG_COUNT` says how many entries there are, and the key and the value of each are in
    /// `GIT_CONFIG_KEY_0`, `GIT_CONFIG_VALUE_0` and so on. Each entry goes into the last section of the key's names, or into a new one.
    /// `None` if there is no count, or the count is 0 or isn't UTF-8.
    ///
    /// At most three variables are asked for an entry, and its section is found by an index.
    ///
    /// # Errors
    ///
    /// E23 for a count that is not a number below 2 to the 64th. For the first entry that can't be put in, the first of these: E24 for a
    /// key that isn't set, E22 for one that isn't UTF-8, E26 for a value that isn't set, E25 for a key without a dot, E4 and E5 for names
    /// that a section can't be made of, E22 for a value that isn't UTF-8, E6 for an invalid name; E3 if there is no room. Then those of
    /// [`File::resolve_includes`], and E15 also if `max_depth` is 0 and the options ask for it. E27 when out of memory.
    pub fn from_env(
        alloc: Global,
        options: Options<'_>,
        host: &mut Host,
    ) -> Result<Option<File>, Error>
        ensures made { IsFromEnv (⟦<Box<dyn Env> as Env>⟧.variables host.old.env)
            (asks_of options.entry (⟦<Box<dyn Files> as Files>⟧.table host.old.files)) (telling env_says result) }
        ensures table { ⟦<Box<dyn Files> as Files>⟧.table host.new.files ≡ ⟦<Box<dyn Files> as Files>⟧.table host.old.files }
        ensures counted { CountsLoad (telling env_number result) (⟦<Box<dyn Files> as Files>⟧.failures host.old.files)
            (⟦<Box<dyn Files> as Files>⟧.failures host.new.files) }
        ensures env { ⟦<Box<dyn Env> as Env>⟧.variables host.new.env ≡ ⟦<Box<dyn Env> as Env>⟧.variables host.old.env }
        ensures places { host.new.places ≡ host.old.places }
    {
        let Host {
            files,
            env,
            places: _,
        } = host;
        env_file(alloc, files, env, &options)
    }

    /// The file of [`File::from_env`], or an empty file if that is `None`. Its includes know the home directories of the host's places.
    ///
    /// # Errors
    ///
    /// Those of [`File::from_env`].
    pub fn from_environment_overrides(alloc: Global, host: &mut Host) -> Result<File, Error>
        ensures made { IsOverrides (⟦<Box<dyn Env> as Env>⟧.variables host.old.env) host.old.places
            (⟦<Box<dyn Files> as Files>⟧.table host.old.files) (telling env_says result) }
        ensures table { ⟦<Box<dyn Files> as Files>⟧.table host.new.files ≡ ⟦<Box<dyn Files> as Files>⟧.table host.old.files }
        ensures counted { CountsLoad (telling env_number result) (⟦<Box<dyn Files> as Files>⟧.failures host.old.files)
            (⟦<Box<dyn Files> as Files>⟧.failures host.new.files) }
        ensures env { ⟦<Box<dyn Env> as Env>⟧.variables host.new.env ≡ ⟦<Box<dyn Env> as Env>⟧.variables host.old.env }
        ensures places { host.new.places ≡ host.old.places }
    {
        let Host { files, env, places } = host;
        overrides(alloc, files, env, places)
    }
}
