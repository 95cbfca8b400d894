//! The file of the entries that variables of the environment set, by what a program told.
ghost use Rattle.std.specs.Prelude.{◌≡◌, IfOk, string_bytes};
ghost use Rattle.gitconf_includes.specs.Rules.{rules_of_includes};
ghost use Rattle.gitconf_loaders.specs.Errors.{env_number, env_says};
ghost use Rattle.gitconf_loaders.specs.Paths.{telling};
ghost use Rattle.gitconf_loaders.specs.Variables as entries;
ghost use Rattle.gix_config.specs.Environment.{IsFromEnv};
ghost use Rattle.gix_config_c.specs.Blocks.{IsKept};
ghost use Rattle.gix_config_c.specs.Followed.{rules_of};
ghost use Rattle.gix_config_c.specs.HostLoads.{IsAnsweredFor, IsAskedAbout, IsEnvLoad, IsEnvMade, IsKeptBut, entry_variable, env_about, variables_told};
ghost use Rattle.gix_config_c.specs.Loaded.{OfRules, asks_by};
ghost use Rattle.gix_config_c.specs.Telling.{OfTold};
ghost use Rattle.gix_config_c.specs.Variables.{count_variable};

use crate::block::{Block, room};
use crate::global_loads::ask_for_variable;
use crate::includes::{Includes, followed};
use crate::lists::put_list;
use crate::loading::{boxed, refused_include};
use crate::object::Object;
use crate::slot::{Slot, in_handle};
use crate::told::Told;
use crate::variables::untold;
use crate::{
    ILLFORMED_VARIABLE, INVALID_CONFIG_COUNT, INVALID_KEY_ID, INVALID_KEY_VALUE, INVALID_VALUE_ID,
    NOT_UTF8, NOTHING_THERE, OUT_OF_MEMORY, VARIABLE_NOT_TOLD,
};
use gitconf_includes::{includes, init};
use gitconf_loaders::from_env;
use gix_config::host::{Host, Places};
use gix_config::refusals::Refusal as _;
use gix_config::{File, NoMemory};
use std::alloc::Global;

/// Loads the file of the entries that variables of the environment set. These are `GIT_CONFIG_COUNT`, `GIT_CONFIG_KEY_0`,
/// `GIT_CONFIG_VALUE_0` and so on. The file is loaded with what it includes, from what a program told of variables and of files. What was
/// in the file's handle before is closed.
///
/// 100 if they set none. 105 if nothing was told of a variable that is needed, 103 if nothing was told of a file that is included: its name
/// or path is then in the block, whose bytes from before are freed; tell it, and call again. 23 for a count that is no number; of an entry
/// whose key or value isn't set 24 or 26, or isn't UTF-8 22, and 25 for a key without a dot: the name of the variable is then in the block,
/// too. 4, 5 and 6 for names that can't be written into a file. 19 or 20 if a file that is included was told to have a fault, 1 or 2 if the
/// text of one is refused: its path is then in the block. 3 and 12 to 18 if an include is refused. 101 if a text that has to be UTF-8 isn't,
/// 102 if the handle is not one for what is told, 27 when out of memory. The file's handle is as it was after any number but 0, and the block
/// after any but 1, 2, 19, 20, 22 to 26, 103 and 105.
#[unsafe(no_mangle)]
pub extern "C" fn gix_config_load_env_told(
    alloc: Global,
    told: &mut Slot,
    includes: &Includes<'_>,
    file: &mut Slot,
    asked: &mut Block,
) -> u32
    ensures answer { OfTold told.old.it result (λ t. IsEnvLoad t (rules_of includes.now) result file.new.it asked.old asked.new) }
    ensures kept { (result ≡ 0 → ⊥) → file.new.it ≡ file.old.it }
    ensures kept_asked { IsKeptBut result asked.old asked.new }
    ensures same { told.new.it ≡ told.old.it }
{
    in_handle!(alloc, &told, Object::Told(it) => load_env(alloc, it, includes, file, asked))
}

/// Loads the file of the entries that variables set, once their count is told.
fn load_env(
    alloc: Global,
    told: &Told,
    includes: &Includes<'_>,
    file: &mut Slot,
    asked: &mut Block,
) -> u32
    ensures answer { IsEnvLoad told.now (rules_of includes.now) result file.new.it asked.old asked.new }
    ensures kept { (result ≡ 0 → ⊥) → file.new.it ≡ file.old.it }
    ensures kept_asked { IsKeptBut result asked.old asked.new }
{
    match untold(&told.variables, &["GIT_CONFIG_COUNT"]) {
        Some(name) => ask_for_variable(alloc, name, asked),
        None => load_counted(alloc, told, includes, file, asked),
    }
}

/// Loads the file of the entries that variables set, as a program says it.
fn load_counted(
    alloc: Global,
    told: &Told,
    includes: &Includes<'_>,
    file: &mut Slot,
    asked: &mut Block,
) -> u32
    ensures answer { (result ≡ 27 → ⊥) → OfRules (rules_of includes.now) result (λ rules. IsEnvMade told.now rules result file.new.it asked.old asked.new) }
    ensures kept { (result ≡ 0 → ⊥) → file.new.it ≡ file.old.it }
    ensures kept_asked { IsKeptBut result asked.old asked.new }
{
    let Some(options) = followed(includes) else {
        return NOT_UTF8;
    };
    match env_file(alloc, told, options, includes.lossy) {
        Ok(Some(made)) => put_list(alloc, Object::File(made), file),
        Ok(None) => NOTHING_THERE,
        Err(refusal) => refused_env(alloc, told, &refusal, asked),
    }
}

/// The file of the entries that variables set.
fn env_file(
    alloc: Global,
    told: &Told,
    includes: includes::Options<'_>,
    lossy: bool,
) -> Result<Option<File>, from_env::Error>
    ensures { IsFromEnv (variables_told told.now) (asks_by told.now.files (record (rules_of_includes includes.entry) { lossy = lossy }))
        (telling env_says result) }
{
    let known = told.files.try_clone()?;
    let files = boxed(alloc, known)?;
    let set = told.variables.try_clone()?;
    let env = boxed(alloc, set)?;
    let mut host = Host {
        files,
        env,
        places: Places {
            installation_config: None,
            system_prefix: String::new(alloc),
            home: None,
            homes: None,
        },
    };
    let options = init::Options {
        includes,
        lossy,
        ignore_io_errors: false,
    };
    File::from_env(alloc, options, &mut host)
}

/// The name of the variable that has the key of an entry, counted from 0.
fn key_variable(alloc: Global, index: usize) -> Result<String, NoMemory>
    ensures { IfOk result (λ name. string_bytes name ≡ entries.key_variable index) }
{
    Ok(format!(in alloc; "GIT_CONFIG_KEY_{index}")?)
}

/// The name of the variable that has the value of an entry, counted from 0.
fn value_variable(alloc: Global, index: usize) -> Result<String, NoMemory>
    ensures { IfOk result (λ name. string_bytes name ≡ entries.value_variable index) }
{
    Ok(format!(in alloc; "GIT_CONFIG_VALUE_{index}")?)
}

/// Returns the name of a variable. The number is that of the error if something was told of the variable, else 105; or 27 when out of
/// memory.
fn ask_about(alloc: Global, told: &Told, name: String, refusal: u32, asked: &mut Block) -> u32
    ensures answer { IsAskedAbout told.now (string_bytes name) refusal result asked.new }
    ensures kept { result ≡ 27 → (refusal ≡ 27 → ⊥) → IsKept asked.old asked.new }
{
    let Some(room) = room(alloc) else {
        return OUT_OF_MEMORY;
    };
    let is_told = told.variables.knows(&name);
    asked.put(room, name.into_bytes());
    if is_told { refusal } else { VARIABLE_NOT_TOLD }
}

/// The same of the variable that has the key of an entry, counted from 0.
fn ask_about_key(alloc: Global, told: &Told, index: usize, refusal: u32, asked: &mut Block) -> u32
    ensures answer { IsAskedAbout told.now (entries.key_variable index) refusal result asked.new }
    ensures kept { result ≡ 27 → (refusal ≡ 27 → ⊥) → IsKept asked.old asked.new }
{
    match key_variable(alloc, index) {
        Ok(name) => ask_about(alloc, told, name, refusal, asked),
        Err(_) => OUT_OF_MEMORY,
    }
}

/// The same of the variable that has the value of an entry, counted from 0.
fn ask_about_value(alloc: Global, told: &Told, index: usize, refusal: u32, asked: &mut Block) -> u32
    ensures answer { IsAskedAbout told.now (entries.value_variable index) refusal result asked.new }
    ensures kept { result ≡ 27 → (refusal ≡ 27 → ⊥) → IsKept asked.old asked.new }
{
    match value_variable(alloc, index) {
        Ok(name) => ask_about(alloc, told, name, refusal, asked),
        Err(_) => OUT_OF_MEMORY,
    }
}

/// The same of the variable that counts the entries.
fn ask_about_count(alloc: Global, told: &Told, refusal: u32, asked: &mut Block) -> u32
    ensures answer { IsAskedAbout told.now count_variable refusal result asked.new }
    ensures kept { result ≡ 27 → (refusal ≡ 27 → ⊥) → IsKept asked.old asked.new }
{
    match String::from_str(alloc, "GIT_CONFIG_COUNT") {
        Ok(name) => ask_about(alloc, told, name, refusal, asked),
        Err(_) => OUT_OF_MEMORY,
    }
}

/// The number of refused variables. Returns the name of the variable or the path of the file that it is about.
pub(crate) fn refused_env(
    alloc: Global,
    told: &Told,
    refusal: &from_env::Error,
    asked: &mut Block,
) -> u32
    ensures answer { (result ≡ 27 → ⊥) → IsAnsweredFor told.now (env_about refusal.now) (env_number refusal.now) result asked.old asked.new }
    ensures kept { IsKeptBut result asked.old asked.new }
{
    match refusal {
        from_env::Error::IllformedUtf8 { index, kind } => {
            ask_about_part(alloc, told, kind, *index, asked)
        }
        from_env::Error::InvalidConfigCount { .. } => ask_about_count(
            alloc,
            told,
            INVALID_CONFIG_COUNT,
            asked,
        ),
        from_env::Error::InvalidKeyId { key_id } => {
            ask_about_key(alloc, told, *key_id, INVALID_KEY_ID, asked)
        }
        from_env::Error::InvalidKeyValue { key_id, .. } => {
            ask_about_key(alloc, told, *key_id, INVALID_KEY_VALUE, asked)
        }
        from_env::Error::InvalidValueId { value_id } => {
            ask_about_value(alloc, told, *value_id, INVALID_VALUE_ID, asked)
        }
        from_env::Error::Includes(e) => refused_include(alloc, &told.files, e, asked),
        refusal => u32::from(refusal.number()),
    }
}

/// The name of the variable that has the key or the value of an entry.
fn named_part(alloc: Global, kind: &str, index: usize) -> Result<String, NoMemory>
    ensures { IfOk result (λ name. string_bytes name ≡ entry_variable kind.now index) }
{
    if kind == "key" {
        key_variable(alloc, index)
    } else {
        value_variable(alloc, index)
    }
}

/// The number of a key or a value that isn't UTF-8, with the name of its variable.
fn ask_about_part(alloc: Global, told: &Told, kind: &str, index: usize, asked: &mut Block) -> u32
    ensures answer { IsAskedAbout told.now (entry_variable kind.now index) 22 result asked.new }
    ensures kept { result ≡ 27 → IsKept asked.old asked.new }
{
    match named_part(alloc, kind, index) {
        Ok(name) => ask_about(alloc, told, name, ILLFORMED_VARIABLE, asked),
        Err(_) => OUT_OF_MEMORY,
    }
}
