//! Entries that variables of the environment set.
ghost use Rattle.std.specs.Prelude.{◌≡◌, IfOk, string_bytes};
ghost use Rattle.std.specs.Option.{option_map};
ghost use Rattle.std.specs.Result.{result_map_both};
ghost use Rattle.gitconf_loaders.specs.Errors.{env_says};
ghost use Rattle.gitconf_loaders.specs.Variables as spec;
ghost use Rattle.gitconf_loaders.specs.Variables.{IsCount, IsKeyAt, IsValueAt};

use crate::from_env::Error;
use gitconf_sources::{Env, EnvVar};
use gitconf_text::NoMemory;
use std::alloc::Global;

/// How many entries the variables set: none if `GIT_CONFIG_COUNT` isn't set, or is set to bytes that aren't UTF-8. A plus may come before the
/// digits.
///
/// # Errors
///
/// E23 for a text that is not a number below 2 to the 64th; E27 when out of memory.
pub fn count<E: Env>(env: &mut E) -> Result<usize, Error>
    ensures count { IsCount (E.variables env.old) (result_map_both (λ count. count) env_says result) }
    ensures stays { E.variables env.new ≡ E.variables env.old }
{
    match env.var("GIT_CONFIG_COUNT")? {
        EnvVar::Text(input) => match input.parse() {
            Ok(count) => Ok(count),
            Err(_) => Err(Error::InvalidConfigCount { input }),
        },
        EnvVar::Unset | EnvVar::IllFormed => Ok(0),
    }
}

/// The name of the variable that has an entry's key, counted from 0.
fn key_variable(alloc: Global, index: usize) -> Result<String, NoMemory>
    ensures { IfOk result (λ name. string_bytes name ≡ spec.key_variable index) }
{
    Ok(format!(in alloc; "GIT_CONFIG_KEY_{index}")?)
}

fn value_variable(alloc: Global, index: usize) -> Result<String, NoMemory>
    ensures { IfOk result (λ name. string_bytes name ≡ spec.value_variable index) }
{
    Ok(format!(in alloc; "GIT_CONFIG_VALUE_{index}")?)
}

/// The key of an entry, counted from 0.
///
/// # Errors
///
/// E24 if its variable isn't set, E22 if it is set to bytes that aren't UTF-8; E27 when out of memory.
pub fn key_at<E: Env>(alloc: Global, env: &mut E, index: usize) -> Result<String, Error>
    ensures key { IsKeyAt (E.variables env.old) index (result_map_both string_bytes env_says result) }
    ensures stays { E.variables env.new ≡ E.variables env.old }
{
    let name = key_variable(alloc, index)?;
    match env.var(&name)? {
        EnvVar::Text(key) => Ok(key),
        EnvVar::Unset => Err(Error::InvalidKeyId { key_id: index }),
        EnvVar::IllFormed => Err(Error::IllformedUtf8 { index, kind: "key" }),
    }
}

/// The value of an entry, counted from 0. It is `None` if its variable is set to bytes that aren't UTF-8.
///
/// # Errors
///
/// E26 if the variable isn't set; E27 when out of memory.
pub fn value_at<E: Env>(alloc: Global, env: &mut E, index: usize) -> Result<Option<String>, Error>
    ensures value { IsValueAt (E.variables env.old) index (result_map_both (option_map string_bytes) env_says result) }
    ensures stays { E.variables env.new ≡ E.variables env.old }
{
    let name = value_variable(alloc, index)?;
    match env.var(&name)? {
        EnvVar::Text(value) => Ok(Some(value)),
        EnvVar::Unset => Err(Error::InvalidValueId { value_id: index }),
        EnvVar::IllFormed => Ok(None),
    }
}
