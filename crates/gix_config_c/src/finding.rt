//! Lookups of a file with a filter, or without one.
ghost use Rattle.std.specs.Option.{option_copied};
ghost use Rattle.gitconf_sources.specs.Key.{key_of};
ghost use Rattle.gitconf_lookups.specs.Lookups.{AreRawValues, IsRawValue};
ghost use Rattle.gix_config_c.specs.Origins.{keeps, keeps_if};
ghost use Rattle.gix_config.specs.Typed.{IsBoolean, IsInteger};

use crate::origin::{Filter, passes};
use bstr::BString;
use gitconf_sources::key::KeyRef;
use gix_config::lookup::existing;
use gix_config::{File, value};

/// The last value of a key in the sections that the filter keeps.
fn value_where(file: &File, key: KeyRef<'_>, filter: &Filter) -> Result<BString, existing::Error>
    ensures { IsRawValue (key_of key.entry) (keeps filter.now) file.now result }
{
    file.raw_value_filter(key, |meta| passes(filter, meta))
}

/// The last value of a key.
pub(crate) fn value_of(
    file: &File,
    key: KeyRef<'_>,
    filter: Option<&Filter>,
) -> Result<BString, existing::Error>
    ensures { IsRawValue (key_of key.entry) (keeps_if (option_copied filter.entry)) file.now result }
{
    match filter {
        Some(filter) => value_where(file, key, filter),
        None => file.raw_value(key),
    }
}

/// All values of a key in the sections that the filter keeps.
fn values_where(
    file: &File,
    key: KeyRef<'_>,
    filter: &Filter,
) -> Result<Vec<BString>, existing::Error>
    ensures { AreRawValues (key_of key.entry) (keeps filter.now) file.now result }
{
    file.raw_values_filter(key, |meta| passes(filter, meta))
}

/// All values of a key.
pub(crate) fn values_of(
    file: &File,
    key: KeyRef<'_>,
    filter: Option<&Filter>,
) -> Result<Vec<BString>, existing::Error>
    ensures { AreRawValues (key_of key.entry) (keeps_if (option_copied filter.entry)) file.now result }
{
    match filter {
        Some(filter) => values_where(file, key, filter),
        None => file.raw_values(key),
    }
}

/// What a key's last entry means as a boolean in the sections that the filter keeps.
fn boolean_where(
    file: &File,
    key: KeyRef<'_>,
    filter: &Filter,
) -> Result<Option<bool>, value::Error>
    ensures { IsBoolean (key_of key.entry) (keeps filter.now) file.now result }
{
    file.boolean_filter(key, |meta| passes(filter, meta))
}

/// What a key's last entry means as a boolean.
pub(crate) fn boolean_of(
    file: &File,
    key: KeyRef<'_>,
    filter: Option<&Filter>,
) -> Result<Option<bool>, value::Error>
    ensures { IsBoolean (key_of key.entry) (keeps_if (option_copied filter.entry)) file.now result }
{
    match filter {
        Some(filter) => boolean_where(file, key, filter),
        None => file.boolean_by(key.section_name, key.subsection_name, key.value_name),
    }
}

/// The last value of a key as an integer in the sections that the filter keeps.
fn integer_where(file: &File, key: KeyRef<'_>, filter: &Filter) -> Result<Option<i64>, value::Error>
    ensures { IsInteger (key_of key.entry) (keeps filter.now) file.now result }
{
    file.integer_filter(key, |meta| passes(filter, meta))
}

/// The last value of a key as an integer.
pub(crate) fn integer_of(
    file: &File,
    key: KeyRef<'_>,
    filter: Option<&Filter>,
) -> Result<Option<i64>, value::Error>
    ensures { IsInteger (key_of key.entry) (keeps_if (option_copied filter.entry)) file.now result }
{
    match filter {
        Some(filter) => integer_where(file, key, filter),
        None => file.integer_by(key.section_name, key.subsection_name, key.value_name),
    }
}
