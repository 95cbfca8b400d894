//! Values of a key in a text, without a file.
//!
//! The text is read as `File::try_from_bytes` reads it, and refused as it refuses it, but nothing is kept of it. What is found is what
//! `File::string` and `File::strings` find in the file that is loaded from the text. No include is followed.
ghost use Rattle.std.specs.Prelude.{◌≡◌, ◌≤◌, ◌<◌, ◌^◌, length, map, IfOk, IfErr, IfSome};
ghost use Rattle.std.specs.Option.{option_map, option_or};
ghost use Rattle.bstr.specs.Owned.{bstring_bytes};
ghost use Rattle.gitconf_sources.specs.Found.{if_any};
ghost use Rattle.gitconf_sources.specs.Key.{key_of};
ghost use Rattle.gitconf_text.specs.Document.{Document, Reads};
ghost use Rattle.gitconf_text.specs.Value.{plain};
ghost use Rattle.gitconf_read.specs.EventResult.{IsRefused};
ghost use Rattle.gitconf_read.specs.Parsing.{IsMisread};
ghost use Rattle.gitconf_parse.specs.Lookup.{value_of, values_of, value_of_key, values_of_key};
ghost use Rattle.gitconf_parse.specs.Places.{raw_at, ValueInside};
ghost use Rattle.gitconf_parse.specs.Walk.{IsStart};

use crate::input::{check_len, refusal};
use crate::lookup::meaning::{entry_meaning, meaning};
use crate::lookup::walk::{Cursor, next_met};
use bstr::BString;
use gitconf_read::error::Error;
use gitconf_read::reading::{Expected, ReadError, mark_len};
use gitconf_sources::key::{AsKey, KeyRef};
use std::alloc::Global;

mod entry;
mod meaning;
mod named;
mod value;
mod walk;

/// The start of a walk over a text, behind its mark.
fn start_of(input: &[u8]) -> Cursor
    ensures { IsStart input.now result }
{
    Cursor {
        at: mark_len(input),
        wanted: Expected::SectionHeader,
        meant: false,
        anew: true,
    }
}

/// What decides after an entry of the key: its value, or what decided before its section.
fn deciding(value: Option<usize>, before: Option<usize>) -> Option<usize>
    ensures { result ≡ option_or value before }
{
    value.or(before)
}

/// Where the value begins that decides: that of the last entry of the key in the last section in which that entry has one.
fn deciding_place(input: &[u8], key: &KeyRef<'_>) -> Result<Option<usize>, ReadError>
    requires { length input.now < 2 ^ 32 }
    ensures found { IfOk result (λ place. (d : Document) × Reads input.now d × (option_map (λ first. plain (raw_at input.now first)) place ≡ value_of_key (key_of key.now) d)) }
    ensures inside { IfOk result (ValueInside (length input.now)) }
    ensures misread { IfErr result (IsMisread input.now) }
{
    let mut cursor = start_of(input);
    let mut before = None;
    let mut now = None;
    while let Some(met) = next_met(input, key, &mut cursor)? {
        if met.anew {
            before = now;
        }
        now = deciding(met.value, before);
    }
    Ok(now)
}

/// What the entries of the key mean, in order; nothing for an entry without a value.
fn meanings(alloc: Global, input: &[u8], key: &KeyRef<'_>) -> Result<Vec<BString>, ReadError>
    requires { length input.now < 2 ^ 32 }
    ensures found { IfOk result (λ values. (d : Document) × Reads input.now d × (map bstring_bytes values.items ≡ values_of_key (key_of key.now) d)) }
    ensures misread { IfErr result (IsMisread input.now) }
{
    let mut cursor = start_of(input);
    let mut values = Vec::new(alloc);
    while let Some(met) = next_met(input, key, &mut cursor)? {
        let value = entry_meaning(alloc, input, met.value)?;
        values.push(value)?;
    }
    Ok(values)
}

/// The error for a text with this cause.
fn refused(alloc: Global, input: &[u8], cause: ReadError) -> Error
    requires fits { length input.now < 2 ^ 32 }
    requires misread { IsMisread input.now cause }
    ensures { IsRefused input.now result }
{
    match cause {
        ReadError::Memory => Error::memory(),
        ReadError::Fault(fault) => refusal(alloc, input, fault),
    }
}

/// The meaning of the last value of a key, by its names.
fn value_by(alloc: Global, input: &[u8], key: &KeyRef<'_>) -> Result<Option<BString>, Error>
    ensures found { IfOk result (λ value. (d : Document) × Reads input.now d × (option_map bstring_bytes value ≡ value_of_key (key_of key.now) d)) }
    ensures refused { IfErr result (IsRefused input.now) }
{
    check_len(input.len())?;
    match deciding_place(input, key) {
        Ok(Some(first)) => Ok(Some(meaning(alloc, input, first)?)),
        Ok(None) => Ok(None),
        Err(cause) => Err(refused(alloc, input, cause)),
    }
}

/// The meanings of all values of a key, by its names.
fn values_by(alloc: Global, input: &[u8], key: &KeyRef<'_>) -> Result<Vec<BString>, Error>
    ensures found { IfOk result (λ values. (d : Document) × Reads input.now d × (map bstring_bytes values.items ≡ values_of_key (key_of key.now) d)) }
    ensures refused { IfErr result (IsRefused input.now) }
{
    check_len(input.len())?;
    match meanings(alloc, input, key) {
        Ok(values) => Ok(values),
        Err(cause) => Err(refused(alloc, input, cause)),
    }
}

/// No key, of which no text has an entry.
const NO_KEY: KeyRef<'static> = KeyRef {
    section_name: "",
    subsection_name: None,
    value_name: "",
};

/// The meaning of the last value of a key such as `remote.origin.url` in a text. It is `None` if there is no value or the key can't be
/// parsed. It is what `File::string` returns of the file that `File::try_from_bytes` makes of the text.
///
/// One pass over the text. It takes memory for the result alone, and for the raw text of a found value of several pieces.
///
/// # Errors
///
/// Those of `File::try_from_bytes`: E1 if the text has no document, with the line and the data from where it can't be read on; E2 for
/// more than 4294967295 bytes; E27 when out of memory.
pub fn value_in<K: AsKey>(alloc: Global, text: &[u8], key: K) -> Result<Option<BString>, Error>
    ensures found { IfOk result (λ value. (d : Document) × Reads text.now d × (option_map bstring_bytes value ≡ value_of (K.key key) d)) }
    ensures refused { IfErr result (IsRefused text.now) }
{
    match key.try_as_key() {
        Some(key) => value_by(alloc, text, &key),
        None => {
            value_by(alloc, text, &NO_KEY)?;
            Ok(None)
        }
    }
}

/// The meanings of all values of a key in a text, in order. The result is `None` if there are none or the key can't be parsed. It is
/// what `File::strings` returns of the file that `File::try_from_bytes` makes of the text. An entry without `=` counts as empty.
///
/// One pass over the text. It takes memory for the results alone, and for the raw text of a value of several pieces.
///
/// # Errors
///
/// Those of [`value_in`].
pub fn values_in<K: AsKey>(
    alloc: Global,
    text: &[u8],
    key: K,
) -> Result<Option<Vec<BString>>, Error>
    ensures found { IfOk result (λ values. (d : Document) × Reads text.now d × (option_map (λ v. map bstring_bytes v.items) values ≡ values_of (K.key key) d)) }
    ensures refused { IfErr result (IsRefused text.now) }
{
    match key.try_as_key() {
        Some(key) => {
            let values = values_by(alloc, text, &key)?;
            if values.is_empty() {
                return Ok(None);
            }
            Ok(Some(values))
        }
        None => {
            value_by(alloc, text, &NO_KEY)?;
            Ok(None)
        }
    }
}
