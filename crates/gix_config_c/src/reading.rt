//! Keys, booleans and integers, read from texts of their own: calls that need no handle.
ghost use Rattle.std.specs.Option.{option_copied};
ghost use Rattle.std.specs.Prelude.{◌≡◌, Some, position};
ghost use Rattle.gitconf_sources.specs.Key.{parsed_key};
ghost use Rattle.gitconf_text.specs.SectionKeys.{is_dot};
ghost use Rattle.gitconf_values.specs.Integers.{integer_or_refusal};
ghost use Rattle.gix_config.specs.Typed.{boolean_or_refusal};
ghost use Rattle.gix_config_c.specs.Found.{IsTypedOf};
ghost use Rattle.gix_config_c.specs.Keys.{key_number, names_of, subsection_of};

use crate::key::Key;
use crate::{DONE, NOT_UTF8, NOTHING_THERE, OUT_OF_MEMORY};
use bstr::BString;
use gitconf_sources::key::KeyRef;
use gitconf_values::{Boolean, integer};
use std::alloc::Global;

/// Tells the names of a key that is written in one text, such as `remote.origin.url`. The section's is before the first dot, the value's
/// behind the last one, and the subsection's between them, if these are two. They lie in the text, and are not checked further.
///
/// 100 for a text without a dot, 101 if the section's or the value's name is not UTF-8. The key is then as it was.
#[unsafe(no_mangle)]
pub extern "C" fn gix_config_key_parse<'a>(text: &'a [u8], key: &mut Key<'a>) -> u32
    ensures number { result ≡ key_number text.now }
    ensures done { result ≡ 0 → names_of key.new ≡ parsed_key text.now }
    ensures kept { (result ≡ 0 → ⊥) → key.new ≡ key.old }
{
    match KeyRef::parse_unvalidated(text) {
        Some(names) => {
            fill(text, names, key);
            DONE
        }
        None => match first_dot(text) {
            Some(_) => NOT_UTF8,
            None => NOTHING_THERE,
        },
    }
}

/// The place of the first dot, if there is one.
fn first_dot(text: &[u8]) -> Option<usize>
    ensures { result ≡ position is_dot text.now }
{
    text.iter().position(|b| *b == b'.')
}

/// Fills in the names that a text writes. Without a subsection its name is the beginning of the text, so that it has a place, too.
fn fill<'a>(text: &'a [u8], names: KeyRef<'a>, key: &mut Key<'a>)
    ensures section { key.new.section.now ≡ names.entry.section_name.now }
    ensures subsection { subsection_of key.new ≡ option_copied names.entry.subsection_name }
    ensures name { key.new.name.now ≡ names.entry.value_name.now }
{
    key.section = names.section_name.as_bytes();
    key.has_subsection = names.subsection_name.is_some();
    key.subsection = match names.subsection_name {
        Some(name) => name,
        None => &text[..0],
    };
    key.name = names.value_name.as_bytes();
}

/// Tells what a text means as a boolean. gix_config_boolean does the same for the value of a key.
///
/// 11 for a text that is no boolean, 27 when out of memory. The boolean is then as it was.
#[unsafe(no_mangle)]
pub extern "C" fn gix_config_boolean_parse(alloc: Global, text: &[u8], value: &mut bool) -> u32
    ensures answer { IsTypedOf (Some (boolean_or_refusal (Some text.now))) result value.new }
    ensures kept { (result ≡ 0 → ⊥) → value.new ≡ value.old }
{
    let Ok(copy) = BString::from_slice(alloc, text) else {
        return OUT_OF_MEMORY;
    };
    match Boolean::try_from(copy) {
        Ok(found) => {
            *value = found.0;
            DONE
        }
        Err(refusal) => u32::from(refusal.number()),
    }
}

/// Tells what a text means as an integer, times its suffix. gix_config_integer does the same for the value of a key.
///
/// 11 for a text that is no integer, or one that 64 bits don't hold, 27 when out of memory. The integer is then as it was.
#[unsafe(no_mangle)]
pub extern "C" fn gix_config_integer_parse(alloc: Global, text: &[u8], value: &mut i64) -> u32
    ensures answer { IsTypedOf (Some (integer_or_refusal text.now)) result value.new }
    ensures kept { (result ≡ 0 → ⊥) → value.new ≡ value.old }
{
    let Ok(copy) = BString::from_slice(alloc, text) else {
        return OUT_OF_MEMORY;
    };
    match integer::decimal(copy) {
        Ok(found) => {
            *value = found;
            DONE
        }
        Err(refusal) => u32::from(refusal.number()),
    }
}
