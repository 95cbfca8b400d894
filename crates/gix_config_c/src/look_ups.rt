//! Values of keys.
ghost use Rattle.std.specs.Option.{option_copied};
ghost use Rattle.std.specs.Prelude.{◌≡◌, ◌⊎◌, IfOk, true};
ghost use Rattle.gitconf_lookups.specs.Lookups.{texts_of};
ghost use Rattle.gix_config_c.specs.Blocks.{IsKept};
ghost use Rattle.gix_config_c.specs.Keys.{names_of};
ghost use Rattle.gix_config_c.specs.Origins.{keeps_if};
ghost use Rattle.gix_config_c.specs.Answers.{OfFile, OfKey};
ghost use Rattle.gix_config_c.specs.Found.{AreTexts, AreValues, HaveBytes, IsBooleanOf, IsIntegerOf, IsValue};

use crate::block::{Block, room};
use crate::finding::{boolean_of, integer_of, value_of, values_of};
use crate::key::{Key, names};
use crate::lists::put_list;
use crate::object::Object;
use crate::origin::Filter;
use crate::slot::{Slot, in_handle};
use crate::{DONE, NOT_UTF8, NOTHING_THERE, OUT_OF_MEMORY};
use bstr::BString;
use gix_config::refusals::Refusal as _;
use gix_config::{File, NoMemory};
use std::alloc::Global;

/// Returns what the last value of a key means. What the block had is freed.
///
/// 7, 8 or 9 if there is none: no section has the name, none of these has the subsection, or these have no such value. 101 if the
/// section's or the value's name is not UTF-8, 102 if the handle has no file, 27 when out of memory. The block is then as it was.
#[unsafe(no_mangle)]
pub extern "C" fn gix_config_value(
    alloc: Global,
    file: &mut Slot,
    key: &Key<'_>,
    value: &mut Block,
) -> u32
    ensures answer { OfFile file.old.it result (λ f. OfKey (names_of key.now) result (λ k. IsValue k (λ _. true) f result value.new)) }
    ensures kept { (result ≡ 0 → ⊥) → IsKept value.old value.new }
    ensures same { file.new.it ≡ file.old.it }
{
    in_handle!(alloc, &file, Object::File(f) => put_value(alloc, f, key, None, value))
}

/// Puts what the last value of a key means in the sections that are kept into a block.
pub(crate) fn put_value(
    alloc: Global,
    file: &File,
    key: &Key<'_>,
    filter: Option<&Filter>,
    value: &mut Block,
) -> u32
    ensures answer { OfKey (names_of key.now) result (λ k. IsValue k (keeps_if (option_copied filter.entry)) file.now result value.new) }
    ensures kept { (result ≡ 0 → ⊥) → IsKept value.old value.new }
{
    let Some(key) = names(key) else {
        return NOT_UTF8;
    };
    match value_of(file, key, filter) {
        Ok(found) => match room(alloc) {
            Some(room) => {
                value.put(room, found.into_vec());
                DONE
            }
            None => OUT_OF_MEMORY,
        },
        Err(refusal) => u32::from(refusal.number()),
    }
}

/// Returns what all values of a key mean, one or more, in file order. What was in the list's handle is closed.
///
/// The numbers of gix_config_value; the list's handle is then as it was.
#[unsafe(no_mangle)]
pub extern "C" fn gix_config_values(
    alloc: Global,
    file: &mut Slot,
    key: &Key<'_>,
    list: &mut Slot,
) -> u32
    ensures answer { OfFile file.old.it result (λ f. OfKey (names_of key.now) result (λ k. AreValues k (λ _. true) f result list.new.it)) }
    ensures kept { (result ≡ 0 → ⊥) → list.new.it ≡ list.old.it }
    ensures same { file.new.it ≡ file.old.it }
{
    in_handle!(alloc, &file, Object::File(f) => put_values(alloc, f, key, None, list))
}

/// Puts what all values of a key mean in the sections that are kept into a list.
pub(crate) fn put_values(
    alloc: Global,
    file: &File,
    key: &Key<'_>,
    filter: Option<&Filter>,
    list: &mut Slot,
) -> u32
    ensures answer { OfKey (names_of key.now) result (λ k. AreValues k (keeps_if (option_copied filter.entry)) file.now result list.new.it) }
    ensures kept { (result ≡ 0 → ⊥) → list.new.it ≡ list.old.it }
{
    let Some(key) = names(key) else {
        return NOT_UTF8;
    };
    match values_of(file, key, filter) {
        Ok(found) => put_texts(alloc, found, list),
        Err(refusal) => u32::from(refusal.number()),
    }
}

/// Puts texts into a list.
pub(crate) fn put_texts(alloc: Global, found: Vec<BString>, list: &mut Slot) -> u32
    ensures number { (result ≡ 0) ⊎ (result ≡ 27) }
    ensures done { result ≡ 0 → AreTexts (texts_of found) list.new.it }
    ensures kept { (result ≡ 0 → ⊥) → list.new.it ≡ list.old.it }
{
    let Ok(texts) = vectors(alloc, found) else {
        return OUT_OF_MEMORY;
    };
    put_list(alloc, Object::Texts(texts), list)
}

/// The texts as vectors of their bytes.
fn vectors(alloc: Global, found: Vec<BString>) -> Result<Vec<Vec<u8>>, NoMemory>
    ensures { IfOk result (λ texts. HaveBytes texts (texts_of found)) }
{
    let mut texts = Vec::new(alloc);
    for text in found {
        texts.push(text.into_vec())?;
    }
    Ok(texts)
}

/// Tells what the last value of a key means as a boolean. An entry without `=` is true.
///
/// 100 if there is no entry, 11 for a value that is no boolean. 101 if the section's or the value's name is not UTF-8, 102 if the handle
/// has no file, 27 when out of memory. The boolean is then as it was.
#[unsafe(no_mangle)]
pub extern "C" fn gix_config_boolean(
    alloc: Global,
    file: &mut Slot,
    key: &Key<'_>,
    value: &mut bool,
) -> u32
    ensures answer { OfFile file.old.it result (λ f. OfKey (names_of key.now) result (λ k. IsBooleanOf k (λ _. true) f result value.new)) }
    ensures kept { (result ≡ 0 → ⊥) → value.new ≡ value.old }
    ensures same { file.new.it ≡ file.old.it }
{
    in_handle!(alloc, &file, Object::File(f) => put_boolean(f, key, None, value))
}

/// Tells what the last value of a key means as a boolean in the sections that are kept.
pub(crate) fn put_boolean(
    file: &File,
    key: &Key<'_>,
    filter: Option<&Filter>,
    value: &mut bool,
) -> u32
    ensures answer { OfKey (names_of key.now) result (λ k. IsBooleanOf k (keeps_if (option_copied filter.entry)) file.now result value.new) }
    ensures kept { (result ≡ 0 → ⊥) → value.new ≡ value.old }
{
    let Some(key) = names(key) else {
        return NOT_UTF8;
    };
    match boolean_of(file, key, filter) {
        Ok(Some(found)) => {
            *value = found;
            DONE
        }
        Ok(None) => NOTHING_THERE,
        Err(refusal) => u32::from(refusal.number()),
    }
}

/// Tells what the last value of a key means as an integer, times its suffix.
///
/// 100 if there is none, 11 for a value that is no integer or that 64 bits don't hold. 101 if the section's or the value's name is not
/// UTF-8, 102 if the handle has no file, 27 when out of memory. The integer is then as it was.
#[unsafe(no_mangle)]
pub extern "C" fn gix_config_integer(
    alloc: Global,
    file: &mut Slot,
    key: &Key<'_>,
    value: &mut i64,
) -> u32
    ensures answer { OfFile file.old.it result (λ f. OfKey (names_of key.now) result (λ k. IsIntegerOf k (λ _. true) f result value.new)) }
    ensures kept { (result ≡ 0 → ⊥) → value.new ≡ value.old }
    ensures same { file.new.it ≡ file.old.it }
{
    in_handle!(alloc, &file, Object::File(f) => put_integer(f, key, None, value))
}

/// Tells what the last value of a key means as an integer in the sections that are kept.
pub(crate) fn put_integer(
    file: &File,
    key: &Key<'_>,
    filter: Option<&Filter>,
    value: &mut i64,
) -> u32
    ensures answer { OfKey (names_of key.now) result (λ k. IsIntegerOf k (keeps_if (option_copied filter.entry)) file.now result value.new) }
    ensures kept { (result ≡ 0 → ⊥) → value.new ≡ value.old }
{
    let Some(key) = names(key) else {
        return NOT_UTF8;
    };
    match integer_of(file, key, filter) {
        Ok(Some(found)) => {
            *value = found;
            DONE
        }
        Ok(None) => NOTHING_THERE,
        Err(refusal) => u32::from(refusal.number()),
    }
}
