//! Values of entries that are there, set.
ghost use Rattle.std.specs.Prelude.{◌≡◌, None, Some, map};
ghost use Rattle.gitconf_state.specs.State.{State};
ghost use Rattle.gix_config_c.specs.Answers.{OfFile, OfKey};
ghost use Rattle.gix_config_c.specs.ExistingValues.{AreValuesSet, IsValueSet};
ghost use Rattle.gix_config_c.specs.Keys.{names_of};
ghost use Rattle.gix_config_c.specs.declared.object.Object.TheVariants as object;

use crate::key::{Key, names};
use crate::object::Object;
use crate::slot::{Slot, in_handle};
use crate::{DONE, NOT_UTF8};
use gix_config::File;
use gix_config::refusals::Refusal as _;
use std::alloc::Global;

/// Gives the last entry of a key another value. It is that of the last section of the key's names that has one. No entry is made.
///
/// 7 or 8 if there is no such section, 6 for a name that can't be a value's, 9 if none of the sections has such an entry, 3 if the file would
/// be too long. 101 if the section's or the value's name is not UTF-8, 102 if the handle has no file, 27 when out of memory. The file is then
/// as it was.
#[unsafe(no_mangle)]
pub extern "C" fn gix_config_set_existing_value(
    alloc: Global,
    file: &mut Slot,
    key: &Key<'_>,
    value: &[u8],
) -> u32
    ensures answer { OfFile file.old.it result (λ f. (g : State) × (file.new.it ≡ Some (object.File g)) × (names_of key.now ≡ None → g ≡ f) × OfKey (names_of key.now) result (λ k. IsValueSet k value.now f g result)) }
    ensures other { ((f : State) → file.old.it ≡ Some (object.File f) → ⊥) → file.new.it ≡ file.old.it }
{
    in_handle!(alloc, &mut file, Object::File(f) => set_value(f, key, value))
}

/// Gives the last entry of a key another value.
fn set_value(file: &mut File, key: &Key<'_>, value: &[u8]) -> u32
    ensures answer { OfKey (names_of key.now) result (λ k. IsValueSet k value.now file.old file.new result) }
    ensures same { names_of key.now ≡ None → file.new ≡ file.old }
{
    let Some(key) = names(key) else {
        return NOT_UTF8;
    };
    match file.set_existing_raw_value_by(
        key.section_name,
        key.subsection_name,
        key.value_name,
        value,
    ) {
        Ok(()) => DONE,
        Err(refusal) => u32::from(refusal.number()),
    }
}

/// Gives the entries of a key other values, one after the other. The first entry gets the first value, and so on, up to the end of the
/// shorter list. The entries are those in all sections of the key's names, in the order in which these were made. No entry is made.
///
/// 7 or 8 if there is no such section, 6 for a name that can't be a value's, 9 if none of the sections has such an entry: the file is then as
/// it was. 3 if the file would be too long, 27 when out of memory: the entries before the one that was refused then have their values. 101
/// if the section's or the value's name is not UTF-8, 102 if the handle has no file.
#[unsafe(no_mangle)]
pub extern "C" fn gix_config_set_existing_values(
    alloc: Global,
    file: &mut Slot,
    key: &Key<'_>,
    values: &[&[u8]],
) -> u32
    ensures answer { OfFile file.old.it result (λ f. (g : State) × (file.new.it ≡ Some (object.File g))
        × (names_of key.now ≡ None → g ≡ f) × OfKey (names_of key.now) result (λ k. AreValuesSet k (map (λ v. v.now) values.now) f g result)) }
    ensures other { ((f : State) → file.old.it ≡ Some (object.File f) → ⊥) → file.new.it ≡ file.old.it }
{
    in_handle!(alloc, &mut file, Object::File(f) => set_values(f, key, values))
}

/// Gives the entries of a key other values.
fn set_values(file: &mut File, key: &Key<'_>, values: &[&[u8]]) -> u32
    ensures answer { OfKey (names_of key.now) result (λ k. AreValuesSet k (map (λ v. v.now) values.now) file.old file.new result) }
    ensures same { names_of key.now ≡ None → file.new ≡ file.old }
{
    let Some(key) = names(key) else {
        return NOT_UTF8;
    };
    match file.set_existing_raw_multi_value_by(
        key.section_name,
        key.subsection_name,
        key.value_name,
        values,
    ) {
        Ok(()) => DONE,
        Err(refusal) => u32::from(refusal.number()),
    }
}
