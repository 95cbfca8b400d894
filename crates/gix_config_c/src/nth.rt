//! One of a key's entries, by its index.
ghost use Rattle.std.specs.Prelude.{◌≡◌, None, Some};
ghost use Rattle.gitconf_sources.specs.Key.{key_of};
ghost use Rattle.gitconf_state.specs.State.{State};
ghost use Rattle.gix_config.specs.MultiValueEditors.{edited, lent, targets_of};
ghost use Rattle.gix_config_c.specs.Answers.{OfFile, OfKey};
ghost use Rattle.gix_config_c.specs.Keys.{names_of};
ghost use Rattle.gix_config_c.specs.NthValues.{IsNthDeleted, IsNthSet, IsOneDeleted, IsOneSet};
ghost use Rattle.gix_config_c.specs.declared.object.Object.TheVariants as object;

use crate::key::{Key, names};
use crate::object::Object;
use crate::slot::{Slot, in_handle};
use crate::{DONE, NOT_UTF8, NOTHING_THERE};
use gitconf_sources::key::KeyRef;
use gix_config::File;
use gix_config::file::MultiValueMut;
use gix_config::refusals::Refusal as _;
use std::alloc::Global;

/// Gives one of the entries of a key another value. It is that at an index, counted from 0, among those of all sections of the key's names,
/// in the order in which these were made. It is rewritten, with the name as the key has it; nothing of its old value stays. No entry is
/// made.
///
/// 100 for an index past the last one. 7 or 8 if there is no such section, 6 for a name that can't be a value's, 9 if none of the sections has
/// such an entry, 3 if the file would be too long. 101 if the section's or the value's name is not UTF-8, 102 if the handle has no file, 27
/// when out of memory. The file is then as it was.
#[unsafe(no_mangle)]
pub extern "C" fn gix_config_set_nth_value(
    alloc: Global,
    file: &mut Slot,
    key: &Key<'_>,
    index: usize,
    value: &[u8],
) -> u32
    ensures answer { OfFile file.old.it result (λ f. (g : State) × (file.new.it ≡ Some (object.File g)) × (names_of key.now ≡ None → g ≡ f) × OfKey (names_of key.now) result (λ k. IsNthSet k index value.now f g result)) }
    ensures other { ((f : State) → file.old.it ≡ Some (object.File f) → ⊥) → file.new.it ≡ file.old.it }
{
    in_handle!(alloc, &mut file, Object::File(f) => set_nth(f, key, index, value))
}

/// Gives one of the entries of a key another value.
fn set_nth(file: &mut File, key: &Key<'_>, index: usize, value: &[u8]) -> u32
    ensures answer { OfKey (names_of key.now) result (λ k. IsNthSet k index value.now file.old file.new result) }
    ensures same { names_of key.now ≡ None → file.new ≡ file.old }
{
    let Some(key) = names(key) else {
        return NOT_UTF8;
    };
    set_of_key(file, key, index, value)
}

/// Gives one of the entries of the names another value.
fn set_of_key(file: &mut File, key: KeyRef<'_>, index: usize, value: &[u8]) -> u32
    ensures { IsNthSet (key_of key.entry) index value.now file.old file.new result }
{
    match file.raw_values_mut_by(key.section_name, key.subsection_name, key.value_name) {
        Ok(mut entries) => set_one(&mut entries, index, value),
        Err(refusal) => u32::from(refusal.number()),
    }
}

/// Gives one of some entries another value.
fn set_one(entries: &mut MultiValueMut<'_>, index: usize, value: &[u8]) -> u32
    ensures same_file { lent entries.new ≡ lent entries.old }
    ensures answer { IsOneSet (targets_of entries.old) index value.now (edited entries.old) (edited entries.new) result }
{
    if index >= entries.len() {
        return NOTHING_THERE;
    }
    match entries.set_at(index, value) {
        Ok(()) => DONE,
        Err(refusal) => u32::from(refusal.number()),
    }
}

/// Deletes one of the entries of a key. It is that at an index, counted from 0, among those of all sections of the key's names, in the
/// order in which these were made. Its name, `=` and value go, with the whitespace between them; the whitespace before and the line ending
/// after them stay.
///
/// 100 for an index past the last one. 7 or 8 if there is no such section, 6 for a name that can't be a value's, 9 if none of the sections has
/// such an entry. 101 if the section's or the value's name is not UTF-8, 102 if the handle has no file, 27 when out of memory. The file is then
/// as it was.
#[unsafe(no_mangle)]
pub extern "C" fn gix_config_delete_nth_value(
    alloc: Global,
    file: &mut Slot,
    key: &Key<'_>,
    index: usize,
) -> u32
    ensures answer { OfFile file.old.it result (λ f. (g : State) × (file.new.it ≡ Some (object.File g)) × (names_of key.now ≡ None → g ≡ f) × OfKey (names_of key.now) result (λ k. IsNthDeleted k index f g result)) }
    ensures other { ((f : State) → file.old.it ≡ Some (object.File f) → ⊥) → file.new.it ≡ file.old.it }
{
    in_handle!(alloc, &mut file, Object::File(f) => delete_nth(f, key, index))
}

/// Deletes one of the entries of a key.
fn delete_nth(file: &mut File, key: &Key<'_>, index: usize) -> u32
    ensures answer { OfKey (names_of key.now) result (λ k. IsNthDeleted k index file.old file.new result) }
    ensures same { names_of key.now ≡ None → file.new ≡ file.old }
{
    let Some(key) = names(key) else {
        return NOT_UTF8;
    };
    delete_of_key(file, key, index)
}

/// Deletes one of the entries of the names.
fn delete_of_key(file: &mut File, key: KeyRef<'_>, index: usize) -> u32
    ensures { IsNthDeleted (key_of key.entry) index file.old file.new result }
{
    match file.raw_values_mut_by(key.section_name, key.subsection_name, key.value_name) {
        Ok(mut entries) => delete_one(&mut entries, index),
        Err(refusal) => u32::from(refusal.number()),
    }
}

/// Deletes one of some entries.
fn delete_one(entries: &mut MultiValueMut<'_>, index: usize) -> u32
    ensures same_file { lent entries.new ≡ lent entries.old }
    ensures answer { IsOneDeleted (targets_of entries.old) index (edited entries.old) (edited entries.new) result }
{
    if index >= entries.len() {
        return NOTHING_THERE;
    }
    entries.delete(index);
    DONE
}
