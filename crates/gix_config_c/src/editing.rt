//! Entries, put into sections and removed from them.
ghost use Rattle.std.specs.Option.{option_copied};
ghost use Rattle.std.specs.Prelude.{◌≡◌, if◌then◌else◌, None, Some};
ghost use Rattle.gitconf_sources.specs.Key.{key_of};
ghost use Rattle.gix_config_c.specs.Blocks.{IsKept};
ghost use Rattle.gix_config_c.specs.Keys.{names_of};
ghost use Rattle.gix_config_c.specs.declared.object.Object.TheVariants as object;
ghost use Rattle.gitconf_state.specs.State.{State};
ghost use Rattle.gix_config.specs.SectionEditors.{edited, editor, lent, number_of};
ghost use Rattle.gix_config_c.specs.Answers.{OfFile, OfKey};
ghost use Rattle.gix_config_c.specs.Edited.{IsEditedFile};
ghost use Rattle.gix_config_c.specs.Entries as entries;
ghost use Rattle.gix_config_c.specs.Entries.{IsEntryPushed, IsEntryRemoved, IsPushed, IsValueRemoved};

use crate::block::{Block, room};
use crate::key::{Key, names};
use crate::object::Object;
use crate::slot::{Slot, in_handle};
use crate::{DONE, NOT_UTF8, NOTHING_THERE, OUT_OF_MEMORY};
use gitconf_sources::key::KeyRef;
use gix_config::File;
use gix_config::file::SectionMut;
use gix_config::file::section::value;
use gix_config::refusals::Refusal as _;
use std::alloc::Global;

/// Adds an entry to the last section of the key's names. It comes after all others that the section has, also if one of them has its name.
/// Without a value it is the name alone, which is true as a boolean.
///
/// 7 or 8 if there is no such section, 6 for a name that can't be a value's, 3 if the file would be too long. 101 if the section's or the
/// value's name is not UTF-8, 102 if the handle has no file, 27 when out of memory. The file is then as it was.
#[unsafe(no_mangle)]
pub extern "C" fn gix_config_push_value(
    alloc: Global,
    file: &mut Slot,
    key: &Key<'_>,
    has_value: bool,
    value: &[u8],
) -> u32
    ensures answer { OfFile file.old.it result (λ f. (g : State) × (file.new.it ≡ Some (object.File g))
        × IsEditedFile result f g × OfKey (names_of key.now) result (λ k. IsPushed k (if has_value then Some value.now else None) f g result)) }
    ensures other { ((f : State) → file.old.it ≡ Some (object.File f) → ⊥) → file.new.it ≡ file.old.it }
{
    in_handle!(alloc, &mut file, Object::File(f) => push(f, key, has_value, value))
}

/// Adds an entry to a section of a file.
fn push(file: &mut File, key: &Key<'_>, has_value: bool, value: &[u8]) -> u32
    ensures edited { IsEditedFile result file.old file.new }
    ensures answer { OfKey (names_of key.now) result (λ k. IsPushed k (if has_value then Some value.now else None) file.old file.new result) }
{
    let Some(key) = names(key) else {
        return NOT_UTF8;
    };
    let value = if has_value { Some(value) } else { None };
    push_value(file, key, value)
}

/// Adds an entry to the section of a key.
fn push_value(file: &mut File, key: KeyRef<'_>, value: Option<&[u8]>) -> u32
    ensures edited { IsEditedFile result file.old file.new }
    ensures answer { IsPushed (key_of key.entry) (option_copied value.entry) file.old file.new result }
{
    match file.section_mut(key.section_name, key.subsection_name) {
        Ok(mut section) => push_entry(&mut section, key.value_name, value),
        Err(refusal) => u32::from(refusal.number()),
    }
}

/// Adds an entry to a section.
fn push_entry(section: &mut SectionMut<'_>, name: &str, value: Option<&[u8]>) -> u32
    ensures same_file { lent section.new ≡ lent section.old }
    ensures edited { IsEditedFile result (edited section.old) (edited section.new) }
    ensures answer { IsEntryPushed (number_of section.old) (editor section.old) name.now (option_copied value.entry) (edited section.old)
        (edited section.new) result }
{
    answered(section.push(name, value))
}

/// The number of an answer: 0, or that of the error.
pub(crate) fn answered(pushed: Result<(), value::Error>) -> u32
    ensures { result ≡ entries.answered pushed }
{
    match pushed {
        Ok(()) => DONE,
        Err(refusal) => u32::from(refusal.number()),
    }
}

/// Removes the last entry of the key's name from the key's last section. That is the last section of the key's names. The whitespace before
/// the entry and the line endings after it are removed, too. Returns the raw text of its value. What the block had is freed.
///
/// 7 or 8 if there is no such section, 100 if it has no such entry, so that there is none to remove. 101 if the section's or the value's
/// name is not UTF-8, 102 if the handle has no file, 27 when out of memory; the file is then as it was. The block is so after any number
/// but 0.
#[unsafe(no_mangle)]
pub extern "C" fn gix_config_remove_value(
    alloc: Global,
    file: &mut Slot,
    key: &Key<'_>,
    old: &mut Block,
) -> u32
    ensures answer { OfFile file.old.it result (λ f. (g : State) × (file.new.it ≡ Some (object.File g))
        × ((result ≡ 0 → ⊥) → (result ≡ 100 → ⊥) → g ≡ f) × OfKey (names_of key.now) result (λ k. IsValueRemoved k f g result old.new)) }
    ensures kept { (result ≡ 0 → ⊥) → IsKept old.old old.new }
    ensures other { ((f : State) → file.old.it ≡ Some (object.File f) → ⊥) → file.new.it ≡ file.old.it }
{
    in_handle!(alloc, &mut file, Object::File(f) => remove(alloc, f, key, old))
}

/// Removes an entry from a section of a file.
fn remove(alloc: Global, file: &mut File, key: &Key<'_>, old: &mut Block) -> u32
    ensures same { (result ≡ 0 → ⊥) → (result ≡ 100 → ⊥) → file.new ≡ file.old }
    ensures kept { (result ≡ 0 → ⊥) → IsKept old.old old.new }
    ensures answer { OfKey (names_of key.now) result (λ k. IsValueRemoved k file.old file.new result old.new) }
{
    let Some(key) = names(key) else {
        return NOT_UTF8;
    };
    match file.section_mut(key.section_name, key.subsection_name) {
        Ok(mut section) => remove_entry(alloc, &mut section, key.value_name, old),
        Err(refusal) => u32::from(refusal.number()),
    }
}

/// Removes the last entry of the name. The room for what it returns comes first.
pub(crate) fn remove_entry(
    alloc: Global,
    section: &mut SectionMut<'_>,
    name: &str,
    old: &mut Block,
) -> u32
    ensures same_file { lent section.new ≡ lent section.old }
    ensures kept { (result ≡ 0 → ⊥) → IsKept old.old old.new }
    ensures answer { IsEntryRemoved (number_of section.old) name.now (edited section.old) (edited section.new) result old.new }
{
    let Some(room) = room(alloc) else {
        return OUT_OF_MEMORY;
    };
    match section.remove(name) {
        Ok(Some(was)) => {
            old.put(room, was.into_vec());
            DONE
        }
        Ok(None) => NOTHING_THERE,
        Err(_) => OUT_OF_MEMORY,
    }
}
