//! Sections of a file by their places in the list of gix_config_sections, edited.
ghost use Rattle.std.specs.Prelude.{◌≡◌, ℕ, slice_get, false, None, Some, Result, option_map};
ghost use Rattle.bstr.specs.Owned.{bstring_bytes};
ghost use Rattle.gitconf_body.specs.Refusals.{header_refusal};
ghost use Rattle.gitconf_state.specs.Edits.{Rename, SetTrust, apply, numbered};
ghost use Rattle.gitconf_store.specs.Edited.{IsEdited};
ghost use Rattle.gitconf_state.specs.State.{SectionState, State};
ghost use Rattle.gitconf_text.specs.declared.parse.section.header.Error.{Error as HeaderError};
ghost use Rattle.gix_config.specs.SectionEditors.{edited, editor, lent, number_of};
ghost use Rattle.gix_config_c.specs.Answers.{OfFile};
ghost use Rattle.gix_config_c.specs.Blocks.{IsKept};
ghost use Rattle.gix_config_c.specs.Edited.{IsEditedFile};
ghost use Rattle.gix_config_c.specs.Keys.{section_names_of};
ghost use Rattle.gix_config_c.specs.NumberedEdits.{IsGone, IsGoneAt, IsLinePushed, IsPopped, IsPoppedAt, IsPushedAt, IsPushedTo, IsRemovedAt, IsRemovedFrom, IsRenamedAs, IsRenamedAt, IsSetAt, IsSetIn, IsTrusted, IsTrustedAt, IsValueSet};
ghost use Rattle.gix_config_c.specs.Sections.{new_number};
ghost use Rattle.gix_config_c.specs.declared.object.Object.TheVariants as object;

use crate::block::{Block, room};
use crate::editing::{answered, remove_entry};
use crate::key::{SectionKey, section_names, text};
use crate::line::{Assigned, Line};
use crate::object::Object;
use crate::origin::trust_of;
use crate::section_lists::section_at;
use crate::sections::copied;
use crate::slot::{Slot, in_handle};
use crate::{DONE, NO_SUCH_NUMBER, NOT_UTF8, NOTHING_THERE, OUT_OF_MEMORY};
use bstr::BString;
use gitconf_sources::source::Trust;
use gix_config::File;
use gix_config::file::{SectionId, SectionMut};
use gix_config::refusals::Refusal as _;
use std::alloc::Global;

/// The number of the section at a place, if there is one.
pub(crate) fn id_at(file: &File, place: usize) -> Option<SectionId>
    ensures none { slice_get file.now.sections place ≡ None → result ≡ None }
    ensures found { (s : SectionState) → slice_get file.now.sections place ≡ Some s → result ≡ Some s.number }
    ensures stands { (s : SectionState) → slice_get file.now.sections place ≡ Some s → numbered s.number file.now ≡ Some s }
{
    match section_at(file.sections(), place) {
        Some(section) => Some(section.id()),
        None => None,
    }
}

/// Adds a line to the section at a place, after all others that it has. The place is counted from 0. The line may be one of a name that is
/// there already, and has the whitespace that the section uses. A comment comes after ` #`.
///
/// 100 if there is no such section, 6 for a name that can't be a value's, 3 if the file would be too long. 101 if the name is not UTF-8, 102
/// if the handle has no file, 27 when out of memory. The file is then as it was.
#[unsafe(no_mangle)]
pub extern "C" fn gix_config_push_line_at(
    alloc: Global,
    file: &mut Slot,
    place: usize,
    line: &Line<'_>,
) -> u32
    ensures answer { OfFile file.old.it result (λ f. (g : State) × (file.new.it ≡ Some (object.File g)) × IsEditedFile result f g × IsPushedAt place line.now f g result) }
    ensures other { ((f : State) → file.old.it ≡ Some (object.File f) → ⊥) → file.new.it ≡ file.old.it }
{
    in_handle!(alloc, &mut file, Object::File(f) => push_at(f, place, line))
}

/// Adds a line to the section at a place.
fn push_at(file: &mut File, place: usize, line: &Line<'_>) -> u32
    ensures edited { IsEditedFile result file.old file.new }
    ensures answer { IsPushedAt place line.now file.old file.new result }
{
    match id_at(file, place) {
        Some(id) => push_numbered(file, id, line),
        None => NOTHING_THERE,
    }
}

/// Adds a line to the section of a number.
fn push_numbered(file: &mut File, id: SectionId, line: &Line<'_>) -> u32
    ensures edited { IsEditedFile result file.old file.new }
    ensures answer { (s : SectionState) → numbered id file.old ≡ Some s → IsPushedTo s line.now file.old file.new result }
{
    let Some(name) = text(line.name) else {
        return NOT_UTF8;
    };
    match file.section_mut_by_id(id) {
        Ok(mut section) => push_line(&mut section, name, line),
        Err(_) => OUT_OF_MEMORY,
    }
}

/// Adds a line to a section.
fn push_line(section: &mut SectionMut<'_>, name: &str, line: &Line<'_>) -> u32
    ensures same_file { lent section.new ≡ lent section.old }
    ensures answer { IsLinePushed (number_of section.old) (editor section.old) name.now line.now (edited section.old) (edited section.new) result }
{
    let value = if line.has_value {
        Some(line.value)
    } else {
        None
    };
    if line.has_comment {
        answered(section.push_with_comment(name, value, line.comment))
    } else {
        answered(section.push(name, value))
    }
}

/// Gives the last entry of a name in a section another value. The section is the one at a place, counted from 0; without such an entry it
/// gets a new one. Tells whether there was an entry, and returns the raw text of its value; what the block had is freed then.
///
/// 100 if there is no such section, 6 for a name that can't be a value's, 3 if the file would be too long. 101 if the name is not UTF-8, 102
/// if the handle has no file, 27 when out of memory. File, block and boolean are then as they were.
#[unsafe(no_mangle)]
pub extern "C" fn gix_config_set_value_at(
    alloc: Global,
    file: &mut Slot,
    place: usize,
    assigned: &Assigned<'_>,
    had: &mut bool,
    old: &mut Block,
) -> u32
    ensures answer { OfFile file.old.it result (λ f. (g : State) × (file.new.it ≡ Some (object.File g)) × IsEditedFile result f g × IsSetAt place assigned.now f g result had.new old.new) }
    ensures other { ((f : State) → file.old.it ≡ Some (object.File f) → ⊥) → file.new.it ≡ file.old.it }
    ensures kept { (result ≡ 0 → ⊥) → (had.new ≡ had.old) × IsKept old.old old.new }
    ensures new { result ≡ 0 → had.new ≡ false → IsKept old.old old.new }
{
    in_handle!(alloc, &mut file, Object::File(f) => set_at(alloc, f, place, assigned, had, old))
}

/// Gives an entry of the section at a place a value.
fn set_at(
    alloc: Global,
    file: &mut File,
    place: usize,
    assigned: &Assigned<'_>,
    had: &mut bool,
    old: &mut Block,
) -> u32
    ensures edited { IsEditedFile result file.old file.new }
    ensures answer { IsSetAt place assigned.now file.old file.new result had.new old.new }
    ensures kept { (result ≡ 0 → ⊥) → (had.new ≡ had.old) × IsKept old.old old.new }
    ensures new { result ≡ 0 → had.new ≡ false → IsKept old.old old.new }
{
    match id_at(file, place) {
        Some(id) => set_numbered(alloc, file, id, assigned, had, old),
        None => NOTHING_THERE,
    }
}

/// Gives an entry of the section of a number a value.
fn set_numbered(
    alloc: Global,
    file: &mut File,
    id: SectionId,
    assigned: &Assigned<'_>,
    had: &mut bool,
    old: &mut Block,
) -> u32
    ensures edited { IsEditedFile result file.old file.new }
    ensures answer { (s : SectionState) → numbered id file.old ≡ Some s → IsSetIn s assigned.now file.old file.new result had.new old.new }
    ensures kept { (result ≡ 0 → ⊥) → (had.new ≡ had.old) × IsKept old.old old.new }
    ensures new { result ≡ 0 → had.new ≡ false → IsKept old.old old.new }
{
    let Some(name) = text(assigned.name) else {
        return NOT_UTF8;
    };
    match file.section_mut_by_id(id) {
        Ok(mut section) => set_entry(alloc, &mut section, name, assigned.value, had, old),
        Err(_) => OUT_OF_MEMORY,
    }
}

/// Gives an entry of a section a value. The room for what it returns comes first.
fn set_entry(
    alloc: Global,
    section: &mut SectionMut<'_>,
    name: &str,
    value: &[u8],
    had: &mut bool,
    old: &mut Block,
) -> u32
    ensures same_file { lent section.new ≡ lent section.old }
    ensures edited { IsEditedFile result (edited section.old) (edited section.new) }
    ensures answer { IsValueSet (number_of section.old) (editor section.old) name.now value.now (edited section.old) (edited section.new) result had.new old.new }
    ensures kept { (result ≡ 0 → ⊥) → (had.new ≡ had.old) × IsKept old.old old.new }
    ensures new { result ≡ 0 → had.new ≡ false → IsKept old.old old.new }
{
    let Some(room) = room(alloc) else {
        return OUT_OF_MEMORY;
    };
    match section.set(name, value) {
        Ok(Some(was)) => {
            *had = true;
            old.put(room, was.into_vec());
            DONE
        }
        Ok(None) => {
            *had = false;
            DONE
        }
        Err(refusal) => u32::from(refusal.number()),
    }
}

/// Removes the last entry of a name from the section at a place. The place is counted from 0. The whitespace before the entry and the line
/// endings after it are removed, too. Returns the raw text of its value. What the block had is freed.
///
/// 100 if there is no such section, or it has no such entry. 101 if the name is not UTF-8, 102 if the handle has no file, 27 when out of
/// memory; the file is then as it was. The block is so after any number but 0.
#[unsafe(no_mangle)]
pub extern "C" fn gix_config_remove_value_at(
    alloc: Global,
    file: &mut Slot,
    place: usize,
    name: &[u8],
    old: &mut Block,
) -> u32
    ensures answer { OfFile file.old.it result (λ f. (g : State) × (file.new.it ≡ Some (object.File g)) × ((result ≡ 0 → ⊥) → (result ≡ 100 → ⊥) → g ≡ f) × (slice_get f.sections place ≡ None → g ≡ f) × IsRemovedAt place name.now f g result old.new) }
    ensures kept { (result ≡ 0 → ⊥) → IsKept old.old old.new }
    ensures other { ((f : State) → file.old.it ≡ Some (object.File f) → ⊥) → file.new.it ≡ file.old.it }
{
    in_handle!(alloc, &mut file, Object::File(f) => remove_at(alloc, f, place, name, old))
}

/// Removes an entry from the section at a place.
fn remove_at(alloc: Global, file: &mut File, place: usize, name: &[u8], old: &mut Block) -> u32
    ensures kept { (result ≡ 0 → ⊥) → IsKept old.old old.new }
    ensures same { (result ≡ 0 → ⊥) → (result ≡ 100 → ⊥) → file.new ≡ file.old }
    ensures nowhere { slice_get file.old.sections place ≡ None → file.new ≡ file.old }
    ensures answer { IsRemovedAt place name.now file.old file.new result old.new }
{
    match id_at(file, place) {
        Some(id) => remove_numbered(alloc, file, id, name, old),
        None => NOTHING_THERE,
    }
}

/// Removes an entry from the section of a number.
fn remove_numbered(
    alloc: Global,
    file: &mut File,
    id: SectionId,
    name: &[u8],
    old: &mut Block,
) -> u32
    ensures kept { (result ≡ 0 → ⊥) → IsKept old.old old.new }
    ensures same { (result ≡ 0 → ⊥) → (result ≡ 100 → ⊥) → file.new ≡ file.old }
    ensures answer { (s : SectionState) → numbered id file.old ≡ Some s → IsRemovedFrom s name.now file.old file.new result old.new }
{
    let Some(name) = text(name) else {
        return NOT_UTF8;
    };
    match file.section_mut_by_id(id) {
        Ok(mut section) => remove_entry(alloc, &mut section, name, old),
        Err(_) => OUT_OF_MEMORY,
    }
}

/// Removes the last entry from the section at a place, whatever its name. The place is counted from 0. The whitespace before the entry and
/// all that is after it are removed, too. Returns its name as it is spelled, and what its value means: nothing for an entry without `=`.
/// What the blocks had is freed.
///
/// 100 if there is no such section, or it has no entry: then all that it has goes. 102 if the handle has no file, 27 when out of memory; the
/// file is then as it was. The blocks are so after any number but 0.
#[unsafe(no_mangle)]
pub extern "C" fn gix_config_pop_value_at(
    alloc: Global,
    file: &mut Slot,
    place: usize,
    name: &mut Block,
    value: &mut Block,
) -> u32
    ensures answer { OfFile file.old.it result (λ f. (g : State) × (file.new.it ≡ Some (object.File g)) × ((result ≡ 0 → ⊥) → (result ≡ 100 → ⊥) → g ≡ f) × (slice_get f.sections place ≡ None → g ≡ f) × IsPoppedAt place f g result name.new value.new) }
    ensures kept { (result ≡ 0 → ⊥) → IsKept name.old name.new × IsKept value.old value.new }
    ensures other { ((f : State) → file.old.it ≡ Some (object.File f) → ⊥) → file.new.it ≡ file.old.it }
{
    in_handle!(alloc, &mut file, Object::File(f) => pop_at(alloc, f, place, name, value))
}

/// Removes the last entry from the section at a place.
fn pop_at(alloc: Global, file: &mut File, place: usize, name: &mut Block, value: &mut Block) -> u32
    ensures kept { (result ≡ 0 → ⊥) → IsKept name.old name.new × IsKept value.old value.new }
    ensures same { (result ≡ 0 → ⊥) → (result ≡ 100 → ⊥) → file.new ≡ file.old }
    ensures nowhere { slice_get file.old.sections place ≡ None → file.new ≡ file.old }
    ensures answer { IsPoppedAt place file.old file.new result name.new value.new }
{
    match id_at(file, place) {
        Some(id) => pop_numbered(alloc, file, id, name, value),
        None => NOTHING_THERE,
    }
}

/// Removes the last entry from the section of a number.
fn pop_numbered(
    alloc: Global,
    file: &mut File,
    id: SectionId,
    name: &mut Block,
    value: &mut Block,
) -> u32
    ensures kept { (result ≡ 0 → ⊥) → IsKept name.old name.new × IsKept value.old value.new }
    ensures same { (result ≡ 0 → ⊥) → (result ≡ 100 → ⊥) → file.new ≡ file.old }
    ensures answer { (s : SectionState) → numbered id file.old ≡ Some s → IsPopped s.number file.old file.new result name.new value.new }
{
    match file.section_mut_by_id(id) {
        Ok(mut section) => pop_entry(alloc, &mut section, name, value),
        Err(_) => OUT_OF_MEMORY,
    }
}

/// Removes the last entry of a section. The room for what it returns comes first.
fn pop_entry(
    alloc: Global,
    section: &mut SectionMut<'_>,
    name: &mut Block,
    value: &mut Block,
) -> u32
    ensures same_file { lent section.new ≡ lent section.old }
    ensures kept { (result ≡ 0 → ⊥) → IsKept name.old name.new × IsKept value.old value.new }
    ensures answer { IsPopped (number_of section.old) (edited section.old) (edited section.new) result name.new value.new }
{
    let Some(room_of_name) = room(alloc) else {
        return OUT_OF_MEMORY;
    };
    let Some(room_of_value) = room(alloc) else {
        return OUT_OF_MEMORY;
    };
    match section.pop() {
        Ok(Some((key, text))) => {
            name.put(room_of_name, key.into_bytes());
            value.put(room_of_value, text.into_vec());
            DONE
        }
        Ok(None) => NOTHING_THERE,
        Err(_) => OUT_OF_MEMORY,
    }
}

/// Gives the section at a place, counted from 0, another name and subsection. All else of it stays.
///
/// 100 if there is no such section, 4 for a name and 5 for a subsection that a section can't be made of, 3 if the file would be too long.
/// 101 if the name is not UTF-8, 102 if the handle has no file, 27 when out of memory. The file is then as it was.
#[unsafe(no_mangle)]
pub extern "C" fn gix_config_section_rename_at(
    alloc: Global,
    file: &mut Slot,
    place: usize,
    new_section: &SectionKey<'_>,
) -> u32
    ensures answer { OfFile file.old.it result (λ f. (g : State) × (file.new.it ≡ Some (object.File g)) × IsEditedFile result f g
        × IsRenamedAt place (section_names_of new_section.now) f g result) }
    ensures other { ((f : State) → file.old.it ≡ Some (object.File f) → ⊥) → file.new.it ≡ file.old.it }
{
    in_handle!(alloc, &mut file, Object::File(f) => rename_at(alloc, f, place, new_section))
}

/// Gives the section at a place other names.
fn rename_at(alloc: Global, file: &mut File, place: usize, new_section: &SectionKey<'_>) -> u32
    ensures edited { IsEditedFile result file.old file.new }
    ensures answer { IsRenamedAt place (section_names_of new_section.now) file.old file.new result }
{
    match id_at(file, place) {
        Some(id) => rename_numbered(alloc, file, id, new_section),
        None => NOTHING_THERE,
    }
}

/// Gives the section of a number other names.
fn rename_numbered(
    alloc: Global,
    file: &mut File,
    id: SectionId,
    new_section: &SectionKey<'_>,
) -> u32
    ensures edited { IsEditedFile result file.old file.new }
    ensures answer { (s : SectionState) → numbered id file.old ≡ Some s → IsRenamedAs s (section_names_of new_section.now) file.old file.new result }
{
    let Some(key) = section_names(new_section) else {
        return NOT_UTF8;
    };
    let Ok(subsection) = copied(alloc, key.subsection_name) else {
        return OUT_OF_MEMORY;
    };
    match file.section_mut_by_id(id) {
        Ok(mut section) => rename_section(&mut section, key.section_name, subsection),
        Err(_) => OUT_OF_MEMORY,
    }
}

/// Gives a section other names.
fn rename_section(section: &mut SectionMut<'_>, name: &str, subsection: Option<BString>) -> u32
    ensures same_file { lent section.new ≡ lent section.old }
    ensures edited { IsEditedFile result (edited section.old) (edited section.new) }
    ensures answer { (r : Result (Unit {0}) HeaderError)
        × IsEdited header_refusal (Rename (number_of section.old) name.now (option_map bstring_bytes subsection)) r (edited section.old) (edited section.new)
        × (result ≡ new_number r) }
{
    match section.rename(name, subsection) {
        Ok(()) => DONE,
        Err(refusal) => u32::from(refusal.number()),
    }
}

/// Removes the section at a place, counted from 0.
///
/// 100 if there is none, 102 if the handle has no file, 27 when out of memory. The file is then as it was.
#[unsafe(no_mangle)]
pub extern "C" fn gix_config_section_remove_at(alloc: Global, file: &mut Slot, place: usize) -> u32
    ensures answer { OfFile file.old.it result (λ f. (g : State) × (file.new.it ≡ Some (object.File g)) × IsEditedFile result f g × IsGoneAt place f g result) }
    ensures other { ((f : State) → file.old.it ≡ Some (object.File f) → ⊥) → file.new.it ≡ file.old.it }
{
    in_handle!(alloc, &mut file, Object::File(f) => remove_section_at(f, place))
}

/// Removes the section at a place.
fn remove_section_at(file: &mut File, place: usize) -> u32
    ensures edited { IsEditedFile result file.old file.new }
    ensures answer { IsGoneAt place file.old file.new result }
{
    match id_at(file, place) {
        Some(id) => remove_section(file, id),
        None => NOTHING_THERE,
    }
}

/// Removes the section of a number.
fn remove_section(file: &mut File, id: SectionId) -> u32
    ensures edited { IsEditedFile result file.old file.new }
    ensures answer { (n : ℕ) → id ≡ n → IsGone n file.old file.new result }
{
    match file.remove_section_by_id(id) {
        Ok(_) => DONE,
        Err(_) => OUT_OF_MEMORY,
    }
}

/// Sets how far the section at a place, counted from 0, is trusted.
///
/// 100 if there is no such section, 104 if no trust has the number. 102 if the handle has no file, 27 when out of memory. The file is then as
/// it was.
#[unsafe(no_mangle)]
pub extern "C" fn gix_config_section_set_trust_at(
    alloc: Global,
    file: &mut Slot,
    place: usize,
    trust: u32,
) -> u32
    ensures answer { OfFile file.old.it result (λ f. (g : State) × (file.new.it ≡ Some (object.File g)) × IsEditedFile result f g × IsTrustedAt place trust f g result) }
    ensures other { ((f : State) → file.old.it ≡ Some (object.File f) → ⊥) → file.new.it ≡ file.old.it }
{
    in_handle!(alloc, &mut file, Object::File(f) => set_trust_at(f, place, trust))
}

/// Sets how far the section at a place is trusted.
fn set_trust_at(file: &mut File, place: usize, trust: u32) -> u32
    ensures edited { IsEditedFile result file.old file.new }
    ensures answer { IsTrustedAt place trust file.old file.new result }
{
    match id_at(file, place) {
        Some(id) => trust_numbered(file, id, trust),
        None => NOTHING_THERE,
    }
}

/// Sets how far the section of a number is trusted.
fn trust_numbered(file: &mut File, id: SectionId, trust: u32) -> u32
    ensures edited { IsEditedFile result file.old file.new }
    ensures answer { (s : SectionState) → numbered id file.old ≡ Some s → IsTrusted s trust file.old file.new result }
{
    let Some(trust) = trust_of(trust) else {
        return NO_SUCH_NUMBER;
    };
    match file.section_mut_by_id(id) {
        Ok(mut section) => trust_section(&mut section, trust),
        Err(_) => OUT_OF_MEMORY,
    }
}

/// Sets how far a section is trusted.
fn trust_section(section: &mut SectionMut<'_>, trust: Trust) -> u32
    ensures same_file { lent section.new ≡ lent section.old }
    ensures done { result ≡ 0 → edited section.new ≡ apply (SetTrust (number_of section.old) trust) (edited section.old) }
    ensures kept { (result ≡ 0 → ⊥) → edited section.new ≡ edited section.old }
    ensures short { (result ≡ 0 → ⊥) → result ≡ 27 }
{
    match section.set_trust(trust) {
        Ok(()) => DONE,
        Err(_) => OUT_OF_MEMORY,
    }
}
