//! Lines and line endings put into sections by their places, and several entries removed.
ghost use Rattle.std.specs.Prelude.{◌≡◌, Some};
ghost use Rattle.gitconf_state.specs.Editors.{editor_of};
ghost use Rattle.gitconf_state.specs.Edits.{numbered};
ghost use Rattle.gitconf_state.specs.State.{SectionState, State};
ghost use Rattle.gix_config.specs.SectionEditors.{edited, editor, lent, number_of};
ghost use Rattle.gix_config_c.specs.Answers.{OfFile};
ghost use Rattle.gix_config_c.specs.Edited.{IsEditedFile};
ghost use Rattle.gix_config_c.specs.Lines.{AreRemoved, AreRemovedAt, AreRemovedFrom, IsLineEndPushed, IsLineEndPushedAt, IsPutAt, IsPutBelow, IsPutIn};
ghost use Rattle.gix_config_c.specs.declared.object.Object.TheVariants as object;

use crate::key::text;
use crate::line::Assigned;
use crate::numbered::id_at;
use crate::object::Object;
use crate::slot::{Slot, in_handle};
use crate::{DONE, NOT_UTF8, NOTHING_THERE, OUT_OF_MEMORY};
use gix_config::File;
use gix_config::file::{SectionId, SectionMut};
use gix_config::refusals::Refusal as _;
use std::alloc::Global;

/// Adds an entry to the section at a place, below its last entry. The place is counted from 0. If the section has no entry, the new one
/// comes below the header. Comments and blank lines behind the last entry, or behind the header, stay behind the new one. It is where `git
/// config` puts a new entry.
///
/// 100 if there is no such section, 6 for a name that can't be a value's, 3 if the file would be too long. 101 if the name is not UTF-8, 102
/// if the handle has no file, 27 when out of memory. The file is then as it was.
#[unsafe(no_mangle)]
pub extern "C" fn gix_config_push_below_last_at(
    alloc: Global,
    file: &mut Slot,
    place: usize,
    assigned: &Assigned<'_>,
) -> u32
    ensures answer { OfFile file.old.it result (λ f. (g : State) × (file.new.it ≡ Some (object.File g)) × IsEditedFile result f g × IsPutAt place assigned.now f g result) }
    ensures other { ((f : State) → file.old.it ≡ Some (object.File f) → ⊥) → file.new.it ≡ file.old.it }
{
    in_handle!(alloc, &mut file, Object::File(f) => put_at(f, place, assigned))
}

/// Adds an entry to the section at a place, below its last one.
fn put_at(file: &mut File, place: usize, assigned: &Assigned<'_>) -> u32
    ensures edited { IsEditedFile result file.old file.new }
    ensures answer { IsPutAt place assigned.now file.old file.new result }
{
    match id_at(file, place) {
        Some(id) => put_numbered(file, id, assigned),
        None => NOTHING_THERE,
    }
}

/// Adds an entry to the section of a number, below its last one.
fn put_numbered(file: &mut File, id: SectionId, assigned: &Assigned<'_>) -> u32
    ensures edited { IsEditedFile result file.old file.new }
    ensures answer { (s : SectionState) → numbered id file.old ≡ Some s → IsPutIn s assigned.now file.old file.new result }
{
    let Some(name) = text(assigned.name) else {
        return NOT_UTF8;
    };
    match file.section_mut_by_id(id) {
        Ok(mut section) => put_below(&mut section, name, assigned.value),
        Err(_) => OUT_OF_MEMORY,
    }
}

/// Adds an entry below the last one of a section.
fn put_below(section: &mut SectionMut<'_>, name: &str, value: &[u8]) -> u32
    ensures same_file { lent section.new ≡ lent section.old }
    ensures answer { IsPutBelow (number_of section.old) (editor section.old) name.now value.now (edited section.old) (edited section.new) result }
{
    match section.push_after_last(name, Some(value)) {
        Ok(()) => DONE,
        Err(refusal) => u32::from(refusal.number()),
    }
}

/// Adds a line ending to the section at a place, after all that it has. The place is counted from 0, and the line ending is the file's: a
/// blank line.
///
/// 100 if there is no such section, 3 if the file would be too long. 102 if the handle has no file, 27 when out of memory. The file is then
/// as it was.
#[unsafe(no_mangle)]
pub extern "C" fn gix_config_push_newline_at(alloc: Global, file: &mut Slot, place: usize) -> u32
    ensures answer { OfFile file.old.it result (λ f. (g : State) × (file.new.it ≡ Some (object.File g)) × IsEditedFile result f g × IsLineEndPushedAt place f g result) }
    ensures other { ((f : State) → file.old.it ≡ Some (object.File f) → ⊥) → file.new.it ≡ file.old.it }
{
    in_handle!(alloc, &mut file, Object::File(f) => end_at(f, place))
}

/// Adds a line ending to the section at a place.
fn end_at(file: &mut File, place: usize) -> u32
    ensures edited { IsEditedFile result file.old file.new }
    ensures answer { IsLineEndPushedAt place file.old file.new result }
{
    match id_at(file, place) {
        Some(id) => end_numbered(file, id),
        None => NOTHING_THERE,
    }
}

/// Adds a line ending to the section of a number.
fn end_numbered(file: &mut File, id: SectionId) -> u32
    ensures edited { IsEditedFile result file.old file.new }
    ensures answer { (s : SectionState) → numbered id file.old ≡ Some s
        → (result ≡ 27 → ⊥) → IsLineEndPushed s.number (editor_of file.old s) file.old file.new result }
{
    match file.section_mut_by_id(id) {
        Ok(mut section) => push_end(&mut section),
        Err(_) => OUT_OF_MEMORY,
    }
}

/// Adds a line ending to a section.
fn push_end(section: &mut SectionMut<'_>) -> u32
    ensures same_file { lent section.new ≡ lent section.old }
    ensures answer { IsLineEndPushed (number_of section.old) (editor section.old) (edited section.old) (edited section.new) result }
{
    match section.push_newline() {
        Ok(()) => DONE,
        Err(refusal) => u32::from(refusal.number()),
    }
}

/// Removes the marked entries of a name from the section at a place. The place is counted from 0. The first of the section's entries of the
/// name goes if the first mark is true, and so on; those behind the last mark stay. Each goes with the whitespace before it and the line
/// endings after it. Tells how many went.
///
/// 100 if there is no such section. 101 if the name is not UTF-8, 102 if the handle has no file, 27 when out of memory; the file is then as it
/// was, and so is the count.
#[unsafe(no_mangle)]
pub extern "C" fn gix_config_remove_marked_at(
    alloc: Global,
    file: &mut Slot,
    place: usize,
    name: &[u8],
    marks: &[bool],
    count: &mut usize,
) -> u32
    ensures answer { OfFile file.old.it result (λ f. (g : State) × (file.new.it ≡ Some (object.File g)) × IsEditedFile result f g
        × AreRemovedAt place name.now marks.now f g result count.new) }
    ensures kept { (result ≡ 0 → ⊥) → count.new ≡ count.old }
    ensures other { ((f : State) → file.old.it ≡ Some (object.File f) → ⊥) → file.new.it ≡ file.old.it }
{
    in_handle!(alloc, &mut file, Object::File(f) => remove_marked_at(f, place, name, marks, count))
}

/// Removes the marked entries of a name from the section at a place.
fn remove_marked_at(
    file: &mut File,
    place: usize,
    name: &[u8],
    marks: &[bool],
    count: &mut usize,
) -> u32
    ensures edited { IsEditedFile result file.old file.new }
    ensures answer { AreRemovedAt place name.now marks.now file.old file.new result count.new }
    ensures kept { (result ≡ 0 → ⊥) → count.new ≡ count.old }
{
    match id_at(file, place) {
        Some(id) => remove_marked_numbered(file, id, name, marks, count),
        None => NOTHING_THERE,
    }
}

/// Removes the marked entries of a name from the section of a number.
fn remove_marked_numbered(
    file: &mut File,
    id: SectionId,
    name: &[u8],
    marks: &[bool],
    count: &mut usize,
) -> u32
    ensures edited { IsEditedFile result file.old file.new }
    ensures answer { (s : SectionState) → numbered id file.old ≡ Some s → AreRemovedFrom s name.now marks.now file.old file.new result count.new }
    ensures kept { (result ≡ 0 → ⊥) → count.new ≡ count.old }
{
    let Some(name) = text(name) else {
        return NOT_UTF8;
    };
    match file.section_mut_by_id(id) {
        Ok(mut section) => remove_marked(&mut section, name, marks, count),
        Err(_) => OUT_OF_MEMORY,
    }
}

/// Removes the marked entries of a name from a section.
fn remove_marked(section: &mut SectionMut<'_>, name: &str, marks: &[bool], count: &mut usize) -> u32
    ensures same_file { lent section.new ≡ lent section.old }
    ensures edited { IsEditedFile result (edited section.old) (edited section.new) }
    ensures answer { AreRemoved (number_of section.old) name.now marks.now (edited section.old) (edited section.new) result count.new }
    ensures kept { (result ≡ 0 → ⊥) → count.new ≡ count.old }
{
    match section.remove_marked(name, marks) {
        Ok(removed) => {
            *count = removed;
            DONE
        }
        Err(_) => OUT_OF_MEMORY,
    }
}
