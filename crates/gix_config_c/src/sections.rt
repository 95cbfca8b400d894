//! Whole sections, made, renamed and removed.
ghost use Rattle.std.specs.Prelude.{◌≡◌, IfOk, Some};
ghost use Rattle.std.specs.Option.{option_copied, option_map};
ghost use Rattle.bstr.specs.Owned.{bstring_bytes};
ghost use Rattle.gix_config_c.specs.Keys.{section_names_of};
ghost use Rattle.gix_config_c.specs.declared.object.Object.TheVariants as object;
ghost use Rattle.gitconf_state.specs.State.{State};
ghost use Rattle.gix_config_c.specs.Answers.{OfFile, OfSection};
ghost use Rattle.gix_config_c.specs.Edited.{IsEditedFile};
ghost use Rattle.gix_config_c.specs.Sections.{IsNew, IsRemoved, IsRenamedTo};
ghost use Rattle.gitconf_body.specs.Refusals.{header_refusal};
ghost use Rattle.gitconf_state.specs.Edits.{NewSection};
ghost use Rattle.gitconf_store.specs.Edited.{IsEdited};

use crate::key::{SectionKey, section_names};
use crate::object::Object;
use crate::slot::{Slot, in_handle};
use crate::{DONE, NOT_UTF8, NOTHING_THERE, OUT_OF_MEMORY};
use bstr::BString;
use gitconf_text::parse::section::header;
use gix_config::refusals::Refusal as _;
use gix_config::{File, NoMemory};
use std::alloc::Global;

/// Removes the last section that has the name, without ASCII case, and exactly the subsection.
///
/// 100 if there is none. 101 if the name is not UTF-8, 102 if the handle has no file, 27 when out of memory. The file is then as it was.
#[unsafe(no_mangle)]
pub extern "C" fn gix_config_section_remove(
    alloc: Global,
    file: &mut Slot,
    section: &SectionKey<'_>,
) -> u32
    ensures answer { OfFile file.old.it result (λ f. (g : State) × (file.new.it ≡ Some (object.File g))
        × ((result ≡ 0 → ⊥) → g ≡ f) × OfSection (section_names_of section.now) result (λ k. IsRemoved k f g result)) }
    ensures other { ((f : State) → file.old.it ≡ Some (object.File f) → ⊥) → file.new.it ≡ file.old.it }
{
    in_handle!(alloc, &mut file, Object::File(f) => remove(f, section))
}

/// Removes a section of a file.
fn remove(file: &mut File, section: &SectionKey<'_>) -> u32
    ensures kept { (result ≡ 0 → ⊥) → file.new ≡ file.old }
    ensures answer { OfSection (section_names_of section.now) result (λ k. IsRemoved k file.old file.new result) }
{
    let Some(key) = section_names(section) else {
        return NOT_UTF8;
    };
    match file.remove_section(key.section_name, key.subsection_name) {
        Ok(Some(_)) => DONE,
        Ok(None) => NOTHING_THERE,
        Err(_) => OUT_OF_MEMORY,
    }
}

/// Makes a section after all others, with no entries.
///
/// 4 for a name and 5 for a subsection that a section can't be made of, 3 if the file would be too long. 101 if the name is not UTF-8, 102
/// if the handle has no file, 27 when out of memory. The file is then as it was.
#[unsafe(no_mangle)]
pub extern "C" fn gix_config_section_new(
    alloc: Global,
    file: &mut Slot,
    section: &SectionKey<'_>,
) -> u32
    ensures answer { OfFile file.old.it result (λ f. (g : State) × (file.new.it ≡ Some (object.File g))
        × IsEditedFile result f g × OfSection (section_names_of section.now) result (λ k. IsNew k f g result)) }
    ensures other { ((f : State) → file.old.it ≡ Some (object.File f) → ⊥) → file.new.it ≡ file.old.it }
{
    in_handle!(alloc, &mut file, Object::File(f) => make(alloc, f, section))
}

/// A copy of a subsection.
pub(crate) fn copied(alloc: Global, subsection: Option<&[u8]>) -> Result<Option<BString>, NoMemory>
    ensures { IfOk result (λ copy. option_map bstring_bytes copy ≡ option_copied subsection.entry) }
{
    match subsection {
        Some(bytes) => Ok(Some(BString::new(Vec::from_slice(alloc, bytes)?))),
        None => Ok(None),
    }
}

/// Makes a section of a file.
fn make(alloc: Global, file: &mut File, section: &SectionKey<'_>) -> u32
    ensures edited { IsEditedFile result file.old file.new }
    ensures answer { OfSection (section_names_of section.now) result (λ k. IsNew k file.old file.new result) }
{
    let Some(key) = section_names(section) else {
        return NOT_UTF8;
    };
    let Ok(subsection) = copied(alloc, key.subsection_name) else {
        return OUT_OF_MEMORY;
    };
    match new_section(file, key.section_name, subsection) {
        Ok(()) => DONE,
        Err(refusal) => u32::from(refusal.number()),
    }
}

/// Makes a section of these names.
fn new_section(
    file: &mut File,
    name: &str,
    subsection: Option<BString>,
) -> Result<(), header::Error>
    ensures { IsEdited header_refusal (NewSection name.now (option_map bstring_bytes subsection)) result file.old file.new }
{
    match file.new_section(name, subsection) {
        Ok(_section) => Ok(()),
        Err(refusal) => Err(refusal),
    }
}

/// Gives all sections of a name and subsection another name and subsection. These are the sections that have the name, without ASCII case,
/// and exactly the subsection.
///
/// 7 or 8 if there is none: no section has the name, or none of these has the subsection. 4 for a name and 5 for a subsection that a section
/// can't be made of, 3 if the file would be too long. 101 if a name is not UTF-8, 102 if the handle has no file, 27 when out of memory. The
/// file is then as it was.
#[unsafe(no_mangle)]
pub extern "C" fn gix_config_section_rename(
    alloc: Global,
    file: &mut Slot,
    section: &SectionKey<'_>,
    new_section: &SectionKey<'_>,
) -> u32
    ensures answer { OfFile file.old.it result (λ f. (g : State) × (file.new.it ≡ Some (object.File g))
        × IsEditedFile result f g × IsRenamedTo (section_names_of section.now) (section_names_of new_section.now) f g result) }
    ensures other { ((f : State) → file.old.it ≡ Some (object.File f) → ⊥) → file.new.it ≡ file.old.it }
{
    in_handle!(alloc, &mut file, Object::File(f) => rename(alloc, f, section, new_section))
}

/// Gives sections of a file other names.
fn rename(
    alloc: Global,
    file: &mut File,
    section: &SectionKey<'_>,
    new_section: &SectionKey<'_>,
) -> u32
    ensures edited { IsEditedFile result file.old file.new }
    ensures answer { IsRenamedTo (section_names_of section.now) (section_names_of new_section.now) file.old file.new result }
{
    let Some(key) = section_names(section) else {
        return NOT_UTF8;
    };
    let Some(new_key) = section_names(new_section) else {
        return NOT_UTF8;
    };
    let Ok(subsection) = copied(alloc, new_key.subsection_name) else {
        return OUT_OF_MEMORY;
    };
    match file.rename_section(
        key.section_name,
        key.subsection_name,
        new_key.section_name,
        subsection,
    ) {
        Ok(()) => DONE,
        Err(refusal) => u32::from(refusal.number()),
    }
}
