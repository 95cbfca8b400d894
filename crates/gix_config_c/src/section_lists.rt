//! The sections of a file, as a list, and the entries of one of them.
ghost use Rattle.std.specs.Prelude.{◌≡◌, map, slice_get, IfOk};
ghost use Rattle.std.specs.Option.{option_copied, option_map};
ghost use Rattle.gitconf_views.specs.Views.{sections_left, shown};
ghost use Rattle.gix_config_c.specs.Answers.{OfFile};
ghost use Rattle.gix_config_c.specs.SectionLists.{AreEntriesIf, AreEntriesOf, AreOfSection, AreSections, AreSectionsOf, IsSectionAt, IsSectionIn, listed_section, told_section};

use crate::entries::entries_for;
use crate::entry::Entry;
use crate::lists::put_list;
use crate::object::Object;
use crate::section::{Section, SectionPlace};
use crate::slot::{Slot, in_handle};
use crate::{DONE, NOTHING_THERE, OUT_OF_MEMORY};
use gitconf_diff::setting::Side;
use gitconf_diff::settings::add_section;
use gitconf_sources::meta::Metadata;
use gitconf_views::section::{SectionRef, Sections};
use gix_config::{File, NoMemory};
use std::alloc::Global;

/// Returns the sections of a file, in order: their names, where they come from, and how many entries each has. What was in the list's
/// handle is closed.
///
/// 102 if the handle has no file, 27 when out of memory; the list's handle is then as it was.
#[unsafe(no_mangle)]
pub extern "C" fn gix_config_sections(alloc: Global, file: &mut Slot, list: &mut Slot) -> u32
    ensures answer { OfFile file.old.it result (λ f. AreSections f result list.new.it) }
    ensures kept { (result ≡ 0 → ⊥) → list.new.it ≡ list.old.it }
    ensures same { file.new.it ≡ file.old.it }
{
    in_handle!(alloc, &file, Object::File(f) => put_sections(alloc, f, list))
}

/// Puts the sections of a file into a list.
fn put_sections(alloc: Global, file: &File, list: &mut Slot) -> u32
    ensures answer { AreSections file.now result list.new.it }
    ensures kept { (result ≡ 0 → ⊥) → list.new.it ≡ list.old.it }
{
    let Ok(sections) = sections_of(alloc, file) else {
        return OUT_OF_MEMORY;
    };
    put_list(alloc, Object::Sections(sections), list)
}

/// The sections of a file.
fn sections_of(alloc: Global, file: &File) -> Result<Vec<Section>, NoMemory>
    ensures { IfOk result (AreSectionsOf file.now) }
{
    copies(alloc, file.sections())
}

/// Copies of sections, in order.
fn copies(alloc: Global, sections: Sections<'_>) -> Result<Vec<Section>, NoMemory>
    ensures { IfOk result (λ made. map listed_section made.items ≡ map told_section (sections_left sections.entry)) }
{
    let mut made = Vec::new(alloc);
    for section in sections {
        made.push(copy_of(alloc, &section)?)?;
    }
    Ok(made)
}

/// A copy of what a list tells of a section.
fn copy_of(alloc: Global, section: &SectionRef<'_>) -> Result<Section, NoMemory>
    ensures { IfOk result (λ copy. listed_section copy ≡ told_section (shown section.now)) }
{
    let header = section.header();
    let meta = section.meta();
    Ok(Section {
        name: header.name().to_vec(alloc)?,
        subsection: subsection_of(alloc, header.subsection_name())?,
        path: path_of(alloc, meta)?,
        source: meta.source,
        level: meta.level,
        trust: meta.trust,
        entries: section.body().num_values(),
    })
}

/// A copy of a subsection's name, if there is one.
fn subsection_of(alloc: Global, subsection: Option<&[u8]>) -> Result<Option<Vec<u8>>, NoMemory>
    ensures { IfOk result (λ copy. option_map (λ bytes. bytes.items) copy ≡ option_copied subsection.entry) }
{
    match subsection {
        Some(bytes) => Ok(Some(bytes.to_vec(alloc)?)),
        None => Ok(None),
    }
}

/// A copy of the path of a file, if there is one.
fn path_of(alloc: Global, meta: &Metadata) -> Result<Option<Vec<u8>>, NoMemory>
    ensures { IfOk result (λ copy. option_map (λ bytes. bytes.items) copy ≡ meta.now.path) }
{
    match &meta.path {
        Some(path) => Ok(Some(path.as_bytes().to_vec(alloc)?)),
        None => Ok(None),
    }
}

/// Tells where the names of a section of a list lie. Sections are counted from 0. Tells also where the section comes from, and how many
/// entries it has. The names lie there until the list is closed.
///
/// 100 for a number past the end, 102 if the handle has no list of sections; the place is then as it was.
#[unsafe(no_mangle)]
pub extern "C" fn gix_config_list_section(
    alloc: Global,
    list: &mut Slot,
    index: usize,
    section: &mut SectionPlace,
) -> u32
    ensures answer { IsSectionIn list.old.it index result section.new }
    ensures kept { (result ≡ 0 → ⊥) → section.new ≡ section.old }
    ensures same { list.new.it ≡ list.old.it }
{
    in_handle!(alloc, &list, Object::Sections(sections) => tell_section(sections, index, section))
}

/// Tells where the parts of the section lie, if there is one.
fn tell_section(sections: &[Section], index: usize, section: &mut SectionPlace) -> u32
    ensures answer { IsSectionAt sections.now index result section.new }
    ensures kept { (result ≡ 0 → ⊥) → section.new ≡ section.old }
{
    match sections.get(index) {
        Some(found) => {
            section.tell(found);
            DONE
        }
        None => NOTHING_THERE,
    }
}

/// Returns the entries of a section, in order. Sections are counted from 0 as in the list of gix_config_sections. What was in the list's
/// handle is closed.
///
/// 100 for a number past the end, 102 if the handle has no file, 27 when out of memory; the list's handle is then as it was.
#[unsafe(no_mangle)]
pub extern "C" fn gix_config_section_entries(
    alloc: Global,
    file: &mut Slot,
    index: usize,
    list: &mut Slot,
) -> u32
    ensures answer { OfFile file.old.it result (λ f. AreEntriesIf (slice_get f.sections index) result list.new.it) }
    ensures kept { (result ≡ 0 → ⊥) → list.new.it ≡ list.old.it }
    ensures same { file.new.it ≡ file.old.it }
{
    in_handle!(alloc, &file, Object::File(f) => put_section_entries(alloc, f, index, list))
}

/// Puts the entries of a section of a file into a list.
fn put_section_entries(alloc: Global, file: &File, index: usize, list: &mut Slot) -> u32
    ensures answer { AreEntriesIf (slice_get file.now.sections index) result list.new.it }
    ensures kept { (result ≡ 0 → ⊥) → list.new.it ≡ list.old.it }
{
    match section_at(file.sections(), index) {
        Some(section) => put_entries_of(alloc, &section, list),
        None => NOTHING_THERE,
    }
}

/// Puts the entries of a section into a list.
fn put_entries_of(alloc: Global, section: &SectionRef<'_>, list: &mut Slot) -> u32
    ensures answer { AreEntriesOf (shown section.now) result list.new.it }
    ensures kept { (result ≡ 0 → ⊥) → list.new.it ≡ list.old.it }
{
    let Ok(entries) = section_entries(alloc, section) else {
        return OUT_OF_MEMORY;
    };
    put_list(alloc, Object::Entries(entries), list)
}

/// The section at an index, if there is one.
pub(crate) fn section_at(sections: Sections<'_>, index: usize) -> Option<SectionRef<'_>>
    ensures { option_map shown result ≡ slice_get (sections_left sections.entry) index }
{
    let mut before = index;
    for section in sections {
        if before == 0 {
            return Some(section);
        }
        before -= 1;
    }
    None
}

/// The entries of a section.
fn section_entries(alloc: Global, section: &SectionRef<'_>) -> Result<Vec<Entry>, NoMemory>
    ensures { IfOk result (AreOfSection (shown section.now)) }
{
    let mut settings = Vec::new(alloc);
    add_section(&mut settings, section, Side::One)?;
    entries_for(alloc, settings)
}
