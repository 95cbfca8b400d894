//! Sections of a table that get other headers: their places, and their headers.
ghost use Rattle.std.specs.Fn.{ComputesKey};
ghost use Rattle.std.specs.List.{list_any, AllByRecursion};
ghost use Rattle.std.specs.Option.{option_copied};
ghost use Rattle.std.specs.Prelude.{◌≡◌, ◌&&◌, ◌<◌, [], ◌∷◌, ◌++◌, true, Bool, List, length, map, IfOk, IfSome, OnErr, OnOk};
ghost use Rattle.gitconf_sources.specs.Metadata.{Meta};
ghost use Rattle.gitconf_text.specs.Sections.{is_named, place_of, IsNumbered};
ghost use Rattle.gitconf_store.specs.Renamings.{marked_places, with_headers, AreMarks};

use gitconf_items::event::Header;
use gitconf_lookups::filters::passes;
use gitconf_sections::id::SectionId;
use gitconf_sections::sections::SectionList;
use gitconf_sources::lists::put;
use gitconf_sources::meta::Metadata;
use gitconf_text::NoMemory;
use std::alloc::Global;

/// Adds the place of the section of a number, if one has it, to others.
///
/// # Errors
///
/// E27 when out of memory. The places are then as they were.
fn put_place(table: &SectionList, id: SectionId, places: &mut Vec<usize>) -> Result<(), NoMemory>
    ensures ok { OnOk result (IfSome (place_of id table.now) (λ at. places.new.items ≡ places.old.items ++ at ∷ [])) }
    ensures err { OnErr result (places.new.items ≡ places.old.items) }
    ensures numbered { IsNumbered table.now }
{
    match table.position(id) {
        Some(at) => put(places, at),
        None => Ok(()),
    }
}

/// The places of the sections of the name and subsection whose metadata passes the filter, in file order. The filter is asked about each
/// section of these names. They are found by the names: a walk over them alone, which takes memory for the places.
///
/// # Errors
///
/// E27 when out of memory, only if a section passes.
pub(crate) fn passing_places<F: FnMut(&Metadata) -> bool>(
    alloc: Global,
    table: &SectionList,
    name: &str,
    subsection: Option<&[u8]>,
    filter: F,
) -> Result<Vec<usize>, NoMemory>
    requires { F.IsAlwaysCallable filter }
    ensures some { IfOk result (λ places. (marks : List Bool) × (places.items ≡ marked_places 0 marks)
        × AreMarks (is_named name.now (option_copied subsection.entry)) marks table.now.entries) }
    ensures exact { (keeps : Meta → Bool) → ComputesKey F.FnMut keeps filter
        → IfOk result (λ places. places.items ≡ marked_places 0 (map (λ e. is_named name.now (option_copied subsection.entry) e && keeps
        e.section.meta.value) table.now.entries)) }
    ensures refused { (keeps : Meta → Bool) → ComputesKey F.FnMut keeps filter
        → OnErr result (list_any (λ e. is_named name.now (option_copied subsection.entry) e && keeps e.section.meta.value) table.now.entries ≡ true) }
{
    let mut filter = filter;
    let mut places = Vec::new(alloc);
    let mut left = table.named(name, subsection);
    while let Some(found) = left.next() {
        if passes(&mut filter, found.1.meta) {
            put_place(table, found.0, &mut places)?;
        }
    }
    Ok(places)
}

/// Gives the sections at these places a header. All else stays as it is.
pub(crate) fn set_headers(table: &mut SectionList, places: &[usize], header: Header)
    requires { AllByRecursion (λ at. at < length table.old.entries) places.now }
    ensures { table.new ≡ with_headers header places.now table.old }
{
    let mut rest = places;
    while let Some((at, behind)) = rest.split_first() {
        table.set_header(*at, header);
        rest = behind;
    }
}
