//! Where the entries of a key are: each by the number of its section and its place among the items there.
ghost use Rattle.std.specs.Fn.{ComputesKey};
ghost use Rattle.std.specs.List.{last_or};
ghost use Rattle.std.specs.Prelude.{◌≡◌, ◌≢◌, ◌++◌, [], Bool, List, None, true, OnOk, OnErr};
ghost use Rattle.gitconf_sources.specs.Metadata.{Meta};
ghost use Rattle.gitconf_state.specs.State.{SectionState};
ghost use Rattle.gitconf_lookups.specs.SomeSections.{AreSome};
ghost use Rattle.gitconf_lookups.specs.ValuePlaces.{all_value_places, last_value_place, value_places, AreAll, AreInOrder};
ghost use Rattle.gitconf_views.specs.Views.{shown};
ghost use Rattle.gitconf_lookups.specs.Walks.{named_left};

use crate::filters::passes;
use crate::walks::SectionsNamed;
use gitconf_body::seeking::{is_entry_of, last_place};
use gitconf_items::items::Item;
use gitconf_sections::id::SectionId;
use gitconf_sources::lists::put;
use gitconf_sources::meta::Metadata;
use gitconf_text::NoMemory;
use gitconf_views::section::SectionRef;
use std::alloc::Global;

/// The place of the last entry of a key in a section.
fn last_place_in(section: &SectionRef<'_>, key: &[u8]) -> Option<(SectionId, usize)>
    ensures { result ≡ last_or None (value_places key.now (shown section.now)) }
{
    match last_place(section.buffer, section.items, key) {
        Some(place) => Some((section.id, place)),
        None => None,
    }
}

/// Adds the places of the entries of a key in a section to those that were found, in order.
fn push_places(
    found: &mut Vec<(SectionId, usize)>,
    section: &SectionRef<'_>,
    key: &[u8],
) -> Result<(), NoMemory>
    ensures ok { OnOk result (found.new.items ≡ found.old.items ++ value_places key.now (shown section.now)) }
    ensures err { OnErr result (value_places key.now (shown section.now) ≢ []) }
{
    let items = section.items;
    let mut rest = items;
    while let Some((item, behind)) = rest.split_first() {
        if is_entry_of(section.buffer, item, key) {
            let place = items.len() - rest.len();
            put(found, (section.id, place))?;
        }
        rest = behind;
    }
    Ok(())
}

/// The places of a key's entries in the passing sections, in file order. The entries are those with `=` and those without it. Takes
/// memory for the places alone.
pub fn all_value_places<F: FnMut(&Metadata) -> bool>(
    alloc: Global,
    sections: SectionsNamed<'_, '_, '_>,
    key: &[u8],
    filter: F,
) -> Result<Vec<(SectionId, usize)>, NoMemory>
    requires { F.IsAlwaysCallable filter }
    ensures exact { (keeps : Meta → Bool) → ComputesKey F.FnMut keeps filter
        → AreAll result (all_value_places key.now keeps (named_left sections.entry)) }
    // For any filter.
    ensures some { (some : List SectionState) × AreSome (named_left sections.entry) some
        × AreAll result (all_value_places key.now (λ _. true) some) }
{
    let mut filter = filter;
    let mut left = sections;
    let mut found = Vec::new(alloc);
    while let Some(section) = left.next() {
        if passes(&mut filter, section.meta()) {
            push_places(&mut found, &section, key)?;
        }
    }
    Ok(found)
}

/// Sorts places by the numbers of their sections, then by the places there. Takes no memory.
pub fn put_in_order(places: &mut Vec<(SectionId, usize)>)
    ensures { AreInOrder places.old.items places.new.items }
{
    places.sort_unstable();
}

/// The place of the last entry of a key in the passing sections. It is in the last of them that has one, with `=` or without it. Takes
/// no memory.
pub fn last_value_place<F: FnMut(&Metadata) -> bool>(
    sections: SectionsNamed<'_, '_, '_>,
    key: &[u8],
    filter: F,
) -> Option<(SectionId, usize)>
    requires { F.IsAlwaysCallable filter }
    ensures exact { (keeps : Meta → Bool) → ComputesKey F.FnMut keeps filter
        → result ≡ last_value_place key.now keeps (named_left sections.entry) }
    // For any filter.
    ensures some { (some : List SectionState) × AreSome (named_left sections.entry) some
        × (result ≡ last_value_place key.now (λ _. true) some) }
{
    let mut filter = filter;
    let mut left = sections;
    while let Some(section) = left.next_back() {
        if passes(&mut filter, section.meta()) {
            if let Some(place) = last_place_in(&section, key) {
                return Some(place);
            }
        }
    }
    None
}
