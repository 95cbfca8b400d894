//! The walks of all lookups of a key: over the sections of a name and subsection, from the last one or from the first.
ghost use Rattle.std.specs.Fn.{ComputesKey};
ghost use Rattle.std.specs.Option.{option_map};
ghost use Rattle.std.specs.Prelude.{◌≡◌, Bool, List, true};
ghost use Rattle.gitconf_sources.specs.Metadata.{Meta};
ghost use Rattle.gitconf_state.specs.State.{SectionState};
ghost use Rattle.gitconf_lookups.specs.Finding.{AreFound, all_places, last_place, place_of};
ghost use Rattle.gitconf_lookups.specs.SomeSections.{AreSome};
ghost use Rattle.gitconf_lookups.specs.Walks.{named_left};

use crate::entries::{deciding_entry, push_entries};
use crate::filters::passes;
use crate::found::{Deciding, Found};
use crate::walks::SectionsNamed;
use gitconf_sources::meta::Metadata;
use gitconf_text::NoMemory;
use std::alloc::Global;

/// The entry that decides in the last of the passing sections in which one does. Takes no memory.
pub fn last_found<'a, F: FnMut(&Metadata) -> bool>(
    sections: SectionsNamed<'a, '_, '_>,
    key: &[u8],
    deciding: Deciding,
    filter: F,
) -> Option<Found<'a>>
    requires { F.IsAlwaysCallable filter }
    ensures exact { (keeps : Meta → Bool) → ComputesKey F.FnMut keeps filter
        → option_map place_of result ≡ last_place deciding key.now keeps (named_left sections.entry) }
    // For any filter.
    ensures some { (some : List SectionState) × AreSome (named_left sections.entry) some
        × (option_map place_of result ≡ last_place deciding key.now (λ _. true) some) }
{
    let mut filter = filter;
    let mut left = sections;
    while let Some(section) = left.next_back() {
        if passes(&mut filter, section.meta()) {
            if let Some(entry) = deciding_entry(&section, key, deciding) {
                return Some(Found { section, entry });
            }
        }
    }
    None
}

/// The entries of a key in the passing sections, in order. Takes memory for the places that are found alone.
pub fn all_found<'a, F: FnMut(&Metadata) -> bool>(
    alloc: Global,
    sections: SectionsNamed<'a, '_, '_>,
    key: &[u8],
    filter: F,
) -> Result<Vec<Found<'a>>, NoMemory>
    requires { F.IsAlwaysCallable filter }
    ensures exact { (keeps : Meta → Bool) → ComputesKey F.FnMut keeps filter
        → AreFound result (all_places key.now keeps (named_left sections.entry)) }
    // For any filter.
    ensures some { (some : List SectionState) × AreSome (named_left sections.entry) some
        × AreFound result (all_places key.now (λ _. true) some) }
{
    let mut filter = filter;
    let mut left = sections;
    let mut found = Vec::new(alloc);
    while let Some(section) = left.next() {
        if passes(&mut filter, section.meta()) {
            push_entries(&mut found, &section, key)?;
        }
    }
    Ok(found)
}
