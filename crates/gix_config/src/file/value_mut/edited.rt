//! What an editor of a value edits, and how it spells it.
use crate::file::value_mut::spelling::Spelling;
use crate::file::{File, Metadata, SectionId};
use crate::lookup::existing;
use gitconf_sources::key::KeyRef;
use gitconf_text::NoMemory;

impl File {
    ghost use Rattle.std.specs.Fn.{ComputesKey};
    ghost use Rattle.std.specs.Prelude.{◌≡◌, true, IfOk};
    ghost use Rattle.gitconf_text.specs.Names.{is_value_name};
    ghost use Rattle.gitconf_sources.specs.Key.{key_of};
    ghost use Rattle.gitconf_state.specs.Edit.{spacing_of};
    ghost use Rattle.gitconf_state.specs.Edits.{items_of_numbered};
    ghost use Rattle.gitconf_lookups.specs.SomeSections.{Filtered};
    ghost use Rattle.gitconf_lookups.specs.ValuePlaces.{value_place, IsPlace};
    ghost use Rattle.gitconf_store.specs.Edited.{has_number};

    /// [`Store::value_place_filter`](gitconf_store::store::Store::value_place_filter).
    pub(crate) fn value_place<F: FnMut(&Metadata) -> bool>(
        &self,
        key: KeyRef<'_>,
        filter: F,
    ) -> Result<(SectionId, usize), existing::Error>
        requires { F.IsAlwaysCallable filter }
        ensures filtered { Filtered (λ keeps. ComputesKey F.FnMut keeps filter)
            (λ keeps s. IsPlace (key_of key.entry) self.now (value_place (key_of key.entry) keeps s) result) self.now }
        ensures stands { IfOk result (λ place. has_number place.0 self.now ≡ true) }
        ensures name { IfOk result (λ _. is_value_name key.entry.value_name.now ≡ true) }
    {
        self.store.value_place_filter(key, filter)
    }

    /// A name, and the whitespace that the section of a number uses.
    pub(crate) fn spelling_at(&self, id: SectionId, key: &[u8]) -> Result<Spelling, NoMemory>
        requires stands { has_number id self.now ≡ true }
        requires key { is_value_name key.now ≡ true }
        ensures { IfOk result (λ s. s ≡ record { key = key.now; spacing = spacing_of (items_of_numbered id self.now) }) }
    {
        let blanks = self.section_of(id).blanks()?;
        Spelling::new(key, blanks)
    }
}
