//! Entries at a place in the section of a number, for the editors of values.
use crate::store::Store;
use bstr::BString;
use gitconf_body::editor::Editor;
use gitconf_body::items_edits::{RewriteEntry, WriteEntry};
use gitconf_body::value_at::InPlaceOf;
use gitconf_lookups::existing;
use gitconf_lookups::places::{all_value_places, last_value_place, put_in_order};
use gitconf_sections::id::SectionId;
use gitconf_sources::key::KeyRef;
use gitconf_sources::meta::Metadata;
use gitconf_text::NoMemory;
use gitconf_text::parse::section::ValueNameError;
use gitconf_text::parse::section::bytes::is_value_name;
use gitconf_text::parse::span;

impl Store {
    ghost use Rattle.std.specs.Fn.{ComputesKey};
    ghost use Rattle.std.specs.Option.{option_copied};
    ghost use Rattle.std.specs.Prelude.{◌≡◌, Bool, true, IfOk};
    ghost use Rattle.bstr.specs.Owned.{bstring_bytes};
    ghost use Rattle.gitconf_text.specs.Names.{is_value_name};
    ghost use Rattle.gitconf_sources.specs.Metadata.{Meta};
    ghost use Rattle.gitconf_state.specs.Edits.{apply, said_in_section, DeleteAt, IsEditor, WriteAt};
    ghost use Rattle.gitconf_body.specs.Blanks.{given_editor, IsGiven, PutsAround};
    ghost use Rattle.gitconf_body.specs.Refusals.{span_refusal};
    ghost use Rattle.gitconf_body.specs.ValuesAt.{instead_of};
    ghost use Rattle.gitconf_store.specs.Edited.{has_number, IsEdited};
    ghost use Rattle.gitconf_store.specs.Existing.{IsRewritten};
    ghost use Rattle.gitconf_sources.specs.Key.{key_of};
    ghost use Rattle.gitconf_lookups.specs.Lookups.{IsFound};
    ghost use Rattle.gitconf_lookups.specs.SomeSections.{Filtered};
    ghost use Rattle.gitconf_lookups.specs.ValuePlaces.{all_stand, key_places, meaning_at, value_place, ArePlaces, IsPlace};

    /// The place of the last entry of a key in sections that pass a filter. The entry has `=` or not; it is in the last section that
    /// has one, of those that have the name, without ASCII case, and exactly the subsection, and whose metadata passes the filter. The
    /// result is the number of the section, and the entry's place among the items of its body, counted in items from 0.
    ///
    /// It walks over the sections of the name from the last one up to that one. Takes no memory.
    ///
    /// # Errors
    ///
    /// E7 if no section has the name, E8 if none of these has the subsection; otherwise E6 for an invalid value name; otherwise E9 if
    /// none of these that pass has such an entry.
    pub fn value_place_filter<F: FnMut(&Metadata) -> bool>(
        &self,
        key: KeyRef<'_>,
        filter: F,
    ) -> Result<(SectionId, usize), existing::Error>
        requires { F.IsAlwaysCallable filter }
        ensures filtered { Filtered (λ keeps. ComputesKey F.FnMut keeps filter)
            (λ keeps s. IsPlace (key_of key.entry) self.now (value_place (key_of key.entry) keeps s) result) self.now }
        ensures stands { IfOk result (λ place. has_number place.0 self.now ≡ true) }
    {
        self.check_named(key.section_name, key.subsection_name)?;
        let name = key.value_name.as_bytes();
        if !is_value_name(name) {
            return Err(existing::Error::ValueName(ValueNameError::invalid()));
        }
        let sections = self.sections_named(key.section_name, key.subsection_name);
        match last_value_place(sections, name, filter) {
            Some(place) => Ok(place),
            None => Err(existing::Error::KeyMissing),
        }
    }

    /// The places of all entries of a key in sections that pass a filter. The entries have `=` or not; the sections are those that have
    /// the name, without ASCII case, and exactly the subsection, and whose metadata passes the filter. The result is for each entry the
    /// number of the section, and the entry's place among the items of its body, counted in items from 0. The places are in the order of
    /// the numbers, and in each section in that of the places.
    ///
    /// It walks over the sections of the name and over their items, and sorts the places. Takes memory for them.
    ///
    /// # Errors
    ///
    /// E7 if no section has the name, E8 if none of these has the subsection; otherwise E6 for an invalid value name; otherwise E9 if
    /// none of these that pass has such an entry; otherwise E27 when out of memory.
    pub fn value_places_filter<F: FnMut(&Metadata) -> bool>(
        &self,
        key: KeyRef<'_>,
        filter: F,
    ) -> Result<Vec<(SectionId, usize)>, existing::Error>
        requires { F.IsAlwaysCallable filter }
        ensures filtered { Filtered (λ keeps. ComputesKey F.FnMut keeps filter)
            (λ keeps s. ArePlaces (key_of key.entry) self.now (key_places (key_of key.entry) keeps s) result) self.now }
        ensures stand { IfOk result (λ places. all_stand places.items self.now ≡ true) }
        ensures name { IfOk result (λ _. is_value_name key.entry.value_name.now ≡ true) }
    {
        self.check_named(key.section_name, key.subsection_name)?;
        let name = key.value_name.as_bytes();
        if !is_value_name(name) {
            return Err(existing::Error::ValueName(ValueNameError::invalid()));
        }
        let alloc = *self.buffer.allocator();
        let sections = self.sections_named(key.section_name, key.subsection_name);
        let mut places = all_value_places(alloc, sections, name, filter)?;
        if places.is_empty() {
            return Err(existing::Error::KeyMissing);
        }
        put_in_order(&mut places);
        Ok(places)
    }

    /// What the entry at a place in the section of a number means. Without `=` it is empty. `None` if no entry is there,
    /// or no section has the number. The section is found in constant time.
    ///
    /// # Errors
    ///
    /// E27 when out of memory for the result, only if there is an entry.
    pub fn meaning_at(&self, id: SectionId, place: usize) -> Result<Option<BString>, NoMemory>
        ensures { IsFound bstring_bytes result (said_in_section id (meaning_at place) self.now) }
    {
        match self.section_by_id(id) {
            Some(section) => section.meaning_at(place),
            None => Ok(None),
        }
    }

    /// Writes an entry at a place in the section of a number. The place is one among the items of the section, counted in items from
    /// 0; if there are fewer, the entry comes after all of them. The entry has the key as it is given, and `=` with the editor's
    /// blanks around it and the value as a file spells it. It replaces the entry there, as `in_place_of` says; if no entry is there,
    /// it comes before what is there. All else stays as it is; if no section has the number, everything does.
    ///
    /// The section is found in constant time. Takes memory for what is added to the buffer, and for at most one more item.
    ///
    /// # Errors
    ///
    /// Those of [`Store::push_newline`].
    pub fn write_entry_at(
        &mut self,
        id: SectionId,
        editor: &Editor<'_>,
        place: usize,
        in_place_of: InPlaceOf,
        key: &[u8],
        value: &[u8],
    ) -> Result<(), span::Error>
        requires given { IsGiven editor.now }
        requires puts { PutsAround editor.now }
        requires editor { IsEditor (given_editor editor.now) }
        requires key { is_value_name key.now ≡ true }
        ensures done { IsEdited span_refusal (WriteAt id (given_editor editor.now) place (instead_of in_place_of) key.now value.now)
            result self.old self.new }
        ensures stands { has_number id self.old ≡ true → has_number id self.new ≡ true }
    {
        let entry = WriteEntry {
            editor,
            place,
            in_place_of,
            key,
            value,
        };
        self.edit_items(id, &entry)?
    }

    /// Like [`Store::write_entry_at`], but with the blanks around `=` that the section uses: those around its first one; none if
    /// it has entries, but no `=`; and a space and a space if it has no entry. One more walk over its items.
    ///
    /// # Errors
    ///
    /// Those of [`Store::push_newline`].
    pub fn rewrite_entry_at(
        &mut self,
        id: SectionId,
        place: usize,
        in_place_of: InPlaceOf,
        key: &[u8],
        value: &[u8],
    ) -> Result<(), span::Error>
        requires key { is_value_name key.now ≡ true }
        ensures { IsRewritten span_refusal (instead_of in_place_of) (id, place) key.now value.now result self.old self.new }
    {
        let entry = RewriteEntry {
            place,
            in_place_of,
            key,
            value,
        };
        self.edit_items(id, &entry)?
    }

    /// Deletes the item at a place in the section of a number. The place is one among the section's items, counted in items from 0. All
    /// else stays as it is, even the blanks and line endings around it; if the section has fewer items, or no section has the number,
    /// everything does. It can't fail, and takes no memory. The section is found in constant time.
    pub fn delete_entry_at(&mut self, id: SectionId, place: usize)
        ensures deleted { self.new ≡ apply (DeleteAt id place) self.old }
        ensures stands { has_number id self.new ≡ has_number id self.old }
    {
        self.delete_run(id, &[(id, place)]);
    }
}
