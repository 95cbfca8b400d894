//! Several values of existing entries: set again, deleted, and what they mean.
use crate::set_raw_value;
use crate::store::Store;
use crate::store::leaving_out::before_run;
use bstr::BString;
use gitconf_body::value_at::InPlaceOf;
use gitconf_sections::id::SectionId;
use gitconf_sources::key::KeyRef;
use gitconf_text::NoMemory;
use gitconf_text::parse::span;

impl Store {
    ghost use Rattle.std.specs.Prelude.{◌≡◌, map, true, IfOk};
    ghost use Rattle.bstr.specs.Owned.{bstring_bytes};
    ghost use Rattle.gitconf_text.specs.Names.{is_value_name};
    ghost use Rattle.gitconf_sources.specs.Key.{key_of};
    ghost use Rattle.gitconf_lookups.specs.Lookups.{texts_of};
    ghost use Rattle.gitconf_body.specs.Refusals.{span_refusal};
    ghost use Rattle.gitconf_store.specs.Several.{all_deleted, all_meanings, meaning_of_place, AreRewritten, AreSetExisting};

    /// Writes the entries at places again, the first with the first value and so on. It goes on up to the end of the shorter list. A place
    /// is the number of a section, and a place among the items of its body, counted in items from 0. Each entry has the key as it is
    /// given, `=` with the blanks around it that its section uses when it is written, and the value as a file spells it; nothing stays of
    /// its old value. All else stays as it is, and so do the places of entries. If no section has the number, everything does. Each
    /// section is found in constant time, and walked over once for each entry. Takes memory for what is added to the buffer.
    ///
    /// # Errors
    ///
    /// Those of [`Store::push_newline`]; E3 at the first entry whose bytes, with those of the entries before it, would pass the limit. The
    /// entries before the one that was refused then have their values, and no other is changed.
    pub fn rewrite_entries_at(
        &mut self,
        places: &[(SectionId, usize)],
        key: &[u8],
        values: &[&[u8]],
    ) -> Result<(), span::Error>
        requires { is_value_name key.now ≡ true }
        ensures { AreRewritten span_refusal key.now places.now (map (λ v. v.now) values.now) result self.old self.new }
    {
        let mut left = places;
        for value in values {
            let Some((place, behind)) = left.split_first() else {
                return Ok(());
            };
            self.rewrite_entry_at(place.0, place.1, InPlaceOf::Entry, key, value)?;
            left = behind;
        }
        Ok(())
    }

    /// Like [`Store::rewrite_entries_at`], but each entry with the same value.
    ///
    /// # Errors
    ///
    /// Those of [`Store::rewrite_entries_at`].
    pub fn rewrite_all_entries_at(
        &mut self,
        places: &[(SectionId, usize)],
        key: &[u8],
        value: &[u8],
    ) -> Result<(), span::Error>
        requires { is_value_name key.now ≡ true }
        ensures { AreRewritten span_refusal key.now places.now (map (λ _. value.now) places.now) result self.old self.new }
    {
        let mut left = places;
        while let Some((place, behind)) = left.split_first() {
            self.rewrite_entry_at(place.0, place.1, InPlaceOf::Entry, key, value)?;
            left = behind;
        }
        Ok(())
    }

    /// Deletes the items at places, the last one first. So those before it keep their places. Each is deleted alone, as
    /// [`Store::delete_entry_at`] does. It can't fail, and takes no memory.
    ///
    /// Places of one section that are next to each other in the list, each before the next one in the section, are removed at once: the
    /// section is found in constant time, and walked over once. So for places in order each section that they are in is walked over once.
    #[tactic(auto, using(crate::proofs::Edits::LeavingOut::leaving))]
    pub fn delete_entries_at(&mut self, places: &[(SectionId, usize)])
        ensures { self.new ≡ all_deleted places.now self.old }
    {
        let mut left = places;
        while let Some((last, before)) = left.split_last() {
            let (front, run) = left.split_at(before_run(before, last.0, last.1));
            self.delete_run(last.0, run);
            left = front;
        }
    }

    /// What the entry at a place means; empty without `=`, and if no entry is there.
    fn meaning_or_empty(&self, place: (SectionId, usize)) -> Result<BString, NoMemory>
        ensures { IfOk result (λ text. bstring_bytes text ≡ meaning_of_place self.now place) }
    {
        match self.meaning_at(place.0, place.1)? {
            Some(text) => Ok(text),
            None => Ok(BString::new(Vec::new(*self.buffer.allocator()))),
        }
    }

    /// What the entries at places mean, in order; an entry without `=` is empty. Each section is found in constant time.
    ///
    /// # Errors
    ///
    /// E27 when out of memory for the result.
    pub fn meanings_at(&self, places: &[(SectionId, usize)]) -> Result<Vec<BString>, NoMemory>
        ensures { IfOk result (λ texts. texts_of texts ≡ all_meanings places.now self.now) }
    {
        let mut texts = Vec::with_capacity(*self.buffer.allocator(), places.len())?;
        for place in places {
            texts.push(self.meaning_or_empty(*place)?)?;
        }
        Ok(texts)
    }

    /// `File::set_existing_raw_multi_value_by` of `gix_config` is this call, and says what it does.
    pub fn set_existing_raw_multi_value(
        &mut self,
        key: KeyRef<'_>,
        new_values: &[&[u8]],
    ) -> Result<(), set_raw_value::Error>
        ensures { AreSetExisting (key_of key.entry) (map (λ v. v.now) new_values.now)
            result self.old self.new }
    {
        let places = self.value_places_filter(key, |_| true)?;
        self.rewrite_entries_at(&places, key.value_name.as_bytes(), new_values)?;
        Ok(())
    }
}
