//! Editing the values of all entries of a key.

mod edited;
mod making;
pub mod targets;

use crate::file::File;
use crate::lookup::existing;
use bstr::BString;
use gitconf_body::value_at::InPlaceOf;
use gitconf_text::parse::span;
use targets::Targets;

/// An editor of the values of all entries of a key of a file. These are the entries with `=` or without it. The editor has their places,
/// in the order of the numbers of their sections, and in each section in the order of its entries. What it writes has the name as the
/// caller spelled it.
pub struct MultiValueMut<'a, T: Drop = Targets> {
    file: &'a mut File,
    targets: T,
}

impl<T: Drop> Drop for MultiValueMut<'_, T> {
    ghost use Rattle.std.specs.Prelude.{◌≡◌};
    ghost use Rattle.gix_config.specs.MultiValueEditors.{edited};

    // Written by hand, so that callers know what the file is after the editor is gone.
    fn drop(self)
        ensures { self.exit.0.now ≡ edited self.entry }
    {
        let MultiValueMut { file, targets } = self;
        drop(targets);
        // The file's loan ends here.
        let _ = file;
    }
}

impl<'a> MultiValueMut<'a> {
    ghost use Rattle.std.specs.Prelude.{◌≡◌, ◌<◌, ◌==◌, [], length, map, true};
    ghost use Rattle.gitconf_text.specs.Names.{is_value_name};
    ghost use Rattle.gitconf_state.specs.Edits.{apply};
    ghost use Rattle.gitconf_body.specs.Refusals.{span_refusal};
    ghost use Rattle.gitconf_store.specs.Several.{all_deleted, AreRewritten};
    ghost use Rattle.gix_config.specs.MultiValueEditors.{edited, deleting, key_of, lent, places_of, AreMeanings, IsOneSet};
    ghost use Rattle.gix_config.specs.Targeted.{without_place};

    /// What the values mean, in order; that of an entry without `=` is empty. Each section is found in constant time.
    ///
    /// # Errors
    ///
    /// E9 if no entry is left; E27 when out of memory for the result.
    pub fn get(&self) -> Result<Vec<BString>, existing::Error>
        ensures { AreMeanings (places_of self.now) (edited self.now) result }
    {
        if self.is_empty() {
            return Err(existing::Error::KeyMissing);
        }
        let file = &*self.file;
        match file.store.meanings_at(self.targets.places()) {
            Ok(texts) => Ok(texts),
            Err(_) => Err(existing::Error::Memory),
        }
    }

    /// How many entries are left. The name that the editor writes is that of a value, whoever made it. Constant time, and no memory.
    pub fn len(&self) -> usize
        ensures count { result ≡ length (places_of self.now) }
        ensures key { is_value_name (key_of self.now) ≡ true }
    {
        // For what its contract says of the name.
        let _ = self.targets.key();
        self.targets.places().len()
    }

    /// Whether no entry is left. Constant time, and no memory.
    pub fn is_empty(&self) -> bool
        ensures { result ≡ (length (places_of self.now) == 0) }
    {
        self.targets.places().is_empty()
    }

    /// Gives the entry at an index, counted from 0, another value. It is rewritten, with the name as the caller spelled it, `=` with the
    /// whitespace around it that its section then uses, and the value as a file spells it. Nothing of its old value stays, not even a line
    /// ending. All else stays as it is, and so do the places of entries.
    ///
    /// One walk over the items of the section. Takes memory for what is added to the file's buffer.
    ///
    /// # Errors
    ///
    /// E3 if the file would take more than 4294967295 bytes, and E27 when out of memory. The file is then as it was.
    pub fn set_at(&mut self, index: usize, value: &[u8]) -> Result<(), span::Error>
        requires { index < length (places_of self.old) }
        ensures same_file { lent self.new ≡ lent self.old }
        ensures same_key { key_of self.new ≡ key_of self.old }
        ensures same_places { places_of self.new ≡ places_of self.old }
        ensures done { IsOneSet self.old index value.now result (edited self.new) }
    {
        let place = self.targets.at(index);
        let file = &mut *self.file;
        file.store.rewrite_entry_at(
            place.0,
            place.1,
            InPlaceOf::Entry,
            self.targets.key(),
            value,
        )
    }

    /// Like [`MultiValueMut::set_at`], but with the bytes of a text.
    ///
    /// # Errors
    ///
    /// Those of [`MultiValueMut::set_at`].
    pub fn set_string_at(&mut self, index: usize, value: &str) -> Result<(), span::Error>
        requires { index < length (places_of self.old) }
        ensures same_file { lent self.new ≡ lent self.old }
        ensures same_key { key_of self.new ≡ key_of self.old }
        ensures same_places { places_of self.new ≡ places_of self.old }
        ensures done { IsOneSet self.old index value.now result (edited self.new) }
    {
        self.set_at(index, value.as_bytes())
    }

    /// Gives the entries other values, each as [`MultiValueMut::set_at`] does. The first one gets the first value and so on, up to the
    /// end of the shorter list.
    ///
    /// One walk over the items of its section for each entry that is written. Takes memory for what is added to the file's buffer.
    ///
    /// # Errors
    ///
    /// Those of [`MultiValueMut::set_at`]; E3 at the first value whose bytes, with those of the values before it, would pass the limit.
    /// The entries before the one that was refused then have their values; all else is as it was.
    pub fn set_values(&mut self, values: &[&[u8]]) -> Result<(), span::Error>
        ensures same_file { lent self.new ≡ lent self.old }
        ensures same_key { key_of self.new ≡ key_of self.old }
        ensures same_places { places_of self.new ≡ places_of self.old }
        ensures done { AreRewritten span_refusal (key_of self.old) (places_of self.old) (map (λ v. v.now) values.now) result (edited self.old) (edited self.new) }
    {
        let file = &mut *self.file;
        file.store
            .rewrite_entries_at(self.targets.places(), self.targets.key(), values)
    }

    /// Gives all entries the same value, as [`MultiValueMut::set_values`] does.
    ///
    /// # Errors
    ///
    /// Those of [`MultiValueMut::set_values`].
    pub fn set_all(&mut self, value: &[u8]) -> Result<(), span::Error>
        ensures same_file { lent self.new ≡ lent self.old }
        ensures same_key { key_of self.new ≡ key_of self.old }
        ensures same_places { places_of self.new ≡ places_of self.old }
        ensures done { AreRewritten span_refusal (key_of self.old) (places_of self.old) (map (λ _. value.now) (places_of self.old)) result
            (edited self.old) (edited self.new) }
    {
        let file = &mut *self.file;
        file.store
            .rewrite_all_entries_at(self.targets.places(), self.targets.key(), value)
    }

    /// Deletes the entry at an index, counted from 0. This removes its name, `=` and value, and the whitespace between them. What is around
    /// it stays, even the whitespace before its name and the line ending after its value. The entries after it then have an index that is
    /// one less. It can't fail, and takes no memory.
    ///
    /// The section is found in constant time; what follows the entry there moves up by one, and so do the places of the entries that are
    /// left.
    pub fn delete(&mut self, index: usize)
        requires { index < length (places_of self.old) }
        ensures same_file { lent self.new ≡ lent self.old }
        ensures same_key { key_of self.new ≡ key_of self.old }
        ensures left { places_of self.new ≡ without_place index (places_of self.old) }
        ensures deleted { edited self.new ≡ apply (deleting self.old index) (edited self.old) }
    {
        let gone = self.targets.take(index);
        let file = &mut *self.file;
        file.store.delete_entry_at(gone.0, gone.1);
    }

    /// Deletes all entries that are left, each as [`MultiValueMut::delete`] does, the last one first. It can't fail, and takes no memory.
    ///
    /// Each section that they are in is found in constant time, and walked over once.
    pub fn delete_all(&mut self)
        ensures same_file { lent self.new ≡ lent self.old }
        ensures same_key { key_of self.new ≡ key_of self.old }
        ensures left { places_of self.new ≡ [] }
        ensures deleted { edited self.new ≡ all_deleted (places_of self.old) (edited self.old) }
    {
        let file = &mut *self.file;
        file.store.delete_entries_at(self.targets.places());
        self.targets.clear();
    }
}
