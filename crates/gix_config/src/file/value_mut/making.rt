//! Editors of the values of entries that are found.
use crate::file::value_mut::ValueMut;
use crate::file::{File, Metadata};
use crate::lookup::existing;
use gitconf_sources::key::{AsKey, KeyRef};

impl File {
    ghost use Rattle.std.specs.Borrow.{sem, RestsIfErr};
    ghost use Rattle.std.specs.Fn.{ComputesKey};
    ghost use Rattle.std.specs.Option.{option_copied};
    ghost use Rattle.std.specs.Prelude.{◌≡◌, true, IfOk, IsSome};
    ghost use Rattle.gitconf_sources.specs.Key.{the_key};
    ghost use Rattle.gitconf_lookups.specs.Lookups.{key_at};
    ghost use Rattle.gitconf_lookups.specs.SomeSections.{Filtered};
    ghost use Rattle.gitconf_lookups.specs.ValuePlaces.{value_place};
    ghost use Rattle.gix_config.specs.contracts.file.File.{the_row};
    ghost use Rattle.gix_config.specs.ValueEditors.{edited, lent, IsEditorOfValue, IsValueEditor};

    /// An editor of the last entry of a key such as `remote.origin.url`. That is the last entry, with `=` or without it, in the last
    /// section of the key's name and subsection that has one. The key has to be valid, as [`AsKey::try_as_key`] says.
    ///
    /// It walks over the sections of the key's name and subsection from the last one up to that one, over its items, and over the
    /// file's up to the first line ending. Takes memory for the name and for the whitespace that the section uses.
    ///
    /// # Errors
    ///
    /// E7 if no section has the name, E8 if none of these has the subsection; otherwise E6 for an invalid value name; otherwise E9 if
    /// none of these has such an entry; E27 when out of memory. The file is then as it was.
    pub fn raw_value_mut<K: AsKey>(&mut self, key: K) -> Result<ValueMut<'_>, existing::Error>
        requires { IsSome (K.key key) }
        ensures same_file { IfOk result (λ e. lent e ≡ self.entry.ghost_name) }
        ensures same_state { IfOk result (λ e. edited e ≡ self.old) }
        ensures found { IsEditorOfValue (the_key (K.key key)) (λ _. true) self.old result }
        ensures* refused { sem 𝓛 (RestsIfErr the_row self.entry lent result (λ n. n ≡ self.old)) }
    {
        let key = key.as_key();
        self.raw_value_mut_by(key.section_name, key.subsection_name, key.value_name)
    }

    /// Like [`File::raw_value_mut`], but by the names of the section, the subsection and the value.
    ///
    /// # Errors
    ///
    /// Those of [`File::raw_value_mut`].
    #[tactic(auto, using(std::proofs::lemmas::Fn::always_returns_same))]
    pub fn raw_value_mut_by(
        &mut self,
        section_name: &str,
        subsection_name: Option<&[u8]>,
        value_name: &str,
    ) -> Result<ValueMut<'_>, existing::Error>
        ensures same_file { IfOk result (λ e. lent e ≡ self.entry.ghost_name) }
        ensures same_state { IfOk result (λ e. edited e ≡ self.old) }
        ensures found { IsEditorOfValue (key_at section_name.now (option_copied subsection_name.entry) value_name.now) (λ _. true) self.old result }
        ensures* refused { sem 𝓛 (RestsIfErr the_row self.entry lent result (λ n. n ≡ self.old)) }
    {
        self.raw_value_mut_filter_by(section_name, subsection_name, value_name, |_| true)
    }

    /// Like [`File::raw_value_mut`], but in the sections whose metadata passes the filter. The filter is called from the last one up to
    /// the one with the entry.
    ///
    /// # Errors
    ///
    /// Those of [`File::raw_value_mut`].
    pub fn raw_value_mut_filter<K: AsKey, F: FnMut(&Metadata) -> bool>(
        &mut self,
        key: K,
        filter: F,
    ) -> Result<ValueMut<'_>, existing::Error>
        requires known { IsSome (K.key key) }
        requires callable { F.IsAlwaysCallable filter }
        ensures same_file { IfOk result (λ e. lent e ≡ self.entry.ghost_name) }
        ensures same_state { IfOk result (λ e. edited e ≡ self.old) }
        ensures found { Filtered (λ keeps. ComputesKey F.FnMut keeps filter)
            (λ keeps s. IsValueEditor (the_key (K.key key)) self.old (value_place (the_key (K.key key)) keeps s) result) self.old }
        ensures* refused { sem 𝓛 (RestsIfErr the_row self.entry lent result (λ n. n ≡ self.old)) }
    {
        let key = key.as_key();
        self.raw_value_mut_filter_by(
            key.section_name,
            key.subsection_name,
            key.value_name,
            filter,
        )
    }

    /// Like [`File::raw_value_mut_filter`], but by the names of the section, the subsection and the value.
    ///
    /// # Errors
    ///
    /// Those of [`File::raw_value_mut`].
    pub fn raw_value_mut_filter_by<F: FnMut(&Metadata) -> bool>(
        &mut self,
        section_name: &str,
        subsection_name: Option<&[u8]>,
        value_name: &str,
        filter: F,
    ) -> Result<ValueMut<'_>, existing::Error>
        requires { F.IsAlwaysCallable filter }
        ensures same_file { IfOk result (λ e. lent e ≡ self.entry.ghost_name) }
        ensures same_state { IfOk result (λ e. edited e ≡ self.old) }
        ensures found { Filtered (λ keeps. ComputesKey F.FnMut keeps filter)
            (λ keeps s. IsValueEditor (key_at section_name.now (option_copied subsection_name.entry) value_name.now) self.old
            (value_place (key_at section_name.now (option_copied subsection_name.entry) value_name.now) keeps s) result) self.old }
        ensures* refused { sem 𝓛 (RestsIfErr the_row self.entry lent result (λ n. n ≡ self.old)) }
    {
        let key = KeyRef {
            section_name,
            subsection_name,
            value_name,
        };
        let place = self.value_place(key, filter)?;
        let spelling = self.spelling_at(place.0, value_name.as_bytes())?;
        let line_end = self.line_end();
        Ok(ValueMut {
            file: self,
            id: place.0,
            place: place.1,
            stands: true,
            spelling,
            line_end,
        })
    }
}
