//! Editors of the values of all entries of a key.
use crate::file::multi_value_mut::MultiValueMut;
use crate::file::{File, Metadata};
use crate::lookup::existing;
use gitconf_sources::key::{AsKey, KeyRef};

impl File {
    ghost use Rattle.std.specs.Borrow.{sem, RestsIfErr};
    ghost use Rattle.std.specs.Fn.{ComputesKey};
    ghost use Rattle.std.specs.Option.{option_copied};
    ghost use Rattle.std.specs.Prelude.{◌≡◌, true, IfOk, IsSome};
    ghost use Rattle.gitconf_sources.specs.Key.{the_key};
    ghost use Rattle.gitconf_lookups.specs.Lookups.{key_at};
    ghost use Rattle.gitconf_lookups.specs.SomeSections.{Filtered};
    ghost use Rattle.gitconf_lookups.specs.ValuePlaces.{key_places};
    ghost use Rattle.gix_config.specs.contracts.file.File.{the_row};
    ghost use Rattle.gix_config.specs.MultiValueEditors.{edited, lent, targets_of, AreFoundTargets, IsEditorOfValues};

    /// An editor of all entries of a key such as `remote.origin.fetch`. These are the entries with `=` or without it in the sections
    /// of the key's name and subsection. They are in the order of the sections' numbers, and in each section in the order of its
    /// entries.
    ///
    /// It walks over the sections of the key's name and subsection and over their items, and sorts the places. Takes memory for the
    /// places, and for the name.
    ///
    /// # Errors
    ///
    /// E7 if no section has the name, E8 if none of these has the subsection; otherwise E6 for an invalid value name; otherwise E9 if
    /// none of these has such an entry; E27 when out of memory. The file is then as it was.
    pub fn raw_values_mut<K: AsKey>(&mut self, key: K) -> Result<MultiValueMut<'_>, existing::Error>
        requires { IsSome (K.key key) }
        ensures same_file { IfOk result (λ e. lent e ≡ self.entry.ghost_name) }
        ensures same_state { IfOk result (λ e. edited e ≡ self.old) }
        ensures found { IsEditorOfValues (the_key (K.key key)) (λ _. true) self.old result }
        ensures* refused { sem 𝓛 (RestsIfErr the_row self.entry lent result (λ n. n ≡ self.old)) }
    {
        let key = key.as_key();
        self.raw_values_mut_by(key.section_name, key.subsection_name, key.value_name)
    }

    /// Like [`File::raw_values_mut`], but by the names of the section, the subsection and the value.
    ///
    /// # Errors
    ///
    /// Those of [`File::raw_values_mut`].
    #[tactic(auto, using(std::proofs::lemmas::Fn::always_returns_same))]
    pub fn raw_values_mut_by(
        &mut self,
        section_name: &str,
        subsection_name: Option<&[u8]>,
        value_name: &str,
    ) -> Result<MultiValueMut<'_>, existing::Error>
        ensures same_file { IfOk result (λ e. lent e ≡ self.entry.ghost_name) }
        ensures same_state { IfOk result (λ e. edited e ≡ self.old) }
        ensures found { IsEditorOfValues (key_at section_name.now (option_copied subsection_name.entry) value_name.now) (λ _. true) self.old result }
        ensures* refused { sem 𝓛 (RestsIfErr the_row self.entry lent result (λ n. n ≡ self.old)) }
    {
        self.raw_values_mut_filter_by(section_name, subsection_name, value_name, |_| true)
    }

    /// Like [`File::raw_values_mut`], but in the sections whose metadata passes the filter. The filter is called for them in file
    /// order.
    ///
    /// # Errors
    ///
    /// Those of [`File::raw_values_mut`].
    pub fn raw_values_mut_filter<K: AsKey, F: FnMut(&Metadata) -> bool>(
        &mut self,
        key: K,
        filter: F,
    ) -> Result<MultiValueMut<'_>, existing::Error>
        requires known { IsSome (K.key key) }
        requires callable { F.IsAlwaysCallable filter }
        ensures same_file { IfOk result (λ e. lent e ≡ self.entry.ghost_name) }
        ensures same_state { IfOk result (λ e. edited e ≡ self.old) }
        ensures found { Filtered (λ keeps. ComputesKey F.FnMut keeps filter)
            (λ keeps s. AreFoundTargets targets_of (the_key (K.key key)) self.old (key_places (the_key (K.key key)) keeps s) result) self.old }
        ensures* refused { sem 𝓛 (RestsIfErr the_row self.entry lent result (λ n. n ≡ self.old)) }
    {
        let key = key.as_key();
        self.raw_values_mut_filter_by(
            key.section_name,
            key.subsection_name,
            key.value_name,
            filter,
        )
    }

    /// Like [`File::raw_values_mut_filter`], but by the names of the section, the subsection and the value.
    ///
    /// # Errors
    ///
    /// Those of [`File::raw_values_mut`].
    pub fn raw_values_mut_filter_by<F: FnMut(&Metadata) -> bool>(
        &mut self,
        section_name: &str,
        subsection_name: Option<&[u8]>,
        value_name: &str,
        filter: F,
    ) -> Result<MultiValueMut<'_>, existing::Error>
        requires { F.IsAlwaysCallable filter }
        ensures same_file { IfOk result (λ e. lent e ≡ self.entry.ghost_name) }
        ensures same_state { IfOk result (λ e. edited e ≡ self.old) }
        ensures found { Filtered (λ keeps. ComputesKey F.FnMut keeps filter)
            (λ keeps s. AreFoundTargets targets_of (key_at section_name.now (option_copied subsection_name.entry) value_name.now) self.old
            (key_places (key_at section_name.now (option_copied subsection_name.entry) value_name.now) keeps s) result) self.old }
        ensures* refused { sem 𝓛 (RestsIfErr the_row self.entry lent result (λ n. n ≡ self.old)) }
    {
        let key = KeyRef {
            section_name,
            subsection_name,
            value_name,
        };
        let targets = self.value_targets(key, filter)?;
        Ok(MultiValueMut {
            file: self,
            targets,
        })
    }
}
