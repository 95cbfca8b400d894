//! Lookups of values as they are: texts, alone or with their sections.
ghost use Rattle.std.specs.Fn.{ComputesKey};
ghost use Rattle.std.specs.Option.{option_copied};
ghost use Rattle.std.specs.Prelude.{◌≡◌, map, true, IsSome};
ghost use Rattle.bstr.specs.Owned.{bstring_bytes};
ghost use Rattle.gitconf_sources.specs.Key.{the_key};
ghost use Rattle.gitconf_lookups.specs.Lookups.{AreRawValues, AreRawValuesWithSections, AreStrings, IsRawValue, IsRawValueWithSection, IsString, if_any, key_at, miss_at, shown_with, texts_of, value_at, value_in, values_at, values_in};
ghost use Rattle.gitconf_lookups.specs.Misses.{IsExisting};
ghost use Rattle.gitconf_lookups.specs.SomeSections.{Filtered};
ghost use Rattle.gix_config.specs.Keys.{OfKey};

use crate::file::{File, Metadata, SectionRef};
use crate::lookup::existing;
use bstr::BString;
use gitconf_sources::key::{AsKey, KeyRef};
use gitconf_text::NoMemory;

impl File {
    /// The meaning of the last value of a key such as `remote.origin.url`. It is that of the last section of the key's name
    /// and subsection in which the last entry of the name has a value; `None` if there is none or the key can't be parsed.
    /// The call walks over the sections of the name from the last one up to that one. A miss takes no memory.
    ///
    /// # Errors
    ///
    /// E27 when out of memory for the result.
    pub fn string<K: AsKey>(&self, key: K) -> Result<Option<BString>, NoMemory>
        ensures { OfKey (K.key key) (λ key. IsString key (λ _. true) self.now result) result }
    {
        match key.try_as_key() {
            Some(key) => self.string_by(key.section_name, key.subsection_name, key.value_name),
            None => Ok(None),
        }
    }

    /// Like [`File::string`], but by the names of the section, the subsection and the value.
    ///
    /// # Errors
    ///
    /// Those of [`File::string`].
    #[tactic(auto, using(std::proofs::lemmas::Fn::always_returns_same))]
    pub fn string_by(
        &self,
        section_name: &str,
        subsection_name: Option<&[u8]>,
        value_name: &str,
    ) -> Result<Option<BString>, NoMemory>
        ensures { IsString (key_at section_name.now (option_copied subsection_name.entry) value_name.now) (λ _. true) self.now result }
    {
        self.string_filter_by(section_name, subsection_name, value_name, |_| true)
    }

    /// Like [`File::string`], but of the sections whose metadata passes the filter.
    ///
    /// # Errors
    ///
    /// Those of [`File::string`].
    pub fn string_filter<K: AsKey, F: FnMut(&Metadata) -> bool>(
        &self,
        key: K,
        filter: F,
    ) -> Result<Option<BString>, NoMemory>
        requires { F.IsAlwaysCallable filter }
        ensures { OfKey (K.key key) (λ key. Filtered (λ keeps. ComputesKey F.FnMut keeps filter)
            (λ keeps s. IsString key keeps s result) self.now) result }
    {
        match key.try_as_key() {
            Some(key) => self.string_filter_by(
                key.section_name,
                key.subsection_name,
                key.value_name,
                filter,
            ),
            None => Ok(None),
        }
    }

    /// Like [`File::string_filter`], but by the names of the section, the subsection and the value.
    ///
    /// # Errors
    ///
    /// Those of [`File::string`].
    pub fn string_filter_by<F: FnMut(&Metadata) -> bool>(
        &self,
        section_name: &str,
        subsection_name: Option<&[u8]>,
        value_name: &str,
        filter: F,
    ) -> Result<Option<BString>, NoMemory>
        requires { F.IsAlwaysCallable filter }
        ensures { Filtered (λ keeps. ComputesKey F.FnMut keeps filter)
            (λ keeps s. IsString (key_at section_name.now (option_copied subsection_name.entry) value_name.now) keeps s result) self.now }
    {
        let key = KeyRef {
            section_name,
            subsection_name,
            value_name,
        };
        self.store.string_filter(key, filter)
    }

    /// The meanings of all values of a key, in file order. `None` if there are none or the key can't be parsed. An entry
    /// without `=` counts as empty. It walks over the sections of the name. A miss takes no memory.
    ///
    /// # Errors
    ///
    /// E27 when out of memory for the result.
    pub fn strings<K: AsKey>(&self, key: K) -> Result<Option<Vec<BString>>, NoMemory>
        ensures { OfKey (K.key key) (λ key. AreStrings key (λ _. true) self.now result) result }
    {
        match key.try_as_key() {
            Some(key) => self.strings_by(key.section_name, key.subsection_name, key.value_name),
            None => Ok(None),
        }
    }

    /// Like [`File::strings`], but by the names of the section, the subsection and the value.
    ///
    /// # Errors
    ///
    /// Those of [`File::strings`].
    #[tactic(auto, using(std::proofs::lemmas::Fn::always_returns_same))]
    pub fn strings_by(
        &self,
        section_name: &str,
        subsection_name: Option<&[u8]>,
        value_name: &str,
    ) -> Result<Option<Vec<BString>>, NoMemory>
        ensures { AreStrings (key_at section_name.now (option_copied subsection_name.entry) value_name.now) (λ _. true) self.now result }
    {
        self.strings_filter_by(section_name, subsection_name, value_name, |_| true)
    }

    /// Like [`File::strings`], but of the sections whose metadata passes the filter.
    ///
    /// # Errors
    ///
    /// Those of [`File::strings`].
    pub fn strings_filter<K: AsKey, F: FnMut(&Metadata) -> bool>(
        &self,
        key: K,
        filter: F,
    ) -> Result<Option<Vec<BString>>, NoMemory>
        requires { F.IsAlwaysCallable filter }
        ensures { OfKey (K.key key) (λ key. Filtered (λ keeps. ComputesKey F.FnMut keeps filter)
            (λ keeps s. AreStrings key keeps s result) self.now) result }
    {
        match key.try_as_key() {
            Some(key) => self.strings_filter_by(
                key.section_name,
                key.subsection_name,
                key.value_name,
                filter,
            ),
            None => Ok(None),
        }
    }

    /// Like [`File::strings_filter`], but by the names of the section, the subsection and the value.
    ///
    /// # Errors
    ///
    /// Those of [`File::strings`].
    pub fn strings_filter_by<F: FnMut(&Metadata) -> bool>(
        &self,
        section_name: &str,
        subsection_name: Option<&[u8]>,
        value_name: &str,
        filter: F,
    ) -> Result<Option<Vec<BString>>, NoMemory>
        requires { F.IsAlwaysCallable filter }
        ensures { Filtered (λ keeps. ComputesKey F.FnMut keeps filter)
            (λ keeps s. AreStrings (key_at section_name.now (option_copied subsection_name.entry) value_name.now) keeps s result) self.now }
    {
        let key = KeyRef {
            section_name,
            subsection_name,
            value_name,
        };
        self.store.strings_filter(key, filter)
    }

    /// The meaning of the last value of a key, found as by [`File::string`]. The key has to be valid, as
    /// [`AsKey::try_as_key`] says.
    ///
    /// # Errors
    ///
    /// E7, E8 and E9 if there is none: no section has the name, none of these has the subsection, or none of these that pass
    /// has such a value. E27 when out of memory for the result.
    pub fn raw_value<K: AsKey>(&self, key: K) -> Result<BString, existing::Error>
        requires { IsSome (K.key key) }
        ensures { IsRawValue (the_key (K.key key)) (λ _. true) self.now result }
    {
        let key = key.as_key();
        self.raw_value_by(key.section_name, key.subsection_name, key.value_name)
    }

    /// Like [`File::raw_value`], but by the names of the section, the subsection and the value.
    ///
    /// # Errors
    ///
    /// Those of [`File::raw_value`].
    #[tactic(auto, using(std::proofs::lemmas::Fn::always_returns_same))]
    pub fn raw_value_by(
        &self,
        section_name: &str,
        subsection_name: Option<&[u8]>,
        value_name: &str,
    ) -> Result<BString, existing::Error>
        ensures { IsRawValue (key_at section_name.now (option_copied subsection_name.entry) value_name.now) (λ _. true) self.now result }
    {
        self.raw_value_filter_by(section_name, subsection_name, value_name, |_| true)
    }

    /// Like [`File::raw_value`], but of the sections whose metadata passes the filter.
    ///
    /// # Errors
    ///
    /// Those of [`File::raw_value`].
    pub fn raw_value_filter<K: AsKey, F: FnMut(&Metadata) -> bool>(
        &self,
        key: K,
        filter: F,
    ) -> Result<BString, existing::Error>
        requires known { IsSome (K.key key) }
        requires callable { F.IsAlwaysCallable filter }
        ensures { Filtered (λ keeps. ComputesKey F.FnMut keeps filter)
            (λ keeps s. IsExisting bstring_bytes result (value_at (the_key (K.key key)) keeps s) (miss_at (the_key (K.key key)) self.now)) self.now }
    {
        let key = key.as_key();
        self.raw_value_filter_by(
            key.section_name,
            key.subsection_name,
            key.value_name,
            filter,
        )
    }

    /// Like [`File::raw_value_filter`], but by the names of the section, the subsection and the value.
    ///
    /// # Errors
    ///
    /// Those of [`File::raw_value`].
    pub fn raw_value_filter_by<F: FnMut(&Metadata) -> bool>(
        &self,
        section_name: &str,
        subsection_name: Option<&[u8]>,
        value_name: &str,
        filter: F,
    ) -> Result<BString, existing::Error>
        requires { F.IsAlwaysCallable filter }
        ensures { Filtered (λ keeps. ComputesKey F.FnMut keeps filter)
            (λ keeps s. IsExisting bstring_bytes result (value_at (key_at section_name.now (option_copied subsection_name.entry) value_name.now) keeps s)
            (miss_at (key_at section_name.now (option_copied subsection_name.entry) value_name.now) self.now)) self.now }
    {
        let key = KeyRef {
            section_name,
            subsection_name,
            value_name,
        };
        self.store.raw_value_filter(key, filter)
    }

    /// The meaning of the last value of a key, and its section. It is found as by [`File::string`]. The key has to be valid,
    /// as [`AsKey::try_as_key`] says.
    ///
    /// # Errors
    ///
    /// E7, E8 and E9 if there is none: no section has the name, none of these has the subsection, or none of these that pass
    /// has such a value. E27 when out of memory for the result.
    pub fn raw_value_with_section<K: AsKey>(
        &self,
        key: K,
    ) -> Result<(BString, SectionRef<'_>), existing::Error>
        requires { IsSome (K.key key) }
        ensures { IsRawValueWithSection (the_key (K.key key)) (λ _. true) self.now result }
    {
        let key = key.as_key();
        self.raw_value_with_section_by(key.section_name, key.subsection_name, key.value_name)
    }

    /// Like [`File::raw_value_with_section`], but by the names of the section, the subsection and the value.
    ///
    /// # Errors
    ///
    /// Those of [`File::raw_value_with_section`].
    #[tactic(auto, using(std::proofs::lemmas::Fn::always_returns_same))]
    pub fn raw_value_with_section_by(
        &self,
        section_name: &str,
        subsection_name: Option<&[u8]>,
        value_name: &str,
    ) -> Result<(BString, SectionRef<'_>), existing::Error>
        ensures { IsRawValueWithSection (key_at section_name.now (option_copied subsection_name.entry) value_name.now) (λ _. true) self.now result }
    {
        self.raw_value_with_section_filter_by(section_name, subsection_name, value_name, |_| true)
    }

    /// Like [`File::raw_value_with_section`], but of the sections whose metadata passes the filter.
    ///
    /// # Errors
    ///
    /// Those of [`File::raw_value_with_section`].
    pub fn raw_value_with_section_filter<K: AsKey, F: FnMut(&Metadata) -> bool>(
        &self,
        key: K,
        filter: F,
    ) -> Result<(BString, SectionRef<'_>), existing::Error>
        requires known { IsSome (K.key key) }
        requires callable { F.IsAlwaysCallable filter }
        ensures { Filtered (λ keeps. ComputesKey F.FnMut keeps filter)
            (λ keeps s. IsExisting shown_with result (value_in (the_key (K.key key)) keeps s) (miss_at (the_key (K.key key)) self.now)) self.now }
    {
        let key = key.as_key();
        self.raw_value_with_section_filter_by(
            key.section_name,
            key.subsection_name,
            key.value_name,
            filter,
        )
    }

    /// Like [`File::raw_value_with_section_filter`], but by the names of the section, the subsection and the value.
    ///
    /// # Errors
    ///
    /// Those of [`File::raw_value_with_section`].
    pub fn raw_value_with_section_filter_by<F: FnMut(&Metadata) -> bool>(
        &self,
        section_name: &str,
        subsection_name: Option<&[u8]>,
        value_name: &str,
        filter: F,
    ) -> Result<(BString, SectionRef<'_>), existing::Error>
        requires { F.IsAlwaysCallable filter }
        ensures { Filtered (λ keeps. ComputesKey F.FnMut keeps filter)
            (λ keeps s. IsExisting shown_with result (value_in (key_at section_name.now (option_copied subsection_name.entry) value_name.now) keeps s)
            (miss_at (key_at section_name.now (option_copied subsection_name.entry) value_name.now) self.now)) self.now }
    {
        let key = KeyRef {
            section_name,
            subsection_name,
            value_name,
        };
        self.store.raw_value_with_section_filter(key, filter)
    }

    /// The meanings of all values of a key, found as by [`File::strings`]: one or more. The key has to be valid, as
    /// [`AsKey::try_as_key`] says.
    ///
    /// # Errors
    ///
    /// E7, E8 and E9 if there is none: no section has the name, none of these has the subsection, or none of these that pass
    /// has such a value. E27 when out of memory for the result.
    pub fn raw_values<K: AsKey>(&self, key: K) -> Result<Vec<BString>, existing::Error>
        requires { IsSome (K.key key) }
        ensures { AreRawValues (the_key (K.key key)) (λ _. true) self.now result }
    {
        let key = key.as_key();
        self.raw_values_by(key.section_name, key.subsection_name, key.value_name)
    }

    /// Like [`File::raw_values`], but by the names of the section, the subsection and the value.
    ///
    /// # Errors
    ///
    /// Those of [`File::raw_values`].
    #[tactic(auto, using(std::proofs::lemmas::Fn::always_returns_same))]
    pub fn raw_values_by(
        &self,
        section_name: &str,
        subsection_name: Option<&[u8]>,
        value_name: &str,
    ) -> Result<Vec<BString>, existing::Error>
        ensures { AreRawValues (key_at section_name.now (option_copied subsection_name.entry) value_name.now) (λ _. true) self.now result }
    {
        self.raw_values_filter_by(section_name, subsection_name, value_name, |_| true)
    }

    /// Like [`File::raw_values`], but of the sections whose metadata passes the filter.
    ///
    /// # Errors
    ///
    /// Those of [`File::raw_values`].
    pub fn raw_values_filter<K: AsKey, F: FnMut(&Metadata) -> bool>(
        &self,
        key: K,
        filter: F,
    ) -> Result<Vec<BString>, existing::Error>
        requires known { IsSome (K.key key) }
        requires callable { F.IsAlwaysCallable filter }
        ensures { Filtered (λ keeps. ComputesKey F.FnMut keeps filter)
            (λ keeps s. IsExisting texts_of result (if_any (values_at (the_key (K.key key)) keeps s))
            (miss_at (the_key (K.key key)) self.now)) self.now }
    {
        let key = key.as_key();
        self.raw_values_filter_by(
            key.section_name,
            key.subsection_name,
            key.value_name,
            filter,
        )
    }

    /// Like [`File::raw_values_filter`], but by the names of the section, the subsection and the value.
    ///
    /// # Errors
    ///
    /// Those of [`File::raw_values`].
    pub fn raw_values_filter_by<F: FnMut(&Metadata) -> bool>(
        &self,
        section_name: &str,
        subsection_name: Option<&[u8]>,
        value_name: &str,
        filter: F,
    ) -> Result<Vec<BString>, existing::Error>
        requires { F.IsAlwaysCallable filter }
        ensures { Filtered (λ keeps. ComputesKey F.FnMut keeps filter)
            (λ keeps s. IsExisting texts_of result (if_any (values_at (key_at section_name.now
            (option_copied subsection_name.entry) value_name.now) keeps s))
            (miss_at (key_at section_name.now (option_copied subsection_name.entry) value_name.now) self.now)) self.now }
    {
        let key = KeyRef {
            section_name,
            subsection_name,
            value_name,
        };
        self.store.raw_values_filter(key, filter)
    }

    /// The meanings of all values of a key, each with its section. They are found as by [`File::strings`]: one or more. The
    /// key has to be valid, as [`AsKey::try_as_key`] says.
    ///
    /// # Errors
    ///
    /// E7, E8 and E9 if there is none: no section has the name, none of these has the subsection, or none of these that pass
    /// has such a value. E27 when out of memory for the result.
    pub fn raw_values_with_sections<K: AsKey>(
        &self,
        key: K,
    ) -> Result<Vec<(BString, SectionRef<'_>)>, existing::Error>
        requires { IsSome (K.key key) }
        ensures { AreRawValuesWithSections (the_key (K.key key)) (λ _. true) self.now result }
    {
        let key = key.as_key();
        self.raw_values_with_sections_by(key.section_name, key.subsection_name, key.value_name)
    }

    /// Like [`File::raw_values_with_sections`], but by the names of the section, the subsection and the value.
    ///
    /// # Errors
    ///
    /// Those of [`File::raw_values_with_sections`].
    #[tactic(auto, using(std::proofs::lemmas::Fn::always_returns_same))]
    pub fn raw_values_with_sections_by(
        &self,
        section_name: &str,
        subsection_name: Option<&[u8]>,
        value_name: &str,
    ) -> Result<Vec<(BString, SectionRef<'_>)>, existing::Error>
        ensures { AreRawValuesWithSections (key_at section_name.now (option_copied subsection_name.entry) value_name.now) (λ _. true) self.now result }
    {
        self.raw_values_with_sections_filter_by(section_name, subsection_name, value_name, |_| true)
    }

    /// Like [`File::raw_values_with_sections`], but of the sections whose metadata passes the filter.
    ///
    /// # Errors
    ///
    /// Those of [`File::raw_values_with_sections`].
    pub fn raw_values_with_sections_filter<K: AsKey, F: FnMut(&Metadata) -> bool>(
        &self,
        key: K,
        filter: F,
    ) -> Result<Vec<(BString, SectionRef<'_>)>, existing::Error>
        requires known { IsSome (K.key key) }
        requires callable { F.IsAlwaysCallable filter }
        ensures { Filtered (λ keeps. ComputesKey F.FnMut keeps filter)
            (λ keeps s. IsExisting (λ found. map shown_with found.items) result (if_any (values_in (the_key (K.key key)) keeps s))
            (miss_at (the_key (K.key key)) self.now)) self.now }
    {
        let key = key.as_key();
        self.raw_values_with_sections_filter_by(
            key.section_name,
            key.subsection_name,
            key.value_name,
            filter,
        )
    }

    /// Like [`File::raw_values_with_sections_filter`], but by the names of the section, the subsection and the value.
    ///
    /// # Errors
    ///
    /// Those of [`File::raw_values_with_sections`].
    pub fn raw_values_with_sections_filter_by<F: FnMut(&Metadata) -> bool>(
        &self,
        section_name: &str,
        subsection_name: Option<&[u8]>,
        value_name: &str,
        filter: F,
    ) -> Result<Vec<(BString, SectionRef<'_>)>, existing::Error>
        requires { F.IsAlwaysCallable filter }
        ensures { Filtered (λ keeps. ComputesKey F.FnMut keeps filter)
            (λ keeps s. IsExisting (λ found. map shown_with found.items) result (if_any (values_in (key_at section_name.now
            (option_copied subsection_name.entry) value_name.now) keeps s))
            (miss_at (key_at section_name.now (option_copied subsection_name.entry) value_name.now) self.now)) self.now }
    {
        let key = KeyRef {
            section_name,
            subsection_name,
            value_name,
        };
        self.store.raw_values_with_sections_filter(key, filter)
    }
}
