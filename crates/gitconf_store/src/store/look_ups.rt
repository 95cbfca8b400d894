//! Lookups of a key, each with a filter of sections.
ghost use Rattle.std.specs.Fn.{ComputesKey};
ghost use Rattle.std.specs.List.{list_any};
ghost use Rattle.std.specs.Option.{option_copied, option_map};
ghost use Rattle.std.specs.Prelude.{◌≡◌, map};
ghost use Rattle.bstr.specs.Owned.{bstring_bytes};
ghost use Rattle.gitconf_sources.specs.Key.{key_of};
ghost use Rattle.gitconf_state.specs.Lookup.{has_name, is_named, listed, miss_of};
ghost use Rattle.gitconf_lookups.specs.Finding.{AreFound, all_places, last_place, place_of};
ghost use Rattle.gitconf_lookups.specs.Lookups.{AreStrings, IsImplicit, IsString, if_any, miss_at, sections_named, shown_with, texts_of, value_at, value_in, values_at, values_in};
ghost use Rattle.gitconf_lookups.specs.Misses.{IsExisting, existing_or, missing};
ghost use Rattle.gitconf_lookups.specs.SomeSections.{Filtered};

use crate::store::Store;
use bstr::BString;
use gitconf_lookups::existing;
use gitconf_lookups::found::{Deciding, Found};
use gitconf_lookups::texts::{implicit_text, text, text_with_section, texts, texts_with_sections};
use gitconf_lookups::walk::{all_found, last_found};
use gitconf_sources::key::KeyRef;
use gitconf_sources::meta::Metadata;
use gitconf_text::NoMemory;
use gitconf_views::section::SectionRef;

impl Store {
    /// The entry that decides in the last of the passing sections in which one does. Takes no memory.
    fn find<F: FnMut(&Metadata) -> bool>(
        &self,
        key: KeyRef<'_>,
        deciding: Deciding,
        filter: F,
    ) -> Option<Found<'_>>
        requires { F.IsAlwaysCallable filter }
        ensures { Filtered (λ keeps. ComputesKey F.FnMut keeps filter) (λ keeps s. option_map place_of result
            ≡ last_place deciding key.entry.value_name.now keeps
            (sections_named key.entry.section_name.now (option_copied key.entry.subsection_name) s)) self.now }
    {
        let sections = self.sections_named(key.section_name, key.subsection_name);
        last_found(sections, key.value_name.as_bytes(), deciding, filter)
    }

    /// The entries of a key in the passing sections, in order. Takes memory for the places that are found alone.
    fn find_all<F: FnMut(&Metadata) -> bool>(
        &self,
        key: KeyRef<'_>,
        filter: F,
    ) -> Result<Vec<Found<'_>>, NoMemory>
        requires { F.IsAlwaysCallable filter }
        ensures { Filtered (λ keeps. ComputesKey F.FnMut keeps filter) (λ keeps s. AreFound result
            (all_places key.entry.value_name.now keeps (sections_named key.entry.section_name.now (option_copied key.entry.subsection_name) s))) self.now }
    {
        let sections = self.sections_named(key.section_name, key.subsection_name);
        let alloc = *self.buffer.allocator();
        all_found(alloc, sections, key.value_name.as_bytes(), filter)
    }

    /// Whether some section has the name. Takes no memory.
    fn has_section(&self, section_name: &str) -> bool
        ensures { result ≡ list_any (has_name section_name.now) (listed self.now) }
    {
        self.sections.with_name(section_name).next().is_some()
    }

    /// Whether some section has the name and the subsection. Takes no memory.
    fn has_subsection(&self, section_name: &str, subsection_name: Option<&[u8]>) -> bool
        ensures { result ≡ list_any (is_named section_name.now (option_copied subsection_name.entry)) (listed self.now) }
    {
        let mut sections = self.sections.named(section_name, subsection_name);
        sections.next().is_some()
    }

    /// Why a lookup in the sections of a name and subsection finds nothing. Takes no memory.
    pub(crate) fn miss(&self, section_name: &str, subsection_name: Option<&[u8]>) -> existing::Error
        ensures { result ≡ missing (miss_of section_name.now (option_copied subsection_name.entry) (listed self.now)) }
    {
        if !self.has_section(section_name) {
            return existing::Error::SectionMissing;
        }
        if !self.has_subsection(section_name, subsection_name) {
            return existing::Error::SubSectionMissing;
        }
        existing::Error::KeyMissing
    }

    /// What was found, or why there is nothing.
    fn existing<T: Drop>(
        &self,
        key: KeyRef<'_>,
        found: Result<Option<T>, NoMemory>,
    ) -> Result<T, existing::Error>
        ensures { result ≡ existing_or (missing (miss_at (key_of key.entry) self.now)) found }
    {
        match found {
            Ok(Some(found)) => Ok(found),
            Ok(None) => Err(self.miss(key.section_name, key.subsection_name)),
            Err(_) => Err(existing::Error::Memory),
        }
    }

    /// `File::string_filter_by` of `gix_config` is this call, and says what it does.
    pub fn string_filter<F: FnMut(&Metadata) -> bool>(
        &self,
        key: KeyRef<'_>,
        filter: F,
    ) -> Result<Option<BString>, NoMemory>
        requires { F.IsAlwaysCallable filter }
        ensures { Filtered (λ keeps. ComputesKey F.FnMut keeps filter)
            (λ keeps s. IsString (key_of key.entry) keeps s result) self.now }
    {
        let found = self.find(key, Deciding::Value, filter);
        text(*self.buffer.allocator(), &found)
    }

    /// `File::boolean_filter_by` of `gix_config` is this call, and says what it does.
    pub fn value_implicit_filter<F: FnMut(&Metadata) -> bool>(
        &self,
        key: KeyRef<'_>,
        filter: F,
    ) -> Result<Option<Option<BString>>, NoMemory>
        requires { F.IsAlwaysCallable filter }
        ensures { Filtered (λ keeps. ComputesKey F.FnMut keeps filter)
            (λ keeps s. IsImplicit (key_of key.entry) keeps s result) self.now }
    {
        let found = self.find(key, Deciding::Entry, filter);
        implicit_text(*self.buffer.allocator(), &found)
    }

    /// `File::strings_filter_by` of `gix_config` is this call, and says what it does.
    pub fn strings_filter<F: FnMut(&Metadata) -> bool>(
        &self,
        key: KeyRef<'_>,
        filter: F,
    ) -> Result<Option<Vec<BString>>, NoMemory>
        requires { F.IsAlwaysCallable filter }
        ensures { Filtered (λ keeps. ComputesKey F.FnMut keeps filter)
            (λ keeps s. AreStrings (key_of key.entry) keeps s result) self.now }
    {
        let found = self.find_all(key, filter);
        texts(*self.buffer.allocator(), found)
    }

    /// `File::raw_value_filter_by` of `gix_config` is this call, and says what it does.
    pub fn raw_value_filter<F: FnMut(&Metadata) -> bool>(
        &self,
        key: KeyRef<'_>,
        filter: F,
    ) -> Result<BString, existing::Error>
        requires { F.IsAlwaysCallable filter }
        ensures { Filtered (λ keeps. ComputesKey F.FnMut keeps filter)
            (λ keeps s. IsExisting bstring_bytes result (value_at (key_of key.entry) keeps s) (miss_at (key_of key.entry) self.now)) self.now }
    {
        let found = self.string_filter(key, filter);
        self.existing(key, found)
    }

    /// `File::raw_value_with_section_filter_by` of `gix_config` is this call, and says what it does.
    pub fn raw_value_with_section_filter<F: FnMut(&Metadata) -> bool>(
        &self,
        key: KeyRef<'_>,
        filter: F,
    ) -> Result<(BString, SectionRef<'_>), existing::Error>
        requires { F.IsAlwaysCallable filter }
        ensures { Filtered (λ keeps. ComputesKey F.FnMut keeps filter)
            (λ keeps s. IsExisting shown_with result (value_in (key_of key.entry) keeps s) (miss_at (key_of key.entry) self.now)) self.now }
    {
        let found = self.find(key, Deciding::Value, filter);
        let found = text_with_section(*self.buffer.allocator(), &found);
        self.existing(key, found)
    }

    /// `File::raw_values_filter_by` of `gix_config` is this call, and says what it does.
    pub fn raw_values_filter<F: FnMut(&Metadata) -> bool>(
        &self,
        key: KeyRef<'_>,
        filter: F,
    ) -> Result<Vec<BString>, existing::Error>
        requires { F.IsAlwaysCallable filter }
        ensures { Filtered (λ keeps. ComputesKey F.FnMut keeps filter)
            (λ keeps s. IsExisting texts_of result (if_any (values_at (key_of key.entry) keeps s)) (miss_at (key_of key.entry) self.now)) self.now }
    {
        let found = self.strings_filter(key, filter);
        self.existing(key, found)
    }

    /// `File::raw_values_with_sections_filter_by` of `gix_config` is this call, and says what it does.
    pub fn raw_values_with_sections_filter<F: FnMut(&Metadata) -> bool>(
        &self,
        key: KeyRef<'_>,
        filter: F,
    ) -> Result<Vec<(BString, SectionRef<'_>)>, existing::Error>
        requires { F.IsAlwaysCallable filter }
        ensures { Filtered (λ keeps. ComputesKey F.FnMut keeps filter)
            (λ keeps s. IsExisting (λ found. map shown_with found.items) result (if_any (values_in (key_of key.entry) keeps s))
            (miss_at (key_of key.entry) self.now)) self.now }
    {
        let found = self.find_all(key, filter);
        let found = texts_with_sections(*self.buffer.allocator(), found);
        self.existing(key, found)
    }
}
