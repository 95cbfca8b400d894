//! The sections of a file, walked over and found by name.
use crate::file::{File, Metadata, SectionRef};
use crate::lookup::existing::Error;
pub use gitconf_lookups::walks::{
    SectionIds, SectionsAndIds, SectionsAndIdsByName, SectionsAndPostmatter, SectionsByName,
    SectionsByNameAndFilter,
};
use gitconf_text::parse::section::unvalidated::KeyRef;

impl File {
    ghost use Rattle.std.specs.Fn.{ComputesKey};
    ghost use Rattle.std.specs.Option.{option_copied};
    ghost use Rattle.std.specs.Prelude.{◌≡◌, ◌↔◌, [], map, Bool, IfErr, IfSome, IsNone};
    ghost use Rattle.gitconf_text.specs.SectionKeys.{parsed_section_key};
    ghost use Rattle.gitconf_sources.specs.Metadata.{Meta};
    ghost use Rattle.gitconf_lookups.specs.Picks.{IsMissing, IsPassingSection, IsPassingSectionOfKey, IsSection, IsSectionOfKey};
    ghost use Rattle.gitconf_lookups.specs.SomeSections.{Filtered};
    ghost use Rattle.gitconf_lookups.specs.Walks.{and_held_left, and_ids_by_name_left, and_ids_left, by_name_left, section_ids_left, with_held, with_id, with_name};

    /// The sections that have the name, without ASCII case, in file order. They may have any subsection; `None` if there is none.
    /// They are found by an index: constant time except for the bytes of the names, and no memory.
    pub fn sections_by_name<'a, 'n>(&'a self, name: &'n str) -> Option<SectionsByName<'a, 'n>>
        ensures none { IsNone result ↔ (with_name name.now self.now.sections ≡ []) }
        ensures left { IfSome result (λ it. by_name_left it ≡ with_name name.now self.now.sections) }
    {
        self.store.sections_by_name(name)
    }

    /// Like [`File::sections_by_name`], but each section with its number.
    pub fn sections_and_ids_by_name<'a, 'n>(
        &'a self,
        name: &'n str,
    ) -> Option<SectionsAndIdsByName<'a, 'n>>
        ensures none { IsNone result ↔ (with_name name.now self.now.sections ≡ []) }
        ensures left { IfSome result (λ it. and_ids_by_name_left it ≡ map with_id (with_name name.now self.now.sections)) }
    {
        self.store.sections_and_ids_by_name(name)
    }

    /// Like [`File::sections_by_name`], but only those whose metadata passes the filter. If sections have the name and none
    /// passes, the walk is empty. The filter is called for each section when the walk reaches it.
    pub fn sections_by_name_and_filter<'a, 'n, F: FnMut(&Metadata) -> bool + Drop>(
        &'a self,
        name: &'n str,
        filter: F,
    ) -> Option<SectionsByNameAndFilter<'a, 'n, F>>
        ensures none { IsNone result ↔ (with_name name.now self.now.sections ≡ []) }
        ensures left { IfSome result (λ it. by_name_left it.sections ≡ with_name name.now self.now.sections) }
        ensures filter { IfSome result (λ it. it.filter ≡ filter) }
    {
        self.store.sections_by_name_and_filter(name, filter)
    }

    /// The sections in file order, each with its number.
    pub fn sections_and_ids(&self) -> SectionsAndIds<'_>
        ensures { and_ids_left result ≡ map with_id self.now.sections }
    {
        self.store.sections_and_ids()
    }

    /// The numbers of the sections, in file order.
    pub fn section_ids(&self) -> SectionIds<'_>
        ensures { section_ids_left result ≡ map (λ s. s.number) self.now.sections }
    {
        self.store.section_ids()
    }

    /// The sections in file order, each with the events of what is held after it. That came before the first section of a file that
    /// was appended or included.
    pub fn sections_and_postmatter(&self) -> SectionsAndPostmatter<'_>
        ensures { and_held_left result ≡ map with_held self.now.sections }
    {
        self.store.sections_and_postmatter()
    }

    /// The last section that has the name, without ASCII case, and exactly the subsection. It is found by an index. Takes no memory.
    ///
    /// # Errors
    ///
    /// E7 if no section has the name, E8 if none of these has the subsection.
    pub fn section(
        &self,
        name: &str,
        subsection_name: Option<&[u8]>,
    ) -> Result<SectionRef<'_>, Error>
        ensures { IsSection name.now (option_copied subsection_name.entry) self.now result }
    {
        self.store.section(name, subsection_name)
    }

    /// Like [`File::section`], but by a key such as `remote.origin`. The name is before its first dot, and all after it is the
    /// subsection; without a dot there is none.
    ///
    /// # Errors
    ///
    /// E9 if the name isn't UTF-8, and those of [`File::section`].
    pub fn section_by_key(&self, section_key: &[u8]) -> Result<SectionRef<'_>, Error>
        ensures { IsSectionOfKey (parsed_section_key section_key.now) self.now result }
    {
        match KeyRef::parse(section_key) {
            Some(key) => self.section(key.section_name, key.subsection_name),
            None => Err(Error::KeyMissing),
        }
    }

    /// Like [`File::section`], but the last one whose metadata passes the filter. `None` if there are such sections and none passes.
    /// The filter is called for them from the last one up to that one.
    ///
    /// # Errors
    ///
    /// Those of [`File::section`], whatever the filter returns.
    pub fn section_filter<F: FnMut(&Metadata) -> bool>(
        &self,
        name: &str,
        subsection_name: Option<&[u8]>,
        filter: F,
    ) -> Result<Option<SectionRef<'_>>, Error>
        requires { F.IsAlwaysCallable filter }
        ensures refused { IfErr result (IsMissing name.now (option_copied subsection_name.entry) self.now) }
        ensures filtered { Filtered (λ keeps. ComputesKey F.FnMut keeps filter)
            (λ keeps s. IsPassingSection name.now (option_copied subsection_name.entry) self.now keeps s result) self.now }
    {
        self.store.section_filter(name, subsection_name, filter)
    }

    /// Like [`File::section_filter`], but by a key as in [`File::section_by_key`].
    ///
    /// # Errors
    ///
    /// Those of [`File::section_by_key`].
    pub fn section_filter_by_key<F: FnMut(&Metadata) -> bool>(
        &self,
        section_key: &[u8],
        filter: F,
    ) -> Result<Option<SectionRef<'_>>, Error>
        requires { F.IsAlwaysCallable filter }
        ensures { Filtered (λ keeps. ComputesKey F.FnMut keeps filter)
            (λ keeps s. IsPassingSectionOfKey (parsed_section_key section_key.now) self.now keeps s result) self.now }
    {
        match KeyRef::parse(section_key) {
            Some(key) => self.section_filter(key.section_name, key.subsection_name, filter),
            None => Err(Error::KeyMissing),
        }
    }
}
