//! The sections of a store, walked over and found by name.

use crate::store::Store;
use gitconf_lookups::existing::Error;
use gitconf_lookups::filters::last_passing;
use gitconf_lookups::walks::{
    SectionIds, SectionsAndIds, SectionsAndIdsByName, SectionsAndPostmatter, SectionsByName,
    SectionsByNameAndFilter, SectionsNamed,
};
use gitconf_sources::meta::Metadata;
use gitconf_views::section::SectionRef;

impl Store {
    ghost use Rattle.std.specs.Fn.{ComputesKey};
    ghost use Rattle.std.specs.Option.{option_copied};
    ghost use Rattle.std.specs.Prelude.{◌≡◌, ◌↔◌, [], map, Bool, IfErr, IfOk, IfSome, IsNone, MatchResult, None};
    ghost use Rattle.gitconf_views.specs.Views.{shown};
    ghost use Rattle.gitconf_sources.specs.Metadata.{Meta};
    ghost use Rattle.gitconf_lookups.specs.Lookups.{sections_named};
    ghost use Rattle.gitconf_lookups.specs.Picks.{HasSection, IsMissing, IsPassingSection, IsSection};
    ghost use Rattle.gitconf_lookups.specs.SomeSections.{Filtered};
    ghost use Rattle.gitconf_lookups.specs.Walks.{named_left, and_held_left, and_ids_by_name_left, and_ids_left, by_name_left, section_ids_left, with_held, with_id, with_name};

    /// The sections that have the name, in file order; `None` if there is none. The name is compared without ASCII
    /// case, and the subsection may be any. The sections are found by an index: constant time except for the bytes of
    /// the names, and no memory.
    pub fn sections_by_name<'a, 'n>(&'a self, name: &'n str) -> Option<SectionsByName<'a, 'n>>
        ensures none { IsNone result ↔ (with_name name.now self.now.sections ≡ []) }
        ensures left { IfSome result (λ it. by_name_left it ≡ with_name name.now self.now.sections) }
    {
        if !self.sections.has_name(name) {
            return None;
        }
        Some(SectionsByName {
            buffer: &self.buffer,
            copies: &self.copies,
            sections: self.sections.with_name(name),
        })
    }

    /// Like [`Store::sections_by_name`], but each section with its number.
    pub fn sections_and_ids_by_name<'a, 'n>(
        &'a self,
        name: &'n str,
    ) -> Option<SectionsAndIdsByName<'a, 'n>>
        ensures none { IsNone result ↔ (with_name name.now self.now.sections ≡ []) }
        ensures left { IfSome result (λ it. and_ids_by_name_left it ≡ map with_id (with_name name.now self.now.sections)) }
    {
        match self.sections_by_name(name) {
            Some(sections) => Some(SectionsAndIdsByName { sections }),
            None => None,
        }
    }

    /// Like [`Store::sections_by_name`], but only those whose metadata passes the filter. If sections have the name and
    /// none passes, the walk is empty.
    pub fn sections_by_name_and_filter<'a, 'n, F: FnMut(&Metadata) -> bool + Drop>(
        &'a self,
        name: &'n str,
        filter: F,
    ) -> Option<SectionsByNameAndFilter<'a, 'n, F>>
        ensures none { IsNone result ↔ (with_name name.now self.now.sections ≡ []) }
        ensures left { IfSome result (λ it. by_name_left it.sections ≡ with_name name.now self.now.sections) }
        ensures filter { IfSome result (λ it. it.filter ≡ filter) }
    {
        match self.sections_by_name(name) {
            Some(sections) => Some(SectionsByNameAndFilter { sections, filter }),
            None => None,
        }
    }

    /// The sections in file order, each with its number.
    pub fn sections_and_ids(&self) -> SectionsAndIds<'_>
        ensures { and_ids_left result ≡ map with_id self.now.sections }
    {
        SectionsAndIds {
            sections: self.sections(),
        }
    }

    /// The numbers of the sections, in file order.
    pub fn section_ids(&self) -> SectionIds<'_>
        ensures { section_ids_left result ≡ map (λ s. s.number) self.now.sections }
    {
        SectionIds {
            sections: self.sections(),
        }
    }

    /// The sections in file order, each with the events of what is held after it. These events came before the first
    /// section of a file that was appended or included.
    pub fn sections_and_postmatter(&self) -> SectionsAndPostmatter<'_>
        ensures { and_held_left result ≡ map with_held self.now.sections }
    {
        SectionsAndPostmatter {
            sections: self.sections(),
        }
    }

    /// The sections that have the name, without ASCII case, and exactly the subsection, in file order.
    pub(crate) fn sections_named<'a, 'n, 's>(
        &'a self,
        name: &'n str,
        subsection_name: Option<&'s [u8]>,
    ) -> SectionsNamed<'a, 'n, 's>
        ensures { named_left result ≡ sections_named name.now (option_copied subsection_name.entry) self.now }
    {
        SectionsNamed {
            buffer: &self.buffer,
            copies: &self.copies,
            sections: self.sections.named(name, subsection_name),
        }
    }

    /// Whether there is a section of the name and subsection; if not, the error says what is missing.
    pub(crate) fn check_named(
        &self,
        name: &str,
        subsection_name: Option<&[u8]>,
    ) -> Result<(), Error>
        ensures { MatchResult result (λ _. HasSection name.now (option_copied subsection_name.entry) self.now)
            (IsMissing name.now (option_copied subsection_name.entry) self.now) }
    {
        match self.sections_named(name, subsection_name).next() {
            Some(_) => Ok(()),
            None => {
                if self.sections.has_name(name) {
                    Err(Error::SubSectionMissing)
                } else {
                    Err(Error::SectionMissing)
                }
            }
        }
    }

    /// `File::section_filter` of `gix_config` is this call, and says what it does.
    pub fn section_filter<F: FnMut(&Metadata) -> bool>(
        &self,
        name: &str,
        subsection_name: Option<&[u8]>,
        filter: F,
    ) -> Result<Option<SectionRef<'_>>, Error>
        requires { F.IsAlwaysCallable filter }
        ensures refused { IfErr result (IsMissing name.now (option_copied subsection_name.entry) self.now) }
        ensures found { IfOk result (λ _. HasSection name.now (option_copied subsection_name.entry) self.now) }
        ensures filtered { Filtered (λ keeps. ComputesKey F.FnMut keeps filter)
            (λ keeps s. IsPassingSection name.now (option_copied subsection_name.entry) self.now keeps s result) self.now }
    {
        self.check_named(name, subsection_name)?;
        let sections = self.sections_named(name, subsection_name);
        Ok(last_passing(sections, filter))
    }

    /// `File::section` of `gix_config` is this call, and says what it does.
    pub fn section(
        &self,
        name: &str,
        subsection_name: Option<&[u8]>,
    ) -> Result<SectionRef<'_>, Error>
        ensures { IsSection name.now (option_copied subsection_name.entry) self.now result }
    {
        self.check_named(name, subsection_name)?;
        match self.sections_named(name, subsection_name).next_back() {
            Some(section) => Ok(section),
            None => unreachable!(),
        }
    }
}
