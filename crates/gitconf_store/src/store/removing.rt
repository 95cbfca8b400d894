//! Sections of a store, found by their numbers, and removed.
ghost use Rattle.std.specs.Fn.{ComputesKey};
ghost use Rattle.std.specs.Option.{option_copied, option_map};
ghost use Rattle.std.specs.Prelude.{◌≡◌, Bool, OnErr, OnOk, true};
ghost use Rattle.gitconf_sources.specs.Metadata.{Meta};
ghost use Rattle.gitconf_state.specs.Edits.{RemoveNumbered, RemoveSection, apply, numbered};
ghost use Rattle.gitconf_lookups.specs.Picks.{picked};
ghost use Rattle.gitconf_store.specs.Removals.{IsTakenOut};
ghost use Rattle.gitconf_lookups.specs.SomeSections.{Filtered};
ghost use Rattle.gitconf_views.specs.Views.{shown};

use crate::store::Store;
use gitconf_lookups::filters::last_passing;
use gitconf_sections::id::SectionId;
use gitconf_sources::meta::Metadata;
use gitconf_text::NoMemory;
use gitconf_views::detached;
use gitconf_views::section::SectionRef;
use gitconf_views::tables::view_of;

impl Store {
    /// The section of a number, if there is one. Constant time, and no memory.
    pub fn section_by_id(&self, id: SectionId) -> Option<SectionRef<'_>>
        ensures { option_map shown result ≡ numbered id self.now }
    {
        match self.sections.get(id) {
            Some(section) => Some(view_of(&self.buffer, &self.copies, id, section)),
            None => None,
        }
    }

    /// Removes the section of a number, if there is one. Takes no memory.
    fn take_out(&mut self, id: SectionId)
        ensures { self.new ≡ apply (RemoveNumbered id) self.old }
    {
        self.sections.remove(id);
    }

    /// `File::remove_section_by_id` of `gix_config` is this call, and says what it does.
    pub fn remove_section_by_id(
        &mut self,
        id: SectionId,
    ) -> Result<Option<detached::Section>, NoMemory>
        ensures ok { OnOk result (self.new ≡ apply (RemoveNumbered id) self.old) }
        ensures taken { IsTakenOut (numbered id self.old) result self.old self.new }
        ensures err { OnErr result (self.new ≡ self.old) }
    {
        match self.section_by_id(id) {
            Some(section) => {
                let section = section.to_owned()?;
                self.take_out(id);
                Ok(Some(section))
            }
            None => Ok(None),
        }
    }

    /// `File::remove_section_filter` of `gix_config` is this call, and says what it does.
    pub fn remove_section_filter<F: FnMut(&Metadata) -> bool>(
        &mut self,
        name: &str,
        subsection_name: Option<&[u8]>,
        filter: F,
    ) -> Result<Option<detached::Section>, NoMemory>
        requires { F.IsAlwaysCallable filter }
        // For a filter whose result depends only on what it is shown.
        ensures ok { (keeps : Meta → Bool) → ComputesKey F.FnMut keeps filter
            → OnOk result (self.new ≡ apply (RemoveSection name.now (option_copied subsection_name.entry) keeps) self.old) }
        ensures filtered { Filtered (λ keeps. ComputesKey F.FnMut keeps filter)
            (λ keeps s. IsTakenOut (picked name.now (option_copied subsection_name.entry) keeps s) result self.old self.new) self.old }
        ensures err { OnErr result (self.new ≡ self.old) }
    {
        match last_passing(self.sections_named(name, subsection_name), filter) {
            Some(section) => {
                let id = section.id();
                let section = section.to_owned()?;
                self.take_out(id);
                Ok(Some(section))
            }
            None => Ok(None),
        }
    }
}
