//! Sections, removed from a file.
ghost use Rattle.std.specs.Fn.{ComputesKey};
ghost use Rattle.std.specs.Option.{option_copied};
ghost use Rattle.std.specs.Prelude.{◌≡◌, Bool, OnErr, OnOk, true};
ghost use Rattle.gitconf_sources.specs.Metadata.{Meta};
ghost use Rattle.gitconf_state.specs.Edits.{RemoveNumbered, RemoveSection, apply, numbered};
ghost use Rattle.gitconf_lookups.specs.Picks.{picked};
ghost use Rattle.gitconf_store.specs.Removals.{IsTakenOut};
ghost use Rattle.gitconf_lookups.specs.SomeSections.{Filtered};

use crate::file::{File, Metadata, Section, SectionId};
use gitconf_text::NoMemory;

impl File {
    /// Removes the last section of a name and subsection, and returns it. That is the last one that has the name, without ASCII case,
    /// and exactly the subsection. It is returned with its number and with a buffer of its own; `None` if there is none. What is held
    /// after it is dropped. Its bytes and items are copied once, and the places of the sections after it are updated.
    ///
    /// # Errors
    ///
    /// E27 when out of memory for the copy. The file is then as it was.
    #[tactic(auto, using(std::proofs::lemmas::Fn::always_returns_same))]
    pub fn remove_section(
        &mut self,
        name: &str,
        subsection_name: Option<&[u8]>,
    ) -> Result<Option<Section>, NoMemory>
        ensures ok { OnOk result (self.new ≡ apply (RemoveSection name.now (option_copied subsection_name.entry) (λ _. true)) self.old) }
        ensures taken { IsTakenOut (picked name.now (option_copied subsection_name.entry) (λ _. true) self.old) result self.old self.new }
        ensures err { OnErr result (self.new ≡ self.old) }
    {
        self.remove_section_filter(name, subsection_name, |_| true)
    }

    /// Like [`File::remove_section`], but the section of a number.
    ///
    /// # Errors
    ///
    /// Those of [`File::remove_section`].
    pub fn remove_section_by_id(&mut self, id: SectionId) -> Result<Option<Section>, NoMemory>
        ensures ok { OnOk result (self.new ≡ apply (RemoveNumbered id) self.old) }
        ensures taken { IsTakenOut (numbered id self.old) result self.old self.new }
        ensures err { OnErr result (self.new ≡ self.old) }
    {
        self.store.remove_section_by_id(id)
    }

    /// Like [`File::remove_section`], but the last section whose metadata passes the filter; `None` if none passes. The filter is asked
    /// about the sections of these names from the last one up to that one.
    ///
    /// # Errors
    ///
    /// Those of [`File::remove_section`].
    pub fn remove_section_filter<F: FnMut(&Metadata) -> bool>(
        &mut self,
        name: &str,
        subsection_name: Option<&[u8]>,
        filter: F,
    ) -> Result<Option<Section>, NoMemory>
        requires { F.IsAlwaysCallable filter }
        // For a filter whose result depends only on what it is shown.
        ensures ok { (keeps : Meta → Bool) → ComputesKey F.FnMut keeps filter
            → OnOk result (self.new ≡ apply (RemoveSection name.now (option_copied subsection_name.entry) keeps) self.old) }
        ensures filtered { Filtered (λ keeps. ComputesKey F.FnMut keeps filter)
            (λ keeps s. IsTakenOut (picked name.now (option_copied subsection_name.entry) keeps s) result self.old self.new) self.old }
        ensures err { OnErr result (self.new ≡ self.old) }
    {
        self.store
            .remove_section_filter(name, subsection_name, filter)
    }
}
