//! Renaming sections of a file.
ghost use Rattle.std.specs.Fn.{ComputesKey};
ghost use Rattle.std.specs.Option.{option_copied};
ghost use Rattle.std.specs.Prelude.{◌≡◌, option_map, Bool, OnErr, true};
ghost use Rattle.bstr.specs.Owned.{bstring_bytes};
ghost use Rattle.gitconf_sources.specs.Metadata.{Meta};
ghost use Rattle.gitconf_state.specs.Edits.{RenameAll};
ghost use Rattle.gitconf_store.specs.Edited.{IsEdited};
ghost use Rattle.gitconf_store.specs.RenameErrors.{rename_refusal};
ghost use Rattle.gix_config.specs.Renamed.{IsRenamedOfSome};

use crate::file::{File, Metadata, rename_section};
use bstr::BString;
use gitconf_sources::lists::bytes_of;

impl File {
    /// Gives all sections of a name and subsection another name and subsection. These are the sections that have the name, without ASCII
    /// case, and exactly the subsection. They get new headers, with the name as given, and a subsection in quotes after a space. All else
    /// stays as it is, and they are found by their new names from then on.
    ///
    /// Walks over the sections of these names and over those that have the new name, by an index, and over no others. The new header
    /// is in the buffer once; memory is taken for it, for the names and for the places of the sections.
    ///
    /// # Errors
    ///
    /// E7 if no section has the name, E8 if none of these has the subsection; then E4 if a byte of the new name is not a letter, digit or
    /// dash, E5 if the new subsection has LF or NUL, and E3 if the buffer would be longer than 4294967295 bytes; E27 when out of memory.
    /// The file is then as it was.
    #[tactic(auto, using(std::proofs::lemmas::Fn::always_returns_same))]
    pub fn rename_section(
        &mut self,
        name: &str,
        subsection_name: Option<&[u8]>,
        new_name: &str,
        new_subsection_name: Option<BString>,
    ) -> Result<(), rename_section::Error>
        ensures exact { IsEdited rename_refusal (RenameAll name.now (option_copied subsection_name.entry) (λ _. true) new_name.now
            (option_map bstring_bytes new_subsection_name)) result self.old self.new }
        ensures err { OnErr result (self.new ≡ self.old) }
    {
        self.rename_section_filter(name, subsection_name, new_name, new_subsection_name, |_| {
            true
        })
    }

    /// Like [`File::rename_section`], but only for those sections whose metadata passes the filter. The filter is called for the sections
    /// of these names.
    ///
    /// # Errors
    ///
    /// Those of [`File::rename_section`]; and E9 if sections have the names and none passes, before those of the new names.
    pub fn rename_section_filter<F: FnMut(&Metadata) -> bool>(
        &mut self,
        name: &str,
        subsection_name: Option<&[u8]>,
        new_name: &str,
        new_subsection_name: Option<BString>,
        filter: F,
    ) -> Result<(), rename_section::Error>
        requires { F.IsAlwaysCallable filter }
        // For a filter whose result depends only on what it is shown.
        ensures exact { (keeps : Meta → Bool) → ComputesKey F.FnMut keeps filter
            → IsEdited rename_refusal (RenameAll name.now (option_copied subsection_name.entry) keeps new_name.now
            (option_map bstring_bytes new_subsection_name)) result self.old self.new }
        // For any filter, even one that changes its mind.
        ensures some { IsRenamedOfSome name.now (option_copied subsection_name.entry) new_name.now (option_map bstring_bytes new_subsection_name)
            result self.old self.new }
    {
        self.store.rename_section_filter(
            name,
            subsection_name,
            new_name,
            bytes_of(&new_subsection_name),
            filter,
        )
    }
}
