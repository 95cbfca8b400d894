//! Renaming sections of a store.
ghost use Rattle.std.specs.Fn.{ComputesKey};
ghost use Rattle.std.specs.List.{list_any};
ghost use Rattle.std.specs.Option.{option_copied};
ghost use Rattle.std.specs.Prelude.{◌≡◌, ◌+◌, Bool, List, map, true, IfOk, OnErr, OnOk};
ghost use Rattle.gitconf_text.specs.Names.{is_made_name, is_valid_or_none};
ghost use Rattle.gitconf_sources.specs.Metadata.{Meta};
ghost use Rattle.gitconf_state.specs.Edit.{header_bytes, is_target, with_used};
ghost use Rattle.gitconf_state.specs.Edits.{Rename, RenameAll};
ghost use Rattle.gitconf_state.specs.Lookup.{is_named, listing};
ghost use Rattle.gitconf_store.specs.Edits.{UsedGrows};
ghost use Rattle.gitconf_lookups.specs.declared.existing.Error.TheVariants.{KeyMissing};
ghost use Rattle.gitconf_store.specs.declared.rename_section.Error.TheVariants.{Lookup};
ghost use Rattle.gitconf_store.specs.Renamings.{marked_places, with_renamed, AreMarks, AreSomeRenamed, IsToldOfSome};
ghost use Rattle.gitconf_store.specs.RenameErrors.{rename_refusal};
ghost use Rattle.gitconf_store.specs.Edited.{has_number, IsEdited};
ghost use Rattle.gitconf_body.specs.Done.{checked, first_cause, heading_causes};
ghost use Rattle.gitconf_body.specs.Refusals.{header_refusal};

use crate::headings::{passing_places, set_headers};
use crate::rename_section;
use crate::store::Store;
use gitconf_body::buffer::take_back;
use gitconf_body::heading::{check_header, put_header};
use gitconf_lookups::existing;
use gitconf_sections::id::SectionId;
use gitconf_sources::meta::Metadata;
use gitconf_text::NoMemory;
use gitconf_text::parse::section::header::{Error as HeaderError, validate};
use gitconf_text::parse::span;

impl Store {
    /// Gives the sections at these places one header that is made. Everything that can fail comes before any change.
    fn put_header(
        &mut self,
        places: &[usize],
        name: &str,
        subsection_name: Option<&[u8]>,
    ) -> Result<(), span::Error>
        requires marks { (marks : List Bool) × (places.now ≡ marked_places 0 marks) × AreMarks (λ _. true) marks self.old.sections }
        requires name { is_made_name name.now ≡ true }
        requires subsection { is_valid_or_none (option_copied subsection_name) ≡ true }
        ensures ok { (marks : List Bool) → places.now ≡ marked_places 0 marks
            → OnOk result (self.new ≡ with_used self.new.used (with_renamed marks name.now (option_copied subsection_name.entry) self.old)) }
        ensures err { OnErr result (self.new ≡ self.old) }
        ensures used { UsedGrows result (header_bytes name.now (option_copied subsection_name.entry)) self.old.used self.new.used }
    {
        let len = self.buffer.len();
        let header = put_header(
            &mut self.buffer,
            &mut self.copies,
            name.as_bytes(),
            subsection_name,
        )?;
        let renamed = self
            .sections
            .rename_each(places, name.as_bytes(), subsection_name);
        take_back(renamed, &mut self.buffer, len)?;
        set_headers(&mut self.sections, places, header);
        Ok(())
    }

    /// Gives the section of a number another name and subsection. Its header is made anew: the name as given, and a subsection in quotes
    /// after a space. All else stays as it is; if no section has the number, everything does. Later lookups find it by its new names.
    ///
    /// Takes time for the bytes of the names, and for the sections that have the new name, by an index; memory for the header and the
    /// names.
    ///
    /// # Errors
    ///
    /// E4 if and only if a byte of the name is not a letter, digit or dash, otherwise E5 if and only if the subsection has LF or NUL; both
    /// also if no section has the number. Then E3 if and only if the buffer would be longer than 4294967295 bytes, before any allocation;
    /// E27 when out of memory. The file is then as it was.
    pub fn rename(
        &mut self,
        id: SectionId,
        name: &str,
        subsection_name: Option<&[u8]>,
    ) -> Result<(), HeaderError>
        ensures done { IsEdited header_refusal (Rename id name.now (option_copied subsection_name.entry)) result self.old self.new }
        ensures stands { has_number id self.old ≡ true → has_number id self.new ≡ true }
    {
        validate(name.as_bytes(), subsection_name)?;
        let Some(at) = self.sections.position(id) else {
            return Ok(());
        };
        self.put_header(&[at], name, subsection_name)?;
        Ok(())
    }

    /// Checks whether a header may be made of a name and a subsection, and added to the buffer. Takes no memory.
    fn check_header(&self, name: &str, subsection_name: Option<&[u8]>) -> Result<(), HeaderError>
        ensures { result ≡ checked header_refusal (first_cause (heading_causes name.now (option_copied subsection_name.entry) self.now.used)) }
    {
        validate(name.as_bytes(), subsection_name)?;
        check_header(&self.buffer, name.as_bytes(), subsection_name)?;
        Ok(())
    }

    /// The places of the sections of the name and subsection whose metadata passes, in file order.
    fn passing_places<F: FnMut(&Metadata) -> bool>(
        &self,
        name: &str,
        subsection_name: Option<&[u8]>,
        filter: F,
    ) -> Result<Vec<usize>, NoMemory>
        requires { F.IsAlwaysCallable filter }
        ensures some { IfOk result (λ places. (marks : List Bool) × (places.items ≡ marked_places 0 marks)
            × AreMarks (λ s. is_named name.now (option_copied subsection_name.entry) (listing s)) marks self.now.sections) }
        ensures exact { (keeps : Meta → Bool) → ComputesKey F.FnMut keeps filter
            → IfOk result (λ places. places.items ≡ marked_places 0 (map (is_target name.now (option_copied subsection_name.entry) keeps) self.now.sections)) }
        ensures refused { (keeps : Meta → Bool) → ComputesKey F.FnMut keeps filter
            → OnErr result (list_any (is_target name.now (option_copied subsection_name.entry) keeps) self.now.sections ≡ true) }
    {
        let alloc = *self.buffer.allocator();
        passing_places(alloc, &self.sections, name, subsection_name, filter)
    }

    /// `File::rename_section_filter` of `gix_config` is this call, and says what it does.
    pub fn rename_section_filter<F: FnMut(&Metadata) -> bool>(
        &mut self,
        name: &str,
        subsection_name: Option<&[u8]>,
        new_name: &str,
        new_subsection_name: Option<&[u8]>,
        filter: F,
    ) -> Result<(), rename_section::Error>
        requires { F.IsAlwaysCallable filter }
        // For a filter whose result depends only on what it is shown.
        ensures exact { (keeps : Meta → Bool) → ComputesKey F.FnMut keeps filter
            → IsEdited rename_refusal (RenameAll name.now (option_copied subsection_name.entry) keeps new_name.now (option_copied new_subsection_name.entry))
            result self.old self.new }
        // For any filter.
        ensures some { OnOk result (AreSomeRenamed name.now (option_copied subsection_name.entry) new_name.now
            (option_copied new_subsection_name.entry) self.old self.new) }
        ensures err { OnErr result (self.new ≡ self.old) }
        ensures put { OnOk result (self.new.used ≡ self.old.used + header_bytes new_name.now (option_copied new_subsection_name.entry)) }
        ensures told { IsToldOfSome name.now (option_copied subsection_name.entry) new_name.now (option_copied new_subsection_name.entry) result self.old }
    {
        self.check_named(name, subsection_name)?;
        if let Err(refusal) = self.check_header(new_name, new_subsection_name) {
            return match self.last_target(name, subsection_name, filter) {
                Some(_) => Err(rename_section::Error::from(refusal)),
                None => Err(missing()),
            };
        }
        let places = self.passing_places(name, subsection_name, filter)?;
        if places.is_empty() {
            return Err(missing());
        }
        self.put_header(&places, new_name, new_subsection_name)?;
        Ok(())
    }
}

/// The error if sections have the names, and none of them passes.
fn missing() -> rename_section::Error
    ensures { result ≡ Lookup KeyMissing }
{
    rename_section::Error::Lookup(existing::Error::KeyMissing)
}
