//! Editors of sections that are found, and of sections that are made.
use crate::file::section_mut::SectionMut;
use crate::file::{File, Metadata, Section, SectionId};
use crate::lookup::existing;
use bstr::BString;
use gitconf_body::blanks::Blanks;
use gitconf_sources::lists::bytes_of;
use gitconf_text::NoMemory;
use gitconf_text::line_end::LineEnd;
use gitconf_text::parse::section::header;
use gitconf_text::parse::section::unvalidated::KeyRef;
use gitconf_text::parse::span;
use thiserror::Error;

/// Why there is no editor.
#[derive(Debug, Drop, Error)]
pub enum Error {
    /// There are such sections, and none passes the filter; or no section has the number. It has no number of its own,
    /// and counts as E9 ([`Refusal`](crate::refusals::Refusal)).
    #[error("No section passes")]
    NonePasses,
    /// What is missing, or that an allocation failed: E7, E8, E9 and E27.
    #[error(transparent)]
    Lookup(existing::Error),
}

impl From<existing::Error> for Error {
    ghost use Rattle.std.specs.Prelude.{◌≡◌};
    ghost use Rattle.gix_config.specs.declared.file.section_mut.making.Error.TheVariants.{Lookup};

    ghost from_gives = { λ refusal e. e ≡ Lookup refusal };

    fn from(refusal: existing::Error) -> Error {
        Error::Lookup(refusal)
    }
}

impl From<NoMemory> for Error {
    ghost use Rattle.std.specs.Prelude.{◌≡◌};
    ghost use Rattle.gitconf_lookups.specs.declared.existing.Error.TheVariants.{Memory};
    ghost use Rattle.gix_config.specs.declared.file.section_mut.making.Error.TheVariants.{Lookup};

    ghost from_gives = { λ _ e. e ≡ Lookup Memory };

    fn from(_e: NoMemory) -> Error {
        Error::Lookup(existing::Error::Memory)
    }
}

impl File {
    ghost use Rattle.bstr.specs.Owned.{bstring_bytes};
    ghost use Rattle.std.specs.Borrow.{sem, RestsIfErr};
    ghost use Rattle.std.specs.Fn.{ComputesKey};
    ghost use Rattle.std.specs.Option.{option_copied, option_map};
    ghost use Rattle.std.specs.Prelude.{◌≡◌, ◌≢◌, Bool, true, IfOk, IfSome, MatchResult, None, OnErr};
    ghost use Rattle.gitconf_text.specs.SectionKeys.{parsed_section_key};
    ghost use Rattle.gitconf_sources.specs.Metadata.{Meta};
    ghost use Rattle.gitconf_state.specs.Edit.{new_section};
    ghost use Rattle.gitconf_state.specs.Edits.{NewSection, PushSection};
    ghost use Rattle.gitconf_state.specs.Editors.{editor_of};
    ghost use Rattle.gitconf_body.specs.Blanks.{editor_with};
    ghost use Rattle.gitconf_state.specs.Lookup.{listed, miss_of};
    ghost use Rattle.gitconf_lookups.specs.Misses.{IsExisting};
    ghost use Rattle.gitconf_lookups.specs.Picks.{picked};
    ghost use Rattle.gitconf_lookups.specs.SomeSections.{Filtered};
    ghost use Rattle.gix_config.specs.contracts.file.File.{the_row};
    ghost use Rattle.gitconf_store.specs.Edited.{has_number};
    ghost use Rattle.gitconf_body.specs.Done.{first_cause, IsRefusedFor};
    ghost use Rattle.gitconf_body.specs.Refusals.{header_refusal, span_refusal};
    ghost use Rattle.gitconf_store.specs.Edited.{causes, done};
    ghost use Rattle.gix_config.specs.SectionEditors.{blanks_at, edited, editor_at, lent, told, IsEditorOfKey, IsFoundOrMade, IsFoundOrMadeOf, IsOfNumber, IsPassingEditorOfKey, IsPickedOf};

    /// The number and the whitespace of the last section that has the name and subsection.
    fn blanks_by_names(
        &self,
        name: &str,
        subsection_name: Option<&[u8]>,
    ) -> Result<(SectionId, Blanks), existing::Error>
        ensures found { IsExisting (λ f. f) result
            (option_map blanks_at (picked name.now (option_copied subsection_name.entry) (λ _. true) self.now))
            (miss_of name.now (option_copied subsection_name.entry) (listed self.now)) }
        ensures stands { IfOk result (λ f. has_number f.0 self.now ≡ true) }
    {
        let (id, blanks) = match self.section(name, subsection_name) {
            Ok(section) => (section.id(), section.blanks()),
            Err(missing) => return Err(missing),
        };
        let blanks = blanks?;
        Ok((id, blanks))
    }

    /// The same for the last one whose metadata passes the filter.
    fn passing_section<F: FnMut(&Metadata) -> bool>(
        &self,
        name: &str,
        subsection_name: Option<&[u8]>,
        filter: F,
    ) -> Result<(SectionId, Blanks), Error>
        requires { F.IsAlwaysCallable filter }
        ensures filtered { Filtered (λ keeps. ComputesKey F.FnMut keeps filter)
            (λ keeps s. IsPickedOf (λ f. f) blanks_at name.now (option_copied subsection_name.entry) self.now
            (picked name.now (option_copied subsection_name.entry) keeps s) result) self.now }
        ensures stands { IfOk result (λ f. has_number f.0 self.now ≡ true) }
    {
        let (id, blanks) = match self.section_filter(name, subsection_name, filter) {
            Ok(Some(section)) => (section.id(), section.blanks()),
            Ok(None) => return Err(Error::NonePasses),
            Err(missing) => return Err(Error::Lookup(missing)),
        };
        let blanks = blanks?;
        Ok((id, blanks))
    }

    /// The number and the whitespace of the last section whose metadata passes the filter, if there is one.
    fn find_passing<F: FnMut(&Metadata) -> bool>(
        &self,
        name: &str,
        subsection_name: Option<&[u8]>,
        filter: F,
    ) -> Result<Option<(SectionId, Blanks)>, NoMemory>
        requires { F.IsAlwaysCallable filter }
        ensures filtered { Filtered (λ keeps. ComputesKey F.FnMut keeps filter)
            (λ keeps s. MatchResult result (λ found. found ≡ option_map blanks_at (picked name.now (option_copied subsection_name.entry) keeps s))
            (λ _. picked name.now (option_copied subsection_name.entry) keeps s ≢ None)) self.now }
        ensures stands { IfOk result (λ found. IfSome found (λ f. has_number f.0 self.now ≡ true)) }
    {
        let (id, blanks) = match self.section_filter(name, subsection_name, filter) {
            Ok(Some(section)) => (section.id(), section.blanks()),
            Ok(None) => return Ok(None),
            Err(_) => return Ok(None),
        };
        let blanks = blanks?;
        Ok(Some((id, blanks)))
    }

    /// The same; if there is none, a section is made.
    fn find_or_make<F: FnMut(&Metadata) -> bool>(
        &mut self,
        name: &str,
        subsection_name: Option<&[u8]>,
        filter: F,
    ) -> Result<(SectionId, Blanks), header::Error>
        requires { F.IsAlwaysCallable filter }
        ensures filtered { Filtered (λ keeps. ComputesKey F.FnMut keeps filter)
            (λ keeps s. IsFoundOrMadeOf (λ _. self.new) (λ f. f) blanks_at name.now (option_copied subsection_name.entry)
            (picked name.now (option_copied subsection_name.entry) keeps s) self.old result) self.old }
        ensures stands { IfOk result (λ f. has_number f.0 self.new ≡ true) }
        ensures err { OnErr result (self.new ≡ self.old) }
    {
        match self.find_passing(name, subsection_name, filter) {
            Ok(Some(found)) => Ok(found),
            Ok(None) => self.make_section(name, subsection_name),
            Err(_) => Err(header::Error::Memory),
        }
    }

    /// The same, without a filter.
    fn find_any_or_make(
        &mut self,
        name: &str,
        subsection_name: Option<&[u8]>,
    ) -> Result<(SectionId, Blanks), header::Error>
        ensures exact { IsFoundOrMade (λ _. self.new) (λ f. f) blanks_at name.now (option_copied subsection_name.entry) (λ _. true) self.old result }
        ensures stands { IfOk result (λ f. has_number f.0 self.new ≡ true) }
        ensures err { OnErr result (self.new ≡ self.old) }
    {
        self.find_or_make(name, subsection_name, |_| true)
    }

    /// The whitespace of the section of a number.
    fn blanks_of_numbered(&self, id: SectionId) -> Result<Blanks, Error>
        ensures found { IsOfNumber (λ blanks. (id, blanks)) blanks_at id self.now result }
        ensures stands { IfOk result (λ _. has_number id self.now ≡ true) }
    {
        let blanks = match self.store.section_by_id(id) {
            Some(section) => section.blanks(),
            None => return Err(Error::NonePasses),
        };
        Ok(blanks?)
    }

    /// An editor of the section of that number, which writes this whitespace and this line ending.
    fn editor(&mut self, id: SectionId, blanks: Blanks, line_end: LineEnd) -> SectionMut<'_>
        requires stands { has_number id self.old ≡ true }
        ensures same_file { lent result ≡ self.entry.ghost_name }
        ensures same_state { edited result ≡ self.old }
        ensures told { told result ≡ (id, editor_with blanks line_end true) }
    {
        SectionMut {
            file: self,
            id,
            blanks,
            line_end,
            ends: true,
        }
    }

    /// An editor of the last section that has the name and exactly the subsection. The name's ASCII case doesn't count. The section is
    /// found by an index; then one walk over its items, and one over the file's up to the first line ending. Takes memory for the
    /// whitespace that the section uses.
    ///
    /// # Errors
    ///
    /// E7 if no section has the name, E8 if none of these has the subsection; E27 when out of memory. The file is then as it was.
    pub fn section_mut(
        &mut self,
        name: &str,
        subsection_name: Option<&[u8]>,
    ) -> Result<SectionMut<'_>, existing::Error>
        ensures same_file { IfOk result (λ e. lent e ≡ self.entry.ghost_name) }
        ensures same_state { IfOk result (λ e. edited e ≡ self.old) }
        ensures found { IsExisting told result
            (option_map (editor_at self.old) (picked name.now (option_copied subsection_name.entry) (λ _. true) self.old))
            (miss_of name.now (option_copied subsection_name.entry) (listed self.old)) }
        ensures* refused { sem 𝓛 (RestsIfErr the_row self.entry lent result (λ n. n ≡ self.old)) }
    {
        let (id, blanks) = self.blanks_by_names(name, subsection_name)?;
        let line_end = self.line_end();
        Ok(self.editor(id, blanks, line_end))
    }

    /// Like [`File::section_mut`], but by a key such as `remote.origin`. The name is before its first dot, and all after it is the
    /// subsection; without a dot there is none.
    ///
    /// # Errors
    ///
    /// E9 if the name isn't UTF-8, and those of [`File::section_mut`].
    pub fn section_mut_by_key(
        &mut self,
        section_key: &[u8],
    ) -> Result<SectionMut<'_>, existing::Error>
        ensures same_file { IfOk result (λ e. lent e ≡ self.entry.ghost_name) }
        ensures same_state { IfOk result (λ e. edited e ≡ self.old) }
        ensures found { IsEditorOfKey (parsed_section_key section_key.now) self.old result }
        ensures* refused { sem 𝓛 (RestsIfErr the_row self.entry lent result (λ n. n ≡ self.old)) }
    {
        let Some(key) = KeyRef::parse(section_key) else {
            return Err(existing::Error::KeyMissing);
        };
        self.section_mut(key.section_name, key.subsection_name)
    }

    /// Like [`File::section_mut`], but for the last section whose metadata passes the filter. The filter is called from the last one up to
    /// that one.
    ///
    /// # Errors
    ///
    /// [`Error::NonePasses`] (E9) if there are such sections and none passes; otherwise those of [`File::section_mut`].
    pub fn section_mut_filter<F: FnMut(&Metadata) -> bool>(
        &mut self,
        name: &str,
        subsection_name: Option<&[u8]>,
        filter: F,
    ) -> Result<SectionMut<'_>, Error>
        requires { F.IsAlwaysCallable filter }
        ensures same_file { IfOk result (λ e. lent e ≡ self.entry.ghost_name) }
        ensures same_state { IfOk result (λ e. edited e ≡ self.old) }
        ensures filtered { Filtered (λ keeps. ComputesKey F.FnMut keeps filter)
            (λ keeps s. IsPickedOf told (editor_at self.old) name.now (option_copied subsection_name.entry) self.old
            (picked name.now (option_copied subsection_name.entry) keeps s) result) self.old }
        ensures* refused { sem 𝓛 (RestsIfErr the_row self.entry lent result (λ n. n ≡ self.old)) }
    {
        let (id, blanks) = self.passing_section(name, subsection_name, filter)?;
        let line_end = self.line_end();
        Ok(self.editor(id, blanks, line_end))
    }

    /// Like [`File::section_mut_filter`], but by a key as in [`File::section_mut_by_key`].
    ///
    /// # Errors
    ///
    /// E9 if the name isn't UTF-8, and those of [`File::section_mut_filter`].
    pub fn section_mut_filter_by_key<F: FnMut(&Metadata) -> bool>(
        &mut self,
        section_key: &[u8],
        filter: F,
    ) -> Result<SectionMut<'_>, Error>
        requires { F.IsAlwaysCallable filter }
        ensures same_file { IfOk result (λ e. lent e ≡ self.entry.ghost_name) }
        ensures same_state { IfOk result (λ e. edited e ≡ self.old) }
        ensures filtered { Filtered (λ keeps. ComputesKey F.FnMut keeps filter)
            (λ keeps s. IsPassingEditorOfKey (parsed_section_key section_key.now) self.old keeps s result) self.old }
        ensures* refused { sem 𝓛 (RestsIfErr the_row self.entry lent result (λ n. n ≡ self.old)) }
    {
        let Some(key) = KeyRef::parse(section_key) else {
            return Err(Error::Lookup(existing::Error::KeyMissing));
        };
        self.section_mut_filter(key.section_name, key.subsection_name, filter)
    }

    /// An editor of the section of a number. This takes no walk over sections, one over its items, and one over the file's up to the first
    /// line ending.
    ///
    /// # Errors
    ///
    /// [`Error::NonePasses`] (E9) if no section has the number; E27 when out of memory. The file is then as it was.
    pub fn section_mut_by_id(&mut self, id: SectionId) -> Result<SectionMut<'_>, Error>
        ensures same_file { IfOk result (λ e. lent e ≡ self.entry.ghost_name) }
        ensures same_state { IfOk result (λ e. edited e ≡ self.old) }
        ensures found { IsOfNumber told (editor_at self.old) id self.old result }
        ensures* refused { sem 𝓛 (RestsIfErr the_row self.entry lent result (λ n. n ≡ self.old)) }
    {
        let blanks = self.blanks_of_numbered(id)?;
        let line_end = self.line_end();
        Ok(self.editor(id, blanks, line_end))
    }

    /// Makes a section after all others, and returns an editor of it. The section's body is one line ending, the file's, and it has the
    /// file's metadata. The editor writes a tab before names and a space on both sides of `=`.
    ///
    /// Three walks over the file's items up to the first line ending. Takes memory for what is added to the buffer, for the items, and for
    /// the section's place.
    ///
    /// # Errors
    ///
    /// E4 for a name that a section can't be made of, otherwise E5 for a subsection that it can't be made of; otherwise E3 if the file
    /// would take more than 4294967295 bytes, or there is no number left; otherwise E27 when out of memory. The file is then as it was.
    pub fn new_section(
        &mut self,
        name: &str,
        subsection_name: Option<BString>,
    ) -> Result<SectionMut<'_>, header::Error>
        ensures same_file { IfOk result (λ e. lent e ≡ self.entry.ghost_name) }
        ensures made { IfOk result (λ e. edited e ≡ done (NewSection name.now (option_map bstring_bytes subsection_name)) self.old) }
        ensures editor { IfOk result (λ e. told e ≡ editor_at self.old (new_section name.now (option_map bstring_bytes subsection_name) self.old)) }
        ensures told { IsRefusedFor header_refusal (first_cause (causes (NewSection name.now (option_map bstring_bytes subsection_name)) self.old)) result }
        ensures* refused { sem 𝓛 (RestsIfErr the_row self.entry lent result (λ n. n ≡ self.old)) }
    {
        let line_end = self.line_end();
        let (id, blanks) = self.make_section(name, bytes_of(&subsection_name))?;
        Ok(self.editor(id, blanks, line_end))
    }

    /// Adds a section after all others, and returns an editor of it. The section is one that is in no file, and gets the next number. The
    /// editor writes the whitespace that the section uses, and the line ending that the file then uses. The section's header, its body and
    /// where it comes from stay.
    ///
    /// Its bytes are copied once, and its items are moved in one pass; and a walk over the file's items up to the first line ending. Takes
    /// memory for the bytes, the names, the place, and for the whitespace.
    ///
    /// # Errors
    ///
    /// A [`span::Error`]: E3 if and only if the buffer would be longer than 4294967295 bytes or no number is left, otherwise E27 when out
    /// of memory. The section is then dropped, and the file as it was.
    pub fn push_section(&mut self, section: Section) -> Result<SectionMut<'_>, span::Error>
        ensures same_file { IfOk result (λ e. lent e ≡ self.entry.ghost_name) }
        ensures put { IfOk result (λ e. edited e ≡ done (PushSection section) self.old) }
        ensures editor { IfOk result (λ e. told e ≡ (self.old.next, editor_of (edited e) section.section)) }
        ensures told { IsRefusedFor span_refusal (first_cause (causes (PushSection section) self.old)) result }
        ensures* refused { sem 𝓛 (RestsIfErr the_row self.entry lent result (λ n. n ≡ self.old)) }
    {
        let (id, blanks) = self.put_section(section)?;
        let line_end = self.line_end();
        Ok(self.editor(id, blanks, line_end))
    }

    /// Like [`File::section_mut`], but if there is no such section, one is made as by [`File::new_section`].
    ///
    /// # Errors
    ///
    /// If a section is made, those of [`File::new_section`]; otherwise E27 when out of memory. The file is then as it was.
    pub fn section_mut_or_create_new(
        &mut self,
        name: &str,
        subsection_name: Option<&[u8]>,
    ) -> Result<SectionMut<'_>, header::Error>
        ensures same_file { IfOk result (λ e. lent e ≡ self.entry.ghost_name) }
        ensures exact { IsFoundOrMade edited told (editor_at self.old) name.now (option_copied subsection_name.entry) (λ _. true) self.old result }
        ensures* refused { sem 𝓛 (RestsIfErr the_row self.entry lent result (λ n. n ≡ self.old)) }
    {
        let line_end = self.line_end();
        let (id, blanks) = self.find_any_or_make(name, subsection_name)?;
        Ok(self.editor(id, blanks, line_end))
    }

    /// Like [`File::section_mut_filter`], but if no section passes, one is made. It is made as by [`File::new_section`], whether or not the
    /// filter would pass it.
    ///
    /// # Errors
    ///
    /// Those of [`File::section_mut_or_create_new`].
    pub fn section_mut_or_create_new_filter<F: FnMut(&Metadata) -> bool>(
        &mut self,
        name: &str,
        subsection_name: Option<&[u8]>,
        filter: F,
    ) -> Result<SectionMut<'_>, header::Error>
        requires { F.IsAlwaysCallable filter }
        ensures same_file { IfOk result (λ e. lent e ≡ self.entry.ghost_name) }
        ensures filtered { Filtered (λ keeps. ComputesKey F.FnMut keeps filter)
            (λ keeps s. IsFoundOrMadeOf edited told (editor_at self.old) name.now (option_copied subsection_name.entry)
            (picked name.now (option_copied subsection_name.entry) keeps s) self.old result) self.old }
        ensures* refused { sem 𝓛 (RestsIfErr the_row self.entry lent result (λ n. n ≡ self.old)) }
    {
        let line_end = self.line_end();
        let (id, blanks) = self.find_or_make(name, subsection_name, filter)?;
        Ok(self.editor(id, blanks, line_end))
    }
}
