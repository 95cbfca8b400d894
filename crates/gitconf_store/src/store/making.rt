//! Making sections.
use crate::store::Store;
use gitconf_body::blanks::Blanks;
use gitconf_body::buffer::take_back;
use gitconf_body::section;
use gitconf_sections::id::SectionId;
use gitconf_text::NoMemory;
use gitconf_text::parse::section::header::{Error, validate};
use gitconf_text::parse::span;
use gitconf_views::section::shared;

impl Store {
    ghost use Rattle.std.specs.Option.{option_copied};
    ghost use Rattle.std.specs.Prelude.{◌≡◌, [], IfOk};
    ghost use Rattle.gitconf_state.specs.Edit.{spacing_of};
    ghost use Rattle.gitconf_state.specs.Edits.{answer, NewSection, Number};
    ghost use Rattle.gitconf_body.specs.Done.{checked, first_cause};
    ghost use Rattle.gitconf_body.specs.Refusals.{header_refusal};
    ghost use Rattle.gitconf_store.specs.Edited.{causes, IsEdited};

    /// Makes a section after all others. Its body is one line ending, the file's; it has the file's metadata. Returns its number.
    ///
    /// A walk over the file's items up to the first line ending. Takes memory for what is added to the buffer, for the items, and for the
    /// section's place.
    ///
    /// # Errors
    ///
    /// E4 for a name that a section can't be made of, otherwise E5 for a subsection that it can't be made of; E3 if the buffer would be
    /// longer than 4294967295 bytes, which is checked before any allocation, or there is no number left; E27 when out of memory. The
    /// file is then as it was.
    pub fn new_section(
        &mut self,
        name: &str,
        subsection_name: Option<&[u8]>,
    ) -> Result<SectionId, Error>
        ensures done { IsEdited header_refusal (NewSection name.now (option_copied subsection_name.entry)) result self.old self.new }
        ensures answer { IfOk result (λ id. Number id ≡ answer (NewSection name.now (option_copied subsection_name.entry)) self.old) }
    {
        validate(name.as_bytes(), subsection_name)?;
        if self.sections.numbers_left() == 0 {
            return Err(Error::Span(span::Error::too_large()));
        }
        let line_end = self.line_end();
        let len = self.buffer.len();
        let section = section::new_section(
            &mut self.buffer,
            &mut self.copies,
            line_end,
            name.as_bytes(),
            subsection_name,
        )?;
        let meta = take_back(shared(&self.meta), &mut self.buffer, len)?;
        let pushed = self.sections.push(
            name.as_bytes(),
            subsection_name,
            section.header,
            meta,
            section.items,
        );
        let id = take_back(pushed, &mut self.buffer, len)?;
        Ok(id)
    }

    /// Checks whether [`Store::new_section`] may make a section. Takes no memory; a walk over the file's items up to the first line ending.
    ///
    /// # Errors
    ///
    /// E4 and E5, each if and only if [`Store::new_section`] returns it; otherwise E3 if and only if the buffer would be longer than
    /// 4294967295 bytes or no number is left.
    pub fn check_new_section(&self, name: &str, subsection_name: Option<&[u8]>) -> Result<(), Error>
        ensures { result ≡ checked header_refusal (first_cause (causes (NewSection name.now (option_copied subsection_name.entry)) self.now)) }
    {
        validate(name.as_bytes(), subsection_name)?;
        if self.sections.numbers_left() == 0 {
            return Err(Error::Span(span::Error::too_large()));
        }
        let line_end = self.line_end();
        section::check_section(&self.buffer, line_end, name.as_bytes(), subsection_name)?;
        Ok(())
    }

    /// The blanks that an editor of a body without entries writes.
    ///
    /// # Errors
    ///
    /// E27 when out of memory.
    pub fn fresh_blanks(&self) -> Result<Blanks, NoMemory>
        ensures { IfOk result (λ blanks. blanks ≡ spacing_of []) }
    {
        Blanks::of_items(*self.buffer.allocator(), &[], &[])
    }
}
