//! What editors need of the section of a number, and of one that is made.
use crate::file::{File, SectionId, SectionRef};
use gitconf_body::blanks::Blanks;
use gitconf_text::line_end::LineEnd;
use gitconf_text::parse::section::header;

impl File {
    ghost use Rattle.std.specs.Option.{option_copied};
    ghost use Rattle.std.specs.Prelude.{◌≡◌, [], true, IfOk, Some};
    ghost use Rattle.gitconf_state.specs.Edit.{spacing_of};
    ghost use Rattle.gitconf_state.specs.Edits.{numbered, NewSection};
    ghost use Rattle.gitconf_state.specs.LineEnds.{file_line_end};
    ghost use Rattle.gitconf_text.specs.LineEnds.{bytes_of_line_end};
    ghost use Rattle.gitconf_body.specs.Refusals.{header_refusal};
    ghost use Rattle.gitconf_views.specs.Views.{shown};
    ghost use Rattle.gitconf_store.specs.Edited.{has_number, IsEdited};

    /// The section of a number that some section has.
    pub(crate) fn section_of(&self, id: SectionId) -> SectionRef<'_>
        requires { has_number id self.now ≡ true }
        ensures { numbered id self.now ≡ Some (shown result) }
    {
        match self.store.section_by_id(id) {
            Some(section) => section,
            None => unreachable!(),
        }
    }

    /// The line ending that the file uses.
    pub(crate) fn line_end(&self) -> LineEnd
        ensures { bytes_of_line_end result ≡ file_line_end self.now }
    {
        self.store.line_end()
    }

    /// Makes a section, and returns its number and the whitespace of an editor of it. The names and the room are checked first.
    pub(crate) fn make_section(
        &mut self,
        name: &str,
        subsection_name: Option<&[u8]>,
    ) -> Result<(SectionId, Blanks), header::Error>
        ensures done { IsEdited header_refusal (NewSection name.now (option_copied subsection_name.entry)) result self.old self.new }
        ensures made { IfOk result (λ f. f ≡ (self.old.next, spacing_of [])) }
        ensures stands { IfOk result (λ f. has_number f.0 self.new ≡ true) }
    {
        self.store.check_new_section(name, subsection_name)?;
        let blanks = self.store.fresh_blanks()?;
        let id = self.store.new_section(name, subsection_name)?;
        Ok((id, blanks))
    }
}
