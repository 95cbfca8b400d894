//! Sections and files put into a file.
ghost use Rattle.std.specs.Prelude.{◌≡◌, true, IfOk};
ghost use Rattle.gitconf_state.specs.Edit.{spacing_of};
ghost use Rattle.gitconf_state.specs.Edits.{Append, PushSection};
ghost use Rattle.gitconf_body.specs.Refusals.{span_refusal};
ghost use Rattle.gitconf_store.specs.Edited.{has_number, IsEdited};

use crate::file::{File, Section, SectionId};
use gitconf_body::blanks::Blanks;
use gitconf_text::parse::span;

impl File {
    /// Adds a section that is in no file after all others, and returns its number and the whitespace of an editor of it. What may be
    /// refused by number 3 is checked first.
    pub(crate) fn put_section(
        &mut self,
        section: Section,
    ) -> Result<(SectionId, Blanks), span::Error>
        ensures done { IsEdited span_refusal (PushSection section) result self.old self.new }
        ensures told { IfOk result (λ f. f ≡ (self.old.next, spacing_of section.section.items)) }
        ensures stands { IfOk result (λ f. has_number f.0 self.new ≡ true) }
    {
        self.store.check_pushed(&section)?;
        let blanks = section.to_ref().blanks()?;
        let id = self.store.push_section(section)?;
        Ok((id, blanks))
    }

    /// Adds the sections of another file after all others, in their order. They are under the next numbers, and each keeps where it comes
    /// from. What comes before the other's first section is held after our last section, or joins what comes before our first if we have
    /// none; a line ending goes between if there is something that doesn't end with one, and what comes doesn't begin with one.
    ///
    /// The other's bytes are copied once, and its parts are moved in one pass: the time is linear in the other file, except for a walk up to
    /// our first line ending. Takes memory for the bytes, the names and the places.
    ///
    /// # Errors
    ///
    /// A [`span::Error`]: E3 if and only if the buffer would be longer than 4294967295 bytes or fewer numbers are left than the other has
    /// sections, otherwise E27 when out of memory. The other is then dropped, and the file as it was.
    pub fn append(&mut self, other: File) -> Result<(), span::Error>
        ensures { IsEdited span_refusal (Append other) result self.old self.new }
    {
        self.store.append(other.store)
    }
}
