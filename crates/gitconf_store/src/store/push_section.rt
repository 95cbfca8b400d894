//! Sections added after those of a store.
ghost use Rattle.std.specs.Prelude.{◌≡◌, ◌⊎◌, ◌↔◌, ◌+◌, ◌≤◌, ◌^◌, IfErr, IfOk, IsErrOf};
ghost use Rattle.gitconf_text.specs.Sections.{no_number};
ghost use Rattle.gitconf_state.specs.Edits.{Number, PushSection, answer};
ghost use Rattle.gitconf_body.specs.Refusals.{span_refusal};
ghost use Rattle.gitconf_store.specs.Edited.{IsEdited};

use crate::store::Store;
use crate::store::append::put_text;
use gitconf_body::buffer::{check_room, take_back};
use gitconf_items::moving::moved_header;
use gitconf_sections::id::SectionId;
use gitconf_text::parse::span;
use gitconf_views::detached;
use gitconf_views::shifted_sections::{move_list, put_last};

impl Store {
    /// Checks whether [`Store::push_section`] may add the section after the others. Takes no memory.
    ///
    /// # Errors
    ///
    /// A [`span::Error`] (E3) if and only if [`Store::push_section`] returns it.
    pub fn check_pushed(&self, section: &detached::Section) -> Result<(), span::Error>
        ensures too_large { IsErrOf result 3 ↔ ((2 ^ 32 ≤ self.now.used + section.now.used) ⊎ (self.now.next ≡ no_number)) }
        ensures known { IfErr result (λ e. e ≡ 3) }
    {
        if self.sections.numbers_left() == 0 {
            return Err(span::Error::too_large());
        }
        check_room(&self.buffer, section.buffer.len())
    }

    /// Adds a section that is in no file after all others. It gets the next number, which is returned. Its header, its body and where
    /// it comes from stay. Its bytes are added to the buffer, and its spans are moved in one pass.
    ///
    /// Takes memory for the bytes, for the names, and constant memory on average for its place.
    ///
    /// # Errors
    ///
    /// A [`span::Error`]: E3 if and only if the buffer would be longer than 4294967295 bytes or no number is left, before any
    /// allocation, otherwise E27 when out of memory. The section is then dropped, and the file as it was.
    pub fn push_section(&mut self, section: detached::Section) -> Result<SectionId, span::Error>
        ensures done { IsEdited span_refusal (PushSection section) result self.old self.new }
        ensures answer { IfOk result (λ id. Number id ≡ answer (PushSection section) self.old) }
    {
        self.check_pushed(&section)?;
        let len = self.buffer.len();
        let by = len as u32;
        let text = put_text(
            &mut self.buffer,
            &mut self.copies,
            &section.buffer,
            &section.copies,
        );
        let copies_by = take_back(text, &mut self.buffer, len)?;
        let detached::Section {
            buffer: _,
            copies: _,
            id: _,
            section,
        } = section;
        let header = moved_header(section.header, by, copies_by);
        let mut items = section.items;
        move_list(&mut items, by);
        let put = put_last(
            &self.buffer,
            &self.copies,
            &mut self.sections,
            header,
            section.meta,
            items,
        );
        let id = take_back(put, &mut self.buffer, len)?;
        Ok(id)
    }
}
