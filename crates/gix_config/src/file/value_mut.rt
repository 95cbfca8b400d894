//! Editing the value of one entry of a file.
ghost use Rattle.std.proofs.Math.Bool.{Bool-set};
ghost use Rattle.std.specs.Prelude.{◌≡◌, true};
ghost use Rattle.gitconf_store.specs.Edited.{has_number};

mod edited;
mod making;
pub mod spelling;

use crate::file::section_mut::SectionMut;
use crate::file::{File, SectionId, SectionRef};
use crate::lookup::existing;
use bstr::BString;
use gitconf_body::value_at::InPlaceOf;
use gitconf_text::line_end::LineEnd;
use gitconf_text::parse::span;
use spelling::Spelling;

/// An editor of the value of one entry of a file. It has the entry's place in its section. What it writes besides the value stays as
/// it was when the editor was made: the name, as the caller spelled it, and the whitespace around `=`, that of the section.
pub struct ValueMut<'a, S: Drop = Spelling> {
    file: &'a mut File,
    id: SectionId,
    place: usize,
    /// Whether the entry is at its place, and wasn't deleted.
    stands: bool,
    spelling: S,
    line_end: LineEnd,
    ghost there: { has_number id file.now ≡ true } by { Bool-set (has_number id file.now) true },
}

impl<S: Drop> Drop for ValueMut<'_, S> {
    ghost use Rattle.std.specs.Prelude.{◌≡◌};
    ghost use Rattle.gix_config.specs.ValueEditors.{edited};

    // Written by hand, so that callers know what the file is after the editor is gone.
    fn drop(self)
        ensures { self.exit.0.now ≡ edited self.entry }
    {
        let ValueMut {
            file,
            id: _,
            place: _,
            stands: _,
            spelling,
            line_end: _,
        } = self;
        drop(spelling);
        // The file's loan ends here.
        let _ = file;
    }
}

impl<'a> ValueMut<'a> {
    ghost use Rattle.std.specs.Prelude.{◌≡◌, false, true, OnErr, OnOk, Some};
    ghost use Rattle.bstr.specs.Owned.{bstring_bytes};
    ghost use Rattle.gitconf_state.specs.Edits.{numbered, IsEditor};
    ghost use Rattle.gitconf_text.specs.Names.{is_value_name};
    ghost use Rattle.gitconf_state.specs.Lookup.{KeyMissing};
    ghost use Rattle.gitconf_lookups.specs.Misses.{IsExisting};
    ghost use Rattle.gitconf_views.specs.Views.{shown};
    ghost use Rattle.gitconf_body.specs.Refusals.{span_refusal};
    ghost use Rattle.gitconf_store.specs.Edited.{IsEdited};
    ghost use Rattle.gix_config.specs.SectionEditors as sections;
    ghost use Rattle.gix_config.specs.ValueEditors.{edited, editor, key_of, lent, meaning_of, place_of, stands_there, without_entry, writing};

    /// What the value means; no bytes if the entry has no `=`.
    ///
    /// # Errors
    ///
    /// E9 if the entry was deleted; E27 when out of memory for the result.
    pub fn get(&self) -> Result<BString, existing::Error>
        ensures { IsExisting bstring_bytes result (meaning_of self.now) KeyMissing }
    {
        if !self.stands {
            return Err(existing::Error::KeyMissing);
        }
        let file = &*self.file;
        match file.store.meaning_at(self.id, self.place) {
            Ok(Some(text)) => Ok(text),
            Ok(None) => Err(existing::Error::KeyMissing),
            Err(_) => Err(existing::Error::Memory),
        }
    }

    /// Gives the entry another value. It is rewritten, with the name as the caller spelled it, `=` with the whitespace around it, and the
    /// value as a file spells it. If the old value ended in an empty last piece and a comment comes next, apart from whitespace, the last
    /// line ending of the old value stays before it. An entry that was deleted is written at its place.
    ///
    /// Its time doesn't grow with the file. Takes memory for what is added to the file's buffer, and for at most one more item.
    ///
    /// # Errors
    ///
    /// E3 if the file would take more than 4294967295 bytes, and E27 when out of memory. The file is then as it was.
    pub fn set(&mut self, value: &[u8]) -> Result<(), span::Error>
        ensures same_file { lent self.new ≡ lent self.old }
        ensures same_place { place_of self.new ≡ place_of self.old }
        ensures same_key { key_of self.new ≡ key_of self.old }
        ensures same_editor { editor self.new ≡ editor self.old }
        ensures done { IsEdited span_refusal (writing self.old value.now) result (edited self.old) (edited self.new) }
        ensures stands { OnOk result (stands_there self.new ≡ true) }
        ensures err { OnErr result (stands_there self.new ≡ stands_there self.old) }
    {
        let in_place_of = if self.stands {
            InPlaceOf::EntryButLineEnd
        } else {
            InPlaceOf::Nothing
        };
        let editor = self.spelling.editor(self.line_end);
        let file = &mut *self.file;
        file.store.write_entry_at(
            self.id,
            &editor,
            self.place,
            in_place_of,
            self.spelling.key(),
            value,
        )?;
        self.stands = true;
        Ok(())
    }

    /// Like [`ValueMut::set`], but with the bytes of a text.
    ///
    /// # Errors
    ///
    /// Those of [`ValueMut::set`].
    pub fn set_string(&mut self, value: &str) -> Result<(), span::Error>
        ensures same_file { lent self.new ≡ lent self.old }
        ensures same_place { place_of self.new ≡ place_of self.old }
        ensures same_key { key_of self.new ≡ key_of self.old }
        ensures same_editor { editor self.new ≡ editor self.old }
        ensures done { IsEdited span_refusal (writing self.old value.now) result (edited self.old) (edited self.new) }
        ensures stands { OnOk result (stands_there self.new ≡ true) }
        ensures err { OnErr result (stands_there self.new ≡ stands_there self.old) }
    {
        self.set(value.as_bytes())
    }

    /// Deletes the entry, if it is there. This removes its name, `=` and value, and the whitespace between them. What is around it stays,
    /// even the whitespace before its name and the line ending after its value. It can't fail, and takes no memory.
    pub fn delete(&mut self)
        ensures same_file { lent self.new ≡ lent self.old }
        ensures same_place { place_of self.new ≡ place_of self.old }
        ensures same_key { key_of self.new ≡ key_of self.old }
        ensures same_editor { editor self.new ≡ editor self.old }
        ensures deleted { edited self.new ≡ without_entry self.old }
        ensures stands { stands_there self.new ≡ false }
    {
        if self.stands {
            let file = &mut *self.file;
            file.store.delete_entry_at(self.id, self.place);
            self.stands = false;
        }
    }

    /// The section as it now is. The name that the editor writes is that of a value, and what it writes besides may be in a text, whoever made
    /// it. Constant time, and no memory.
    pub fn section(&self) -> SectionRef<'_>
        ensures section { numbered (place_of self.now).0 (edited self.now) ≡ Some (shown result) }
        ensures key { is_value_name (key_of self.now) ≡ true }
        ensures editor { IsEditor (editor self.now) }
    {
        // For what their contracts say of the name and of the whitespace.
        let _ = self.spelling.key();
        let _ = self.spelling.editor(self.line_end);
        self.file.section_of(self.id)
    }

    /// An editor of the section. It writes the whitespace that the section used, and the file's line ending, as they were when this editor
    /// was made.
    pub fn into_section_mut(self) -> SectionMut<'a>
        ensures same_file { sections.lent result ≡ lent self.entry }
        ensures same_state { sections.edited result ≡ edited self.entry }
        ensures same_section { sections.number_of result ≡ (place_of self.entry).0 }
        ensures same_editor { sections.editor result ≡ editor self.entry }
    {
        let ValueMut {
            file,
            id,
            place: _,
            stands: _,
            spelling,
            line_end,
        } = self;
        SectionMut {
            file,
            id,
            blanks: spelling.into_blanks(),
            line_end,
            ends: true,
        }
    }
}
