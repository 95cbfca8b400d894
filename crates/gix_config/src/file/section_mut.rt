//! Editing one section of a file.
ghost use Rattle.std.proofs.Math.Bool.{Bool-set};
ghost use Rattle.std.specs.Prelude.{◌≡◌, true};
ghost use Rattle.gitconf_store.specs.Edited.{has_number};

mod making;
mod reading;

use crate::file::section::value;
use crate::file::{File, SectionId};
use bstr::BString;
use gitconf_body::blanks::Blanks;
use gitconf_body::popped::texts_of;
use gitconf_sources::lists::bytes_of;
use gitconf_sources::source::Trust;
use gitconf_text::NoMemory;
use gitconf_text::line_end::LineEnd;
use gitconf_text::parse::section::header;
use gitconf_text::parse::span;
pub use making::Error;

/// An editor of one section of a file. What it writes besides names and values stays as it was when the editor was made, even while the
/// section changes: the whitespace before a name, that around `=`, and the line ending, the file's.
pub struct SectionMut<'a, B: Drop = Blanks> {
    pub(super) file: &'a mut File,
    pub(super) id: SectionId,
    pub(super) blanks: B,
    pub(super) line_end: LineEnd,
    /// Whether a line ending is added after what is pushed.
    pub(super) ends: bool,
    ghost stands: { has_number id file.now ≡ true } by { Bool-set (has_number id file.now) true },
}

impl<B: Drop> Drop for SectionMut<'_, B> {
    ghost use Rattle.std.specs.Prelude.{◌≡◌};
    ghost use Rattle.gix_config.specs.SectionEditors.{edited};

    // Written by hand, so that callers know what the file is after the editor is gone.
    fn drop(self)
        ensures { self.exit.0.now ≡ edited self.entry }
    {
        let SectionMut {
            file,
            id: _,
            blanks,
            line_end: _,
            ends: _,
        } = self;
        drop(blanks);
        // The file's loan ends here.
        let _ = file;
    }
}

impl<'a> SectionMut<'a> {
    ghost use Rattle.std.specs.List.{list_all};
    ghost use Rattle.std.specs.Option.{option_copied};
    ghost use Rattle.gitconf_text.specs.Bytes.{is_whitespace};
    ghost use Rattle.std.specs.Prelude.{◌≡◌, ◌↔◌, false, true, IfOk, IfSome, IsErrAnd, IsErrOf, IsOk, None, OnErr, OnOk, Some, option_map, string_bytes};
    ghost use Rattle.bstr.specs.Owned.{bstring_bytes};
    ghost use Rattle.gitconf_text.specs.Names.{is_made_name, is_valid_or_none, is_value_name};
    ghost use Rattle.gitconf_state.specs.Edit.{with_used};
    ghost use Rattle.gitconf_state.specs.Edits.{answer, apply, Count, Entry, Pop, Push, PushAfterLast, PushLineEnd, Raw, Remove, RemoveMarked, Rename, SetTrust, SetValue};
    ghost use Rattle.gitconf_store.specs.Edited.{IsEdited};
    ghost use Rattle.gitconf_body.specs.Refusals.{header_refusal, span_refusal, value_refusal};
    ghost use Rattle.gix_config.specs.SectionEditors.{edited, editor, lent, number_of, with_leading};

    /// Pushes a line, with a comment or without one.
    fn push_line(
        &mut self,
        value_name: &str,
        value: Option<&[u8]>,
        comment: Option<&[u8]>,
    ) -> Result<(), value::Error>
        ensures same_file { lent self.new ≡ lent self.old }
        ensures same_section { number_of self.new ≡ number_of self.old }
        ensures same_editor { editor self.new ≡ editor self.old }
        ensures done { IsEdited value_refusal (Push (number_of self.old) (editor self.old) value_name.now (option_copied value.entry) (option_copied comment.entry))
            result (edited self.old) (edited self.new) }
    {
        let editor = self.blanks.editor(self.line_end, self.ends);
        let file = &mut *self.file;
        file.store
            .push_entry(self.id, &editor, value_name.as_bytes(), value, comment)
    }

    /// Pushes a line after the section's others. The line is the whitespace before a name, the name, and if a value is given `=` with the
    /// whitespace around it and the value, as a file spells it; then the line ending, unless it is switched off.
    ///
    /// Its time doesn't grow with the file or the section. Takes memory for what is added to
    /// the file's buffer, and for the new items.
    ///
    /// # Errors
    ///
    /// E6 for an invalid name; otherwise E3 if the file would take more than 4294967295 bytes, and E27 when out of memory. The file is then
    /// as it was.
    pub fn push(&mut self, value_name: &str, value: Option<&[u8]>) -> Result<(), value::Error>
        ensures same_file { lent self.new ≡ lent self.old }
        ensures same_section { number_of self.new ≡ number_of self.old }
        ensures same_editor { editor self.new ≡ editor self.old }
        ensures done { IsEdited value_refusal (Push (number_of self.old) (editor self.old) value_name.now (option_copied value.entry) None) result (edited self.old)
            (edited self.new) }
    {
        self.push_line(value_name, value, None)
    }

    /// Like [`SectionMut::push`], but with a comment after the value. This is a space, `#` and the comment, with a space before it if it
    /// doesn't begin with whitespace, and each LF turned to a space.
    ///
    /// # Errors
    ///
    /// Those of [`SectionMut::push`].
    pub fn push_with_comment(
        &mut self,
        value_name: &str,
        value: Option<&[u8]>,
        comment: &[u8],
    ) -> Result<(), value::Error>
        ensures same_file { lent self.new ≡ lent self.old }
        ensures same_section { number_of self.new ≡ number_of self.old }
        ensures same_editor { editor self.new ≡ editor self.old }
        ensures done { IsEdited value_refusal (Push (number_of self.old) (editor self.old) value_name.now (option_copied value.entry) (Some comment.now)) result (edited self.old)
            (edited self.new) }
    {
        self.push_line(value_name, value, Some(comment))
    }

    /// Pushes a line below that of the section's last entry, whatever its name. If the section has no entry, the line comes below the
    /// header's. Comments and blank lines that come after the line above it, and may introduce the next section, come after the new one
    /// too. The line is as [`SectionMut::push`] pushes it. If the line before it has no line ending, it gets the file's one first.
    ///
    /// It is where `git config` puts a new entry.
    ///
    /// Two walks from the section's end up to its last entry. Takes memory for what is added to the file's buffer, for the new items and for
    /// those behind them.
    ///
    /// # Errors
    ///
    /// Those of [`SectionMut::push`].
    pub fn push_after_last(
        &mut self,
        value_name: &str,
        value: Option<&[u8]>,
    ) -> Result<(), value::Error>
        ensures same_file { lent self.new ≡ lent self.old }
        ensures same_section { number_of self.new ≡ number_of self.old }
        ensures same_editor { editor self.new ≡ editor self.old }
        ensures done { IsEdited value_refusal (PushAfterLast (number_of self.old) (editor self.old) value_name.now (option_copied value.entry)) result (edited self.old)
            (edited self.new) }
    {
        let editor = self.blanks.editor(self.line_end, self.ends);
        let file = &mut *self.file;
        file.store
            .push_entry_after_last(self.id, &editor, value_name.as_bytes(), value)
    }

    /// Pushes the line ending, even if it is switched off after lines.
    ///
    /// # Errors
    ///
    /// E3 if the file would take more than 4294967295 bytes, and E27 when out of memory. The file is then as it was.
    pub fn push_newline(&mut self) -> Result<(), span::Error>
        ensures same_file { lent self.new ≡ lent self.old }
        ensures same_section { number_of self.new ≡ number_of self.old }
        ensures same_editor { editor self.new ≡ editor self.old }
        ensures done { IsEdited span_refusal (PushLineEnd (number_of self.old) (editor self.old)) result (edited self.old) (edited self.new) }
    {
        let editor = self.blanks.editor(self.line_end, self.ends);
        let file = &mut *self.file;
        file.store.push_newline(self.id, &editor)
    }

    /// Gives the last entry of the name another value. What follows `=` is replaced, and `=` is added if there is none, with the editor's
    /// whitespace around it. If no entry has the name, a line with it is pushed, as [`SectionMut::push`] does. Returns the raw text of the
    /// old value: its pieces joined, not decoded; no bytes for an entry without `=`; `None` if there was no entry.
    ///
    /// One walk over its items. Takes memory for the old value, for what is added
    /// to the file's buffer, and for new items.
    ///
    /// # Errors
    ///
    /// Those of [`SectionMut::push`].
    pub fn set(&mut self, value_name: &str, value: &[u8]) -> Result<Option<BString>, value::Error>
        ensures same_file { lent self.new ≡ lent self.old }
        ensures same_section { number_of self.new ≡ number_of self.old }
        ensures same_editor { editor self.new ≡ editor self.old }
        ensures done { IsEdited value_refusal (SetValue (number_of self.old) (editor self.old) value_name.now value.now) result (edited self.old)
            (edited self.new) }
        ensures answer { IfOk result (λ o. Raw (option_map bstring_bytes o)
            ≡ answer (SetValue (number_of self.old) (editor self.old) value_name.now value.now) (edited self.old)) }
    {
        let editor = self.blanks.editor(self.line_end, self.ends);
        let file = &mut *self.file;
        match file
            .store
            .set_entry(self.id, &editor, value_name.as_bytes(), value)
        {
            Ok(Some(old)) => Ok(Some(BString::new(old))),
            Ok(None) => Ok(None),
            Err(refusal) => Err(refusal),
        }
    }

    /// Removes the last entry of the name, and returns the raw text of its value. The whitespace directly before the entry and the line
    /// endings directly after it are removed, too. The raw text is as [`SectionMut::set`] returns it; `None` if there is no such entry.
    ///
    /// One walk over its items. Takes memory for the result alone.
    ///
    /// # Errors
    ///
    /// E27 when out of memory, only if there is an entry. The file is then as it was.
    pub fn remove(&mut self, value_name: &str) -> Result<Option<BString>, NoMemory>
        ensures same_file { lent self.new ≡ lent self.old }
        ensures same_section { number_of self.new ≡ number_of self.old }
        ensures same_editor { editor self.new ≡ editor self.old }
        ensures ok { OnOk result (edited self.new ≡ apply (Remove (number_of self.old) value_name.now) (edited self.old)) }
        ensures answer { IfOk result (λ o. Raw (option_map bstring_bytes o) ≡ answer (Remove (number_of self.old) value_name.now) (edited self.old)) }
        ensures none { answer (Remove (number_of self.old) value_name.now) (edited self.old) ≡ Raw None → IsOk result }
        ensures err { OnErr result (edited self.new ≡ edited self.old) }
    {
        let file = &mut *self.file;
        match file.store.remove_entry(self.id, value_name.as_bytes())? {
            Some(old) => Ok(Some(BString::new(old))),
            None => Ok(None),
        }
    }

    /// Removes the marked entries of the name. The first of its entries goes if the first mark is `true`, and so on; those behind the last
    /// mark stay, and so do all entries of other names. Each goes as [`SectionMut::remove`] removes one. Returns how many went.
    ///
    /// It is what `git config --unset-all` does, with a mark for each value that matches.
    ///
    /// Two walks over the section's items, however many go, which take memory for a list of as many.
    ///
    /// # Errors
    ///
    /// E27 when out of memory. The file is then as it was.
    pub fn remove_marked(&mut self, value_name: &str, marks: &[bool]) -> Result<usize, NoMemory>
        ensures same_file { lent self.new ≡ lent self.old }
        ensures same_section { number_of self.new ≡ number_of self.old }
        ensures same_editor { editor self.new ≡ editor self.old }
        ensures ok { OnOk result (edited self.new ≡ apply (RemoveMarked (number_of self.old) value_name.now marks.now) (edited self.old)) }
        ensures answer { IfOk result (λ n. Count n ≡ answer (RemoveMarked (number_of self.old) value_name.now marks.now) (edited self.old)) }
        ensures err { OnErr result (edited self.new ≡ edited self.old) }
    {
        let file = &mut *self.file;
        file.store
            .remove_marked_entries(self.id, value_name.as_bytes(), marks)
    }

    /// Removes the last entry, whatever its name, and everything after it. The whitespace directly before it is removed, too; if the
    /// section has no entry, everything in it is. Returns the name as it is spelled and what the value means; an empty text for an entry
    /// without `=`; `None` if there is no entry.
    ///
    /// One walk over its items. Takes memory for the result and the raw text of the value.
    ///
    /// # Errors
    ///
    /// E27 when out of memory, only if there is an entry. The file is then as it was.
    pub fn pop(&mut self) -> Result<Option<(String, BString)>, NoMemory>
        ensures same_file { lent self.new ≡ lent self.old }
        ensures same_section { number_of self.new ≡ number_of self.old }
        ensures same_editor { editor self.new ≡ editor self.old }
        ensures ok { OnOk result (edited self.new ≡ apply (Pop (number_of self.old)) (edited self.old)) }
        ensures answer { IfOk result (λ o. Entry (option_map (λ t. (string_bytes t.0, bstring_bytes t.1)) o)
            ≡ answer (Pop (number_of self.old)) (edited self.old)) }
        ensures none { answer (Pop (number_of self.old)) (edited self.old) ≡ Entry None → IsOk result }
        ensures err { OnErr result (edited self.new ≡ edited self.old) }
    {
        let file = &mut *self.file;
        let popped = file.store.pop_entry(self.id)?;
        Ok(texts_of(popped))
    }

    /// Gives the section another name and subsection, with a header that is made. The header has the name as given, and a subsection in
    /// quotes after a space. All else stays as it is, and later lookups find the section by its new names.
    ///
    /// Takes time for the bytes of the names, and for the sections that have the new name, by an index; memory for the header and the
    /// names.
    ///
    /// # Errors
    ///
    /// E4 if a byte of the name is not a letter, digit or dash, otherwise E5 if the subsection has LF or NUL; then E3 if the file would
    /// take more than 4294967295 bytes, and E27 when out of memory. The file is then as it was.
    pub fn rename(
        &mut self,
        name: &str,
        subsection_name: Option<BString>,
    ) -> Result<(), header::Error>
        ensures same_file { lent self.new ≡ lent self.old }
        ensures same_section { number_of self.new ≡ number_of self.old }
        ensures same_editor { editor self.new ≡ editor self.old }
        ensures done { IsEdited header_refusal (Rename (number_of self.old) name.now (option_map bstring_bytes subsection_name)) result (edited self.old)
            (edited self.new) }
    {
        let file = &mut *self.file;
        file.store.rename(self.id, name, bytes_of(&subsection_name))
    }

    /// Sets how far the section is trusted. If it shared its metadata with others, it has its own from then on. Takes memory for that.
    ///
    /// # Errors
    ///
    /// E27 when out of memory. The file is then as it was.
    pub fn set_trust(&mut self, trust: Trust) -> Result<(), NoMemory>
        ensures same_file { lent self.new ≡ lent self.old }
        ensures same_section { number_of self.new ≡ number_of self.old }
        ensures same_editor { editor self.new ≡ editor self.old }
        ensures ok { OnOk result (edited self.new ≡ apply (SetTrust (number_of self.old) trust) (edited self.old)) }
        ensures err { OnErr result (edited self.new ≡ edited self.old) }
    {
        let file = &mut *self.file;
        file.store.set_trust(self.id, trust)
    }

    /// Sets other whitespace before names, or none. Only whitespace may be given ([`is_whitespace`](crate::file::is_whitespace)).
    ///
    /// # Errors
    ///
    /// E27 when out of memory. The editor is then as it was.
    pub fn set_leading_whitespace(&mut self, whitespace: Option<BString>) -> Result<(), NoMemory>
        requires { IfSome whitespace (λ run. list_all is_whitespace (bstring_bytes run) ≡ true) }
        ensures same_file { lent self.new ≡ lent self.old }
        ensures same_state { edited self.new ≡ edited self.old }
        ensures same_section { number_of self.new ≡ number_of self.old }
        ensures ok { OnOk result (editor self.new ≡ with_leading (option_map bstring_bytes whitespace) (editor self.old)) }
        ensures err { OnErr result (editor self.new ≡ editor self.old) }
    {
        self.blanks.set_leading(bytes_of(&whitespace))
    }

    /// Sets whether a line ending is added after what is pushed from now on. It is, unless this is set to `false`.
    pub fn set_implicit_newline(&mut self, on: bool) -> &mut Self
        ensures same { result.ghost_name ≡ self.entry.ghost_name }
        ensures same_file { lent result.now ≡ lent self.old }
        ensures same_state { edited result.now ≡ edited self.old }
        ensures same_section { number_of result.now ≡ number_of self.old }
        ensures editor { editor result.now ≡ record (editor self.old) { ends = on } }
    {
        self.ends = on;
        self
    }
}
