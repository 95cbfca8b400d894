//! Edits of the section of a number, for the editor of a section.
use crate::store::Store;
use gitconf_body::editor::Editor;
use gitconf_body::items_edits::{
    PopEntry, PushLine, PushLineBelow, PushNewline, RemoveEntry, RemoveMarkedEntries, SetEntry,
};
use gitconf_body::{take_out, value};
use gitconf_sections::id::SectionId;
use gitconf_text::NoMemory;
use gitconf_text::parse::section::ValueNameError;
use gitconf_text::parse::section::bytes::is_value_name;
use gitconf_text::parse::span;

impl Store {
    ghost use Rattle.std.specs.Option.{option_copied};
    ghost use Rattle.std.specs.Prelude.{◌≡◌, true, IfOk, IfSome, IsOk, None, OnOk, OnErr, option_map};
    ghost use Rattle.gitconf_text.specs.Names.{is_value_name};
    ghost use Rattle.gitconf_state.specs.Edits.{answer, apply, Count, Entry, IsEditor, Pop, Push, PushAfterLast, PushLineEnd, Raw, Remove, RemoveMarked, SetValue};
    ghost use Rattle.gitconf_body.specs.Blanks.{given_editor, IsGiven, PutsAround};
    ghost use Rattle.gitconf_body.specs.Refusals.{span_refusal, value_refusal};
    ghost use Rattle.gitconf_store.specs.Edited.{has_number, IsEdited};

    /// Pushes a line after the items of the section of a number: the editor's whitespace, the key, and if a value is given `=` with the
    /// editor's whitespace around it and the value as a file spells it; then the comment, if one is given, after a space and `#`, with a
    /// space before a first byte that is not whitespace, and each LF turned to a space; then the editor's line ending, unless it is
    /// switched off. All else stays as it is; if no section has the number, everything does.
    ///
    /// The section is found in constant time. Takes memory for what is added to the buffer, and for the new items.
    ///
    /// # Errors
    ///
    /// E6 for a name that no value has; otherwise E3 if and only if the buffer would be longer than 4294967295 bytes, before any
    /// allocation; E27 when out of memory. The file is then as it was.
    pub fn push_entry(
        &mut self,
        id: SectionId,
        editor: &Editor<'_>,
        key: &[u8],
        value: Option<&[u8]>,
        comment: Option<&[u8]>,
    ) -> Result<(), value::Error>
        requires given { IsGiven editor.now }
        requires puts { PutsAround editor.now }
        requires editor { IsEditor (given_editor editor.now) }
        ensures done { IsEdited value_refusal (Push id (given_editor editor.now) key.now (option_copied value.entry) (option_copied comment.entry))
            result self.old self.new }
        ensures stands { has_number id self.old ≡ true → has_number id self.new ≡ true }
    {
        if !is_value_name(key) {
            return Err(value::Error::ValueName(ValueNameError::invalid()));
        }
        let line = PushLine {
            editor,
            key,
            value,
            comment,
        };
        self.edit_items(id, &line)??;
        Ok(())
    }

    /// Pushes a line below the last entry's line in the section of a number. The entry's key may be any; if the section has no entry, the
    /// line goes below the header's line. Comments and blank lines that come after stay after it. The line is as [`Store::push_entry`]
    /// pushes it without a comment. If the line before it has no line ending, it gets the editor's one first. All else stays as it is; if
    /// no section has the number, everything does.
    ///
    /// The section is found in constant time; two walks from its end up to its last entry. Takes memory for what is added to the buffer, for
    /// the new items and for those behind them.
    ///
    /// # Errors
    ///
    /// Those of [`Store::push_entry`].
    pub fn push_entry_after_last(
        &mut self,
        id: SectionId,
        editor: &Editor<'_>,
        key: &[u8],
        value: Option<&[u8]>,
    ) -> Result<(), value::Error>
        requires given { IsGiven editor.now }
        requires puts { PutsAround editor.now }
        requires editor { IsEditor (given_editor editor.now) }
        ensures done { IsEdited value_refusal (PushAfterLast id (given_editor editor.now) key.now (option_copied value.entry)) result self.old self.new }
        ensures stands { has_number id self.old ≡ true → has_number id self.new ≡ true }
    {
        if !is_value_name(key) {
            return Err(value::Error::ValueName(ValueNameError::invalid()));
        }
        let line = PushLineBelow { editor, key, value };
        self.edit_items(id, &line)??;
        Ok(())
    }

    /// Pushes the editor's line ending after the items of the section of a number. It does so even if the line ending is switched off
    /// after lines. All else stays as it is; if no section has the number, everything does.
    ///
    /// The section is found in constant time. Takes memory for the line ending in the buffer, and for the new item.
    ///
    /// # Errors
    ///
    /// A [`span::Error`]: E3 if and only if the buffer would be longer than 4294967295 bytes, before any allocation, otherwise E27 when
    /// out of memory. The file is then as it was.
    pub fn push_newline(&mut self, id: SectionId, editor: &Editor<'_>) -> Result<(), span::Error>
        requires editor { IsEditor (given_editor editor.now) }
        ensures done { IsEdited span_refusal (PushLineEnd id (given_editor editor.now)) result self.old self.new }
        ensures stands { has_number id self.old ≡ true → has_number id self.new ≡ true }
    {
        self.edit_items(id, &PushNewline { editor })?
    }

    /// Gives the last entry of a key in the section of a number another value: what follows `=` is replaced, and `=` is added if
    /// there is none, with the editor's whitespace around it. If no entry of the section has the key, a line with it is pushed, as
    /// [`Store::push_entry`] does. All else stays as it is; if no section has the number, everything does. Returns the raw text of the old
    /// value: its pieces joined, not decoded; no bytes for an entry without `=`; `None` if there was no entry, or no section.
    ///
    /// The section is found in constant time; one walk over its items. Takes memory for the old value, for what is put into the
    /// buffer, and for new items.
    ///
    /// # Errors
    ///
    /// Those of [`Store::push_entry`].
    pub fn set_entry(
        &mut self,
        id: SectionId,
        editor: &Editor<'_>,
        key: &[u8],
        value: &[u8],
    ) -> Result<Option<Vec<u8>>, value::Error>
        requires given { IsGiven editor.now }
        requires puts { PutsAround editor.now }
        requires editor { IsEditor (given_editor editor.now) }
        ensures done { IsEdited value_refusal (SetValue id (given_editor editor.now) key.now value.now) result self.old self.new }
        ensures answer { IfOk result (λ o. Raw (option_map (λ v. v.items) o) ≡ answer (SetValue id (given_editor editor.now) key.now value.now) self.old) }
        ensures stands { has_number id self.old ≡ true → has_number id self.new ≡ true }
    {
        if !is_value_name(key) {
            return Err(value::Error::ValueName(ValueNameError::invalid()));
        }
        let old = self.edit_items(id, &SetEntry { editor, key, value })??;
        Ok(old)
    }

    /// Removes the last entry of a key in the section of a number. The blanks directly before it and the line endings directly after it
    /// go too. All else stays as it is. Returns the raw text of its value: its pieces joined, not decoded; no bytes for an entry without
    /// `=`. If the section has no entry of the key, or no section has the number, nothing is changed, and the result is `None`.
    ///
    /// The section is found in constant time; one walk over its items. Takes memory for the result alone; no byte is added to
    /// the buffer.
    ///
    /// # Errors
    ///
    /// E27 when out of memory, only if there is an entry. The file is then as it was.
    pub fn remove_entry(&mut self, id: SectionId, key: &[u8]) -> Result<Option<Vec<u8>>, NoMemory>
        ensures ok { OnOk result (self.new ≡ apply (Remove id key.now) self.old) }
        ensures answer { IfOk result (λ o. Raw (option_map (λ v. v.items) o) ≡ answer (Remove id key.now) self.old) }
        ensures none { answer (Remove id key.now) self.old ≡ Raw None → IsOk result }
        ensures err { OnErr result (self.new ≡ self.old) }
        ensures stands { has_number id self.old ≡ true → has_number id self.new ≡ true }
    {
        self.edit_items(id, &RemoveEntry { key })?
    }

    /// Removes the marked entries of a key in the section of a number: the first of its entries goes if the first mark is `true`, and so
    /// on; those behind the last mark stay. Each goes as [`Store::remove_entry`] removes one. All else stays as it is; if no section has
    /// the number, everything does. Returns how many went.
    ///
    /// The section is found in constant time; two walks over its items, which take memory for a list of as many; no byte is added to the
    /// buffer.
    ///
    /// # Errors
    ///
    /// E27 when out of memory. The file is then as it was.
    pub fn remove_marked_entries(
        &mut self,
        id: SectionId,
        key: &[u8],
        marks: &[bool],
    ) -> Result<usize, NoMemory>
        ensures ok { OnOk result (self.new ≡ apply (RemoveMarked id key.now marks.now) self.old) }
        ensures answer { IfOk result (λ n. Count n ≡ answer (RemoveMarked id key.now marks.now) self.old) }
        ensures err { OnErr result (self.new ≡ self.old) }
        ensures stands { has_number id self.old ≡ true → has_number id self.new ≡ true }
    {
        self.edit_items(id, &RemoveMarkedEntries { key, marks })?
    }

    /// Removes the last entry of the section of a number, whatever its key. The blanks directly before it and everything after it go
    /// too; if the section has no entry, everything in the body goes. Returns the key as it is spelled and what its value means; no
    /// bytes for an entry without `=`. If the section has no entry, or no section has the number, the result is `None`; in the second
    /// case nothing is changed.
    ///
    /// The section is found in constant time; one walk over its items. Takes memory for the result and the raw text of the
    /// value; no byte is added to the buffer.
    ///
    /// # Errors
    ///
    /// E27 when out of memory, only if there is an entry. The file is then as it was.
    pub fn pop_entry(&mut self, id: SectionId) -> Result<Option<(Vec<u8>, Vec<u8>)>, NoMemory>
        ensures ok { OnOk result (self.new ≡ apply (Pop id) self.old) }
        ensures answer { IfOk result (λ o. Entry (option_map (λ t. (t.0.items, t.1.items)) o) ≡ answer (Pop id) self.old) }
        ensures none { answer (Pop id) self.old ≡ Entry None → IsOk result }
        ensures name { IfOk result (λ o. IfSome o (λ t. is_value_name t.0.items ≡ true)) }
        ensures err { OnErr result (self.new ≡ self.old) }
        ensures stands { has_number id self.old ≡ true → has_number id self.new ≡ true }
    {
        let Some(at) = self.sections.position(id) else {
            return Ok(None);
        };
        let section = self.sections.at(at);
        let Some(_) = take_out::last_entry(section.items) else {
            self.sections.clear(at);
            return Ok(None);
        };
        self.edit_items(id, &PopEntry {})?
    }
}
