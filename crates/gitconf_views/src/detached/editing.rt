//! Edits of a section that is in no file, for its editor.
ghost use Rattle.std.specs.Prelude.{◌≡◌, IfOk};

use crate::detached::Section;
use crate::section::trusted;
use gitconf_body::editor::Editor;
use gitconf_body::heading::put_header;
use gitconf_body::items_edit::{ItemsEdit, edit_or_leave};
use gitconf_body::items_edits::{
    PopEntry, PushLine, PushLineBelow, PushNewline, RemoveEntry, RemoveMarkedEntries, SetEntry,
};
use gitconf_print::line_end::body_line_end;
use gitconf_sources::source::Trust;
use gitconf_text::NoMemory;
use gitconf_text::line_end::LineEnd;
use gitconf_text::parse::section::header;
use gitconf_text::parse::span;

impl Section {
    ghost use Rattle.std.specs.List.{list_all};
    ghost use Rattle.std.specs.Option.{option_copied};
    ghost use Rattle.std.specs.Prelude.{◌≡◌, ◌≤◌, ◌+◌, ◌^◌, ◌↔◌, List, true, false, IfErr, IfOk, IfSome, IsErrOf, IsOk, None, OnOk, OnErr, length, option_map};
    ghost use Rattle.gitconf_text.specs.Part as parts;
    ghost use Rattle.gitconf_state.specs.State.{is_item};
    ghost use Rattle.gitconf_text.specs.Names.{is_made_name, is_valid_or_none, is_value_name};
    ghost use Rattle.gitconf_text.specs.declared.parse.section.header.Error.TheVariants.{InvalidName, InvalidSubSection, Span};
    ghost use Rattle.gitconf_state.specs.Edit.{header_bytes, old_value};
    ghost use Rattle.gitconf_state.specs.Editors.{line_end_pushed, marked_count, popped, popped_entry, pushed, pushed_after_last, removed, removed_marked, value_set};
    ghost use Rattle.gitconf_state.specs.Edits.{renamed, with_trust, IsEditor};
    ghost use Rattle.gitconf_state.specs.LineEnds.{section_line_end};
    ghost use Rattle.gitconf_text.specs.LineEnds.{bytes_of_line_end};
    ghost use Rattle.gitconf_body.specs.Below.{below_put};
    ghost use Rattle.gitconf_body.specs.Editors.{line_put, set_put};
    ghost use Rattle.gitconf_views.specs.Alone.{alone_renamed, with_items};
    ghost use Rattle.gitconf_body.specs.Done.{heading_causes, IsDone};
    ghost use Rattle.gitconf_body.specs.Refusals.{header_refusal};
    ghost use Rattle.gitconf_body.specs.Growth.{UsedGrows};
    ghost use Rattle.gitconf_body.specs.Blanks.{given_editor, IsGiven};

    /// The line ending that its editor writes: that of its body's first newline, or LF. It stops at the first one.
    pub fn line_end(&self) -> LineEnd
        ensures { bytes_of_line_end result ≡ section_line_end self.now.section }
    {
        body_line_end(&self.buffer, &self.section.items)
    }

    /// Edits its items. All else stays as it is.
    ///
    /// # Errors
    ///
    /// Those of the edit. The section is then as it was.
    fn edit_items<E: ItemsEdit>(&mut self, edit: &E) -> Result<E::Answer, E::Error>
        requires edit { E.can_edit edit.now }
        requires keeps { (items : List parts.Item) → list_all is_item items ≡ true → list_all is_item (E.changed edit.now items) ≡ true }
        ensures ok { OnOk result (self.new.section ≡ with_items (E.changed edit.now) self.old.section) }
        ensures err { OnErr result (self.new ≡ self.old) }
        ensures tells { IfOk result (E.tells edit.now self.old.section.items) }
        ensures grows { E.grows edit.now self.old.section.items result self.old.used self.new.used }
        // What holds of every section.
        ensures items { list_all is_item self.old.section.items ≡ true }
    {
        match edit.look(&self.buffer, &self.section.items) {
            Ok(Some(found)) => {
                edit_or_leave(edit, found, &mut self.buffer, &mut self.section.items)
            }
            Ok(None) => Ok(edit.unchanged()),
            Err(refused) => Err(refused),
        }
    }

    /// Pushes a line after the items: the editor's whitespace, the key, and if a value is given `=` with the editor's whitespace around it
    /// and the value as a file spells it; then the comment, if one is given, after a space and `#`, with a space before a first byte that
    /// is not whitespace, and each LF turned to a space; then the editor's line ending, unless it is switched off. All else stays as it
    /// is.
    ///
    /// It looks at no item. Takes memory for what is added to the buffer, and for the new items.
    ///
    /// # Errors
    ///
    /// A [`span::Error`]: E3 if and only if the buffer would be longer than 4294967295 bytes, otherwise E27 when out of memory. The
    /// section is then as it was.
    pub fn push_entry(
        &mut self,
        editor: &Editor<'_>,
        key: &[u8],
        value: Option<&[u8]>,
        comment: Option<&[u8]>,
    ) -> Result<(), span::Error>
        requires given { IsGiven editor.now }
        requires editor { IsEditor (given_editor editor.now) }
        requires key { is_value_name key.now ≡ true }
        ensures ok { OnOk result (self.new.section ≡ with_items
            (pushed (given_editor editor.now) key.now (option_copied value.entry) (option_copied comment.entry)) self.old.section) }
        ensures err { OnErr result (self.new ≡ self.old) }
        ensures used { UsedGrows result (line_put editor.now key.now (option_copied value.entry) (option_copied comment.entry)) self.old.used self.new.used }
    {
        let line = PushLine {
            editor,
            key,
            value,
            comment,
        };
        self.edit_items(&line)
    }

    /// Pushes a line below that of the last entry, whatever its key. If there is no entry, the line goes below the header's line. Comments
    /// and blank lines that come after stay after it. The line is as [`Section::push_entry`] pushes it without a comment. If the line
    /// before it has no line ending, it gets the editor's one first. All else stays as it is.
    ///
    /// It walks from the end up to the last entry. Takes memory for what is added to the buffer, for the new items and for those behind them.
    ///
    /// # Errors
    ///
    /// Those of [`Section::push_entry`].
    pub fn push_entry_after_last(
        &mut self,
        editor: &Editor<'_>,
        key: &[u8],
        value: Option<&[u8]>,
    ) -> Result<(), span::Error>
        requires given { IsGiven editor.now }
        requires editor { IsEditor (given_editor editor.now) }
        requires key { is_value_name key.now ≡ true }
        ensures ok { OnOk result (self.new.section ≡ with_items
            (pushed_after_last (given_editor editor.now) key.now (option_copied value.entry)) self.old.section) }
        ensures err { OnErr result (self.new ≡ self.old) }
        ensures used { UsedGrows result (below_put editor.now key.now (option_copied value.entry) self.old.section.items) self.old.used self.new.used }
    {
        let line = PushLineBelow { editor, key, value };
        self.edit_items(&line)
    }

    /// Pushes the editor's line ending after the items. It does so even if the line ending is switched off after lines. All else stays as
    /// it is.
    ///
    /// It looks at no item. Takes memory for the line ending in the buffer, and for the new item.
    ///
    /// # Errors
    ///
    /// Those of [`Section::push_entry`].
    pub fn push_newline(&mut self, editor: &Editor<'_>) -> Result<(), span::Error>
        requires editor { IsEditor (given_editor editor.now) }
        ensures ok { OnOk result (self.new.section ≡ with_items (line_end_pushed (given_editor editor.now)) self.old.section) }
        ensures err { OnErr result (self.new ≡ self.old) }
        ensures used { UsedGrows result (length (bytes_of_line_end editor.now.line_end)) self.old.used self.new.used }
    {
        self.edit_items(&PushNewline { editor })
    }

    /// Gives the last entry of a key another value: what follows `=` is replaced, and `=` is added if there is none, with the
    /// editor's whitespace around it. If no entry has the key, a line with it is pushed, as [`Section::push_entry`] does. All else stays as
    /// it is. Returns the raw text of the old value: its pieces joined, not decoded; no bytes for an entry without `=`; `None` if there
    /// was no entry.
    ///
    /// One walk over the items. Takes memory for the old value, for what is added to the buffer, and for new items.
    ///
    /// # Errors
    ///
    /// Those of [`Section::push_entry`].
    pub fn set_entry(
        &mut self,
        editor: &Editor<'_>,
        key: &[u8],
        value: &[u8],
    ) -> Result<Option<Vec<u8>>, span::Error>
        requires given { IsGiven editor.now }
        requires editor { IsEditor (given_editor editor.now) }
        requires key { is_value_name key.now ≡ true }
        ensures ok { OnOk result (self.new.section ≡ with_items (value_set (given_editor editor.now) key.now value.now) self.old.section) }
        ensures answer { IfOk result (λ o. option_map (λ v. v.items) o ≡ old_value key.now self.old.section.items) }
        ensures err { OnErr result (self.new ≡ self.old) }
        ensures used { UsedGrows result (set_put editor.now key.now value.now self.old.section.items) self.old.used self.new.used }
    {
        self.edit_items(&SetEntry { editor, key, value })
    }

    /// Removes the last entry of a key. The blanks directly before it and the line endings directly after it go too. All else stays as it
    /// is. Returns the raw text of its value: its pieces joined, not decoded; no bytes for an entry without `=`. If no entry has the key,
    /// nothing is changed, and the result is `None`.
    ///
    /// One walk over the items. Takes memory for the result alone; no byte is added to the buffer.
    ///
    /// # Errors
    ///
    /// Out of memory, only if there is an entry. The section is then as it was.
    pub fn remove_entry(&mut self, key: &[u8]) -> Result<Option<Vec<u8>>, NoMemory>
        ensures ok { OnOk result (self.new ≡ record { section = with_items (removed key.now) self.old.section; used = self.old.used }) }
        ensures answer { IfOk result (λ o. option_map (λ v. v.items) o ≡ old_value key.now self.old.section.items) }
        ensures none { old_value key.now self.old.section.items ≡ None → IsOk result }
        ensures err { OnErr result (self.new ≡ self.old) }
    {
        self.edit_items(&RemoveEntry { key })
    }

    /// Removes the marked entries of a key: the first of its entries goes if the first mark is `true`, and so on; those behind the last
    /// mark stay. Each goes as [`Section::remove_entry`] removes one. All else stays as it is. Returns how many went.
    ///
    /// Two walks over the items, which take memory for a list of as many; no byte is added to the buffer.
    ///
    /// # Errors
    ///
    /// Out of memory. The section is then as it was.
    pub fn remove_marked_entries(&mut self, key: &[u8], marks: &[bool]) -> Result<usize, NoMemory>
        ensures ok { OnOk result (self.new ≡ record { section = with_items (removed_marked key.now marks.now) self.old.section; used = self.old.used }) }
        ensures answer { IfOk result (λ n. n ≡ marked_count key.now marks.now self.old.section.items) }
        ensures err { OnErr result (self.new ≡ self.old) }
    {
        self.edit_items(&RemoveMarkedEntries { key, marks })
    }

    /// Removes the last entry, whatever its key. The blanks directly before it and everything after it go too; if there is no
    /// entry, everything in the body goes. Returns the key as it is spelled and what its value means; no bytes for an entry without
    /// `=`; `None` if there is no entry.
    ///
    /// One walk over the items. Takes memory for the result and the raw text of the value; no byte is added to the buffer.
    ///
    /// # Errors
    ///
    /// Out of memory, only if there is an entry. The section is then as it was.
    pub fn pop_entry(&mut self) -> Result<Option<(Vec<u8>, Vec<u8>)>, NoMemory>
        ensures ok { OnOk result (self.new ≡ record { section = with_items popped self.old.section; used = self.old.used }) }
        ensures answer { IfOk result (λ o. option_map (λ t. (t.0.items, t.1.items)) o ≡ popped_entry self.old.section.items) }
        ensures none { popped_entry self.old.section.items ≡ None → IsOk result }
        ensures name { IfOk result (λ o. IfSome o (λ t. is_value_name t.0.items ≡ true)) }
        ensures err { OnErr result (self.new ≡ self.old) }
    {
        self.edit_items(&PopEntry {})
    }

    /// Gives it a header that is made of a name and a subsection. It is made as [`Section::new`] makes one. All else stays as it is.
    /// One pass over both, which takes memory for their text and for a decoded copy of a subsection that is spelled differently.
    ///
    /// # Errors
    ///
    /// `InvalidName` (E4) if a byte of the name is not a letter, digit or dash, otherwise `InvalidSubSection` (E5) if the subsection holds
    /// LF or NUL; otherwise `Span` (E3) if and only if the buffer would be longer than 4294967295 bytes, and `Memory` (E27) when out of
    /// memory. The section is then as it was.
    pub fn rename(&mut self, name: &str, subsection: Option<&[u8]>) -> Result<(), header::Error>
        ensures { IsDone (heading_causes name.now (option_copied subsection.entry) self.old.used) header_refusal result
            (alone_renamed name.now (option_copied subsection.entry) self.old) self.old self.new }
    {
        let name = name.as_bytes();
        header::validate(name, subsection)?;
        self.section.header = put_header(&mut self.buffer, &mut self.copies, name, subsection)?;
        Ok(())
    }

    /// Gives it another trust. All else stays as it is, and so does metadata that was shared with it. Takes memory for metadata of its own.
    ///
    /// # Errors
    ///
    /// Out of memory. The section is then as it was.
    pub fn set_trust(&mut self, trust: Trust) -> Result<(), NoMemory>
        ensures ok { OnOk result (self.new ≡ record { section = with_trust trust self.old.section; used = self.old.used }) }
        ensures err { OnErr result (self.new ≡ self.old) }
    {
        let alloc = *self.buffer.allocator();
        self.section.meta = trusted(alloc, &self.section.meta, trust)?;
        Ok(())
    }
}
