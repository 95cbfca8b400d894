//! The editor of a section that is in no file.
use crate::detached::Section;
use crate::detached::writing::text_of;
use bstr::BString;
use gitconf_body::blanks::Blanks;
use gitconf_body::popped::texts_of;
use gitconf_body::value;
use gitconf_sources::lists::bytes_of;
use gitconf_sources::source::Trust;
use gitconf_text::NoMemory;
use gitconf_text::line_end::LineEnd;
use gitconf_text::parse::section::header;
use gitconf_text::parse::span;

/// An editor of a section that is in no file. What it writes besides names and values stays as it was when the editor was made, even
/// while the section changes: the whitespace before a name, that around `=`, and the line ending, that of the section's first newline, or
/// LF.
pub struct DetachedSectionMut<'a, B: Drop = Blanks> {
    /// The section that is edited.
    pub section: &'a mut Section,
    /// The blanks that it writes.
    pub blanks: B,
    /// The line ending that it writes.
    pub line_end: LineEnd,
    /// Whether a line ending is added after what is pushed.
    ends: bool,
}

impl<B: Drop> Drop for DetachedSectionMut<'_, B> {
    ghost use Rattle.std.specs.Prelude.{◌≡◌};
    ghost use Rattle.gitconf_views.specs.AloneEditors.{edited};

    // Written by hand, so that callers know what the section is after the editor is gone.
    fn drop(self)
        ensures { self.exit.0.now ≡ edited self.entry }
    {
        let DetachedSectionMut {
            section,
            blanks,
            line_end: _,
            ends: _,
        } = self;
        drop(blanks);
        // The section's loan ends here.
        let _ = section;
    }
}

impl Section {
    ghost use Rattle.std.specs.Borrow.{sem, RestsIfErr};
    ghost use Rattle.std.specs.Prelude.{◌≡◌, IfOk};
    ghost use Rattle.gitconf_state.specs.Editors.{editor_alone};
    ghost use Rattle.gitconf_views.specs.contracts.detached.Section.{the_row};
    ghost use Rattle.gitconf_views.specs.AloneEditors.{edited, editor, lent};

    /// An editor of it. One walk over its items, which takes memory for the whitespace that it uses.
    ///
    /// # Errors
    ///
    /// Out of memory. The section is then as it was.
    pub fn to_mut(&mut self) -> Result<DetachedSectionMut<'_>, NoMemory>
        ensures same_section { IfOk result (λ e. lent e ≡ self.entry.ghost_name) }
        ensures same_state { IfOk result (λ e. edited e ≡ self.old) }
        ensures editor { IfOk result (λ e. editor e ≡ editor_alone self.old.section) }
        ensures* refused { sem 𝓛 (RestsIfErr the_row self.entry lent result (λ n. n ≡ self.old)) }
    {
        let blanks = self.to_ref().blanks()?;
        let line_end = self.line_end();
        Ok(DetachedSectionMut {
            section: self,
            blanks,
            line_end,
            ends: true,
        })
    }
}

impl<'a> DetachedSectionMut<'a> {
    ghost use Rattle.std.specs.Option.{option_copied};
    ghost use Rattle.std.specs.Prelude.{◌≡◌, ◌↔◌, ◌+◌, ◌≤◌, ◌^◌, true, false, length, IfErr, IfOk, IfSome, IsErrOf, IsOk, None, OnErr, OnOk, Some, option_map, string_bytes};
    ghost use Rattle.bstr.specs.Owned.{bstring_bytes};
    ghost use Rattle.std.specs.List.{list_all};
    ghost use Rattle.gitconf_text.specs.Bytes.{is_whitespace};
    ghost use Rattle.gitconf_text.specs.Names.{is_made_name, is_valid_or_none, is_value_name};
    ghost use Rattle.gitconf_text.specs.declared.parse.section.header.Error.TheVariants.{InvalidName, InvalidSubSection, Span};
    ghost use Rattle.gitconf_state.specs.Edit.{header_bytes, old_value};
    ghost use Rattle.gitconf_state.specs.Editors.{line_end_pushed, marked_count, popped, popped_entry, pushed, pushed_after_last, removed, removed_marked, value_set};
    ghost use Rattle.gitconf_state.specs.Edits.{renamed, with_trust};
    ghost use Rattle.gitconf_body.specs.Puts.{after_last_bytes, line_bytes, value_set_bytes};
    ghost use Rattle.gitconf_views.specs.Alone.{changed_alone, alone_renamed, with_items, IsEditedAlone};
    ghost use Rattle.gitconf_views.specs.AloneEditors.{edited, editor, lent};
    ghost use Rattle.gitconf_body.specs.Done.{heading_causes, room_causes, IsDone};
    ghost use Rattle.gitconf_body.specs.Refusals.{header_refusal, span_refusal};

    /// Pushes a line after the section's others: the whitespace before a name, the name, and if a value is given `=` with the whitespace
    /// around it and the value, as a file spells it; then the line ending, unless it is switched off. It looks at no item. Takes memory for
    /// what is added to the section's buffer, and for the new items.
    ///
    /// # Errors
    ///
    /// E6 if and only if the name is invalid; otherwise E3 if and only if the section's buffer would be longer than 4294967295 bytes, and
    /// E27 when out of memory. The section is then as it was.
    pub fn push(&mut self, value_name: &str, value: Option<&[u8]>) -> Result<(), value::Error>
        ensures same_section { lent self.new ≡ lent self.old }
        ensures same_editor { editor self.new ≡ editor self.old }
        ensures done { IsEditedAlone (pushed (editor self.old) value_name.now (option_copied value.entry) None) value_name.now
            (line_bytes (editor self.old) value_name.now (option_copied value.entry) None) result (edited self.old) (edited self.new) }
    {
        let editor = self.blanks.editor(self.line_end, self.ends);
        self.section.push_line(&editor, value_name, value, None)
    }

    /// Like [`DetachedSectionMut::push`], but with a comment after the value: a space, `#` and the comment, with a space before it if it
    /// doesn't begin with white space, and each LF turned to a space.
    ///
    /// # Errors
    ///
    /// Those of [`DetachedSectionMut::push`].
    pub fn push_with_comment(
        &mut self,
        value_name: &str,
        value: Option<&[u8]>,
        comment: &[u8],
    ) -> Result<(), value::Error>
        ensures same_section { lent self.new ≡ lent self.old }
        ensures same_editor { editor self.new ≡ editor self.old }
        ensures done { IsEditedAlone (pushed (editor self.old) value_name.now (option_copied value.entry) (Some comment.now)) value_name.now
            (line_bytes (editor self.old) value_name.now (option_copied value.entry) (Some comment.now)) result (edited self.old)
            (edited self.new) }
    {
        let editor = self.blanks.editor(self.line_end, self.ends);
        self.section
            .push_line(&editor, value_name, value, Some(comment))
    }

    /// Pushes a line below that of the section's last entry, whatever its name. If the section has no entry, the line goes below the
    /// header's line. Comments and blank lines that come after it come after the new one too. The line is as [`DetachedSectionMut::push`]
    /// pushes it. If the line before it has no line ending, it gets the editor's one first. It walks from the end up to the last entry.
    /// Takes memory for what is added to the section's buffer, for the new items and for those behind them.
    ///
    /// # Errors
    ///
    /// Those of [`DetachedSectionMut::push`].
    pub fn push_after_last(
        &mut self,
        value_name: &str,
        value: Option<&[u8]>,
    ) -> Result<(), value::Error>
        ensures same_section { lent self.new ≡ lent self.old }
        ensures same_editor { editor self.new ≡ editor self.old }
        ensures done { IsEditedAlone (pushed_after_last (editor self.old) value_name.now (option_copied value.entry)) value_name.now
            (after_last_bytes (editor self.old) value_name.now (option_copied value.entry) (edited self.old).section.items) result
            (edited self.old) (edited self.new) }
    {
        let editor = self.blanks.editor(self.line_end, self.ends);
        self.section
            .push_line_after_last(&editor, value_name, value)
    }

    /// Pushes the line ending, even if it is switched off after lines.
    ///
    /// # Errors
    ///
    /// E3 if and only if the section's buffer would be longer than 4294967295 bytes, and E27 when out of memory. The section is then as it
    /// was.
    pub fn push_newline(&mut self) -> Result<(), span::Error>
        ensures same_section { lent self.new ≡ lent self.old }
        ensures same_editor { editor self.new ≡ editor self.old }
        ensures done { IsDone (room_causes (edited self.old).used (length (editor self.old).line_end)) span_refusal result
            (changed_alone (line_end_pushed (editor self.old)) (length (editor self.old).line_end) (edited self.old)) (edited self.old) (edited self.new) }
    {
        let editor = self.blanks.editor(self.line_end, self.ends);
        self.section.push_line_end(&editor)
    }

    /// Gives the last entry of the name another value: what follows `=` is replaced, and `=` is added if there is none, with the
    /// editor's whitespace around it. If no entry has the name, a line with it is pushed, as [`DetachedSectionMut::push`] does. Returns the
    /// raw text of the old value: its pieces joined, not decoded; no bytes for an entry without `=`; `None` if there was no entry. One
    /// walk over the items. Takes memory for the old value, for what is added to the section's buffer, and for new items.
    ///
    /// # Errors
    ///
    /// Those of [`DetachedSectionMut::push`].
    pub fn set(&mut self, value_name: &str, value: &[u8]) -> Result<Option<BString>, value::Error>
        ensures same_section { lent self.new ≡ lent self.old }
        ensures same_editor { editor self.new ≡ editor self.old }
        ensures done { IsEditedAlone (value_set (editor self.old) value_name.now value.now) value_name.now
            (value_set_bytes (editor self.old) value_name.now value.now (edited self.old).section.items) result (edited self.old)
            (edited self.new) }
        ensures answer { IfOk result (λ o. option_map bstring_bytes o ≡ old_value value_name.now (edited self.old).section.items) }
    {
        let editor = self.blanks.editor(self.line_end, self.ends);
        self.section.set_line(&editor, value_name, value)
    }

    /// Removes the last entry of the name. The blanks directly before it and the line endings directly after it go too. Returns the raw
    /// text of its value, as [`DetachedSectionMut::set`] does; `None` if there is no such entry. One walk over the items. Takes memory for
    /// the result alone.
    ///
    /// # Errors
    ///
    /// Out of memory, only if there is an entry. The section is then as it was.
    pub fn remove(&mut self, value_name: &str) -> Result<Option<BString>, NoMemory>
        ensures same_section { lent self.new ≡ lent self.old }
        ensures same_editor { editor self.new ≡ editor self.old }
        ensures ok { OnOk result (edited self.new ≡ record {
          section = with_items (removed value_name.now) (edited self.old).section;
          used = (edited self.old).used;
        }) }
        ensures answer { IfOk result (λ o. option_map bstring_bytes o ≡ old_value value_name.now (edited self.old).section.items) }
        ensures none { old_value value_name.now (edited self.old).section.items ≡ None → IsOk result }
        ensures err { OnErr result (edited self.new ≡ edited self.old) }
    {
        let old = self.section.remove_entry(value_name.as_bytes())?;
        Ok(text_of(old))
    }

    /// Removes the marked entries of the name: the first of its entries goes if the first mark is `true`, and so on; those behind the last
    /// mark stay. Each goes as [`DetachedSectionMut::remove`] removes one. Returns how many went. Two walks over the items, which take
    /// memory for a list of as many.
    ///
    /// # Errors
    ///
    /// Out of memory. The section is then as it was.
    pub fn remove_marked(&mut self, value_name: &str, marks: &[bool]) -> Result<usize, NoMemory>
        ensures same_section { lent self.new ≡ lent self.old }
        ensures same_editor { editor self.new ≡ editor self.old }
        ensures ok { OnOk result (edited self.new ≡ record {
          section = with_items (removed_marked value_name.now marks.now) (edited self.old).section;
          used = (edited self.old).used;
        }) }
        ensures answer { IfOk result (λ n. n ≡ marked_count value_name.now marks.now (edited self.old).section.items) }
        ensures err { OnErr result (edited self.new ≡ edited self.old) }
    {
        self.section
            .remove_marked_entries(value_name.as_bytes(), marks)
    }

    /// Removes the last entry, whatever its name. The blanks directly before it and everything after it go too; if there is no entry,
    /// everything in the body goes. Returns the name as it is spelled and what the value means; an empty text for an entry without
    /// `=`; `None` if there is no entry. One walk over the items. Takes memory for the result and the raw text of the value.
    ///
    /// # Errors
    ///
    /// Out of memory, only if there is an entry. The section is then as it was.
    pub fn pop(&mut self) -> Result<Option<(String, BString)>, NoMemory>
        ensures same_section { lent self.new ≡ lent self.old }
        ensures same_editor { editor self.new ≡ editor self.old }
        ensures ok { OnOk result (edited self.new ≡ record { section = with_items popped (edited self.old).section; used = (edited self.old).used }) }
        ensures answer { IfOk result (λ o. option_map (λ t. (string_bytes t.0, bstring_bytes t.1)) o ≡ popped_entry (edited self.old).section.items) }
        ensures none { popped_entry (edited self.old).section.items ≡ None → IsOk result }
        ensures err { OnErr result (edited self.new ≡ edited self.old) }
    {
        let popped = self.section.pop_entry()?;
        Ok(texts_of(popped))
    }

    /// Sets whether a line ending is added after what is pushed from now on. It is, unless this is set to `false`.
    pub fn set_implicit_newline(&mut self, on: bool) -> &mut Self
        ensures same { result.ghost_name ≡ self.entry.ghost_name }
        ensures same_section { lent result.now ≡ lent self.old }
        ensures same_state { edited result.now ≡ edited self.old }
        ensures editor { editor result.now ≡ record (editor self.old) { ends = on } }
    {
        self.ends = on;
        self
    }

    /// Gives the section a header that is made of a name and a subsection. It is made as [`Section::new`] makes one. All else stays as it
    /// is.
    ///
    /// # Errors
    ///
    /// Those of [`Section::new`], E3 if and only if the section's buffer would be longer than 4294967295 bytes. The section is then as it
    /// was.
    pub fn rename(
        &mut self,
        name: &str,
        subsection_name: Option<BString>,
    ) -> Result<(), header::Error>
        ensures same_section { lent self.new ≡ lent self.old }
        ensures same_editor { editor self.new ≡ editor self.old }
        ensures done { IsDone (heading_causes name.now (option_map bstring_bytes subsection_name) (edited self.old).used) header_refusal result
            (alone_renamed name.now (option_map bstring_bytes subsection_name) (edited self.old)) (edited self.old) (edited self.new) }
    {
        self.section.rename(name, bytes_of(&subsection_name))
    }

    /// Gives the section another trust. All else stays as it is, and so does metadata that was shared with it. Takes memory for metadata of
    /// its own.
    ///
    /// # Errors
    ///
    /// Out of memory. The section is then as it was.
    pub fn set_trust(&mut self, trust: Trust) -> Result<(), NoMemory>
        ensures same_section { lent self.new ≡ lent self.old }
        ensures same_editor { editor self.new ≡ editor self.old }
        ensures ok { OnOk result (edited self.new ≡ record { section = with_trust trust (edited self.old).section; used = (edited self.old).used }) }
        ensures err { OnErr result (edited self.new ≡ edited self.old) }
    {
        self.section.set_trust(trust)
    }

    /// Sets other whitespace before names from now on, or none. It has to be ASCII whitespace. Takes memory for a copy of it.
    ///
    /// # Errors
    ///
    /// Out of memory. The whitespace is then as it was.
    pub fn set_leading_whitespace(&mut self, whitespace: Option<BString>) -> Result<(), NoMemory>
        requires white { IfSome whitespace (λ blanks. list_all is_whitespace (bstring_bytes blanks) ≡ true) }
        ensures same_section { lent self.new ≡ lent self.old }
        ensures same_state { edited self.new ≡ edited self.old }
        ensures ok { OnOk result (editor self.new ≡ record (editor self.old) {
          spacing = record
              (editor self.old).spacing { leading = option_map bstring_bytes whitespace };
        }) }
        ensures err { OnErr result (editor self.new ≡ editor self.old) }
    {
        self.blanks.set_leading(bytes_of(&whitespace))
    }
}
