//! What the editor of a section that is in no file writes, by the whitespace and the line ending that it has.
ghost use Rattle.std.specs.Prelude.{◌≡◌, option_map};
ghost use Rattle.bstr.specs.Owned.{bstring_bytes};

use crate::detached::Section;
use bstr::BString;
use gitconf_body::editor::Editor;
use gitconf_body::value;
use gitconf_text::parse::section::ValueNameError;
use gitconf_text::parse::section::bytes::is_value_name;
use gitconf_text::parse::span;

/// Bytes as a text, if there are any.
pub fn text_of(bytes: Option<Vec<u8>>) -> Option<BString>
    ensures { option_map bstring_bytes result ≡ option_map (λ v. v.items) bytes }
{
    match bytes {
        Some(bytes) => Some(BString::new(bytes)),
        None => None,
    }
}

impl Section {
    ghost use Rattle.std.specs.Option.{option_copied};
    ghost use Rattle.std.specs.Prelude.{◌≡◌, length, option_map, true, IfOk};
    ghost use Rattle.bstr.specs.Owned.{bstring_bytes};
    ghost use Rattle.gitconf_text.specs.Names.{is_value_name};
    ghost use Rattle.gitconf_state.specs.Edit.{old_value};
    ghost use Rattle.gitconf_state.specs.Editors.{line_end_pushed, pushed, pushed_after_last, value_set};
    ghost use Rattle.gitconf_state.specs.Edits.{IsEditor};
    ghost use Rattle.gitconf_views.specs.Alone.{changed_alone, IsEditedAlone};
    ghost use Rattle.gitconf_body.specs.Blanks.{given_editor, IsGiven, PutsAround};
    ghost use Rattle.gitconf_body.specs.Puts.{after_last_bytes, line_bytes, value_set_bytes};
    ghost use Rattle.gitconf_body.specs.Done.{room_causes, IsDone};
    ghost use Rattle.gitconf_body.specs.Refusals.{span_refusal};

    /// [`Section::push_entry`], for a name that may be invalid.
    #[tactic(auto, using(crate::proofs::AloneEdits::alone_ok, crate::proofs::AloneEdits::alone_err, crate::proofs::AloneEdits::alone_unnamed, gitconf_body::proofs::Puts::line_is))]
    pub fn push_line(
        &mut self,
        editor: &Editor<'_>,
        value_name: &str,
        value: Option<&[u8]>,
        comment: Option<&[u8]>,
    ) -> Result<(), value::Error>
        requires given { IsGiven editor.now }
        requires puts { PutsAround editor.now }
        requires editor { IsEditor (given_editor editor.now) }
        ensures done { IsEditedAlone (pushed (given_editor editor.now) value_name.now (option_copied value.entry) (option_copied comment.entry)) value_name.now
            (line_bytes (given_editor editor.now) value_name.now (option_copied value.entry) (option_copied comment.entry)) result self.old self.new }
    {
        let key = value_name.as_bytes();
        if !is_value_name(key) {
            return Err(value::Error::ValueName(ValueNameError::invalid()));
        }
        self.push_entry(editor, key, value, comment)?;
        Ok(())
    }

    /// [`Section::push_entry_after_last`], for a name that may be invalid.
    #[tactic(auto, using(crate::proofs::AloneEdits::alone_ok, crate::proofs::AloneEdits::alone_err, crate::proofs::AloneEdits::alone_unnamed, gitconf_body::proofs::Puts::below_is))]
    pub fn push_line_after_last(
        &mut self,
        editor: &Editor<'_>,
        value_name: &str,
        value: Option<&[u8]>,
    ) -> Result<(), value::Error>
        requires given { IsGiven editor.now }
        requires puts { PutsAround editor.now }
        requires editor { IsEditor (given_editor editor.now) }
        ensures done { IsEditedAlone (pushed_after_last (given_editor editor.now) value_name.now (option_copied value.entry)) value_name.now
            (after_last_bytes (given_editor editor.now) value_name.now (option_copied value.entry) self.old.section.items) result self.old self.new }
    {
        let key = value_name.as_bytes();
        if !is_value_name(key) {
            return Err(value::Error::ValueName(ValueNameError::invalid()));
        }
        self.push_entry_after_last(editor, key, value)?;
        Ok(())
    }

    /// [`Section::push_newline`].
    #[tactic(auto, using(crate::proofs::AloneEdits::line_end_alone))]
    pub fn push_line_end(&mut self, editor: &Editor<'_>) -> Result<(), span::Error>
        requires editor { IsEditor (given_editor editor.now) }
        ensures done { IsDone (room_causes self.old.used (length (given_editor editor.now).line_end)) span_refusal result
            (changed_alone (line_end_pushed (given_editor editor.now)) (length (given_editor editor.now).line_end) self.old) self.old self.new }
    {
        self.push_newline(editor)
    }

    /// [`Section::set_entry`], for a name that may be invalid.
    #[tactic(auto, using(crate::proofs::AloneEdits::alone_ok, crate::proofs::AloneEdits::alone_err, crate::proofs::AloneEdits::alone_unnamed, gitconf_body::proofs::Puts::set_is))]
    pub fn set_line(
        &mut self,
        editor: &Editor<'_>,
        value_name: &str,
        value: &[u8],
    ) -> Result<Option<BString>, value::Error>
        requires given { IsGiven editor.now }
        requires puts { PutsAround editor.now }
        requires editor { IsEditor (given_editor editor.now) }
        ensures done { IsEditedAlone (value_set (given_editor editor.now) value_name.now value.now) value_name.now
            (value_set_bytes (given_editor editor.now) value_name.now value.now self.old.section.items) result self.old self.new }
        ensures answer { IfOk result (λ o. option_map bstring_bytes o ≡ old_value value_name.now self.old.section.items) }
    {
        let key = value_name.as_bytes();
        if !is_value_name(key) {
            return Err(value::Error::ValueName(ValueNameError::invalid()));
        }
        let old = self.set_entry(editor, key, value)?;
        Ok(text_of(old))
    }
}
