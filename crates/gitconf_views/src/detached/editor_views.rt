//! What the editor of a section that is in no file shows of it, and of what it writes.
use crate::detached::editor::DetachedSectionMut;
use crate::section::SectionRef;
use crate::views::{BodyRef, HeaderRef, ValueNames};
use bstr::BString;
use gitconf_sections::id::SectionId;
use gitconf_sources::lists::if_any;
use gitconf_sources::meta::Metadata;
use gitconf_text::NoMemory;

impl<'a> DetachedSectionMut<'a> {
    ghost use Rattle.std.specs.Option.{option_copied};
    ghost use Rattle.std.specs.Prelude.{◌≡◌, length, map, IfOk};
    ghost use Rattle.bstr.specs.Owned.{bstring_bytes};
    ghost use Rattle.gitconf_state.specs.Printing.{printed_section};
    ghost use Rattle.gitconf_state.specs.State.{entries_of};
    ghost use Rattle.gitconf_views.specs.AloneEditors.{edited, editor};
    ghost use Rattle.gitconf_body.specs.Bodies.{has_key, implicit_value_in, value_in, values_in, AreFound, IsFoundImplicit};
    ghost use Rattle.gitconf_views.specs.Counts.{is_empty_body};
    ghost use Rattle.gitconf_sources.specs.Found.{if_any, IsFound};
    ghost use Rattle.gitconf_views.specs.Views.{names_left, shown, shown_body, shown_header};

    /// The section as it now is. Constant time, and no memory.
    pub fn section(&self) -> SectionRef<'_>
        ensures { shown result ≡ (edited self.now).section }
    {
        self.section.to_ref()
    }

    /// The number that the section had in a file. If it was in none, the greatest number.
    pub fn id(&self) -> SectionId
        ensures { result ≡ (edited self.now).section.number }
    {
        self.section().id()
    }

    /// The section's header.
    pub fn header(&self) -> HeaderRef<'_>
        ensures { shown_header result ≡ (edited self.now).section.header }
    {
        self.section().header()
    }

    /// The section's body.
    pub fn body(&self) -> BodyRef<'_>
        ensures { shown_body result ≡ (edited self.now).section.items }
    {
        self.section().body()
    }

    /// Where the section comes from.
    pub fn meta(&self) -> &Metadata
        ensures { result.now ≡ (edited self.now).section.meta }
    {
        self.section().meta()
    }

    /// The text of the section alone, like [`SectionRef::to_bstring`].
    ///
    /// # Errors
    ///
    /// Out of memory.
    pub fn to_bstring(&self) -> Result<BString, NoMemory>
        ensures { IfOk result (λ text. bstring_bytes text ≡ printed_section (edited self.now).section) }
    {
        self.section().to_bstring()
    }

    /// Like [`BodyRef::value`] of its body.
    ///
    /// # Errors
    ///
    /// Out of memory for the result.
    pub fn value(&self, value_name: &str) -> Result<Option<BString>, NoMemory>
        ensures { IsFound bstring_bytes result (value_in value_name.now (entries_of (edited self.now).section.items)) }
    {
        self.body().value(value_name)
    }

    /// Like [`BodyRef::value_implicit`] of its body.
    ///
    /// # Errors
    ///
    /// Out of memory for the result.
    pub fn value_implicit(&self, value_name: &str) -> Result<Option<Option<BString>>, NoMemory>
        ensures { IsFoundImplicit result (implicit_value_in value_name.now (entries_of (edited self.now).section.items)) }
    {
        self.body().value_implicit(value_name)
    }

    /// Like [`BodyRef::values`] of its body.
    ///
    /// # Errors
    ///
    /// Out of memory.
    pub fn values(&self, value_name: &str) -> Result<Vec<BString>, NoMemory>
        ensures { AreFound result (values_in value_name.now (entries_of (edited self.now).section.items)) }
    {
        self.body().values(value_name)
    }

    /// Like [`BodyRef::value_names`] of its body.
    pub fn value_names(&self) -> ValueNames<'_>
        ensures { names_left result ≡ map (λ e. e.name) (entries_of (edited self.now).section.items) }
    {
        self.body().value_names()
    }

    /// Like [`BodyRef::contains_value_name`] of its body.
    pub fn contains_value_name(&self, value_name: &str) -> bool
        ensures { result ≡ has_key value_name.now (entries_of (edited self.now).section.items) }
    {
        self.body().contains_value_name(value_name)
    }

    /// Like [`BodyRef::num_values`] of its body.
    pub fn num_values(&self) -> usize
        ensures { result ≡ length (entries_of (edited self.now).section.items) }
    {
        self.body().num_values()
    }

    /// Like [`BodyRef::is_void`] of its body.
    pub fn is_void(&self) -> bool
        ensures { result ≡ is_empty_body (edited self.now).section.items }
    {
        self.body().is_void()
    }

    /// The line ending that it writes: that of the section when the editor was made, LF or CR LF.
    pub fn newline(&self) -> &'static [u8]
        ensures { result.now ≡ (editor self.now).line_end }
    {
        self.line_end.as_bytes()
    }

    /// The whitespace that it writes before a name, if it writes any.
    pub fn leading_whitespace(&self) -> Option<&[u8]>
        ensures { option_copied result ≡ (editor self.now).spacing.leading }
    {
        self.blanks.leading()
    }

    /// The whitespace that it writes before and after `=`; `None` if it writes none there.
    pub fn separator_whitespace(&self) -> (Option<&[u8]>, Option<&[u8]>)
        ensures before { option_copied result.0 ≡ if_any (editor self.now).spacing.before }
        ensures behind { option_copied result.1 ≡ if_any (editor self.now).spacing.behind }
    {
        let (before, behind) = self.blanks.around();
        (if_any(before), if_any(behind))
    }
}
