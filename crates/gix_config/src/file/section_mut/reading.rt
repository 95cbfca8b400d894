//! What an editor shows of its section, and of what it writes.
use crate::file::section::{BodyRef, HeaderRef, ValueNames};
use crate::file::section_mut::SectionMut;
use crate::file::{Metadata, SectionId, SectionRef};
use bstr::BString;
use gitconf_sources::lists::if_any;
use gitconf_text::NoMemory;

impl<'a> SectionMut<'a> {
    ghost use Rattle.std.specs.List.{list_all};
    ghost use Rattle.std.specs.Option.{option_copied};
    ghost use Rattle.std.specs.Prelude.{◌≡◌, [], length, map, IfOk, IfSome, Some};
    ghost use Rattle.bstr.specs.Owned.{bstring_bytes};
    ghost use Rattle.gitconf_state.specs.Edits.{items_of_numbered, numbered, IsEditor};
    ghost use Rattle.gitconf_state.specs.Printing.{printed_section};
    ghost use Rattle.gitconf_state.specs.State.{entries_of};
    ghost use Rattle.gitconf_body.specs.Bodies.{has_key, implicit_value_in, value_in, values_in, AreFound, IsFoundImplicit};
    ghost use Rattle.gitconf_views.specs.Counts.{is_empty_body};
    ghost use Rattle.gitconf_lookups.specs.Lookups.{if_any, IsFound};
    ghost use Rattle.gitconf_views.specs.Views.{names_left, shown, shown_body, shown_header};
    ghost use Rattle.gix_config.specs.SectionEditors.{edited, editor, number_of};

    /// The number of the section.
    pub fn id(&self) -> SectionId
        ensures { result ≡ number_of self.now }
    {
        self.id
    }

    /// The section as it now is. What the editor writes besides names and values may be in a text, whoever made it. Constant time, and no
    /// memory.
    pub fn section(&self) -> SectionRef<'_>
        ensures section { numbered (number_of self.now) (edited self.now) ≡ Some (shown result) }
        ensures items { (shown result).items ≡ items_of_numbered (number_of self.now) (edited self.now) }
        ensures editor { IsEditor (editor self.now) }
    {
        // For what its contract says of the whitespace.
        let _ = self.blanks.editor(self.line_end, self.ends);
        self.file.section_of(self.id)
    }

    /// The section's header.
    pub fn header(&self) -> HeaderRef<'_>
        ensures { IfSome (numbered (number_of self.now) (edited self.now)) (λ s. shown_header result ≡ s.header) }
    {
        self.section().header()
    }

    /// The section's body.
    pub fn body(&self) -> BodyRef<'_>
        ensures { shown_body result ≡ items_of_numbered (number_of self.now) (edited self.now) }
    {
        self.section().body()
    }

    /// Where the section comes from.
    pub fn meta(&self) -> &Metadata
        ensures { IfSome (numbered (number_of self.now) (edited self.now)) (λ s. result.now ≡ s.meta) }
    {
        self.section().meta()
    }

    /// The text of the section alone, as [`SectionRef::to_bstring`].
    ///
    /// # Errors
    ///
    /// E27 when out of memory.
    pub fn to_bstring(&self) -> Result<BString, NoMemory>
        ensures { IfSome (numbered (number_of self.now) (edited self.now)) (λ s. IfOk result (λ text. bstring_bytes text ≡ printed_section s)) }
    {
        self.section().to_bstring()
    }

    /// Like [`BodyRef::value`], of its body.
    ///
    /// # Errors
    ///
    /// E27 when out of memory for the result.
    pub fn value(&self, value_name: &str) -> Result<Option<BString>, NoMemory>
        ensures { IsFound bstring_bytes result (value_in value_name.now (entries_of (items_of_numbered (number_of self.now) (edited self.now)))) }
    {
        self.body().value(value_name)
    }

    /// Like [`BodyRef::value_implicit`], of its body.
    ///
    /// # Errors
    ///
    /// E27 when out of memory for the result.
    pub fn value_implicit(&self, value_name: &str) -> Result<Option<Option<BString>>, NoMemory>
        ensures { IsFoundImplicit result (implicit_value_in value_name.now (entries_of (items_of_numbered (number_of self.now) (edited self.now)))) }
    {
        self.body().value_implicit(value_name)
    }

    /// Like [`BodyRef::values`], of its body.
    ///
    /// # Errors
    ///
    /// E27 when out of memory.
    pub fn values(&self, value_name: &str) -> Result<Vec<BString>, NoMemory>
        ensures { AreFound result (values_in value_name.now (entries_of (items_of_numbered (number_of self.now) (edited self.now)))) }
    {
        self.body().values(value_name)
    }

    /// Like [`BodyRef::value_names`], of its body.
    pub fn value_names(&self) -> ValueNames<'_>
        ensures { names_left result ≡ map (λ e. e.name) (entries_of (items_of_numbered (number_of self.now) (edited self.now))) }
    {
        self.body().value_names()
    }

    /// Like [`BodyRef::contains_value_name`], of its body.
    pub fn contains_value_name(&self, value_name: &str) -> bool
        ensures { result ≡ has_key value_name.now (entries_of (items_of_numbered (number_of self.now) (edited self.now))) }
    {
        self.body().contains_value_name(value_name)
    }

    /// Like [`BodyRef::num_values`], of its body.
    pub fn num_values(&self) -> usize
        ensures { result ≡ length (entries_of (items_of_numbered (number_of self.now) (edited self.now))) }
    {
        self.body().num_values()
    }

    /// Like [`BodyRef::is_void`], of its body.
    pub fn is_void(&self) -> bool
        ensures { result ≡ is_empty_body (items_of_numbered (number_of self.now) (edited self.now)) }
    {
        self.body().is_void()
    }

    /// The line ending that the editor writes: the file's when the editor was made, LF or CR LF.
    pub fn newline(&self) -> &'static [u8]
        ensures { result.now ≡ (editor self.now).line_end }
    {
        self.line_end.as_bytes()
    }

    /// The whitespace that the editor writes before a name, if it writes any.
    pub fn leading_whitespace(&self) -> Option<&[u8]>
        ensures { option_copied result ≡ (editor self.now).spacing.leading }
    {
        self.blanks.leading()
    }

    /// The whitespace that the editor writes before and after `=`. `None` if it writes none there.
    pub fn separator_whitespace(&self) -> (Option<&[u8]>, Option<&[u8]>)
        ensures before { option_copied result.0 ≡ if_any (editor self.now).spacing.before }
        ensures behind { option_copied result.1 ≡ if_any (editor self.now).spacing.behind }
    {
        let (before, behind) = self.blanks.around();
        (if_any(before), if_any(behind))
    }
}
