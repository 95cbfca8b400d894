//! Calls on an editor of a section: steps of the file that it edits.
ghost use Rattle.std.specs.Option.{option_copied};
ghost use Rattle.std.specs.Prelude.{None, Some, option_map, string_bytes};
ghost use Rattle.bstr.specs.Owned.{bstring_bytes};
ghost use Rattle.gitconf_body.specs.Refusals.{header_refusal, span_refusal, value_refusal};
ghost use Rattle.gitconf_state.specs.Edits.{Count, Done, Entry, Pop, Push, PushAfterLast, PushLineEnd, Remove, RemoveMarked, Rename, SetTrust, SetValue};
ghost use Rattle.gix_config.specs.SectionEditors.{edited, editor, number_of};
ghost use Rattle.gix_config_laws.specs.Headline.{no_memory};
ghost use Rattle.gix_config_laws.specs.Steps.{IsStep, raw};

use bstr::BString;
use gitconf_text::parse::section::header;
use gitconf_text::parse::span;
use gix_config::NoMemory;
use gix_config::file::SectionMut;
use gix_config::file::section::value;
use gix_config::source::Trust;

/// [`SectionMut::push`].
pub fn push(
    section: &mut SectionMut<'_>,
    value_name: &str,
    value: Option<&[u8]>,
) -> Result<(), value::Error>
    ensures { IsStep (Push (number_of section.old) (editor section.old) value_name.now (option_copied value.entry) None)
        (λ _. Done) value_refusal result (edited section.old) (edited section.new) }
{
    section.push(value_name, value)
}

/// [`SectionMut::push_with_comment`].
pub fn push_with_comment(
    section: &mut SectionMut<'_>,
    value_name: &str,
    value: Option<&[u8]>,
    comment: &[u8],
) -> Result<(), value::Error>
    ensures { IsStep (Push (number_of section.old) (editor section.old) value_name.now (option_copied value.entry) (Some comment.now))
        (λ _. Done) value_refusal result (edited section.old) (edited section.new) }
{
    section.push_with_comment(value_name, value, comment)
}

/// [`SectionMut::push_after_last`].
pub fn push_after_last(
    section: &mut SectionMut<'_>,
    value_name: &str,
    value: Option<&[u8]>,
) -> Result<(), value::Error>
    ensures { IsStep (PushAfterLast (number_of section.old) (editor section.old) value_name.now (option_copied value.entry))
        (λ _. Done) value_refusal result (edited section.old) (edited section.new) }
{
    section.push_after_last(value_name, value)
}

/// [`SectionMut::push_newline`].
pub fn push_newline(section: &mut SectionMut<'_>) -> Result<(), span::Error>
    ensures { IsStep (PushLineEnd (number_of section.old) (editor section.old)) (λ _. Done) span_refusal result (edited section.old) (edited section.new) }
{
    section.push_newline()
}

/// [`SectionMut::set`].
pub fn set(
    section: &mut SectionMut<'_>,
    value_name: &str,
    value: &[u8],
) -> Result<Option<BString>, value::Error>
    ensures { IsStep (SetValue (number_of section.old) (editor section.old) value_name.now value.now)
        raw value_refusal result (edited section.old) (edited section.new) }
{
    section.set(value_name, value)
}

/// [`SectionMut::remove`].
pub fn remove(section: &mut SectionMut<'_>, value_name: &str) -> Result<Option<BString>, NoMemory>
    ensures { IsStep (Remove (number_of section.old) value_name.now) raw (λ _. no_memory) result (edited section.old) (edited section.new) }
{
    section.remove(value_name)
}

/// [`SectionMut::remove_marked`].
pub fn remove_marked(
    section: &mut SectionMut<'_>,
    value_name: &str,
    marks: &[bool],
) -> Result<usize, NoMemory>
    ensures { IsStep (RemoveMarked (number_of section.old) value_name.now marks.now) Count (λ _. no_memory) result (edited section.old) (edited section.new) }
{
    section.remove_marked(value_name, marks)
}

/// [`SectionMut::pop`].
pub fn pop(section: &mut SectionMut<'_>) -> Result<Option<(String, BString)>, NoMemory>
    ensures { IsStep (Pop (number_of section.old)) (λ o. Entry (option_map (λ t. (string_bytes t.0, bstring_bytes t.1)) o))
        (λ _. no_memory) result (edited section.old) (edited section.new) }
{
    section.pop()
}

/// [`SectionMut::rename`].
pub fn rename(
    section: &mut SectionMut<'_>,
    name: &str,
    subsection_name: Option<BString>,
) -> Result<(), header::Error>
    ensures { IsStep (Rename (number_of section.old) name.now (option_map bstring_bytes subsection_name))
        (λ _. Done) header_refusal result (edited section.old) (edited section.new) }
{
    section.rename(name, subsection_name)
}

/// [`SectionMut::set_trust`].
pub fn set_trust(section: &mut SectionMut<'_>, trust: Trust) -> Result<(), NoMemory>
    ensures { IsStep (SetTrust (number_of section.old) trust) (λ _. Done) (λ _. no_memory) result (edited section.old) (edited section.new) }
{
    section.set_trust(trust)
}
