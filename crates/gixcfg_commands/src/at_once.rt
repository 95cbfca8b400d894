//! `get` of the last value of a key in one text, which is looked up without a file: one pass over the bytes.
ghost use Rattle.std.specs.Prelude.{◌-◌, length, map, option_map};
ghost use Rattle.std.specs.List.{slice_get};
ghost use Rattle.bstr.specs.Owned.{bstring_bytes};
ghost use Rattle.gitconf_sources.specs.Key.{key_of};
ghost use Rattle.gixcfg_core.specs.Answers.{Answers, AnswersOf};
ghost use Rattle.gixcfg_commands.specs.Entries.{got_line, value_line};

use crate::named::Text;
use bstr::BString;
use gitconf_parse::lookup::values_in;
use gix_config::KeyRef;
use gixcfg_core::lines::{Line, add_entry};
use gixcfg_core::origins::Located;
use gixcfg_core::outside::{Inputs, Outside, accepted};
use gixcfg_core::trouble::Trouble;
use gixcfg_words::command::{Choice, Form, Get, Values, Wanted};
use std::alloc::{AllocGlobal, Global};
use std::io::Read;
use std::rt::Files;

/// The key whose last value is all that a call asks for of one text. The value is asked for as it is.
pub fn key_alone<'a>(get: &Get<'a>, read: &Located) -> Option<KeyRef<'a>> {
    match (get.wanted, get.values, get.choice, read) {
        (
            Wanted::Key(key),
            Values::Any,
            Choice::Last { default: None },
            Located::File(..) | Located::Input,
        ) if is_bare(&get.form) && !has_dot(key) && !read.follows(get.reading.includes) => {
            Some(key)
        }
        _ => None,
    }
}

/// Whether values alone are printed, as they are.
fn is_bare(form: &Form) -> bool {
    !form.has_scope
        && !form.has_origin
        && !form.has_position
        && !form.has_names
        && form.has_value
        && form.kind.is_none()
}

/// Whether there is a dot in a key's subsection, so that a section such as `[a.b "c"]` may be meant, which no lookup finds by it.
fn has_dot(key: KeyRef<'_>) -> bool {
    match key.subsection_name {
        Some(name) => name.contains(&b'.'),
        None => false,
    }
}

/// The line of the last value of a key in what is read.
///
/// # Errors
///
/// There is none; what is read can't be read, or is refused; out of memory.
pub fn last_line<R: Files + AllocGlobal, I: Read + Drop>(
    inputs: &mut Inputs<'_, R, I>,
    key: KeyRef<'_>,
    form: &Form,
    read: &Located,
) -> Result<Vec<u8>, Trouble> {
    let Some(text) = inputs.text_of(read.path())? else {
        return Err(Trouble::Missing);
    };
    let named = Text {
        name: read.name(),
        text: &text,
    };
    line_in(inputs.rt.alloc(), &named, key, form, inputs.outside)
}

/// The line of the last value of a key in a text.
fn line_in(
    alloc: Global,
    read: &Text<'_>,
    key: KeyRef<'_>,
    form: &Form,
    outside: Outside<'_>,
) -> Result<Vec<u8>, Trouble>
    ensures { AnswersOf (λ line. line.items) read.now.text.now outside.entry.is_colored (got_line form.now (key_of key.entry)) result }
{
    let made = values_in(alloc, read.text, key);
    match accepted(alloc, read.name, read.text, made, outside)? {
        Some(values) => line_of_last(alloc, &values, form),
        None => Err(Trouble::Missing),
    }
}

/// The line of the last of some values.
fn line_of_last(alloc: Global, values: &[BString], form: &Form) -> Result<Vec<u8>, Trouble>
    ensures { Answers (λ line. line.items) result
        (value_line form.now (option_map bstring_bytes (slice_get values.now (length values.now - 1)))) }
{
    let Some(value) = values.last() else {
        return Err(Trouble::Missing);
    };
    let mut line = Vec::new(alloc);
    add_entry(
        &mut line,
        &Line::of_values(form),
        b"",
        b"",
        Some(value.as_bytes()),
    )?;
    Ok(line)
}
