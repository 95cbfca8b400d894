//! The entries that a call asks for, as lines.
ghost use Rattle.std.specs.Prelude.{◌≡◌, ◌-◌, ◌++◌, length, drop, flat_map, map, None, Ok};
ghost use Rattle.gixcfg_core.specs.Answers.{Answers};
ghost use Rattle.gixcfg_core.specs.Entries.{line_of, plain_found};
ghost use Rattle.gixcfg_core.specs.Telling.{default_line as default_line_lem, found_line, found_lines};

use crate::c_strings::c_string;
use crate::entries::Found;
use crate::lines::{Line, add_entry};
use crate::numbers::boolean;
use crate::origins::before_given;
use crate::trouble::Trouble;
use crate::typed::{Fault, Refusal, typed};
use bstr::{BStr, BString};
use gixcfg_words::command::{Choice, Fallback, Form};
use gixcfg_words::kinds::Kind;
use gixcfg_words::shown::Shown;
use std::alloc::{AllocError, Global};

/// The lines of the entries that `get` found: of all of them, or of the last one; or of what is given if there is none.
///
/// # Errors
///
/// There is none, and no value is given; a value isn't of the type; out of memory.
pub fn lines_of_found(
    alloc: Global,
    found: &[Found],
    choice: Choice<'_>,
    form: &Form,
    home: Option<&str>,
) -> Result<Vec<u8>, Trouble>
    ensures { form.now.kind ≡ None → Answers (λ lines. lines.items) result (found_lines form.now choice.entry (map plain_found found.now)) }
{
    match choice {
        Choice::Last {
            default: Some(default),
        } if found.is_empty() => default_line(alloc, default, form, home),
        _ if found.is_empty() => Err(Trouble::Missing),
        Choice::Last { default: _ } => lines_of(alloc, last_of(found), form, home),
        Choice::All => lines_of(alloc, found, form, home),
    }
}

/// The lines of all entries. If a type is asked for, they are those of the entries whose value is of it.
///
/// # Errors
///
/// Out of memory.
pub fn lines_of_all(
    alloc: Global,
    found: &[Found],
    form: &Form,
    home: Option<&str>,
) -> Result<Vec<u8>, Trouble> {
    let line = Line::of_entries(form);
    let mut lines = Vec::new(alloc);
    for entry in found {
        match add_typed(alloc, &mut lines, &line, entry, form, home) {
            Ok(()) | Err(Trouble::Text(_) | Trouble::Untyped(_)) => {}
            Err(trouble) => return Err(trouble),
        }
    }
    Ok(lines)
}

/// The last of them, or none.
fn last_of(found: &[Found]) -> &[Found]
    ensures { result.now ≡ drop (length found.now - 1) found.now }
{
    found.split_at(found.len().saturating_sub(1)).1
}

/// What is given for an entry that is missing, on a line.
fn default_line(
    alloc: Global,
    default: Fallback<'_>,
    form: &Form,
    home: Option<&str>,
) -> Result<Vec<u8>, Trouble>
    ensures { form.now.kind ≡ None → Answers (λ lines. lines.items) result (Ok (default_line_lem form.now default.entry)) }
{
    let before = before_given(alloc, form)?;
    let line = Line::of_values(form);
    let (names, value) = (default.word.as_bytes(), default.value.as_bytes());
    let mut lines = Vec::new(alloc);
    match form.kind {
        None => add_entry(&mut lines, &line, &before, names, Some(value))?,
        Some(kind) => {
            let value = typed_default(alloc, default, kind, home)?;
            add_entry(&mut lines, &line, &before, names, Some(value.as_bytes()))?;
        }
    }
    Ok(lines)
}

/// The value of what is given for an entry that is missing, in a type.
///
/// # Errors
///
/// It isn't of the type; out of memory.
pub fn typed_default(
    alloc: Global,
    default: Fallback<'_>,
    kind: Kind,
    home: Option<&str>,
) -> Result<BString, Trouble> {
    let (names, text) = (default.word.as_bytes(), default.value.as_bytes());
    match typed_of(alloc, names, Some(text), kind, home) {
        Err(Trouble::Untyped(refusal)) => {
            let (value, reason) = (Shown(default.value), refusal.reason());
            Err(told(format!(in alloc;
                "gixcfg: failed to format default config value: {value}: {reason} [E11]\n"
            )))
        }
        value => value,
    }
}

/// Whether a value says yes, of a key of these names. A missing value, as in an entry without `=`, does.
///
/// # Errors
///
/// It is no boolean, which is told in git's words; out of memory.
pub fn truth_of(alloc: Global, names: &[u8], value: Option<&[u8]>) -> Result<bool, Trouble> {
    let Some(value) = value else {
        return Ok(true);
    };
    match boolean(value) {
        Some(is_true) => Ok(is_true),
        None => {
            let (names, value) = (BStr::new(names), BStr::new(value));
            Err(refused(alloc, Shown(names), Shown(value), Refusal::Boolean))
        }
    }
}

/// The value of a key in a type. What is no boolean or no number is told in git's words, with the key.
///
/// # Errors
///
/// It isn't of the type; out of memory.
pub fn typed_of(
    alloc: Global,
    names: &[u8],
    value: Option<&[u8]>,
    kind: Kind,
    home: Option<&str>,
) -> Result<BString, Trouble> {
    match typed(alloc, value, kind, home) {
        Err(Fault::Refused(refusal)) => {
            let (names, value) = (BStr::new(names), BStr::new(value.unwrap_or(b"")));
            Err(refused(alloc, Shown(names), Shown(value), refusal))
        }
        value => Ok(value?),
    }
}

/// The trouble that the value of a key is which isn't of a type.
fn refused(
    alloc: Global,
    names: Shown<BStr<'_>>,
    value: Shown<BStr<'_>>,
    refusal: Refusal,
) -> Trouble {
    match refusal {
        Refusal::Boolean => told(format!(in alloc;
            "gixcfg: bad boolean config value '{value}' for '{names}' [E11]\n"
        )),
        Refusal::Integer | Refusal::BooleanOrInteger => told(format!(in alloc;
            "gixcfg: bad numeric config value '{value}' for '{names}' [E11]\n"
        )),
        refusal => Trouble::Untyped(refusal),
    }
}

/// The trouble that a message tells of, if there was memory for it.
fn told(message: Result<String, AllocError>) -> Trouble {
    match message {
        Ok(message) => Trouble::Text(message),
        Err(_) => Trouble::Memory,
    }
}

/// Entries, a line each, their values in the type that is asked for.
fn lines_of(
    alloc: Global,
    found: &[Found],
    form: &Form,
    home: Option<&str>,
) -> Result<Vec<u8>, Trouble>
    ensures { form.now.kind ≡ None → Answers (λ lines. lines.items) result (Ok (flat_map (found_line form.now) (map plain_found found.now))) }
{
    let line = Line::of_values(form);
    let mut lines = Vec::new(alloc);
    for entry in found {
        add_typed(alloc, &mut lines, &line, entry, form, home)?;
    }
    Ok(lines)
}

/// Adds an entry, its value in the type that is asked for. If it isn't of the type, nothing is added.
fn add_typed(
    alloc: Global,
    lines: &mut Vec<u8>,
    line: &Line,
    entry: &Found,
    form: &Form,
    home: Option<&str>,
) -> Result<(), Trouble>
    ensures { form.now.kind ≡ None → Answers (λ _. lines.new.items) result (Ok (lines.old.items
        ++ (let f = plain_found entry.now in line_of line.now f.before f.names f.value))) }
{
    match form.kind {
        None => add_entry(lines, line, &entry.before, &entry.names, entry.value())?,
        Some(kind) => {
            let value = entry.value().map(|value| c_string(value));
            let value = typed_of(alloc, &entry.names, value, kind, home)?;
            let value = Some(value.as_bytes());
            add_entry(lines, line, &entry.before, &entry.names, value)?;
        }
    }
    Ok(())
}
