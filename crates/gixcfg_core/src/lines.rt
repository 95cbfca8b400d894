//! Lines of names and values, each up to its first byte 0, so that none looks like the end of an entry.
ghost use Rattle.std.specs.Prelude.{◌≡◌, ◌++◌, IfOk};
ghost use Rattle.std.specs.Option.{option_copied};
ghost use Rattle.gixcfg_core.specs.Entries.{line_of, value_part};

use crate::c_strings::c_string;
use gixcfg_words::command::Form;
use std::alloc::AllocError;

/// What a line has of an entry, and what comes between and after that.
#[derive(Clone, Copy)]
pub struct Line {
    /// Whether the names are printed.
    pub has_names: bool,
    /// Whether the value is printed.
    pub has_value: bool,
    /// What comes between names and value.
    pub between: u8,
    /// What comes after an entry.
    pub end: u8,
}

impl Line {
    ghost use Rattle.gixcfg_core.specs.Origins.{differences_line, entries_line, values_line};

    /// As `get` prints entries: a space between the names and the value.
    pub fn of_values(form: &Form) -> Line
        ensures { result ≡ values_line form.now }
    {
        Line {
            between: if form.is_null { b'\n' } else { b' ' },
            ..Line::of_entries(form)
        }
    }

    /// As `list` prints them: `=` between the names and the value.
    pub fn of_entries(form: &Form) -> Line
        ensures { result ≡ entries_line form.now }
    {
        Line {
            has_names: form.has_names,
            has_value: form.has_value,
            ..Line::of_differences(form.is_null)
        }
    }

    /// As `diff` prints them: all of an entry.
    pub fn of_differences(is_null: bool) -> Line
        ensures { result ≡ differences_line is_null }
    {
        Line {
            has_names: true,
            has_value: true,
            between: if is_null { b'\n' } else { b'=' },
            end: if is_null { 0 } else { b'\n' },
        }
    }
}

/// Adds an entry of these names: what is printed before it, its names, and its value, if it has one.
///
/// # Errors
///
/// Out of memory.
pub fn add_entry(
    lines: &mut Vec<u8>,
    line: &Line,
    before: &[u8],
    names: &[u8],
    value: Option<&[u8]>,
) -> Result<(), AllocError>
    ensures { IfOk result (λ _. lines.new.items ≡ lines.old.items ++ line_of line.now before.now names.now (option_copied value.entry)) }
{
    lines.extend_from_slice(before)?;
    if line.has_names {
        lines.extend_from_slice(c_string(names))?;
    }
    add_value(lines, line, value)?;
    lines.push(line.end)?;
    Ok(())
}

/// Adds a value after the names, if it is printed.
///
/// # Errors
///
/// Out of memory.
pub fn add_value(lines: &mut Vec<u8>, line: &Line, value: Option<&[u8]>) -> Result<(), AllocError>
    ensures { IfOk result (λ _. lines.new.items ≡ lines.old.items ++ value_part line.now (option_copied value.entry)) }
{
    let Some(value) = value else {
        return Ok(());
    };
    if !line.has_value {
        return Ok(());
    }
    if line.has_names {
        lines.push(line.between)?;
    }
    lines.extend_from_slice(c_string(value))
}
