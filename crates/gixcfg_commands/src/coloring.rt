//! `--get-color` and `--get-colorbool`, which scripts of git ask before they color what they print.

use crate::entries::entries_of;
use crate::including::file_read;
use crate::loads::Loads;
use gix_config::{File, KeyRef};
use gixcfg_core::c_strings::c_string;
use gixcfg_core::entries::Found;
use gixcfg_core::origins::Located;
use gixcfg_core::outside::Inputs;
use gixcfg_core::telling::{truth_of, typed_default, typed_of};
use gixcfg_core::trouble::Trouble;
use gixcfg_files::variable;
use gixcfg_words::command::{Color, Colorbool, Form, Reading};
use gixcfg_words::kinds::Kind;
use std::alloc::{AllocGlobal, Global};
use std::io::Read;
use std::rt::{Env, Files};

/// The key that says it for all that git prints.
const UI: KeyRef<'static> = KeyRef {
    section_name: "color",
    subsection_name: None,
    value_name: "ui",
};

/// The older name of `color.diff`.
const DIFF: KeyRef<'static> = KeyRef {
    section_name: "diff",
    subsection_name: None,
    value_name: "color",
};

/// When output is colored.
#[derive(Clone, Copy)]
enum When {
    Never,
    Always,
    /// If somebody sees it.
    Auto,
}

/// What a terminal is told for a color, without a line ending: for the last value of its key, else for the default; nothing if there is neither.
///
/// # Errors
///
/// It is no color; what is read can't be read, or is refused; out of memory.
pub fn color<R: Files + Env + Loads + AllocGlobal, I: Read + Drop>(
    inputs: &mut Inputs<'_, R, I>,
    call: &Color<'_>,
    read: &Located,
) -> Result<Vec<u8>, Trouble> {
    let (alloc, home) = (inputs.rt.alloc(), inputs.outside.home);
    let found = match call.key {
        Some(key) => last_of_reading(inputs, key, &call.reading, read)?,
        None => None,
    };
    let sequence = match (&found, call.default) {
        (Some(entry), _) => {
            let value = entry.value().map(|value| c_string(value));
            typed_of(alloc, &entry.names, value, Kind::Color, home)?
        }
        (None, Some(default)) => typed_default(alloc, default, Kind::Color, home)?,
        (None, None) => return Ok(Vec::new(alloc)),
    };
    Ok(sequence.into_vec())
}

/// The last entry of a key of what is read.
fn last_of_reading<R: Files + Env + Loads + AllocGlobal, I: Read + Drop>(
    inputs: &mut Inputs<'_, R, I>,
    key: KeyRef<'_>,
    reading: &Reading<'_>,
    read: &Located,
) -> Result<Option<Found>, Trouble> {
    match file_read(inputs, reading, read)? {
        Some(file) => last_of(inputs.rt.alloc(), &file, key, read),
        None => Ok(None),
    }
}

/// The last entry of a key of a file.
fn last_of(
    alloc: Global,
    file: &File,
    key: KeyRef<'_>,
    read: &Located,
) -> Result<Option<Found>, Trouble> {
    let form = Form {
        has_scope: false,
        has_origin: false,
        has_position: false,
        has_names: false,
        has_value: true,
        is_null: false,
        kind: None,
    };
    Ok(entries_of(alloc, file, key, &form, read)?.pop())
}

/// Whether output is to be colored: a line that says so, if the call says whether the output is a terminal, else nothing.
///
/// # Errors
///
/// [`Trouble::Missing`] if it isn't to be colored, and no line says so; a value is neither a boolean nor `always`, `never` or `auto`; what is
/// read can't be read, or is refused; out of memory.
pub fn colorbool<R: Files + Env + Loads + AllocGlobal, I: Read + Drop>(
    inputs: &mut Inputs<'_, R, I>,
    call: &Colorbool<'_>,
    read: &Located,
) -> Result<Vec<u8>, Trouble> {
    let alloc = inputs.rt.alloc();
    let when = match file_read(inputs, &call.reading, read)? {
        Some(file) => when_in(alloc, &file, call.key, read)?,
        None => When::Auto,
    };
    let Some(word) = call.is_terminal else {
        return if is_colored(inputs.rt, when, inputs.outside.is_seen)? {
            Ok(Vec::new(alloc))
        } else {
            Err(Trouble::Missing)
        };
    };
    let is_terminal = truth_of(alloc, b"command line", Some(word.as_bytes()))?;
    let line: &[u8] = if is_colored(inputs.rt, when, is_terminal)? {
        b"true\n"
    } else {
        b"false\n"
    };
    Ok(line.to_vec(alloc)?)
}

/// When output is colored, by a key, of `color.diff` by its older name next, and then by `color.ui`.
fn when_in(alloc: Global, file: &File, key: KeyRef<'_>, read: &Located) -> Result<When, Trouble> {
    if let Some(found) = last_of(alloc, file, key, read)? {
        return when_of(alloc, &found);
    }
    if is_color_diff(key) {
        if let Some(found) = last_of(alloc, file, DIFF, read)? {
            return when_of(alloc, &found);
        }
    }
    match last_of(alloc, file, UI, read)? {
        Some(found) => when_of(alloc, &found),
        None => Ok(When::Auto),
    }
}

/// Whether a key is `color.diff`.
fn is_color_diff(key: KeyRef<'_>) -> bool {
    key.section_name.eq_ignore_ascii_case("color")
        && key.subsection_name.is_none()
        && key.value_name.eq_ignore_ascii_case("diff")
}

/// What an entry says of when output is colored: a word, or a boolean, of which true is `auto`.
fn when_of(alloc: Global, found: &Found) -> Result<When, Trouble> {
    let value = found.value().map(|value| c_string(value));
    let word = value.unwrap_or(b"");
    if word.eq_ignore_ascii_case(b"never") {
        Ok(When::Never)
    } else if word.eq_ignore_ascii_case(b"always") {
        Ok(When::Always)
    } else if word.eq_ignore_ascii_case(b"auto") || truth_of(alloc, &found.names, value)? {
        Ok(When::Auto)
    } else {
        Ok(When::Never)
    }
}

/// Whether output is colored. What nobody says is colored where it is seen in a terminal that shows colors.
fn is_colored<R: Env + AllocGlobal>(rt: &R, when: When, is_seen: bool) -> Result<bool, Trouble> {
    match when {
        When::Never => Ok(false),
        When::Always => Ok(true),
        When::Auto => Ok(is_seen && shows_colors(rt)?),
    }
}

/// Whether the terminal shows colors, by `TERM`.
fn shows_colors<R: Env + AllocGlobal>(rt: &R) -> Result<bool, Trouble> {
    match variable(rt, "TERM")? {
        Some(name) => Ok(name.as_str() != "dumb"),
        None => Ok(false),
    }
}
