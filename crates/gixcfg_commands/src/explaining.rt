//! `explain`: why a key has its value.
ghost use Rattle.std.specs.Prelude.{◌≡◌, IfErr};
ghost use Rattle.gixcfg_core.specs.Troubles.{IsStatus};

use crate::Loads;
use crate::paths::located;
use crate::tracing::{Include, LedTo, Row, Traceable, Traced, add_number, trace};
use gix_config::KeyRef;
use gixcfg_core::c_strings::c_string;
use gixcfg_core::names::add_names;
use gixcfg_core::origins::Located;
use gixcfg_core::outside::Inputs;
use gixcfg_core::quoted::add_quoted;
use gixcfg_core::streams::put;
use gixcfg_core::trouble::{Trouble, report};
use gixcfg_words::command::Explain;
use std::alloc::{AllocError, AllocGlobal, Global};
use std::io::{Read, Write};
use std::rt::{Env, Files};

/// Prints the entries of a key in the order in which they are read. Each has a line: scope, file with line and column, key and value, and
/// whether it counts; then likewise each include on the way, and whether it was followed. Returns the exit status: 0 if there is an entry,
/// 1 if there is none; 3 if a text is refused, 4 if a file can't be read or standard output failed, 5 if out of memory. What failed is
/// reported.
pub fn explain<R: Files + Env + Loads + AllocGlobal, I: Read + Drop, W: Write, E: Write>(
    inputs: &mut Inputs<'_, R, I>,
    call: &Explain<'_>,
    out: &mut W,
    err: &mut E,
) -> u8
    ensures { IsStatus result }
{
    let source = call.reading.source;
    match located(inputs.rt, source) {
        Ok(read) => match put_explanation(inputs, call, &read, out) {
            Ok(true) => 0,
            Ok(false) => 1,
            Err(trouble) => report(&trouble, read.name(), inputs.rules, err),
        },
        Err(trouble) => report(&trouble, source.word(), inputs.rules, err),
    }
}

/// Prints an explanation, and returns whether the key has an entry.
fn put_explanation<R: Files + Env + Loads + AllocGlobal, I: Read + Drop, W: Write>(
    inputs: &mut Inputs<'_, R, I>,
    call: &Explain<'_>,
    read: &Located,
    out: &mut W,
) -> Result<bool, Trouble> {
    let asked = Traceable {
        key: Some(call.key),
        includes: call.reading.includes,
        is_null: call.is_null,
    };
    let traced = trace(inputs, asked, read)?;
    put(&lines_of(inputs.rt.alloc(), &traced, call)?, out)?;
    Ok(!traced.entries.is_empty())
}

/// The lines of an explanation.
fn lines_of(alloc: Global, traced: &Traced, call: &Explain<'_>) -> Result<Vec<u8>, AllocError> {
    let mut lines = Vec::new(alloc);
    let line = Fields {
        is_null: call.is_null,
    };
    if traced.entries.is_empty() && !call.is_null {
        add_missing(&mut lines, call.key)?;
    }
    let last = traced.entries.len();
    for (at, row) in traced.entries.iter().enumerate() {
        let note = if at + 1 == last {
            "counts"
        } else {
            "counts in lists"
        };
        line.add_row(&mut lines, row, note.as_bytes())?;
    }
    for include in &traced.includes {
        line.add_include(&mut lines, include)?;
    }
    Ok(lines)
}

/// Adds that no entry has a key.
fn add_missing(lines: &mut Vec<u8>, key: KeyRef<'_>) -> Result<(), AllocError> {
    let subsection_name = key.subsection_name;
    add_names(
        lines,
        key.section_name.as_bytes(),
        subsection_name,
        key.value_name.as_bytes(),
    )?;
    lines.extend_from_slice(b" has no entry\n")
}

/// How the fields of a line end.
#[derive(Clone, Copy)]
struct Fields {
    /// With a byte 0, each.
    is_null: bool,
}

impl Fields {
    /// Adds what stands between two fields.
    fn end_field(self, lines: &mut Vec<u8>) -> Result<(), AllocError> {
        Ok(lines.push(if self.is_null { 0 } else { b'\t' })?)
    }

    /// Adds a row, with what is said of it.
    fn add_row(self, lines: &mut Vec<u8>, row: &Row, note: &[u8]) -> Result<(), AllocError> {
        lines.extend_from_slice(row.scope.as_bytes())?;
        self.end_field(lines)?;
        self.add_place(lines, row)?;
        self.end_field(lines)?;
        lines.extend_from_slice(c_string(&row.names))?;
        self.add_value(lines, row)?;
        self.end_field(lines)?;
        lines.extend_from_slice(note)?;
        Ok(lines.push(if self.is_null { 0 } else { b'\n' })?)
    }

    /// Adds where a row stands, its file, its line and its column; each is a field of its own, if bytes 0 end them.
    fn add_place(self, lines: &mut Vec<u8>, row: &Row) -> Result<(), AllocError> {
        if !self.is_null {
            return row.add_place(lines);
        }
        lines.extend_from_slice(&row.origin)?;
        match row.position {
            Some(position) => {
                lines.push(0)?;
                add_number(lines, position.line)?;
                lines.push(0)?;
                add_number(lines, position.column)
            }
            None => lines.extend_from_slice(b"\0\0"),
        }
    }

    /// Adds the value of a row, if it has one; as a field of its own, if bytes 0 end them.
    fn add_value(self, lines: &mut Vec<u8>, row: &Row) -> Result<(), AllocError> {
        if self.is_null {
            lines.push(0)?;
        } else if row.value.is_some() {
            lines.push(b'=')?;
        }
        match &row.value {
            Some(value) => lines.extend_from_slice(c_string(value)),
            None => Ok(()),
        }
    }

    /// Adds an include, and whether it was followed.
    fn add_include(self, lines: &mut Vec<u8>, include: &Include) -> Result<(), AllocError> {
        let mut note = Vec::new(*lines.allocator());
        match &include.led_to {
            LedTo::File(path) if self.is_null => {
                note.extend_from_slice(b"followed: ")?;
                note.extend_from_slice(path.as_bytes())?;
            }
            LedTo::File(path) => {
                note.extend_from_slice(b"followed: ")?;
                add_quoted(&mut note, path.as_bytes())?;
            }
            LedTo::Nothing(why) => {
                note.extend_from_slice(b"not followed: ")?;
                note.extend_from_slice(why.as_bytes())?;
            }
        }
        self.add_row(lines, &include.row, &note)
    }
}
