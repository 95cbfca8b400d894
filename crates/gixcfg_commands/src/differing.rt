//! `diff`: what two files mean differently.
ghost use Rattle.std.specs.Prelude.{◌≡◌, ◌++◌, IfErr, IfOk, flat_map, map, option_map};
ghost use Rattle.std.specs.Option.{option_copied};
ghost use Rattle.bstr.specs.Owned.{bstring_bytes};
ghost use Rattle.gitconf_diff.specs.Differences.{different_of};
ghost use Rattle.gixcfg_core.specs.Troubles.{IsStatus};
ghost use Rattle.gixcfg_commands.specs.Differing.{AreDifferenceLines, difference_line};

use crate::named::file_at;
use bstr::BString;
use gitconf_items::event_ref::EventRef;
use gix_config::diff::{Difference, Side, differences};
use gix_config::{File, NoMemory};
use gixcfg_core::lines::{Line, add_entry};
use gixcfg_core::names::add_names;
use gixcfg_core::outside::Inputs;
use gixcfg_core::trouble::{Trouble, report};
use gixcfg_words::command::Diff;
use gixcfg_words::rules::Rules;
use gixcfg_words::shown::Shown;
use std::alloc::{AllocError, AllocGlobal, Global};
use std::io::{Read, Write};
use std::rt::Files;

/// Prints what two files mean differently, and returns the exit status: 0 if they mean the same, 1 if not; 3 if the text of one is
/// refused, 4 if one can't be read or standard output failed, 5 if out of memory. What failed is reported.
pub fn diff<R: Files + AllocGlobal, I: Read + Drop, W: Write, E: Write>(
    inputs: &mut Inputs<'_, R, I>,
    call: &Diff<'_>,
    out: &mut W,
    err: &mut E,
) -> u8
    ensures { IsStatus result }
{
    match lines_of(inputs, call, err) {
        Ok(lines) => put_lines(&lines, call.is_quiet, out, err),
        Err(status) => status,
    }
}

/// What two files mean differently, a line for each entry; or the exit status, when it was reported why there is none.
fn lines_of<R: Files + AllocGlobal, I: Read + Drop, E: Write>(
    inputs: &mut Inputs<'_, R, I>,
    call: &Diff<'_>,
    err: &mut E,
) -> Result<Vec<u8>, u8>
    ensures { IfErr result IsStatus }
{
    let one = file_or_status(inputs, call.one, err)?;
    let other = file_or_status(inputs, call.other, err)?;
    match lines_between(inputs.rt.alloc(), &one, &other, call.is_null) {
        Ok(lines) => Ok(lines),
        Err(_) => Err(report(&Trouble::Memory, "", inputs.rules, err)),
    }
}

/// The file that a word names, or the exit status, when it was reported why there is none.
fn file_or_status<R: Files + AllocGlobal, I: Read + Drop, E: Write>(
    inputs: &mut Inputs<'_, R, I>,
    word: &str,
    err: &mut E,
) -> Result<File, u8>
    ensures { IfErr result IsStatus }
{
    match file_told(inputs, word, err) {
        Ok(file) => Ok(file),
        Err(trouble) => Err(report(&trouble, word, inputs.rules, err)),
    }
}

/// The file that a word names. It is told if it has entries that aren't compared. A failed write changes no status.
fn file_told<R: Files + AllocGlobal, I: Read + Drop, E: Write>(
    inputs: &mut Inputs<'_, R, I>,
    word: &str,
    err: &mut E,
) -> Result<File, Trouble> {
    let file = file_at(inputs, word)?;
    if has_front(&file) {
        let message = front_message(inputs.rt.alloc(), word, "compared")?;
        let _ = err.write_all(message.as_bytes());
    }
    Ok(file)
}

/// Whether a file has entries before its first section, which no section has.
pub fn has_front(file: &File) -> bool {
    match file.frontmatter() {
        Some(mut events) => events.any(|event| matches!(event, EventRef::SectionValueName(_))),
        None => false,
    }
}

/// What is told of a file with such entries, with which this isn't done.
pub fn front_message(alloc: Global, name: &str, done: &str) -> Result<String, AllocError> {
    let name = Shown(name);
    format!(in alloc; "gixcfg: {name}: entries before the first section aren't {done}\n")
}

/// Prints lines, unless nothing is to be printed, and returns 0 if there are none, else 1.
fn put_lines<W: Write, E: Write>(lines: &[u8], is_quiet: bool, out: &mut W, err: &mut E) -> u8
    ensures { IsStatus result }
{
    if lines.is_empty() {
        return 0;
    }
    if is_quiet {
        return 1;
    }
    match out.write_all(lines) {
        Ok(()) => 1,
        Err(_) => report(&Trouble::Output, "", Rules::Git, err),
    }
}

/// The same of files that are read.
fn lines_between(
    alloc: Global,
    one: &File,
    other: &File,
    is_null: bool,
) -> Result<Vec<u8>, NoMemory>
    ensures { IfOk result (λ lines. AreDifferenceLines is_null one.now other.now lines.items) }
{
    let found = differences(alloc, one, other)?;
    all_lines(alloc, &found, is_null)
}

/// Differences, a line each.
fn all_lines(alloc: Global, found: &[Difference], is_null: bool) -> Result<Vec<u8>, NoMemory>
    ensures { IfOk result (λ lines. lines.items ≡ flat_map (difference_line is_null) (map different_of found.now)) }
{
    let mut lines = Vec::new(alloc);
    for difference in found {
        add_difference(alloc, &mut lines, is_null, difference)?;
    }
    Ok(lines)
}

/// Adds the line of an entry.
fn add_difference(
    alloc: Global,
    lines: &mut Vec<u8>,
    is_null: bool,
    difference: &Difference,
) -> Result<(), NoMemory>
    ensures { IfOk result (λ _. lines.new.items ≡ lines.old.items ++ difference_line is_null (different_of difference.now)) }
{
    let mut names = Vec::new(alloc);
    add_names(
        &mut names,
        difference.section_name.as_bytes(),
        bytes_of(&difference.subsection_name),
        difference.value_name.as_bytes(),
    )?;
    let sign: &[u8] = match difference.side {
        Side::One => b"-",
        Side::Other => b"+",
    };
    let line = Line::of_differences(is_null);
    Ok(add_entry(lines, &line, sign, &names, bytes_of(&difference.value))?)
}

/// The bytes of a text, if there is one.
pub fn bytes_of(text: &Option<BString>) -> Option<&[u8]>
    ensures { option_copied result ≡ option_map bstring_bytes text.now }
{
    match text {
        Some(text) => Some(text.as_bytes()),
        None => None,
    }
}
