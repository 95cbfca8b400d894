//! What git makes of a text that the library reads.

use gitconf_body::entries::next_entry;
use gitconf_items::entry::Entry;
use gitconf_views::section::SectionRef;
use gix_config::{File, NoMemory};
use gixcfg_core::entries::means;
use gixcfg_core::git_reading::{GitEntry, GitWalk, Stop};
use gixcfg_core::message::message_of_git;
use gixcfg_core::names::add_section_names;
use std::alloc::Global;

/// A place at which git makes something else of a text.
#[derive(Clone, Copy)]
struct Difference {
    /// Where it is, in bytes.
    at: usize,
    /// What git makes of it.
    what: &'static str,
}

/// The messages of all places of a text at which git reads it otherwise. The text has this name. At these places git refuses it, or reads
/// something else than the file that the library reads.
///
/// # Errors
///
/// Out of memory.
pub fn messages_of_git(
    alloc: Global,
    name: &str,
    text: &[u8],
    file: &File,
) -> Result<Vec<String>, NoMemory> {
    let mut messages = Vec::new(alloc);
    for difference in differences(alloc, text, file)? {
        let Difference { at, what } = difference;
        messages.push(message_of_git(alloc, name, text, at, what)?)?;
    }
    Ok(messages)
}

/// The message that git takes a text which the library refuses, if git does. The text has this name, and the library refuses it where so
/// many bytes are left.
///
/// # Errors
///
/// Out of memory.
pub fn message_if_git_reads(
    alloc: Global,
    name: &str,
    text: &[u8],
    left: usize,
) -> Result<Option<String>, NoMemory> {
    match read_on(&mut GitWalk::new(alloc, text)) {
        Ok(()) => {
            let at = text.len().saturating_sub(left);
            Ok(Some(message_of_git(alloc, name, text, at, "reads this text")?))
        }
        Err(Stop::Refused(..)) => Ok(None),
        Err(Stop::Memory) => Err(NoMemory),
    }
}

/// All places at which git reads something else, or refuses the text.
fn differences(alloc: Global, text: &[u8], file: &File) -> Result<Vec<Difference>, NoMemory> {
    let mut found = Vec::new(alloc);
    match compare_all(alloc, &mut GitWalk::new(alloc, text), file, &mut found) {
        Ok(()) => {}
        Err(Stop::Refused(at, why)) => add(&mut found, at, why.words())?,
        Err(Stop::Memory) => return Err(NoMemory),
    }
    Ok(found)
}

/// Adds all places at which git reads something else, up to where it refuses the text.
fn compare_all(
    alloc: Global,
    walk: &mut GitWalk<'_>,
    file: &File,
    found: &mut Vec<Difference>,
) -> Result<(), Stop> {
    let mut has_entry = is_behind_front(walk, found)?;
    let mut names = Vec::new(alloc);
    for section in file.sections() {
        has_entry = compare_section(walk, has_entry, &section, &mut names, found)?;
    }
    read_on(walk)
}

/// Reads the entries before the first section, each of which is a difference, and the one behind them, and returns whether there is one.
fn is_behind_front(walk: &mut GitWalk<'_>, found: &mut Vec<Difference>) -> Result<bool, Stop> {
    while walk.advance()? {
        let entry = walk.entry();
        if !entry.section.is_empty() {
            return Ok(true);
        }
        add(found, entry.at, "an entry before the first section")?;
    }
    Ok(false)
}

/// Compares the entries of a section with those that git reads, the first of which was read, if there is one, and returns whether there is
/// one behind them. `names` is room for their names.
fn compare_section(
    walk: &mut GitWalk<'_>,
    has_entry: bool,
    section: &SectionRef<'_>,
    names: &mut Vec<u8>,
    found: &mut Vec<Difference>,
) -> Result<bool, Stop> {
    let header = section.header();
    let is_include = is_include_of_git(header.name());
    names.clear();
    add_section_names(names, header.name(), header.subsection_name())?;
    let (mut rest, mut has_more) = (section.items, has_entry);
    while let Some((entry, behind)) = next_entry(rest) {
        if !has_more {
            return Ok(false);
        }
        let of_git = walk.entry();
        if is_include && is_path(section, entry) {
            add(
                found,
                of_git.at,
                "includes this path, since case counts for nothing",
            )?;
        }
        compare(section, entry, names, &of_git, found)?;
        has_more = walk.advance()?;
        rest = behind;
    }
    Ok(has_more)
}

/// Reads a text to its end.
fn read_on(walk: &mut GitWalk<'_>) -> Result<(), Stop> {
    while walk.advance()? {}
    Ok(())
}

/// Adds a difference.
fn add(found: &mut Vec<Difference>, at: usize, what: &'static str) -> Result<(), NoMemory> {
    Ok(found.push(Difference { at, what })?)
}

/// Whether only git takes a section of this name for one that includes.
fn is_include_of_git(name: &[u8]) -> bool {
    let is_include = name.eq_ignore_ascii_case(b"include") && name != b"include".as_slice();
    let is_conditional = name.eq_ignore_ascii_case(b"includeIf") && name != b"includeIf".as_slice();
    is_include || is_conditional
}

/// Whether an entry names what is included.
fn is_path(section: &SectionRef<'_>, entry: &Entry) -> bool {
    let name = entry.name().bytes_in(section.buffer);
    name.eq_ignore_ascii_case(b"path")
}

/// Adds how git reads an entry of a section of these names, if that is another way.
fn compare(
    section: &SectionRef<'_>,
    entry: &Entry,
    names: &[u8],
    of_git: &GitEntry<'_>,
    found: &mut Vec<Difference>,
) -> Result<(), NoMemory> {
    let name = entry.name().bytes_in(section.buffer);
    if names != of_git.section || !name.eq_ignore_ascii_case(of_git.name) {
        add(found, of_git.at, "reads another key")?;
    } else if !means(section, entry, of_git.value)? {
        add(found, of_git.at, "reads another value")?;
    }
    Ok(())
}
