//! The entries of a section, with those that have no value.
ghost use Rattle.std.specs.Prelude.{drop, length, take, ◌≤◌, ◌≡◌, ◌++◌, ◌∷◌, ℕ, List, [], map, true, None, option_map, IfOk, Some, if◌then◌else◌};
ghost use Rattle.std.specs.Option.{option_copied, option_eq};
ghost use Rattle.std.specs.Str.{bytes_eq};
ghost use Rattle.bstr.specs.Owned.{bstring_bytes};
ghost use Rattle.gitconf_text.specs.Bytes.{fold};
ghost use Rattle.gitconf_text.specs.Document.{document_entry};
ghost use Rattle.gitconf_text.specs.Header.{name_of, subsection_of};
ghost use Rattle.gitconf_text.specs.Value.{plain};
ghost use Rattle.gitconf_items.specs.Items.{entry_of};
ghost use Rattle.gitconf_sources.specs.Key.{key_of};
ghost use Rattle.gitconf_state.specs.Lookup.{is_named, listing};
ghost use Rattle.gitconf_views.specs.Views.{shown};
ghost use Rattle.gixcfg_core.specs.CStrings.{c_string, has_null};
ghost use Rattle.gixcfg_core.specs.Entries.{found_in, found_of, has_dot, is_listed_under, is_sought, names_part, plain_found, section_lines, section_names, value_part, values_of_name};
ghost use Rattle.gixcfg_core.specs.Pieces.{IsGivenBut};

use crate::c_strings::c_string;
use crate::lines::{Line, add_value};
use crate::names::{add_in_lower_case, add_names, add_section_names};
use crate::streams::put_if_whole;
use crate::trouble::Trouble;
use bstr::BString;
use gitconf_body::entries::next_entry;
use gitconf_body::meanings::entry_value;
use gitconf_items::entry::{AssignedRef, Entry};
use gitconf_sources::key::KeyRef;
use gitconf_text::NoMemory;
use gitconf_text::value::normalize;
use gitconf_views::section::SectionRef;
use std::alloc::{AllocError, Global};
use std::borrow::CowSlice;
use std::io::Write;

/// An entry: its names with dots between them, and its value. An entry without `=` has none.
#[derive(Drop)]
pub struct Found {
    /// What is printed before it.
    pub before: Vec<u8>,
    /// Its names.
    pub names: Vec<u8>,
    /// Its value.
    pub value: Option<BString>,
}

impl Found {
    /// The bytes of its value.
    pub fn value(&self) -> Option<&[u8]>
        ensures { option_copied result ≡ option_map bstring_bytes self.now.value }
    {
        match &self.value {
            Some(value) => Some(value.as_bytes()),
            None => None,
        }
    }
}

/// Which entries of a section are found, and how they are told.
#[derive(Clone, Copy)]
pub struct Sought<'a> {
    /// What is printed before each.
    pub before: &'a [u8],
    /// The name that they have; any if there is none.
    pub value_name: Option<&'a str>,
    /// Whether the subsection is among their names.
    pub has_subsection: bool,
}

/// Whether an entry is sought, by its name.
fn is_sought(section: &SectionRef<'_>, entry: &Entry, wanted: Option<&str>) -> bool
    ensures { result ≡ is_sought (option_copied wanted.entry) (document_entry (entry_of section.now.buffer.now entry.now)) }
{
    match wanted {
        Some(name) => name
            .as_bytes()
            .eq_ignore_ascii_case(entry.name().bytes_in(section.buffer)),
        None => true,
    }
}

/// What is found of an entry of a section.
fn found_entry(
    section: &SectionRef<'_>,
    entry: &Entry,
    before: &[u8],
    subsection_name: Option<&[u8]>,
) -> Result<Found, NoMemory>
    ensures { let e = document_entry (entry_of section.now.buffer.now entry.now) in
        IfOk result (λ f. plain_found f ≡ found_of before.now (option_copied subsection_name.entry) (shown section.now) e) }
{
    let mut names = Vec::new(section.alloc);
    let value_name = entry.name().bytes_in(section.buffer);
    add_names(
        &mut names,
        section.header().name(),
        subsection_name,
        value_name,
    )?;
    Ok(Found {
        before: before.to_vec(section.alloc)?,
        names,
        value: entry_value(section.alloc, section.buffer, entry)?,
    })
}

/// The subsection that is among the names of what is found, if one is.
fn subsection_told<'a>(section: &SectionRef<'a>, sought: &Sought<'_>) -> Option<&'a [u8]>
    ensures { option_copied result ≡ (if sought.now.has_subsection then subsection_of (shown section.now).header else None) }
{
    if sought.has_subsection {
        section.header().subsection_name()
    } else {
        None
    }
}

/// Adds the entries of a section that are sought. One walk over its items; what isn't sought isn't decoded.
///
/// # Errors
///
/// Out of memory.
pub fn add_found(
    found: &mut Vec<Found>,
    section: &SectionRef<'_>,
    sought: &Sought<'_>,
) -> Result<(), NoMemory>
    ensures { IfOk result (λ _. map plain_found found.new.items ≡ map plain_found found.old.items
        ++ found_in sought.now.before.now (if sought.now.has_subsection then subsection_of (shown section.now).header else None)
        (option_copied sought.now.value_name) (shown section.now)) }
{
    let subsection_name = subsection_told(section, sought);
    let mut rest = section.items;
    while let Some((entry, behind)) = next_entry(rest) {
        if is_sought(section, entry, sought.value_name) {
            found.push(found_entry(section, entry, sought.before, subsection_name)?)?;
        }
        rest = behind;
    }
    Ok(())
}

/// Gives a stream the entries of a section, a line each. All have the same before their names. First comes what is held back, and of all
/// that the end may be held back, less than a piece. One walk over the items; a value takes memory of its own only if it has a quote or a
/// backslash, or goes on over lines.
///
/// # Errors
///
/// The stream fails; out of memory. It was given a beginning.
pub fn put_lines<W: Write>(
    held: &mut Vec<u8>,
    line: &Line,
    before: &[u8],
    section: &SectionRef<'_>,
    out: &mut W,
) -> Result<(), Trouble>
    ensures { IsGivenBut (held.old.items ++ section_lines line.now before.now (shown section.now)) held.new.items result
        (W.contents out.old) (W.contents out.new) }
{
    let head = head_of(line, before, section)?;
    let mut rest = section.items;
    while let Some((entry, behind)) = next_entry(rest) {
        add_line(held, line, &head, section, entry)?;
        put_if_whole(held, out)?;
        rest = behind;
    }
    Ok(())
}

/// What the lines of a section's entries begin with.
#[derive(Drop)]
struct Head {
    /// What is printed before an entry, and the names of its section.
    text: Vec<u8>,
    /// Whether the entry's own name comes behind that.
    has_name: bool,
}

/// The same of a section.
fn head_of(line: &Line, before: &[u8], section: &SectionRef<'_>) -> Result<Head, NoMemory>
    ensures { let header = (shown section.now).header in
        IfOk result (λ head. (name : List ℕ) → head.text.items ++ (if head.has_name then c_string name else [])
        ≡ before.now ++ names_part line.now (section_names (name_of header) (subsection_of header) ++ name)) }
{
    let mut text = before.to_vec(section.alloc)?;
    if !line.has_names {
        return Ok(Head {
            text,
            has_name: false,
        });
    }
    let header = section.header();
    add_section_names(&mut text, header.name(), header.subsection_name())?;
    let has_name = !end_at_null(&mut text, before.len());
    Ok(Head { text, has_name })
}

/// Ends a text at the first byte 0 from an offset on, and returns whether there was one.
fn end_at_null(text: &mut Vec<u8>, from: usize) -> bool
    requires { from ≤ length text.old.items }
    ensures had { result ≡ has_null (drop from text.old.items) }
    ensures ended { text.new.items ≡ take from text.old.items ++ c_string (drop from text.old.items) }
{
    let ended = text.as_slice().split_at(from).1;
    let kept = c_string(ended).len();
    let had = kept < ended.len();
    text.truncate(from + kept);
    had
}

/// Adds the line of an entry, which begins with this.
fn add_line(
    lines: &mut Vec<u8>,
    line: &Line,
    head: &Head,
    section: &SectionRef<'_>,
    entry: &Entry,
) -> Result<(), NoMemory>
    ensures { let e = document_entry (entry_of section.now.buffer.now entry.now) in
        IfOk result (λ _. lines.new.items ≡ lines.old.items
        ++ (head.now.text.items ++ ((if head.now.has_name then c_string (fold e.name) else []) ++ (value_part line.now (option_map plain e.raw) ++ line.now.end ∷ [])))) }
{
    lines.extend_from_slice(&head.text)?;
    if head.has_name {
        add_name(lines, entry.name().bytes_in(section.buffer))?;
    }
    add_meaning(lines, line, section, entry)?;
    lines.push(line.end)?;
    Ok(())
}

/// Adds the name of an entry in lower case.
fn add_name(lines: &mut Vec<u8>, name: &[u8]) -> Result<(), AllocError>
    ensures { IfOk result (λ _. lines.new.items ≡ lines.old.items ++ c_string (fold name.now)) }
{
    add_in_lower_case(lines, c_string(name))
}

/// Adds what an entry's value means, as it is printed.
fn add_meaning(
    lines: &mut Vec<u8>,
    line: &Line,
    section: &SectionRef<'_>,
    entry: &Entry,
) -> Result<(), NoMemory>
    ensures { let e = document_entry (entry_of section.now.buffer.now entry.now) in
        IfOk result (λ _. lines.new.items ≡ lines.old.items ++ value_part line.now (option_map plain e.raw)) }
{
    match entry.assigned() {
        AssignedRef::Nothing => Ok(()),
        AssignedRef::Plain { value, .. } => add_decoded(
            section.alloc,
            lines,
            line,
            value.bytes_in(section.buffer),
        ),
        AssignedRef::Continued(_) => match entry_value(section.alloc, section.buffer, entry)? {
            Some(value) => Ok(add_value(lines, line, Some(value.as_bytes()))?),
            None => Ok(()),
        },
    }
}

/// Adds what the text of a value means, as it is printed.
fn add_decoded(alloc: Global, lines: &mut Vec<u8>, line: &Line, raw: &[u8]) -> Result<(), NoMemory>
    ensures { IfOk result (λ _. lines.new.items ≡ lines.old.items ++ value_part line.now (Some (plain raw.now))) }
{
    match normalize(alloc, raw)? {
        CowSlice::Borrowed(text) => Ok(add_value(lines, line, Some(text))?),
        CowSlice::Owned(text) => Ok(add_value(lines, line, Some(&text))?),
    }
}

/// Whether an entry of a section means this; nothing for one without `=`. It takes memory only for a value that has a quote or a
/// backslash, or goes on over lines.
///
/// # Errors
///
/// Out of memory.
pub fn means(
    section: &SectionRef<'_>,
    entry: &Entry,
    value: Option<&[u8]>,
) -> Result<bool, NoMemory>
    ensures { let e = document_entry (entry_of section.now.buffer.now entry.now) in
        IfOk result (λ is. is ≡ option_eq bytes_eq (option_map plain e.raw) (option_copied value.entry)) }
{
    match entry.assigned() {
        AssignedRef::Nothing => Ok(value.is_none()),
        AssignedRef::Plain { value: raw, .. } => {
            is_decoded(section.alloc, raw.bytes_in(section.buffer), value)
        }
        AssignedRef::Continued(_) => match entry_value(section.alloc, section.buffer, entry)? {
            Some(own) => Ok(Some(own.as_bytes()) == value),
            None => Ok(value.is_none()),
        },
    }
}

/// Whether the text of a value means this.
fn is_decoded(alloc: Global, raw: &[u8], value: Option<&[u8]>) -> Result<bool, NoMemory>
    ensures { IfOk result (λ is. is ≡ option_eq bytes_eq (Some (plain raw.now)) (option_copied value.entry)) }
{
    match normalize(alloc, raw)? {
        CowSlice::Borrowed(text) => Ok(Some(text) == value),
        CowSlice::Owned(text) => Ok(Some(text.as_slice()) == value),
    }
}

/// Adds the values of a section's entries of a name; none for one without `=`.
///
/// # Errors
///
/// Out of memory.
pub fn add_values(
    values: &mut Vec<Option<BString>>,
    section: &SectionRef<'_>,
    value_name: &str,
) -> Result<(), NoMemory>
    ensures { IfOk result (λ _. map (option_map bstring_bytes) values.new.items
        ≡ map (option_map bstring_bytes) values.old.items ++ values_of_name value_name.now (shown section.now)) }
{
    let mut rest = section.items;
    while let Some((entry, behind)) = next_entry(rest) {
        if is_sought(section, entry, Some(value_name)) {
            values.push(entry_value(section.alloc, section.buffer, entry)?)?;
        }
        rest = behind;
    }
    Ok(())
}

/// Whether a section has the names of a key.
pub fn is_named(section: &SectionRef<'_>, key: KeyRef<'_>) -> bool
    ensures { result ≡ is_named (key_of key.entry).section (key_of key.entry).subsection (listing (shown section.now)) }
{
    has_names(section, key.section_name, key.subsection_name)
}

/// Whether `list` prints the entries of a section under the names of a key. That of a section `[a.b "c"]` has the dot of its name before
/// its subsection, and so is found by a key whose subsection is `b.c`. Takes memory only for a section that has a dot in its name.
///
/// # Errors
///
/// Out of memory.
pub fn is_listed_under(section: &SectionRef<'_>, key: KeyRef<'_>) -> Result<bool, AllocError>
    ensures { IfOk result (λ is. is ≡ is_listed_under (key_of key.entry) (shown section.now)) }
{
    let header = section.header();
    if !has_dot(header.name()) {
        return Ok(is_named(section, key));
    }
    let mut names = Vec::new(section.alloc);
    add_section_names(&mut names, header.name(), header.subsection_name())?;
    let mut wanted = Vec::new(section.alloc);
    add_section_names(
        &mut wanted,
        key.section_name.as_bytes(),
        key.subsection_name,
    )?;
    Ok(names.as_slice() == wanted.as_slice())
}

/// Whether there is a dot in a name.
fn has_dot(name: &[u8]) -> bool
    ensures { result ≡ has_dot name.now }
{
    name.contains(&b'.')
}

/// Whether a section has this name, without ASCII case, and exactly this subsection.
pub fn has_names(section: &SectionRef<'_>, name: &str, subsection_name: Option<&[u8]>) -> bool
    ensures { result ≡ is_named name.now (option_copied subsection_name.entry) (listing (shown section.now)) }
{
    let header = section.header();
    name.as_bytes().eq_ignore_ascii_case(header.name())
        && header.subsection_name() == subsection_name
}
