//! Results as lines.
ghost use Rattle.std.specs.Iterator.{IsFinite};

use crate::answer::{Answer, Outcome};
use crate::kinds::letter_of;
use crate::refusal::Refusal;
use bstr::BString;
use gix_config::File;
use gix_config::file::{Metadata, Section, SectionId, SectionRef};
use gix_config::parse::{Error, EventRef};
use gix_config::refusals::Refusal as _;
use gix_config::source::{Source, Trust};
use gix_config::value::normalize;
use script_words::answers::{
    put_bytes, put_dashed, put_digits, put_digits_of, put_error, put_flag, put_integer, put_letter,
    put_number, put_optional, put_refused,
};
use std::alloc::{AllocError, Global};

/// The line that answers a command. Its first word says whether an allocation was refused, if that is known.
pub fn line_of(
    alloc: Global,
    refused: Option<bool>,
    outcome: &Outcome<'_>,
) -> Result<String, AllocError> {
    let mut line = String::new(alloc);
    put_refused(&mut line, refused)?;
    match outcome {
        Ok(answer) => put_answer(alloc, &mut line, answer)?,
        Err(refusal) => put_refusal(alloc, &mut line, refusal)?,
    }
    line.push('\n')?;
    Ok(line)
}

/// The first word of an answer.
fn first_word(answer: &Answer<'_>) -> &'static str {
    match answer {
        Answer::Absent => "none",
        Answer::Unknown => "unknown",
        _ => "ok",
    }
}

/// The words of an answer.
fn put_answer(alloc: Global, line: &mut String, answer: &Answer<'_>) -> Result<(), AllocError> {
    line.push_str(first_word(answer))?;
    match answer {
        Answer::Done | Answer::Absent | Answer::Unknown => Ok(()),
        Answer::Flag(flag) => put_flag(line, *flag),
        Answer::Number(number) => put_number(line, *number),
        Answer::Integer(number) => put_integer(line, *number),
        Answer::Bytes(bytes) => put_bytes(alloc, line, bytes.as_slice()),
        Answer::Path(path) => put_bytes(alloc, line, path.as_bytes()),
        Answer::Texts(texts) => put_texts(alloc, line, texts),
        Answer::Integers(numbers) => put_integers(line, numbers),
        Answer::Flags(flags) => put_flags(line, flags),
        Answer::TextsAt(found) => put_texts_at(alloc, line, found),
        Answer::FlagsAt(found) => put_flags_at(alloc, line, found),
        Answer::Optional(Some(bytes)) => put_bytes(alloc, line, bytes),
        Answer::Optional(None) => put_optional(alloc, line, None),
        Answer::Entry(name, meaning) => put_taken(alloc, line, name, meaning),
        Answer::Words(words) => line.push_str(words),
        Answer::Message(refusal) => put_message(alloc, line, refusal),
        Answer::Events(events) => put_events(alloc, line, events.iter()),
        Answer::Kept(events) => {
            put_flag(line, events.keeps_entries())?;
            put_events(alloc, line, events.iter())
        }
        Answer::Front(file) => match file.frontmatter() {
            Some(events) => put_events(alloc, line, events),
            None => Ok(()),
        },
        Answer::Body(section) => put_events(alloc, line, section.events()),
        Answer::Held(section) => put_events(alloc, line, section.held_events()),
        Answer::Alone(section) => put_section(alloc, line, section),
        Answer::Id(id) => put_id_word(alloc, line, *id),
        Answer::Ids(ids) => put_ids(alloc, line, ids),
        Answer::Names(section) => put_value_names(alloc, line, section),
        Answer::Header(section, text) => {
            put_names(alloc, line, section)?;
            put_flag(line, section.header().is_legacy())?;
            put_bytes(alloc, line, text)
        }
        Answer::Dump(file) => put_sections(alloc, line, file),
        Answer::Origin(meta) => put_origin(alloc, line, meta),
    }
}

/// Where a section comes from: the path of its file, its source, how many includes led to it, and how far it is
/// trusted.
fn put_origin(alloc: Global, line: &mut String, meta: &Metadata) -> Result<(), AllocError> {
    match &meta.path {
        Some(path) => put_bytes(alloc, line, path.as_bytes())?,
        None => put_optional(alloc, line, None)?,
    }
    line.push_str(source_word(meta.source))?;
    put_number(line, meta.level as usize)?;
    line.push_str(trust_word(meta.trust))
}

/// A source as a word, after a blank.
fn source_word(source: Source) -> &'static str {
    match source {
        Source::GitInstallation => " installation",
        Source::System => " system",
        Source::Git => " git",
        Source::User => " user",
        Source::Local => " local",
        Source::Worktree => " worktree",
        Source::Env => " env",
        Source::Cli => " cli",
        Source::Api => " api",
        Source::EnvOverride => " override",
    }
}

/// Trust as a word, after a blank.
fn trust_word(trust: Trust) -> &'static str {
    match trust {
        Trust::Reduced => " reduced",
        Trust::Full => " full",
    }
}

/// The name of an entry, and what it means.
fn put_taken(
    alloc: Global,
    line: &mut String,
    name: &str,
    meaning: &[u8],
) -> Result<(), AllocError> {
    put_bytes(alloc, line, name.as_bytes())?;
    put_bytes(alloc, line, meaning)
}

fn put_texts(alloc: Global, line: &mut String, texts: &[BString]) -> Result<(), AllocError> {
    for text in texts {
        put_bytes(alloc, line, text)?;
    }
    Ok(())
}

fn put_integers(line: &mut String, numbers: &[i64]) -> Result<(), AllocError> {
    for number in numbers {
        put_integer(line, *number)?;
    }
    Ok(())
}

fn put_flags(line: &mut String, flags: &[bool]) -> Result<(), AllocError> {
    for flag in flags {
        put_flag(line, *flag)?;
    }
    Ok(())
}

/// Texts, each with the number of a section after it.
fn put_texts_at(
    alloc: Global,
    line: &mut String,
    found: &[(BString, SectionId)],
) -> Result<(), AllocError> {
    for (text, id) in found {
        put_bytes(alloc, line, text)?;
        put_id_word(alloc, line, *id)?;
    }
    Ok(())
}

/// `true` or `false`, each with the number of a section after it.
fn put_flags_at(
    alloc: Global,
    line: &mut String,
    found: &[(bool, SectionId)],
) -> Result<(), AllocError> {
    for (flag, id) in found {
        put_flag(line, *flag)?;
        put_id_word(alloc, line, *id)?;
    }
    Ok(())
}

fn put_refusal(alloc: Global, line: &mut String, refusal: &Refusal) -> Result<(), AllocError> {
    match refusal {
        Refusal::Line => line.push_str("refused"),
        Refusal::Numbered(number) => put_error(line, *number),
        Refusal::Mistyped(wanted) => {
            put_error(line, 11)?;
            line.push(' ')?;
            line.push_str(wanted)
        }
        Refusal::Unread(error) => put_unread(alloc, line, error),
        Refusal::Unwritten(fault, taken) => {
            put_error(line, fault.number())?;
            put_bytes(alloc, line, taken)
        }
    }
}

/// The parser's error: the line, the kind with `-` for its blank, and the data.
fn put_unread(alloc: Global, line: &mut String, refusal: &Error) -> Result<(), AllocError> {
    put_error(line, refusal.number())?;
    put_number(line, refusal.line_number())?;
    put_dashed(line, refusal.kind())?;
    put_bytes(alloc, line, refusal.remaining_data())
}

fn put_message(alloc: Global, line: &mut String, refusal: &Error) -> Result<(), AllocError> {
    let text = refusal.to_string(alloc)?;
    put_bytes(alloc, line, text.as_bytes())
}

fn put_events<'a, I: Iterator<Item = EventRef<'a>>>(
    alloc: Global,
    line: &mut String,
    events: I,
) -> Result<(), AllocError>
    requires can { I.can_next events }
    requires ends { IsFinite (I.remaining events) }
{
    for event in events {
        put_event(alloc, line, &event)?;
    }
    Ok(())
}

/// An event as its letter and its bytes: a header and a comment as they are written, any other event by its text.
fn put_event(alloc: Global, line: &mut String, event: &EventRef<'_>) -> Result<(), AllocError> {
    put_letter(line, letter_of(event))?;
    match event {
        EventRef::SectionHeader { .. } | EventRef::Comment { .. } => {
            match event.to_bstring(alloc) {
                Ok(text) => put_digits(alloc, line, &text),
                Err(_) => Err(AllocError),
            }
        }
        _ => put_digits(alloc, line, event.to_bstr_lossy()),
    }
}

/// Each section: its number, its names and its entries, in brackets.
fn put_sections(alloc: Global, line: &mut String, file: &File) -> Result<(), AllocError> {
    for section in file.sections() {
        line.push_str(" [")?;
        put_id(alloc, line, section.id())?;
        put_names(alloc, line, &section)?;
        put_entries(alloc, line, &section)?;
        line.push_str(" ]")?;
    }
    Ok(())
}

/// The name and the subsection of a section.
fn put_names(alloc: Global, line: &mut String, section: &SectionRef<'_>) -> Result<(), AllocError> {
    let header = section.header();
    put_bytes(alloc, line, header.name())?;
    put_optional(alloc, line, header.subsection_name())
}

/// The number of a section as a word.
fn put_id_word(alloc: Global, line: &mut String, id: SectionId) -> Result<(), AllocError> {
    line.push(' ')?;
    put_id(alloc, line, id)
}

fn put_ids(alloc: Global, line: &mut String, ids: &[SectionId]) -> Result<(), AllocError> {
    for id in ids {
        put_id_word(alloc, line, *id)?;
    }
    Ok(())
}

fn put_value_names(
    alloc: Global,
    line: &mut String,
    section: &SectionRef<'_>,
) -> Result<(), AllocError> {
    for name in section.value_names() {
        put_bytes(alloc, line, name.as_bytes())?;
    }
    Ok(())
}

/// The text of a section that is in no file.
fn put_section(alloc: Global, line: &mut String, section: &Section) -> Result<(), AllocError> {
    match section.to_ref().to_bstring() {
        Ok(text) => put_bytes(alloc, line, &text),
        Err(_) => Err(AllocError),
    }
}

/// The number of a section, which the library shows only by `Debug`.
pub fn put_id(alloc: Global, line: &mut String, id: SectionId) -> Result<(), AllocError> {
    let shown = format!(in alloc; "{id:?}")?;
    put_digits_of(line, &shown)
}

/// Each entry: its name, and its value; no value for an entry without `=`.
fn put_entries(
    alloc: Global,
    line: &mut String,
    section: &SectionRef<'_>,
) -> Result<(), AllocError> {
    // The pieces of a value so far, and whether a separator comes before them.
    let mut raw = Vec::new(alloc);
    let mut is_separated = false;
    for event in section.events() {
        match event {
            EventRef::SectionValueName(name) => {
                put_bytes(alloc, line, name)?;
                raw.clear();
                is_separated = false;
            }
            EventRef::KeyValueSeparator => is_separated = true,
            EventRef::ValueNotDone(piece) => raw.extend_from_slice(piece)?,
            EventRef::Value(last) | EventRef::ValueDone(last) => {
                raw.extend_from_slice(last)?;
                put_value(alloc, line, is_separated, &raw)?;
            }
            _ => {}
        }
    }
    Ok(())
}

/// The meaning of a raw value; none if there is no `=`.
fn put_value(
    alloc: Global,
    line: &mut String,
    is_separated: bool,
    raw: &[u8],
) -> Result<(), AllocError> {
    if !is_separated {
        return put_optional(alloc, line, None);
    }
    match normalize(alloc, raw) {
        Ok(meaning) => put_bytes(alloc, line, meaning.as_slice()),
        Err(_) => Err(AllocError),
    }
}
