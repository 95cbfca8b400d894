//! Commands that look up values of a key with their sections, or in a type that the caller names: [`Boolean`].

use crate::answer::{Answer, Outcome};
use crate::gix_config::file::{SectionId, SectionRef};
use crate::gix_config::{Boolean, File};
use crate::refusal::Refusal;
use bstr::BString;
use script_words::arguments::names;
use script_words::words::Word;
use std::alloc::Global;

/// `rawwith KEY3`: the meaning of the last value, and its section.
pub fn rawwith<'a>(alloc: Global, file: &File, words: &[Word<'_>]) -> Outcome<'a> {
    let names = names(words)?;
    match file.raw_value_with_section_by(names.section, names.subsection, names.value) {
        Ok((text, section)) => Ok(Answer::TextsAt(one(alloc, (text, section.id()))?)),
        Err(refusal) => Err(Refusal::from(refusal)),
    }
}

/// `rawswith KEY3`: the meanings of all values, each with its section.
pub fn rawswith<'a>(alloc: Global, file: &File, words: &[Word<'_>]) -> Outcome<'a> {
    let names = names(words)?;
    match file.raw_values_with_sections_by(names.section, names.subsection, names.value) {
        Ok(found) => Ok(Answer::TextsAt(numbered(alloc, found)?)),
        Err(refusal) => Err(Refusal::from(refusal)),
    }
}

/// `flag KEY3`: the last value as a `Boolean`.
pub fn flag<'a>(file: &File, words: &[Word<'_>]) -> Outcome<'a> {
    let names = names(words)?;
    let value: Boolean = file.value_by(names.section, names.subsection, names.value)?;
    Ok(Answer::Flag(value.0))
}

/// `tryflag KEY3`: the same, or nothing.
pub fn tryflag<'a>(file: &File, words: &[Word<'_>]) -> Outcome<'a> {
    let names = names(words)?;
    let value: Option<Boolean> = file.try_value_by(names.section, names.subsection, names.value)?;
    match value {
        Some(value) => Ok(Answer::Flag(value.0)),
        None => Ok(Answer::Absent),
    }
}

/// `flags KEY3`: all values as `Boolean`s.
pub fn flags<'a>(alloc: Global, file: &File, words: &[Word<'_>]) -> Outcome<'a> {
    let names = names(words)?;
    let values: Vec<Boolean> = file.values_by(names.section, names.subsection, names.value)?;
    let mut flags = Vec::new(alloc);
    for value in &values {
        flags.push(value.0)?;
    }
    Ok(Answer::Flags(flags))
}

/// `flagwith KEY3`: the last value as a `Boolean`, and its section.
pub fn flagwith<'a>(alloc: Global, file: &File, words: &[Word<'_>]) -> Outcome<'a> {
    let names = names(words)?;
    let found: Result<(Boolean, SectionRef<'_>), _> = file.value_with_section_by(
        names.section,
        names.subsection,
        names.value,
    );
    match found {
        Ok((value, section)) => Ok(Answer::FlagsAt(one(alloc, (value.0, section.id()))?)),
        Err(refusal) => Err(Refusal::from(refusal)),
    }
}

/// `flagswith KEY3`: all values as `Boolean`s, each with its section.
pub fn flagswith<'a>(alloc: Global, file: &File, words: &[Word<'_>]) -> Outcome<'a> {
    let names = names(words)?;
    match file.values_with_sections_by(names.section, names.subsection, names.value) {
        Ok(found) => Ok(Answer::FlagsAt(numbered_flags(alloc, found)?)),
        Err(refusal) => Err(Refusal::from(refusal)),
    }
}

/// A list of one.
fn one<T: Drop>(alloc: Global, item: T) -> Result<Vec<T>, Refusal> {
    let mut list = Vec::new(alloc);
    list.push(item)?;
    Ok(list)
}

/// Each with its section's number in place of the section.
fn numbered(
    alloc: Global,
    found: Vec<(BString, SectionRef<'_>)>,
) -> Result<Vec<(BString, SectionId)>, Refusal> {
    let mut list = Vec::new(alloc);
    for (text, section) in found {
        list.push((text, section.id()))?;
    }
    Ok(list)
}

/// Each with its section's number in place of the section.
fn numbered_flags(
    alloc: Global,
    found: Vec<(Boolean, SectionRef<'_>)>,
) -> Result<Vec<(bool, SectionId)>, Refusal> {
    let mut list = Vec::new(alloc);
    for (value, section) in found {
        list.push((value.0, section.id()))?;
    }
    Ok(list)
}
