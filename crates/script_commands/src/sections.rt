//! Commands that show a file's parts.

use crate::answer::{Answer, Outcome};
use crate::gix_config::File;
use crate::gix_config::file::SectionRef;
use crate::refusal::Refusal;
use script_words::arguments::{no_words, number};
use script_words::words::Word;
use std::borrow::CowSlice;

/// `dump`: the sections, with their entries.
pub fn dump<'a>(file: &'a File, words: &[Word<'_>]) -> Outcome<'a> {
    no_words(words)?;
    Ok(Answer::Dump(file))
}

/// The section at the place that the words give.
pub(super) fn section_at<'a>(
    file: &'a File,
    words: &[Word<'_>],
) -> Result<Option<SectionRef<'a>>, Refusal> {
    let place = number(words)?;
    Ok(file.sections().nth(place))
}

/// `printsec N`: the text of a section alone.
pub fn printsec<'a>(file: &'a File, words: &[Word<'_>]) -> Outcome<'a> {
    match section_at(file, words)? {
        Some(section) => Ok(Answer::text(section.to_bstring()?)),
        None => Ok(Answer::Absent),
    }
}

/// `front`: the events before the first section.
pub fn front<'a>(file: &'a File, words: &[Word<'_>]) -> Outcome<'a> {
    no_words(words)?;
    Ok(Answer::Front(file))
}

/// `body N`: the events of a section's body.
pub fn body<'a>(file: &'a File, words: &[Word<'_>]) -> Outcome<'a> {
    match section_at(file, words)? {
        Some(section) => Ok(Answer::Body(section)),
        None => Ok(Answer::Absent),
    }
}

/// `post N`: the events of what is held after a section.
pub fn post<'a>(file: &'a File, words: &[Word<'_>]) -> Outcome<'a> {
    match section_at(file, words)? {
        Some(section) => Ok(Answer::Held(section)),
        None => Ok(Answer::Absent),
    }
}

/// `count`: how many entries the sections have.
pub fn count<'a>(file: &File, words: &[Word<'_>]) -> Outcome<'a> {
    no_words(words)?;
    Ok(Answer::Number(file.num_values()))
}

/// `void`: whether all bodies are empty.
pub fn void<'a>(file: &File, words: &[Word<'_>]) -> Outcome<'a> {
    no_words(words)?;
    Ok(Answer::Flag(file.is_void()))
}

/// `newline`: the line ending that the file uses.
pub fn newline<'a>(file: &'a File, words: &[Word<'_>]) -> Outcome<'a> {
    no_words(words)?;
    Ok(Answer::Bytes(CowSlice::Borrowed(file.detect_newline_style())))
}

/// `metaof N`: where a section comes from.
pub fn metaof<'a>(file: &'a File, words: &[Word<'_>]) -> Outcome<'a> {
    match section_at(file, words)? {
        Some(section) => Ok(Answer::Origin(section.meta())),
        None => Ok(Answer::Absent),
    }
}
