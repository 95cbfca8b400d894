//! Commands on texts and names, which need no file.

use crate::answer::{Answer, Outcome};
use crate::gix_config::parse::Events;
use crate::gix_config::parse::section::{Name, ValueName};
use crate::kinds::kept_events;
use crate::refusal::Refusal;
use script_words::arguments::bytes;
use script_words::words::Word;
use std::alloc::Global;

/// `events BYTES`: the events of a text.
pub fn events<'a>(alloc: Global, words: &[Word<'_>]) -> Outcome<'a> {
    Ok(Answer::Events(Events::from_bytes(alloc, bytes(words)?, None)?))
}

/// `errtext BYTES`: the text of the error of a text.
pub fn errtext<'a>(alloc: Global, words: &[Word<'_>]) -> Outcome<'a> {
    match Events::from_bytes(alloc, bytes(words)?, None) {
        Ok(_) => Ok(Answer::Absent),
        Err(refusal) => match Refusal::from(refusal) {
            Refusal::Unread(refusal) => Ok(Answer::Message(refusal)),
            other => Err(other),
        },
    }
}

/// `keeps BYTES LETTERS`: the events of a text without some kinds, and whether they keep all entries.
pub fn keeps<'a>(alloc: Global, words: &[Word<'_>]) -> Outcome<'a> {
    Ok(Answer::Kept(kept_events(alloc, words)?))
}

/// `name BYTES`: whether bytes are the name of a section.
pub fn name<'a>(alloc: Global, words: &[Word<'_>]) -> Outcome<'a> {
    // Only whether there is such a name is asked.
    let _ = Name::try_from_bytes(alloc, bytes(words)?)?;
    Ok(Answer::Done)
}

/// `valuename BYTES`: whether bytes are the name of a value.
pub fn valuename<'a>(alloc: Global, words: &[Word<'_>]) -> Outcome<'a> {
    // Only whether there is such a name is asked.
    let _ = ValueName::try_from_bytes(alloc, bytes(words)?)?;
    Ok(Answer::Done)
}
