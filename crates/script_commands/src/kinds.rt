//! The letters of the kinds of events, and filters that drop some of these kinds.

use crate::refusal::Refusal;
use gix_config::parse::{EventRef, Events};
use script_words::arguments::text_and_letters;
use script_words::kinds::{
    BLANKS, COMMENTS, LAST_PIECES, LINE_ENDS, NAMES, PIECES, SEPARATORS, VALUES, kinds_of,
};
use script_words::words::Word;
use std::alloc::Global;

/// The letter of an event's kind.
pub fn letter_of(event: &EventRef<'_>) -> char {
    match event {
        EventRef::SectionHeader { .. } => 'H',
        EventRef::SectionValueName(_) => 'N',
        EventRef::KeyValueSeparator => 'S',
        EventRef::Value(_) => 'V',
        EventRef::ValueNotDone(_) => 'P',
        EventRef::ValueDone(_) => 'D',
        EventRef::Newline(_) => 'L',
        EventRef::Whitespace(_) => 'W',
        EventRef::Comment { .. } => 'C',
    }
}

const VALUES_OF_PIECES: u8 = SEPARATORS | PIECES | LAST_PIECES;

const SPACING: u8 = LINE_ENDS | BLANKS;

const LINE_ENDS_AND_COMMENTS: u8 = LINE_ENDS | COMMENTS;

const BLANKS_AND_COMMENTS: u8 = BLANKS | COMMENTS;

const LAYOUT: u8 = LINE_ENDS | BLANKS | COMMENTS;

const ALL: u8 = 255;

/// BYTES LETTERS: the events of a text without the kinds of these letters, or all.
pub fn kept_events(alloc: Global, words: &[Word<'_>]) -> Result<Events, Refusal> {
    match text_and_letters(words)? {
        (text, None) => Ok(Events::from_bytes(alloc, text, None)?),
        (text, Some(letters)) => events_without(alloc, text, letters),
    }
}

/// The events of a text without the kinds of these letters. A set of kinds without a filter here is refused.
//
// A filter is a function that captures nothing, so each set has one of its own.
fn events_without(alloc: Global, text: &[u8], letters: &[u8]) -> Result<Events, Refusal> {
    let events = match kinds_of(letters)? {
        0 => Events::from_bytes(alloc, text, Some(no_headers)),
        NAMES => Events::from_bytes(alloc, text, Some(no_names)),
        SEPARATORS => Events::from_bytes(alloc, text, Some(no_separators)),
        VALUES => Events::from_bytes(alloc, text, Some(no_values)),
        PIECES => Events::from_bytes(alloc, text, Some(no_pieces)),
        LAST_PIECES => Events::from_bytes(alloc, text, Some(no_last_pieces)),
        VALUES_OF_PIECES => Events::from_bytes(alloc, text, Some(no_values_of_pieces)),
        LINE_ENDS => Events::from_bytes(alloc, text, Some(no_line_ends)),
        BLANKS => Events::from_bytes(alloc, text, Some(no_blanks)),
        COMMENTS => Events::from_bytes(alloc, text, Some(no_comments)),
        SPACING => Events::from_bytes(alloc, text, Some(no_spacing)),
        LINE_ENDS_AND_COMMENTS => Events::from_bytes(alloc, text, Some(no_line_ends_and_comments)),
        BLANKS_AND_COMMENTS => Events::from_bytes(alloc, text, Some(no_blanks_and_comments)),
        LAYOUT => Events::from_bytes(alloc, text, Some(no_layout)),
        ALL => Events::from_bytes(alloc, text, Some(nothing)),
        _ => return Err(Refusal::Line),
    };
    Ok(events?)
}

// Each of these filters also drops headers, which are kept nevertheless.

fn no_headers(event: &EventRef<'_>) -> bool {
    !matches!(event, EventRef::SectionHeader { .. })
}

fn no_names(event: &EventRef<'_>) -> bool {
    no_headers(event) && !matches!(event, EventRef::SectionValueName(_))
}

fn no_separators(event: &EventRef<'_>) -> bool {
    no_headers(event) && !matches!(event, EventRef::KeyValueSeparator)
}

fn no_values(event: &EventRef<'_>) -> bool {
    no_headers(event) && !matches!(event, EventRef::Value(_))
}

fn no_pieces(event: &EventRef<'_>) -> bool {
    no_headers(event) && !matches!(event, EventRef::ValueNotDone(_))
}

fn no_last_pieces(event: &EventRef<'_>) -> bool {
    no_headers(event) && !matches!(event, EventRef::ValueDone(_))
}

fn no_values_of_pieces(event: &EventRef<'_>) -> bool {
    no_separators(event) && no_pieces(event) && no_last_pieces(event)
}

fn no_line_ends(event: &EventRef<'_>) -> bool {
    no_headers(event) && !matches!(event, EventRef::Newline(_))
}

fn no_blanks(event: &EventRef<'_>) -> bool {
    no_headers(event) && !matches!(event, EventRef::Whitespace(_))
}

fn no_comments(event: &EventRef<'_>) -> bool {
    no_headers(event) && !matches!(event, EventRef::Comment { .. })
}

fn no_spacing(event: &EventRef<'_>) -> bool {
    no_line_ends(event) && no_blanks(event)
}

fn no_line_ends_and_comments(event: &EventRef<'_>) -> bool {
    no_line_ends(event) && no_comments(event)
}

fn no_blanks_and_comments(event: &EventRef<'_>) -> bool {
    no_blanks(event) && no_comments(event)
}

fn no_layout(event: &EventRef<'_>) -> bool {
    no_spacing(event) && no_comments(event)
}

fn nothing(_event: &EventRef<'_>) -> bool {
    false
}
