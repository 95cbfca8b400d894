//! The result of a command, before it is written as a line.

use crate::refusal::Refusal;
use bstr::BString;
use gix_config::file::{Metadata, Section, SectionId, SectionRef};
use gix_config::parse::{Error, Events};
use gix_config::{File, Path};
use std::borrow::CowSlice;

/// The result of a command, or why it was not done.
pub type Outcome<'a> = Result<Answer<'a>, Refusal>;

/// The result of a command: what the library returned, or a borrowed part of it.
#[derive(Drop)]
pub enum Answer<'a> {
    /// It is done.
    Done,
    /// What was asked for is not there.
    Absent,
    /// There is no such command.
    Unknown,
    /// `true` or `false`.
    Flag(bool),
    /// A count.
    Number(usize),
    /// A number with a sign.
    Integer(i64),
    /// Bytes, owned or borrowed.
    Bytes(CowSlice<'a, u8>),
    /// A path, as it is written.
    Path(Path),
    /// Texts, one word each.
    Texts(Vec<BString>),
    /// Numbers with a sign, one word each.
    Integers(Vec<i64>),
    /// `true` or `false`, one word each.
    Flags(Vec<bool>),
    /// Texts, each with the number of a section after it.
    TextsAt(Vec<(BString, SectionId)>),
    /// `true` or `false`, each with the number of a section after it.
    FlagsAt(Vec<(bool, SectionId)>),
    /// Bytes, or none.
    Optional(Option<BString>),
    /// The name of an entry, and what it means.
    Entry(String, BString),
    /// Words as they are written, each after a blank.
    Words(String),
    /// The text of an error.
    Message(Error),
    /// The events of a text.
    Events(Events),
    /// Whether they keep entries, and the events.
    Kept(Events),
    /// The events before the first section of a file.
    Front(&'a File),
    /// The events of a section's body.
    Body(SectionRef<'a>),
    /// The events of what is held after a section.
    Held(SectionRef<'a>),
    /// A section that is in no file.
    Alone(&'a Section),
    /// The number of a section.
    Id(SectionId),
    /// Numbers of sections.
    Ids(Vec<SectionId>),
    /// The names of a section's entries.
    Names(SectionRef<'a>),
    /// What a section's header means, and how it is spelled.
    Header(SectionRef<'a>, BString),
    /// All sections of a file, with their entries.
    Dump(&'a File),
    /// Where a section comes from.
    Origin(&'a Metadata),
}

impl Answer<'_> {
    /// Owned bytes.
    pub fn text(text: BString) -> Answer<'static> {
        Answer::Bytes(CowSlice::Owned(text.into_vec()))
    }

    /// Owned bytes, or nothing.
    pub fn found(text: Option<BString>) -> Answer<'static> {
        match text {
            Some(text) => Answer::text(text),
            None => Answer::Absent,
        }
    }
}
