//! Blocks: the lines that work on one editor, from the one that opens it up to `end`. The editor borrows the current file for that long.

mod section_editor;
mod section_lines;
mod value_lines;
mod values_lines;

use script_commands::answer::{Answer, Outcome};
use script_commands::arguments::id_of;
use script_commands::gix_config::File;
use script_commands::gix_config::file::Section;
use script_commands::gix_config::file::section_mut::Error;
use script_commands::refusal::Refusal;
use script_commands::rendering::line_of;
use script_commands::session::Session;
use script_words::arguments::{names, number, section_names};
use script_words::blocks::play_none;
use script_words::bracket::Bracket;
use script_words::editor_arguments::place;
use script_words::editors::Opening;
use script_words::play::{Fault, Streams};
use script_words::words::Word;
use std::alloc::Global;
use std::io::{Read, Write};

/// How the lines of an editor were played, or what is answered where there is no editor.
type Played<'a> = Result<Result<(), Fault>, Outcome<'a>>;

/// Opens an editor, and answers the lines up to `end`.
pub fn play_block<R: Read + Drop, W: Write + Drop>(
    alloc: Global,
    session: &mut Session,
    opening: Opening,
    words: &[Word<'_>],
    streams: &mut Streams<R, W>,
) -> Result<(), Fault> {
    let mut tells = session.tells_refusals();
    let bracket = Bracket::open(alloc, tells)?;
    let played = match opening {
        Opening::Section => edit(
            alloc,
            bracket,
            session.file_mut(),
            words,
            streams,
            &mut tells,
        ),
        Opening::SectionNumbered => {
            editid(
                alloc,
                bracket,
                session.file_mut(),
                words,
                streams,
                &mut tells,
            )
        }
        Opening::SectionOrNew => {
            editnew(
                alloc,
                bracket,
                session.file_mut(),
                words,
                streams,
                &mut tells,
            )
        }
        Opening::SectionAlone => {
            editdetached(alloc, bracket, session, words, streams, &mut tells)
        }
        Opening::Value => value(
            alloc,
            bracket,
            session.file_mut(),
            words,
            streams,
            &mut tells,
        ),
        Opening::Values => multi(
            alloc,
            bracket,
            session.file_mut(),
            words,
            streams,
            &mut tells,
        ),
    };
    let played = match played {
        Ok(played) => played,
        Err(outcome) => play_without(alloc, bracket, &outcome, streams, &mut tells),
    };
    session.tell_refusals(tells);
    played
}

/// Writes the answer of a command, after its bracket.
fn tell<R: Read + Drop, W: Write + Drop>(
    alloc: Global,
    bracket: Bracket,
    outcome: &Outcome<'_>,
    streams: &mut Streams<R, W>,
) -> Result<(), Fault> {
    let refused = bracket.close(alloc);
    let line = line_of(alloc, refused, outcome)?;
    streams.tell(&line)
}

/// Writes why there is no editor, and answers the lines of its block.
fn play_without<R: Read + Drop, W: Write + Drop>(
    alloc: Global,
    bracket: Bracket,
    outcome: &Outcome<'_>,
    streams: &mut Streams<R, W>,
    tells: &mut bool,
) -> Result<(), Fault> {
    tell(alloc, bracket, outcome, streams)?;
    play_none(alloc, streams, tells)
}

/// `edit SEC2`: the last section of the name and subsection.
fn edit<'a, R: Read + Drop, W: Write + Drop>(
    alloc: Global,
    bracket: Bracket,
    file: &mut File,
    words: &[Word<'_>],
    streams: &mut Streams<R, W>,
    tells: &mut bool,
) -> Played<'a> {
    let Ok(names) = section_names(words) else {
        return Err(Err(Refusal::Line));
    };
    match file.section_mut(names.name, names.subsection) {
        Ok(mut editor) => Ok(section_lines::play(alloc, bracket, &mut editor, streams, tells)),
        Err(refusal) => Err(Err(Refusal::from(refusal))),
    }
}

/// `editnew SEC2`: the same; if there is none, one is made.
fn editnew<'a, R: Read + Drop, W: Write + Drop>(
    alloc: Global,
    bracket: Bracket,
    file: &mut File,
    words: &[Word<'_>],
    streams: &mut Streams<R, W>,
    tells: &mut bool,
) -> Played<'a> {
    let Ok(names) = section_names(words) else {
        return Err(Err(Refusal::Line));
    };
    match file.section_mut_or_create_new(names.name, names.subsection) {
        Ok(mut editor) => Ok(section_lines::play(alloc, bracket, &mut editor, streams, tells)),
        Err(refusal) => Err(Err(Refusal::from(refusal))),
    }
}

/// `editid N`: the section of a number.
fn editid<'a, R: Read + Drop, W: Write + Drop>(
    alloc: Global,
    bracket: Bracket,
    file: &mut File,
    words: &[Word<'_>],
    streams: &mut Streams<R, W>,
    tells: &mut bool,
) -> Played<'a> {
    let Ok(number) = number(words) else {
        return Err(Err(Refusal::Line));
    };
    let id = match id_of(alloc, file, number) {
        Ok(id) => id,
        Err(refusal) => return Err(Err(refusal)),
    };
    match file.section_mut_by_id(id) {
        Ok(mut editor) => Ok(section_lines::play(alloc, bracket, &mut editor, streams, tells)),
        Err(refusal) => Err(unfound(refusal)),
    }
}

/// `editdetached PLACE`: the section of that place, which is in no file.
fn editdetached<'a, R: Read + Drop, W: Write + Drop>(
    alloc: Global,
    bracket: Bracket,
    session: &mut Session,
    words: &[Word<'_>],
    streams: &mut Streams<R, W>,
    tells: &mut bool,
) -> Played<'a> {
    let Ok(place) = place(words) else {
        return Err(Err(Refusal::Line));
    };
    let Some(mut section) = session.replace_section(place, None) else {
        return Err(Ok(Answer::Absent));
    };
    let played = edit_alone(alloc, bracket, &mut section, streams, tells);
    drop(session.replace_section(place, Some(section)));
    played
}

fn edit_alone<'a, R: Read + Drop, W: Write + Drop>(
    alloc: Global,
    bracket: Bracket,
    section: &mut Section,
    streams: &mut Streams<R, W>,
    tells: &mut bool,
) -> Played<'a> {
    match section.to_mut() {
        Ok(mut editor) => Ok(section_lines::play(alloc, bracket, &mut editor, streams, tells)),
        Err(refusal) => Err(Err(Refusal::from(refusal))),
    }
}

fn unfound<'a>(refusal: Error) -> Outcome<'a> {
    match refusal {
        Error::NonePasses => Ok(Answer::Absent),
        Error::Lookup(refusal) => Err(Refusal::from(refusal)),
    }
}

/// `value KEY3`: the last entry of the key.
fn value<'a, R: Read + Drop, W: Write + Drop>(
    alloc: Global,
    bracket: Bracket,
    file: &mut File,
    words: &[Word<'_>],
    streams: &mut Streams<R, W>,
    tells: &mut bool,
) -> Played<'a> {
    let Ok(names) = names(words) else {
        return Err(Err(Refusal::Line));
    };
    match file.raw_value_mut_by(names.section, names.subsection, names.value) {
        Ok(mut editor) => Ok(value_lines::play(alloc, bracket, &mut editor, streams, tells)),
        Err(refusal) => Err(Err(Refusal::from(refusal))),
    }
}

/// `multi KEY3`: all entries of the key.
fn multi<'a, R: Read + Drop, W: Write + Drop>(
    alloc: Global,
    bracket: Bracket,
    file: &mut File,
    words: &[Word<'_>],
    streams: &mut Streams<R, W>,
    tells: &mut bool,
) -> Played<'a> {
    let Ok(names) = names(words) else {
        return Err(Err(Refusal::Line));
    };
    match file.raw_values_mut_by(names.section, names.subsection, names.value) {
        Ok(mut editor) => Ok(values_lines::play(alloc, bracket, &mut editor, streams, tells)),
        Err(refusal) => Err(Err(Refusal::from(refusal))),
    }
}
