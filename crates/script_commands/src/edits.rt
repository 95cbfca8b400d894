//! Commands that change a file.

use crate::answer::{Answer, Outcome};
use crate::arguments::{bytes_of_all, id_of, owned};
use crate::gix_config::file::Section;
use crate::gix_config::{File, KeyRef};
use crate::refusal::Refusal;
use crate::session::Session;
use script_words::arguments::{
    names_and_bytes, names_and_rest, number_and_place, renaming, renaming_and_flag, section_names,
    section_names_and_place, section_names_place_and_flag, two_texts,
};
use script_words::editor_arguments::{place, place_and_section_names};
use script_words::words::{Place, Word};
use std::alloc::Global;

/// `setraw KEY3 BYTES`: sets a value, and returns the one that was there.
pub fn setraw<'a>(file: &mut File, words: &[Word<'_>]) -> Outcome<'a> {
    let (names, value) = names_and_bytes(words)?;
    let old = file.set_raw_value_by(names.section, names.subsection, names.value, value)?;
    Ok(Answer::Optional(old))
}

/// `setkey BYTES BYTES`: the same, by a key.
pub fn setkey<'a>(file: &mut File, words: &[Word<'_>]) -> Outcome<'a> {
    let (key, value) = two_texts(words)?;
    let Some(key) = KeyRef::parse_unvalidated(key) else {
        return Err(Refusal::Line);
    };
    Ok(Answer::Optional(file.set_raw_value(key, value)?))
}

/// `setexisting KEY3 BYTES`: sets the value of an existing entry.
pub fn setexisting<'a>(file: &mut File, words: &[Word<'_>]) -> Outcome<'a> {
    let (names, value) = names_and_bytes(words)?;
    match file.set_existing_raw_value_by(names.section, names.subsection, names.value, value) {
        Ok(()) => Ok(Answer::Done),
        Err(refusal) => Err(Refusal::from(refusal)),
    }
}

/// `setmulti KEY3 BYTES..`: sets the values of existing entries.
pub fn setmulti<'a>(alloc: Global, file: &mut File, words: &[Word<'_>]) -> Outcome<'a> {
    let (names, values) = names_and_rest(words)?;
    let values = bytes_of_all(alloc, values)?;
    let set = file.set_existing_raw_multi_value_by(
        names.section,
        names.subsection,
        names.value,
        &values,
    );
    match set {
        Ok(()) => Ok(Answer::Done),
        Err(refusal) => Err(Refusal::from(refusal)),
    }
}

/// `newsection SEC2`: makes a section after all others, and returns its number.
pub fn newsection<'a>(alloc: Global, file: &mut File, words: &[Word<'_>]) -> Outcome<'a> {
    let names = section_names(words)?;
    let subsection = owned(alloc, names.subsection)?;
    match file.new_section(names.name, subsection) {
        Ok(section) => Ok(Answer::Id(section.id())),
        Err(refusal) => Err(Refusal::from(refusal)),
    }
}

/// `detached PLACE SEC2`: makes a section that is in no file, and puts it into that place.
pub fn detached<'a>(alloc: Global, session: &mut Session, words: &[Word<'_>]) -> Outcome<'a> {
    let (place, names) = place_and_section_names(words)?;
    let subsection = owned(alloc, names.subsection)?;
    let section = Section::new(alloc, names.name, subsection, session.meta()?)?;
    drop(session.replace_section(place, Some(section)));
    Ok(Answer::Done)
}

/// `pushsection PLACE`: adds the section of that place after all others, and returns its number. The place is then empty.
pub fn pushsection<'a>(session: &mut Session, words: &[Word<'_>]) -> Outcome<'a> {
    let Some(section) = session.replace_section(place(words)?, None) else {
        return Ok(Answer::Absent);
    };
    match session.file_mut().push_section(section) {
        Ok(section) => Ok(Answer::Id(section.id())),
        Err(refusal) => Err(Refusal::from(refusal)),
    }
}

/// `remove SEC2 PLACE`: removes the last section of the name and subsection, puts it into that place, and returns its text.
pub fn remove<'a>(session: &'a mut Session, words: &[Word<'_>]) -> Outcome<'a> {
    let (names, place) = section_names_and_place(words)?;
    let section = session
        .file_mut()
        .remove_section(names.name, names.subsection)?;
    Ok(taken_out(session, place, section))
}

/// `removeif SEC2 PLACE B`: the same with a filter that returns this for all.
pub fn removeif<'a>(session: &'a mut Session, words: &[Word<'_>]) -> Outcome<'a> {
    let (names, place, passes) = section_names_place_and_flag(words)?;
    let file = session.file_mut();
    let section = file.remove_section_filter(names.name, names.subsection, |_| passes)?;
    Ok(taken_out(session, place, section))
}

/// `removeid N PLACE`: the same for the section of a number.
pub fn removeid<'a>(alloc: Global, session: &'a mut Session, words: &[Word<'_>]) -> Outcome<'a> {
    let (number, place) = number_and_place(words)?;
    let id = id_of(alloc, session.file(), number)?;
    let section = session.file_mut().remove_section_by_id(id)?;
    Ok(taken_out(session, place, section))
}

/// `rename SEC2 SEC2`: gives all sections of a name and subsection another name and subsection.
pub fn rename<'a>(alloc: Global, file: &mut File, words: &[Word<'_>]) -> Outcome<'a> {
    let names = renaming(words)?;
    let subsection = owned(alloc, names.new.subsection)?;
    let renamed = file.rename_section(
        names.old.name,
        names.old.subsection,
        names.new.name,
        subsection,
    );
    match renamed {
        Ok(()) => Ok(Answer::Done),
        Err(refusal) => Err(Refusal::from(refusal)),
    }
}

/// `renameif SEC2 SEC2 B`: the same with a filter that returns this for all.
pub fn renameif<'a>(alloc: Global, file: &mut File, words: &[Word<'_>]) -> Outcome<'a> {
    let (names, passes) = renaming_and_flag(words)?;
    let subsection = owned(alloc, names.new.subsection)?;
    let renamed = file.rename_section_filter(
        names.old.name,
        names.old.subsection,
        names.new.name,
        subsection,
        |_| passes,
    );
    match renamed {
        Ok(()) => Ok(Answer::Done),
        Err(refusal) => Err(Refusal::from(refusal)),
    }
}

/// Puts a section that was removed into that place, where it is then shown.
fn taken_out<'a>(session: &'a mut Session, place: Place, section: Option<Section>) -> Answer<'a> {
    if section.is_none() {
        return Answer::Absent;
    }
    drop(session.replace_section(place, section));
    match session.section_at(place) {
        Some(section) => Answer::Alone(section),
        None => Answer::Absent,
    }
}
