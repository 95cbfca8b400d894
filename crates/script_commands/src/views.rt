//! Commands that look up sections and compare files, and those that look at one section.

use crate::answer::{Answer, Outcome};
use crate::gix_config::File;
use crate::gix_config::file::{SectionId, SectionRef};
use crate::refusal::Refusal;
use crate::sections::section_at;
use crate::session::Session;
use bstr::BString;
use script_words::arguments::{
    SectionNames, bytes, no_words, number_and_text, section_names, section_names_and_flag, slot,
    text, text_and_flag,
};
use script_words::words::Word;
use std::alloc::Global;

/// `section SEC2`: the number of the last section of the name and subsection.
pub fn section<'a>(file: &File, words: &[Word<'_>]) -> Outcome<'a> {
    let names = section_names(words)?;
    match file.section(names.name, names.subsection) {
        Ok(section) => Ok(Answer::Id(section.id())),
        Err(refusal) => Err(Refusal::from(refusal)),
    }
}

/// `sectionkey BYTES`: the same by a section's key.
pub fn sectionkey<'a>(file: &File, words: &[Word<'_>]) -> Outcome<'a> {
    match file.section_by_key(bytes(words)?) {
        Ok(section) => Ok(Answer::Id(section.id())),
        Err(refusal) => Err(Refusal::from(refusal)),
    }
}

/// `sectionif SEC2 B`: the same with a filter that returns this for all.
pub fn sectionif<'a>(file: &File, words: &[Word<'_>]) -> Outcome<'a> {
    let (names, passes) = section_names_and_flag(words)?;
    match file.section_filter(names.name, names.subsection, |_| passes) {
        Ok(Some(section)) => Ok(Answer::Id(section.id())),
        Ok(None) => Ok(Answer::Absent),
        Err(refusal) => Err(Refusal::from(refusal)),
    }
}

/// `ids SEC2`: the numbers of all sections of the name and subsection.
pub fn ids<'a>(alloc: Global, file: &File, words: &[Word<'_>]) -> Outcome<'a> {
    let names = section_names(words)?;
    match file.section(names.name, names.subsection) {
        Ok(_) => Ok(Answer::Ids(ids_of(alloc, file, names)?)),
        Err(refusal) => Err(Refusal::from(refusal)),
    }
}

fn ids_of(alloc: Global, file: &File, names: SectionNames<'_>) -> Result<Vec<SectionId>, Refusal> {
    let mut found = Vec::new(alloc);
    let Some(sections) = file.sections_and_ids_by_name(names.name) else {
        return Ok(found);
    };
    for (section, id) in sections {
        if section.header().subsection_name() == names.subsection {
            found.push(id)?;
        }
    }
    Ok(found)
}

/// `byname BYTES`: the numbers of the sections of the name.
pub fn byname<'a>(alloc: Global, file: &File, words: &[Word<'_>]) -> Outcome<'a> {
    let Some(sections) = file.sections_by_name(text(words)?) else {
        return Ok(Answer::Absent);
    };
    let mut found = Vec::new(alloc);
    for section in sections {
        found.push(section.id())?;
    }
    Ok(Answer::Ids(found))
}

/// `bynameif BYTES B`: the same with a filter that returns this for all.
pub fn bynameif<'a>(alloc: Global, file: &File, words: &[Word<'_>]) -> Outcome<'a> {
    let (name, passes) = text_and_flag(words)?;
    let Some(sections) = file.sections_by_name_and_filter(name, |_| passes) else {
        return Ok(Answer::Absent);
    };
    let mut found = Vec::new(alloc);
    for section in sections {
        found.push(section.id())?;
    }
    Ok(Answer::Ids(found))
}

/// `equal SLOT`: whether the current file equals that one.
pub fn equal<'a>(session: &Session, words: &[Word<'_>]) -> Outcome<'a> {
    let other = session.file_at(slot(words)?);
    Ok(Answer::Flag(session.file() == other))
}

/// `display`: the text of the file, as `Display` shows it.
pub fn display<'a>(alloc: Global, file: &File, words: &[Word<'_>]) -> Outcome<'a> {
    no_words(words)?;
    let shown = file.to_string(alloc)?;
    Ok(Answer::text(BString::new(shown.into_bytes())))
}

/// `headerof N`: what a section's header means, and how it is spelled.
pub fn headerof<'a>(file: &'a File, words: &[Word<'_>]) -> Outcome<'a> {
    match section_at(file, words)? {
        Some(section) => {
            let text = section.header().to_bstring()?;
            Ok(Answer::Header(section, text))
        }
        None => Ok(Answer::Absent),
    }
}

/// The section at the place that the words give, and the name after it.
fn section_and_name<'a, 'b>(
    file: &'a File,
    words: &'b [Word<'_>],
) -> Result<Option<(SectionRef<'a>, &'b str)>, Refusal> {
    let (place, name) = number_and_text(words)?;
    match file.sections().nth(place) {
        Some(section) => Ok(Some((section, name))),
        None => Ok(None),
    }
}

/// `valueof N BYTES`: the meaning of the last entry of the name, if it has a value.
pub fn valueof<'a>(file: &File, words: &[Word<'_>]) -> Outcome<'a> {
    match section_and_name(file, words)? {
        Some((section, name)) => Ok(Answer::found(section.value(name)?)),
        None => Ok(Answer::Absent),
    }
}

/// `implicitof N BYTES`: the same, but an entry without `=` is distinguished.
pub fn implicitof<'a>(file: &File, words: &[Word<'_>]) -> Outcome<'a> {
    match section_and_name(file, words)? {
        Some((section, name)) => match section.value_implicit(name)? {
            Some(value) => Ok(Answer::Optional(value)),
            None => Ok(Answer::Absent),
        },
        None => Ok(Answer::Absent),
    }
}

/// `valuesof N BYTES`: the meanings of all entries of the name.
pub fn valuesof<'a>(file: &File, words: &[Word<'_>]) -> Outcome<'a> {
    match section_and_name(file, words)? {
        Some((section, name)) => Ok(Answer::Texts(section.values(name)?)),
        None => Ok(Answer::Absent),
    }
}

/// `hasname N BYTES`: whether there is an entry of the name.
pub fn hasname<'a>(file: &File, words: &[Word<'_>]) -> Outcome<'a> {
    match section_and_name(file, words)? {
        Some((section, name)) => Ok(Answer::Flag(section.contains_value_name(name))),
        None => Ok(Answer::Absent),
    }
}

/// `namesof N`: the names of a section's entries.
pub fn namesof<'a>(file: &'a File, words: &[Word<'_>]) -> Outcome<'a> {
    match section_at(file, words)? {
        Some(section) => Ok(Answer::Names(section)),
        None => Ok(Answer::Absent),
    }
}

/// `countof N`: how many entries a section has.
pub fn countof<'a>(file: &File, words: &[Word<'_>]) -> Outcome<'a> {
    match section_at(file, words)? {
        Some(section) => Ok(Answer::Number(section.body().num_values())),
        None => Ok(Answer::Absent),
    }
}

/// `entriesof N`: a section's entries, each as its name and what it means.
pub fn entriesof<'a>(alloc: Global, file: &File, words: &[Word<'_>]) -> Outcome<'a> {
    match section_at(file, words)? {
        Some(section) => Ok(Answer::Texts(entries_of(alloc, &section)?)),
        None => Ok(Answer::Absent),
    }
}

fn entries_of(alloc: Global, section: &SectionRef<'_>) -> Result<Vec<BString>, Refusal> {
    let mut texts = Vec::new(alloc);
    for entry in section.body() {
        match entry {
            Ok((name, value)) => {
                texts.push(BString::from_slice(alloc, name)?)?;
                texts.push(value)?;
            }
            Err(refusal) => return Err(Refusal::from(refusal)),
        }
    }
    Ok(texts)
}
