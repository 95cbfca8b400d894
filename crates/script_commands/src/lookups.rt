//! Commands that look up values of a key.

use crate::answer::{Answer, Outcome};
use crate::gix_config::File;
use bstr::BString;
use script_words::arguments::{bytes, names};
use script_words::words::Word;

/// Texts, or nothing.
fn texts(found: Option<Vec<BString>>) -> Answer<'static> {
    match found {
        Some(texts) => Answer::Texts(texts),
        None => Answer::Absent,
    }
}

/// `string KEY3`: the meaning of the last value.
pub fn string<'a>(file: &File, words: &[Word<'_>]) -> Outcome<'a> {
    let names = names(words)?;
    Ok(Answer::found(file.string_by(names.section, names.subsection, names.value)?))
}

/// `stringkey BYTES`: the same, by a key.
pub fn stringkey<'a>(file: &File, words: &[Word<'_>]) -> Outcome<'a> {
    Ok(Answer::found(file.string(bytes(words)?)?))
}

/// `strings KEY3`: the meanings of all values.
pub fn strings<'a>(file: &File, words: &[Word<'_>]) -> Outcome<'a> {
    let names = names(words)?;
    Ok(texts(file.strings_by(names.section, names.subsection, names.value)?))
}

/// `raw KEY3`: the meaning of the last value, or what is missing.
pub fn raw<'a>(file: &File, words: &[Word<'_>]) -> Outcome<'a> {
    let names = names(words)?;
    Ok(Answer::text(file.raw_value_by(names.section, names.subsection, names.value)?))
}

/// `raws KEY3`: the meanings of all values, or what is missing.
pub fn raws<'a>(file: &File, words: &[Word<'_>]) -> Outcome<'a> {
    let names = names(words)?;
    Ok(Answer::Texts(file.raw_values_by(names.section, names.subsection, names.value)?))
}

/// `path KEY3`: the last value as a path.
pub fn path<'a>(file: &File, words: &[Word<'_>]) -> Outcome<'a> {
    let names = names(words)?;
    match file.path_by(names.section, names.subsection, names.value)? {
        Some(path) => Ok(Answer::Path(path)),
        None => Ok(Answer::Absent),
    }
}

/// `bool KEY3`: the boolean of the last entry.
pub fn boolean<'a>(file: &File, words: &[Word<'_>]) -> Outcome<'a> {
    let names = names(words)?;
    match file.boolean_by(names.section, names.subsection, names.value)? {
        Some(flag) => Ok(Answer::Flag(flag)),
        None => Ok(Answer::Absent),
    }
}

/// `int KEY3`: the last value as an integer.
pub fn integer<'a>(file: &File, words: &[Word<'_>]) -> Outcome<'a> {
    let names = names(words)?;
    match file.integer_by(names.section, names.subsection, names.value)? {
        Some(number) => Ok(Answer::Integer(number)),
        None => Ok(Answer::Absent),
    }
}

/// `ints KEY3`: all values as integers.
pub fn integers<'a>(file: &File, words: &[Word<'_>]) -> Outcome<'a> {
    let names = names(words)?;
    match file.integers_by(names.section, names.subsection, names.value)? {
        Some(numbers) => Ok(Answer::Integers(numbers)),
        None => Ok(Answer::Absent),
    }
}
