//! What the words after an editor's command mean, one function for each form of words that no other command has.

use crate::arguments::{SectionNames, one_word};
use crate::words::{NotUnderstood, Place, Word};

/// A line that is pushed: a value's name, the value, and a comment.
#[derive(Clone, Copy)]
pub struct PushedLine<'a> {
    pub name: &'a str,
    pub value: Option<&'a [u8]>,
    pub comment: Option<&'a [u8]>,
}

/// BYTES OPT: a line without a comment.
pub fn pushed_line<'a>(words: &'a [Word<'_>]) -> Result<PushedLine<'a>, NotUnderstood> {
    match words {
        [name, value] => Ok(PushedLine {
            name: name.text()?,
            value: value.optional()?,
            comment: None,
        }),
        _ => Err(NotUnderstood),
    }
}

/// BYTES OPT BYTES: a line with a comment.
pub fn commented_line<'a>(words: &'a [Word<'_>]) -> Result<PushedLine<'a>, NotUnderstood> {
    match words {
        [name, value, comment] => Ok(PushedLine {
            name: name.text()?,
            value: value.optional()?,
            comment: Some(comment.bytes()?),
        }),
        _ => Err(NotUnderstood),
    }
}

/// BYTES BYTES: a name, and bytes.
pub fn text_and_bytes<'a>(words: &'a [Word<'_>]) -> Result<(&'a str, &'a [u8]), NotUnderstood> {
    match words {
        [name, bytes] => Ok((name.text()?, bytes.bytes()?)),
        _ => Err(NotUnderstood),
    }
}

/// N BYTES: an index, and bytes.
pub fn number_and_bytes<'a>(words: &'a [Word<'_>]) -> Result<(usize, &'a [u8]), NotUnderstood> {
    match words {
        [number, bytes] => Ok((number.number()?, bytes.bytes()?)),
        _ => Err(NotUnderstood),
    }
}

/// OPT.
pub fn optional<'a>(words: &'a [Word<'_>]) -> Result<Option<&'a [u8]>, NotUnderstood> {
    one_word(words)?.optional()
}

/// B.
pub fn flag(words: &[Word<'_>]) -> Result<bool, NotUnderstood> {
    one_word(words)?.flag()
}

/// PLACE: the place of a section that is in no file.
pub fn place(words: &[Word<'_>]) -> Result<Place, NotUnderstood> {
    one_word(words)?.place()
}

/// PLACE SEC2: the place of a section that is in no file, and its names.
pub fn place_and_section_names<'a>(
    words: &'a [Word<'_>],
) -> Result<(Place, SectionNames<'a>), NotUnderstood> {
    match words {
        [place, name, subsection] => {
            let names = SectionNames {
                name: name.text()?,
                subsection: subsection.optional()?,
            };
            Ok((place.place()?, names))
        }
        _ => Err(NotUnderstood),
    }
}
