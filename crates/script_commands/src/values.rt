//! Commands on values, which need no file.

use crate::answer::{Answer, Outcome};
use crate::gix_config::value::normalize;
use crate::gix_config::{Boolean, File, Integer};
use crate::refusal::Refusal;
use bstr::BString;
use script_words::arguments::bytes;
use script_words::words::Word;
use std::alloc::{AllocError, Global};
use std::borrow::CowSlice;

/// `decode BYTES`: what a raw value means.
pub fn decode<'a>(alloc: Global, words: &'a [Word<'_>]) -> Outcome<'a> {
    Ok(Answer::Bytes(normalize(alloc, bytes(words)?)?))
}

/// The text before a value that is set, and the text after it.
const FRAME: (&[u8], &[u8]) = (b"[a]\nk=", b"\n");

/// `escape BYTES`: how a value is written when it is set.
pub fn escape<'a>(alloc: Global, words: &[Word<'_>]) -> Outcome<'a> {
    let value = bytes(words)?;
    let mut file = File::try_from_bytes(alloc, b"[a]\nk=\n")?;
    let text = text_with(&mut file, value);
    drop(file);
    Ok(Answer::Bytes(CowSlice::Owned(unframed(alloc, &text?)?)))
}

/// The text of the file with that value.
fn text_with(file: &mut File, value: &[u8]) -> Result<BString, Refusal> {
    // The file has no value before.
    let _ = file.set_raw_value_by("a", None, "k", value)?;
    Ok(file.to_bstring()?)
}

/// The text within the frame; all of it if the frame is missing, which the answer then shows.
fn unframed(alloc: Global, text: &[u8]) -> Result<Vec<u8>, AllocError> {
    let value = match text.strip_prefix(FRAME.0) {
        Some(rest) => rest.strip_suffix(FRAME.1),
        None => None,
    };
    Vec::from_slice(alloc, value.unwrap_or(text))
}

/// `boolean BYTES`: the boolean of a value.
pub fn boolean<'a>(alloc: Global, words: &[Word<'_>]) -> Outcome<'a> {
    let value = Vec::from_slice(alloc, bytes(words)?)?;
    let boolean = Boolean::try_from(BString::new(value))?;
    Ok(Answer::Flag(boolean.0))
}

/// `integer BYTES`: the integer of a value, with its suffix.
pub fn integer<'a>(alloc: Global, words: &[Word<'_>]) -> Outcome<'a> {
    let value = Vec::from_slice(alloc, bytes(words)?)?;
    let integer = Integer::try_from(BString::new(value))?;
    match integer.to_decimal() {
        Some(number) => Ok(Answer::Integer(number)),
        None => Err(Refusal::Mistyped("overflow")),
    }
}
