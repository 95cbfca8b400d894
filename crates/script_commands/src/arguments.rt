//! What words mean that several commands and the lines of blocks take.

use crate::refusal::Refusal;
use crate::rendering::put_id;
use bstr::BString;
use gix_config::File;
use gix_config::file::SectionId;
use script_words::words::Word;
use std::alloc::Global;

/// BYTES..: each of them.
pub fn bytes_of_all<'a>(alloc: Global, words: &'a [Word<'_>]) -> Result<Vec<&'a [u8]>, Refusal> {
    let mut all = Vec::with_capacity(alloc, words.len())?;
    for word in words {
        all.push(word.bytes()?)?;
    }
    Ok(all)
}

/// B..: a flag for each word.
pub fn flags_of_all(alloc: Global, words: &[Word<'_>]) -> Result<Vec<bool>, Refusal> {
    let mut all = Vec::with_capacity(alloc, words.len())?;
    for word in words {
        all.push(word.flag()?)?;
    }
    Ok(all)
}

/// A subsection, or blanks, with memory of their own.
pub fn owned(alloc: Global, bytes: Option<&[u8]>) -> Result<Option<BString>, Refusal> {
    match bytes {
        Some(bytes) => Ok(Some(BString::from_slice(alloc, bytes)?)),
        None => Ok(None),
    }
}

/// The section's number that is written so, or else the number of no section.
pub fn id_of(alloc: Global, file: &File, number: usize) -> Result<SectionId, Refusal> {
    // As in the Rust crate, only its text shows a section's number.
    let wanted = format!(in alloc; "{number}")?;
    let mut shown = String::new(alloc);
    for id in file.section_ids() {
        shown.clear();
        put_id(alloc, &mut shown, id)?;
        if shown == wanted {
            return Ok(id);
        }
    }
    Ok(SectionId::default())
}
