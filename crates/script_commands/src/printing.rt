//! Commands that write a file.

use crate::answer::{Answer, Outcome};
use crate::gix_config::File;
use crate::gix_config::file::SectionId;
use crate::refusal::Refusal;
use crate::writers::{FailingOnce, Failure};
use script_words::arguments::{all_bytes, count_before, no_words};
use script_words::words::{Word, is_one_of};
use std::alloc::Global;
use std::borrow::CowSlice;

/// `print`: the text of the file.
pub fn print<'a>(file: &File, words: &[Word<'_>]) -> Outcome<'a> {
    no_words(words)?;
    Ok(Answer::text(file.to_bstring()?))
}

/// `printif NAMES..`: the text of the front and of the sections with these names.
pub fn printif<'a>(alloc: Global, file: &File, words: &[Word<'_>]) -> Outcome<'a> {
    let kept = sections_named(alloc, file, words)?;
    let mut out = Vec::new(alloc);
    match file.write_to_filter(&mut out, |section| kept.contains(&section.id())) {
        Ok(()) => Ok(Answer::Bytes(CowSlice::Owned(out))),
        Err(fault) => Err(Refusal::Unwritten(fault, out)),
    }
}

/// The numbers of the sections that have one of these names.
fn sections_named(
    alloc: Global,
    file: &File,
    names: &[Word<'_>],
) -> Result<Vec<SectionId>, Refusal> {
    all_bytes(names)?;
    let mut found = Vec::new(alloc);
    for section in file.sections() {
        if is_one_of(names, section.header().name()) {
            found.push(section.id())?;
        }
    }
    Ok(found)
}

/// `printfail N`, `printnone N`: writes the file to a writer that fails at its Nth write.
pub fn print_failing<'a>(
    alloc: Global,
    file: &File,
    words: &[Word<'_>],
    failure: Failure,
) -> Outcome<'a> {
    let mut out = FailingOnce::behind(alloc, count_before(words)?, failure);
    match file.write_to(&mut out) {
        Ok(()) => Ok(Answer::Bytes(CowSlice::Owned(out.into_taken()))),
        Err(fault) => Err(Refusal::Unwritten(fault, out.into_taken())),
    }
}
