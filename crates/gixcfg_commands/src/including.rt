//! What a call reads: a file, with what it includes or without, or all that git reads.

use crate::effective::effective;
use crate::loads::Loads;
use crate::named::entries_or_refused;
use crate::placing::refused_init;
use gix_config::File;
use gix_config::file::init;
use gixcfg_core::conditions::{here_from, options_of};
use gixcfg_core::origins::Located;
use gixcfg_core::outside::{Inputs, Outside, refused};
use gixcfg_core::places::meta_of;
use gixcfg_core::trouble::Trouble;
use gixcfg_files::find_repository;
use gixcfg_words::command::Reading;
use std::alloc::AllocGlobal;
use std::io::Read;
use std::rt::{Env, Files};

/// A text that was read there as a file, with what it includes. The text is copied, for the
/// message of an error.
fn included<R: Files + Env + Loads + AllocGlobal>(
    rt: &R,
    read: &Located,
    text: Vec<u8>,
    outside: Outside<'_>,
) -> Result<File, Trouble> {
    let found = find_repository(rt)?;
    let here = here_from(rt, found.as_ref())?;
    let copy = text.to_vec(rt.alloc())?;
    let meta = meta_of(rt.alloc(), read.path())?;
    match rt.from_text(text, meta, options_of(outside.home, &here, true)) {
        Ok(file) => Ok(file),
        Err(init::Error::Parse(cause)) => {
            Err(refused(rt.alloc(), read.name(), &copy, &cause, outside))
        }
        Err(refusal) => Err(refused_init(rt, &refusal, outside)),
    }
}

/// What a call reads; none if there is no such file.
pub fn file_read<R: Files + Env + Loads + AllocGlobal, I: Read + Drop>(
    inputs: &mut Inputs<'_, R, I>,
    reading: &Reading<'_>,
    read: &Located,
) -> Result<Option<File>, Trouble> {
    let follows = read.follows(reading.includes);
    if let Located::Effective = read {
        return Ok(Some(effective(inputs.rt, inputs.outside, follows)?));
    }
    let Some(text) = inputs.text_of(read.path())? else {
        return Ok(None);
    };
    let (rt, outside) = (inputs.rt, inputs.outside);
    if follows {
        Ok(Some(included(rt, read, text, outside)?))
    } else {
        Ok(Some(entries_or_refused(rt.alloc(), read.name(), &text, outside)?))
    }
}
