//! Texts that are read again, to tell where one is refused.

use gitconf_text::NoMemory;
use gixcfg_files::{Fault, read};
use std::alloc::AllocGlobal;
use std::fs;
use std::io::ErrorKind;
use std::rt::Files;

/// The text of a regular file; none if it can't be read. No other is read twice, since a pipe gives its text once.
pub fn text_at<R: Files + AllocGlobal>(rt: &R, path: &str) -> Result<Option<Vec<u8>>, NoMemory> {
    match fs::metadata(rt, path) {
        Ok(metadata) if metadata.is_file() => {}
        Err(error) if error.kind() == ErrorKind::OutOfMemory => return Err(NoMemory),
        _ => return Ok(None),
    }
    match read(rt, path) {
        Ok(text) => Ok(text),
        Err(Fault::Memory) => Err(NoMemory),
        Err(_) => Ok(None),
    }
}
