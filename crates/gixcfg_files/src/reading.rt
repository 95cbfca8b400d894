//! A file's text.

use crate::fault::Fault;
use std::alloc::AllocGlobal;
use std::io::{ErrorKind, Read};
use std::rt::Files;
use std::{fs, io};

/// How many bytes of a file are read at most: one more than the parser takes, so that it still refuses a file that is too
/// long, and what has no end is met in the same way.
const MOST: u64 = 4294967296;

/// The text of the file at a path; none if there is no such file.
///
/// # Errors
///
/// The file can't be opened or read; out of memory.
pub fn read<R: Files + AllocGlobal>(files: &R, path: &str) -> Result<Option<Vec<u8>>, Fault> {
    match text_at(files, path) {
        Ok(text) => Ok(text),
        Err(error) => Err(Fault::unread(error)),
    }
}

/// The same, with the error as it was met.
pub fn text_at<R: Files + AllocGlobal>(files: &R, path: &str) -> io::Result<Option<Vec<u8>>> {
    match fs::open(files, path) {
        Ok(file) => Ok(Some(read_all(file, Vec::new(files.alloc()))?)),
        Err(error) if error.kind() == ErrorKind::NotFound => Ok(None),
        Err(error) => Err(error),
    }
}

/// What a file has, after what is there.
pub fn read_all<F: Read + Drop>(file: F, mut text: Vec<u8>) -> io::Result<Vec<u8>> {
    file.take(MOST).read_to_end(&mut text)?;
    Ok(text)
}
