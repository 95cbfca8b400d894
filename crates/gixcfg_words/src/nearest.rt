//! The command that a wrong word was meant to be.

use crate::verbs::COMMANDS;
use std::alloc::{AllocError, Global};
use strsim::osa_distance;

/// How many letters may be wrong.
const MOST: usize = 3;

/// The command that is spelled most like a word: with the fewest letters put in, left out, changed or swapped, three at the most and
/// fewer than the word has.
///
/// # Errors
///
/// Out of memory.
pub fn nearest(alloc: Global, word: &str) -> Result<Option<&'static str>, AllocError> {
    let mut found = None;
    let mut fewest = word.len().min(MOST + 1);
    for (name, _) in &COMMANDS {
        let distance = osa_distance(alloc, word, name)?;
        if distance < fewest {
            fewest = distance;
            found = Some(*name);
        }
    }
    Ok(found)
}
