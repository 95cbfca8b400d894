//! What the words of commands mean that make files of what is outside.

use crate::arguments::one_word;
use crate::turns::Turns;
use crate::words::{NotUnderstood, Word};

/// A word that names something, such as a source.
pub fn name<'a>(words: &'a [Word<'_>]) -> Result<&'a [u8], NotUnderstood> {
    one_word(words)?.plain()
}

/// BYTES, and a word that names something: a path, and a source.
pub fn path_and_name<'a>(words: &'a [Word<'_>]) -> Result<(&'a str, &'a [u8]), NotUnderstood> {
    match words {
        [path, name] => Ok((path.text()?, name.plain()?)),
        _ => Err(NotUnderstood),
    }
}

/// Paths of files, and what happens at their faults.
#[derive(Clone, Copy)]
pub struct Paths<'a, 'b> {
    /// Whether each has to be a file.
    pub must_exist: bool,
    /// Whether faults are ignored.
    pub ignores_faults: bool,
    /// OPT..: the paths, `-` for none.
    pub paths: &'a [Word<'b>],
}

/// B B OPT..: paths of files, and what happens at their faults.
pub fn paths_of<'a, 'b>(words: &'a [Word<'b>]) -> Result<Paths<'a, 'b>, NotUnderstood> {
    match words {
        [must_exist, ignores_faults, paths @ ..] => Ok(Paths {
            must_exist: must_exist.flag()?,
            ignores_faults: ignores_faults.flag()?,
            paths,
        }),
        _ => Err(NotUnderstood),
    }
}

/// N, and a word that names something: which call fails, counted from 1, and how. No call is number 0.
pub fn turn_and_name<'a>(words: &'a [Word<'_>]) -> Result<(Turns, &'a [u8]), NotUnderstood> {
    match words {
        [number, name] => Ok((turns_of(number.number()?), name.plain()?)),
        _ => Err(NotUnderstood),
    }
}

/// Counts up to the call of that number, counted from 1.
fn turns_of(number: usize) -> Turns {
    match number {
        0 => Turns::none(),
        number => Turns::behind(number - 1),
    }
}
