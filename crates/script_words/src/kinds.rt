//! Kinds of events by their letters, as sets.

use crate::words::NotUnderstood;

// A set of kinds has a bit for each kind. No filter drops headers, so headers have none.

/// Names of values.
pub const NAMES: u8 = 1;

/// Separators, that is `=`.
pub const SEPARATORS: u8 = 2;

/// Values of one piece.
pub const VALUES: u8 = 4;

/// Pieces of a value, without the last one.
pub const PIECES: u8 = 8;

/// Last pieces of a value.
pub const LAST_PIECES: u8 = 16;

/// Newlines.
pub const LINE_ENDS: u8 = 32;

/// Blanks.
pub const BLANKS: u8 = 64;

/// Comments.
pub const COMMENTS: u8 = 128;

/// The set of the kinds of these letters.
pub fn kinds_of(letters: &[u8]) -> Result<u8, NotUnderstood> {
    let mut kinds = 0;
    for letter in letters {
        kinds |= kind_of(*letter)?;
    }
    Ok(kinds)
}

fn kind_of(letter: u8) -> Result<u8, NotUnderstood> {
    match letter {
        b'H' => Ok(0),
        b'N' => Ok(NAMES),
        b'S' => Ok(SEPARATORS),
        b'V' => Ok(VALUES),
        b'P' => Ok(PIECES),
        b'D' => Ok(LAST_PIECES),
        b'L' => Ok(LINE_ENDS),
        b'W' => Ok(BLANKS),
        b'C' => Ok(COMMENTS),
        _ => Err(NotUnderstood),
    }
}
