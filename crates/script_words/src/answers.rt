//! The words of an answer, each added to a line.
ghost use Rattle.std.specs.Prelude.{◌≡◌, ◌∷◌, ◌++◌, OnOk, string_bytes};
ghost use Rattle.hex.specs.Hex.{encode_lower};
ghost use Rattle.script_words.specs.Words.{word_of_bytes};

use std::alloc::{AllocError, Global};
use std::fmt::Write;

/// Whether a growth was refused, as the first word; nothing if that is not known.
pub fn put_refused(line: &mut String, refused: Option<bool>) -> Result<(), AllocError> {
    match refused {
        Some(true) => line.push_str("+ "),
        Some(false) => line.push_str("- "),
        None => Ok(()),
    }
}

/// Bytes as they are in a script, without the `x`.
pub fn put_digits(alloc: Global, line: &mut String, bytes: &[u8]) -> Result<(), AllocError>
    ensures { OnOk result (string_bytes line.new ≡ string_bytes line.old ++ encode_lower bytes.now) }
{
    let digits = hex::encode(alloc, bytes)?;
    line.push_str(&digits)
}

/// A word of bytes, after a blank.
pub fn put_bytes(alloc: Global, line: &mut String, bytes: &[u8]) -> Result<(), AllocError>
    ensures { OnOk result (string_bytes line.new ≡ string_bytes line.old ++ 32 ∷ word_of_bytes bytes.now) }
{
    line.push_str(" x")?;
    put_digits(alloc, line, bytes)
}

/// A word of bytes, or `-`.
pub fn put_optional(
    alloc: Global,
    line: &mut String,
    bytes: Option<&[u8]>,
) -> Result<(), AllocError> {
    match bytes {
        Some(bytes) => put_bytes(alloc, line, bytes),
        None => line.push_str(" -"),
    }
}

/// `true` or `false`.
pub fn put_flag(line: &mut String, flag: bool) -> Result<(), AllocError> {
    line.push_str(if flag { " true" } else { " false" })
}

/// A count.
pub fn put_number(line: &mut String, number: usize) -> Result<(), AllocError> {
    write!(line, " {number}")
}

/// A number with a sign.
pub fn put_integer(line: &mut String, number: i64) -> Result<(), AllocError> {
    write!(line, " {number}")
}

/// An error by its number.
pub fn put_error(line: &mut String, number: u8) -> Result<(), AllocError> {
    write!(line, "err E{number}")
}

/// A word that is given with blanks, each of which becomes `-`.
pub fn put_dashed(line: &mut String, text: &str) -> Result<(), AllocError> {
    line.push(' ')?;
    for letter in text.chars() {
        line.push(if letter == ' ' { '-' } else { letter })?;
    }
    Ok(())
}

/// The decimal digits of a text.
pub fn put_digits_of(line: &mut String, text: &str) -> Result<(), AllocError> {
    for letter in text.chars() {
        if letter.is_ascii_digit() {
            line.push(letter)?;
        }
    }
    Ok(())
}

/// What begins an event: the letter of its kind.
pub fn put_letter(line: &mut String, letter: char) -> Result<(), AllocError> {
    line.push(' ')?;
    line.push(letter)?;
    line.push_str(":x")
}
