//! Names of files as git shows them: in quotes, where they have bytes that a line doesn't show as they are.
ghost use Rattle.std.specs.Prelude.{◌≡◌, ◌++◌, IfOk, flat_map};
ghost use Rattle.std.specs.List.{list_all};
ghost use Rattle.gixcfg_core.specs.Quoted.{escape, is_plain, letter_of, octal, quoted, quoted_byte};

use std::alloc::AllocError;

/// Adds a name as it is, or in quotes if that doesn't show it.
///
/// # Errors
///
/// Out of memory.
pub fn add_quoted(text: &mut Vec<u8>, name: &[u8]) -> Result<(), AllocError>
    ensures { IfOk result (λ _. text.new.items ≡ text.old.items ++ quoted name.now) }
{
    if are_plain(name) {
        return text.extend_from_slice(name);
    }
    text.push(b'"')?;
    add_bytes(text, name)?;
    text.push(b'"')?;
    Ok(())
}

/// Whether all bytes of a name are shown as they are.
fn are_plain(name: &[u8]) -> bool
    ensures { result ≡ list_all is_plain name.now }
{
    name.iter().all(|byte| is_plain(*byte))
}

/// Adds bytes as they stand between quotes.
fn add_bytes(text: &mut Vec<u8>, bytes: &[u8]) -> Result<(), AllocError>
    ensures { IfOk result (λ _. text.new.items ≡ text.old.items ++ flat_map quoted_byte bytes.now) }
{
    for byte in bytes {
        if is_plain(*byte) {
            text.push(*byte)?;
        } else {
            text.push(b'\\')?;
            add_escape(text, letter_of(*byte), *byte)?;
        }
    }
    Ok(())
}

/// Adds what stands for a byte behind a backslash: its letter, if it has one, else three octal digits.
fn add_escape(text: &mut Vec<u8>, letter: Option<u8>, byte: u8) -> Result<(), AllocError>
    ensures { IfOk result (λ _. text.new.items ≡ text.old.items ++ escape letter byte) }
{
    match letter {
        Some(letter) => Ok(text.push(letter)?),
        None => add_octal(text, byte),
    }
}

/// Adds a byte in three octal digits.
fn add_octal(text: &mut Vec<u8>, byte: u8) -> Result<(), AllocError>
    ensures { IfOk result (λ _. text.new.items ≡ text.old.items ++ octal byte) }
{
    text.extend_from_slice(&[b'0' + byte / 64, b'0' + byte / 8 % 8, b'0' + byte % 8])
}

/// The letter or mark that a byte is written as behind a backslash, if it has one.
fn letter_of(byte: u8) -> Option<u8>
    ensures { result ≡ letter_of byte }
{
    match byte {
        7 => Some(b'a'),
        8 => Some(b'b'),
        b'\t' => Some(b't'),
        b'\n' => Some(b'n'),
        11 => Some(b'v'),
        12 => Some(b'f'),
        b'\r' => Some(b'r'),
        b'"' | b'\\' => Some(byte),
        _ => None,
    }
}

/// Whether a byte is shown as it is: a printable one of ASCII, but for a quote and a backslash.
fn is_plain(byte: u8) -> bool
    ensures { result ≡ is_plain byte }
{
    matches!(byte, b' '..=b'~') && byte != b'"' && byte != b'\\'
}
