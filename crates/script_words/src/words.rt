//! The words of a line.
ghost use Rattle.std.specs.Prelude.{◌≡◌, ℕ, List, Ok, IfOk, IfSome, IsSome};
ghost use Rattle.std.specs.List.{list_any};
ghost use Rattle.std.specs.Char.{is_ascii_uppercase};
ghost use Rattle.hex.specs.Hex.{IsBytes, decode_of, encode_lower};
ghost use Rattle.script_words.specs.Words.{StandsFor, word_of_bytes};

use hex::FromHexError;
use std::alloc::{AllocError, Global};

/// A line with the wrong number of words, or a word of the wrong form.
#[derive(Clone, Copy)]
pub struct NotUnderstood;

/// The place of a file.
#[derive(Clone, Copy)]
pub enum Slot {
    F,
    G,
    H,
    I,
}

/// The place of a section that is in no file.
#[derive(Clone, Copy)]
pub enum Place {
    S,
    T,
}

/// A word of a line.
#[derive(Drop)]
pub enum Word<'a> {
    /// The bytes that are written as `x` and pairs of hexadecimal digits.
    Bytes(Vec<u8>),
    /// Any other word, as it is.
    Plain(&'a [u8]),
}

impl Word<'_> {
    /// Bytes.
    pub fn bytes(&self) -> Result<&[u8], NotUnderstood> {
        match self {
            Word::Bytes(bytes) => Ok(bytes),
            Word::Plain(_) => Err(NotUnderstood),
        }
    }

    /// Bytes, or none for `-`.
    pub fn optional(&self) -> Result<Option<&[u8]>, NotUnderstood> {
        match self {
            Word::Bytes(bytes) => Ok(Some(bytes)),
            Word::Plain(word) if *word == b"-".as_slice() => Ok(None),
            Word::Plain(_) => Err(NotUnderstood),
        }
    }

    /// Bytes that are UTF-8.
    pub fn text(&self) -> Result<&str, NotUnderstood> {
        utf8(self.bytes()?)
    }

    /// A word that isn't bytes.
    pub fn plain(&self) -> Result<&[u8], NotUnderstood> {
        match self {
            Word::Bytes(_) => Err(NotUnderstood),
            Word::Plain(word) => Ok(word),
        }
    }

    /// A decimal number.
    pub fn number(&self) -> Result<usize, NotUnderstood> {
        decimal(self.plain()?)
    }

    /// A decimal number in bytes, or none for `-`.
    pub fn limit(&self) -> Result<Option<usize>, NotUnderstood> {
        match self.optional()? {
            Some(digits) => Ok(Some(decimal(digits)?)),
            None => Ok(None),
        }
    }

    /// `true` or `false`.
    pub fn flag(&self) -> Result<bool, NotUnderstood> {
        match self.plain()? {
            b"true" => Ok(true),
            b"false" => Ok(false),
            _ => Err(NotUnderstood),
        }
    }

    /// UTF-8, or none for `-`.
    pub fn optional_text(&self) -> Result<Option<&str>, NotUnderstood> {
        match self.optional()? {
            Some(bytes) => Ok(Some(utf8(bytes)?)),
            None => Ok(None),
        }
    }

    /// `on` or `off`.
    pub fn switch(&self) -> Result<bool, NotUnderstood> {
        match self.plain()? {
            b"on" => Ok(true),
            b"off" => Ok(false),
            _ => Err(NotUnderstood),
        }
    }

    /// The place of a file.
    pub fn slot(&self) -> Result<Slot, NotUnderstood> {
        match self.plain()? {
            b"f" => Ok(Slot::F),
            b"g" => Ok(Slot::G),
            b"h" => Ok(Slot::H),
            b"i" => Ok(Slot::I),
            _ => Err(NotUnderstood),
        }
    }

    /// The place of a section that is in no file: `s` or `t`.
    pub fn place(&self) -> Result<Place, NotUnderstood> {
        match self.plain()? {
            b"s" => Ok(Place::S),
            b"t" => Ok(Place::T),
            _ => Err(NotUnderstood),
        }
    }
}

fn utf8(bytes: &[u8]) -> Result<&str, NotUnderstood> {
    match str::from_utf8(bytes) {
        Ok(text) => Ok(text),
        Err(_) => Err(NotUnderstood),
    }
}

/// The number that decimal digits write, without a sign.
fn decimal(digits: &[u8]) -> Result<usize, NotUnderstood> {
    let digits = utf8(digits)?;
    if digits.starts_with('+') {
        return Err(NotUnderstood);
    }
    match digits.parse::<usize>() {
        Ok(number) => Ok(number),
        Err(_) => Err(NotUnderstood),
    }
}

/// The words of a line, which are one blank apart.
pub fn words_of<'a>(alloc: Global, line: &'a [u8]) -> Result<Vec<Word<'a>>, AllocError> {
    let mut words = Vec::new(alloc);
    for word in line.split(|byte| *byte == b' ') {
        words.push(word_of(alloc, word)?)?;
    }
    Ok(words)
}

/// A word, with its bytes decoded if it has any.
#[tactic(auto, using(crate::proofs::Digits::are_these))]
fn word_of<'a>(alloc: Global, word: &'a [u8]) -> Result<Word<'a>, AllocError>
    // The word that an answer has for bytes means the same bytes in a line.
    ensures { (bytes : List ℕ) → IsBytes bytes → word.now ≡ word_of_bytes bytes → IfOk result (StandsFor bytes) }
{
    if let Some((b'x', digits)) = word.split_first() {
        if let Some(bytes) = decoded(alloc, digits)? {
            return Ok(Word::Bytes(bytes));
        }
    }
    Ok(Word::Plain(word))
}

/// The bytes that pairs of lower-case digits stand for; `None` if they are not such pairs.
#[tactic(auto, using(crate::proofs::Digits::digits_are_lower, crate::proofs::Digits::decodes_back))]
fn decoded(alloc: Global, digits: &[u8]) -> Result<Option<Vec<u8>>, AllocError>
    ensures value { IfOk result (λ found. IfSome found (λ bytes. decode_of digits.now ≡ Ok bytes.items)) }
    ensures found { (bytes : List ℕ) → IsBytes bytes → digits.now ≡ encode_lower bytes → IfOk result (λ found. IsSome found) }
{
    if has_upper_case(digits) {
        return Ok(None);
    }
    match hex::decode(alloc, digits) {
        Ok(bytes) => Ok(Some(bytes)),
        Err(FromHexError::OutOfMemory) => Err(AllocError),
        Err(_) => Ok(None),
    }
}

fn has_upper_case(text: &[u8]) -> bool
    ensures { result ≡ list_any is_ascii_uppercase text.now }
{
    text.iter().any(|byte| byte.is_ascii_uppercase())
}

/// Whether one of the words is this name, in either case.
pub fn is_one_of(words: &[Word<'_>], name: &[u8]) -> bool {
    for word in words {
        if is_name(word, name) {
            return true;
        }
    }
    false
}

fn is_name(word: &Word<'_>, name: &[u8]) -> bool {
    match word {
        Word::Bytes(bytes) => bytes.eq_ignore_ascii_case(name),
        Word::Plain(_) => false,
    }
}

/// What a word means in a table of words.
pub fn named_in<T: Copy>(table: &[(&[u8], T)], word: &[u8]) -> Option<T> {
    for (name, command) in table {
        if *name == word {
            return Some(*command);
        }
    }
    None
}
