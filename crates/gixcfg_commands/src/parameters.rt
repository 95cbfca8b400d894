//! What `git -c KEY=VALUE` hands to the programs that git starts: the variable `GIT_CONFIG_PARAMETERS`.

use bstr::BString;
use gitconf_text::NoMemory;
use std::alloc::Global;

/// An entry of the variable. Without `=` it has no value.
#[derive(Drop)]
pub struct Parameter {
    /// Its key.
    pub key: BString,
    /// Its value, if it has one.
    pub value: Option<BString>,
}

/// Why there are no entries.
#[derive(Clone, Copy)]
pub enum Fault {
    /// The variable isn't written as git writes it.
    Malformed,
    /// Out of memory.
    Memory,
}

impl From<NoMemory> for Fault {
    fn from(_: NoMemory) -> Fault {
        Fault::Memory
    }
}

/// The entries of the variable: quoted as `'KEY'='VALUE'`, as `'KEY'=` without a value, or as git before 2.31 wrote them, as `'KEY=VALUE'`
/// or `'KEY'`; with whitespace between them.
///
/// # Errors
///
/// It is written otherwise; out of memory.
pub fn parameters_of(alloc: Global, text: &[u8]) -> Result<Vec<Parameter>, Fault> {
    let mut found = Vec::new(alloc);
    let mut at = 0usize;
    for _ in 0..text.len() {
        if at >= text.len() {
            break;
        }
        let (parameter, end) = parameter_at(alloc, text, at)?;
        put(&mut found, parameter)?;
        at = after_blanks(text, end);
    }
    Ok(found)
}

/// Adds an entry.
fn put(found: &mut Vec<Parameter>, parameter: Parameter) -> Result<(), NoMemory> {
    Ok(found.push(parameter)?)
}

/// The entry that begins at a place, and where it ends.
fn parameter_at(alloc: Global, text: &[u8], at: usize) -> Result<(Parameter, usize), Fault> {
    let (first, end) = quoted_at(alloc, text, at)?;
    match text.get(end) {
        Some(b'=') => value_at(alloc, first, text, end.saturating_add(1)),
        Some(byte) if !byte.is_ascii_whitespace() => Err(Fault::Malformed),
        _ => Ok((old_style(alloc, &first)?, end)),
    }
}

/// The entry of a key whose value begins at a place, if it has one, and where it ends.
fn value_at(
    alloc: Global,
    key: Vec<u8>,
    text: &[u8],
    at: usize,
) -> Result<(Parameter, usize), Fault> {
    let key = BString::new(key);
    if is_end(text, at) {
        return Ok((Parameter { key, value: None }, at));
    }
    let (value, end) = quoted_at(alloc, text, at)?;
    if !is_end(text, end) {
        return Err(Fault::Malformed);
    }
    let value = Some(BString::new(value));
    Ok((Parameter { key, value }, end))
}

/// The entry of a text in one pair of quotes.
fn old_style(alloc: Global, text: &[u8]) -> Result<Parameter, NoMemory> {
    let equals = text.iter().position(|byte| *byte == b'=');
    let (key, value) = match equals {
        Some(at) => {
            let (key, value) = text.split_at(at);
            (key, Some(BString::new(behind_first(value).to_vec(alloc)?)))
        }
        None => (text, None),
    };
    let key = BString::new(key.trim_ascii().to_vec(alloc)?);
    Ok(Parameter { key, value })
}

/// What is behind the first byte.
fn behind_first(text: &[u8]) -> &[u8] {
    text.split_at(text.len().min(1)).1
}

/// Whether an entry ends at a place: there is whitespace or nothing.
fn is_end(text: &[u8], at: usize) -> bool {
    match text.get(at) {
        Some(byte) => byte.is_ascii_whitespace(),
        None => true,
    }
}

/// A text from a place on.
fn after(text: &[u8], at: usize) -> &[u8] {
    text.split_at(at.min(text.len())).1
}

/// The first place from there on that isn't whitespace.
fn after_blanks(text: &[u8], at: usize) -> usize {
    let blanks = after(text, at)
        .iter()
        .take_while(|byte| byte.is_ascii_whitespace())
        .count();
    at.saturating_add(blanks)
}

/// The text in quotes that begins at a place, and where it ends. A quote in it is written as `'\''`, an exclamation mark as `'\!'`.
fn quoted_at(alloc: Global, text: &[u8], at: usize) -> Result<(Vec<u8>, usize), Fault> {
    if text.get(at) != Some(&b'\'') {
        return Err(Fault::Malformed);
    }
    let text = after(text, at.saturating_add(1));
    let mut quoted = Vec::new(alloc);
    let mut next = 0usize;
    for (place, byte) in text.iter().enumerate() {
        if place < next {
            continue;
        }
        next = place.saturating_add(1);
        if *byte != b'\'' {
            add(&mut quoted, *byte)?;
            continue;
        }
        let Some(escaped) = escaped_at(text, next) else {
            return Ok((quoted, at.saturating_add(1).saturating_add(next)));
        };
        add(&mut quoted, escaped)?;
        next = next.saturating_add(3);
    }
    Err(Fault::Malformed)
}

/// Adds a byte.
fn add(text: &mut Vec<u8>, byte: u8) -> Result<(), NoMemory> {
    Ok(text.push(byte)?)
}

/// The byte that is escaped at a place outside of quotes, if they go on behind it.
fn escaped_at(text: &[u8], at: usize) -> Option<u8> {
    match (
        text.get(at)?,
        text.get(at.checked_add(1)?)?,
        text.get(at.checked_add(2)?)?,
    ) {
        (b'\\', byte, b'\'') if *byte == b'\'' || *byte == b'!' => Some(*byte),
        _ => None,
    }
}
