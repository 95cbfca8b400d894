//! The words of the command that lays out a text.

use crate::words::{NotUnderstood, Word};

/// Tabs alone, or spaces alone.
#[derive(Clone, Copy)]
pub enum Indent {
    Spaces(usize),
    Tabs(usize),
}

/// The line ending of a layout.
#[derive(Clone, Copy)]
pub enum LineEnd {
    /// That of the text.
    OfText,
    Lf,
    CrLf,
}

/// A text, and how it is laid out.
#[derive(Clone, Copy)]
pub struct Layout<'a> {
    pub text: &'a [u8],
    /// Of comments before the first header.
    pub comment_indent: Option<Indent>,
    /// Of names.
    pub name_indent: Indent,
    /// Whether there are spaces around `=`.
    pub is_spaced: bool,
    pub line_end: LineEnd,
    /// Whether there is a line ending at the end.
    pub is_closed: bool,
    /// The limit of blank lines before the first content.
    pub leading: Option<usize>,
    /// The limit of blank lines after it.
    pub consecutive: Option<usize>,
}

/// BYTES OPT BYTES B OPT B OPT OPT.
pub fn layout_of<'a>(words: &'a [Word<'_>]) -> Result<Layout<'a>, NotUnderstood> {
    match words {
        [
            text,
            comment_indent,
            name_indent,
            is_spaced,
            line_end,
            is_closed,
            leading,
            consecutive,
        ] => Ok(Layout {
            text: text.bytes()?,
            comment_indent: optional_indent(comment_indent)?,
            name_indent: indent_of(name_indent.bytes()?)?,
            is_spaced: is_spaced.flag()?,
            line_end: line_end_of(line_end)?,
            is_closed: is_closed.flag()?,
            leading: leading.limit()?,
            consecutive: consecutive.limit()?,
        }),
        _ => Err(NotUnderstood),
    }
}

/// An indent, or none for `-`.
fn optional_indent(word: &Word<'_>) -> Result<Option<Indent>, NotUnderstood> {
    match word.optional()? {
        Some(bytes) => Ok(Some(indent_of(bytes)?)),
        None => Ok(None),
    }
}

/// The indent that these bytes are.
fn indent_of(bytes: &[u8]) -> Result<Indent, NotUnderstood> {
    if is_all(bytes, b' ') {
        Ok(Indent::Spaces(bytes.len()))
    } else if is_all(bytes, b'\t') {
        Ok(Indent::Tabs(bytes.len()))
    } else {
        Err(NotUnderstood)
    }
}

fn is_all(bytes: &[u8], one: u8) -> bool {
    bytes.iter().all(|byte| *byte == one)
}

/// LF, or CR and LF; `-` for that of the text.
fn line_end_of(word: &Word<'_>) -> Result<LineEnd, NotUnderstood> {
    match word.optional()? {
        None => Ok(LineEnd::OfText),
        Some(b"\n") => Ok(LineEnd::Lf),
        Some(b"\r\n") => Ok(LineEnd::CrLf),
        Some(_) => Err(NotUnderstood),
    }
}
