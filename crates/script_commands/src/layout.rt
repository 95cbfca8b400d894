//! The command on the layout of texts, which needs no file.

use crate::answer::{Answer, Outcome};
use crate::gix_config::format::{Indent, Newline, Options, normalize};
use script_words::layouts::{self, LineEnd, layout_of};
use script_words::words::Word;
use std::alloc::Global;

/// `fmt BYTES OPT BYTES B OPT B OPT OPT`: a text laid out.
pub fn fmt<'a>(alloc: Global, words: &[Word<'_>]) -> Outcome<'a> {
    let layout = layout_of(words)?;
    let options = Options {
        root_comment_indent: match layout.comment_indent {
            Some(indent) => Some(indent_of(indent)),
            None => None,
        },
        key_value_indent: indent_of(layout.name_indent),
        spaces_around_separator: layout.is_spaced,
        newline: newline_of(layout.line_end),
        ensure_trailing_newline: layout.is_closed,
        max_leading_blank_lines: layout.leading,
        max_consecutive_blank_lines: layout.consecutive,
    };
    Ok(Answer::text(normalize(alloc, layout.text, options)?))
}

fn indent_of(indent: layouts::Indent) -> Indent {
    match indent {
        layouts::Indent::Spaces(count) => Indent::Spaces(count),
        layouts::Indent::Tabs(count) => Indent::Tabs(count),
    }
}

fn newline_of(line_end: LineEnd) -> Newline {
    match line_end {
        LineEnd::OfText => Newline::Detect,
        LineEnd::Lf => Newline::Lf,
        LineEnd::CrLf => Newline::CrLf,
    }
}
