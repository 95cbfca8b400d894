//! How a text is formatted, as a program in C says it.
ghost use Rattle.std.specs.Prelude.{◌≡◌};
ghost use Rattle.gitconf_layout.specs.Layout.{default_options};
ghost use Rattle.gix_config_c.specs.Layouts.{indent_of, limit_of, newline_of, options_of};

use gitconf_layout::format::{Indent, Newline, Options};

/// How a text is formatted. gix_config_layout_default fills it.
#[derive(Drop)]
#[repr(C)]
pub struct Layout {
    /// Whether whitespace stays before comments on lines of their own before the first header.
    pub keeps_root_blanks: bool,
    /// If they don't stay: whether tabs come in their place, else spaces.
    pub has_root_tabs: bool,
    /// And how many.
    pub root_indent: usize,
    /// Whether tabs come before what begins a line after a header, else spaces. That is a name or a comment.
    pub has_tabs: bool,
    /// And how many.
    pub indent: usize,
    /// Whether there is a space on either side of `=`.
    pub spaces_around_separator: bool,
    /// Whether lines end as the first line of the text does.
    pub detects_newline: bool,
    /// If not: whether they end with CR and LF, else with LF.
    pub is_crlf: bool,
    /// Whether a text that isn't empty ends with one line ending.
    pub ensures_trailing_newline: bool,
    /// Whether blank lines before the first line that isn't blank are limited.
    pub limits_leading_blank_lines: bool,
    /// How many stay then.
    pub max_leading_blank_lines: usize,
    /// Whether blank lines that stand together after that line are limited.
    pub limits_blank_lines: bool,
    /// How many stay then.
    pub max_blank_lines: usize,
}

/// An indent of tabs or spaces.
fn indent(has_tabs: bool, count: usize) -> Indent
    ensures { result ≡ indent_of has_tabs count }
{
    if has_tabs {
        Indent::Tabs(count)
    } else {
        Indent::Spaces(count)
    }
}

/// What lines end with.
fn newline(detects: bool, is_crlf: bool) -> Newline
    ensures { result ≡ newline_of detects is_crlf }
{
    match (detects, is_crlf) {
        (true, _) => Newline::Detect,
        (false, true) => Newline::CrLf,
        (false, false) => Newline::Lf,
    }
}

/// A limit, if there is one.
fn limit(limits: bool, count: usize) -> Option<usize>
    ensures { result ≡ limit_of limits count }
{
    if limits { Some(count) } else { None }
}

/// The options that a program in C says.
pub fn options(layout: &Layout) -> Options
    ensures { result ≡ options_of layout.now }
{
    let root_comment_indent = if layout.keeps_root_blanks {
        None
    } else {
        Some(indent(layout.has_root_tabs, layout.root_indent))
    };
    Options {
        root_comment_indent,
        key_value_indent: indent(layout.has_tabs, layout.indent),
        spaces_around_separator: layout.spaces_around_separator,
        newline: newline(layout.detects_newline, layout.is_crlf),
        ensure_trailing_newline: layout.ensures_trailing_newline,
        max_leading_blank_lines: limit(
            layout.limits_leading_blank_lines,
            layout.max_leading_blank_lines,
        ),
        max_consecutive_blank_lines: limit(layout.limits_blank_lines, layout.max_blank_lines),
    }
}

impl Layout {
    /// The default: a tab before names, ` = `, the line ending of the text, one line ending at the end, and all blank lines.
    pub fn usual() -> Layout
        ensures { options_of result ≡ default_options }
    {
        Layout {
            keeps_root_blanks: false,
            has_root_tabs: false,
            root_indent: 0,
            has_tabs: true,
            indent: 1,
            spaces_around_separator: true,
            detects_newline: true,
            is_crlf: false,
            ensures_trailing_newline: true,
            limits_leading_blank_lines: false,
            max_leading_blank_lines: 0,
            limits_blank_lines: false,
            max_blank_lines: 0,
        }
    }
}
