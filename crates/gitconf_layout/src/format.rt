//! `normalize`, and its options.
ghost use Rattle.std.specs.Prelude.{◌≡◌, IfOk, IfErr};
ghost use Rattle.bstr.specs.Owned.{bstring_bytes};
ghost use Rattle.gitconf_read.specs.EventResult.{IsRefused};
ghost use Rattle.gitconf_parse.specs.EventIters.{events_left};
ghost use Rattle.gitconf_layout.specs.Setting.{set_tokens};
ghost use Rattle.gitconf_layout.specs.Layout.{default_options, IsLayout};
ghost use Rattle.gitconf_layout.specs.Layout as spec;

use crate::setting::{line_end_of, set_tokens};
use crate::trimming::end_with;
use bstr::BString;
use gitconf_parse::events::{EventIter, Events};
use gitconf_read::error::Error;
use gitconf_text::NoMemory;
use std::alloc::Global;

/// What comes before a comment or a name at the start of its line.
#[derive(Clone, Copy, Debug, PartialEq, Eq)]
pub enum Indent {
    /// This many tabs.
    Tabs(usize),
    /// This many spaces.
    Spaces(usize),
}

/// What lines end with.
#[derive(Clone, Copy, Debug, PartialEq, Eq)]
pub enum Newline {
    /// CR and LF if the first newline of the text holds a CR, otherwise LF.
    Detect,
    /// LF.
    Lf,
    /// CR and LF.
    CrLf,
}

/// How a text is formatted.
#[derive(Clone, Copy, Debug, PartialEq, Eq)]
pub struct Options {
    /// What comes before a comment on a line of its own before the first header. `None` keeps the whitespace
    /// that is there.
    pub root_comment_indent: Option<Indent>,
    /// What comes before a name or a comment that begins a line after a header.
    pub key_value_indent: Indent,
    /// Whether there is a space on either side of `=`.
    pub spaces_around_separator: bool,
    /// What lines end with.
    pub newline: Newline,
    /// Whether a text that isn't empty ends with one line ending.
    pub ensure_trailing_newline: bool,
    /// How many blank lines stay before the first other line; `None` keeps them all.
    pub max_leading_blank_lines: Option<usize>,
    /// How many blank lines stay together after that line; `None` keeps them all.
    pub max_consecutive_blank_lines: Option<usize>,
}

impl Default for Options {
    ghost is_default = { λ o. o ≡ default_options };

    /// A tab before names, ` = `, the line ending of the text, one line ending at the end, and all blank lines.
    fn default() -> Options {
        Options {
            root_comment_indent: Some(Indent::Spaces(0)),
            key_value_indent: Indent::Tabs(1),
            spaces_around_separator: true,
            newline: Newline::Detect,
            ensure_trailing_newline: true,
            max_leading_blank_lines: None,
            max_consecutive_blank_lines: None,
        }
    }
}

/// The text, formatted by the options. Its document is the same.
///
/// The events of the text are read once. It takes memory for them and for the result.
///
/// # Errors
///
/// E1 if the text has no document, with the line and the data from where it can't be read on; E2 for more than
/// 4294967295 bytes; E27 when out of memory.
pub fn normalize(alloc: Global, input: &[u8], options: Options) -> Result<BString, Error>
    ensures set { IfOk result (λ text. IsLayout options input.now (bstring_bytes text)) }
    ensures refused { IfErr result (IsRefused input.now) }
{
    let events = Events::from_bytes(alloc, input, None)?;
    let text = laid_out(alloc, events.iter(), &options)?;
    Ok(BString::new(text))
}

/// The text of these events, formatted.
#[tactic(auto, using(crate::proofs::Staying::body_is), unfolding(crate::specs::Layout::laid_out))]
fn laid_out(alloc: Global, events: EventIter<'_>, options: &Options) -> Result<Vec<u8>, NoMemory>
    ensures { IfOk result (λ text. text.items ≡ spec.laid_out options.now (events_left events.entry)) }
{
    let line_end = line_end_of(options.newline, events);
    let mut text = set_tokens(alloc, events, options, line_end)?;
    if options.ensure_trailing_newline {
        end_with(&mut text, line_end)?;
    }
    Ok(text)
}
