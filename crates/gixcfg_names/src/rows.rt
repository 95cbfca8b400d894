//! The table of the names that git knows.
ghost use Rattle.std.specs.Prelude.{◌≡◌, IfOk, map};
ghost use Rattle.std.specs.Option.{option_map};
ghost use Rattle.std.specs.Str.Lines.{lines};
ghost use Rattle.gixcfg_names.specs.Rows as spec;

use crate::table::TABLE;
use gitconf_sources::key::KeyRef;
use gixcfg_words::kinds::{Kind, kind_named};
use std::alloc::{AllocError, Global};

/// A name that git knows, or a pattern of such names.
#[derive(Clone, Copy)]
pub struct Row {
    /// Its parts. A part that is `*`, or that begins with `<`, stands for whatever somebody names.
    pub key: KeyRef<'static>,
    /// The type of its value, unless any text or a word may be one.
    pub kind: Option<Kind>,
    /// The words that its value is one of, if it is, with commas between them.
    ///
    /// What they mean is said by [`is_one_of`](crate::values::is_one_of).
    pub words: Option<&'static str>,
    /// Whether of several entries only the last counts.
    pub is_single: bool,
    /// What took its place if git has given it up, or `none` if nothing did.
    pub instead: Option<&'static str>,
}

/// The names that git knows, in the order of the table. One walk over it.
///
/// # Errors
///
/// Out of memory.
pub fn git_rows(alloc: Global) -> Result<Vec<Row>, AllocError>
    ensures { IfOk result (λ rows. map spec.plain rows.items ≡ spec.git_rows) }
{
    rows_in(alloc, TABLE)
}

/// The rows of a table, a line each.
#[tactic(auto, unfolding(crate::specs::Rows::rows_of))]
fn rows_in(alloc: Global, table: &'static str) -> Result<Vec<Row>, AllocError>
    ensures { IfOk result (λ rows. map spec.plain rows.items ≡ spec.rows_of (lines table.entry.now)) }
{
    let lines = lines_of(alloc, table)?;
    let mut rows = Vec::new(alloc);
    for line in &lines {
        if let Some(row) = row_of(line) {
            rows.push(row)?;
        }
    }
    Ok(rows)
}

/// The lines of a table.
fn lines_of(alloc: Global, table: &'static str) -> Result<Vec<&'static str>, AllocError>
    ensures { IfOk result (λ all. map (λ line. line.now) all.items ≡ lines table.entry.now) }
{
    table.lines().collect(alloc)
}

/// The row that a line writes, if it writes one.
fn row_of(line: &'static str) -> Option<Row>
    ensures { option_map spec.plain result ≡ spec.row_of line.entry.now }
{
    let (name, behind) = cut(line)?;
    let (kind, rest) = cut(behind)?;
    let (count, instead) = cut(rest)?;
    Some(Row {
        key: KeyRef::parse_unvalidated(name.as_bytes())?,
        kind: kind_named(kind),
        words: words_of(kind),
        is_single: count == "last",
        instead: instead_of(instead),
    })
}

/// A text cut at its first space, if it has one.
fn cut(text: &'static str) -> Option<(&'static str, &'static str)>
    ensures { option_map spec.texts result ≡ spec.cut text.entry.now }
{
    text.split_once(' ')
}

/// The words that a type lists, if it lists words: what stands behind `words:`.
fn words_of(kind: &'static str) -> Option<&'static str>
    ensures { option_map (λ text. text.now) result ≡ spec.words_of kind.entry.now }
{
    let (front, words) = cut_at_colon(kind)?;
    match front {
        "words" => Some(words),
        _ => None,
    }
}

/// A text cut at its first colon, if it has one.
fn cut_at_colon(text: &'static str) -> Option<(&'static str, &'static str)>
    ensures { option_map spec.texts result ≡ spec.cut_at_colon text.entry.now }
{
    text.split_once(':')
}

/// What took a name's place, by the last word of its line.
fn instead_of(word: &'static str) -> Option<&'static str>
    ensures { option_map (λ text. text.now) result ≡ spec.instead_of word.entry.now }
{
    match word {
        "-" => None,
        word => Some(word),
    }
}
