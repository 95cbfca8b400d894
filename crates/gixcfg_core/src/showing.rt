//! What a call answers, on standard output, or why not, on standard error.
ghost use Rattle.std.specs.Prelude.{◌≡◌};
ghost use Rattle.gixcfg_core.specs.Shown.{end_status, IsPut, IsShown};
ghost use Rattle.gixcfg_core.specs.Troubles.{IsStatus};

use crate::streams::put;
use crate::trouble::{Trouble, report};
use gixcfg_words::rules::Rules;
use std::io::Write;

/// How a trouble is told: with which name, by whose rules.
#[derive(Clone, Copy)]
pub struct Told<'a> {
    /// What is called so that was read.
    pub name: &'a str,
    /// The rules.
    pub rules: Rules,
}

/// Writes an answer, if there is one.
///
/// # Errors
///
/// Those of [`put`]; the trouble for which there is no answer.
pub fn put_made<W: Write>(answer: Result<Vec<u8>, Trouble>, out: &mut W) -> Result<(), Trouble>
    ensures { IsPut (λ text. text.items) answer result (W.contents out.old) (W.contents out.new) }
{
    match answer {
        Ok(text) => put(&text, out),
        Err(trouble) => Err(trouble),
    }
}

/// The exit status of what was done, or wasn't for a trouble, which is told.
pub fn end<E: Write>(done: Result<(), Trouble>, told: &Told<'_>, err: &mut E) -> u8
    ensures known { IsStatus result }
    ensures value { result ≡ end_status done }
{
    match done {
        Ok(()) => 0,
        Err(trouble) => report(&trouble, told.name, told.rules, err),
    }
}

/// Writes an answer to standard output, and returns the exit status. If there is no answer, it tells the trouble for
/// which there is none.
pub fn show<W: Write, E: Write>(
    answer: Result<Vec<u8>, Trouble>,
    told: &Told<'_>,
    out: &mut W,
    err: &mut E,
) -> u8
    ensures known { IsStatus result }
    ensures shown { IsShown (λ text. text.items) answer (W.contents out.old) (W.contents out.new) result }
{
    end(put_made(answer, out), told, err)
}
