//! What lies outside of a call's words, and how a text from there is refused.
ghost use Rattle.std.specs.Prelude.{IfOk, string_bytes};
ghost use Rattle.gixcfg_core.specs.Answers.{IsAccepted, IsMessageOf, IsTold};

use crate::message::{Refused, message};
use crate::streams::read_all;
use crate::trouble::Trouble;
use gitconf_read::error::Error;
use gixcfg_files::read;
use gixcfg_words::rules::Rules;
use gixcfg_words::shown::Shown;
use std::alloc::{AllocError, AllocGlobal, Global};
use std::io::Read;
use std::rt::Files;

/// What lies outside of the words.
#[derive(Clone, Copy)]
pub struct Outside<'a> {
    /// Whether standard error shows colors.
    pub is_colored: bool,
    /// Whether standard output is a terminal.
    pub is_seen: bool,
    /// The home directory.
    pub home: Option<&'a str>,
}

/// What a call can read: files and variables of its runtime, standard input, and what else lies outside of its words; and by whose rules.
#[derive(Drop)]
pub struct Inputs<'a, R, I: Read + Drop> {
    /// The runtime.
    pub rt: &'a R,
    /// Standard input.
    pub input: I,
    /// What else.
    pub outside: Outside<'a>,
    /// Whose rules the call follows.
    pub rules: Rules,
}

impl<R: Files + AllocGlobal, I: Read + Drop> Inputs<'_, R, I> {
    /// The text of a file, or without a path of standard input. None if there is no such file.
    ///
    /// # Errors
    ///
    /// It can't be read; out of memory.
    pub fn text_of(&mut self, path: Option<&str>) -> Result<Option<Vec<u8>>, Trouble> {
        match path {
            Some(path) => Ok(read(self.rt, path)?),
            None => Ok(Some(read_all(self.rt.alloc(), &mut self.input)?)),
        }
    }
}

/// What was made of a text of this name, or the trouble of its error. The trouble has its place.
pub fn accepted<T: Drop>(
    alloc: Global,
    name: &str,
    text: &[u8],
    made: Result<T, Error>,
    outside: Outside<'_>,
) -> Result<T, Trouble>
    ensures { IsAccepted text.now outside.entry.is_colored made result }
{
    match made {
        Ok(made) => Ok(made),
        Err(refusal) => Err(refused(alloc, name, text, &refusal, outside)),
    }
}

/// The trouble that an error of a text is, with its place.
pub fn refused(
    alloc: Global,
    name: &str,
    text: &[u8],
    refusal: &Error,
    outside: Outside<'_>,
) -> Trouble
    ensures { IsTold text.now outside.entry.is_colored refusal.now result }
{
    match refusal.number() {
        27 => Trouble::Memory,
        1 => match refusal_message(alloc, name, text, refusal, outside.is_colored) {
            Ok(message) => Trouble::Text(message),
            Err(_) => Trouble::Memory,
        },
        number => Trouble::Refused(number),
    }
}

/// The message of a text of this name that the parser refuses.
fn refusal_message(
    alloc: Global,
    name: &str,
    text: &[u8],
    refusal: &Error,
    is_colored: bool,
) -> Result<String, AllocError>
    ensures { IfOk result (λ message. IsMessageOf text.now is_colored refusal.now (string_bytes message)) }
{
    let shown = format!(in alloc; "{}", Shown(name))?;
    let refused = Refused {
        file: shown.as_str(),
        text,
        kind: refusal.kind(),
        rest: refusal.remaining_data(),
    };
    message(alloc, &refused, is_colored)
}
