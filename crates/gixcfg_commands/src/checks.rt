//! `check`: the faults of each file.
ghost use Rattle.std.specs.Prelude.{◌≡◌, ◌≤◌, ◌++◌, ℕ, [], ◌∷◌, List, IfOk, map, string_bytes, true};
ghost use Rattle.gixcfg_commands.specs.Checks.{AreMessages, IsFaultTold};
ghost use Rattle.gixcfg_core.specs.Answers.{IsTold};
ghost use Rattle.gixcfg_core.specs.declared.trouble.Trouble.TheVariants.{Text as ATextOf};

use crate::beside_git::{message_if_git_reads, messages_of_git};
use crate::named::{Text, entries_of_text, text_at};
use crate::naming::messages_of_names;
use gix_config::File;
use gix_config::parse::Error;
use gixcfg_core::outside::{Inputs, Outside, refused};
use gixcfg_core::places::meta_of;
use gixcfg_core::trouble::{MEMORY, Trouble, tell};
use gixcfg_files::is_own_file;
use gixcfg_words::command::Check;
use std::alloc::{AllocGlobal, Global};
use std::io::{Read, Write};
use std::rt::{Env, Files};

/// How a file was found to be.
#[derive(Clone, Copy)]
enum Finding {
    /// It is read.
    Fine,
    /// It has a fault.
    Faulty,
    /// It can't be read.
    Unread,
    /// Out of memory.
    Memory,
}

/// Reports the faults of each file, and returns the exit status: 1 if a file has one, 4 if one can't be read.
pub fn check<R: Env + Files + AllocGlobal, I: Read + Drop, E: Write>(
    inputs: &mut Inputs<'_, R, I>,
    call: &Check<'_>,
    err: &mut E,
) -> u8
    ensures { result ≤ 5 }
{
    let (mut has_faulty, mut has_unread) = (false, false);
    for word in &call.files {
        match found(inputs, word, call, err) {
            Finding::Fine => {}
            Finding::Faulty => has_faulty = true,
            Finding::Unread => has_unread = true,
            Finding::Memory => return MEMORY,
        }
    }
    status_of(has_faulty, has_unread)
}

/// The exit status.
fn status_of(has_faulty: bool, has_unread: bool) -> u8
    ensures { result ≤ 5 }
{
    if has_unread {
        4
    } else if has_faulty {
        1
    } else {
        0
    }
}

/// Looks at a file, and reports its faults.
fn found<R: Env + Files + AllocGlobal, I: Read + Drop, E: Write>(
    inputs: &mut Inputs<'_, R, I>,
    word: &str,
    call: &Check<'_>,
    err: &mut E,
) -> Finding {
    match messages_of(inputs, word, call) {
        Ok(messages) if messages.is_empty() => Finding::Fine,
        Ok(messages) => {
            if !call.is_quiet {
                tell_all(&messages, err);
            }
            Finding::Faulty
        }
        Err(trouble) => {
            if !call.is_quiet || matches!(trouble, Trouble::Memory) {
                tell(&trouble, word, err);
            }
            match trouble.status() {
                3 => Finding::Faulty,
                5 => Finding::Memory,
                _ => Finding::Unread,
            }
        }
    }
}

/// Prints messages. A failed write changes no status.
pub fn tell_all<E: Write>(messages: &[String], err: &mut E) {
    for message in messages {
        let _ = err.write_all(message.as_bytes());
    }
}

/// The messages of a file's faults: the first that the library finds, and, unless the check is lenient, all that git does; then, if names are
/// asked for, those of its settings.
fn messages_of<R: Env + Files + AllocGlobal, I: Read + Drop>(
    inputs: &mut Inputs<'_, R, I>,
    word: &str,
    call: &Check<'_>,
) -> Result<Vec<String>, Trouble> {
    let text = text_at(inputs, word)?;
    let read = Text {
        name: word,
        text: &text,
    };
    let alloc = inputs.rt.alloc();
    let mut messages = messages_in(alloc, &read, call.is_lenient, inputs.outside)?;
    if has_names(inputs.rt, word, call.names)? {
        for message in messages_of_names(alloc, word, &text)? {
            messages.push(message)?;
        }
    }
    Ok(messages)
}

/// Whether a file's names are compared with those that git knows: as it is said, else if the file is a repository's own.
fn has_names<R: Env + Files + AllocGlobal>(
    rt: &R,
    word: &str,
    said: Option<bool>,
) -> Result<bool, Trouble> {
    match said {
        Some(is_said) => Ok(is_said),
        None => Ok(is_own_file(rt, word)?),
    }
}

/// The messages of the faults of a text.
fn messages_in(
    alloc: Global,
    read: &Text<'_>,
    is_lenient: bool,
    outside: Outside<'_>,
) -> Result<Vec<String>, Trouble>
    ensures { IfOk result (λ messages. AreMessages read.now.text.now outside.entry.is_colored is_lenient (map string_bytes messages.items)) }
{
    match entries_of_text(alloc, read.text, meta_of(alloc, None)?) {
        Ok(file) => messages_of_file(alloc, read, &file, is_lenient),
        Err(refusal) => messages_of_refused(alloc, read, &refusal, is_lenient, outside),
    }
}

/// The messages of a text that is read: of what git makes of it, unless the check is lenient.
fn messages_of_file(
    alloc: Global,
    read: &Text<'_>,
    file: &File,
    is_lenient: bool,
) -> Result<Vec<String>, Trouble>
    ensures { is_lenient ≡ true → IfOk result (λ messages. map string_bytes messages.items ≡ []) }
{
    if is_lenient {
        return Ok(Vec::new(alloc));
    }
    Ok(messages_of_git(alloc, read.name, read.text, file)?)
}

/// The messages of a text that is refused.
fn messages_of_refused(
    alloc: Global,
    read: &Text<'_>,
    refusal: &Error,
    is_lenient: bool,
    outside: Outside<'_>,
) -> Result<Vec<String>, Trouble>
    ensures { IfOk result (λ messages.
        IsFaultTold read.now.text.now outside.entry.is_colored is_lenient refusal.now (map string_bytes messages.items)) }
{
    let message = message_at(alloc, read, refusal, outside)?;
    let messages = one(alloc, message)?;
    if is_lenient {
        return Ok(messages);
    }
    let left = refusal.remaining_data().len();
    let more = message_if_git_reads(alloc, read.name, read.text, left)?;
    with_more(messages, more)
}

/// The message of the place from which a text can't be read on.
fn message_at(
    alloc: Global,
    read: &Text<'_>,
    refusal: &Error,
    outside: Outside<'_>,
) -> Result<String, Trouble>
    ensures { IfOk result (λ message.
        IsTold read.now.text.now outside.entry.is_colored refusal.now (ATextOf message)) }
{
    message_of(refused(alloc, read.name, read.text, refusal, outside))
}

/// The message of a refused text; or another trouble.
fn message_of(trouble: Trouble) -> Result<String, Trouble>
    ensures { IfOk result (λ message. trouble ≡ ATextOf message) }
{
    match trouble {
        Trouble::Text(message) => Ok(message),
        trouble => Err(trouble),
    }
}

/// Messages, and one more, if there is one.
fn with_more(messages: Vec<String>, more: Option<String>) -> Result<Vec<String>, Trouble>
    ensures { IfOk result (λ all. (behind : List (List ℕ)) × (map string_bytes all.items ≡ map string_bytes messages.items ++ behind)) }
{
    match more {
        Some(message) => {
            let mut all = messages;
            all.push(message)?;
            Ok(all)
        }
        None => Ok(messages),
    }
}

/// One message alone.
fn one(alloc: Global, message: String) -> Result<Vec<String>, Trouble>
    ensures { IfOk result (λ messages. map string_bytes messages.items ≡ string_bytes message ∷ []) }
{
    let mut messages = Vec::new(alloc);
    messages.push(message)?;
    Ok(messages)
}
