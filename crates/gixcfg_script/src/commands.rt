//! The commands, and what the words after them mean.

use crate::answers::{Refusal, line_of_call};
use crate::machine::Machine;
use crate::refusal;
use crate::session::Session;
use crate::streams::Source;
use crate::tree::Node;
use script_words::words::{NotUnderstood, Word, named_in};
use std::alloc::Global;
use std::mem::replace;

/// A command.
#[derive(Clone, Copy)]
enum Command {
    /// `new`
    New,
    /// `file`
    File,
    /// `folder`
    Folder,
    /// `link`
    Link,
    /// `set`
    Set,
    /// `input`
    Input,
    /// `room`
    Room,
    /// `grow`
    Grow,
    /// `call`
    Call,
}

static COMMANDS: [(&[u8], Command); 9] = [
    (b"new", Command::New),
    (b"file", Command::File),
    (b"folder", Command::Folder),
    (b"link", Command::Link),
    (b"set", Command::Set),
    (b"input", Command::Input),
    (b"room", Command::Room),
    (b"grow", Command::Grow),
    (b"call", Command::Call),
];

/// What a line is answered: a text for a call, none for another command that is done.
pub fn answer_to(
    alloc: Global,
    session: &mut Session,
    words: &[Word<'_>],
) -> Result<Option<String>, Refusal> {
    let Some((command, words)) = command_of(words) else {
        return Err(Refusal::Unknown);
    };
    match command {
        Command::Call => Ok(Some(call(alloc, session, words)?)),
        command => {
            set_up(alloc, session, command, words)?;
            Ok(None)
        }
    }
}

/// The command that a line begins with, and the words after it.
fn command_of<'a, 'b>(words: &'a [Word<'b>]) -> Option<(Command, &'a [Word<'b>])> {
    let (first, others) = words.split_first()?;
    match first {
        Word::Plain(word) => Some((named_in(&COMMANDS, word)?, others)),
        _ => None,
    }
}

/// Does a command that sets up what the next call has.
fn set_up(
    alloc: Global,
    session: &mut Session,
    command: Command,
    words: &[Word<'_>],
) -> Result<(), Refusal> {
    match command {
        Command::New => begin(alloc, session, words),
        Command::File => put_file(alloc, session, words),
        Command::Folder => put_folder(session, words),
        Command::Link => put_link(alloc, session, words),
        Command::Set => set(session, words),
        Command::Input => set_input(alloc, session, words),
        Command::Room => set_room(session, words),
        Command::Grow => grow(alloc, words),
        Command::Call => Err(Refusal::Unknown),
    }
}

/// `new`: a machine with nothing on it.
fn begin(alloc: Global, session: &mut Session, words: &[Word<'_>]) -> Result<(), Refusal> {
    if !words.is_empty() {
        return Err(Refusal::NotUnderstood);
    }
    drop(replace(session, Session::new(alloc)?));
    Ok(())
}

/// `file BYTES BYTES N`: a file at a path, its text, its rights.
fn put_file(alloc: Global, session: &mut Session, words: &[Word<'_>]) -> Result<(), Refusal> {
    let [path, text, mode] = words else {
        return Err(Refusal::NotUnderstood);
    };
    let (path, text, mode) = (path.text()?, text.bytes()?, mode_of(mode)?);
    let text = Vec::from_slice(alloc, text)?;
    session.state.put(path, Node::File(text, mode))?;
    Ok(())
}

/// The rights of a file.
fn mode_of(word: &Word<'_>) -> Result<u32, NotUnderstood> {
    match u32::try_from(word.number()?) {
        Ok(mode) => Ok(mode),
        Err(_) => Err(NotUnderstood),
    }
}

/// `folder BYTES`: a directory at a path.
fn put_folder(session: &mut Session, words: &[Word<'_>]) -> Result<(), Refusal> {
    let [path] = words else {
        return Err(Refusal::NotUnderstood);
    };
    session.state.put(path.text()?, Node::Folder)?;
    Ok(())
}

/// `link BYTES BYTES`: a symbolic link at a path, and the path that it leads to.
fn put_link(alloc: Global, session: &mut Session, words: &[Word<'_>]) -> Result<(), Refusal> {
    let [path, to] = words else {
        return Err(Refusal::NotUnderstood);
    };
    let (path, to) = (path.text()?, to.text()?);
    let to = String::from_str(alloc, to)?;
    session.state.put(path, Node::Link(to))?;
    Ok(())
}

/// `set BYTES BYTES`: a variable and its text.
fn set(session: &mut Session, words: &[Word<'_>]) -> Result<(), Refusal> {
    let [name, text] = words else {
        return Err(Refusal::NotUnderstood);
    };
    session.state.set(name.text()?, text.bytes()?)?;
    Ok(())
}

/// `input BYTES N END`: what the next call has on standard input, how many bytes of it come at a time, and what comes after them.
fn set_input(alloc: Global, session: &mut Session, words: &[Word<'_>]) -> Result<(), Refusal> {
    let [text, step, end] = words else {
        return Err(Refusal::NotUnderstood);
    };
    let (text, step, end) = (text.bytes()?, step.number()?, end_of(end)?);
    let text = Vec::from_slice(alloc, text)?;
    drop(replace(&mut session.input, Source::new(text, step, end)));
    Ok(())
}

/// `end`, or an error in its place: `fails` of a stream whose other side has gone, `folder` of a directory.
fn end_of(word: &Word<'_>) -> Result<Option<refusal::Refusal>, NotUnderstood> {
    match word.plain()? {
        b"end" => Ok(None),
        b"fails" => Ok(Some(refusal::Refusal::Gone)),
        b"folder" => Ok(Some(refusal::Refusal::Folder)),
        _ => Err(NotUnderstood),
    }
}

/// `room out N`, `room err N`: how many bytes there is room for on standard output, or on standard error.
fn set_room(session: &mut Session, words: &[Word<'_>]) -> Result<(), Refusal> {
    let [stream, room] = words else {
        return Err(Refusal::NotUnderstood);
    };
    let room = Some(room.number()?);
    match stream.plain()? {
        b"out" => session.out = room,
        b"err" => session.err = room,
        _ => return Err(Refusal::NotUnderstood),
    }
    Ok(())
}

/// `grow N`: takes memory so many times, and gives it back. So a tool that may refuse one allocation of the whole script can shift it.
fn grow(alloc: Global, words: &[Word<'_>]) -> Result<(), Refusal> {
    let [count] = words else {
        return Err(Refusal::NotUnderstood);
    };
    for _ in 0..count.number()? {
        let _block: Vec<u8> = Vec::with_capacity(alloc, 1)?;
    }
    Ok(())
}

/// `call BYTES..`: runs a call of these words.
fn call(alloc: Global, session: &mut Session, words: &[Word<'_>]) -> Result<String, Refusal> {
    let words = words_of_call(alloc, words)?;
    let done = match &words {
        Some(words) => session.call(words)?,
        None => session.call_ill_formed()?,
    };
    match (Machine {
        state: &session.state,
    })
    .tree()
    {
        Ok(tree) => Ok(line_of_call(alloc, &done, &tree)?),
        Err(_) => Err(Refusal::NotUnderstood),
    }
}

/// The words of a call, if all are UTF-8.
fn words_of_call<'a>(
    alloc: Global,
    words: &'a [Word<'_>],
) -> Result<Option<Vec<&'a str>>, Refusal> {
    let mut all = Vec::with_capacity(alloc, words.len())?;
    for word in words {
        let Ok(text) = str::from_utf8(word.bytes()?) else {
            return Ok(None);
        };
        all.push(text)?;
    }
    Ok(Some(all))
}
