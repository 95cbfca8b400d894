//! What is wrong with words that aren't understood.
ghost use Rattle.std.specs.Prelude.{◌≡◌};
ghost use Rattle.gixcfg_words.specs.declared.fault.Fault.TheVariants as faults;

use crate::kinds::KIND_NAMES;
use crate::nearest::nearest;
use crate::options::{Alone, Opt};
use crate::shown::Shown;
use crate::verbs::Verb;
use std::alloc::{AllocError, AllocFailed, Global};
use std::io;
use std::io::Write;

/// What is wrong with the words of a call.
#[derive(Clone, Copy)]
pub enum Fault<'a> {
    /// There are none that say what is done.
    NoCommand,
    /// The first word is no command.
    UnknownCommand(&'a str),
    /// The first word is called without options alone: it, and how it is called.
    NoOptions(&'a str, &'static str),
    /// A word that begins with two dashes is no option.
    UnknownOption(&'a str),
    /// A letter behind one dash is no option.
    UnknownLetter(char),
    /// It may be the beginning of several options, of which these are two.
    Ambiguous(&'a str, &'static str, &'static str),
    /// The command doesn't take this option.
    NotItsOption(Verb, &'a str),
    /// The option takes a value, which is missing.
    MissingWord(Opt),
    /// The option takes no value, and was given one.
    UnaskedWord(&'a str),
    /// The word of the option is none that it may have.
    BadWord(Opt, &'a str),
    /// A second file is named.
    TwoFiles(&'a str),
    /// A second type is named.
    TwoTypes,
    /// A second thing is to be done.
    TwoActions(&'a str),
    /// Words are missing.
    TooFew(Verb),
    /// A word too much.
    TooMany(Verb, &'a str),
    /// Standard input is named as both of two files.
    TwoInputs,
    /// Two options exclude each other.
    Both(&'static str, &'static str),
    /// Values are to be just a text, which isn't given.
    NoValue,
    /// A word is no key: it has no dot.
    NoKey(&'a str),
    /// A key or a section that is to be has neither a section's name nor a subsection: no file could hold it.
    Nameless,
    /// Only git does this.
    Alone(Alone, &'a str),
    /// Out of memory.
    Memory,
}

impl<'a, T> From<AllocFailed<T>> for Fault<'a>
where
    T: Drop,
{
    ghost from_gives = { λ _ fault. fault ≡ faults.Memory };

    fn from(_: AllocFailed<T>) -> Fault<'a> {
        Fault::Memory
    }
}

/// The word for an option's value in help texts.
fn meaning_of(option: Opt) -> &'static str {
    match option {
        Opt::File => "a file",
        Opt::Url => "a URL",
        Opt::Default | Opt::Value => "a value",
        Opt::Comment => "a comment on one line",
        Opt::Type => KIND_NAMES,
        Opt::Indent => "tabs:N or spaces:N, N at most 255",
        Opt::Newline => "lf, crlf or detect",
        _ => "nothing",
    }
}

/// Reports a fault in a line: what is wrong, what may have been meant, and where help is. A failed write isn't reported.
///
/// # Errors
///
/// Out of memory, and then nothing is printed.
pub fn tell<W: Write>(alloc: Global, fault: Fault<'_>, err: &mut W) -> Result<(), AllocError> {
    if let Fault::UnknownCommand(word) = fault {
        let meant = nearest(alloc, word)?;
        let _ = tell_unknown(word, meant, err);
    } else {
        let _ = tell_known(fault, err);
    }
    Ok(())
}

/// Reports a fault of words after a command, or of none.
fn tell_known<W: Write>(fault: Fault<'_>, err: &mut W) -> io::Result<()> {
    match fault {
        Fault::NoCommand => err.write_all(b"gixcfg: no command; see gixcfg help\n"),
        Fault::Memory => err.write_all(b"gixcfg: E27\n"),
        Fault::NoOptions(word, call) => {
            let word = Shown(word);
            writeln!(
                err,
                "gixcfg: {word} takes no options, it is called as gixcfg {call}; see gixcfg help"
            )
        }
        Fault::TooFew(verb) => tell_command("words are missing", "", verb, err),
        Fault::TooMany(verb, word) => tell_too_many(verb, word, err),
        Fault::NotItsOption(verb, word) => {
            let (word, name) = (Shown(word), verb.name());
            writeln!(
                err,
                "gixcfg: {word} is only applicable to other calls; see gixcfg help {name}"
            )
        }
        Fault::NoKey(word) => tell_word("not a key, it has no dot: ", word, err),
        Fault::Nameless => err.write_all(b"gixcfg: no section is named\n"),
        Fault::Alone(alone, word) => tell_alone(alone, word, err),
        fault => tell_together(fault, err),
    }
}

/// Tells a first word that is no command, and what may have been meant.
fn tell_unknown<W: Write>(word: &str, meant: Option<&str>, err: &mut W) -> io::Result<()> {
    let word = Shown(word);
    match meant {
        Some(name) => writeln!(
            err,
            "gixcfg: not a command: {word}; did you mean {name}? See gixcfg help"
        ),
        None => writeln!(err, "gixcfg: not a command: {word}; see gixcfg help"),
    }
}

/// Tells what is wrong in the words of a command.
fn tell_command<W: Write>(what: &str, word: &str, verb: Verb, err: &mut W) -> io::Result<()> {
    let (word, name) = (Shown(word), verb.name());
    writeln!(err, "gixcfg: {what}{word}; see gixcfg help {name}")
}

/// Tells what is wrong with a word.
fn tell_word<W: Write>(what: &str, word: &str, err: &mut W) -> io::Result<()> {
    let word = Shown(word);
    writeln!(err, "gixcfg: {what}{word}")
}

/// Tells a word too much, which may have been meant as an option.
fn tell_too_many<W: Write>(verb: Verb, word: &str, err: &mut W) -> io::Result<()> {
    if verb == Verb::Forms && word.starts_with("-") {
        tell_command("options come before other words: ", word, verb, err)
    } else {
        tell_command("one word too many: ", word, verb, err)
    }
}

/// Tells what only git does.
fn tell_alone<W: Write>(alone: Alone, word: &str, err: &mut W) -> io::Result<()> {
    let why = match alone {
        Alone::Edit => "no editor is started here",
        Alone::Blob => "no blob of a repository is read here",
    };
    let word = Shown(word);
    writeln!(err, "gixcfg: {word} is git's alone: {why}")
}

/// Tells what doesn't go together.
fn tell_together<W: Write>(fault: Fault<'_>, err: &mut W) -> io::Result<()> {
    match fault {
        Fault::TwoFiles(word) => tell_word("a second file: ", word, err),
        Fault::TwoTypes => err.write_all(b"gixcfg: only one type at a time\n"),
        Fault::TwoActions(word) => tell_word("only one action at a time: ", word, err),
        Fault::TwoInputs => err.write_all(b"gixcfg: standard input can't be both files\n"),
        Fault::NoValue => err.write_all(b"gixcfg: --fixed-value needs a value\n"),
        Fault::Both(one, other) => writeln!(err, "gixcfg: {one} and {other} exclude each other"),
        fault => tell_option(fault, err),
    }
}

/// Tells what is wrong with an option.
fn tell_option<W: Write>(fault: Fault<'_>, err: &mut W) -> io::Result<()> {
    match fault {
        Fault::UnknownOption(word) => {
            let name = Shown(word.strip_prefix("--").unwrap_or(word));
            writeln!(
                err,
                "gixcfg: unknown option `{name}'; put -- before words that begin with a dash"
            )
        }
        Fault::UnknownLetter(letter) => {
            let letter = Shown(letter);
            writeln!(
                err,
                "gixcfg: unknown switch `{letter}'; put -- before words that begin with a dash"
            )
        }
        Fault::Ambiguous(word, one, other) => {
            let word = Shown(word);
            writeln!(err, "gixcfg: {word} may be --{one} or --{other}")
        }
        Fault::UnaskedWord(word) => {
            let word = Shown(word);
            writeln!(err, "gixcfg: {word} takes no value")
        }
        Fault::MissingWord(option) => {
            let meaning = meaning_of(option);
            writeln!(err, "gixcfg: the last option needs {meaning} after it")
        }
        Fault::BadWord(Opt::Type, word) => {
            let word = Shown(word);
            writeln!(
                err,
                "gixcfg: unrecognized --type argument, {word}; it is {KIND_NAMES}"
            )
        }
        Fault::BadWord(option, word) => {
            let (meaning, word) = (meaning_of(option), Shown(word));
            writeln!(err, "gixcfg: not {meaning}: {word}")
        }
        _ => Ok(()),
    }
}
