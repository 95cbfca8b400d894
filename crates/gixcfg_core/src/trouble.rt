//! Why a call wasn't done, and how that is reported.
ghost use Rattle.std.specs.Prelude.{◌≡◌};
ghost use Rattle.gixcfg_core.specs.Troubles.{of_file, of_type, of_url, status_of, trouble_of_number, IsStatus};
ghost use Rattle.gixcfg_core.specs.declared.trouble.Trouble.TheVariants.{Memory};

use crate::typed::Refusal;
use crate::{typed, urls};
use gitconf_text::NoMemory;
use gixcfg_files as files;
use gixcfg_words::rules::Rules;
use gixcfg_words::shown::Shown;
use std::alloc::{AllocError, AllocFailed};
use std::io;
use std::io::Write;

/// The status if out of memory.
pub const MEMORY: u8 = 5;

/// The status where it isn't known which file is meant, as git has it.
const NOWHERE: u8 = 128;

/// Why a call wasn't done.
#[derive(Drop)]
pub enum Trouble {
    /// What was looked for is not there.
    Missing,
    /// The file isn't formatted.
    Different,
    /// A pattern can't be read.
    BadPattern,
    /// The URL that entries are asked for is none.
    BadUrl(urls::Refusal),
    /// There is no such section.
    NoSection,
    /// A name can't be had: the number of the error, 4 to 6.
    BadName(u8),
    /// The text is refused, with the message.
    Text(String),
    /// A file that is read with others can't be read, with the message.
    Unread(String),
    /// The text or the edit is refused: the number of the error.
    Refused(u8),
    /// The comment can't be put after the value.
    Uncommented,
    /// A value is none of the type.
    Untyped(Refusal),
    /// The file can't be read or edited.
    File(files::Fault),
    /// There is no such file.
    NoFile,
    /// Standard input can't be read.
    Input,
    /// Standard output failed.
    Output,
    /// Nobody reads standard output any more, of which nothing is told.
    Closed,
    /// The key has several entries.
    Several,
    /// The key has no entry that could be removed.
    NoEntry,
    /// Out of memory.
    Memory,
}

impl Trouble {
    ghost use Rattle.gixcfg_core.specs.Troubles.{status_of};

    /// The exit status: as git has it for a key that is missing, 1, for one that has several entries or none to take out, 5, for a
    /// file that can't be written, 4, and where there is no repository or no home directory to look in, 128; else 1 for what isn't as it
    /// should be, 2 for words that mean nothing, 3 for a refusal, 4 for a file or a stream that failed, 5 for memory.
    pub fn status(&self) -> u8
        ensures { result ≡ status_of self.now }
    {
        match self {
            Trouble::Missing | Trouble::Different | Trouble::NoSection | Trouble::BadName(_) => 1,
            Trouble::BadPattern | Trouble::BadUrl(_) => 2,
            Trouble::Text(_) | Trouble::Refused(_) | Trouble::Uncommented | Trouble::Untyped(_) =>
                3,
            Trouble::File(files::Fault::NoRepository | files::Fault::NoHome) => NOWHERE,
            Trouble::File(_)
            | Trouble::Unread(_)
            | Trouble::NoFile
            | Trouble::Input
            | Trouble::Output
            | Trouble::Closed => 4,
            Trouble::Several | Trouble::NoEntry => 5,
            Trouble::Memory => MEMORY,
        }
    }
}

impl From<NoMemory> for Trouble {
    ghost from_gives = { λ _ e. e ≡ Memory };

    fn from(_: NoMemory) -> Trouble {
        Trouble::Memory
    }
}

impl From<AllocError> for Trouble {
    ghost from_gives = { λ _ e. e ≡ Memory };

    fn from(_: AllocError) -> Trouble {
        Trouble::Memory
    }
}

impl<T> From<AllocFailed<T>> for Trouble
where
    T: Drop,
{
    ghost from_gives = { λ _ e. e ≡ Memory };

    fn from(_: AllocFailed<T>) -> Trouble {
        Trouble::Memory
    }
}

impl From<typed::Fault> for Trouble {
    ghost from_gives = { λ fault e. e ≡ of_type fault };

    fn from(fault: typed::Fault) -> Trouble {
        match fault {
            typed::Fault::Refused(refusal) => Trouble::Untyped(refusal),
            typed::Fault::Memory => Trouble::Memory,
        }
    }
}

impl From<urls::Fault> for Trouble {
    ghost from_gives = { λ fault e. e ≡ of_url fault };

    fn from(fault: urls::Fault) -> Trouble {
        match fault {
            urls::Fault::Refused(refusal) => Trouble::BadUrl(refusal),
            urls::Fault::Memory => Trouble::Memory,
        }
    }
}

impl From<files::Fault> for Trouble {
    ghost from_gives = { λ fault e. e ≡ of_file fault };

    fn from(fault: files::Fault) -> Trouble {
        match fault {
            files::Fault::Memory => Trouble::Memory,
            fault => Trouble::File(fault),
        }
    }
}

/// The trouble that an error of an edit is, by its number.
pub fn of_number(number: u8) -> Trouble
    ensures { result ≡ trouble_of_number number }
{
    match number {
        27 => Trouble::Memory,
        4..=6 => Trouble::BadName(number),
        number => Trouble::Refused(number),
    }
}

/// Reports a trouble with the file of this name. Nothing is said of a key that isn't there. A failed write changes no status, and no memory
/// is taken.
pub fn tell<E: Write>(trouble: &Trouble, name: &str, err: &mut E) {
    let _ = match trouble {
        Trouble::Missing | Trouble::NoEntry | Trouble::Closed => Ok(()),
        Trouble::Text(message) | Trouble::Unread(message) => err.write_all(message.as_bytes()),
        Trouble::File(fault) => {
            let (name, fault) = (Shown(name), Shown(fault));
            writeln!(err, "gixcfg: {name}: {fault}")
        }
        Trouble::Memory => err.write_all(b"gixcfg: E27\n"),
        Trouble::Input => err.write_all(b"gixcfg: standard input: not read\n"),
        Trouble::Output => err.write_all(b"gixcfg: standard output: not written [E28]\n"),
        Trouble::BadPattern => err.write_all(b"gixcfg: not a pattern\n"),
        Trouble::BadUrl(refusal) => {
            let reason = refusal.reason();
            writeln!(err, "gixcfg: not a URL: {reason}")
        }
        _ => tell_of_file(trouble, name, err),
    };
}

/// Reports a trouble of a call without options: of a stream that failed there is but a word or a number.
fn tell_plainly<E: Write>(trouble: &Trouble, err: &mut E) {
    let line: &[u8] = match trouble {
        Trouble::Input => b"gixcfg: input\n",
        Trouble::Output | Trouble::Closed => b"gixcfg: E28\n",
        trouble => return tell(trouble, "standard input", err),
    };
    // A failed write changes no status.
    let _ = err.write_all(line);
}

/// Reports a trouble with the file of this name, and returns the exit status. It is reported as a call of these rules does.
pub fn report<E: Write>(trouble: &Trouble, name: &str, rules: Rules, err: &mut E) -> u8
    ensures value { result ≡ status_of trouble.now }
    ensures known { IsStatus result }
{
    match rules {
        Rules::Git => tell(trouble, name, err),
        Rules::Library => tell_plainly(trouble, err),
    }
    trouble.status()
}

/// Why a text or an edit is refused.
fn reason_of(number: u8) -> &'static str {
    match number {
        2 => "has more than 4294967295 bytes",
        3 => "would have more than 4294967295 bytes",
        _ => "refused",
    }
}

/// What is allowed of the name for which this error is.
fn rule_of_name(number: u8) -> &'static str {
    match number {
        4 => "a section's has letters, digits and dashes",
        5 => "a subsection's has no line feed and no byte 0",
        _ => "a value's begins with a letter, and has letters, digits and dashes",
    }
}

/// Tells a trouble with what a file has.
fn tell_of_file<E: Write>(trouble: &Trouble, name: &str, err: &mut E) -> io::Result<()> {
    let name = Shown(name);
    match trouble {
        Trouble::Different => writeln!(err, "gixcfg: {name}: not laid out"),
        Trouble::NoSection => writeln!(err, "gixcfg: {name}: no such section"),
        Trouble::NoFile => writeln!(err, "gixcfg: {name}: no such file"),
        Trouble::Several => writeln!(
            err,
            "gixcfg: {name}: the key has multiple values; see --all"
        ),
        Trouble::BadName(number) => {
            let rule = rule_of_name(*number);
            writeln!(err, "gixcfg: a name that isn't allowed: {rule} [E{number}]")
        }
        Trouble::Uncommented => writeln!(
            err,
            "gixcfg: {name}: the comment can't be put after the value"
        ),
        Trouble::Refused(number) => {
            let reason = reason_of(*number);
            writeln!(err, "gixcfg: {name}: {reason} [E{number}]")
        }
        Trouble::Untyped(refusal) => {
            let reason = refusal.reason();
            writeln!(err, "gixcfg: {name}: {reason} [E11]")
        }
        _ => Ok(()),
    }
}
