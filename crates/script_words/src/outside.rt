//! What the words mean that set what is outside of a file: other files, variables, where a file comes from, and how files that
//! include others are expanded.

use crate::arguments::one_word;
use crate::words::{NotUnderstood, Word};

/// How reading a file fails.
#[derive(Clone, Copy)]
pub enum Fault {
    /// `open`: it can't be opened.
    Unopened,
    /// `notfound`: it is listed, but not found when it is opened.
    NotFound,
    /// `read`: it can be opened, but not read.
    Unread,
}

/// OPT: a text, or none for `-`.
pub fn optional_text<'a>(words: &'a [Word<'_>]) -> Result<Option<&'a str>, NotUnderstood> {
    one_word(words)?.optional_text()
}

/// N: how many includes led to a file.
pub fn level(words: &[Word<'_>]) -> Result<u8, NotUnderstood> {
    depth_of(one_word(words)?)
}

/// A number of at most 255.
fn depth_of(word: &Word<'_>) -> Result<u8, NotUnderstood> {
    match u8::try_from(word.number()?) {
        Ok(depth) => Ok(depth),
        Err(_) => Err(NotUnderstood),
    }
}

/// BYTES, and `open`, `notfound` or `read`: a path, and how reading fails there.
pub fn path_and_fault<'a>(words: &'a [Word<'_>]) -> Result<(&'a str, Fault), NotUnderstood> {
    match words {
        [path, fault] => Ok((path.text()?, fault_of(fault.plain()?)?)),
        _ => Err(NotUnderstood),
    }
}

fn fault_of(word: &[u8]) -> Result<Fault, NotUnderstood> {
    match word {
        b"open" => Ok(Fault::Unopened),
        b"notfound" => Ok(Fault::NotFound),
        b"read" => Ok(Fault::Unread),
        _ => Err(NotUnderstood),
    }
}

/// BYTES OPT: the name of a variable, and its text; no text if it is set to bytes that aren't UTF-8.
pub fn variable<'a>(words: &'a [Word<'_>]) -> Result<(&'a str, Option<&'a str>), NotUnderstood> {
    match words {
        [name, text] => Ok((name.text()?, text.optional_text()?)),
        _ => Err(NotUnderstood),
    }
}

/// How files that include others are expanded.
#[derive(Clone, Copy)]
pub struct Expansion<'a> {
    /// How many files deep.
    pub max_depth: u8,
    /// What is refused, and otherwise left out.
    pub refuses: Refuses,
    /// Whether blanks, line endings and comments are left out.
    pub lossy: bool,
    /// What paths and conditions know.
    pub told: Told<'a>,
}

/// What is refused, and otherwise left out.
#[derive(Clone, Copy)]
pub struct Refuses {
    /// Files that are deeper.
    pub depth: bool,
    /// Shorthands of paths that stand for nothing.
    pub shorthand: bool,
    /// Paths that need the folder of a file without a path.
    pub no_path: bool,
}

/// What paths and conditions know.
#[derive(Clone, Copy)]
pub struct Told<'a> {
    /// The home folder.
    pub home: Option<&'a str>,
    /// The folder where git is installed.
    pub install: Option<&'a str>,
    /// The folder of the repository.
    pub git_dir: Option<&'a str>,
    /// The same with its symbolic links resolved; none if that fails.
    pub real: Option<&'a str>,
    /// The full name of the branch.
    pub branch: Option<&'a str>,
}

/// N B B B B OPT OPT OPT OPT OPT: how files that include others are expanded.
pub fn expansion_of<'a>(words: &'a [Word<'_>]) -> Result<Expansion<'a>, NotUnderstood> {
    match words {
        [depth, by_depth, by_shorthand, by_path, lossy, told @ ..] => Ok(Expansion {
            max_depth: depth_of(depth)?,
            refuses: refuses_by(by_depth, by_shorthand, by_path)?,
            lossy: lossy.flag()?,
            told: told_by(told)?,
        }),
        _ => Err(NotUnderstood),
    }
}

fn refuses_by(
    depth: &Word<'_>,
    shorthand: &Word<'_>,
    no_path: &Word<'_>,
) -> Result<Refuses, NotUnderstood> {
    Ok(Refuses {
        depth: depth.flag()?,
        shorthand: shorthand.flag()?,
        no_path: no_path.flag()?,
    })
}

/// OPT OPT OPT OPT OPT.
fn told_by<'a>(words: &'a [Word<'_>]) -> Result<Told<'a>, NotUnderstood> {
    match words {
        [home, install, git_dir, real, branch] => Ok(Told {
            home: home.optional_text()?,
            install: install.optional_text()?,
            git_dir: git_dir.optional_text()?,
            real: real.optional_text()?,
            branch: branch.optional_text()?,
        }),
        _ => Err(NotUnderstood),
    }
}
