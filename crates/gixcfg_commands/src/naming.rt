//! `check --names`: what a text's settings have wrong beside the names that git knows.
ghost use Rattle.std.specs.Prelude.{◌≡◌, ◌<◌, IfOk, map, true};
ghost use Rattle.gixcfg_core.specs.GitReading.{entries_left};

use bstr::BStr;
use gix_config::{KeyRef, NoMemory};
use gixcfg_core::git_reading::{GitEntry, GitWalk, Stop};
use gixcfg_core::place::Positions;
use gixcfg_names::findings::{Finding, Setting, Wrong, findings};
use gixcfg_names::rows::{Row, git_rows};
use gixcfg_words::kinds::Kind;
use gixcfg_words::shown::Shown;
use std::alloc::{AllocError, Global};

/// A setting as git reads it.
#[derive(Drop)]
struct Kept {
    /// Where it is, in bytes.
    at: usize,
    key: Vec<u8>,
    value: Option<Vec<u8>>,
}

/// The messages of what the settings of a text have wrong. The text has this name; its settings are those up to where
/// git refuses it.
///
/// # Errors
///
/// Out of memory.
pub fn messages_of_names(alloc: Global, name: &str, text: &[u8]) -> Result<Vec<String>, NoMemory> {
    let kept = settings_of(alloc, text)?;
    messages_of(alloc, name, text, &kept)
}

/// The settings of a text, up to where git refuses it.
fn settings_of(alloc: Global, text: &[u8]) -> Result<Vec<Kept>, NoMemory> {
    let mut walk = GitWalk::new(alloc, text);
    let mut kept = Vec::new(alloc);
    while reads_on(&mut walk)? {
        kept.push(kept_of(alloc, &walk.entry())?)?;
    }
    Ok(kept)
}

/// Reads on up to the end of the next entry, and returns whether git reads one.
fn reads_on(walk: &mut GitWalk<'_>) -> Result<bool, NoMemory>
    ensures { IfOk result (λ more. more ≡ true → entries_left walk.new < entries_left walk.old) }
{
    match walk.advance() {
        Ok(more) => Ok(more),
        Err(Stop::Refused(..)) => Ok(false),
        Err(Stop::Memory) => Err(NoMemory),
    }
}

/// A copy of an entry.
fn kept_of(alloc: Global, entry: &GitEntry<'_>) -> Result<Kept, AllocError> {
    Ok(Kept {
        at: entry.at,
        key: entry.key(alloc)?,
        value: match entry.value {
            Some(value) => Some(value.to_vec(alloc)?),
            None => None,
        },
    })
}

/// The messages of what settings have wrong.
fn messages_of(
    alloc: Global,
    name: &str,
    text: &[u8],
    kept: &[Kept],
) -> Result<Vec<String>, NoMemory> {
    let mut settings = Vec::with_capacity(alloc, kept.len())?;
    for setting in kept {
        settings.push(Setting {
            at: setting.at,
            key: &setting.key,
            value: setting.value.as_deref(),
        })?;
    }
    let rows = git_rows(alloc)?;
    let found = findings(alloc, &rows, &settings)?;
    messages_at(alloc, name, text, &found)
}

/// The messages of findings, each with its place.
fn messages_at(
    alloc: Global,
    name: &str,
    text: &[u8],
    found: &[Finding<'_>],
) -> Result<Vec<String>, NoMemory> {
    let mut positions = Positions::new(text);
    let mut messages = Vec::with_capacity(alloc, found.len())?;
    for finding in found {
        let position = positions.at(finding.setting.at);
        let what = words_of(alloc, finding)?;
        let (file, line, column) = (Shown(name), position.line, position.column);
        messages.push(format!(in alloc; "gixcfg: {file}:{line}:{column}: {what}\n")?)?;
    }
    Ok(messages)
}

/// What is wrong, in words.
fn words_of(alloc: Global, finding: &Finding<'_>) -> Result<String, AllocError> {
    let key = Shown(BStr::new(finding.setting.key));
    match finding.wrong {
        Wrong::Unknown(Some(row)) => words_of_near(alloc, finding.setting.key, &row),
        Wrong::Unknown(None) => format!(in alloc; "git knows no {key}"),
        Wrong::GivenUp("none") => format!(in alloc; "git has given up {key}"),
        Wrong::GivenUp(instead) => {
            format!(in alloc; "git has given up {key}: {instead} took its place")
        }
        Wrong::NotOf(kind) => {
            let reason = reason_of(kind);
            format!(in alloc; "{key}: {reason}")
        }
        Wrong::NoneOf(words) => words_of_none(alloc, finding.setting.key, words),
        Wrong::SetAgain => {
            format!(in alloc; "{key} counts for nothing here, since the file sets it again")
        }
    }
}

/// That git knows a name by another spelling: that of a row, with the subsection of the key.
fn words_of_near(alloc: Global, key: &[u8], row: &Row) -> Result<String, AllocError> {
    let (shown, section, name) = (
        Shown(BStr::new(key)),
        row.key.section_name,
        row.key.value_name,
    );
    match subsection_of(key) {
        Some(subsection) => {
            let subsection = Shown(BStr::new(subsection));
            format!(in alloc; "git knows no {shown}: did you mean {section}.{subsection}.{name}?")
        }
        None => format!(in alloc; "git knows no {shown}: did you mean {section}.{name}?"),
    }
}

/// That a value is none of the words that a name's value is one of, which have commas between them.
fn words_of_none(alloc: Global, key: &[u8], words: &str) -> Result<String, AllocError> {
    let key = Shown(BStr::new(key));
    let mut text = format!(in alloc; "{key}: none of")?;
    for (at, word) in words.split(',').enumerate() {
        let (between, word) = (if at == 0 { " " } else { ", " }, shown_word(word));
        text.push_str(format!(in alloc; "{between}{word}")?.as_str())?;
    }
    Ok(text)
}

/// A word of a list as it is told.
fn shown_word(word: &str) -> &str {
    match word {
        "<bool>" => "a boolean",
        "<int>" => "an integer",
        word => word,
    }
}

/// The subsection of a key.
fn subsection_of(key: &[u8]) -> Option<&[u8]> {
    KeyRef::parse_unvalidated(key)?.subsection_name
}

/// Why a value isn't of a type.
fn reason_of(kind: Kind) -> &'static str {
    match kind {
        Kind::Bool => "not a boolean",
        Kind::Int => "not an integer",
        Kind::BoolOrInt => "neither a boolean nor an integer",
        Kind::Color => "not a color",
        Kind::BoolOrStr | Kind::Path | Kind::ExpiryDate => "has no value",
    }
}
