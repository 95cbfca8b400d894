//! Which values and which keys are meant.
ghost use Rattle.std.specs.Prelude.{◌≡◌, ◌⊎◌, ◌++◌, ◌∷◌, ℕ, List, Bool, map, not, string_bytes, IfErr, IfOk};
ghost use Rattle.gitconf_text.specs.Bytes.{fold};
ghost use Rattle.gixcfg_core.specs.Patterns.{as_wanted, is_found, is_negated, is_text, means_missing, passes, sought, IsFolded, IsNoPattern, IsNoPatternOfKeys, IsNoSource, IsReadAs, IsRegexOf, IsRegexOfKeys, Means, MeansNothing};
ghost use Rattle.gixcfg_core.specs.declared.trouble.Trouble.TheVariants as kinds;
ghost use Rattle.regex.specs.Bytes.{matcher_pattern, regex_pattern};
ghost use Rattle.regex.specs.declared.bytes.regex.Regex.{Regex as ARegex};
ghost use Rattle.std.specs.Option.{option_copied};

use crate::c_strings::c_string;
use crate::posix::translated;
use crate::trouble::Trouble;
use gixcfg_words::command::Values;
use regex::Error;
use regex::bytes::Regex;
use std::alloc::{AllocError, Global};

/// Which of some values are meant, in their order.
///
/// # Errors
///
/// The pattern can't be read; out of memory.
pub fn marks_of(alloc: Global, meant: Values<'_>, values: &[&[u8]]) -> Result<Vec<bool>, Trouble>
    ensures marks { IfOk result (λ marks. (test : List ℕ → Bool) × Means meant.entry test × (marks.items ≡ map (λ v. test v.now) values.now)) }
    ensures refused { IfErr result (λ trouble. (trouble ≡ kinds.Memory) ⊎ ((trouble ≡ kinds.BadPattern) × MeansNothing meant.entry)) }
{
    match meant {
        Values::Any => Ok(equal(alloc, None, values)?),
        Values::Equal(text) => Ok(equal(alloc, Some(text.as_bytes()), values)?),
        Values::Matching(pattern) => {
            let (pattern, is_wanted) = pattern_of(pattern);
            matching(alloc, pattern, values, is_wanted)
        }
    }
}

/// The pattern without a `!` before it, and whether it is to be found.
fn pattern_of(pattern: &str) -> (&str, bool)
    ensures pattern { result.0.now ≡ sought pattern.now }
    ensures wanted { result.1 ≡ not (is_negated pattern.now) }
{
    match pattern.strip_prefix('!') {
        Some(pattern) => (pattern, false),
        None => (pattern, true),
    }
}

/// Whether an entry without a value is meant by an edit: git finds no pattern in it there, and no text is its value.
pub fn is_missing_meant(meant: Values<'_>) -> bool
    ensures { result ≡ means_missing meant.entry }
{
    match meant {
        Values::Any => true,
        Values::Equal(_) => false,
        Values::Matching(pattern) => pattern.starts_with('!'),
    }
}

/// Which values are this text; all if there is none.
fn equal(alloc: Global, text: Option<&[u8]>, values: &[&[u8]]) -> Result<Vec<bool>, AllocError>
    ensures { IfOk result (λ marks. marks.items ≡ map (λ v. is_text (option_copied text.entry) v.now) values.now) }
{
    let mut marks = Vec::with_capacity(alloc, values.len())?;
    for value in values {
        marks.push(is_text(text, value))?;
    }
    Ok(marks)
}

/// Whether a value is this text, if there is one.
fn is_text(text: Option<&[u8]>, value: &[u8]) -> bool
    ensures { result ≡ is_text (option_copied text.entry) value.now }
{
    match text {
        Some(text) => c_string(value) == text,
        None => true,
    }
}

/// In which values a pattern is found, or isn't.
fn matching(
    alloc: Global,
    pattern: &str,
    values: &[&[u8]],
    is_wanted: bool,
) -> Result<Vec<bool>, Trouble>
    ensures marks { IfOk result (λ marks. (regex : ARegex) × IsRegexOf pattern.now regex × (marks.items ≡ map (λ v. passes regex is_wanted v.now) values.now)) }
    ensures refused { IfErr result (λ trouble. (trouble ≡ kinds.Memory) ⊎ ((trouble ≡ kinds.BadPattern) × IsNoPattern pattern.now)) }
{
    let regex = regex_of(alloc, pattern)?;
    Ok(marks_by(&regex, alloc, values, is_wanted)?)
}

/// In which texts a pattern is found, or isn't.
fn marks_by(
    regex: &Regex,
    alloc: Global,
    texts: &[&[u8]],
    is_wanted: bool,
) -> Result<Vec<bool>, AllocError>
    ensures { IfOk result (λ marks. marks.items ≡ map (λ v. passes regex.now is_wanted v.now) texts.now) }
{
    let mut matcher = regex.matcher(alloc)?;
    let mut marks = Vec::with_capacity(alloc, texts.len())?;
    for text in texts {
        marks.push(as_wanted(is_wanted, matcher.is_match(c_string(text))))?;
    }
    Ok(marks)
}

/// Whether a pattern is found as it is wanted.
fn as_wanted(is_wanted: bool, is_found: bool) -> bool
    ensures { result ≡ as_wanted is_wanted is_found }
{
    if is_wanted { is_found } else { !is_found }
}

/// A pattern, as POSIX reads it.
fn regex_of(alloc: Global, pattern: &str) -> Result<Regex, Trouble>
    ensures read { IfOk result (IsRegexOf pattern.now) }
    ensures refused { IfErr result (λ trouble. (trouble ≡ kinds.Memory) ⊎ ((trouble ≡ kinds.BadPattern) × IsNoPattern pattern.now)) }
{
    match translated(alloc, pattern)? {
        Some(source) => regex_from(alloc, source.as_str()),
        None => Err(Trouble::BadPattern),
    }
}

/// A source in the syntax of the kit's `regex`.
fn regex_from(alloc: Global, source: &str) -> Result<Regex, Trouble>
    ensures read { IfOk result (IsReadAs source.now) }
    ensures refused { IfErr result (λ trouble. (trouble ≡ kinds.Memory) ⊎ ((trouble ≡ kinds.BadPattern) × IsNoSource source.now)) }
{
    match Regex::new(alloc, source) {
        Ok(regex) => Ok(regex),
        Err(Error::OutOfMemory) => Err(Trouble::Memory),
        Err(_) => Err(Trouble::BadPattern),
    }
}

/// In which keys, as `list` prints them, a pattern is found. What stands before its first dot and behind its last is read in lower case,
/// as git does it.
///
/// # Errors
///
/// The pattern can't be read; out of memory.
pub fn marks_of_keys(alloc: Global, pattern: &str, keys: &[&[u8]]) -> Result<Vec<bool>, Trouble>
    ensures marks { IfOk result (λ marks. (regex : ARegex) × IsRegexOfKeys pattern.now regex × (marks.items ≡ map (λ k. is_found regex k.now) keys.now)) }
    ensures refused { IfErr result (λ trouble. (trouble ≡ kinds.Memory) ⊎ ((trouble ≡ kinds.BadPattern) × IsNoPatternOfKeys pattern.now)) }
{
    let regex = regex_of_keys(alloc, pattern)?;
    Ok(marks_by(&regex, alloc, keys, true)?)
}

/// A pattern for keys.
fn regex_of_keys(alloc: Global, pattern: &str) -> Result<Regex, Trouble>
    ensures read { IfOk result (IsRegexOfKeys pattern.now) }
    ensures refused { IfErr result (λ trouble. (trouble ≡ kinds.Memory) ⊎ ((trouble ≡ kinds.BadPattern) × IsNoPatternOfKeys pattern.now)) }
{
    let text = folded(alloc, pattern)?;
    regex_of(alloc, text.as_str())
}

/// A pattern in lower case before its first dot and behind its last one; all of it, if it hasn't two.
fn folded(alloc: Global, pattern: &str) -> Result<String, AllocError>
    ensures { IfOk result (λ text. IsFolded pattern.now (string_bytes text)) }
{
    match pattern.split_once('.') {
        Some((name, rest)) => match rest.rsplit_once('.') {
            Some((subsection_name, last)) => joined(alloc, name, subsection_name, last),
            None => pattern.to_ascii_lowercase(alloc),
        },
        None => pattern.to_ascii_lowercase(alloc),
    }
}

/// Names with dots between them, the first and the last of them in lower case.
fn joined(
    alloc: Global,
    name: &str,
    subsection_name: &str,
    last: &str,
) -> Result<String, AllocError>
    ensures { IfOk result (λ text. string_bytes text ≡ fold name.now ++ 46 ∷ (subsection_name.now ++ 46 ∷ fold last.now)) }
{
    let mut text = name.to_ascii_lowercase(alloc)?;
    text.push('.')?;
    text.push_str(subsection_name)?;
    text.push('.')?;
    let last = last.to_ascii_lowercase(alloc)?;
    text.push_str(last.as_str())?;
    Ok(text)
}
