//! Whether the condition of an `includeIf` holds.
ghost use Rattle.std.specs.Prelude.{◌≡◌, ◌==◌, ◌++◌, ℕ, Bool, List, Some, true, false, codes, position, nat_eq, IfOk, string_bytes};
ghost use Rattle.std.specs.Option.{option_copied, option_map, option_and_then};
ghost use Rattle.std.specs.List.{ends_with};
ghost use Rattle.bstr.specs.Owned.{bstring_bytes};
ghost use Rattle.gitconf_glob.specs.Pattern.{matches};
ghost use Rattle.gitconf_values.specs.Interpolated.{behind as behind_of};
ghost use Rattle.gitconf_includes.specs.Conditions as spec;
ghost use Rattle.gitconf_includes.specs.Conditions.{IsPattern, Says};
ghost use Rattle.gitconf_includes.specs.Rules.{git_folder, rules_of_includes};

use crate::includes::conditional::GitDir;
use crate::includes::{Error, Options};
use crate::paths::{begins_slash, folder, replaced};
use bstr::BString;
use gitconf_glob::wildmatch;
use gitconf_sources::meta::Metadata;
use gitconf_text::NoMemory;
use std::alloc::Global;

/// What is known of a condition without looking at any section.
#[derive(Clone, Copy)]
pub enum Judged<'a> {
    /// It holds, or it doesn't.
    Holds(bool),
    /// It holds if and only if the url of some remote matches this pattern.
    IfUrl(&'a [u8]),
}

/// The place of the first colon.
fn first_colon(text: &[u8]) -> Option<usize>
    ensures { result ≡ position (λ b. b == 58) text.now }
{
    text.iter().position(|b| *b == b':')
}

/// What comes before and after the first colon.
fn cut_colon(text: &[u8]) -> Option<(&[u8], &[u8])>
    ensures { option_map (λ c. (c.0.now, c.1.now)) result ≡ spec.cut_colon text.now }
{
    match first_colon(text) {
        Some(at) => Some((&text[..at], &text[at + 1..])),
        None => None,
    }
}

/// What follows a beginning of the text, if the text begins with it.
fn behind<'a>(beginning: &[u8], text: &'a [u8]) -> Option<&'a [u8]>
    ensures { option_copied result ≡ behind_of beginning.now text.now }
{
    text.strip_prefix(beginning)
}

/// Whether the last byte is a slash.
fn ends_slash(text: &[u8]) -> bool
    ensures { result ≡ ends_with nat_eq text.now (codes "/") }
{
    text.ends_with(b"/".as_slice())
}

/// A copy of the bytes.
fn written(alloc: Global, bytes: &[u8]) -> Result<BString, NoMemory>
    ensures { IfOk result (λ copy. bstring_bytes copy ≡ bytes.now) }
{
    Ok(BString::from_slice(alloc, bytes)?)
}

/// The pattern; if it ends with `/`, it matches everything below. Only then does it ask for memory.
fn deep(pattern: Vec<u8>) -> Result<Vec<u8>, NoMemory>
    ensures { IfOk result (λ all. all.items ≡ spec.deep pattern.items) }
{
    let mut all = pattern;
    if ends_slash(&all) {
        all.extend_from_slice(b"**".as_slice())?;
    }
    Ok(all)
}

/// The pattern; if it doesn't begin with `/`, it may match in any directory. Only then does it ask for memory, once,
/// also for what [`deep`] adds.
fn anywhere(alloc: Global, pattern: Vec<u8>) -> Result<Vec<u8>, NoMemory>
    ensures { IfOk result (λ all. all.items ≡ spec.anywhere pattern.items) }
{
    if begins_slash(&pattern) {
        return Ok(pattern);
    }
    let mut all = Vec::with_capacity(alloc, pattern.len() + 5)?;
    all.extend_from_slice(b"**/".as_slice())?;
    all.extend_from_slice(&pattern)?;
    Ok(all)
}

/// A directory, a slash, and the rest of a pattern.
fn below(alloc: Global, folder: &[u8], rest: &[u8]) -> Result<Vec<u8>, NoMemory>
    ensures { IfOk result (λ all. all.items ≡ folder.now ++ (codes "/" ++ rest.now)) }
{
    let mut all = Vec::from_slice(alloc, folder)?;
    all.extend_from_slice(b"/".as_slice())?;
    all.extend_from_slice(rest)?;
    Ok(all)
}

/// A pattern with `./` at its front replaced by the directory of the section's file, or `None` if the file has no path
/// and what needs one is left out.
fn based(
    alloc: Global,
    options: &Options<'_>,
    from: &Metadata,
    pattern: String,
) -> Result<Option<Vec<u8>>, Error>
    ensures { IsPattern result (spec.based (rules_of_includes options.now) from.now (string_bytes pattern)) }
{
    let Some(rest) = behind(b"./".as_slice(), pattern.as_bytes()) else {
        return Ok(Some(pattern.into_bytes()));
    };
    match folder(options, from)? {
        Some(folder) => Ok(Some(below(alloc, folder.as_bytes(), rest)?)),
        None => Ok(None),
    }
}

/// The pattern, after `anywhere` and `deep`.
fn spread(alloc: Global, pattern: Vec<u8>) -> Result<Vec<u8>, NoMemory>
    ensures { IfOk result (λ all. all.items ≡ spec.deep (spec.anywhere pattern.items)) }
{
    deep(anywhere(alloc, pattern)?)
}

/// The pattern of a text after its shorthands are replaced, or `None` if it is left out.
fn pattern_of(
    alloc: Global,
    options: &Options<'_>,
    from: &Metadata,
    text: String,
) -> Result<Option<Vec<u8>>, Error>
    ensures { IsPattern result (spec.pattern_of (rules_of_includes options.now) from.now (string_bytes text)) }
{
    match based(alloc, options, from, text)? {
        Some(pattern) => Ok(Some(spread(alloc, pattern)?)),
        None => Ok(None),
    }
}

/// The pattern that the directory of the repository is matched with, or `None` if it is left out.
fn gitdir_pattern(
    alloc: Global,
    options: &Options<'_>,
    from: &Metadata,
    pattern: &[u8],
) -> Result<Option<Vec<u8>>, Error>
    ensures { IsPattern result (spec.gitdir_pattern (rules_of_includes options.now) from.now pattern.now) }
{
    let written = written(alloc, pattern)?;
    match replaced(options, written)? {
        Some(text) => pattern_of(alloc, options, from, text),
        None => Ok(None),
    }
}

/// Whether the directory of the repository matches, as it is given or with its symbolic links resolved.
fn matches_folder(
    alloc: Global,
    ignore_case: bool,
    pattern: &[u8],
    git: &GitDir<'_>,
) -> Result<bool, Error>
    ensures { Says (λ it. it) result (spec.matches_folder ignore_case pattern.now (git_folder git.now)) }
{
    if wildmatch(alloc, pattern, git.path.as_bytes(), ignore_case)? {
        return Ok(true);
    }
    match git.real {
        Ok(real) => Ok(wildmatch(alloc, pattern, real.as_bytes(), ignore_case)?),
        Err(fault) => Err(Error::Realpath(fault)),
    }
}

/// Whether the condition on the directory of the repository holds.
fn holds_gitdir(
    alloc: Global,
    ignore_case: bool,
    options: &Options<'_>,
    from: &Metadata,
    pattern: &[u8],
) -> Result<bool, Error>
    ensures { Says (λ it. it) result (spec.holds_gitdir ignore_case (rules_of_includes options.now) from.now pattern.now) }
{
    match &options.conditional.git_dir {
        Some(git) => match gitdir_pattern(alloc, options, from, pattern)? {
            Some(pattern) => matches_folder(alloc, ignore_case, &pattern, git),
            None => Ok(false),
        },
        None => {
            if options.err_on_interpolation_failure {
                Err(Error::MissingGitDir)
            } else {
                Ok(false)
            }
        }
    }
}

/// Whether a branch matches, by its name after `refs/heads/`.
fn matches_branch(alloc: Global, pattern: &[u8], short: &[u8]) -> Result<bool, NoMemory>
    ensures { IfOk result (λ it. it ≡ matches false (spec.deep pattern.now) short.now) }
{
    if !ends_slash(pattern) {
        return wildmatch(alloc, pattern, short, false);
    }
    let pattern = deep(Vec::from_slice(alloc, pattern)?)?;
    wildmatch(alloc, &pattern, short, false)
}

/// What follows `refs/heads/` in the full name of the branch.
fn short_name<'a>(options: &Options<'a>) -> Option<&'a [u8]>
    ensures { option_copied result ≡ option_and_then (behind_of (codes "refs/heads/")) (option_copied options.now.conditional.branch_name) }
{
    behind(
        b"refs/heads/".as_slice(),
        options.conditional.branch_name?.as_bytes(),
    )
}

/// Whether the condition on the branch holds.
fn holds_branch(alloc: Global, options: &Options<'_>, pattern: &[u8]) -> Result<bool, NoMemory>
    ensures { IfOk result (λ it. it ≡ spec.holds_branch (rules_of_includes options.now) pattern.now) }
{
    match short_name(options) {
        Some(short) => matches_branch(alloc, pattern, short),
        None => Ok(false),
    }
}

/// The condition on the urls of remotes.
fn judge_config(rest: &[u8]) -> Judged<'_>
    ensures { (has_url : List ℕ → Bool) → spec.judged has_url result ≡ spec.holds_config has_url rest.now }
{
    match cut_colon(rest) {
        Some((key, pattern)) => {
            if key == b"remote.*.url".as_slice() {
                Judged::IfUrl(pattern)
            } else {
                Judged::Holds(false)
            }
        }
        None => Judged::Holds(false),
    }
}

/// A condition of this kind, with what follows its colon.
fn judge_kind<'a>(
    alloc: Global,
    options: &Options<'_>,
    from: &Metadata,
    kind: &[u8],
    rest: &'a [u8],
) -> Result<Judged<'a>, Error>
    ensures { (has_url : List ℕ → Bool) → Says (spec.judged has_url) result
        (spec.holds_kind (rules_of_includes options.now) from.now has_url kind.now rest.now) }
{
    if kind == b"gitdir".as_slice() {
        return Ok(Judged::Holds(holds_gitdir(alloc, false, options, from, rest)?));
    }
    if kind == b"gitdir/i".as_slice() {
        return Ok(Judged::Holds(holds_gitdir(alloc, true, options, from, rest)?));
    }
    if kind == b"onbranch".as_slice() {
        return Ok(Judged::Holds(holds_branch(alloc, options, rest)?));
    }
    if kind == b"hasconfig".as_slice() {
        return Ok(judge_config(rest));
    }
    Ok(Judged::Holds(false))
}

/// Judges the condition of an `includeIf`. It goes by the options and by where the condition's section comes from. The text
/// before the first colon is its kind, in exactly this spelling: `gitdir` and `gitdir/i` match the directory of the
/// repository, `onbranch` the branch, and `hasconfig:remote.*.url` the urls of remotes, for which the caller has to ask. Any
/// other condition doesn't hold, and neither does one without a colon.
///
/// It takes memory for the pattern of a directory that is known, and what [`wildmatch`] takes: no memory for a condition
/// of another kind, or on what the options don't give.
///
/// # Errors
///
/// Those of [`file_named`](crate::paths::file_named), for the pattern of a directory in place of the path; E17
/// ([`Error::MissingGitDir`]) if no directory of a repository is given and the options ask for an error; E18
/// ([`Error::Realpath`]) with the fault of the options, if the directory as it is given doesn't match and could not be
/// resolved; E27.
pub fn judge<'a>(
    alloc: Global,
    options: &Options<'_>,
    from: &Metadata,
    condition: &'a [u8],
) -> Result<Judged<'a>, Error>
    ensures { (has_url : List ℕ → Bool) → Says (spec.judged has_url) result (spec.holds (rules_of_includes options.now) from.now has_url condition.now) }
{
    match cut_colon(condition) {
        Some((kind, rest)) => judge_kind(alloc, options, from, kind, rest),
        None => Ok(Judged::Holds(false)),
    }
}
