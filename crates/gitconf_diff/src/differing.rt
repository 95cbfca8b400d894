//! The entries in which two files differ.
ghost use Rattle.std.specs.Prelude.{◌≡◌, unwrap_or, position, ◌≤◌, ◌++◌, length, map, not, IfOk, if◌then◌else◌, []};
ghost use Rattle.std.specs.List.Sorted.{IsSorted};
ghost use Rattle.gitconf_diff.specs.PlainSettings.{plain_mention, plain_mentions, kept_of, mention_names, same_names, setting_cmp, differ_alone, IsBySide};
ghost use Rattle.gitconf_diff.specs.Differences.{different_of, plainly, AreKept, IsAdded};

use crate::comparing::differ;
use crate::difference::{Difference, of_mention};
use crate::mention::{Mention, have_same_names, order};
use gitconf_text::NoMemory;
use std::alloc::Global;

/// The place of the first entry that has not the names of this one.
fn unlike_place(first: &Mention<'_>, mentions: &[Mention<'_>]) -> Option<usize>
    ensures { result ≡ position (λ s. not (same_names (mention_names first.now) (mention_names s))) mentions.now }
{
    mentions.iter().position(|s| !have_same_names(first, s))
}

/// How many entries at the front have the names of the first, which comes before them.
fn alike_count(first: &Mention<'_>, mentions: &[Mention<'_>]) -> usize
    ensures within { result ≤ length mentions.now }
    ensures count { result ≡ unwrap_or (position (λ s. not (same_names (mention_names first.now) (mention_names s))) mentions.now) (length mentions.now) }
{
    unlike_place(first, mentions).unwrap_or(mentions.len())
}

/// Adds the differences that entries are, in order.
fn add_all(
    alloc: Global,
    differences: &mut Vec<Difference>,
    mentions: &[Mention<'_>],
) -> Result<(), NoMemory>
    ensures { IfOk result (λ _. map different_of differences.new.items ≡ map different_of differences.old.items ++ map plainly (plain_mentions mentions.now)) }
{
    for mention in mentions {
        differences.push(of_mention(alloc, mention)?)?;
    }
    Ok(())
}

/// Adds the entries of one key, if the files say different things of it. Those of the first file come first.
fn add_if_differing(
    alloc: Global,
    differences: &mut Vec<Difference>,
    mentions: &[Mention<'_>],
) -> Result<(), NoMemory>
    requires { IsBySide (plain_mentions mentions.now) }
    ensures { IfOk result (λ _. map different_of differences.new.items ≡ map different_of differences.old.items
        ++ map plainly (if differ_alone (plain_mentions mentions.now) then plain_mentions mentions.now else [])) }
{
    if differ(mentions) {
        return add_all(alloc, differences, mentions);
    }
    Ok(())
}

/// Adds the entries that have names in which the files differ. They stand in order.
fn add_differing(
    alloc: Global,
    differences: &mut Vec<Difference>,
    mentions: &[Mention<'_>],
) -> Result<(), NoMemory>
    requires { IsSorted setting_cmp (plain_mentions mentions.now) }
    ensures { IfOk result (λ _. map different_of differences.new.items ≡ map different_of differences.old.items ++ map plainly (kept_of (plain_mentions mentions.now))) }
{
    let mut at = 0;
    while let Some((first, others)) = mentions[at..].split_first() {
        let end = at + 1 + alike_count(first, others);
        add_if_differing(alloc, differences, &mentions[at..end])?;
        at = end;
    }
    Ok(())
}

/// Adds the entries of the keys of which two files say different things. They are sorted by their names; of each key those of the
/// first file come first, and each file's stay in the order in which they are given. Of other keys none.
///
/// A key is said differently if its values differ, in order, or if lookups of it find different ones.
///
/// It sorts the entries, and then goes over them once. Only what is added is copied.
///
/// # Errors
///
/// Out of memory.
pub fn differing(
    alloc: Global,
    differences: &mut Vec<Difference>,
    mut mentions: Vec<Mention<'_>>,
) -> Result<(), NoMemory>
    ensures { IfOk result (λ _. IsAdded (plain_mentions mentions.entry.items) (map different_of differences.old.items) (map different_of differences.new.items)) }
{
    mentions.sort_by(|one, other| order(one, other))?;
    add_differing(alloc, differences, &mentions)
}
