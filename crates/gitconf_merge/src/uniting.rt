//! Whether a text has the values of both sides.
ghost use Rattle.std.specs.Prelude.{◌≡◌, ◌||◌, map, not};
ghost use Rattle.std.specs.Cmp.Lexicographic.{pointwise};
ghost use Rattle.std.specs.List.{list_any};
ghost use Rattle.std.specs.List.Sorted.{IsSorted};
ghost use Rattle.std.specs.Option.{option_eq, option_map};
ghost use Rattle.std.specs.Str.{bytes_eq};
ghost use Rattle.bstr.specs.Owned.{bstring_bytes};
ghost use Rattle.gitconf_diff.specs.Differences.{different_cmp, different_of};
ghost use Rattle.gitconf_merge.specs.Changes.{AreSorted, is_conflict, plain_changes};
ghost use Rattle.gitconf_merge.specs.Keys.{plain_names};
ghost use Rattle.gitconf_merge.specs.Merging.{added, has_value, united};
ghost use Rattle.gitconf_merge.specs.Unions.{are_all_united, are_united, is_united, values_of};

use crate::changes::Changes;
use crate::conflicts::goes_on;
use crate::deciding::is_conflict;
use crate::favor::Favor;
use crate::key::{KeyNames, is_key_among, names_of_difference, said_of};
use gitconf_diff::difference::Difference;
use gitconf_diff::setting::Side;

/// Whether two entries mean the same.
fn have_same_value(one: &Difference, other: &Difference) -> bool
    ensures { result ≡ option_eq bytes_eq (different_of one.now).value (different_of other.now).value }
{
    one.value == other.value
}

/// Whether one of the entries means what another one means.
fn has_value(entries: &[Difference], other: &Difference) -> bool
    ensures { result ≡ has_value (values_of (map different_of entries.now)) (different_of other.now).value }
{
    for entry in entries {
        if have_same_value(other, entry) {
            return true;
        }
    }
    false
}

/// Whether entries mean one by one what those of THEIRS mean that mean nothing that OURS has.
fn are_added(entries: &[Difference], ours: &[Difference], theirs: &[Difference]) -> bool
    ensures { result ≡ pointwise (option_eq bytes_eq) (values_of (map different_of entries.now))
        (added (values_of (map different_of ours.now)) (values_of (map different_of theirs.now))) }
{
    let mut left = entries;
    for their in theirs {
        if has_value(ours, their) {
            continue;
        }
        match left.split_first() {
            Some((first, behind)) if have_same_value(first, their) => left = behind,
            _ => return false,
        }
    }
    left.is_empty()
}

/// Whether entries mean what those of OURS mean, and behind them what those of THEIRS mean that mean nothing that OURS has.
fn are_of_both(entries: &[Difference], ours: &[Difference], theirs: &[Difference]) -> bool
    ensures { result ≡ pointwise (option_eq bytes_eq) (values_of (map different_of entries.now))
        (united (values_of (map different_of ours.now)) (values_of (map different_of theirs.now))) }
{
    let mut left = entries;
    for our in ours {
        match left.split_first() {
            Some((first, behind)) if have_same_value(first, our) => left = behind,
            _ => return false,
        }
    }
    are_added(left, ours, theirs)
}

/// Whether the result has the values of both sides at a key. Where the result differs from OURS, it is among these differences.
fn is_united(changes: &Changes, from_ours: &[Difference], names: KeyNames<'_>) -> bool
    requires changes { AreSorted (plain_changes changes.now) }
    requires made { IsSorted different_cmp (map different_of from_ours.now) }
    ensures { result ≡ is_united (plain_changes changes.now) (map different_of from_ours.now) (plain_names names.entry) }
{
    let ours = said_of(&changes.between, names, Side::One);
    let theirs = said_of(&changes.between, names, Side::Other);
    if is_key_among(from_ours, names) {
        are_of_both(said_of(from_ours, names, Side::One), ours, theirs)
    } else {
        are_of_both(ours, ours, theirs)
    }
}

/// Whether a key is no conflict, or the result has the values of both sides there.
fn is_settled(changes: &Changes, from_ours: &[Difference], names: KeyNames<'_>) -> bool
    requires changes { AreSorted (plain_changes changes.now) }
    requires made { IsSorted different_cmp (map different_of from_ours.now) }
    ensures { result ≡ (not (is_conflict (plain_changes changes.now) (plain_names names.entry))
        || is_united (plain_changes changes.now) (map different_of from_ours.now) (plain_names names.entry)) }
{
    !is_conflict(changes, names) || is_united(changes, from_ours, names)
}

/// Whether the result has the values of both sides at each key that is a conflict. It compares each value that THEIRS has there with those of
/// OURS.
fn are_all_united(changes: &Changes, from_ours: &[Difference]) -> bool
    requires changes { AreSorted (plain_changes changes.now) }
    requires made { IsSorted different_cmp (map different_of from_ours.now) }
    ensures { result ≡ are_all_united (plain_changes changes.now) (map different_of from_ours.now) }
{
    let mut rest = changes.between.as_slice();
    while let Some((difference, behind)) = rest.split_first() {
        let is_last = !goes_on(difference, behind);
        if is_last && !is_settled(changes, from_ours, names_of_difference(difference)) {
            return false;
        }
        rest = behind;
    }
    true
}

/// Whether the result has the values of both sides at each key that is a conflict, if conflicts are united.
pub fn are_united(changes: &Changes, favor: Favor, from_ours: &[Difference]) -> bool
    requires changes { AreSorted (plain_changes changes.now) }
    requires made { IsSorted different_cmp (map different_of from_ours.now) }
    ensures { result ≡ are_united favor (plain_changes changes.now) (map different_of from_ours.now) }
{
    match favor {
        Favor::Union => are_all_united(changes, from_ours),
        Favor::Neither | Favor::Ours | Favor::Theirs => true,
    }
}
