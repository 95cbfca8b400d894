//! Keys, by their names, and whether a key is among the differences of two files.
ghost use Rattle.std.specs.Prelude.{◌≡◌, map, filter};
ghost use Rattle.std.specs.Ordering.{nat_cmp, ordering_then};
ghost use Rattle.std.specs.List.Sorted.{IsSorted};
ghost use Rattle.gitconf_diff.specs.PlainSettings.{names_cmp, names_of, rank, same_names};
ghost use Rattle.gitconf_diff.specs.Differences.{different_cmp, different_of};
ghost use Rattle.gitconf_merge.specs.Keys.{is_among, plain_names};
ghost use Rattle.gitconf_merge.specs.Unions.{is_of};

use bstr::BString;
use gitconf_diff::difference::Difference;
use gitconf_diff::setting::{Setting, Side};
use std::cmp::Ordering;

/// The names of a key, lent: those of the section and of the value in lower case.
#[derive(Clone, Copy)]
pub struct KeyNames<'a> {
    /// The name of the section.
    pub section_name: &'a BString,
    /// The subsection, if there is one.
    pub subsection_name: &'a Option<BString>,
    /// The name of the value.
    pub value_name: &'a BString,
}

/// The key of a difference.
pub fn names_of_difference(difference: &Difference) -> KeyNames<'_>
    ensures { plain_names result ≡ (different_of difference.now).names }
{
    KeyNames {
        section_name: &difference.section_name,
        subsection_name: &difference.subsection_name,
        value_name: &difference.value_name,
    }
}

/// The key of a setting.
pub fn names_of_setting(setting: &Setting) -> KeyNames<'_>
    ensures { plain_names result ≡ names_of setting.now }
{
    KeyNames {
        section_name: &setting.section_name,
        subsection_name: &setting.subsection_name,
        value_name: &setting.value_name,
    }
}

/// How two keys are ordered: by the section's name, the subsection, where none is first, and the value's name.
pub fn order(one: KeyNames<'_>, other: KeyNames<'_>) -> Ordering
    ensures { result ≡ names_cmp (plain_names one.entry) (plain_names other.entry) }
{
    match one.section_name.cmp(other.section_name) {
        Ordering::Equal => match one.subsection_name.cmp(other.subsection_name) {
            Ordering::Equal => one.value_name.cmp(other.value_name),
            unequal => unequal,
        },
        unequal => unequal,
    }
}

/// Whether two keys are the same.
pub fn are_same(one: KeyNames<'_>, other: KeyNames<'_>) -> bool
    ensures { result ≡ same_names (plain_names one.entry) (plain_names other.entry) }
{
    one.section_name == other.section_name
        && one.subsection_name == other.subsection_name
        && one.value_name == other.value_name
}

/// Whether a key is that of one of the differences, which are sorted. A binary search.
pub fn is_key_among(differences: &[Difference], names: KeyNames<'_>) -> bool
    requires { IsSorted different_cmp (map different_of differences.now) }
    ensures { result ≡ is_among (plain_names names.entry) (map different_of differences.now) }
{
    differences
        .binary_search_by(|difference| order(names_of_difference(difference), names))
        .is_ok()
}

/// How a difference is ordered beside what a file says of a key.
fn order_at(difference: &Difference, names: KeyNames<'_>, side: Side) -> Ordering
    ensures { result ≡ ordering_then (names_cmp (different_of difference.now).names (plain_names names.entry)) (nat_cmp (rank difference.now.side) (rank side)) }
{
    order(names_of_difference(difference), names).then(difference.side.cmp(&side))
}

/// What one of the two files says of a key, among their differences, which are sorted. Two binary searches.
pub fn said_of<'a>(
    differences: &'a [Difference],
    names: KeyNames<'_>,
    side: Side,
) -> &'a [Difference]
    requires { IsSorted different_cmp (map different_of differences.now) }
    ensures { map different_of result.now ≡ filter (is_of (plain_names names.entry) side) (map different_of differences.now) }
{
    let first = differences.partition_point(|d| order_at(d, names, side).is_lt());
    let end = differences.partition_point(|d| order_at(d, names, side).is_le());
    &differences[first..end]
}
