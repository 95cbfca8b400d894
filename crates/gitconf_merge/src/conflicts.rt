//! The conflicts of a merge.
ghost use Rattle.std.specs.Prelude.{◌≡◌, map, filter, IfOk};
ghost use Rattle.gitconf_diff.specs.Differences.{different_of};
ghost use Rattle.gitconf_merge.specs.Changes.{AreSorted, is_conflict, plain_changes};
ghost use Rattle.gitconf_merge.specs.Conflicts.{goes_on, key_of, keys_of};

use crate::changes::Changes;
use crate::deciding::is_conflict;
use crate::key::{are_same, names_of_difference};
use bstr::BString;
use gitconf_diff::difference::Difference;
use gitconf_text::NoMemory;
use std::alloc::Global;

/// The lines of the last entry of a key in OURS and in THEIRS. They are counted from 1; `None` where a side has none.
#[derive(Clone, Copy, Debug, PartialEq, Eq)]
pub struct Spot {
    /// The line in OURS.
    pub ours: Option<usize>,
    /// The line in THEIRS.
    pub theirs: Option<usize>,
}

/// A key that both sides changed, each otherwise.
#[derive(Clone, Debug, Drop, PartialEq, Eq)]
pub struct Conflict {
    /// The name of its section, in lower case.
    pub section_name: BString,
    /// The subsection, if there is one.
    pub subsection_name: Option<BString>,
    /// The name of the value, in lower case.
    pub value_name: BString,
    /// Where each side has it.
    pub lines: Spot,
}

/// The conflict at the key of a difference.
fn conflict_at(difference: &Difference, lines: Spot) -> Result<Conflict, NoMemory>
    ensures { IfOk result (λ c. key_of c ≡ (different_of difference.now).names) }
{
    Ok(Conflict {
        section_name: difference.section_name.clone()?,
        subsection_name: difference.subsection_name.clone()?,
        value_name: difference.value_name.clone()?,
        lines,
    })
}

/// Whether the first of these differences is of the key of one before them.
pub(crate) fn goes_on(difference: &Difference, behind: &[Difference]) -> bool
    ensures { result ≡ goes_on (different_of difference.now).names (map different_of behind.now) }
{
    match behind.first() {
        Some(next) => are_same(names_of_difference(difference), names_of_difference(next)),
        None => false,
    }
}

/// The lines at a place; none if there is no such place.
fn spot_at(spots: &[Spot], index: usize) -> Spot {
    let none = Spot {
        ours: None,
        theirs: None,
    };
    spots.get(index).copied().unwrap_or(none)
}

/// The conflicts, sorted by key, with their lines, which are given in this order. A pass over what OURS changed.
///
/// # Errors
///
/// Out of memory.
pub fn conflicts_of(
    alloc: Global,
    changes: &Changes,
    spots: &[Spot],
) -> Result<Vec<Conflict>, NoMemory>
    requires { AreSorted (plain_changes changes.now) }
    ensures { IfOk result (λ conflicts. map key_of conflicts.items ≡ filter (is_conflict (plain_changes changes.now)) (keys_of (map different_of changes.now.ours.items))) }
{
    let mut conflicts = Vec::new(alloc);
    let mut rest = changes.ours.as_slice();
    while let Some((difference, behind)) = rest.split_first() {
        if !goes_on(difference, behind) && is_conflict(changes, names_of_difference(difference)) {
            let lines = spot_at(spots, conflicts.len());
            conflicts.push(conflict_at(difference, lines)?)?;
        }
        rest = behind;
    }
    Ok(conflicts)
}
