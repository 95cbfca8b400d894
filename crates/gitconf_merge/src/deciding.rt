//! Whose a key is.
ghost use Rattle.std.specs.Prelude.{◌≡◌, map};
ghost use Rattle.std.specs.List.Sorted.{IsSorted};
ghost use Rattle.gitconf_diff.specs.Differences.{different_cmp, different_of};
ghost use Rattle.gitconf_merge.specs.Keys.{plain_names};
ghost use Rattle.gitconf_merge.specs.Changes.{AreSorted, is_conflict, is_favored, plain_changes, verdict_on};

use crate::changes::Changes;
use crate::favor::Favor;
use crate::key::{KeyNames, is_key_among};
use gitconf_diff::setting::Side;

/// Whose a key is.
#[derive(Clone, Copy, Debug, PartialEq, Eq)]
pub enum Verdict {
    /// What OURS says of it holds: THEIRS left it as it was, or says the same.
    Ours,
    /// What THEIRS says of it holds, since OURS left it as it was.
    Theirs,
    /// Both changed it, each otherwise.
    Conflict,
}

impl Verdict {
    ghost use Rattle.std.specs.Prelude.{◌≡◌};
    ghost use Rattle.gitconf_merge.specs.Changes.{follows};

    /// Whether the result has to say what this side says.
    pub fn follows(self, side: Side, favor: Favor) -> bool
        ensures { result ≡ follows side favor self }
    {
        match self {
            Verdict::Ours => matches!(side, Side::One),
            Verdict::Theirs => matches!(side, Side::Other),
            Verdict::Conflict => is_favored(side, favor),
        }
    }
}

/// Whether a conflict is settled by what this side says. One that is united is settled by neither.
fn is_favored(side: Side, favor: Favor) -> bool
    ensures { result ≡ is_favored side favor }
{
    match side {
        Side::One => matches!(favor, Favor::Neither | Favor::Ours),
        Side::Other => matches!(favor, Favor::Theirs),
    }
}

/// Whose a key is, by what the sides changed. Up to three binary searches.
pub fn verdict_of(changes: &Changes, names: KeyNames<'_>) -> Verdict
    requires { AreSorted (plain_changes changes.now) }
    ensures { result ≡ verdict_on (plain_changes changes.now) (plain_names names.entry) }
{
    if !is_key_among(&changes.theirs, names) {
        return Verdict::Ours;
    }
    if !is_key_among(&changes.ours, names) {
        return Verdict::Theirs;
    }
    if is_key_among(&changes.between, names) {
        Verdict::Conflict
    } else {
        Verdict::Ours
    }
}

/// Whether both sides changed a key, each otherwise.
pub fn is_conflict(changes: &Changes, names: KeyNames<'_>) -> bool
    requires { AreSorted (plain_changes changes.now) }
    ensures { result ≡ is_conflict (plain_changes changes.now) (plain_names names.entry) }
{
    is_key_among(&changes.theirs, names)
        && is_key_among(&changes.ours, names)
        && is_key_among(&changes.between, names)
}
