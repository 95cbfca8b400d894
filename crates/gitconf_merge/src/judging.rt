//! Whether a text says what the merge says.
ghost use Rattle.std.specs.Prelude.{◌≡◌, map, not};
ghost use Rattle.std.specs.List.{list_all};
ghost use Rattle.gitconf_diff.specs.Differences.{different_of};
ghost use Rattle.gitconf_merge.specs.Changes.{AreSorted, are_allowed, follows, plain_changes, verdict_on};

use crate::changes::Changes;
use crate::deciding::verdict_of;
use crate::favor::Favor;
use crate::key::names_of_difference;
use gitconf_diff::difference::Difference;
use gitconf_diff::setting::Side;

/// Whether none of these differences between the result and a side is of a key of which the result has to say what that side says.
fn is_followed(changes: &Changes, favor: Favor, side: Side, differences: &[Difference]) -> bool
    requires { AreSorted (plain_changes changes.now) }
    ensures { result ≡ list_all (λ d. not (follows side favor (verdict_on (plain_changes changes.now) d.names))) (map different_of differences.now) }
{
    for difference in differences {
        if verdict_of(changes, names_of_difference(difference)).follows(side, favor) {
            return false;
        }
    }
    true
}

/// Whether a result differs from OURS and from THEIRS only where it has to.
pub fn are_allowed(
    changes: &Changes,
    favor: Favor,
    from_ours: &[Difference],
    from_theirs: &[Difference],
) -> bool
    requires { AreSorted (plain_changes changes.now) }
    ensures { result ≡ are_allowed favor (plain_changes changes.now) (map different_of from_ours.now) (map different_of from_theirs.now) }
{
    is_followed(changes, favor, Side::One, from_ours)
        && is_followed(changes, favor, Side::Other, from_theirs)
}
