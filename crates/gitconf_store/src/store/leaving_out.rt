//! Items at several places of a section, removed at once.
ghost use Rattle.std.specs.Prelude.{◌≡◌, ◌≤◌, ◌++◌, ◌∷◌, [], length, drop};
ghost use Rattle.gitconf_sections.specs.LeavingOut.{Ascend};
ghost use Rattle.gitconf_store.specs.LeavingOut.{AreIn};

use crate::store::Store;
use gitconf_sections::id::SectionId;

/// How many places come before the last run: the last run is of places in the section of the last one, each of which comes before the next
/// one.
pub(crate) fn before_run(before: &[(SectionId, usize)], id: SectionId, last: usize) -> usize
    ensures within { result ≤ length before.now }
    ensures ascend { Ascend 0 (drop result (before.now ++ (id, last) ∷ [])) }
    ensures are_in { AreIn id (drop result (before.now ++ (id, last) ∷ [])) }
{
    let mut rest = before;
    let mut first = last;
    while let Some((place, front)) = rest.split_last() {
        if place.0 != id || first <= place.1 {
            break;
        }
        first = place.1;
        rest = front;
    }
    rest.len()
}

impl Store {
    ghost use Rattle.std.specs.Prelude.{◌≡◌};
    ghost use Rattle.gitconf_store.specs.Several.{all_deleted};

    /// Deletes the items at places of the section of a number. The section is found in constant time, and walked over once.
    pub(crate) fn delete_run(&mut self, id: SectionId, places: &[(SectionId, usize)])
        requires ascend { Ascend 0 places.now }
        requires are_in { AreIn id places.now }
        ensures { self.new ≡ all_deleted places.now self.old }
    {
        let Some(at) = self.sections.position(id) else {
            return;
        };
        self.sections.leave_out(at, places);
    }
}
