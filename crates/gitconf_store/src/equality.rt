//! Whether stores are equal.

use crate::store::Store;
use gitconf_lookups::equality::same_sections;

impl PartialEq for Store {
    ghost use Rattle.std.specs.Prelude.{◌≡◌, ◌↔◌, true};
    ghost use Rattle.gitconf_state.specs.Equality.{AreEqual};
    ghost use Rattle.gitconf_lookups.specs.Same.{same_state};
    ghost use Rattle.gitconf_lookups.specs.SameLaws.{same_state_partial};

    ghost eq = { same_state };

    ghost laws = { same_state_partial };

    /// Whether both have the same headers in order, with names compared without ASCII case, and the same keys, without ASCII case, that mean
    /// the same; an entry without `=` counts as empty. Fronts and metadata aren't compared. One walk over both, up to the first
    /// difference, which takes no memory.
    #[tactic(auto, using(gitconf_lookups::proofs::SameStates::same_are_equal))]
    fn eq(&self, other: &Store) -> bool
        ensures same { result ≡ same_state self.now other.now }
        ensures equal { (result ≡ true) ↔ AreEqual self.now other.now }
    {
        same_sections(self.sections(), other.sections())
    }
}

impl Eq for Store {
    ghost use Rattle.gitconf_lookups.specs.SameLaws.{same_state_equiv};

    ghost laws = { same_state_equiv };
}
