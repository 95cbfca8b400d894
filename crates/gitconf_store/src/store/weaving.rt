//! Sections that were added at the end are moved to where they belong.
ghost use Rattle.std.specs.Prelude.{◌≡◌, ◌-◌, ◌≤◌, length};
ghost use Rattle.gitconf_sections.specs.Runs.{woven, AreRuns};

use crate::store::Store;
use gitconf_sections::runs::Run;

impl Store {
    /// Weaves the sections from `first` on among those before them: for each run that many of the first ones, and then that many of the
    /// others. Their numbers and what they hold stay. Takes no memory, and time for all sections: those between the runs are moved
    /// once for each time that the runs can be halved. No bytes and no items are moved.
    pub fn weave(&mut self, first: usize, runs: &[Run])
        requires within { first ≤ length self.old.sections }
        requires runs { AreRuns runs.now first (length self.old.sections - first) }
        ensures { self.new ≡ record self.old { sections = woven runs.now first self.old.sections } }
    {
        self.sections.weave(first, runs);
    }
}
