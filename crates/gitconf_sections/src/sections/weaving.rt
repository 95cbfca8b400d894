//! Sections that were added at the end are moved to where they belong.
ghost use Rattle.std.specs.Prelude.{◌≡◌, ◌-◌, ◌≤◌, length};
ghost use Rattle.gitconf_sections.specs.Runs.{woven, AreRuns};

use crate::lists::weave;
use crate::runs::Run;
use crate::sections::{SectionList, relocate};

impl SectionList {
    /// Weaves the sections from `first` on among those before them. Their numbers, their names and what they hold stay. Takes no
    /// memory, moves no items, and takes time for all sections: those between the runs are moved once for each time that the runs
    /// can be halved, and all are linked once. Without runs it takes constant time.
    pub fn weave(&mut self, first: usize, runs: &[Run])
        requires within { first ≤ length self.old.entries }
        requires runs { AreRuns runs.now first (length self.old.entries - first) }
        ensures { self.new ≡ record self.old { entries = woven runs.now first self.old.entries } }
    {
        if runs.is_empty() {
            return;
        }
        weave(&mut self.rows, first, runs);
        self.names.weave(first, runs);
        self.full.weave(first, runs);
        relocate(&self.rows, &mut self.places, 0);
    }
}
