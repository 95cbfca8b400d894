//! Words of names, made from another seed.
ghost use Rattle.std.specs.Prelude.{◌≡◌};

use crate::store::Store;

impl Store {
    /// Makes the words by which sections are found from another seed, as [`gitconf_sections::sections::SectionList::reseed`] does: takes no
    /// memory, and one pass over the sections' names. No result depends on the seed.
    pub fn reseed(&mut self, seed: u64)
        ensures { self.new ≡ self.old }
    {
        self.sections.reseed(seed);
    }
}
