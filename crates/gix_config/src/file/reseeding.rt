//! A file's lookups under another seed.
ghost use Rattle.std.specs.Prelude.{◌≡◌};

use crate::file::File;

impl File {
    /// Makes lookups find sections by words that are made from another seed. Nothing that the file returns, prints or compares
    /// depends on the seed; only the time of lookups does, if names were chosen to collide.
    ///
    /// A file begins with a seed that everyone can know. A program that loads untrusted text should draw one from the system, of all 64
    /// bits and anew in each process, and call this after the load: otherwise a text of `n` sections can make each lookup, and
    /// each edit that finds its section by name, take time for all `n`. A copy of the file has the same seed; sections that are
    /// appended from other files take this one's seed.
    ///
    /// Takes no memory, and time for the names of all sections.
    pub fn reseed(&mut self, seed: u64)
        ensures { self.new ≡ self.old }
    {
        self.store.reseed(seed);
    }
}
