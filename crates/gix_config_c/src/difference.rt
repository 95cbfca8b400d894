//! What two files mean differently, as a call returns it.
ghost use Rattle.gix_config_c.specs.Differences.{DifferenceLiesAt};

use crate::entry::{Entry, EntryPlace};
use gitconf_diff::setting::Side;

/// An entry of one of two files, of whose key they say different things.
#[derive(Drop)]
pub struct Difference {
    /// The file that has it.
    pub side: Side,
    /// The entry.
    pub entry: Entry,
}

/// Where the parts of a difference lie: in the list that it was taken from, until that is closed.
#[repr(C)]
pub struct DifferencePlace {
    /// Whether the entry is the second file's.
    pub is_other: bool,
    /// The entry.
    pub entry: EntryPlace,
}

impl DifferencePlace {
    /// Tells where the parts of a difference lie.
    pub fn tell(&mut self, difference: &Difference)
        ensures { DifferenceLiesAt difference.now self.new }
    {
        self.is_other = match difference.side {
            Side::One => false,
            Side::Other => true,
        };
        self.entry.tell(&difference.entry);
    }
}
