//! The entries of a file, as a call returns them.
ghost use Rattle.gix_config_c.specs.EntryPlaces.{LieAtIf, LiesAt};

use crate::block::Span;

/// An entry of a file, with memory of its own.
#[derive(Drop)]
pub struct Entry {
    /// The name of its section.
    pub section: Vec<u8>,
    /// That of its subsection, if there is one.
    pub subsection: Option<Vec<u8>>,
    /// Its own name.
    pub name: Vec<u8>,
    /// What it means; `None` for an entry without `=`.
    pub value: Option<Vec<u8>>,
}

/// Where the parts of an entry lie: in the list that it was taken from, until that is closed.
#[repr(C)]
pub struct EntryPlace {
    /// The section's name, in lower case.
    pub section: Span,
    /// Whether there is a subsection.
    pub has_subsection: bool,
    /// The subsection's name, if there is one.
    pub subsection: Span,
    /// The entry's own name, in lower case.
    pub name: Span,
    /// Whether there is a value: not for an entry without `=`.
    pub has_value: bool,
    /// What the value means, if there is one.
    pub value: Span,
}

impl EntryPlace {
    /// Tells where the parts of an entry lie.
    pub fn tell(&mut self, entry: &Entry)
        ensures { LiesAt entry.now self.new }
    {
        self.section.tell(&entry.section);
        self.has_subsection = tell_if(&entry.subsection, &mut self.subsection);
        self.name.tell(&entry.name);
        self.has_value = tell_if(&entry.value, &mut self.value);
    }
}

/// Tells where the bytes lie, if there are some, and whether there are.
pub(crate) fn tell_if(bytes: &Option<Vec<u8>>, place: &mut Span) -> bool
    ensures { LieAtIf bytes.now result place.new }
{
    match bytes {
        Some(bytes) => {
            place.tell(bytes);
            true
        }
        None => {
            place.at = std::ptr::null();
            place.len = 0;
            false
        }
    }
}
