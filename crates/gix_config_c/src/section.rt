//! The sections of a file, as a call returns them.
ghost use Rattle.gix_config_c.specs.SectionPlaces.{SectionLiesAt};

use crate::block::Span;
use crate::entry::tell_if;
use crate::origin;
use gitconf_sources::source::{Source, Trust};

/// A section of a file, with memory of its own.
#[derive(Drop)]
pub struct Section {
    /// Its name.
    pub name: Vec<u8>,
    /// That of its subsection, if there is one.
    pub subsection: Option<Vec<u8>>,
    /// The path of its file, if it comes from one.
    pub path: Option<Vec<u8>>,
    /// The place that it was read from.
    pub source: Source,
    /// How many includes led to its file.
    pub level: u8,
    /// How far it is trusted.
    pub trust: Trust,
    /// How many entries it has.
    pub entries: usize,
}

/// Where the names of a section lie: in the list that it was taken from, until that is closed. And where the section comes from.
#[repr(C)]
pub struct SectionPlace {
    /// The name, as it is spelled.
    pub name: Span,
    /// Whether there is a subsection.
    pub has_subsection: bool,
    /// The subsection's name, if there is one.
    pub subsection: Span,
    /// Whether it comes from a file with a path.
    pub has_path: bool,
    /// The path of its file, if there is one.
    pub path: Span,
    /// The place that it was read from: one of the sources' numbers.
    pub source: u32,
    /// How many includes led to its file: 0 for a file that was not included.
    pub level: u32,
    /// How far it is trusted: one of the numbers of trust.
    pub trust: u32,
    /// How many entries it has.
    pub entries: usize,
}

impl SectionPlace {
    /// Tells where the names of a section lie, and where it comes from.
    pub fn tell(&mut self, section: &Section)
        ensures { SectionLiesAt section.now self.new }
    {
        self.name.tell(&section.name);
        self.has_subsection = tell_if(&section.subsection, &mut self.subsection);
        self.has_path = tell_if(&section.path, &mut self.path);
        self.source = origin::source(section.source);
        self.level = u32::from(section.level);
        self.trust = origin::trust(section.trust);
        self.entries = section.entries;
    }
}
