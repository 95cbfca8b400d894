//! The sections and entries of a file as arrays.
ghost use Rattle.gix_config_c.specs.Views.{IsEmptied, PointsTo};

use crate::object::Object;
use crate::slot::Slot;
use std::alloc::Global;

/// Where some bytes lie in the text of a view. A zero byte is behind them, which they don't count.
#[repr(C)]
#[derive(Clone, Copy)]
pub struct Part {
    /// The place of the first one, from 0.
    pub at: usize,
    /// How many they are.
    pub len: usize,
}

/// An entry in a view.
#[repr(C)]
#[derive(Clone, Copy)]
pub struct EntryRow {
    /// Its name, as it is spelled.
    pub name: Part,
    /// What the value means, if there is one.
    pub value: Part,
    /// Whether there is a value: not for an entry without `=`.
    pub has_value: bool,
}

/// Where sections in a view come from.
#[repr(C)]
#[derive(Clone, Copy)]
pub struct OriginRow {
    /// The path of their file, if there is one.
    pub path: Part,
    /// Whether they come from a file with a path.
    pub has_path: bool,
    /// The place that they were read from: one of the sources' numbers.
    pub source: u32,
    /// How many includes led to their file: 0 for a file that was not included.
    pub level: u32,
    /// How far they are trusted: one of the numbers of trust.
    pub trust: u32,
}

/// A section in a view.
#[repr(C)]
#[derive(Clone, Copy)]
pub struct SectionRow {
    /// Its name, as it is spelled.
    pub name: Part,
    /// The subsection's name, if there is one.
    pub subsection: Part,
    /// Whether there is a subsection.
    pub has_subsection: bool,
    /// The place of its origin among the view's, from 0.
    pub origin: usize,
    /// The place of its first entry among the view's, from 0.
    pub entries_at: usize,
    /// How many entries it has: they stand one after the other.
    pub entries_len: usize,
    /// Its number in its file. It stays whatever is added or removed around the section, and no other section gets it.
    pub number: usize,
}

/// The arrays of a view, and the text that has the bytes of their rows.
#[derive(Drop)]
pub struct Arrays {
    /// The bytes.
    pub text: Vec<u8>,
    /// The entries of all sections, in order.
    pub entries: Vec<EntryRow>,
    /// Where sections come from.
    pub origins: Vec<OriginRow>,
    /// All sections, in order.
    pub sections: Vec<SectionRow>,
}

/// All sections and entries of a file as it was when the view was made. They are the program's to read until it frees the view.
#[repr(C)]
pub struct View {
    /// The sections, in order.
    pub sections: *const SectionRow,
    /// How many they are.
    pub sections_len: usize,
    /// The entries of all sections, in order.
    pub entries: *const EntryRow,
    /// How many they are.
    pub entries_len: usize,
    /// Where sections come from.
    pub origins: *const OriginRow,
    /// How many they are.
    pub origins_len: usize,
    /// The bytes of names, values and paths, each with a zero byte behind it.
    pub text: *const u8,
    /// How many they are.
    pub text_len: usize,
    /// The owner of all these.
    pub owner: Slot,
}

impl View {
    /// Puts arrays into the view, in place of those that it had, which are freed. Takes no memory: the room was made before.
    pub fn put(&mut self, mut room: Box<Object>, arrays: Arrays)
        ensures { PointsTo arrays self.new }
    {
        self.sections = arrays.sections.as_ptr();
        self.sections_len = arrays.sections.len();
        self.entries = arrays.entries.as_ptr();
        self.entries_len = arrays.entries.len();
        self.origins = arrays.origins.as_ptr();
        self.origins_len = arrays.origins.len();
        self.text = arrays.text.as_ptr();
        self.text_len = arrays.text.len();
        *room = Object::View(arrays);
        self.owner.put(room);
    }

    /// Frees the arrays, and leaves the view empty.
    pub fn free(&mut self, alloc: Global)
        ensures { IsEmptied self.new }
    {
        self.sections = std::ptr::null();
        self.sections_len = 0;
        self.entries = std::ptr::null();
        self.entries_len = 0;
        self.origins = std::ptr::null();
        self.origins_len = 0;
        self.text = std::ptr::null();
        self.text_len = 0;
        drop(self.owner.take(alloc));
    }
}
