//! The sections of a file in order, with their bodies. The contracts speak of the plain list in file order. Besides it, the
//! place of each number is kept, and an index by name and one by name and subsection, so that no lookup walks over all sections.
ghost use Rattle.std.specs.Prelude.{◌≡◌, ℕ, ◌+◌, ◌<◌, ◌≤◌, ◌==◌, [], length, slice_index, vec_len, Some, IfOk, IfSome};
ghost use Rattle.std.specs.List.{list_any};
ghost use Rattle.std.specs.Option.{option_map};
ghost use Rattle.gitconf_text.specs.Sections.{has_name, no_number, number_at, place_of, section_at, section_of, without, IsNumbered, IsTableClone};
ghost use Rattle.gitconf_sections.specs.Links.{no_place};
ghost use Rattle.gitconf_sections.specs.Rows.{numbers_in};
ghost use Rattle.gitconf_sections.specs.Section.{viewed, IsSectionClone};
ghost use Rattle.gitconf_sections.specs.Tables.{AreApart, ArePlaced, ArePlacedTo};

mod adding;
mod editing;
mod renaming;
mod reseeding;
pub mod walks;
mod weaving;

use crate::id::SectionId;
use crate::index::WordIndex;
use crate::row::{Row, Section, read};
use crate::word::SEED;
use gitconf_items::items::Item;
use gitconf_text::NoMemory;
use std::alloc::Global;
use std::marker::Model;

/// The sections of a file, each under its number, in file order. The items of loaded sections are in one list; a section
/// gets a list of its own when it is edited. There are at most 4294967295 sections at a time: one more counts as out of memory.
pub struct SectionList {
    rows: Vec<Row>,
    // The names and subsections of all rows, and of rows that were removed or renamed.
    letters: Vec<u8>,
    list: Vec<Item>,
    // For each number that a section has, its place; for another number any place. 32 bits, since the indexes take no more words.
    places: Vec<u32>,
    // The rows by the words of their names, and by those of their names and subsections; and the seed of the words.
    names: WordIndex,
    full: WordIndex,
    seed: u64,
    next: usize,
}

impl Drop for SectionList {
    // By hand, so that each way out of a function is one call: a derived one is proved there part by part.
    fn drop(self) {
        let SectionList {
            rows,
            letters,
            list,
            places,
            names,
            full,
            seed: _,
            next: _,
        } = self;
        drop((rows, letters, list, places, names, full));
    }
}

impl Model for SectionList {
    ghost use Rattle.gitconf_text.specs.Sections.{Sections};
    ghost use Rattle.gitconf_sections.specs.Rows.{entries_of};
    ghost use Rattle.gitconf_sections.specs.Section.{Section};
    ghost use Rattle.gitconf_sections.specs.Tables.{IsKept};

    ghost Value = { Sections Section };

    ghost view = { λ s. record { entries = entries_of s.letters.items s.list.items s.rows.items; next = s.next } };

    ghost invariant = { λ s. IsKept s.seed s.next s.letters.items s.list.items s.rows.items s.places.items s.names.words s.full.words };
}

impl SectionList {
    /// No sections; the first one gets the number 0. Takes no memory. The words by which names are found are made from a seed
    /// that everyone can know: see [`SectionList::reseed`].
    pub fn new(alloc: Global) -> SectionList
        ensures empty { result.entries ≡ [] }
        ensures first { result.next ≡ 0 }
    {
        SectionList {
            rows: Vec::new(alloc),
            letters: Vec::new(alloc),
            list: Vec::new(alloc),
            places: Vec::new(alloc),
            names: WordIndex::new(alloc),
            full: WordIndex::new(alloc),
            seed: SEED,
            next: 0,
        }
    }

    /// A copy of the sections, with the same numbers, names and seed. It has lists of its own; metadata is shared. Each item is
    /// copied once.
    ///
    /// # Errors
    ///
    /// Out of memory.
    pub fn try_clone(&self) -> Result<SectionList, NoMemory>
        ensures { IfOk result (IsTableClone IsSectionClone self.now) }
    {
        Ok(SectionList {
            rows: self.rows.clone()?,
            letters: Vec::from_slice(*self.rows.allocator(), &self.letters)?,
            list: self.list.clone()?,
            places: Vec::from_slice(*self.rows.allocator(), &self.places)?,
            names: self.names.try_clone()?,
            full: self.full.try_clone()?,
            seed: self.seed,
            next: self.next,
        })
    }

    /// How many sections there are.
    pub fn len(&self) -> usize
        ensures { result ≡ length self.now.entries }
    {
        self.rows.len()
    }

    /// Whether there is no section.
    pub fn is_empty(&self) -> bool
        ensures { result ≡ (length self.now.entries == 0) }
    {
        self.rows.is_empty()
    }

    /// The number that the next section gets, unless it is the greatest number. No number was given twice.
    pub fn next_id(&self) -> SectionId
        ensures value { result ≡ self.now.next }
        ensures numbered { IsNumbered self.now }
    {
        SectionId { number: self.next }
    }

    /// How many sections may still be added before the numbers are used up.
    pub fn numbers_left(&self) -> usize
        ensures { result + self.now.next ≡ no_number }
    {
        usize::MAX - self.next
    }

    /// The place of a section in file order, or `None` if none has this number. No number was given twice. Takes constant time.
    pub fn position(&self, id: SectionId) -> Option<usize>
        ensures place { result ≡ place_of id self.now }
        ensures within { IfSome result (λ at. at < length self.now.entries) }
        ensures numbered { IsNumbered self.now }
    {
        if id.number >= self.places.len() {
            return None;
        }
        let at = self.places[id.number] as usize;
        if at >= self.rows.len() {
            return None;
        }
        let row = &self.rows[at];
        if row.id == id { Some(at) } else { None }
    }

    /// The number of the section at a place.
    pub fn id_at(&self, position: usize) -> SectionId
        requires { position < length self.now.entries }
        ensures { number_at position self.now ≡ Some result }
    {
        let row = &self.rows[position];
        row.id
    }

    /// The section of this number, or `None` if none has it. No number was given twice. Takes constant time.
    pub fn get(&self, id: SectionId) -> Option<Section<'_>>
        ensures section { option_map viewed result ≡ section_of id self.now }
        ensures numbered { IsNumbered self.now }
    {
        let at = self.position(id)?;
        Some(self.at(at))
    }

    /// The section at a place.
    pub fn at(&self, position: usize) -> Section<'_>
        requires { position < length self.now.entries }
        ensures { section_at position self.now ≡ Some (viewed result) }
    {
        let row = &self.rows[position];
        read(&self.list, row)
    }

    /// Whether some section has this name, without ASCII case, and any subsection. Takes constant time except for the bytes of the names.
    pub fn has_name(&self, name: &str) -> bool
        ensures { result ≡ list_any (has_name name.now) self.now.entries }
    {
        match self.with_name(name).next() {
            Some(_) => true,
            None => false,
        }
    }

    /// Removes the section of this number, if there is one. Its number is not given again. Moves what follows, and links all sections
    /// again.
    pub fn remove(&mut self, id: SectionId)
        ensures rest { self.new ≡ without id self.old }
    {
        let Some(at) = self.position(id) else {
            return;
        };
        drop(self.rows.remove(at));
        self.names.remove(at);
        self.full.remove(at);
        relocate(&self.rows, &mut self.places, 0);
    }
}

// Writes down the place of each row from `from` on under its number; those before it have theirs.
fn relocate(rows: &Vec<Row>, places: &mut Vec<u32>, from: usize)
    requires long { vec_len rows.now ≤ no_place }
    requires from { from ≤ length (numbers_in rows.now.items) }
    requires within { (k : ℕ) → k < length (numbers_in rows.now.items) → slice_index (numbers_in rows.now.items) k < length places.old.items }
    requires once { AreApart (numbers_in rows.now.items) }
    requires before { ArePlacedTo from (numbers_in rows.now.items) places.old.items }
    ensures placed { ArePlaced (numbers_in rows.now.items) places.new.items }
    ensures len { length places.new.items ≡ length places.old.items }
{
    for at in from..rows.len() {
        let row = &rows[at];
        let id = row.id;
        places[id.number] = at as u32;
    }
}
