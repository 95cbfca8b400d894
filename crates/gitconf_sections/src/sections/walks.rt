//! Walks over the sections.
ghost use Rattle.std.specs.Iterator.{item_count, YieldsFirstBy, YieldsLastBy};
ghost use Rattle.std.specs.Option.{option_copied, option_eq, option_map};
ghost use Rattle.std.specs.Prelude.{◌≡◌, ◌&&◌, slice_get};
ghost use Rattle.std.specs.Str.{bytes_eq};
ghost use Rattle.gitconf_text.specs.Names.{is_same_name};
ghost use Rattle.gitconf_text.specs.Sections.{all_named, named, sections_of, IsNumbered};
ghost use Rattle.gitconf_sections.specs.Letters.{name_part, part_of, subsection_part};
ghost use Rattle.gitconf_sections.specs.Walks.{named_left, sections_left, shown_section, with_name_left};
ghost use Rattle.gitconf_sections.specs.Word.{full_word, name_word};
ghost use Rattle.gitconf_sections.specs.Words.{places_of};

use crate::id::SectionId;
use crate::index::{Places, WordIndex};
use crate::letters::{Names, name_at, subsection_at};
use crate::row::{Row, Section, read};
use crate::sections::SectionList;
use crate::word::{full_state, name_state, word_of};
use gitconf_items::items::Item;
use gitconf_text::parse::section::bytes::is_same_name;

impl SectionList {
    /// The sections in file order, each under its number.
    pub fn iter(&self) -> Iter<'_>
        ensures left { sections_left result ≡ sections_of self.now }
        ensures numbered { IsNumbered self.now }
    {
        Iter {
            rows: &self.rows,
            list: &self.list,
        }
    }

    /// The sections of this name and subsection, in file order, each under its number. The name is compared without ASCII case, the
    /// subsection exactly. Takes no memory, and constant time except for the bytes of the names; each step takes the time of the
    /// sections that share a bucket, one or two on average besides those that are asked for.
    #[inline(always)]
    pub fn named<'a, 'n, 's>(
        &'a self,
        name: &'n str,
        subsection: Option<&'s [u8]>,
    ) -> Named<'a, 'n, 's>
        ensures left { named_left result ≡ named name.now (option_copied subsection.entry) self.now }
    {
        Named {
            rows: &self.rows,
            letters: &self.letters,
            list: &self.list,
            places: places_named(&self.full, self.seed, name, subsection),
            name,
            subsection,
        }
    }

    /// The sections of this name and any subsection, in file order, each under its number. The name is compared without ASCII
    /// case. Takes the time of [`SectionList::named`], and no memory.
    pub fn with_name<'a, 'n>(&'a self, name: &'n str) -> WithName<'a, 'n>
        ensures left { with_name_left result ≡ all_named name.now self.now }
    {
        WithName {
            rows: &self.rows,
            letters: &self.letters,
            list: &self.list,
            places: places_of_name(&self.names, self.seed, name),
            name,
        }
    }
}

// The places with the word of the name; the words were made from the seed.
fn places_of_name<'a>(names: &'a WordIndex, seed: u64, name: &str) -> Places<'a>
    ensures { result ≡ places_of (name_word seed name.now) names.now.words }
{
    let state = name_state(seed, name.as_bytes());
    names.places(word_of(state))
}

// The same for the name and subsection.
fn places_named<'a>(
    full: &'a WordIndex,
    seed: u64,
    name: &str,
    subsection: Option<&[u8]>,
) -> Places<'a>
    ensures { result ≡ places_of (full_word seed name.now (option_copied subsection.entry)) full.now.words }
{
    let state = name_state(seed, name.as_bytes());
    full.places(word_of(full_state(state, subsection)))
}

// The row at a place, if there is one.
fn row_at(rows: &[Row], at: usize) -> Option<&Row>
    ensures { option_copied result ≡ slice_get rows.now at }
{
    rows.get(at)
}

// Whether the names of a row are the name, without ASCII case, and exactly the subsection.
#[inline(always)]
fn is_named(letters: &[u8], names: Names, name: &str, subsection: Option<&[u8]>) -> bool
    ensures { result ≡ is_same_name name.now (part_of letters.now (name_part names))
        && option_eq bytes_eq (option_map (part_of letters.now) (subsection_part names)) (option_copied subsection.entry) }
{
    has_name(letters, names, name) && same_subsection(subsection_at(letters, names), subsection)
}

// Whether the name of a row is the name, without ASCII case.
fn has_name(letters: &[u8], names: Names, name: &str) -> bool
    ensures { result ≡ is_same_name name.now (part_of letters.now (name_part names)) }
{
    is_same_name(name.as_bytes(), name_at(letters, names))
}

// Whether both are none, or the same bytes.
fn same_subsection(ours: Option<&[u8]>, asked: Option<&[u8]>) -> bool
    ensures { result ≡ option_eq bytes_eq (option_copied ours.entry) (option_copied asked.entry) }
{
    match (ours, asked) {
        (None, None) => true,
        (Some(ours), Some(asked)) => ours == asked,
        _ => false,
    }
}

/// The sections in file order, from either end: [`SectionList::iter`].
#[derive(Drop)]
pub struct Iter<'a> {
    rows: &'a [Row],
    list: &'a Vec<Item>,
}

impl<'a> Iterator for Iter<'a> {
    type Item = (SectionId, Section<'a>);

    ghost next_gives = { YieldsFirstBy shown_section sections_left };

    ghost remaining = { item_count sections_left };

    fn next(&mut self) -> Option<(SectionId, Section<'a>)> {
        let (row, rest) = self.rows.split_first()?;
        self.rows = rest;
        Some((row.id, read(self.list, row)))
    }
}

impl<'a> DoubleEndedIterator for Iter<'a> {
    ghost next_back_gives = { YieldsLastBy shown_section sections_left };

    fn next_back(&mut self) -> Option<(SectionId, Section<'a>)> {
        let (row, rest) = self.rows.split_last()?;
        self.rows = rest;
        Some((row.id, read(self.list, row)))
    }
}

/// The sections of a name and subsection in file order, from either end: [`SectionList::named`].
#[derive(Drop)]
pub struct Named<'a, 'n, 's> {
    rows: &'a [Row],
    letters: &'a [u8],
    list: &'a Vec<Item>,
    places: Places<'a>,
    name: &'n str,
    subsection: Option<&'s [u8]>,
}

impl<'a> Iterator for Named<'a, '_, '_> {
    type Item = (SectionId, Section<'a>);

    ghost next_gives = { YieldsFirstBy shown_section named_left };

    ghost remaining = { item_count named_left };

    fn next(&mut self) -> Option<(SectionId, Section<'a>)> {
        while let Some(at) = self.places.next() {
            if let Some(row) = row_at(self.rows, at) {
                if is_named(self.letters, row.names, self.name, self.subsection) {
                    return Some((row.id, read(self.list, row)));
                }
            }
        }
        None
    }
}

impl<'a> DoubleEndedIterator for Named<'a, '_, '_> {
    ghost next_back_gives = { YieldsLastBy shown_section named_left };

    fn next_back(&mut self) -> Option<(SectionId, Section<'a>)> {
        while let Some(at) = self.places.next_back() {
            if let Some(row) = row_at(self.rows, at) {
                if is_named(self.letters, row.names, self.name, self.subsection) {
                    return Some((row.id, read(self.list, row)));
                }
            }
        }
        None
    }
}

/// The sections of a name and any subsection in file order, from either end: [`SectionList::with_name`].
#[derive(Drop)]
pub struct WithName<'a, 'n> {
    rows: &'a [Row],
    letters: &'a [u8],
    list: &'a Vec<Item>,
    places: Places<'a>,
    name: &'n str,
}

impl<'a> Iterator for WithName<'a, '_> {
    type Item = (SectionId, Section<'a>);

    ghost next_gives = { YieldsFirstBy shown_section with_name_left };

    ghost remaining = { item_count with_name_left };

    fn next(&mut self) -> Option<(SectionId, Section<'a>)> {
        while let Some(at) = self.places.next() {
            if let Some(row) = row_at(self.rows, at) {
                if has_name(self.letters, row.names, self.name) {
                    return Some((row.id, read(self.list, row)));
                }
            }
        }
        None
    }
}

impl<'a> DoubleEndedIterator for WithName<'a, '_> {
    ghost next_back_gives = { YieldsLastBy shown_section with_name_left };

    fn next_back(&mut self) -> Option<(SectionId, Section<'a>)> {
        while let Some(at) = self.places.next_back() {
            if let Some(row) = row_at(self.rows, at) {
                if has_name(self.letters, row.names, self.name) {
                    return Some((row.id, read(self.list, row)));
                }
            }
        }
        None
    }
}
