//! Walks over the sections of a store.
ghost use Rattle.gitconf_sections.specs.Walks as walks;
ghost use Rattle.gitconf_views.specs.Viewed.{AreViewed, AreViewed-prop};

use crate::filters::passes;
use gitconf_items::events::ItemEvents;
use gitconf_sections::id::SectionId;
use gitconf_sections::sections::walks::{Named, WithName};
use gitconf_sources::meta::Metadata;
use gitconf_views::section::{SectionRef, Sections};
use gitconf_views::tables::view_of;

/// The sections of a name and subsection in file order, from either end.
#[derive(Drop)]
pub struct SectionsNamed<'a, 'n, 's> {
    /// The buffer that all spans are offsets of.
    pub buffer: &'a [u8],
    /// The decoded subsections of the headers that need one.
    pub copies: &'a [u8],
    /// What is left of the walk over the table.
    pub sections: Named<'a, 'n, 's>,
    ghost viewed: { AreViewed buffer.now copies.now (walks.named_left sections) } by { AreViewed-prop buffer.now copies.now (walks.named_left sections) },
}

impl<'a> Iterator for SectionsNamed<'a, '_, '_> {
    type Item = SectionRef<'a>;

    ghost use Rattle.std.specs.Iterator.{YieldsFirstBy, item_count};
    ghost use Rattle.gitconf_views.specs.Views.{shown};
    ghost use Rattle.gitconf_lookups.specs.Walks.{named_left};

    ghost next_gives = { YieldsFirstBy shown named_left };

    ghost remaining = { item_count named_left };

    fn next(&mut self) -> Option<SectionRef<'a>> {
        match self.sections.next() {
            Some((id, section)) => Some(view_of(self.buffer, self.copies, id, section)),
            None => None,
        }
    }
}

impl<'a> DoubleEndedIterator for SectionsNamed<'a, '_, '_> {
    ghost use Rattle.std.specs.Iterator.{YieldsLastBy};
    ghost use Rattle.gitconf_views.specs.Views.{shown};
    ghost use Rattle.gitconf_lookups.specs.Walks.{named_left};

    ghost next_back_gives = { YieldsLastBy shown named_left };

    fn next_back(&mut self) -> Option<SectionRef<'a>> {
        match self.sections.next_back() {
            Some((id, section)) => Some(view_of(self.buffer, self.copies, id, section)),
            None => None,
        }
    }
}

/// The sections of a name and any subsection in file order:
/// `Store::sections_by_name`.
#[derive(Drop)]
pub struct SectionsByName<'a, 'n> {
    /// The buffer that all spans are offsets of.
    pub buffer: &'a [u8],
    /// The decoded subsections of the headers that need one.
    pub copies: &'a [u8],
    /// What is left of the walk over the table.
    pub sections: WithName<'a, 'n>,
    ghost viewed: { AreViewed buffer.now copies.now (walks.with_name_left sections) } by { AreViewed-prop buffer.now copies.now (walks.with_name_left sections) },
}

impl<'a> Iterator for SectionsByName<'a, '_> {
    type Item = SectionRef<'a>;

    ghost use Rattle.std.specs.Iterator.{YieldsFirstBy, item_count};
    ghost use Rattle.gitconf_views.specs.Views.{shown};
    ghost use Rattle.gitconf_lookups.specs.Walks.{by_name_left};

    ghost next_gives = { YieldsFirstBy shown by_name_left };

    ghost remaining = { item_count by_name_left };

    fn next(&mut self) -> Option<SectionRef<'a>> {
        match self.sections.next() {
            Some((id, section)) => Some(view_of(self.buffer, self.copies, id, section)),
            None => None,
        }
    }
}

/// The sections of a name in file order whose metadata passes a filter: `Store::sections_by_name_and_filter`. The
/// filter is called for each section when the walk reaches it.
#[derive(Drop)]
pub struct SectionsByNameAndFilter<'a, 'n, F> {
    /// What is left of the walk without the filter.
    pub sections: SectionsByName<'a, 'n>,
    /// The filter.
    pub filter: F,
}

impl<'a, F: FnMut(&Metadata) -> bool + Drop> Iterator for SectionsByNameAndFilter<'a, '_, F> {
    type Item = SectionRef<'a>;

    ghost use Rattle.std.specs.Fn.{ComputesKey};
    ghost use Rattle.std.specs.Iterator.{YieldsFirstBy, item_count};
    ghost use Rattle.std.specs.Prelude.{Bool};
    ghost use Rattle.std.specs.Option.{option_map};
    ghost use Rattle.gitconf_sources.specs.Metadata.{Meta};
    ghost use Rattle.gitconf_lookups.specs.SomeSections.{IsBehindSome};
    ghost use Rattle.gitconf_views.specs.Views.{shown};
    ghost use Rattle.gitconf_lookups.specs.Walks.{by_name_left, passing};

    ghost can_next = { λ s. F.IsAlwaysCallable s.filter };

    // For a filter whose result depends only on what it is shown; and for any filter.
    ghost next_gives = { λ before item behind. ((keeps : Meta → Bool) → ComputesKey F.FnMut keeps before.filter
        → ComputesKey F.FnMut keeps behind.filter × YieldsFirstBy shown (λ it. passing keeps (by_name_left it.sections)) before item behind)
        × IsBehindSome (by_name_left before.sections) (option_map shown item) (by_name_left behind.sections) };

    ghost remaining = { λ s. item_count by_name_left s.sections };

    fn next(&mut self) -> Option<SectionRef<'a>> {
        while let Some(section) = self.sections.next() {
            if passes(&mut self.filter, section.meta()) {
                return Some(section);
            }
        }
        None
    }
}

/// The sections of a file in order, each with its number:
/// `Store::sections_and_ids`.
#[derive(Drop)]
pub struct SectionsAndIds<'a> {
    /// The sections that are left.
    pub sections: Sections<'a>,
}

impl<'a> Iterator for SectionsAndIds<'a> {
    type Item = (SectionRef<'a>, SectionId);

    ghost use Rattle.std.specs.Iterator.{YieldsFirstBy, item_count};
    ghost use Rattle.gitconf_lookups.specs.Walks.{and_ids_left, shown_with_id};

    ghost next_gives = { YieldsFirstBy shown_with_id and_ids_left };

    ghost remaining = { item_count and_ids_left };

    fn next(&mut self) -> Option<(SectionRef<'a>, SectionId)> {
        match self.sections.next() {
            Some(section) => {
                let id = section.id();
                Some((section, id))
            }
            None => None,
        }
    }
}

/// The sections of a name in file order, each with its number:
/// `Store::sections_and_ids_by_name`.
#[derive(Drop)]
pub struct SectionsAndIdsByName<'a, 'n> {
    /// The sections that are left.
    pub sections: SectionsByName<'a, 'n>,
}

impl<'a> Iterator for SectionsAndIdsByName<'a, '_> {
    type Item = (SectionRef<'a>, SectionId);

    ghost use Rattle.std.specs.Iterator.{YieldsFirstBy, item_count};
    ghost use Rattle.gitconf_lookups.specs.Walks.{and_ids_by_name_left, shown_with_id};

    ghost next_gives = { YieldsFirstBy shown_with_id and_ids_by_name_left };

    ghost remaining = { item_count and_ids_by_name_left };

    fn next(&mut self) -> Option<(SectionRef<'a>, SectionId)> {
        match self.sections.next() {
            Some(section) => {
                let id = section.id();
                Some((section, id))
            }
            None => None,
        }
    }
}

/// The numbers of the sections of a file, in order: `Store::section_ids`.
#[derive(Drop)]
pub struct SectionIds<'a> {
    /// The sections that are left.
    pub sections: Sections<'a>,
}

impl Iterator for SectionIds<'_> {
    type Item = SectionId;

    ghost use Rattle.std.specs.Iterator.{YieldsFirst, item_count};
    ghost use Rattle.gitconf_lookups.specs.Walks.{section_ids_left};

    ghost next_gives = { YieldsFirst section_ids_left };

    ghost remaining = { item_count section_ids_left };

    fn next(&mut self) -> Option<SectionId> {
        match self.sections.next() {
            Some(section) => Some(section.id()),
            None => None,
        }
    }
}

/// The sections in order, each with the events of what is held after it. They are those of a file:
/// `Store::sections_and_postmatter`.
#[derive(Drop)]
pub struct SectionsAndPostmatter<'a> {
    /// The sections that are left.
    pub sections: Sections<'a>,
}

impl<'a> Iterator for SectionsAndPostmatter<'a> {
    type Item = (SectionRef<'a>, ItemEvents<'a>);

    ghost use Rattle.std.specs.Iterator.{YieldsFirstBy, item_count};
    ghost use Rattle.gitconf_lookups.specs.Walks.{and_held_left, shown_with_held};

    ghost next_gives = { YieldsFirstBy shown_with_held and_held_left };

    ghost remaining = { item_count and_held_left };

    fn next(&mut self) -> Option<(SectionRef<'a>, ItemEvents<'a>)> {
        match self.sections.next() {
            Some(section) => {
                let held = section.held_events();
                Some((section, held))
            }
            None => None,
        }
    }
}
