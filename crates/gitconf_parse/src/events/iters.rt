//! Iterators over events and sections.
ghost use Rattle.std.specs.Prelude.{◌≡◌, ◌<◌, true, length};
ghost use Rattle.gitconf_read.specs.Compact.{events_of};
ghost use Rattle.gitconf_items.specs.EventProps.{AreWithin, AreWithin-prop};
ghost use Rattle.gitconf_items.specs.Sections.{is_header_event, is_cut};

use gitconf_items::event_ref::EventRef;
use gitconf_items::lend::event_ref;
use gitconf_read::compact::EventSlice;

/// Events in the order of their text.
#[derive(Clone, Copy, Debug)]
pub struct EventIter<'a> {
    buffer: &'a [u8],
    copies: &'a [u8],
    events: EventSlice<'a>,
    ghost within: { AreWithin buffer.now copies.now (events_of events) } by { AreWithin-prop buffer.now copies.now (events_of events) },
}

impl<'a> EventIter<'a> {
    ghost use Rattle.std.specs.Prelude.{◌≡◌, map};
    ghost use Rattle.gitconf_read.specs.Compact.{events_of};
    ghost use Rattle.gitconf_items.specs.EventProps.{AreWithin};
    ghost use Rattle.gitconf_items.specs.ShownEvents.{shown_event};
    ghost use Rattle.gitconf_parse.specs.EventIters.{events_left};

    /// The events of a slice. Their spans are offsets of `buffer`, and their copies are in `copies`.
    pub fn over(buffer: &'a [u8], copies: &'a [u8], events: EventSlice<'a>) -> EventIter<'a>
        requires { AreWithin buffer.now copies.now (events_of events) }
        ensures { events_left result ≡ map (shown_event buffer.now copies.now) (events_of events.entry) }
    {
        EventIter {
            buffer,
            copies,
            events,
        }
    }
}

impl<'a> Iterator for EventIter<'a> {
    type Item = EventRef<'a>;

    ghost use Rattle.std.specs.Iterator.{YieldsFirstBy, item_count};
    ghost use Rattle.gitconf_items.specs.EventRef.{shown};
    ghost use Rattle.gitconf_parse.specs.EventIters.{events_left};

    ghost next_gives = { YieldsFirstBy shown events_left };

    ghost remaining = { item_count events_left };

    #[inline(always)]
    fn next(&mut self) -> Option<EventRef<'a>> {
        let (first, others) = self.events.split_first()?;
        self.events = others;
        Some(event_ref(self.buffer, self.copies, &first))
    }
}

/// A section: its header, and what follows it up to the next.
#[derive(Clone, Copy, Debug)]
pub struct SectionRef<'a> {
    buffer: &'a [u8],
    copies: &'a [u8],
    events: EventSlice<'a>,
    ghost within: { AreWithin buffer.now copies.now (events_of events) } by { AreWithin-prop buffer.now copies.now (events_of events) },
    ghost filled: { 0 < length (events_of events) },
}

impl<'a> SectionRef<'a> {
    ghost use Rattle.std.specs.Prelude.{◌≡◌, ◌∷◌, drop};
    ghost use Rattle.gitconf_items.specs.EventRef.{shown};
    ghost use Rattle.gitconf_parse.specs.EventIters.{events_left, shown_section};

    /// The section's header.
    pub fn header(&self) -> EventRef<'a>
        ensures { shown_section self.now ≡ shown result ∷ drop 1 (shown_section self.now) }
    {
        match self.events.split_first() {
            Some((header, _)) => event_ref(self.buffer, self.copies, &header),
            None => unreachable!(),
        }
    }

    /// What follows the header.
    pub fn body(self) -> EventIter<'a>
        ensures { events_left result ≡ drop 1 (shown_section self.entry) }
    {
        EventIter {
            buffer: self.buffer,
            copies: self.copies,
            events: self.events.split_at(1).1,
        }
    }

    /// The header, and what follows it.
    pub fn iter(self) -> EventIter<'a>
        ensures { events_left result ≡ shown_section self.entry }
    {
        EventIter {
            buffer: self.buffer,
            copies: self.copies,
            events: self.events,
        }
    }
}

/// Sections in the order of their text.
#[derive(Clone, Copy, Debug)]
pub struct SectionIter<'a> {
    buffer: &'a [u8],
    copies: &'a [u8],
    events: EventSlice<'a>,
    ghost within: { AreWithin buffer.now copies.now (events_of events) } by { AreWithin-prop buffer.now copies.now (events_of events) },
    ghost cut: { is_cut is_header_event (events_of events) ≡ true },
}

impl<'a> SectionIter<'a> {
    ghost use Rattle.std.specs.Prelude.{◌≡◌, map};
    ghost use Rattle.gitconf_read.specs.Compact.{events_of};
    ghost use Rattle.gitconf_items.specs.EventProps.{AreWithin};
    ghost use Rattle.gitconf_items.specs.ShownEvents.{shown_event};
    ghost use Rattle.gitconf_items.specs.Sections.{is_header_event, sections_of};
    ghost use Rattle.gitconf_parse.specs.EventIters.{sections_left};

    /// The sections of a slice of events. The events' spans are offsets of `buffer`, and their copies are in `copies`.
    pub fn over(buffer: &'a [u8], copies: &'a [u8], events: EventSlice<'a>) -> SectionIter<'a>
        requires { AreWithin buffer.now copies.now (events_of events) }
        ensures { sections_left result ≡ map (λ events. map (shown_event buffer.now copies.now) events) (sections_of is_header_event (events_of events.entry)) }
    {
        SectionIter {
            buffer,
            copies,
            events: events.split_front().1,
        }
    }
}

impl<'a> Iterator for SectionIter<'a> {
    type Item = SectionRef<'a>;

    ghost use Rattle.std.specs.Iterator.{YieldsFirstBy, item_count};
    ghost use Rattle.gitconf_parse.specs.EventIters.{shown_section, sections_left};

    ghost next_gives = { YieldsFirstBy shown_section sections_left };

    ghost remaining = { item_count sections_left };

    #[tactic(auto, using(crate::proofs::Cuts::cuts))]
    fn next(&mut self) -> Option<SectionRef<'a>> {
        let (section, others) = self.events.split_section()?;
        self.events = others;
        Some(SectionRef {
            buffer: self.buffer,
            copies: self.copies,
            events: section,
        })
    }
}
