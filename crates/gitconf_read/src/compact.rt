//! Events in 12 bytes each: headers, which take more, are in a list of their own.
ghost use Rattle.std.specs.Prelude.{◌≡◌, ◌∷◌, ◌++◌, [], true, ◌<◌, ◌≤◌, MatchOption, get_or, length, map, take, drop, OnOk, IfOk};
ghost use Rattle.gitconf_read.specs.Compact as spec;
ghost use Rattle.gitconf_read.specs.Compact.{no_header, is_kept_header};
ghost use Rattle.gitconf_items.specs.Sections.{front_of, sections_of, is_cut};

mod decode;

use decode::decode_headers;
use gitconf_items::event::{Event, Header, Span};
use gitconf_text::NoMemory;
use std::alloc::Global;
use std::marker::Model;

/// A token of a text, as a list of events keeps it.
#[derive(Clone, Copy, Debug)]
pub enum Compact {
    Comment { tag: u8, text: Span },
    /// A header, by its place among the headers.
    SectionHeader(u32),
    SectionValueName(Span),
    Value(Span),
    Newline(Span),
    ValueNotDone(Span),
    ValueDone(Span),
    Whitespace(Span),
    KeyValueSeparator,
}

const NO_HEADER: Header = Header {
    name: Span { start: 0, len: 0 },
    separator: None,
    subsection: None,
    decoded: None,
};

/// The header at a place.
#[inline(always)]
fn header_at(headers: &[Header], place: u32) -> Header
    ensures { result ≡ get_or headers.now place no_header }
{
    match headers.get(place as usize) {
        Some(header) => *header,
        None => NO_HEADER,
    }
}

/// The event that is kept in this form.
#[inline(always)]
fn event_at(headers: &[Header], kept: Compact) -> Event
    ensures { result ≡ spec.event_at headers.now kept }
{
    match kept {
        Compact::Comment { tag, text } => Event::Comment { tag, text },
        Compact::SectionHeader(place) => Event::SectionHeader(header_at(headers, place)),
        Compact::SectionValueName(span) => Event::SectionValueName(span),
        Compact::Value(span) => Event::Value(span),
        Compact::Newline(span) => Event::Newline(span),
        Compact::ValueNotDone(span) => Event::ValueNotDone(span),
        Compact::ValueDone(span) => Event::ValueDone(span),
        Compact::Whitespace(span) => Event::Whitespace(span),
        Compact::KeyValueSeparator => Event::KeyValueSeparator,
    }
}

/// Whether a header is kept in this form.
#[inline(always)]
fn is_header(kept: Compact) -> bool
    ensures { result ≡ is_kept_header kept }
{
    matches!(kept, Compact::SectionHeader(_))
}

/// How many come before the first header.
fn front_len(list: &[Compact]) -> usize
    ensures within { result ≤ length list.now }
    ensures front { take result list.now ≡ front_of is_kept_header list.now }
    ensures rest { sections_of is_kept_header (drop result list.now) ≡ sections_of is_kept_header list.now }
    ensures cut { is_cut is_kept_header (drop result list.now) ≡ true }
{
    let mut len = 0;
    while len < list.len() && !is_header(list[len]) {
        len += 1;
    }
    len
}

/// Events one after the other.
#[derive(Clone, Copy, Debug)]
pub struct EventSlice<'e> {
    list: &'e [Compact],
    headers: &'e [Header],
}

impl<'e> EventSlice<'e> {
    ghost use Rattle.std.specs.Prelude.{◌≡◌, ◌∷◌, ◌++◌, ◌+◌, [], true, ◌≤◌, MatchOption, length, take, drop};
    ghost use Rattle.gitconf_read.specs.Compact.{events_of, IsSectionFirst};
    ghost use Rattle.gitconf_items.specs.Sections.{front_of, sections_of, is_header_event, is_cut};

    /// How many events there are.
    #[inline(always)]
    pub fn len(self) -> usize
        ensures { result ≡ length (events_of self.entry) }
    {
        self.list.len()
    }

    /// The first event, and those after it; `None` if there is none.
    #[inline(always)]
    pub fn split_first(self) -> Option<(Event, EventSlice<'e>)>
        ensures cases { MatchOption result (events_of self.entry ≡ []) (λ r. events_of self.entry ≡ r.0 ∷ events_of r.1) }
        ensures fewer { MatchOption result (length (events_of self.entry) ≡ 0) (λ r. length (events_of self.entry) ≡ 1 + length (events_of r.1)) }
    {
        let (first, behind) = self.list.split_first()?;
        let behind = EventSlice {
            list: behind,
            headers: self.headers,
        };
        Some((event_at(self.headers, *first), behind))
    }

    /// The first `count` events, and those after them.
    pub fn split_at(self, count: usize) -> (EventSlice<'e>, EventSlice<'e>)
        requires { count ≤ length (events_of self) }
        ensures front { events_of result.0 ≡ take count (events_of self.entry) }
        ensures behind { events_of result.1 ≡ drop count (events_of self.entry) }
    {
        let (front, behind) = self.list.split_at(count);
        let front = EventSlice {
            list: front,
            headers: self.headers,
        };
        let behind = EventSlice {
            list: behind,
            headers: self.headers,
        };
        (front, behind)
    }

    /// The events up to the first header, and those from it on.
    pub fn split_front(self) -> (EventSlice<'e>, EventSlice<'e>)
        ensures joined { events_of result.0 ++ events_of result.1 ≡ events_of self.entry }
        ensures front { events_of result.0 ≡ front_of is_header_event (events_of self.entry) }
        ensures rest { sections_of is_header_event (events_of result.1) ≡ sections_of is_header_event (events_of self.entry) }
        ensures cut { is_cut is_header_event (events_of result.1) ≡ true }
    {
        self.split_at(front_len(self.list))
    }

    /// Splits off the first event, with those after it up to the next header. Returns these, and the rest; `None` if there is no event.
    pub fn split_section(self) -> Option<(EventSlice<'e>, EventSlice<'e>)>
        ensures { MatchOption result (events_of self.entry ≡ []) (λ r. IsSectionFirst (events_of self.entry) (events_of r.0) (events_of r.1)) }
    {
        let (_, behind) = self.list.split_first()?;
        Some(self.split_at(front_len(behind) + 1))
    }
}

/// A list of events, to which events are added at its end.
#[derive(Debug, Drop)]
pub struct EventVec {
    list: Vec<Compact>,
    headers: Vec<Header>,
}

impl Model for EventVec {
    ghost use Rattle.std.specs.Prelude.{List, length};
    ghost use Rattle.gitconf_read.specs.Compact.{events_in, IsCompact};
    ghost use Rattle.gitconf_items.specs.declared.event.Event.{Event};

    ghost Value = { List Event };

    ghost view = { λ e. events_in e.headers.items e.list.items };

    ghost invariant = { λ e. IsCompact (length e.headers.items) e.list.items };
}

impl EventVec {
    ghost use Rattle.std.specs.Prelude.{◌≡◌, ◌∷◌, [], ◌++◌, length, map, OnOk, IfOk};
    ghost use Rattle.std.specs.List.{AllByRecursion};
    ghost use Rattle.gitconf_read.specs.Compact.{events_of};
    ghost use Rattle.gitconf_items.specs.Events.{token_of, EventFits};
    ghost use Rattle.gitconf_items.specs.ShownEvents.{IsShown};

    /// No events. Takes no memory.
    pub fn new(alloc: Global) -> EventVec
        ensures { result ≡ [] }
    {
        EventVec {
            list: Vec::new(alloc),
            headers: Vec::new(alloc),
        }
    }

    /// All events.
    #[inline(always)]
    pub fn as_slice(&self) -> EventSlice<'_>
        ensures { events_of result ≡ self.now }
    {
        EventSlice {
            list: &self.list,
            headers: &self.headers,
        }
    }

    /// Adds an event after the others.
    ///
    /// # Errors
    ///
    /// Out of memory, or there would be more than 4294967295 headers.
    #[inline(always)]
    pub fn push(&mut self, event: Event) -> Result<(), NoMemory>
        ensures { OnOk result (self.new ≡ self.old ++ event ∷ []) }
    {
        let kept = match event {
            Event::Comment { tag, text } => Compact::Comment { tag, text },
            Event::SectionHeader(header) => return self.push_header(header),
            Event::SectionValueName(span) => Compact::SectionValueName(span),
            Event::Value(span) => Compact::Value(span),
            Event::Newline(span) => Compact::Newline(span),
            Event::ValueNotDone(span) => Compact::ValueNotDone(span),
            Event::ValueDone(span) => Compact::ValueDone(span),
            Event::Whitespace(span) => Compact::Whitespace(span),
            Event::KeyValueSeparator => Compact::KeyValueSeparator,
        };
        self.list.push(kept)?;
        Ok(())
    }

    fn push_header(&mut self, header: Header) -> Result<(), NoMemory>
        ensures { OnOk result (self.new ≡ self.old ++ Event.SectionHeader header ∷ []) }
    {
        let place = self.headers.as_slice().len();
        if place > u32::MAX as usize {
            return Err(NoMemory);
        }
        self.list.reserve(1)?;
        self.headers.push(header)?;
        self.list
            .push(Compact::SectionHeader(place as u32))
            .unwrap();
        Ok(())
    }

    /// The same events, with the subsections decoded. Each header has the place of its subsection's decoded copy, if that isn't what is
    /// spelled.
    ///
    /// # Errors
    ///
    /// Out of memory for a copy.
    pub fn decoded(self, buffer: &[u8], copies: &mut Vec<u8>) -> Result<EventVec, NoMemory>
        requires { AllByRecursion (EventFits (length buffer.now)) self }
        ensures tokens { IfOk result (λ r. map (token_of buffer.now) r ≡ map (token_of buffer.now) self) }
        ensures shown { IfOk result (AllByRecursion (IsShown buffer.now copies.new.items)) }
    {
        let list = self.list;
        let mut headers = self.headers;
        decode_headers(buffer, &mut headers, copies)?;
        Ok(EventVec { list, headers })
    }

    /// A copy of the events.
    ///
    /// # Errors
    ///
    /// Out of memory.
    pub fn try_clone(&self) -> Result<EventVec, NoMemory>
        ensures { IfOk result (λ events. events ≡ self.now) }
    {
        let list = self.list.clone()?;
        let headers = self.headers.clone()?;
        Ok(EventVec { list, headers })
    }
}
