//! The events of a whole text, in a buffer of their own.
ghost use Rattle.std.specs.Prelude.{◌<◌, ◌^◌, length, IfOk, IfErr, OnOk};
ghost use Rattle.gitconf_read.specs.Parsing.{IsRead};
ghost use Rattle.gitconf_read.specs.EventResult.{IsRefused};

mod filter;
mod iters;

use crate::grouping::grouped;
use crate::input::{check_len, copied, copied_with_room, refusal};
pub use filter::keeps_meaning;
use filter::kept_events;
use gitconf_items::event_ref::EventRef;
use gitconf_items::few::FewItems;
use gitconf_items::section_sink::SectionSink;
use gitconf_read::compact::EventVec;
use gitconf_read::error::Error;
use gitconf_read::reading::{ReadError, read};
use gitconf_text::NoMemory;
pub use iters::{EventIter, SectionIter, SectionRef};
use std::alloc::Global;
use std::marker::Model;

/// The events of a text, with the text.
#[derive(Debug)]
pub struct Events {
    buffer: Vec<u8>,
    /// The decoded subsections of the headers that need one.
    copies: Vec<u8>,
    events: EventVec,
    keeps_entries: bool,
}

impl Drop for Events {
    // By hand, so that each way out of a function is one call: a derived one is proved there part by part.
    fn drop(self) {
        drop(self.into_parts());
    }
}

impl Model for Events {
    ghost use Rattle.std.specs.Prelude.{map, length};
    ghost use Rattle.gitconf_items.specs.EventList.{EventList, EventsFit};
    ghost use Rattle.gitconf_items.specs.Events.{token_of};

    ghost Value = { EventList };

    ghost view = { λ e. record {
      tokens = map (token_of e.buffer.items) e.events;
      keeps_entries = e.keeps_entries;
      used = length e.buffer.items;
    } };

    ghost invariant = { λ e. EventsFit e.buffer.items e.copies.items e.events e.keeps_entries };
}

/// The events of a text that has a document.
fn events_of(alloc: Global, input: &[u8]) -> Result<EventVec, Error>
    ensures found { IfOk result (λ events. IsRead input.now events) }
    ensures fits { OnOk result (length input.now < 2 ^ 32) }
    ensures refused { IfErr result (IsRefused input.now) }
{
    check_len(input.len())?;
    let mut events = EventVec::new(alloc);
    match read(input, &mut events) {
        Ok(()) => Ok(events),
        Err(ReadError::Memory) => Err(Error::memory()),
        Err(ReadError::Fault(fault)) => Err(refusal(alloc, input, fault)),
    }
}

impl Events {
    ghost use Rattle.std.specs.Prelude.{◌≡◌, ◌<◌, ◌^◌, ◌++◌, [], ℕ, List, Bool, true, length, map, IfOk, IfErr, IsNone, OnOk};
    ghost use Rattle.std.specs.Option.{ForSome, ForNone};
    ghost use Rattle.gitconf_text.specs.Part.{Part};
    ghost use Rattle.gitconf_text.specs.Document.{IsText};
    ghost use Rattle.gitconf_text.specs.Token.{tokens_of};
    ghost use Rattle.gitconf_items.specs.EventRef.{Shown, shown};
    ghost use Rattle.gitconf_items.specs.ShownEvents.{shown_token};
    ghost use Rattle.gitconf_items.specs.Sections.{is_shown_header, front_of, sections_of};
    ghost use Rattle.gitconf_parse.specs.EventIters.{events_left, sections_left};
    ghost use Rattle.gitconf_items.specs.EventList.{EventsFit, IsParsed, IsWhole, IsFiltered, IsSelected};
    ghost use Rattle.gitconf_items.specs.Events.{token_of};
    ghost use Rattle.gitconf_items.specs.Items.{tokens_of_items};
    ghost use Rattle.gitconf_items.specs.ItemsFit.{AreItemsWithin};

    /// The text, the decoded subsections, and the events.
    fn into_parts(self) -> (Vec<u8>, Vec<u8>, EventVec)
        ensures fits { EventsFit result.0.items result.1.items result.2 self.keeps_entries }
        ensures tokens { map (token_of result.0.items) result.2 ≡ self.tokens }
        ensures used { length result.0.items ≡ self.used }
    {
        let Events {
            buffer,
            copies,
            events,
            keeps_entries: _,
        } = self;
        (buffer, copies, events)
    }

    /// All events of a text.
    fn whole(alloc: Global, input: &[u8]) -> Result<Events, Error>
        ensures whole { IfOk result (IsWhole input.now) }
        ensures fits { OnOk result (length input.now < 2 ^ 32) }
        ensures refused { IfErr result (IsRefused input.now) }
    {
        let events = events_of(alloc, input)?;
        let buffer = copied_with_room(alloc, input)?;
        let mut copies = Vec::new(alloc);
        let events = events.decoded(&buffer, &mut copies)?;
        Ok(Events {
            buffer,
            copies,
            events,
            keeps_entries: true,
        })
    }

    /// Those that are headers or that the filter keeps.
    fn filtered(self, alloc: Global, filter: fn(&EventRef<'_>) -> bool) -> Result<Events, NoMemory>
        requires callable { IsAlwaysCallable filter }
        requires entries { self.keeps_entries ≡ true }
        // With a filter whose result depends only on what it is shown.
        ensures filtered { IfOk result (λ e. (p : Shown → Bool) → ((r : _) (b : Bool) → post filter r b → b ≡ p (shown r.now)) → IsFiltered p self e) }
        // With any filter.
        ensures selected { IfOk result (λ e. (input : List ℕ) → IsSelected input self → IsSelected input e) }
    {
        let (buffer, copies, all) = self.into_parts();
        let (events, keeps_entries) = kept_events(alloc, &buffer, &copies, all.as_slice(), filter)?;
        Ok(Events {
            buffer,
            copies,
            events,
            keeps_entries,
        })
    }

    /// The events of a text, all of them or those that `filter` keeps. Headers are always kept.
    ///
    /// The text is read once. The filter is asked about each other event, in order, once the whole text was read.
    /// The result has a copy of the text.
    ///
    /// # Errors
    ///
    /// E1 if the text has no document, with the line and the data from where it can't be read on; E2 for more than
    /// 4294967295 bytes; E27 when out of memory.
    #[tactic(auto, using(crate::proofs::Filtering::filtering, gitconf_items::proofs::Selections::whole_selected))]
    pub fn from_bytes(
        alloc: Global,
        input: &[u8],
        filter: Option<fn(&EventRef<'_>) -> bool>,
    ) -> Result<Events, Error>
        requires { ForSome filter (λ f. IsAlwaysCallable f) }
        // With a filter whose result depends only on what it is shown; without a filter all are kept.
        ensures parsed { IfOk result (λ events. (p : Shown → Bool) → ForSome filter (λ f. (e : _) (b : Bool) → post f e b → b ≡ p (shown e.now))
            → ForNone filter ((s : Shown) → p s ≡ true) → IsParsed p input.now events) }
        ensures whole { IsNone filter → IfOk result (IsWhole input.now) }
        // With any filter.
        ensures selected { IfOk result (IsSelected input.now) }
        ensures fits { OnOk result (length input.now < 2 ^ 32) }
        ensures documented { IfOk result (λ _. (parts : List Part) × IsText input.now parts) }
        ensures refused { IfErr result (IsRefused input.now) }
    {
        let events = Events::whole(alloc, input)?;
        match filter {
            None => Ok(events),
            Some(filter) => Ok(events.filtered(alloc, filter)?),
        }
    }

    /// All events of a text, as `from_bytes` without a filter gives them.
    ///
    /// # Errors
    ///
    /// Those of `from_bytes`.
    #[tactic(auto, using(gitconf_items::proofs::Selections::whole_selected))]
    pub fn from_str(alloc: Global, input: &str) -> Result<Events, Error>
        ensures parsed { IfOk result (IsWhole input.now) }
        ensures selected { IfOk result (IsSelected input.now) }
        ensures refused { IfErr result (IsRefused input.now) }
    {
        Events::whole(alloc, input.as_bytes())
    }

    /// The text, and the kept items before its first header. The sections are handed over in order. All spans are
    /// offsets of the text, and the tokens of both are those that were kept.
    ///
    /// It requires that these are the tokens of some parts of a text; they are if `keeps_entries` is true, by
    /// `laws::kept_entries_make_items`. One pass, and no byte is copied; memory is taken as by `loading::read_sections`.
    ///
    /// # Errors
    ///
    /// Out of memory. Some sections may have been handed over.
    #[tactic(auto, using(gitconf_items::proofs::GroupLaws::tokens_items))]
    pub fn into_sections<S: SectionSink>(
        self,
        alloc: Global,
        sections: &mut S,
    ) -> Result<(Vec<u8>, FewItems), NoMemory>
        requires entries { (parts : List Part) × (self.tokens ≡ tokens_of parts) }
        requires keeps { (buffer : List ℕ) → (first : S) × S.keeps buffer first sections.old }
        requires none { (buffer : List ℕ) → S.tokens buffer sections.old ≡ [] }
        ensures tokens { IfOk result (λ r. tokens_of_items r.0.items r.1.items ++ S.tokens r.0.items sections.new ≡ self.tokens) }
        ensures within { IfOk result (λ r. AreItemsWithin (length r.0.items) r.1.items) }
        ensures keeps { IfOk result (λ r. (first : S) → S.keeps r.0.items first sections.old → S.keeps r.0.items first sections.new) }
        ensures used { IfOk result (λ r. length r.0.items ≡ self.used) }
        ensures fits { IfOk result (λ r. length r.0.items < 2 ^ 32) }
    {
        let (buffer, _, events) = self.into_parts();
        let front = grouped(alloc, &buffer, events.as_slice(), sections)?;
        Ok((buffer, front))
    }

    /// All events in the order of the text.
    pub fn iter(&self) -> EventIter<'_>
        ensures { events_left result ≡ map shown_token self.now.tokens }
    {
        EventIter::over(&self.buffer, &self.copies, self.events.as_slice())
    }

    /// The events before the first header.
    pub fn frontmatter(&self) -> EventIter<'_>
        ensures { events_left result ≡ front_of is_shown_header (map shown_token self.now.tokens) }
    {
        let front = self.events.as_slice().split_front().0;
        EventIter::over(&self.buffer, &self.copies, front)
    }

    /// The sections in the order of the text.
    pub fn sections(&self) -> SectionIter<'_>
        ensures { sections_left result ≡ sections_of is_shown_header (map shown_token self.now.tokens) }
    {
        SectionIter::over(&self.buffer, &self.copies, self.events.as_slice())
    }

    /// Whether the filter kept every name, separator, value and piece of a value.
    pub fn keeps_entries(&self) -> bool
        ensures value { result ≡ self.now.keeps_entries }
        // What was kept are tokens of a text: all headers, and, if the result is true, all that make entries.
        ensures text { (input : List ℕ) × IsSelected input self.now }
    {
        self.keeps_entries
    }

    /// A copy of the events, with a copy of the text.
    ///
    /// # Errors
    ///
    /// Out of memory.
    pub fn try_clone(&self) -> Result<Events, NoMemory>
        ensures { IfOk result (λ events. events ≡ self.now) }
    {
        let alloc = *self.buffer.allocator();
        let buffer = copied_with_room(alloc, &self.buffer)?;
        let copies = copied(alloc, &self.copies)?;
        let events = self.events.try_clone()?;
        Ok(Events {
            buffer,
            copies,
            events,
            keeps_entries: self.keeps_entries,
        })
    }
}
