//! Events that a filter keeps.
ghost use Rattle.std.specs.Prelude.{◌≡◌, ◌++◌, ◌∷◌, [], ℕ, Bool, true, List, map, if◌then◌else◌, IfOk, OnOk};
ghost use Rattle.std.specs.List.{AllByRecursion};
ghost use Rattle.gitconf_read.specs.Compact.{events_of};
ghost use Rattle.gitconf_items.specs.EventRef.{Shown, shown};
ghost use Rattle.gitconf_items.specs.Events.{token_of};
ghost use Rattle.gitconf_items.specs.ShownEvents.{IsShown};
ghost use Rattle.gitconf_items.specs.TokenDocument as spec;
ghost use Rattle.gitconf_items.specs.EventList.{is_entry_token, is_header_token, keeps_token, IsKept, IsSelection};

use gitconf_items::event::Event;
use gitconf_items::event_ref::EventRef;
use gitconf_items::lend::event_ref;
use gitconf_read::compact::{EventSlice, EventVec};
use gitconf_text::NoMemory;
use std::alloc::Global;

/// Whether an event is a header or the filter keeps it.
fn keeps(buffer: &[u8], copies: &[u8], event: &Event, filter: fn(&EventRef<'_>) -> bool) -> bool
    requires shown { IsShown buffer.now copies.now event.now }
    requires callable { IsAlwaysCallable filter }
    ensures exact { (p : Shown → Bool) → ((e : _) (b : Bool) → post filter e b → b ≡ p (shown e.now)) → result ≡ keeps_token p (token_of buffer.now event.now) }
    ensures header { is_header_token (token_of buffer.now event.now) ≡ true → result ≡ true }
{
    matches!(event, Event::SectionHeader(_)) || filter(&event_ref(buffer, copies, event))
}

/// The events that are headers or that the filter keeps, in order. The result also says whether each name, separator and
/// value is among them.
pub fn kept_events(
    alloc: Global,
    buffer: &[u8],
    copies: &[u8],
    events: EventSlice<'_>,
    filter: fn(&EventRef<'_>) -> bool,
) -> Result<(EventVec, bool), NoMemory>
    requires shown { AllByRecursion (IsShown buffer.now copies.now) (events_of events) }
    requires callable { IsAlwaysCallable filter }
    // With a filter whose result depends only on what it is shown.
    ensures kept { IfOk result (λ kept. (p : Shown → Bool) → ((e : _) (b : Bool) → post filter e b → b ≡ p (shown e.now))
        → IsKept p buffer.now (events_of events.entry) kept.0 kept.1) }
    // With any filter.
    ensures selected { IfOk result (λ kept. IsSelection kept.1 (map (token_of buffer.now) (events_of events.entry)) (map (token_of buffer.now) kept.0)) }
    ensures fits { IfOk result (λ kept. AllByRecursion (IsShown buffer.now copies.now) kept.0) }
{
    let mut kept = EventVec::new(alloc);
    let mut entries = true;
    let mut left = events;
    while let Some((event, behind)) = left.split_first() {
        let keep = keeps(buffer, copies, &event, filter);
        push_if(&mut kept, event, keep)?;
        entries &= !is_entry(&event) | keep;
        left = behind;
    }
    Ok((kept, entries))
}

fn push_if(events: &mut EventVec, event: Event, keep: bool) -> Result<(), NoMemory>
    ensures { OnOk result (events.new ≡ events.old ++ (if keep then event ∷ [] else [])) }
{
    if keep {
        events.push(event)?;
    }
    Ok(())
}

/// Whether the event is a name, a separator, or a value or a piece of one.
fn is_entry(event: &Event) -> bool
    ensures { (buffer : List ℕ) → result ≡ is_entry_token (token_of buffer event.now) }
{
    matches!(
        event,
        Event::SectionValueName(_)
            | Event::Value(_)
            | Event::ValueNotDone(_)
            | Event::ValueDone(_)
            | Event::KeyValueSeparator
    )
}

/// A filter that drops blanks, line endings and comments. It keeps everything that has a meaning.
pub fn keeps_meaning(event: &EventRef<'_>) -> bool
    ensures { result ≡ spec.keeps_meaning (shown event.now) }
{
    !matches!(
        event,
        EventRef::Comment { .. } | EventRef::Newline(_) | EventRef::Whitespace(_)
    )
}
