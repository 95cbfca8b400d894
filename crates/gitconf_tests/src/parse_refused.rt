//! Calls on events that no command makes, each with one of its allocations refused in turn.

use crate::events::{read, written};
use crate::shim::{Outcome, begin, each_refused, was_refused};
use crate::texts::{TEXT, WRITTEN};
use gitconf_items::event_ref::EventRef;
use gitconf_items::items::{Keep, Section};
use gitconf_parse::events::Events;
use gitconf_parse::laws::kept_entries_make_items;
use gitconf_parse::loading::read_sections;
use gitconf_text::NoMemory;
use std::alloc::Global;
use std::str;
use std::test::Fail;

/// Whether these are the events of the text.
fn are_whole(alloc: Global, events: &Events) -> Result<bool, Fail> {
    Ok(written(alloc, events.iter())?.as_slice() == WRITTEN)
}

fn a_text_read(alloc: Global) -> Result<Outcome, Fail> {
    let text = str::from_utf8(TEXT)?;
    begin(alloc)?;
    let answer = Events::from_str(alloc, text);
    let refused = was_refused(alloc);
    let fits = match answer {
        Ok(events) => are_whole(alloc, &events)?,
        Err(error) => {
            refused
                && error.number() == 27
                && error.line_number() == 1
                && error.remaining_data().is_empty()
        }
    };
    Ok(Outcome { refused, fits })
}

fn events_copied(alloc: Global) -> Result<Outcome, Fail> {
    let events = read(alloc, TEXT)?;
    begin(alloc)?;
    let answer = events.try_clone();
    let refused = was_refused(alloc);
    let fits = match answer {
        Ok(copy) => are_whole(alloc, &copy)?,
        Err(NoMemory) => refused && are_whole(alloc, &events)?,
    };
    Ok(Outcome { refused, fits })
}

#[test]
fn events(rt: HostRuntime) -> Result<(), Fail> {
    each_refused(rt.alloc(), "a text that is read", a_text_read)?;
    each_refused(rt.alloc(), "a copy of events", events_copied)
}

/// How many items are in all sections.
fn items_in(sections: &[Section]) -> usize {
    let mut count: usize = 0;
    for section in sections {
        count = count.saturating_add(section.items.len());
    }
    count
}

fn events_handed_over(alloc: Global) -> Result<Outcome, Fail> {
    kept_entries_make_items();
    let events = Events::from_bytes(alloc, TEXT, None)?;
    let mut sections: Vec<Section> = Vec::new(alloc);
    begin(alloc)?;
    let answer = events.into_sections(alloc, &mut sections);
    let refused = was_refused(alloc);
    let fits = match answer {
        Ok((buffer, front)) => {
            buffer.as_slice() == TEXT && front.len() == 6 && items_in(&sections) == 25
        }
        Err(NoMemory) => refused,
    };
    Ok(Outcome { refused, fits })
}

fn sections_read(alloc: Global) -> Result<Outcome, Fail> {
    let mut sections: Vec<Section> = Vec::new(alloc);
    begin(alloc)?;
    let answer = read_sections(alloc, TEXT, Keep::All, &mut sections);
    let refused = was_refused(alloc);
    let fits = match answer {
        Ok(front) => front.len() == 6 && items_in(&sections) == 25,
        Err(refusal) => refused && refusal.is_memory(),
    };
    Ok(Outcome { refused, fits })
}

#[test]
fn items(rt: HostRuntime) -> Result<(), Fail> {
    each_refused(rt.alloc(), "events made into items", events_handed_over)?;
    each_refused(rt.alloc(), "sections of a text", sections_read)
}

fn a_header_written(alloc: Global) -> Result<Outcome, Fail> {
    let header = EventRef::SectionHeader {
        name: b"remote",
        separator: Some(b" "),
        subsection_name: Some(b"a \"longer\" name"),
    };
    begin(alloc)?;
    let answer = header.to_bstring(alloc);
    let refused = was_refused(alloc);
    let fits = match answer {
        Ok(text) => text.as_bytes() == b"[remote \"a \\\"longer\\\" name\"]".as_slice(),
        Err(NoMemory) => refused,
    };
    Ok(Outcome { refused, fits })
}

#[test]
fn headers(rt: HostRuntime) -> Result<(), Fail> {
    each_refused(rt.alloc(), "a header that is written", a_header_written)
}
