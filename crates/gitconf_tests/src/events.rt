//! Events that are walked over and copied.

use crate::shim::{begin, was_refused};
use crate::texts::{TEXT, WRITTEN};
use gitconf_items::event_ref::EventRef;
use gitconf_parse::events::{EventIter, Events};
use std::alloc::Global;
use std::str;
use std::test::Fail;

/// The events of a text.
pub fn read(alloc: Global, text: &[u8]) -> Result<Events, Fail> {
    Ok(Events::from_bytes(alloc, text, None)?)
}

/// What the events write, one after the other.
pub fn written(alloc: Global, events: EventIter<'_>) -> Result<Vec<u8>, Fail> {
    let mut out = Vec::new(alloc);
    for event in events {
        event.write_to(&mut out)?;
    }
    Ok(out)
}

/// What the events of the front write, and then for each section its header, and between `<` and `>` its body.
fn written_parts(alloc: Global, events: &Events) -> Result<Vec<u8>, Fail> {
    let mut out = written(alloc, events.frontmatter())?;
    for section in events.sections() {
        section.header().write_to(&mut out)?;
        out.push(b'<')?;
        out.extend_from_slice(&written(alloc, section.body())?)?;
        out.push(b'>')?;
    }
    Ok(out)
}

fn no_values(event: &EventRef<'_>) -> bool {
    !matches!(*event, EventRef::Value(_))
}

/// Whether the events and a copy of them write these parts, and the copy keeps all entries.
fn are_written(alloc: Global, text: &[u8], parts: &[u8]) -> Result<bool, Fail> {
    let events = read(alloc, text)?;
    let copy = events.try_clone()?;
    Ok(
        copy.keeps_entries()
            && written_parts(alloc, &events)?.as_slice() == parts
            && written_parts(alloc, &copy)?.as_slice() == parts,
    )
}

/// Whether a copy of the events that are left without values keeps all entries.
fn is_kept_without_values(alloc: Global, text: &[u8]) -> Result<bool, Fail> {
    let filtered = Events::from_bytes(alloc, text, Some(no_values))?;
    Ok(filtered.try_clone()?.keeps_entries())
}

/// A text, and what its events write by parts.
static ROWS: [(&[u8], &[u8]); 7] = [
    (b"", b""),
    (b"# c", b"# c"),
    (b"[a][b][a]", b"[a]<>[b]<>[a]<>"),
    (b"j\n[a] k [b \"\\x\"]# c", b"j\n[a]< k >[b \"x\"]<# c>"),
    (b"[a]\r\nk = v\\\nw", b"[a]<\r\nk = v\\\nw>"),
    (b"[a]\nk = v", b"[a]<\nk = v>"),
    (b"x=0\n[A \"B\"]\n[c.D] e", b"x=0\n[A \"B\"]<\n>[c.d]< e>"),
];

#[test]
fn events_are_cut_at_headers_and_copied(rt: HostRuntime) -> Result<(), Fail> {
    for (text, parts) in ROWS.iter() {
        assert!(rt; are_written(rt.alloc(), text, parts)?);
    }
    Ok(())
}

/// What is left without values says the same of itself as its copy does. Rows say which texts lose an entry so.
#[test]
fn a_copy_of_events_that_are_left(rt: HostRuntime) -> Result<(), Fail> {
    assert!(rt; is_kept_without_values(rt.alloc(), b"[a]\r\nk = v\\\nw")?);
    assert!(rt; !is_kept_without_values(rt.alloc(), b"[a]\nk = v")?);
    Ok(())
}

/// Characters are read as their bytes are.
#[test]
fn characters(rt: HostRuntime) -> Result<(), Fail> {
    let events = Events::from_str(rt.alloc(), str::from_utf8(TEXT)?)?;
    assert!(rt; written(rt.alloc(), events.iter())?.as_slice() == WRITTEN);
    Ok(())
}

/// And refused as their bytes are.
#[test]
fn refused_characters(rt: HostRuntime) {
    let told = Events::from_str(rt.alloc(), "[a] k$rest of line").err();
    let again = Events::from_bytes(rt.alloc(), b"[a] k$rest of line", None).err();
    assert!(rt; told.is_some() && told == again);
}

/// How many events are left. A loop, since `count` requires that the number fits, which isn't known of events here.
fn number_of(events: EventIter) -> usize {
    let mut number: usize = 0;
    for _ in events {
        number = number.saturating_add(1);
    }
    number
}

/// How many events come before the first section, how many in all sections, and whether all entries are among them.
fn counts(events: &Events) -> (usize, usize, bool) {
    let mut in_sections: usize = 0;
    for section in events.sections() {
        in_sections = in_sections.saturating_add(number_of(section.body()));
    }
    (
        number_of(events.frontmatter()),
        in_sections,
        events.keeps_entries(),
    )
}

/// Looking at events takes no memory.
#[test]
fn events_looked_at(rt: HostRuntime) -> Result<(), Fail> {
    let events = read(rt.alloc(), TEXT)?;
    begin(rt.alloc())?;
    let counts = counts(&events);
    assert!(rt; !was_refused(rt.alloc()));
    assert!(rt; counts == (10, 48, true));
    Ok(())
}
