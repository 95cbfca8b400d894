//! Sections that are found by a key with a filter, and walks over all of them with their numbers and with what is held after each.

use crate::calls::{Told, all, file_of_two, is_api, is_local, is_refused};
use gitconf_tests::shim::{begin, was_refused};
use gix_config::File;
use gix_config::file::{ItemEvents, SectionRef};
use gix_config::lookup::existing;
use gix_config::parse::{EventIter, EventRef, Events};
use std::alloc::Global;
use std::test::Fail;

/// Whether a section of that name was found, or none if none is expected, or it is refused with that number.
fn is_found(
    found: &Result<Option<SectionRef<'_>>, existing::Error>,
    wanted: Result<Option<&[u8]>, u8>,
) -> Told {
    match (found, wanted) {
        (Ok(found), Ok(wanted)) => Some(name_of(found) == wanted),
        (Err(refusal), Err(number)) => is_refused(refusal, number),
        _ => Some(false),
    }
}

/// The name of the section, as it is spelled.
fn name_of<'a>(found: &Option<SectionRef<'a>>) -> Option<&'a [u8]> {
    match found {
        Some(section) => Some(section.header().name()),
        None => None,
    }
}

fn passing(file: &File) -> Told {
    all(&[
        is_found(&file.section_filter_by_key(b"a", is_api), Ok(Some(b"a"))),
        is_found(&file.section_filter_by_key(b"A", is_local), Ok(None)),
        is_found(&file.section_filter_by_key(b"b", is_api), Err(7)),
        is_found(&file.section_filter_by_key(b"a.k", is_api), Err(8)),
        is_found(&file.section_filter_by_key(b"\xff", is_api), Err(9)),
    ])
}

/// Whether each section comes with its own number, and the names are `a` and `A`.
fn are_numbered(file: &File) -> bool {
    let mut sections = file.sections_and_ids();
    let (Some((first, first_id)), Some((second, second_id))) = (sections.next(), sections.next())
    else {
        return false;
    };
    first.id() == first_id
        && second.id() == second_id
        && first_id != second_id
        && first_id.number() != second_id.number()
        && first.id().number() == first_id.number()
        && first.header().name() == b"a".as_slice()
        && second.header().name() == b"A".as_slice()
        && sections.next().is_none()
}

/// Whether sections are found and walked over, and no memory is taken.
fn are_found(alloc: Global, file: &File) -> Result<bool, Fail> {
    begin(alloc)?;
    let are_found = passing(file) == Some(true) && are_numbered(file);
    Ok(!was_refused(alloc) && are_found)
}

fn are_found_of_two(alloc: Global) -> Result<bool, Fail> {
    let file = file_of_two(alloc)?;
    are_found(alloc, &file)
}

#[test]
fn by_a_key_and_with_numbers(rt: HostRuntime) -> Result<(), Fail> {
    assert!(rt; are_found_of_two(rt.alloc())?);
    Ok(())
}

/// A file of one section, after which a comment and a line ending are held, and of another one.
fn file_with_held(alloc: Global) -> Result<File, Fail> {
    let other = File::try_from_bytes(alloc, b"# x\n[b]\n")?;
    appended(alloc, other)
}

fn appended(alloc: Global, other: File) -> Result<File, Fail> {
    let mut file = File::try_from_bytes(alloc, b"[a]\n")?;
    file.append(other)?;
    Ok(file)
}

/// Whether these are a comment `# x` and a line ending.
fn are_comment_and_end(held: ItemEvents<'_>) -> bool {
    let mut held = held;
    held.next()
        == Some(EventRef::Comment {
            tag: b'#',
            text: b" x",
        })
        && held.next() == Some(EventRef::Newline(b"\n"))
        && held.next().is_none()
}

/// Whether the comment and its line ending are held after the first section, and nothing after the second one.
fn are_held(file: &File) -> bool {
    let mut sections = file.sections_and_postmatter();
    let (Some((first, behind_first)), Some((second, behind_second))) = (
        sections.next(),
        sections.next(),
    ) else {
        return false;
    };
    let mut behind_second = behind_second;
    first.header().name() == b"a".as_slice()
        && are_comment_and_end(behind_first)
        && second.header().name() == b"b".as_slice()
        && behind_second.next().is_none()
        && sections.next().is_none()
}

/// Whether this takes no memory.
fn are_held_without_memory(alloc: Global, file: &File) -> Result<bool, Fail> {
    begin(alloc)?;
    let are_held = are_held(file);
    Ok(!was_refused(alloc) && are_held)
}

fn are_told(alloc: Global) -> Result<bool, Fail> {
    let file = file_with_held(alloc)?;
    are_held_without_memory(alloc, &file)
}

#[test]
fn with_what_is_held_behind(rt: HostRuntime) -> Result<(), Fail> {
    assert!(rt; are_told(rt.alloc())?);
    Ok(())
}

/// Whether these are the header `[a]` and a line ending.
fn are_header_and_end(events: EventIter<'_>) -> bool {
    let mut events = events;
    events.next()
        == Some(EventRef::SectionHeader {
            name: b"a",
            separator: None,
            subsection_name: None,
        })
        && events.next() == Some(EventRef::Newline(b"\n"))
        && events.next().is_none()
}

/// Whether the events of the first section are its header and what follows it.
fn are_walked(events: &Events) -> bool {
    match events.sections().next() {
        Some(section) => are_header_and_end(section.iter()),
        None => false,
    }
}

/// The events of a section that was read, including its header.
#[test]
fn events_of_a_section(rt: HostRuntime) -> Result<(), Fail> {
    let events = Events::from_bytes(rt.alloc(), b"# c\n[a]\n[b]", None)?;
    assert!(rt; are_walked(&events));
    Ok(())
}
