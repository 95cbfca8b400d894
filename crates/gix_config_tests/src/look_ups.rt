//! Lookups of texts by a key, with a filter, and with their sections.

use crate::calls::{KEY, Told, all, are_texts, is_api, is_local, is_refused, is_user, look_up};
use bstr::BString;
use gix_config::file::SectionRef;
use gix_config::lookup::existing;
use gix_config::{File, NoMemory};
use std::test::Fail;

/// Whether these texts were found, or nothing if none is expected.
fn are_all(found: &Result<Option<Vec<BString>>, NoMemory>, wanted: &[&[u8]]) -> Told {
    match found {
        Ok(Some(found)) => Some(are_texts(found, wanted)),
        Ok(None) => Some(wanted.is_empty()),
        Err(NoMemory) => None,
    }
}

fn strings(file: &File) -> Told {
    all(&[
        are_all(&file.strings_filter("a.k", is_api), &[b"0"]),
        are_all(&file.strings_filter("a.k", is_local), &[]),
        are_all(&file.strings_filter_by("A", None, "K", is_user), &[b"2"]),
        are_all(&file.strings_filter_by("a", None, "k", is_local), &[]),
    ])
}

/// Whether this is the text, or it is refused with that number.
fn is_raw(found: &Result<BString, existing::Error>, wanted: Result<&[u8], u8>) -> Told {
    match (found, wanted) {
        (Ok(text), Ok(wanted)) => Some(text.as_bytes() == wanted),
        (Err(refusal), Err(number)) => is_refused(refusal, number),
        (Err(refusal), Ok(_)) => is_refused(refusal, 0),
        (Ok(_), Err(_)) => Some(false),
    }
}

fn raw(file: &File) -> Told {
    all(&[
        is_raw(&file.raw_value(KEY), Ok(b"2")),
        is_raw(&file.raw_value_filter(KEY, is_api), Ok(b"0")),
        is_raw(&file.raw_value_filter(KEY, is_local), Err(9)),
        is_raw(&file.raw_value_filter_by("A", None, "K", is_api), Ok(b"0")),
        is_raw(&file.raw_value_filter_by("b", None, "k", is_api), Err(7)),
    ])
}

/// Whether these are the texts, or it is refused with that number.
fn are_raw(found: &Result<Vec<BString>, existing::Error>, wanted: Result<&[&[u8]], u8>) -> Told {
    match (found, wanted) {
        (Ok(texts), Ok(wanted)) => Some(are_texts(texts, wanted)),
        (Err(refusal), Err(number)) => is_refused(refusal, number),
        (Err(refusal), Ok(_)) => is_refused(refusal, 0),
        (Ok(_), Err(_)) => Some(false),
    }
}

fn raws(file: &File) -> Told {
    all(&[
        are_raw(&file.raw_values(KEY), Ok(&[b"0", b"2"])),
        are_raw(&file.raw_values_filter(KEY, is_user), Ok(&[b"2"])),
        are_raw(&file.raw_values_filter(KEY, is_local), Err(9)),
        are_raw(
            &file.raw_values_filter_by("A", None, "K", is_api),
            Ok(&[b"0"]),
        ),
        are_raw(&file.raw_values_filter_by("b", None, "k", is_api), Err(7)),
    ])
}

/// A text, and its section.
type WithSection<'a> = (BString, SectionRef<'a>);

/// Whether this is the text and the name of its section, as it is spelled there.
fn is_with_section(found: &WithSection<'_>, text: &[u8], name: &[u8]) -> bool {
    let (found, section) = found;
    found.as_bytes() == text && section.header().name() == name
}

/// The same for what was found, or whether it is refused with that number.
fn is_raw_with_section(
    found: &Result<WithSection<'_>, existing::Error>,
    wanted: Result<(&[u8], &[u8]), u8>,
) -> Told {
    match (found, wanted) {
        (Ok(found), Ok((text, name))) => Some(is_with_section(found, text, name)),
        (Err(refusal), Err(number)) => is_refused(refusal, number),
        (Err(refusal), Ok(_)) => is_refused(refusal, 0),
        (Ok(_), Err(_)) => Some(false),
    }
}

fn raw_with_section(file: &File) -> Told {
    all(&[
        is_raw_with_section(&file.raw_value_with_section(KEY), Ok((b"2", b"A"))),
        is_raw_with_section(
            &file.raw_value_with_section_filter(KEY, is_api),
            Ok((b"0", b"a")),
        ),
        is_raw_with_section(&file.raw_value_with_section_filter(KEY, is_local), Err(9)),
        is_raw_with_section(
            &file.raw_value_with_section_filter_by("A", None, "K", is_user),
            Ok((b"2", b"A")),
        ),
        is_raw_with_section(
            &file.raw_value_with_section_filter_by("a", Some(b"k"), "k", is_user),
            Err(8),
        ),
    ])
}

/// Whether these are the texts and the names of their sections, or it is refused with that number.
fn are_raw_with_sections(
    found: &Result<Vec<WithSection<'_>>, existing::Error>,
    wanted: Result<&[(&[u8], &[u8])], u8>,
) -> Told {
    match (found, wanted) {
        (Ok(found), Ok(wanted)) => Some(
            found.len() == wanted.len()
                && found
                    .iter()
                    .zip(wanted)
                    .all(|(found, (text, name))| is_with_section(found, text, name)),
        ),
        (Err(refusal), Err(number)) => is_refused(refusal, number),
        (Err(refusal), Ok(_)) => is_refused(refusal, 0),
        (Ok(_), Err(_)) => Some(false),
    }
}

fn raws_with_sections(file: &File) -> Told {
    all(&[
        are_raw_with_sections(
            &file.raw_values_with_sections(KEY),
            Ok(&[(b"0", b"a"), (b"2", b"A")]),
        ),
        are_raw_with_sections(
            &file.raw_values_with_sections_filter(KEY, is_user),
            Ok(&[(b"2", b"A")]),
        ),
        are_raw_with_sections(&file.raw_values_with_sections_filter(KEY, is_local), Err(9)),
        are_raw_with_sections(
            &file.raw_values_with_sections_filter_by("A", None, "K", is_api),
            Ok(&[(b"0", b"a")]),
        ),
        are_raw_with_sections(
            &file.raw_values_with_sections_filter_by("a", Some(b"k"), "k", is_api),
            Err(8),
        ),
    ])
}

#[test]
fn texts(rt: HostRuntime) -> Result<(), Fail> {
    look_up(rt.alloc(), "all texts of passing sections", strings)
}

#[test]
fn raw_values(rt: HostRuntime) -> Result<(), Fail> {
    look_up(rt.alloc(), "the last raw value", raw)?;
    look_up(rt.alloc(), "all raw values", raws)
}

#[test]
fn raw_values_and_their_sections(rt: HostRuntime) -> Result<(), Fail> {
    look_up(
        rt.alloc(),
        "the last raw value and its section",
        raw_with_section,
    )?;
    look_up(
        rt.alloc(),
        "all raw values and their sections",
        raws_with_sections,
    )
}
