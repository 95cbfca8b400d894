//! Files: their metadata, and filters.

use crate::loads::{loaded, section_at, section_count, sections};
use bstr::BString;
use gix_config::file::{Metadata, init};
use gix_config::{File, KeyRef, Source};
use std::alloc::{AllocError, Global};
use std::rc::Rc;
use std::test::Fail;

/// Whether the file has this metadata, borrowed and shared.
fn has_meta(file: &File, meta: &Metadata) -> Result<bool, Fail> {
    Ok(*file.meta() == *meta && *file.meta_owned()? == *meta)
}

/// Makes the file come from the user.
fn hand_to_user(alloc: Global, file: &mut File) -> Result<(), AllocError> {
    file.set_meta(Rc::new(alloc, Metadata::from(Source::User))?);
    Ok(())
}

/// Whether each section has this metadata.
fn sections_have(file: &File, meta: &Metadata) -> bool {
    for section in sections(file) {
        if *section.meta() != *meta {
            return false;
        }
    }
    true
}

/// Makes the file come from the user, and returns whether it says so, while its sections keep their metadata.
fn is_handed_to_user(alloc: Global, file: &mut File) -> Result<bool, Fail> {
    hand_to_user(alloc, file)?;
    let is_told = has_meta(file, &Metadata::from(Source::User))?;
    Ok(is_told && sections_have(file, &Metadata::api()))
}

fn has_meta_of_api(file: &File) -> Result<bool, Fail> {
    has_meta(file, &Metadata::api())
}

/// Whether the file has the metadata of a program, and then that of the user.
fn has_both_in_turn(alloc: Global, file: &mut File) -> Result<bool, Fail> {
    Ok(has_meta_of_api(file)? && is_handed_to_user(alloc, file)?)
}

/// The same for a file that is loaded here, so that it is dropped in one place only.
fn is_handed_over(alloc: Global) -> Result<bool, Fail> {
    let mut file = loaded(alloc, b"[a] k = v")?;
    has_both_in_turn(alloc, &mut file)
}

/// A file has the metadata that it was made with, or that was set; its sections keep theirs.
#[test]
fn metadata_of_a_file(rt: HostRuntime) -> Result<(), Fail> {
    assert!(rt; is_handed_over(rt.alloc())?);
    Ok(())
}

/// A copy of a file that then is made to come from the user.
fn copied_and_handed(alloc: Global, file: &mut File) -> Result<File, Fail> {
    let copy = file.try_clone()?;
    hand_to_user(alloc, file)?;
    Ok(copy)
}

/// The copy of a file that is made to come from the user and dropped.
fn copy_that_is_left(alloc: Global) -> Result<File, Fail> {
    let mut file = loaded(alloc, b"[a] k = v")?;
    copied_and_handed(alloc, &mut file)
}

fn keeps_meta(alloc: Global) -> Result<bool, Fail> {
    let copy = copy_that_is_left(alloc)?;
    has_meta_of_api(&copy)
}

/// A copy keeps its metadata when the file is made to come from the user and dropped.
#[test]
fn metadata_of_a_copy(rt: HostRuntime) -> Result<(), Fail> {
    assert!(rt; keeps_meta(rt.alloc())?);
    Ok(())
}

/// Whether a file that is made with the metadata of this one has it, and nothing else.
fn is_met_by_an_empty_file(alloc: Global, file: &File) -> Result<bool, Fail> {
    let empty = File::new(alloc, file.meta_owned()?);
    Ok(*empty.meta() == Metadata::from(Source::User) && empty.to_bstring()?.is_empty())
}

/// The same for this file, made to come from the user.
fn is_met_when_handed(alloc: Global, file: &mut File) -> Result<bool, Fail> {
    hand_to_user(alloc, file)?;
    is_met_by_an_empty_file(alloc, file)
}

fn is_met(alloc: Global) -> Result<bool, Fail> {
    let mut file = loaded(alloc, b"[a] k = v")?;
    is_met_when_handed(alloc, &mut file)
}

#[test]
fn metadata_of_an_empty_file(rt: HostRuntime) -> Result<(), Fail> {
    assert!(rt; is_met(rt.alloc())?);
    Ok(())
}

#[test]
fn a_refused_text(rt: HostRuntime) -> Result<(), Fail> {
    let Err(error) = File::try_from_bytes(rt.alloc(), b"[a]\n$") else {
        return Err(Fail::new("read"));
    };
    assert!(rt; (error.number(), error.line_number(), error.kind()) == (1, 2, "name"));
    Ok(())
}

fn is_api(meta: &Metadata) -> bool {
    meta.source == Source::Api
}

fn is_user(meta: &Metadata) -> bool {
    meta.source == Source::User
}

/// The result is this value, or none.
fn is_value(found: &Option<BString>, expected: Option<&[u8]>) -> bool {
    match (found, expected) {
        (Some(found), Some(expected)) => found.as_bytes() == expected,
        (None, None) => true,
        _ => false,
    }
}

/// Whether the key has this value if all sections pass. If none does, it has none.
fn is_found(file: &File, key: &[u8], expected: Option<&[u8]>) -> Result<bool, Fail> {
    Ok(
        is_value(&file.string_filter(key, is_api)?, expected)
            && is_value(&file.string_filter(key, is_user)?, None),
    )
}

/// The same, by the names of the key.
fn is_found_by(file: &File, key: KeyRef<'_>, expected: Option<&[u8]>) -> Result<bool, Fail> {
    let (section, subsection, name) = (key.section_name, key.subsection_name, key.value_name);
    let found = file.string_filter_by(section, subsection, name, is_api)?;
    let missed = file.string_filter_by(section, subsection, name, is_user)?;
    Ok(is_value(&found, expected) && is_value(&missed, None))
}

/// Whether the key has this value, as a text and, if it is a key, by its names.
fn is_found_both_ways(file: &File, key: &[u8], expected: Option<&[u8]>) -> Result<bool, Fail> {
    let is_found_by_names = match KeyRef::parse_unvalidated(key) {
        Some(names) => is_found_by(file, names, expected)?,
        None => true,
    };
    Ok(is_found_by_names && is_found(file, key, expected)?)
}

/// The same in the file of a text.
fn is_found_in(
    alloc: Global,
    text: &[u8],
    key: &[u8],
    expected: Option<&[u8]>,
) -> Result<bool, Fail> {
    let file = loaded(alloc, text)?;
    is_found_both_ways(&file, key, expected)
}

/// A text, a key, and its value if all sections pass.
static VALUES: [(&[u8], &[u8], Option<&[u8]>); 5] = [
    (b"[a] k = v", b"a.k", Some(b"v")),
    (b"[a] k", b"a.k", None),
    (b"[a]\nk=1\n[A]\nk=2\n", b"a.k", Some(b"2")),
    (b"[a \"B\"]\nk=1\n[a.B]\nk=2\n", b"a.B.k", Some(b"1")),
    (b"[a] k = v", b"ak", None),
];

#[test]
fn values_where_sections_pass(rt: HostRuntime) -> Result<(), Fail> {
    for (text, key, expected) in VALUES.iter() {
        assert!(rt; is_found_in(rt.alloc(), text, key, *expected)?);
    }
    Ok(())
}

/// What a lookup finds with a filter that drops the first section that it sees.
fn second_asked(file: &File) -> Result<Option<BString>, Fail> {
    let mut was_asked = false;
    let found = file.string_filter("a.k", |_| {
        let passes = was_asked;
        was_asked = true;
        passes
    })?;
    Ok(found)
}

fn is_second_found(alloc: Global) -> Result<bool, Fail> {
    let file = loaded(alloc, b"[a]\nk=1\n[a]\nk=2\n[a]\nk=3\n")?;
    Ok(is_value(&second_asked(&file)?, Some(b"2")))
}

/// Sections are asked for from the last one: a filter that drops the first one that it sees leaves the others.
#[test]
fn a_filter_that_changes_its_mind(rt: HostRuntime) -> Result<(), Fail> {
    assert!(rt; is_second_found(rt.alloc())?);
    Ok(())
}

/// Sets the value of `a.k` in the sections from there, and returns whether it had this value before.
fn replaces(
    file: &mut File,
    value: &[u8],
    source: Source,
    old: Option<&[u8]>,
) -> Result<bool, Fail> {
    let Some(key) = KeyRef::parse_unvalidated(b"a.k") else {
        return Err(Fail::new("no key"));
    };
    let found = file.set_raw_value_filter(key, value, |meta| meta.source == source)?;
    Ok(is_value(&found, old))
}

/// The same, by the names of a section and of a value.
fn replaces_by(
    file: &mut File,
    names: (&str, &str),
    value: &[u8],
    source: Source,
    old: Option<&[u8]>,
) -> Result<bool, Fail> {
    let (section, name) = names;
    let found = file.set_raw_value_filter_by(
        section,
        None,
        name,
        value,
        |meta| meta.source == source,
    )?;
    Ok(is_value(&found, old))
}

fn is_printed(file: &File, text: &[u8]) -> Result<bool, Fail> {
    Ok(file.to_bstring()?.as_bytes() == text)
}

/// A value that is set while no section passes: another section is made.
fn is_set_beside(file: &mut File) -> Result<bool, Fail> {
    Ok(replaces(file, b"2", Source::User, None)? && is_printed(file, b"[a]\nk=1\n[a]\n\tk = 2\n")?)
}

/// Values that are set in that section.
fn is_set_in_place(file: &mut File) -> Result<bool, Fail> {
    Ok(
        replaces(file, b"3", Source::Api, Some(b"2"))?
            && replaces_by(file, ("A", "K"), b"4", Source::Api, Some(b"3"))?
            && is_printed(file, b"[a]\nk=1\n[a]\n\tk = 4\n")?,
    )
}

/// The same as the first, by names.
fn is_set_beside_by_names(file: &mut File) -> Result<bool, Fail> {
    Ok(replaces_by(file, ("a", "k"), b"5", Source::User, None)? && section_count(file) == 3)
}

/// All three, one after the other.
fn is_set_in_turn(file: &mut File) -> Result<bool, Fail> {
    Ok(is_set_beside(file)? && is_set_in_place(file)? && is_set_beside_by_names(file)?)
}

fn is_set(alloc: Global) -> Result<bool, Fail> {
    let mut file = loaded(alloc, b"[a]\nk=1\n")?;
    is_set_in_turn(&mut file)
}

/// A section that the filter drops is left as it is, and another one is made.
#[test]
fn values_are_set_where_a_filter_passes(rt: HostRuntime) -> Result<(), Fail> {
    assert!(rt; is_set(rt.alloc())?);
    Ok(())
}

/// What is printed of the section at this place alone, which the filter recognizes by its number.
fn printed_of(alloc: Global, file: &File, place: usize) -> Result<Vec<u8>, Fail> {
    let Some(kept) = section_at(file, place) else {
        return Err(Fail::new("no such section"));
    };
    let mut out = Vec::new(alloc);
    file.write_to_filter(&mut out, |section| section.id() == kept.id())?;
    Ok(out)
}

/// Whether this is printed of the section at a place of the text.
fn is_printed_alone(
    alloc: Global,
    text: &[u8],
    place: usize,
    expected: &[u8],
) -> Result<bool, Fail> {
    let file = loaded(alloc, text)?;
    Ok(printed_of(alloc, &file, place)?.as_slice() == expected)
}

/// One of two sections of one name, kept by its number. Rows have those of different names.
#[test]
fn sections_by_their_numbers(rt: HostRuntime) -> Result<(), Fail> {
    let text = b"[a \"x\"] k [a \"y\"]j";
    assert!(rt; is_printed_alone(rt.alloc(), text, 1, b"[a \"y\"]\nj\n")?);
    Ok(())
}

/// A file whose sections come from the user.
fn file_of_user(alloc: Global) -> Result<File, Fail> {
    let meta = Rc::new(alloc, Metadata::from(Source::User))?;
    let text = b"# f\n[a]\n\tk = v\n[b] j";
    Ok(File::from_bytes_no_includes(alloc, text, meta, init::Options::default())?)
}

/// What is printed of the front and the sections that come from there.
fn printed_from(alloc: Global, file: &File, source: Source) -> Result<Vec<u8>, Fail> {
    let mut out = Vec::new(alloc);
    file.write_to_filter(&mut out, |section| section.meta().source == source)?;
    Ok(out)
}

/// Whether this is printed of them.
fn is_printed_from(alloc: Global, source: Source, text: &[u8]) -> Result<bool, Fail> {
    let file = file_of_user(alloc)?;
    Ok(printed_from(alloc, &file, source)?.as_slice() == text)
}

/// Sections that are kept because of where they come from.
#[test]
fn sections_by_their_source(rt: HostRuntime) -> Result<(), Fail> {
    assert!(rt; is_printed_from(rt.alloc(), Source::Api, b"# f\n")?);
    assert!(rt; is_printed_from(rt.alloc(), Source::User, b"# f\n[a]\n\tk = v\n[b]\n j\n")?);
    Ok(())
}

/// How often a filter is called that always returns the same.
fn times_asked(alloc: Global, file: &File, answer: bool) -> Result<u64, Fail> {
    let mut asked: u64 = 0;
    let mut out = Vec::new(alloc);
    file.write_to_filter(&mut out, |_| {
        asked = asked.saturating_add(1);
        answer
    })?;
    Ok(asked)
}

/// How often a filter is called that keeps all sections, and how often one that keeps none.
fn both_asked(alloc: Global, file: &File) -> Result<(u64, u64), Fail> {
    Ok((
        times_asked(alloc, file, true)?,
        times_asked(alloc, file, false)?,
    ))
}

/// The same for the file of a text.
fn asked(alloc: Global, text: &[u8]) -> Result<(u64, u64), Fail> {
    let file = loaded(alloc, text)?;
    both_asked(alloc, &file)
}

/// A text, how often a filter is called that keeps all sections, and how often one that keeps none.
#[test]
fn how_often_a_filter_is_asked(rt: HostRuntime) -> Result<(), Fail> {
    let rows: [(&[u8], u64, u64); 6] = [
        (b"", 0, 0),
        (b"# c", 0, 0),
        (b"[a][b][c]", 3, 3),
        (b"# c\n[a][b][c]", 3, 3),
        (b"  [a][b][c]", 4, 6),
        (b"k [a]", 2, 2),
    ];
    for (text, all, none) in rows {
        assert!(rt; asked(rt.alloc(), text)? == (all, none));
    }
    Ok(())
}
