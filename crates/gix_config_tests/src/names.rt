//! Names and their bytes, keys of sections, and errors of values and texts that are made by hand.

use bstr::BString;
use gitconf_tests::shim::{begin, was_refused};
use gix_config::parse::section::bytes::{
    feed, is_made_name, is_name, is_same_name, is_value_name, name_order,
};
use gix_config::parse::section::header::{is_valid_subsection, validate};
use gix_config::parse::section::unvalidated::KeyRef;
use gix_config::parse::section::{Name, ValueName, ValueNameError};
use gix_config::parse::span;
use gix_config::refusals::Refusal as _;
use gix_config::value;
use std::alloc::{AllocError, Global};
use std::hash::{DefaultHasher, Hasher as _};
use std::test::Fail;

/// Whether both are empty.
fn are_empty(alloc: Global) -> bool {
    Name::empty(alloc).as_str().is_empty() && ValueName::empty(alloc).as_str().is_empty()
}

/// Whether both are empty, and no memory is taken.
fn are_empty_without_memory(alloc: Global) -> Result<bool, Fail> {
    begin(alloc)?;
    let are_empty = are_empty(alloc);
    Ok(!was_refused(alloc) && are_empty)
}

/// Names without a byte, which no conversion makes.
#[test]
fn empty_names(rt: HostRuntime) -> Result<(), Fail> {
    assert!(rt; are_empty_without_memory(rt.alloc())?);
    Ok(())
}

/// A text, and whether it is the name of a section, of one that is made, and of a value.
static NAMES: [(&[u8], (bool, bool, bool)); 7] = [
    (b"a", (true, true, true)),
    (b"a-1", (true, true, true)),
    (b"1a", (true, true, false)),
    (b"-", (true, true, false)),
    (b"", (false, true, false)),
    (b"a.b", (false, false, false)),
    (b"a\xff", (false, false, false)),
];

#[test]
fn bytes_of_names(rt: HostRuntime) {
    for (text, expected) in NAMES.iter() {
        assert!(rt; (is_name(text), is_made_name(text), is_value_name(text)) == *expected);
    }
}

/// What a hasher returns that was fed the name.
fn hash_of(name: &[u8]) -> u64 {
    let mut state = DefaultHasher::new();
    feed(name, &mut state);
    state.finish()
}

#[test]
fn names_without_case(rt: HostRuntime) {
    assert!(rt; is_same_name(b"Core", b"cORE") && !is_same_name(b"a", b"aa"));
    assert!(rt; name_order(b"Core", b"cORE").is_eq() && name_order(b"B", b"a").is_gt());
    assert!(rt; hash_of(b"Core") == hash_of(b"cORE"));
}

/// The number by which a header of these parts is refused.
fn refused_by(name: &[u8], subsection: Option<&[u8]>) -> Option<u8> {
    match validate(name, subsection) {
        Ok(()) => None,
        Err(refusal) => Some(refusal.number()),
    }
}

#[test]
fn parts_of_headers(rt: HostRuntime) {
    assert!(rt;
        is_valid_subsection(b"a\"\\\xff")
            && !is_valid_subsection(b"\n")
            && !is_valid_subsection(b"\0")
    );
    assert!(rt; refused_by(b"a", None).is_none() && refused_by(b"", Some(b"b c")).is_none());
    assert!(rt;
        refused_by(b"a.b", Some(b"\n")) == Some(4) && refused_by(b"a", Some(b"\n")) == Some(5)
    );
}

/// A key of a section, and its name and subsection.
static KEYS: [(&[u8], Option<(&str, Option<&[u8]>)>); 5] = [
    (
        b"remote.https:///home/user.git",
        Some(("remote", Some(b"https:///home/user.git"))),
    ),
    (b"core", Some(("core", None))),
    (b"a.", Some(("a", Some(b"")))),
    (b"", Some(("", None))),
    (b"\xff.a", None),
];

/// The parts of a key.
fn parts_of(key: &[u8]) -> Option<(&str, Option<&[u8]>)> {
    let key = KeyRef::parse(key)?;
    Some((key.section_name, key.subsection_name))
}

#[test]
fn keys_of_sections(rt: HostRuntime) {
    for (key, parts) in KEYS.iter() {
        assert!(rt; parts_of(key) == *parts);
    }
}

/// Whether the error has this number, this message, and these bytes.
fn tells(refusal: &value::Error, message: &str, input: &[u8]) -> bool {
    refusal.number() == 11 && refusal.message() == message && refusal.input() == input
}

/// Bytes that an error keeps.
fn input(alloc: Global) -> Result<BString, AllocError> {
    BString::from_slice(alloc, b"9z")
}

#[test]
fn refused_values(rt: HostRuntime) -> Result<(), Fail> {
    let refusal = value::Error::not_a_boolean(input(rt.alloc())?);
    assert!(rt; tells(&refusal, "not a boolean", b"9z"));
    let refusal = value::Error::not_an_integer(input(rt.alloc())?);
    assert!(rt; tells(&refusal, "not an integer", b"9z"));
    let refusal = value::Error::overflow(input(rt.alloc())?);
    assert!(rt; tells(&refusal, "Integer overflow", b"9z"));
    Ok(())
}

#[test]
fn refused_spans_and_names(rt: HostRuntime) {
    let refusal = span::Error::too_large();
    assert!(rt; refusal.number() == 3 && !refusal.is_memory());
    assert!(rt; ValueNameError::invalid().number() == 6);
}
