//! Names compared without case, and keys of all types.

use bstr::BString;
use gitconf_sources::key::{AsKey, KeyRef};
use gitconf_text::NoMemory;
use gitconf_text::parse::section::{Name, ValueName};
use std::alloc::{AllocError, Global};
use std::str;
use std::test::Fail;

/// Two texts, and whether they are the same name.
type Row = (&'static [u8], &'static [u8], bool);

/// Whether both names are equal or not, as expected, and ordered so.
fn are_told(one: &Name, other: &Name, is_same: bool) -> bool {
    (*one == *other) == is_same && one.cmp(other).is_eq() == is_same
}

/// Whether a copy of the name has this spelling.
fn is_copied(name: &Name, text: &[u8]) -> Result<bool, NoMemory> {
    Ok(name.to_owned()?.as_bytes() == text)
}

/// Whether both texts are names of sections, equal or not as expected. The second one is kept as it is spelled.
fn are_names(alloc: Global, row: &Row) -> Result<bool, Fail> {
    let first = Name::try_from_bytes(alloc, row.0)?;
    let second = Name::try_from(BString::from_slice(alloc, row.1)?)?;
    Ok(are_told(&first, &second, row.2) && is_copied(&second, row.1)?)
}

/// The same for names of values.
fn are_values_told(one: &ValueName, other: &ValueName, is_same: bool) -> bool {
    (*one == *other) == is_same && one.cmp(other).is_eq() == is_same
}

fn is_value_name_copied(name: &ValueName, text: &[u8]) -> Result<bool, NoMemory> {
    Ok(name.to_owned()?.as_bytes() == text)
}

fn are_value_names(alloc: Global, row: &Row) -> Result<bool, Fail> {
    let first = ValueName::try_from_bytes(alloc, row.0)?;
    let second = ValueName::try_from(BString::from_slice(alloc, row.1)?)?;
    Ok(are_values_told(&first, &second, row.2) && is_value_name_copied(&second, row.1)?)
}

static NAMES: [Row; 6] = [
    (b"a", b"A", true),
    (b"Path-1", b"pATH-1", true),
    (b"core", b"core", true),
    (b"a", b"b", false),
    (b"a", b"aa", false),
    (b"a-b", b"ab", false),
];

#[test]
fn names_have_no_case(rt: HostRuntime) -> Result<(), Fail> {
    for row in NAMES.iter() {
        assert!(rt; are_names(rt.alloc(), row)? && are_value_names(rt.alloc(), row)?);
    }
    Ok(())
}

/// Whether both calls of a key return these three names, or both would return none.
fn answers<K: AsKey>(key: K, expected: Option<KeyRef<'_>>) -> bool {
    match key.try_as_key() {
        Some(tried) => key.as_key() == tried && Some(tried) == expected,
        None => expected.is_none(),
    }
}

/// Whether these bytes are a key of these names, borrowed and owned.
fn bytes_answer(
    alloc: Global,
    text: &[u8],
    expected: Option<KeyRef<'_>>,
) -> Result<bool, AllocError> {
    let owned = BString::from_slice(alloc, text)?;
    Ok(
        KeyRef::parse_unvalidated(text) == expected
            && answers(text, expected)
            && answers(&owned, expected),
    )
}

/// The same for a text. What isn't a text has nothing to check.
fn text_answers(
    alloc: Global,
    text: &[u8],
    expected: Option<KeyRef<'_>>,
) -> Result<bool, AllocError> {
    let Ok(text) = str::from_utf8(text) else {
        return Ok(true);
    };
    let owned = String::from_str(alloc, text)?;
    Ok(answers(text, expected) && answers(&owned, expected))
}

/// The same for the names themselves.
fn key_answers(expected: Option<KeyRef<'_>>) -> bool {
    match expected {
        Some(key) => answers(key, expected) && answers(&key, expected),
        None => true,
    }
}

/// The names of a section, a subsection and a value.
type Names<'a> = (&'a str, Option<&'a [u8]>, &'a str);

fn key_of(names: Names<'_>) -> KeyRef<'_> {
    let (section_name, subsection_name, value_name) = names;
    KeyRef {
        section_name,
        subsection_name,
        value_name,
    }
}

/// Whether the text is a key of these names in all its types.
fn is_key(alloc: Global, text: &[u8], names: Option<Names<'_>>) -> Result<bool, AllocError> {
    let expected = names.map(key_of);
    Ok(
        bytes_answer(alloc, text, expected)?
            && text_answers(alloc, text, expected)?
            && key_answers(expected),
    )
}

/// A key of a value, cut at its first dot and at its last.
static KEYS: [(&[u8], Option<Names<'static>>); 13] = [
    (b"", None),
    (b"core", None),
    (b".", Some(("", None, ""))),
    (b"core.", Some(("core", None, ""))),
    (b"core.Editor", Some(("core", None, "Editor"))),
    (b"..", Some(("", Some(b""), ""))),
    (b"a..c", Some(("a", Some(b""), "c"))),
    (b"a.B c.d", Some(("a", Some(b"B c"), "d"))),
    (
        b"remote.https://x.y/z.url",
        Some(("remote", Some(b"https://x.y/z"), "url")),
    ),
    (
        b"\xc3\xa4.\xff.\xc3\xbc",
        Some(("\u{e4}", Some(b"\xff"), "\u{fc}")),
    ),
    (b"\xff.a", None),
    (b"a.\xff", None),
    (b"a.b.\xff", None),
];

#[test]
fn keys_of_values(rt: HostRuntime) -> Result<(), Fail> {
    for (text, names) in KEYS.iter() {
        assert!(rt; is_key(rt.alloc(), text, *names)?);
    }
    Ok(())
}
