//! What is found in texts.

use bstr::BString;
use gitconf_parse::lookup::{value_in, values_in};
use gitconf_sources::key::KeyRef;
use std::alloc::Global;
use std::test::Fail;

/// A text, a key, the last value of the key, and all its values.
type Row = (
    &'static [u8],
    &'static str,
    Option<&'static str>,
    &'static [&'static str],
);

static ROWS: [Row; 31] = [
    (b"", "a.k", None, &[]),
    (b"[a]\n\tk = v\n", "a.k", Some("v"), &["v"]),
    (b"[a]\nk = 1\nk = 2\n", "a.k", Some("2"), &["1", "2"]),
    (
        b"[a]k=1\n[b]k=3\n[A]K=2\n[b]k=4\n",
        "a.k",
        Some("2"),
        &["1", "2"],
    ),
    (b"[a]\nkk=1\nk2=2\nk=3\nl=4\n", "A.K", Some("3"), &["3"]),
    (b"[a]\nk\n", "a.k", None, &[""]),
    (b"[a]\nk =\n", "a.k", Some(""), &[""]),
    (b"[a]k=1\n[a]k", "a.k", Some("1"), &["1", ""]),
    (b"[a]k=1\nk", "a.k", None, &["1", ""]),
    (b"[a]k=0\n[a]k=1\nk # c", "a.k", Some("0"), &["0", "1", ""]),
    (b"[a]k\nk=1\n[a]l=2", "a.k", Some("1"), &["", "1"]),
    (b"k=1\n[a]", "a.k", None, &[]),
    (
        b"[a \"b\"]k=1\n[a.b]k=2\n[a \"B\"]k=3\n[a]k=4",
        "a.b.k",
        Some("2"),
        &["1", "2"],
    ),
    (
        b"[a \"b\"]k=1\n[a.b]k=2\n[a \"B\"]k=3\n[a]k=4",
        "a.B.k",
        Some("3"),
        &["3"],
    ),
    (
        b"[a \"b\"]k=1\n[a.b]k=2\n[a \"B\"]k=3\n[a]k=4",
        "a.k",
        Some("4"),
        &["4"],
    ),
    (
        b"[a \"b\"]k=1\n[a.b]k=2\n[a \"B\"]k=3\n[a]k=4",
        "a.bb.k",
        None,
        &[],
    ),
    (b"[a.B]k=1\n[a.Bc]k=2", "a.b.k", Some("1"), &["1"]),
    (b"[a.B]k=1", "a.B.k", None, &[]),
    (b"[a \"x.\\\"y\\\\\"]k=1", "a.x.\"y\\.k", Some("1"), &["1"]),
    (b"[a \"x.\\\"y\\\\\"]k=1", "a.x.\"y.k", None, &[]),
    (b"[a \"\"]k=1\n[a]k=2", "a..k", Some("1"), &["1"]),
    (b"[a]k=1", "a..k", None, &[]),
    (b"[.b]k=1", ".b.k", Some("1"), &["1"]),
    (b"[a]k=1", "ak", None, &[]),
    (b"\xEF\xBB\xBF[a]k=1", "a.k", Some("1"), &["1"]),
    (
        b"[a]k = \"x;y\" z # c\nk=\\\"\\t\\\\",
        "a.k",
        Some("\"\t\\"),
        &["x;y z", "\"\t\\"],
    ),
    (
        b"[a]k = one \\\r\n  \"two\\\n  \" ; c\n",
        "a.k",
        Some("one   two  "),
        &["one   two  "],
    ),
    (b"[a]k = one\\", "a.k", Some("one"), &["one"]),
    (b"# [a]k=1\n; k=2\n[b] # [a]\nk=3", "a.k", None, &[]),
    (
        b" \r\n\t[a] ; c\r\n k \t=\t1 \t\r\n",
        "a.k",
        Some("1"),
        &["1"],
    ),
    (
        b"[include]path=x\n[a]k=1",
        "include.path",
        Some("x"),
        &["x"],
    ),
];

/// Whether the values are these, and `None` if there are none.
fn are_values(values: Option<Vec<BString>>, wanted: &[&'static str]) -> bool {
    match values {
        Some(values) => {
            values.len() == wanted.len()
                && !wanted.is_empty()
                && values
                    .iter()
                    .zip(wanted)
                    .all(|(value, text)| value.as_bytes() == text.as_bytes())
        }
        None => wanted.is_empty(),
    }
}

/// Whether the value is this.
fn is_value(value: Option<BString>, wanted: Option<&'static str>) -> bool {
    match (value, wanted) {
        (Some(value), Some(text)) => value.as_bytes() == text.as_bytes(),
        (None, None) => true,
        _ => false,
    }
}

fn is_found(alloc: Global, row: Row) -> Result<bool, Fail> {
    let (text, key, last, all) = row;
    let Ok(value) = value_in(alloc, text, key) else {
        return Ok(false);
    };
    let Ok(values) = values_in(alloc, text, key) else {
        return Ok(false);
    };
    Ok(is_value(value, last) && are_values(values, all))
}

#[test]
fn rows_found(rt: HostRuntime) -> Result<(), Fail> {
    for row in ROWS.iter() {
        assert!(rt; is_found(rt.alloc(), *row)?);
    }
    Ok(())
}

/// A key of three names, whose subsection holds bytes that are no text.
#[test]
fn by_names(rt: HostRuntime) -> Result<(), Fail> {
    let key = KeyRef {
        section_name: "a",
        subsection_name: Some(b"\xff"),
        value_name: "k",
    };
    let Ok(value) = value_in(rt.alloc(), b"[a \"\xff\"]k=1\n[a]k=2", &key) else {
        return Err(Fail::from("refused"));
    };
    assert!(rt; is_value(value, Some("1")));
    Ok(())
}
