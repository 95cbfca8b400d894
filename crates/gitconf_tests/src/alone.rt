//! Events made by hand: what each is written as, and shown as.

use gitconf_items::event_ref::EventRef;
use std::alloc::Global;
use std::test::Fail;

fn comment(tag: u8, text: &'static [u8]) -> EventRef<'static> {
    EventRef::Comment { tag, text }
}

/// Whether the event is written as these bytes, and shown as this text.
fn is_written(alloc: Global, event: EventRef<'_>, bytes: &[u8], text: &str) -> Result<bool, Fail> {
    let shown = format!(in alloc; "{event}")?;
    let mut out = Vec::from_slice(alloc, b">")?;
    event.write_to(&mut out)?;
    Ok(
        shown.as_str() == text
            && event.to_bstring(alloc)?.as_bytes() == bytes
            && out.strip_prefix(b">") == Some(bytes),
    )
}

/// Events, even such as no text has: the bytes that each is written as, and the text that it is shown as.
#[test]
fn events_alone(rt: HostRuntime) -> Result<(), Fail> {
    let rows: [(EventRef<'static>, &[u8], &str); 8] = [
        (comment(b';', b" c"), b"; c", "; c"),
        (comment(b'#', b""), b"#", "#"),
        (EventRef::ValueNotDone(b"x "), b"x \\", "x \\"),
        (EventRef::ValueDone(b"y"), b"y", "y"),
        (EventRef::ValueDone(b""), b"", ""),
        (
            EventRef::Value(b"\"\\n\" \xff"),
            b"\"\\n\" \xff",
            "\"\\n\" \u{fffd}",
        ),
        (EventRef::Newline(b"\r\n"), b"\r\n", "\r\n"),
        (EventRef::KeyValueSeparator, b"=", "="),
    ];
    for (event, bytes, text) in rows.iter() {
        assert!(rt; is_written(rt.alloc(), *event, bytes, text)?);
    }
    Ok(())
}

/// A header's name, its separator and its subsection.
type Header = (&'static [u8], Option<&'static [u8]>, Option<&'static [u8]>);

/// Whether the header is written as these bytes, and shown as this text.
fn is_header_written(
    alloc: Global,
    header: Header,
    bytes: &[u8],
    text: &str,
) -> Result<bool, Fail> {
    let (name, separator, subsection_name) = header;
    let event = EventRef::SectionHeader {
        name,
        separator,
        subsection_name,
    };
    is_written(alloc, event, bytes, text)
}

/// Headers, and what they are written as.
static HEADERS: [(Header, &str); 9] = [
    ((b"a", None, None), "[a]"),
    ((b"", None, None), "[]"),
    ((b"", Some(b"."), Some(b"b")), "[.b]"),
    ((b"a", Some(b"."), Some(b"B\"\\")), "[a.B\"\\]"),
    ((b"a", Some(b" "), Some(b"")), "[a \"\"]"),
    (
        (b"a", Some(b" \t"), Some(b"q\"uo\\te")),
        "[a \t\"q\\\"uo\\\\te\"]",
    ),
    ((b"a", Some(b"\t "), Some(b"\\\"b")), "[a\t \"\\\\\\\"b\"]"),
    ((b"a", Some(b" "), None), "[a]"),
    ((b"a", None, Some(b"b")), "[a]"),
];

#[test]
fn headers_alone(rt: HostRuntime) -> Result<(), Fail> {
    for (header, text) in HEADERS.iter() {
        assert!(rt; is_header_written(rt.alloc(), *header, text.as_bytes(), text)?);
    }
    Ok(())
}

/// A header that isn't UTF-8 is shown differently.
#[test]
fn a_header_not_in_utf8(rt: HostRuntime) -> Result<(), Fail> {
    let header: Header = (b"a", Some(b" "), Some(b"\xc3\xa4\"\xff\xe2\x82\""));
    let bytes = b"[a \"\xc3\xa4\\\"\xff\xe2\x82\\\"\"]";
    let text = "[a \"ä\\\"\u{fffd}\u{fffd}\\\"\"]";
    assert!(rt; is_header_written(rt.alloc(), header, bytes, text)?);
    Ok(())
}
