//! How texts are refused.

use gitconf_parse::lookup::{value_in, values_in};
use gitconf_read::error::Error;
use std::alloc::Global;
use std::test::Fail;

/// A text, and its error: the line, what was looked for, and the data from there on.
type Row = (&'static [u8], usize, &'static str, &'static [u8]);

static ROWS: [Row; 12] = [
    (b"=", 1, "section header", b"="),
    (b"\xEF\xBB\xBF\n[a", 2, "section header", b"[a"),
    (b"[]k=1", 1, "section header", b"[]k=1"),
    (b"[a \"x\n\"]", 1, "section header", b"[a \"x\n\"]"),
    (b"[a]\nk=1\n=2\n", 3, "name", b"=2\n"),
    (b"[a]\nk=1\n[b", 3, "name", b"[b"),
    (b"[a]\nk=1\n[b]\n1=2", 4, "name", b"1=2"),
    (b"[a]\nk=1\n[b]\nl \\", 4, "name", b"\\"),
    (b"[b]\nl = \"x\n[a]\nk=1", 2, "value", b"\"x\n[a]\nk=1"),
    (b"[b]\nl =  \\x\n[a]\nk=1", 2, "value", b"\\x\n[a]\nk=1"),
    (b"[a]\nk=1\nk = y\\\n\"z", 3, "value", b"y\\\n\"z"),
    (b"[b]\nl=1\\\n\\q", 2, "value", b"1\\\n\\q"),
];

fn is_refusal(error: Error, row: Row) -> bool {
    let (_, line, kind, rest) = row;
    error.number() == 1
        && error.line_number() == line
        && error.kind() == kind
        && error.remaining_data() == rest
}

/// Whether the text is refused so, by a key and by what is no key.
fn is_refused(alloc: Global, row: Row) -> bool {
    let (text, _, _, _) = row;
    let (Err(one), Err(all), Err(none)) = (
        value_in(alloc, text, "a.k"),
        values_in(alloc, text, "a.k"),
        value_in(alloc, text, "ak"),
    ) else {
        return false;
    };
    is_refusal(one, row) && is_refusal(all, row) && is_refusal(none, row)
}

#[test]
fn rows_refused(rt: HostRuntime) -> Result<(), Fail> {
    for row in ROWS.iter() {
        assert!(rt; is_refused(rt.alloc(), *row));
    }
    Ok(())
}
