//! What writers that fail take of a file, of a part of one, and of a section.

use crate::loads::{loaded, section_at};
use gitconf_items::sink::SinkFault;
use gitconf_tests::narrow::{Narrow, check};
use gitconf_tests::texts::{PRINTED, TEXT};
use gix_config::File;
use gix_config::file::SectionRef;
use std::alloc::Global;
use std::test::Fail;

/// Texts, and what is printed of them.
static ROWS: [(&[u8], &[u8]); 7] = [
    (b"", b""),
    (b"# c", b"# c"),
    (b"[a] b c=d", b"[a]\n b \nc=d\n"),
    (b"[a]\r\n[b]\nj\n[c]\r\n", b"[a]\r\n[b]\nj\n\r\n[c]\r\n"),
    (b"[a]\nk = x\\", b"[a]\nk = x\\\n\n"),
    (b"k=x\\\r\ny [a]\n[b]", b"k=x\\\r\ny [a]\n\r\n[b]\r\n"),
    (TEXT, PRINTED),
];

/// What failing writers take of the file of a text.
fn check_file(alloc: Global, text: &[u8], printed: &[u8]) -> Result<(), Fail> {
    let file = loaded(alloc, text)?;
    check(alloc, printed, |out| file.write_to(out))
}

#[test]
fn writers_that_fail(rt: HostRuntime) -> Result<(), Fail> {
    for (text, printed) in ROWS.iter() {
        check_file(rt.alloc(), text, printed)?;
    }
    Ok(())
}

fn is_b(section: &SectionRef<'_>) -> bool {
    match section.to_bstring() {
        Ok(text) => text.as_bytes().starts_with(b"[b]"),
        Err(_) => false,
    }
}

/// Writes the section at this place alone.
fn write_section(file: &File, place: usize, out: &mut Narrow) -> Result<(), SinkFault> {
    match section_at(file, place) {
        Some(section) => section.write_to(out),
        None => Ok(()),
    }
}

/// What failing writers take of a part of the file, and of each of two sections.
fn check_parts(alloc: Global, file: &File) -> Result<(), Fail> {
    check(
        alloc,
        b"  \n[b]\nj\n",
        |out| file.write_to_filter(out, is_b),
    )?;
    check(alloc, b"[a]\n k ", |out| write_section(file, 0, out))?;
    check(alloc, b"[b]\nj", |out| write_section(file, 1, out))
}

#[test]
fn writers_that_fail_at_parts(rt: HostRuntime) -> Result<(), Fail> {
    let file = loaded(rt.alloc(), b"  [a] k [b]\nj")?;
    check_parts(rt.alloc(), &file)
}
