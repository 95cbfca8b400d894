//! What writers that fail take of a header, and a vector as a writer.

use crate::narrow::check;
use gitconf_items::event_ref::EventRef;
use gitconf_items::sink::write_all;
use std::test::Fail;

#[test]
fn writers_that_fail_at_a_header(rt: HostRuntime) -> Result<(), Fail> {
    let header = EventRef::SectionHeader {
        name: b"name",
        separator: Some(b" "),
        subsection_name: Some(b"q\"uo"),
    };
    check(
        rt.alloc(),
        b"[name \"q\\\"uo\"]",
        |out| header.write_to(out),
    )
}

#[test]
fn a_vector_is_written_to_at_its_end(rt: HostRuntime) -> Result<(), Fail> {
    let mut out = Vec::from_slice(rt.alloc(), b">")?;
    assert_eq!(rt; write_all(&mut out, b"ab"), Ok(()));
    assert!(rt; out.as_slice() == b">ab".as_slice());
    Ok(())
}
