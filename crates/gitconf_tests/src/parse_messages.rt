//! Texts and numbers of errors, and the limit of spans.

use gitconf_items::event::Span;
use gitconf_items::sink::SinkFault;
use gitconf_read::error::{Error, Expected};
use gitconf_text::parse::span;
use std::alloc::{AllocError, Global};
use std::test::Fail;

/// What an error shows: its number, the line, what was expected there, the rest of the data, and the text.
type Told<'a> = (u8, usize, &'a str, &'a [u8], &'a str);

/// Whether the error shows this.
fn tells(alloc: Global, error: &Error, told: Told<'_>) -> Result<bool, AllocError> {
    let text = format!(in alloc; "{error}")?;
    let found = (
        error.number(),
        error.line_number(),
        error.kind(),
        error.remaining_data(),
        text.as_str(),
    );
    Ok(found == told)
}

/// An error that no text can have: on the last line of all, with no data left.
#[test]
fn a_refusal_on_the_last_line(rt: HostRuntime) -> Result<(), Fail> {
    let last = 18446744073709551615;
    let text =
        "Got an unexpected token on line 18446744073709551615 while trying to parse a name: ''";
    let error = Error::unexpected(last, Expected::Name, Vec::new(rt.alloc()));
    assert!(rt; tells(rt.alloc(), &error, (1, last, "name", b"", text))?);
    Ok(())
}

#[test]
fn a_refused_value(rt: HostRuntime) -> Result<(), Fail> {
    let text =
        "Got an unexpected token on line 1 while trying to parse a value: '$rest of l' ... (3 characters omitted)";
    let data = b"$rest of line".to_vec(rt.alloc())?;
    let error = Error::unexpected(1, Expected::Value, data);
    assert!(rt; tells(rt.alloc(), &error, (1, 1, "value", b"$rest of line", text))?);
    Ok(())
}

/// And 4294967296 bytes.
#[test]
fn a_text_that_is_too_large(rt: HostRuntime) -> Result<(), Fail> {
    let text =
        "Configuration input is 4294967296 bytes large, but at most 4294967295 bytes are supported";
    let error = Error::too_large(4294967296);
    assert!(rt; tells(rt.alloc(), &error, (2, 1, "", b"", text))?);
    assert!(rt; error != Error::too_large(4294967297));
    Ok(())
}

/// Whether the error for out of memory equals itself, and no other error.
fn is_want_of_memory_alone() -> bool {
    Error::memory() == Error::memory() && Error::memory() != Error::too_large(4294967296)
}

#[test]
fn want_of_memory(rt: HostRuntime) -> Result<(), Fail> {
    assert!(rt;
        tells(
            rt.alloc(),
            &Error::memory(),
            (27, 1, "", b"", "out of memory")
        )?
    );
    assert!(rt; is_want_of_memory_alone());
    Ok(())
}

/// Whether the fault is shown as this text.
fn is_shown(alloc: Global, fault: SinkFault, text: &str) -> Result<bool, AllocError> {
    Ok(format!(in alloc; "{fault}")?.as_str() == text)
}

#[test]
fn a_writer_that_failed(rt: HostRuntime) -> Result<(), Fail> {
    let fault = SinkFault;
    assert!(rt; is_shown(rt.alloc(), fault, "the writer failed")?);
    Ok(())
}

/// The number of the error, if there is no such span.
fn refusal(span: &Result<Span, span::Error>) -> Option<u8> {
    match span {
        Ok(_) => None,
        Err(refused) => Some(refused.number()),
    }
}

/// A start, a length, and the number of the error if there is no such span.
#[test]
fn spans_end_at_the_limit(rt: HostRuntime) {
    let rows = [
        (0, 0, None),
        (4294967295, 0, None),
        (4294967295, 4294967295, None),
        (4294967296, 0, Some(3)),
        (0, 4294967296, Some(3)),
    ];
    for (start, len, expected) in rows {
        assert!(rt; refusal(&Span::try_new(start, len)) == expected);
    }
}

#[test]
fn the_last_span_stays(rt: HostRuntime) -> Result<(), Fail> {
    let last = Span::try_new(4294967295, 0)?;
    assert_eq!(rt; last.moved(0)?, last);
    assert_eq!(rt; refusal(&last.moved(1)), Some(3));
    Ok(())
}
