//! A value that was loaded without one of its line endings, and is rewritten before a comment.

use gix_config::File;
use gix_config::file::Metadata;
use gix_config::parse::{EventRef, Events};
use gix_config::source::Source;
use std::alloc::Global;
use std::rc::Rc;
use std::test::Fail;

/// A value in two pieces, the last of which is empty, each with a line ending of its own form; then a comment.
const TEXT: &[u8] = b"[a]\nk = x\\\n\\\r\n# c\n";

/// All events but newlines that hold CR.
fn is_kept(event: &EventRef<'_>) -> bool {
    match event {
        EventRef::Newline(run) => !run.contains(&b'\r'),
        _ => true,
    }
}

/// The text without the second of the value's line endings; `None` where a name, a separator or a value was dropped.
fn without_the_last_line_end(alloc: Global) -> Result<Option<File>, Fail> {
    let events = Events::from_bytes(alloc, TEXT, Some(is_kept))?;
    if !events.keeps_entries() {
        return Ok(None);
    }
    let meta = Rc::new(alloc, Metadata::from(Source::Api))?;
    Ok(Some(File::from_parse_events_no_includes(alloc, events, meta)?))
}

/// The value is written by the editor of one value.
fn write(file: &mut File) -> Result<(), Fail> {
    match file.raw_value_mut_by("a", None, "k") {
        Ok(mut editor) => Ok(editor.set(b"v")?),
        Err(refusal) => Err(refusal.into()),
    }
}

/// The same by the editor of several values.
fn write_all(file: &mut File) -> Result<(), Fail> {
    match file.raw_values_mut_by("a", None, "k") {
        Ok(mut editor) => Ok(editor.set_all(b"v")?),
        Err(refusal) => Err(refusal.into()),
    }
}

/// Whether the file is printed as this text.
fn is_printed(file: &File, text: &[u8]) -> Result<bool, Fail> {
    Ok(file.to_bstring()?.as_bytes() == text)
}

/// Whether the value is written as this text by the editor of one value.
fn is_written(alloc: Global, text: &[u8]) -> Result<bool, Fail> {
    let Some(mut file) = without_the_last_line_end(alloc)? else {
        return Ok(false);
    };
    write(&mut file)?;
    is_printed(&file, text)
}

/// The same by the editor of several values.
fn are_written(alloc: Global, text: &[u8]) -> Result<bool, Fail> {
    let Some(mut file) = without_the_last_line_end(alloc)? else {
        return Ok(false);
    };
    write_all(&mut file)?;
    is_printed(&file, text)
}

/// The line ending that was not dropped keeps the comment off the value.
#[test]
fn one_value_before_a_comment(rt: HostRuntime) -> Result<(), Fail> {
    assert!(rt; is_written(rt.alloc(), b"[a]\nk = v\n# c\n")?);
    Ok(())
}

/// The editor of several values keeps no line ending of an old value.
#[test]
fn several_values_before_a_comment(rt: HostRuntime) -> Result<(), Fail> {
    assert!(rt; are_written(rt.alloc(), b"[a]\nk = v# c\n")?);
    Ok(())
}
