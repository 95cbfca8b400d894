//! Calls that take no memory: the shim refuses their first allocation, and there is none.

use crate::loads::{loaded, section_count};
use gitconf_tests::shim::{begin, was_refused};
use gitconf_tests::texts::TEXT;
use gix_config::File;
use gix_config::file::Metadata;
use std::alloc::Global;
use std::rc::Rc;
use std::test::Fail;

/// No section, no key in it, a key without a value, and no key at all.
static MISSES: [&str; 8] = [
    "a.k",
    "core.x",
    "core.o.k",
    "core.j",
    "remote.url",
    "Branch.Main.m",
    "core",
    "",
];

fn is_a_miss(file: &File, key: &str) -> bool {
    matches!(file.string(key), Ok(None))
}

/// Whether all of these lookups take no memory.
fn are_misses(alloc: Global, file: &File) -> Result<bool, Fail> {
    begin(alloc)?;
    let are_misses = MISSES.iter().all(|key| is_a_miss(file, key));
    Ok(!was_refused(alloc) && are_misses)
}

fn are_misses_of_text(alloc: Global) -> Result<bool, Fail> {
    let file = loaded(alloc, TEXT)?;
    are_misses(alloc, &file)
}

#[test]
fn misses(rt: HostRuntime) -> Result<(), Fail> {
    assert!(rt; are_misses_of_text(rt.alloc())?);
    Ok(())
}

fn is_empty(file: &File) -> bool {
    file.is_void() && section_count(file) == 0
}

/// Whether a new file is made without memory, and is empty.
fn is_made(alloc: Global) -> Result<bool, Fail> {
    let meta = Rc::new(alloc, Metadata::api())?;
    begin(alloc)?;
    let file = File::new(alloc, meta);
    Ok(!was_refused(alloc) && is_empty(&file))
}

#[test]
fn a_new_file(rt: HostRuntime) -> Result<(), Fail> {
    assert!(rt; is_made(rt.alloc())?);
    Ok(())
}

/// How many values the file has, whether it is void, and how many sections it has.
fn counts(file: &File) -> (usize, bool, usize) {
    (file.num_values(), file.is_void(), section_count(file))
}

fn has_line_feeds(file: &File) -> bool {
    file.detect_newline_style() == b"\n".as_slice()
}

fn has_meta(file: &File, meta: &Metadata) -> bool {
    *file.meta() == *meta
}

/// Whether the file shows what the text has.
fn is_told(file: &File) -> bool {
    counts(file) == (6, false, 3) && has_line_feeds(file) && has_meta(file, &Metadata::api())
}

/// Whether the metadata that the file shares is that of a program.
fn shares_meta(file: &File) -> bool {
    match file.meta_owned() {
        Ok(shared) => *shared == Metadata::api(),
        Err(_) => false,
    }
}

/// Whether all of this takes no memory.
fn is_told_without_memory(alloc: Global, file: &File) -> Result<bool, Fail> {
    begin(alloc)?;
    let is_told = is_told(file) && shares_meta(file);
    Ok(!was_refused(alloc) && is_told)
}

fn is_text_told(alloc: Global) -> Result<bool, Fail> {
    let file = loaded(alloc, TEXT)?;
    is_told_without_memory(alloc, &file)
}

#[test]
fn counts_and_views(rt: HostRuntime) -> Result<(), Fail> {
    assert!(rt; is_text_told(rt.alloc())?);
    Ok(())
}

/// Whether the file is written.
fn is_written(file: &File, out: &mut Vec<u8>) -> bool {
    file.write_to(out).is_ok()
}

/// Whether the file is written without memory if there is room.
fn is_written_to_room(alloc: Global, file: &File) -> Result<bool, Fail> {
    let mut out = Vec::with_capacity(alloc, 100)?;
    begin(alloc)?;
    let is_written = is_written(file, &mut out);
    Ok(!was_refused(alloc) && is_written && out.as_slice() == b"[a]\n k = v\n".as_slice())
}

fn is_text_written(alloc: Global) -> Result<bool, Fail> {
    let file = loaded(alloc, b"[a] k = v")?;
    is_written_to_room(alloc, &file)
}

/// A writer that has room is refused nothing.
#[test]
fn a_file_written_where_there_is_room(rt: HostRuntime) -> Result<(), Fail> {
    assert!(rt; is_text_written(rt.alloc())?);
    Ok(())
}
