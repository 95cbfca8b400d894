//! The editor of a section, by a key, with a filter, and made if none passes; and what it shows.

use crate::calls::{TEXT, Told, change, is_api, is_local, is_refused};
use bstr::BString;
use gix_config::file::section::value;
use gix_config::file::{Metadata, SectionMut};
use gix_config::lookup::existing;
use gix_config::source::Trust;
use gix_config::{File, NoMemory};
use std::test::Fail;

/// Whether this was removed; `None` when out of memory.
fn is_taken(answer: Result<Option<BString>, NoMemory>, value: &[u8]) -> Told {
    match answer {
        Ok(Some(found)) => Some(found.as_bytes() == value),
        Ok(None) => Some(false),
        Err(NoMemory) => None,
    }
}

fn take_out_by_key(file: &mut File) -> Told {
    match file.section_mut_by_key(b"a") {
        Ok(mut editor) => is_taken(editor.remove("k"), b"2"),
        Err(refusal) => is_refused(&refusal, 0),
    }
}

fn take_out_passing(file: &mut File) -> Told {
    match file.section_mut_filter("A", None, is_api) {
        Ok(mut editor) => is_taken(editor.remove("k"), b"0"),
        Err(refusal) => is_refused(&refusal, 0),
    }
}

fn take_out_passing_by_key(file: &mut File) -> Told {
    match file.section_mut_filter_by_key(b"A", is_api) {
        Ok(mut editor) => is_taken(editor.remove("k"), b"0"),
        Err(refusal) => is_refused(&refusal, 0),
    }
}

fn take_out_or_make(file: &mut File) -> Told {
    match file.section_mut_or_create_new_filter("A", None, is_api) {
        Ok(mut editor) => is_taken(editor.remove("k"), b"0"),
        Err(refusal) => is_refused(&refusal, 0),
    }
}

#[test]
fn by_a_key(rt: HostRuntime) -> Result<(), Fail> {
    change(
        rt.alloc(),
        "the last section",
        take_out_by_key,
        b"[a]\nk = 0\n[A]\n",
    )
}

/// Whether so many were removed; `None` when out of memory.
fn is_count(answer: Result<usize, NoMemory>, wanted: usize) -> Told {
    match answer {
        Ok(count) => Some(count == wanted),
        Err(NoMemory) => None,
    }
}

/// Whether a line was pushed; `None` when out of memory.
fn is_pushed(answer: Result<(), value::Error>) -> Told {
    match answer {
        Ok(()) => Some(true),
        Err(refusal) => is_refused(&refusal, 0),
    }
}

fn take_out_marked(file: &mut File) -> Told {
    match file.section_mut("a", None) {
        Ok(mut editor) => is_count(editor.remove_marked("K", &[true, true]), 1),
        Err(refusal) => is_refused(&refusal, 0),
    }
}

fn take_out_unmarked(file: &mut File) -> Told {
    match file.section_mut("a", None) {
        Ok(mut editor) => is_count(editor.remove_marked("k", &[false]), 0),
        Err(refusal) => is_refused(&refusal, 0),
    }
}

fn push_below(file: &mut File) -> Told {
    match file.section_mut("a", None) {
        Ok(mut editor) => is_pushed(editor.push_after_last("j", Some(b"1"))),
        Err(refusal) => is_refused(&refusal, 0),
    }
}

fn push_no_name(file: &mut File) -> Told {
    match file.section_mut("a", None) {
        Ok(mut editor) => match editor.push_after_last("j j", None) {
            Ok(()) => Some(false),
            Err(refusal) => is_refused(&refusal, 6),
        },
        Err(refusal) => is_refused(&refusal, 0),
    }
}

#[test]
fn below_the_last_entry(rt: HostRuntime) -> Result<(), Fail> {
    change(
        rt.alloc(),
        "a line below the last entry",
        push_below,
        b"[a]\nk = 0\n[A]\nk = 2\nj = 1\n",
    )?;
    change(rt.alloc(), "a name that is none", push_no_name, TEXT)
}

#[test]
fn by_marks(rt: HostRuntime) -> Result<(), Fail> {
    change(
        rt.alloc(),
        "the marked entries",
        take_out_marked,
        b"[a]\nk = 0\n[A]\n",
    )?;
    change(rt.alloc(), "no marked entry", take_out_unmarked, TEXT)
}

/// What is left after the program's value is removed.
const OF_USER: &[u8] = b"[a]\n[A]\nk = 2\n";

#[test]
fn where_a_filter_passes(rt: HostRuntime) -> Result<(), Fail> {
    change(
        rt.alloc(),
        "the program's section",
        take_out_passing,
        OF_USER,
    )?;
    change(
        rt.alloc(),
        "the program's section by a key",
        take_out_passing_by_key,
        OF_USER,
    )?;
    change(
        rt.alloc(),
        "a section that stands",
        take_out_or_make,
        OF_USER,
    )
}

/// Whether the section has its name, and no entry.
fn is_made(editor: &SectionMut<'_>) -> bool {
    editor.header().name() == b"A".as_slice() && editor.num_values() == 0
}

fn make(file: &mut File) -> Told {
    match file.section_mut_or_create_new_filter("A", None, is_local) {
        Ok(editor) => Some(is_made(&editor)),
        Err(refusal) => is_refused(&refusal, 0),
    }
}

#[test]
fn made_where_none_passes(rt: HostRuntime) -> Result<(), Fail> {
    change(
        rt.alloc(),
        "a section that is made",
        make,
        b"[a]\nk = 0\n[A]\nk = 2\n[A]\n",
    )
}

/// No section is opened if none has the name.
fn open_none(file: &mut File) -> Told {
    match file.section_mut_by_key(b"b") {
        Ok(editor) => is_not_wanted(&editor),
        Err(refusal) => is_refused(&refusal, 7),
    }
}

/// No section is opened if none has the subsection, whatever passes.
fn open_none_passing(file: &mut File) -> Told {
    match file.section_mut_filter("a", Some(b""), is_api) {
        Ok(editor) => is_not_wanted(&editor),
        Err(refusal) => is_refused(&refusal, 8),
    }
}

/// An editor that should not be there.
fn is_not_wanted(_editor: &SectionMut<'_>) -> Told {
    Some(false)
}

#[test]
fn none_is_opened(rt: HostRuntime) -> Result<(), Fail> {
    change(rt.alloc(), "no section", open_none, TEXT)?;
    change(
        rt.alloc(),
        "no section that passes",
        open_none_passing,
        TEXT,
    )
}

fn is_trusted(meta: &Metadata, trust: Trust) -> bool {
    meta.trust == trust
}

/// Whether the section is trusted less after that, and fully before; `None` when out of memory, and then it is as before.
fn trusts_less(editor: &mut SectionMut<'_>) -> Told {
    if !is_trusted(editor.meta(), Trust::Full) {
        return Some(false);
    }
    match editor.set_trust(Trust::Reduced) {
        Ok(()) => Some(is_trusted(editor.meta(), Trust::Reduced)),
        Err(NoMemory) if is_trusted(editor.meta(), Trust::Full) => None,
        Err(NoMemory) => Some(false),
    }
}

/// How many sections of the file are trusted fully.
fn trusted_fully(file: &File) -> usize {
    let mut count: usize = 0;
    for section in file.sections() {
        if is_trusted(section.meta(), Trust::Full) {
            count = count.saturating_add(1);
        }
    }
    count
}

fn trust_last(file: &mut File) -> Told {
    match file.section_mut("a", None) {
        Ok(mut editor) => trusts_less(&mut editor),
        Err(refusal) => is_refused(&refusal, 0),
    }
}

/// When one of two sections is trusted less, the other one keeps its trust.
fn trust_one(file: &mut File) -> Told {
    let is_told = trust_last(file)?;
    Some(is_told && trusted_fully(file) == 1)
}

#[test]
fn trust(rt: HostRuntime) -> Result<(), Fail> {
    change(rt.alloc(), "another trust", trust_one, TEXT)
}

/// Whether the name is all that the section has, and it has a value.
fn has_one(editor: &SectionMut<'_>) -> bool {
    let mut names = editor.value_names();
    names.next() == Some("k")
        && names.next().is_none()
        && editor.contains_value_name("K")
        && !editor.contains_value_name("j")
        && editor.num_values() == 1
        && !editor.is_void()
}

/// Whether the editor shows its section, its header and its body.
fn shows_parts(editor: &SectionMut<'_>) -> bool {
    editor.header().name() == b"A".as_slice()
        && editor.body().num_values() == 1
        && editor.section().id() == editor.id()
        && editor.meta().source == gix_config::Source::User
}

/// Whether the editor shows the user's section; an editor is made without memory here, since nothing of it is kept.
fn shows(file: &mut File) -> Told {
    match file.section_mut("a", None) {
        Ok(editor) => Some(has_one(&editor) && shows_parts(&editor)),
        Err(existing::Error::Memory) => None,
        Err(_) => Some(false),
    }
}

#[test]
fn what_an_editor_shows(rt: HostRuntime) -> Result<(), Fail> {
    change(rt.alloc(), "a look at a section", shows, TEXT)
}
