//! The editor of one value, by a key and with a filter, and values that must exist already.

use crate::calls::{KEY, TEXT, Told, change, is_api, is_local, is_refused, is_user};
use gix_config::File;
use gix_config::file::{ValueMut, section, set_raw_value};
use gix_config::parse::span;
use std::test::Fail;

/// An edit that was made; `None` when out of memory.
fn is_set(answer: Result<(), set_raw_value::Error>) -> Told {
    match answer {
        Ok(()) => Some(true),
        Err(refusal) => is_refused(&refusal, 0),
    }
}

/// The last entry of the key, which is written with the name that the key has.
fn set_existing(file: &mut File) -> Told {
    is_set(file.set_existing_raw_value(KEY, b"v"))
}

/// The first entry of the key, since the list ends after it. If several are set, those before a refused one are set.
fn set_first_existing(file: &mut File) -> Told {
    is_set(file.set_existing_raw_multi_value(KEY, &[b"v"]))
}

#[test]
fn values_that_stand(rt: HostRuntime) -> Result<(), Fail> {
    change(
        rt.alloc(),
        "a value that stands",
        set_existing,
        b"[a]\nk = 0\n[A]\nk = v\n",
    )?;
    change(
        rt.alloc(),
        "as many values as the list has",
        set_first_existing,
        b"[a]\nk = v\n[A]\nk = 2\n",
    )
}

/// A value that was written; `None` when out of memory.
fn is_written(answer: Result<(), span::Error>) -> Told {
    match answer {
        Ok(()) => Some(true),
        Err(refusal) => is_refused(&refusal, 0),
    }
}

fn write_last(file: &mut File) -> Told {
    match file.raw_value_mut(KEY) {
        Ok(mut editor) => is_written(editor.set_string("v w")),
        Err(refusal) => is_refused(&refusal, 0),
    }
}

fn write_passing(file: &mut File) -> Told {
    match file.raw_value_mut_filter(KEY, is_api) {
        Ok(mut editor) => is_written(editor.set(b"v")),
        Err(refusal) => is_refused(&refusal, 0),
    }
}

fn write_passing_by(file: &mut File) -> Told {
    match file.raw_value_mut_filter_by("A", None, "k", is_user) {
        Ok(mut editor) => is_written(editor.set(b"v")),
        Err(refusal) => is_refused(&refusal, 0),
    }
}

/// There is no editor if no section passes.
fn write_none(file: &mut File) -> Told {
    match file.raw_value_mut_filter(KEY, is_local) {
        Ok(editor) => is_not_wanted(&editor),
        Err(refusal) => is_refused(&refusal, 9),
    }
}

/// The same by the names of the key.
fn write_none_by(file: &mut File) -> Told {
    match file.raw_value_mut_filter_by("a", None, "k", is_local) {
        Ok(editor) => is_not_wanted(&editor),
        Err(refusal) => is_refused(&refusal, 9),
    }
}

/// An editor that should not be there.
fn is_not_wanted(_editor: &ValueMut<'_>) -> Told {
    Some(false)
}

#[test]
fn one_value(rt: HostRuntime) -> Result<(), Fail> {
    change(
        rt.alloc(),
        "the last value",
        write_last,
        b"[a]\nk = 0\n[A]\nk = v w\n",
    )
}

#[test]
fn one_value_where_a_filter_passes(rt: HostRuntime) -> Result<(), Fail> {
    change(
        rt.alloc(),
        "the program's value",
        write_passing,
        b"[a]\nk = v\n[A]\nk = 2\n",
    )?;
    change(
        rt.alloc(),
        "the user's value",
        write_passing_by,
        b"[a]\nk = 0\n[A]\nk = v\n",
    )?;
    change(rt.alloc(), "no value", write_none, TEXT)?;
    change(rt.alloc(), "no value by names", write_none_by, TEXT)
}

/// A line that was pushed; `None` when out of memory.
fn is_pushed(answer: Result<(), section::value::Error>) -> Told {
    match answer {
        Ok(()) => Some(true),
        Err(refusal) => is_refused(&refusal, 0),
    }
}

/// Pushes a line to the section of the value.
fn push_beside(file: &mut File) -> Told {
    match file.raw_value_mut(KEY) {
        Ok(editor) => {
            let mut section = editor.into_section_mut();
            is_pushed(section.push("j", Some(b"w")))
        }
        Err(refusal) => is_refused(&refusal, 0),
    }
}

/// Whether the section that the editor shows has that name.
fn stands_in(editor: &ValueMut<'_>, name: &[u8]) -> bool {
    editor.section().header().name() == name
}

fn show_section(file: &mut File) -> Told {
    match file.raw_value_mut(KEY) {
        Ok(editor) => Some(stands_in(&editor, b"A")),
        Err(refusal) => is_refused(&refusal, 0),
    }
}

#[test]
fn the_section_of_a_value(rt: HostRuntime) -> Result<(), Fail> {
    change(rt.alloc(), "the section of a value", show_section, TEXT)?;
    change(
        rt.alloc(),
        "a line beside a value",
        push_beside,
        b"[a]\nk = 0\n[A]\nk = 2\nj = w\n",
    )
}
