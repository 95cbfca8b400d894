//! The editor of several values, by a key and with a filter.

use crate::calls::{KEY, TEXT, Told, are_texts, change, is_api, is_local, is_refused, is_user};
use gix_config::File;
use gix_config::file::MultiValueMut;
use gix_config::parse::span;
use std::test::Fail;

/// Values that were written; `None` when out of memory.
fn are_written(answer: Result<(), span::Error>) -> Told {
    match answer {
        Ok(()) => Some(true),
        Err(refusal) => is_refused(&refusal, 0),
    }
}

/// The second of two values, which is written from a text.
fn write_second_of(editor: &mut MultiValueMut<'_>) -> Told {
    if editor.len() != 2 {
        return Some(false);
    }
    are_written(editor.set_string_at(1, "v w"))
}

fn write_second(file: &mut File) -> Told {
    match file.raw_values_mut(KEY) {
        Ok(mut editor) => write_second_of(&mut editor),
        Err(refusal) => is_refused(&refusal, 0),
    }
}

/// Gives the only value of the editor another one.
fn write_only(editor: &mut MultiValueMut<'_>) -> Told {
    if editor.len() != 1 {
        return Some(false);
    }
    are_written(editor.set_all(b"v"))
}

fn write_passing(file: &mut File) -> Told {
    match file.raw_values_mut_filter(KEY, is_api) {
        Ok(mut editor) => write_only(&mut editor),
        Err(refusal) => is_refused(&refusal, 0),
    }
}

fn write_passing_by(file: &mut File) -> Told {
    match file.raw_values_mut_filter_by("A", None, "k", is_user) {
        Ok(mut editor) => write_only(&mut editor),
        Err(refusal) => is_refused(&refusal, 0),
    }
}

/// There is no editor if no section passes.
fn write_none(file: &mut File) -> Told {
    match file.raw_values_mut_filter(KEY, is_local) {
        Ok(editor) => is_not_wanted(&editor),
        Err(refusal) => is_refused(&refusal, 9),
    }
}

/// The same by the names of the key.
fn write_none_by(file: &mut File) -> Told {
    match file.raw_values_mut_filter_by("a", None, "k", is_local) {
        Ok(editor) => is_not_wanted(&editor),
        Err(refusal) => is_refused(&refusal, 9),
    }
}

/// An editor that should not be there.
fn is_not_wanted(_editor: &MultiValueMut<'_>) -> Told {
    Some(false)
}

#[test]
fn one_of_several(rt: HostRuntime) -> Result<(), Fail> {
    change(
        rt.alloc(),
        "the second value",
        write_second,
        b"[a]\nk = 0\n[A]\nk = v w\n",
    )
}

#[test]
fn where_a_filter_passes(rt: HostRuntime) -> Result<(), Fail> {
    change(
        rt.alloc(),
        "the program's values",
        write_passing,
        b"[a]\nk = v\n[A]\nk = 2\n",
    )?;
    change(
        rt.alloc(),
        "the user's values",
        write_passing_by,
        b"[a]\nk = 0\n[A]\nk = v\n",
    )?;
    change(rt.alloc(), "no values", write_none, TEXT)?;
    change(rt.alloc(), "no values by names", write_none_by, TEXT)
}

/// Whether the editor has both values.
fn has_both(editor: &MultiValueMut<'_>) -> Told {
    match editor.get() {
        Ok(found) => Some(are_texts(&found, &[b"0", b"2"])),
        Err(refusal) => is_refused(&refusal, 0),
    }
}

/// Deletes everything that the editor has.
fn delete_both(editor: &mut MultiValueMut<'_>) -> Told {
    let has_both = has_both(editor)?;
    let was_empty = editor.is_empty();
    editor.delete_all();
    Some(has_both && !was_empty && editor.is_empty() && editor.len() == 0)
}

fn delete_all(file: &mut File) -> Told {
    match file.raw_values_mut(KEY) {
        Ok(mut editor) => delete_both(&mut editor),
        Err(refusal) => is_refused(&refusal, 0),
    }
}

#[test]
fn all_are_deleted(rt: HostRuntime) -> Result<(), Fail> {
    change(
        rt.alloc(),
        "all values deleted",
        delete_all,
        b"[a]\n\n[A]\n\n",
    )
}
