//! Lookups of paths, booleans and integers with a filter, and in a type of the caller's by a key.

use crate::calls::{KEY, Told, all, is_api, is_local, is_refused, is_user, look_up};
use gix_config::file::SectionRef;
use gix_config::refusals::Refusal;
use gix_config::{Boolean, File, KeyRef, NoMemory, Path, lookup, value};
use std::test::Fail;

/// Whether this path was found, or nothing if none is expected.
fn is_path(found: &Result<Option<Path>, NoMemory>, wanted: Option<&[u8]>) -> Told {
    match (found, wanted) {
        (Ok(Some(path)), Some(wanted)) => Some(path.as_bytes() == wanted),
        (Ok(found), wanted) => Some(found.is_none() && wanted.is_none()),
        (Err(NoMemory), _) => None,
    }
}

fn paths(file: &File) -> Told {
    all(&[
        is_path(&file.path("a.k"), Some(b"2")),
        is_path(&file.path_filter("a.k", is_api), Some(b"0")),
        is_path(&file.path_filter("a.k", is_local), None),
        is_path(&file.path_filter_by("A", None, "K", is_user), Some(b"2")),
        is_path(&file.path_filter_by("a", None, "k", is_local), None),
    ])
}

/// Whether this was found, or nothing if none is expected.
fn is_typed<T: PartialEq>(found: &Result<Option<T>, value::Error>, wanted: &Option<T>) -> Told {
    match found {
        Ok(found) => Some(found == wanted),
        Err(refusal) => is_refused(refusal, 0),
    }
}

/// `0` is false, and `2` is true.
fn booleans(file: &File) -> Told {
    all(&[
        is_typed(&file.boolean_filter("a.k", is_api), &Some(false)),
        is_typed(&file.boolean_filter("a.k", is_local), &None),
        is_typed(
            &file.boolean_filter_by("A", None, "K", is_user),
            &Some(true),
        ),
        is_typed(&file.boolean_filter_by("a", None, "k", is_local), &None),
    ])
}

fn integers(file: &File) -> Told {
    all(&[
        is_typed(&file.integer_filter("a.k", is_api), &Some(0)),
        is_typed(&file.integer_filter("a.k", is_local), &None),
        is_typed(&file.integer_filter_by("A", None, "K", is_user), &Some(2)),
        is_typed(&file.integer_filter_by("a", None, "k", is_local), &None),
    ])
}

/// Whether these integers were found, or nothing if none is expected.
fn are_integers(found: &Result<Option<Vec<i64>>, value::Error>, wanted: Option<&[i64]>) -> Told {
    match found {
        Ok(found) => Some(found.as_deref() == wanted),
        Err(refusal) => is_refused(refusal, 0),
    }
}

fn all_integers(file: &File) -> Told {
    all(&[
        are_integers(&file.integers("a.k"), Some(&[0, 2])),
        are_integers(&file.integers_filter("a.k", is_user), Some(&[2])),
        are_integers(&file.integers_filter("a.k", is_local), None),
        are_integers(&file.integers_filter_by("A", None, "K", is_api), Some(&[0])),
        are_integers(&file.integers_filter_by("a", None, "k", is_local), None),
    ])
}

#[test]
fn passing_sections(rt: HostRuntime) -> Result<(), Fail> {
    look_up(rt.alloc(), "a path", paths)?;
    look_up(rt.alloc(), "a boolean", booleans)?;
    look_up(rt.alloc(), "an integer", integers)?;
    look_up(rt.alloc(), "all integers", all_integers)
}

/// A key that no section has.
const MISSED: KeyRef<'static> = KeyRef {
    section_name: "b",
    subsection_name: None,
    value_name: "k",
};

/// Why a lookup in the type `Boolean` is refused.
type Refused = lookup::Error<value::Error>;

/// Whether the last value is true, and a value that isn't there is found as nothing.
fn tried(file: &File) -> Told {
    let found: Result<Option<Boolean>, Refused> = file.try_value(KEY);
    let missed: Result<Option<Boolean>, Refused> = file.try_value(MISSED);
    match (found, missed) {
        (Ok(found), Ok(missed)) => Some(found == Some(Boolean(true)) && missed.is_none()),
        (Err(refusal), _) | (_, Err(refusal)) => is_refused(&refusal, 0),
    }
}

/// The last value and all of them, without their sections.
fn of_type(file: &File) -> Told {
    let last: Result<Boolean, Refused> = file.value(KEY);
    let values: Result<Vec<Boolean>, Refused> = file.values(KEY);
    match (last, values) {
        (Ok(last), Ok(values)) => Some(
            last == Boolean(true)
                && values.as_slice() == [Boolean(false), Boolean(true)].as_slice(),
        ),
        (Err(refusal), _) | (_, Err(refusal)) => is_refused(&refusal, 0),
    }
}

/// Whether the boolean is in a section of that name.
fn stands_in(found: &(Boolean, SectionRef<'_>), value: bool, name: &[u8]) -> bool {
    let (found, section) = found;
    found.0 == value && section.header().name() == name
}

fn of_type_with_section(file: &File) -> Told {
    let found: Result<(Boolean, SectionRef<'_>), Refused> = file.value_with_section(KEY);
    match &found {
        Ok(found) => Some(stands_in(found, true, b"A")),
        Err(refusal) => is_refused(refusal, 0),
    }
}

/// Whether the first value is false, and the second one true.
fn are_both(found: &[(Boolean, SectionRef<'_>)]) -> bool {
    match found {
        [first, second] => stands_in(first, false, b"a") && stands_in(second, true, b"A"),
        _ => false,
    }
}

fn all_of_type_with_sections(file: &File) -> Told {
    let found: Result<Vec<(Boolean, SectionRef<'_>)>, Refused> = file.values_with_sections(KEY);
    match &found {
        Ok(found) => Some(are_both(found)),
        Err(refusal) => is_refused(refusal, 0),
    }
}

#[test]
fn types_of_the_caller(rt: HostRuntime) -> Result<(), Fail> {
    look_up(rt.alloc(), "a value if there is one", tried)?;
    look_up(rt.alloc(), "values", of_type)?;
    look_up(rt.alloc(), "a value and its section", of_type_with_section)?;
    look_up(
        rt.alloc(),
        "all values and their sections",
        all_of_type_with_sections,
    )
}
