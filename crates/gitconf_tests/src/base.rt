//! Sources, metadata, and home directories.

use crate::users::homes;
use gitconf_sources::meta::Metadata;
use gitconf_sources::source::{Kind, Source, Trust};
use gitconf_sources::{FileFault, Stage};
use gitconf_text::NoMemory;
use gitconf_values::Homes;
use std::alloc::{AllocError, Global};
use std::cmp::Ordering;
use std::test::Fail;

/// A source, its group, and whether the group lists it.
type InGroup = (Source, Kind, bool);

/// The sources, lowest first.
static SOURCES: [InGroup; 10] = [
    (Source::GitInstallation, Kind::GitInstallation, true),
    (Source::System, Kind::System, true),
    (Source::Git, Kind::Global, true),
    (Source::User, Kind::Global, true),
    (Source::Local, Kind::Repository, true),
    (Source::Worktree, Kind::Repository, true),
    (Source::Env, Kind::Override, true),
    (Source::Cli, Kind::Override, true),
    (Source::Api, Kind::Override, true),
    (Source::EnvOverride, Kind::Override, false),
];

/// Whether the row has the source's group, and whether the group lists it.
fn is_in_group(row: &InGroup) -> bool {
    let (source, kind, is_listed) = *row;
    source.kind() == kind && kind.sources().contains(&source) == is_listed
}

/// Whether each source is higher than the one before it.
fn do_ascend(rows: &[InGroup]) -> bool {
    let mut lower = None;
    for (source, ..) in rows {
        if lower >= Some(*source) {
            return false;
        }
        lower = Some(*source);
    }
    true
}

#[test]
fn sources_stand_in_groups(rt: HostRuntime) {
    assert!(rt; SOURCES.iter().all(is_in_group) && do_ascend(&SOURCES));
}

/// The four parts of metadata.
type Parts<'a> = (Option<&'a str>, Source, u8, Trust);

/// Metadata of these four parts.
fn of_parts(alloc: Global, parts: &Parts<'_>) -> Result<Metadata, AllocError> {
    let (path, source, level, trust) = *parts;
    let path = match path {
        Some(path) => Some(String::from_str(alloc, path)?),
        None => None,
    };
    Ok(Metadata {
        path,
        source,
        level,
        trust,
    })
}

/// Whether the metadata has these four parts.
fn has_parts(made: &Metadata, parts: &Parts<'_>) -> bool {
    (made.path.as_deref(), made.source, made.level, made.trust) == *parts
}

/// What a program makes.
const API: Parts<'static> = (None, Source::Api, 0, Trust::Full);

/// What variables of the environment are.
const VARIABLES: Parts<'static> = (None, Source::Env, 0, Trust::Full);

/// The file `/a`, which isn't trusted.
const FILE: Parts<'static> = (Some("/a"), Source::Env, 0, Trust::Reduced);

fn is_made_of_api() -> bool {
    has_parts(&Metadata::api(), &API) && has_parts(&Metadata::default(), &API)
}

fn is_made_of_variables() -> bool {
    has_parts(&Metadata::from(Source::Env), &VARIABLES)
}

fn is_made_of_file(path: String) -> bool {
    let made = Metadata::from(Source::Env).with(Trust::Reduced).at(path);
    has_parts(&made, &FILE)
}

#[test]
fn metadata_is_made(rt: HostRuntime) -> Result<(), Fail> {
    let path = String::from_str(rt.alloc(), "/a")?;
    assert!(rt; is_made_of_api() && is_made_of_variables() && is_made_of_file(path));
    Ok(())
}

fn is_made_of_path(path: String) -> bool {
    let made: Result<Metadata, FileFault> = Metadata::try_from_path(
        path,
        Source::Env,
        Ok(Trust::Reduced),
    );
    match made {
        Ok(made) => has_parts(&made, &FILE),
        Err(_) => false,
    }
}

fn is_refused_path(path: String) -> bool {
    let fault = FileFault {
        stage: Stage::Read,
        not_found: true,
    };
    match Metadata::try_from_path(path, Source::Env, Err(fault)) {
        Ok(_) => false,
        Err(told) => told == fault,
    }
}

#[test]
fn metadata_of_a_file(rt: HostRuntime) -> Result<(), Fail> {
    assert!(rt; is_made_of_path(String::from_str(rt.alloc(), "/a")?));
    assert!(rt; is_refused_path(String::from_str(rt.alloc(), "/a")?));
    Ok(())
}

/// Whether a copy of the metadata has these parts.
fn has_same_copy(made: &Metadata, parts: &Parts<'_>) -> Result<bool, NoMemory> {
    Ok(has_parts(&made.try_clone()?, parts))
}

/// Whether metadata of these parts has them, and so has a copy of it.
fn is_copied(alloc: Global, parts: &Parts<'_>) -> Result<bool, Fail> {
    let made = of_parts(alloc, parts)?;
    Ok(has_parts(&made, parts) && has_same_copy(&made, parts)?)
}

/// How the metadata of two rows is ordered, and whether it is the same.
fn compared(
    alloc: Global,
    one: &Parts<'_>,
    other: &Parts<'_>,
) -> Result<(Ordering, bool), AllocError> {
    let one = of_parts(alloc, one)?;
    let other = of_parts(alloc, other)?;
    Ok((one.cmp(&other), one == other))
}

/// Metadata in ascending order.
static ASCENDING: [Parts<'static>; 10] = [
    (None, Source::System, 9, Trust::Full),
    (None, Source::Api, 0, Trust::Reduced),
    (None, Source::Api, 0, Trust::Full),
    (None, Source::Api, 1, Trust::Reduced),
    (Some(""), Source::Api, 0, Trust::Full),
    (Some("/a"), Source::GitInstallation, 0, Trust::Full),
    (Some("/a"), Source::User, 255, Trust::Full),
    (Some("/a"), Source::Local, 0, Trust::Reduced),
    (Some("/a/b"), Source::System, 0, Trust::Full),
    (Some("/b"), Source::GitInstallation, 0, Trust::Full),
];

/// Whether the metadata at this place is ordered as its place is.
fn is_in_order(alloc: Global, at: usize, one: &Parts<'_>) -> Result<bool, AllocError> {
    for (place, other) in ASCENDING.iter().enumerate() {
        if compared(alloc, one, other)? != (at.cmp(&place), at == place) {
            return Ok(false);
        }
    }
    Ok(true)
}

#[test]
fn metadata_is_ordered_and_copied(rt: HostRuntime) -> Result<(), Fail> {
    for (at, one) in ASCENDING.iter().enumerate() {
        assert!(rt; is_copied(rt.alloc(), one)? && is_in_order(rt.alloc(), at, one)?);
    }
    Ok(())
}

/// Users, each with a directory. The last directory that was put in counts.
static USERS: [(&str, &str); 4] = [("u", "/u"), ("v", "/v"), ("", "/e"), ("u", "/w")];

/// Users, and the directory that each has.
static FOLDERS: [(&str, Option<&str>); 5] = [
    ("u", Some("/w")),
    ("v", Some("/v")),
    ("", Some("/e")),
    ("U", None),
    ("w", None),
];

/// Whether the users have these directories.
fn have_folders(homes: &Homes) -> bool {
    FOLDERS.iter().all(|row| homes.get(row.0) == row.1)
}

/// Whether a table of the users finds them.
fn are_found(alloc: Global) -> Result<bool, NoMemory> {
    let homes = homes(alloc, &USERS)?;
    Ok(have_folders(&homes))
}

/// Whether a table into which no user was put knows nobody.
fn knows_nobody(alloc: Global) -> bool {
    Homes::new(alloc).get("u").is_none()
}

#[test]
fn home_folders(rt: HostRuntime) -> Result<(), Fail> {
    assert!(rt; are_found(rt.alloc())? && knows_nobody(rt.alloc()));
    Ok(())
}
