//! What paths stand for if there is a table of users, which the language of the rows doesn't have; the directories that paths are
//! in, and joined paths.

use crate::users::homes;
use bstr::BString;
use gitconf_text::NoMemory;
use gitconf_values::path::interpolate::{Context, Error};
use gitconf_values::path::{join, parent};
use gitconf_values::{Homes, Path};
use std::alloc::{AllocError, Global};
use std::test::Fail;

/// The number of an error.
fn number(refusal: &Error) -> u8 {
    match refusal {
        Error::Missing { .. } => 12,
        Error::Utf8Conversion { .. } => 13,
        Error::UsernameConversion(_) => 14,
        Error::Memory => 27,
    }
}

/// A path, and what it stands for, or the number of its error.
type Row = (&'static [u8], Result<&'static str, u8>);

/// Whether the path stands for that, or is refused with that number.
fn is_interpolated(alloc: Global, context: Context<'_>, row: &Row) -> Result<bool, AllocError> {
    let path = Path::from(BString::from_slice(alloc, row.0)?);
    Ok(match path.interpolate(context) {
        Ok(path) => row.1 == Ok(path.as_str()),
        Err(refusal) => row.1 == Err(number(&refusal)),
    })
}

static USERS: [(&str, &str); 4] = [
    ("a", "/first"),
    ("u", "/u"),
    ("", "/nobody"),
    ("z", "/last"),
];

static PATHS: [Row; 13] = [
    (b"~u/x", Ok("/u/x")),
    (b"~u/", Ok("/u/")),
    (b"~u//x", Ok("/x")),
    (b"~u/x/y", Ok("/u/x/y")),
    (b"~u", Ok("~u")),
    (b"~/x", Ok("/h/x")),
    (b"~", Ok("~")),
    (b"%(prefix)/x", Ok("/p/x")),
    (b"~v/x", Err(12)),
    (b"~U/x", Err(12)),
    (b"~v/\xff", Err(12)),
    (b"~u/\xff", Err(13)),
    (b"~\xff/\xff", Err(14)),
];

/// Whether all paths stand for what the rows say, with these users.
fn are_interpolated(alloc: Global, homes: &Homes) -> Result<bool, AllocError> {
    let context = Context {
        git_install_dir: Some("/p"),
        home_dir: Some("/h"),
        home_for_user: Some(homes),
    };
    for row in PATHS.iter() {
        if !is_interpolated(alloc, context, row)? {
            return Ok(false);
        }
    }
    Ok(true)
}

fn are_interpolated_with_users(alloc: Global) -> Result<bool, Fail> {
    let homes = homes(alloc, &USERS)?;
    Ok(are_interpolated(alloc, &homes)?)
}

#[test]
fn folders_of_users(rt: HostRuntime) -> Result<(), Fail> {
    assert!(rt; are_interpolated_with_users(rt.alloc())?);
    Ok(())
}

/// Paths, and the directory that each is in.
static FOLDERS: [(&str, Option<&str>); 9] = [
    ("/x", Some("/")),
    ("//x", Some("/")),
    ("x", Some("")),
    ("x/", Some("")),
    ("a//b/", Some("a")),
    ("/d/./m", Some("/d/.")),
    ("/", None),
    ("//", None),
    ("", None),
];

#[test]
fn folders_of_paths(rt: HostRuntime) {
    for (path, folder) in FOLDERS.iter() {
        assert!(rt; parent(path) == *folder);
    }
}

/// A directory, a path in it, and both joined.
static JOINED: [(&str, &str, &str); 8] = [
    ("/h", "x", "/h/x"),
    ("/h/", "x", "/h/x"),
    ("/h//", "x", "/h//x"),
    ("/", "x", "/x"),
    ("/h", "/x", "/x"),
    ("", "x", "x"),
    ("/h", "", "/h/"),
    ("/h", "x/", "/h/x/"),
];

fn is_joined(alloc: Global, folder: &str, rest: &str, path: &str) -> Result<bool, NoMemory> {
    Ok(join(alloc, folder, rest)?.as_str() == path)
}

#[test]
fn paths_in_folders(rt: HostRuntime) -> Result<(), Fail> {
    for (folder, rest, path) in JOINED.iter() {
        assert!(rt; is_joined(rt.alloc(), folder, rest, path)?);
    }
    Ok(())
}
