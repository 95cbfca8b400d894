//! Calls that no command makes, each with one of its allocations refused in turn, and calls that take no memory.

use crate::shim::{Outcome, begin, each_refused, was_refused};
use crate::users::put;
use gitconf_sources::key::KeyRef;
use gitconf_sources::meta::Metadata;
use gitconf_sources::source::Source;
use gitconf_text::NoMemory;
use gitconf_text::parse::section::{Name, ValueName};
use gitconf_text::value::{append_escaped, escape, normalize};
use gitconf_values::Homes;
use std::alloc::{AllocError, Global};
use std::test::Fail;

fn a_name_copied(alloc: Global) -> Result<Outcome, Fail> {
    let name = Name::try_from_bytes(alloc, b"Core-1")?;
    begin(alloc)?;
    let answer = name.to_owned();
    let refused = was_refused(alloc);
    let fits = match answer {
        Ok(copy) => copy.as_bytes() == b"Core-1".as_slice(),
        Err(NoMemory) => refused && name.as_bytes() == b"Core-1".as_slice(),
    };
    Ok(Outcome { refused, fits })
}

fn a_value_name_copied(alloc: Global) -> Result<Outcome, Fail> {
    let name = ValueName::try_from_bytes(alloc, b"Editor-1")?;
    begin(alloc)?;
    let answer = name.to_owned();
    let refused = was_refused(alloc);
    let fits = match answer {
        Ok(copy) => copy.as_bytes() == b"Editor-1".as_slice(),
        Err(NoMemory) => refused && name.as_bytes() == b"Editor-1".as_slice(),
    };
    Ok(Outcome { refused, fits })
}

fn metadata_copied(alloc: Global) -> Result<Outcome, Fail> {
    let path = String::from_str(alloc, "/home/u/.gitconfig")?;
    let meta = Metadata::from(Source::User).at(path);
    begin(alloc)?;
    let answer = meta.try_clone();
    let refused = was_refused(alloc);
    let fits = match answer {
        Ok(copy) => copy == meta,
        Err(NoMemory) => refused && meta.path.as_deref() == Some("/home/u/.gitconfig"),
    };
    Ok(Outcome { refused, fits })
}

#[test]
fn names_and_metadata(rt: HostRuntime) -> Result<(), Fail> {
    each_refused(rt.alloc(), "a copy of a name", a_name_copied)?;
    each_refused(
        rt.alloc(),
        "a copy of a name of a value",
        a_value_name_copied,
    )?;
    each_refused(rt.alloc(), "a copy of metadata", metadata_copied)
}

fn a_value_escaped(alloc: Global) -> Result<Outcome, Fail> {
    begin(alloc)?;
    let answer = escape(alloc, b" a;\"b\n");
    let refused = was_refused(alloc);
    let fits = match answer {
        Ok(value) => value.as_slice() == b"\" a;\\\"b\\n\"".as_slice(),
        Err(NoMemory) => refused,
    };
    Ok(Outcome { refused, fits })
}

fn a_value_appended(alloc: Global) -> Result<Outcome, Fail> {
    let mut line = Vec::from_slice(alloc, b"k = ")?;
    begin(alloc)?;
    let answer = append_escaped(&mut line, b" a;\"b\n");
    let refused = was_refused(alloc);
    let fits = match answer {
        Ok(()) => line.as_slice() == b"k = \" a;\\\"b\\n\"".as_slice(),
        Err(NoMemory) => refused && line.as_slice() == b"k = ".as_slice(),
    };
    Ok(Outcome { refused, fits })
}

#[test]
fn values(rt: HostRuntime) -> Result<(), Fail> {
    each_refused(rt.alloc(), "a meaning written", a_value_escaped)?;
    each_refused(rt.alloc(), "a meaning appended", a_value_appended)
}

/// These users, with one home.
fn homes_of(alloc: Global, users: &[&str]) -> Result<Homes, NoMemory> {
    let mut homes = Homes::new(alloc);
    for user in users {
        put(alloc, &mut homes, user, "/home")?;
    }
    Ok(homes)
}

/// Whether `u` has this directory, and each of the other users that home.
fn has_folders(homes: &Homes, users: &[&str], folder: Option<&str>) -> bool {
    users.iter().all(|user| homes.get(user) == Some("/home")) && homes.get("u") == folder
}

/// The user `u`, and this directory.
fn user_and_folder(alloc: Global, folder: &str) -> Result<(String, String), AllocError> {
    let user = String::from_str(alloc, "u")?;
    Ok((user, String::from_str(alloc, folder)?))
}

/// The user `u`, put into a table that has these.
fn put_beside(alloc: Global, homes: &mut Homes, others: &[&str]) -> Result<Outcome, AllocError> {
    let (user, folder) = user_and_folder(alloc, "/u")?;
    let is_begun = begin(alloc).is_ok();
    let is_put = homes.insert(user, folder).is_ok();
    let refused = was_refused(alloc);
    let stands = has_folders(homes, others, if is_put { Some("/u") } else { None });
    let fits = is_begun && stands && (is_put || refused);
    Ok(Outcome { refused, fits })
}

/// The user `u`, put beside these.
fn another_user(alloc: Global, others: &[&str]) -> Result<Outcome, Fail> {
    let mut homes = homes_of(alloc, others)?;
    Ok(put_beside(alloc, &mut homes, others)?)
}

/// As many users as a node of the table has room for.
static FIFTEEN: [&str; 15] = [
    "a", "b", "c", "d", "e", "f", "g", "h", "i", "j", "k", "l", "m", "n", "o",
];

/// A first user, and one more than the fifteen for which a node of the table has room.
#[test]
fn users(rt: HostRuntime) -> Result<(), Fail> {
    each_refused(rt.alloc(), "a first user", |alloc| another_user(alloc, &[]))?;
    each_refused(
        rt.alloc(),
        "one more user",
        |alloc| another_user(alloc, &FIFTEEN),
    )
}

/// Whether `u` gets another directory, and no memory is taken.
fn is_put_without_memory(alloc: Global, homes: &mut Homes) -> Result<bool, AllocError> {
    let (user, folder) = user_and_folder(alloc, "/v")?;
    let is_begun = begin(alloc).is_ok();
    let is_put = homes.insert(user, folder).is_ok();
    Ok(is_begun && !was_refused(alloc) && is_put && homes.get("u") == Some("/v"))
}

/// The same in a table that has only this user.
fn is_put_in_place(alloc: Global) -> Result<bool, Fail> {
    let mut homes = homes_of(alloc, &["u"])?;
    Ok(is_put_without_memory(alloc, &mut homes)?)
}

/// A user that has a directory gets another, and no memory is taken.
#[test]
fn another_home_folder(rt: HostRuntime) -> Result<(), Fail> {
    assert!(rt; is_put_in_place(rt.alloc())?);
    Ok(())
}

/// Whether the value has this meaning.
fn means(alloc: Global, value: &[u8], meaning: &[u8]) -> bool {
    match normalize(alloc, value) {
        Ok(found) => found.as_slice() == meaning,
        Err(NoMemory) => false,
    }
}

/// A key that is cut, and a meaning that is in the text, take no memory.
#[test]
fn keys_and_plain_values(rt: HostRuntime) -> Result<(), Fail> {
    begin(rt.alloc())?;
    let is_key = KeyRef::parse_unvalidated(b"remote.o.url").is_some();
    let means_it = means(rt.alloc(), b"\"a b\"", b"a b");
    assert!(rt; !was_refused(rt.alloc()) && is_key && means_it);
    Ok(())
}
