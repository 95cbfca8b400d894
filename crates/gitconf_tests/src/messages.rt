//! Texts of errors of names and of paths.

use gitconf_text::NoMemory;
use gitconf_text::parse::section::{Name, ValueName};
use gitconf_values::path::interpolate;
use std::alloc::{AllocError, Global};
use std::fmt::Display;
use std::str::{self, Utf8Error};
use std::test::Fail;

/// Whether it is shown as this text.
fn is_shown<T: Display>(alloc: Global, shown: &T, text: &str) -> Result<bool, AllocError> {
    Ok(format!(in alloc; "{shown}")?.as_str() == text)
}

/// Whether bytes that are not a name are refused with this number and text.
fn is_name_refused(alloc: Global, number: u8, text: &str) -> Result<bool, AllocError> {
    match Name::try_from_bytes(alloc, b"a_b") {
        Ok(_) => Ok(false),
        Err(error) => Ok(error.number() == number && is_shown(alloc, &error, text)?),
    }
}

#[test]
fn a_refused_name(rt: HostRuntime) -> Result<(), Fail> {
    let text = "Valid names consist of alphanumeric characters or dashes.";
    assert!(rt; is_name_refused(rt.alloc(), 6, text)?);
    Ok(())
}

/// The same for the name of a value.
fn is_value_name_refused(alloc: Global, number: u8, text: &str) -> Result<bool, AllocError> {
    match ValueName::try_from_bytes(alloc, b"1a") {
        Ok(_) => Ok(false),
        Err(error) => Ok(error.number() == number && is_shown(alloc, &error, text)?),
    }
}

#[test]
fn a_refused_name_of_a_value(rt: HostRuntime) -> Result<(), Fail> {
    let text =
        "Valid value names consist of alphanumeric characters or dashes, starting with an alphabetic character.";
    assert!(rt; is_value_name_refused(rt.alloc(), 6, text)?);
    Ok(())
}

#[test]
fn want_of_memory(rt: HostRuntime) -> Result<(), Fail> {
    assert!(rt; is_shown(rt.alloc(), &NoMemory, "out of memory")?);
    assert!(rt; is_shown(rt.alloc(), &interpolate::Error::Memory, "out of memory")?);
    Ok(())
}

/// The errors of a path that isn't UTF-8, and of a user's name that isn't.
fn refusals(err: Utf8Error) -> [interpolate::Error; 2] {
    let what = "path to interpolate";
    [
        interpolate::Error::Utf8Conversion { what, err },
        interpolate::Error::UsernameConversion(err),
    ]
}

#[test]
fn refused_paths(rt: HostRuntime) -> Result<(), Fail> {
    let Err(err) = str::from_utf8(b"\xff") else {
        return Err(Fail::new("UTF-8"));
    };
    let [path, user] = refusals(err);
    assert!(rt; is_shown(rt.alloc(), &path, "Ill-formed UTF-8 in path to interpolate")?);
    assert!(rt; is_shown(rt.alloc(), &user, "Ill-formed UTF-8 in username")?);
    Ok(())
}
