//! Texts and numbers of errors of includes and of loads.

use gitconf_sources::{FileFault, Stage};
use gix_config::file::{includes, init};
use gix_config::path::interpolate;
use gix_config::refusals::Refusal;
use std::alloc::{AllocError, Global};
use std::fmt::Display;
use std::test::Fail;

/// Whether the error has this number and this text.
fn tells<E: Refusal + Display>(
    alloc: Global,
    error: &E,
    number: u8,
    text: &str,
) -> Result<bool, AllocError> {
    Ok(error.number() == number && format!(in alloc; "{error}")?.as_str() == text)
}

/// Whether the error has this number and this text, and the error of a load that holds it has the same.
fn is_told(
    alloc: Global,
    error: includes::Error,
    number: u8,
    text: &str,
) -> Result<bool, AllocError> {
    let is_told = tells(alloc, &error, number, text)?;
    let error = init::Error::Includes(error);
    Ok(is_told && tells(alloc, &error, number, text)?)
}

#[test]
fn refused_includes(rt: HostRuntime) -> Result<(), Fail> {
    let fault = FileFault {
        stage: Stage::Read,
        not_found: false,
    };
    let path = String::from_str(rt.alloc(), "/x")?;
    let read = String::from_str(rt.alloc(), "/x")?;
    let rows: [(includes::Error, u8, &str); 8] = [
        (
            includes::Error::Interpolate(interpolate::Error::Missing { what: "home dir" }),
            12,
            "home dir is missing",
        ),
        (
            includes::Error::IncludeDepthExceeded { max_depth: 3 },
            15,
            "The maximum allowed length 3 of the file include chain built by following nested resolve_includes is exceeded",
        ),
        (
            includes::Error::MissingConfigPath,
            16,
            "Include paths from environment variables must not be relative as no config file paths exists as root",
        ),
        (
            includes::Error::MissingGitDir,
            17,
            "The git directory must be provided to support `gitdir:` conditional includes",
        ),
        (
            includes::Error::Realpath(fault),
            18,
            "Could not resolve the git directory",
        ),
        (
            includes::Error::Io {
                path,
                source: fault,
            },
            19,
            "Could not read included configuration file at '/x'",
        ),
        (
            includes::Error::CopyBuffer {
                path: read,
                source: fault,
            },
            20,
            "Failed to copy configuration file into buffer",
        ),
        (includes::Error::Memory, 27, "out of memory"),
    ];
    for (error, number, text) in rows {
        assert!(rt; is_told(rt.alloc(), error, number, text)?, "{text}");
    }
    assert_eq!(rt; init::Error::Memory.number(), 27);
    Ok(())
}
