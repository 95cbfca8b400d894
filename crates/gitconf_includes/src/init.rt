//! How files are made of bytes, and why that is refused.
ghost use Rattle.std.specs.Prelude.{◌≡◌};

use crate::includes;
use gitconf_read::error as parse;
use gitconf_text::NoMemory;
use gitconf_text::parse::span;
use gitconf_values::path::interpolate;
use thiserror::Error;

/// Why a file is not made.
#[derive(Debug, Drop, Error)]
pub enum Error {
    /// The parser refused the bytes: E1 or E2.
    #[error(transparent)]
    Parse(parse::Error),
    /// A path could not be interpolated: E12 to E14.
    #[error(transparent)]
    Interpolate(interpolate::Error),
    /// An include was refused.
    #[error(transparent)]
    Includes(includes::Error),
    /// The place of a part would be past 4294967295, or no section number is left: E3.
    #[error(transparent)]
    Span(span::Error),
    /// An allocation failed: E27.
    #[error("out of memory")]
    Memory,
}

impl From<parse::Error> for Error {
    ghost use Rattle.gitconf_includes.specs.Errors.{init_of_parse};

    ghost from_gives = { λ parse e. e ≡ init_of_parse parse };

    fn from(parse: parse::Error) -> Error {
        if parse.is_memory() {
            Error::Memory
        } else {
            Error::Parse(parse)
        }
    }
}

impl From<interpolate::Error> for Error {
    ghost use Rattle.gitconf_includes.specs.Errors.{init_of_interpolate};

    ghost from_gives = { λ interpolate e. e ≡ init_of_interpolate interpolate };

    fn from(interpolate: interpolate::Error) -> Error {
        match interpolate {
            interpolate::Error::Memory => Error::Memory,
            interpolate => Error::Interpolate(interpolate),
        }
    }
}

impl From<includes::Error> for Error {
    ghost use Rattle.gitconf_includes.specs.Errors.{init_of_includes};

    ghost from_gives = { λ includes e. e ≡ init_of_includes includes };

    fn from(includes: includes::Error) -> Error {
        match includes {
            includes::Error::Memory => Error::Memory,
            includes => Error::Includes(includes),
        }
    }
}

impl From<span::Error> for Error {
    ghost use Rattle.gitconf_includes.specs.Errors.{init_of_span};

    ghost from_gives = { λ span e. e ≡ init_of_span span };

    fn from(span: span::Error) -> Error {
        if span.is_memory() {
            Error::Memory
        } else {
            Error::Span(span)
        }
    }
}

impl From<NoMemory> for Error {
    ghost use Rattle.gitconf_includes.specs.declared.init.Error.TheVariants.{Memory};

    ghost from_gives = { λ _ e. e ≡ Memory };

    fn from(_e: NoMemory) -> Error {
        Error::Memory
    }
}

/// How files are made of bytes. The default follows no include, keeps everything that a text has, and refuses a file that
/// can't be read.
#[derive(Clone, Copy, Default)]
pub struct Options<'a> {
    /// Which includes are followed.
    pub includes: includes::Options<'a>,
    /// Whether whitespace, comments and line endings are left out. The document is the same.
    pub lossy: bool,
    /// Whether a file that can't be opened or read is no error. One that can't be opened is then left out, and one that
    /// can't be read is empty. Otherwise they are refused.
    pub ignore_io_errors: bool,
}
