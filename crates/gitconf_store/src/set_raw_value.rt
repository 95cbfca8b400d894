//! Why a raw value is not set.
ghost use Rattle.std.specs.Prelude.{◌≡◌};

use gitconf_lookups::existing;
use gitconf_text::NoMemory;
use gitconf_text::parse::section::{ValueNameError, header};
use gitconf_text::parse::span;
use thiserror::Error;

/// Why a raw value is not set.
#[derive(Debug, Drop, Error)]
pub enum Error {
    /// There is no such value, and none may be made: E7, E8 or E9.
    #[error(transparent)]
    Lookup(existing::Error),
    /// A section has to be made, and can't be of these names: E4 or E5.
    #[error(transparent)]
    Header(header::Error),
    /// The name of the value is invalid: E6.
    #[error(transparent)]
    ValueName(ValueNameError),
    /// There is no room for the new bytes, or no number for a new section: E3. It is a section that has to be made.
    #[error(transparent)]
    Span(span::Error),
    /// An allocation failed: E27.
    #[error("out of memory")]
    Memory,
}

impl From<existing::Error> for Error {
    ghost use Rattle.gitconf_store.specs.SetErrors.{of_existing};

    ghost from_gives = { λ existing e. e ≡ of_existing existing };

    fn from(existing: existing::Error) -> Error {
        match existing {
            existing::Error::ValueName(name) => Error::ValueName(name),
            existing::Error::Memory => Error::Memory,
            existing => Error::Lookup(existing),
        }
    }
}

impl From<header::Error> for Error {
    ghost use Rattle.gitconf_store.specs.SetErrors.{of_header};

    ghost from_gives = { λ header e. e ≡ of_header header };

    fn from(header: header::Error) -> Error {
        match header {
            header::Error::Span(span) => Error::from(span),
            header::Error::Memory => Error::Memory,
            header => Error::Header(header),
        }
    }
}

impl From<ValueNameError> for Error {
    ghost use Rattle.gitconf_lookups.specs.Misses.{of_name};
    ghost use Rattle.gitconf_store.specs.SetErrors.{of_existing};

    ghost from_gives = { λ name e. e ≡ of_existing (of_name name) };

    fn from(name: ValueNameError) -> Error {
        Error::from(existing::Error::from(name))
    }
}

impl From<span::Error> for Error {
    ghost use Rattle.gitconf_store.specs.SetErrors.{of_span};

    ghost from_gives = { λ span e. e ≡ of_span span };

    fn from(span: span::Error) -> Error {
        if span.is_memory() {
            Error::Memory
        } else {
            Error::Span(span)
        }
    }
}

impl From<NoMemory> for Error {
    ghost use Rattle.gitconf_store.specs.declared.set_raw_value.Error.TheVariants.{Memory};

    ghost from_gives = { λ _ e. e ≡ Memory };

    fn from(_e: NoMemory) -> Error {
        Error::Memory
    }
}
