//! Why an editor doesn't write a value.
ghost use Rattle.std.specs.Prelude.{◌≡◌};

use gitconf_text::NoMemory;
use gitconf_text::parse::section::ValueNameError;
use gitconf_text::parse::span;
use thiserror::Error;

/// Why an editor doesn't write a value.
#[derive(Debug, Drop, Error)]
pub enum Error {
    /// The name of the value is invalid: E6.
    #[error(transparent)]
    ValueName(ValueNameError),
    /// There is no room for the new bytes: E3.
    #[error(transparent)]
    Span(span::Error),
    /// An allocation failed: E27.
    #[error("out of memory")]
    Memory,
}

impl From<ValueNameError> for Error {
    ghost use Rattle.gitconf_body.specs.ValueErrors.{of_name};

    ghost from_gives = { λ name e. e ≡ of_name name };

    fn from(name: ValueNameError) -> Error {
        if name.number() == 27 {
            Error::Memory
        } else {
            Error::ValueName(name)
        }
    }
}

impl From<span::Error> for Error {
    ghost use Rattle.gitconf_body.specs.ValueErrors.{of_span};

    ghost from_gives = { λ span e. e ≡ of_span span };

    fn from(span: span::Error) -> Error {
        if span.is_memory() {
            Error::Memory
        } else {
            Error::Span(span)
        }
    }
}

impl From<NoMemory> for Error {
    ghost use Rattle.gitconf_body.specs.declared.value.Error.TheVariants.{Memory};

    ghost from_gives = { λ _ e. e ≡ Memory };

    fn from(_e: NoMemory) -> Error {
        Error::Memory
    }
}
