//! Why sections are not renamed.
ghost use Rattle.std.specs.Prelude.{◌≡◌};

use gitconf_lookups::existing;
use gitconf_text::NoMemory;
use gitconf_text::parse::section::header;
use gitconf_text::parse::span;
use thiserror::Error;

/// Why sections are not renamed.
#[derive(Debug, Drop, Error)]
pub enum Error {
    /// No section has the names, or none of these passes: E7, E8 or E9.
    #[error(transparent)]
    Lookup(existing::Error),
    /// The new header can't be made: E3, E4 or E5.
    #[error(transparent)]
    Section(header::Error),
    /// An allocation failed: E27.
    #[error("out of memory")]
    Memory,
}

impl From<existing::Error> for Error {
    ghost use Rattle.gitconf_store.specs.RenameErrors.{of_lookup};

    ghost from_gives = { λ lookup e. e ≡ of_lookup lookup };

    fn from(lookup: existing::Error) -> Error {
        match lookup {
            existing::Error::Memory => Error::Memory,
            lookup => Error::Lookup(lookup),
        }
    }
}

impl From<header::Error> for Error {
    ghost use Rattle.gitconf_store.specs.RenameErrors.{of_header};

    ghost from_gives = { λ header e. e ≡ of_header header };

    fn from(header: header::Error) -> Error {
        match header {
            header::Error::Memory => Error::Memory,
            header => Error::Section(header),
        }
    }
}

impl From<span::Error> for Error {
    ghost use Rattle.gitconf_store.specs.RenameErrors.{of_span};

    ghost from_gives = { λ span e. e ≡ of_span span };

    fn from(span: span::Error) -> Error {
        if span.is_memory() {
            Error::Memory
        } else {
            Error::Section(header::Error::Span(span))
        }
    }
}

impl From<NoMemory> for Error {
    ghost use Rattle.gitconf_store.specs.declared.rename_section.Error.TheVariants.{Memory};

    ghost from_gives = { λ _ e. e ≡ Memory };

    fn from(_e: NoMemory) -> Error {
        Error::Memory
    }
}
