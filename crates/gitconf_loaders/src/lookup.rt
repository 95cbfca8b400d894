//! Why a lookup in a type of the caller's fails.
ghost use Rattle.std.specs.Prelude.{◌≡◌};

pub use gitconf_lookups::existing;
use gitconf_text::NoMemory;
use std::fmt::Display;
use thiserror::Error;

/// Why a lookup of a value in a type of the caller's fails.
#[derive(Debug, Drop, Error)]
#[error_bound(E: Display)]
pub enum Error<E> {
    /// There is no such value: E7, E8 or E9.
    #[error(transparent)]
    ValueMissing(existing::Error),
    /// The type refused the value: E10.
    #[error("{0}")]
    FailedConversion(E),
    /// An allocation failed: E27.
    #[error("out of memory")]
    Memory,
}

impl<E> From<existing::Error> for Error<E> {
    ghost use Rattle.gitconf_loaders.specs.LookupErrors.{lookup_of_existing};

    ghost from_gives = { λ existing e. e ≡ lookup_of_existing existing };

    fn from(existing: existing::Error) -> Error<E> {
        match existing {
            existing::Error::Memory => Error::Memory,
            existing => Error::ValueMissing(existing),
        }
    }
}

impl<E> From<NoMemory> for Error<E> {
    ghost use Rattle.gitconf_loaders.specs.declared.lookup.Error.TheVariants.{Memory};

    ghost from_gives = { λ _ e. e ≡ Memory };

    fn from(_e: NoMemory) -> Error<E> {
        Error::Memory
    }
}
