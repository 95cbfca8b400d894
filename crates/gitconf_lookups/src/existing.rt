//! Why something is missing that a lookup asks for.
ghost use Rattle.std.specs.Prelude.{◌≡◌};

use gitconf_text::NoMemory;
use gitconf_text::parse::section::ValueNameError;
use thiserror::Error;

/// Why something is missing that a lookup or an edit asks for.
#[derive(Debug, Drop, Error)]
pub enum Error {
    /// No section has the name: E7.
    #[error("The requested section does not exist")]
    SectionMissing,
    /// No section of the name has the subsection: E8.
    #[error("The requested subsection does not exist")]
    SubSectionMissing,
    /// No section of the name and subsection has such a value: E9.
    #[error("The key does not exist in the requested section")]
    KeyMissing,
    /// The name of a value that is to be written is invalid: E6. Lookups don't return it.
    #[error(transparent)]
    ValueName(ValueNameError),
    /// An allocation failed: E27.
    #[error("out of memory")]
    Memory,
}

impl From<ValueNameError> for Error {
    ghost use Rattle.gitconf_lookups.specs.Misses.{of_name};

    ghost from_gives = { λ name e. e ≡ of_name name };

    fn from(name: ValueNameError) -> Error {
        if name.number() == 27 {
            Error::Memory
        } else {
            Error::ValueName(name)
        }
    }
}

impl From<NoMemory> for Error {
    ghost use Rattle.gitconf_lookups.specs.declared.existing.Error.TheVariants.{Memory};

    ghost from_gives = { λ _ e. e ≡ Memory };

    fn from(_e: NoMemory) -> Error {
        Error::Memory
    }
}
