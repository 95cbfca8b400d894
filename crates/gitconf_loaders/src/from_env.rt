//! Why the entries of variables of the environment are refused.
ghost use Rattle.std.specs.Prelude.{◌≡◌};

use gitconf_body::value;
use gitconf_includes::includes;
use gitconf_text::NoMemory;
use gitconf_text::parse::section::header;
use gitconf_values::path::interpolate;
use thiserror::Error;

/// Why the entries of variables of the environment are refused. Entries are counted from 0.
#[derive(Debug, Drop, Error)]
pub enum Error {
    /// A key or a value (`kind`) is set to bytes that aren't UTF-8: E22.
    #[error("Configuration {kind} at index {index} contained illformed UTF-8")]
    IllformedUtf8 { index: usize, kind: &'static str },
    /// `GIT_CONFIG_COUNT` is not a number, or one that 64 bits don't hold: E23.
    #[error("GIT_CONFIG_COUNT was not a positive integer: {input}")]
    InvalidConfigCount { input: String },
    /// The key of an entry is not set: E24.
    #[error("GIT_CONFIG_KEY_{key_id} was not set")]
    InvalidKeyId { key_id: usize },
    /// The key of an entry has no dot: E25.
    #[error("GIT_CONFIG_KEY_{key_id} was set to an invalid value: {key_val}")]
    InvalidKeyValue { key_id: usize, key_val: String },
    /// The value of an entry is not set: E26.
    #[error("GIT_CONFIG_VALUE_{value_id} was not set")]
    InvalidValueId { value_id: usize },
    /// A path could not be interpolated: E12 to E14. The Rust crate has it, and no call returns it: such an error of an include is
    /// reported as [`Error::Includes`].
    #[error(transparent)]
    PathInterpolationError(interpolate::Error),
    /// An include was refused.
    #[error(transparent)]
    Includes(includes::Error),
    /// The section of an entry could not be made: E3, E4 and E5.
    #[error(transparent)]
    Section(header::Error),
    /// An entry could not be put into its section: E3 and E6.
    #[error(transparent)]
    SectionValue(value::Error),
    /// An allocation failed: E27.
    #[error("out of memory")]
    Memory,
}

impl From<interpolate::Error> for Error {
    ghost use Rattle.gitconf_loaders.specs.Errors.{env_of_interpolate};

    ghost from_gives = { λ interpolate e. e ≡ env_of_interpolate interpolate };

    fn from(interpolate: interpolate::Error) -> Error {
        match interpolate {
            interpolate::Error::Memory => Error::Memory,
            interpolate => Error::PathInterpolationError(interpolate),
        }
    }
}

impl From<includes::Error> for Error {
    ghost use Rattle.gitconf_loaders.specs.Errors.{env_of_includes};

    ghost from_gives = { λ includes e. e ≡ env_of_includes includes };

    fn from(includes: includes::Error) -> Error {
        match includes {
            includes::Error::Memory => Error::Memory,
            includes => Error::Includes(includes),
        }
    }
}

impl From<header::Error> for Error {
    ghost use Rattle.gitconf_loaders.specs.Errors.{env_of_header};

    ghost from_gives = { λ header e. e ≡ env_of_header header };

    fn from(header: header::Error) -> Error {
        match header {
            header::Error::Memory => Error::Memory,
            header => Error::Section(header),
        }
    }
}

impl From<value::Error> for Error {
    ghost use Rattle.gitconf_loaders.specs.Errors.{env_of_value};

    ghost from_gives = { λ value e. e ≡ env_of_value value };

    fn from(value: value::Error) -> Error {
        match value {
            value::Error::Memory => Error::Memory,
            value => Error::SectionValue(value),
        }
    }
}

impl From<NoMemory> for Error {
    ghost use Rattle.gitconf_loaders.specs.declared.from_env.Error.TheVariants.{Memory};

    ghost from_gives = { λ _ e. e ≡ Memory };

    fn from(_e: NoMemory) -> Error {
        Error::Memory
    }
}
