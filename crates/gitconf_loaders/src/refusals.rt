//! The numbers of errors, E1 to E28, as programs show them. Only here are they given to all errors.
ghost use Rattle.std.specs.Prelude.{◌≡◌};

use crate::{from_env, from_git_dir, from_paths, lookup};
use gitconf_body::value as unwritten;
use gitconf_includes::{includes, init};
use gitconf_items::sink::SinkFault;
use gitconf_lookups::existing;
use gitconf_read::error as parse;
use gitconf_store::{rename_section, set_raw_value};
use gitconf_text::parse::section::{NameError, ValueNameError, header};
use gitconf_text::parse::span;
use gitconf_text::{NoMemory, value};
use gitconf_values::path::interpolate;

/// An error of a call, with its number.
pub trait Refusal {
    ghost use Rattle.std.specs.Prelude.{ℕ};

    ghost number_of: { Self → ℕ };

    /// Its number, 1 to 28: docs/refusals.md has the causes. 27 is out of memory.
    fn number(&self) -> u8
        ensures { result ≡ number_of self.now };
}

impl Refusal for NoMemory {
    ghost number_of = { λ _. 27 };

    fn number(&self) -> u8 {
        27
    }
}

impl Refusal for SinkFault {
    ghost number_of = { λ _. 28 };

    fn number(&self) -> u8 {
        28
    }
}

impl Refusal for parse::Error {
    ghost number_of = { λ e. e.number };

    fn number(&self) -> u8 {
        parse::Error::number(self)
    }
}

impl Refusal for span::Error {
    ghost number_of = { λ number. number };

    fn number(&self) -> u8 {
        span::Error::number(self)
    }
}

impl Refusal for NameError {
    ghost number_of = { λ number. number };

    fn number(&self) -> u8 {
        NameError::number(self)
    }
}

impl Refusal for ValueNameError {
    ghost number_of = { λ number. number };

    fn number(&self) -> u8 {
        ValueNameError::number(self)
    }
}

impl Refusal for value::Error {
    ghost number_of = { λ e. e.number };

    fn number(&self) -> u8 {
        value::Error::number(self)
    }
}

impl Refusal for header::Error {
    ghost use Rattle.gitconf_text.specs.HeaderErrors.{header_number};

    ghost number_of = { header_number };

    fn number(&self) -> u8 {
        match self {
            header::Error::Span(e) => e.number(),
            header::Error::InvalidName => 4,
            header::Error::InvalidSubSection => 5,
            header::Error::Memory => 27,
        }
    }
}

impl Refusal for existing::Error {
    ghost use Rattle.gitconf_lookups.specs.Misses.{existing_number};

    ghost number_of = { existing_number };

    fn number(&self) -> u8 {
        match self {
            existing::Error::SectionMissing => 7,
            existing::Error::SubSectionMissing => 8,
            existing::Error::KeyMissing => 9,
            existing::Error::ValueName(e) => e.number(),
            existing::Error::Memory => 27,
        }
    }
}

impl<E> Refusal for lookup::Error<E> {
    ghost use Rattle.gitconf_loaders.specs.LookupErrors.{look_up_number};

    ghost number_of = { look_up_number };

    fn number(&self) -> u8 {
        match self {
            lookup::Error::ValueMissing(e) => e.number(),
            lookup::Error::FailedConversion(_) => 10,
            lookup::Error::Memory => 27,
        }
    }
}

impl Refusal for unwritten::Error {
    ghost use Rattle.gitconf_body.specs.ValueErrors.{value_number};

    ghost number_of = { value_number };

    fn number(&self) -> u8 {
        match self {
            unwritten::Error::ValueName(e) => e.number(),
            unwritten::Error::Span(e) => e.number(),
            unwritten::Error::Memory => 27,
        }
    }
}

impl Refusal for set_raw_value::Error {
    ghost use Rattle.gitconf_store.specs.SetErrors.{set_number};

    ghost number_of = { set_number };

    fn number(&self) -> u8 {
        match self {
            set_raw_value::Error::Lookup(e) => e.number(),
            set_raw_value::Error::Header(e) => e.number(),
            set_raw_value::Error::ValueName(e) => e.number(),
            set_raw_value::Error::Span(e) => e.number(),
            set_raw_value::Error::Memory => 27,
        }
    }
}

impl Refusal for rename_section::Error {
    ghost use Rattle.gitconf_store.specs.RenameErrors.{rename_number};

    ghost number_of = { rename_number };

    fn number(&self) -> u8 {
        match self {
            rename_section::Error::Lookup(e) => e.number(),
            rename_section::Error::Section(e) => e.number(),
            rename_section::Error::Memory => 27,
        }
    }
}

impl Refusal for interpolate::Error {
    ghost use Rattle.gitconf_values.specs.Homes.{interpolate_number};

    ghost number_of = { interpolate_number };

    fn number(&self) -> u8 {
        match self {
            interpolate::Error::Missing { .. } => 12,
            interpolate::Error::Utf8Conversion { .. } => 13,
            interpolate::Error::UsernameConversion(_) => 14,
            interpolate::Error::Memory => 27,
        }
    }
}

impl Refusal for includes::Error {
    ghost use Rattle.gitconf_includes.specs.Errors.{includes_number};

    ghost number_of = { includes_number };

    fn number(&self) -> u8 {
        match self {
            includes::Error::Parse { source, .. } => source.number(),
            includes::Error::Span(e) => e.number(),
            includes::Error::Interpolate(e) => e.number(),
            includes::Error::IncludeDepthExceeded { .. } => 15,
            includes::Error::MissingConfigPath => 16,
            includes::Error::MissingGitDir => 17,
            includes::Error::Realpath(_) => 18,
            includes::Error::Io { .. } => 19,
            includes::Error::CopyBuffer { .. } => 20,
            includes::Error::Memory => 27,
        }
    }
}

impl Refusal for init::Error {
    ghost use Rattle.gitconf_loaders.specs.Errors.{init_number};

    ghost number_of = { init_number };

    fn number(&self) -> u8 {
        match self {
            init::Error::Parse(e) => e.number(),
            init::Error::Interpolate(e) => e.number(),
            init::Error::Includes(e) => e.number(),
            init::Error::Span(e) => e.number(),
            init::Error::Memory => 27,
        }
    }
}

impl Refusal for from_paths::Error {
    ghost use Rattle.gitconf_loaders.specs.Errors.{paths_number};

    ghost number_of = { paths_number };

    fn number(&self) -> u8 {
        match self {
            from_paths::Error::Io { .. } => 21,
            from_paths::Error::Init { source, .. } => source.number(),
            from_paths::Error::Memory => 27,
        }
    }
}

impl Refusal for from_env::Error {
    ghost use Rattle.gitconf_loaders.specs.Errors.{env_number};

    ghost number_of = { env_number };

    fn number(&self) -> u8 {
        match self {
            from_env::Error::IllformedUtf8 { .. } => 22,
            from_env::Error::InvalidConfigCount { .. } => 23,
            from_env::Error::InvalidKeyId { .. } => 24,
            from_env::Error::InvalidKeyValue { .. } => 25,
            from_env::Error::InvalidValueId { .. } => 26,
            from_env::Error::PathInterpolationError(e) => e.number(),
            from_env::Error::Includes(e) => e.number(),
            from_env::Error::Section(e) => e.number(),
            from_env::Error::SectionValue(e) => e.number(),
            from_env::Error::Memory => 27,
        }
    }
}

impl Refusal for from_git_dir::Error {
    ghost use Rattle.gitconf_loaders.specs.Errors.{git_number};

    ghost number_of = { git_number };

    fn number(&self) -> u8 {
        match self {
            from_git_dir::Error::FromPaths(e) => e.number(),
            from_git_dir::Error::FromEnv(e) => e.number(),
            from_git_dir::Error::Init(e) => e.number(),
            from_git_dir::Error::Includes(e) => e.number(),
            from_git_dir::Error::Span(e) => e.number(),
            from_git_dir::Error::Memory => 27,
        }
    }
}
