//! Why a command was not done.

use gix_config::file::init::{from_env, from_git_dir, from_paths};
use gix_config::file::{includes, init, rename_section, section, set_raw_value};
use gix_config::lookup::existing;
use gix_config::parse::section::{NameError, ValueNameError, header};
use gix_config::parse::{Error, SinkFault, span};
use gix_config::path::interpolate;
use gix_config::refusals::Refusal as _;
use gix_config::{NoMemory, lookup, value};
use script_words::words::NotUnderstood;
use std::alloc::{AllocError, AllocFailed};

/// Why a command was not done.
#[derive(Drop)]
pub enum Refusal {
    /// The line is not understood, or asks for something impossible.
    Line,
    /// The library's error, by its number.
    Numbered(u8),
    /// The error of a value by its type, as a word.
    Mistyped(&'static str),
    /// The parser's error for a text that has no document.
    Unread(Error),
    /// A writer failed after it took these bytes.
    Unwritten(SinkFault, Vec<u8>),
}

impl From<NotUnderstood> for Refusal {
    fn from(_: NotUnderstood) -> Refusal {
        Refusal::Line
    }
}

impl From<Error> for Refusal {
    fn from(refusal: Error) -> Refusal {
        match refusal.number() {
            1 => Refusal::Unread(refusal),
            number => Refusal::Numbered(number),
        }
    }
}

impl From<init::Error> for Refusal {
    fn from(refusal: init::Error) -> Refusal {
        match refusal {
            init::Error::Parse(refusal) => Refusal::from(refusal),
            init::Error::Includes(refusal) => Refusal::from(refusal),
            other => Refusal::Numbered(other.number()),
        }
    }
}

impl From<includes::Error> for Refusal {
    fn from(refusal: includes::Error) -> Refusal {
        match refusal {
            includes::Error::Parse { source, .. } => Refusal::from(source),
            other => Refusal::Numbered(other.number()),
        }
    }
}

impl From<from_paths::Error> for Refusal {
    fn from(refusal: from_paths::Error) -> Refusal {
        match refusal {
            from_paths::Error::Init { source, .. } => Refusal::from(source),
            other => Refusal::Numbered(other.number()),
        }
    }
}

impl From<from_env::Error> for Refusal {
    fn from(refusal: from_env::Error) -> Refusal {
        match refusal {
            from_env::Error::Includes(refusal) => Refusal::from(refusal),
            other => Refusal::Numbered(other.number()),
        }
    }
}

impl From<from_git_dir::Error> for Refusal {
    fn from(refusal: from_git_dir::Error) -> Refusal {
        match refusal {
            from_git_dir::Error::FromPaths(refusal) => Refusal::from(refusal),
            from_git_dir::Error::FromEnv(refusal) => Refusal::from(refusal),
            from_git_dir::Error::Init(refusal) => Refusal::from(refusal),
            from_git_dir::Error::Includes(refusal) => Refusal::from(refusal),
            other => Refusal::Numbered(other.number()),
        }
    }
}

impl From<set_raw_value::Error> for Refusal {
    fn from(refusal: set_raw_value::Error) -> Refusal {
        Refusal::Numbered(refusal.number())
    }
}

impl From<rename_section::Error> for Refusal {
    fn from(refusal: rename_section::Error) -> Refusal {
        Refusal::Numbered(refusal.number())
    }
}

impl From<header::Error> for Refusal {
    fn from(refusal: header::Error) -> Refusal {
        Refusal::Numbered(refusal.number())
    }
}

impl From<section::value::Error> for Refusal {
    fn from(refusal: section::value::Error) -> Refusal {
        Refusal::Numbered(refusal.number())
    }
}

impl From<span::Error> for Refusal {
    fn from(refusal: span::Error) -> Refusal {
        Refusal::Numbered(refusal.number())
    }
}

impl From<existing::Error> for Refusal {
    fn from(refusal: existing::Error) -> Refusal {
        Refusal::Numbered(refusal.number())
    }
}

impl<E: Drop> From<lookup::Error<E>> for Refusal {
    fn from(refusal: lookup::Error<E>) -> Refusal {
        Refusal::Numbered(refusal.number())
    }
}

impl From<interpolate::Error> for Refusal {
    fn from(refusal: interpolate::Error) -> Refusal {
        Refusal::Numbered(refusal.number())
    }
}

impl From<value::Error> for Refusal {
    fn from(refusal: value::Error) -> Refusal {
        match refusal.message() {
            "not a boolean" => Refusal::Mistyped("bool"),
            "not an integer" => Refusal::Mistyped("int"),
            "Integer overflow" => Refusal::Mistyped("overflow"),
            _ => Refusal::Numbered(refusal.number()),
        }
    }
}

impl From<NameError> for Refusal {
    fn from(refusal: NameError) -> Refusal {
        Refusal::Numbered(refusal.number())
    }
}

impl From<ValueNameError> for Refusal {
    fn from(refusal: ValueNameError) -> Refusal {
        Refusal::Numbered(refusal.number())
    }
}

impl From<NoMemory> for Refusal {
    fn from(refusal: NoMemory) -> Refusal {
        Refusal::Numbered(refusal.number())
    }
}

impl From<AllocError> for Refusal {
    fn from(refusal: AllocError) -> Refusal {
        Refusal::from(NoMemory::from(refusal))
    }
}

impl<T: Drop> From<AllocFailed<T>> for Refusal {
    fn from(refusal: AllocFailed<T>) -> Refusal {
        Refusal::from(NoMemory::from(refusal))
    }
}
