//! Why the configuration of a repository is refused.
ghost use Rattle.std.specs.Prelude.{◌≡◌};

use crate::{from_env, from_paths};
use gitconf_includes::{includes, init};
use gitconf_text::NoMemory;
use gitconf_text::parse::span;
use thiserror::Error;

/// Why the configuration of a repository is refused.
#[derive(Debug, Drop, Error)]
pub enum Error {
    /// A file could not be loaded by its path.
    #[error(transparent)]
    FromPaths(from_paths::Error),
    /// The entries of variables were refused.
    #[error(transparent)]
    FromEnv(from_env::Error),
    /// A file could not be made of bytes. The Rust crate has it, and no call returns it: such a file is loaded by its path.
    #[error(transparent)]
    Init(init::Error),
    /// An include was refused.
    #[error(transparent)]
    Includes(includes::Error),
    /// There is no room for a file after those before it: E3.
    #[error(transparent)]
    Span(span::Error),
    /// An allocation failed: E27.
    #[error("out of memory")]
    Memory,
}

impl From<from_paths::Error> for Error {
    ghost use Rattle.gitconf_loaders.specs.Errors.{git_of_paths};

    ghost from_gives = { λ paths e. e ≡ git_of_paths paths };

    fn from(paths: from_paths::Error) -> Error {
        match paths {
            from_paths::Error::Memory => Error::Memory,
            paths => Error::FromPaths(paths),
        }
    }
}

impl From<from_env::Error> for Error {
    ghost use Rattle.gitconf_loaders.specs.Errors.{git_of_env};

    ghost from_gives = { λ env e. e ≡ git_of_env env };

    fn from(env: from_env::Error) -> Error {
        match env {
            from_env::Error::Memory => Error::Memory,
            env => Error::FromEnv(env),
        }
    }
}

impl From<init::Error> for Error {
    ghost use Rattle.gitconf_loaders.specs.Errors.{git_of_init};

    ghost from_gives = { λ init e. e ≡ git_of_init init };

    fn from(init: init::Error) -> Error {
        match init {
            init::Error::Memory => Error::Memory,
            init => Error::Init(init),
        }
    }
}

impl From<includes::Error> for Error {
    ghost use Rattle.gitconf_loaders.specs.Errors.{git_of_includes};

    ghost from_gives = { λ includes e. e ≡ git_of_includes includes };

    fn from(includes: includes::Error) -> Error {
        match includes {
            includes::Error::Memory => Error::Memory,
            includes => Error::Includes(includes),
        }
    }
}

impl From<span::Error> for Error {
    ghost use Rattle.gitconf_loaders.specs.Errors.{git_of_span};

    ghost from_gives = { λ span e. e ≡ git_of_span span };

    fn from(span: span::Error) -> Error {
        if span.is_memory() {
            Error::Memory
        } else {
            Error::Span(span)
        }
    }
}

impl From<NoMemory> for Error {
    ghost use Rattle.gitconf_loaders.specs.declared.from_git_dir.Error.TheVariants.{Memory};

    ghost from_gives = { λ _ e. e ≡ Memory };

    fn from(_e: NoMemory) -> Error {
        Error::Memory
    }
}
