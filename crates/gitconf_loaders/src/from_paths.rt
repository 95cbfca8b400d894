//! Why files that are loaded by their paths are refused.
ghost use Rattle.std.specs.Prelude.{◌≡◌};

use gitconf_includes::init;
use gitconf_sources::FileFault;
use gitconf_text::NoMemory;
use thiserror::Error;

/// Why a file that is loaded by its path is refused.
#[derive(Debug, Drop, Error)]
pub enum Error {
    /// Opening the file at that path, reading it or asking for its trust failed: E21.
    #[error("The configuration file at \"{path}\" could not be read")]
    Io { path: String, source: FileFault },
    /// What was read at that path could not be made a file, or not appended. Files are appended to those before them.
    #[error("{source}")]
    Init { path: String, source: init::Error },
    /// An allocation failed: E27.
    #[error("out of memory")]
    Memory,
}

impl Error {
    ghost use Rattle.gitconf_loaders.specs.Errors.{paths_of_init};

    /// The error for what was read at a path.
    pub(crate) fn of(path: String, source: init::Error) -> Error
        ensures { result ≡ paths_of_init path source }
    {
        match source {
            init::Error::Memory => Error::Memory,
            source => Error::Init { path, source },
        }
    }
}

impl From<NoMemory> for Error {
    ghost use Rattle.gitconf_loaders.specs.declared.from_paths.Error.TheVariants.{Memory};

    ghost from_gives = { λ _ e. e ≡ Memory };

    fn from(_e: NoMemory) -> Error {
        Error::Memory
    }
}
