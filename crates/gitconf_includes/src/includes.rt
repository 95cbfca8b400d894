//! Files that include others: how deep that goes, and what is refused.
ghost use Rattle.std.specs.Prelude.{◌≡◌};
ghost use Rattle.gitconf_includes.specs.Options.{no_conditions, no_follow, follow, strict};

pub mod conditional;

use gitconf_read::error as parse;
use gitconf_sources::FileFault;
use gitconf_text::NoMemory;
use gitconf_text::parse::span;
use gitconf_values::Homes;
use gitconf_values::path::interpolate;
use thiserror::Error;

/// Why includes are refused.
#[derive(Debug, Drop, Error)]
pub enum Error {
    /// Reading the included file at that path failed: E20.
    #[error("Failed to copy configuration file into buffer")]
    CopyBuffer { path: String, source: FileFault },
    /// Opening the included file at that path failed: E19.
    #[error("Could not read included configuration file at '{path}'")]
    Io { path: String, source: FileFault },
    /// The parser refused the included file at that path: E1 or E2.
    #[error("{source}")]
    Parse { path: String, source: parse::Error },
    /// The place of a part would be past 4294967295, or no section number is left: E3.
    #[error(transparent)]
    Span(span::Error),
    /// The path of an include could not be interpolated: E12 to E14.
    #[error(transparent)]
    Interpolate(interpolate::Error),
    /// Files include each other deeper than the options allow, or than a level can count: E15.
    #[error("The maximum allowed length {max_depth} of the file include chain built by following nested resolve_includes is exceeded")]
    IncludeDepthExceeded { max_depth: u8 },
    /// A path is relative to the directory of a file that has no path: E16.
    #[error("Include paths from environment variables must not be relative as no config file paths exists as root")]
    MissingConfigPath,
    /// A condition asks for the git directory, and there is none: E17.
    #[error("The git directory must be provided to support `gitdir:` conditional includes")]
    MissingGitDir,
    /// The git directory could not be resolved: E18.
    #[error("Could not resolve the git directory")]
    Realpath(FileFault),
    /// An allocation failed: E27.
    #[error("out of memory")]
    Memory,
}

impl From<span::Error> for Error {
    ghost use Rattle.gitconf_includes.specs.Errors.{include_of_span};

    ghost from_gives = { λ span e. e ≡ include_of_span span };

    fn from(span: span::Error) -> Error {
        if span.is_memory() {
            Error::Memory
        } else {
            Error::Span(span)
        }
    }
}

impl From<interpolate::Error> for Error {
    ghost use Rattle.gitconf_includes.specs.Errors.{include_of_interpolate};

    ghost from_gives = { λ interpolate e. e ≡ include_of_interpolate interpolate };

    fn from(interpolate: interpolate::Error) -> Error {
        match interpolate {
            interpolate::Error::Memory => Error::Memory,
            interpolate => Error::Interpolate(interpolate),
        }
    }
}

impl From<NoMemory> for Error {
    ghost use Rattle.gitconf_includes.specs.declared.includes.Error.TheVariants.{Memory};

    ghost from_gives = { λ _ e. e ≡ Memory };

    fn from(_e: NoMemory) -> Error {
        Error::Memory
    }
}

/// Which includes are followed, and what is refused.
#[derive(Clone, Copy)]
pub struct Options<'a> {
    /// How many files deep includes are followed: 0 for none.
    pub max_depth: u8,
    /// Whether files that go deeper are refused; otherwise they are left out.
    pub err_on_max_depth_exceeded: bool,
    /// Whether a path is refused whose shorthand stands for nothing. A condition on the git directory is then refused
    /// too, if there is none. If they aren't refused, the include is left out.
    pub err_on_interpolation_failure: bool,
    /// Whether a relative path is refused in a file without a path. Such a path doesn't begin with `/`. If it isn't
    /// refused, the include is left out.
    pub err_on_missing_config_path: bool,
    /// What the shorthands of paths stand for.
    pub interpolate: interpolate::Context<'a>,
    /// What the conditions of `includeIf` are about.
    pub conditional: conditional::Context<'a>,
}

impl<'a> Options<'a> {
    /// Follows no include, and refuses nothing.
    pub fn no_follow() -> Options<'a>
        ensures { result ≡ no_follow }
    {
        Options {
            max_depth: 0,
            err_on_max_depth_exceeded: false,
            err_on_interpolation_failure: false,
            err_on_missing_config_path: false,
            interpolate: interpolate::Context::default(),
            conditional: conditional::Context::default(),
        }
    }

    /// Follows includes ten files deep, and refuses what goes deeper. It also refuses a path relative to the directory
    /// of a file that has no path. A shorthand that stands for nothing leaves its include out.
    pub fn follow(
        interpolate: interpolate::Context<'a>,
        conditional: conditional::Context<'a>,
    ) -> Options<'a>
        ensures { result ≡ follow interpolate.entry conditional.entry }
    {
        Options {
            max_depth: 10,
            err_on_max_depth_exceeded: true,
            err_on_interpolation_failure: false,
            err_on_missing_config_path: true,
            interpolate,
            conditional,
        }
    }

    /// [`Options::follow`] with these home directories, and nothing that a condition could be about.
    pub fn follow_without_conditional(
        home_dir: Option<&'a str>,
        homes: Option<&'a Homes>,
    ) -> Options<'a>
        ensures { result ≡ follow (record { git_install_dir = None; home_dir = home_dir.entry; home_for_user = homes.entry }) no_conditions }
    {
        let interpolate = interpolate::Context {
            git_install_dir: None,
            home_dir,
            home_for_user: homes,
        };
        Options::follow(interpolate, conditional::Context::default())
    }

    /// The same, but refusing wherever the options can ask for it.
    pub fn strict(mut self) -> Options<'a>
        ensures { result ≡ strict self.entry }
    {
        self.err_on_interpolation_failure = true;
        self.err_on_max_depth_exceeded = true;
        self.err_on_missing_config_path = true;
        self
    }

    /// The same, with these directories for the shorthands of paths.
    pub fn interpolate_with(mut self, context: interpolate::Context<'a>) -> Options<'a>
        ensures { result ≡ record self.entry { interpolate = context.entry } }
    {
        self.interpolate = context;
        self
    }
}

impl Default for Options<'_> {
    ghost is_default = { λ o. o ≡ no_follow };

    /// Is [`Options::no_follow`].
    fn default() -> Self {
        Options::no_follow()
    }
}
