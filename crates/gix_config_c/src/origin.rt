//! Where sections come from, in numbers, and filters of it.
ghost use Rattle.std.specs.Prelude.{◌≡◌, ◌<◌};
ghost use Rattle.gix_config_c.specs.Origins.{keeps, source_number, source_of, trust_number, trust_of};

use gitconf_sources::meta::Metadata;
use gitconf_sources::source::{Source, Trust};

/// The configuration that was installed with git.
pub const SOURCE_GIT_INSTALLATION: u32 = 1;

/// The configuration of the whole machine.
pub const SOURCE_SYSTEM: u32 = 2;

/// The user's configuration in `git/config` of the directory for configuration.
pub const SOURCE_GIT: u32 = 4;

/// The user's configuration in `.gitconfig` of the home directory.
pub const SOURCE_USER: u32 = 8;

/// The repository's configuration.
pub const SOURCE_LOCAL: u32 = 16;

/// The configuration of one worktree.
pub const SOURCE_WORKTREE: u32 = 32;

/// Variables of the environment.
pub const SOURCE_ENV: u32 = 64;

/// Options of the command line.
pub const SOURCE_CLI: u32 = 128;

/// The calling program: also a text that it parses.
pub const SOURCE_API: u32 = 256;

/// Variables of the environment that override everything else.
pub const SOURCE_ENV_OVERRIDE: u32 = 512;

/// All of these.
pub const SOURCES_ALL: u32 = 1023;

/// Someone else owns the file.
pub const TRUST_REDUCED: u32 = 0;

/// Who runs the program owns the file, or it comes from none.
pub const TRUST_FULL: u32 = 1;

/// The number of a source. Each is a bit of its own, so that those of several sources add up.
pub fn source(source: Source) -> u32
    ensures number { result ≡ source_number source }
    ensures some { 0 < result }
{
    match source {
        Source::GitInstallation => SOURCE_GIT_INSTALLATION,
        Source::System => SOURCE_SYSTEM,
        Source::Git => SOURCE_GIT,
        Source::User => SOURCE_USER,
        Source::Local => SOURCE_LOCAL,
        Source::Worktree => SOURCE_WORKTREE,
        Source::Env => SOURCE_ENV,
        Source::Cli => SOURCE_CLI,
        Source::Api => SOURCE_API,
        Source::EnvOverride => SOURCE_ENV_OVERRIDE,
    }
}

/// The number of a trust: a greater one is more trust.
pub fn trust(trust: Trust) -> u32
    ensures { result ≡ trust_number trust }
{
    match trust {
        Trust::Reduced => TRUST_REDUCED,
        Trust::Full => TRUST_FULL,
    }
}

/// The source that has the number, if one has it.
pub fn source_of(number: u32) -> Option<Source>
    ensures { result ≡ source_of number }
{
    match number {
        SOURCE_GIT_INSTALLATION => Some(Source::GitInstallation),
        SOURCE_SYSTEM => Some(Source::System),
        SOURCE_GIT => Some(Source::Git),
        SOURCE_USER => Some(Source::User),
        SOURCE_LOCAL => Some(Source::Local),
        SOURCE_WORKTREE => Some(Source::Worktree),
        SOURCE_ENV => Some(Source::Env),
        SOURCE_CLI => Some(Source::Cli),
        SOURCE_API => Some(Source::Api),
        SOURCE_ENV_OVERRIDE => Some(Source::EnvOverride),
        _ => None,
    }
}

/// The trust that has the number, if one has it.
pub fn trust_of(number: u32) -> Option<Trust>
    ensures { result ≡ trust_of number }
{
    match number {
        TRUST_REDUCED => Some(Trust::Reduced),
        TRUST_FULL => Some(Trust::Full),
        _ => None,
    }
}

/// Where a whole file comes from.
#[repr(C)]
pub struct Origin {
    /// The place that it was read from: one of the sources' numbers.
    pub source: u32,
    /// How many includes led to it: 0 for a file that was not included.
    pub level: u32,
    /// How far it is trusted: one of the numbers of trust.
    pub trust: u32,
    /// Whether it has a path.
    pub has_path: bool,
}

/// Which sections are asked: those of some sources that are trusted enough.
#[repr(C)]
pub struct Filter {
    /// The sources, as the sum of their numbers.
    pub sources: u32,
    /// The least trust.
    pub least_trust: u32,
}

/// Whether a section from there is asked.
pub fn passes(filter: &Filter, meta: &Metadata) -> bool
    ensures { result ≡ keeps filter.now meta.now }
{
    filter.sources / source(meta.source) % 2 == 1 && filter.least_trust <= trust(meta.trust)
}
