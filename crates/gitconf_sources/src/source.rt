//! The places that configuration is read from, as git-config's manual page lists them under "FILES" and
//! "ENVIRONMENT".
ghost use Rattle.std.specs.Prelude.{◌≡◌};
ghost use Rattle.gitconf_sources.specs.Source.{kind_of, sources_of};

/// Where a value of the configuration comes from. The places are in the order in which Git reads them: a later one
/// overrides an earlier one.
#[derive(Clone, Copy, PartialEq, Eq, PartialOrd, Ord, Hash, Debug)]
pub enum Source {
    /// The configuration that was installed with Git.
    GitInstallation,
    /// The configuration of the whole machine.
    System,
    /// The user's configuration in `git/config` of the directory for configuration.
    Git,
    /// The user's configuration in `.gitconfig` of the home directory.
    User,
    /// The repository's configuration.
    Local,
    /// The configuration of one worktree.
    Worktree,
    /// Variables of the environment.
    Env,
    /// Options of the command line.
    Cli,
    /// The calling program.
    Api,
    /// Variables of the environment that override everything else.
    EnvOverride,
}

/// The groups of sources.
#[derive(Clone, Copy, PartialEq, Eq, PartialOrd, Ord, Hash, Debug)]
pub enum Kind {
    /// What was installed with Git.
    GitInstallation,
    /// The whole machine.
    System,
    /// One user.
    Global,
    /// One repository.
    Repository,
    /// What is set for one run.
    Override,
}

/// How far a place of the configuration is trusted.
#[derive(Clone, Copy, PartialEq, Eq, PartialOrd, Ord, Hash, Debug)]
pub enum Trust {
    /// Someone else owns it.
    Reduced,
    /// Its owner runs the program.
    Full,
}

impl Source {
    /// The group that this source belongs to, by the table of Git's scopes. It takes no memory.
    pub const fn kind(self) -> Kind
        ensures { result ≡ kind_of self }
    {
        match self {
            Source::GitInstallation => Kind::GitInstallation,
            Source::System => Kind::System,
            Source::Git | Source::User => Kind::Global,
            Source::Local | Source::Worktree => Kind::Repository,
            Source::Env | Source::Cli | Source::Api | Source::EnvOverride => Kind::Override,
        }
    }
}

impl Kind {
    /// The sources of this group that have a place of their own, lowest first. It takes no memory.
    pub fn sources(self) -> &'static [Source]
        ensures { result.now ≡ sources_of self }
    {
        match self {
            Kind::GitInstallation => &[Source::GitInstallation],
            Kind::System => &[Source::System],
            Kind::Global => &[Source::Git, Source::User],
            Kind::Repository => &[Source::Local, Source::Worktree],
            Kind::Override => &[Source::Env, Source::Cli, Source::Api],
        }
    }
}
