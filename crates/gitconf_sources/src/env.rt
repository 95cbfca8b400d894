//! Where variables of the environment come from.

use gitconf_text::NoMemory;

/// What a variable of the environment is.
#[derive(Debug, Drop)]
pub enum EnvVar {
    /// It is not set.
    Unset,
    /// It is set to this text.
    Text(String),
    /// It is set to bytes that aren't UTF-8.
    IllFormed,
}

/// A source of variables, by their names. It is asked instead of the process, whose variables the Rust crate reads itself.
///
/// A source says in `variables` what each name is set to, or `None` if it doesn't say; if it does, that decides what each call returns,
/// and no call changes them, whatever its outcome.
pub trait Env: Drop {
    ghost use Rattle.std.specs.Prelude.{◌≡◌, ℕ, List, Option, IfOk, IfSome};
    ghost use Rattle.gitconf_sources.specs.Reports.{VariableReport, variable_report};

    ghost variables: { Self → Option (List ℕ → VariableReport) };

    /// The variable of this name.
    ///
    /// # Errors
    ///
    /// Only when out of memory.
    fn var(&mut self, name: &str) -> Result<EnvVar, NoMemory>
        ensures told { IfSome (variables self.old) (λ told. IfOk result (λ variable. variable_report variable ≡ told name.now)) }
        ensures stays { variables self.new ≡ variables self.old };
}

/// A boxed source does what the source in the box does.
impl Env for Box<dyn Env> {
    ghost variables = { λ b. (Env-box b).variables b.value };

    fn var(&mut self, name: &str) -> Result<EnvVar, NoMemory> {
        (**self).var(name)
    }
}

impl EnvVar {
    ghost use Rattle.std.specs.Prelude.{◌≡◌, IfOk};
    ghost use Rattle.gitconf_sources.specs.Reports.{variable_report};

    /// A copy, or [`NoMemory`] if there is none for its text.
    pub(crate) fn try_clone(&self) -> Result<EnvVar, NoMemory>
        ensures { IfOk result (λ copy. variable_report copy ≡ variable_report self.now) }
    {
        match self {
            EnvVar::Unset => Ok(EnvVar::Unset),
            EnvVar::Text(text) => Ok(EnvVar::Text(text.clone()?)),
            EnvVar::IllFormed => Ok(EnvVar::IllFormed),
        }
    }
}
