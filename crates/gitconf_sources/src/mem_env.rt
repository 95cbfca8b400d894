//! Variables in memory.
ghost use Rattle.std.specs.Prelude.{◌≡◌, ℕ, List, IfOk, OnOk, OnErr, None, cond, string_bytes};
ghost use Rattle.std.specs.Map.{lookup};
ghost use Rattle.std.specs.Str.{bytes_eq};
ghost use Rattle.gitconf_sources.specs.Reports.{variable_report};
ghost use Rattle.gitconf_sources.specs.InMemory.{with_entry, variable_entries, variable_at};

use crate::env::{Env, EnvVar};
use gitconf_text::NoMemory;
use std::alloc::Global;
use std::collections::BTreeMap;
use std::marker::Model;

/// Variables of the environment by their names, in memory. It reports them all; a name without an entry is not set.
#[derive(Drop)]
pub struct MemEnv {
    variables: BTreeMap<String, EnvVar>,
}

impl Model for MemEnv {
    ghost use Rattle.std.specs.Prelude.{ℕ, List};
    ghost use Rattle.gitconf_sources.specs.Reports.{VariableReport};
    ghost use Rattle.gitconf_sources.specs.InMemory.{variable_entries};

    ghost Value = { List (List ℕ × VariableReport) };

    ghost view = { λ e. variable_entries e.variables.entries };
}

impl MemEnv {
    ghost use Rattle.std.specs.Prelude.{◌≡◌, [], ℕ, List, OnOk, OnErr, None, cond, string_bytes};
    ghost use Rattle.std.specs.Map.{lookup};
    ghost use Rattle.std.specs.Str.{bytes_eq};
    ghost use Rattle.gitconf_sources.specs.Reports.{variable_report};
    ghost use Rattle.gitconf_sources.specs.InMemory.{with_entry, variable_at};

    /// No name is set. Takes no memory.
    pub fn new(alloc: Global) -> MemEnv
        ensures { result ≡ [] }
    {
        MemEnv {
            variables: BTreeMap::new(alloc),
        }
    }

    /// Sets a name to this variable, in place of what it was set to. Takes a walk down a tree of the names.
    ///
    /// # Errors
    ///
    /// Out of memory, only for a new name. The variables are then as they were.
    pub fn insert(&mut self, name: String, variable: EnvVar) -> Result<(), NoMemory>
        ensures ok { OnOk result (self.new ≡ with_entry (string_bytes name) (variable_report variable) self.old) }
        ensures err { OnErr result (self.new ≡ self.old) }
        ensures absent { OnErr result (lookup (bytes_eq (string_bytes name)) self.old ≡ None) }
        // The name has the variable, and each other name what it had.
        ensures last { OnOk result ((asked : List ℕ) → variable_at self.new asked
            ≡ cond (bytes_eq (string_bytes name) asked) (variable_report variable) (variable_at self.old asked)) }
    {
        put_variable(&mut self.variables, name, variable)
    }
}

impl Env for MemEnv {
    ghost use Rattle.std.specs.Prelude.{Some};
    ghost use Rattle.gitconf_sources.specs.InMemory.{variable_at};

    ghost variables = { λ e. Some (variable_at e) };

    /// A copy of the variable of this name. Takes a walk down a tree of the names, and memory for its text alone.
    fn var(&mut self, name: &str) -> Result<EnvVar, NoMemory> {
        variable_of(&self.variables, name)
    }
}

/// Sets a name to a variable in a tree of the names.
fn put_variable(
    variables: &mut BTreeMap<String, EnvVar>,
    name: String,
    variable: EnvVar,
) -> Result<(), NoMemory>
    ensures ok { OnOk result (variable_entries variables.new.entries ≡ with_entry (string_bytes name) (variable_report variable)
        (variable_entries variables.old.entries)) }
    ensures err { OnErr result (variable_entries variables.new.entries ≡ variable_entries variables.old.entries) }
    ensures absent { OnErr result (lookup (bytes_eq (string_bytes name)) (variable_entries variables.old.entries) ≡ None) }
    ensures last { OnOk result ((asked : List ℕ) → variable_at (variable_entries variables.new.entries) asked
        ≡ cond (bytes_eq (string_bytes name) asked) (variable_report variable) (variable_at (variable_entries variables.old.entries) asked)) }
{
    variables.insert(name, variable)?;
    Ok(())
}

/// A copy of the variable of a name in a tree of the names.
fn variable_of(variables: &BTreeMap<String, EnvVar>, name: &str) -> Result<EnvVar, NoMemory>
    ensures { IfOk result (λ copy. variable_report copy ≡ variable_at (variable_entries variables.now.entries) name.now) }
{
    match variables.get(name) {
        Some(variable) => variable.try_clone(),
        None => Ok(EnvVar::Unset),
    }
}
