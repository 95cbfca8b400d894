//! What a program told of variables of the environment.
ghost use Rattle.std.specs.Prelude.{◌≡◌, map};
ghost use Rattle.std.specs.Option.{option_copied};
ghost use Rattle.gix_config_c.specs.Variables.{first_untold};

use crate::key::text;
use crate::told_list::{Tells, ToldList};
use gitconf_sources::{Env, EnvVar};
use gix_config::NoMemory;
use std::alloc::{AllocError, Global};
use std::marker::Model;

/// What a program told of a variable.
#[derive(Drop)]
pub enum Variable {
    /// It isn't set.
    Unset,
    /// It is set to this text.
    Text(String),
    /// It is set to bytes that aren't UTF-8.
    IllFormed,
}

impl Variable {
    ghost use Rattle.std.specs.Prelude.{◌≡◌, IfOk};
    ghost use Rattle.gitconf_sources.specs.Reports.{variable_report};
    ghost use Rattle.gix_config_c.specs.Variables.{reported, set_to};

    /// What a variable is that is set to these bytes.
    ///
    /// # Errors
    ///
    /// Out of memory.
    pub fn set(alloc: Global, bytes: &[u8]) -> Result<Variable, NoMemory>
        ensures { IfOk result (λ variable. reported variable ≡ set_to bytes.now) }
    {
        match text(bytes) {
            Some(text) => Ok(Variable::Text(String::from_str(alloc, text)?)),
            None => Ok(Variable::IllFormed),
        }
    }

    /// The same for the library.
    fn answer(&self) -> Result<EnvVar, NoMemory>
        ensures { IfOk result (λ variable. variable_report variable ≡ reported self.now) }
    {
        match self {
            Variable::Unset => Ok(EnvVar::Unset),
            Variable::Text(text) => Ok(EnvVar::Text(text.clone()?)),
            Variable::IllFormed => Ok(EnvVar::IllFormed),
        }
    }
}

impl Clone for Variable {
    ghost use Rattle.std.specs.Prelude.{◌≡◌};
    ghost use Rattle.gix_config_c.specs.Variables.{reported};

    ghost is_clone = { λ variable copy. reported copy ≡ reported variable };

    fn clone(&self) -> Result<Variable, AllocError> {
        match self {
            Variable::Unset => Ok(Variable::Unset),
            Variable::Text(text) => Ok(Variable::Text(text.clone()?)),
            Variable::IllFormed => Ok(Variable::IllFormed),
        }
    }
}

/// Stands in a type for what is known of a variable. No value of it is ever made.
pub struct OfVariable {}

impl Model for OfVariable {
    ghost use Rattle.gitconf_sources.specs.Reports.{NotSet, VariableReport};

    ghost Value = { VariableReport };

    ghost view = { λ _. NotSet };
}

impl Tells<OfVariable> for Variable {
    ghost use Rattle.gix_config_c.specs.Variables.{reported};

    ghost reported = { reported };

    ghost same = { λ told copy is. is };
}

/// What a program told of variables, by their names. It is a source of variables in which one of which nothing was told isn't set; so what
/// needs a variable first asks whether something was told of it.
pub type ToldVariables = ToldList<Variable, OfVariable>;

impl Env for ToldVariables {
    ghost use Rattle.std.specs.Prelude.{Some};
    ghost use Rattle.gitconf_sources.specs.InMemory.{variable_at};

    ghost variables = { λ v. Some (variable_at v) };

    fn var(&mut self, name: &str) -> Result<EnvVar, NoMemory> {
        match self.told(name) {
            Some(variable) => variable.answer(),
            None => Ok(EnvVar::Unset),
        }
    }
}

/// The first of these variables of which nothing was told.
#[tactic(auto, unfolding(crate::specs::Variables::first_untold))]
pub fn untold<'a>(told: &ToldVariables, names: &[&'a str]) -> Option<&'a str>
    ensures { option_copied result ≡ first_untold told.now (map (λ name. name.now) names.now) }
{
    for name in names {
        if !told.knows(name) {
            return Some(*name);
        }
    }
    None
}
