//! Variables of the process.

use crate::{Env, EnvVar};
use gitconf_text::NoMemory;
use std::alloc::AllocGlobal;
use std::env::VarError;
use std::{env, rt};

/// The variables that the process was started with. It reports no table of them, since the system has them.
#[derive(Drop)]
pub struct Process<R: rt::Env + AllocGlobal + Drop> {
    runtime: R,
}

impl<R: rt::Env + AllocGlobal + Drop> Process<R> {
    /// The variables of this runtime: in a program, of the one that `main` is given.
    pub fn new(runtime: R) -> Process<R> {
        Process { runtime }
    }
}

impl<R: rt::Env + AllocGlobal + Drop> Env for Process<R> {
    ghost use Rattle.std.specs.Prelude.{None};

    ghost variables = { λ _. None };

    /// A copy of the variable of this name. No variable has an empty name, or one with `=` or a NUL.
    fn var(&mut self, name: &str) -> Result<EnvVar, NoMemory> {
        match env::var(&self.runtime, name) {
            Ok(text) => Ok(EnvVar::Text(text)),
            Err(VarError::NotPresent) => Ok(EnvVar::Unset),
            Err(VarError::NotUnicode) => Ok(EnvVar::IllFormed),
            Err(VarError::OutOfMemory) => Err(NoMemory),
        }
    }
}
