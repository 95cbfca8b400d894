//! Variables of the environment.

use crate::fault::Fault;
use std::alloc::AllocGlobal;
use std::env;
use std::env::VarError;
use std::rt::Env;

/// What a variable is set to. None if it isn't set, or to what is no UTF-8.
///
/// # Errors
///
/// Out of memory.
pub fn variable<R: Env + AllocGlobal>(rt: &R, name: &str) -> Result<Option<String>, Fault> {
    match env::var(rt, name) {
        Ok(text) => Ok(Some(text)),
        Err(VarError::NotPresent | VarError::NotUnicode) => Ok(None),
        Err(VarError::OutOfMemory) => Err(Fault::Memory),
    }
}
