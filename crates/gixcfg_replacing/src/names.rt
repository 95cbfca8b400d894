//! The names of what stands beside a file while it is edited.
ghost use Rattle.std.specs.Prelude.{◌≡◌, ◌++◌, IfOk, codes, string_bytes};

use std::alloc::{AllocError, Global};

/// The name of a file's lock.
///
/// # Errors
///
/// Out of memory.
pub fn lock_of(alloc: Global, file: &str) -> Result<String, AllocError>
    ensures { IfOk result (λ name. string_bytes name ≡ file.now ++ codes ".lock") }
{
    format!(in alloc; "{file}.lock")
}

/// The name of the temporary file for a file, by the process of a number.
///
/// # Errors
///
/// Out of memory.
pub fn draft_of(alloc: Global, file: &str, number: &str) -> Result<String, AllocError>
    ensures { IfOk result (λ name. string_bytes name ≡ file.now ++ codes ".gixcfg-" ++ number.now) }
{
    format!(in alloc; "{file}.gixcfg-{number}")
}
