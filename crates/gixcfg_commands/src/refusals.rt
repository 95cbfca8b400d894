//! Errors of the library, as calls without options tell them.
ghost use Rattle.std.specs.Prelude.{◌≡◌, ◌⊎◌, IfErr, IfOk, Ok, Err};
ghost use Rattle.gixcfg_core.specs.Troubles.{refusal_status, status_of};
ghost use Rattle.gixcfg_core.specs.declared.trouble.Trouble.TheVariants.{Memory};

use gix_config::refusals::Refusal;
use gixcfg_core::refusals::of_refusal;
use gixcfg_core::trouble::Trouble;
use std::alloc::Global;
use std::fmt::Display;

/// What a call of the library made, or why not. It is told as calls without options tell it: by the number of the error, and by its words
/// too, if they are the parser's.
///
/// # Errors
///
/// The library refuses; out of memory.
pub fn told<T: Drop, E: Refusal + Display + Drop>(
    alloc: Global,
    made: Result<T, E>,
) -> Result<T, Trouble>
    ensures done { IfOk result (λ value. made ≡ Ok value) }
    ensures refused { IfErr result (λ trouble. (trouble ≡ Memory) ⊎ ((refusal : E) × (made ≡ Err refusal) × (E.number_of refusal ≡ 27 → trouble ≡ Memory) × (status_of trouble ≡ refusal_status (E.number_of refusal)))) }
{
    match made {
        Ok(value) => Ok(value),
        Err(refusal) => Err(by_number(alloc, &refusal)),
    }
}

/// The trouble that an error by the library is, told by its number.
pub fn by_number<E: Refusal + Display>(alloc: Global, refusal: &E) -> Trouble
    ensures status { (result ≡ Memory) ⊎ (status_of result ≡ refusal_status (E.number_of refusal.now)) }
    ensures memory { E.number_of refusal.now ≡ 27 → result ≡ Memory }
{
    let number = refusal.number();
    let message = match number {
        1..=2 => format!(in alloc; "gixcfg: E{number}: {refusal}\n"),
        _ => format!(in alloc; "gixcfg: E{number}\n"),
    };
    match message {
        Ok(message) => of_refusal(number, message),
        Err(_) => Trouble::Memory,
    }
}
