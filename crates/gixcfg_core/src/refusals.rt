//! Errors of the library's calls, as troubles.
ghost use Rattle.std.specs.Prelude.{◌≡◌};
ghost use Rattle.gixcfg_core.specs.Troubles.{refusal_status, status_of};
ghost use Rattle.gixcfg_core.specs.declared.trouble.Trouble.TheVariants.{Memory};

use crate::trouble::Trouble;
use std::alloc::Global;
use std::fmt::Display;

/// The trouble that an error of a load is, by its number.
pub fn trouble_of<D: Display>(alloc: Global, number: u8, refusal: &D) -> Trouble {
    match format!(in alloc; "gixcfg: {refusal} [E{number}]\n") {
        Ok(message) => of_refusal(number, message),
        Err(_) => Trouble::Memory,
    }
}

/// The trouble that an error of this number is, with its message.
pub fn of_refusal(number: u8, message: String) -> Trouble
    ensures status { status_of result ≡ refusal_status number }
    ensures memory { number ≡ 27 → result ≡ Memory }
{
    if number == 27 {
        Trouble::Memory
    } else if 18 < number && number < 22 {
        Trouble::Unread(message)
    } else {
        Trouble::Text(message)
    }
}
