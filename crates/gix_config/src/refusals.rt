//! The numbers of errors, E1 to E28, as programs show them.
ghost use Rattle.std.specs.Prelude.{◌≡◌};

use crate::file::section_mut;
pub use gitconf_loaders::refusals::Refusal;

/// That no section passes has no number of its own: it counts as 9, as when sections are renamed.
impl Refusal for section_mut::Error {
    ghost use Rattle.gix_config.specs.Errors.{section_mut_number};

    ghost number_of = { section_mut_number };

    fn number(&self) -> u8 {
        match self {
            section_mut::Error::NonePasses => 9,
            section_mut::Error::Lookup(e) => e.number(),
        }
    }
}
