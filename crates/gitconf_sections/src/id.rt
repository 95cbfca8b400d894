//! The numbers of sections.
ghost use Rattle.std.specs.Prelude.{◌≡◌};
ghost use Rattle.gitconf_text.specs.Sections.{no_number};

use std::marker::Model;

/// The number of a section. By it the section is found whatever is added or removed around it. The default is the
/// greatest number, which no section gets.
#[derive(Clone, Copy, PartialEq, Eq, PartialOrd, Ord, Hash, Debug)]
pub struct SectionId {
    pub(crate) number: usize,
}

impl Model for SectionId {
    ghost use Rattle.std.specs.Prelude.{ℕ};

    ghost Value = { ℕ };

    ghost view = { λ id. id.number };

    ghost inverse = { λ n. record { number = n } };
}

impl SectionId {
    /// The number itself, as hosts in other languages tell it. Numbers count up from 0 in the order in which sections were added.
    pub fn number(self) -> usize
        ensures { result ≡ self }
    {
        self.number
    }
}

impl Default for SectionId {
    ghost is_default = { λ id. id ≡ no_number };

    /// The greatest number, which no section gets.
    fn default() -> SectionId {
        SectionId { number: usize::MAX }
    }
}
