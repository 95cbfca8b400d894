//! Settings: what a file gives to a key, with the file that gives it.
use bstr::BString;
use gitconf_sections::id::SectionId;

/// Which of two files.
#[derive(Clone, Copy, Debug, PartialEq, Eq, PartialOrd, Ord)]
pub enum Side {
    /// The first.
    One,
    /// The second.
    Other,
}

impl Side {
    ghost use Rattle.std.specs.Prelude.{◌≡◌};
    ghost use Rattle.gitconf_diff.specs.PlainSettings.{same_side};
    ghost use Rattle.gitconf_diff.specs.declared.setting.Side.TheVariants.{Other};

    /// Whether it is the second.
    pub(crate) fn is_other(self) -> bool
        ensures { result ≡ same_side Other self }
    {
        matches!(self, Side::Other)
    }
}

/// An entry of a file, by its names, with its value.
#[derive(Drop)]
pub struct Setting {
    /// The name of its section, as names are compared.
    pub section_name: BString,
    /// The subsection, if there is one.
    pub subsection_name: Option<BString>,
    /// The name of the value, as names are compared.
    pub value_name: BString,
    /// The file that has it.
    pub side: Side,
    /// The number of its section in that file.
    pub section: SectionId,
    /// What it means; `None` for an entry without `=`.
    pub value: Option<BString>,
}
