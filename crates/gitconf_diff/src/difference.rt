//! A difference of two files.
ghost use Rattle.std.specs.Prelude.{◌≡◌, IfOk};
ghost use Rattle.gitconf_diff.specs.PlainSettings.{plain_mention};
ghost use Rattle.gitconf_diff.specs.Differences.{different_of, plainly};

use crate::mention::{Mention, bytes_of};
use crate::owned::{owned, owned_if};
use crate::setting::Side;
use bstr::BString;
use gitconf_text::NoMemory;
use std::alloc::Global;

/// An entry of one of two files. They say different things of its key.
#[derive(Clone, Debug, Drop, PartialEq, Eq)]
pub struct Difference {
    /// The file that has it.
    pub side: Side,
    /// The name of its section, in lower case.
    pub section_name: BString,
    /// The subsection, if there is one.
    pub subsection_name: Option<BString>,
    /// The name of the value, in lower case.
    pub value_name: BString,
    /// What it means; `None` for an entry without `=`.
    pub value: Option<BString>,
}

/// The difference that an entry is, with memory of its own.
///
/// # Errors
///
/// Out of memory.
pub fn of_mention(alloc: Global, mention: &Mention<'_>) -> Result<Difference, NoMemory>
    ensures { IfOk result (λ difference. different_of difference ≡ plainly (plain_mention mention.now)) }
{
    Ok(Difference {
        side: mention.side,
        section_name: owned(alloc, mention.section_name)?,
        subsection_name: owned_if(alloc, mention.subsection_name)?,
        value_name: owned(alloc, mention.value_name.as_slice())?,
        value: owned_if(alloc, bytes_of(&mention.value))?,
    })
}
