//! What two files of git's configuration mean differently.
ghost use Rattle.std.specs.Prelude.{map, IfOk};
ghost use Rattle.gitconf_diff.specs.Differences.{different_of, AreDifferences};

pub use gitconf_diff::difference::Difference;
use gitconf_diff::differences::differences_of;
pub use gitconf_diff::setting::Side;
/// Nothing differs exactly if both files say the same of every key, and then lookups of a key find the same values in both.
use crate::File;
pub use gitconf_diff::laws;
use gitconf_text::NoMemory;
use std::alloc::Global;

/// What two files mean differently, sorted by key: of each key of which they say different things the entries of the first file in file
/// order, and then those of the other. A key is the name of a section, a subsection or none, and the name of a value; the two names are
/// compared, and are here, in lower case. The files say the same of a key if their entries of it mean the same in order, where one
/// without `=` means nothing, and if lookups of it find the same value in both. Where a section ends counts for this alone, as an entry
/// without `=` hides the earlier values of its section; comments, spelling and where sections come from don't count at all.
///
/// It is empty exactly if both say the same of every key ([`laws`]); then [`File::string`], [`File::strings`] and [`File::boolean`]
/// return the same from both. Calls that report what is missing may report another number.
///
/// It sorts the sections of both files by their names, and then the entries of those that have the same. Only what it returns is copied.
///
/// # Errors
///
/// E27 when out of memory.
pub fn differences(alloc: Global, one: &File, other: &File) -> Result<Vec<Difference>, NoMemory>
    ensures { IfOk result (λ differences. AreDifferences one.now.sections other.now.sections (map different_of differences.items)) }
{
    differences_of(alloc, one.sections(), other.sections())
}
