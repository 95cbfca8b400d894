//! What two sides changed.
ghost use Rattle.std.specs.Prelude.{IfOk};
ghost use Rattle.gitconf_merge.specs.Changes.{AreChanges, plain_changes};

use gitconf_diff::difference::Difference;
use gitconf_diff::differences::differences_of;
use gitconf_store::store::Store;
use gitconf_text::NoMemory;
use std::alloc::Global;

/// What each two of three files mean differently, sorted by key.
#[derive(Drop)]
pub struct Changes {
    /// The base and OURS.
    pub ours: Vec<Difference>,
    /// The base and THEIRS.
    pub theirs: Vec<Difference>,
    /// OURS and THEIRS.
    pub between: Vec<Difference>,
}

/// What OURS and THEIRS changed of the base, and where they say different things. It compares each two of the three files once.
///
/// # Errors
///
/// Out of memory.
pub fn changes_of(
    alloc: Global,
    base: &Store,
    ours: &Store,
    theirs: &Store,
) -> Result<Changes, NoMemory>
    ensures { IfOk result (λ changes. AreChanges base.now.sections ours.now.sections theirs.now.sections (plain_changes changes)) }
{
    Ok(Changes {
        ours: differences_of(alloc, base.sections(), ours.sections())?,
        theirs: differences_of(alloc, base.sections(), theirs.sections())?,
        between: differences_of(alloc, ours.sections(), theirs.sections())?,
    })
}
