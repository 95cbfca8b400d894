//! What two files mean differently.
ghost use Rattle.std.specs.Prelude.{◌≡◌, ℕ, [], true, map, IfOk};
ghost use Rattle.std.specs.List.Sorted.{IsSortedBy};
ghost use Rattle.gitconf_diff.specs.PlainSections.{is_before, plain_sections, settings_in};
ghost use Rattle.gitconf_state.specs.State.{AreNumbered};
ghost use Rattle.gitconf_views.specs.Views.{sections_left};
ghost use Rattle.gitconf_diff.specs.Differences.{different_of, AreDifferences, AreKept, IsAdded};

use crate::difference::Difference;
use crate::differing::differing;
use crate::sections::{
    SideSection, add_sections, alike_count, are_of_both, mentions_of, order, say_the_same,
};
use crate::setting::Side;
use gitconf_text::NoMemory;
use gitconf_views::section::Sections;
use std::alloc::Global;

/// Whether sections are one of each file that say the same: the same names, and the same entries one by one.
fn are_alike(alloc: Global, group: &[SideSection<'_>]) -> Result<bool, NoMemory>
    ensures { IfOk result (λ are. are ≡ true → AreKept (settings_in (plain_sections group.now)) []) }
{
    match group {
        [one, other] if are_of_both(one, other) => say_the_same(alloc, one, other),
        _ => Ok(false),
    }
}

/// Adds what sections of the same names say differently.
fn add_of_group(
    alloc: Global,
    differences: &mut Vec<Difference>,
    group: &[SideSection<'_>],
) -> Result<(), NoMemory>
    ensures { IfOk result (λ _. IsAdded (settings_in (plain_sections group.now)) (map different_of differences.old.items) (map different_of differences.new.items)) }
{
    if are_alike(alloc, group)? {
        return Ok(());
    }
    differing(alloc, differences, mentions_of(alloc, group)?)
}

/// What sections of two files say differently. They stand in the order of their names.
fn differences_in(alloc: Global, sections: &[SideSection<'_>]) -> Result<Vec<Difference>, NoMemory>
    requires { IsSortedBy is_before sections.now }
    ensures { IfOk result (λ differences. AreKept (settings_in (plain_sections sections.now)) (map different_of differences.items)) }
{
    let mut differences = Vec::new(alloc);
    let mut at = 0;
    while let Some((first, others)) = sections[at..].split_first() {
        let end = at + 1 + alike_count(first, others);
        add_of_group(alloc, &mut differences, &sections[at..end])?;
        at = end;
    }
    Ok(differences)
}

/// What the sections of two files mean differently, sorted by key: of each key of which they say different things the entries of the
/// first file in file order, and then those of the other. A key is the name of a section, a subsection or none, and the name of a
/// value; the names are compared in lower case. The files say the same of a key if their entries of it mean the same in order, where
/// one without `=` means nothing, and if lookups of it find the same value in both.
///
/// It sorts the sections of both files by their names, and then the entries of those that have the same, unless they are one of each file
/// that say the same; only entries that differ are copied.
///
/// # Errors
///
/// Out of memory.
pub fn differences_of(
    alloc: Global,
    one: Sections<'_>,
    other: Sections<'_>,
) -> Result<Vec<Difference>, NoMemory>
    requires one_numbered { (n : ℕ) × AreNumbered n (sections_left one) }
    requires other_numbered { (n : ℕ) × AreNumbered n (sections_left other) }
    ensures { IfOk result (λ differences. AreDifferences (sections_left one.entry) (sections_left other.entry) (map different_of differences.items)) }
{
    let mut sections = Vec::new(alloc);
    add_sections(&mut sections, one, Side::One)?;
    add_sections(&mut sections, other, Side::Other)?;
    sections.sort_by(|one, other| order(one, other))?;
    differences_in(alloc, &sections)
}
