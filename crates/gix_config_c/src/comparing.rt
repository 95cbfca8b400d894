//! Two files, compared.
ghost use Rattle.std.specs.Prelude.{◌≡◌, map, IfOk};
ghost use Rattle.gitconf_diff.specs.Differences.{different_of};
ghost use Rattle.gix_config_c.specs.Answers.{OfFile};
ghost use Rattle.gix_config_c.specs.Compared.{AreDifferencesFrom, AreDifferencesOf, AreListed, IsDifferenceAt, IsDifferenceIn, IsToldEqual, IsToldEqualFrom, told_difference};

use crate::difference::{Difference, DifferencePlace};
use crate::entries::vector;
use crate::entry::Entry;
use crate::lists::put_list;
use crate::object::Object;
use crate::slot::{Slot, in_handle};
use crate::{DONE, NOTHING_THERE, OUT_OF_MEMORY};
use gix_config::diff::differences;
use gix_config::{File, NoMemory};
use std::alloc::Global;

/// Tells whether two files are equal: the same sections in order, with the same keys that mean the same. Names are compared without ASCII
/// case. Comments, whitespace, what comes before the first section and where sections come from aren't compared.
///
/// 102 if a handle has no file; the boolean is then as it was.
#[unsafe(no_mangle)]
pub extern "C" fn gix_config_file_equal(
    alloc: Global,
    file: &mut Slot,
    other_file: &mut Slot,
    equal: &mut bool,
) -> u32
    ensures answer { OfFile file.old.it result (λ f. IsToldEqualFrom other_file.old.it f result equal.new) }
    ensures kept { (result ≡ 0 → ⊥) → equal.new ≡ equal.old }
    ensures same { file.new.it ≡ file.old.it }
    ensures same_other { other_file.new.it ≡ other_file.old.it }
{
    in_handle!(alloc, &file, Object::File(f) => tell_equal(alloc, f, other_file, equal))
}

/// Tells whether a file is equal to that in a handle.
fn tell_equal(alloc: Global, file: &File, other_file: &mut Slot, equal: &mut bool) -> u32
    ensures answer { IsToldEqualFrom other_file.old.it file.now result equal.new }
    ensures kept { (result ≡ 0 → ⊥) → equal.new ≡ equal.old }
    ensures same { other_file.new.it ≡ other_file.old.it }
{
    in_handle!(alloc, &other_file, Object::File(other) => tell_if_same(file, other, equal))
}

/// Tells whether two files are equal.
fn tell_if_same(file: &File, other: &File, equal: &mut bool) -> u32
    ensures { IsToldEqual file.now other.now result equal.new }
{
    *equal = *file == *other;
    DONE
}

/// Returns what two files say differently, sorted by key. Of each key of which they say different things it is the entries of the file,
/// in order, and then those of the other file. What was in the list's handle is closed. The list is empty if and only if both say the same
/// of every key: their entries of it mean the same in order, and look-ups of it find the same value.
///
/// 102 if a handle of a file has none, 27 when out of memory; the list's handle is then as it was.
#[unsafe(no_mangle)]
pub extern "C" fn gix_config_differences(
    alloc: Global,
    file: &mut Slot,
    other_file: &mut Slot,
    list: &mut Slot,
) -> u32
    ensures answer { OfFile file.old.it result (λ f. AreDifferencesFrom other_file.old.it f result list.new.it) }
    ensures kept { (result ≡ 0 → ⊥) → list.new.it ≡ list.old.it }
    ensures same { file.new.it ≡ file.old.it }
    ensures same_other { other_file.new.it ≡ other_file.old.it }
{
    in_handle!(alloc, &file, Object::File(f) => put_differences_from(alloc, f, other_file, list))
}

/// Puts what a file and that in a handle say differently into a list.
fn put_differences_from(alloc: Global, file: &File, other_file: &mut Slot, list: &mut Slot) -> u32
    ensures answer { AreDifferencesFrom other_file.old.it file.now result list.new.it }
    ensures kept { (result ≡ 0 → ⊥) → list.new.it ≡ list.old.it }
    ensures same { other_file.new.it ≡ other_file.old.it }
{
    in_handle!(alloc, &other_file, Object::File(other) => put_differences(alloc, file, other, list))
}

/// Puts what two files say differently into a list.
fn put_differences(alloc: Global, file: &File, other: &File, list: &mut Slot) -> u32
    ensures answer { AreDifferencesOf file.now other.now result list.new.it }
    ensures kept { (result ≡ 0 → ⊥) → list.new.it ≡ list.old.it }
{
    let Ok(found) = differences_of(alloc, file, other) else {
        return OUT_OF_MEMORY;
    };
    put_list(alloc, Object::Differences(found), list)
}

/// What two files say differently.
fn differences_of(alloc: Global, file: &File, other: &File) -> Result<Vec<Difference>, NoMemory>
    ensures { IfOk result (AreListed file.now other.now) }
{
    let found = differences(alloc, file, other)?;
    listed(alloc, found)
}

/// Differences, as a list has them.
fn listed(
    alloc: Global,
    found: Vec<gix_config::diff::Difference>,
) -> Result<Vec<Difference>, NoMemory>
    ensures { IfOk result (λ made. map told_difference made.items ≡ map different_of found.items) }
{
    let mut made = Vec::new(alloc);
    for difference in found {
        made.push(difference_of(difference))?;
    }
    Ok(made)
}

/// A difference, as a list has it.
fn difference_of(difference: gix_config::diff::Difference) -> Difference
    ensures { told_difference result ≡ different_of difference }
{
    let gix_config::diff::Difference {
        side,
        section_name,
        subsection_name,
        value_name,
        value,
    } = difference;
    Difference {
        side,
        entry: Entry {
            section: section_name.into_vec(),
            subsection: vector(subsection_name),
            name: value_name.into_vec(),
            value: vector(value),
        },
    }
}

/// Tells where the parts of a difference of a list lie, counted from 0. They lie there until the list is closed.
///
/// 100 for a number past the end, 102 if the handle has no list of differences; the place is then as it was.
#[unsafe(no_mangle)]
pub extern "C" fn gix_config_list_difference(
    alloc: Global,
    list: &mut Slot,
    index: usize,
    difference: &mut DifferencePlace,
) -> u32
    ensures answer { IsDifferenceIn list.old.it index result difference.new }
    ensures kept { (result ≡ 0 → ⊥) → difference.new ≡ difference.old }
    ensures same { list.new.it ≡ list.old.it }
{
    in_handle!(alloc, &list, Object::Differences(differences) => tell_difference(differences, index, difference))
}

/// Tells where the parts of the difference lie, if there is one.
fn tell_difference(
    differences: &[Difference],
    index: usize,
    difference: &mut DifferencePlace,
) -> u32
    ensures answer { IsDifferenceAt differences.now index result difference.new }
    ensures kept { (result ≡ 0 → ⊥) → difference.new ≡ difference.old }
{
    match differences.get(index) {
        Some(found) => {
            difference.tell(found);
            DONE
        }
        None => NOTHING_THERE,
    }
}
