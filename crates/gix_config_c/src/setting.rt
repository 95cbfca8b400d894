//! Values that are set.
ghost use Rattle.std.specs.Prelude.{◌≡◌, false, Some};
ghost use Rattle.gix_config_c.specs.Blocks.{IsKept};
ghost use Rattle.gix_config_c.specs.Keys.{names_of};
ghost use Rattle.gix_config_c.specs.declared.object.Object.TheVariants as object;
ghost use Rattle.gitconf_state.specs.State.{State};
ghost use Rattle.gix_config_c.specs.Answers.{OfFile, OfKey};
ghost use Rattle.gix_config_c.specs.Edited.{IsEditedFile, IsSetTo};

use crate::block::{Block, room};
use crate::key::{Key, names};
use crate::object::Object;
use crate::slot::{Slot, in_handle};
use crate::{DONE, NOT_UTF8, OUT_OF_MEMORY};
use gix_config::File;
use gix_config::refusals::Refusal as _;
use std::alloc::Global;

/// Gives a key a value. In the last section of its names the last entry of the name gets it. A section without such an entry gets a
/// new one; if there is no section, one is made. Tells whether there was an entry, and returns the raw text of its value; what the
/// block had is freed then.
///
/// 6 for a name that can't be a value's, 4 or 5 if a section has to be made of names that can't be one's, 3 if the file would be too
/// long. 101 if the section's or the value's name is not UTF-8, 102 if the handle has no file, 27 when out of memory. File, block and
/// boolean are then as they were.
#[unsafe(no_mangle)]
pub extern "C" fn gix_config_set_value(
    alloc: Global,
    file: &mut Slot,
    key: &Key<'_>,
    value: &[u8],
    had: &mut bool,
    old: &mut Block,
) -> u32
    ensures answer { OfFile file.old.it result (λ f. (g : State) × (file.new.it ≡ Some (object.File g))
        × IsEditedFile result f g × OfKey (names_of key.now) result (λ k. IsSetTo k value.now f g result had.new old.new)) }
    ensures other { ((f : State) → file.old.it ≡ Some (object.File f) → ⊥) → file.new.it ≡ file.old.it }
    ensures kept { (result ≡ 0 → ⊥) → (had.new ≡ had.old) × IsKept old.old old.new }
    ensures new { result ≡ 0 → had.new ≡ false → IsKept old.old old.new }
{
    in_handle!(alloc, &mut file, Object::File(f) => put_value(alloc, f, key, value, had, old))
}

/// Gives a key of a file a value.
#[tactic(auto, using(crate::proofs::ValueLemmas::set_with_old))]
fn put_value(
    alloc: Global,
    file: &mut File,
    key: &Key<'_>,
    value: &[u8],
    had: &mut bool,
    old: &mut Block,
) -> u32
    ensures edited { IsEditedFile result file.old file.new }
    ensures answer { OfKey (names_of key.now) result (λ k. IsSetTo k value.now file.old file.new result had.new old.new) }
    ensures kept { (result ≡ 0 → ⊥) → (had.new ≡ had.old) × IsKept old.old old.new }
    ensures new { result ≡ 0 → had.new ≡ false → IsKept old.old old.new }
{
    let Some(key) = names(key) else {
        return NOT_UTF8;
    };
    let Some(room) = room(alloc) else {
        return OUT_OF_MEMORY;
    };
    match file.set_raw_value_by(key.section_name, key.subsection_name, key.value_name, value) {
        Ok(Some(was)) => {
            *had = true;
            old.put(room, was.into_vec());
            DONE
        }
        Ok(None) => {
            *had = false;
            DONE
        }
        Err(refusal) => u32::from(refusal.number()),
    }
}
