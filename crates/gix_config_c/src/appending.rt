//! Files, appended to files.
ghost use Rattle.std.specs.Prelude.{◌≡◌, Some};
ghost use Rattle.gix_config_c.specs.declared.object.Object.TheVariants as object;
ghost use Rattle.gitconf_state.specs.State.{State};
ghost use Rattle.gix_config_c.specs.Answers.{OfFile};
ghost use Rattle.gix_config_c.specs.Appended.{IsAppended};
ghost use Rattle.gix_config_c.specs.Edited.{IsEditedFile};

use crate::object::Object;
use crate::slot::{Slot, in_handle};
use crate::{DONE, OUT_OF_MEMORY};
use gix_config::File;
use gix_config::refusals::Refusal as _;
use std::alloc::Global;

/// Appends a copy of another file. Its sections come after those of the file, and what is before its first section after the file's last.
/// The other file stays as it is.
///
/// 3 if the file would be too long. 102 if a handle has no file, 27 when out of memory. The file is then as it was.
#[unsafe(no_mangle)]
pub extern "C" fn gix_config_file_append(
    alloc: Global,
    file: &mut Slot,
    other_file: &mut Slot,
) -> u32
    ensures answer { OfFile file.old.it result (λ f. (g : State) × (file.new.it ≡ Some (object.File g))
        × IsEditedFile result f g × OfFile other_file.old.it result (λ other. IsAppended other f g result)) }
    ensures other { ((f : State) → file.old.it ≡ Some (object.File f) → ⊥) → file.new.it ≡ file.old.it }
    ensures same { other_file.new.it ≡ other_file.old.it }
{
    in_handle!(alloc, &mut file, Object::File(f) => append_from(alloc, f, other_file))
}

/// Appends a copy of the file in a handle.
fn append_from(alloc: Global, file: &mut File, other_file: &mut Slot) -> u32
    ensures edited { IsEditedFile result file.old file.new }
    ensures answer { OfFile other_file.old.it result (λ other. IsAppended other file.old file.new result) }
    ensures same { other_file.new.it ≡ other_file.old.it }
{
    in_handle!(alloc, &other_file, Object::File(other) => append(file, other))
}

/// Appends a copy of another file.
fn append(file: &mut File, other: &File) -> u32
    ensures edited { IsEditedFile result file.old file.new }
    ensures answer { IsAppended other.now file.old file.new result }
{
    let Ok(copy) = other.try_clone() else {
        return OUT_OF_MEMORY;
    };
    match file.append(copy) {
        Ok(()) => DONE,
        Err(refusal) => u32::from(refusal.number()),
    }
}
