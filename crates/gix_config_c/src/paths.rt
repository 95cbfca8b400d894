//! Paths that values write.
ghost use Rattle.std.specs.Prelude.{◌≡◌};
ghost use Rattle.gix_config_c.specs.Blocks.{IsKept};
ghost use Rattle.gix_config_c.specs.Folders.{folders_of, known_folders};
ghost use Rattle.gix_config_c.specs.Keys.{names_of};
ghost use Rattle.gix_config_c.specs.Answers.{OfFile};
ghost use Rattle.gix_config_c.specs.Paths.{IsPathFor, IsWhole};

use crate::block::{Block, room};
use crate::folders::{Folders, context};
use crate::key::{Key, names};
use crate::object::Object;
use crate::slot::{Slot, in_handle};
use crate::{DONE, NOT_UTF8, NOTHING_THERE, OUT_OF_MEMORY};
use gitconf_values::path::interpolate::Context;
use gix_config::refusals::Refusal as _;
use gix_config::{File, Path};
use std::alloc::Global;

/// Returns the last value of a key as a path, its shorthand replaced. At the front of the path `%(prefix)/` is replaced by the directory
/// where git is installed, `~/` by the user's home directory. What the block had is freed.
///
/// 100 if there is none. 12 for an empty value, or one that needs a directory that is not known, as those of other users; 13 for a path
/// that is not UTF-8, 14 for the name of a user that is not. 101 if the section's or the value's name, or a directory that is known, is not
/// UTF-8, 102 if the handle has no file, 27 when out of memory. The block is then as it was.
#[unsafe(no_mangle)]
pub extern "C" fn gix_config_path(
    alloc: Global,
    file: &mut Slot,
    key: &Key<'_>,
    folders: &Folders<'_>,
    path: &mut Block,
) -> u32
    ensures answer { OfFile file.old.it result (λ f. IsPathFor (names_of key.now) (folders_of folders.now) f result path.new) }
    ensures kept { (result ≡ 0 → ⊥) → IsKept path.old path.new }
    ensures same { file.new.it ≡ file.old.it }
{
    in_handle!(alloc, &file, Object::File(f) => put_path(alloc, f, key, folders, path))
}

/// Puts the path that the last value of a key writes into a block.
fn put_path(
    alloc: Global,
    file: &File,
    key: &Key<'_>,
    folders: &Folders<'_>,
    path: &mut Block,
) -> u32
    ensures answer { IsPathFor (names_of key.now) (folders_of folders.now) file.now result path.new }
    ensures kept { (result ≡ 0 → ⊥) → IsKept path.old path.new }
{
    let Some(key) = names(key) else {
        return NOT_UTF8;
    };
    let Some(context) = context(folders) else {
        return NOT_UTF8;
    };
    match file.path(key) {
        Ok(Some(found)) => put_whole(alloc, &found, context, path),
        Ok(None) => NOTHING_THERE,
        Err(_) => OUT_OF_MEMORY,
    }
}

/// Puts a path, with its shorthand replaced, into a block.
fn put_whole(alloc: Global, found: &Path, context: Context<'_>, path: &mut Block) -> u32
    ensures answer { IsWhole (known_folders context.entry) found.now result path.new }
    ensures kept { (result ≡ 0 → ⊥) → IsKept path.old path.new }
{
    let Some(room) = room(alloc) else {
        return OUT_OF_MEMORY;
    };
    match found.interpolate(context) {
        Ok(whole) => {
            path.put(room, whole.into_bytes());
            DONE
        }
        Err(refusal) => u32::from(refusal.number()),
    }
}
