//! Where a whole file comes from.
ghost use Rattle.std.specs.Prelude.{◌≡◌, ◌⊎◌};
ghost use Rattle.gix_config_c.specs.Answers.{OfFile};
ghost use Rattle.gix_config_c.specs.Blocks.{IsKept};
ghost use Rattle.gix_config_c.specs.Metas.{IsMetaTold, IsPathHeld, IsToldOrigin};

use crate::block::{Block, room};
use crate::object::Object;
use crate::origin::{Origin, source, trust};
use crate::slot::{Slot, in_handle};
use crate::{DONE, OUT_OF_MEMORY};
use gitconf_sources::meta::Metadata;
use std::alloc::Global;

/// Tells where a file comes from, and returns its path, if it has one. The path is that of the file itself, also where its sections come
/// from others. What the block had is freed then.
///
/// 102 if the handle has no file, 27 when out of memory. Origin and block are then as they were.
#[unsafe(no_mangle)]
pub extern "C" fn gix_config_file_origin(
    alloc: Global,
    file: &mut Slot,
    origin: &mut Origin,
    path: &mut Block,
) -> u32
    ensures answer { OfFile file.old.it result (λ f. IsMetaTold f.meta result origin.new path.old path.new) }
    ensures kept { (result ≡ 0 → ⊥) → (origin.new ≡ origin.old) × IsKept path.old path.new }
    ensures same { file.new.it ≡ file.old.it }
{
    in_handle!(alloc, &file, Object::File(f) => tell_meta(alloc, f.meta(), origin, path))
}

/// Tells what metadata says.
fn tell_meta(alloc: Global, meta: &Metadata, origin: &mut Origin, path: &mut Block) -> u32
    ensures answer { IsMetaTold meta.now result origin.new path.old path.new }
    ensures kept { (result ≡ 0 → ⊥) → (origin.new ≡ origin.old) × IsKept path.old path.new }
{
    let number = hand_out(alloc, meta, path);
    if number == DONE {
        tell_origin(meta, origin);
    }
    number
}

/// Returns the path, if there is one.
fn hand_out(alloc: Global, meta: &Metadata, path: &mut Block) -> u32
    ensures number { (result ≡ 0) ⊎ (result ≡ 27) }
    ensures done { result ≡ 0 → IsPathHeld meta.now.path path.old path.new }
    ensures kept { (result ≡ 0 → ⊥) → IsKept path.old path.new }
{
    let Some(at) = &meta.path else {
        return DONE;
    };
    let Some(room) = room(alloc) else {
        return OUT_OF_MEMORY;
    };
    let Ok(copy) = at.as_bytes().to_vec(alloc) else {
        return OUT_OF_MEMORY;
    };
    path.put(room, copy);
    DONE
}

/// Tells the numbers of metadata.
fn tell_origin(meta: &Metadata, origin: &mut Origin)
    ensures { IsToldOrigin meta.now origin.new }
{
    origin.source = source(meta.source);
    origin.level = u32::from(meta.level);
    origin.trust = trust(meta.trust);
    origin.has_path = meta.path.is_some();
}
