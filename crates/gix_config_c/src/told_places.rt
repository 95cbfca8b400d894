//! Where texts that a program told can't be read on.
ghost use Rattle.std.specs.Prelude.{◌≡◌, ◌⊎◌};
ghost use Rattle.gix_config_c.specs.NumberedEdits.{OfText};
ghost use Rattle.gix_config_c.specs.Opened.{IsKeptPlace};
ghost use Rattle.gix_config_c.specs.Telling.{OfTold};
ghost use Rattle.gix_config_c.specs.Told.{text_told, told_at};
ghost use Rattle.gix_config_c.specs.ToldPlaces.{IsToldPlace, IsPlaceOfText};

use crate::fault::Fault;
use crate::object::Object;
use crate::opening::{opened, refused};
use crate::slot::{Slot, in_handle};
use crate::text_meta::Known;
use crate::told::ToldFiles;
use crate::{DONE, NOT_UTF8, NOTHING_THERE, key};
use std::alloc::Global;

/// Tells where the text that was told of a path can't be read on. A load that needs that file is refused. The text is read once more. A
/// load that is answered with 1 or 2 leaves in its block the path of the refused file.
///
/// 1 for a text that can't be read on at some place, 2 for one of more than 4294967295 bytes; then the place says where, else it is
/// as it was. 0 for a text that can be read, 100 if no text was told of the path. 101 if the path is not UTF-8, 102 if the handle is not one
/// for what is told, 27 when out of memory.
#[unsafe(no_mangle)]
pub extern "C" fn gix_config_told_place(
    alloc: Global,
    told: &mut Slot,
    path: &[u8],
    place: &mut Fault,
) -> u32
    ensures answer { OfTold told.old.it result (λ t. OfText path.now result (λ path. IsToldPlace (text_told (told_at t.files path)) result place.new)) }
    ensures kept { (result ≡ 1 → ⊥) → (result ≡ 2 → ⊥) → IsKeptPlace place.old place.new }
    ensures same { told.new.it ≡ told.old.it }
{
    in_handle!(alloc, &told, Object::Told(it) => place_in(alloc, &it.files, path, place))
}

/// Tells where the text at a path can't be read on.
fn place_in(alloc: Global, told: &ToldFiles, path: &[u8], place: &mut Fault) -> u32
    ensures answer { OfText path.now result (λ path. IsToldPlace (text_told (told_at told.now path)) result place.new) }
    ensures kept { (result ≡ 1 → ⊥) → (result ≡ 2 → ⊥) → IsKeptPlace place.old place.new }
{
    let Some(path) = key::text(path) else {
        return NOT_UTF8;
    };
    match told.text(path) {
        Some(text) => place_of(alloc, text, place),
        None => NOTHING_THERE,
    }
}

/// Tells where a text can't be read on.
fn place_of(alloc: Global, text: &[u8], place: &mut Fault) -> u32
    ensures answer { IsPlaceOfText text.now result place.new }
    ensures kept { (result ≡ 1 → ⊥) → (result ≡ 2 → ⊥) → IsKeptPlace place.old place.new }
{
    match opened(alloc, text, Known::api(), false) {
        Ok(_) => DONE,
        Err(refusal) => refused(text, &refusal, place),
    }
}
