//! The text of one section of a file.
ghost use Rattle.std.specs.Prelude.{◌≡◌, slice_get};
ghost use Rattle.gitconf_views.specs.Views.{shown};
ghost use Rattle.gix_config_c.specs.Answers.{OfFile};
ghost use Rattle.gix_config_c.specs.Blocks.{IsKept};
ghost use Rattle.gix_config_c.specs.SectionTexts.{IsTextIf, IsTextOf};

use crate::block::{Block, room};
use crate::object::Object;
use crate::section_lists::section_at;
use crate::slot::{Slot, in_handle};
use crate::{DONE, NOTHING_THERE, OUT_OF_MEMORY};
use gitconf_views::section::SectionRef;
use gix_config::File;
use std::alloc::Global;

/// Returns the text of the section at a place, counted from 0. It is its header, and all that stands between it and the next one, with
/// a line ending put in where two of its parts would otherwise run together. What the block had is freed.
///
/// 100 if there is no such section, 102 if the handle has no file, 27 when out of memory. The block is then as it was.
#[unsafe(no_mangle)]
pub extern "C" fn gix_config_section_text(
    alloc: Global,
    file: &mut Slot,
    place: usize,
    text: &mut Block,
) -> u32
    ensures answer { OfFile file.old.it result (λ f. IsTextIf (slice_get f.sections place) result text.new) }
    ensures kept { (result ≡ 0 → ⊥) → IsKept text.old text.new }
    ensures same { file.new.it ≡ file.old.it }
{
    in_handle!(alloc, &file, Object::File(f) => put_text_at(alloc, f, place, text))
}

/// Puts the text of the section at a place into a block.
fn put_text_at(alloc: Global, file: &File, place: usize, text: &mut Block) -> u32
    ensures answer { IsTextIf (slice_get file.now.sections place) result text.new }
    ensures kept { (result ≡ 0 → ⊥) → IsKept text.old text.new }
{
    match section_at(file.sections(), place) {
        Some(section) => put_text(alloc, &section, text),
        None => NOTHING_THERE,
    }
}

/// Puts the text of a section into a block.
fn put_text(alloc: Global, section: &SectionRef<'_>, text: &mut Block) -> u32
    ensures answer { IsTextOf (shown section.now) result text.new }
    ensures kept { (result ≡ 0 → ⊥) → IsKept text.old text.new }
{
    let Some(room) = room(alloc) else {
        return OUT_OF_MEMORY;
    };
    match section.to_bstring() {
        Ok(printed) => {
            text.put(room, printed.into_vec());
            DONE
        }
        Err(_) => OUT_OF_MEMORY,
    }
}
