//! Values of keys in texts of which no file is opened.
ghost use Rattle.std.specs.Prelude.{◌≡◌, ◌⊎◌};
ghost use Rattle.gix_config_c.specs.Blocks.{IsKept};
ghost use Rattle.gix_config_c.specs.Keys.{names_of};
ghost use Rattle.gix_config_c.specs.Answers.{OfKey};
ghost use Rattle.gix_config_c.specs.Opened.{IsKeptPlace};
ghost use Rattle.gix_config_c.specs.Texts.{AreValuesIn, IsRefusedText, IsValueIn};

use crate::block::{Block, room};
use crate::fault::Fault;
use crate::key::{Key, names};
use crate::look_ups::put_texts;
use crate::opening::refused;
use crate::slot::Slot;
use crate::{DONE, NOT_UTF8, NOTHING_THERE, OUT_OF_MEMORY};
use gitconf_parse::lookup::{value_in, values_in};
use std::alloc::Global;

/// Returns what the last value of a key means in a text. It is what gix_config_value returns for the text's file, which isn't made.
/// The text is read once. What the block had is freed.
///
/// 100 if there is none. 1 for a text that can't be read on at some place, 2 for one of more than 4294967295 bytes; then the
/// place says where, else it is as it was. 101 if the section's or the value's name is not UTF-8, 27 when out of memory. The block is as
/// it was after any number but 0.
#[unsafe(no_mangle)]
pub extern "C" fn gix_config_text_value(
    alloc: Global,
    text: &[u8],
    key: &Key<'_>,
    value: &mut Block,
    place: &mut Fault,
) -> u32
    ensures answer { OfKey (names_of key.now) result (λ k. IsValueIn k text.now result value.new) }
    ensures refused { (result ≡ 1) ⊎ (result ≡ 2) → IsRefusedText text.now result place.new }
    ensures kept { (result ≡ 0 → ⊥) → IsKept value.old value.new }
    ensures kept_place { (result ≡ 1 → ⊥) → (result ≡ 2 → ⊥) → IsKeptPlace place.old place.new }
{
    let Some(key) = names(key) else {
        return NOT_UTF8;
    };
    match value_in(alloc, text, key) {
        Ok(Some(found)) => match room(alloc) {
            Some(room) => {
                value.put(room, found.into_vec());
                DONE
            }
            None => OUT_OF_MEMORY,
        },
        Ok(None) => NOTHING_THERE,
        Err(refusal) => refused(text, &refusal, place),
    }
}

/// Returns what all values of a key mean in a text, in order. It is what gix_config_values returns for the text's file, which isn't
/// made. The text is read once. What was in the list's handle is closed.
///
/// The numbers of gix_config_text_value; the list's handle is as it was after any but 0.
#[unsafe(no_mangle)]
pub extern "C" fn gix_config_text_values(
    alloc: Global,
    text: &[u8],
    key: &Key<'_>,
    list: &mut Slot,
    place: &mut Fault,
) -> u32
    ensures answer { OfKey (names_of key.now) result (λ k. AreValuesIn k text.now result list.new.it) }
    ensures refused { (result ≡ 1) ⊎ (result ≡ 2) → IsRefusedText text.now result place.new }
    ensures kept { (result ≡ 0 → ⊥) → list.new.it ≡ list.old.it }
    ensures kept_place { (result ≡ 1 → ⊥) → (result ≡ 2 → ⊥) → IsKeptPlace place.old place.new }
{
    let Some(key) = names(key) else {
        return NOT_UTF8;
    };
    match values_in(alloc, text, key) {
        Ok(Some(found)) => put_texts(alloc, found, list),
        Ok(None) => NOTHING_THERE,
        Err(refusal) => refused(text, &refusal, place),
    }
}
