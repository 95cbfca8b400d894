//! Values of keys in the sections that a filter keeps, and the text of these sections.
ghost use Rattle.std.specs.Prelude.{◌≡◌, IfOk, Some};
ghost use Rattle.gix_config_c.specs.Blocks.{IsKept};
ghost use Rattle.gix_config_c.specs.Keys.{names_of};
ghost use Rattle.gix_config_c.specs.Origins.{keeps};
ghost use Rattle.gitconf_items.specs.Sink.{Writes};
ghost use Rattle.gitconf_state.specs.Printing.{printed_kept};
ghost use Rattle.gix_config_c.specs.Answers.{OfFile, OfKey};
ghost use Rattle.gix_config_c.specs.Found.{AreValues, IsBooleanOf, IsIntegerOf, IsKeptText, IsValue};

use crate::block::{Block, room};
use crate::key::Key;
use crate::look_ups::{put_boolean, put_integer, put_value, put_values};
use crate::object::Object;
use crate::origin::{Filter, passes};
use crate::slot::{Slot, in_handle};
use crate::{DONE, OUT_OF_MEMORY};
use gitconf_items::sink::SinkFault;
use gix_config::{File, NoMemory};
use std::alloc::Global;

/// Like gix_config_value, but in the sections that the filter keeps. The numbers 7 and 8 are those of gix_config_value, and 9 is also
/// that none of the sections that are kept has such a value.
#[unsafe(no_mangle)]
pub extern "C" fn gix_config_value_filter(
    alloc: Global,
    file: &mut Slot,
    key: &Key<'_>,
    filter: &Filter,
    value: &mut Block,
) -> u32
    ensures answer { OfFile file.old.it result (λ f. OfKey (names_of key.now) result (λ k. IsValue k (keeps filter.now) f result value.new)) }
    ensures kept { (result ≡ 0 → ⊥) → IsKept value.old value.new }
    ensures same { file.new.it ≡ file.old.it }
{
    in_handle!(alloc, &file, Object::File(f) => put_value(alloc, f, key, Some(filter), value))
}

/// Like gix_config_values, but in the sections that the filter keeps. The numbers are those of gix_config_value_filter.
#[unsafe(no_mangle)]
pub extern "C" fn gix_config_values_filter(
    alloc: Global,
    file: &mut Slot,
    key: &Key<'_>,
    filter: &Filter,
    list: &mut Slot,
) -> u32
    ensures answer { OfFile file.old.it result (λ f. OfKey (names_of key.now) result (λ k. AreValues k (keeps filter.now) f result list.new.it)) }
    ensures kept { (result ≡ 0 → ⊥) → list.new.it ≡ list.old.it }
    ensures same { file.new.it ≡ file.old.it }
{
    in_handle!(alloc, &file, Object::File(f) => put_values(alloc, f, key, Some(filter), list))
}

/// Like gix_config_boolean, but in the sections that the filter keeps. The numbers are the same.
#[unsafe(no_mangle)]
pub extern "C" fn gix_config_boolean_filter(
    alloc: Global,
    file: &mut Slot,
    key: &Key<'_>,
    filter: &Filter,
    value: &mut bool,
) -> u32
    ensures answer { OfFile file.old.it result (λ f. OfKey (names_of key.now) result (λ k. IsBooleanOf k (keeps filter.now) f result value.new)) }
    ensures kept { (result ≡ 0 → ⊥) → value.new ≡ value.old }
    ensures same { file.new.it ≡ file.old.it }
{
    in_handle!(alloc, &file, Object::File(f) => put_boolean(f, key, Some(filter), value))
}

/// Like gix_config_integer, but in the sections that the filter keeps. The numbers are the same.
#[unsafe(no_mangle)]
pub extern "C" fn gix_config_integer_filter(
    alloc: Global,
    file: &mut Slot,
    key: &Key<'_>,
    filter: &Filter,
    value: &mut i64,
) -> u32
    ensures answer { OfFile file.old.it result (λ f. OfKey (names_of key.now) result (λ k. IsIntegerOf k (keeps filter.now) f result value.new)) }
    ensures kept { (result ≡ 0 → ⊥) → value.new ≡ value.old }
    ensures same { file.new.it ≡ file.old.it }
{
    in_handle!(alloc, &file, Object::File(f) => put_integer(f, key, Some(filter), value))
}

/// Returns the text of the front and the sections that the filter keeps. The front is what comes before the first section. What the
/// block had is freed.
///
/// 102 if the handle has no file, 27 when out of memory; the block is then as it was.
#[unsafe(no_mangle)]
pub extern "C" fn gix_config_file_text_filter(
    alloc: Global,
    file: &mut Slot,
    filter: &Filter,
    text: &mut Block,
) -> u32
    ensures answer { OfFile file.old.it result (λ f. IsKeptText filter.now f result text.new) }
    ensures kept { (result ≡ 0 → ⊥) → IsKept text.old text.new }
    ensures same { file.new.it ≡ file.old.it }
{
    in_handle!(alloc, &file, Object::File(f) => put_text(alloc, f, filter, text))
}

/// Puts the text of the sections that the filter keeps into a block.
fn put_text(alloc: Global, file: &File, filter: &Filter, text: &mut Block) -> u32
    ensures answer { IsKeptText filter.now file.now result text.new }
    ensures kept { (result ≡ 0 → ⊥) → IsKept text.old text.new }
{
    let Some(room) = room(alloc) else {
        return OUT_OF_MEMORY;
    };
    let Ok(bytes) = text_where(alloc, file, filter) else {
        return OUT_OF_MEMORY;
    };
    text.put(room, bytes);
    DONE
}

/// The text of the sections that the filter keeps.
fn text_where(alloc: Global, file: &File, filter: &Filter) -> Result<Vec<u8>, NoMemory>
    ensures { IfOk result (λ text. text.items ≡ printed_kept (λ s. keeps filter.now s.meta) file.now) }
{
    let mut text = Vec::new(alloc);
    match write_where(&mut text, file, filter) {
        Ok(()) => Ok(text),
        Err(_) => Err(NoMemory),
    }
}

/// Writes the text of the sections that the filter keeps.
fn write_where(text: &mut Vec<u8>, file: &File, filter: &Filter) -> Result<(), SinkFault>
    ensures { Writes result (printed_kept (λ s. keeps filter.now s.meta) file.now) (Some text.old.items) (Some text.new.items) }
{
    file.write_to_filter(text, |section| passes(filter, section.meta()))
}
