//! Lists that calls return.
ghost use Rattle.std.specs.Prelude.{◌≡◌, ◌⊎◌, None, Some};
ghost use Rattle.gix_config_c.specs.Lists.{IsAt, IsLength, IsTextAt};

use crate::block::Span;
use crate::object::Object;
use crate::slot::{Slot, in_handle};
use crate::{DONE, NOTHING_THERE, OUT_OF_MEMORY};
use std::alloc::Global;

/// Puts a list into a handle, in the place of what was there, which is closed.
pub(crate) fn put_list(alloc: Global, list: Object, handle: &mut Slot) -> u32
    ensures number { (result ≡ 0) ⊎ (result ≡ 27) }
    ensures done { result ≡ 0 → handle.new.it ≡ Some list }
    ensures kept { (result ≡ 0 → ⊥) → handle.new.it ≡ handle.old.it }
{
    match Box::new(alloc, list) {
        Ok(object) => {
            handle.put(object);
            DONE
        }
        Err(_) => OUT_OF_MEMORY,
    }
}

/// Tells how many texts, entries, sections or differences are in a list: 0 if the handle has no list.
#[unsafe(no_mangle)]
pub extern "C" fn gix_config_list_len(alloc: Global, list: &mut Slot) -> usize
    ensures length { IsLength list.old.it result }
    ensures same { list.new.it ≡ list.old.it }
{
    let Some(object) = list.take(alloc) else {
        return 0;
    };
    let answer = match &*object {
        Object::Texts(texts) => texts.len(),
        Object::Entries(entries) => entries.len(),
        Object::Sections(sections) => sections.len(),
        Object::Differences(differences) => differences.len(),
        _ => 0,
    };
    list.put(object);
    answer
}

/// Tells where a text of a list lies, counted from 0. It lies there until the list is closed.
///
/// 100 for a number past the end, 102 if the handle has no list of texts; the place is then as it was.
#[unsafe(no_mangle)]
pub extern "C" fn gix_config_list_at(
    alloc: Global,
    list: &mut Slot,
    index: usize,
    text: &mut Span,
) -> u32
    ensures answer { IsAt list.old.it index result text.new }
    ensures kept { (result ≡ 0 → ⊥) → (text.new.at ≡ text.old.at) × (text.new.len ≡ text.old.len) }
    ensures same { list.new.it ≡ list.old.it }
{
    in_handle!(alloc, &list, Object::Texts(texts) => tell_at(texts, index, text))
}

/// Tells where the text lies, if there is one.
fn tell_at(texts: &[Vec<u8>], index: usize, text: &mut Span) -> u32
    ensures answer { IsTextAt texts.now index result text.new }
    ensures kept { (result ≡ 0 → ⊥) → (text.new.at ≡ text.old.at) × (text.new.len ≡ text.old.len) }
{
    match texts.get(index) {
        Some(bytes) => {
            text.tell(bytes);
            DONE
        }
        None => NOTHING_THERE,
    }
}

/// Closes a list; an empty handle stays empty.
#[unsafe(no_mangle)]
pub extern "C" fn gix_config_list_close(alloc: Global, list: &mut Slot)
    ensures { list.new.it ≡ None }
{
    drop(list.take(alloc));
}
