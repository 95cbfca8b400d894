//! The text of a file, and what is returned.
ghost use Rattle.std.specs.Prelude.{◌≡◌, ◌⊎◌, Some};
ghost use Rattle.gix_config_c.specs.Blocks.{Holds, IsFreed, IsKept};
ghost use Rattle.gitconf_state.specs.Printing.{printed};
ghost use Rattle.gix_config_c.specs.Answers.{OfFile};
ghost use Rattle.gix_config_c.specs.Messages.{message_of};

use crate::block::{Block, room};
use crate::object::Object;
use crate::slot::{Slot, in_handle};
use crate::{DONE, OUT_OF_MEMORY};
use gix_config::File;
use std::alloc::Global;

/// Returns the text of a file. What the block had is freed.
///
/// 102 if the handle has no file, 27 when out of memory; the block is then as it was.
#[unsafe(no_mangle)]
pub extern "C" fn gix_config_file_text(alloc: Global, file: &mut Slot, text: &mut Block) -> u32
    ensures answer { OfFile file.old.it result (λ f. ((result ≡ 0) ⊎ (result ≡ 27)) × (result ≡ 0 → Holds (printed f) text.new)) }
    ensures kept { (result ≡ 0 → ⊥) → IsKept text.old text.new }
    ensures same { file.new.it ≡ file.old.it }
{
    in_handle!(alloc, &file, Object::File(f) => put_text(alloc, f, text))
}

/// Puts the text of a file into a block.
fn put_text(alloc: Global, file: &File, text: &mut Block) -> u32
    ensures number { (result ≡ 0) ⊎ (result ≡ 27) }
    ensures done { result ≡ 0 → Holds (printed file.now) text.new }
    ensures kept { (result ≡ 0 → ⊥) → IsKept text.old text.new }
{
    let Some(room) = room(alloc) else {
        return OUT_OF_MEMORY;
    };
    let Ok(bytes) = file.to_bstring() else {
        return OUT_OF_MEMORY;
    };
    text.put(room, bytes.into_vec());
    DONE
}

/// Frees the bytes of a block, and leaves it empty; an empty one stays empty.
#[unsafe(no_mangle)]
pub extern "C" fn gix_config_bytes_free(alloc: Global, bytes: &mut Block)
    ensures { IsFreed bytes.new }
{
    bytes.free(alloc);
}

/// Tells in words what the number of an error says. The text stays for good; it is empty for a number that no call answers.
#[unsafe(no_mangle)]
pub extern "C" fn gix_config_refusal_text(number: u32, text: &mut &'static [u8])
    ensures { text.new.now ≡ message_of number }
{
    *text = message(number);
}

/// What a number says.
fn message(number: u32) -> &'static [u8]
    ensures { result.now ≡ message_of number }
{
    match number {
        1 => b"the text can't be read on",
        2 => b"the text is too long",
        3 => b"the file would be too long",
        4 => b"the name can't be a section's",
        5 => b"the name can't be a subsection's",
        6 => b"the name can't be a value's",
        7 => b"no section has the name",
        8 => b"no section of the name has the subsection",
        9 => b"the section has no such value",
        11 => b"the value is not of the type",
        12 => b"a folder that the path needs is not known, or the path is empty",
        13 => b"the path is not UTF-8",
        14 => b"the name of the path's user is not UTF-8",
        15 => b"files include each other too deeply",
        16 => b"an include is relative, and its file has no path",
        17 => b"a condition is about a repository, and there is none",
        18 => b"the repository's folder can't be resolved",
        19 => b"a file that is included can't be opened",
        20 => b"a file that is included can't be read",
        21 => b"the file can't be opened or read",
        22 => b"the key or the value that variables set is not UTF-8",
        23 => b"GIT_CONFIG_COUNT is no number",
        24 => b"the variable of a key is not set",
        25 => b"the key that variables set has no dot",
        26 => b"the variable of a value is not set",
        27 => b"out of memory",
        100 => b"there is no such thing",
        101 => b"a name is not UTF-8",
        102 => b"the handle is empty or holds something else",
        103 => b"nothing was told of a file that is needed",
        104 => b"no source or trust has the number",
        105 => b"nothing was told of a variable that is needed",
        _ => b"",
    }
}
