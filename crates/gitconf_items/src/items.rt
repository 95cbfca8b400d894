//! Items: what a body is made of.
ghost use Rattle.std.specs.Prelude.{◌≡◌, [], IfOk, OnOk};

use crate::entry::Entry;
use crate::event::{Header, Span};
use gitconf_text::NoMemory;
use std::mem::{replace, size_of};

/// What a body is made of. It takes 24 bytes.
#[derive(Clone, Drop)]
pub enum Item {
    Blanks(Span),
    LineEnds(Span),
    Comment { tag: u8, text: Span },
    Entry(Entry),
}

const _: () = prove!(size_of::<Item>() == 24);

/// Blanks of no bytes, which fill the unused places of a short list.
impl Default for Item {
    fn default() -> Item {
        Item::Blanks(Span::NOTHING)
    }
}

/// What a load keeps of a text.
#[derive(Clone, Copy)]
pub enum Keep {
    /// All of it.
    All,
    /// Headers and entries, without blanks, line endings and comments: the document is the same.
    Meaning,
}

/// A header and what follows it.
#[derive(Drop)]
pub struct Section {
    /// The header.
    pub header: Header,
    /// The items after it, up to the next header.
    pub items: Vec<Item>,
}

/// A list of more items than this is returned as it is; the items of a shorter one are moved to a list of just their length.
const MANY: usize = 64;

/// The items in a list of just their length. If they are many, it is the list that they were in. `items` is empty afterwards.
///
/// # Errors
///
/// Out of memory.
pub fn moved_out(items: &mut Vec<Item>) -> Result<Vec<Item>, NoMemory>
    ensures moved { IfOk result (λ moved. moved.items ≡ items.old.items) }
    ensures empty { OnOk result (items.new.items ≡ []) }
{
    let alloc = *items.allocator();
    if items.len() > MANY {
        return Ok(replace(items, Vec::new(alloc)));
    }
    let mut moved = Vec::with_capacity(alloc, items.len())?;
    moved.append(items)?;
    Ok(moved)
}
