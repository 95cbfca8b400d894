//! Short lists of items.
ghost use Rattle.std.specs.Prelude.{◌≡◌, []};

use crate::items::Item;
use smallvec::SmallVec;
use std::alloc::Global;
use std::mem::replace;

/// How many items a short list holds without memory of its own.
const FEW: usize = 4;

/// Items of which there are mostly few or none, as before a text's first header: up to four take no memory of their own.
pub type FewItems = SmallVec<Item, 4>;

/// The items of a list, which is left empty. Up to four are moved, and the list keeps its room; if there are more, the list itself is
/// returned. So no memory is taken.
pub fn taken(alloc: Global, items: &mut Vec<Item>) -> FewItems
    ensures taken { result.items ≡ items.old.items }
    ensures left { items.new.items ≡ [] }
{
    if items.len() > FEW {
        return SmallVec::from_vec(replace(items, Vec::new(alloc)));
    }
    let mut few = SmallVec::new(alloc);
    for item in items.drain(..) {
        few.push_reserved(item);
    }
    few
}
