//! Where the items of a body are.
ghost use Rattle.std.specs.Prelude.{◌≡◌, ◌+◌, ◌-◌, ◌^◌, ◌≤◌, drop, take};
ghost use Rattle.gitconf_sections.specs.Section.{body_items, end_behind, rebased};

use gitconf_items::items::Item;
use std::mem::size_of;

/// Where the items of a body are.
#[derive(Clone, Drop)]
pub(crate) enum Body {
    /// In the list that the sections share: `len` items after the first `from`.
    Listed { from: u32, len: u32 },
    /// In a list of its own, as since its first edit.
    Own(Box<Vec<Item>>),
    /// Nowhere: it has no items.
    Nothing,
}

const _: () = prove!(size_of::<Body>() == 16);

/// The `len` items of a list after the first `from`, as far as it has them.
fn part(list: &[Item], from: usize, len: usize) -> &[Item]
    ensures { result.now ≡ take len (drop from list.now) }
{
    if from > list.len() {
        return &[];
    }
    let behind = list.split_at(from).1;
    behind.split_at(len.min(behind.len())).0
}

/// The items of a body.
pub(crate) fn body_items<'a>(list: &'a [Item], body: &'a Body) -> &'a [Item]
    ensures { result.now ≡ body_items list.now body.now }
{
    match body {
        Body::Listed { from, len } => part(list, *from as usize, *len as usize),
        Body::Own(own) => own.as_slice(),
        Body::Nothing => &[],
    }
}

/// A body of a list, after `by` items were put before those of the list.
pub(crate) fn rebased(body: Body, by: u32) -> Body
    requires { end_behind 0 body + by ≤ 2 ^ 32 - 1 }
    ensures { result ≡ rebased by body }
{
    match body {
        Body::Listed { from, len } => Body::Listed {
            from: by + from,
            len,
        },
        Body::Own(own) => Body::Own(own),
        Body::Nothing => Body::Nothing,
    }
}
