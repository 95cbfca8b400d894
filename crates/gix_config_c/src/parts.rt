//! A box, taken apart.
ghost use Rattle.std.specs.Prelude.{◌≡◌};
ghost use Rattle.std.specs.Box.Ownership.{box_owns};
ghost use Rattle.std.specs.contracts.impls.GlobalAllocator.TheImpl.{ghosts};

use std::alloc::Global;
use std::marker::Model;

/// Where the value of a box lies, and the heap it is from. It owns what the box owned.
pub(crate) struct Parts<T> {
    pub(crate) at: *mut T,
    pub(crate) alloc: Global,
    pub(crate) ghost value: { T },
}

impl<T> Model for Parts<T> {
    ghost also_owns = { λ parts. box_owns (ghosts.dealloc_token parts.alloc) T.row parts.at parts.value };
}

impl<T: Drop> Parts<T> {
    /// Takes a box apart.
    pub(crate) fn of(boxed: Box<T>) -> Parts<T>
        ensures { result.value ≡ boxed.value }
    {
        let (at, alloc) = Box::into_raw_with_allocator(boxed);
        Parts { at, alloc }
    }
}
