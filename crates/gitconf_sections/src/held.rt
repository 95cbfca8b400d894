//! Items held after a section.
ghost use Rattle.std.specs.Prelude.{◌≡◌, ◌+◌, ◌-◌, ◌^◌, ◌≤◌, ◌++◌, [], length, OnOk};
ghost use Rattle.smallvec.specs.SmallVec.{HasRoomFor, small_vec_len};
ghost use Rattle.gitconf_items.specs.ItemsFit.{AreItemsWithin};
ghost use Rattle.gitconf_items.specs.Moves.{AreItemsMoved};
ghost use Rattle.gitconf_sections.specs.Held.{line_end_item};

use gitconf_items::event::Span;
use gitconf_items::few::FewItems;
use gitconf_items::items::Item;
use gitconf_items::moving::move_items;
use std::alloc::{AllocError, Global};
use std::marker::Model;
use std::mem::size_of;

/// Adds a line ending, if one is given, and others after the items. They go into the room that there is.
pub fn join(items: &mut FewItems, line_end: Option<Span>, others: &mut FewItems)
    requires room { HasRoomFor items.old (small_vec_len others.old + 1) }
    ensures { items.new.items ≡ items.old.items ++ (line_end_item line_end ++ others.old.items) }
{
    if let Some(run) = line_end {
        items.push_reserved(Item::LineEnds(run));
    }
    items.append(others).unwrap();
}

/// The items held after a section. Their list is in a box, since nearly every section holds none, and up to four take no memory
/// besides the box. It takes 16 bytes.
#[derive(Drop)]
pub struct Held {
    list: Option<Box<FewItems>>,
}

const _: () = prove!(size_of::<Held>() == 16);

impl Model for Held {
    ghost use Rattle.gitconf_sections.specs.Held.{HeldItems, held_in};

    ghost Value = { HeldItems };

    ghost view = { λ h. held_in h.list };
}

impl Held {
    /// Nothing held. It takes no memory.
    pub fn none() -> Held
        ensures { result.items ≡ [] }
    {
        Held { list: None }
    }

    /// The items, in order.
    pub fn as_slice(&self) -> &[Item]
        ensures { result.now ≡ self.now.items }
    {
        match &self.list {
            Some(list) => list.as_slice(),
            None => &[],
        }
    }

    /// Makes room for that many more items.
    ///
    /// # Errors
    ///
    /// Out of memory.
    pub fn reserve(&mut self, alloc: Global, more: usize) -> Result<(), AllocError>
        ensures items { self.new.items ≡ self.old.items }
        ensures ok { OnOk result (more ≤ self.new.room) }
    {
        let mut list = match self.list.take() {
            Some(list) => list,
            None => Box::new(alloc, FewItems::new(alloc))?,
        };
        let reserved = list.reserve(more);
        self.list = Some(list);
        reserved
    }

    /// Adds a line ending, if one is given, and others after the items. They go into the room that there is.
    pub fn join(&mut self, line_end: Option<Span>, others: &mut FewItems)
        requires room { small_vec_len others.old + 1 ≤ self.old.room }
        ensures { self.new.items ≡ self.old.items ++ (line_end_item line_end ++ others.old.items) }
    {
        match self.list.take() {
            Some(mut list) => {
                join(&mut *list, line_end, others);
                self.list = Some(list);
            }
            None => unreachable!(),
        }
    }

    /// Moves the items of a buffer, after `by` bytes were put before the buffer's. One pass, which takes no memory.
    pub fn move_by(&mut self, by: u32)
        requires { AreItemsWithin (2 ^ 32 - 1 - by) self.old.items }
        ensures { AreItemsMoved by self.old.items self.new.items }
    {
        match self.list.take() {
            Some(mut list) => {
                move_items(&mut *list, by);
                self.list = Some(list);
            }
            None => {}
        }
    }
}

impl Clone for Held {
    ghost use Rattle.gitconf_sections.specs.Held.{AreClones};

    ghost is_clone = { AreClones };

    ghost is_infallible = { λ _. ⊥ };

    fn clone(&self) -> Result<Held, AllocError> {
        let list = match &self.list {
            Some(list) => Some(list.clone()?),
            None => None,
        };
        Ok(Held { list })
    }
}
