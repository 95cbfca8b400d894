//! Edits of the section at a place.
ghost use Rattle.std.specs.Option.{option_map};
ghost use Rattle.std.specs.Prelude.{◌≡◌, [], ◌<◌, length, Some, IfOk, IfSome, OnErr, OnOk};
ghost use Rattle.gitconf_text.specs.Sections.{edited_at, section_at};
ghost use Rattle.gitconf_sections.specs.LeavingOut.{without_all, Ascend};
ghost use Rattle.gitconf_sections.specs.Moves.{IsMovable, IsMovedAt};
ghost use Rattle.gitconf_sections.specs.Section.{with_items};

use crate::body::Body;
use crate::held::Held;
use crate::id::SectionId;
use crate::part::{leave_out_of, move_body, take_out};
use crate::sections::SectionList;
use gitconf_items::event::Header;
use gitconf_items::items::Item;
use gitconf_items::moving::moved_header;
use gitconf_sources::meta::Metadata;
use gitconf_text::NoMemory;
use std::mem::replace;
use std::rc::Rc;

impl SectionList {
    /// Gives the section at a place another header. It is still found by the names that it had.
    pub fn set_header(&mut self, position: usize, header: Header)
        requires { position < length self.old.entries }
        ensures { self.new ≡ edited_at (λ s. record s { header = header }) position self.old }
    {
        let row = &mut self.rows[position];
        row.header = header;
    }

    /// Sets where the section at a place comes from.
    pub fn set_meta(&mut self, position: usize, meta: Rc<Metadata>)
        requires { position < length self.old.entries }
        ensures { self.new ≡ edited_at (λ s. record s { meta = meta }) position self.old }
    {
        let row = &mut self.rows[position];
        row.meta = meta;
    }

    /// Takes the items of the section at a place. They are to be changed and put back by [`SectionList::put_items`]. Takes
    /// memory for as many items if they are in the list that the sections share.
    ///
    /// # Errors
    ///
    /// Out of memory. All is then as it was.
    pub fn take_items(&mut self, position: usize) -> Result<Box<Vec<Item>>, NoMemory>
        requires { position < length self.old.entries }
        ensures items { IfOk result (λ own. option_map (λ s. s.items.items) (section_at position self.old) ≡ Some own.value.items) }
        ensures ok { OnOk result (self.new ≡ edited_at (with_items []) position self.old) }
        ensures err { OnErr result (self.new ≡ self.old) }
    {
        let alloc = *self.list.allocator();
        let row = &mut self.rows[position];
        take_out(alloc, &mut self.list, &mut row.body)
    }

    /// Gives the section at a place these items.
    pub fn put_items(&mut self, position: usize, items: Box<Vec<Item>>)
        requires { position < length self.old.entries }
        ensures { self.new ≡ edited_at (with_items items.value.items) position self.old }
    {
        let row = &mut self.rows[position];
        row.body = Body::Own(items);
    }

    /// Takes what is held after the section at a place, to be changed and put back by [`SectionList::put_held`].
    pub(super) fn take_held(&mut self, position: usize) -> Held
        requires { position < length self.old.entries }
        ensures held { option_map (λ s. s.held.items) (section_at position self.old) ≡ Some result.items }
        ensures left { self.new ≡ edited_at (λ s. record s { held = record { items = [] } }) position self.old }
    {
        let row = &mut self.rows[position];
        replace(&mut row.held, Held::none())
    }

    /// Puts these items after the section at a place, in place of what is held there.
    pub(super) fn put_held(&mut self, position: usize, held: Held)
        requires { position < length self.old.entries }
        ensures { self.new ≡ edited_at (λ s. record s { held = record { items = held.items } }) position self.old }
    {
        let row = &mut self.rows[position];
        row.held = held;
    }

    /// Removes all items of the section at a place. Takes no memory.
    pub fn clear(&mut self, position: usize)
        requires { position < length self.old.entries }
        ensures { self.new ≡ edited_at (with_items []) position self.old }
    {
        let row = &mut self.rows[position];
        row.body = Body::Nothing;
    }

    /// Removes the items at these places from the section at a place. The places of the items are counted from 0, in
    /// items of the section. One walk over its items. Takes no memory.
    pub fn leave_out(&mut self, position: usize, places: &[(SectionId, usize)])
        requires position { position < length self.old.entries }
        requires ascend { Ascend 0 places.now }
        ensures { self.new ≡ edited_at (λ s. with_items (without_all places.now s.items.items) s) position self.old }
    {
        let row = &mut self.rows[position];
        let body = replace(&mut row.body, Body::Nothing);
        row.body = leave_out_of(&mut self.list, body, places);
    }

    /// Moves the section at a place, after bytes were put before those of its buffer. These are `by` bytes, and `copies_by` were put
    /// before the decoded copies. One pass over its items, which takes no memory.
    pub fn move_section(&mut self, position: usize, by: u32, copies_by: u32)
        requires position { position < length self.old.entries }
        requires movable { IfSome (section_at position self.old) (IsMovable by copies_by) }
        ensures { IsMovedAt by copies_by position self.old self.new }
    {
        let row = &mut self.rows[position];
        row.header = moved_header(row.header, by, copies_by);
        row.held.move_by(by);
        let body = replace(&mut row.body, Body::Nothing);
        row.body = move_body(&mut self.list, body, by);
    }
}
