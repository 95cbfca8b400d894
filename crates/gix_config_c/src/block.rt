//! Bytes that a call returns.
ghost use Rattle.gix_config_c.specs.Blocks.{Holds, IsFreed, LieAt};

use crate::object::Object;
use crate::slot::Slot;
use std::alloc::Global;

/// Bytes that are the program's to read until it frees them.
#[repr(C)]
pub struct Block {
    /// Where they lie.
    pub at: *const u8,
    /// How many they are.
    pub len: usize,
    /// Their owner.
    pub owner: Slot,
}

impl Block {
    /// Puts bytes into the block, in place of those that it had, which are freed. Takes no memory: the room was made before.
    pub fn put(&mut self, mut room: Box<Object>, bytes: Vec<u8>)
        ensures { Holds bytes.items self.new }
    {
        self.at = bytes.as_ptr();
        self.len = bytes.len();
        *room = Object::Bytes(bytes);
        self.owner.put(room);
    }

    /// Frees the bytes, and leaves the block empty.
    pub fn free(&mut self, alloc: Global)
        ensures { IsFreed self.new }
    {
        self.at = std::ptr::null();
        self.len = 0;
        drop(self.owner.take(alloc));
    }
}

/// Bytes that lie in a handle, until it is edited or closed.
#[repr(C)]
pub struct Span {
    /// Where they lie.
    pub at: *const u8,
    /// How many they are.
    pub len: usize,
}

impl Span {
    /// Tells where these bytes lie. It takes the vector, which says more than a slice: which memory is its own.
    pub fn tell(&mut self, bytes: &Vec<u8>)
        ensures { LieAt bytes.now self.new }
    {
        self.at = bytes.as_ptr();
        self.len = bytes.len();
    }
}

/// Room for an object that is yet to come, or `None` when out of memory.
pub fn room(alloc: Global) -> Option<Box<Object>> {
    Box::new(alloc, Object::Bytes(Vec::new(alloc))).ok()
}
