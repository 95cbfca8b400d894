//! The place in a C program's memory that a handle is.
ghost use Rattle.std.specs.Prelude.{◌≡◌, Option, Some, None, option_map};
ghost use Rattle.gix_config_c.specs.declared.object.Object.{Object};
ghost use Rattle.gix_config_c.specs.contracts.object.Object.{the_row};
ghost use Rattle.gix_config_c.specs.Held.{is_held};

use crate::object::Object;
use crate::parts::Parts;
use std::alloc::Global;
use std::marker::Model;

/// What a handle points to, as far as C can see.
#[repr(C)]
pub struct Hidden {
    byte: u8,
}

/// A handle: null, or the one owner of an object on the heap.
#[repr(C)]
pub struct Slot {
    at: *mut Hidden,
    alloc: Global,
    pub ghost it: { Option Object },
}

impl Model for Slot {
    ghost also_owns = { λ slot. is_held the_row slot.alloc slot.at slot.it };
}

impl Slot {
    /// A handle with nothing in it.
    pub fn empty(alloc: Global) -> Slot
        ensures { result.it ≡ None }
    {
        Slot {
            at: std::ptr::null_mut(),
            alloc,
        }
    }

    /// The handle of an object.
    pub fn of(object: Box<Object>) -> Slot
        ensures { result.it ≡ Some object.value }
    {
        Slot::of_parts(Parts::of(object))
    }

    /// The handle of an object whose box was taken apart.
    fn of_parts(parts: Parts<Object>) -> Slot
        ensures { result.it ≡ Some parts.value }
    {
        let Parts { at, alloc } = parts;
        Slot {
            at: at as *mut Hidden,
            alloc,
        }
    }

    /// The object of a handle, if there is one.
    pub fn into_object(self) -> Option<Box<Object>>
        ensures { option_map (λ object. object.value) result ≡ self.it }
    {
        let Slot { at, alloc } = self;
        if at.is_null() {
            return None;
        }
        Some(unsafe { Box::from_raw(alloc, at as *mut Object) })
    }
}

/// Frees the object, if there is one.
impl Drop for Slot {
    fn drop(self) {
        drop(self.into_object());
    }
}

impl Slot {
    /// Takes the object out, and leaves the handle empty.
    pub fn take(&mut self, alloc: Global) -> Option<Box<Object>>
        ensures taken { option_map (λ object. object.value) result ≡ self.old.it }
        ensures empty { self.new.it ≡ None }
    {
        let was = std::mem::replace(self, Slot::empty(alloc));
        was.into_object()
    }

    /// Puts an object in, in the place of what was there, which is freed.
    pub fn put(&mut self, object: Box<Object>)
        ensures { self.new.it ≡ Some object.value }
    {
        *self = Slot::of(object);
    }
}

/// What a call answers by what a handle holds; 102 where it is empty, or holds something else. What it holds is taken out meanwhile.
macro_rules! in_handle {
    ($alloc:ident, &mut $handle:ident, $held:pat => $answer:expr) => {{
        let Some(mut object) = $handle.take($alloc) else {
            return $crate::WRONG_HANDLE;
        };
        let answer = match &mut *object {
            $held => $answer,
            _ => $crate::WRONG_HANDLE,
        };
        $handle.put(object);
        answer
    }};
    ($alloc:ident, &$handle:ident, $held:pat => $answer:expr) => {{
        let Some(object) = $handle.take($alloc) else {
            return $crate::WRONG_HANDLE;
        };
        let answer = match &*object {
            $held => $answer,
            _ => $crate::WRONG_HANDLE,
        };
        $handle.put(object);
        answer
    }};
}

pub(crate) use in_handle;
