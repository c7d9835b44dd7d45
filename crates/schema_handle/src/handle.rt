// What a caller in C has: a slot, and whether it is open.
ghost use Rattle.std.specs.Prelude.{◌≡◌, Some, None, option_map};

use crate::parts::Parts;
use crate::slot::{Held, Slot};
use std::alloc::Global;
use std::{mem, ptr};

/// What is held, or nothing. In C it is `struct { bool is_open; struct { bool is_open; void *at; } slot; }`, and holds
/// nothing where all bytes are 0.
#[repr(C)]
pub struct Handle {
    is_open: bool,
    pub slot: Slot,
    ghost agrees: { is_open ≡ slot.is_open },
}

fn nowhere() -> *mut u8 {
    ptr::null_mut()
}

impl Handle {
    /// A handle that holds nothing.
    pub fn closed(alloc: Global) -> Handle
        ensures { result.slot.value ≡ None }
    {
        let at = nowhere();
        let slot = Slot::closed(alloc, at);
        Handle {
            is_open: false,
            slot,
        }
    }

    fn of(held: Box<Held>) -> Handle
        ensures { result.slot.value ≡ Some held.value }
    {
        Handle {
            is_open: true,
            slot: Slot::of_parts(Parts::of(held)),
        }
    }

    /// Takes out what is held, if there is something.
    pub fn take(&mut self, alloc: Global) -> Option<Box<Held>>
        ensures taken { option_map (λ held. held.value) result ≡ self.old.slot.value }
        ensures left { self.new.slot.value ≡ None }
    {
        let Handle { is_open, slot } = mem::replace(self, Handle::closed(alloc));
        if is_open {
            Some(slot.into_parts().into_box())
        } else {
            slot.shut();
            None
        }
    }

    /// Puts something in. What was held is dropped.
    pub fn put(&mut self, alloc: Global, held: Box<Held>)
        ensures { self.new.slot.value ≡ Some held.value }
    {
        drop(self.take(alloc));
        let Handle { is_open: _, slot } = mem::replace(self, Handle::of(held));
        slot.shut();
    }

    /// Lets go of a handle that holds nothing.
    pub fn shut(self)
        requires { self.slot.value ≡ None }
    {
        let Handle { is_open: _, slot } = self;
        slot.shut();
    }
}

// That a handle may go to another thread.
fn crosses(handle: Handle) -> Handle {
    sent(handle)
}

fn sent<T: Send>(value: T) -> T {
    value
}
