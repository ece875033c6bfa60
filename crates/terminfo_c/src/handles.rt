//! A C program's handle of an entry.
ghost use Rattle.std.specs.Prelude.{◌≡◌, Option, Some, None, is_some, option_map, true};
ghost use Rattle.terminfo_c.specs.{Handles.{held_at, IsMarked, mark}, contracts.held.Held.{the_row}};

use crate::held::Held;
use crate::loose::Loose;
use std::alloc::Global;
use std::marker::Model;

/// The address of a box, or of nothing.
#[repr(C)]
#[derive(Drop)]
pub struct Slot {
    at: *mut u8,
    pub ghost held: { Option (the_row).Denot },
}

impl Model for Slot {
    ghost also_owns = { λ s. held_at the_row s.at s.held };
}

impl Slot {
    fn empty() -> Slot
        ensures { result.held ≡ None }
    {
        Slot {
            at: std::ptr::null_mut(),
        }
    }

    /// A slot that holds the box of `loose`.
    fn of(loose: Loose<Held, Global>) -> Slot
        ensures { result.held ≡ Some loose.value }
    {
        let Loose { at, alloc: _ } = loose;
        Slot { at: at as *mut u8 }
    }

    /// The box that the slot holds.
    fn into_loose(self, alloc: Global) -> Loose<Held, Global>
        requires { is_some self.held ≡ true }
        ensures { Some result.value ≡ self.held }
    {
        let Slot { at } = self;
        Loose {
            at: at as *mut Held,
            alloc,
        }
    }
}

/// A handle.
#[repr(C)]
#[derive(Drop)]
pub struct Handle {
    pub slot: Slot,
    state: usize,
    ghost marked: { IsMarked state slot.held },
}

/// The number that an open handle has ("tinf" in ASCII).
const MARK: usize = 1_953_066_598;

impl Handle {
    /// Opens the handle, which must be closed, with `held`.
    pub fn put(&mut self, held: Box<Held, Global>)
        requires { self.old.slot.held ≡ None }
        ensures { self.new.slot.held ≡ Some held.value }
    {
        *self = Handle {
            slot: Slot::of(Loose::of(held)),
            state: MARK,
        };
    }

    /// Hands out the entry that the handle holds, if it is open, and closes the handle.
    pub fn take(&mut self, alloc: Global) -> Option<Box<Held, Global>>
        ensures held { option_map (λ b. b.value) result ≡ self.old.slot.held }
        ensures closed { self.new.slot.held ≡ None }
    {
        let closed = Handle {
            slot: Slot::empty(),
            state: 0,
        };
        let Handle { slot, state } = std::mem::replace(self, closed);
        if state == MARK {
            Some(slot.into_loose(alloc).into_box())
        } else {
            None
        }
    }
}
