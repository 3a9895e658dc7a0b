//! The handle of a seat, as that of a session.
ghost use Rattle.std.specs.Prelude.{◌≡◌, true, None, Some, IsSome, MatchBool, MatchOption, Option};
ghost use Rattle.race.specs.Seated.{SeatedState};
ghost use Rattle.std.specs.declared.alloc.Global.{Global};
ghost use Rattle.std_heap.specs.contracts.GlobalAllocator.TheImpl.{ghosts};
ghost use Rattle.embedded.specs.Held.{held, is_held};
ghost use Rattle.race.specs.contracts.seated.Seated.{the_row as seated};

use crate::loose::Loose;
use race::Seated;
use std::alloc::Global;
use std::marker::Model;
use std::mem;
use std::ptr::null_mut;

/// A seat that is held, or none.
#[repr(C)]
#[derive(Drop)]
pub struct HeldSeat {
    at: *mut u8,
    pub ghost value: { Option SeatedState },
    // the allocator that gave the block: there is but one
    ghost heap: { Global },
}

impl Model for HeldSeat {
    ghost also_owns = { λ h. held (ghosts.dealloc_token h.heap) seated h.at h.value };
}

impl HeldSeat {
    fn none(_alloc: Global) -> HeldSeat
        ensures { result.value ≡ None }
    {
        HeldSeat { at: null_mut() }
    }

    fn of(loose: Loose<Seated, Global>) -> HeldSeat
        ensures { result.value ≡ Some loose.value }
    {
        let Loose { ptr, alloc: _ } = loose;
        HeldSeat { at: ptr as *mut u8 }
    }

    fn into_loose(self, alloc: Global) -> Loose<Seated, Global>
        requires { is_held self.value ≡ true }
        ensures { self.value ≡ Some result.value }
    {
        let HeldSeat { at } = self;
        Loose {
            ptr: at as *mut Seated,
            alloc,
        }
    }
}

/// What the caller keeps, all zero at first.
#[repr(C)]
#[derive(Drop)]
pub struct SeatSlot {
    pub held: HeldSeat,
    is_open: bool,
    ghost agrees: { is_open ≡ is_held held.value },
}

impl SeatSlot {
    /// Nothing is held.
    pub fn closed(alloc: Global) -> SeatSlot
        ensures { result.held.value ≡ None }
    {
        SeatSlot {
            held: HeldSeat::none(alloc),
            is_open: false,
        }
    }

    /// Whether a seat is held.
    pub fn is_open(&self) -> bool
        ensures { MatchBool result (IsSome self.now.held.value) (self.now.held.value ≡ None) }
    {
        self.is_open
    }

    /// Takes out what is held.
    pub fn take(&mut self, alloc: Global) -> Option<Box<Seated>>
        ensures taken { MatchOption result (self.old.held.value ≡ None) (λ b. self.old.held.value ≡ Some b.value) }
        ensures none { self.new.held.value ≡ None }
    {
        let SeatSlot { held, is_open } = mem::replace(self, SeatSlot::closed(alloc));
        if is_open {
            Some(held.into_loose(alloc).into_box())
        } else {
            None
        }
    }

    /// Holds this in the place of nothing.
    pub fn put(&mut self, seat: Box<Seated>)
        requires { self.old.held.value ≡ None }
        ensures { self.new.held.value ≡ Some seat.value }
    {
        *self = SeatSlot {
            held: HeldSeat::of(Loose::of(seat)),
            is_open: true,
        };
    }
}
