//! The handle: memory of the caller, in which a pointer lies.
ghost use Rattle.std.specs.Prelude.{◌≡◌, true, None, Some, IsSome, MatchBool, MatchOption, Option};
ghost use Rattle.session.specs.Fed.{FedSession};
ghost use Rattle.std.specs.declared.alloc.Global.{Global};
ghost use Rattle.std_heap.specs.contracts.GlobalAllocator.TheImpl.{ghosts};
ghost use Rattle.embedded.specs.Held.{held, is_held};
ghost use Rattle.session.specs.contracts.fed.Fed.{the_row as fed};

use crate::loose::Loose;
use session::Fed;
use std::alloc::Global;
use std::marker::Model;
use std::mem;
use std::ptr::null_mut;

/// A session that is held, or none.
#[repr(C)]
#[derive(Drop)]
pub struct Held {
    at: *mut u8,
    pub ghost value: { Option FedSession },
    // the allocator that gave the block: there is but one
    ghost heap: { Global },
}

impl Model for Held {
    ghost also_owns = { λ h. held (ghosts.dealloc_token h.heap) fed h.at h.value };
}

impl Held {
    fn none(_alloc: Global) -> Held
        ensures { result.value ≡ None }
    {
        Held { at: null_mut() }
    }

    fn of(loose: Loose<Fed, Global>) -> Held
        ensures { result.value ≡ Some loose.value }
    {
        let Loose { ptr, alloc: _ } = loose;
        Held { at: ptr as *mut u8 }
    }

    fn into_loose(self, alloc: Global) -> Loose<Fed, Global>
        requires { is_held self.value ≡ true }
        ensures { self.value ≡ Some result.value }
    {
        let Held { at } = self;
        Loose {
            ptr: at as *mut Fed,
            alloc,
        }
    }
}

/// What the caller keeps, all zero at first.
#[repr(C)]
#[derive(Drop)]
pub struct Slot {
    pub held: Held,
    is_open: bool,
    ghost agrees: { is_open ≡ is_held held.value },
}

impl Slot {
    /// Nothing is held.
    pub fn closed(alloc: Global) -> Slot
        ensures { result.held.value ≡ None }
    {
        Slot {
            held: Held::none(alloc),
            is_open: false,
        }
    }

    /// Whether a session is held.
    pub fn is_open(&self) -> bool
        ensures { MatchBool result (IsSome self.now.held.value) (self.now.held.value ≡ None) }
    {
        self.is_open
    }

    /// Takes out what is held.
    pub fn take(&mut self, alloc: Global) -> Option<Box<Fed>>
        ensures taken { MatchOption result (self.old.held.value ≡ None) (λ b. self.old.held.value ≡ Some b.value) }
        ensures none { self.new.held.value ≡ None }
    {
        let Slot { held, is_open } = mem::replace(self, Slot::closed(alloc));
        if is_open {
            Some(held.into_loose(alloc).into_box())
        } else {
            None
        }
    }

    /// Holds this in the place of nothing.
    pub fn put(&mut self, session: Box<Fed>)
        requires { self.old.held.value ≡ None }
        ensures { self.new.held.value ≡ Some session.value }
    {
        *self = Slot {
            held: Held::of(Loose::of(session)),
            is_open: true,
        };
    }
}
