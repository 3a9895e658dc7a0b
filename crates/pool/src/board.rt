//! What was found of the requests that threads search for ahead, and who searches.
ghost use Rattle.std.specs.Prelude.{◌≡◌, ◌<◌, IfSome, length};
ghost use Rattle.pool.specs.Ahead.{AreInPlace};

use crate::query::{Answered, Query};
use std::marker::Model;

/// A slot for each request that may be searched for ahead, and a seat for each thread that may search at a time.
#[derive(Drop)]
pub(crate) struct Board<Q: Query> {
    slots: Vec<Option<Answered<Q>>>,
    seats: usize,
    taken: usize,
    awaited: Option<usize>,
}

impl<Q: Query> Model for Board<Q> {
    ghost use Rattle.std.specs.Prelude.{ℕ, List, Option};
    ghost use Rattle.pool.specs.Ahead.{AreInPlace};

    ghost Value = { List (Option ℕ) };

    ghost view = { λ b. b.slots.items };

    ghost invariant = { λ b. AreInPlace b.slots.items };
}

impl<Q: Query> Board<Q> {
    /// Nobody searches.
    pub(crate) fn new(slots: Vec<Option<Answered<Q>>>, seats: usize) -> Board<Q>
        requires { AreInPlace slots.items }
    {
        Board {
            slots,
            seats,
            taken: 0,
            awaited: None,
        }
    }

    /// Whether no other thread may search now.
    pub(crate) fn is_full(&self) -> bool {
        self.taken >= self.seats
    }

    /// Whether no thread searches.
    pub(crate) fn is_empty(&self) -> bool {
        self.taken == 0
    }

    /// Takes a seat.
    pub(crate) fn sit(&mut self) {
        self.taken = self.taken.saturating_add(1);
    }

    /// Gives a seat back.
    pub(crate) fn leave(&mut self) {
        self.taken = self.taken.saturating_sub(1);
    }

    /// Puts what was found into its slot.
    pub(crate) fn put(&mut self, found: Answered<Q>) {
        let index = found.index();
        if index < self.slots.len() {
            self.slots[index] = Some(found);
        }
    }

    /// What was found of the request at an index. Its slot is then empty.
    pub(crate) fn take(&mut self, at: usize) -> Option<Answered<Q>>
        ensures { IfSome result (λ answered. answered ≡ at) }
    {
        if at < self.slots.len() {
            self.slots[at].take()
        } else {
            None
        }
    }

    /// Whether something was found of the request at an index.
    pub(crate) fn has(&self, at: usize) -> bool {
        at < self.slots.len() && self.slots[at].is_some()
    }

    /// Notes for which answer the calling thread waits.
    pub(crate) fn awaits(&mut self, at: usize) {
        self.awaited = Some(at);
    }

    /// Whether the calling thread is to be woken, which it is once: the answer is there for which it waits.
    pub(crate) fn is_to_wake(&mut self) -> bool {
        let Some(at) = self.awaited else {
            return false;
        };
        let is_there = self.has(at);
        if is_there {
            self.awaited = None;
        }
        is_there
    }
}
