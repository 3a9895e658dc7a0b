//! A gate that answers two requests in a given order.

use pool::Gate;
use std::sync::atomic::{AtomicBool, Ordering};
use std::thread;

/// The request at `later` is begun once the one at `first` was answered. Who waits for that in vain, since nobody else
/// answers it, goes on after so many turns.
#[derive(Drop)]
pub struct InOrder {
    first: usize,
    later: usize,
    turns: u32,
    is_answered: AtomicBool,
    is_in_vain: AtomicBool,
}

impl InOrder {
    pub fn new(first: usize, later: usize, turns: u32) -> InOrder {
        InOrder {
            first,
            later,
            turns,
            is_answered: AtomicBool::new(false),
            is_in_vain: AtomicBool::new(false),
        }
    }

    /// Whether nobody waited in vain.
    pub fn is_kept(&self) -> bool {
        !self.is_in_vain.load(Ordering::SeqCst)
    }
}

impl Gate for InOrder {
    fn before(&self, i: usize) {
        if i != self.later {
            return;
        }
        for _ in 0..self.turns {
            if self.is_answered.load(Ordering::SeqCst) {
                return;
            }
            thread::yield_now();
        }
        self.is_in_vain.store(true, Ordering::SeqCst);
    }

    fn after(&self, i: usize) {
        if i == self.first {
            self.is_answered.store(true, Ordering::SeqCst);
        }
    }
}
