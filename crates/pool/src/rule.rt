//! The rule of the queue of jobs, and what each step on it tells the thread that makes it.
//!
//! The queue holds indexes, and behind them a stop for each taker. A thread's pass knows what it took.

use crossbeam_queue::RuledArrayQueue;
use crossbeam_queue::protocol::{Join, Lesson, Outcome, Protocol, Split};
use std::collections::LinkedList;

/// What one pass knows. No value of it is made.
pub struct Hand {
    /// Its parts of the right to know the whole.
    pub parts: u64,
    /// How many parts there are: one for each taker.
    pub all_parts: u64,
    /// How many stops in the queue are meant for it.
    pub stops: u64,
    /// Whether it took a stop.
    pub told: bool,
    /// How many indexes were put.
    pub count: usize,
    /// The indexes that it took, in order.
    pub taken: LinkedList<usize>,
}

/// Each index that was put was taken once or is left.
pub(crate) struct Fair;

impl Protocol<Option<usize>, Hand> for Fair {
    ghost use Rattle.std.specs.Prelude.{false, []};
    ghost use Rattle.pool.specs.Hands.{hand};
    ghost use Rattle.pool.specs.Sharing.{IsShared};

    ghost holds = { IsShared };

    ghost first = { hand 1 1 0 false 0 [] };
}

/// One part and one stop are given away.
pub(crate) struct Deals;

impl Split<Hand> for Deals {
    ghost use Rattle.std.specs.Prelude.{◌-◌, false, []};
    ghost use Rattle.pool.specs.Hands.{hand};

    ghost left = { λ v. hand (v.parts - 1) v.all_parts (v.stops - 1) v.told v.count v.taken };

    ghost right = { λ v. hand 1 v.all_parts 1 false v.count [] };
}

/// What another took comes behind what this one took.
pub(crate) struct Gathers;

impl Join<Hand> for Gathers {
    ghost use Rattle.std.specs.Prelude.{◌+◌, ◌++◌, ◌||◌, false, []};
    ghost use Rattle.pool.specs.Hands.{hand};

    ghost both = { λ v w. hand (v.parts + w.parts) v.all_parts (v.stops + w.stops) (v.told || w.told) v.count (v.taken ++ w.taken) };

    ghost spent = { hand 0 0 0 false 0 [] };
}

/// The next index, or a stop, joins the queue.
pub(crate) struct Puts;

impl Outcome<Option<usize>, Hand> for Puts {
    ghost use Rattle.pool.specs.Sharing.{IsPut};

    ghost then = { IsPut };
}

impl Lesson<Option<usize>, Hand> for Puts {
    ghost use Rattle.pool.specs.Sharing.{IsHeld};

    ghost fact = { IsHeld };
}

/// An index, or a stop, leaves the queue.
pub(crate) struct Takes;

impl Outcome<Option<usize>, Hand> for Takes {
    ghost use Rattle.pool.specs.Sharing.{IsTaken};

    ghost then = { IsTaken };
}

impl Lesson<Option<usize>, Hand> for Takes {
    ghost use Rattle.pool.specs.Sharing.{IsWaitedFor};

    ghost fact = { IsWaitedFor };
}

/// Who has every part knows what was taken and what is left.
pub(crate) struct Ends;

impl Lesson<Option<usize>, Hand> for Ends {
    ghost use Rattle.pool.specs.Sharing.{IsAll};

    ghost fact = { IsAll };
}

/// Indexes, and a stop for each taker behind them.
pub(crate) type Queue = RuledArrayQueue<Option<usize>, Hand, Fair>;
