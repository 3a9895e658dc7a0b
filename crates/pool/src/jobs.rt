//! The indexes of jobs, which takers share.
ghost use Rattle.std.specs.Prelude.{◌≡◌, ◌+◌, ◌-◌, ◌<◌, ◌≤◌, ◌++◌, [], ◌∷◌, true, false, IfOk, IfSome, IfNone, replicate, vec_capacity};
ghost use Rattle.crossbeam_queue.specs.Passes.{view, IsPassOf, ruled_capacity};
ghost use Rattle.pool.specs.Hands.{hand};
ghost use Rattle.pool.specs.Taking.{fresh, fresh_of, IsTakerOf, AreTheTakersOf, WereShared};

use crate::rule::{Deals, Ends, Gathers, Hand, Puts, Queue, Takes};
use crossbeam_queue::Pass;
use std::alloc::{AllocError, Global};
use std::marker::Model;
use std::sync::Wait;

/// The indexes below a count, which takers take, each once.
#[derive(Drop)]
pub struct Jobs {
    queue: Queue,
    count: usize,
    takers: usize,
}

impl Model for Jobs {
    ghost use Rattle.std.specs.Prelude.{◌<◌};
    ghost use Rattle.pool.specs.Taking.{Dealt};

    ghost Value = { Dealt };

    ghost view = { λ j. record { queue = j.queue.table.shared.table_id; count = j.count; takers = j.takers } };

    ghost invariant = { λ j. 0 < j.takers };
}

/// Who takes indexes. What it took is known to contracts alone.
#[derive(Drop)]
pub struct Taker {
    pass: Pass<Option<usize>, Hand>,
    is_done: bool,
}

impl Model for Taker {
    ghost use Rattle.std.specs.Prelude.{◌≡◌, []};
    ghost use Rattle.pool.specs.Hands.{known};
    ghost use Rattle.pool.specs.Taking.{IsTaking, Took};

    ghost Value = { Took };

    ghost view = { λ t. record { jobs = record { queue = t.pass.table_id; count = (known t.pass).count; takers = (known t.pass).all_parts }; taken = (known t.pass).taken; told = t.is_done } };

    ghost invariant = { λ t. (t.pass.me.1 ≡ []) × IsTaking t.is_done (known t.pass) };
}

impl Jobs {
    /// The indexes below `count`, all of them put, and so many takers.
    pub fn new(
        rt: &impl Wait,
        alloc: Global,
        count: usize,
        takers: usize,
    ) -> Result<(Jobs, Vec<Taker>), AllocError>
        requires { (0 < count) × (0 < takers) }
        ensures jobs { IfOk result (λ made. (made.0.count ≡ count) × (made.0.takers ≡ takers)) }
        ensures takers { IfOk result (λ made. made.1.items ≡ replicate takers (fresh made.0)) }
    {
        let Some(capacity) = count.checked_add(takers) else {
            return Err(AllocError);
        };
        let mut all = Vec::with_capacity(alloc, takers)?;
        let (queue, mut pass) = Queue::ruled(alloc, capacity)?;
        put_indexes(rt, &queue, &mut pass, count);
        put_stops(rt, &queue, &mut pass, takers);
        deal(&queue, pass, takers, &mut all);
        let jobs = Jobs {
            queue,
            count,
            takers,
        };
        Ok((jobs, all))
    }

    /// The next index, or none where none is left. It takes no memory.
    pub fn take(&self, rt: &impl Wait, taker: &mut Taker) -> Option<usize>
        requires { IsTakerOf self.now taker.old }
        ensures own { IsTakerOf self.now taker.new }
        ensures some { IfSome result (λ i. (i < self.now.count) × (taker.new ≡ record taker.old { taken = taker.old.taken ++ i ∷ [] })) }
        ensures none { IfNone result (taker.new ≡ record taker.old { told = true }) }
    {
        if taker.is_done {
            return None;
        }
        // The queue holds this taker's stop at least.
        let Some(item) = self.queue.pop_as::<Takes, _>(rt, &mut taker.pass) else {
            unreachable!()
        };
        taker.is_done = item.is_none();
        item
    }

    /// What these takers took, who are all that there were: each index once, or it is left; and none
    /// is left where one of them was answered none. It does nothing else when it runs, and takes no
    /// memory.
    pub fn ended(self, takers: Vec<Taker>)
        requires { AreTheTakersOf self takers.items }
        ensures { WereShared self.count takers.items }
    {
        let Jobs {
            queue,
            count: _,
            takers: _,
        } = self;
        let mut others = takers;
        let Some(last) = others.pop() else {
            unreachable!()
        };
        let Taker {
            pass: mut whole,
            is_done: _,
        } = last;
        for taker in others {
            let Taker { pass, is_done: _ } = taker;
            queue.absorb::<Gathers>(&mut whole, pass);
        }
        queue.learn_as::<Ends>(&mut whole);
    }
}

/// Puts the indexes below a count, in order.
fn put_indexes(rt: &impl Wait, queue: &Queue, pass: &mut Pass<Option<usize>, Hand>, count: usize)
    requires room { count ≤ ruled_capacity queue.now }
    requires pass { IsPassOf queue.now pass.old × (view pass.old ≡ hand 1 1 0 false 0 []) }
    ensures { IsPassOf queue.now pass.new × (view pass.new ≡ hand 1 1 0 false count []) }
{
    for i in 0..count {
        let Ok(()) = queue.push_as::<Puts, _>(rt, pass, Some(i)) else {
            unreachable!()
        };
    }
}

/// Puts so many stops. From the first one on the pass has as many parts as stops.
fn put_stops(rt: &impl Wait, queue: &Queue, pass: &mut Pass<Option<usize>, Hand>, takers: usize)
    requires some { 0 < takers }
    requires room { (view pass.old).count + takers ≤ ruled_capacity queue.now }
    requires pass { IsPassOf queue.now pass.old × (view pass.old ≡ hand 1 1 0 false (view pass.old).count []) }
    ensures { IsPassOf queue.now pass.new × (view pass.new ≡ hand takers takers takers false (view pass.old).count []) }
{
    for _i in 0..takers {
        let Ok(()) = queue.push_as::<Puts, _>(rt, pass, None) else {
            unreachable!()
        };
    }
}

/// Makes so many takers, each with a part and a stop.
fn deal(queue: &Queue, mut pass: Pass<Option<usize>, Hand>, takers: usize, all: &mut Vec<Taker>)
    requires some { 0 < takers }
    requires pass { IsPassOf queue.now pass × (view pass ≡ hand takers takers takers false (view pass).count []) }
    requires room { (all.old.items ≡ []) × (takers ≤ vec_capacity all.old) }
    ensures { all.new.items ≡ replicate takers (fresh_of pass.table_id (view pass).count takers) }
{
    for _i in 0..takers - 1 {
        let one = queue.another::<Deals>(&mut pass);
        all.push_reserved(Taker {
            pass: one,
            is_done: false,
        });
    }
    all.push_reserved(Taker {
        pass,
        is_done: false,
    });
}
