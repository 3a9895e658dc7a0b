//! Answers that are handed over in order, each as soon as it and all before it are there.
ghost use Rattle.std.specs.Prelude.{◌≡◌, ◌+◌, ◌<◌, ◌≤◌, List, All, length, vec_capacity, vec_len};
ghost use Rattle.derivations.specs.Learning.{AllStand};
ghost use Rattle.registry.specs.Registry.{Packages};
ghost use Rattle.registry.specs.Requests.{Wanted};
ghost use Rattle.oracle.specs.declared.options.Options.{Options};
ghost use Rattle.pool.specs.Ahead.{AreFirst, AreInPlace};
ghost use Rattle.pool.specs.Answering.{IsAnswerAt};
ghost use Rattle.pool.specs.Taking.{IsTakerOf};

use crate::ahead::{Ahead, Own, search_all};
use crate::alone::{Pace, begin};
use crate::board::Board;
use crate::gate::{Gate, Idle};
use crate::jobs::{Jobs, Taker};
use crate::query::{Answered, Query};
use crate::work::{Finder, RequestWithOptions, SolveResult, Work};
use registry::Registry;
use solver::Workspace;
use std::alloc::Global;
use std::marker::{Brand, Model};
use std::sync::Wait;
use std::thread::{Threads, join_mut};
use store::Store;

/// Answers to requests, in order. Those behind the next one may still be searched for. Contracts see how many were
/// handed over.
#[derive(Drop)]
pub struct Answers<'a, G, Q: Query> {
    ahead: &'a Ahead<'a, G, Q>,
    /// None where the calling thread answers alone.
    own: Option<Own<'a>>,
    /// What the calling thread searches in.
    workspace: &'a mut Workspace,
    at: usize,
    held: Option<Answered<Q>>,
    /// Whether the calling thread has begun the next request.
    is_own: bool,
    /// Whether it has looked at that one, and left it open.
    is_looked_at: bool,
}

impl<'a, G, Q: Query> Model for Answers<'a, G, Q> {
    ghost use Rattle.std.specs.Prelude.{◌≡◌, ℕ, IfSome};

    ghost Value = { ℕ };

    ghost view = { λ a. a.at };

    ghost invariant = { λ a. IfSome a.held (λ answered. answered ≡ a.at) };
}

impl<'a, G: Gate, Q: Query> Answers<'a, G, Q> {
    /// None was handed over.
    fn new(
        ahead: &'a Ahead<'a, G, Q>,
        own: Option<Own<'a>>,
        workspace: &'a mut Workspace,
    ) -> Answers<'a, G, Q>
        ensures { result ≡ 0 }
    {
        Answers {
            ahead,
            own,
            workspace,
            at: 0,
            held: None,
            is_own: false,
            is_looked_at: false,
        }
    }

    /// Whether the next answer is there, or was found now since few conflicts stood in its way. Where it isn't,
    /// [`Answers::next`] may take long. The first one is not looked for here: no other is held back by its search.
    pub fn is_ready<R: Wait>(&mut self, rt: &R) -> bool
        requires { self.old < length Q.asked }
        ensures { self.new ≡ self.old }
    {
        self.look(rt);
        if self.at > 0 && self.is_own && !self.is_looked_at {
            self.is_looked_at = true;
            self.held = self.ahead.try_find(self.at, self.workspace);
            if self.held.is_some() {
                self.leave(rt);
            }
        }
        self.held.is_some()
    }

    /// The next answer, once it and all before it are there.
    pub fn next<R: Wait>(&mut self, rt: &R) -> SolveResult
        requires { self.old < length Q.asked }
        ensures answer { IsAnswerAt Q.packages Q.asked self.old result }
        ensures one { self.new ≡ self.old + 1 }
    {
        let found = self.take_next(rt);
        // The next place is no more than their number, and so fits.
        let _count = self.ahead.count();
        self.held = None;
        self.is_looked_at = false;
        self.at += 1;
        found.into_answer()
    }

    /// What was found of the next request, once it was.
    fn take_next<R: Wait>(&mut self, rt: &R) -> Answered<Q>
        requires { self.old < length Q.asked }
        ensures found { result ≡ self.old }
        ensures same { self.new ≡ self.old }
    {
        self.look(rt);
        if let Some(found) = self.held.take() {
            return found;
        }
        if !self.is_own {
            if let Some(found) = self.ahead.wait_for(rt, self.at) {
                return found;
            }
        }
        let found = self
            .ahead
            .find_here(self.at, self.is_looked_at, self.workspace);
        self.leave(rt);
        found
    }

    /// Holds the next answer if it was found. If it wasn't and no other thread searches, the calling one begins.
    fn look<R: Wait>(&mut self, rt: &R)
        ensures { self.new ≡ self.old }
    {
        if self.held.is_some() || self.is_own {
            return;
        }
        self.held = self.ahead.take(rt, self.at);
        self.is_own = self.held.is_none() && self.begin(rt);
    }

    /// Begins the next request, if no other thread searches.
    fn begin<R: Wait>(&mut self, rt: &R) -> bool
        ensures { self.new ≡ self.old }
    {
        match &mut self.own {
            Some(own) => self.ahead.begin_at(rt, self.at, own),
            None => true,
        }
    }

    /// Ends a search of the calling thread.
    fn leave<R: Wait>(&mut self, rt: &R)
        ensures { self.new ≡ self.old }
    {
        if self.is_own {
            self.is_own = false;
            self.ahead.leave(rt);
        }
    }

    /// From now on no other request is begun.
    fn end<R: Wait>(&mut self, rt: &R) {
        self.leave(rt);
        if let Some(own) = &mut self.own {
            own.take_rest(rt);
        }
    }
}

/// Who takes the answers to the requests of a call, in the thread that called.
pub trait Consumer {
    ghost use Rattle.std.specs.Prelude.{List};
    ghost use Rattle.registry.specs.Registry.{Packages};
    ghost use Rattle.registry.specs.Requests.{Wanted};
    ghost use Rattle.oracle.specs.declared.options.Options.{Options};

    /// What it tells at the end.
    type Output;

    /// It may take the answers to these requests of these packages.
    ghost can_consume: { Self → Packages → List (Wanted × Options) → Type 0 };

    /// What it has done with such answers.
    ghost consumes: { Self → Packages → List (Wanted × Options) → Self.Output → Self → Type 0 };

    /// Takes answers until it has them all or wants no more.
    fn consume<G: Gate, Q: Query, R: Wait>(
        &mut self,
        rt: &R,
        answers: &mut Answers<'_, G, Q>,
    ) -> Self::Output
        requires can { can_consume self.old Q.packages Q.asked }
        requires none { answers.old ≡ 0 }
        ensures { consumes self.old Q.packages Q.asked result self.new };
}

/// Hands the answers to requests over in order, each as soon as it and all before it are there, while at most so many
/// threads search for those behind it. The calling thread takes them, and is one of these threads where it searches
/// itself: that for the first requests, until as much was done as starting a thread takes, and for the next one as long
/// as no other thread searches, since none has begun yet, none could be started or there was no room to keep an answer.
///
/// The calling thread searches in this workspace. Where `is_looked_at`, [`try_answer`] left the first request open, and
/// what that found out isn't looked for again.
///
/// When the consumer ends, no other request is begun, and those that are searched for are waited for.
pub fn answer_in_order<R: Threads + Wait + Sync, C: Consumer>(
    rt: &R,
    alloc: Global,
    registry: &Registry,
    store: &Store,
    requests: &[RequestWithOptions],
    is_looked_at: bool,
    workers: usize,
    workspace: &mut Workspace,
    consumer: &mut C,
) -> C::Output
    requires stored { All (AllStand registry.now.packages) store.now.members }
    requires can { C.can_consume consumer.old registry.now.packages requests.now }
    ensures { C.consumes consumer.old registry.now.packages requests.now result consumer.new }
{
    let work = Work {
        alloc,
        registry,
        store,
        asked: requests,
        looked_at: is_looked_at.then_some(0),
        gate: &Idle,
    };
    start::<Brand, Idle, R, C>(rt, work, workers, false, workspace, consumer)
}

/// Hands the answers over. Threads are started for all requests at once, or for those behind the first ones and where
/// they are worth it.
pub(crate) fn start<Q: Query + Send + Sync, G: Gate + Sync, R: Threads + Wait + Sync, C: Consumer>(
    rt: &R,
    work: Work<'_, G>,
    workers: usize,
    at_once: bool,
    workspace: &mut Workspace,
    consumer: &mut C,
) -> C::Output
    requires packages { work.registry.now.packages ≡ Q.packages }
    requires asked { work.asked.now ≡ Q.asked }
    requires stored { All (AllStand work.registry.now.packages) work.store.now.members }
    requires can { C.can_consume consumer.old Q.packages Q.asked }
    ensures { C.consumes consumer.old Q.packages Q.asked result consumer.new }
{
    let mut finder: Finder<'_, G, Q> = Finder::new(work);
    let alloc = finder.alloc();
    let Ok(mut slots) = Vec::with_capacity(alloc, finder.count()) else {
        let slots = Vec::new(alloc);
        return consume_alone(rt, finder, slots, workspace, consumer);
    };
    let pace = if at_once {
        Pace {
            threads: workers,
            share: 1,
        }
    } else {
        begin(&mut finder, workers, &mut slots, workspace)
    };
    share_out(rt, finder, slots, pace, workspace, consumer)
}

/// Has the consumer take the answers while threads search, where at least two are worth it and there is room for what
/// they need.
#[tactic(auto, using(crate::proofs::Takers::are_takers))]
fn share_out<Q: Query + Send + Sync, G: Gate + Sync, R: Threads + Wait + Sync, C: Consumer>(
    rt: &R,
    finder: Finder<'_, G, Q>,
    mut slots: Vec<Option<Answered<Q>>>,
    pace: Pace,
    workspace: &mut Workspace,
    consumer: &mut C,
) -> C::Output
    requires first { AreFirst (length Q.asked) slots }
    requires can { C.can_consume consumer.old Q.packages Q.asked }
    ensures { C.consumes consumer.old Q.packages Q.asked result consumer.new }
{
    let first = slots.len();
    let others = finder.count() - first;
    let threads = pace.threads.min(others);
    if threads < 2 {
        return consume_alone(rt, finder, slots, workspace, consumer);
    }
    // A taker more is the calling thread's.
    let made = Jobs::new(
        rt,
        finder.alloc(),
        finder.count(),
        threads.saturating_add(1),
    );
    let Ok((jobs, takers)) = made else {
        return consume_alone(rt, finder, slots, workspace, consumer);
    };
    put_none(&mut slots, others);
    let board = Board::new(slots, threads);
    let ahead = Ahead::new(finder, pace.share, board);
    consume_beside(rt, &ahead, first, &jobs, takers, workspace, consumer)
}

/// Makes so many more slots, with nothing in them.
fn put_none<Q: Query>(slots: &mut Vec<Option<Answered<Q>>>, count: usize)
    requires places { AreInPlace slots.old.items }
    requires room { vec_len slots.old + count ≤ vec_capacity slots.old }
    ensures { AreInPlace slots.new.items }
{
    for _i in 0..count {
        slots.push_reserved(None);
    }
}

/// Has the consumer take the answers, of which the calling thread finds those that were not found.
fn consume_alone<G: Gate, Q: Query, R: Wait, C: Consumer>(
    rt: &R,
    finder: Finder<'_, G, Q>,
    slots: Vec<Option<Answered<Q>>>,
    workspace: &mut Workspace,
    consumer: &mut C,
) -> C::Output
    requires places { AreInPlace slots.items }
    requires can { C.can_consume consumer.old Q.packages Q.asked }
    ensures { C.consumes consumer.old Q.packages Q.asked result consumer.new }
{
    let board = Board::new(slots, 1);
    let ahead = Ahead::new(finder, 1, board);
    consume_all(rt, &ahead, None, workspace, consumer)
}

/// Has the consumer take the answers, while the others take requests and search. The calling thread has answered the
/// first ones.
#[tactic(auto, using(crate::proofs::Takers::all_but_last))]
fn consume_beside<
    'a,
    Q: Query + Send + Sync,
    G: Gate + Sync,
    R: Threads + Wait + Sync,
    C: Consumer,
>(
    rt: &R,
    ahead: &'a Ahead<'a, G, Q>,
    first: usize,
    jobs: &'a Jobs,
    mut takers: Vec<Taker>,
    workspace: &mut Workspace,
    consumer: &mut C,
) -> C::Output
    requires jobs { jobs.now.count ≡ length Q.asked }
    requires takers { All (IsTakerOf jobs.now) takers.items }
    requires can { C.can_consume consumer.old Q.packages Q.asked }
    ensures { C.consumes consumer.old Q.packages Q.asked result consumer.new }
{
    let Some(taker) = takers.pop() else {
        return consume_all(rt, ahead, None, workspace, consumer);
    };
    let mut own = Own::new(jobs, taker);
    own.take_first(rt, first);
    let mut own = Some(own);
    let others = &mut takers;
    join_mut(
        rt,
        &mut ||
            requires { (jobs.now.count ≡ length Q.asked) × All (IsTakerOf jobs.now) others.now.items }
        { search_all(rt, ahead, jobs, others) },
        &mut || consume_by(rt, ahead, &mut own, workspace, consumer),
    )
    .1
}

/// Has the consumer take the answers, as the calling thread's taker, which is there, may too.
fn consume_by<'a, G: Gate, Q: Query, R: Wait, C: Consumer>(
    rt: &R,
    ahead: &'a Ahead<'a, G, Q>,
    own: &mut Option<Own<'a>>,
    workspace: &mut Workspace,
    consumer: &mut C,
) -> C::Output
    requires { C.can_consume consumer.old Q.packages Q.asked }
    ensures { C.consumes consumer.old Q.packages Q.asked result consumer.new }
{
    let own = own.take();
    consume_all(rt, ahead, own, workspace, consumer)
}

/// Has the consumer take the answers. Then no other request is begun.
fn consume_all<'a, G: Gate, Q: Query, R: Wait, C: Consumer>(
    rt: &R,
    ahead: &'a Ahead<'a, G, Q>,
    own: Option<Own<'a>>,
    workspace: &'a mut Workspace,
    consumer: &mut C,
) -> C::Output
    requires { C.can_consume consumer.old Q.packages Q.asked }
    ensures { C.consumes consumer.old Q.packages Q.asked result consumer.new }
{
    let mut answers = Answers::new(ahead, own, workspace);
    let output = consumer.consume(rt, &mut answers);
    answers.end(rt);
    output
}
