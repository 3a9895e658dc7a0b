//! Threads that search for requests ahead of the one that is to be answered next.
ghost use Rattle.std.specs.Prelude.{◌≡◌, ◌<◌, All, IfSome, length};
ghost use Rattle.pool.specs.Taking.{IsTakerOf};

use crate::board::Board;
use crate::gate::Gate;
use crate::jobs::{Jobs, Taker};
use crate::query::{Answered, Query};
use crate::work::Finder;
use solver::Workspace;
use std::sync::{Condvar, Mutex, Wait};
use std::thread;
use std::thread::Threads;

/// What the threads share: who finds answers, and what was found.
#[derive(Drop)]
pub(crate) struct Ahead<'a, G, Q: Query> {
    finder: Finder<'a, G, Q>,
    /// After how many answers a thread wakes the calling one.
    share: usize,
    board: Mutex<Board<Q>>,
    /// The calling thread waits here for an answer.
    there: Condvar,
    /// Threads wait here for a seat.
    freed: Condvar,
}

impl<'a, G: Gate, Q: Query> Ahead<'a, G, Q> {
    /// No thread searches yet. Each wakes the calling one after a share of answers.
    pub(crate) fn new(finder: Finder<'a, G, Q>, share: usize, board: Board<Q>) -> Ahead<'a, G, Q> {
        Ahead {
            finder,
            share,
            board: Mutex::new(board),
            there: Condvar::new(),
            freed: Condvar::new(),
        }
    }

    /// How many requests there are.
    pub(crate) fn count(&self) -> usize
        ensures { result ≡ length Q.asked }
    {
        self.finder.count()
    }

    /// Waits for a seat. Then takes requests and searches for them, until none is left.
    fn search<R: Wait>(&self, rt: &R, jobs: &Jobs, taker: &mut Taker)
        requires jobs { jobs.now.count ≡ length Q.asked }
        requires own { IsTakerOf jobs.now taker.old }
    {
        self.sit(rt);
        let mut workspace = Workspace::new(self.finder.alloc());
        for _ in rt.forever() {
            if !self.search_some(rt, jobs, taker, &mut workspace) {
                return self.leave(rt);
            }
            self.wake(rt);
        }
    }

    /// Takes a seat, once there is one.
    fn sit<R: Wait>(&self, rt: &R) {
        let board = self.board.lock(rt);
        let mut board = self.freed.wait_while(rt, board, |board| board.is_full());
        board.sit();
    }

    /// Takes a share of the requests and searches for them. Answers whether any may be left.
    fn search_some<R: Wait>(
        &self,
        rt: &R,
        jobs: &Jobs,
        taker: &mut Taker,
        workspace: &mut Workspace,
    ) -> bool
        requires jobs { jobs.now.count ≡ length Q.asked }
        requires own { IsTakerOf jobs.now taker.old }
        ensures { IsTakerOf jobs.now taker.new }
    {
        for _i in 0..self.share {
            let Some(index) = jobs.take(rt, taker) else {
                return false;
            };
            let found = self.find(rt, index, workspace);
            self.board.lock(rt).put(found);
        }
        true
    }

    /// What is found of the request at an index. Where that takes longer, the calling thread is woken before, if what
    /// it waits for is there.
    fn find<R: Wait>(&self, rt: &R, index: usize, workspace: &mut Workspace) -> Answered<Q>
        requires { index < length Q.asked }
        ensures { result ≡ index }
    {
        let is_looked_at = self.share > 1;
        if is_looked_at {
            if let Some(found) = self.try_find(index, workspace) {
                return found;
            }
            self.wake(rt);
        }
        self.find_here(index, is_looked_at, workspace)
    }

    /// Wakes the calling thread, if what it waits for is there.
    fn wake<R: Wait>(&self, rt: &R) {
        if self.board.lock(rt).is_to_wake() {
            self.there.notify_one();
        }
    }

    /// The answer to the request at an index, if few conflicts stand in its way.
    pub(crate) fn try_find(&self, index: usize, workspace: &mut Workspace) -> Option<Answered<Q>>
        requires { index < length Q.asked }
        ensures { IfSome result (λ answered. answered ≡ index) }
    {
        self.finder.try_find(index, workspace)
    }

    /// The answer to the request at an index. Where `is_looked_at`, [`Ahead::try_find`] left it open.
    pub(crate) fn find_here(
        &self,
        index: usize,
        is_looked_at: bool,
        workspace: &mut Workspace,
    ) -> Answered<Q>
        requires { index < length Q.asked }
        ensures { result ≡ index }
    {
        self.finder.find(index, is_looked_at, workspace)
    }

    /// The answer to the request at an index, if it was found and not taken yet.
    pub(crate) fn take<R: Wait>(&self, rt: &R, index: usize) -> Option<Answered<Q>>
        ensures { IfSome result (λ answered. answered ≡ index) }
    {
        self.board.lock(rt).take(index)
    }

    /// Takes a seat, and the next request out of the queue, for the calling thread. It does so only while no other
    /// thread searches: the next request is then the one that it comes to, at this index, and else another thread has
    /// taken that one or is about to. Answers whether it did.
    pub(crate) fn begin_at<R: Wait>(&self, rt: &R, index: usize, own: &mut Own<'_>) -> bool {
        let mut board = self.board.lock(rt);
        let begins = board.is_empty() && !board.has(index);
        if begins {
            board.sit();
            own.take(rt);
        }
        begins
    }

    /// The answer to the request at an index, once a thread has found it.
    pub(crate) fn wait_for<R: Wait>(&self, rt: &R, index: usize) -> Option<Answered<Q>>
        ensures { IfSome result (λ answered. answered ≡ index) }
    {
        let mut board = self.board.lock(rt);
        board.awaits(index);
        let mut board = self.there.wait_while(rt, board, |board| !board.has(index));
        board.take(index)
    }

    /// Gives a seat back, and wakes the calling thread, if what it waits for is there.
    pub(crate) fn leave<R: Wait>(&self, rt: &R) {
        let mut board = self.board.lock(rt);
        board.leave();
        if board.is_to_wake() {
            self.there.notify_one();
        }
        self.freed.notify_one();
    }
}

/// The calling thread's taker, at the queue of requests.
#[derive(Drop)]
pub(crate) struct Own<'a> {
    jobs: &'a Jobs,
    taker: Taker,
    ghost own: { IsTakerOf jobs.now taker },
}

impl<'a> Own<'a> {
    /// A taker of this queue.
    pub(crate) fn new(jobs: &'a Jobs, taker: Taker) -> Own<'a>
        requires { IsTakerOf jobs.now taker }
    {
        Own { jobs, taker }
    }

    /// Takes the next request, which the calling thread answers. Answers whether there was one.
    pub(crate) fn take<R: Wait>(&mut self, rt: &R) -> bool {
        self.jobs.take(rt, &mut self.taker).is_some()
    }

    /// Takes so many requests.
    pub(crate) fn take_first<R: Wait>(&mut self, rt: &R, count: usize) {
        for _i in 0..count {
            self.take(rt);
        }
    }

    /// Takes all that are left, so that no other thread begins one.
    pub(crate) fn take_rest<R: Wait>(&mut self, rt: &R) {
        for _ in rt.forever() {
            if !self.take(rt) {
                return;
            }
        }
    }
}

/// Sets each taker to the queue, in a thread of its own where one can be started.
pub(crate) fn search_all<Q: Query + Send + Sync, G: Gate + Sync, R: Threads + Wait + Sync>(
    rt: &R,
    ahead: &Ahead<'_, G, Q>,
    jobs: &Jobs,
    takers: &mut Vec<Taker>,
)
    requires jobs { jobs.now.count ≡ length Q.asked }
    requires takers { All (IsTakerOf jobs.now) takers.old.items }
{
    search_by(rt, ahead, jobs, takers.as_mut_slice());
}

/// As [`search_all`], over the slice of the takers.
fn search_by<Q: Query + Send + Sync, G: Gate + Sync, R: Threads + Wait + Sync>(
    rt: &R,
    ahead: &Ahead<'_, G, Q>,
    jobs: &Jobs,
    takers: &mut [Taker],
)
    requires jobs { jobs.now.count ≡ length Q.asked }
    requires takers { All (IsTakerOf jobs.now) takers.old }
{
    let threads = takers.len().max(1);
    thread::for_each_mut(
        rt,
        takers,
        threads,
        &|_, taker: &mut Taker|
            requires { (jobs.now.count ≡ length Q.asked) × IsTakerOf jobs.now taker.old }
        { ahead.search(rt, jobs, taker) },
    );
}
