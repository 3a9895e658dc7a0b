//! What is asked, and how one request is answered.
ghost use Rattle.std.specs.Prelude.{◌≡◌, ◌<◌, All, IfSome, length};
ghost use Rattle.derivations.specs.Learning.{AllStand};
ghost use Rattle.pool.specs.Answering.{IsAnswerTo};

use crate::alone::try_answer;
use crate::gate::Gate;
use crate::query::{Answered, Query};
use registry::{Registry, Request};
use solver::{Options, Outcome, Workspace, solve_in, solve_looked_at};
use std::alloc::Global;
use std::marker::{Model, PhantomData};
use store::Store;
use versions::Refusal;

/// A request, and how it is to be answered.
pub type RequestWithOptions = (Request, Options);

/// What a request is answered, or why it is left without an answer.
pub type SolveResult = Result<Outcome, Refusal>;

/// The requests of one call, and what they are answered from.
#[derive(Drop)]
pub(crate) struct Work<'a, G> {
    pub(crate) alloc: Global,
    pub(crate) registry: &'a Registry,
    pub(crate) store: &'a Store,
    pub(crate) asked: &'a [RequestWithOptions],
    /// The index of the request that [`try_answer`] left open before any thread was started.
    pub(crate) looked_at: Option<usize>,
    pub(crate) gate: &'a G,
}

/// Answers a request. Where `is_looked_at`, [`try_answer`] left it open; it has looked at none that names a budget.
pub(crate) fn answer(
    alloc: Global,
    registry: &Registry,
    store: &Store,
    asked: &RequestWithOptions,
    is_looked_at: bool,
    workspace: &mut Workspace,
) -> SolveResult
    requires { All (AllStand registry.now.packages) store.now.members }
    ensures { IsAnswerTo registry.now.packages asked.now result }
{
    if is_looked_at && asked.1.budget.is_none() {
        return solve_looked_at(alloc, registry, &asked.0, store, asked.1, workspace);
    }
    solve_in(alloc, registry, &asked.0, store, asked.1, workspace)
}

/// Who finds answers to the requests of a call. Threads share it.
#[derive(Drop)]
pub(crate) struct Finder<'a, G, Q: Query> {
    work: Work<'a, G>,
    query: PhantomData<Q>,
}

impl<'a, G, Q: Query> Model for Finder<'a, G, Q> {
    ghost use Rattle.std.specs.Prelude.{◌≡◌, ℕ, All, length};
    ghost use Rattle.derivations.specs.Learning.{AllStand};

    ghost Value = { ℕ };

    ghost view = { λ f. length f.work.asked.now };

    ghost invariant = { λ f. (f.work.registry.now.packages ≡ Q.packages) × (f.work.asked.now ≡ Q.asked)
        × All (AllStand f.work.registry.now.packages) f.work.store.now.members };
}

impl<'a, G, Q: Query> Finder<'a, G, Q> {
    /// Of the requests of a call, which are those of the query.
    pub(crate) fn new(work: Work<'a, G>) -> Finder<'a, G, Q>
        requires packages { work.registry.now.packages ≡ Q.packages }
        requires asked { work.asked.now ≡ Q.asked }
        requires stored { All (AllStand work.registry.now.packages) work.store.now.members }
    {
        Finder {
            work,
            query: PhantomData,
        }
    }

    /// Where what is found is allocated.
    pub(crate) fn alloc(&self) -> Global {
        self.work.alloc
    }

    /// How many requests there are.
    pub(crate) fn count(&self) -> usize
        ensures { result ≡ length Q.asked }
    {
        self.work.asked.len()
    }

    /// Notes that [`Finder::try_find`] left the request at an index open.
    pub(crate) fn note_looked_at(&mut self, index: usize) {
        self.work.looked_at = Some(index);
    }

    /// Whether that is noted of the request at an index.
    fn has_looked_at(&self, index: usize) -> bool {
        self.work.looked_at == Some(index)
    }

    /// The answer to the request at an index, if few conflicts stand in its way. No gate is asked.
    pub(crate) fn try_find(&self, index: usize, workspace: &mut Workspace) -> Option<Answered<Q>>
        requires { index < length Q.asked }
        ensures { IfSome result (λ answered. answered ≡ index) }
    {
        if self.has_looked_at(index) {
            return None;
        }
        match try_answer(
            self.work.alloc,
            self.work.registry,
            self.work.store,
            &self.work.asked[index],
            workspace,
        ) {
            Some(answer) => Some(Answered::new(index, answer)),
            None => None,
        }
    }
}

impl<'a, G: Gate, Q: Query> Finder<'a, G, Q> {
    /// The answer to the request at an index. Where `is_looked_at`, [`Finder::try_find`] left it open.
    pub(crate) fn find(
        &self,
        index: usize,
        is_looked_at: bool,
        workspace: &mut Workspace,
    ) -> Answered<Q>
        requires { index < length Q.asked }
        ensures { result ≡ index }
    {
        self.work.gate.before(index);
        let answer = answer(
            self.work.alloc,
            self.work.registry,
            self.work.store,
            &self.work.asked[index],
            is_looked_at || self.has_looked_at(index),
            workspace,
        );
        self.work.gate.after(index);
        Answered::new(index, answer)
    }
}
