//! Requests that are answered by several threads, all of them before any answer is used.
ghost use Rattle.std.specs.Prelude.{All, IfOk};
ghost use Rattle.derivations.specs.Learning.{AllStand};
ghost use Rattle.pool.specs.Answering.{AreAnswers};

use crate::gate::Gate;
use crate::in_order::{Answers, Consumer, answer_in_order, start};
use crate::query::Query;
use crate::work::{RequestWithOptions, SolveResult, Work};
use registry::Registry;
use solver::Workspace;
use std::alloc::{AllocError, Global};
use std::marker::Brand;
use std::sync::Wait;
use std::thread::Threads;
use store::Store;

/// Who keeps the answers to so many requests.
#[derive(Drop)]
struct Keeping {
    answers: Vec<SolveResult>,
    count: usize,
}

impl Consumer for Keeping {
    ghost use Rattle.std.specs.Prelude.{◌≡◌, ◌≤◌, [], length, vec_capacity};
    ghost use Rattle.pool.specs.Answering.{AreAnswers};

    type Output = ();

    ghost can_consume = { λ k packages asked. (k.answers.items ≡ []) × (length asked ≤ vec_capacity k.answers) × (k.count ≡ length asked) };

    ghost consumes = { λ k packages asked result then. AreAnswers packages asked then.answers.items };

    fn consume<G: Gate, Q: Query, R: Wait>(&mut self, rt: &R, answers: &mut Answers<'_, G, Q>) {
        for _at in 0..self.count {
            self.answers.push_reserved(answers.next(rt));
        }
    }
}

/// Answers each request at its place, as [`answer_in_order`] does.
///
/// An answer is [`Refusal::NoMemory`] where no memory was left for it, and may be [`Refusal::BudgetSpent`] under
/// a budget. All of them are refused only where there is no room to keep them, and then none was begun.
pub fn answer_all<R: Threads + Wait + Sync>(
    rt: &R,
    alloc: Global,
    registry: &Registry,
    store: &Store,
    requests: Vec<RequestWithOptions>,
    workers: usize,
) -> Result<Vec<SolveResult>, AllocError>
    requires { All (AllStand registry.now.packages) store.now.members }
    ensures { IfOk result (λ answers. AreAnswers registry.now.packages requests.items answers.items) }
{
    let mut all = Keeping {
        answers: Vec::with_capacity(alloc, requests.len())?,
        count: requests.len(),
    };
    let asked = requests.as_slice();
    let mut workspace = Workspace::new(alloc);
    answer_in_order(
        rt,
        alloc,
        registry,
        store,
        asked,
        false,
        workers,
        &mut workspace,
        &mut all,
    );
    let Keeping { answers, count: _ } = all;
    Ok(answers)
}

/// As [`answer_all`], with a gate before and behind each answer. What a gate waits for isn't known here, so
/// as many threads are started as are named, or one for each request where those are fewer.
pub fn answer_all_with<R: Threads + Wait + Sync, G: Gate + Sync>(
    rt: &R,
    alloc: Global,
    registry: &Registry,
    store: &Store,
    requests: Vec<RequestWithOptions>,
    workers: usize,
    gate: &G,
) -> Result<Vec<SolveResult>, AllocError>
    requires { All (AllStand registry.now.packages) store.now.members }
    ensures { IfOk result (λ answers. AreAnswers registry.now.packages requests.items answers.items) }
{
    let mut all = Keeping {
        answers: Vec::with_capacity(alloc, requests.len())?,
        count: requests.len(),
    };
    let work = Work {
        alloc,
        registry,
        store,
        asked: requests.as_slice(),
        looked_at: None,
        gate,
    };
    let mut workspace = Workspace::new(alloc);
    start::<Brand, G, R, Keeping>(rt, work, workers, true, &mut workspace, &mut all);
    let Keeping { answers, count: _ } = all;
    Ok(answers)
}
