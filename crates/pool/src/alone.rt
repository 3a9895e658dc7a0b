//! What the calling thread answers alone, and how many threads the other requests are worth.
ghost use Rattle.std.specs.Prelude.{All, IfSome, length};
ghost use Rattle.derivations.specs.Learning.{AllStand};
ghost use Rattle.pool.specs.Ahead.{AreFirst};
ghost use Rattle.pool.specs.Answering.{IsAnswerTo};

use crate::query::{Answered, Query};
use crate::work::{Finder, RequestWithOptions, SolveResult, answer};
use registry::Registry;
use solver::{Outcome, Workspace, solve_at_first};
use std::alloc::Global;
use store::Store;
use versions::Refusal;

/// The effort in which a thread is started, in the packages and lines that answers have. Starting one takes some 10 µs.
pub const THREAD: usize = 64;

/// How much there was to do for a refusal that is not shown and led to nothing that may be learnt: as much as
/// for one by a few lines.
/// Measured at half and at twice this value: docs/BENCHMARKS.md, Constants.
const REFUSED: usize = 4;

/// With how many conflicts a request is still answered before any thread is started.
/// Measured at half and at twice this value: docs/BENCHMARKS.md, Constants.
const CONFLICTS_WITHOUT_THREADS: u32 = 8;

/// The most effort after which a thread wakes the calling one, in the packages and lines that answers have, where each
/// request takes little.
/// Measured at half and at twice this value: docs/BENCHMARKS.md, Constants.
const SHARE: usize = 128;

/// By how many threads requests are to be answered, and after how many of them each is to wake the calling one.
#[derive(Clone, Copy)]
pub(crate) struct Pace {
    pub(crate) threads: usize,
    pub(crate) share: usize,
}

/// Answers the first requests, until as much was done as starting a thread takes or one of them asks for a
/// longer search, and says how many threads the others are worth: one for each such effort that they will
/// take, if they are like the first. No gate is asked.
pub(crate) fn begin<G, Q: Query>(
    finder: &mut Finder<'_, G, Q>,
    workers: usize,
    slots: &mut Vec<Option<Answered<Q>>>,
    workspace: &mut Workspace,
) -> Pace
    requires { AreFirst (length Q.asked) slots.old }
    ensures { AreFirst (length Q.asked) slots.new }
{
    if workers < 2 {
        return Pace {
            threads: 1,
            share: 1,
        };
    }
    let effort = answer_first(finder, slots, workspace);
    let others = finder.count() - slots.len();
    Pace {
        threads: workers.min(threads_for(effort, slots.len(), others)),
        share: share_for(effort, slots.len()),
    }
}

/// Answers requests until as much was done as starting a thread takes, and says how much it was. The last
/// one is left, since no thread would be started for it alone.
fn answer_first<G, Q: Query>(
    finder: &mut Finder<'_, G, Q>,
    slots: &mut Vec<Option<Answered<Q>>>,
    workspace: &mut Workspace,
) -> usize
    requires { AreFirst (length Q.asked) slots.old }
    ensures { AreFirst (length Q.asked) slots.new }
{
    let mut effort: usize = 0;
    for index in slots.len()..finder.count().saturating_sub(1) {
        if effort >= THREAD {
            break;
        }
        let Some(found) = finder.try_find(index, workspace) else {
            finder.note_looked_at(index);
            return usize::MAX;
        };
        effort = effort.saturating_add(effort_of(found.answer()));
        slots.push_reserved(Some(found));
    }
    effort
}

/// The answer to a request, unless more than [`CONFLICTS_WITHOUT_THREADS`] conflicts stand in its way or it names a
/// larger budget. Where no memory was left for it, it is [`Refusal::NoMemory`].
pub fn try_answer(
    alloc: Global,
    registry: &Registry,
    store: &Store,
    asked: &RequestWithOptions,
    workspace: &mut Workspace,
) -> Option<SolveResult>
    requires { All (AllStand registry.now.packages) store.now.members }
    ensures { IfSome result (IsAnswerTo registry.now.packages asked.now) }
{
    let (request, options) = asked;
    if let Some(budget) = options.budget {
        if budget > CONFLICTS_WITHOUT_THREADS {
            // What is counted against a budget is counted from the start on: nothing would be kept of a look.
            return None;
        }
        return Some(answer(alloc, registry, store, asked, false, workspace));
    }
    match solve_at_first(
        alloc,
        registry,
        request,
        store,
        *options,
        CONFLICTS_WITHOUT_THREADS,
        workspace,
    ) {
        Ok(outcome) => Some(Ok(outcome)),
        Err(Refusal::NoMemory) => Some(Err(Refusal::NoMemory)),
        Err(_) => None,
    }
}

/// How much there was to do: what was selected or cited, or, where something was learnt, at least as much
/// as starting a thread takes.
pub fn effort_of(answer: &SolveResult) -> usize {
    match answer {
        Ok(Outcome::Selection(list, offered)) if offered.is_empty() => list.len().saturating_add(1),
        Ok(Outcome::NoSelection(offered)) if offered.is_empty() => REFUSED,
        Ok(Outcome::Refused(derivation, offered)) if offered.is_empty() => {
            derivation.lines().len().saturating_add(1)
        }
        _ => THREAD,
    }
}

/// How many threads other requests are worth, the calling one among them, where so many took this effort.
fn threads_for(effort: usize, answered: usize, others: usize) -> usize {
    let expected = effort.saturating_mul(others) / answered.max(1);
    (expected / THREAD).saturating_add(1)
}

/// How many requests make a share of the work, where so many took this effort.
fn share_for(effort: usize, answered: usize) -> usize {
    (SHARE.saturating_mul(answered) / effort.max(1)).max(1)
}
