//! What an oracle says, checked: a selection by the walk, a refusal by a replay of its trace or by chains.

ghost use Rattle.std.specs.Prelude.{IfErr, IfOk, IfSome};
ghost use Rattle.facts.specs.Tasks.{IsNewestList, IsSelectionList, MayRefuse, StoreStands};
ghost use Rattle.solver.specs.Finding.{IsFound, IsValidated};

use crate::found::{Found, found_of};
use crate::look::Look;
use checker::{
    Stop as Unshown, is_refused_by_chains, may_teach, newest_by_chains, replay, replay_learnt,
    selection_by, selects,
};
use indexmap::IndexMap;
use oracle::{Claim, Oracle, Stop, Task, Trace};
use search::Ended;
use std::alloc::AllocError;
use terms::Pkg;
use versions::Refusal;
use walk::{NewestChoice, is_plainly_newest};

/// After so many versions that were taken back, a search only to learn costs more than what it teaches is worth: on the
/// workload `partial` it was half of the instructions of each request.
const MOST_TAKEN_BACK: usize = 32;

/// Refuses the request, where the oracle stopped for lack of memory, or since the budget is spent.
fn stopped(task: &Task<'_>, stop: Stop) -> Result<(), Refusal>
    ensures { IfErr result (MayRefuse task.now.options.budget) }
{
    match stop {
        Stop::NoMemory => Err(Refusal::NoMemory),
        Stop::Spent => match task.options.budget {
            None => Ok(()),
            Some(_) => Err(Refusal::BudgetSpent),
        },
        Stop::Lost => Ok(()),
    }
}

/// The newest selection, with what may be learnt of a trace; nothing for lack of memory.
fn found_with(task: &Task<'_>, list: Vec<(Pkg, u32)>, trace: &Trace) -> Found
    requires stored { StoreStands task.now }
    requires newest { IsNewestList task.now list.items }
    ensures { IsFound task.now result }
{
    match replay_learnt(task, trace) {
        Ok(replayed) => {
            let ended = Ended::Selected(list);
            found_of(task, ended, replayed.known, &replayed.learnt)
        }
        Err(_) => Found::Selected(list, Vec::new(task.alloc)),
    }
}

/// The newest selection, where one was found that is not seen to be it, with what may be learnt of the trace of that:
/// the oracle searches on, and its trace is to show that what it found is the newest. Nothing, if it doesn't. What was
/// found first is given if it was looked at, so that it is not walked again if it is the newest.
fn find_newest<O: Oracle>(
    task: &Task<'_>,
    oracle: &mut O,
    decided: &IndexMap<Pkg, u32>,
    first: Option<Vec<(Pkg, u32)>>,
    learnt: &Trace,
) -> Result<Option<Found>, Refusal>
    requires stored { StoreStands task.now }
    requires first { IfSome first (λ list. IsSelectionList task.now list.items) }
    ensures found { IfOk result (IsValidated task.now) }
    ensures only { IfErr result (MayRefuse task.now.options.budget) }
{
    match oracle.search_newest() {
        Err(stop) => {
            stopped(task, stop)?;
            Ok(None)
        }
        Ok(trace) => {
            let same = if first.is_some() && selects(&trace, decided) {
                first
            } else {
                None
            };
            match newest_by_chains(task, &trace, same) {
                Ok(Some(list)) => Ok(Some(found_with(task, list, learnt))),
                Ok(None) | Err(Unshown::Unknown) => Ok(None),
                Err(Unshown::NoMemory) => Err(Refusal::NoMemory),
            }
        }
    }
}

/// Whether a selection that was found after so many conflicts is looked at without a search. After conflicts that seldom
/// shows it to be the newest: never in the workloads `sat` and `stairs`. Under a budget the search for the newest would
/// count more of them.
fn is_looked_at(task: &Task<'_>, conflicts: u32) -> bool {
    task.options.budget.is_some() || conflicts == 0
}

/// What is right of a selection: that one, if it is seen to be the newest, else the newest.
fn validate_selection<O: Oracle>(
    task: &Task<'_>,
    oracle: &mut O,
    decided: &IndexMap<Pkg, u32>,
    trace: &Trace,
) -> Result<Option<Found>, Refusal>
    requires { StoreStands task.now }
    ensures found { IfOk result (IsValidated task.now) }
    ensures only { IfErr result (MayRefuse task.now.options.budget) }
{
    if !is_looked_at(task, oracle.conflicts()) {
        return find_newest(task, oracle, decided, None, trace);
    }
    let Some(list) = selection_by(task, decided)? else {
        return Ok(None);
    };
    if is_plainly_newest(task.alloc, task.registry, task.request, &list)? {
        return Ok(Some(found_with(task, list, trace)));
    }
    find_newest(task, oracle, decided, Some(list), trace)
}

/// The refusal that a trace shows by lines, if it does. Nothing is offered where it can't teach anything.
fn refusal_by_lines(task: &Task<'_>, trace: &Trace) -> Result<Option<Found>, AllocError>
    requires { StoreStands task.now }
    ensures { IfOk result (IsValidated task.now) }
{
    let Some(replayed) = replay(task, trace)? else {
        return Ok(None);
    };
    if may_teach(task, trace) {
        let ended = Ended::Refused(replayed.end);
        return Ok(Some(found_of(task, ended, replayed.known, &replayed.learnt)));
    }
    let offered = Vec::new(task.alloc);
    Ok(Some(Found::Refused(replayed.known, replayed.end, offered)))
}

/// The refusal that a trace shows, if it does. One that can't teach anything is shown by chains, unless it is asked to be
/// explained.
fn validate_refusal(task: &Task<'_>, trace: &Trace) -> Result<Option<Found>, AllocError>
    requires { StoreStands task.now }
    ensures { IfOk result (IsValidated task.now) }
{
    if !task.options.explain && !may_teach(task, trace) && is_refused_by_chains(task, trace)? {
        return Ok(Some(Found::Unexplained(Vec::new(task.alloc))));
    }
    refusal_by_lines(task, trace)
}

/// What is right of what an oracle says, if anything is.
pub(crate) fn validate<O: Oracle>(task: &Task<'_>, oracle: &mut O) -> Result<Option<Found>, Refusal>
    requires { StoreStands task.now }
    ensures found { IfOk result (IsValidated task.now) }
    ensures only { IfErr result (MayRefuse task.now.options.budget) }
{
    match oracle.search() {
        Ok(Claim::Selected(decided, trace)) => validate_selection(task, oracle, &decided, &trace),
        Ok(Claim::Refused(trace)) => Ok(validate_refusal(task, &trace)?),
        Err(stop) => {
            stopped(task, stop)?;
            Ok(None)
        }
    }
}

/// Whether a choice for which so many versions were taken back is answered without asking the oracle. Where the request
/// names a budget its conflicts count.
fn is_answered_at_once(look: Look, taken_back: usize) -> bool {
    taken_back == 0 || (look != Look::Budgeted && taken_back > MOST_TAKEN_BACK)
}

/// The trace of what the oracle learns on its way to a selection, if it comes to one.
fn taught<O: Oracle>(task: &Task<'_>, look: Look, oracle: &mut O) -> Result<Option<Trace>, Refusal>
    ensures { IfErr result (MayRefuse task.now.options.budget) }
{
    match oracle.search() {
        Ok(Claim::Selected(_, trace)) => Ok(Some(trace)),
        Ok(Claim::Refused(_)) => Ok(None),
        // The selection is known, so there is no need to look again.
        Err(Stop::Spent) if look == Look::First => Ok(None),
        Err(stop) => {
            stopped(task, stop)?;
            Ok(None)
        }
    }
}

/// The newest selection, as it was chosen without a search. Where few choices were taken back for it, or the request names a
/// budget, the oracle is asked all the same: for what may be learnt, and since its conflicts count under such a budget.
pub(crate) fn validate_choice<O: Oracle>(
    task: &Task<'_>,
    look: Look,
    oracle: &mut O,
    choice: NewestChoice,
) -> Result<Found, Refusal>
    requires stored { StoreStands task.now }
    requires newest { IsNewestList task.now choice.list.items }
    ensures found { IfOk result (IsFound task.now) }
    ensures only { IfErr result (MayRefuse task.now.options.budget) }
{
    let NewestChoice { list, ruled_out } = choice;
    if is_answered_at_once(look, ruled_out) {
        return Ok(Found::Selected(list, Vec::new(task.alloc)));
    }
    match taught(task, look, oracle)? {
        Some(trace) => Ok(found_with(task, list, &trace)),
        None => Ok(Found::Selected(list, Vec::new(task.alloc))),
    }
}
