//! The stages of an answer, from the cheapest to the one that always answers.

ghost use Rattle.std.specs.Prelude.{IfErr, IfOk};
ghost use Rattle.solver.specs.Finding.{IsFound, IsValidated};
ghost use Rattle.solver.specs.Outcomes.{MayStop};
ghost use Rattle.facts.specs.Tasks.{MayRefuse, StoreStands};

use crate::found::{Found, found_of};
use crate::look::Look;
use crate::validating::{validate, validate_choice};
use oracle::{Oracle, Task};
use search::search_in_order;
use std::alloc::AllocError;
use versions::Refusal;
use walk::{
    NewestChoice, Reached, choose_newest, choose_newest_by_propagation, reach_preferred,
    the_preferred_is_the_newest,
};

/// The newest selection, where it is chosen by propagation. Nothing is learnt then, and no conflict is counted: so a
/// request that names a budget is not answered by it.
fn found_by_propagation(task: &Task<'_>, look: Look) -> Result<Option<Found>, AllocError>
    ensures { IfOk result (IsValidated task.now) }
{
    if look == Look::Budgeted {
        return Ok(None);
    }
    match choose_newest_by_propagation(task.alloc, task.registry, task.request)? {
        None => Ok(None),
        Some(choice) => {
            let NewestChoice { list, .. } = choice;
            Ok(Some(Found::Selected(list, Vec::new(task.alloc))))
        }
    }
}

/// Finds what answers a task by searches: what is right of what an oracle says; else by the search that is proved, which
/// counts on from the oracle's conflicts.
fn search_for<O: Oracle>(task: &Task<'_>, oracle: &mut O) -> Result<Found, Refusal>
    requires { StoreStands task.now }
    ensures found { IfOk result (IsFound task.now) }
    ensures only { IfErr result (MayRefuse task.now.options.budget) }
{
    match validate(task, oracle)? {
        Some(found) => Ok(found),
        None => {
            let searched = search_in_order(task, oracle.conflicts())?;
            Ok(found_of(task, searched.ended, searched.known, &searched.learnt))
        }
    }
}

/// Finds what answers a task that the preferred selection doesn't: without a search, where that serves.
fn find_newest<O: Oracle>(task: &Task<'_>, look: Look, oracle: &mut O) -> Result<Found, Refusal>
    requires { StoreStands task.now }
    ensures found { IfOk result (IsFound task.now) }
    ensures only { IfErr result (MayRefuse task.now.options.budget) }
{
    if let Some(choice) = choose_newest(task.alloc, task.registry, task.request)? {
        return Ok(validate_choice(task, look, oracle, choice)?);
    }
    if let Some(found) = found_by_propagation(task, look)? {
        return Ok(found);
    }
    Ok(search_for(task, oracle)?)
}

/// Finds what answers a task: the preferred selection where it serves, which is the newest then; else the newest, or that
/// there is none, by one stage after another. After a first look only searches are left.
pub(crate) fn find<O: Oracle>(task: &Task<'_>, look: Look, oracle: &mut O) -> Result<Found, Refusal>
    requires { StoreStands task.now }
    ensures found { IfOk result (IsFound task.now) }
    ensures only { IfErr result (MayStop task.now.registry.now.packages task.now.request.now task.now.options.budget) }
{
    // No budget may be spent where the preferred selection serves, so under one that is looked at first.
    if let (Look::Again, None) = (look, task.options.budget) {
        return Ok(search_for(task, oracle)?);
    }
    the_preferred_is_the_newest();
    let _revision = task.registry.revision();
    let _needs = task.request.needs();
    match reach_preferred(task.alloc, task.registry, task.request)? {
        Reached::Selection(list) => Ok(Found::Selected(list, Vec::new(task.alloc))),
        Reached::Unmet(_, _) | Reached::NotAllowed(_, _) => Ok(find_newest(task, look, oracle)?),
    }
}
