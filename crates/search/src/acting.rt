//! The one function in which a search derives and jumps back.
//
// Whatever hands lines to it, in whatever order: each use of a line lowers the rank of the partial
// solution, or ends in a refusal, or changes nothing. So a search ends.

ghost use Rattle.std.specs.Prelude.{◌≡◌, ◌<◌, ◌+◌, ◌-◌, ◌^◌, Some, length, min, IfErr, IfOk, OnOk};
ghost use Rattle.search.specs.Rank.{rank, FallsBack};
ghost use Rattle.search.specs.Satisfying.{AlmostSatisfied, Satisfied};
ghost use Rattle.facts.specs.Lines.{AtLine};
ghost use Rattle.search.specs.Searching.{ActsBy, IsSearch, IsUnused, Searches};
ghost use Rattle.facts.specs.Tasks.{MayRefuse};

use crate::conflict::{Resolution, resolve_conflict};
use crate::satisfaction::Satisfaction;
use crate::search::Search;
use crate::solution::Partial;
use derivations::CausedIncompatibility;
use facts::negation;
use oracle::Task;
use std::alloc::AllocError;
use terms::Pkg;
use versions::Refusal;

/// What an attempt to go on did.
#[derive(Clone, Copy)]
pub(crate) enum Acted {
    /// It derived or decided something of this package.
    Derived(Pkg),
    /// It met a conflict, jumped back, and derived something of this package by the line at this place.
    Backjumped(usize, Pkg),
    /// It found by the line at this place that no selection meets the request.
    Refused(usize),
    /// Nothing.
    Neither,
}

/// Derives the negation of the one term that is left of the line at a place (doc/solver.md, "Unit
/// Propagation").
fn derive_by(
    task: &Task<'_>,
    partial: &mut Partial,
    known: &[CausedIncompatibility],
    at: usize,
    pkg: Pkg,
) -> Result<(), AllocError>
    requires search { IsSearch task.now.registry.now.packages task.now.request.now partial.old known.now }
    requires almost { AtLine known.now at (λ line. AlmostSatisfied partial.old line.conclusion pkg) }
    ensures search { OnOk result (IsSearch task.now.registry.now.packages task.now.request.now partial.new known.now) }
    ensures falls { OnOk result (rank partial.new < rank partial.old) }
    ensures falls_back { OnOk result (FallsBack partial.old partial.new) }
{
    let term = negation(task.alloc, &known[at].conclusion, pkg)?;
    partial.derive(pkg, term, at)?;
    Ok(())
}

/// Counts one conflict more, unless as many were met as the budget allows.
fn count_conflict(task: &Task<'_>, conflicts: &mut u32) -> Result<(), Refusal>
    ensures counted { OnOk result (conflicts.new ≡ min (conflicts.old + 1) (2 ^ 32 - 1)) }
    ensures spent { IfErr result (λ e. (e ≡ Refusal.BudgetSpent) × (task.now.options.budget ≡ Some conflicts.old)) }
    ensures only { IfErr result (MayRefuse task.now.options.budget) }
{
    if task.options.budget == Some(*conflicts) {
        return Err(Refusal::BudgetSpent);
    }
    *conflicts = conflicts.saturating_add(1);
    Ok(())
}

/// Resolves a conflict, jumps back, and derives what the line says that comes of it.
fn meet_conflict(task: &Task<'_>, search: &mut Search, at: usize) -> Result<Acted, Refusal>
    requires search { Searches task.now search.old }
    requires satisfied { AtLine search.old.known.items at (λ line. Satisfied search.old.partial line.conclusion) }
    ensures acts { IfOk result (ActsBy task.now search.old search.new ⊥) }
    ensures only { IfErr result (MayRefuse task.now.options.budget) }
{
    let _made = search.partial.assignments();
    count_conflict(task, &mut search.conflicts)?;
    match resolve_conflict(task, &search.partial, &mut search.known, at)? {
        Resolution::Refused(end) => Ok(Acted::Refused(end)),
        Resolution::Back(line, level) => {
            search.partial.back_to(level);
            match search.partial.relation(&search.known[line].conclusion) {
                Satisfaction::Satisfied | Satisfaction::Other => unreachable!(),
                Satisfaction::Almost(pkg) => {
                    derive_by(task, &mut search.partial, &search.known, line, pkg)?;
                    Ok(Acted::Backjumped(line, pkg))
                }
            }
        }
    }
}

/// Uses the line at a place: it is a conflict, or derives something, or is of no use now.
pub(crate) fn propagate_incompatibility(
    task: &Task<'_>,
    search: &mut Search,
    at: usize,
) -> Result<Acted, Refusal>
    requires within { at < length search.old.known.items }
    requires search { Searches task.now search.old }
    ensures acts { IfOk result (ActsBy task.now search.old search.new (IsUnused search.old search.new at)) }
    ensures only { IfErr result (MayRefuse task.now.options.budget) }
{
    match search.partial.relation(&search.known[at].conclusion) {
        Satisfaction::Other => Ok(Acted::Neither),
        Satisfaction::Almost(pkg) => {
            derive_by(task, &mut search.partial, &search.known, at, pkg)?;
            Ok(Acted::Derived(pkg))
        }
        Satisfaction::Satisfied => Ok(meet_conflict(task, search, at)?),
    }
}
