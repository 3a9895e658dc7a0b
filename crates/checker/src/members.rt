//! What is used of the store.
//
// A member of the store stands, so that its lines are lawful lines of the search: its premises are
// facts, and each of its lines follows from two.

ghost use Rattle.std.specs.Prelude.{IfOk, IfSome, OnOk};
ghost use Rattle.derivations.specs.Facts.{Terms};
ghost use Rattle.derivations.specs.Learning.{AllStand, CauseStands};
ghost use Rattle.facts.specs.Pushing.{Extends, SaysAt};
ghost use Rattle.checker.specs.Members.{IsDerivedAt, IsForMember, IsGivenAt};
ghost use Rattle.facts.specs.Tasks.{StoreStands};

use derivations::{Cause, CausedIncompatibility, Learnt, Line, Reason};
use facts::{lines_grow, push_premise};
use oracle::Task;
use std::alloc::AllocError;

/// The place of what a cause of a member's line gives, whose earlier lines stand at these places. A
/// premise is put behind the lines.
fn place_of(
    task: &Task<'_>,
    known: &mut Vec<CausedIncompatibility>,
    places: &[usize],
    cause: &Cause,
) -> Result<usize, AllocError>
    requires given { (terms : Terms) × IsGivenAt known.old.items places.now cause.now terms }
    requires stands { CauseStands task.now.registry.now.packages cause.now }
    ensures extends { OnOk result (Extends task.now known.old.items known.new.items) }
    ensures place { IfOk result (λ at. (terms : Terms) → IsGivenAt known.old.items places.now cause.now terms → SaysAt known.new.items terms at) }
{
    match cause {
        Cause::Line(number) => Ok(places[*number - 1]),
        Cause::Premise(premise) => push_premise(task, known, premise.cloned(task.alloc)?),
        Cause::Need(_) | Cause::NotAllowed(_, _) | Cause::Root => unreachable!(),
    }
}

/// Puts a member's line behind the lines, with its premises.
fn push_line(
    task: &Task<'_>,
    known: &mut Vec<CausedIncompatibility>,
    places: &[usize],
    line: &Line,
) -> Result<usize, AllocError>
    requires { IsDerivedAt task.now.registry.now.packages known.old.items places.now line.now }
    ensures extends { OnOk result (Extends task.now known.old.items known.new.items) }
    ensures place { IfOk result (SaysAt known.new.items line.now.conclusion) }
{
    lines_grow();
    let first = place_of(task, known, places, &line.causes.0)?;
    let second = place_of(task, known, places, &line.causes.1)?;
    let conclusion = line.conclusion.copy(task.alloc)?;
    let at = known.as_slice().len();
    known.push(CausedIncompatibility {
        conclusion,
        reason: Reason::Resolved(first, second, line.pivot),
    })?;
    Ok(at)
}

/// Puts all lines of a member behind the lines, and answers the place of the last one.
pub(crate) fn push_learnt(
    task: &Task<'_>,
    known: &mut Vec<CausedIncompatibility>,
    learnt: &Learnt,
) -> Result<usize, AllocError>
    requires { AllStand task.now.registry.now.packages learnt.now }
    ensures extends { OnOk result (Extends task.now known.old.items known.new.items) }
    ensures place { IfOk result (IsForMember known.new.items learnt.now) }
{
    let lines = learnt.lines();
    let mut places = Vec::with_capacity(task.alloc, lines.len())?;
    let mut at = 0;
    for line in lines {
        at = push_line(task, known, &places, line)?;
        places.push(at)?;
    }
    Ok(at)
}

/// The member in a place of the store.
pub(crate) fn member_of<'a>(task: &Task<'a>, place: u32) -> Option<&'a Learnt>
    requires { StoreStands task.now }
    ensures { IfSome result (λ learnt. AllStand task.now.registry.now.packages learnt.now) }
{
    task.store.member(place)
}
