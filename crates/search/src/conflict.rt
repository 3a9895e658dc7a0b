//! Conflict resolution (doc/solver.md, "Conflict Resolution").

ghost use Rattle.std.specs.Prelude.{IfOk, OnOk};
ghost use Rattle.search.specs.Satisfying.{Satisfied};
ghost use Rattle.facts.specs.Lines.{AtLine};
ghost use Rattle.search.specs.Searching.{IsSearch, ResolvesBy};

use crate::assignment::Why;
use crate::solution::Partial;
use derivations::{CausedIncompatibility, ROOT, empty_is_no_fact};
use facts::line_from;
use oracle::Task;
use std::alloc::AllocError;

/// What the resolution of a conflict ends in.
#[derive(Clone, Copy)]
pub(crate) enum Resolution {
    /// The line at this place is almost satisfied once the search jumps back to this level.
    Back(usize, usize),
    /// The line at this place has no terms, so that no selection meets the request.
    Refused(usize),
}

/// Resolves the satisfied line at `first` with the causes of its satisfiers, until one decision less
/// leaves a line almost satisfied. It ends since each satisfier stands before the last one.
pub(crate) fn resolve_conflict(
    task: &Task<'_>,
    partial: &Partial,
    known: &mut Vec<CausedIncompatibility>,
    first: usize,
) -> Result<Resolution, AllocError>
    requires search { IsSearch task.now.registry.now.packages task.now.request.now partial.now known.old.items }
    requires satisfied { AtLine known.old.items first (λ line. Satisfied partial.now line.conclusion) }
    ensures search { OnOk result (IsSearch task.now.registry.now.packages task.now.request.now partial.now known.new.items) }
    ensures resolved { IfOk result (ResolvesBy task.now partial.now known.new.items) }
{
    empty_is_no_fact();
    let made = partial.assignments();
    let mut at = first;
    let mut bound = made.len();
    'resolution: loop {
        let conclusion = &known[at].conclusion;
        if conclusion.terms().is_empty() {
            return Ok(Resolution::Refused(at));
        }
        let (index, level) = partial.satisfier(conclusion)?;
        let satisfier = &made[index];
        if index < 2 {
            // one of the root's own assignments: with its fact nothing is left
            let line = line_from(task.alloc, known, at, 0, ROOT)?;
            at = known.as_slice().len();
            known.push(line)?;
            return Ok(Resolution::Refused(at));
        }
        if level < satisfier.level {
            return Ok(Resolution::Back(at, level));
        }
        match satisfier.why {
            Why::Decided(_) => unreachable!(),
            Why::Derived(cause) => {
                let line = line_from(task.alloc, known, at, cause, satisfier.pkg)?;
                at = known.as_slice().len();
                known.push(line)?;
                bound = index;
            }
        }
    }
}
