//! Lines that follow from others, and what a line derives.

ghost use Rattle.std.specs.Prelude.{◌≡◌, ◌<◌, ℕ, Option, length, not, true, IfOk};
ghost use Rattle.terms.specs.Terms.{true_of};
ghost use Rattle.terms.specs.Incompats.{has_term, true_at, IsIncompat};
ghost use Rattle.derivations.specs.CausedIncompatibilities.{FollowsFrom};
ghost use Rattle.facts.specs.Lines.{AtLine};

use derivations::{CausedIncompatibility, Reason};
use std::alloc::{AllocError, Global};
use terms::{Incompat, Pkg, Term, VSet, resolve};

/// The negation of the term on a package (doc/solver.md, "Unit Propagation").
pub fn negation(alloc: Global, incompat: &Incompat, pkg: Pkg) -> Result<Term, AllocError>
    ensures { IfOk result (λ term. (choice : Option ℕ) → true_of term choice ≡ not (true_at incompat.now pkg choice)) }
{
    match incompat.term_on(pkg) {
        Some(term) => Ok(term.copy(alloc)?.negate()),
        None => Ok(Term::In(VSet::new(alloc))),
    }
}

/// What follows from the lines at two places on a pivot (doc/solver.md, "Conflict Resolution").
pub fn line_from(
    alloc: Global,
    known: &[CausedIncompatibility],
    i: usize,
    j: usize,
    pivot: Pkg,
) -> Result<CausedIncompatibility, AllocError>
    requires first { i < length known.now }
    requires second { AtLine known.now j (λ line. has_term line.conclusion pivot ≡ true) }
    ensures follows { IfOk result (λ line. FollowsFrom known.now line.conclusion i j pivot) }
    ensures reason { IfOk result (λ line. line.reason ≡ Reason.Resolved i j pivot) }
    ensures lawful { IfOk result (λ line. IsIncompat line.conclusion) }
{
    let first = &known[i];
    let second = &known[j];
    let conclusion = resolve(alloc, &first.conclusion, &second.conclusion, pivot)?;
    Ok(CausedIncompatibility {
        conclusion,
        reason: Reason::Resolved(i, j, pivot),
    })
}
