//! The partial solution.

ghost use Rattle.std.specs.Prelude.{◌≡◌, ◌+◌, ◌<◌, ◌++◌, ◌∷◌, ℕ, [], Option, None, Some, false, true, length, take, IfNone, IfOk, IfSome, OnErr, OnOk};
ghost use Rattle.std.specs.List.Sorted.{IsStrictlyIncreasing};
ghost use Rattle.terms.specs.Sets.{has};
ghost use Rattle.terms.specs.Terms.{true_of};
ghost use Rattle.search.specs.Assignments.{decided, decision_after, decisions, is_decided, is_undecided, says, upto, IsOpenTo, IsPartial, SaysOnly};
ghost use Rattle.search.specs.Trail.{last_place};
ghost use Rattle.search.specs.Rank.{rank, FallsBack, TakesAway};
ghost use Rattle.search.specs.Satisfying.{CanGoBack, IsSatisfier, Satisfied, Stands};

use crate::assignment::{Assignment, Why};
use crate::satisfaction::{Satisfaction, standing_of};
use crate::satisfier::satisfier_of;
use crate::trail::{
    Trail, add, decided_at, decided_on, empty, go_back, last_on, level_of, said_at,
};
use crate::undecided::undecided_in;
use std::alloc::{AllocError, Global};
use std::marker::Model;
use terms::{Incompat, Pkg, Term, VSet};

/// Decisions and derivations in the order in which they were made (doc/solver.md, "Partial
/// Solution"). What they say of a package is at hand, whatever the number of the others.
#[derive(Drop)]
pub struct Partial {
    trail: Trail,
    alloc: Global,
}

impl Model for Partial {
    ghost use Rattle.std.specs.Prelude.{List};
    ghost use Rattle.search.specs.declared.assignment.Assignment.{Assignment};
    ghost use Rattle.search.specs.Assignments.{IsPartial};
    ghost use Rattle.search.specs.Trail.{IsTrail};

    ghost Value = { List Assignment };

    ghost view = { λ p. p.trail.made.items };

    ghost invariant = { λ p. IsPartial p.trail.made.items × IsTrail p.trail };
}

/// What is settled of a package that assignments are on.
#[derive(Clone, Copy)]
pub struct Settled<'a> {
    /// What they say together.
    pub said: &'a Term,
    /// The ordinal that they decide.
    pub decision: Option<u32>,
}

/// That an ordinal is chosen.
fn only(alloc: Global, ordinal: u32) -> Result<Term, AllocError>
    ensures { IfOk result (λ term. term ≡ Term.In (ordinal ∷ [])) }
{
    Ok(Term::In(VSet::single(alloc, ordinal)?))
}

impl Partial {
    /// Without assignments; it takes no memory.
    pub fn new(alloc: Global) -> Partial
        ensures { result ≡ [] }
    {
        Partial {
            trail: empty(alloc),
            alloc,
        }
    }

    /// The assignments, in order.
    pub fn assignments(&self) -> &[Assignment]
        ensures same { result.now ≡ self.now }
        ensures lawful { IsPartial self.now }
    {
        self.trail.made.as_slice()
    }

    /// How many decisions there are.
    pub fn level(&self) -> usize
        ensures { result ≡ decisions self.now }
    {
        level_of(&self.trail.made)
    }

    /// What the assignments on a package say together, none where there is no assignment on it.
    pub fn said(&self, pkg: Pkg) -> Option<&Term>
        ensures some { IfSome result (λ term. (choice : Option ℕ) → true_of term.now choice ≡ says self.now pkg choice) }
        ensures none { IfNone result ((choice : Option ℕ) → says self.now pkg choice ≡ true) }
        ensures lawful { IsPartial self.now }
    {
        let last = last_on(&self.trail, pkg);
        match last {
            None => None,
            Some(_) => Some(said_at(&self.trail, last)),
        }
    }

    /// What is settled of a package, by one look, none where there is no assignment on it.
    pub fn settled(&self, pkg: Pkg) -> Option<Settled<'_>>
        ensures said { IfSome result (λ settled. (choice : Option ℕ) → true_of settled.said.now choice ≡ says self.now pkg choice) }
        ensures decision { IfSome result (λ settled. settled.decision ≡ decided self.now pkg) }
        ensures only { IfSome result (λ settled. IfSome settled.decision (SaysOnly self.now pkg)) }
        ensures none { IfNone result ((choice : Option ℕ) → says self.now pkg choice ≡ true) }
        ensures undecided { IfNone result (decided self.now pkg ≡ None) }
        ensures lawful { IsPartial self.now }
    {
        let last = last_on(&self.trail, pkg);
        match last {
            None => None,
            Some(_) => {
                let said = said_at(&self.trail, last);
                let decision = decided_at(&self.trail, last);
                Some(Settled { said, decision })
            }
        }
    }

    /// The place of the last assignment on a package.
    pub fn last_on(&self, pkg: Pkg) -> Option<usize>
        ensures { result ≡ last_place self.now pkg }
    {
        last_on(&self.trail, pkg)
    }

    /// The ordinal that is decided of a package.
    pub fn decision(&self, pkg: Pkg) -> Option<u32>
        ensures exactly { result ≡ decided self.now pkg }
        ensures only { IfSome result (λ ordinal. (choice : Option ℕ) → says self.now pkg choice ≡ true → choice ≡ Some ordinal) }
        ensures lawful { IsPartial self.now }
    {
        decided_on(&self.trail, pkg)
    }

    /// The packages with a positive derivation and no decision, in rising order. It looks at each number
    /// up to the highest that an assignment was ever on.
    pub fn undecided(&self) -> Result<Vec<Pkg>, AllocError>
        ensures exactly { IfOk result (λ found. (pkg : ℕ) → has found.items pkg ≡ is_undecided self.now pkg) }
        ensures rising { IfOk result (λ found. IsStrictlyIncreasing found.items) }
        ensures lawful { IsPartial self.now }
    {
        undecided_in(self.alloc, &self.trail)
    }

    /// How an incompatibility stands to the assignments, by one look at each of its packages.
    pub fn relation(&self, incompat: &Incompat) -> Satisfaction
        ensures stands { Stands self.now incompat.now result }
        ensures lawful { IsPartial self.now }
    {
        standing_of(&self.trail, incompat.terms())
    }

    /// The place of the satisfier of an incompatibility, and the previous level, at least 1
    /// (doc/solver.md, "Conflict Resolution"). This looks at the assignments on the incompatibility's
    /// packages alone.
    pub fn satisfier(&self, incompat: &Incompat) -> Result<(usize, usize), AllocError>
        requires some { 0 < length incompat.now }
        requires satisfied { Satisfied self.now incompat.now }
        ensures satisfier { IfOk result (λ found. IsSatisfier self.now incompat.now found.0 found.1) }
        ensures early { IfOk result (λ found. (bound : ℕ) → Satisfied (take bound self.now) incompat.now → found.0 < bound) }
        ensures back { IfOk result (λ found. CanGoBack self.now incompat.now found.0 found.1) }
    {
        satisfier_of(self.alloc, &self.trail, incompat.terms())
    }

    /// Adds a derivation at the present level, with the place of its cause in the caller's list.
    pub fn derive(&mut self, pkg: Pkg, term: Term, cause: usize) -> Result<(), AllocError>
        requires { IsOpenTo self.old pkg term }
        ensures ok { OnOk result (self.new ≡ self.old ++ record { pkg = pkg; term = term; level = decisions self.old; why = Why.Derived cause } ∷ []) }
        ensures falls { OnOk result (TakesAway self.old pkg term → rank self.new < rank self.old) }
        ensures falls_back { OnOk result (TakesAway self.old pkg term → FallsBack self.old self.new) }
        ensures err { OnErr result (self.new ≡ self.old) }
    {
        let level = self.level();
        let last = last_on(&self.trail, pkg);
        let said = match said_at(&self.trail, last).and(self.alloc, &term) {
            Ok(said) => said,
            Err(error) => {
                drop(term);
                return Err(error);
            }
        };
        let derivation = Assignment {
            pkg,
            term,
            level,
            why: Why::Derived(cause),
        };
        add(&mut self.trail, derivation, last, said)?;
        Ok(())
    }

    /// Decides for an ordinal, which opens a level.
    pub fn decide(&mut self, pkg: Pkg, ordinal: u32) -> Result<(), AllocError>
        requires undecided { is_decided self.old pkg ≡ false }
        requires within { says self.old pkg (Some ordinal) ≡ true }
        ensures ok { OnOk result (self.new ≡ self.old ++ decision_after self.old pkg ordinal ∷ []) }
        ensures falls { OnOk result (rank self.new < rank self.old) }
        ensures err { OnErr result (self.new ≡ self.old) }
    {
        let level = self.level() + 1;
        let term = only(self.alloc, ordinal)?;
        let said = match only(self.alloc, ordinal) {
            Ok(said) => said,
            Err(error) => {
                drop(term);
                return Err(error);
            }
        };
        let last = last_on(&self.trail, pkg);
        let decision = Assignment {
            pkg,
            term,
            level,
            why: Why::Decided(ordinal),
        };
        add(&mut self.trail, decision, last, said)?;
        Ok(())
    }

    /// Removes the assignments above a level. The cost is that of what is removed.
    pub fn back_to(&mut self, level: usize)
        ensures { self.new ≡ upto level self.old }
    {
        go_back(&mut self.trail, level);
    }
}
