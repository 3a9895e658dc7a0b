//! Terms: what is said of one package's choice.

ghost use Rattle.std.specs.Prelude.{◌≡◌, ◌↔◌, ◌&&◌, ◌||◌, not, ℕ, Option, Some, true, false, count_by, find, reverse, IfNone, IfOk, IfSome, IsTrue};
ghost use Rattle.terms.specs.Sets.{has};
ghost use Rattle.terms.specs.Terms.{true_of, Excludes, Implies, IsTerm, Relates};

use crate::merging::Rule;
use crate::relations::Relation;
use crate::sets::VSet;
use std::alloc::{AllocError, Global};

/// That the choice of a package lies in a set, or that it does not (doc/solver.md, "Term"). The
/// second holds also where nothing is chosen.
#[derive(Drop)]
pub enum Term {
    In(VSet),
    NotIn(VSet),
}

impl Term {
    /// The term that is true where both are. Linear in the sets.
    #[inline(always)]
    pub fn and(&self, alloc: Global, other: &Term) -> Result<Term, AllocError>
        ensures exact { IfOk result (λ term. (choice : Option ℕ) →
            true_of term choice ≡ (true_of self.now choice && true_of other.now choice)) }
        ensures ascending { IfOk result IsTerm }
    {
        Ok(match (self, other) {
            (Term::In(a), Term::In(b)) => Term::In(VSet::of_rule(alloc, Rule::Both, a, b)?),
            (Term::In(a), Term::NotIn(b)) => Term::In(VSet::of_rule(alloc, Rule::FirstOnly, a, b)?),
            (Term::NotIn(a), Term::In(b)) => Term::In(VSet::of_rule(alloc, Rule::FirstOnly, b, a)?),
            (Term::NotIn(a), Term::NotIn(b)) => {
                Term::NotIn(VSet::of_rule(alloc, Rule::Either, a, b)?)
            }
        })
    }

    /// The term that is true where one of the two is. Linear in the sets.
    #[inline(always)]
    pub fn or(&self, alloc: Global, other: &Term) -> Result<Term, AllocError>
        ensures exact { IfOk result (λ term. (choice : Option ℕ) →
            true_of term choice ≡ (true_of self.now choice || true_of other.now choice)) }
        ensures ascending { IfOk result IsTerm }
    {
        Ok(match (self, other) {
            (Term::In(a), Term::In(b)) => Term::In(VSet::of_rule(alloc, Rule::Either, a, b)?),
            (Term::In(a), Term::NotIn(b)) => {
                Term::NotIn(VSet::of_rule(alloc, Rule::FirstOnly, b, a)?)
            }
            (Term::NotIn(a), Term::In(b)) => {
                Term::NotIn(VSet::of_rule(alloc, Rule::FirstOnly, a, b)?)
            }
            (Term::NotIn(a), Term::NotIn(b)) => {
                Term::NotIn(VSet::of_rule(alloc, Rule::Both, a, b)?)
            }
        })
    }

    /// The term that is true where this one is not.
    pub fn negate(self) -> Term
        ensures exact { (choice : Option ℕ) → true_of result choice ≡ not (true_of self choice) }
        ensures ascending { IsTerm self → IsTerm result }
    {
        match self {
            Term::In(set) => Term::NotIn(set),
            Term::NotIn(set) => Term::In(set),
        }
    }

    /// Whether the term is true of an ordinal.
    #[inline(always)]
    pub fn allows(&self, ordinal: u32) -> bool
        ensures { result ≡ true_of self.now (Some ordinal) }
    {
        match self {
            Term::In(set) => set.has(ordinal),
            Term::NotIn(set) => !set.has(ordinal),
        }
    }

    /// Of how many ordinals of a set the term is true. Linear in the sets, without memory.
    pub fn count_in(&self, set: &VSet) -> usize
        ensures { result ≡ count_by (λ k. true_of self.now (Some k)) set.now }
    {
        match self {
            Term::In(own) => set.count_of_rule(Rule::Both, own),
            Term::NotIn(own) => set.count_of_rule(Rule::FirstOnly, own),
        }
    }

    /// Whether both are true of the same choices.
    pub fn is_same(&self, other: &Term) -> bool
        ensures { IsTrue result ↔ (self.now ≡ other.now) }
    {
        match (self, other) {
            (Term::In(a), Term::In(b)) => a.is_same(b),
            (Term::NotIn(a), Term::NotIn(b)) => a.is_same(b),
            (Term::In(_), Term::NotIn(_)) => false,
            (Term::NotIn(_), Term::In(_)) => false,
        }
    }

    /// Tells a caller that the term's set ascends, as each does. It does nothing when it runs.
    pub fn ascends(&self)
        ensures { IsTerm self.now }
    {
        match self {
            Term::In(set) => set.ascends(),
            Term::NotIn(set) => set.ascends(),
        }
    }

    /// An equal term.
    #[inline(always)]
    pub fn copy(&self, alloc: Global) -> Result<Term, AllocError>
        ensures same { IfOk result (λ term. term ≡ self.now) }
        ensures ascending { IfOk result IsTerm }
    {
        Ok(match self {
            Term::In(set) => Term::In(set.copy(alloc)?),
            Term::NotIn(set) => Term::NotIn(set.copy(alloc)?),
        })
    }
}

/// A choice of which both terms are true.
#[inline(always)]
fn shared(first: &Term, second: &Term) -> Option<Option<u32>>
    ensures none { IfNone result (Excludes first.now second.now) }
    ensures some { IfSome result (λ choice.
        (true_of first.now choice ≡ true) × (true_of second.now choice ≡ true)) }
{
    match (first, second) {
        (Term::In(a), Term::In(b)) => a.first_of_rule(Rule::Both, b).map(Some),
        (Term::In(a), Term::NotIn(b)) => a.first_of_rule(Rule::FirstOnly, b).map(Some),
        (Term::NotIn(a), Term::In(b)) => b.first_of_rule(Rule::FirstOnly, a).map(Some),
        (Term::NotIn(_), Term::NotIn(_)) => Some(None),
    }
}

/// A choice of which the first term is true and the second is not.
#[inline(always)]
fn exception(first: &Term, second: &Term) -> Option<Option<u32>>
    ensures none { IfNone result (Implies first.now second.now) }
    ensures some { IfSome result (λ choice.
        (true_of first.now choice ≡ true) × (true_of second.now choice ≡ false)) }
{
    match (first, second) {
        (Term::In(a), Term::In(b)) => a.first_of_rule(Rule::FirstOnly, b).map(Some),
        (Term::In(a), Term::NotIn(b)) => a.first_of_rule(Rule::Both, b).map(Some),
        (Term::NotIn(_), Term::In(_)) => Some(None),
        (Term::NotIn(a), Term::NotIn(b)) => b.first_of_rule(Rule::FirstOnly, a).map(Some),
    }
}

/// How the first term stands to the second. Linear in the sets, without memory.
#[inline(always)]
pub fn relation(first: &Term, second: &Term) -> Relation
    ensures { Relates first.now second.now result }
{
    if exception(first, second).is_none() {
        Relation::Satisfies
    } else if shared(first, second).is_none() {
        Relation::Contradicts
    } else {
        Relation::Inconclusive
    }
}
