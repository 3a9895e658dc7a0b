//! Terms whose sets a word has room for.

ghost use Rattle.std.specs.Prelude.{◌≡◌, ◌↔◌, ◌≤◌, ◌&&◌, ◌||◌, ℕ, Option, None, Some, [], not, IfNone, IfSome, IsTrue};
ghost use Rattle.terms.specs.Terms.{true_of, Implies};
ghost use Rattle.terms.specs.declared.term.Term.TheVariants.{NotIn};

use crate::low::LowSet;
use crate::term::Term;
use std::alloc::Global;
use std::marker::Model;

/// A term whose set has ordinals below 64 alone. It takes no memory.
#[derive(Drop)]
pub struct LowTerm {
    /// Whether the choice lies in the set.
    is_in: bool,
    set: LowSet,
}

impl Model for LowTerm {
    ghost use Rattle.std.specs.Prelude.{if◌then◌else◌};
    ghost use Rattle.terms.specs.declared.term.Term.{Term};
    ghost use Rattle.terms.specs.declared.term.Term.TheVariants.{In, NotIn};

    ghost Value = { Term };

    ghost view = { λ t. if t.is_in then In t.set else NotIn t.set };
}

impl LowTerm {
    /// The term, if a word has room for its set: else it says of an ordinal from 64 on what it doesn't say of none.
    #[inline(always)]
    pub fn of(term: &Term) -> Option<LowTerm>
        ensures some { IfSome result (λ low. low ≡ term.now) }
        ensures none { IfNone result ((k : ℕ) × (true_of term.now (Some k) ≡ not (true_of term.now None)) × (64 ≤ k)) }
    {
        let (is_in, set) = match term {
            Term::In(set) => (true, set),
            Term::NotIn(set) => (false, set),
        };
        match set.as_low() {
            None => None,
            Some(set) => Some(LowTerm { is_in, set }),
        }
    }

    /// The term that is true where both are.
    pub fn and(&self, other: &LowTerm) -> LowTerm
        ensures { (choice : Option ℕ) → true_of result choice ≡ (true_of self.now choice && true_of other.now choice) }
    {
        let (is_in, set) = match (self.is_in, other.is_in) {
            (true, true) => (true, self.set.both(&other.set)),
            (true, false) => (true, self.set.first_only(&other.set)),
            (false, true) => (true, other.set.first_only(&self.set)),
            (false, false) => (false, self.set.either(&other.set)),
        };
        LowTerm { is_in, set }
    }

    /// The term that is true where one of the two is.
    pub fn or(&self, other: &LowTerm) -> LowTerm
        ensures { (choice : Option ℕ) → true_of result choice ≡ (true_of self.now choice || true_of other.now choice) }
    {
        let (is_in, set) = match (self.is_in, other.is_in) {
            (true, true) => (true, self.set.either(&other.set)),
            (true, false) => (false, other.set.first_only(&self.set)),
            (false, true) => (false, self.set.first_only(&other.set)),
            (false, false) => (false, self.set.both(&other.set)),
        };
        LowTerm { is_in, set }
    }

    /// Whether the other term is true wherever this one is.
    pub fn implies(&self, other: &LowTerm) -> bool
        ensures { IsTrue result ↔ Implies self.now other.now }
    {
        match (self.is_in, other.is_in) {
            (true, true) => self.set.first_only(&other.set).is_empty(),
            (true, false) => self.set.both(&other.set).is_empty(),
            (false, true) => false,
            (false, false) => other.set.first_only(&self.set).is_empty(),
        }
    }

    /// Whether the term is true of each choice.
    pub fn is_always(&self) -> bool
        ensures { IsTrue result ↔ (self.now ≡ NotIn []) }
    {
        !self.is_in && self.set.is_empty()
    }

    /// An equal term, as those of any sets are kept.
    pub fn term(&self, alloc: Global) -> Term
        ensures { result ≡ self.now }
    {
        let set = self.set.set(alloc);
        if self.is_in {
            Term::In(set)
        } else {
            Term::NotIn(set)
        }
    }
}
