//! What is said of one package.
//
// A word has room for the sets of most terms. Where two of those meet, nothing is allocated, and no list is read.

ghost use Rattle.std.specs.Prelude.{◌≡◌, ◌&&◌, ◌||◌, ℕ, Option, true, IfOk};
ghost use Rattle.terms.specs.Terms.{true_of, Implies};
ghost use Rattle.checker.specs.Tables.{is_always};

use std::alloc::{AllocError, Global};
use std::marker::Model;
use terms::{LowTerm, Relation, Term, relation};

/// How a term is kept.
#[derive(Drop)]
enum Kept {
    Low(LowTerm),
    /// Its set may have no word.
    Any(Term),
}

/// A term that is said of a package.
#[derive(Drop)]
pub struct Said {
    kept: Kept,
}

impl Model for Said {
    ghost use Rattle.terms.specs.declared.term.Term.{Term};
    ghost use Rattle.checker.specs.Said.{term_of};

    ghost Value = { Term };

    ghost view = { λ s. term_of s.kept };
}

/// Whether the term is true of every choice.
fn is_always(term: &Term) -> bool
    ensures { result ≡ is_always term.now }
{
    match term {
        Term::In(_) => false,
        Term::NotIn(set) => set.is_empty(),
    }
}

/// Whether the second term is true wherever the first is.
fn implies(first: &Term, second: &Term) -> bool
    ensures { result ≡ true → Implies first.now second.now }
{
    relation(first, second) == Relation::Satisfies
}

impl Said {
    /// What a term says.
    #[inline(always)]
    pub(crate) fn of(alloc: Global, term: &Term) -> Result<Said, AllocError>
        ensures { IfOk result (λ said. said ≡ term.now) }
    {
        let kept = match LowTerm::of(term) {
            Some(low) => Kept::Low(low),
            None => Kept::Any(term.copy(alloc)?),
        };
        Ok(Said { kept })
    }

    /// As a term.
    #[inline(always)]
    pub(crate) fn term(&self, alloc: Global) -> Result<Term, AllocError>
        ensures { IfOk result (λ term. term ≡ self.now) }
    {
        match &self.kept {
            Kept::Low(low) => Ok(low.term(alloc)),
            Kept::Any(term) => term.copy(alloc),
        }
    }

    /// What is true where both are. Linear in sets that have no word.
    #[inline(always)]
    pub(crate) fn and(&self, alloc: Global, term: &Term) -> Result<Said, AllocError>
        ensures { IfOk result (λ said. (choice : Option ℕ) → true_of said choice ≡ (true_of self.now choice && true_of term.now choice)) }
    {
        let kept = match (&self.kept, LowTerm::of(term)) {
            (Kept::Low(own), Some(other)) => Kept::Low(own.and(&other)),
            (Kept::Low(own), None) => Kept::Any(own.term(alloc).and(alloc, term)?),
            (Kept::Any(own), _) => Kept::Any(own.and(alloc, term)?),
        };
        Ok(Said { kept })
    }

    /// What is true where one of the two is. Linear in sets that have no word.
    #[inline(always)]
    pub(crate) fn or(&self, alloc: Global, term: &Term) -> Result<Said, AllocError>
        ensures { IfOk result (λ said. (choice : Option ℕ) → true_of said choice ≡ (true_of self.now choice || true_of term.now choice)) }
    {
        let kept = match (&self.kept, LowTerm::of(term)) {
            (Kept::Low(own), Some(other)) => Kept::Low(own.or(&other)),
            (Kept::Low(own), None) => Kept::Any(own.term(alloc).or(alloc, term)?),
            (Kept::Any(own), _) => Kept::Any(own.or(alloc, term)?),
        };
        Ok(Said { kept })
    }

    /// Whether a term is true wherever this is. Linear in sets that have no word.
    #[inline(always)]
    pub(crate) fn implies(&self, alloc: Global, term: &Term) -> bool
        ensures { result ≡ true → Implies self.now term.now }
    {
        match (&self.kept, LowTerm::of(term)) {
            (Kept::Low(own), Some(other)) => own.implies(&other),
            (Kept::Low(own), None) => implies(&own.term(alloc), term),
            (Kept::Any(own), _) => implies(own, term),
        }
    }

    /// Whether it is true of every choice.
    #[inline(always)]
    pub(crate) fn is_always(&self) -> bool
        ensures exact { result ≡ is_always self.now }
        ensures holds { result ≡ true → (choice : Option ℕ) → true_of self.now choice ≡ true }
    {
        match &self.kept {
            Kept::Low(low) => low.is_always(),
            Kept::Any(term) => is_always(term),
        }
    }
}
