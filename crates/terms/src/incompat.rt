//! Incompatibilities: terms that may not all hold.

ghost use Rattle.std.specs.Prelude.{◌≡◌, ◌≢◌, ◌<◌, ◌↔◌, ◌++◌, IfOk, IfSome, IsSome, IsTrue, OnOk};
ghost use Rattle.std.specs.Bool.{OnTrue};
ghost use Rattle.std.specs.Option.{option_copied};
ghost use Rattle.terms.specs.Incompats.{has_term, pair_of, term_on, unless_always, AreTerms, IsIncompat};
ghost use Rattle.terms.specs.Terms.{CanBeFalse, IsTerm};

use crate::term::Term;
use crate::term_list::TermList;
use std::alloc::{AllocError, Global};
use std::marker::Model;

/// The number of a package; 0 is the root, which stands for the request.
pub type Pkg = u32;

/// Terms by package that may not all hold: at most one a package, in order of packages, none of
/// which always holds (doc/solver.md, "Incompatibility").
#[derive(Drop)]
pub struct Incompat {
    terms: TermList,
}

impl Model for Incompat {
    ghost use Rattle.std.specs.Prelude.{List, ℕ};
    ghost use Rattle.terms.specs.Incompats.{AreTerms, IsIncompat};
    ghost use Rattle.terms.specs.TermLists.{listed};
    ghost use Rattle.terms.specs.declared.term.Term.{Term};

    ghost Value = { List (ℕ × Term) };

    ghost view = { λ i. listed i.terms };

    ghost invariant = { λ i. IsIncompat (listed i.terms) × AreTerms (listed i.terms) };
}

impl Incompat {
    /// The incompatibility of these terms, none where they are out of order, two are on one
    /// package, or one always holds.
    pub fn new(terms: Vec<(Pkg, Term)>) -> Option<Incompat>
        ensures exactly { IsSome result ↔ IsIncompat terms.items }
        ensures same { IfSome result (λ incompat. incompat ≡ terms.items) }
        ensures ascending { IfSome result AreTerms }
    {
        if is_incompat(&terms) {
            Some(Incompat {
                terms: TermList::of(terms),
            })
        } else {
            None
        }
    }

    /// The incompatibility of a term, which is left out where it always holds.
    pub fn single(alloc: Global, pkg: Pkg, term: Term) -> Result<Incompat, AllocError>
        ensures { IfOk result (λ incompat. incompat ≡ unless_always pkg term) }
    {
        let mut terms = Vec::with_capacity(alloc, 1)?;
        push_unless_always(&mut terms, pkg, term)?;
        Ok(Incompat {
            terms: TermList::Others(terms),
        })
    }

    /// The incompatibility of terms on two packages. A term that always holds is left out.
    pub fn pair(
        alloc: Global,
        pkg: Pkg,
        term: Term,
        other_pkg: Pkg,
        other: Term,
    ) -> Result<Incompat, AllocError>
        requires { pkg ≢ other_pkg }
        ensures { IfOk result (λ incompat. incompat ≡ pair_of pkg term other_pkg other) }
    {
        if pkg < other_pkg {
            Incompat::in_order(alloc, pkg, term, other_pkg, other)
        } else {
            Incompat::in_order(alloc, other_pkg, other, pkg, term)
        }
    }

    /// The terms, in order of packages.
    pub fn terms(&self) -> &[(Pkg, Term)]
        ensures same { result.now ≡ self.now }
        ensures lawful { IsIncompat self.now }
        ensures ascending { AreTerms self.now }
    {
        self.terms.as_slice()
    }

    /// The term on a package, where there is one.
    pub fn term_on(&self, pkg: Pkg) -> Option<&Term>
        ensures { option_copied result ≡ term_on self.now pkg }
    {
        find_term(self.terms.as_slice(), pkg)
    }

    /// Whether there is a term on a package.
    pub fn has_term(&self, pkg: Pkg) -> bool
        ensures { result ≡ has_term self.now pkg }
    {
        self.term_on(pkg).is_some()
    }

    /// Whether both have the same terms, which is to say the same of all choices.
    pub fn is_same(&self, other: &Incompat) -> bool
        ensures { IsTrue result ↔ (self.now ≡ other.now) }
    {
        are_same(self.terms.as_slice(), other.terms.as_slice())
    }

    /// An equal incompatibility.
    pub fn copy(&self, alloc: Global) -> Result<Incompat, AllocError>
        ensures { IfOk result (λ copy. copy ≡ self.now) }
    {
        Ok(Incompat {
            terms: self.terms.copy(alloc)?,
        })
    }
}

impl Incompat {
    /// The terms on two packages in order, without those that always hold.
    fn in_order(
        alloc: Global,
        low: Pkg,
        first: Term,
        high: Pkg,
        second: Term,
    ) -> Result<Incompat, AllocError>
        requires { low < high }
        ensures { IfOk result (λ incompat.
            incompat ≡ unless_always low first ++ unless_always high second) }
    {
        if can_be_false(&first) && can_be_false(&second) {
            return Ok(Incompat {
                terms: TermList::Two([(low, first), (high, second)]),
            });
        }
        let mut terms = Vec::with_capacity(alloc, 1)?;
        push_unless_always(&mut terms, low, first)?;
        push_unless_always(&mut terms, high, second)?;
        Ok(Incompat {
            terms: TermList::Others(terms),
        })
    }

    pub(crate) fn of_terms(terms: Vec<(Pkg, Term)>) -> Incompat
        requires lawful { IsIncompat terms.items }
        requires ascending { AreTerms terms.items }
        ensures { result ≡ terms.items }
    {
        Incompat {
            terms: TermList::of(terms),
        }
    }
}

/// Whether some choice makes the term false.
pub(crate) fn can_be_false(term: &Term) -> bool
    ensures exactly { IsTrue result ↔ CanBeFalse term.now }
    ensures ascending { IsTerm term.now }
{
    term.ascends();
    match term {
        Term::In(_) => true,
        Term::NotIn(set) => !set.is_empty(),
    }
}

/// Whether the terms stand in order of packages, one a package, and none always holds.
fn is_incompat(terms: &[(Pkg, Term)]) -> bool
    ensures exactly { IsTrue result ↔ IsIncompat terms.now }
    ensures ascending { OnTrue result (AreTerms terms.now) }
{
    // the least package that the next term may be on
    let mut low = 0;
    for (pkg, term) in terms {
        if u64::from(*pkg) < low || !can_be_false(term) {
            return false;
        }
        low = u64::from(*pkg) + 1;
    }
    true
}

/// Puts a term at the end, unless it always holds.
fn push_unless_always(terms: &mut Vec<(Pkg, Term)>, pkg: Pkg, term: Term) -> Result<(), AllocError>
    ensures items { OnOk result (terms.new.items ≡ terms.old.items ++ unless_always pkg term) }
    ensures ascending { OnOk result (IsTerm term) }
{
    if can_be_false(&term) {
        terms.push((pkg, term))?;
    }
    Ok(())
}

fn find_term(terms: &[(Pkg, Term)], pkg: Pkg) -> Option<&Term>
    ensures { option_copied result ≡ term_on terms.now pkg }
{
    for (other, term) in terms {
        if *other == pkg {
            return Some(term);
        }
    }
    None
}

fn are_same(first: &[(Pkg, Term)], second: &[(Pkg, Term)]) -> bool
    ensures { IsTrue result ↔ (first.now ≡ second.now) }
{
    let mut left = first;
    let mut right = second;
    'compare: while let ([a, rest @ ..], [b, others @ ..]) = (left, right) {
        if a.0 != b.0 || !a.1.is_same(&b.1) {
            return false;
        }
        left = rest;
        right = others;
    }
    left.is_empty() && right.is_empty()
}
