//! Terms by package, each found at once.

ghost use Rattle.std.specs.Prelude.{◌≡◌, ◌||◌, ◌∷◌, ◌++◌, ℕ, Option, [], false, true, slice_set, IfNone, IfOk, IfSome, OnOk};
ghost use Rattle.std.specs.Option.{option_copied};
ghost use Rattle.terms.specs.Fronts.{true_where};
ghost use Rattle.terms.specs.Terms.{true_of};
ghost use Rattle.terms.specs.Incompats.{has_term, term_on};
ghost use Rattle.checker.specs.declared.table.Stop.TheVariants.{NoMemory};
ghost use Rattle.checker.specs.Tables.{AreAnded, AreOnce, ArePlaced, Concludes, IsAnded, IsAt, IsOred, IsStep, SaysNothing, SaysSomething, is_always};

use crate::said::Said;
use std::alloc::{AllocError, AllocFailed, Global};
use std::marker::Model;
use terms::{Pkg, Term, VSet};

/// Why no conclusion is made.
#[derive(Clone, Copy, Debug, PartialEq, Eq)]
pub enum Stop {
    NoMemory,
    /// A package that the table has no place for.
    Unknown,
}

impl From<AllocError> for Stop {
    ghost from_gives = { λ _ stop. stop ≡ NoMemory };

    fn from(_error: AllocError) -> Stop {
        Stop::NoMemory
    }
}

impl<T: Drop> From<AllocFailed<T>> for Stop {
    ghost from_gives = { λ _ stop. stop ≡ NoMemory };

    fn from(_error: AllocFailed<T>) -> Stop {
        Stop::NoMemory
    }
}

/// Terms by package, at most one a package, in any order: a sparse set (Briggs and Torczon, "An efficient
/// representation for sparse sets", 1993), which is emptied at once and found in without a search.
#[derive(Drop)]
pub struct Table {
    terms: Vec<(Pkg, Said)>,
    /// By package the place of its term. Where it has none, the number there says nothing.
    places: Vec<usize>,
}

impl Model for Table {
    ghost use Rattle.std.specs.Prelude.{List, ℕ};
    ghost use Rattle.terms.specs.declared.term.Term.{Term};
    ghost use Rattle.checker.specs.Tables.{ArePlaced};

    ghost Value = { List (ℕ × Term) };

    ghost view = { λ t. t.terms.items };

    ghost invariant = { λ t. ArePlaced 0 t.places.items t.terms.items };
}

/// The term on a package, if there is one.
pub fn term_on(terms: &[(Pkg, Term)], pkg: Pkg) -> Option<&Term>
    ensures { option_copied result ≡ term_on terms.now pkg }
{
    for (other, term) in terms {
        if *other == pkg {
            return Some(term);
        }
    }
    None
}

/// The place of the term on a package, if there is one.
fn place_of(terms: &[(Pkg, Said)], places: &[usize], pkg: Pkg) -> Option<usize>
    requires { ArePlaced 0 places.now terms.now }
    ensures there { IfSome result (IsAt terms.now pkg) }
    ensures none { IfNone result (has_term terms.now pkg ≡ false) }
{
    match places.get(pkg as usize) {
        None => None,
        Some(place) => match terms.get(*place) {
            Some(entry) if entry.0 == pkg => Some(*place),
            _ => None,
        },
    }
}

/// The term that is true where one of both is, which is everywhere where there is no other.
fn either(alloc: Global, said: &Said, other: Option<&Term>) -> Result<Said, AllocError>
    ensures { IfOk result (λ joined. (choice : Option ℕ) → true_of joined choice ≡ (true_of said.now choice || true_where (option_copied other.entry) choice)) }
{
    match other {
        None => Said::of(alloc, &Term::NotIn(VSet::new(alloc))),
        Some(other) => said.or(alloc, other),
    }
}

/// What a chain shows: terms that may not all hold, at most one a package, in any order.
#[derive(Drop)]
pub struct Conclusion {
    terms: Vec<(Pkg, Term)>,
}

impl Model for Conclusion {
    ghost use Rattle.std.specs.Prelude.{List, ℕ};
    ghost use Rattle.terms.specs.declared.term.Term.{Term};
    ghost use Rattle.checker.specs.Tables.{AreOnce};

    ghost Value = { List (ℕ × Term) };

    ghost view = { λ c. c.terms.items };

    ghost invariant = { λ c. AreOnce c.terms.items };
}

impl Conclusion {
    /// What may not all hold, in the order in which packages came into the chain.
    pub fn terms(&self) -> &[(Pkg, Term)]
        ensures same { result.now ≡ self.now }
        ensures once { AreOnce self.now }
    {
        self.terms.as_slice()
    }
}

impl Table {
    /// The empty table, for packages below this number.
    pub fn new(alloc: Global, packages: usize) -> Result<Table, AllocError>
        ensures { IfOk result (λ table. table ≡ []) }
    {
        Ok(Table {
            terms: Vec::new(alloc),
            places: vec![in alloc; 0; packages]?,
        })
    }

    /// Leaves no term.
    fn clear(&mut self)
        ensures { self.new ≡ [] }
    {
        self.terms.clear();
    }

    /// Puts a term on a package that has none.
    fn push(&mut self, pkg: Pkg, said: Said) -> Result<(), Stop>
        requires { has_term self.old pkg ≡ false }
        ensures { OnOk result (self.new ≡ self.old ++ (pkg, said) ∷ []) }
    {
        if pkg as usize >= self.places.len() {
            return Err(Stop::Unknown);
        }
        let place = self.terms.len();
        self.terms.push((pkg, said))?;
        self.places[pkg as usize] = place;
        Ok(())
    }

    /// Puts another term in the place of one on a package.
    fn replace(&mut self, place: usize, pkg: Pkg, said: Said)
        requires { IsAt self.old pkg place }
        ensures { self.new ≡ slice_set self.old place (pkg, said) }
    {
        self.terms[place] = (pkg, said);
    }

    /// Joins a term to what is said of a package: both are to be true.
    fn and(&mut self, alloc: Global, pkg: Pkg, term: &Term) -> Result<(), Stop>
        ensures { OnOk result (IsAnded self.old self.new pkg term.now) }
    {
        match place_of(&self.terms, &self.places, pkg) {
            None => self.push(pkg, Said::of(alloc, term)?),
            Some(place) => {
                let said = &self.terms[place].1;
                // The case of most terms of a cause.
                if said.implies(alloc, term) {
                    return Ok(());
                }
                let joined = said.and(alloc, term)?;
                self.replace(place, pkg, joined);
                Ok(())
            }
        }
    }

    /// Joins a term to what is said of a package, unless nothing is: one of both is to be true, which always is
    /// where there is no other. Answers whether it did.
    fn or(&mut self, alloc: Global, pkg: Pkg, other: Option<&Term>) -> Result<bool, AllocError>
        ensures joined { IfOk result (λ done. done ≡ true → (has_term self.old pkg ≡ true) × IsOred self.old self.new pkg (option_copied other.entry)) }
        ensures said { IfOk result (λ done. done ≡ true → SaysSomething self.old pkg) }
        ensures unchanged { IfOk result (λ done. done ≡ false → self.new ≡ self.old) }
        ensures unsaid { IfOk result (λ done. done ≡ false → SaysNothing self.old pkg) }
    {
        let Some(place) = place_of(&self.terms, &self.places, pkg) else {
            return Ok(false);
        };
        if self.terms[place].1.is_always() {
            return Ok(false);
        }
        let joined = either(alloc, &self.terms[place].1, other)?;
        self.replace(place, pkg, joined);
        Ok(true)
    }

    /// Joins terms to what is said of their packages, but of the pivot.
    fn and_others(&mut self, alloc: Global, cause: &[(Pkg, Term)], pivot: Pkg) -> Result<(), Stop>
        requires { AreOnce cause.now }
        ensures { OnOk result (AreAnded self.old self.new cause.now pivot) }
    {
        for (pkg, term) in cause {
            if *pkg != pivot {
                self.and(alloc, *pkg, term)?;
            }
        }
        Ok(())
    }

    /// Puts the terms of an incompatibility in the place of what is there.
    pub fn start(&mut self, alloc: Global, terms: &[(Pkg, Term)]) -> Result<(), Stop>
        requires { AreOnce terms.now }
        ensures { OnOk result (self.new ≡ terms.now) }
    {
        self.clear();
        for (pkg, term) in terms {
            self.push(*pkg, Said::of(alloc, term)?)?;
        }
        Ok(())
    }

    /// Resolves what is in the table with a cause on a pivot (doc/solver.md, "Conflict Resolution"), unless
    /// nothing is said of the pivot. Where it fails, what is left in the table says nothing.
    pub fn resolve(&mut self, alloc: Global, cause: &[(Pkg, Term)], pivot: Pkg) -> Result<(), Stop>
        requires { AreOnce cause.now }
        ensures { OnOk result (IsStep self.old self.new cause.now pivot) }
    {
        if self.or(alloc, pivot, term_on(cause, pivot))? {
            self.and_others(alloc, cause, pivot)?;
        }
        Ok(())
    }

    /// What is in the table, without terms that always hold.
    pub fn conclusion(&self, alloc: Global) -> Result<Conclusion, AllocError>
        ensures { IfOk result (Concludes self.now) }
    {
        let terms = self.terms.as_slice();
        let mut kept = Vec::with_capacity(alloc, terms.len())?;
        for (pkg, said) in terms {
            if !said.is_always() {
                kept.push((*pkg, said.term(alloc)?))?;
            }
        }
        Ok(Conclusion { terms: kept })
    }
}
