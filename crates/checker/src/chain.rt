//! What follows from lines and from what earlier chains concluded.

ghost use Rattle.std.specs.Prelude.{◌≡◌, [], IfOk, IfSome, IsSomeAnd, OnOk};
ghost use Rattle.std.specs.Option.{option_copied};
ghost use Rattle.registry.specs.Registry.{Packages};
ghost use Rattle.registry.specs.Requests.{Wanted};
ghost use Rattle.derivations.specs.Derivations.{last_conclusion};
ghost use Rattle.derivations.specs.Learning.{AllStand};
ghost use Rattle.checker.specs.Places.{terms_at};
ghost use Rattle.checker.specs.Shown.{AreShown, IsShown};
ghost use Rattle.checker.specs.Tables.{AreOnce, Concludes, IsStep};

use crate::table::{Conclusion, Stop, Table};
use derivations::{CausedIncompatibility, Learnt};
use std::alloc::{AllocError, Global};
use terms::{Pkg, Term};

/// Where an incompatibility that is shown stands.
#[derive(Clone, Copy)]
pub enum Place {
    /// Among the lines, counted from 0.
    Line(usize),
    /// Among the conclusions, counted from 0.
    Conclusion(usize),
}

/// The terms at a place, if it is one.
pub fn terms_at<'a>(
    known: &'a [CausedIncompatibility],
    made: &'a [Conclusion],
    place: Place,
) -> Option<&'a [(Pkg, Term)]>
    ensures exact { option_copied result ≡ terms_at known.now made.now place }
    ensures once { IfSome result (λ terms. AreOnce terms.now) }
    ensures shown { (packages : Packages) (wanted : Wanted) → AreShown packages wanted known.now made.now → IfSome result (λ terms. IsShown packages wanted terms.now) }
{
    match place {
        Place::Line(at) => match known.get(at) {
            None => None,
            Some(line) => Some(line.conclusion.terms()),
        },
        Place::Conclusion(at) => match made.get(at) {
            None => None,
            Some(conclusion) => Some(conclusion.terms()),
        },
    }
}

/// What follows so far.
#[derive(Drop)]
pub struct Chain {
    /// By package, since it is what contracts speak of.
    pub table: Table,
}

impl Chain {
    /// A chain in which nothing is shown yet, for packages below this number, of which the root is one. It takes eight
    /// bytes for each.
    pub fn new(alloc: Global, packages: usize) -> Result<Chain, AllocError>
        ensures { IfOk result (λ chain. chain.table ≡ []) }
    {
        Ok(Chain {
            table: Table::new(alloc, packages)?,
        })
    }

    /// Begins anew with what is shown at a place. An error is [`Stop::Unknown`] where it is none, or has a package that
    /// the table has no place for.
    pub fn start(
        &mut self,
        alloc: Global,
        known: &[CausedIncompatibility],
        made: &[Conclusion],
        from: Place,
    ) -> Result<(), Stop>
        ensures exact { OnOk result (terms_at known.now made.now from ≡ Some self.new.table) }
        ensures unknown { terms_at known.now made.now from ≡ None → result ≡ Err Stop.Unknown }
        ensures shown { (packages : Packages) (wanted : Wanted) → AreShown packages wanted known.now made.now → OnOk result (IsShown packages wanted self.new.table) }
    {
        match terms_at(known, made, from) {
            None => Err(Stop::Unknown),
            Some(terms) => self.table.start(alloc, terms),
        }
    }

    /// Resolves what follows so far with what is shown at a place, on a pivot (doc/solver.md, "Conflict Resolution"),
    /// unless nothing is said of the pivot. Errors are those of [`Chain::start`]. After one, the chain is to begin anew.
    pub fn resolve(
        &mut self,
        alloc: Global,
        known: &[CausedIncompatibility],
        made: &[Conclusion],
        with: Place,
        pivot: Pkg,
    ) -> Result<(), Stop>
        ensures unknown { terms_at known.now made.now with ≡ None → result ≡ Err Stop.Unknown }
        ensures step { OnOk result (IsSomeAnd (terms_at known.now made.now with) (λ cause. IsStep self.old.table self.new.table cause pivot)) }
        ensures shown { (packages : Packages) (wanted : Wanted) → AreShown packages wanted known.now made.now → IsShown packages wanted self.old.table → OnOk result (IsShown packages wanted self.new.table) }
    {
        match terms_at(known, made, with) {
            None => Err(Stop::Unknown),
            Some(cause) => self.table.resolve(alloc, cause, pivot),
        }
    }

    /// What a member of a store says, which is shown where the member stands: no line of it is made. The chain is to
    /// begin anew then. Errors are those of [`Chain::start`].
    pub fn conclude_member(&mut self, alloc: Global, member: &Learnt) -> Result<Conclusion, Stop>
        ensures same { IfOk result (λ terms. last_conclusion member.now ≡ Some terms) }
        ensures shown { (packages : Packages) (wanted : Wanted) → AllStand packages member.now → IfOk result (IsShown packages wanted) }
    {
        let _lines = member.lines();
        let said = member.conclusion();
        self.table.start(alloc, said.terms())?;
        Ok(self.conclusion(alloc)?)
    }

    /// What follows, without terms that always hold.
    pub fn conclusion(&self, alloc: Global) -> Result<Conclusion, AllocError>
        ensures concludes { IfOk result (Concludes self.now.table) }
        ensures shown { (packages : Packages) (wanted : Wanted) → IsShown packages wanted self.now.table → IfOk result (IsShown packages wanted) }
    {
        self.table.conclusion(alloc)
    }
}
