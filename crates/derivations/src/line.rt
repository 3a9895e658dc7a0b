//! Lines of a derivation.

ghost use Rattle.std.specs.Prelude.{◌≡◌, ◌↔◌, ◌∷◌, [], IfErr, IfOk, IsTrue};
ghost use Rattle.std.specs.Option.{option_copied};
ghost use Rattle.terms.specs.declared.term.Term.TheVariants.{In};
ghost use Rattle.derivations.specs.Derivations.{last_conclusion, AreIncompats, IsEnd};

use crate::facts::Cause;
use std::alloc::{AllocError, Global};
use terms::{Incompat, Pkg, Term};
use versions::Refusal;

/// An incompatibility that follows from two causes on a pivot: there one of the two must hold, on
/// every other package both (doc/solver.md, "Conflict Resolution").
///
/// `Package` and `PackageOrRoot` are those of [`Premise`](crate::Premise), and `Conclusion` holds the
/// terms: an incompatibility, where no other type is given.
#[derive(Drop)]
pub struct Line<Package = Pkg, PackageOrRoot = Pkg, Conclusion = Incompat> {
    pub conclusion: Conclusion,
    pub causes: (Cause<Package, PackageOrRoot>, Cause<Package, PackageOrRoot>),
    pub pivot: PackageOrRoot,
}

impl Line {
    /// An equal line. The only error is [`Refusal::NoMemory`].
    pub fn copy(&self, alloc: Global) -> Result<Line, Refusal>
        ensures same { IfOk result (λ line. line ≡ self.now) }
        ensures only { IfErr result (λ e. e ≡ Refusal.NoMemory) }
    {
        Ok(self.cloned(alloc)?)
    }

    /// As [`Line::copy`].
    fn cloned(&self, alloc: Global) -> Result<Line, AllocError>
        ensures { IfOk result (λ line. line ≡ self.now) }
    {
        Ok(Line {
            conclusion: self.conclusion.copy(alloc)?,
            causes: (self.causes.0.copy(alloc)?, self.causes.1.copy(alloc)?),
            pivot: self.pivot,
        })
    }
}

/// Equal lines.
pub fn copied(alloc: Global, lines: &[Line]) -> Result<Vec<Line>, AllocError>
    ensures { IfOk result (λ copy. copy.items ≡ lines.now) }
{
    let mut copy = Vec::with_capacity(alloc, lines.len())?;
    for line in lines {
        copy.push(line.cloned(alloc)?)?;
    }
    Ok(copy)
}

/// Tells a caller that each conclusion is an incompatibility, as its type has it. What it reads decides
/// nothing.
pub fn conclusions_are_lawful(lines: &[Line])
    ensures { AreIncompats lines.now }
{
    for line in lines {
        let _terms = line.conclusion.terms();
    }
}

/// What the last line says.
pub fn last_conclusion(lines: &[Line]) -> Option<&Incompat>
    ensures { option_copied result ≡ last_conclusion lines.now }
{
    if lines.is_empty() {
        return None;
    }
    Some(&lines[lines.len() - 1].conclusion)
}

fn is_zero_alone(term: &Term) -> bool
    ensures { IsTrue result ↔ (term.now ≡ In (0 ∷ [])) }
{
    match term {
        Term::In(set) => set.has(0) && set.len() == 1,
        Term::NotIn(_) => false,
    }
}

/// Whether the only term says that the root is chosen.
pub fn is_root_alone(conclusion: &Incompat) -> bool
    ensures { IsTrue result ↔ (conclusion.now ≡ (0, In (0 ∷ [])) ∷ []) }
{
    match conclusion.terms() {
        [only] => only.0 == 0 && is_zero_alone(&only.1),
        _ => false,
    }
}

/// Whether a derivation may end with this conclusion.
pub fn is_end(conclusion: &Incompat) -> bool
    ensures { IsTrue result ↔ IsEnd conclusion.now }
{
    conclusion.terms().is_empty() || is_root_alone(conclusion)
}
