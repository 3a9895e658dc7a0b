//! Derivations of request lines, read with the requirements of their premises judged.
//!
//! Their names were judged with their shape, so what is read here is refused for a requirement alone, or for want
//! of memory.
ghost use Rattle.std.specs.Prelude.{◌≡◌, ◌++◌, IfErr, IfOk};
ghost use Rattle.std.specs.List.{list_all};
ghost use Rattle.versions.specs.Refusals.{Gives};
ghost use Rattle.versions.specs.Words.{is_requirement};
ghost use Rattle.versions.specs.declared.refusal.Refusal.TheVariants.{BadRequirement};
ghost use Rattle.wire.specs.DerivedShapes.{cause_said, causes_said, line_said, premise_said, term_said};
ghost use Rattle.wire.specs.NamedShapes.{line_requirements, premise_requirements, requirement_of, requirements_of, term_of};
ghost use Rattle.wire.specs.Requests.{checked};

use super::cause_shapes::{CauseShape, PremiseShape};
use super::line_shapes::{LineShape, Lines};
use super::term_shapes::{NameText, TermItems, TermShape};
use by_name::{NamedCause, NamedDerivation, NamedLine, NamedPremise, NamedTerms};
use std::alloc::Global;
use terms::{Term, VSet};
use versions::{Name, Need, Refusal};

/// The name of a package, or none of the request.
fn whose(alloc: Global, name: &Option<NameText<'_>>) -> Result<Option<Name>, Refusal>
    ensures same { IfOk result (λ found. found ≡ name.now) }
    ensures only { IfErr result (λ e. e ≡ Refusal.NoMemory) }
{
    match name {
        None => Ok(None),
        Some(text) => Ok(Some(text.read(alloc)?)),
    }
}

fn term_of(positive: bool, set: VSet) -> Term
    ensures { result ≡ term_of positive set }
{
    if positive {
        Term::In(set)
    } else {
        Term::NotIn(set)
    }
}

fn term_in(alloc: Global, term: &TermShape<'_>) -> Result<(Option<Name>, Term), Refusal>
    ensures same { IfOk result (λ entry. entry ≡ term_said term.now) }
    ensures only { IfErr result (λ e. e ≡ Refusal.NoMemory) }
{
    let name = whose(alloc, &term.name)?;
    let set = term.set.set(alloc)?;
    Ok((name, term_of(term.positive, set)))
}

fn terms_in(alloc: Global, items: &TermItems<'_>) -> Result<NamedTerms, Refusal>
    ensures same { IfOk result (λ terms. terms ≡ items.now) }
    ensures only { IfErr result (λ e. e ≡ Refusal.NoMemory) }
{
    let mut terms = Vec::with_capacity(alloc, items.len())?;
    for place in 0..items.len() {
        let term = term_in(alloc, &items.at(place))?;
        terms.push(term)?;
    }
    Ok(NamedTerms::new(terms))
}

fn premise_in(alloc: Global, premise: &PremiseShape<'_>) -> Result<NamedPremise, Refusal>
    ensures { Gives (λ p. p) result (checked (is_requirement premise.now.need.now) (premise_said premise.now) BadRequirement) }
{
    let need = Need::read(alloc, premise.need)?;
    let package = premise.package.read(alloc)?;
    let versions = premise.versions.set(alloc)?;
    let target = whose(alloc, &premise.target)?;
    let within = premise.within.set(alloc)?;
    Ok(NamedPremise {
        package,
        versions,
        target,
        need,
        within,
    })
}

fn cause_in(alloc: Global, cause: &CauseShape<'_>) -> Result<NamedCause, Refusal>
    ensures { Gives (λ c. c) result (checked (list_all is_requirement (requirement_of (cause_said cause.now))) (cause_said cause.now) BadRequirement) }
{
    match cause {
        CauseShape::Line(number) => Ok(NamedCause::Line(*number as usize)),
        CauseShape::Premise(premise) => {
            let read = premise_in(alloc, premise)?;
            Ok(NamedCause::Premise(read))
        }
        CauseShape::Need(index) => Ok(NamedCause::Need(*index as usize)),
        CauseShape::NotAllowed(name, versions) => {
            let name = name.read(alloc)?;
            let versions = versions.set(alloc)?;
            Ok(NamedCause::NotAllowed(name, versions))
        }
        CauseShape::Root => Ok(NamedCause::Root),
    }
}

fn causes_in(
    alloc: Global,
    causes: &(CauseShape<'_>, CauseShape<'_>),
) -> Result<(NamedCause, NamedCause), Refusal>
    ensures { Gives (λ c. c) result (checked (list_all is_requirement (requirements_of (causes_said causes.now))) (causes_said causes.now) BadRequirement) }
{
    let one = cause_in(alloc, &causes.0)?;
    let two = cause_in(alloc, &causes.1)?;
    Ok((one, two))
}

fn line_in(alloc: Global, line: &LineShape<'_>) -> Result<NamedLine, Refusal>
    ensures { Gives (λ l. l) result (checked (list_all is_requirement (line_requirements (line_said line.now))) (line_said line.now) BadRequirement) }
{
    let pivot = whose(alloc, &line.pivot)?;
    let conclusion = terms_in(alloc, &line.conclusion)?;
    Ok(NamedLine {
        conclusion,
        causes: causes_in(alloc, &line.causes)?,
        pivot,
    })
}

/// The derivation that these lines are. A premise whose requirement is none is [`Refusal::BadRequirement`].
pub fn derivation_in(alloc: Global, lines: &Lines<'_>) -> Result<NamedDerivation, Refusal>
    ensures { Gives (λ d. d) result (checked (list_all is_requirement (premise_requirements lines.now)) lines.now BadRequirement) }
{
    let mut read = Vec::with_capacity(alloc, lines.len())?;
    for place in 0..lines.len() {
        let line = line_in(alloc, &lines.at(place))?;
        read.push(line)?;
    }
    Ok(NamedDerivation::new(read))
}
