//! Derivations by name, turned into those by number that a registry can check.
ghost use Rattle.std.specs.Prelude.{◌≡◌, Some, option_map, IfOk};
ghost use Rattle.terms.specs.Incompats.{IsIncompat};
ghost use Rattle.by_name.specs.Named.{number_in, numbered_cause, numbered_causes, numbered_line, numbered_premise, numbered_terms, FindsOne, IsNumbered};

use crate::derivation::{NamedCause, NamedDerivation, NamedLine, NamedPremise};
use crate::naming::copied;
use derivations::{Cause, Derivation, Line, Premise, ROOT};
use registry::Registry;
use std::alloc::{AllocError, Global};
use terms::{Incompat, Pkg, Term};
use versions::Name;

/// The number of what is named.
fn number_in(registry: &Registry, name: &Option<Name>) -> Option<Pkg>
    ensures { result ≡ number_in registry.now.packages name.now }
{
    match name {
        None => Some(ROOT),
        Some(name) => registry.number(name),
    }
}

/// Terms by number, if each name has one.
fn numbered_terms(
    alloc: Global,
    registry: &Registry,
    terms: &[(Option<Name>, Term)],
) -> Result<Option<Vec<(Pkg, Term)>>, AllocError>
    ensures { IfOk result (λ found. option_map (λ v. v.items) found ≡ numbered_terms registry.now.packages terms.now) }
{
    let mut numbered = Vec::with_capacity(alloc, terms.len())?;
    for entry in terms {
        let Some(pkg) = number_in(registry, &entry.0) else {
            drop(numbered);
            return Ok(None);
        };
        let term = match entry.1.copy(alloc) {
            Ok(term) => term,
            Err(error) => {
                drop(numbered);
                return Err(error);
            }
        };
        numbered.push_reserved((pkg, term));
    }
    Ok(Some(numbered))
}

/// A conclusion by number, if it is an incompatibility of packages that are numbered.
fn numbered_conclusion(
    alloc: Global,
    registry: &Registry,
    terms: &[(Option<Name>, Term)],
) -> Result<Option<Incompat>, AllocError>
    ensures { IfOk result (FindsOne (λ numbered. (numbered_terms registry.now.packages terms.now ≡ Some numbered) × IsIncompat numbered)) }
{
    match numbered_terms(alloc, registry, terms)? {
        None => Ok(None),
        Some(numbered) => Ok(Incompat::new(numbered)),
    }
}

fn numbered_premise(
    alloc: Global,
    registry: &Registry,
    premise: &NamedPremise,
) -> Result<Option<Premise>, AllocError>
    ensures { IfOk result (λ found. found ≡ numbered_premise registry.now.packages premise.now) }
{
    let Some(package) = registry.number(&premise.package) else {
        return Ok(None);
    };
    let Some(target) = number_in(registry, &premise.target) else {
        return Ok(None);
    };
    let (versions, need, within) = copied(
        alloc,
        &premise.versions,
        &premise.need,
        &premise.within,
    )?;
    Ok(Some(Premise {
        package,
        versions,
        target,
        need,
        within,
    }))
}

/// A cause by number, if each name of it has one.
fn numbered_cause(
    alloc: Global,
    registry: &Registry,
    cause: &NamedCause,
) -> Result<Option<Cause>, AllocError>
    ensures { IfOk result (λ found. found ≡ numbered_cause registry.now.packages cause.now) }
{
    match cause {
        NamedCause::Line(number) => Ok(Some(Cause::Line(*number))),
        NamedCause::Premise(premise) => match numbered_premise(alloc, registry, premise)? {
            None => Ok(None),
            Some(premise) => Ok(Some(Cause::Premise(premise))),
        },
        NamedCause::Need(index) => Ok(Some(Cause::Need(*index))),
        NamedCause::NotAllowed(name, versions) => match registry.number(name) {
            None => Ok(None),
            Some(pkg) => Ok(Some(Cause::NotAllowed(pkg, versions.copy(alloc)?))),
        },
        NamedCause::Root => Ok(Some(Cause::Root)),
    }
}

/// Two causes by number, if each name of them has one.
fn numbered_causes(
    alloc: Global,
    registry: &Registry,
    causes: &(NamedCause, NamedCause),
) -> Result<Option<(Cause, Cause)>, AllocError>
    ensures { IfOk result (λ found. found ≡ numbered_causes registry.now.packages causes.now) }
{
    let Some(one) = numbered_cause(alloc, registry, &causes.0)? else {
        return Ok(None);
    };
    match numbered_cause(alloc, registry, &causes.1) {
        Ok(Some(two)) => Ok(Some((one, two))),
        Ok(None) => {
            drop(one);
            Ok(None)
        }
        Err(error) => {
            drop(one);
            Err(error)
        }
    }
}

fn numbered_line(
    alloc: Global,
    registry: &Registry,
    line: &NamedLine,
) -> Result<Option<Line>, AllocError>
    ensures { IfOk result (FindsOne (λ numbered. (numbered_line registry.now.packages line.now ≡ Some numbered) × IsIncompat numbered.conclusion)) }
{
    let Some(pivot) = number_in(registry, &line.pivot) else {
        return Ok(None);
    };
    let Some(conclusion) = numbered_conclusion(alloc, registry, line.conclusion.terms())? else {
        return Ok(None);
    };
    match numbered_causes(alloc, registry, &line.causes) {
        Ok(Some(causes)) => Ok(Some(Line {
            conclusion,
            causes,
            pivot,
        })),
        Ok(None) => {
            drop(conclusion);
            Ok(None)
        }
        Err(error) => {
            drop(conclusion);
            Err(error)
        }
    }
}

/// The lines that names stand for in a registry, under the same conditions as [`numbered`].
pub fn numbered_lines(
    alloc: Global,
    registry: &Registry,
    lines: &[NamedLine],
) -> Result<Option<Vec<Line>>, AllocError>
    ensures { IfOk result (λ found. FindsOne (IsNumbered registry.now.packages lines.now) (option_map (λ v. v.items) found)) }
{
    let mut numbered = Vec::with_capacity(alloc, lines.len())?;
    for line in lines {
        let found = match numbered_line(alloc, registry, line) {
            Ok(found) => found,
            Err(error) => {
                drop(numbered);
                return Err(error);
            }
        };
        let Some(found) = found else {
            drop(numbered);
            return Ok(None);
        };
        numbered.push_reserved(found);
    }
    Ok(Some(numbered))
}

/// The derivation that names stand for in a registry: none where a name has no number there, or a
/// conclusion is no incompatibility. Whether it follows is for the checker to say.
pub fn numbered(
    alloc: Global,
    registry: &Registry,
    derivation: &NamedDerivation,
) -> Result<Option<Derivation>, AllocError>
    ensures { IfOk result (FindsOne (IsNumbered registry.now.packages derivation.now)) }
{
    match numbered_lines(alloc, registry, derivation.lines())? {
        None => Ok(None),
        Some(lines) => Ok(Some(Derivation::new(lines))),
    }
}
