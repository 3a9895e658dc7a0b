//! Derivations by number, turned into those by name that lines carry.
ghost use Rattle.std.specs.Prelude.{◌≡◌, Some, IfOk, IsSome};
ghost use Rattle.registry.specs.Registry.{number_of, package_at};
ghost use Rattle.terms.specs.Incompats.{IsIncompat};
ghost use Rattle.by_name.specs.Named.{number_in, numbered_cause, numbered_line, numbered_premise, numbered_terms, AllHaveNames, CauseHasNames, HasName, HaveNames, IsNumbered, LineHasNames};

use crate::derivation::{NamedCause, NamedDerivation, NamedLine, NamedPremise, NamedTerms};
use derivations::{Cause, Derivation, Line, Premise, ROOT};
use registry::{Registry, names_have_their_numbers};
use std::alloc::{AllocError, Global};
use terms::{Pkg, Term, VSet};
use versions::{Name, Need};

// What was made so far is dropped by a call where memory is refused. Else what dropping it does would stand in the proof
// of each way out of each function.

/// The name of a package.
fn package_name(registry: &Registry, pkg: Pkg) -> Result<Name, AllocError>
    requires { IsSome (package_at registry.now.packages pkg) }
    ensures { IfOk result (λ name. number_of registry.now.packages name ≡ Some pkg) }
{
    names_have_their_numbers();
    let Some(name) = registry.name_at(pkg) else {
        unreachable!()
    };
    Ok(name.clone()?)
}

/// The name of what has a number; the request has none.
fn name_of(registry: &Registry, pkg: Pkg) -> Result<Option<Name>, AllocError>
    requires { HasName registry.now.packages pkg }
    ensures { IfOk result (λ name. number_in registry.now.packages name ≡ Some pkg) }
{
    if pkg == ROOT {
        return Ok(None);
    }
    Ok(Some(package_name(registry, pkg)?))
}

fn named_terms(
    alloc: Global,
    registry: &Registry,
    terms: &[(Pkg, Term)],
) -> Result<NamedTerms, AllocError>
    requires { HaveNames registry.now.packages terms.now }
    ensures { IfOk result (λ named. numbered_terms registry.now.packages named ≡ Some terms.now) }
{
    let mut named = Vec::with_capacity(alloc, terms.len())?;
    for entry in terms {
        let name = match name_of(registry, entry.0) {
            Ok(name) => name,
            Err(error) => {
                drop(named);
                return Err(error);
            }
        };
        let term = match entry.1.copy(alloc) {
            Ok(term) => term,
            Err(error) => {
                drop(name);
                drop(named);
                return Err(error);
            }
        };
        named.push_reserved((name, term));
    }
    Ok(NamedTerms::new(named))
}

/// The sets of a premise and its requirement, which are the same by number and by name.
pub(crate) fn copied(
    alloc: Global,
    versions: &VSet,
    need: &Need,
    within: &VSet,
) -> Result<(VSet, Need, VSet), AllocError>
    ensures { IfOk result (λ copy. copy ≡ (versions.now, need.now, within.now)) }
{
    let need = need.clone()?;
    let versions = match versions.copy(alloc) {
        Ok(versions) => versions,
        Err(error) => {
            drop(need);
            return Err(error);
        }
    };
    let within = match within.copy(alloc) {
        Ok(within) => within,
        Err(error) => {
            drop(need);
            drop(versions);
            return Err(error);
        }
    };
    Ok((versions, need, within))
}

fn named_premise(
    alloc: Global,
    registry: &Registry,
    premise: &Premise,
) -> Result<NamedPremise, AllocError>
    requires package { IsSome (package_at registry.now.packages premise.now.package) }
    requires target { HasName registry.now.packages premise.now.target }
    ensures { IfOk result (λ named. numbered_premise registry.now.packages named ≡ Some premise.now) }
{
    let package = package_name(registry, premise.package)?;
    let target = match name_of(registry, premise.target) {
        Ok(target) => target,
        Err(error) => {
            drop(package);
            return Err(error);
        }
    };
    let (versions, need, within) = match copied(
        alloc,
        &premise.versions,
        &premise.need,
        &premise.within,
    ) {
        Ok(made) => made,
        Err(error) => {
            drop(package);
            drop(target);
            return Err(error);
        }
    };
    Ok(NamedPremise {
        package,
        versions,
        target,
        need,
        within,
    })
}

fn named_cause(alloc: Global, registry: &Registry, cause: &Cause) -> Result<NamedCause, AllocError>
    requires { CauseHasNames registry.now.packages cause.now }
    ensures { IfOk result (λ named. numbered_cause registry.now.packages named ≡ Some cause.now) }
{
    match cause {
        Cause::Line(number) => Ok(NamedCause::Line(*number)),
        Cause::Premise(premise) => Ok(NamedCause::Premise(named_premise(
            alloc, registry, premise,
        )?)),
        Cause::Need(index) => Ok(NamedCause::Need(*index)),
        Cause::NotAllowed(pkg, versions) => {
            let name = package_name(registry, *pkg)?;
            let versions = match versions.copy(alloc) {
                Ok(versions) => versions,
                Err(error) => {
                    drop(name);
                    return Err(error);
                }
            };
            Ok(NamedCause::NotAllowed(name, versions))
        }
        Cause::Root => Ok(NamedCause::Root),
    }
}

fn named_causes(
    alloc: Global,
    registry: &Registry,
    causes: &(Cause, Cause),
) -> Result<(NamedCause, NamedCause), AllocError>
    requires one { CauseHasNames registry.now.packages causes.now.0 }
    requires two { CauseHasNames registry.now.packages causes.now.1 }
    ensures one { IfOk result (λ named. numbered_cause registry.now.packages named.0 ≡ Some causes.now.0) }
    ensures two { IfOk result (λ named. numbered_cause registry.now.packages named.1 ≡ Some causes.now.1) }
{
    let one = named_cause(alloc, registry, &causes.0)?;
    let two = match named_cause(alloc, registry, &causes.1) {
        Ok(two) => two,
        Err(error) => {
            drop(one);
            return Err(error);
        }
    };
    Ok((one, two))
}

fn named_line(alloc: Global, registry: &Registry, line: &Line) -> Result<NamedLine, AllocError>
    requires { LineHasNames registry.now.packages line.now }
    ensures same { IfOk result (λ named. numbered_line registry.now.packages named ≡ Some line.now) }
    ensures lawful { IsIncompat line.now.conclusion }
{
    let terms = line.conclusion.terms();
    let pivot = name_of(registry, line.pivot)?;
    let conclusion = match named_terms(alloc, registry, terms) {
        Ok(conclusion) => conclusion,
        Err(error) => {
            drop(pivot);
            return Err(error);
        }
    };
    let causes = match named_causes(alloc, registry, &line.causes) {
        Ok(causes) => causes,
        Err(error) => {
            drop(pivot);
            drop(conclusion);
            return Err(error);
        }
    };
    Ok(NamedLine {
        conclusion,
        causes,
        pivot,
    })
}

/// The derivation by the names of its packages, each of which has one. By the same registry its names
/// stand for the same derivation again.
pub fn named(
    alloc: Global,
    registry: &Registry,
    derivation: &Derivation,
) -> Result<NamedDerivation, AllocError>
    requires names { AllHaveNames registry.now.packages derivation.now }
    ensures { IfOk result (λ named. IsNumbered registry.now.packages named derivation.now) }
{
    named_lines(alloc, registry, derivation.lines())
}

/// Lines by the names of their packages, as [`named`] tells those of a derivation.
pub fn named_lines(
    alloc: Global,
    registry: &Registry,
    lines: &[Line],
) -> Result<NamedDerivation, AllocError>
    requires names { AllHaveNames registry.now.packages lines.now }
    ensures { IfOk result (λ named. IsNumbered registry.now.packages named lines.now) }
{
    let mut named = Vec::with_capacity(alloc, lines.len())?;
    for line in lines {
        let told = match named_line(alloc, registry, line) {
            Ok(told) => told,
            Err(error) => {
                drop(named);
                return Err(error);
            }
        };
        named.push_reserved(told);
    }
    Ok(NamedDerivation::new(named))
}
