//! What the causes of a line give.

ghost use Rattle.std.specs.Prelude.{◌≡◌, ◌↔◌, ◌∷◌, [], Some, IfOk, IsSome, IsTrue};
ghost use Rattle.std.specs.Option.{option_map};
ghost use Rattle.terms.specs.declared.term.Term.TheVariants.{NotIn};
ghost use Rattle.registry.specs.Registry.{package_at};
ghost use Rattle.derivations.specs.Causes.{AreNeedFacts, given_terms};
ghost use Rattle.derivations.specs.Derivations.{conclusions, Finds, IsConclusion, IsFact, IsStanding, NoneAllowed, Yields};
ghost use Rattle.derivations.specs.Facts.{need_terms};
ghost use Rattle.derivations.specs.Learning.{Offers};

use crate::facts::{Cause, Premise};
use crate::line::Line;
use crate::standing::stands_by_matching;
use registry::{Registry, Request};
use std::alloc::{AllocError, Global};
use terms::{Incompat, Pkg, Term, VSet};
use versions::{Name, Need};

/// The package of the request itself, which has the one version 0 and no name.
pub const ROOT: Pkg = 0;

/// What a cause gives: what is kept (the conclusion of an earlier line, or what a need says that was
/// cited before), or what a fact says that was made for this one.
#[derive(Drop)]
pub enum Given<'a> {
    Kept(&'a Incompat),
    Made(Incompat),
}

impl Given<'_> {
    /// The incompatibility that is given.
    pub fn incompat(&self) -> &Incompat
        ensures { result.now ≡ given_terms self.now }
    {
        match self {
            Given::Kept(incompat) => incompat,
            Given::Made(incompat) => incompat,
        }
    }
}

/// The conclusion of the line with this number, counted from 1.
fn concluded(earlier: &[Line], number: usize) -> Option<Given<'_>>
    ensures { Finds (IsConclusion (conclusions earlier.now) number) (option_map given_terms result) }
{
    if number == 0 {
        return None;
    }
    if number > earlier.len() {
        return None;
    }
    Some(Given::Kept(&earlier[number - 1].conclusion))
}

/// What a premise says, if it stands.
fn premise_fact(
    alloc: Global,
    registry: &Registry,
    premise: &Premise,
) -> Result<Option<Incompat>, AllocError>
    ensures { IfOk result
        (Finds (IsStanding registry.now.packages premise.now)) }
{
    if stands_by_matching(registry, premise)? {
        premise.incompat(alloc)
    } else {
        Ok(None)
    }
}

/// What a need of a request says: root In({0}), and on its package NotIn of the published versions
/// that meet it; without the term on its package where none does or the name has no number.
pub fn need_incompat(
    alloc: Global,
    registry: &Registry,
    name: &Name,
    need: &Need,
) -> Result<Incompat, AllocError>
    ensures { IfOk result (λ incompat.
        incompat ≡ need_terms registry.now.packages name.now need.now) }
{
    let root = Term::In(VSet::single(alloc, 0)?);
    match registry.number(name) {
        None => Ok(Incompat::single(alloc, ROOT, root)?),
        Some(pkg) => {
            let matching = Term::NotIn(registry.matching_copy(pkg, need)?);
            Ok(Incompat::pair(alloc, ROOT, root, pkg, matching)?)
        }
    }
}

/// What the request's need at this place says, if there is one.
pub fn need_fact(
    alloc: Global,
    registry: &Registry,
    request: &Request,
    index: usize,
) -> Result<Option<Incompat>, AllocError>
    ensures { IfOk result
        (Finds (IsFact registry.now.packages request.now (Cause.Need index))) }
{
    match request.needs().get(index) {
        None => Ok(None),
        Some(entry) => Ok(Some(need_incompat(alloc, registry, &entry.0, &entry.1)?)),
    }
}

/// What the request's need at this place says, if there is one: lent where it is kept.
fn need_given<'a>(
    alloc: Global,
    registry: &Registry,
    request: &Request,
    kept: &'a [Option<Incompat>],
    index: usize,
) -> Result<Option<Given<'a>>, AllocError>
    requires { AreNeedFacts registry.now.packages request.now kept.now }
    ensures { IfOk result (λ found.
        Finds (IsFact registry.now.packages request.now (Cause.Need index)) (option_map given_terms found)) }
{
    match kept.get(index) {
        Some(Some(incompat)) => Ok(Some(Given::Kept(incompat))),
        _ => Ok(as_given(need_fact(alloc, registry, request, index)?)),
    }
}

/// Whether the package is numbered.
fn is_package(registry: &Registry, pkg: Pkg) -> bool
    ensures { IsTrue result ↔ IsSome (package_at registry.now.packages pkg) }
{
    pkg >= 1 && pkg as usize <= registry.packages()
}

/// Whether no version of the set is allowed to the request.
fn is_none_allowed(registry: &Registry, request: &Request, pkg: Pkg, versions: &VSet) -> bool
    ensures { IsTrue result ↔ NoneAllowed registry.now.packages request.now pkg versions.now }
{
    for ordinal in versions.iter() {
        if registry.allowed(request, pkg, ordinal) {
            return false;
        }
    }
    true
}

/// That a package is in a set of versions of which none is allowed.
fn barred_fact(
    alloc: Global,
    registry: &Registry,
    request: &Request,
    pkg: Pkg,
    versions: &VSet,
) -> Result<Option<Incompat>, AllocError>
    ensures { IfOk result
        (Finds (IsFact registry.now.packages request.now (Cause.NotAllowed pkg versions.now))) }
{
    if is_package(registry, pkg) && is_none_allowed(registry, request, pkg, versions) {
        let term = Term::In(versions.copy(alloc)?);
        Ok(Some(Incompat::single(alloc, pkg, term)?))
    } else {
        Ok(None)
    }
}

/// That the root is chosen.
fn root_fact(alloc: Global) -> Result<Incompat, AllocError>
    ensures { IfOk result (λ incompat. incompat ≡ (0, NotIn (0 ∷ [])) ∷ []) }
{
    let term = Term::NotIn(VSet::single(alloc, 0)?);
    Ok(Incompat::single(alloc, ROOT, term)?)
}

/// What a fact says, as given.
fn as_given<'a>(fact: Option<Incompat>) -> Option<Given<'a>>
    ensures { option_map given_terms result ≡ fact }
{
    match fact {
        None => None,
        Some(incompat) => Some(Given::Made(incompat)),
    }
}

/// What a cause yields after these lines, if it is one of them or a true fact. What is kept of the
/// request's needs is lent.
pub fn find_given<'a>(
    alloc: Global,
    registry: &Registry,
    request: &Request,
    kept: &'a [Option<Incompat>],
    earlier: &'a [Line],
    cause: &Cause,
) -> Result<Option<Given<'a>>, AllocError>
    requires { AreNeedFacts registry.now.packages request.now kept.now }
    ensures { IfOk result (λ found.
        Finds (Yields registry.now.packages request.now (conclusions earlier.now) cause.now)
        (option_map given_terms found)) }
{
    match cause {
        Cause::Line(number) => Ok(concluded(earlier, *number)),
        Cause::Premise(premise) => Ok(as_given(premise_fact(alloc, registry, premise)?)),
        Cause::Need(index) => need_given(alloc, registry, request, kept, *index),
        Cause::NotAllowed(pkg, versions) => Ok(as_given(barred_fact(
            alloc, registry, request, *pkg, versions,
        )?)),
        Cause::Root => Ok(Some(Given::Made(root_fact(alloc)?))),
    }
}

/// What a cause yields after these lines whatever the registry holds, if it may be learnt.
pub fn find_offered<'a>(
    alloc: Global,
    earlier: &'a [Line],
    cause: &Cause,
) -> Result<Option<Given<'a>>, AllocError>
    ensures { IfOk result (λ found.
        Finds (Offers (conclusions earlier.now) cause.now) (option_map given_terms found)) }
{
    match cause {
        Cause::Line(number) => Ok(concluded(earlier, *number)),
        Cause::Premise(premise) => {
            if premise.versions.is_empty() {
                return Ok(None);
            }
            Ok(as_given(premise.incompat(alloc)?))
        }
        Cause::Need(_) | Cause::NotAllowed(_, _) | Cause::Root => Ok(None),
    }
}
