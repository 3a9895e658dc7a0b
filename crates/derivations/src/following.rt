//! Whether lines follow from what their causes give.

ghost use Rattle.std.specs.Prelude.{◌≡◌, ◌↔◌, ◌||◌, [], IfOk, IsTrue};
ghost use Rattle.terms.specs.Incompats.{has_term};
ghost use Rattle.derivations.specs.Causes.{AreNeedFacts};
ghost use Rattle.derivations.specs.Derivations.{conclusions, AreDerived, AreDerivedBy, FollowsOn, IsDerivedBy, Yields};
ghost use Rattle.derivations.specs.Learning.{Offers};

use crate::causes::{find_given, find_offered};
use crate::cited::cited_needs;
use crate::line::Line;
use registry::{Registry, Request};
use std::alloc::{AllocError, Global};
use terms::{Incompat, Pkg, resolve};

/// Whether one of the two has a term on the pivot.
pub fn has_pivot(one: &Incompat, two: &Incompat, pivot: Pkg) -> bool
    ensures { result ≡ (has_term one.now pivot || has_term two.now pivot) }
{
    one.has_term(pivot) || two.has_term(pivot)
}

/// Whether the line's conclusion follows from the two on its pivot, on which one of them has a term.
fn follows(alloc: Global, one: &Incompat, two: &Incompat, line: &Line) -> Result<bool, AllocError>
    ensures { IfOk result (λ yes. IsTrue yes ↔ FollowsOn one.now two.now line.now) }
{
    if !has_pivot(one, two, line.pivot) {
        return Ok(false);
    }
    let expected = resolve(alloc, one, two, line.pivot)?;
    let conclusion = &line.conclusion;
    // That a conclusion is in order is told with its terms.
    let _terms = conclusion.terms();
    Ok(expected.is_same(conclusion))
}

/// Whether a line follows from facts and the lines before it.
fn is_derived(
    alloc: Global,
    registry: &Registry,
    request: &Request,
    kept: &[Option<Incompat>],
    earlier: &[Line],
    line: &Line,
) -> Result<bool, AllocError>
    requires { AreNeedFacts registry.now.packages request.now kept.now }
    ensures { IfOk result (λ yes. IsTrue yes
        ↔ IsDerivedBy (Yields registry.now.packages request.now (conclusions earlier.now)) line.now) }
{
    let Some(one) = find_given(alloc, registry, request, kept, earlier, &line.causes.0)? else {
        return Ok(false);
    };
    match find_given(alloc, registry, request, kept, earlier, &line.causes.1) {
        Ok(Some(two)) => {
            let answer = follows(alloc, one.incompat(), two.incompat(), line);
            drop(two);
            drop(one);
            answer
        }
        Ok(None) => {
            drop(one);
            Ok(false)
        }
        Err(error) => {
            drop(one);
            Err(error)
        }
    }
}

/// Whether each line follows from facts and the lines before it, by what is kept of the needs.
fn is_each_derived(
    alloc: Global,
    registry: &Registry,
    request: &Request,
    kept: &[Option<Incompat>],
    lines: &[Line],
) -> Result<bool, AllocError>
    requires { AreNeedFacts registry.now.packages request.now kept.now }
    ensures { IfOk result (λ yes. IsTrue yes
        ↔ AreDerived registry.now.packages request.now [] lines.now) }
{
    for i in 0..lines.len() {
        if !is_derived(alloc, registry, request, kept, &lines[..i], &lines[i])? {
            return Ok(false);
        }
    }
    Ok(true)
}

/// Whether each line follows from facts and the lines before it.
pub fn are_derived(
    alloc: Global,
    registry: &Registry,
    request: &Request,
    lines: &[Line],
) -> Result<bool, AllocError>
    ensures { IfOk result (λ yes. IsTrue yes
        ↔ AreDerived registry.now.packages request.now [] lines.now) }
{
    let kept = cited_needs(alloc, registry, request, lines)?;
    is_each_derived(alloc, registry, request, &kept, lines)
}

/// Whether a line follows from premises and the lines before it.
fn is_offered(alloc: Global, earlier: &[Line], line: &Line) -> Result<bool, AllocError>
    ensures { IfOk result (λ yes. IsTrue yes
        ↔ IsDerivedBy (Offers (conclusions earlier.now)) line.now) }
{
    let Some(one) = find_offered(alloc, earlier, &line.causes.0)? else {
        return Ok(false);
    };
    match find_offered(alloc, earlier, &line.causes.1) {
        Ok(Some(two)) => {
            let answer = follows(alloc, one.incompat(), two.incompat(), line);
            drop(two);
            drop(one);
            answer
        }
        Ok(None) => {
            drop(one);
            Ok(false)
        }
        Err(error) => {
            drop(one);
            Err(error)
        }
    }
}

/// Whether each line follows from premises and the lines before it.
pub fn are_offered(alloc: Global, lines: &[Line]) -> Result<bool, AllocError>
    ensures { IfOk result (λ yes. IsTrue yes ↔ AreDerivedBy Offers [] lines.now) }
{
    for i in 0..lines.len() {
        if !is_offered(alloc, &lines[..i], &lines[i])? {
            return Ok(false);
        }
    }
    Ok(true)
}
