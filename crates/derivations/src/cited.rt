//! What the needs say that lines cite: found once, however many lines cite them.

ghost use Rattle.std.specs.Prelude.{◌≡◌, ◌≢◌, ◌<◌, ℕ, Some, IfOk, length, slice_get};
ghost use Rattle.derivations.specs.Causes.{AreNeedFacts, HasNoFacts};

use crate::causes::need_fact;
use crate::facts::Cause;
use crate::line::Line;
use registry::{Registry, Request};
use std::alloc::{AllocError, Global};
use terms::Incompat;

/// So many places, with nothing kept in them.
fn empty_places(alloc: Global, count: usize) -> Result<Vec<Option<Incompat>>, AllocError>
    ensures { IfOk result (λ kept. HasNoFacts kept.items) }
{
    let mut kept = Vec::new(alloc);
    kept.reserve_exact(count)?;
    'places: while kept.len() < count {
        kept.push(None)?;
    }
    Ok(kept)
}

/// Keeps this in a place.
fn keep(kept: &mut Vec<Option<Incompat>>, index: usize, fact: Option<Incompat>)
    requires { index < length kept.old.items }
    ensures own { slice_get kept.new.items index ≡ Some fact }
    ensures other { (i : ℕ) → i ≢ index → slice_get kept.new.items i ≡ slice_get kept.old.items i }
{
    kept[index] = fact;
}

/// Keeps what a cause says that is a need of the request, unless it is kept already.
fn keep_cited(
    alloc: Global,
    registry: &Registry,
    request: &Request,
    cause: &Cause,
    kept: &mut Vec<Option<Incompat>>,
) -> Result<(), AllocError>
    ensures { AreNeedFacts registry.now.packages request.now kept.old.items
        → AreNeedFacts registry.now.packages request.now kept.new.items }
{
    let Cause::Need(index) = cause else {
        return Ok(());
    };
    let Some(None) = kept.get(*index) else {
        return Ok(());
    };
    let fact = need_fact(alloc, registry, request, *index)?;
    keep(kept, *index, fact);
    Ok(())
}

/// What the needs of the request say that lines cite, each in the place of its need.
pub fn cited_needs(
    alloc: Global,
    registry: &Registry,
    request: &Request,
    lines: &[Line],
) -> Result<Vec<Option<Incompat>>, AllocError>
    ensures { IfOk result (λ kept. AreNeedFacts registry.now.packages request.now kept.items) }
{
    let mut kept = empty_places(alloc, request.needs().len())?;
    for line in lines {
        keep_cited(alloc, registry, request, &line.causes.0, &mut kept)?;
        keep_cited(alloc, registry, request, &line.causes.1, &mut kept)?;
    }
    Ok(kept)
}
