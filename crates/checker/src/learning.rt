//! What a search offers to be learnt.

ghost use Rattle.std.specs.Prelude.{All, IfOk};
ghost use Rattle.derivations.specs.CausedIncompatibilities.{AreLawful, AreOrdered};
ghost use Rattle.derivations.specs.Learning.{AllStand};

use crate::offering::offers;
use derivations::{Cause, CausedIncompatibility, Learnt, Reason};
use oracle::Task;
use std::alloc::AllocError;
use store::STORE_LIMIT;

/// Whether the line at a place is a fact of the request.
fn is_asked(known: &[CausedIncompatibility], place: usize) -> bool {
    match known.get(place) {
        None => false,
        Some(line) => match &line.reason {
            Reason::Fact(Cause::Premise(_)) | Reason::Resolved(_, _, _) => false,
            Reason::Fact(_) => true,
        },
    }
}

/// The places of the two lines from which the one at a place follows.
fn causes_at(known: &[CausedIncompatibility], place: usize) -> Option<(usize, usize)> {
    match &known.get(place)?.reason {
        Reason::Fact(_) => None,
        Reason::Resolved(first, second, _) => Some((*first, *second)),
    }
}

/// The line from which a refusal follows by what the request says: on the way from the last conflict to
/// the refusal, the last one before a fact of the request. Where there is no such fact it is the line of
/// the refusal, of which nothing may be learnt.
fn source_of(known: &[CausedIncompatibility], end: usize) -> usize {
    let mut source = end;
    let mut at = end;
    for _ in 0..known.len() {
        let Some((first, second)) = causes_at(known, at) else {
            return source;
        };
        if is_asked(known, second) {
            source = first;
        }
        at = first;
    }
    source
}

/// Whether the line at a place, if there is one, says what the store doesn't.
fn is_new(task: &Task<'_>, known: &[CausedIncompatibility], place: usize) -> bool {
    place < known.len() && !task.store.has(&known[place].conclusion)
}

/// The place of the line from which a refusal follows, where it says what the store doesn't.
fn new_source(
    task: &Task<'_>,
    known: &[CausedIncompatibility],
    end: Option<usize>,
) -> Option<usize> {
    let source = source_of(known, end?);
    if is_new(task, known, source) {
        Some(source)
    } else {
        None
    }
}

/// Whether the line at a place says what the source of a refusal does, if there is one.
fn says_source(known: &[CausedIncompatibility], source: Option<usize>, place: usize) -> bool {
    match source {
        None => false,
        Some(source) => {
            source < known.len()
                && place < known.len()
                && known[source].conclusion.is_same(&known[place].conclusion)
        }
    }
}

/// Those of the places at which a line says what the store doesn't, and last of all that from which a
/// refusal follows: for the last one there is always room. None where the store is full. The others it
/// would refuse.
fn new_places(
    task: &Task<'_>,
    known: &[CausedIncompatibility],
    places: &[usize],
    end: Option<usize>,
) -> Result<Vec<usize>, AllocError> {
    let mut wanted = Vec::new(task.alloc);
    if (places.is_empty() && end.is_none()) || task.store.len() >= STORE_LIMIT {
        return Ok(wanted);
    }
    let source = new_source(task, known, end);
    for place in places {
        if is_new(task, known, *place) && !says_source(known, source, *place) {
            wanted.push(*place)?;
        }
    }
    if let Some(place) = source {
        wanted.push(place)?;
    }
    Ok(wanted)
}

/// What may be learnt of the lines at these places and of a refusal that the store doesn't have.
fn find_offers(
    task: &Task<'_>,
    known: &[CausedIncompatibility],
    places: &[usize],
    end: Option<usize>,
) -> Result<Vec<Learnt>, AllocError>
    requires lawful { AreLawful task.now.registry.now.packages task.now.request.now known.now }
    requires ordered { AreOrdered known.now }
    ensures { IfOk result (λ offered. All (AllStand task.now.registry.now.packages) offered.items) }
{
    let wanted = new_places(task, known, places, end)?;
    offers(task.alloc, known, &wanted)
}

/// What a search offers of the lines at these places, and of the refusal in which it ended, if it did.
/// An answer doesn't depend on memory for it: where that is wanting, nothing is offered.
pub fn offered_of(
    task: &Task<'_>,
    known: &[CausedIncompatibility],
    places: &[usize],
    end: Option<usize>,
) -> Vec<Learnt>
    requires lawful { AreLawful task.now.registry.now.packages task.now.request.now known.now }
    requires ordered { AreOrdered known.now }
    ensures { All (AllStand task.now.registry.now.packages) result.items }
{
    match find_offers(task, known, places, end) {
        Ok(offered) => offered,
        Err(_error) => Vec::new(task.alloc),
    }
}
