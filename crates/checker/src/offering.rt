//! What a search offers to be learnt.

ghost use Rattle.std.specs.Prelude.{◌≡◌, ◌≤◌, ◌+◌, ◌-◌, ◌↔◌, false, length, sum_by, All, IfNone, IfOk, IfSome, IsTrue};
ghost use Rattle.std.specs.Bool.{OnTrue};
ghost use Rattle.checker.specs.Cutting.{AreClear, IsResolvedAt, ShowsLine};
ghost use Rattle.derivations.specs.CausedIncompatibilities.{AreOrdered};
ghost use Rattle.derivations.specs.Learning.{IsLearnt};
ghost use Rattle.checker.specs.Offering.{AreLawfulSomewhere, MayRestOn, RestOnPremises, ShowsOne, StandWhereLawful};
ghost use Rattle.derivations.specs.declared.learnt.TheConstants.{DERIVATION_LINE_LIMIT};
ghost use Rattle.checker.specs.declared.offering.TheConstants.{OFFERED_LIMIT};

use crate::cutting::{few_lines_of, is_resolved, zeros};
use derivations::{
    Cause, CausedIncompatibility, DERIVATION_LINE_LIMIT, Learnt, Line, Reason, derived_lines_stand,
};
use std::alloc::{AllocError, Global};

/// The most lines that all offers of one search have together.
/// Measured at half and at twice this value: docs/BENCHMARKS.md, Constants.
const OFFERED_LIMIT: usize = 1_024;

/// How many lines one more offer may have behind so many lines of others: as many as are left, but for
/// those that are kept for the last one.
fn room_behind(taken: usize, is_last: bool) -> usize
    ensures few { result ≤ DERIVATION_LINE_LIMIT }
    ensures kept { is_last ≡ false → taken ≤ OFFERED_LIMIT - DERIVATION_LINE_LIMIT → taken + result ≤ OFFERED_LIMIT - DERIVATION_LINE_LIMIT }
{
    if is_last {
        return DERIVATION_LINE_LIMIT;
    }
    OFFERED_LIMIT
        .saturating_sub(DERIVATION_LINE_LIMIT)
        .saturating_sub(taken)
        .min(DERIVATION_LINE_LIMIT)
}

/// How many lines the line at a place takes at least, by what was counted: endlessly many where it was
/// not.
fn least_at(least: &[usize], place: usize) -> usize {
    match least.get(place) {
        Some(count) => *count,
        None => usize::MAX,
    }
}

/// How many lines a line with this reason takes at least, given how many those before it do: endlessly
/// many where it rests on more than premises.
fn least_by(least: &[usize], reason: &Reason) -> usize {
    match reason {
        Reason::Fact(Cause::Premise(_)) => 0,
        Reason::Fact(_) => usize::MAX,
        Reason::Resolved(i, j, _) => least_at(least, *i)
            .max(least_at(least, *j))
            .saturating_add(1),
    }
}

/// Counts how many lines each line takes at least, up to the one at a place. Nothing but the cost of a
/// search's offers, and which are left out, rests on the counts.
fn count_up_to(
    least: &mut Vec<usize>,
    known: &[CausedIncompatibility],
    place: usize,
) -> Result<(), AllocError> {
    for at in least.len()..place.saturating_add(1) {
        let Some(line) = known.get(at) else {
            return Ok(());
        };
        let count = least_by(least, &line.reason);
        least.push(count)?;
    }
    Ok(())
}

/// Corrects the count at a place by what a walk found, so that the lines behind it, which are counted
/// later, take as many at least.
fn correct(least: &mut Vec<usize>, place: usize, count: usize) {
    if place < least.len() {
        least[place] = count;
    }
}

/// Whether the line at the place, if there is one, follows from others.
pub fn is_resolved_at(known: &[CausedIncompatibility], place: usize) -> bool
    ensures { OnTrue result (IsResolvedAt known.now place) }
{
    place < known.len() && is_resolved(&known[place])
}

/// Whether a line with this cause may be learnt.
fn may_rest_on(cause: &Cause) -> bool
    ensures { IsTrue result ↔ MayRestOn cause.now }
{
    match cause {
        Cause::Line(_) | Cause::Premise(_) => true,
        Cause::Need(_) | Cause::NotAllowed(_, _) | Cause::Root => false,
    }
}

/// Whether the lines rest on premises alone. Takes no memory.
fn rest_on_premises(lines: &[Line]) -> bool
    ensures { IsTrue result ↔ RestOnPremises lines.now }
{
    let mut left = lines;
    'look: while let [line, rest @ ..] = left {
        if !may_rest_on(&line.causes.0) || !may_rest_on(&line.causes.1) {
            return false;
        }
        left = rest;
    }
    true
}

/// What may be learnt of these lines, if anything, and if there is room for them. They are not judged again.
fn learnable(alloc: Global, lines: Vec<Line>, room: usize) -> Result<Option<Learnt>, AllocError>
    requires learnt { RestOnPremises lines.items → length lines.items ≤ DERIVATION_LINE_LIMIT → IsLearnt lines.items }
    requires room { room ≤ DERIVATION_LINE_LIMIT }
    ensures same { IfOk result (λ found. IfSome found (λ learnt. learnt ≡ lines.items)) }
    ensures few { IfOk result (λ found. IfSome found (λ learnt. length learnt ≤ room)) }
{
    if lines.len() > room || !rest_on_premises(&lines) {
        return Ok(None);
    }
    Ok(Some(Learnt::of_derived(alloc, lines)?))
}

/// What may be learnt of the line at a place: nothing of a fact, nor of one that rests on more than
/// premises or on more lines than there is room for, nor where there is no line. The zeros, one for
/// each line of the search, are handed back.
fn offer(
    alloc: Global,
    known: &[CausedIncompatibility],
    least: &mut Vec<usize>,
    zeros: Vec<usize>,
    place: usize,
    room: usize,
) -> Result<(Option<Learnt>, Vec<usize>), AllocError>
    requires ordered { AreOrdered known.now }
    requires lawful { AreLawfulSomewhere known.now }
    requires clear { AreClear known.now zeros.items }
    requires room { room ≤ DERIVATION_LINE_LIMIT }
    ensures shows { IfOk result (λ made. IfSome made.0 (ShowsLine known.now place)) }
    ensures few { IfOk result (λ made. IfSome made.0 (λ learnt. length learnt ≤ room)) }
    ensures clear { IfOk result (λ made. AreClear known.now made.1.items) }
{
    count_up_to(least, known, place)?;
    if least_at(least, place) > room || !is_resolved_at(known, place) {
        return Ok((None, zeros));
    }
    let (found, cleared) = few_lines_of(alloc, known, zeros, place, room)?;
    match found {
        None => {
            correct(least, place, room.saturating_add(1));
            Ok((None, cleared))
        }
        Some(lines) => {
            correct(least, place, lines.len());
            Ok((learnable(alloc, lines, room)?, cleared))
        }
    }
}

/// How many lines it has, where something is offered.
fn count_lines(found: &Option<Learnt>) -> usize
    ensures none { IfNone found.now (result ≡ 0) }
    ensures some { IfSome found.now (λ learnt. result ≡ length learnt) }
{
    match found {
        None => 0,
        Some(learnt) => learnt.lines().len(),
    }
}

/// What may be learnt of the lines at these places, each with its whole derivation: of those that
/// rest on premises alone, by no more than [`DERIVATION_LINE_LIMIT`](derivations::DERIVATION_LINE_LIMIT) lines, and by no more than
/// 1,024 lines all together. Those that come first are offered first; for the last one there is always
/// room. Places that hold a fact, or nothing, are passed over.
///
/// What a search's lines say is taken on its word, which a caller proves: they are cut and looked
/// over, and not judged again. Linear in the lines of the search and in the limit for each place. Places
/// that ascend cost least: what rests on a line that takes too many lines is then told at a look.
pub fn offers(
    alloc: Global,
    known: &[CausedIncompatibility],
    places: &[usize],
) -> Result<Vec<Learnt>, AllocError>
    requires ordered { AreOrdered known.now }
    requires lawful { AreLawfulSomewhere known.now }
    ensures stand { IfOk result (λ offered. StandWhereLawful known.now offered.items) }
    ensures from { IfOk result (λ offered. All (ShowsOne known.now places.now) offered.items) }
    ensures few { IfOk result (λ offered. sum_by length offered.items ≤ OFFERED_LIMIT) }
{
    derived_lines_stand();
    if places.is_empty() {
        return Ok(Vec::new(alloc));
    }
    let mut least = Vec::with_capacity(alloc, known.len())?;
    let mut numbers = zeros(alloc, known.len())?;
    let mut offered = Vec::new(alloc);
    let mut taken: usize = 0;
    for at in 0..places.len() {
        let room = room_behind(taken, at + 1 == places.len());
        let (found, cleared) = offer(alloc, known, &mut least, numbers, places[at], room)?;
        numbers = cleared;
        taken = taken.saturating_add(count_lines(&found));
        if let Some(learnt) = found {
            offered.push(learnt)?;
        }
    }
    Ok(offered)
}
