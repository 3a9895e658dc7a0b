//! The lines of a search, cut down to a derivation.

ghost use Rattle.std.specs.Prelude.{◌≡◌, ◌≢◌, ◌<◌, ◌↔◌, ◌∷◌, [], ℕ, None, Some, false, true, length, slice_index, IfOk, IfSome, IfNone, IsTrue};
ghost use Rattle.registry.specs.Registry.{Packages};
ghost use Rattle.registry.specs.Requests.{Wanted};
ghost use Rattle.derivations.specs.Derivations.{IsDerivation, last_conclusion};
ghost use Rattle.checker.specs.Cutting.{cited, is_open, AreCited, AreClear, AreNumberedAt, EndsBefore, IsCauseOf, IsEndLine, IsLineFor, IsOpen, IsReady, IsResolvedAt, SaysRootAlone, ShowsLine};
ghost use Rattle.derivations.specs.CausedIncompatibilities.{AreLawful, AreOrdered, EndsAt, IsResolved};
ghost use Rattle.checker.specs.Taking.{line_at, lines_at, places_of, said_at, ArePlaced};
ghost use Rattle.terms.specs.declared.term.Term.TheVariants.{In};

use crate::pairing::paired;
use crate::runs::count_at;
use crate::taking::{Step, lines_copied, lines_taken};
use derivations::{Cause, CausedIncompatibility, Derivation, Line, Reason, is_root_alone};
use std::alloc::{AllocError, Global};
use terms::Pkg;

/// Whether the line is one that a derivation has to write, and has no number yet.
fn is_open(line: &CausedIncompatibility, number: usize) -> bool
    ensures { result ≡ is_open line.now.reason number }
{
    match line.reason {
        Reason::Fact(_) => false,
        Reason::Resolved(_, _, _) => number == 0,
    }
}

/// How a line is cited: a fact by itself, another by its number.
fn cited(alloc: Global, line: &CausedIncompatibility, number: usize) -> Result<Cause, AllocError>
    ensures { IfOk result (λ cause. cause ≡ cited line.now.reason number) }
{
    match &line.reason {
        Reason::Fact(cause) => cause.copy(alloc),
        Reason::Resolved(_, _, _) => Ok(Cause::Line(number)),
    }
}

/// The two lines that a line cites, and the pivot.
fn cites(line: &CausedIncompatibility) -> (usize, usize, Pkg)
    requires { IsResolved line.now.reason }
    ensures { line.now.reason ≡ Reason.Resolved result.0 result.1 result.2 }
{
    match line.reason {
        Reason::Fact(_) => unreachable!(),
        Reason::Resolved(i, j, pivot) => (i, j, pivot),
    }
}

/// How many lines each line takes with those that it rests on, of which one that is cited twice
/// counts twice. Facts take none.
fn weights_of(alloc: Global, known: &[CausedIncompatibility]) -> Result<Vec<usize>, AllocError> {
    let mut weights: Vec<usize> = Vec::with_capacity(alloc, known.len())?;
    'count: for line in known {
        let taken = match line.reason {
            Reason::Fact(_) => 0,
            Reason::Resolved(i, j, _) => count_at(&weights, i)
                .saturating_add(count_at(&weights, j))
                .saturating_add(1),
        };
        weights.push(taken)?;
    }
    Ok(weights)
}

/// One of the two lines that a line cites which is still to be written: the one that takes more
/// lines, so that the shorter part stands right before the line that cites both.
fn open_cause(
    known: &[CausedIncompatibility],
    weights: &[usize],
    numbers: &[usize],
    at: usize,
) -> Option<usize>
    requires ordered { AreOrdered known.now }
    requires lengths { length numbers.now ≡ length known.now }
    requires here { IsOpen known.now numbers.now at }
    ensures open_there { IfSome result (IsOpen known.now numbers.now) }
    ensures below { IfSome result (λ m. m < at) }
    ensures cause { IfSome result (λ m. IsCauseOf known.now m at) }
    ensures ready { IfNone result (IsReady known.now numbers.now at) }
{
    let (i, j, _) = cites(&known[at]);
    if count_at(weights, i) < count_at(weights, j) && is_open(&known[j], numbers[j]) {
        return Some(j);
    }
    if is_open(&known[i], numbers[i]) {
        return Some(i);
    }
    if is_open(&known[j], numbers[j]) {
        return Some(j);
    }
    None
}

/// The step to the line at a place, whose causes are written.
fn step_for(
    alloc: Global,
    known: &[CausedIncompatibility],
    numbers: &[usize],
    at: usize,
) -> Result<Step, AllocError>
    requires lengths { length numbers.now ≡ length known.now }
    requires ready { IsReady known.now numbers.now at }
    ensures here { IfOk result (λ step. step.place ≡ at) }
    ensures same { IfOk result (λ step. IsLineFor known.now numbers.now at (line_at known.now step)) }
{
    let own = &known[at];
    let (i, j, pivot) = cites(own);
    let one = &known[i];
    let two = &known[j];
    let first = cited(alloc, one, numbers[i])?;
    let second = cited(alloc, two, numbers[j])?;
    Ok(Step {
        place: at,
        causes: (first, second),
        pivot,
    })
}

/// For how many lines room is made before they are written, so that a short derivation is not moved
/// again and again while it grows.
/// Measured at half and at twice this value: docs/BENCHMARKS.md, Constants.
const DERIVATION_ROOM: usize = 128;

/// A list of so many zeros.
pub fn zeros(alloc: Global, count: usize) -> Result<Vec<usize>, AllocError>
    ensures length { IfOk result (λ list. length list.items ≡ count) }
    ensures zeros { IfOk result (λ list. (k : ℕ) → slice_index list.items k ≡ 0) }
{
    let mut list = Vec::with_capacity(alloc, count)?;
    'fill: while list.len() < count {
        list.push(0)?;
    }
    Ok(list)
}

/// Takes away the number at a place.
fn clear_at(numbers: &mut Vec<usize>, place: usize)
    ensures length { length numbers.new.items ≡ length numbers.old.items }
    ensures here { slice_index numbers.new.items place ≡ 0 }
    ensures others { (k : ℕ) → k ≢ place → slice_index numbers.new.items k ≡ slice_index numbers.old.items k }
{
    if place < numbers.len() {
        numbers[place] = 0;
    }
}

/// Takes away the numbers, which stand at the places of these steps.
fn cleared(numbers: Vec<usize>, steps: &[Step]) -> Vec<usize>
    requires { AreNumberedAt numbers.items (places_of steps.now) }
    ensures length { length result.items ≡ length numbers.items }
    ensures zeros { (k : ℕ) → slice_index result.items k ≡ 0 }
{
    let mut list = numbers;
    let mut left = steps;
    'clear: while let [step, rest @ ..] = left {
        clear_at(&mut list, step.place);
        left = rest;
    }
    list
}

/// The steps of a walk from a line to those that it rests on.
#[derive(Drop)]
struct Walked {
    steps: Vec<Step>,
    /// By the places of the search's lines, the numbers of those that are written.
    numbers: Vec<usize>,
    /// Whether the line is reached, so that these are all steps.
    is_whole: bool,
}

/// Whether a line more, besides those that are written, those that wait for it and the one that cites
/// it, is more than the limit.
fn is_beyond(limit: Option<usize>, written: usize, waiting: usize) -> bool
    ensures { limit ≡ None → result ≡ false }
{
    match limit {
        None => false,
        Some(limit) => written.saturating_add(waiting).saturating_add(2) > limit,
    }
}

/// The steps to the lines that the one at a place rests on. With a limit the walk is given up as soon
/// as it has met more lines than that, each of which would have to be written.
fn numbered_steps(
    alloc: Global,
    known: &[CausedIncompatibility],
    weights: &[usize],
    zeros: Vec<usize>,
    place: usize,
    limit: Option<usize>,
) -> Result<Walked, AllocError>
    requires ordered { AreOrdered known.now }
    requires resolved { IsResolvedAt known.now place }
    requires clear { AreClear known.now zeros.items }
    ensures shows { IfOk result (λ made. made.is_whole ≡ true → ShowsLine known.now place (lines_at known.now made.steps.items)) }
    ensures whole { IfOk result (λ made. limit ≡ None → made.is_whole ≡ true) }
    ensures placed { IfOk result (λ made. ArePlaced (length known.now) made.steps.items) }
    ensures length { IfOk result (λ made. length made.numbers.items ≡ length known.now) }
    ensures numbered { IfOk result (λ made. AreNumberedAt made.numbers.items (places_of made.steps.items)) }
{
    let mut numbers = zeros;
    let room = known.len().min(DERIVATION_ROOM);
    let mut steps = Vec::with_capacity(alloc, room)?;
    let mut users: Vec<usize> = Vec::with_capacity(alloc, room)?;
    let mut at = place;
    'walk: loop {
        match open_cause(known, weights, &numbers, at) {
            Some(cause) => {
                if is_beyond(limit, steps.as_slice().len(), users.as_slice().len()) {
                    return Ok(Walked {
                        steps,
                        numbers,
                        is_whole: false,
                    });
                }
                users.push(at)?;
                at = cause;
            }
            None => {
                let step = step_for(alloc, known, &numbers, at)?;
                steps.push(step)?;
                numbers[at] = steps.as_slice().len();
                match users.pop() {
                    None => {
                        return Ok(Walked {
                            steps,
                            numbers,
                            is_whole: true,
                        });
                    }
                    Some(user) => at = user,
                }
            }
        }
    }
}

/// The lines that the one at a place rests on, with itself as the last, where they are no more than a
/// limit: from facts, each written once and before the lines that cite it. A zero for each line of the
/// search is given and handed back, so that it costs no more than as many lines as the limit.
pub fn few_lines_of(
    alloc: Global,
    known: &[CausedIncompatibility],
    zeros: Vec<usize>,
    place: usize,
    limit: usize,
) -> Result<(Option<Vec<Line>>, Vec<usize>), AllocError>
    requires ordered { AreOrdered known.now }
    requires resolved { IsResolvedAt known.now place }
    requires clear { AreClear known.now zeros.items }
    ensures shows { IfOk result (λ made. IfSome made.0 (λ lines. ShowsLine known.now place lines.items)) }
    ensures clear { IfOk result (λ made. AreClear known.now made.1.items) }
{
    let walked = numbered_steps(alloc, known, &[], zeros, place, Some(limit))?;
    let zeros = cleared(walked.numbers, &walked.steps);
    if !walked.is_whole {
        return Ok((None, zeros));
    }
    Ok((Some(lines_copied(alloc, known, walked.steps)?), zeros))
}

/// The steps to the lines that the one at a place rests on, with itself as the last: from facts, each
/// written once and before the lines that cite it. Of two lines that are first cited together the one
/// that takes more lines comes first, so that each stands as near as it can to the first line that
/// cites it. Linear in the lines of the search, without recursion.
fn steps_of(
    alloc: Global,
    known: &[CausedIncompatibility],
    place: usize,
) -> Result<Vec<Step>, AllocError>
    requires ordered { AreOrdered known.now }
    requires resolved { IsResolvedAt known.now place }
    ensures shows { IfOk result (λ steps. ShowsLine known.now place (lines_at known.now steps.items)) }
    ensures placed { IfOk result (λ steps. ArePlaced (length known.now) steps.items) }
{
    let numbers = zeros(alloc, known.len())?;
    let weights = weights_of(alloc, known)?;
    let walked = numbered_steps(alloc, known, &weights, numbers, place, None)?;
    Ok(walked.steps)
}

/// Whether the line follows from others.
pub fn is_resolved(line: &CausedIncompatibility) -> bool
    ensures { IsTrue result ↔ IsResolved line.now.reason }
{
    match line.reason {
        Reason::Fact(_) => false,
        Reason::Resolved(_, _, _) => true,
    }
}

/// Whether the line follows from others, and says only that the root is chosen.
fn says_root_alone(line: &CausedIncompatibility) -> bool
    ensures { IsTrue result ↔ SaysRootAlone line.now }
{
    is_resolved(line) && is_root_alone(&line.conclusion)
}

/// The end, or the line that it resolves with the root's fact.
fn last_step(known: &[CausedIncompatibility], end: usize) -> usize
    requires ordered { AreOrdered known.now }
    requires end { EndsAt known.now end }
    ensures ends { IsEndLine known.now result }
    ensures early { EndsBefore known.now end → said_at known.now result ≡ (0, In (0 ∷ [])) ∷ [] }
{
    let (i, _, _) = cites(&known[end]);
    if says_root_alone(&known[i]) {
        return i;
    }
    end
}

/// The derivation of a refusal, cut from the lines of a search: those that the one at `end` rests
/// on, each written once, from facts. Where the end only resolves with the root's fact a line that may
/// end a derivation, the derivation ends with that line. Long runs of lines on one pivot are put
/// together pairwise. What they say is moved and not copied. Linear in the lines of the search, but
/// for the versions that the lines name which are put together anew.
pub fn extract_derivation(
    alloc: Global,
    known: Vec<CausedIncompatibility>,
    end: usize,
) -> Result<Derivation, AllocError>
    requires ordered { AreOrdered known.items }
    requires end { EndsAt known.items end }
    ensures derived { IfOk result (λ derivation. (packages : Packages) (wanted : Wanted) →
        AreLawful packages wanted known.items → IsDerivation packages wanted derivation) }
    ensures early { IfOk result (λ derivation. EndsBefore known.items end → last_conclusion derivation ≡ Some ((0, In (0 ∷ [])) ∷ [])) }
    ensures cited { IfOk result AreCited }
{
    let place = last_step(&known, end);
    let (lines, at) = paired(alloc, known, place)?;
    let steps = steps_of(alloc, &lines, at)?;
    let taken = lines_taken(alloc, lines, steps)?;
    Ok(Derivation::new(taken))
}
