//! Runs: lines of a search on one pivot, each of which only another one of the run cites.
//
// Where a package is ruled out version by version, its lines are a run. Which runs are found decides
// how a derivation is put together, and nothing else: no proof rests on them.

use crate::cutting::zeros;
use derivations::{CausedIncompatibility, Reason};
use std::alloc::{AllocError, Global};
use terms::Pkg;

/// From how many lines on a run is long: a shorter one names few versions, and reads well as it is. With a reason for
/// each of 1,024 versions a derivation has 0.4 MB instead of 7 MB as it was found.
/// Measured at half and at twice this value: docs/BENCHMARKS.md, Constants.
const LONG: usize = 16;

/// A chain of many resolution steps, each of which takes the conclusion of the one before it.
#[derive(Drop)]
pub struct LongRun {
    /// The place of its last line.
    pub end: usize,
    /// The places of the lines that it is put together from, which are none of its own, in order.
    pub parts: Vec<usize>,
}

/// The number at a place, 0 where there is none.
pub fn count_at(counts: &[usize], place: usize) -> usize {
    match counts.get(place) {
        Some(count) => *count,
        None => 0,
    }
}

/// Counts one more at a place.
fn count_one(counts: &mut Vec<usize>, place: usize) {
    if place < counts.len() {
        counts[place] = counts[place].saturating_add(1);
    }
}

/// Counts one more for each of the two lines that a line cites.
fn count_causes(counts: &mut Vec<usize>, line: &CausedIncompatibility) {
    match line.reason {
        Reason::Fact(_) => {}
        Reason::Resolved(i, j, _) => {
            count_one(counts, i);
            count_one(counts, j);
        }
    }
}

/// How often each line is cited by those that the one at a place rests on, which counts as cited once
/// itself.
fn uses_of(
    alloc: Global,
    known: &[CausedIncompatibility],
    place: usize,
) -> Result<Vec<usize>, AllocError> {
    let mut uses = zeros(alloc, known.len())?;
    count_one(&mut uses, place);
    for at in (0..known.len()).rev() {
        if count_at(&uses, at) > 0 {
            count_causes(&mut uses, &known[at]);
        }
    }
    Ok(uses)
}

/// The two lines that the one at a place follows from, where it does so on this pivot and is cited
/// once, as a line within a run is.
fn cited_within(
    known: &[CausedIncompatibility],
    uses: &[usize],
    place: usize,
    pivot: Pkg,
) -> Option<(usize, usize)> {
    let line = known.get(place)?;
    match line.reason {
        Reason::Fact(_) => None,
        Reason::Resolved(i, j, other) => {
            if other == pivot && count_at(uses, place) == 1 {
                Some((i, j))
            } else {
                None
            }
        }
    }
}

/// How many lines the run on this pivot has that ends at a place. Its only user goes on with it, so
/// that it ends there no more.
fn taken_over(
    known: &[CausedIncompatibility],
    uses: &[usize],
    lengths: &mut Vec<usize>,
    place: usize,
    pivot: Pkg,
) -> usize {
    if cited_within(known, uses, place, pivot).is_none() {
        return 0;
    }
    let length = count_at(lengths, place);
    if place < lengths.len() {
        lengths[place] = 0;
    }
    length
}

/// How many lines the run has that ends at the next line, which has this reason.
fn length_to(
    known: &[CausedIncompatibility],
    uses: &[usize],
    lengths: &mut Vec<usize>,
    reason: &Reason,
) -> usize {
    match reason {
        Reason::Fact(_) => 0,
        Reason::Resolved(i, j, pivot) => {
            if count_at(uses, lengths.len()) == 0 {
                return 0;
            }
            let first = taken_over(known, uses, lengths, *i, *pivot);
            let second = taken_over(known, uses, lengths, *j, *pivot);
            first.saturating_add(second).saturating_add(1)
        }
    }
}

/// Beside each line, how many the run has that ends there: 0 at a fact, within a run, and where nothing
/// is cited.
fn lengths_of(
    alloc: Global,
    known: &[CausedIncompatibility],
    uses: &[usize],
) -> Result<Vec<usize>, AllocError> {
    let mut lengths: Vec<usize> = Vec::with_capacity(alloc, known.len())?;
    'lines: for line in known {
        let length = length_to(known, uses, &mut lengths, &line.reason);
        lengths.push(length)?;
    }
    Ok(lengths)
}

/// What a run of so many lines is put together from, whose end follows from the lines at two places on
/// this pivot.
fn parts_of(
    alloc: Global,
    known: &[CausedIncompatibility],
    uses: &[usize],
    ends: (usize, usize),
    pivot: Pkg,
    length: usize,
) -> Result<Vec<usize>, AllocError> {
    let mut parts: Vec<usize> = Vec::with_capacity(alloc, length.saturating_add(1))?;
    let mut open: Vec<usize> = Vec::new(alloc);
    open.push(ends.1)?;
    open.push(ends.0)?;
    // the lines within the run, and its parts, of which there is one more than it has lines
    'open: for _step in 0..length.saturating_mul(2) {
        let Some(place) = open.pop() else {
            break 'open;
        };
        match cited_within(known, uses, place, pivot) {
            None => parts.push(place)?,
            Some((i, j)) => {
                open.push(j)?;
                open.push(i)?;
            }
        }
    }
    Ok(parts)
}

/// The long runs among the lines that the one at a place rests on, in the order of their ends. Linear
/// in the lines of the search.
pub fn long_runs(
    alloc: Global,
    known: &[CausedIncompatibility],
    place: usize,
) -> Result<Vec<LongRun>, AllocError> {
    let uses = uses_of(alloc, known, place)?;
    let lengths = lengths_of(alloc, known, &uses)?;
    let mut runs: Vec<LongRun> = Vec::new(alloc);
    for end in 0..known.len() {
        let length = count_at(&lengths, end);
        if length >= LONG {
            let line = &known[end];
            if let Reason::Resolved(i, j, pivot) = line.reason {
                let parts = parts_of(alloc, known, &uses, (i, j), pivot, length)?;
                runs.push(LongRun { end, parts })?;
            }
        }
    }
    Ok(runs)
}

/// How many lines the runs are put together from in all.
pub fn parts_in(runs: &[LongRun]) -> usize {
    let mut total: usize = 0;
    for run in runs {
        total = total.saturating_add(run.parts.len());
    }
    total
}

/// The first of these runs, where it ends at this place, and those that are left then.
pub fn run_to(runs: &[LongRun], place: usize) -> (Option<&LongRun>, &[LongRun]) {
    match runs {
        [run, rest @ ..] if run.end == place => (Some(run), rest),
        _ => (None, runs),
    }
}
