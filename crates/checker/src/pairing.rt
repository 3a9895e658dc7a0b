//! Long runs put together pairwise.
//
// Each line of a run names one version more, or one less, than the line before it: for V versions all
// lines together V * V / 2. Put together pairwise, as many lines name V times the logarithm of V. What
// follows on one pivot does not depend on the order in which it is put together; that is not proved
// here, but asked of each run.

ghost use Rattle.std.specs.Prelude.{◌≡◌, ◌+◌, List, Some, IfOk, IfSome, OnOk, length, slice_get};
ghost use Rattle.derivations.specs.CausedIncompatibilities.{AreOrdered, FollowsFrom, IsBefore};
ghost use Rattle.checker.specs.Cutting.{IsResolvedAt};
ghost use Rattle.checker.specs.Pairing.{AreMoved, FollowsAs, Grows, IsReasonFor, IsSameSearch};
ghost use Rattle.derivations.specs.declared.known.CausedIncompatibility.{CausedIncompatibility};

use crate::runs::{LongRun, count_at, long_runs, parts_in, run_to};
use derivations::{CausedIncompatibility, Reason, has_pivot};
use std::alloc::{AllocError, Global};
use terms::{Incompat, Pkg, resolve};

/// What follows from the lines at two places on a pivot, where they are there and one of them has a
/// term on it.
fn said_by_both(
    alloc: Global,
    lines: &[CausedIncompatibility],
    places: (usize, usize),
    pivot: Pkg,
) -> Result<Option<Incompat>, AllocError>
    ensures { IfOk result (λ found. IfSome found (λ terms. FollowsFrom lines.now terms places.0 places.1 pivot)) }
{
    let (i, j) = places;
    if i >= lines.len() {
        return Ok(None);
    }
    if j >= lines.len() {
        return Ok(None);
    }
    let one = &lines[i];
    let two = &lines[j];
    if !has_pivot(&one.conclusion, &two.conclusion, pivot) {
        return Ok(None);
    }
    let said = resolve(alloc, &one.conclusion, &two.conclusion, pivot)?;
    Ok(Some(said))
}

/// Puts what follows from two lines on a pivot behind the lines: its place, if it follows.
fn push_both(
    alloc: Global,
    lines: &mut Vec<CausedIncompatibility>,
    places: (usize, usize),
    pivot: Pkg,
) -> Result<Option<usize>, AllocError>
    ensures { OnOk result (Grows lines.old.items lines.new.items) }
{
    let Some(conclusion) = said_by_both(alloc, lines, places, pivot)? else {
        return Ok(None);
    };
    let at = lines.as_slice().len();
    lines.push(CausedIncompatibility {
        conclusion,
        reason: Reason::Resolved(places.0, places.1, pivot),
    })?;
    Ok(Some(at))
}

/// Puts what follows from each two neighbours behind the lines. The places of these, and of the last
/// part where it has no neighbour; none where something does not follow.
fn push_pairs(
    alloc: Global,
    lines: &mut Vec<CausedIncompatibility>,
    parts: &[usize],
    pivot: Pkg,
) -> Result<Option<Vec<usize>>, AllocError>
    ensures { OnOk result (Grows lines.old.items lines.new.items) }
{
    let mut places: Vec<usize> = Vec::with_capacity(alloc, parts.len())?;
    let mut left = parts;
    'pairs: while let [i, j, rest @ ..] = left {
        match push_both(alloc, lines, (*i, *j), pivot)? {
            None => return Ok(None),
            Some(at) => places.push(at)?,
        }
        left = rest;
    }
    if let [last] = left {
        places.push(*last)?;
    }
    Ok(Some(places))
}

/// The line that is left when these parts are put together pairwise again and again.
fn push_all(
    alloc: Global,
    lines: &mut Vec<CausedIncompatibility>,
    parts: Vec<usize>,
    pivot: Pkg,
) -> Result<Option<usize>, AllocError>
    ensures { OnOk result (Grows lines.old.items lines.new.items) }
{
    let mut left = parts;
    // Each round halves what is left, so that no list takes more rounds.
    'halve: for _round in 0..64 {
        if let [only] = left.as_slice() {
            return Ok(Some(*only));
        }
        match push_pairs(alloc, lines, &left, pivot)? {
            None => return Ok(None),
            Some(places) => left = places,
        }
    }
    Ok(None)
}

/// Where the lines at these places have moved to.
fn places_among(
    alloc: Global,
    places: &[usize],
    parts: &[usize],
) -> Result<Vec<usize>, AllocError> {
    let mut moved: Vec<usize> = Vec::with_capacity(alloc, parts.len())?;
    for part in parts {
        moved.push(count_at(places, *part))?;
    }
    Ok(moved)
}

/// The two lines that a run comes to, where they say together what its end does: what its parts say
/// put together pairwise, and the last part.
fn paired_ends(
    alloc: Global,
    lines: &mut Vec<CausedIncompatibility>,
    conclusion: &Incompat,
    parts: Vec<usize>,
    pivot: Pkg,
) -> Result<Option<(usize, usize)>, AllocError>
    ensures grows { OnOk result (Grows lines.old.items lines.new.items) }
    ensures follows { IfOk result (λ found. IfSome found (λ two. FollowsFrom lines.new.items conclusion.now two.0 two.1 pivot)) }
{
    let mut others = parts;
    let Some(last) = others.pop() else {
        return Ok(None);
    };
    let Some(all) = push_all(alloc, lines, others, pivot)? else {
        return Ok(None);
    };
    let Some(said) = said_by_both(alloc, lines, (all, last), pivot)? else {
        return Ok(None);
    };
    if !said.is_same(conclusion) {
        return Ok(None);
    }
    Ok(Some((all, last)))
}

/// The two lines that a line is to follow from: those that the run comes to pairwise which it ends, else
/// the two from which it follows already.
fn ends_for(
    alloc: Global,
    lines: &mut Vec<CausedIncompatibility>,
    places: &[usize],
    conclusion: &Incompat,
    ends: (usize, usize),
    pivot: Pkg,
    run: Option<&LongRun>,
) -> Result<(usize, usize), AllocError>
    ensures grows { OnOk result (Grows lines.old.items lines.new.items) }
    ensures follows { IfOk result (FollowsAs lines.old.items lines.new.items conclusion.now pivot ends) }
{
    let Some(run) = run else {
        return Ok(ends);
    };
    let parts = places_among(alloc, places, &run.parts)?;
    match paired_ends(alloc, lines, conclusion, parts, pivot)? {
        None => Ok(ends),
        Some(two) => Ok(two),
    }
}

/// A line of the search as it is to stand behind the moved ones, and the run that it ends, if any.
fn line_among(
    alloc: Global,
    lines: &mut Vec<CausedIncompatibility>,
    places: &[usize],
    line: CausedIncompatibility,
    run: Option<&LongRun>,
) -> Result<CausedIncompatibility, AllocError>
    requires { IsBefore (length places.now) line.reason }
    ensures grows { OnOk result (Grows lines.old.items lines.new.items) }
    ensures same { IfOk result (λ own. own.conclusion ≡ line.conclusion) }
    ensures stands { IfOk result (λ own. (known : List CausedIncompatibility) → slice_get known (length places.now) ≡ Some line
        → AreMoved known lines.old.items places.now → IsReasonFor known lines.new.items line own.reason) }
{
    let CausedIncompatibility { conclusion, reason } = line;
    match reason {
        Reason::Fact(cause) => Ok(CausedIncompatibility {
            conclusion,
            reason: Reason::Fact(cause),
        }),
        Reason::Resolved(i, j, pivot) => {
            let ends = (places[i], places[j]);
            let two = ends_for(alloc, lines, places, &conclusion, ends, pivot, run)?;
            Ok(CausedIncompatibility {
                conclusion,
                reason: Reason::Resolved(two.0, two.1, pivot),
            })
        }
    }
}

/// Puts a line of the search behind the moved ones; the run that it ends, if any, is put together
/// pairwise before it.
fn move_line(
    alloc: Global,
    lines: &mut Vec<CausedIncompatibility>,
    places: &mut Vec<usize>,
    line: CausedIncompatibility,
    run: Option<&LongRun>,
) -> Result<(), AllocError>
    requires { IsBefore (length places.old.items) line.reason }
    ensures counted { OnOk result (length places.new.items ≡ length places.old.items + 1) }
    ensures moved { OnOk result ((known : List CausedIncompatibility) → slice_get known (length places.old.items) ≡ Some line
        → AreMoved known lines.old.items places.old.items → AreMoved known lines.new.items places.new.items) }
{
    let own = line_among(alloc, lines, places, line, run)?;
    let at = lines.as_slice().len();
    lines.push(own)?;
    places.push(at)?;
    Ok(())
}

/// The lines of a search among which each long run that the one at a place rests on is put together
/// pairwise, and where that line stands among them. Linear in the lines of the search, but for the
/// versions that the new lines name.
pub fn paired(
    alloc: Global,
    known: Vec<CausedIncompatibility>,
    place: usize,
) -> Result<(Vec<CausedIncompatibility>, usize), AllocError>
    requires ordered { AreOrdered known.items }
    requires resolved { IsResolvedAt known.items place }
    ensures { IfOk result (λ made. IsSameSearch known.items place made.0.items made.1) }
{
    let runs = long_runs(alloc, &known, place)?;
    if runs.is_empty() {
        return Ok((known, place));
    }
    let room = known.len().saturating_add(parts_in(&runs));
    let mut lines: Vec<CausedIncompatibility> = Vec::with_capacity(alloc, room)?;
    let mut places: Vec<usize> = Vec::with_capacity(alloc, known.len())?;
    let mut left = runs.as_slice();
    for line in known {
        let (run, rest) = run_to(left, places.len());
        move_line(alloc, &mut lines, &mut places, line, run)?;
        left = rest;
    }
    let at = places[place];
    Ok((lines, at))
}
