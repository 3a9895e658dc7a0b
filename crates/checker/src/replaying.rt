//! The trace of a refusal, derived again line by line.
//
// Nothing that it says is believed: each fact is made anew, and each line follows from two that stand there. A
// step that does not fit is passed over; so a trace that lies leads to no line without terms, or to a true one.

ghost use Rattle.std.specs.Prelude.{◌≡◌, ◌<◌, true, IfOk, IfSome, OnOk};
ghost use Rattle.terms.specs.Incompats.{has_term};
ghost use Rattle.derivations.specs.Derivations.{NoneAllowed};
ghost use Rattle.facts.specs.Lines.{AreLines, AtLine};
ghost use Rattle.facts.specs.Pushing.{Extends};
ghost use Rattle.facts.specs.Tasks.{Refuses, StoreStands};

use crate::members::{member_of, push_learnt};
use derivations::{CausedIncompatibility, ROOT, empty_is_no_fact};
use facts::{
    Sharing, begin_lines, is_package, line_from, lines_grow, push_barred, push_need, push_shared,
};
use oracle::{Record, Step, Task, Trace};
use registry::ordinals_are_below_the_count;
use std::alloc::{AllocError, Global};
use terms::{Pkg, Relation, VSet, relation};

/// A refusal by more lines than these teaches nothing: that would take as long as the search, and the next search would gain
/// little by it.
/// Measured: docs/BENCHMARKS.md, Constants.
const LEARNT_STEPS: usize = 80;

/// What is derived from the trace of a selection has at most so many terms together, and so many more for each of its
/// steps. Each incompatibility can name each package that was decided before: without a limit their memory would grow
/// with the square of their number.
/// Measured at half and at twice this value: docs/BENCHMARKS.md, Constants.
const MOST_TERMS: usize = 65_536;

const MOST_TERMS_A_STEP: usize = 64;

/// How many terms what is derived from the trace of a selection may have together.
pub(crate) fn terms_room(trace: &Trace) -> usize {
    let more = trace.steps.len().saturating_mul(MOST_TERMS_A_STEP);
    MOST_TERMS.saturating_add(more)
}

/// Lines that show that no selection meets a request.
#[derive(Drop)]
pub struct Replayed {
    pub known: Vec<CausedIncompatibility>,
    /// The place of one without terms.
    pub end: usize,
    /// The places of the lines that conflicts led to.
    pub learnt: Vec<usize>,
}

/// The places of what was derived.
#[derive(Drop)]
struct Places {
    /// By record, the place of its line.
    of_records: Vec<usize>,
    /// Those of the lines that conflicts led to.
    learnt: Vec<usize>,
    /// How many terms the lines may have together that are still to be derived by steps.
    room: usize,
    sharing: Sharing,
}

impl Places {
    /// None yet, for lines that have at most so many terms together.
    fn with_room(alloc: Global, room: usize) -> Places {
        Places {
            of_records: Vec::new(alloc),
            learnt: Vec::new(alloc),
            room,
            sharing: Sharing::new(alloc),
        }
    }
}

// ---- lines

/// Whether the line at a place, if there is one, has a term on a package.
fn has_term_at(known: &[CausedIncompatibility], at: usize, pkg: Pkg) -> bool
    ensures { result ≡ true → AtLine known.now at (λ line. has_term line.conclusion pkg ≡ true) }
{
    match known.get(at) {
        None => false,
        Some(line) => line.conclusion.has_term(pkg),
    }
}

/// Whether the term of a line on a package satisfies that of another one.
fn is_within(known: &[CausedIncompatibility], at: usize, of: usize, pkg: Pkg) -> bool {
    let (Some(line), Some(other)) = (known.get(at), known.get(of)) else {
        return false;
    };
    match (line.conclusion.term_on(pkg), other.conclusion.term_on(pkg)) {
        (Some(term), Some(of)) => relation(term, of) == Relation::Satisfies,
        (_, _) => false,
    }
}

/// Resolves the line at a place with another one on a package, and answers the place of what follows: of one of the two
/// where that has no term on the package.
fn resolve_on(
    task: &Task<'_>,
    known: &mut Vec<CausedIncompatibility>,
    at: usize,
    with: usize,
    on: Pkg,
) -> Result<usize, AllocError>
    ensures { OnOk result (Extends task.now known.old.items known.new.items) }
{
    lines_grow();
    if !has_term_at(known, at, on) {
        return Ok(at);
    }
    // What would follow has its terms too, so it says no more.
    if !has_term_at(known, with, on) {
        return Ok(with);
    }
    // What follows would say less than one of the two: it has the other terms of both, and no more on this package.
    if is_within(known, with, at, on) {
        return Ok(at);
    }
    if is_within(known, at, with, on) {
        return Ok(with);
    }
    let line = line_from(task.alloc, known, at, with, on)?;
    let place = known.as_slice().len();
    known.push(line)?;
    Ok(place)
}

/// Derives what follows by a step from the line at a place, if that is one. Answers its place.
fn take_step(
    task: &Task<'_>,
    known: &mut Vec<CausedIncompatibility>,
    places: &[usize],
    at: usize,
    step: &Step,
) -> Result<usize, AllocError>
    ensures { OnOk result (Extends task.now known.old.items known.new.items) }
{
    match places.get(step.with as usize).copied() {
        None => Ok(at),
        Some(with) => resolve_on(task, known, at, with, step.on),
    }
}

/// How many terms the line at a place has; none if there is no line.
fn terms_count(known: &[CausedIncompatibility], at: usize) -> usize {
    match known.get(at) {
        None => 0,
        Some(line) => line.conclusion.terms().len(),
    }
}

/// Derives what follows by some steps from the line of a record, if that was derived and there is room for the terms of
/// what follows. Answers its place, and lessens the room.
fn follow(
    task: &Task<'_>,
    known: &mut Vec<CausedIncompatibility>,
    places: &[usize],
    room: &mut usize,
    from: u32,
    steps: &[Step],
) -> Result<Option<usize>, AllocError>
    ensures { OnOk result (Extends task.now known.old.items known.new.items) }
{
    let Some(first) = places.get(from as usize).copied() else {
        return Ok(None);
    };
    let mut at = first;
    for step in steps {
        at = take_step(task, known, places, at, step)?;
        let count = terms_count(known, at);
        if count > *room {
            return Ok(None);
        }
        *room -= count;
    }
    Ok(Some(at))
}

// ---- facts

/// Puts the need with an index behind the lines, if there is one.
fn push_need_at(
    task: &Task<'_>,
    known: &mut Vec<CausedIncompatibility>,
    index: usize,
) -> Result<Option<usize>, AllocError>
    ensures { OnOk result (Extends task.now known.old.items known.new.items) }
{
    if index >= task.request.needs().len() {
        return Ok(None);
    }
    Ok(Some(push_need(task, known, index)?))
}

/// Puts the dependency of a version at an index behind the lines, if there is one.
fn push_dependency_at(
    task: &Task<'_>,
    known: &mut Vec<CausedIncompatibility>,
    sharing: &mut Sharing,
    pkg: Pkg,
    ordinal: u32,
    index: usize,
) -> Result<Option<usize>, AllocError>
    ensures { OnOk result (Extends task.now known.old.items known.new.items) }
{
    let Some(facts) = task.registry.facts_at(pkg, ordinal) else {
        return Ok(None);
    };
    if index >= facts.needs.len() {
        return Ok(None);
    }
    push_shared(task, known, sharing, pkg, ordinal, index)
}

/// The versions of a package that are not allowed.
fn barred_of(task: &Task<'_>, pkg: Pkg) -> Result<VSet, AllocError>
    ensures { IfOk result (NoneAllowed task.now.registry.now.packages task.now.request.now pkg) }
{
    ordinals_are_below_the_count();
    let mut barred = VSet::new(task.alloc);
    for ordinal in 0..task.registry.version_count(pkg) {
        if !task.registry.allowed(task.request, pkg, ordinal) {
            barred.insert(ordinal)?;
        }
    }
    Ok(barred)
}

/// Puts behind the lines which versions of a package are not allowed, if it is one.
fn push_barred_of(
    task: &Task<'_>,
    known: &mut Vec<CausedIncompatibility>,
    pkg: Pkg,
) -> Result<Option<usize>, AllocError>
    ensures { OnOk result (Extends task.now known.old.items known.new.items) }
{
    if !is_package(task, pkg) {
        return Ok(None);
    }
    let barred = barred_of(task, pkg)?;
    Ok(Some(push_barred(task, known, pkg, barred)?))
}

/// Puts the lines of the member in a place of the store behind the lines, if there is one.
fn push_member_at(
    task: &Task<'_>,
    known: &mut Vec<CausedIncompatibility>,
    place: u32,
) -> Result<Option<usize>, AllocError>
    requires { StoreStands task.now }
    ensures { OnOk result (Extends task.now known.old.items known.new.items) }
{
    match member_of(task, place) {
        None => Ok(None),
        Some(learnt) => Ok(Some(push_learnt(task, known, learnt)?)),
    }
}

// ---- records

/// Derives what follows by a part of the steps of a trace.
fn push_follows(
    task: &Task<'_>,
    known: &mut Vec<CausedIncompatibility>,
    places: &mut Places,
    from: u32,
    steps: Option<&[Step]>,
) -> Result<Option<usize>, AllocError>
    ensures { OnOk result (Extends task.now known.old.items known.new.items) }
{
    let Some(steps) = steps else {
        return Ok(None);
    };
    let mut room = places.room;
    let place = follow(task, known, &places.of_records, &mut room, from, steps)?;
    places.room = room;
    if let Some(at) = place {
        places.learnt.push(at)?;
    }
    Ok(place)
}

/// Puts the fact that a record names behind the lines, if it names one, and answers its place.
pub(crate) fn push_fact_of(
    task: &Task<'_>,
    known: &mut Vec<CausedIncompatibility>,
    sharing: &mut Sharing,
    record: Record,
) -> Result<Option<usize>, AllocError>
    requires { StoreStands task.now }
    ensures { OnOk result (Extends task.now known.old.items known.new.items) }
{
    match record {
        Record::Need(index) => push_need_at(task, known, index),
        Record::Dependency {
            pkg,
            ordinal,
            index,
        } => push_dependency_at(task, known, sharing, pkg, ordinal, index),
        Record::NotAllowed(pkg) => push_barred_of(task, known, pkg),
        Record::Member(place) => push_member_at(task, known, place),
        Record::Follows { .. } => Ok(None),
    }
}

/// Derives what a record says, and answers the place of its line, if it says something.
fn push_record(
    task: &Task<'_>,
    known: &mut Vec<CausedIncompatibility>,
    places: &mut Places,
    trace: &Trace,
    record: Record,
) -> Result<Option<usize>, AllocError>
    requires { StoreStands task.now }
    ensures { OnOk result (Extends task.now known.old.items known.new.items) }
{
    if let Record::Follows { from, first, end } = record {
        let steps = trace.steps.as_slice().get(first as usize..end as usize);
        return push_follows(task, known, places, from, steps);
    }
    push_fact_of(task, known, &mut places.sharing, record)
}

/// Derives what the records of a trace say, one after the other, and answers the place of the last one's line,
/// if each says something.
fn push_records(
    task: &Task<'_>,
    known: &mut Vec<CausedIncompatibility>,
    places: &mut Places,
    trace: &Trace,
) -> Result<Option<usize>, AllocError>
    requires { StoreStands task.now }
    ensures { OnOk result (Extends task.now known.old.items known.new.items) }
{
    let mut last = None;
    for record in trace.records.as_slice() {
        last = push_record(task, known, places, trace, *record)?;
        let Some(at) = last else {
            return Ok(None);
        };
        places.of_records.push(at)?;
    }
    Ok(last)
}

// ---- the trace

/// The place of a line without terms, if the line at a place has none but the root's.
fn end_of(
    task: &Task<'_>,
    known: &mut Vec<CausedIncompatibility>,
    last: usize,
) -> Result<Option<usize>, AllocError>
    requires { AreLines task.now.registry.now.packages task.now.request.now known.old.items }
    ensures { IfOk result (λ end. IfSome end (Refuses task.now known.new.items)) }
{
    empty_is_no_fact();
    let end = resolve_on(task, known, last, 0, ROOT)?;
    match known.as_slice().get(end) {
        Some(line) if line.conclusion.terms().is_empty() => Ok(Some(end)),
        Some(_) | None => Ok(None),
    }
}

/// Derives what a trace says behind the root's line, and answers the place of a line without terms, if there is
/// one.
fn replay_in(
    task: &Task<'_>,
    known: &mut Vec<CausedIncompatibility>,
    places: &mut Places,
    trace: &Trace,
) -> Result<Option<usize>, AllocError>
    requires lines { AreLines task.now.registry.now.packages task.now.request.now known.old.items }
    requires stored { StoreStands task.now }
    ensures { IfOk result (λ end. IfSome end (Refuses task.now known.new.items)) }
{
    match push_records(task, known, places, trace)? {
        None => Ok(None),
        Some(last) => end_of(task, known, last),
    }
}

/// Derives again what a trace says: that no selection meets the request, if it is right.
pub fn replay(task: &Task<'_>, trace: &Trace) -> Result<Option<Replayed>, AllocError>
    requires { StoreStands task.now }
    ensures { IfOk result (λ found. IfSome found (λ replayed. Refuses task.now replayed.known.items replayed.end)) }
{
    let mut places = Places::with_room(task.alloc, usize::MAX);
    let mut known = begin_lines(task, trace.records.len())?;
    let end = replay_in(task, &mut known, &mut places, trace);
    let Places {
        of_records,
        learnt,
        sharing,
        ..
    } = places;
    drop(of_records);
    drop(sharing);
    match end? {
        None => Ok(None),
        Some(end) => Ok(Some(Replayed { known, end, learnt })),
    }
}

// ---- what was learnt on the way to a selection

/// What a trace says that may be learnt: the lines, and the places of those that conflicts led to.
#[derive(Drop)]
pub struct ReplayedLearnt {
    pub known: Vec<CausedIncompatibility>,
    pub learnt: Vec<usize>,
}

/// How many lines are derived for a record, unless it follows from others.
fn lines_of(task: &Task<'_>, record: Record) -> usize {
    match record {
        Record::Member(place) => match task.store.member(place) {
            None => 0,
            Some(member) => member.lines().len(),
        },
        Record::Need(_)
        | Record::Dependency { .. }
        | Record::NotAllowed(_)
        | Record::Follows { .. } => 0,
    }
}

/// Whether the trace of a refusal takes at most `LEARNT_STEPS` lines: one for each step, and those of the members that it
/// names.
fn is_short(task: &Task<'_>, trace: &Trace) -> bool {
    let mut lines = trace.steps.len();
    for record in trace.records.as_slice() {
        if lines > LEARNT_STEPS {
            return false;
        }
        lines = lines.saturating_add(lines_of(task, *record));
    }
    lines <= LEARNT_STEPS
}

/// Whether one member of the store, or none, says with the needs all that the trace of a refusal says.
fn is_known(trace: &Trace) -> bool {
    let mut has_member = false;
    for record in trace.records.as_slice() {
        match *record {
            Record::Need(_) | Record::Follows { .. } => {}
            Record::Member(_) if !has_member => has_member = true,
            Record::Member(_) | Record::Dependency { .. } | Record::NotAllowed(_) => return false,
        }
    }
    true
}

/// Whether something may be learnt of the trace of a refusal: it is short, and says more than one member does. Else its
/// lines would be derived for nothing: in the workload `chain`, 172 of 200 requests are refused by one member.
pub fn may_teach(task: &Task<'_>, trace: &Trace) -> bool {
    !is_known(trace) && is_short(task, trace)
}

/// Derives again what a trace says.
pub fn replay_learnt(task: &Task<'_>, trace: &Trace) -> Result<ReplayedLearnt, AllocError>
    requires { StoreStands task.now }
    ensures { IfOk result (λ replayed. AreLines task.now.registry.now.packages task.now.request.now replayed.known.items) }
{
    let mut places = Places::with_room(task.alloc, terms_room(trace));
    let mut known = begin_lines(task, trace.records.len())?;
    let said = push_records(task, &mut known, &mut places, trace);
    let Places {
        of_records,
        learnt,
        sharing,
        ..
    } = places;
    drop(of_records);
    drop(sharing);
    let _last = said?;
    Ok(ReplayedLearnt { known, learnt })
}
