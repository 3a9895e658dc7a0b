//! A trace, shown by chains: no line is made for a step.
//
// Nothing that it says is believed: each fact is made anew as a line, and each conclusion follows by a chain from what
// was shown before it.

ghost use Rattle.std.specs.Prelude.{◌≡◌, ◌∷◌, ◌++◌, [], true, IfOk, OnOk};
ghost use Rattle.derivations.specs.Derivations.{IsRefuted};
ghost use Rattle.registry.specs.Registry.{Packages};
ghost use Rattle.registry.specs.Requests.{Wanted};
ghost use Rattle.checker.specs.Shown.{AreShown, IsShown};
ghost use Rattle.facts.specs.Lines.{AreLines};
ghost use Rattle.facts.specs.Tasks.{StoreStands};
ghost use Rattle.checker.specs.Showing.{AreConcluded};

use crate::chain::{Chain, Place};
use crate::laws::shown_refutes;
use crate::members::member_of;
use crate::replaying::push_fact_of;
use crate::table::{Conclusion, Stop};
use derivations::{CausedIncompatibility, ROOT};
use facts::{Sharing, begin_lines};
use oracle::{Record, Step, Task, Trace};
use std::alloc::{AllocError, Global};

/// What chains showed.
#[derive(Drop)]
pub(crate) struct Showing {
    chain: Chain,
    pub conclusions: Vec<Conclusion>,
    /// By record, where it is shown.
    pub places: Vec<Place>,
    /// How many terms the conclusions may have together that are still to be made.
    room: usize,
    sharing: Sharing,
}

impl Showing {
    /// Nothing yet, for conclusions that have at most so many terms together.
    pub fn new(task: &Task<'_>, room: usize) -> Result<Showing, AllocError>
        ensures { IfOk result (AreConcluded task.now) }
    {
        Ok(Showing {
            // The root is one of them.
            chain: Chain::new(task.alloc, task.registry.packages().saturating_add(1))?,
            conclusions: Vec::new(task.alloc),
            places: Vec::new(task.alloc),
            room,
            sharing: Sharing::new(task.alloc),
        })
    }

    /// Keeps a conclusion, and answers its place. An error is [`Stop::Unknown`] where there is no room for it.
    fn keep(&mut self, conclusion: Conclusion) -> Result<Place, Stop>
        ensures { OnOk result (self.new.conclusions.items ≡ self.old.conclusions.items ++ conclusion ∷ []) }
    {
        let count = conclusion.terms().len();
        if count > self.room {
            return Err(Stop::Unknown);
        }
        self.room -= count;
        let place = Place::Conclusion(self.conclusions.len());
        self.conclusions.push(conclusion)?;
        Ok(place)
    }
}

/// Resolves what a chain shows so far by a step.
fn take_step(
    alloc: Global,
    known: &[CausedIncompatibility],
    made: &[Conclusion],
    places: &[Place],
    chain: &mut Chain,
    step: &Step,
) -> Result<(), Stop>
    ensures { (packages : Packages) (wanted : Wanted) → AreShown packages wanted known.now made.now → IsShown packages wanted chain.old.table → OnOk result (IsShown packages wanted chain.new.table) }
{
    let Some(with) = places.get(step.with as usize).copied() else {
        return Err(Stop::Unknown);
    };
    chain.resolve(alloc, known, made, with, step.on)
}

/// What follows from a place by some steps.
fn follow(
    alloc: Global,
    known: &[CausedIncompatibility],
    made: &[Conclusion],
    places: &[Place],
    chain: &mut Chain,
    from: Place,
    steps: &[Step],
) -> Result<Conclusion, Stop>
    ensures { (packages : Packages) (wanted : Wanted) → AreShown packages wanted known.now made.now → IfOk result (IsShown packages wanted) }
{
    chain.start(alloc, known, made, from)?;
    for step in steps {
        take_step(alloc, known, made, places, chain, step)?;
    }
    Ok(chain.conclusion(alloc)?)
}

/// Shows what follows from a record by some steps, and answers its place, if that record is shown.
fn show_steps(
    task: &Task<'_>,
    known: &[CausedIncompatibility],
    showing: &mut Showing,
    from: u32,
    steps: &[Step],
) -> Result<Option<Place>, Stop>
    requires lines { AreLines task.now.registry.now.packages task.now.request.now known.now }
    requires shown { AreConcluded task.now showing.old }
    ensures { OnOk result (AreConcluded task.now showing.new) }
{
    let Some(first) = showing.places.get(from as usize).copied() else {
        return Ok(None);
    };
    let made = showing.conclusions.as_slice();
    let places = showing.places.as_slice();
    let conclusion = follow(
        task.alloc,
        known,
        made,
        places,
        &mut showing.chain,
        first,
        steps,
    )?;
    Ok(Some(showing.keep(conclusion)?))
}

/// Shows what the member in a place of the store says, and answers its place, if there is one. No line of it is made.
fn show_member(task: &Task<'_>, showing: &mut Showing, place: u32) -> Result<Option<Place>, Stop>
    requires stored { StoreStands task.now }
    requires shown { AreConcluded task.now showing.old }
    ensures { OnOk result (AreConcluded task.now showing.new) }
{
    let Some(member) = member_of(task, place) else {
        return Ok(None);
    };
    let conclusion = showing.chain.conclude_member(task.alloc, member)?;
    Ok(Some(showing.keep(conclusion)?))
}

/// Shows what a record says, and answers its place, if it says something.
fn show_record(
    task: &Task<'_>,
    known: &mut Vec<CausedIncompatibility>,
    showing: &mut Showing,
    trace: &Trace,
    record: Record,
) -> Result<Option<Place>, Stop>
    requires lines { AreLines task.now.registry.now.packages task.now.request.now known.old.items }
    requires stored { StoreStands task.now }
    requires shown { AreConcluded task.now showing.old }
    ensures lines { OnOk result (AreLines task.now.registry.now.packages task.now.request.now known.new.items) }
    ensures shown { OnOk result (AreConcluded task.now showing.new) }
{
    match record {
        Record::Follows { from, first, end } => {
            match trace.steps.as_slice().get(first as usize..end as usize) {
                None => Ok(None),
                Some(steps) => show_steps(task, known, showing, from, steps),
            }
        }
        Record::Member(place) => show_member(task, showing, place),
        Record::Need(_) | Record::Dependency { .. } | Record::NotAllowed(_) => {
            match push_fact_of(task, known, &mut showing.sharing, record)? {
                None => Ok(None),
                Some(at) => Ok(Some(Place::Line(at))),
            }
        }
    }
}

/// Shows what the records of a trace say, one after the other, and answers the place of the last one, if each says
/// something.
pub(crate) fn show_records(
    task: &Task<'_>,
    known: &mut Vec<CausedIncompatibility>,
    showing: &mut Showing,
    trace: &Trace,
) -> Result<Option<Place>, Stop>
    requires lines { AreLines task.now.registry.now.packages task.now.request.now known.old.items }
    requires stored { StoreStands task.now }
    requires shown { AreConcluded task.now showing.old }
    ensures lines { OnOk result (AreLines task.now.registry.now.packages task.now.request.now known.new.items) }
    ensures shown { OnOk result (AreConcluded task.now showing.new) }
{
    let mut last = None;
    for record in trace.records.as_slice() {
        last = show_record(task, known, showing, trace, *record)?;
        let Some(place) = last else {
            return Ok(None);
        };
        showing.places.push(place)?;
    }
    Ok(last)
}

/// Whether what is shown at a place leaves no selection: it has no term but the root's.
fn is_end(
    alloc: Global,
    known: &[CausedIncompatibility],
    made: &[Conclusion],
    chain: &mut Chain,
    last: Place,
) -> Result<bool, Stop>
    ensures { (packages : Packages) (wanted : Wanted) → AreShown packages wanted known.now made.now → IfOk result (λ yes. yes ≡ true → IsRefuted packages wanted) }
{
    shown_refutes();
    chain.start(alloc, known, made, last)?;
    chain.resolve(alloc, known, made, Place::Line(0), ROOT)?;
    let end = chain.conclusion(alloc)?;
    Ok(end.terms().is_empty())
}

/// Whether a trace shows behind the root's line that no selection meets the request.
fn is_refused_in(
    task: &Task<'_>,
    known: &mut Vec<CausedIncompatibility>,
    showing: &mut Showing,
    trace: &Trace,
) -> Result<bool, Stop>
    requires lines { AreLines task.now.registry.now.packages task.now.request.now known.old.items }
    requires stored { StoreStands task.now }
    requires shown { AreConcluded task.now showing.old }
    ensures { IfOk result (λ yes. yes ≡ true → IsRefuted task.now.registry.now.packages task.now.request.now) }
{
    let Some(last) = show_records(task, known, showing, trace)? else {
        return Ok(false);
    };
    is_end(
        task.alloc,
        known,
        &showing.conclusions,
        &mut showing.chain,
        last,
    )
}

/// Whether chains show by a trace that no selection meets the request.
pub fn is_refused_by_chains(task: &Task<'_>, trace: &Trace) -> Result<bool, AllocError>
    requires { StoreStands task.now }
    ensures { IfOk result (λ yes. yes ≡ true → IsRefuted task.now.registry.now.packages task.now.request.now) }
{
    let mut showing = Showing::new(task, usize::MAX)?;
    // Facts alone become lines.
    let mut known = begin_lines(task, trace.records.len() / 2)?;
    let shown = is_refused_in(task, &mut known, &mut showing, trace);
    drop(known);
    drop(showing);
    match shown {
        Ok(yes) => Ok(yes),
        Err(Stop::NoMemory) => Err(AllocError),
        Err(Stop::Unknown) => Ok(false),
    }
}
