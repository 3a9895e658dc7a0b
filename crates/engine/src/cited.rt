//! What a refusal rests on: few of the incompatibilities, mostly.

use crate::engine::Engine;
use crate::plain::is_plain;
use propagation::{Bits, Entry, Origin, Step, Stop, Term, at, at_mut, count_of};
use std::alloc::{AllocError, Global};

/// By how many steps what is told of what was learnt follows at most, all of it together: more is not offered to be
/// learnt.
/// Measured at half and at twice this value: docs/BENCHMARKS.md, Constants.
const LEARNT_STEPS: u32 = 1024;

/// What is cited by a refusal, directly or not.
#[derive(Drop)]
pub(crate) struct Cited {
    /// The incompatibilities, by index.
    pub incompats: Vec<bool>,
    /// The entries of the trail, by place.
    pub entries: Vec<bool>,
    /// The packages, by index, of which it is used that versions are not allowed.
    pub barred: Vec<bool>,
    /// The entries that rule better versions out, by place, but for what is seen without them.
    pub better: Vec<u32>,
    /// Cited entries whose reasons were not looked at.
    unread: Vec<u32>,
    /// Whether the trace is that of a selection, in which a term goes by the entries that take from it what is left.
    is_of_selection: bool,
}

/// So many marks, none of them set.
pub(crate) fn unset(alloc: Global, count: u32) -> Result<Vec<bool>, AllocError> {
    let mut marks = Vec::with_capacity(alloc, count as usize)?;
    for _ in 0..count {
        marks.push(false)?;
    }
    Ok(marks)
}

/// Whether a mark is set.
pub(crate) fn is_set(marks: &[bool], index: u32) -> bool {
    marks.get(index as usize).copied() == Some(true)
}

/// How many of the steps in a range are told.
fn resolved_in(steps: &[Step], first: u32, end: u32) -> Result<u32, Stop> {
    let mut count = 0u32;
    for index in first..end {
        match *at(steps, index)? {
            Step::Resolved { .. } => count = count.saturating_add(1),
            Step::LeftOut { .. } => {}
        }
    }
    Ok(count)
}

/// Whether one of some choices of a package is better than the selected ones.
fn is_any_better(
    engine: &Engine<'_>,
    variable: u32,
    versions: Bits,
    selected: Bits,
) -> Result<bool, Stop> {
    if versions.is_empty() {
        return Ok(false);
    }
    let pkg = engine.trail.variable(variable)?.pkg;
    let best = engine.best_choice(variable, pkg, versions.or(selected))?;
    Ok(!selected.has(best))
}

/// The further page whose choice an entry took since no version on it is left, if it took one so.
fn emptied_page(engine: &Engine<'_>, entry: &Entry, choices: Bits) -> Result<Option<u32>, Stop> {
    let Some(reason) = entry.reason else {
        return Ok(None);
    };
    match (engine.incompats.origin(reason)?, choices.only()) {
        (Origin::Page, Some(choice)) => engine.opened(entry.variable, choice),
        (_, _) => Ok(None),
    }
}

impl Cited {
    fn new(engine: &Engine<'_>, is_of_selection: bool) -> Result<Cited, Stop> {
        let alloc = engine.task.alloc;
        Ok(Cited {
            incompats: unset(alloc, engine.incompats.count())?,
            entries: unset(alloc, count_of(engine.trail.entries().len()))?,
            barred: unset(alloc, count_of(engine.trail.variables().len()))?,
            better: Vec::new(alloc),
            unread: Vec::new(alloc),
            is_of_selection,
        })
    }

    fn cite(&mut self, incompat: u32) -> Result<(), Stop> {
        *at_mut(&mut self.incompats, incompat)? = true;
        Ok(())
    }

    /// Cites what level 0 says of a package from an entry on, or from the beginning.
    fn cite_entry(
        &mut self,
        engine: &Engine<'_>,
        variable: u32,
        since: Option<u32>,
    ) -> Result<(), Stop> {
        let Some(place) = since else {
            *at_mut(&mut self.barred, engine.package(variable)?)? = true;
            return Ok(());
        };
        if !is_set(&self.entries, place) {
            *at_mut(&mut self.entries, place)? = true;
            self.unread.push(place)?;
        }
        Ok(())
    }

    /// Cites the entries by whose lines a term goes, the last one first, up to a decision.
    fn cite_lines(&mut self, engine: &Engine<'_>, term: &Term) -> Result<(), Stop> {
        let row = engine.trail.variable(term.variable)?;
        let mut choices = term.choices;
        let mut place = engine.trail.satisfier(row.last, choices)?;
        for _ in 0..engine.trail.entries().len() {
            self.cite_entry(engine, term.variable, place)?;
            let Some(here) = place else {
                return Ok(());
            };
            let entry = engine.trail.entry(here)?;
            let Some(reason) = entry.reason else {
                return Ok(());
            };
            choices = choices.or(engine.incompats.choices_on(reason, term.variable)?);
            if row.all.is_within(choices) {
                return Ok(());
            }
            place = engine.trail.satisfier(entry.previous, choices)?;
        }
        Ok(())
    }

    /// Cites what satisfies a term: at level 0, or in a selection.
    fn cite_satisfier(&mut self, engine: &Engine<'_>, term: &Term) -> Result<(), Stop> {
        if self.is_of_selection {
            return self.cite_lines(engine, term);
        }
        let last = engine.trail.variable(term.variable)?.last;
        let since = engine.trail.satisfier(last, term.choices)?;
        self.cite_entry(engine, term.variable, since)
    }

    /// Cites the reason of an entry, and what satisfied its other terms.
    fn cite_reason(&mut self, engine: &Engine<'_>, place: u32) -> Result<(), Stop> {
        let entry = engine.trail.entry(place)?;
        // A decision has none.
        let Some(reason) = entry.reason else {
            return Ok(());
        };
        self.cite(reason)?;
        if !self.is_of_selection {
            self.cite_entry(engine, entry.variable, entry.previous)?;
        }
        for term in engine.incompats.terms(reason)? {
            if term.variable != entry.variable {
                self.cite_satisfier(engine, term)?;
            }
        }
        Ok(())
    }

    /// Cites the reasons of all entries that are cited.
    fn cite_reasons(&mut self, engine: &Engine<'_>) -> Result<(), Stop> {
        for _ in 0..self.entries.len() {
            let Some(place) = self.unread.pop() else {
                return Ok(());
            };
            self.cite_reason(engine, place)?;
        }
        Ok(())
    }

    /// Cites what level 0 says of a package from an entry on, and all entries of the package before.
    fn cite_entries(
        &mut self,
        engine: &Engine<'_>,
        variable: u32,
        since: Option<u32>,
    ) -> Result<(), Stop> {
        let mut place = since;
        for _ in 0..engine.trail.entries().len() {
            self.cite_entry(engine, variable, place)?;
            let Some(here) = place else {
                return Ok(());
            };
            place = engine.trail.entry(here)?.previous;
        }
        Ok(())
    }

    /// Cites a step.
    fn cite_step(&mut self, engine: &Engine<'_>, step: Step) -> Result<(), Stop> {
        match step {
            Step::Resolved { with, .. } => self.cite(with),
            Step::LeftOut { on, since } if self.is_of_selection => {
                self.cite_entries(engine, on, since)
            }
            Step::LeftOut { on, since } => self.cite_entry(engine, on, since),
        }
    }

    /// Cites what an incompatibility was learnt from, if it was.
    fn cite_source(&mut self, engine: &Engine<'_>, incompat: u32) -> Result<(), Stop> {
        let Origin::Learnt {
            conflict,
            first,
            end,
        } = engine.incompats.origin(incompat)?
        else {
            return Ok(());
        };
        self.cite(conflict)?;
        for index in first..end {
            self.cite_step(engine, *at(&engine.steps, index)?)?;
        }
        self.cite_reasons(engine)
    }

    /// Cites a conflict of level 0.
    fn cite_conflict(&mut self, engine: &Engine<'_>, conflict: u32) -> Result<(), Stop> {
        self.cite(conflict)?;
        for term in engine.incompats.terms(conflict)? {
            self.cite_satisfier(engine, term)?;
        }
        Ok(())
    }

    /// Cites the entries of a page by which versions were ruled out that are better than the selected choices, but for those
    /// whose versions are plainly out behind the packages that are passed. Where all versions of a further page are, that is
    /// listed to be looked at.
    fn cite_better_on(
        &mut self,
        engine: &Engine<'_>,
        passed: &[bool],
        variable: u32,
        selected: Bits,
        further: &mut Vec<u32>,
    ) -> Result<(), Stop> {
        let row = engine.trail.variable(variable)?;
        let mut after = row.left;
        let mut place = row.last;
        for _ in 0..engine.trail.entries().len() {
            let Some(here) = place else {
                return Ok(());
            };
            let entry = engine.trail.entry(here)?;
            let versions = entry.before.minus(after).minus(Bits::absence());
            if is_any_better(engine, variable, versions, selected)? {
                match emptied_page(engine, entry, versions)? {
                    Some(page) => further.push(page)?,
                    None if is_plain(engine, passed, entry)? => {}
                    None => {
                        self.cite_entry(engine, variable, place)?;
                        self.better.push(here)?;
                    }
                }
            }
            after = entry.before;
            place = entry.previous;
        }
        Ok(())
    }

    /// As `cite_better_on`, of the pages of which all versions are better than the selected one.
    fn cite_further(
        &mut self,
        engine: &Engine<'_>,
        passed: &[bool],
        further: &mut Vec<u32>,
    ) -> Result<(), Stop> {
        for _ in 0..engine.page_of.len() {
            let Some(page) = further.pop() else {
                return Ok(());
            };
            self.cite_better_on(engine, passed, page, Bits::none(), further)?;
        }
        Ok(())
    }

    /// Cites the entries by which versions of a package were ruled out that are better than the selected one, but for those
    /// whose versions are plainly out.
    fn cite_better(
        &mut self,
        engine: &Engine<'_>,
        passed: &[bool],
        package: u32,
    ) -> Result<(), Stop> {
        let mut further = Vec::new(engine.task.alloc);
        let mut page = package;
        for _ in 0..engine.trail.variables().len() {
            let selected = engine.trail.left(page)?;
            self.cite_better_on(engine, passed, page, selected, &mut further)?;
            match engine.selected_page(page)? {
                None => break,
                Some(behind) => page = behind,
            }
        }
        self.cite_further(engine, passed, &mut further)
    }

    /// Cites what rules better versions out than those that are selected.
    fn cite_selection(&mut self, engine: &Engine<'_>) -> Result<(), Stop> {
        let variables = count_of(engine.trail.variables().len());
        let mut passed = unset(engine.task.alloc, variables)?;
        for variable in engine.turn.listed() {
            self.cite_better(engine, &passed, *variable)?;
            *at_mut(&mut passed, *variable)? = true;
        }
        Ok(())
    }

    /// Cites what was learnt first, as far as it follows by few steps.
    fn cite_learnt(&mut self, engine: &Engine<'_>) -> Result<(), Stop> {
        let mut left = LEARNT_STEPS;
        for incompat in 0..engine.incompats.count() {
            if let Origin::Learnt { first, end, .. } = engine.incompats.origin(incompat)? {
                let steps = resolved_in(&engine.steps, first, end)?;
                if steps > left {
                    return Ok(());
                }
                left = left.saturating_sub(steps);
                self.cite(incompat)?;
            }
        }
        Ok(())
    }

    /// Cites what an incompatibility was learnt from, if it was, but for what level 0 says.
    fn cite_parents(&mut self, engine: &Engine<'_>, incompat: u32) -> Result<(), Stop> {
        let Origin::Learnt {
            conflict,
            first,
            end,
        } = engine.incompats.origin(incompat)?
        else {
            return Ok(());
        };
        self.cite(conflict)?;
        for index in first..end {
            if let Step::Resolved { with, .. } = *at(&engine.steps, index)? {
                self.cite(with)?;
            }
        }
        Ok(())
    }

    /// Cites what was learnt first, and what that was learnt from.
    fn cite_first(&mut self, engine: &Engine<'_>) -> Result<(), Stop> {
        self.cite_learnt(engine)?;
        for incompat in (0..engine.incompats.count()).rev() {
            if is_set(&self.incompats, incompat) {
                self.cite_parents(engine, incompat)?;
            }
        }
        Ok(())
    }

    /// Cites all that is rested on by what is cited: each incompatibility rests on earlier ones.
    fn cite_all(&mut self, engine: &Engine<'_>) -> Result<(), Stop> {
        self.cite_reasons(engine)?;
        for incompat in (0..engine.incompats.count()).rev() {
            if is_set(&self.incompats, incompat) {
                self.cite_source(engine, incompat)?;
            }
        }
        Ok(())
    }
}

/// What a conflict of level 0 rests on.
pub(crate) fn cited_by(engine: &Engine<'_>, conflict: u32) -> Result<Cited, Stop> {
    let mut cited = Cited::new(engine, false)?;
    cited.cite_conflict(engine, conflict)?;
    cited.cite_all(engine)?;
    Ok(cited)
}

/// What was learnt first, and what it rests on.
pub(crate) fn cited_by_learnt(engine: &Engine<'_>) -> Result<Cited, Stop> {
    let mut cited = Cited::new(engine, false)?;
    cited.cite_first(engine)?;
    Ok(cited)
}

/// What it rests on that no better versions are selected, in the order of the walk.
pub(crate) fn cited_by_selection(engine: &Engine<'_>) -> Result<Cited, Stop> {
    let mut cited = Cited::new(engine, true)?;
    cited.cite_selection(engine)?;
    cited.cite_all(engine)?;
    Ok(cited)
}
