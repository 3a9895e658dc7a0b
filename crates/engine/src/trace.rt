//! How the trace of a refusal, or of a selection, is written.
//
// In the trace of a refusal, what level 0 satisfies is left in the conclusions of the reader, and goes last of all: so
// all but the last of them rest on what the registry says alone. `ruling.rt` writes that of the newest selection.

use crate::cited::{Cited, cited_by, cited_by_learnt, cited_by_selection, is_set};
use crate::engine::Engine;
use oracle::{Record, Step, Trace};
use propagation::{Origin, Step as Kept, Stop, at, count_of, index_of};

/// A trace that is being written.
#[derive(Drop)]
pub(crate) struct Writer {
    pub trace: Trace,
    /// The record of each incompatibility that is cited, unless it says nothing about versions.
    pub numbers: Vec<Option<u32>>,
    /// By index of the package, the record of which versions of it are not allowed, if that is cited.
    pub barred: Vec<Option<u32>>,
    /// The record of the line of each entry of the trail (`ruling.rt`) that is cited, unless it says nothing about versions.
    pub lines: Vec<Option<u32>>,
}

impl Writer {
    fn new(engine: &Engine<'_>) -> Writer {
        let alloc = engine.task.alloc;
        Writer {
            trace: Trace {
                records: Vec::new(alloc),
                steps: Vec::new(alloc),
                selected: Vec::new(alloc),
                ruling: Vec::new(alloc),
            },
            numbers: Vec::new(alloc),
            barred: Vec::new(alloc),
            lines: Vec::new(alloc),
        }
    }

    /// How many steps there are.
    pub fn steps(&self) -> Result<u32, Stop> {
        index_of(self.trace.steps.len())
    }

    /// Adds a step with a record on a package, which may be one of its pages; none with what says nothing.
    pub fn step_with(
        &mut self,
        engine: &Engine<'_>,
        with: Option<u32>,
        variable: u32,
    ) -> Result<(), Stop> {
        if let Some(with) = with {
            let on = engine.trail.variable(variable)?.pkg;
            self.trace.steps.push(Step { with, on })?;
        }
        Ok(())
    }

    /// Adds a step with an incompatibility on a package.
    pub fn step(&mut self, engine: &Engine<'_>, with: u32, variable: u32) -> Result<(), Stop> {
        let with = *at(&self.numbers, with)?;
        self.step_with(engine, with, variable)
    }

    /// What follows from a record by the steps from one on; where the record says nothing, from that of the first step by
    /// the others, if there is one.
    pub fn followed(&self, from: Option<u32>, first: u32) -> Result<Option<Record>, Stop> {
        let end = self.steps()?;
        if let Some(from) = from {
            return Ok(Some(Record::Follows { from, first, end }));
        }
        match self.trace.steps.as_slice().get(first as usize) {
            None => Ok(None),
            Some(step) => Ok(Some(Record::Follows {
                from: step.with,
                first: first.saturating_add(1),
                end,
            })),
        }
    }

    /// Adds a record, unless it says nothing. Answers its number.
    pub fn add(&mut self, record: Option<Record>) -> Result<Option<u32>, Stop> {
        let Some(record) = record else {
            return Ok(None);
        };
        let number = index_of(self.trace.records.len())?;
        self.trace.records.push(record)?;
        Ok(Some(number))
    }

    /// The record of what was learnt from a conflict by some of the steps that were kept.
    fn follow(
        &mut self,
        engine: &Engine<'_>,
        conflict: u32,
        kept: (u32, u32),
    ) -> Result<Option<Record>, Stop> {
        let from = *at(&self.numbers, conflict)?;
        let first = self.steps()?;
        for index in kept.0..kept.1 {
            if let Kept::Resolved { with, on } = *at(&engine.steps, index)? {
                self.step(engine, with, on)?;
            }
        }
        self.followed(from, first)
    }

    /// The record of an incompatibility, unless that says nothing.
    pub fn record_of(
        &mut self,
        engine: &Engine<'_>,
        incompat: u32,
    ) -> Result<Option<Record>, Stop> {
        match engine.incompats.origin(incompat)? {
            Origin::Need(index) => Ok(Some(Record::Need(index))),
            Origin::Dependency {
                pkg,
                ordinal,
                index,
            } => Ok(Some(Record::Dependency {
                pkg,
                ordinal,
                index,
            })),
            Origin::Member(place) => Ok(Some(Record::Member(place))),
            Origin::Page => Ok(None),
            Origin::Learnt {
                conflict,
                first,
                end,
            } => self.follow(engine, conflict, (first, end)),
        }
    }

    /// Writes the incompatibilities that are cited.
    fn write_cited(&mut self, engine: &Engine<'_>, cited: &Cited) -> Result<(), Stop> {
        for incompat in 0..engine.incompats.count() {
            let number = if is_set(&cited.incompats, incompat) {
                let record = self.record_of(engine, incompat)?;
                self.add(record)?
            } else {
                None
            };
            self.numbers.push(number)?;
        }
        Ok(())
    }

    /// Writes which versions of a package are not allowed, if that is cited. Answers the record.
    fn write_barred_of(
        &mut self,
        engine: &Engine<'_>,
        cited: &Cited,
        variable: u32,
    ) -> Result<Option<u32>, Stop> {
        let pkg = engine.trail.variable(variable)?.pkg;
        if !is_set(&cited.barred, variable) || !engine.task.registry.has_yanks(pkg) {
            return Ok(None);
        }
        self.add(Some(Record::NotAllowed(pkg)))
    }

    /// Writes which versions are not allowed, of the packages of which that is cited.
    pub fn write_barred(&mut self, engine: &Engine<'_>, cited: &Cited) -> Result<(), Stop> {
        for variable in 0..count_of(engine.trail.variables().len()) {
            let record = self.write_barred_of(engine, cited, variable)?;
            self.barred.push(record)?;
        }
        Ok(())
    }

    /// The step by what is not allowed of a package, if that was written.
    fn barred_step(&self, engine: &Engine<'_>, variable: u32) -> Result<Option<Step>, Stop> {
        let package = engine.package(variable)?;
        let Some(with) = *at(&self.barred, package)? else {
            return Ok(None);
        };
        let on = engine.trail.variable(package)?.pkg;
        Ok(Some(Step { with, on }))
    }

    /// Adds the step by what is not allowed of a package, if that was written.
    pub fn step_barred(&mut self, engine: &Engine<'_>, variable: u32) -> Result<(), Stop> {
        if let Some(step) = self.barred_step(engine, variable)? {
            self.trace.steps.push(step)?;
        }
        Ok(())
    }

    /// Adds the steps by all that is not allowed.
    fn step_all_barred(&mut self, engine: &Engine<'_>) -> Result<(), Stop> {
        for variable in 0..count_of(self.barred.len()) {
            if engine.package(variable)? == variable {
                self.step_barred(engine, variable)?;
            }
        }
        Ok(())
    }

    /// The step by what is not allowed of a package of a conflict, if that was written.
    fn barred_on(&self, engine: &Engine<'_>, conflict: u32) -> Result<Option<Step>, Stop> {
        for term in engine.incompats.terms(conflict)? {
            // That of a need which no version meets is none for who reads the trace: all choices are in it.
            if engine
                .trail
                .variable(term.variable)?
                .all
                .is_within(term.choices)
            {
                continue;
            }
            if let Some(step) = self.barred_step(engine, term.variable)? {
                return Ok(Some(step));
            }
        }
        Ok(None)
    }

    /// The record that a conflict is resolved from: where no version of a package is left, what is not allowed of it,
    /// and the conflict comes first then.
    fn begin_end(&mut self, engine: &Engine<'_>, conflict: u32) -> Result<Option<u32>, Stop> {
        let with = *at(&self.numbers, conflict)?;
        let Some(barred) = self.barred_on(engine, conflict)? else {
            return Ok(with);
        };
        if let Some(with) = with {
            let on = barred.on;
            self.trace.steps.push(Step { with, on })?;
        }
        Ok(Some(barred.with))
    }

    /// Writes that the conflict leaves no selection: from the last entry of level 0 to the first, each term
    /// goes by the reason of its satisfier.
    fn write_end(&mut self, engine: &Engine<'_>, cited: &Cited, conflict: u32) -> Result<(), Stop> {
        let first = self.steps()?;
        let from = self.begin_end(engine, conflict)?;
        for place in (0..count_of(engine.trail.entries().len())).rev() {
            let entry = engine.trail.entry(place)?;
            if let Some(reason) = entry.reason {
                if is_set(&cited.entries, place) {
                    self.step(engine, reason, entry.variable)?;
                }
            }
        }
        self.step_all_barred(engine)?;
        let end = self.followed(from, first)?;
        let _number = self.add(end)?;
        Ok(())
    }

    /// Writes a refusal.
    fn write_refusal(&mut self, engine: &Engine<'_>, conflict: u32) -> Result<(), Stop> {
        let cited = cited_by(engine, conflict)?;
        let written = self.write_parts(engine, &cited, conflict);
        drop(cited);
        written
    }

    /// Writes what was learnt first.
    fn write_learnt(&mut self, engine: &Engine<'_>) -> Result<(), Stop> {
        let cited = cited_by_learnt(engine)?;
        let written = self.write_cited(engine, &cited);
        drop(cited);
        written
    }

    /// Writes what rules better versions out than those that are selected.
    fn write_selection(&mut self, engine: &Engine<'_>) -> Result<(), Stop> {
        let cited = cited_by_selection(engine)?;
        let written = self.write_ruled_out(engine, &cited);
        drop(cited);
        written
    }

    /// The trace that was written.
    fn into_trace(self) -> Trace {
        let Writer {
            trace,
            numbers,
            barred,
            lines,
        } = self;
        drop(numbers);
        drop(barred);
        drop(lines);
        trace
    }

    fn write_parts(
        &mut self,
        engine: &Engine<'_>,
        cited: &Cited,
        conflict: u32,
    ) -> Result<(), Stop> {
        self.write_cited(engine, cited)?;
        self.write_barred(engine, cited)?;
        self.write_end(engine, cited, conflict)
    }
}

/// The trace of a conflict of level 0, once the search went back there.
pub(crate) fn trace_of(engine: &Engine<'_>, conflict: u32) -> Result<Trace, Stop> {
    let mut writer = Writer::new(engine);
    writer.write_refusal(engine, conflict)?;
    Ok(writer.into_trace())
}

/// The trace of what was learnt first, as far as it follows by few steps.
pub(crate) fn trace_of_learnt(engine: &Engine<'_>) -> Result<Trace, Stop> {
    let mut writer = Writer::new(engine);
    writer.write_learnt(engine)?;
    Ok(writer.into_trace())
}

/// The trace of a selection that was found in the order of the walk: what rules better versions out.
pub(crate) fn trace_of_selection(engine: &Engine<'_>) -> Result<Trace, Stop> {
    let mut writer = Writer::new(engine);
    writer.write_selection(engine)?;
    Ok(writer.into_trace())
}

/// The trace of a need that nothing meets, since its package is not numbered.
pub(crate) fn trace_of_need(engine: &Engine<'_>, index: usize) -> Result<Trace, Stop> {
    let alloc = engine.task.alloc;
    let mut records = Vec::new(alloc);
    records.push(Record::Need(index))?;
    Ok(Trace {
        records,
        steps: Vec::new(alloc),
        selected: Vec::new(alloc),
        ruling: Vec::new(alloc),
    })
}
