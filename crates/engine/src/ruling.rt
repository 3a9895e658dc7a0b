//! What rules better versions out than the selected ones: lines whose other terms are true of the decisions before.
//
// The line of an entry of the trail is its reason, resolved with the lines of the entries that satisfy the reason's
// other terms. So it has a term on the entry's package, with the choices that the entry took away. Its other terms
// are on packages that were decided before, and true of the versions that they were decided for.
//
// No selection that meets the request makes all terms of a line true. So one that has those versions has none of the
// choices that were taken away. Decisions are made in the order of the walk. So if a version better than the selected
// one is among these choices, no selection has it and the same versions of the packages before.

use crate::cited::{Cited, is_set};
use crate::engine::Engine;
use crate::trace::Writer;
use oracle::Record;
use propagation::{Entry, Origin, Step as Kept, Stop, Term, at, count_of};

impl Writer {
    // ---- the lines of entries

    /// Resolves a term with the lines of the entries that satisfy it, the last one first, up to a decision.
    fn resolve_term(&mut self, engine: &Engine<'_>, term: &Term) -> Result<(), Stop> {
        let row = engine.trail.variable(term.variable)?;
        let mut choices = term.choices;
        let mut place = engine.trail.satisfier(row.last, choices)?;
        for _ in 0..engine.trail.entries().len() {
            let Some(here) = place else {
                return self.step_barred(engine, term.variable);
            };
            let entry = engine.trail.entry(here)?;
            let Some(reason) = entry.reason else {
                return Ok(());
            };
            let with = *at(&self.lines, here)?;
            self.step_with(engine, with, term.variable)?;
            choices = choices.or(engine.incompats.choices_on(reason, term.variable)?);
            if row.all.is_within(choices) {
                return Ok(());
            }
            place = engine.trail.satisfier(entry.previous, choices)?;
        }
        Ok(())
    }

    /// Writes the line of an entry, and answers its record: that of its reason, if the other terms of that are on packages
    /// that were decided.
    fn write_line(
        &mut self,
        engine: &Engine<'_>,
        entry: &Entry,
        reason: u32,
    ) -> Result<Option<u32>, Stop> {
        let from = *at(&self.numbers, reason)?;
        let first = self.steps()?;
        for term in engine.incompats.terms(reason)? {
            if term.variable != entry.variable {
                self.resolve_term(engine, term)?;
            }
        }
        if first == self.steps()? {
            return Ok(from);
        }
        let line = self.followed(from, first)?;
        self.add(line)
    }

    /// Writes the line of the entry at a place, if it is cited, and answers its record.
    fn write_line_at(
        &mut self,
        engine: &Engine<'_>,
        cited: &Cited,
        place: u32,
    ) -> Result<Option<u32>, Stop> {
        let entry = engine.trail.entry(place)?;
        match entry.reason {
            Some(reason) if is_set(&cited.entries, place) => {
                self.write_line(engine, entry, reason)
            }
            _ => Ok(None),
        }
    }

    /// Writes the lines of the entries before a place, as far as they are cited.
    fn write_lines(&mut self, engine: &Engine<'_>, cited: &Cited, end: u32) -> Result<(), Stop> {
        for place in count_of(self.lines.len())..end {
            let number = self.write_line_at(engine, cited, place)?;
            self.lines.push(number)?;
        }
        Ok(())
    }

    // ---- what was learnt

    /// Writes the lines by which terms go that were left out in a range of the steps that were kept.
    fn write_lines_for(
        &mut self,
        engine: &Engine<'_>,
        cited: &Cited,
        first: u32,
        end: u32,
    ) -> Result<(), Stop> {
        for index in first..end {
            if let Kept::LeftOut {
                since: Some(since),
                ..
            } = *at(&engine.steps, index)?
            {
                self.write_lines(engine, cited, since.saturating_add(1))?;
            }
        }
        Ok(())
    }

    /// Resolves a term that was left out with the lines of the entries of level 0 from which on it is satisfied.
    fn resolve_left_out(
        &mut self,
        engine: &Engine<'_>,
        variable: u32,
        since: Option<u32>,
    ) -> Result<(), Stop> {
        let mut place = since;
        for _ in 0..engine.trail.entries().len() {
            let Some(here) = place else {
                return self.step_barred(engine, variable);
            };
            let with = *at(&self.lines, here)?;
            self.step_with(engine, with, variable)?;
            place = engine.trail.entry(here)?.previous;
        }
        self.step_barred(engine, variable)
    }

    /// Adds what a step that was kept stands for.
    fn step_in_full(&mut self, engine: &Engine<'_>, kept: Kept) -> Result<(), Stop> {
        match kept {
            Kept::Resolved { with, on } => self.step(engine, with, on),
            Kept::LeftOut { on, since } => self.resolve_left_out(engine, on, since),
        }
    }

    /// As `follow`; the terms that were left out are resolved too.
    fn follow_in_full(
        &mut self,
        engine: &Engine<'_>,
        conflict: u32,
        kept: (u32, u32),
    ) -> Result<Option<Record>, Stop> {
        let from = *at(&self.numbers, conflict)?;
        let first = self.steps()?;
        for index in kept.0..kept.1 {
            self.step_in_full(engine, *at(&engine.steps, index)?)?;
        }
        self.followed(from, first)
    }

    /// Writes an incompatibility, and before it the lines that it follows from.
    fn write_in_full(
        &mut self,
        engine: &Engine<'_>,
        cited: &Cited,
        incompat: u32,
    ) -> Result<(), Stop> {
        let record = match engine.incompats.origin(incompat)? {
            Origin::Learnt {
                conflict,
                first,
                end,
            } => {
                self.write_lines_for(engine, cited, first, end)?;
                self.follow_in_full(engine, conflict, (first, end))?
            }
            _ => self.record_of(engine, incompat)?,
        };
        let number = self.add(record)?;
        self.numbers.push(number)?;
        Ok(())
    }

    // ---- the selection

    /// Writes which lines rule better versions out.
    fn write_ruling(&mut self, engine: &Engine<'_>, cited: &Cited) -> Result<(), Stop> {
        for place in cited.better.as_slice() {
            let variable = engine.trail.entry(*place)?.variable;
            let pkg = engine.trail.variable(variable)?.pkg;
            if let Some(record) = *at(&self.lines, *place)? {
                self.trace.ruling.push((pkg, record))?;
            }
        }
        self.trace.ruling.sort_unstable_by(|a, b| a.0.cmp(&b.0));
        Ok(())
    }

    /// Writes what is selected.
    fn write_selected(&mut self, engine: &Engine<'_>) -> Result<(), Stop> {
        for variable in 0..count_of(engine.trail.variables().len()) {
            if let Some(ordinal) = engine.selected(variable)? {
                let pkg = engine.trail.variable(variable)?.pkg;
                self.trace.selected.push((pkg, ordinal))?;
            }
        }
        Ok(())
    }

    /// Writes the incompatibilities that are cited.
    fn write_all_in_full(&mut self, engine: &Engine<'_>, cited: &Cited) -> Result<(), Stop> {
        for incompat in 0..engine.incompats.count() {
            if is_set(&cited.incompats, incompat) {
                self.write_in_full(engine, cited, incompat)?;
            } else {
                self.numbers.push(None)?;
            }
        }
        Ok(())
    }

    /// Writes the newest selection, and what rules better versions out.
    pub fn write_ruled_out(&mut self, engine: &Engine<'_>, cited: &Cited) -> Result<(), Stop> {
        self.write_barred(engine, cited)?;
        self.write_all_in_full(engine, cited)?;
        self.write_lines(engine, cited, count_of(engine.trail.entries().len()))?;
        self.write_ruling(engine, cited)?;
        self.write_selected(engine)
    }
}
