//! What a conflict teaches: from satisfier to satisfier (doc/solver.md, "Conflict Resolution"), up to the
// first unique implication point (Marques-Silva and Sakallah, "GRASP", 1999).
//
// The accumulated incompatibility is a table by package. Of each term it has the place of the satisfier.

use crate::bits::Bits;
use crate::incompats::{Incompats, Term};
use crate::look_ups::{at, at_mut, count_of};
use crate::origins::Step;
use crate::stop::Stop;
use crate::trail::{Entry, Trail};
use std::alloc::Global;

/// The term on a package, if there is one.
#[derive(Clone, Copy)]
struct Row {
    choices: Bits,
    /// The place of the entry from which on it is satisfied; none where there is no term, or where it is
    /// satisfied at level 0.
    satisfier: Option<u32>,
}

/// What was accumulated of a conflict.
#[derive(Drop)]
pub struct Analysis {
    rows: Vec<Row>,
    /// The packages that had a term, and once more those on which it was resolved.
    touched: Vec<u32>,
    /// The level of the conflict.
    level: u32,
    /// How many terms are satisfied at that level alone.
    open: u32,
    /// What is learnt: the term by which the search goes on comes first, that which is satisfied last
    /// second.
    pub learnt: Vec<Term>,
    /// The level to which the search jumps back.
    pub back: u32,
    /// What it follows from beside the conflict, in order.
    pub steps: Vec<Step>,
}

/// The level at which the terms of an incompatibility are satisfied.
pub fn level_of(trail: &Trail, terms: &[Term]) -> Result<u32, Stop> {
    let mut level = 0;
    for term in terms {
        let last = trail.variable(term.variable)?.last;
        let place = trail.satisfier(last, term.choices)?;
        level = trail.level_at(place)?.max(level);
    }
    Ok(level)
}

impl Analysis {
    /// No conflict was met. Nothing is allocated before the first one.
    pub fn new(alloc: Global) -> Analysis {
        Analysis {
            rows: Vec::new(alloc),
            touched: Vec::new(alloc),
            level: 0,
            open: 0,
            learnt: Vec::new(alloc),
            back: 0,
            steps: Vec::new(alloc),
        }
    }

    /// Forgets all packages, and keeps their memory.
    pub fn clear(&mut self) {
        self.rows.clear();
        self.touched.clear();
    }

    /// The packages that the conflict was about, those on which it was resolved twice.
    pub fn touched(&self) -> &[u32] {
        &self.touched
    }

    /// Makes the rows of packages that came in, of which there are so many now.
    fn add_rows(&mut self, variables: usize) -> Result<(), Stop> {
        for _ in self.rows.len()..variables {
            self.rows.push(Row {
                choices: Bits::none(),
                satisfier: None,
            })?;
        }
        Ok(())
    }

    /// Begins with a conflict at a level, and so many packages.
    fn begin(&mut self, variables: usize, level: u32) -> Result<(), Stop> {
        self.add_rows(variables)?;
        for variable in self.touched.as_slice() {
            at_mut(&mut self.rows, *variable)?.satisfier = None;
        }
        self.touched.clear();
        self.steps.clear();
        self.level = level;
        self.open = 0;
        Ok(())
    }

    /// Sets the term on a package, which is satisfied from an entry on. Where that is at level 0, it is
    /// left out: it holds in each selection.
    fn set(
        &mut self,
        trail: &Trail,
        variable: u32,
        choices: Bits,
        place: Option<u32>,
    ) -> Result<(), Stop> {
        let level = trail.level_at(place)?;
        let satisfier = if level == 0 { None } else { place };
        if level == 0 {
            let (on, since) = (variable, place);
            self.steps.push(Step::LeftOut { on, since })?;
        }
        let row = at_mut(&mut self.rows, variable)?;
        let before = row.satisfier;
        row.choices = choices;
        row.satisfier = satisfier;
        if level == self.level {
            self.open = self.open.saturating_add(1);
        }
        match before {
            None => self.touched.push(variable)?,
            Some(_) => {
                if trail.level_at(before)? == self.level {
                    self.open = self.open.saturating_sub(1);
                }
            }
        }
        Ok(())
    }

    /// Joins a term: both hold of its package.
    fn join(&mut self, trail: &Trail, term: &Term) -> Result<(), Stop> {
        let row = at(&self.rows, term.variable)?;
        let choices = match row.satisfier {
            None => term.choices,
            Some(_) if row.choices.is_within(term.choices) => return Ok(()),
            Some(_) => row.choices.and(term.choices),
        };
        let last = trail.variable(term.variable)?.last;
        let place = trail.satisfier(last, choices)?;
        self.set(trail, term.variable, choices, place)
    }

    /// Resolves with the reason of an entry, which is the satisfier of the term on its package. What is left
    /// of a partial satisfier (doc/solver.md, the same section) is a term that an earlier entry satisfies.
    fn resolve(&mut self, trail: &Trail, reason: &[Term], entry: &Entry) -> Result<(), Stop> {
        for term in reason {
            if term.variable != entry.variable {
                self.join(trail, term)?;
                continue;
            }
            let either = at(&self.rows, term.variable)?.choices.or(term.choices);
            let place = trail.satisfier(entry.previous, either)?;
            self.set(trail, term.variable, either, place)?;
        }
        Ok(())
    }

    /// Resolves a conflict until one term of its level is left, and answers its package.
    fn first_unique(&mut self, trail: &Trail, incompats: &Incompats) -> Result<u32, Stop> {
        let mut place = count_of(trail.entries().len());
        for _ in 0..trail.entries().len() {
            place = place.saturating_sub(1);
            let entry = trail.entry(place)?;
            if at(&self.rows, entry.variable)?.satisfier != Some(place) {
                continue;
            }
            if self.open <= 1 {
                return Ok(entry.variable);
            }
            let Some(reason) = entry.reason else {
                return Err(Stop::Lost);
            };
            let (with, on) = (reason, entry.variable);
            self.steps.push(Step::Resolved { with, on })?;
            self.touched.push(on)?;
            self.resolve(trail, incompats.terms(reason)?, entry)?;
        }
        Err(Stop::Lost)
    }

    /// Puts the term on a package among those that are learnt, if there is one and it is not there yet.
    fn learn_term(&mut self, trail: &Trail, variable: u32) -> Result<(), Stop> {
        let row = at_mut(&mut self.rows, variable)?;
        if row.satisfier.is_none() {
            return Ok(());
        }
        let level = trail.level_at(row.satisfier)?;
        row.satisfier = None;
        let choices = row.choices;
        self.learnt.push(Term { variable, choices })?;
        let last = self.learnt.len().saturating_sub(1);
        if last > 0 && level > self.back {
            self.back = level;
            swap(&mut self.learnt, 1, last);
        }
        Ok(())
    }

    /// Joins the terms of a conflict.
    fn join_all(&mut self, trail: &Trail, terms: &[Term]) -> Result<(), Stop> {
        for term in terms {
            self.join(trail, term)?;
        }
        Ok(())
    }

    /// Learns from a conflict at a level, which is the last one: fills `learnt` and `back`.
    pub fn learn(
        &mut self,
        trail: &Trail,
        incompats: &Incompats,
        conflict: u32,
        level: u32,
    ) -> Result<(), Stop> {
        self.begin(trail.variables().len(), level)?;
        self.join_all(trail, incompats.terms(conflict)?)?;
        let unique = self.first_unique(trail, incompats)?;
        self.learnt.clear();
        self.back = 0;
        self.learn_term(trail, unique)?;
        for index in 0..self.touched.len() {
            if let Some(variable) = self.touched.as_slice().get(index).copied() {
                self.learn_term(trail, variable)?;
            }
        }
        Ok(())
    }
}

/// Swaps two terms.
fn swap(terms: &mut [Term], a: usize, b: usize) {
    if a < terms.len() && b < terms.len() {
        terms.swap(a, b);
    }
}
