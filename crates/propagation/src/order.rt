//! The order of decisions: the needed package with the fewest choices comes first (doc/solver.md of Dart pub,
//! "Decision Making"). Of several with two choices it is the most active one, else the one with the lower number.
//
// Activity says how much a package had to do with conflicts lately: Moskewicz et al., "Chaff", 2001, in the form
// of Een and Sorensson's Minisat, 2003, in which each conflict adds more than the one before. Random formulas of 80
// variables meet 142 conflicts by it, 243 by numbers alone. Where activity goes before the number of choices,
// pigeons meet 10 times as many: in a fixed order one incompatibility stands for many.
//
// A package's number of choices is a lower bound here, which is mended when it comes first. So going back touches
// nothing of a package that is still there.

use crate::look_ups::{at, at_mut, count_of, index_of, rows_from};
use crate::stop::Stop;
use crate::trail::{Trail, Variable};
use std::alloc::Global;
use terms::Pkg;

/// How much the first conflict adds to an activity.
const FIRST_STEP: u64 = 1 << 10;

/// A conflict adds more than the one before, by one part in this: a power of two near the 19 that MiniSat's decay of
/// 0.95 comes to.
const GROWTH: u64 = 16;

/// Where a conflict would add more, all activities are divided.
const MOST_STEP: u64 = 1 << 54;

const DIVISOR: u64 = 1 << 40;

/// A heap of all that can be numbered is no deeper.
const DEPTH: u32 = 32;

/// What is known of a package.
#[derive(Clone, Copy)]
struct Row {
    pkg: Pkg,
    /// With how many choices it stands in the heap, if it does.
    count: u32,
    activity: u64,
    /// Its place in the heap, if it stands there.
    place: Option<u32>,
}

/// The packages that are to be decided.
#[derive(Drop)]
pub struct Order {
    /// By index of the package.
    rows: Vec<Row>,
    /// Each package comes before the two at twice its place, and one and two more.
    heap: Vec<u32>,
    /// How much a conflict adds to the activity of its packages.
    step: u64,
    /// How many entries of the trail were looked at.
    followed: u32,
}

/// Whether a package is needed, and something is to be done for it: it is undecided, or what its version
/// depends on is not known yet.
#[inline(always)]
fn is_open(variable: &Variable) -> bool {
    !variable.left.has_absence()
        && (variable.left.has_several() || !variable.left.is_within(variable.entered))
}

/// Whether a package comes before another one.
#[inline(always)]
fn is_before(a: &Row, b: &Row) -> bool {
    if a.count != b.count {
        return a.count < b.count;
    }
    if a.count == 2 && a.activity != b.activity {
        return a.activity > b.activity;
    }
    a.pkg < b.pkg
}

impl Order {
    /// No package is to be decided. Nothing is allocated before the first one.
    pub fn new(alloc: Global) -> Order {
        Order {
            rows: Vec::new(alloc),
            heap: Vec::new(alloc),
            step: FIRST_STEP,
            followed: 0,
        }
    }

    /// Forgets all packages, and keeps their memory.
    pub fn clear(&mut self) {
        self.rows.clear();
        self.heap.clear();
        self.step = FIRST_STEP;
        self.followed = 0;
    }

    /// Makes the rows of packages that came in.
    fn add_rows(&mut self, trail: &Trail) -> Result<(), Stop> {
        for variable in rows_from(trail.variables(), self.rows.len()) {
            self.rows.push(Row {
                pkg: variable.pkg,
                count: 0,
                activity: 0,
                place: None,
            })?;
        }
        Ok(())
    }

    // ---- the heap

    /// Puts a package at a place of the heap.
    #[inline(always)]
    fn put(&mut self, place: u32, variable: u32) -> Result<(), Stop> {
        *at_mut(&mut self.heap, place)? = variable;
        at_mut(&mut self.rows, variable)?.place = Some(place);
        Ok(())
    }

    /// Moves a package up to where it belongs, from a place that is free or its own.
    fn rise(&mut self, variable: u32, from: u32) -> Result<(), Stop> {
        let row = *at(&self.rows, variable)?;
        let mut place = from;
        for _ in 0..DEPTH {
            if place == 0 {
                break;
            }
            let above = place.saturating_sub(1) / 2;
            let parent = *at(&self.heap, above)?;
            if !is_before(&row, at(&self.rows, parent)?) {
                break;
            }
            self.put(place, parent)?;
            place = above;
        }
        self.put(place, variable)
    }

    /// Of the two places below one, that of the package which comes first, if there is one.
    #[inline(always)]
    fn below(&self, place: u32) -> Result<Option<(u32, u32)>, Stop> {
        let a = place.saturating_mul(2).saturating_add(1);
        let b = a.saturating_add(1);
        let Some(first) = self.heap.as_slice().get(a as usize) else {
            return Ok(None);
        };
        if let Some(second) = self.heap.as_slice().get(b as usize) {
            if is_before(at(&self.rows, *second)?, at(&self.rows, *first)?) {
                return Ok(Some((b, *second)));
            }
        }
        Ok(Some((a, *first)))
    }

    /// Moves a package down to where it belongs, from the first place, which is free or its own.
    fn sink(&mut self, variable: u32) -> Result<(), Stop> {
        let row = *at(&self.rows, variable)?;
        let mut place = 0;
        for _ in 0..DEPTH {
            let Some((below, child)) = self.below(place)? else {
                break;
            };
            if !is_before(at(&self.rows, child)?, &row) {
                break;
            }
            self.put(place, child)?;
            place = below;
        }
        self.put(place, variable)
    }

    /// Takes the package that comes first.
    fn take(&mut self, first: u32) -> Result<(), Stop> {
        at_mut(&mut self.rows, first)?.place = None;
        match self.heap.pop() {
            Some(last) if last != first => self.sink(last),
            _ => Ok(()),
        }
    }

    // ---- what is to be decided

    /// Adds a package with so many choices, unless it stands there with as few.
    fn add(&mut self, variable: u32, count: u32) -> Result<(), Stop> {
        let row = at_mut(&mut self.rows, variable)?;
        match row.place {
            Some(_) if row.count <= count => Ok(()),
            Some(place) => {
                row.count = count;
                self.rise(variable, place)
            }
            None => {
                row.count = count;
                let place = index_of(self.heap.len())?;
                self.heap.push(variable)?;
                self.rise(variable, place)
            }
        }
    }

    /// Adds a package that has a row, if something is to be done for it.
    fn add_open(&mut self, trail: &Trail, variable: u32) -> Result<(), Stop> {
        let row = trail.variable(variable)?;
        if is_open(row) {
            self.add(variable, row.left.count())?;
        }
        Ok(())
    }

    /// Adds the packages of which something was taken since this was done last.
    fn follow(&mut self, trail: &Trail) -> Result<(), Stop> {
        self.add_rows(trail)?;
        for entry in rows_from(trail.entries(), self.followed as usize) {
            self.add_open(trail, entry.variable)?;
        }
        self.followed = count_of(trail.entries().len());
        Ok(())
    }

    /// Adds the packages of which something is about to be given back: the entries above a level.
    pub fn go_back(&mut self, trail: &Trail, level: u32) -> Result<(), Stop> {
        self.add_rows(trail)?;
        let kept = trail.length_at(level);
        for entry in rows_from(trail.entries(), kept as usize) {
            // One that stands there has no more choices there.
            if !entry.before.has_absence() && at(&self.rows, entry.variable)?.place.is_none() {
                self.add(entry.variable, entry.before.count())?;
            }
        }
        self.followed = self.followed.min(kept);
        Ok(())
    }

    /// The package that comes next. It stays there until it is not to be decided any more.
    pub fn next(&mut self, trail: &Trail) -> Result<Option<u32>, Stop> {
        self.follow(trail)?;
        // Each turn takes a package that is not to be decided, or mends one that has more choices.
        for _ in 0..u32::MAX {
            let Some(variable) = self.heap.as_slice().first().copied() else {
                return Ok(None);
            };
            let there = trail.variable(variable)?;
            let count = there.left.count();
            let row = at_mut(&mut self.rows, variable)?;
            if !is_open(there) {
                self.take(variable)?;
                continue;
            }
            if row.count >= count {
                return Ok(Some(variable));
            }
            row.count = count;
            self.sink(variable)?;
        }
        Err(Stop::Lost)
    }

    // ---- activity

    /// Makes a package more active.
    fn bump(&mut self, variable: u32) -> Result<(), Stop> {
        let row = at_mut(&mut self.rows, variable)?;
        row.activity = row.activity.saturating_add(self.step);
        match row.place {
            Some(place) if row.count == 2 => self.rise(variable, place),
            _ => Ok(()),
        }
    }

    /// Divides all activities, so that they stay small.
    fn divide(&mut self) -> Result<(), Stop> {
        for row in self.rows.as_mut_slice() {
            row.activity = row.activity / DIVISOR;
        }
        self.step = self.step / DIVISOR;
        Ok(())
    }

    /// Makes the packages more active that a conflict was about.
    pub fn bump_all(&mut self, trail: &Trail, variables: &[u32]) -> Result<(), Stop> {
        self.add_rows(trail)?;
        for variable in variables {
            self.bump(*variable)?;
        }
        self.step = self.step.saturating_add(self.step / GROWTH);
        if self.step > MOST_STEP {
            self.divide()?;
        }
        Ok(())
    }
}
