//! The trail: what was decided and derived, in order, and what it leaves of each package.

use crate::bits::Bits;
use crate::look_ups::{at, at_mut, count_of, index_of};
use crate::stop::Stop;
use std::alloc::Global;
use terms::Pkg;

/// A package that the request reaches.
#[derive(Clone, Copy)]
pub struct Variable {
    pub pkg: Pkg,
    /// Its choices, allowed or not.
    pub all: Bits,
    /// The choices that are left.
    pub left: Bits,
    /// Those that were left when what watches them was looked at last, and such as came back since.
    pub watched: Bits,
    /// The place of its last entry.
    pub last: Option<u32>,
    /// The versions whose dependencies are among the incompatibilities.
    pub entered: Bits,
}

/// An assignment: it takes choices of a package away.
#[derive(Clone, Copy)]
pub struct Entry {
    pub variable: u32,
    /// What was left before.
    pub before: Bits,
    /// The place of the package's entry before this one.
    pub previous: Option<u32>,
    /// The incompatibility that it was derived by; none for a decision.
    pub reason: Option<u32>,
    pub level: u32,
}

/// The trail. It is the queue of propagation too: entries from `head` on are to be looked at.
#[derive(Drop)]
pub struct Trail {
    variables: Vec<Variable>,
    entries: Vec<Entry>,
    /// How many entries there were when each level began.
    starts: Vec<u32>,
    head: u32,
    /// How many assignments were ever made.
    pub made: u64,
}

impl Trail {
    /// Of no packages, at level 0. Nothing is allocated before the first one.
    pub fn new(alloc: Global) -> Trail {
        Trail {
            variables: Vec::new(alloc),
            entries: Vec::new(alloc),
            starts: Vec::new(alloc),
            head: 0,
            made: 0,
        }
    }

    /// Forgets all packages, and keeps their memory.
    pub fn clear(&mut self) {
        self.variables.clear();
        self.entries.clear();
        self.starts.clear();
        self.head = 0;
        self.made = 0;
    }

    // ---- packages

    /// Adds a package, and answers its index.
    pub fn add(&mut self, variable: Variable) -> Result<u32, Stop> {
        let index = index_of(self.variables.len())?;
        self.variables.push(variable)?;
        Ok(index)
    }

    /// The packages, by index.
    pub fn variables(&self) -> &[Variable] {
        &self.variables
    }

    /// What is known of a package, by its index.
    #[inline(always)]
    pub fn variable(&self, index: u32) -> Result<&Variable, Stop> {
        at(&self.variables, index)
    }

    /// As `variable`, to write there.
    pub fn variable_mut(&mut self, index: u32) -> Result<&mut Variable, Stop> {
        at_mut(&mut self.variables, index)
    }

    /// What is left of a package.
    #[inline(always)]
    pub fn left(&self, variable: u32) -> Result<Bits, Stop> {
        Ok(at(&self.variables, variable)?.left)
    }

    // ---- entries

    /// The assignments, the earliest first.
    pub fn entries(&self) -> &[Entry] {
        &self.entries
    }

    /// The assignment at a place.
    #[inline(always)]
    pub fn entry(&self, place: u32) -> Result<&Entry, Stop> {
        at(&self.entries, place)
    }

    /// The level of the last decision.
    pub fn level(&self) -> u32 {
        count_of(self.starts.len())
    }

    /// The level of an entry, 0 for none: what holds from the beginning.
    #[inline(always)]
    pub(crate) fn level_at(&self, place: Option<u32>) -> Result<u32, Stop> {
        match place {
            None => Ok(0),
            Some(place) => Ok(self.entry(place)?.level),
        }
    }

    /// The first entry of a package from which on a term on it is satisfied, looked for downwards from an
    /// entry that satisfies it; none where the term is satisfied from the beginning.
    #[inline(always)]
    pub fn satisfier(&self, from: Option<u32>, choices: Bits) -> Result<Option<u32>, Stop> {
        let mut place = from;
        for _ in 0..self.entries.len() {
            let Some(here) = place else {
                return Ok(None);
            };
            let entry = self.entry(here)?;
            if !entry.before.is_within(choices) {
                return Ok(Some(here));
            }
            place = entry.previous;
        }
        Ok(place)
    }

    /// Leaves only these choices of a package.
    #[inline(always)]
    pub(crate) fn assign(
        &mut self,
        variable: u32,
        left: Bits,
        reason: Option<u32>,
    ) -> Result<(), Stop> {
        let place = index_of(self.entries.len())?;
        let level = self.level();
        let row = at_mut(&mut self.variables, variable)?;
        let before = row.left;
        let previous = row.last;
        row.left = left;
        row.last = Some(place);
        self.made = self.made.wrapping_add(1);
        self.entries.push(Entry {
            variable,
            before,
            previous,
            reason,
            level,
        })?;
        Ok(())
    }

    /// Takes the choices of a term away, by an incompatibility whose other terms are satisfied. Answers
    /// whether some choice is left; where none is, that incompatibility is a conflict.
    #[inline(always)]
    pub fn exclude(&mut self, variable: u32, choices: Bits, by: u32) -> Result<bool, Stop> {
        let left = self.left(variable)?;
        if left.is_apart(choices) {
            return Ok(true);
        }
        let rest = left.minus(choices);
        if rest.is_empty() {
            return Ok(false);
        }
        self.assign(variable, rest, Some(by))?;
        Ok(true)
    }

    /// Decides for a choice of a package, at a level of its own.
    pub fn decide(&mut self, variable: u32, choice: u32) -> Result<(), Stop> {
        let start = index_of(self.entries.len())?;
        self.starts.push(start)?;
        self.assign(variable, Bits::of(choice), None)
    }

    // ---- the queue

    /// The next package to look at, if something was taken of one since it was looked at. Of the entries
    /// of a package only the last one counts.
    #[inline(always)]
    pub fn next_changed(&mut self) -> Result<Option<u32>, Stop> {
        for _ in 0..self.entries.len() {
            let place = self.head;
            let Some(entry) = self.entries.as_slice().get(place as usize) else {
                return Ok(None);
            };
            let variable = entry.variable;
            self.head = place.wrapping_add(1);
            if self.variable(variable)?.last == Some(place) {
                return Ok(Some(variable));
            }
        }
        Ok(None)
    }

    /// The choices of a package that went since this was asked last.
    #[inline(always)]
    pub(crate) fn take_gone(&mut self, variable: u32) -> Result<Bits, Stop> {
        let row = at_mut(&mut self.variables, variable)?;
        let gone = row.watched.minus(row.left);
        row.watched = row.left;
        Ok(gone)
    }

    /// Notes that these were not looked at.
    pub(crate) fn give_gone(&mut self, variable: u32, gone: Bits) -> Result<(), Stop> {
        let row = at_mut(&mut self.variables, variable)?;
        row.watched = row.watched.or(gone);
        Ok(())
    }

    // ---- going back

    /// How many entries there are at and below a level.
    pub(crate) fn length_at(&self, level: u32) -> u32 {
        match self.starts.as_slice().get(level as usize) {
            None => count_of(self.entries.len()),
            Some(start) => *start,
        }
    }

    /// Takes back the last entry.
    fn take_back(&mut self) -> Result<(), Stop> {
        let Some(entry) = self.entries.pop() else {
            return Err(Stop::Lost);
        };
        let row = at_mut(&mut self.variables, entry.variable)?;
        row.left = entry.before;
        row.watched = row.watched.or(entry.before);
        row.last = entry.previous;
        Ok(())
    }

    /// Takes back what was decided and derived above a level.
    pub fn back_to(&mut self, level: u32) -> Result<(), Stop> {
        let kept = self.length_at(level);
        for _ in kept as usize..self.entries.len() {
            self.take_back()?;
        }
        self.starts.truncate(level as usize);
        self.head = self.head.min(kept);
        Ok(())
    }
}
