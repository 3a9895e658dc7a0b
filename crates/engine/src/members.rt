//! What is used of the store: a member, once all packages that it names were reached.
//
// A member was learnt from an earlier request, and holds in this one: so a request that was asked before meets
// few of its conflicts again.

use crate::engine::Engine;
use propagation::{Origin, Stop, Term, Trail, count_of};
use std::mem;
use terms::Pkg;

/// The most members that are asked when a package is reached: the newest that name it.
/// Measured at half and at twice this value: docs/BENCHMARKS.md, Constants.
const NEWEST: u32 = 256;

/// How many members more may be asked for each incompatibility: so the store costs a share of the search at most.
/// Measured at half and at twice this value: docs/BENCHMARKS.md, Constants.
const LOOKS_EACH: u32 = 16;

/// From which place of the trail on a term is satisfied, counted from 1; the highest number if it is not.
fn satisfied_from(trail: &Trail, term: &Term) -> Result<u32, Stop> {
    if !trail.left(term.variable)?.is_within(term.choices) {
        return Ok(u32::MAX);
    }
    let last = trail.variable(term.variable)?.last;
    match trail.satisfier(last, term.choices)? {
        None => Ok(0),
        Some(place) => Ok(place.saturating_add(1)),
    }
}

/// Puts the term that is satisfied last of those from a place on at that place.
fn bring_last(trail: &Trail, terms: &mut [Term], to: usize) -> Result<(), Stop> {
    let mut last = to;
    let mut from = 0;
    for (place, term) in terms.iter().enumerate().skip(to) {
        let here = satisfied_from(trail, term)?;
        if here > from {
            from = here;
            last = place;
        }
    }
    if to < terms.len() && last < terms.len() {
        terms.swap(to, last);
    }
    Ok(())
}

impl Engine<'_> {
    /// The term that says this of a package, if that was reached; where it has pages, a term on the first one that says no
    /// less.
    fn term_of(&self, pkg: Pkg, said: &terms::Term) -> Result<Option<Term>, Stop> {
        let Some(Some(variable)) = self.numbers.as_slice().get(pkg as usize).copied() else {
            return Ok(None);
        };
        let all = self.trail.variable(variable)?.all;
        let choices = match said {
            terms::Term::In(versions) => self.choices(variable, versions, true)?,
            terms::Term::NotIn(versions) => all.minus(self.choices(variable, versions, false)?),
        };
        Ok(Some(Term { variable, choices }))
    }

    /// Adds an incompatibility of these terms, at whatever level, and derives what follows now. The terms that are
    /// satisfied last are watched.
    fn enter_terms(&mut self, terms: &mut [Term], origin: Origin) -> Result<(), Stop> {
        bring_last(&self.trail, terms, 0)?;
        bring_last(&self.trail, terms, 1)?;
        let Some(first) = terms.first().copied() else {
            return Ok(());
        };
        let Some(second) = terms.get(1).copied() else {
            return self.enter_one(first, origin);
        };
        let id = self.incompats.add(terms, origin)?;
        self.incompats.watch_first(&self.trail, id)?;
        if self.trail.left(second.variable)?.is_within(second.choices) {
            self.exclude(&first, id)?;
        }
        Ok(())
    }

    /// Lists the terms of the member in a place of the store. Answers whether it was reached with the last of its
    /// packages.
    fn list_terms(&mut self, last: u32, place: u32) -> Result<bool, Stop> {
        self.named.clear();
        let store = self.task.store;
        let Some(member) = store.member(place) else {
            return Ok(false);
        };
        for (pkg, said) in member.conclusion().terms() {
            match self.term_of(*pkg, said)? {
                Some(term) if term.variable <= last => self.named.push(term)?,
                _ => return Ok(false),
            }
        }
        Ok(true)
    }

    /// Adds the member in a place of the store, if it was reached with the last of its packages.
    fn enter_member(&mut self, last: u32, place: u32) -> Result<(), Stop> {
        if !self.list_terms(last, place)? {
            return Ok(());
        }
        let mut terms = mem::replace(&mut self.named, Vec::new(self.task.alloc));
        let entered = self.enter_terms(&mut terms, Origin::Member(place));
        self.named = terms;
        entered
    }

    /// How many members may be asked now.
    fn looks_left(&self) -> u32 {
        self.incompats
            .count()
            .saturating_mul(LOOKS_EACH)
            .saturating_add(NEWEST)
            .saturating_sub(self.looks)
            .min(NEWEST)
    }

    /// Adds the members that were reached with a package. With a further page of one none is.
    fn enter_members_of(&mut self, variable: u32) -> Result<(), Stop> {
        if self.package(variable)? != variable {
            return Ok(());
        }
        let number = u64::from(self.trail.variable(variable)?.pkg);
        let mut here = self.task.store.naming().first(number);
        for _ in 0..self.looks_left() {
            let Some(link) = self.task.store.naming().link(here) else {
                return Ok(());
            };
            self.looks = self.looks.saturating_add(1);
            if link.number == number {
                self.enter_member(variable, link.place)?;
            }
            here = link.before;
        }
        Ok(())
    }

    /// Adds the members that were reached since this was done last.
    pub(crate) fn enter_members(&mut self) -> Result<(), Stop> {
        let reached = count_of(self.trail.variables().len());
        for variable in self.asked..reached {
            self.enter_members_of(variable)?;
        }
        self.asked = reached;
        Ok(())
    }
}
