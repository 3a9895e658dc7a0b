//! Where the longer incompatibilities are looked at.

use crate::bits::Bits;
use crate::incompats::Term;
use crate::look_ups::{at, at_mut};
use crate::stop::Stop;
use crate::trail::Trail;
use std::alloc::Global;
use std::mem;

/// An incompatibility in a list: its term on the package whose list it is, and another one.
#[derive(Clone, Copy)]
pub(crate) struct Watch {
    pub own: Bits,
    /// The other one, and its package.
    pub other: Bits,
    pub on: u32,
    pub id: u32,
}

/// Of each choice of a package, the incompatibilities that are to be looked at once it goes.
#[derive(Drop)]
pub(crate) struct Watches {
    alloc: Global,
    /// The lists of a package's choices stand one behind the other.
    lists: Vec<Vec<Watch>>,
    /// How many of them are in use. The others are empty, and keep their memory.
    used: u32,
    /// By index of the package, where the list of its first choice stands, if one of them is watched.
    firsts: Vec<Option<u32>>,
}

/// The choice by which a term is watched: one outside it that is left, else one that went when the term became
/// satisfied, so that it comes back with it.
fn choice_to_watch(trail: &Trail, term: Term) -> Result<u32, Stop> {
    let row = trail.variable(term.variable)?;
    if let Some(choice) = row.left.minus(term.choices).highest() {
        return Ok(choice);
    }
    let outside = match trail.satisfier(row.last, term.choices)? {
        None => row.all.minus(term.choices),
        Some(place) => trail.entry(place)?.before.minus(term.choices),
    };
    match outside.lowest() {
        None => Err(Stop::Lost),
        Some(choice) => Ok(choice),
    }
}

/// Empties the first lists of some, which keep their memory.
pub(crate) fn clear_lists(lists: &mut [Vec<Watch>], count: u32) {
    for place in 0..count as usize {
        if let Some(list) = lists.get_mut(place) {
            list.clear();
        }
    }
}

impl Watch {
    /// Of an incompatibility with these two terms, the first of which is on the package whose list it is.
    #[inline(always)]
    pub fn new(own: Term, other: Term, id: u32) -> Watch {
        Watch {
            own: own.choices,
            other: other.choices,
            on: other.variable,
            id,
        }
    }

    /// With another term beside.
    #[inline(always)]
    pub fn beside(self, other: Term) -> Watch {
        Watch {
            other: other.choices,
            on: other.variable,
            ..self
        }
    }
}

impl Watches {
    /// Nothing is watched. Nothing is allocated before the first watch.
    pub fn new(alloc: Global) -> Watches {
        Watches {
            alloc,
            lists: Vec::new(alloc),
            used: 0,
            firsts: Vec::new(alloc),
        }
    }

    /// Nothing is watched any more. The lists keep their memory.
    pub fn clear(&mut self) {
        clear_lists(&mut self.lists, self.used);
        self.used = 0;
        self.firsts.clear();
    }

    /// Where the list of the first choice of a package stands, if one of its choices is watched.
    #[inline(always)]
    pub fn first(&self, variable: u32) -> Option<u32> {
        match self.firsts.as_slice().get(variable as usize) {
            None => None,
            Some(first) => *first,
        }
    }

    /// Adds so many lists, and answers where the first one stands.
    fn add_lists(&mut self, count: u32) -> Result<u32, Stop> {
        let first = self.used;
        let used = first.saturating_add(count);
        for _ in self.lists.len()..used as usize {
            self.lists.push(Vec::new(self.alloc))?;
        }
        self.used = used;
        Ok(first)
    }

    /// As `first`; the lists of the package are made if there are none.
    fn make_lists(&mut self, trail: &Trail, variable: u32) -> Result<u32, Stop> {
        if let Some(first) = self.first(variable) {
            return Ok(first);
        }
        for _ in self.firsts.len()..variable as usize + 1 {
            self.firsts.push(None)?;
        }
        let count = match trail.variable(variable)?.all.highest() {
            None => 0,
            Some(highest) => highest.saturating_add(1),
        };
        let first = self.add_lists(count)?;
        *at_mut(&mut self.firsts, variable)? = Some(first);
        Ok(first)
    }

    /// Adds a watch to the list at a place.
    #[inline(always)]
    pub fn add_at(&mut self, place: u32, watch: Watch) -> Result<(), Stop> {
        at_mut(&mut self.lists, place)?.push(watch)?;
        Ok(())
    }

    /// Watches an incompatibility by a choice of a package.
    pub fn add(
        &mut self,
        trail: &Trail,
        variable: u32,
        choice: u32,
        watch: Watch,
    ) -> Result<(), Stop> {
        let place = self.make_lists(trail, variable)?.saturating_add(choice);
        self.add_at(place, watch)
    }

    /// Watches a term of an incompatibility, beside which stands another one of it.
    pub fn watch(&mut self, trail: &Trail, own: Term, other: Term, id: u32) -> Result<(), Stop> {
        let choice = choice_to_watch(trail, own)?;
        let watch = Watch::new(own, other, id);
        self.add(trail, own.variable, choice, watch)
    }

    /// Whether the list at a place is empty.
    #[inline(always)]
    pub fn is_empty(&self, place: u32) -> Result<bool, Stop> {
        Ok(at(&self.lists, place)?.is_empty())
    }

    /// Takes a list out, to be read and written.
    pub fn take(&mut self, place: u32) -> Result<Vec<Watch>, Stop> {
        let none = Vec::new(self.alloc);
        Ok(mem::replace(at_mut(&mut self.lists, place)?, none))
    }

    /// Puts it back. Nothing was put into the list meanwhile: its choice is gone, and what is watched anew is
    /// watched by one that is left.
    pub fn put_back(&mut self, place: u32, list: Vec<Watch>) -> Result<(), Stop> {
        let emptied = mem::replace(at_mut(&mut self.lists, place)?, list);
        drop(emptied);
        Ok(())
    }
}
