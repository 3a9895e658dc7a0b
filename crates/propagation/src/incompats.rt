//! The incompatibilities, and where each is looked at.
//
// One of two terms stands in the lists of both packages, with both terms, so that propagation reads
// nothing else. Of a longer one two terms are watched that are not satisfied, where there are two: Moskewicz et
// al., "Chaff: engineering an efficient SAT solver", 2001. A term is watched by one choice outside it that is left,
// as solvers of formulas do for a literal of several values: only once that goes may the term be satisfied. Then
// another choice outside it takes its place, else another term that is not satisfied, if there is one. Where the
// search jumps back nothing is moved.
//
// Looked at from all their packages instead, 8 pigeons take 3 times as long, random formulas of 80 variables 1.3
// times; watched by package and not by choice, 9 pigeons take 2 times. Beside a watch stands another term of the
// incompatibility, which spares the look at the rest if it is contradicted: Een and Sorensson's Minisat 2.2 ("blocker").

use crate::bits::{Bits, MOST_CHOICES};
use crate::look_ups::{at, at_mut, count_of, index_of};
use crate::origins::Origin;
use crate::stop::Stop;
use crate::trail::Trail;
use crate::watches::{Watch, Watches, clear_lists};
use std::alloc::Global;
use std::mem;

/// After so many the lists keep no memory, since each of them keeps what it took at most: so all of them keep less than
/// 10 MB.
const MOST_FORGOTTEN: u32 = 1 << 16;

/// That one of these choices of a package is selected.
#[derive(Clone, Copy)]
pub struct Term {
    pub variable: u32,
    pub choices: Bits,
}

/// Where the terms of an incompatibility stand among those of all, and where it comes from.
#[derive(Clone, Copy)]
struct Span {
    first: u32,
    end: u32,
    origin: Origin,
}

/// Incompatibilities: of each not all terms hold in a selection that meets the request. Each is known by
/// its index.
#[derive(Drop)]
pub struct Incompats {
    alloc: Global,
    spans: Vec<Span>,
    terms: Vec<Term>,
    /// Those of two terms, by index of the package of one of them.
    pairs: Vec<Vec<Watch>>,
    /// How many of these lists are in use. The others are empty, and keep their memory.
    used: u32,
    /// The longer ones.
    watches: Watches,
    /// How many were forgotten since the lists kept no memory.
    forgotten: u32,
}

/// What a look at a watched incompatibility found.
#[derive(Clone, Copy)]
enum Seen {
    /// It stays watched from here, by this.
    Stays(Watch),
    /// It is watched from another package instead.
    Moved,
    /// All its terms are satisfied.
    Conflict,
}

impl Incompats {
    /// There is none. Nothing is allocated before the first one.
    pub fn new(alloc: Global) -> Incompats {
        Incompats {
            alloc,
            spans: Vec::new(alloc),
            terms: Vec::new(alloc),
            pairs: Vec::new(alloc),
            used: 0,
            watches: Watches::new(alloc),
            forgotten: 0,
        }
    }

    /// Forgets all, and mostly keeps their memory.
    pub fn clear(&mut self) {
        self.forgotten = self.forgotten.saturating_add(self.count());
        if self.forgotten > MOST_FORGOTTEN {
            let before = mem::replace(self, Incompats::new(self.alloc));
            drop(before);
            return;
        }
        self.spans.clear();
        self.terms.clear();
        clear_lists(&mut self.pairs, self.used);
        self.used = 0;
        self.watches.clear();
    }

    /// How many there are.
    pub fn count(&self) -> u32 {
        count_of(self.spans.len())
    }

    /// The terms of an incompatibility.
    #[inline(always)]
    pub fn terms(&self, id: u32) -> Result<&[Term], Stop> {
        let span = at(&self.spans, id)?;
        match self
            .terms
            .as_slice()
            .get(span.first as usize..span.end as usize)
        {
            None => Err(Stop::Lost),
            Some(terms) => Ok(terms),
        }
    }

    /// The choices of the term on a package; none where there is no term on it.
    pub fn choices_on(&self, id: u32, variable: u32) -> Result<Bits, Stop> {
        for term in self.terms(id)? {
            if term.variable == variable {
                return Ok(term.choices);
            }
        }
        Ok(Bits::none())
    }

    /// Where an incompatibility comes from.
    pub fn origin(&self, id: u32) -> Result<Origin, Stop> {
        Ok(at(&self.spans, id)?.origin)
    }

    // ---- adding

    /// Adds an incompatibility of these terms, which is looked at from no package. Answers its index.
    pub fn add(&mut self, terms: &[Term], origin: Origin) -> Result<u32, Stop> {
        let id = index_of(self.spans.len())?;
        let first = index_of(self.terms.len())?;
        self.terms.extend_from_slice(terms)?;
        let end = index_of(self.terms.len())?;
        self.spans.push(Span { first, end, origin })?;
        Ok(id)
    }

    /// Makes the lists of so many packages.
    pub fn make_lists(&mut self, packages: usize) -> Result<(), Stop> {
        for _ in self.pairs.len()..packages {
            self.pairs.push(Vec::new(self.alloc))?;
        }
        self.used = self.used.max(count_of(packages));
        Ok(())
    }

    /// Puts one of two terms into the list of a package.
    fn add_pair(&mut self, own: Term, other: Term, id: u32) -> Result<(), Stop> {
        at_mut(&mut self.pairs, own.variable)?.push(Watch::new(own, other, id))?;
        Ok(())
    }

    /// Makes one of two terms looked at from both packages.
    pub fn pair(&mut self, id: u32, a: Term, b: Term) -> Result<(), Stop> {
        self.add_pair(a, b, id)?;
        self.add_pair(b, a, id)
    }

    /// Makes an incompatibility looked at from the packages of its first two terms.
    pub fn watch_first(&mut self, trail: &Trail, id: u32) -> Result<(), Stop> {
        let terms = self.terms(id)?;
        let (a, b) = match terms {
            [a, b, ..] => (*a, *b),
            _ => return Ok(()),
        };
        if terms.len() == 2 {
            return self.pair(id, a, b);
        }
        self.watches.watch(trail, a, b, id)?;
        self.watches.watch(trail, b, a, id)
    }

    // ---- propagation

    /// Derives what follows from those of two terms, the newest first, now that something was taken of a package.
    /// Answers a conflict, if there is one.
    fn derive_from_pairs(&self, trail: &mut Trail, variable: u32) -> Result<Option<u32>, Stop> {
        let Some(pairs) = self.pairs.as_slice().get(variable as usize) else {
            return Ok(None);
        };
        let left = trail.left(variable)?;
        for pair in pairs.iter().rev() {
            if left.is_within(pair.own) && !trail.exclude(pair.on, pair.other, pair.id)? {
                return Ok(Some(pair.id));
            }
        }
        Ok(None)
    }

    /// Puts the term on a package second among those of an incompatibility, of which it is one of the first
    /// two, and answers the first one.
    fn put_second(&mut self, first: u32, variable: u32) -> Result<Term, Stop> {
        let second = first.saturating_add(1);
        let (a, b) = (*at(&self.terms, first)?, *at(&self.terms, second)?);
        if a.variable != variable {
            return Ok(a);
        }
        *at_mut(&mut self.terms, first)? = b;
        *at_mut(&mut self.terms, second)? = a;
        Ok(b)
    }

    /// The place of a term that is not satisfied, of those behind the first two of an incompatibility, and the
    /// choices outside it that are left.
    #[inline(always)]
    fn unsatisfied(&self, trail: &Trail, span: Span) -> Result<Option<(u32, Bits)>, Stop> {
        for place in span.first.saturating_add(2)..span.end {
            let term = at(&self.terms, place)?;
            let outside = trail.left(term.variable)?.minus(term.choices);
            if !outside.is_empty() {
                return Ok(Some((place, outside)));
            }
        }
        Ok(None)
    }

    /// Watches the term at a place in place of the second one of an incompatibility, by one of the choices outside it.
    fn move_watch(
        &mut self,
        trail: &Trail,
        first: u32,
        place: u32,
        outside: Bits,
        kept: Watch,
    ) -> Result<Seen, Stop> {
        let second = first.saturating_add(1);
        let (old, new) = (*at(&self.terms, second)?, *at(&self.terms, place)?);
        if outside == trail.left(new.variable)? {
            // It is contradicted, and stands beside the watch from now on.
            return Ok(Seen::Stays(kept.beside(new)));
        }
        let Some(choice) = outside.highest() else {
            return Err(Stop::Lost);
        };
        *at_mut(&mut self.terms, second)? = new;
        *at_mut(&mut self.terms, place)? = old;
        let watch = Watch {
            own: new.choices,
            ..kept
        };
        self.watches.add(trail, new.variable, choice, watch)?;
        Ok(Seen::Moved)
    }

    /// Looks at an incompatibility, of which a watched term on a package is satisfied.
    fn see_satisfied(
        &mut self,
        trail: &mut Trail,
        variable: u32,
        watch: Watch,
    ) -> Result<Seen, Stop> {
        let span = *at(&self.spans, watch.id)?;
        let other = self.put_second(span.first, variable)?;
        let kept = watch.beside(other);
        if trail.left(other.variable)?.is_apart(other.choices) {
            return Ok(Seen::Stays(kept));
        }
        if let Some((place, outside)) = self.unsatisfied(trail, span)? {
            return self.move_watch(trail, span.first, place, outside, kept);
        }
        if trail.exclude(other.variable, other.choices, watch.id)? {
            Ok(Seen::Stays(kept))
        } else {
            Ok(Seen::Conflict)
        }
    }

    /// Looks at an incompatibility in the list of a choice that went, of a package of which this is left.
    fn see(
        &mut self,
        trail: &mut Trail,
        variable: u32,
        left: Bits,
        watch: Watch,
    ) -> Result<Seen, Stop> {
        let Some(choice) = left.minus(watch.own).highest() else {
            return self.see_satisfied(trail, variable, watch);
        };
        let Some(first) = self.watches.first(variable) else {
            return Err(Stop::Lost);
        };
        self.watches.add_at(first.saturating_add(choice), watch)?;
        Ok(Seen::Moved)
    }

    /// Derives what follows from the longer ones that are watched by a choice that went. The list is read and
    /// written in one go: those that are watched by another choice drop out.
    fn derive_from_list(
        &mut self,
        trail: &mut Trail,
        variable: u32,
        list: &mut Vec<Watch>,
    ) -> Result<Option<u32>, Stop> {
        let left = trail.left(variable)?;
        let mut kept = 0u32;
        let mut conflict = None;
        for index in 0..count_of(list.len()) {
            let mut watch = *at(list, index)?;
            if conflict.is_none() && !trail.left(watch.on)?.is_apart(watch.other) {
                match self.see(trail, variable, left, watch)? {
                    Seen::Moved => continue,
                    Seen::Stays(now) => watch = now,
                    Seen::Conflict => conflict = Some(watch.id),
                }
            }
            *at_mut(list, kept)? = watch;
            kept = kept.saturating_add(1);
        }
        list.truncate(kept as usize);
        Ok(conflict)
    }

    /// Derives what follows from the longer ones, now that a choice of a package went, whose list stands there.
    fn derive_from_choice(
        &mut self,
        trail: &mut Trail,
        variable: u32,
        place: u32,
    ) -> Result<Option<u32>, Stop> {
        if self.watches.is_empty(place)? {
            return Ok(None);
        }
        let mut list = self.watches.take(place)?;
        let conflict = self.derive_from_list(trail, variable, &mut list);
        self.watches.put_back(place, list)?;
        conflict
    }

    /// Derives what follows from the longer ones, now that choices of a package went.
    fn derive_from_watches(
        &mut self,
        trail: &mut Trail,
        variable: u32,
    ) -> Result<Option<u32>, Stop> {
        let mut gone = trail.take_gone(variable)?;
        let Some(first) = self.watches.first(variable) else {
            return Ok(None);
        };
        for _ in 0..MOST_CHOICES {
            let Some(choice) = gone.lowest() else {
                return Ok(None);
            };
            let place = first.saturating_add(choice);
            if let Some(conflict) = self.derive_from_choice(trail, variable, place)? {
                trail.give_gone(variable, gone)?;
                return Ok(Some(conflict));
            }
            gone = gone.minus(Bits::of(choice));
        }
        Ok(None)
    }

    /// Derives what follows now that something was taken of a package. Answers a conflict, if there is one.
    pub fn derive(&mut self, trail: &mut Trail, variable: u32) -> Result<Option<u32>, Stop> {
        match self.derive_from_pairs(trail, variable)? {
            Some(conflict) => Ok(Some(conflict)),
            None => self.derive_from_watches(trail, variable),
        }
    }
}
