//! Pages come in, and what requirements say of them.

use crate::engine::Engine;
use crate::meeting::{choices_among, versions_meeting};
use crate::pages::{Page, Paged};
use propagation::{Bits, Origin, Stop, Term, Variable, at, at_mut, count_of, index_of};
use terms::{Pkg, VSet};

/// A page of a package: the number of the package among those that have pages, and that of the page.
#[derive(Clone, Copy)]
pub(crate) struct PageOf {
    pub paged: u32,
    pub page: u32,
}

impl Engine<'_> {
    // ---- pages by their indexes on the trail

    /// Which page has an index on the trail, if one does.
    #[inline(always)]
    pub(crate) fn page_of(&self, variable: u32) -> Option<PageOf> {
        match self.page_of.as_slice().get(variable as usize) {
            Some(Some(page)) => Some(*page),
            _ => None,
        }
    }

    /// A package that has pages, by its number.
    fn paged(&self, paged: u32) -> Result<&Paged, Stop> {
        at(&self.paged, paged)
    }

    /// The page that has an index on the trail, if one does.
    pub(crate) fn page(&self, variable: u32) -> Result<Option<&Page>, Stop> {
        match self.page_of(variable) {
            None => Ok(None),
            Some(own) => Ok(Some(self.paged(own.paged)?.page(own.page)?)),
        }
    }

    /// The index on the trail of the package itself: that of a page is another one, unless it is the first.
    pub(crate) fn package(&self, variable: u32) -> Result<u32, Stop> {
        let Some(own) = self.page_of(variable) else {
            return Ok(variable);
        };
        match self.paged(own.paged)?.page(0)?.variable {
            None => Err(Stop::Lost),
            Some(first) => Ok(first),
        }
    }

    /// The further page that a choice stands for, if it stands for one.
    fn further(&self, variable: u32, choice: u32) -> Result<Option<PageOf>, Stop> {
        let Some(own) = self.page_of(variable) else {
            return Ok(None);
        };
        let paged = own.paged;
        match self.paged(paged)?.page(own.page)?.further(choice) {
            None => Ok(None),
            Some(page) => Ok(Some(PageOf { paged, page })),
        }
    }

    /// The index of the further page that a choice stands for, if it stands for one that came in.
    pub(crate) fn opened(&self, variable: u32, choice: u32) -> Result<Option<u32>, Stop> {
        match self.further(variable, choice)? {
            None => Ok(None),
            Some(own) => Ok(self.paged(own.paged)?.page(own.page)?.variable),
        }
    }

    /// The index of the further page that is selected, if one is that came in.
    pub(crate) fn selected_page(&self, variable: u32) -> Result<Option<u32>, Stop> {
        match self.trail.left(variable)?.only() {
            None => Ok(None),
            Some(choice) => self.opened(variable, choice),
        }
    }

    /// The version that is selected, if one is. Of a package whose version stands on a further page none is.
    pub(crate) fn selected(&self, variable: u32) -> Result<Option<u32>, Stop> {
        let Some(choice) = self.trail.left(variable)?.only() else {
            return Ok(None);
        };
        match self.page_of(variable) {
            None => Ok(choice.checked_sub(1)),
            Some(own) => self.paged(own.paged)?.version(own.page, choice),
        }
    }

    /// Of some choices those whose dependencies are known once those of all of them are: a further page has to come in.
    pub(crate) fn known_of(&self, variable: u32, choices: Bits) -> Result<Bits, Stop> {
        match self.page(variable)? {
            None => Ok(choices),
            Some(page) => Ok(choices.and(page.singles())),
        }
    }

    // ---- coming in

    /// Adds a package or a page to the trail, and answers its index.
    pub(crate) fn add_row(&mut self, pkg: Pkg, all: Bits, left: Bits) -> Result<u32, Stop> {
        let variable = self.trail.add(Variable {
            pkg,
            all,
            left,
            watched: all,
            last: None,
            entered: Bits::none(),
        })?;
        self.incompats.make_lists(self.trail.variables().len())?;
        Ok(variable)
    }

    /// Adds a page to the trail, and answers its index.
    fn add_page(&mut self, pkg: Pkg, own: PageOf) -> Result<u32, Stop> {
        let page = *self.paged(own.paged)?.page(own.page)?;
        let variable = self.add_row(pkg, page.all(), page.left)?;
        for _ in self.page_of.len()..variable as usize {
            self.page_of.push(None)?;
        }
        self.page_of.push(Some(own))?;
        let paged = at_mut(&mut self.paged, own.paged)?;
        paged.page_mut(own.page)?.variable = Some(variable);
        Ok(variable)
    }

    /// Adds a package that has many versions, and answers its index: that of its first page.
    pub(crate) fn add_paged(&mut self, pkg: Pkg) -> Result<u32, Stop> {
        let paged = index_of(self.paged.len())?;
        let made = Paged::new(&self.task, pkg)?;
        self.paged.push(made)?;
        self.add_page(pkg, PageOf { paged, page: 0 })
    }

    /// Adds that two terms do not go together, since one is on a page and the other on the page before, and derives what
    /// follows now.
    fn tie(&mut self, before: Term, own: Term) -> Result<(), Stop> {
        let id = self.add_two(before, own, Origin::Page)?;
        self.derive_entered_two(before, own, id)
    }

    /// Ties a page to the choice of the page before.
    fn tie_both(&mut self, before: u32, choice: u32, own: u32) -> Result<(), Stop> {
        let there = Term {
            variable: before,
            choices: Bits::of(choice),
        };
        let elsewhere = Term {
            variable: before,
            choices: self.trail.variable(before)?.all.minus(there.choices),
        };
        let none = Term {
            variable: own,
            choices: Bits::absence(),
        };
        let some = Term {
            variable: own,
            choices: self.trail.variable(own)?.all.minus(none.choices),
        };
        self.tie(elsewhere, some)?;
        self.tie(there, none)
    }

    /// The index of a page, which comes in if it didn't; the page before has to be there.
    fn page_variable(&mut self, own: PageOf) -> Result<u32, Stop> {
        let paged = self.paged(own.paged)?;
        let page = paged.page(own.page)?;
        if let Some(variable) = page.variable {
            return Ok(variable);
        }
        let seat = page.seat;
        let Some(before) = paged.page(seat.page)?.variable else {
            return Err(Stop::Lost);
        };
        let pkg = self.trail.variable(before)?.pkg;
        let variable = self.add_page(pkg, own)?;
        self.tie_both(before, seat.choice, variable)?;
        Ok(variable)
    }

    /// Has the further page that a choice stands for come in, if it stands for one.
    pub(crate) fn open(&mut self, variable: u32, choice: u32) -> Result<(), Stop> {
        if let Some(own) = self.further(variable, choice)? {
            let _variable = self.page_variable(own)?;
        }
        Ok(())
    }

    // ---- requirements

    /// What a requirement takes from a page of which it admits these choices, if that is not for the page before to say.
    /// Then the page comes in, and one with further pages too, since they can't come in before.
    fn taken_from(&mut self, own: PageOf, admitted: Bits) -> Result<Option<Term>, Stop> {
        let page = self.paged(own.paged)?.page(own.page)?;
        let mut choices = page.all().minus(admitted);
        if own.page > 0 {
            choices = choices.minus(Bits::absence());
            let is_whole = choices.is_empty() && !page.has_further();
            if admitted.is_empty() || is_whole {
                return Ok(None);
            }
        }
        let variable = self.page_variable(own)?;
        Ok(Some(Term { variable, choices }))
    }

    /// What a need or a dependency takes from a package that has pages, from the first page first: it admits what none of
    /// these terms has.
    pub(crate) fn taken(&mut self, paged: u32, pkg: Pkg, by: Origin) -> Result<Vec<Term>, Stop> {
        let alloc = self.task.alloc;
        let versions = versions_meeting(&self.task, pkg, by)?;
        let made = self.paged(paged)?.choices(alloc, &versions, false);
        drop(versions);
        let words = made?;
        let mut terms = Vec::new(alloc);
        for page in 0..count_of(words.len()) {
            let admitted = *at(&words, page)?;
            if let Some(term) = self.taken_from(PageOf { paged, page }, admitted)? {
                terms.push(term)?;
            }
        }
        Ok(terms)
    }

    /// The choices of a package that stand for any of these versions, or for these alone. Of one with pages those on the
    /// first one.
    pub(crate) fn choices(
        &self,
        variable: u32,
        versions: &VSet,
        is_whole: bool,
    ) -> Result<Bits, Stop> {
        match self.page_of(variable) {
            None => Ok(choices_among(self.trail.variable(variable)?.all, versions)),
            Some(own) => {
                let paged = self.paged(own.paged)?;
                let words = paged.choices(self.task.alloc, versions, is_whole)?;
                Ok(*at(&words, 0)?)
            }
        }
    }
}
