//! Whose turn it is in the order of the walk (crate `walk`): the needs by their names, then what each version
// that is selected depends on, in order.
//
// A search that decides in this order, each package for its best version that is left, ends with the newest
// selection.

use crate::engine::Engine;
use propagation::{Bits, Stop, Trail, at_mut, count_of, rows_from};
use std::alloc::Global;
use std::cmp::Ordering;
use terms::Pkg;
use versions::{Name, Need};

/// A package of which the dependencies are listed.
#[derive(Clone, Copy)]
struct Passed {
    /// How many packages were listed before those that it depends on.
    before: usize,
    /// By how many entries of the trail its version is selected, and those of the packages passed before.
    entries: u32,
}

/// Packages in the order of the walk, as far as versions are selected.
#[derive(Drop)]
pub(crate) struct Turn {
    listed: Vec<u32>,
    /// By index of the package, whether it is listed.
    is_listed: Vec<bool>,
    /// The first of those that are listed.
    passed: Vec<Passed>,
}

/// How the names at two places compare.
fn compare_names(needs: &[(Name, Need)], a: usize, b: usize) -> Ordering {
    match (needs.get(a), needs.get(b)) {
        (Some(first), Some(second)) => first.0.cmp(&second.0),
        (_, _) => Ordering::Equal,
    }
}

/// The places of needs in the order of their names.
fn places_by_name(alloc: Global, needs: &[(Name, Need)]) -> Result<Vec<usize>, Stop> {
    let mut places = Vec::with_capacity(alloc, needs.len())?;
    for place in 0..needs.len() {
        places.push(place)?;
    }
    places.sort_unstable_by(|a, b| compare_names(needs, *a, *b));
    Ok(places)
}

impl Turn {
    /// No package is listed. Nothing is allocated before the first one.
    pub fn new(alloc: Global) -> Turn {
        Turn {
            listed: Vec::new(alloc),
            is_listed: Vec::new(alloc),
            passed: Vec::new(alloc),
        }
    }

    /// Forgets all packages, and keeps their memory.
    pub fn clear(&mut self) {
        self.listed.clear();
        self.is_listed.clear();
        self.passed.clear();
    }

    /// The packages in the order of the walk.
    pub fn listed(&self) -> &[u32] {
        &self.listed
    }

    /// Lists a package, unless it is.
    fn list(&mut self, variable: u32) -> Result<(), Stop> {
        for _ in self.is_listed.len()..variable as usize + 1 {
            self.is_listed.push(false)?;
        }
        let is_listed = at_mut(&mut self.is_listed, variable)?;
        if !*is_listed {
            *is_listed = true;
            self.listed.push(variable)?;
        }
        Ok(())
    }

    /// Takes away what was listed from a place on.
    fn cut(&mut self, first: usize) -> Result<(), Stop> {
        for variable in rows_from(&self.listed, first) {
            *at_mut(&mut self.is_listed, *variable)? = false;
        }
        self.listed.truncate(first);
        Ok(())
    }

    /// Takes away what was listed for versions that are not selected any more.
    pub fn go_back(&mut self, trail: &Trail) -> Result<(), Stop> {
        let made = count_of(trail.entries().len());
        for _ in 0..self.passed.len() {
            let Some(last) = self.passed.as_slice().last().copied() else {
                return Ok(());
            };
            if last.entries <= made {
                return Ok(());
            }
            self.passed.truncate(self.passed.len().saturating_sub(1));
            self.cut(last.before)?;
        }
        Ok(())
    }

    /// Notes that a package is passed whose version an entry of the trail selects, before its dependencies are listed.
    fn pass(&mut self, by: Option<u32>) -> Result<(), Stop> {
        let own = match by {
            None => 0,
            Some(place) => place.saturating_add(1),
        };
        let entries = match self.passed.as_slice().last() {
            None => own,
            Some(last) => last.entries.max(own),
        };
        let before = self.listed.len();
        self.passed.push(Passed { before, entries })?;
        Ok(())
    }

    /// The first package that was not passed, if there is one.
    fn first_left(&self) -> Option<u32> {
        self.listed.as_slice().get(self.passed.len()).copied()
    }
}

impl Engine<'_> {
    /// Lists the packages that the request needs, by their names.
    pub(crate) fn list_needs(&mut self) -> Result<(), Stop> {
        let needs = self.task.request.needs();
        let places = places_by_name(self.task.alloc, needs)?;
        for place in places.as_slice() {
            self.list_need(needs, *place)?;
        }
        Ok(())
    }

    /// Lists the package of the need at a place.
    fn list_need(&mut self, needs: &[(Name, Need)], place: usize) -> Result<(), Stop> {
        let Some((name, _)) = needs.get(place) else {
            return Ok(());
        };
        let Some(pkg) = self.task.registry.number(name) else {
            return Ok(());
        };
        let variable = self.variable_of(pkg)?;
        self.turn.list(variable)
    }

    /// Lists what a version depends on.
    fn list_dependencies(&mut self, pkg: Pkg, ordinal: u32) -> Result<(), Stop> {
        let registry = self.task.registry;
        for place in registry.places(pkg, ordinal) {
            let variable = self.variable_of(place.target)?;
            self.turn.list(variable)?;
        }
        Ok(())
    }

    /// The further page of a page that is to be looked at in its place, if there is one.
    fn page_behind(&self, page: u32) -> Result<Option<u32>, Stop> {
        let row = self.trail.variable(page)?;
        if row.left.is_within(row.entered) {
            self.selected_page(page)
        } else {
            Ok(None)
        }
    }

    /// The page of a package on which its version stands, as far as pages are selected; and the last entry by which that is
    /// so, and the page has the choices that are left of it.
    fn last_page(&self, package: u32) -> Result<(u32, Option<u32>), Stop> {
        let mut page = package;
        let mut entry = self.trail.variable(page)?.last;
        for _ in 0..self.page_of.len() {
            let Some(behind) = self.page_behind(page)? else {
                return Ok((page, entry));
            };
            page = behind;
            entry = entry.max(self.trail.variable(page)?.last);
        }
        Ok((page, entry))
    }

    /// Passes a package of which a version is selected on a page, by an entry, and whose dependencies are among the
    /// incompatibilities. Answers whether it is one.
    fn pass(&mut self, page: u32, by: Option<u32>) -> Result<bool, Stop> {
        let Some(ordinal) = self.selected(page)? else {
            return Ok(false);
        };
        let row = *self.trail.variable(page)?;
        if !row.left.is_within(row.entered) {
            return Ok(false);
        }
        self.turn.pass(by)?;
        self.list_dependencies(row.pkg, ordinal)?;
        Ok(true)
    }

    /// The package whose turn it is, or the page of it.
    pub(crate) fn next_in_walk(&mut self) -> Result<Option<u32>, Stop> {
        for _ in 0..u32::MAX {
            let Some(variable) = self.turn.first_left() else {
                return Ok(None);
            };
            if self.trail.left(variable)? == Bits::absence() {
                return Err(Stop::Lost);
            }
            let (page, by) = self.last_page(variable)?;
            if !self.pass(page, by)? {
                return Ok(Some(page));
            }
        }
        Err(Stop::Lost)
    }
}
