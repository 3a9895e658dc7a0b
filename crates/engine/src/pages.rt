//! The choices of a package that has more versions than a word has bits: they stand on pages.
//
// Each page is a package of its own to the rest of the engine. Its choice 0 says that no version on it is selected. The
// next choices stand for a version each, and the last ones for further pages. The versions stand on the pages as they
// are preferred, so the lower of two choices is the better one. The first page is the package itself: a requirement
// takes versions and whole further pages from it, and most searches see no other. A further page comes in once its best
// version is looked at, or a requirement admits some of its versions alone (`opening.rt`). Two incompatibilities tie it
// to the page before: the version stands on it just where that has its choice. Ties say nothing about versions.
//
// A trace speaks of packages alone, so it leaves ties out. A term on a page is one on its package: with choice 0 it
// rules the other choices' versions out, else it has those of its own. What is read for an incompatibility, of each
// package, holds wherever all of its terms on pages of that package do. That stays so from step to step. A step unites
// what two lines say of the package on which they are resolved, and meets what they say of each other package. After a
// step with a tie the terms on the package hold less often than before. So a line may say more than the engine knows.

use crate::cited::{is_set, unset};
use crate::view::Span;
use oracle::Task;
use propagation::{Bits, MOST_CHOICES, Stop, at, at_mut, choice_of, count_of, index_of};
use registry::{Matching, Registry};
use std::alloc::{AllocError, Global};
use std::cmp::Ordering;
use terms::{Pkg, VSet};

/// The most choices of a page beside choice 0.
const MOST_ON_PAGE: u32 = MOST_CHOICES - 1;

/// By how many requirements the versions of a package are cut. Without cuts random formulas of 20 to 60 variables whose packages
/// have 200 versions each meet more than 10 times as many conflicts.
const MOST_CUTTING: u32 = 16;

/// Where a version or a further page stands.
#[derive(Clone, Copy)]
pub(crate) struct Seat {
    pub page: u32,
    pub choice: u32,
}

/// A page.
#[derive(Clone, Copy)]
pub(crate) struct Page {
    /// Where it stands itself; any seat of the first page.
    pub seat: Seat,
    /// Where the versions on it and on its further pages stand among those of the package.
    first: u32,
    end: u32,
    /// How many versions have a choice each.
    singles: u32,
    /// The first of its further pages, and how many there are.
    next: u32,
    further: u32,
    /// The choices that stand for allowed versions, and choice 0.
    pub left: Bits,
    /// Its index on the trail, once it came in.
    pub variable: Option<u32>,
    /// Where its dependencies stand, once they were listed.
    pub span: Option<Span>,
}

/// A package that has many versions.
#[derive(Drop)]
pub(crate) struct Paged {
    /// The best version first.
    versions: Vec<u32>,
    /// By ordinal, where the version stands.
    seats: Vec<Seat>,
    /// Each behind the one that it stands on.
    pages: Vec<Page>,
}

// ---- pages

impl Page {
    /// Of the versions that stand there, none of which has a choice yet.
    fn new(seat: Seat, first: u32, end: u32) -> Page {
        Page {
            seat,
            first,
            end,
            singles: 0,
            next: 0,
            further: 0,
            left: Bits::none(),
            variable: None,
            span: None,
        }
    }

    /// Its choices.
    pub fn all(&self) -> Bits {
        Bits::up_to(self.singles.saturating_add(self.further))
    }

    /// The choices that stand for a version each.
    pub fn singles(&self) -> Bits {
        Bits::up_to(self.singles).minus(Bits::absence())
    }

    /// The place of the version that a choice stands for, if it stands for one alone.
    fn place(&self, choice: u32) -> Option<u32> {
        let index = choice.checked_sub(1)?;
        if index < self.singles {
            Some(self.first.saturating_add(index))
        } else {
            None
        }
    }

    /// Whether choices of it stand for further pages.
    pub fn has_further(&self) -> bool {
        self.further > 0
    }

    /// The further page that a choice stands for, if it stands for one.
    pub fn further(&self, choice: u32) -> Option<u32> {
        let index = choice.checked_sub(choice_of(self.singles))?;
        if index < self.further {
            Some(self.next.saturating_add(index))
        } else {
            None
        }
    }
}

/// How many of the versions between two places have a choice each, the others further pages that end at each cut: as many
/// as there can be. None, if there are too many of them.
fn singles_between(cuts: &[bool], first: u32, end: u32) -> Option<u32> {
    let mut pages = 0u32;
    let mut others = 0u32;
    if end.saturating_sub(first) <= MOST_ON_PAGE {
        return Some(end.saturating_sub(first));
    }
    for place in (first..end).rev() {
        others = others.saturating_add(1);
        let further = pages.saturating_add(others.saturating_add(MOST_ON_PAGE - 1) / MOST_ON_PAGE);
        let singles = place.saturating_sub(first);
        if singles.saturating_add(further) <= MOST_ON_PAGE {
            return Some(singles);
        }
        if is_set(cuts, place) {
            pages = further;
            others = 0;
        }
    }
    None
}

/// Where a page ends that begins at a place.
fn end_from(cuts: &[bool], first: u32, end: u32) -> u32 {
    for place in choice_of(first)..end.min(first.saturating_add(MOST_ON_PAGE)) {
        if is_set(cuts, place) {
            return place;
        }
    }
    end.min(first.saturating_add(MOST_ON_PAGE))
}

/// Gives the versions of a page their choices, and adds its further pages. Where cuts make too many, they end anywhere; and
/// where there still are too many versions, the last one has further pages again.
fn split(pages: &mut Vec<Page>, own: u32, cuts: &[bool]) -> Result<(), Stop> {
    let next = index_of(pages.len())?;
    let Page { first, end, .. } = *at(pages, own)?;
    let none: &[bool] = &[];
    let (singles, cuts) = match singles_between(cuts, first, end) {
        Some(singles) => (singles, cuts),
        None => (singles_between(none, first, end).unwrap_or(1), none),
    };
    let mut begin = first.saturating_add(singles);
    let mut further = 0u32;
    for index in singles..MOST_ON_PAGE {
        if begin >= end {
            break;
        }
        let to = if choice_of(index) == MOST_ON_PAGE {
            end
        } else {
            end_from(cuts, begin, end)
        };
        let choice = choice_of(index);
        pages.push(Page::new(Seat { page: own, choice }, begin, to))?;
        further = further.saturating_add(1);
        begin = to;
    }
    let page = at_mut(pages, own)?;
    page.singles = singles;
    page.next = next;
    page.further = further;
    Ok(())
}

/// The pages of so many versions, of which further ones end at each cut if they can.
fn pages_for(alloc: Global, versions: u32, cuts: &[bool]) -> Result<Vec<Page>, Stop> {
    let mut pages = Vec::new(alloc);
    pages.push(Page::new(Seat { page: 0, choice: 0 }, 0, versions))?;
    for own in 0..u32::MAX {
        if own as usize >= pages.len() {
            return Ok(pages);
        }
        split(&mut pages, own, cuts)?;
    }
    Err(Stop::Lost)
}

// ---- versions

/// How two versions of a package compare, the better one first: that of the lock, then the higher one.
fn compare_versions(
    registry: &Registry,
    pkg: Pkg,
    locked: Option<u32>,
    a: u32,
    b: u32,
) -> Ordering {
    if locked == Some(a) || locked == Some(b) {
        return (locked == Some(b)).cmp(&(locked == Some(a)));
    }
    match (registry.facts_at(pkg, a), registry.facts_at(pkg, b)) {
        (Some(first), Some(second)) => versions::order(second.version, first.version),
        (_, _) => Ordering::Equal,
    }
}

/// The versions of a package, the best first.
fn versions_by_preference(task: &Task<'_>, pkg: Pkg) -> Result<Vec<u32>, Stop> {
    let registry = task.registry;
    let count = registry.version_count(pkg);
    let locked = match task.locked_version(pkg) {
        None => None,
        Some(version) => registry.find(pkg, version),
    };
    let mut versions = Vec::with_capacity(task.alloc, count as usize)?;
    for ordinal in 0..count {
        versions.push(ordinal)?;
    }
    versions.sort_unstable_by(|a, b| compare_versions(registry, pkg, locked, *a, *b));
    Ok(versions)
}

/// Cuts versions where some meet a requirement and those before do not, or the other way round.
fn cut_by(cuts: &mut [bool], versions: &[u32], matching: &Matching<'_>) -> Result<(), Stop> {
    let mut before = None;
    for (place, ordinal) in versions.iter().enumerate() {
        let meets = matching.has(*ordinal);
        if before == Some(!meets) {
            *at_mut(cuts, count_of(place))? = true;
        }
        before = Some(meets);
    }
    Ok(())
}

/// Where the versions of a package are cut by the first requirements on it: those on a page meet the same ones then, and
/// what is learnt of one is learnt of all.
fn cuts_between(task: &Task<'_>, pkg: Pkg, versions: &[u32]) -> Result<Vec<bool>, Stop> {
    let mut cuts = unset(task.alloc, count_of(versions.len()))?;
    for place in 0..MOST_CUTTING {
        let Some(matching) = task.registry.matching_named(pkg, place) else {
            return Ok(cuts);
        };
        let cut = cut_by(&mut cuts, versions, &matching);
        drop(matching);
        cut?;
    }
    Ok(cuts)
}

/// So many seats, whatever they are.
fn seats_for(alloc: Global, count: usize) -> Result<Vec<Seat>, AllocError> {
    let mut seats = Vec::with_capacity(alloc, count)?;
    for _ in 0..count {
        seats.push(Seat { page: 0, choice: 0 })?;
    }
    Ok(seats)
}

impl Paged {
    /// A package, of which no page came in.
    pub fn new(task: &Task<'_>, pkg: Pkg) -> Result<Paged, Stop> {
        let alloc = task.alloc;
        let versions = versions_by_preference(task, pkg)?;
        let count = versions.len();
        let cuts = cuts_between(task, pkg, &versions)?;
        let mut paged = Paged {
            seats: seats_for(alloc, count)?,
            pages: pages_for(alloc, count_of(count), &cuts)?,
            versions,
        };
        paged.seat_all()?;
        paged.leave_allowed(task, pkg)?;
        Ok(paged)
    }

    /// Notes where the versions of a page stand.
    fn seat(&mut self, page: u32) -> Result<(), Stop> {
        let row = *at(&self.pages, page)?;
        for index in 0..row.singles {
            let ordinal = *at(&self.versions, row.first.saturating_add(index))?;
            let choice = choice_of(index);
            *at_mut(&mut self.seats, ordinal)? = Seat { page, choice };
        }
        Ok(())
    }

    /// Notes where each version stands.
    fn seat_all(&mut self) -> Result<(), Stop> {
        for page in 0..count_of(self.pages.len()) {
            self.seat(page)?;
        }
        Ok(())
    }

    /// By page, the choices that stand for allowed versions.
    fn allowed(&self, task: &Task<'_>, pkg: Pkg) -> Result<Vec<Bits>, Stop> {
        let registry = task.registry;
        if !registry.has_yanks(pkg) {
            return Ok(self.all_choices(task.alloc)?);
        }
        let mut words = self.no_choices(task.alloc)?;
        for ordinal in 0..count_of(self.seats.len()) {
            if registry.allowed(task.request, pkg, ordinal) {
                self.choose(&mut words, ordinal)?;
            }
        }
        self.choose_pages(&mut words, false)?;
        Ok(words)
    }

    /// Notes which choices of each page stand for allowed versions.
    fn leave_allowed(&mut self, task: &Task<'_>, pkg: Pkg) -> Result<(), Stop> {
        let words = self.allowed(task, pkg)?;
        for page in 0..count_of(words.len()) {
            let left = at(&words, page)?.or(Bits::absence());
            at_mut(&mut self.pages, page)?.left = left;
        }
        Ok(())
    }

    /// The page with a number.
    pub fn page(&self, page: u32) -> Result<&Page, Stop> {
        at(&self.pages, page)
    }

    /// As `page`, to write there.
    pub fn page_mut(&mut self, page: u32) -> Result<&mut Page, Stop> {
        at_mut(&mut self.pages, page)
    }

    /// The versions that have a choice each of a page, from choice 1 on.
    pub fn singles(&self, page: &Page) -> &[u32] {
        let end = page.first.saturating_add(page.singles);
        match self
            .versions
            .as_slice()
            .get(page.first as usize..end as usize)
        {
            None => &[],
            Some(versions) => versions,
        }
    }

    /// The version that a choice of a page stands for, if it stands for one alone.
    pub fn version(&self, page: u32, choice: u32) -> Result<Option<u32>, Stop> {
        match self.page(page)?.place(choice) {
            None => Ok(None),
            Some(place) => Ok(Some(*at(&self.versions, place)?)),
        }
    }

    // ---- choices for versions

    /// By page, all choices beside 0.
    fn all_choices(&self, alloc: Global) -> Result<Vec<Bits>, AllocError> {
        let mut words = Vec::with_capacity(alloc, self.pages.len())?;
        for page in self.pages.as_slice() {
            words.push(page.all().minus(Bits::absence()))?;
        }
        Ok(words)
    }

    /// No choice of any page.
    fn no_choices(&self, alloc: Global) -> Result<Vec<Bits>, AllocError> {
        let mut words = Vec::with_capacity(alloc, self.pages.len())?;
        for _ in 0..self.pages.len() {
            words.push(Bits::none())?;
        }
        Ok(words)
    }

    /// Adds the choice of a version.
    fn choose(&self, words: &mut [Bits], ordinal: u32) -> Result<(), Stop> {
        let seat = *at(&self.seats, ordinal)?;
        let word = at_mut(words, seat.page)?;
        *word = word.or(Bits::of(seat.choice));
        Ok(())
    }

    /// Adds the choices of further pages of which some versions are chosen, or all of them.
    fn choose_pages(&self, words: &mut [Bits], is_whole: bool) -> Result<(), Stop> {
        for number in (1..count_of(self.pages.len())).rev() {
            let page = self.page(number)?;
            let chosen = *at(words, number)?;
            let is_chosen = if is_whole {
                page.all().is_within(chosen.or(Bits::absence()))
            } else {
                !chosen.is_empty()
            };
            if is_chosen {
                let word = at_mut(words, page.seat.page)?;
                *word = word.or(Bits::of(page.seat.choice));
            }
        }
        Ok(())
    }

    /// By page, the choices that stand for any of these versions, or for these alone.
    pub fn choices(
        &self,
        alloc: Global,
        versions: &VSet,
        is_whole: bool,
    ) -> Result<Vec<Bits>, Stop> {
        if versions.len() == self.versions.len() {
            return Ok(self.all_choices(alloc)?);
        }
        let mut words = self.no_choices(alloc)?;
        for ordinal in versions.iter() {
            self.choose(&mut words, ordinal)?;
        }
        self.choose_pages(&mut words, is_whole)?;
        Ok(words)
    }
}
