//! What the registry says, as a search asks for it: of each package the dependencies of its versions, in
// rows. Versions with the same target and requirement share one.
//
// The registry keeps each name and each requirement once, and notes with each dependency where. So two numbers
// stand for the texts here, and what meets a requirement is read where it is kept: nothing is tested or looked up
// by its text. If a place were wrong, so might be what the search claims: that is refused, and another search answers.

use propagation::{Bits, Stop, at, at_mut, choice_of, count_of, index_of};
use registry::{Place, Registry};
use std::alloc::Global;
use std::mem;
use terms::Pkg;

/// From how many versions on what all of them depend on is entered before one is decided. Packages with fewer are
/// decided early. Without this, chains of such packages take 1.6 times as long.
const SEVERAL: usize = 4;

/// In how many rows a dependency is looked for, beside that of the version before. One that stands further back gets
/// another row, which costs no more than that. With 64 in place of 8, a hundred small conflicts side by side take 2 %
/// longer.
const LOOKS: u32 = 8;

/// How many rows are kept for later searches at most: 1.3 MB.
const MOST_KEPT: usize = 1 << 15;

/// A dependency of versions of a package.
#[derive(Clone, Copy)]
pub(crate) struct Dependency {
    /// The versions that have it.
    pub sharing: Bits,
    pub target: Pkg,
    /// The place of its requirement among those on the target.
    pub need: u32,
    /// One of the versions that have it, and its index there.
    pub ordinal: u32,
    pub index: usize,
    /// The last search in which it was among the incompatibilities.
    entered: u32,
}

/// Where the dependencies of a package stand.
#[derive(Clone, Copy)]
pub(crate) struct Span {
    pub first: u32,
    pub end: u32,
}

/// What was listed of a package.
#[derive(Clone, Copy)]
struct Listed {
    span: Span,
    /// How many versions it had.
    versions: u32,
}

/// The dependencies of packages, in rows, which are kept from search to search: a package has the same ones as long as it
/// has the same number of versions.
#[derive(Drop)]
pub(crate) struct View {
    rows: Vec<Dependency>,
    /// By number of the package, up to the highest that was asked for.
    listed: Vec<Option<Listed>>,
    /// The rows of the version that is looked at, in the order of its dependencies.
    current: Vec<u32>,
    /// The number of the search, from 1 on.
    search: u32,
}

/// Whether several versions of a package, which are all, depend on the same, and on something.
pub(crate) fn several_depend_alike(registry: &Registry, pkg: Pkg) -> bool {
    registry.versions(pkg) >= SEVERAL
        && !registry.places(pkg, 0).is_empty()
        && registry.is_alike(pkg)
}

impl View {
    /// No package was asked for. Nothing is allocated before the first one.
    pub fn new(alloc: Global) -> View {
        View {
            rows: Vec::new(alloc),
            listed: Vec::new(alloc),
            current: Vec::new(alloc),
            search: 1,
        }
    }

    /// Begins the next search.
    pub fn begin_next(&mut self, alloc: Global) {
        if self.rows.len() > MOST_KEPT || self.search == u32::MAX {
            let before = mem::replace(self, View::new(alloc));
            drop(before);
            return;
        }
        self.search = self.search.saturating_add(1);
    }

    // ---- making the rows of a package

    /// Whether a row is that of a target and a requirement.
    #[inline(always)]
    fn is_of(&self, row: u32, target: Pkg, need: u32) -> Result<bool, Stop> {
        let row = at(&self.rows, row)?;
        Ok(row.need == need && row.target == target)
    }

    /// The row of a target and a requirement, among those of a package from a row on.
    fn found(&self, first: u32, target: Pkg, need: u32) -> Result<Option<u32>, Stop> {
        let end = count_of(self.rows.len());
        for row in first.max(end.saturating_sub(LOOKS))..end {
            if self.is_of(row, target, need)? {
                return Ok(Some(row));
            }
        }
        Ok(None)
    }

    /// The row of a dependency, which is made if there is none: mostly it is that of the version before.
    fn row_of(
        &mut self,
        first: u32,
        place: Place,
        ordinal: u32,
        index: usize,
    ) -> Result<u32, Stop> {
        let (target, need) = (place.target, place.need);
        if let Some(row) = self.current.as_slice().get(index).copied() {
            if self.is_of(row, target, need)? {
                return Ok(row);
            }
        }
        if let Some(row) = self.found(first, target, need)? {
            return Ok(row);
        }
        let row = index_of(self.rows.len())?;
        self.rows.push(Dependency {
            sharing: Bits::none(),
            target,
            need,
            ordinal,
            index,
            entered: 0,
        })?;
        Ok(row)
    }

    /// Notes the row of the dependency at an index of the version that is looked at.
    fn note(&mut self, index: usize, row: u32) -> Result<(), Stop> {
        match self.current.as_mut_slice().get_mut(index) {
            Some(current) => *current = row,
            None => self.current.push(row)?,
        }
        Ok(())
    }

    /// Finds the rows of a version, of a package whose rows stand from one on.
    #[inline(always)]
    fn find(&mut self, first: u32, places: &[Place], ordinal: u32) -> Result<(), Stop> {
        for (index, place) in places.iter().enumerate() {
            let row = self.row_of(first, *place, ordinal, index)?;
            self.note(index, row)?;
        }
        self.current.truncate(places.len());
        Ok(())
    }

    /// Notes that the versions of these choices have the dependencies of the rows at hand.
    fn share(&mut self, choices: Bits) -> Result<(), Stop> {
        for row in self.current.as_slice() {
            let row = at_mut(&mut self.rows, *row)?;
            row.sharing = row.sharing.or(choices);
        }
        Ok(())
    }

    /// Makes the rows of a package.
    fn list(&mut self, registry: &Registry, pkg: Pkg) -> Result<Span, Stop> {
        let first = index_of(self.rows.len())?;
        self.current.clear();
        let repeats = registry.repeats(pkg);
        for ordinal in 0..registry.version_count(pkg) {
            if repeats.get(ordinal as usize).copied() != Some(true) {
                self.find(first, registry.places(pkg, ordinal), ordinal)?;
            }
            self.share(Bits::of(choice_of(ordinal)))?;
        }
        let end = index_of(self.rows.len())?;
        Ok(Span { first, end })
    }

    /// Makes the rows of a page: of these versions, which have a choice each.
    pub fn list_page(
        &mut self,
        registry: &Registry,
        pkg: Pkg,
        versions: &[u32],
    ) -> Result<Span, Stop> {
        let first = index_of(self.rows.len())?;
        self.current.clear();
        for (place, ordinal) in versions.iter().enumerate() {
            self.find(first, registry.places(pkg, *ordinal), *ordinal)?;
            self.share(Bits::of(choice_of(count_of(place))))?;
        }
        let end = index_of(self.rows.len())?;
        Ok(Span { first, end })
    }

    /// Makes the rows of a first page whose choices are these, where all versions of the package depend on the same.
    pub fn list_alike(&mut self, registry: &Registry, pkg: Pkg, all: Bits) -> Result<Span, Stop> {
        let first = index_of(self.rows.len())?;
        self.current.clear();
        self.find(first, registry.places(pkg, 0), 0)?;
        self.share(all)?;
        let end = index_of(self.rows.len())?;
        Ok(Span { first, end })
    }

    // ---- what is asked

    /// What was listed of a package, if that is so still.
    #[inline(always)]
    fn kept(&self, pkg: Pkg, versions: u32) -> Option<Span> {
        let Some(Some(listed)) = self.listed.as_slice().get(pkg as usize).copied() else {
            return None;
        };
        if listed.versions != versions {
            return None;
        }
        Some(listed.span)
    }

    /// Lists a package.
    fn list_anew(&mut self, registry: &Registry, pkg: Pkg, versions: u32) -> Result<Span, Stop> {
        for _ in self.listed.len()..pkg as usize + 1 {
            self.listed.push(None)?;
        }
        let span = self.list(registry, pkg)?;
        *at_mut(&mut self.listed, pkg)? = Some(Listed { span, versions });
        Ok(span)
    }

    /// Where the dependencies of a package stand that has no pages.
    pub fn span(&mut self, registry: &Registry, pkg: Pkg) -> Result<Span, Stop> {
        let versions = registry.version_count(pkg);
        match self.kept(pkg, versions) {
            Some(span) => Ok(span),
            None => self.list_anew(registry, pkg, versions),
        }
    }

    /// The dependency that stands there; Lost, if none does.
    pub fn row(&self, row: u32) -> Result<&Dependency, Stop> {
        at(&self.rows, row)
    }

    /// Whether a dependency was not entered yet, and is one of these versions; it is taken to be entered from now on.
    pub fn enters(&mut self, row: u32, having: Bits) -> Result<bool, Stop> {
        let search = self.search;
        let row = at_mut(&mut self.rows, row)?;
        if row.entered == search || row.sharing.is_apart(having) {
            return Ok(false);
        }
        row.entered = search;
        Ok(true)
    }
}
