//! Where versions of a package may have the same dependency.

use indexmap::IndexMap;
use oracle::Task;
use registry::{NEED_LIMIT, Registry};
use std::alloc::{AllocError, Global};
use std::hash::{DefaultHasher, Hash, Hasher};
use terms::Pkg;
use versions::{Name, Need};

/// Up to this many dependencies of a package are compared with each that is looked for, which takes less
/// than a table of them.
/// Measured at half and at twice this value: docs/BENCHMARKS.md, Constants.
const MOST_COMPARED_DEPENDENCIES: usize = 256;

/// Packages with at most so many versions have few dependencies, whatever each depends on.
const FEW_VERSIONS: usize = MOST_COMPARED_DEPENDENCIES / NEED_LIMIT;

/// Where a dependency stands: the ordinal of its version, and its index there.
#[derive(Clone, Copy)]
pub struct DependencyPlace {
    pub ordinal: u32,
    pub index: usize,
}

/// A dependency in the table.
#[derive(Clone, Copy)]
struct SharedDependency {
    place: DependencyPlace,
    /// The number of the one before it with the same key, 0 where there is none.
    before: usize,
}

/// The dependencies of those packages that have many, by what they say. Of versions that repeat each
/// other only the first is listed.
#[derive(Drop)]
pub struct Sharing {
    /// Whether a package has many dependencies, once that was asked.
    has_many: IndexMap<Pkg, bool>,
    /// Their numbers are one more than their indexes.
    listed: Vec<SharedDependency>,
    /// By the package and the key of a dependency, the number of the last one.
    last: IndexMap<(Pkg, u64), usize>,
    /// What was found last.
    found: Vec<DependencyPlace>,
}

/// What a version depends on, in order; nothing where it is not published.
fn needs<'a>(registry: &'a Registry, pkg: Pkg, ordinal: u32) -> &'a [(Name, Need)] {
    match registry.facts_at(pkg, ordinal) {
        None => &[],
        Some(facts) => facts.needs,
    }
}

/// A key of a dependency: equal ones have the same, and others hardly ever.
fn key_of(entry: &(Name, Need)) -> u64 {
    let mut state = DefaultHasher::new();
    entry.0.text().hash(&mut state);
    entry.1.text().hash(&mut state);
    state.finish()
}

/// Whether a version depends on the same as the one before it.
fn is_repeated(task: &Task<'_>, pkg: Pkg, ordinal: u32) -> bool {
    let repeats = task.registry.repeats(pkg).get(ordinal as usize).copied();
    repeats == Some(true)
}

/// Whether a package has many dependencies, where those count once that versions repeat.
fn has_many(task: &Task<'_>, pkg: Pkg) -> bool {
    let mut count = 0usize;
    for ordinal in 0..task.registry.version_count(pkg) {
        if !is_repeated(task, pkg, ordinal) {
            count = count.saturating_add(needs(task.registry, pkg, ordinal).len());
        }
        if count > MOST_COMPARED_DEPENDENCIES {
            return true;
        }
    }
    false
}

impl Sharing {
    /// No version was looked at. Nothing is allocated before the first one.
    pub fn new(alloc: Global) -> Sharing {
        Sharing {
            has_many: IndexMap::new(alloc),
            listed: Vec::new(alloc),
            last: IndexMap::new(alloc),
            found: Vec::new(alloc),
        }
    }

    /// Whether `find` is to be asked for the dependencies of a package: they are listed, which they are from
    /// now on if they are many, or there is one version, which shares none with others.
    pub fn lists(&mut self, task: &Task<'_>, pkg: Pkg) -> Result<bool, AllocError> {
        let versions = task.registry.versions(pkg);
        if versions <= FEW_VERSIONS {
            return Ok(versions == 1);
        }
        if let Some(many) = self.has_many.get(&pkg).copied() {
            return Ok(many);
        }
        let many = has_many(task, pkg);
        self.has_many.insert(pkg, many)?;
        if many {
            self.list_package(task, pkg)?;
        }
        Ok(many)
    }

    fn list_package(&mut self, task: &Task<'_>, pkg: Pkg) -> Result<(), AllocError> {
        for ordinal in 0..task.registry.version_count(pkg) {
            if !is_repeated(task, pkg, ordinal) {
                self.list_version(task, pkg, ordinal)?;
            }
        }
        Ok(())
    }

    fn list_version(&mut self, task: &Task<'_>, pkg: Pkg, ordinal: u32) -> Result<(), AllocError> {
        for (index, entry) in needs(task.registry, pkg, ordinal).iter().enumerate() {
            self.list(pkg, DependencyPlace { ordinal, index }, entry)?;
        }
        Ok(())
    }

    fn list(
        &mut self,
        pkg: Pkg,
        place: DependencyPlace,
        entry: &(Name, Need),
    ) -> Result<(), AllocError> {
        let number = self.listed.len().saturating_add(1);
        let before = self.last.insert((pkg, key_of(entry)), number)?.unwrap_or(0);
        self.listed.push(SharedDependency { place, before })?;
        Ok(())
    }

    /// The dependency of a number in the table, if there is one.
    fn listed_at(&self, number: usize) -> Option<SharedDependency> {
        self.listed.as_slice().get(number.checked_sub(1)?).copied()
    }

    /// Finds the places where versions of a package that is listed may have a dependency; none where the
    /// package has one version.
    pub fn find(
        &mut self,
        task: &Task<'_>,
        pkg: Pkg,
        entry: &(Name, Need),
    ) -> Result<(), AllocError> {
        self.found.clear();
        if task.registry.versions(pkg) <= FEW_VERSIONS {
            return Ok(());
        }
        let mut number = self.last.get(&(pkg, key_of(entry))).copied().unwrap_or(0);
        for _ in 0..self.listed.len() {
            let Some(listed) = self.listed_at(number) else {
                return Ok(());
            };
            self.find_from(task, pkg, listed.place)?;
            number = listed.before;
        }
        Ok(())
    }

    /// Finds a place, and that in each of the next versions that repeat its own.
    fn find_from(
        &mut self,
        task: &Task<'_>,
        pkg: Pkg,
        place: DependencyPlace,
    ) -> Result<(), AllocError> {
        self.found.push(place)?;
        let index = place.index;
        for ordinal in place.ordinal.saturating_add(1)..task.registry.version_count(pkg) {
            if !is_repeated(task, pkg, ordinal) {
                return Ok(());
            }
            self.found.push(DependencyPlace { ordinal, index })?;
        }
        Ok(())
    }

    /// The places that were found last.
    pub fn found(&self) -> &[DependencyPlace] {
        &self.found
    }
}
