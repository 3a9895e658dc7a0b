//! Which versions depend on a package.
//
// Nothing rests on what is listed here: a version is taken away only where what it depends on is looked up, and
// nothing that is left meets it.

use crate::dependency::low_set_at;
use crate::package_table::PackageTable;
use registry::{Pkg, Place, Registry};
use std::alloc::{AllocError, Global};

/// How many dependencies are read at most. Those of packages that come later are not seen. This and the next two bound
/// what a request costs where a registry has many dependencies; they were not tuned.
const READ_LIMIT: usize = 16_384;

/// Lines are looked at as long as that is at most so many times as often as they were listed ..
const LOOK_SHARE: usize = 64;

/// .. and so much more.
const LOOK_ROOM: usize = 1024;

/// A dependency of a version.
#[derive(Clone, Copy)]
pub(crate) struct Line {
    pub(crate) version: (Pkg, u32),
    /// Which of its dependencies it is.
    pub(crate) index: usize,
    /// The package that is named.
    pub(crate) target: Pkg,
    /// The versions of that which meet the requirement, a bit each.
    pub(crate) bits: u64,
    /// The index of the line before that names the package.
    pub(crate) before: Option<u32>,
}

/// Dependencies of the versions of needed packages, by the packages that they name.
#[derive(Drop)]
pub(crate) struct Dependents {
    lines: Vec<Line>,
    /// By package the index of the last line that names it.
    last: PackageTable,
    /// By package whose versions are listed the index of their first line.
    first: PackageTable,
    /// How many entries of what is left were looked at.
    pub(crate) passed: usize,
    /// How many dependencies were read, and how often a line was looked at.
    read: usize,
    looks: usize,
}

impl Dependents {
    /// Nothing is listed.
    pub(crate) fn new(alloc: Global) -> Result<Dependents, AllocError> {
        let last = PackageTable::new(alloc)?;
        let first = PackageTable::new(alloc)?;
        Ok(Dependents {
            lines: Vec::new(alloc),
            last,
            first,
            passed: 0,
            read: 0,
            looks: 0,
        })
    }

    /// The index of the line that comes next.
    fn next_number(&self) -> u32 {
        self.lines.len().min(u32::MAX as usize) as u32
    }

    /// Lists a dependency, where a look at what is left of its package takes little.
    fn list_line(
        &mut self,
        registry: &Registry,
        version: (Pkg, u32),
        index: usize,
        place: Place,
    ) -> Result<(), AllocError> {
        let target = place.target;
        let Some(set) = low_set_at(registry, &place) else {
            return Ok(());
        };
        let bits = set.bits();
        let before = self.last.get(target);
        let number = self.next_number();
        self.lines.push(Line {
            version,
            index,
            target,
            bits,
            before,
        })?;
        self.last.set(target, number)
    }

    /// Lists what a version depends on.
    fn list_version(&mut self, registry: &Registry, version: (Pkg, u32)) -> Result<(), AllocError> {
        let places = registry.places(version.0, version.1);
        self.read = self.read.saturating_add(places.len()).saturating_add(1);
        for (index, place) in places.iter().enumerate() {
            self.list_line(registry, version, index, *place)?;
        }
        Ok(())
    }

    /// Lists what the versions of a package depend on, unless that was done before or there is too much.
    pub(crate) fn list(&mut self, registry: &Registry, pkg: Pkg) -> Result<(), AllocError> {
        if self.first.get(pkg).is_some() {
            return Ok(());
        }
        let number = self.next_number();
        self.first.set(pkg, number)?;
        for ordinal in 0..registry.version_count(pkg) {
            if self.read > READ_LIMIT {
                return Ok(());
            }
            self.list_version(registry, (pkg, ordinal))?;
        }
        Ok(())
    }

    /// The index of the first line of a package's versions.
    pub(crate) fn first_of(&self, pkg: Pkg) -> Option<u32> {
        self.first.get(pkg)
    }

    /// The index of the last line that names a package.
    pub(crate) fn last_on(&self, pkg: Pkg) -> Option<u32> {
        self.last.get(pkg)
    }

    /// The line at an index, for a look at it; none where too much was looked at.
    pub(crate) fn look(&mut self, at: u32) -> Option<Line> {
        self.looks = self.looks.saturating_add(1);
        if self.is_spent() {
            return None;
        }
        self.lines.as_slice().get(at as usize).copied()
    }

    /// From the line at an index on, the first that names its package by a requirement which none of these versions meets,
    /// as far as is known; none where too much was looked at.
    pub(crate) fn first_apart(&mut self, from: Option<u32>, left: u64) -> Option<Line> {
        let mut next = from;
        for _ in 0..u32::MAX {
            let line = self.look(next?)?;
            if line.bits & left == 0 {
                return Some(line);
            }
            next = line.before;
        }
        None
    }

    /// Whether too much was looked at to go on so.
    pub(crate) fn is_spent(&self) -> bool {
        self.looks / LOOK_SHARE > self.lines.len().saturating_add(LOOK_ROOM)
    }
}
