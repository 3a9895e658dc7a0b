//! What a search is to look at.
//
// No proof rests on it: what it leaves out is found by the walk that ends a search, and what it names twice
// costs time.

use crate::acting::Acted;
use derivations::{Cause, CausedIncompatibility, Reason};
use facts::Sharing;
use std::alloc::{AllocError, Global};
use terms::Pkg;

/// By number of a package, the places of the lines that name it.
#[derive(Drop)]
pub(crate) struct LinesByPackage {
    places: Vec<Vec<usize>>,
}

impl LinesByPackage {
    /// The places of the lines that name a package, the newest last.
    pub fn of(&self, pkg: Pkg) -> &[usize] {
        match self.places.as_slice().get(pkg as usize) {
            None => &[],
            Some(places) => places,
        }
    }

    /// Notes that the line at a place names a package.
    fn add(&mut self, alloc: Global, pkg: Pkg, at: usize) -> Result<(), AllocError> {
        for _ in self.places.len()..pkg as usize + 1 {
            self.places.push(Vec::new(alloc))?;
        }
        if let Some(places) = self.places.as_mut_slice().get_mut(pkg as usize) {
            places.push(at)?;
        }
        Ok(())
    }
}

/// The packages that changed, and the lines that are looked at then.
#[derive(Drop)]
pub(crate) struct Worklist {
    /// The packages of which something was settled since their lines were looked at.
    pub changed: Vec<Pkg>,
    /// The places of the lines that conflicts led to.
    pub learnt: Vec<usize>,
    pub lines: LinesByPackage,
    /// Which versions may have the same dependency.
    pub sharing: Sharing,
}

/// Whether a line is for the dependency of this version on a target.
fn is_dependency(line: &CausedIncompatibility, pkg: Pkg, ordinal: u32, target: Pkg) -> bool {
    match &line.reason {
        Reason::Fact(Cause::Premise(premise)) => {
            premise.package == pkg && premise.target == target && premise.versions.has(ordinal)
        }
        Reason::Fact(_) | Reason::Resolved(_, _, _) => false,
    }
}

impl Worklist {
    /// Of a search that has nothing.
    pub fn new(alloc: Global) -> Worklist {
        Worklist {
            changed: Vec::new(alloc),
            learnt: Vec::new(alloc),
            lines: LinesByPackage {
                places: Vec::new(alloc),
            },
            sharing: Sharing::new(alloc),
        }
    }

    /// Notes the line at a place with each package that it names.
    pub fn note(
        &mut self,
        alloc: Global,
        known: &[CausedIncompatibility],
        at: usize,
    ) -> Result<(), AllocError> {
        let Some(line) = known.get(at) else {
            return Ok(());
        };
        for entry in line.conclusion.terms() {
            self.lines.add(alloc, entry.0, at)?;
        }
        Ok(())
    }

    /// Whether the dependency of a version on a target is among the lines.
    pub fn has_dependency(
        &self,
        known: &[CausedIncompatibility],
        pkg: Pkg,
        ordinal: u32,
        target: Pkg,
    ) -> bool {
        for at in self.lines.of(pkg) {
            if let Some(line) = known.get(*at) {
                if is_dependency(line, pkg, ordinal, target) {
                    return true;
                }
            }
        }
        false
    }

    /// Notes what changed by an attempt to go on, before which there were so many lines. After a
    /// conflict only the package of the new derivation is changed (doc/solver.md, "Unit
    /// Propagation"). A line by which the search jumps back is learnt, unless it was there.
    pub fn follow(
        &mut self,
        alloc: Global,
        known: &[CausedIncompatibility],
        before: usize,
        acted: Acted,
    ) -> Result<(), AllocError> {
        match acted {
            Acted::Derived(pkg) => self.changed.push(pkg)?,
            Acted::Backjumped(at, pkg) => {
                self.changed.clear();
                self.changed.push(pkg)?;
                if at >= before {
                    self.learnt.push(at)?;
                    self.note(alloc, known, at)?;
                }
            }
            Acted::Refused(_) | Acted::Neither => {}
        }
        Ok(())
    }
}
