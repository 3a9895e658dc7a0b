//! Versions are taken away by what is left of the packages that they depend on.
//
// Where nothing that is left of a package meets what a version depends on, no selection has that version. So it is taken
// away from what is left of its own package, which may leave that one alone or nothing, and so on until nothing changes.

ghost use Rattle.std.specs.Prelude.{◌≡◌, ◌<◌, true, length, IfOk, IfSome, OnOk};
ghost use Rattle.registry.specs.Requests.{Wanted};
ghost use Rattle.walk.specs.Best.{Holds, IsGrown};
ghost use Rattle.walk.specs.Newest.{IsOut};

use crate::choosing::Choosing;
use crate::dependents::Line;
use crate::meeting::are_alike;
use registry::{Pkg, Registry};
use std::alloc::{AllocError, Global};

impl Choosing {
    /// Takes a version away from what is left of its package, and meets what the only one depends on that is left then.
    /// Answers no where none is left of a package then, or what is left of it is not known.
    pub(crate) fn take_away(
        &mut self,
        alloc: Global,
        registry: &Registry,
        version: (Pkg, u32),
    ) -> Result<bool, AllocError>
        ensures found { OnOk result (self.new.found ≡ self.old.found) }
        ensures asked { IfOk result (λ whole. whole ≡ true → self.new.asked.items ≡ self.old.asked.items) }
        ensures grown { OnOk result (IsGrown self.old self.new) }
        ensures holds { OnOk result ((wanted : Wanted) → IsOut registry.now.packages wanted self.old.found.entries version.0 version.1 → Holds registry.now.packages wanted self.old → Holds registry.now.packages wanted self.new) }
    {
        let Some(place) = self.place_of(version.0) else {
            return Ok(false);
        };
        let (some, _) = self.leave_out(alloc, version, place)?;
        if !some {
            return Ok(false);
        }
        Ok(self.meet_only(alloc, registry, version.0)?)
    }

    /// Whether a version is left of its package beside others.
    fn is_one_of_several(&self, version: (Pkg, u32)) -> bool {
        let Some(place) = self.place_of(version.0) else {
            return false;
        };
        let left = &self.needed[place].left;
        left.allows(version.1) && left.only().is_none()
    }

    /// Whether a version that is left may depend on none of those that are left, as far as is known without a look at them.
    fn is_doubtful(&self, line: &Line) -> bool {
        let Some(place) = self.place_of(line.target) else {
            return false;
        };
        self.needed[place].left.low_bits() & line.bits == 0 && self.is_one_of_several(line.version)
    }

    /// Takes the version of a line away, where it depends on none of those that are left.
    fn test_line(
        &mut self,
        alloc: Global,
        registry: &Registry,
        line: &Line,
    ) -> Result<bool, AllocError>
        ensures found { OnOk result (self.new.found ≡ self.old.found) }
        ensures asked { IfOk result (λ whole. whole ≡ true → self.new.asked.items ≡ self.old.asked.items) }
        ensures grown { OnOk result (IsGrown self.old self.new) }
        ensures holds { OnOk result ((wanted : Wanted) → Holds registry.now.packages wanted self.old → Holds registry.now.packages wanted self.new) }
    {
        if !self.is_doubtful(line) {
            return Ok(true);
        }
        let (version, index) = (line.version, line.index);
        if index >= registry.needs_count(version.0, version.1) {
            return Ok(true);
        }
        let places = registry.places(version.0, version.1);
        if !self.is_at_odds_by(registry, version, places, index) {
            return Ok(true);
        }
        Ok(self.take_away(alloc, registry, version)?)
    }

    /// The versions that are left of a package, a bit each.
    fn bits_of(&self, pkg: Pkg) -> u64 {
        match self.place_of(pkg) {
            None => u64::MAX,
            Some(place) => self.needed[place].left.low_bits(),
        }
    }

    /// As [`Dependents::first_apart`].
    fn look_on(&mut self, from: Option<u32>, left: u64) -> Option<Line>
        ensures { (self.new.found ≡ self.old.found) × (self.new.asked ≡ self.old.asked) × (self.new.needed ≡ self.old.needed) × (self.new.fresh ≡ self.old.fresh) }
    {
        self.dependents.as_mut()?.first_apart(from, left)
    }

    /// Takes versions away that depend on a package, and on none of those that are left of it.
    fn test_dependents(
        &mut self,
        alloc: Global,
        registry: &Registry,
        pkg: Pkg,
    ) -> Result<bool, AllocError>
        ensures found { OnOk result (self.new.found ≡ self.old.found) }
        ensures asked { IfOk result (λ whole. whole ≡ true → self.new.asked.items ≡ self.old.asked.items) }
        ensures grown { OnOk result (IsGrown self.old self.new) }
        ensures holds { OnOk result ((wanted : Wanted) → Holds registry.now.packages wanted self.old → Holds registry.now.packages wanted self.new) }
    {
        let left = self.bits_of(pkg);
        let mut next = self.last_on(pkg);
        for _ in 0..u32::MAX {
            let Some(line) = self.look_on(next, left) else {
                return Ok(true);
            };
            if !self.test_line(alloc, registry, &line)? {
                return Ok(false);
            }
            next = line.before;
        }
        Ok(true)
    }

    /// The index of the last line that names a package.
    fn last_on(&self, pkg: Pkg) -> Option<u32> {
        self.dependents.as_ref()?.last_on(pkg)
    }

    /// Lists what the versions of a package depend on, unless it is the same. Answers the index of the first line.
    fn list(&mut self, registry: &Registry, pkg: Pkg) -> Result<Option<u32>, AllocError>
        ensures { (self.new.found ≡ self.old.found) × (self.new.asked ≡ self.old.asked) × (self.new.needed ≡ self.old.needed) × (self.new.fresh ≡ self.old.fresh) }
    {
        if are_alike(registry, pkg) {
            return Ok(None);
        }
        match &mut self.dependents {
            None => Ok(None),
            Some(dependents) => {
                dependents.list(registry, pkg)?;
                Ok(dependents.first_of(pkg))
            }
        }
    }

    /// The line at an index, if there is one and it is of a version of the package.
    fn look_in(&mut self, at: Option<u32>, pkg: Pkg) -> Option<Line>
        ensures { (self.new.found ≡ self.old.found) × (self.new.asked ≡ self.old.asked) × (self.new.needed ≡ self.old.needed) × (self.new.fresh ≡ self.old.fresh) }
    {
        let line = self.dependents.as_mut()?.look(at?)?;
        if line.version.0 == pkg {
            Some(line)
        } else {
            None
        }
    }

    /// Lists a package, where it is newly needed, and takes versions of it away that depend on none of those that are
    /// left.
    fn test_versions(
        &mut self,
        is_new: bool,
        alloc: Global,
        registry: &Registry,
        pkg: Pkg,
    ) -> Result<bool, AllocError>
        ensures found { OnOk result (self.new.found ≡ self.old.found) }
        ensures asked { IfOk result (λ whole. whole ≡ true → self.new.asked.items ≡ self.old.asked.items) }
        ensures grown { OnOk result (IsGrown self.old self.new) }
        ensures holds { OnOk result ((wanted : Wanted) → Holds registry.now.packages wanted self.old → Holds registry.now.packages wanted self.new) }
    {
        if !is_new {
            return Ok(true);
        }
        let mut next = self.list(registry, pkg)?;
        for _ in 0..u32::MAX {
            let Some(line) = self.look_in(next, pkg) else {
                return Ok(true);
            };
            if !self.test_line(alloc, registry, &line)? {
                return Ok(false);
            }
            next = next.map(|at| at.saturating_add(1));
        }
        Ok(true)
    }

    /// Takes versions away by what is left of a package, at an index of what is left.
    fn look_back(
        &mut self,
        alloc: Global,
        registry: &Registry,
        at: usize,
    ) -> Result<bool, AllocError>
        requires within { at < length self.old.needed.items }
        ensures found { OnOk result (self.new.found ≡ self.old.found) }
        ensures asked { IfOk result (λ whole. whole ≡ true → self.new.asked.items ≡ self.old.asked.items) }
        ensures grown { OnOk result (IsGrown self.old self.new) }
        ensures holds { OnOk result ((wanted : Wanted) → Holds registry.now.packages wanted self.old → Holds registry.now.packages wanted self.new) }
    {
        let pkg = self.needed[at].pkg;
        let is_new = self.needed[at].before.is_none();
        if !self.test_versions(is_new, alloc, registry, pkg)? {
            return Ok(false);
        }
        if self.place_of(pkg) != Some(at) {
            // What is left of it since is looked at later.
            return Ok(true);
        }
        Ok(self.test_dependents(alloc, registry, pkg)?)
    }

    /// The index of the next of what is left that was not looked at, if versions are taken away by it.
    fn next_open(&mut self) -> Option<usize>
        ensures within { IfSome result (λ at. at < length self.new.needed.items) }
        ensures same { (self.new.found ≡ self.old.found) × (self.new.asked ≡ self.old.asked) × (self.new.needed ≡ self.old.needed) × (self.new.fresh ≡ self.old.fresh) }
    {
        let count = self.needed.len();
        let dependents = self.dependents.as_mut()?;
        let at = dependents.passed;
        if at >= count || dependents.is_spent() {
            return None;
        }
        dependents.passed = at + 1;
        Some(at)
    }

    /// Meets what all versions of packages depend on that are newly needed, and takes versions away by what is left,
    /// where that is wanted, until nothing changes. Answers no where a package has no version left.
    pub(crate) fn settle(&mut self, alloc: Global, registry: &Registry) -> Result<bool, AllocError>
        ensures found { OnOk result (self.new.found ≡ self.old.found) }
        ensures asked { IfOk result (λ whole. whole ≡ true → self.new.asked.items ≡ self.old.asked.items) }
        ensures grown { OnOk result (IsGrown self.old self.new) }
        ensures holds { OnOk result ((wanted : Wanted) → Holds registry.now.packages wanted self.old → Holds registry.now.packages wanted self.new) }
    {
        if !self.meet_alike(alloc, registry)? {
            return Ok(false);
        }
        for _ in 0..u32::MAX {
            let Some(at) = self.next_open() else {
                return Ok(true);
            };
            if !self.look_back(alloc, registry, at)? {
                return Ok(false);
            }
            if !self.meet_alike(alloc, registry)? {
                return Ok(false);
            }
        }
        Ok(true)
    }
}
