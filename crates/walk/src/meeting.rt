//! Meeting needs and dependencies, before a package has its turn.
//
// What is asked by the request and by chosen versions takes versions away, and so does what all versions of a needed
// package depend on, or the only one that is left.

ghost use Rattle.std.specs.Prelude.{◌≡◌, ◌<◌, ℕ, true, length, [], Some, IfOk, OnOk};
ghost use Rattle.registry.specs.Registry.{needs_of};
ghost use Rattle.registry.specs.Requests.{Wanted};
ghost use Rattle.walk.specs.Best.{AreAlike, AreTargets, AsksAt, AsksFor, AsksNeed, AsksOne, Holds, IsGrown, MeetsOf};
ghost use Rattle.walk.specs.Newest.{OfEach, in_name_order};
ghost use Rattle.walk.specs.Walks.{ArePlaces};

use crate::choosing::Choosing;
use crate::dependency::{dependency_at, low_dependency, target_at};
use crate::listing::places_in_order;
use registry::{Pkg, Place, Registry, Request};
use std::alloc::{AllocError, Global};

/// Whether all versions of a package depend on the same.
pub(crate) fn are_alike(registry: &Registry, pkg: Pkg) -> bool
    ensures { result ≡ true → AreAlike registry.now.packages pkg }
{
    registry.is_alike(pkg)
}

impl Choosing {
    /// Asks for a package, where that is wanted.
    fn ask(&mut self, is_wanted: bool, pkg: Pkg) -> Result<(), AllocError>
        ensures same { OnOk result ((self.new.found ≡ self.old.found) × (self.new.needed ≡ self.old.needed) × (self.new.fresh ≡ self.old.fresh)) }
        ensures asks { OnOk result (AsksOne pkg is_wanted self.old.asked.items self.new.asked.items) }
    {
        if is_wanted {
            self.asked.push(pkg)?;
        }
        Ok(())
    }

    /// Meets what a version depends on. Its packages are asked for where it is chosen. Answers no where a package
    /// has no version left.
    pub(crate) fn meet(
        &mut self,
        alloc: Global,
        registry: &Registry,
        version: (Pkg, u32),
        is_chosen: bool,
        is_met: bool,
    ) -> Result<bool, AllocError>
        ensures meets { OnOk result (MeetsOf registry.now.packages version.0 version.1 self.old self.new) }
        ensures asks { IfOk result (λ whole. whole ≡ true → AsksFor registry.now.packages version.0 version.1 is_chosen self.old.asked.items self.new.asked.items) }
        ensures grown { OnOk result (IsGrown self.old self.new) }
    {
        let places = registry.places(version.0, version.1);
        let count = registry.needs_count(version.0, version.1);
        for index in 0..count {
            if !self.meet_at(alloc, registry, version, places, index, is_chosen, is_met)? {
                return Ok(false);
            }
        }
        Ok(true)
    }

    /// Meets the dependency of a version at an index, as [`Choosing::meet`].
    fn meet_at(
        &mut self,
        alloc: Global,
        registry: &Registry,
        version: (Pkg, u32),
        places: &[Place],
        index: usize,
        is_chosen: bool,
        is_met: bool,
    ) -> Result<bool, AllocError>
        requires within { index < length (needs_of registry.now.packages version.0 version.1) }
        requires places { ArePlaces registry.now.packages registry.now.named version.0 version.1 places.now }
        ensures meets { OnOk result (MeetsOf registry.now.packages version.0 version.1 self.old self.new) }
        ensures asks { OnOk result (AsksAt registry.now.packages version.0 version.1 index is_chosen self.old.asked.items self.new.asked.items) }
        ensures grown { OnOk result (IsGrown self.old self.new) }
    {
        if is_met {
            return Ok(self.ask_at(registry, version, places, index, is_chosen)?);
        }
        match low_dependency(registry, version, places, index) {
            Some((target, set)) => {
                self.ask(is_chosen, target)?;
                Ok(self.narrow_low(alloc, target, &set)?)
            }
            None => {
                let (target, matching) = dependency_at(registry, version, places, index)?;
                self.ask(is_chosen, target)?;
                Ok(self.narrow(alloc, target, &matching)?)
            }
        }
    }

    /// Asks for the package of a dependency, which is met already, where that is wanted.
    fn ask_at(
        &mut self,
        registry: &Registry,
        version: (Pkg, u32),
        places: &[Place],
        index: usize,
        is_wanted: bool,
    ) -> Result<bool, AllocError>
        requires within { index < length (needs_of registry.now.packages version.0 version.1) }
        requires places { ArePlaces registry.now.packages registry.now.named version.0 version.1 places.now }
        ensures meets { OnOk result (MeetsOf registry.now.packages version.0 version.1 self.old self.new) }
        ensures asks { OnOk result (AsksAt registry.now.packages version.0 version.1 index is_wanted self.old.asked.items self.new.asked.items) }
        ensures grown { OnOk result (IsGrown self.old self.new) }
    {
        let target = target_at(registry, version, places, index)?;
        self.ask(is_wanted, target)?;
        Ok(true)
    }

    /// Meets what the only version that is left of a package depends on, if one is.
    pub(crate) fn meet_only(
        &mut self,
        alloc: Global,
        registry: &Registry,
        pkg: Pkg,
    ) -> Result<bool, AllocError>
        ensures found { OnOk result (self.new.found ≡ self.old.found) }
        ensures asked { IfOk result (λ whole. whole ≡ true → self.new.asked.items ≡ self.old.asked.items) }
        ensures grown { OnOk result (IsGrown self.old self.new) }
        ensures holds { OnOk result ((wanted : Wanted) → Holds registry.now.packages wanted self.old → Holds registry.now.packages wanted self.new) }
    {
        let Some(ordinal) = self.only(pkg) else {
            return Ok(true);
        };
        Ok(self.meet(alloc, registry, (pkg, ordinal), false, false)?)
    }

    /// Meets what all versions of a package depend on, if that is the same, or what the only one that is left does.
    fn meet_if_alike(
        &mut self,
        alloc: Global,
        registry: &Registry,
        pkg: Pkg,
    ) -> Result<bool, AllocError>
        ensures found { OnOk result (self.new.found ≡ self.old.found) }
        ensures asked { IfOk result (λ whole. whole ≡ true → self.new.asked.items ≡ self.old.asked.items) }
        ensures grown { OnOk result (IsGrown self.old self.new) }
        ensures holds { OnOk result ((wanted : Wanted) → OfEach registry.now.packages wanted self.old.found.entries (λ t. (k : ℕ) × (t pkg ≡ Some k)) → Holds registry.now.packages wanted self.old → Holds registry.now.packages wanted self.new) }
    {
        if !are_alike(registry, pkg) {
            return Ok(self.meet_only(alloc, registry, pkg)?);
        }
        Ok(self.meet(alloc, registry, (pkg, 0), false, false)?)
    }

    /// Meets what all versions of packages depend on that are newly needed.
    pub(crate) fn meet_alike(
        &mut self,
        alloc: Global,
        registry: &Registry,
    ) -> Result<bool, AllocError>
        ensures found { OnOk result (self.new.found ≡ self.old.found) }
        ensures asked { IfOk result (λ whole. whole ≡ true → self.new.asked.items ≡ self.old.asked.items) }
        ensures grown { OnOk result (IsGrown self.old self.new) }
        ensures holds { OnOk result ((wanted : Wanted) → Holds registry.now.packages wanted self.old → Holds registry.now.packages wanted self.new) }
    {
        // Each package is new once at most, and once comes to its only version.
        for _ in 0..registry.packages().saturating_mul(2) {
            let Some(pkg) = self.fresh.pop() else {
                return Ok(true);
            };
            if !self.meet_if_alike(alloc, registry, pkg)? {
                return Ok(false);
            }
        }
        Ok(self.fresh.is_empty())
    }

    /// Meets the need at an index, and asks for its package. Answers no where that has no version left.
    fn meet_need(
        &mut self,
        alloc: Global,
        registry: &Registry,
        request: &Request,
        index: usize,
    ) -> Result<bool, AllocError>
        requires within { index < length request.now.needs }
        requires holds { Holds registry.now.packages request.now self.old }
        ensures found { OnOk result (self.new.found ≡ self.old.found) }
        ensures asks { IfOk result (λ whole. whole ≡ true → AsksNeed registry.now.packages request.now.needs index self.old.asked.items self.new.asked.items) }
        ensures holds { OnOk result (Holds registry.now.packages request.now self.new) }
    {
        let need = &request.needs()[index];
        let Some(target) = registry.number(&need.0) else {
            return Ok(false);
        };
        let matching = registry.matching_set(target, &need.1)?;
        self.ask(true, target)?;
        Ok(self.narrow(alloc, target, &matching)?)
    }

    /// Meets the needs, by name.
    pub(crate) fn meet_needs(
        &mut self,
        alloc: Global,
        registry: &Registry,
        request: &Request,
    ) -> Result<bool, AllocError>
        requires asked { self.old.asked.items ≡ [] }
        requires holds { Holds registry.now.packages request.now self.old }
        ensures found { OnOk result (self.new.found ≡ self.old.found) }
        ensures targets { IfOk result (λ whole. whole ≡ true → AreTargets registry.now.packages (in_name_order request.now.needs) self.new.asked.items) }
        ensures holds { OnOk result (Holds registry.now.packages request.now self.new) }
    {
        let places = places_in_order(alloc, request.needs())?;
        for i in 0..places.len() {
            if !self.meet_need(alloc, registry, request, places[i])? {
                return Ok(false);
            }
        }
        Ok(true)
    }
}
