//! Versions are taken on trial.
//
// Where a version leaves a package none, no selection has it with those before, so it is taken back and ruled out, and
// the next best one is tried.

ghost use Rattle.std.specs.Prelude.{◌≡◌, ◌++◌, true, length, take, [], ◌∷◌, None, Some, IfOk, OnOk};
ghost use Rattle.registry.specs.Registry.{Packages};
ghost use Rattle.registry.specs.Requests.{Wanted};
ghost use Rattle.walk.specs.Best.{AsksFor, ComesTo, Holds, IsChoosing, IsGrown};
ghost use Rattle.walk.specs.Choosing.{choice_of};
ghost use Rattle.walk.specs.Newest.{IsBest, IsOut, OfEach, next_package};

use crate::choosing::Choosing;
use crate::meeting::are_alike;
use registry::{Pkg, Registry, Request};
use std::alloc::{AllocError, Global};

/// Versions are tried as long as what was taken back is at most so many times what is kept ..
/// Measured at half and at twice this value: docs/BENCHMARKS.md, Constants.
const TAKEN_SHARE: usize = 16;

/// .. and so much more.
const TAKEN_ROOM: usize = 64;

/// How much was kept before a version was tried.
#[derive(Clone, Copy)]
struct Kept {
    found: usize,
    asked: usize,
    needed: usize,
}

/// What came of a version that was tried.
#[derive(Clone, Copy)]
pub(crate) enum Tried {
    Chosen,
    /// No selection has it with those before.
    RuledOut,
    /// It can't be said.
    Unknown,
}

impl Choosing {
    /// How much is kept.
    fn kept(&self) -> Kept
        ensures found { result.found ≡ length self.now.found.entries }
        ensures asked { result.asked ≡ length self.now.asked.items }
        ensures needed { result.needed ≡ length self.now.needed.items }
    {
        Kept {
            found: self.found.len(),
            asked: self.asked.len(),
            needed: self.needed.len(),
        }
    }

    /// Chooses a version, and meets what it depends on. Answers no where a package has no version left then.
    fn choose_version(
        &mut self,
        alloc: Global,
        registry: &Registry,
        version: (Pkg, u32),
    ) -> Result<bool, AllocError>
        requires new { choice_of self.old.found.entries version.0 ≡ None }
        ensures found { OnOk result (self.new.found.entries ≡ self.old.found.entries ++ (version.0, version.1) ∷ []) }
        ensures asks { IfOk result (λ whole. whole ≡ true → AsksFor registry.now.packages version.0 version.1 true self.old.asked.items self.new.asked.items) }
        ensures grown { OnOk result (IsGrown self.old self.new) }
        ensures holds { OnOk result ((wanted : Wanted) → Holds registry.now.packages wanted self.old → Holds registry.now.packages wanted self.new) }
    {
        // Where a package was looked at with this outcome, it is met already.
        let is_only = self.only(version.0).is_some();
        let is_met = is_only || are_alike(registry, version.0);
        self.found.push(version.0, version.1)?;
        self.keep_only(alloc, version, is_only)?;
        if !self.meet(alloc, registry, version, true, is_met)? {
            return Ok(false);
        }
        Ok(self.settle(alloc, registry)?)
    }

    /// Whether it was seen last that a package has no version left.
    fn is_at_end(&self) -> bool
        ensures { result ≡ true → (packages : Packages) (wanted : Wanted) → Holds packages wanted self.now → OfEach packages wanted self.now.found.entries (λ t. ⊥) }
    {
        let count = self.needed.len();
        if count == 0 {
            return false;
        }
        !self.needed[count - 1].left.is_some()
    }

    /// Gives the packages of what is left from an index on the indexes back that they had before.
    fn number_again(&mut self, count: usize)
        ensures { (self.new.found ≡ self.old.found) × (self.new.asked ≡ self.old.asked) × (self.new.needed ≡ self.old.needed) × (self.new.fresh ≡ self.old.fresh) }
    {
        for at in (count..self.needed.len()).rev() {
            let pkg = self.needed[at].pkg;
            let before = self.needed[at].before;
            self.numbers.set_back(pkg, before);
        }
    }

    /// Takes back what was kept since.
    fn take_back(&mut self, kept: Kept)
        ensures found { self.new.found.entries ≡ take kept.found self.old.found.entries }
        ensures asked { self.new.asked.items ≡ take kept.asked self.old.asked.items }
        ensures needed { self.new.needed.items ≡ take kept.needed self.old.needed.items }
        ensures fresh { self.new.fresh.items ≡ [] }
    {
        self.number_again(kept.needed);
        self.taken = self
            .taken
            .saturating_add(self.needed.len().saturating_sub(kept.needed));
        self.ruled_out = self.ruled_out.saturating_add(1);
        self.needed.truncate(kept.needed);
        self.asked.truncate(kept.asked);
        self.found.truncate(kept.found);
        self.fresh.clear();
        if let Some(dependents) = &mut self.dependents {
            dependents.passed = dependents.passed.min(kept.needed);
        }
    }

    /// Leaves all versions of a package but one. Answers no where none is left of a package then, or what is left of it
    /// is not known.
    fn rule_out(
        &mut self,
        alloc: Global,
        registry: &Registry,
        version: (Pkg, u32),
    ) -> Result<bool, AllocError>
        ensures found { OnOk result (self.new.found ≡ self.old.found) }
        ensures asked { IfOk result (λ whole. whole ≡ true → self.new.asked.items ≡ self.old.asked.items) }
        ensures holds { OnOk result ((wanted : Wanted) → IsOut registry.now.packages wanted self.old.found.entries version.0 version.1 → Holds registry.now.packages wanted self.old → Holds registry.now.packages wanted self.new) }
    {
        if !self.take_away(alloc, registry, version)? {
            return Ok(false);
        }
        Ok(self.settle(alloc, registry)?)
    }

    /// Whether too much was taken back to go on so: a search is faster then.
    fn is_spent(&self) -> bool {
        self.taken / TAKEN_SHARE > self.needed.len() + TAKEN_ROOM
    }

    /// Chooses the best version that is left of the package that comes next, and meets what it depends on; or takes
    /// that back and rules it out, where it leaves a package none.
    pub(crate) fn try_version(
        &mut self,
        alloc: Global,
        registry: &Registry,
        request: &Request,
        version: (Pkg, u32),
    ) -> Result<Tried, AllocError>
        requires choosing { IsChoosing registry.now.packages request.now self.old }
        requires next { next_package registry.now.packages request.now.needs self.old.found.entries ≡ Some version.0 }
        requires new { choice_of self.old.found.entries version.0 ≡ None }
        requires best { IsBest registry.now.packages request.now self.old.found.entries version.0 version.1 }
        ensures { IfOk result (ComesTo registry.now.packages request.now version self.old self.new) }
    {
        let kept = self.kept();
        if self.choose_version(alloc, registry, version)? {
            return Ok(Tried::Chosen);
        }
        if self.is_spent() {
            return Ok(Tried::Unknown);
        }
        if !self.is_at_end() {
            return Ok(Tried::Unknown);
        }
        self.take_back(kept);
        if !self.rule_out(alloc, registry, version)? {
            return Ok(Tried::Unknown);
        }
        Ok(Tried::RuledOut)
    }
}
