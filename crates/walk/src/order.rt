//! The order of the walk, kept from one look at it to the next.

ghost use Rattle.std.specs.Prelude.{◌≡◌, ◌≤◌, ◌+◌, length, take, IfNone, IfOk, IfSome, List, OnOk};
ghost use Rattle.versions.specs.Words.{Text};
ghost use Rattle.registry.specs.Registry.{Packages};
ghost use Rattle.walk.specs.Listing.{AreChosen, EndsWith, IsListing, IsNext, IsOrder, IsStage, NotesStage};
ghost use Rattle.walk.specs.Walks.{Grows};

use crate::chooser::Chooser;
use crate::listing::{NextPackage, entry_at, pass_dependencies, pass_needs};
use indexmap::IndexMap;
use registry::{Pkg, Registry, Request};
use std::alloc::{AllocError, Global};

/// Packages in the order of the walk, as far as it was gone, with what it takes to go on from there.
///
/// The needs are passed in stage 0, and what the version at a place depends on in the stage of one more than
/// the place.
#[derive(Drop)]
pub struct Order {
    /// Packages with the ordinals of their versions.
    pub found: IndexMap<Pkg, u32>,
    /// The stage in which each of them was found.
    pub stages: Vec<usize>,
    /// The stage that was come to.
    pub stage: usize,
}

impl Order {
    /// Without packages.
    pub fn new(alloc: Global) -> Order
        ensures { (packages : Packages) (needs : List (Text × Text)) → IsOrder packages needs result }
    {
        Order {
            found: IndexMap::new(alloc),
            stages: Vec::new(alloc),
            stage: 0,
        }
    }

    /// How many packages in front have the version still that the chooser gives.
    fn kept<C: Chooser>(&self, chooser: &C) -> usize
        ensures { AreChosen (C.chooses chooser.now) (take result self.now.found.entries) }
    {
        for place in 0..self.found.len() {
            let (pkg, ordinal) = entry_at(&self.found, place);
            if chooser.choose(pkg) != Some(ordinal) {
                return place;
            }
        }
        self.found.len()
    }

    /// Takes away what was found behind so many packages.
    fn cut(&mut self, kept: usize)
        ensures found { self.new.found.entries ≡ take kept self.old.found.entries }
        ensures order { (packages : Packages) (needs : List (Text × Text)) → IsOrder packages needs self.old → IsOrder packages needs self.new }
    {
        let stage = self.stages.as_slice().get(kept).copied();
        self.found.truncate(kept);
        self.stages.truncate(kept);
        if let Some(stage) = stage {
            self.stage = stage;
        }
    }

    /// Notes the stage of the packages that were found last.
    fn note(&mut self) -> Result<(), AllocError>
        ensures { OnOk result (NotesStage self.old self.new) }
    {
        for _ in self.stages.len()..self.found.len() {
            self.stages.push(self.stage)?;
        }
        Ok(())
    }

    /// Passes the lines of the stage that was come to, and comes to the next one; or answers the first package of
    /// theirs of which no version is chosen.
    fn pass_stage<C: Chooser>(
        &mut self,
        alloc: Global,
        registry: &Registry,
        request: &Request,
        chooser: &C,
    ) -> Result<Option<NextPackage>, AllocError>
        requires order { IsOrder registry.now.packages request.now.needs self.old }
        requires listing { IsListing registry.now.packages request.now.needs (C.chooses chooser.now) self.old.found.entries }
        requires within { self.old.stage ≤ length self.old.found.entries }
        ensures order { OnOk result (IsOrder registry.now.packages request.now.needs self.new) }
        ensures listing { OnOk result (IsListing registry.now.packages request.now.needs (C.chooses chooser.now) self.new.found.entries) }
        ensures more { IfOk result (λ next. IfNone next (self.new.stage ≡ self.old.stage + 1)) }
        ensures next { IfOk result (λ next. IfSome next (IsNext registry.now.packages request.now.needs (C.chooses chooser.now) self.new.found.entries)) }
    {
        let stage = self.stage;
        let next = pass_lines(alloc, registry, request, chooser, stage, &mut self.found)?;
        self.note()?;
        match next {
            Some(next) => Ok(Some(next)),
            None => {
                self.stage += 1;
                Ok(None)
            }
        }
    }

    /// Goes on in the order of the walk, each package with the version that the chooser gives, up to a package for
    /// which it gives none. What was found stays up to the first version that the chooser does not give any more.
    ///
    /// The order is that of [`list_in_order`](crate::list_in_order). It costs a look at each package that was found
    /// before, and at each dependency of the versions from the one on that was come to.
    pub fn go_on<C: Chooser>(
        &mut self,
        alloc: Global,
        registry: &Registry,
        request: &Request,
        chooser: &C,
    ) -> Result<Option<NextPackage>, AllocError>
        requires { IsOrder registry.now.packages request.now.needs self.old }
        ensures order { OnOk result (IsOrder registry.now.packages request.now.needs self.new) }
        ensures listing { OnOk result (IsListing registry.now.packages request.now.needs (C.chooses chooser.now) self.new.found.entries) }
        ensures ends { IfOk result (EndsWith registry.now.packages request.now.needs (C.chooses chooser.now) self.new.found.entries) }
    {
        let kept = self.kept(chooser);
        self.cut(kept);
        'walk: while self.stage <= self.found.len() {
            if let Some(next) = self.pass_stage(alloc, registry, request, chooser)? {
                return Ok(Some(next));
            }
        }
        Ok(None)
    }
}

/// Visits the packages of the lines of a stage, up to one of which no version is chosen; it is answered.
fn pass_lines<C: Chooser>(
    alloc: Global,
    registry: &Registry,
    request: &Request,
    chooser: &C,
    stage: usize,
    found: &mut IndexMap<Pkg, u32>,
) -> Result<Option<NextPackage>, AllocError>
    requires listing { IsListing registry.now.packages request.now.needs (C.chooses chooser.now) found.old.entries }
    requires come { IsStage registry.now.packages request.now.needs found.old.entries stage }
    requires within { stage ≤ length found.old.entries }
    ensures listing { OnOk result (IsListing registry.now.packages request.now.needs (C.chooses chooser.now) found.new.entries) }
    ensures grown { OnOk result (Grows found.old.entries found.new.entries) }
    ensures passed { IfOk result (λ next. IfNone next (IsStage registry.now.packages request.now.needs found.new.entries (stage + 1))) }
    ensures next { IfOk result (λ next. IfSome next (IsNext registry.now.packages request.now.needs (C.chooses chooser.now) found.new.entries)) }
{
    if stage == 0 {
        return Ok(pass_needs(alloc, registry, request, chooser, found)?);
    }
    Ok(pass_dependencies(registry, request, chooser, stage - 1, found)?)
}
