//! The newest selection, as far as no search is needed.
//
// Each package in turn takes the best version that is left. So no selection that has those before has a better one,
// whatever comes of the packages behind.

ghost use Rattle.std.specs.Prelude.{◌≡◌, ◌<◌, ◌+◌, ◌++◌, ℕ, true, length, nat_eq, List, [], ◌∷◌, None, Some, IfOk, IfSome};
ghost use Rattle.std.specs.List.{IsDistinct};
ghost use Rattle.std.specs.Map.{keys_of};
ghost use Rattle.walk.specs.Best.{ArePassed, IsChoosing};
ghost use Rattle.walk.specs.Choosing.{choice_of};
ghost use Rattle.walk.specs.Newest.{AreBest, IsNewest, next_package};

use crate::checking::is_met_by;
use crate::choosing::Choosing;
use crate::dependents::Dependents;
use crate::trial::Tried;
use registry::{Pkg, Registry, Request, allowed_is_published};
use std::alloc::{AllocError, Global};

/// The newest selection, as it was chosen.
#[derive(Drop)]
pub struct NewestChoice {
    /// Packages with the ordinals of their versions.
    pub list: Vec<(Pkg, u32)>,
    /// How many versions were ruled out for it, since they left a package none. Nothing rests on it.
    pub ruled_out: usize,
}

impl Choosing {
    /// Chooses the best version that may be had of the package that comes next, and meets what it depends on. Answers
    /// no where none is left.
    fn choose(
        &mut self,
        alloc: Global,
        registry: &Registry,
        request: &Request,
        pkg: Pkg,
    ) -> Result<bool, AllocError>
        requires choosing { IsChoosing registry.now.packages request.now self.old }
        requires next { next_package registry.now.packages request.now.needs self.old.found.entries ≡ Some pkg }
        requires new { choice_of self.old.found.entries pkg ≡ None }
        ensures choosing { IfOk result (λ whole. whole ≡ true → IsChoosing registry.now.packages request.now self.new) }
        ensures grown { IfOk result (λ whole. whole ≡ true → (k : ℕ) × (self.new.found.entries ≡ self.old.found.entries ++ (pkg, k) ∷ [])) }
        ensures asked { IfOk result (λ whole. whole ≡ true → (more : List ℕ) × (self.new.asked.items ≡ self.old.asked.items ++ more)) }
    {
        for _ in 0..registry.version_count(pkg) {
            let Some(ordinal) = self.best(registry, request, pkg) else {
                return Ok(false);
            };
            match self.try_version(alloc, registry, request, (pkg, ordinal))? {
                Tried::Chosen => return Ok(true),
                Tried::RuledOut => {}
                Tried::Unknown => return Ok(false),
            }
        }
        Ok(false)
    }

    /// Chooses the package that is asked for at a place, unless it is chosen. Answers no where it has no version left.
    fn come_to(
        &mut self,
        alloc: Global,
        registry: &Registry,
        request: &Request,
        at: usize,
    ) -> Result<bool, AllocError>
        requires within { at < length self.old.asked.items }
        requires choosing { IsChoosing registry.now.packages request.now self.old }
        requires passed { ArePassed self.old at }
        ensures choosing { IfOk result (λ whole. whole ≡ true → IsChoosing registry.now.packages request.now self.new) }
        ensures passed { IfOk result (λ whole. whole ≡ true → ArePassed self.new (at + 1)) }
    {
        let pkg = self.asked[at];
        if self.found.contains(pkg) {
            return Ok(true);
        }
        Ok(self.choose(alloc, registry, request, pkg)?)
    }

    /// Chooses each package that is asked for, in turn. Answers no where one has no version left.
    fn choose_all(
        &mut self,
        alloc: Global,
        registry: &Registry,
        request: &Request,
    ) -> Result<bool, AllocError>
        requires choosing { IsChoosing registry.now.packages request.now self.old }
        ensures { IfOk result (λ whole. whole ≡ true → AreBest registry.now.packages request.now self.new.found.entries) }
    {
        let mut at = 0;
        'asked: while at < self.asked.len() {
            if !self.come_to(alloc, registry, request, at)? {
                return Ok(false);
            }
            at += 1;
        }
        Ok(true)
    }
}

/// Chooses from the needs on. Answers no where a package has no version left.
fn choose_from_needs(
    alloc: Global,
    registry: &Registry,
    request: &Request,
    choosing: &mut Choosing,
) -> Result<bool, AllocError>
    requires found { choosing.old.found.entries ≡ [] }
    requires asked { choosing.old.asked.items ≡ [] }
    requires needed { choosing.old.needed.items ≡ [] }
    requires fresh { choosing.old.fresh.items ≡ [] }
    ensures { IfOk result (λ whole. whole ≡ true → AreBest registry.now.packages request.now choosing.new.found.entries) }
{
    if !choosing.meet_needs(alloc, registry, request)? {
        return Ok(false);
    }
    if !choosing.settle(alloc, registry)? {
        return Ok(false);
    }
    Ok(choosing.choose_all(alloc, registry, request)?)
}

/// Chooses each package in its turn, by what is left of packages, and by which versions depend on them where that is
/// given.
fn choose_with(
    alloc: Global,
    registry: &Registry,
    request: &Request,
    dependents: Option<Dependents>,
) -> Result<Option<NewestChoice>, AllocError>
    ensures newest { IfOk result (λ chosen. IfSome chosen (λ choice. IsNewest registry.now.packages request.now (choice_of choice.list.items))) }
    ensures once { IfOk result (λ chosen. IfSome chosen (λ choice. IsDistinct nat_eq (keys_of choice.list.items))) }
{
    let mut choosing = Choosing::new(alloc)?;
    choosing.dependents = dependents;
    let whole = choose_from_needs(alloc, registry, request, &mut choosing);
    let Choosing {
        found,
        ruled_out,
        ..
    } = choosing;
    if !whole? {
        return Ok(None);
    }
    if !is_met_by(registry, request, &found)? {
        return Ok(None);
    }
    allowed_is_published();
    let list = found.into_list();
    Ok(Some(NewestChoice { list, ruled_out }))
}

/// The newest selection, where each package can be decided in its turn: for the best version that is left by what
/// holds then, and leaves each package one. Where it answers none, a search is needed; there may be a selection all
/// the same.
///
/// The cost is linear in the dependencies of what is chosen, and of packages whose versions all depend on the same or of
/// which one is left, each with a look at the versions that are left. What is tried in vain costs at most some
/// sixteen times as much.
pub fn choose_newest(
    alloc: Global,
    registry: &Registry,
    request: &Request,
) -> Result<Option<NewestChoice>, AllocError>
    ensures newest { IfOk result (λ chosen. IfSome chosen (λ choice. IsNewest registry.now.packages request.now (choice_of choice.list.items))) }
    ensures once { IfOk result (λ chosen. IfSome chosen (λ choice. IsDistinct nat_eq (keys_of choice.list.items))) }
{
    Ok(choose_with(alloc, registry, request, None)?)
}

/// As [`choose_newest`], which is to be asked first. It also takes versions away that depend on a package by a
/// requirement that nothing left of it meets, and so it answers some requests for which that one answers none.
///
/// The cost is linear in the dependencies of the versions of packages that are needed, of which so many are looked at,
/// beside that of `choose_newest`.
pub fn choose_newest_by_propagation(
    alloc: Global,
    registry: &Registry,
    request: &Request,
) -> Result<Option<NewestChoice>, AllocError>
    ensures newest { IfOk result (λ chosen. IfSome chosen (λ choice. IsNewest registry.now.packages request.now (choice_of choice.list.items))) }
    ensures once { IfOk result (λ chosen. IfSome chosen (λ choice. IsDistinct nat_eq (keys_of choice.list.items))) }
{
    let dependents = Dependents::new(alloc)?;
    Ok(choose_with(alloc, registry, request, Some(dependents))?)
}
