//! The walk.

ghost use Rattle.std.specs.Prelude.{◌≡◌, ◌<◌, ℕ, [], true, false, length, nat_eq, slice_get, Some, IfNone, IfOk, IfSome, OnOk};
ghost use Rattle.std.specs.Bool.{OnFalse, OnTrue};
ghost use Rattle.std.specs.List.{IsDistinct};
ghost use Rattle.std.specs.Map.{keys_of};
ghost use Rattle.registry.specs.Registry.{meets_at, needs_of};
ghost use Rattle.registry.specs.Requests.{is_allowed};
ghost use Rattle.walk.specs.Choosing.{choice_of, Follows};
ghost use Rattle.walk.specs.Walks.{asked_by, AreAskedAt, AreMet, ArePlaces, ComeFrom, ComesAs, FoundFrom, FoundMeets, Grows, IsMetAt, IsUnmetAt, IsUnmetOf, ReachesBy};

use crate::choice_map::{ChoiceMap, WALK_ROOM};
use crate::chooser::Chooser;
use crate::dependency::{dependency_at, low_dependency};
use crate::reached::{Asker, Reached};
use registry::{Pkg, Place, Registry, Request, allowed_is_published};
use std::alloc::{AllocError, Global};
use versions::Need;

/// Whether a version of a package is published and meets a requirement.
pub(crate) fn meets(registry: &Registry, pkg: Pkg, ordinal: u32, need: &Need) -> bool
    ensures { result ≡ meets_at registry.now.packages pkg ordinal need.now }
{
    match registry.facts_at(pkg, ordinal) {
        None => false,
        Some(facts) => need.admits(facts.version),
    }
}

/// Whether a version is allowed to a request. Where no version of the package is yanked, as a note says, its row
/// is not looked at.
pub(crate) fn is_allowed(registry: &Registry, request: &Request, pkg: Pkg, ordinal: u32) -> bool
    ensures { result ≡ is_allowed registry.now.packages request.now pkg ordinal }
{
    if registry.has_yanks(pkg) {
        return registry.allowed(request, pkg, ordinal);
    }
    (ordinal as usize) < registry.versions(pkg)
}

/// Adds the chosen version of a package, unless the package is found already. Answers whether the
/// version passes a test of its ordinal; one that does not is not added.
fn follow_to<C: Chooser, F: Fn(u32) -> bool>(
    chooser: &C,
    target: Pkg,
    passes: F,
    found: &mut ChoiceMap,
) -> Result<bool, AllocError>
    requires callable { F.IsAlwaysCallable passes }
    requires follows { Follows (C.chooses chooser.now) (choice_of found.old.entries) }
    ensures follows { OnOk result (Follows (C.chooses chooser.now) (choice_of found.new.entries)) }
    ensures grown { OnOk result (Grows found.old.entries found.new.entries) }
    ensures comes { OnOk result (ComesAs target (choice_of found.old.entries) (choice_of found.new.entries)) }
    ensures passed { IfOk result (λ met. OnTrue met ((k : ℕ) × (choice_of found.new.entries target ≡ Some k) × F.post passes k true)) }
    ensures failed { IfOk result (λ met. OnFalse met ((k : ℕ) → C.chooses chooser.now target ≡ Some k → F.post passes k false)) }
{
    if let Some(ordinal) = found.get(target) {
        return Ok(passes(ordinal));
    }
    let Some(ordinal) = chooser.choose(target) else {
        return Ok(false);
    };
    if !passes(ordinal) {
        return Ok(false);
    }
    found.push(target, ordinal)?;
    Ok(true)
}

/// Follows the need of the request at an index, as [`follow_at`].
fn follow_need<C: Chooser>(
    registry: &Registry,
    request: &Request,
    chooser: &C,
    index: usize,
    found: &mut ChoiceMap,
) -> Result<bool, AllocError>
    requires within { index < length request.now.needs }
    requires follows { Follows (C.chooses chooser.now) (choice_of found.old.entries) }
    ensures follows { OnOk result (Follows (C.chooses chooser.now) (choice_of found.new.entries)) }
    ensures grown { OnOk result (Grows found.old.entries found.new.entries) }
    ensures come { OnOk result (ComeFrom registry.now.packages request.now.needs (choice_of found.old.entries) (choice_of found.new.entries)) }
    ensures met { IfOk result (λ met. OnTrue met (IsMetAt registry.now.packages (choice_of found.new.entries) request.now.needs index)) }
    ensures unmet { IfOk result (λ met. OnFalse met (IsUnmetAt registry.now.packages (C.chooses chooser.now) request.now.needs index)) }
{
    let line = &request.needs()[index];
    let Some(target) = registry.number(&line.0) else {
        return Ok(false);
    };
    let meets_need = |ordinal| meets(registry, target, ordinal, &line.1);
    follow_to(chooser, target, meets_need, found)
}

/// Follows the dependency of a version at an index, as [`follow_at`].
fn follow_dependency<C: Chooser>(
    registry: &Registry,
    chooser: &C,
    pkg: Pkg,
    ordinal: u32,
    places: &[Place],
    index: usize,
    found: &mut ChoiceMap,
) -> Result<bool, AllocError>
    requires within { index < length (needs_of registry.now.packages pkg ordinal) }
    requires places { ArePlaces registry.now.packages registry.now.named pkg ordinal places.now }
    requires follows { Follows (C.chooses chooser.now) (choice_of found.old.entries) }
    ensures follows { OnOk result (Follows (C.chooses chooser.now) (choice_of found.new.entries)) }
    ensures grown { OnOk result (Grows found.old.entries found.new.entries) }
    ensures come { OnOk result (FoundFrom registry.now.packages (needs_of registry.now.packages pkg ordinal) found.old.entries found.new.entries) }
    ensures met { IfOk result (λ met. OnTrue met (FoundMeets registry.now.packages (needs_of registry.now.packages pkg ordinal) index found.new.entries)) }
    ensures unmet { IfOk result (λ met. OnFalse met (IsUnmetAt registry.now.packages (C.chooses chooser.now) (needs_of registry.now.packages pkg ordinal) index)) }
{
    let version = (pkg, ordinal);
    if let Some((target, set)) = low_dependency(registry, version, places, index) {
        let is_low = |ordinal| set.has(ordinal);
        return follow_to(chooser, target, is_low, found);
    }
    let (target, matching) = dependency_at(registry, version, places, index)?;
    let meets_need = |ordinal| matching.has(ordinal);
    follow_to(chooser, target, meets_need, found)
}

/// Adds the chosen version of the package that is asked for at an index, unless the package is found
/// already. Answers whether the version meets what is asked; one that does not is not added.
fn follow_at<C: Chooser>(
    registry: &Registry,
    request: &Request,
    chooser: &C,
    asker: Asker,
    places: &[Place],
    index: usize,
    found: &mut ChoiceMap,
) -> Result<bool, AllocError>
    requires within { index < length (asked_by registry.now.packages request.now asker) }
    requires places { AreAskedAt registry.now.packages registry.now.named asker places.now }
    requires follows { Follows (C.chooses chooser.now) (choice_of found.old.entries) }
    ensures follows { OnOk result (Follows (C.chooses chooser.now) (choice_of found.new.entries)) }
    ensures grown { OnOk result (Grows found.old.entries found.new.entries) }
    ensures come { OnOk result (FoundFrom registry.now.packages (asked_by registry.now.packages request.now asker) found.old.entries found.new.entries) }
    ensures met { IfOk result (λ met. OnTrue met (FoundMeets registry.now.packages (asked_by registry.now.packages request.now asker) index found.new.entries)) }
    ensures unmet { IfOk result (λ met. OnFalse met (IsUnmetOf registry.now.packages request.now (C.chooses chooser.now) asker index)) }
{
    match asker {
        Asker::Request => follow_need(registry, request, chooser, index, found),
        Asker::Version(pkg, ordinal) => {
            follow_dependency(registry, chooser, pkg, ordinal, places, index, found)
        }
    }
}

/// Follows what is asked in order, up to the first that is not met, whose index is answered.
fn follow_all<C: Chooser>(
    registry: &Registry,
    request: &Request,
    chooser: &C,
    asker: Asker,
    found: &mut ChoiceMap,
) -> Result<Option<usize>, AllocError>
    requires { Follows (C.chooses chooser.now) (choice_of found.old.entries) }
    ensures follows { OnOk result (Follows (C.chooses chooser.now) (choice_of found.new.entries)) }
    ensures grown { OnOk result (Grows found.old.entries found.new.entries) }
    ensures come { OnOk result (FoundFrom registry.now.packages (asked_by registry.now.packages request.now asker) found.old.entries found.new.entries) }
    ensures met { IfOk result (λ at. IfNone at (AreMet registry.now.packages (choice_of found.new.entries) (asked_by registry.now.packages request.now asker))) }
    ensures unmet { IfOk result (λ at. IfSome at (IsUnmetOf registry.now.packages request.now (C.chooses chooser.now) asker)) }
{
    let places = asker.places(registry);
    let count = asker.needs_count(registry, request);
    for index in 0..count {
        if !follow_at(registry, request, chooser, asker, places, index, found)? {
            return Ok(Some(index));
        }
    }
    Ok(None)
}

/// Walks from the needs of the request along dependencies, by the versions that the chooser gives: of the
/// packages that are found, the dependencies of the last are followed next, so that what was looked at to find
/// it is still near.
///
/// The chooser is asked once for each package that is reached. The cost is linear in the needs and
/// dependencies that are looked at, whatever the size of the registry: each costs a look-up of its
/// package among those found. A need costs a look-up of its name and one test of the version against
/// the requirement besides; the package of a dependency and its matching set are kept with it.
pub fn reach<C: Chooser>(
    alloc: Global,
    registry: &Registry,
    request: &Request,
    chooser: &C,
) -> Result<Reached, AllocError>
    ensures { IfOk result (ReachesBy registry.now.packages request.now (C.chooses chooser.now)) }
{
    let mut found = ChoiceMap::new(alloc)?;
    reach_into(alloc, registry, request, chooser, &mut found)
}

/// As [`reach`]; what is found goes into an empty map.
fn reach_into<C: Chooser>(
    alloc: Global,
    registry: &Registry,
    request: &Request,
    chooser: &C,
    found: &mut ChoiceMap,
) -> Result<Reached, AllocError>
    requires { found.old.entries ≡ [] }
    ensures { IfOk result (ReachesBy registry.now.packages request.now (C.chooses chooser.now)) }
{
    if let Some(index) = follow_all(registry, request, chooser, Asker::Request, found)? {
        return Ok(Reached::Unmet(Asker::Request, index));
    }
    let mut left = Vec::with_capacity(alloc, WALK_ROOM)?;
    left.extend_from_slice(found.since(0))?;
    'walk: while let Some((pkg, ordinal)) = left.pop() {
        if !is_allowed(registry, request, pkg, ordinal) {
            return Ok(Reached::NotAllowed(pkg, ordinal));
        }
        let asker = Asker::Version(pkg, ordinal);
        let before = found.len();
        if let Some(index) = follow_all(registry, request, chooser, asker, found)? {
            return Ok(Reached::Unmet(asker, index));
        }
        left.extend_from_slice(found.since(before))?;
    }
    allowed_is_published();
    Ok(Reached::Selection(found.list(alloc)?))
}
