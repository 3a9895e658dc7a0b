//! Whether what is chosen meets a request, where it stands.

ghost use Rattle.std.specs.Prelude.{◌≡◌, ◌<◌, ℕ, true, length, Some, IfOk, IfSome};
ghost use Rattle.registry.specs.Registry.{needs_of};
ghost use Rattle.releases.specs.Matching.{ordinals_of};
ghost use Rattle.walk.specs.Best.{IsOf};
ghost use Rattle.walk.specs.Choosing.{choice_of};
ghost use Rattle.walk.specs.Walks.{AreAllChecked, AreMet, ArePlaces, IsChecked, IsMetAt, MeetsNamed};

use crate::choice_map::ChoiceMap;
use crate::walking::{is_allowed, meets};
use registry::{Matching, Pkg, Place, Registry, Request};
use std::alloc::AllocError;

/// Whether the need at an index is met by what is chosen of its package.
fn is_need_met(registry: &Registry, request: &Request, found: &ChoiceMap, index: usize) -> bool
    requires { index < length request.now.needs }
    ensures { result ≡ true → IsMetAt registry.now.packages (choice_of found.now.entries) request.now.needs index }
{
    let need = &request.needs()[index];
    let Some(target) = registry.number(&need.0) else {
        return false;
    };
    match found.get(target) {
        None => false,
        Some(ordinal) => meets(registry, target, ordinal, &need.1),
    }
}

/// Whether each need of the request is met by what is chosen.
fn are_needs_met(registry: &Registry, request: &Request, found: &ChoiceMap) -> bool
    ensures { result ≡ true → AreMet registry.now.packages (choice_of found.now.entries) request.now.needs }
{
    let count = request.needs().len();
    for index in 0..count {
        if !is_need_met(registry, request, found, index) {
            return false;
        }
    }
    true
}

/// Whether a version of a package meets the requirement that is named at a place, where bits tell it.
fn meets_by_bits(registry: &Registry, place: Place, ordinal: u32) -> Option<bool>
    ensures { IfSome result (λ met. met ≡ true → MeetsNamed registry.now.packages registry.now.named place ordinal) }
{
    if ordinal >= u64::BITS {
        return None;
    }
    let bits = registry.low_bits(place.target, place.need)?;
    Some(bits >> ordinal & 1 == 1)
}

/// Whether a version of a package meets the requirement that is named at a place.
fn meets_named(registry: &Registry, place: Place, ordinal: u32) -> bool
    ensures { result ≡ true → MeetsNamed registry.now.packages registry.now.named place ordinal }
{
    if let Some(met) = meets_by_bits(registry, place, ordinal) {
        return met;
    }
    match registry.matching_named(place.target, place.need) {
        None => false,
        Some(matching) => matching.has(ordinal),
    }
}

/// Whether what is chosen of a package meets the requirement that is named at a place.
fn is_place_met(registry: &Registry, found: &ChoiceMap, place: Place) -> bool
    ensures { result ≡ true → (k : ℕ) × (choice_of found.now.entries place.target ≡ Some k) × MeetsNamed registry.now.packages registry.now.named place k }
{
    match found.get(place.target) {
        None => false,
        Some(ordinal) => meets_named(registry, place, ordinal),
    }
}

/// Whether a version of a package is chosen that is in a matching set.
fn is_found_in(found: &ChoiceMap, target: Pkg, matching: &Matching<'_>) -> bool
    ensures { result ≡ true → IsOf (ordinals_of matching.now) (choice_of found.now.entries target) }
{
    match found.get(target) {
        None => false,
        Some(ordinal) => matching.has(ordinal),
    }
}

/// Whether the dependency of a version at an index is met by what is chosen. Its place is among these, if it is kept.
fn is_dependency_met(
    registry: &Registry,
    found: &ChoiceMap,
    version: (Pkg, u32),
    places: &[Place],
    index: usize,
) -> Result<bool, AllocError>
    requires within { index < length (needs_of registry.now.packages version.0 version.1) }
    requires places { ArePlaces registry.now.packages registry.now.named version.0 version.1 places.now }
    ensures { IfOk result (λ met. met ≡ true → IsMetAt registry.now.packages (choice_of found.now.entries) (needs_of registry.now.packages version.0 version.1) index) }
{
    if let Some(place) = places.get(index) {
        return Ok(is_place_met(registry, found, *place));
    }
    let (target, matching) = registry.dependency(version.0, version.1, index)?;
    Ok(is_found_in(found, target, &matching))
}

/// Whether each dependency of a version is met by what is chosen.
fn are_dependencies_met(
    registry: &Registry,
    found: &ChoiceMap,
    version: (Pkg, u32),
) -> Result<bool, AllocError>
    ensures { IfOk result (λ met. met ≡ true → AreMet registry.now.packages (choice_of found.now.entries) (needs_of registry.now.packages version.0 version.1)) }
{
    let places = registry.places(version.0, version.1);
    let count = registry.needs_count(version.0, version.1);
    for index in 0..count {
        if !is_dependency_met(registry, found, version, places, index)? {
            return Ok(false);
        }
    }
    Ok(true)
}

/// Whether a version is allowed to the request, and each of its dependencies is met by what is chosen.
fn is_checked(
    registry: &Registry,
    request: &Request,
    found: &ChoiceMap,
    version: (Pkg, u32),
) -> Result<bool, AllocError>
    ensures { IfOk result (λ met. met ≡ true → IsChecked registry.now.packages request.now (choice_of found.now.entries) version.0 version.1) }
{
    if !is_allowed(registry, request, version.0, version.1) {
        return Ok(false);
    }
    are_dependencies_met(registry, found, version)
}

/// Whether the request's needs are met by what is chosen, and each chosen version is allowed and its dependencies are
/// met.
///
/// The cost is linear in the needs, and in the dependencies of what is chosen. Each costs a look-up of its package among
/// those chosen. A need also costs a look-up of its name and one test of the version; a dependency a look at the set of
/// the versions that meet its requirement, which is kept where the requirement is named.
pub(crate) fn is_met_by(
    registry: &Registry,
    request: &Request,
    found: &ChoiceMap,
) -> Result<bool, AllocError>
    ensures { IfOk result (λ met. met ≡ true → AreAllChecked registry.now.packages request.now (choice_of found.now.entries)) }
{
    if !are_needs_met(registry, request, found) {
        return Ok(false);
    }
    for place in 0..found.len() {
        if !is_checked(registry, request, found, found.at(place))? {
            return Ok(false);
        }
    }
    Ok(true)
}
