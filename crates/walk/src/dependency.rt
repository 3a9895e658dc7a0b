//! What a version depends on, by the places that are kept of it: most often a word has room for the versions that meet it.

ghost use Rattle.std.specs.Prelude.{◌<◌, ℕ, length, IfOk, IfSome};
ghost use Rattle.releases.specs.Matching.{ordinals_of};
ghost use Rattle.registry.specs.Dependencies.{IsDependency};
ghost use Rattle.registry.specs.Places.{IsPlace};
ghost use Rattle.registry.specs.Registry.{needs_of};
ghost use Rattle.walk.specs.Best.{NamesAt};
ghost use Rattle.walk.specs.Walks.{ArePlaces};

use registry::{Matching, Pkg, Place, Registry};
use std::alloc::AllocError;
use terms::LowSet;

/// The versions of a package that meet the requirement at a place, where they are kept and a word has room for them.
pub(crate) fn low_set_at(registry: &Registry, place: &Place) -> Option<LowSet>
    ensures { IfSome result (λ set. (p k index : ℕ) → IsPlace registry.now.packages registry.now.named p k index place.now → IsDependency registry.now.packages p k index place.now.target set) }
{
    let matching = registry.matching_named(place.target, place.need)?;
    matching.as_low()
}

/// The package that a version names at an index of its dependencies, where its place is among these, and those of the package's
/// versions that meet the requirement, where a word has room for them. No text is looked at, and no memory is taken.
pub(crate) fn low_dependency(
    registry: &Registry,
    version: (Pkg, u32),
    places: &[Place],
    index: usize,
) -> Option<(Pkg, LowSet)>
    requires { ArePlaces registry.now.packages registry.now.named version.0 version.1 places.now }
    ensures { IfSome result (λ found. IsDependency registry.now.packages version.0 version.1 index found.0 found.1) }
{
    let place = places.get(index)?;
    let set = low_set_at(registry, place)?;
    Some((place.target, set))
}

/// As [`Registry::dependency`], by these places of what the version depends on.
pub(crate) fn dependency_at<'a>(
    registry: &'a Registry,
    version: (Pkg, u32),
    places: &[Place],
    index: usize,
) -> Result<(Pkg, Matching<'a>), AllocError>
    requires within { index < length (needs_of registry.now.packages version.0 version.1) }
    requires places { ArePlaces registry.now.packages registry.now.named version.0 version.1 places.now }
    ensures { IfOk result (λ found. IsDependency registry.now.packages version.0 version.1 index found.0 (ordinals_of found.1)) }
{
    if let Some(place) = places.get(index) {
        if let Some(matching) = registry.matching_named(place.target, place.need) {
            return Ok((place.target, matching));
        }
    }
    registry.dependency(version.0, version.1, index)
}

/// The package that a version names at an index of its dependencies.
pub(crate) fn target_at(
    registry: &Registry,
    version: (Pkg, u32),
    places: &[Place],
    index: usize,
) -> Result<Pkg, AllocError>
    requires within { index < length (needs_of registry.now.packages version.0 version.1) }
    requires places { ArePlaces registry.now.packages registry.now.named version.0 version.1 places.now }
    ensures { IfOk result (NamesAt registry.now.packages version.0 version.1 index) }
{
    if let Some(place) = places.get(index) {
        return Ok(place.target);
    }
    let (target, _) = registry.dependency(version.0, version.1, index)?;
    Ok(target)
}
