//! Whether premises stand: loops over what packages publish.

ghost use Rattle.std.specs.Prelude.{◌≡◌, ◌↔◌, IfOk, IsTrue, Some};
ghost use Rattle.registry.specs.Registry.{number_of};
ghost use Rattle.derivations.specs.Facts.{AllDepend, Covers, DependsOn, HasNeed, IsDependent, Stands};

use crate::facts::Premise;
use registry::{Registry, ordinals_are_below_the_count};
use std::alloc::AllocError;
use terms::Pkg;
use versions::{Name, Need};

/// Whether a need is on the target, with this requirement.
fn is_on_target(registry: &Registry, entry: &(Name, Need), target: Pkg, need: &Need) -> bool
    ensures { IsTrue result
        ↔ ((number_of registry.now.packages entry.now.0 ≡ Some target) × (entry.now.1 ≡ need.now)) }
{
    entry.1.text() == need.text() && registry.number(&entry.0) == Some(target)
}

/// Whether one of the needs is on the target, with this requirement.
fn has_need(registry: &Registry, needs: &[(Name, Need)], target: Pkg, need: &Need) -> bool
    ensures { IsTrue result ↔ HasNeed registry.now.packages needs.now target need.now }
{
    for entry in needs {
        if is_on_target(registry, entry, target, need) {
            return true;
        }
    }
    false
}

/// Whether the version is published and depends on the target with this requirement.
fn depends_on(registry: &Registry, pkg: Pkg, ordinal: u32, target: Pkg, need: &Need) -> bool
    ensures { IsTrue result ↔ DependsOn registry.now.packages pkg ordinal target need.now }
{
    match registry.facts_at(pkg, ordinal) {
        None => false,
        Some(facts) => has_need(registry, facts.needs, target, need),
    }
}

/// Whether each of the versions depends on the target.
fn all_depend(registry: &Registry, premise: &Premise) -> bool
    ensures { IsTrue result ↔ AllDepend registry.now.packages premise.now }
{
    for ordinal in premise.versions.iter() {
        if !depends_on(
            registry,
            premise.package,
            ordinal,
            premise.target,
            &premise.need,
        ) {
            return false;
        }
    }
    true
}

/// Whether the premise has versions, and each depends on the target, which is another package.
pub fn is_dependent(registry: &Registry, premise: &Premise) -> bool
    ensures { IsTrue result ↔ IsDependent registry.now.packages premise.now }
{
    premise.package != premise.target
        && !premise.versions.is_empty()
        && all_depend(registry, premise)
}

/// Whether each version of the target that meets the requirement is within the set.
pub fn covers(registry: &Registry, premise: &Premise) -> bool
    ensures { IsTrue result ↔ Covers registry.now.packages premise.now }
{
    ordinals_are_below_the_count();
    for ordinal in 0..registry.version_count(premise.target) {
        let version = registry.facts(premise.target, ordinal).version;
        if premise.need.admits(version) && !premise.within.has(ordinal) {
            return false;
        }
    }
    true
}

/// Whether the premise stands. It asks the registry for the matching versions, which are at hand
/// where the requirement is known to it.
pub fn stands_by_matching(registry: &Registry, premise: &Premise) -> Result<bool, AllocError>
    ensures { IfOk result (λ yes. IsTrue yes ↔ Stands registry.now.packages premise.now) }
{
    if !is_dependent(registry, premise) {
        return Ok(false);
    }
    let matching = registry.matching_copy(premise.target, &premise.need)?;
    Ok(matching.is_subset(&premise.within))
}
