//! Which versions of a package have a dependency: they share one line.

ghost use Rattle.std.specs.Prelude.{◌≡◌, ◌↔◌, ◌+◌, ℕ, true, Contains, IfOk, IsTrue};
ghost use Rattle.terms.specs.Sets.{has};
ghost use Rattle.registry.specs.Registry.{Repeats, is_published, needs_of};
ghost use Rattle.facts.specs.Pushing.{AreDependents};

use crate::sharing::{DependencyPlace, Sharing};
use oracle::Task;
use registry::ordinals_are_below_the_count;
use std::alloc::AllocError;
use terms::{Pkg, VSet};
use versions::{Name, Need};

fn is_entry(entry: &(Name, Need), name: &Name, need: &Need) -> bool
    ensures { IsTrue result ↔ ((entry.now.0 ≡ name.now) × (entry.now.1 ≡ need.now)) }
{
    entry.1.text() == need.text() && entry.0.text() == name.text()
}

/// Whether a name with this requirement is among the needs.
fn has_entry(needs: &[(Name, Need)], name: &Name, need: &Need) -> bool
    ensures { IsTrue result ↔ Contains needs.now (name.now, need.now) }
{
    for entry in needs {
        if is_entry(entry, name, need) {
            return true;
        }
    }
    false
}

/// Whether a version depends on a name with this requirement, given whether it repeats what the one
/// before it depends on, and whether that one does. Most versions do, and then nothing is compared.
fn has_dependency(
    task: &Task<'_>,
    pkg: Pkg,
    ordinal: u32,
    name: &Name,
    need: &Need,
    repeats: bool,
    before: bool,
) -> bool
    requires published { is_published task.now.registry.now.packages pkg ordinal ≡ true }
    requires repeats { IsTrue repeats → Repeats task.now.registry.now.packages pkg ordinal }
    requires before { (k : ℕ) → k + 1 ≡ ordinal → IsTrue before ↔ Contains (needs_of task.now.registry.now.packages pkg k) (name.now, need.now) }
    ensures { IsTrue result ↔ Contains (needs_of task.now.registry.now.packages pkg ordinal) (name.now, need.now) }
{
    if repeats {
        return before;
    }
    has_entry(task.registry.facts(pkg, ordinal).needs, name, need)
}

/// The versions of a package that depend on a name with this requirement. It costs a comparison with each
/// dependency of each version that does not repeat the one before.
pub fn versions_with(
    task: &Task<'_>,
    pkg: Pkg,
    name: &Name,
    need: &Need,
) -> Result<VSet, AllocError>
    ensures { IfOk result (λ set. (k : ℕ) → IsTrue (has set k) ↔ Contains (needs_of task.now.registry.now.packages pkg k) (name.now, need.now)) }
{
    ordinals_are_below_the_count();
    let repeats = task.registry.repeats(pkg);
    let mut set = VSet::new(task.alloc);
    let mut is_one = false;
    for ordinal in 0..task.registry.version_count(pkg) {
        let same = repeats[ordinal as usize];
        is_one = has_dependency(task, pkg, ordinal, name, need, same, is_one);
        if is_one {
            set.insert(ordinal)?;
        }
    }
    Ok(set)
}

/// Whether a version has this dependency at a place.
fn is_at(task: &Task<'_>, pkg: Pkg, place: DependencyPlace, entry: &(Name, Need)) -> bool
    ensures { result ≡ true → Contains (needs_of task.now.registry.now.packages pkg place.ordinal) entry.now }
{
    let Some(facts) = task.registry.facts_at(pkg, place.ordinal) else {
        return false;
    };
    if place.index >= facts.needs.len() {
        return false;
    }
    is_entry(&facts.needs[place.index], &entry.0, &entry.1)
}

/// A version that has a dependency, and those that have it at one of these places. It costs a comparison
/// at each.
fn versions_among(
    task: &Task<'_>,
    pkg: Pkg,
    ordinal: u32,
    entry: &(Name, Need),
    places: &[DependencyPlace],
) -> Result<VSet, AllocError>
    requires { Contains (needs_of task.now.registry.now.packages pkg ordinal) entry.now }
    ensures { IfOk result (AreDependents task.now.registry.now.packages pkg entry.now) }
{
    let mut set = VSet::single(task.alloc, ordinal)?;
    for place in places {
        if is_at(task, pkg, *place, entry) {
            set.insert(place.ordinal)?;
        }
    }
    Ok(set)
}

/// Versions of a package that have the dependency which one of them has: all of them, unless the package
/// has many dependencies and the table leaves one out.
pub(crate) fn versions_sharing(
    task: &Task<'_>,
    sharing: &mut Sharing,
    pkg: Pkg,
    ordinal: u32,
    entry: &(Name, Need),
) -> Result<VSet, AllocError>
    requires { Contains (needs_of task.now.registry.now.packages pkg ordinal) entry.now }
    ensures { IfOk result (AreDependents task.now.registry.now.packages pkg entry.now) }
{
    if !sharing.lists(task, pkg)? {
        return versions_with(task, pkg, &entry.0, &entry.1);
    }
    sharing.find(task, pkg, entry)?;
    versions_among(task, pkg, ordinal, entry, sharing.found())
}
