//! The preferred version of each package, and the walk by the preferred versions.

ghost use Rattle.std.specs.Prelude.{◌≡◌, true, IfNone, IfOk, IfSome};
ghost use Rattle.std.specs.Option.{option_copied};
ghost use Rattle.registry.specs.Preference.{preferred};
ghost use Rattle.registry.specs.Registry.{publication_at};
ghost use Rattle.walk.specs.PlainlyNewest.{IsLocked, NoneLocked};
ghost use Rattle.walk.specs.Preferring.{is_kept_at, is_open_at, AloneMeets, Fails, Highest, IfPreferredServes, IsPreferredIfAny, Selects};
ghost use Rattle.walk.specs.Walks.{ReachesBy};

use crate::chooser::Chooser;
use crate::reached::Reached;
use crate::walking::reach;
use registry::{
    Pkg, Registry, Request, admits, locks, one_preferred_selection, the_highest_is_one,
};
use std::alloc::{AllocError, Global};
use versions::{Need, Published};

/// Chooses the preferred version of each package.
#[derive(Clone, Copy)]
pub struct Preferred<'a> {
    pub registry: &'a Registry,
    pub request: &'a Request,
}

impl Chooser for Preferred<'_> {
    ghost chooses = { λ c. preferred c.registry.now.packages c.request.now };

    fn choose(&self, pkg: Pkg) -> Option<u32> {
        preferred_version(self.registry, self.request, pkg)
    }
}

/// Whether a version is published, and is allowed by the lock's line of its package and meets the
/// need on it.
fn is_open(
    registry: &Registry,
    pkg: Pkg,
    ordinal: u32,
    need: Option<&Need>,
    locked: Option<&Published>,
) -> bool
    ensures { result ≡ is_open_at (option_copied need.entry) (option_copied locked.entry) (publication_at registry.now.packages pkg ordinal) }
{
    match registry.facts_at(pkg, ordinal) {
        None => false,
        Some(facts) => {
            (!facts.yanked || locks(locked, facts.version)) && admits(need, facts.version)
        }
    }
}

/// Whether a version is published, and is named by the lock's line of its package and meets the need
/// on it.
fn is_kept(
    registry: &Registry,
    pkg: Pkg,
    ordinal: u32,
    need: Option<&Need>,
    locked: Option<&Published>,
) -> bool
    ensures { result ≡ is_kept_at (option_copied need.entry) (option_copied locked.entry) (publication_at registry.now.packages pkg ordinal) }
{
    match registry.facts_at(pkg, ordinal) {
        None => false,
        Some(facts) => locks(locked, facts.version) && admits(need, facts.version),
    }
}

/// The version that the lock's line of the package names, if it is published and meets the need. The
/// cost grows with the logarithm of the number of versions.
fn kept_version(
    registry: &Registry,
    pkg: Pkg,
    need: Option<&Need>,
    locked: Option<&Published>,
) -> Option<u32>
    ensures some { IfSome result (λ k. is_kept_at (option_copied need.entry) (option_copied locked.entry) (publication_at registry.now.packages pkg k) ≡ true) }
    ensures only { IfSome result (AloneMeets registry.now.packages pkg (is_kept_at (option_copied need.entry) (option_copied locked.entry))) }
    ensures none { IfNone result (Fails registry.now.packages pkg (is_kept_at (option_copied need.entry) (option_copied locked.entry))) }
{
    let ordinal = registry.find(pkg, locked?)?;
    if is_kept(registry, pkg, ordinal, need, locked) {
        Some(ordinal)
    } else {
        None
    }
}

/// The version of a package that the lock names, if it is published. The cost grows with the logarithm of
/// the number of versions, and of the lines of the lock.
pub fn locked_ordinal(registry: &Registry, request: &Request, pkg: Pkg) -> Option<u32>
    ensures some { IfSome result (IsLocked registry.now.packages request.now pkg) }
    ensures none { IfNone result (NoneLocked registry.now.packages request.now pkg) }
{
    let name = registry.name_at(pkg)?;
    let locked = request.locked(name)?;
    registry.find(pkg, locked)
}

/// The highest version that is allowed by the lock's line of the package and meets the need on it.
fn highest_open(
    registry: &Registry,
    pkg: Pkg,
    need: Option<&Need>,
    locked: Option<&Published>,
) -> Option<u32>
    ensures some { IfSome result (Highest registry.now.packages pkg (is_open_at (option_copied need.entry) (option_copied locked.entry))) }
    ensures none { IfNone result (Fails registry.now.packages pkg (is_open_at (option_copied need.entry) (option_copied locked.entry))) }
{
    if need.is_none() && locked.is_none() && !registry.has_yanks(pkg) {
        // Each is open, so none is looked at.
        return registry.highest_where(pkg, |_ordinal| true);
    }
    registry.highest_where(pkg, |ordinal| is_open(registry, pkg, ordinal, need, locked))
}

/// The preferred version of a package, among those that are allowed and meet the request's need on
/// the package: the one that the lock names, else the one of highest precedence (Cargo and Dart pub
/// keep a locked version as long as it serves).
///
/// It costs a look at each version of higher precedence than the one that is answered.
pub fn preferred_version(registry: &Registry, request: &Request, pkg: Pkg) -> Option<u32>
    ensures { result ≡ preferred registry.now.packages request.now pkg }
{
    the_highest_is_one();
    let name = registry.name_at(pkg)?;
    let need = request.need_on(name);
    let locked = request.locked(name);
    match kept_version(registry, pkg, need, locked) {
        Some(ordinal) => Some(ordinal),
        None => highest_open(registry, pkg, need, locked),
    }
}

/// Walks by the preferred versions. Where the preferred selection exists and meets the request, it
/// is the answer: so it is the answer under every budget of a search that is made otherwise.
pub fn reach_preferred(
    alloc: Global,
    registry: &Registry,
    request: &Request,
) -> Result<Reached, AllocError>
    ensures reaches { IfOk result (ReachesBy registry.now.packages request.now (preferred registry.now.packages request.now)) }
    ensures preferred { IfOk result (IsPreferredIfAny registry.now.packages request.now) }
    ensures exactly { IfPreferredServes registry.now.packages request.now (λ s. IfOk result (Selects s)) }
{
    one_preferred_selection();
    let chooser = Preferred { registry, request };
    Ok(reach(alloc, registry, request, &chooser)?)
}
