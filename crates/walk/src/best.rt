//! The best version of a package that may be had with what is chosen.

ghost use Rattle.std.specs.Prelude.{◌≡◌, ◌<◌, true, length, IfSome};
ghost use Rattle.std.specs.Bool.{OnFalse};
ghost use Rattle.terms.specs.Terms.{true_of};
ghost use Rattle.registry.specs.Registry.{Packages, needs_of};
ghost use Rattle.registry.specs.Requests.{Wanted};
ghost use Rattle.walk.specs.Best.{HasNone, Holds};
ghost use Rattle.walk.specs.Newest.{IsBest, IsOut, OfEach};
ghost use Rattle.walk.specs.Left.{term_of};
ghost use Rattle.walk.specs.Walks.{ArePlaces};

use crate::choosing::Choosing;
use crate::dependency::{dependency_at, low_dependency};
use crate::left::{Left, is_apart};
use crate::preferred::locked_ordinal;
use crate::walking::is_allowed;
use registry::{Pkg, Place, Registry, Request};
use terms::LowSet;
use versions::precedence_is_a_total_preorder;

impl Choosing {
    /// Whether a version depends, at an index, on a version that is not chosen of a package, or on none of those
    /// that are left. Where memory is short, it is not seen.
    pub(crate) fn is_at_odds_by(
        &self,
        registry: &Registry,
        version: (Pkg, u32),
        places: &[Place],
        index: usize,
    ) -> bool
        requires within { index < length (needs_of registry.now.packages version.0 version.1) }
        requires places { ArePlaces registry.now.packages registry.now.named version.0 version.1 places.now }
        ensures { result ≡ true → (wanted : Wanted) → Holds registry.now.packages wanted self.now → IsOut registry.now.packages wanted self.now.found.entries version.0 version.1 }
    {
        if let Some((target, set)) = low_dependency(registry, version, places, index) {
            if let Some(apart) = self.is_apart_from(target, &set) {
                return apart;
            }
        }
        let Ok((target, matching)) = dependency_at(registry, version, places, index) else {
            return false;
        };
        if let Some(chosen) = self.found.get(target) {
            return !matching.has(chosen);
        }
        match self.place_of(target) {
            None => false,
            Some(place) => is_apart(registry, target, &self.needed[place].left, &matching),
        }
    }

    /// Whether the version that is chosen of a package is not in a set, or none is of those that are left. None where what
    /// is left of it is no word.
    fn is_apart_from(&self, pkg: Pkg, set: &LowSet) -> Option<bool>
        ensures { IfSome result (λ apart. apart ≡ true → (packages : Packages) (wanted : Wanted) → Holds packages wanted self.now → HasNone packages wanted self.now.found.entries pkg set.now) }
    {
        if let Some(chosen) = self.found.get(pkg) {
            return Some(!set.has(chosen));
        }
        let Some(place) = self.place_of(pkg) else {
            return Some(false);
        };
        match &self.needed[place].left {
            Left::Low(left) => Some(left.both(set).is_empty()),
            Left::Any(_) => None,
        }
    }

    /// Whether a version is at odds with what is chosen or left of a package that it depends on.
    fn is_at_odds(&self, registry: &Registry, request: &Request, version: (Pkg, u32)) -> bool
        requires { Holds registry.now.packages request.now self.now }
        ensures { result ≡ true → IsOut registry.now.packages request.now self.now.found.entries version.0 version.1 }
    {
        let places = registry.places(version.0, version.1);
        let count = registry.needs_count(version.0, version.1);
        for index in 0..count {
            if self.is_at_odds_by(registry, version, places, index) {
                return true;
            }
        }
        false
    }

    /// Whether a version of a package, of which these are left, may be had.
    pub(crate) fn is_open(
        &self,
        registry: &Registry,
        request: &Request,
        left: &Left,
        version: (Pkg, u32),
    ) -> bool
        requires holds { Holds registry.now.packages request.now self.now }
        requires left { OfEach registry.now.packages request.now self.now.found.entries (λ t. true_of (term_of left.now) (t version.0) ≡ true) }
        ensures { OnFalse result (IsOut registry.now.packages request.now self.now.found.entries version.0 version.1) }
    {
        left.allows(version.1)
            && is_allowed(registry, request, version.0, version.1)
            && !self.is_at_odds(registry, request, version)
    }

    /// The best version that may be had of a package, of which these are left.
    fn best_of(&self, registry: &Registry, request: &Request, left: &Left, pkg: Pkg) -> Option<u32>
        requires holds { Holds registry.now.packages request.now self.now }
        requires left { OfEach registry.now.packages request.now self.now.found.entries (λ t. true_of (term_of left.now) (t pkg) ≡ true) }
        ensures { IfSome result (IsBest registry.now.packages request.now self.now.found.entries pkg) }
    {
        precedence_is_a_total_preorder();
        if let Some(only) = left.only() {
            // The others are out. What it depends on is seen once it is chosen.
            if is_allowed(registry, request, pkg, only) {
                return Some(only);
            }
            return None;
        }
        let highest = registry.highest_where(pkg, |other| {
            self.is_open(registry, request, left, (pkg, other))
        });
        match locked_ordinal(registry, request, pkg) {
            None => highest,
            Some(locked) => {
                if self.is_open(registry, request, left, (pkg, locked)) {
                    Some(locked)
                } else {
                    highest
                }
            }
        }
    }

    /// The best version that may be had of a package, if it is known to be needed.
    pub(crate) fn best(&self, registry: &Registry, request: &Request, pkg: Pkg) -> Option<u32>
        requires { Holds registry.now.packages request.now self.now }
        ensures { IfSome result (IsBest registry.now.packages request.now self.now.found.entries pkg) }
    {
        let place = self.place_of(pkg)?;
        self.best_of(registry, request, &self.needed[place].left, pkg)
    }
}
