//! A named requirement whose matching set is not kept.

ghost use Rattle.std.specs.Prelude.{◌≡◌, IfOk};
ghost use Rattle.terms.specs.Sets.{has, IsAscending};
ghost use Rattle.releases.specs.Releases.{meeting};
ghost use Rattle.versions.specs.Bounds.{IsBounded};

use crate::ranked::Ranked;
use std::alloc::{AllocError, Global};
use std::marker::Model;
use terms::{VSet, same_set};
use versions::{Bounds, Need};

/// The releases beside a requirement, seen as the ordinals of those that meet it: each is tested when it
/// is asked for.
#[derive(Drop)]
pub struct Tested<'a> {
    ranked: Ranked<'a>,
    need: &'a Need,
    bounds: &'a Bounds,
}

impl<'a> Model for Tested<'a> {
    ghost use Rattle.std.specs.Prelude.{ℕ, List};
    ghost use Rattle.releases.specs.Releases.{meeting};
    ghost use Rattle.versions.specs.Bounds.{IsBounded};

    ghost Value = { List ℕ };

    ghost view = { λ t. meeting t.ranked t.need.now };

    ghost invariant = { λ t. IsBounded t.need.now t.bounds.now };
}

impl<'a> Tested<'a> {
    /// The releases beside a requirement, which has these bounds.
    pub(crate) fn new(ranked: Ranked<'a>, need: &'a Need, bounds: &'a Bounds) -> Tested<'a>
        requires { IsBounded need.now bounds.now }
        ensures { result ≡ meeting ranked.entry need.now }
    {
        Tested {
            ranked,
            need,
            bounds,
        }
    }

    /// Whether the release with an ordinal meets the requirement.
    pub fn has(&self, ordinal: u32) -> bool
        ensures { result ≡ has self.now ordinal }
    {
        self.ranked.admits(ordinal, self.need, self.bounds)
    }

    /// The ordinals, by two bisections, or by one test a release.
    pub fn set(&self, alloc: Global) -> Result<VSet, AllocError>
        ensures same { IfOk result (λ set. set ≡ self.now) }
        ensures ascending { IfOk result IsAscending }
    {
        same_set();
        let members = self.ranked.matching(alloc, self.need, self.bounds)?;
        members.set(alloc)
    }
}
