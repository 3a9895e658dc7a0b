//! The releases that meet a requirement.

ghost use Rattle.std.specs.Prelude.{◌≡◌, ◌<◌, ◌≤◌, ◌^◌, ◌∷◌, ◌++◌, [], ℕ, length, slice_index_or, IfNone, IfOk, IfSome, IsOk, OnErr, OnOk};
ghost use Rattle.terms.specs.Growing.{Growing};
ghost use Rattle.terms.specs.Sets.{has, IsAscending};
ghost use Rattle.releases.specs.Kept.{AreBounds, AreMatching, IsKeptNext, IsMatching};
ghost use Rattle.releases.specs.Releases.{versions_of};
ghost use Rattle.releases.specs.Matching.{HasNoWord, ordinals_of};
ghost use Rattle.versions.specs.Bounds.{IsBounded};

use crate::ranked::Ranked;
use crate::release::Release;
use crate::tested::Tested;
use std::alloc::{AllocError, Global};
use terms::{GrowingSet, LowSet, VSet};
use versions::{Bounds, Need, Published};

/// For how many requirements of a package the matching sets are kept: those that were named first. So
/// many tests a publication costs at the most. No package of the measured workloads has more than 58 requirements.
pub(crate) const KEPT_SETS: usize = 128;

/// The ordinals of the releases that meet a requirement: the set that is kept, one that was computed for
/// once, or those that pass a test when they are asked for.
#[derive(Drop)]
pub enum Matching<'a> {
    Known(&'a GrowingSet),
    Computed(GrowingSet),
    Tested(Tested<'a>),
}

impl Matching<'_> {
    /// Whether an ordinal is in the set.
    pub fn has(&self, ordinal: u32) -> bool
        ensures { result ≡ has (ordinals_of self.now) ordinal }
    {
        match self {
            Matching::Known(set) => set.has(ordinal),
            Matching::Computed(set) => set.has(ordinal),
            Matching::Tested(tested) => tested.has(ordinal),
        }
    }

    /// The same set in a word, where it is not a tested one and a word has room for it.
    pub fn as_low(&self) -> Option<LowSet>
        ensures some { IfSome result (λ low. low ≡ ordinals_of self.now) }
        ensures none { IfNone result (HasNoWord self.now) }
    {
        match self {
            Matching::Known(set) => set.as_low(),
            Matching::Computed(set) => set.as_low(),
            Matching::Tested(_) => None,
        }
    }

    /// A set of its own. A kept one is copied; of a tested one each version is asked.
    pub fn set(&self, alloc: Global) -> Result<VSet, AllocError>
        ensures same { IfOk result (λ set. set ≡ ordinals_of self.now) }
        ensures ascending { IfOk result IsAscending }
    {
        match self {
            Matching::Known(set) => set.set(alloc),
            Matching::Computed(set) => set.set(alloc),
            Matching::Tested(tested) => tested.set(alloc),
        }
    }
}

/// The matching set of a requirement, which has these bounds, by one test a release.
pub(crate) fn tested(
    alloc: Global,
    releases: &[Release],
    need: &Need,
    bounds: &Bounds,
) -> Result<GrowingSet, AllocError>
    requires few { length releases.now ≤ 2 ^ 32 }
    requires bounds { IsBounded need.now bounds.now }
    ensures { IfOk result (λ set. IsMatching (versions_of releases.now) need.now set.ordinals) }
{
    let mut set = GrowingSet::new(alloc);
    for (ordinal, release) in releases.iter().enumerate() {
        if bounds.admit(need, &release.version) {
            set.insert(ordinal as u32)?;
        }
    }
    Ok(set)
}

/// Keeps the matching set of the requirement that comes to a place, if it is one of the first.
pub(crate) fn keep_set(
    alloc: Global,
    ranked: &Ranked,
    need: &Need,
    bounds: &Bounds,
    place: usize,
    sets: &mut Vec<GrowingSet>,
) -> Result<(), AllocError>
    requires { IsBounded need.now bounds.now }
    ensures kept { OnOk result (IsKeptNext ranked.now need.now place sets.old.items sets.new.items) }
    ensures unchanged { OnErr result (sets.new.items ≡ sets.old.items) }
{
    if place >= KEPT_SETS {
        return Ok(());
    }
    sets.reserve(1)?;
    let set = ranked.matching(alloc, need, bounds)?;
    sets.push(set).unwrap();
    Ok(())
}

/// Makes room for one ordinal more in each set.
pub(crate) fn make_room(sets: &mut [GrowingSet]) -> Result<(), AllocError>
    ensures same { (i : ℕ) (d : Growing) → (slice_index_or sets.new i d).ordinals ≡ (slice_index_or sets.old i d).ordinals }
    ensures room { OnOk result ((i : ℕ) (d : Growing) → i < length sets.new → 0 < (slice_index_or sets.new i d).room) }
    ensures succeeds { ((i : ℕ) (d : Growing) → i < length sets.old → 0 < (slice_index_or sets.old i d).room) → IsOk result }
{
    for set in sets.iter_mut() {
        set.reserve()?;
    }
    Ok(())
}

/// Puts the ordinal of a version that is published into each matching set whose requirement it
/// meets: one test a set, by the requirement's bounds. Takes no memory.
pub(crate) fn keep_up(
    releases: &[Release],
    needs: &[Need],
    bounds: &[Bounds],
    sets: &mut [GrowingSet],
    version: &Published,
)
    requires matching { AreMatching (versions_of releases.now) needs.now sets.old }
    requires bounds { AreBounds needs.now bounds.now }
    requires few { length releases.now < 2 ^ 32 }
    requires room { (i : ℕ) (d : Growing) → i < length sets.old → 0 < (slice_index_or sets.old i d).room }
    ensures { AreMatching (versions_of releases.now ++ version.now ∷ []) needs.now sets.new }
{
    let ordinal = releases.len() as u32;
    for (i, set) in sets.iter_mut().enumerate() {
        if bounds[i].admit(&needs[i], version) {
            set.insert(ordinal).unwrap();
        }
    }
}
