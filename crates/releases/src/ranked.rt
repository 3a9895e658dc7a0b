//! Releases by their precedence, and which of them stand in a range.

ghost use Rattle.std.specs.Prelude.{◌≡◌, ◌-◌, ◌<◌, ◌≤◌, ◌^◌, ℕ, true, false, length, slice_index, IfOk};
ghost use Rattle.releases.specs.Kept.{IsMatching};
ghost use Rattle.releases.specs.Releases.{meets_at, version_at, versions_of};
ghost use Rattle.releases.specs.Rising.{is_before_edge, ArePlain, IsRising};
ghost use Rattle.versions.specs.Bounds.{IsBounded};
ghost use Rattle.versions.specs.Words.{Text};

use crate::matching::tested;
use crate::release::Release;
use std::alloc::{AllocError, Global};
use std::marker::Model;
use terms::GrowingSet;
use versions::{Bounds, Need, Published};

/// The releases of a package, seen as their versions in order of publication, with their ordinals in
/// rising precedence.
#[derive(Drop)]
pub(crate) struct Ranked<'a> {
    releases: &'a [Release],
    rising: &'a [u32],
    /// Whether it is known that none of them has a pre-release.
    is_plain: bool,
}

impl<'a> Model for Ranked<'a> {
    ghost use Rattle.std.specs.Prelude.{◌≡◌, ◌≤◌, ◌^◌, List, length, true};
    ghost use Rattle.releases.specs.Releases.{versions_of};
    ghost use Rattle.releases.specs.Rising.{ArePlain, IsRising};
    ghost use Rattle.versions.specs.Words.{Text};

    ghost Value = { List Text };

    ghost view = { λ r. versions_of r.releases.now };

    ghost invariant = { λ r. (length r.releases.now ≤ 2 ^ 32) × IsRising (versions_of r.releases.now) r.rising.now
        × (r.is_plain ≡ true → ArePlain (versions_of r.releases.now)) };
}

/// Where a range begins, or where it ends.
#[derive(Clone, Copy)]
pub(crate) enum Edge {
    Begin,
    End,
}

/// Whether a version stands before an edge of the range.
fn is_before(edge: Edge, bounds: &Bounds, version: &Published) -> bool
    ensures { result ≡ is_before_edge edge bounds.now version.now }
{
    match edge {
        Edge::Begin => bounds.begins_above(version),
        Edge::End => bounds.ends_above(version),
    }
}

/// The place of the first version that does not stand before an edge of the range, by bisection.
fn place_of_edge(releases: &[Release], rising: &[u32], edge: Edge, bounds: &Bounds) -> usize
    requires { (i : ℕ) → i < length rising.now → slice_index rising.now i < length releases.now }
    ensures within { result ≤ length rising.now }
    ensures before { 0 < result
        → is_before_edge edge bounds.now (version_at (versions_of releases.now) (slice_index rising.now (result - 1))) ≡ true }
    ensures from { result < length rising.now
        → is_before_edge edge bounds.now (version_at (versions_of releases.now) (slice_index rising.now result)) ≡ false }
{
    let mut low = 0;
    let mut high = rising.len();
    'halve: while low < high {
        let middle = low + (high - low) / 2;
        if is_before(edge, bounds, &releases[rising[middle] as usize].version) {
            low = middle + 1;
        } else {
            high = middle;
        }
    }
    low
}

impl<'a> Ranked<'a> {
    /// Releases with their ordinals in rising precedence.
    pub(crate) fn new(releases: &'a [Release], rising: &'a [u32], is_plain: bool) -> Ranked<'a>
        requires few { length releases.now ≤ 2 ^ 32 }
        requires in_order { IsRising (versions_of releases.now) rising.now }
        requires plain { is_plain ≡ true → ArePlain (versions_of releases.now) }
        ensures { result ≡ versions_of releases.now }
    {
        Ranked {
            releases,
            rising,
            is_plain,
        }
    }

    /// Whether the release with an ordinal meets a requirement, which has these bounds.
    pub(crate) fn admits(&self, ordinal: u32, need: &Need, bounds: &Bounds) -> bool
        requires { IsBounded need.now bounds.now }
        ensures { result ≡ meets_at self.now need.now ordinal }
    {
        match self.releases.get(ordinal as usize) {
            Some(release) => bounds.admit(need, &release.version),
            None => false,
        }
    }

    /// The ordinals between the edges of the range, where no version has a pre-release: they stand side by
    /// side among the rising ones.
    fn between(&self, bounds: &Bounds) -> &'a [u32]
        requires plain { ArePlain self.now }
        requires known { bounds.now.is_vague ≡ false }
        ensures { (need : Text) → IsBounded need bounds.now → IsMatching self.now need result.now }
    {
        let begin = place_of_edge(self.releases, self.rising, Edge::Begin, bounds);
        let from = &self.rising[begin..];
        let end = place_of_edge(self.releases, from, Edge::End, bounds);
        &from[..end]
    }

    /// The matching set of a requirement, which has these bounds, computed afresh: by two bisections where no
    /// version has a pre-release, else by one test a release.
    pub(crate) fn matching(
        &self,
        alloc: Global,
        need: &Need,
        bounds: &Bounds,
    ) -> Result<GrowingSet, AllocError>
        requires { IsBounded need.now bounds.now }
        ensures { IfOk result (λ set. IsMatching self.now need.now set.ordinals) }
    {
        if self.is_plain && !bounds.is_vague() {
            return GrowingSet::of(alloc, self.between(bounds));
        }
        tested(alloc, self.releases, need, bounds)
    }
}
