//! The ordinals of versions in rising precedence.

ghost use Rattle.std.specs.Prelude.{◌≡◌, ◌<◌, ◌≤◌, ◌+◌, ◌^◌, ◌∷◌, ◌++◌, [], ℕ, true, false, length, slice_index, vec_capacity, vec_len, IfNone, IfSome};
ghost use Rattle.releases.specs.Releases.{has_version, version_at, versions_of};
ghost use Rattle.releases.specs.Rising.{IsHighest, IsPlace, IsRising};

use crate::release::Release;
use std::cmp::Ordering;
use versions::{
    Published, equal_precedence_is_an_equivalence, order, precedence_is_a_total_preorder,
};

/// The place of the version of equal precedence, or the place where the version would stand. It is
/// found at once above all others, where versions are mostly published.
pub(crate) fn place_of(
    releases: &[Release],
    rising: &[u32],
    version: &Published,
) -> Result<usize, usize>
    requires { IsRising (versions_of releases.now) rising.now }
    ensures { IsPlace (versions_of releases.now) rising.now version.now result }
{
    precedence_is_a_total_preorder();
    equal_precedence_is_an_equivalence();
    if let [.., top] = rising {
        if order(&releases[*top as usize].version, version).is_lt() {
            return Err(rising.len());
        }
    }
    let mut low = 0;
    let mut high = rising.len();
    'halve: while low < high {
        let middle = low + (high - low) / 2;
        match order(&releases[rising[middle] as usize].version, version) {
            Ordering::Less => low = middle + 1,
            Ordering::Equal => return Ok(middle),
            Ordering::Greater => high = middle,
        }
    }
    Err(low)
}

/// Puts the next ordinal in, which is that of a version of new precedence. Takes no memory.
pub(crate) fn raise(releases: &[Release], rising: &mut Vec<u32>, version: &Published)
    requires in_order { IsRising (versions_of releases.now) rising.old.items }
    requires new { has_version (versions_of releases.now) version.now ≡ false }
    requires few { length releases.now < 2 ^ 32 }
    requires room { vec_len rising.old < vec_capacity rising.old }
    ensures { IsRising (versions_of releases.now ++ version.now ∷ []) rising.new.items }
{
    match place_of(releases, rising, version) {
        Ok(_) => unreachable!(),
        Err(place) => rising.insert(place, releases.len() as u32).unwrap(),
    }
}

/// The ordinal of highest precedence that passes a test: the last of the rising ones.
pub(crate) fn highest_of<F: Fn(u32) -> bool>(rising: &[u32], passes: F) -> Option<u32>
    requires { (i : ℕ) → i < length rising.now → F.pre passes (slice_index rising.now i) }
    ensures some { IfSome result (λ k. (i : ℕ) × (i < length rising.now) × (slice_index rising.now i ≡ k) × F.post passes k true
        × ((j : ℕ) → i < j → j < length rising.now → F.post passes (slice_index rising.now j) false)) }
    ensures none { IfNone result ((j : ℕ) → j < length rising.now → F.post passes (slice_index rising.now j) false) }
{
    let mut left = rising.len();
    'walk: while left > 0 {
        let ordinal = rising[left - 1];
        if passes(ordinal) {
            return Some(ordinal);
        }
        left -= 1;
    }
    None
}
