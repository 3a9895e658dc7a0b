//! The releases of a package.

ghost use Rattle.std.specs.Prelude.{◌≡◌, ◌<◌, ◌≤◌, ◌^◌, ◌∷◌, ◌++◌, [], ℕ, true, false, is_some, length, slice_get, Some, IfNone, IfOk, IfSome, IsOk, OnErr, OnOk};
ghost use Rattle.terms.specs.Sets.{has};
ghost use Rattle.terms.specs.Words.{AreLowBits};
ghost use Rattle.versions.specs.Words.{Text};
ghost use Rattle.releases.specs.Kept.{IsMatching};
ghost use Rattle.releases.specs.Matching.{ordinals_of};
ghost use Rattle.releases.specs.Releases.{has_version, is_named, marked, meets_at, published, stamped, versions_of, with_need, AreStamped, IsFound, IsYankedAs};
ghost use Rattle.releases.specs.Rising.{IsHighest};
ghost use Rattle.releases.specs.declared.release.Release.{Release};

use crate::matching::{Matching, keep_set, keep_up, make_room};
use crate::ranked::Ranked;
use crate::release::Release;
use crate::rising::{highest_of, place_of, raise};
use crate::tested::Tested;
use indexmap::IndexSet;
use std::alloc::{AllocError, Global};
use std::marker::Model;
use terms::{GrowingSet, VSet};
use versions::{
    Bounds, Need, Published, equal_precedence_is_an_equivalence, precedence_is_a_total_preorder,
};

/// The releases of a package, in order of publication: the first has the ordinal 0. No two of them
/// have equal precedence.
///
/// Contracts speak of the list of releases, of the requirements that are named, and of the room: how
/// many more releases can come in without memory. It keeps the allocator that it was made with.
//
// What a walk looks at stands at the end, side by side: in a large registry each look is a load from memory.
#[derive(Drop)]
pub struct Releases {
    releases: Vec<Release>,
    needs: IndexSet<Need>,
    bounds: Vec<Bounds>,
    /// Whether none has a pre-release.
    is_plain: bool,
    alloc: Global,
    rising: Vec<u32>,
    sets: Vec<GrowingSet>,
}

impl Model for Releases {
    ghost use Rattle.std.specs.Prelude.{◌-◌, min, vec_capacity, vec_len};
    ghost use Rattle.releases.specs.Kept.{IsKept, Listing, least_room};

    ghost Value = { Listing };

    ghost view = { λ r. record {
      releases = r.releases.items;
      needs = r.needs.keys;
      room = least_room (min (vec_capacity r.releases - vec_len r.releases) (vec_capacity r.rising - vec_len r.rising)) r.sets.items;
    } };

    ghost invariant = { λ r. IsKept r.releases.items r.rising.items r.needs.keys r.sets.items r.bounds.items r.is_plain };
}

impl Releases {
    /// No releases.
    pub fn new(alloc: Global) -> Releases
        ensures releases { result.releases ≡ [] }
        ensures needs { result.needs ≡ [] }
    {
        Releases {
            releases: Vec::new(alloc),
            needs: IndexSet::new(alloc),
            bounds: Vec::new(alloc),
            is_plain: true,
            alloc,
            rising: Vec::new(alloc),
            sets: Vec::new(alloc),
        }
    }

    /// How many releases there are.
    pub fn len(&self) -> usize
        ensures { result ≡ length self.now.releases }
    {
        self.releases.len()
    }

    /// The releases, by their ordinals.
    pub fn as_slice(&self) -> &[Release]
        ensures { result.now ≡ self.now.releases }
    {
        &self.releases
    }

    /// The ordinal of the release of equal precedence. The cost grows with the logarithm of the
    /// number of releases.
    pub fn find(&self, version: &Published) -> Option<u32>
        ensures there { is_some result ≡ has_version (versions_of self.now.releases) version.now }
        ensures found { IfSome result (IsFound (versions_of self.now.releases) version.now) }
        ensures only { IfSome result (λ k. (j : ℕ) → IsFound (versions_of self.now.releases) version.now j → j ≡ k) }
        ensures yanked { IfSome result (IsYankedAs self.now.releases version.now) }
    {
        equal_precedence_is_an_equivalence();
        match place_of(&self.releases, &self.rising, version) {
            Ok(place) => Some(self.rising[place]),
            Err(_) => None,
        }
    }

    /// The ordinals of the releases that meet a requirement: a look-up where its text is named, which
    /// takes no memory, else two bisections or one test a release. Of those that are named the sets of the first are kept.
    pub fn matching(&self, need: &Need) -> Result<Matching<'_>, AllocError>
        ensures members { IfOk result (λ m. (k : ℕ) → has (ordinals_of m) k ≡ meets_at (versions_of self.now.releases) need.now k) }
        ensures known { is_named self.now.needs need.now ≡ true → IsOk result }
    {
        match self.named(need) {
            Some((place, named)) => Ok(self.lent(place, named)),
            None => Ok(Matching::Computed(self.computed(need)?)),
        }
    }

    /// As [`Releases::matching`], of a requirement that may be named at this place. Where it is, no
    /// look-up is made: it costs a comparison of two texts, and takes no memory.
    pub fn matching_at(&self, need: &Need, place: usize) -> Result<Matching<'_>, AllocError>
        ensures members { IfOk result (λ m. (k : ℕ) → has (ordinals_of m) k ≡ meets_at (versions_of self.now.releases) need.now k) }
        ensures known { is_named self.now.needs need.now ≡ true → IsOk result }
    {
        match self.named_at(need, place) {
            Some((at, named)) => Ok(self.lent(at, named)),
            None => Ok(Matching::Computed(self.computed(need)?)),
        }
    }

    /// What meets the requirement that is named at a place, if one is: its set where it is kept, else what is
    /// computed when it is asked for. No text is looked at, and no memory is taken.
    pub fn matching_named(&self, place: usize) -> Option<Matching<'_>>
        ensures { IfSome result (λ m. (need : Text) × (slice_get self.now.needs place ≡ Some need)
            × ((k : ℕ) → has (ordinals_of m) k ≡ meets_at (versions_of self.now.releases) need k)) }
    {
        if place < self.sets.len() {
            return Some(Matching::Known(&self.sets[place]));
        }
        let need = self.needs.get_index(place)?;
        Some(self.lent(place, need))
    }

    /// What meets the requirement that is named at a place: its set where it is kept, else what is computed
    /// when it is asked for. Takes no memory.
    fn lent<'a>(&'a self, place: usize, need: &'a Need) -> Matching<'a>
        requires { slice_get self.now.needs place ≡ Some need.now }
        ensures { (k : ℕ) → has (ordinals_of result) k ≡ meets_at (versions_of self.now.releases) need.now k }
    {
        if place < self.sets.len() {
            return Matching::Known(&self.sets[place]);
        }
        Matching::Tested(Tested::new(self.ranked(), need, &self.bounds[place]))
    }

    /// The releases by their precedence.
    fn ranked(&self) -> Ranked<'_>
        ensures { result ≡ versions_of self.now.releases }
    {
        Ranked::new(&self.releases, &self.rising, self.is_plain)
    }

    /// Of the ordinals below 64 those that meet the requirement which is named at a place, a bit each, if its set
    /// is kept. Takes no memory.
    pub fn low_bits(&self, place: usize) -> Option<u64>
        ensures { IfSome result (λ bits. (need : Text) × (slice_get self.now.needs place ≡ Some need)
            × AreLowBits bits (meets_at (versions_of self.now.releases) need)) }
    {
        if place < self.sets.len() {
            return Some(self.sets[place].low_bits());
        }
        None
    }

    /// The matching set of a requirement, computed for once.
    fn computed(&self, need: &Need) -> Result<GrowingSet, AllocError>
        ensures { IfOk result (λ set. IsMatching (versions_of self.now.releases) need.now set.ordinals) }
    {
        let bounds = Bounds::of(need);
        self.ranked().matching(self.alloc, need, &bounds)
    }

    /// The release of highest precedence in a set. No versions are compared: it costs a look for each
    /// release of higher precedence, and for the one that is found.
    pub fn highest(&self, set: &VSet) -> Option<u32>
        ensures some { IfSome result (IsHighest (λ k b. has set.now k ≡ b) (versions_of self.now.releases)) }
        ensures none { IfNone result ((k : ℕ) → k < length self.now.releases → has set.now k ≡ false) }
    {
        precedence_is_a_total_preorder();
        set.highest(&self.rising)
    }

    /// The release of highest precedence that passes a test of its ordinal, as `highest`.
    pub fn highest_where<F: Fn(u32) -> bool>(&self, passes: F) -> Option<u32>
        requires { (k : ℕ) → k < length self.now.releases → F.pre passes k }
        ensures some { IfSome result (IsHighest (F.post passes) (versions_of self.now.releases)) }
        ensures none { IfNone result ((k : ℕ) → k < length self.now.releases → F.post passes k false) }
    {
        precedence_is_a_total_preorder();
        highest_of(&self.rising, passes)
    }

    /// Makes room for one release more, at the cost of a look at each set that is kept. To every other
    /// call the releases are as they were.
    pub fn reserve(&mut self) -> Result<(), AllocError>
        ensures releases { self.new.releases ≡ self.old.releases }
        ensures needs { self.new.needs ≡ self.old.needs }
        ensures ok { OnOk result (0 < self.new.room) }
        ensures succeeds { 0 < self.old.room → IsOk result }
    {
        self.releases.reserve(1)?;
        self.rising.reserve(1)?;
        make_room(&mut self.sets)
    }

    /// Publishes a version of new precedence, in room that was made: it takes no memory. It costs one
    /// test for each set that is kept, and moves the ordinals of higher precedence up by one place.
    pub fn push(&mut self, version: Published)
        requires room { 0 < self.old.room }
        requires new { has_version (versions_of self.old.releases) version ≡ false }
        requires few { length self.old.releases < 2 ^ 32 }
        ensures releases { self.new.releases ≡ self.old.releases ++ published version ∷ [] }
        ensures needs { self.new.needs ≡ self.old.needs }
    {
        keep_up(
            &self.releases,
            self.needs.as_slice(),
            &self.bounds,
            &mut self.sets,
            &version,
        );
        raise(&self.releases, &mut self.rising, &version);
        self.is_plain = self.is_plain && version.is_plain();
        self.releases
            .push(Release {
                version,
                yanked: false,
            })
            .unwrap();
    }

    /// The equal requirement that is named, so that equal ones can share its text, and its place, for
    /// [`Releases::matching_at`]. A requirement stays at its place.
    pub fn named(&self, need: &Need) -> Option<(usize, &Need)>
        ensures same { IfSome result (λ kept. kept.1.now ≡ need.now) }
        ensures there { is_some result ≡ is_named self.now.needs need.now }
        ensures place { IfSome result (λ kept. slice_get self.now.needs kept.0 ≡ Some need.now) }
    {
        self.needs.get_full(need)
    }

    /// As [`Releases::named`], of a requirement that may be named at this place. Where it is, no look-up is
    /// made: it costs a comparison of two texts.
    pub fn named_at(&self, need: &Need, place: usize) -> Option<(usize, &Need)>
        ensures same { IfSome result (λ kept. kept.1.now ≡ need.now) }
        ensures there { is_some result ≡ is_named self.now.needs need.now }
        ensures place { IfSome result (λ kept. slice_get self.now.needs kept.0 ≡ Some need.now) }
    {
        match self.needs.get_index(place) {
            Some(kept) if *kept == *need => Some((place, kept)),
            _ => self.named(need),
        }
    }

    /// Names a requirement on the package: its matching set is kept from now on, if it is one of the
    /// first. Then that is computed, else it costs a look-up. No answer but the speed of
    /// [`Releases::matching`] shows it, so it can be called ahead of the publication that names it.
    /// Answers the place of the requirement.
    pub fn name_need(&mut self, need: &Need) -> Result<usize, AllocError>
        ensures releases { self.new.releases ≡ self.old.releases }
        ensures ok { OnOk result (self.new.needs ≡ with_need self.old.needs need.now) }
        ensures unchanged { OnErr result (self.new.needs ≡ self.old.needs) }
        ensures place { IfOk result (λ place. slice_get self.new.needs place ≡ Some need.now) }
        ensures succeeds { is_named self.old.needs need.now ≡ true → IsOk result }
    {
        if let Some(place) = self.needs.get_index_of(need) {
            return Ok(place);
        }
        self.needs.reserve(1)?;
        self.bounds.reserve(1)?;
        let named = need.clone()?;
        let bounds = Bounds::of(need);
        let place = self.needs.len();
        let ranked = Ranked::new(&self.releases, &self.rising, self.is_plain);
        keep_set(self.alloc, &ranked, need, &bounds, place, &mut self.sets)?;
        self.needs.insert(named).unwrap();
        self.bounds.push(bounds).unwrap();
        Ok(place)
    }

    /// Yanks a release. Takes no memory.
    pub fn yank(&mut self, ordinal: u32)
        requires { ordinal < length self.old.releases }
        ensures releases { self.new.releases ≡ marked self.old.releases ordinal true }
        ensures stamped { AreStamped self.old.releases ordinal true self.new.releases }
        ensures needs { self.new.needs ≡ self.old.needs }
        ensures room { self.new.room ≡ self.old.room }
    {
        equal_precedence_is_an_equivalence();
        let release = &mut self.releases[ordinal as usize];
        release.yanked = true;
    }

    /// Takes a yank back. Takes no memory.
    pub fn unyank(&mut self, ordinal: u32)
        requires { ordinal < length self.old.releases }
        ensures releases { self.new.releases ≡ marked self.old.releases ordinal false }
        ensures stamped { AreStamped self.old.releases ordinal false self.new.releases }
        ensures needs { self.new.needs ≡ self.old.needs }
        ensures room { self.new.room ≡ self.old.room }
    {
        equal_precedence_is_an_equivalence();
        let release = &mut self.releases[ordinal as usize];
        release.yanked = false;
    }
}
