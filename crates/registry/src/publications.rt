//! The publications of one package.

ghost use Rattle.std.specs.Prelude.{◌≡◌, ◌↔◌, ◌⊎◌, ◌<◌, ◌≤◌, ◌+◌, ◌∷◌, ◌++◌, [], List, ℕ, false, get_or, length, slice_get, slice_range, None, Some, IfErr, IfNone, IfOk, IfSome, IsOk, IsTrue, OnOk, is_some, true, vec_capacity, vec_len};
ghost use Rattle.std.specs.Option.{option_copied};
ghost use Rattle.releases.specs.Matching.{ordinals_of};
ghost use Rattle.terms.specs.Sets.{has};
ghost use Rattle.terms.specs.Words.{AreLowBits};
ghost use Rattle.versions.specs.Words.{Text};
ghost use Rattle.registry.specs.declared.registry.TheConstants.{VERSION_LIMIT};
ghost use Rattle.registry.specs.Highest.{IsHighest};
ghost use Rattle.registry.specs.Places.{ArePlaced, ArePlacesOf, IsGrown};
ghost use Rattle.registry.specs.Publications.{any_yanked, publications_in, AreSame, EndsWith};
ghost use Rattle.registry.specs.declared.place.Place.{Place};
ghost use Rattle.registry.specs.Registry.{has_version, has_yank, needs_or_none, publication_equals, publication_meets};
ghost use Rattle.registry.specs.Step.{set_yanked, unyank_refusal, yank_of, yank_refusal};

use crate::dependencies::{Dependencies, are_same};
use crate::place::Place;
use crate::span::{Span, next_span, part_of};
use releases::{Matching, Release, Releases};
use std::alloc::{AllocError, Global};
use std::marker::Model;
use terms::VSet;
use versions::{Need, Published, Refusal};

/// A list with fewer entries has no more room than it needs: most packages of a large registry have few versions. The
/// value was not tuned.
const SHORT: usize = 8;

/// The publications of a package, in order: its releases, and beside each what it depends on.
//
// What a walk looks at stands side by side, from the end of the releases on: in a large registry each look is a load from
// memory.
#[derive(Drop)]
pub struct Publications {
    needs: Vec<Dependencies>,
    /// Whether each publication needs what the one before it does.
    repeats: Vec<bool>,
    releases: Releases,
    /// Where the names and the requirements of them stand in the registry: those of one that needs what the one before it
    /// does are kept once.
    places: Vec<Place>,
    /// Where the places of each begin and end, and how many needs it has.
    spans: Vec<Span>,
    /// Whether all of them need the same.
    is_alike: bool,
    /// Whether one of them is yanked.
    yanks: bool,
}

impl Model for Publications {
    ghost use Rattle.std.specs.Prelude.{◌≡◌, ◌↔◌, ◌-◌, length, min, vec_capacity, vec_len, IsTrue};
    ghost use Rattle.registry.specs.Publications.{PublicationList, parts_of, publications_of, any_yanked, AreAlike, AreCounted, AreSame, EndWithin};

    ghost Value = { PublicationList };

    ghost view = { λ p. record {
      publications = publications_of p.releases.releases p.needs.items;
      named = p.releases.needs;
      places = parts_of p.places.items p.spans.items;
      room = min (min p.releases.room (vec_capacity p.spans - vec_len p.spans))
          (min (vec_capacity p.needs - vec_len p.needs) (vec_capacity p.repeats - vec_len p.repeats));
    } };

    ghost invariant = { λ p.
        (length p.needs.items ≡ length p.releases.releases)
        × AreAlike p.repeats.items p.needs.items
        × (p.yanks ≡ any_yanked p.releases.releases)
        × (length p.spans.items ≡ length p.needs.items)
        × EndWithin (length p.places.items) p.spans.items
        × AreCounted p.spans.items p.needs.items
        × (IsTrue p.is_alike ↔ AreSame p.needs.items) };
}

impl Publications {
    /// No publications.
    pub fn new(alloc: Global) -> Publications
        ensures { result.publications ≡ [] }
    {
        Publications {
            needs: Vec::new(alloc),
            repeats: Vec::new(alloc),
            releases: Releases::new(alloc),
            places: Vec::new(alloc),
            spans: Vec::new(alloc),
            is_alike: true,
            yanks: false,
        }
    }

    /// How many there are.
    pub fn len(&self) -> usize
        ensures { result ≡ length self.now.publications }
    {
        self.spans.len()
    }

    /// The release with this ordinal, and what it depends on.
    pub fn at(&self, ordinal: u32) -> (&Release, &Dependencies)
        requires { ordinal < length self.now.publications }
        ensures { slice_get self.now.publications ordinal ≡ Some (record {
          version = result.0.now.version;
          needs = result.1.now;
          yanked = result.0.now.yanked;
        }) }
    {
        let place = ordinal as usize;
        (&self.releases.as_slice()[place], &self.needs[place])
    }

    /// Beside each, whether it needs what the one before it does.
    pub fn repeats(&self) -> &[bool]
        ensures length { length result.now ≡ length self.now.publications }
        ensures marks { (k : ℕ) → slice_get result.now k ≡ Some true ↔ ((k < length self.now.publications) × (j : ℕ) × (j + 1 ≡ k)
            × (needs_or_none (slice_get self.now.publications k) ≡ needs_or_none (slice_get self.now.publications j))) }
    {
        &self.repeats
    }

    /// Whether all of them need the same.
    pub fn is_alike(&self) -> bool
        ensures { IsTrue result ↔ ((k j : ℕ) → j + 1 ≡ k → k < length self.now.publications
            → needs_or_none (slice_get self.now.publications k) ≡ needs_or_none (slice_get self.now.publications j)) }
    {
        self.is_alike
    }

    /// How many needs the one with this ordinal has; none where it is not published.
    pub fn needs_count(&self, ordinal: u32) -> usize
        ensures { result ≡ length (needs_or_none (slice_get self.now.publications ordinal)) }
    {
        match self.spans.get(ordinal as usize) {
            None => 0,
            Some(span) => span.needs,
        }
    }

    /// Whether one of them is yanked.
    pub fn has_yanks(&self) -> bool
        ensures { result ≡ has_yank self.now.publications }
    {
        self.yanks
    }

    /// Whether there is one of equal precedence.
    pub fn has_version(&self, version: &Published) -> bool
        ensures { result ≡ has_version self.now.publications version.now }
    {
        self.releases.find(version).is_some()
    }

    /// The ordinal of the one of equal precedence.
    pub fn find(&self, version: &Published) -> Option<u32>
        ensures there { is_some result ≡ has_version self.now.publications version.now }
        ensures found { IfSome result (λ k. publication_equals (slice_get self.now.publications k) version.now ≡ true) }
    {
        self.releases.find(version)
    }

    /// Whether the one of equal precedence is yanked, if there is one.
    pub fn yank_of(&self, version: &Published) -> Option<bool>
        ensures { result ≡ yank_of self.now.publications version.now }
    {
        let ordinal = self.releases.find(version)?;
        Some(self.releases.as_slice()[ordinal as usize].yanked)
    }

    /// The ordinals of those that meet a requirement: the kept set or the test where its text is named,
    /// else a set that is computed.
    pub fn matching(&self, need: &Need) -> Result<Matching<'_>, AllocError>
        ensures { IfOk result (λ set. (k : ℕ) → has (ordinals_of set) k ≡ publication_meets (slice_get self.now.publications k) need.now) }
    {
        self.releases.matching(need)
    }

    /// As [`Releases::matching_named`].
    pub fn matching_named(&self, place: usize) -> Option<Matching<'_>>
        ensures { IfSome result (λ set. (need : Text) × (slice_get self.now.named place ≡ Some need)
            × ((k : ℕ) → has (ordinals_of set) k ≡ publication_meets (slice_get self.now.publications k) need)) }
    {
        self.releases.matching_named(place)
    }

    /// The one of highest precedence in a set.
    pub fn highest(&self, set: &VSet) -> Option<u32>
        ensures some { IfSome result (IsHighest (λ k b. has set.now k ≡ b) self.now.publications) }
        ensures none { IfNone result ((k : ℕ) → k < length self.now.publications → has set.now k ≡ false) }
    {
        self.releases.highest(set)
    }

    /// The one of highest precedence that passes a test of its ordinal.
    pub fn highest_where<F: Fn(u32) -> bool>(&self, passes: F) -> Option<u32>
        requires { (k : ℕ) → k < length self.now.publications → F.pre passes k }
        ensures some { IfSome result (IsHighest (F.post passes) self.now.publications) }
        ensures none { IfNone result ((k : ℕ) → k < length self.now.publications → F.post passes k false) }
    {
        self.releases.highest_where(passes)
    }

    /// The equal requirement that is named, where there is one, and its place. No look-up is made where it
    /// is named at this place.
    pub fn named_at(&self, need: &Need, place: usize) -> Option<(usize, &Need)>
        ensures { IfSome result (λ kept. kept.1.now ≡ need.now) }
    {
        self.releases.named_at(need, place)
    }

    /// Whether this requirement is named at a place.
    pub fn names_at(&self, need: &Need, place: usize) -> bool
        ensures { IsTrue result → slice_get self.now.named place ≡ Some need.now }
    {
        match self.releases.named_at(need, place) {
            Some((at, _)) => at == place,
            None => false,
        }
    }

    /// The place of the last one's need at an index; nowhere where there is none. The next one's is mostly on
    /// the same package, and often the same.
    pub fn last_place(&self, index: usize) -> Place {
        let last = self.spans.len().saturating_sub(1);
        match self.part(last).get(index) {
            Some(place) => *place,
            None => Place::nowhere(),
        }
    }

    /// The places that are kept beside one; nothing where it is not published.
    pub fn places(&self, ordinal: u32) -> &[Place]
        ensures kept { result.now ≡ get_or self.now.places ordinal [] }
        ensures past { length self.now.publications ≤ ordinal → result.now ≡ [] }
    {
        self.part(ordinal as usize)
    }

    /// The places that are kept beside the one at an index; nothing where there is none.
    fn part(&self, index: usize) -> &[Place]
        ensures kept { result.now ≡ get_or self.now.places index [] }
        ensures past { length self.now.publications ≤ index → result.now ≡ [] }
    {
        if index >= self.spans.len() {
            return &[];
        }
        part_of(&self.places, self.spans[index])
    }

    /// As [`Releases::low_bits`].
    pub fn low_bits(&self, place: usize) -> Option<u64>
        ensures { IfSome result (λ bits. (need : Text) × (slice_get self.now.named place ≡ Some need)
            × AreLowBits bits (λ k. publication_meets (slice_get self.now.publications k) need)) }
    {
        self.releases.low_bits(place)
    }

    /// Names a requirement, whose matching set is kept from now on if it is one of the first, and answers the
    /// requirement's place.
    pub fn name_need(&mut self, need: &Need) -> Result<usize, AllocError>
        ensures publications { self.new.publications ≡ self.old.publications }
        ensures grown { IsGrown self.old self.new }
    {
        self.releases.name_need(need)
    }

    /// Makes room for one more with so many places.
    pub fn reserve(&mut self, places: usize) -> Result<(), AllocError>
        ensures same { self.new.publications ≡ self.old.publications }
        ensures grown { IsGrown self.old self.new }
        ensures ok { OnOk result (0 < self.new.room) }
    {
        make_room(&mut self.needs, 1)?;
        make_room(&mut self.repeats, 1)?;
        make_room(&mut self.places, places)?;
        make_room(&mut self.spans, 1)?;
        self.releases.reserve()
    }

    /// Publishes a version of new precedence, in room that was made. These are the places of its needs.
    pub fn push(&mut self, version: Published, needs: Dependencies, places: &[Place])
        requires room { 0 < self.old.room }
        requires new { has_version self.old.publications version ≡ false }
        requires few { length self.old.publications < VERSION_LIMIT }
        ensures publications { self.new.publications ≡ self.old.publications ++ (record { version = version; needs = needs; yanked = false }) ∷ [] }
        ensures named { self.new.named ≡ self.old.named }
        ensures placed { (names : List Text) (named : List (List Text)) → ArePlacesOf names named needs places.now
            → ArePlaced names named self.old → ArePlaced names named self.new }
    {
        let repeats = end_with(&self.needs, &needs);
        let count = needs.needs().len();
        let span = next_span(&mut self.places, &self.spans, repeats, places, count);
        self.is_alike = stay_alike(self.is_alike, &self.needs, repeats);
        self.repeats.push(repeats).unwrap();
        self.spans.push(span).unwrap();
        self.releases.push(version);
        self.needs.push(needs).unwrap();
    }

    /// Marks the one of equal precedence as yanked or not, if there is one. Where a yank is undone, it
    /// looks at each whether it is yanked.
    pub fn set_yanked(&mut self, version: &Published, yanked: bool)
        ensures publications { self.new.publications ≡ set_yanked version.now yanked self.old.publications }
        ensures grown { IsGrown self.old self.new }
    {
        let Some(ordinal) = self.releases.find(version) else {
            return;
        };
        if yanked {
            self.releases.yank(ordinal);
            self.yanks = true;
        } else {
            self.releases.unyank(ordinal);
            self.yanks = any_yanked(self.releases.as_slice());
        }
    }
}

/// Makes room for more entries: no more than these in a short list, of which there are many.
fn make_room<T>(list: &mut Vec<T>, more: usize) -> Result<(), AllocError>
    ensures items { list.new.items ≡ list.old.items }
    ensures len { vec_len list.new ≡ vec_len list.old }
    ensures ok { OnOk result (vec_len list.new + more ≤ vec_capacity list.new) }
{
    if list.len() < SHORT {
        list.reserve_exact(more)
    } else {
        list.reserve(more)
    }
}

/// Whether the last of these needs are the same as others.
fn end_with(needs: &[Dependencies], next: &Dependencies) -> bool
    ensures { IsTrue result ↔ EndsWith needs.now next.now }
{
    match needs {
        [] => false,
        [.., last] => are_same(last.needs(), next.needs()),
    }
}

/// Whether these needs and the next ones are all the same, where it is known whether these are, and whether the last of
/// them are the same as the next ones.
fn stay_alike(are_alike: bool, needs: &[Dependencies], repeats: bool) -> bool
    ensures { (next : List (Text × Text)) → IsTrue are_alike ↔ AreSame needs.now → IsTrue repeats ↔ EndsWith needs.now next
        → IsTrue result ↔ AreSame (needs.now ++ next ∷ []) }
{
    are_alike && (repeats || needs.is_empty())
}

/// Whether one of the releases is yanked.
fn any_yanked(releases: &[Release]) -> bool
    ensures { result ≡ any_yanked releases.now }
{
    releases.iter().any(|release| release.yanked)
}

/// Whether there is a publication of equal precedence.
pub fn has_version(publications: Option<&Publications>, version: &Published) -> bool
    ensures { result ≡ has_version (publications_in (option_copied publications.entry)) version.now }
{
    match publications {
        None => false,
        Some(publications) => publications.has_version(version),
    }
}

/// How many publications there are.
pub fn count(publications: Option<&Publications>) -> usize
    ensures { result ≡ length (publications_in (option_copied publications.entry)) }
{
    match publications {
        None => 0,
        Some(publications) => publications.len(),
    }
}

/// Whether a version can be yanked, by whether the one of equal precedence is: [`Refusal::NoSuchVersion`] if there is none,
/// [`Refusal::AlreadyYanked`] if it is.
pub fn check_yank(yank: Option<bool>) -> Result<(), Refusal>
    ensures accepted { OnOk result (yank_refusal yank ≡ None) }
    ensures refused { IfErr result (λ e. yank_refusal yank ≡ Some e) }
{
    match yank {
        None => Err(Refusal::NoSuchVersion),
        Some(true) => Err(Refusal::AlreadyYanked),
        Some(false) => Ok(()),
    }
}

/// Whether the yank of a version can be undone: [`Refusal::NoSuchVersion`] if there is none, [`Refusal::NotYanked`] if it
/// is not yanked.
pub fn check_unyank(yank: Option<bool>) -> Result<(), Refusal>
    ensures accepted { OnOk result (unyank_refusal yank ≡ None) }
    ensures refused { IfErr result (λ e. unyank_refusal yank ≡ Some e) }
{
    match yank {
        None => Err(Refusal::NoSuchVersion),
        Some(true) => Ok(()),
        Some(false) => Err(Refusal::NotYanked),
    }
}
