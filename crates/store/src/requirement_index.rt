//! The requirements on packages that the members of a store rest on, each once.

ghost use Rattle.std.specs.Prelude.{◌≡◌, ◌∷◌, ◌++◌, ℕ, [], false, length, true, IfSome, OnErr};
ghost use Rattle.versions.specs.Words.{Text};
ghost use Rattle.store.specs.Slots.{is_met, kept, unmet, AreFewer, AreThinned};
ghost use Rattle.store.specs.RequirementIndex.{AreDropped, AreHeld, AreListed, CauseRests, HoldsAt, IsHeld, IsWant, IsWhole, KeepsHeld, Rests};

use crate::index::{Index, Link};
use crate::keys::stirred;
use crate::slots::{drop_any, drop_numbered};
use derivations::{Cause, Learnt};
use std::alloc::{AllocError, Global};
use std::marker::Model;
use terms::Pkg;
use versions::{Need, Published};

/// So many links are looked at for a requirement. Where it stands behind them, it is put in once more,
/// and is tested twice; else requirements that share a chain could make each search for one long.
/// Measured at half and at twice this value: docs/BENCHMARKS.md, Constants.
const MOST_STEPS: usize = 256;

/// A requirement on a package.
#[derive(Drop)]
pub struct IndexedRequirement {
    pub target: Pkg,
    pub need: Need,
}

/// The requirements that members rest on, and who rests on each.
///
/// Where there is no memory for one, they are whole no more, until they are begun anew.
#[derive(Drop)]
pub struct RequirementIndex {
    wants: Vec<IndexedRequirement>,
    // under the key of a requirement its place among these
    keys: Index,
    // under a package the places of the requirements on it
    targets: Index,
    // under the place of a requirement the places of the members that rest on it
    members: Index,
}

impl Model for RequirementIndex {
    ghost use Rattle.store.specs.RequirementIndex.{AreListed, Wanted};

    ghost Value = { Wanted };

    ghost view = { λ s. record { wants = s.wants.items; targets = s.targets; members = s.members } };

    ghost invariant = { λ s. AreListed s.wants.items s.targets };
}

impl RequirementIndex {
    /// None, and not begun.
    pub(crate) fn new(alloc: Global) -> RequirementIndex
        ensures { IsWhole result → ⊥ }
    {
        RequirementIndex {
            wants: Vec::new(alloc),
            keys: Index::new(alloc),
            targets: Index::new(alloc),
            members: Index::new(alloc),
        }
    }

    /// Whether they have been begun, and each that was added since is there.
    pub(crate) fn is_whole(&self) -> bool {
        self.keys.is_whole() && self.targets.is_whole() && self.members.is_whole()
    }

    /// Begins them, or begins them anew, without a requirement.
    pub(crate) fn begin(&mut self) -> Result<(), AllocError>
        ensures { OnErr result (IsWhole self.new → ⊥) }
    {
        self.targets.lose();
        self.wants.clear();
        self.keys.begin()?;
        self.members.begin()?;
        self.targets.begin()
    }

    /// Lets go of all. Takes no memory.
    pub(crate) fn clear(&mut self) {
        self.wants.clear();
        self.keys.clear();
        self.targets.clear();
        self.members.clear();
    }

    /// Makes room for so many more.
    pub(crate) fn reserve(&mut self, more: usize) -> Result<(), AllocError>
        ensures { self.new ≡ self.old }
    {
        self.wants.reserve(more)?;
        self.keys.reserve(more)?;
        self.targets.reserve(more)?;
        self.members.reserve(more)
    }

    /// Adds the place of a member that rests on this requirement. Where there is room, it takes no
    /// memory.
    pub(crate) fn add(&mut self, member: usize, target: Pkg, need: &Need)
        ensures keeps { KeepsHeld self.old self.new }
        ensures there { IsWhole self.new → IsHeld self.new member target need.now }
    {
        let place = self.place_of(target, need);
        self.members.add(place as u64, member);
    }

    /// A place in which the requirement stands: it is put there, unless it is found.
    fn place_of(&mut self, target: Pkg, need: &Need) -> usize
        ensures keeps { KeepsHeld self.old self.new }
        ensures there { self.new.targets.whole ≡ true → IsWant self.new.wants result target need.now }
    {
        let key = want_key(target, need);
        if let Some(place) = find(&self.wants, &self.keys, key, target, need) {
            return place;
        }
        self.push(key, target, need)
    }

    /// Puts a requirement into the next place.
    fn push(&mut self, key: u64, target: Pkg, need: &Need) -> usize
        ensures keeps { KeepsHeld self.old self.new }
        ensures there { self.new.targets.whole ≡ true → IsWant self.new.wants result target need.now }
    {
        let place = self.wants.len();
        if push_want(&mut self.wants, target, need) {
            self.keys.add(key, place);
            self.targets.add(u64::from(target), place);
        } else {
            self.targets.lose();
        }
        place
    }

    /// Lets each member go that rests on a requirement on this package which the version meets. It is
    /// told how many members there are, and answers how many are left.
    pub(crate) fn drop_met(
        &self,
        slots: &mut [Option<Learnt>],
        count: usize,
        pkg: Pkg,
        version: &Published,
    ) -> usize
        requires count { count ≡ length (kept slots.old) }
        requires held { AreHeld self.now slots.old }
        ensures kept { kept slots.new ≡ unmet pkg version.now (kept slots.old) }
        ensures count { result ≡ length (kept slots.new) }
        ensures fewer { AreFewer slots.old slots.new }
    {
        if self.targets.is_whole() && self.members.is_whole() {
            drop_found(
                slots,
                count,
                &self.wants,
                &self.targets,
                &self.members,
                pkg,
                version,
            )
        } else {
            drop_any(slots, count, pkg, version)
        }
    }
}

// ---- where a requirement stands

/// A number that equal requirements on a package share, and others seldom.
fn want_key(target: Pkg, need: &Need) -> u64 {
    let mut key = stirred(0, target);
    for byte in need.text().as_bytes() {
        key = stirred(key, u32::from(*byte));
    }
    key
}

/// Whether the requirement stands in this place.
fn is_want(wants: &[IndexedRequirement], place: usize, target: Pkg, need: &Need) -> bool
    ensures { result ≡ true → IsWant wants.now place target need.now }
{
    match wants.get(place) {
        Some(want) => want.target == target && want.need == *need,
        None => false,
    }
}

/// A place in which the requirement stands, if it is found under its key.
fn find(
    wants: &[IndexedRequirement],
    keys: &Index,
    key: u64,
    target: Pkg,
    need: &Need,
) -> Option<usize>
    ensures { IfSome result (λ place. IsWant wants.now place target need.now) }
{
    let mut at = keys.first(key);
    for _ in 0..MOST_STEPS {
        let link = keys.link(at)?;
        let place = link.place as usize;
        if link.number == key && is_want(wants, place, target, need) {
            return Some(place);
        }
        at = link.before;
    }
    None
}

/// Puts a requirement at the end. Where it answers no, there was no memory for it.
fn push_want(wants: &mut Vec<IndexedRequirement>, target: Pkg, need: &Need) -> bool
    ensures pushed { result ≡ true → wants.new.items ≡ wants.old.items ++ (record { target = target; need = need.now }) ∷ [] }
    ensures unchanged { result ≡ false → wants.new.items ≡ wants.old.items }
{
    let Ok(need) = need.clone() else {
        return false;
    };
    wants.push(IndexedRequirement { target, need }).is_ok()
}

// ---- who goes

/// Lets each member go that rests on the requirement to which a link leads, if it is one on the package
/// that the version meets.
fn drop_linked(
    slots: &mut [Option<Learnt>],
    count: usize,
    wants: &[IndexedRequirement],
    members: &Index,
    link: Link,
    pkg: Pkg,
    version: &Published,
) -> usize
    requires count { count ≡ length (kept slots.old) }
    requires whole { members.now.whole ≡ true }
    ensures thinned { AreThinned (is_met pkg version.now) slots.old slots.new }
    ensures dropped { link.number ≡ pkg → AreDropped wants.now members.now.links link.place pkg version.now slots.new }
    ensures count { result ≡ length (kept slots.new) }
{
    if link.number != u64::from(pkg) {
        return count;
    }
    match wants.get(link.place as usize) {
        Some(want) if want.need.admits(version) => {
            drop_numbered(slots, count, members, u64::from(link.place), pkg, version)
        }
        _ => count,
    }
}

/// Lets each member go that is met: each requirement on the package is tested once, and those members
/// alone are asked that rest on one which the version meets.
fn drop_found(
    slots: &mut [Option<Learnt>],
    count: usize,
    wants: &[IndexedRequirement],
    targets: &Index,
    members: &Index,
    pkg: Pkg,
    version: &Published,
) -> usize
    requires count { count ≡ length (kept slots.old) }
    requires whole { (targets.now.whole ≡ true) × (members.now.whole ≡ true) }
    requires held { AreHeld (record { wants = wants.now; targets = targets.now; members = members.now }) slots.old }
    ensures kept { kept slots.new ≡ unmet pkg version.now (kept slots.old) }
    ensures count { result ≡ length (kept slots.new) }
    ensures fewer { AreFewer slots.old slots.new }
{
    let mut left = count;
    let mut at = targets.first(u64::from(pkg));
    'walk: while let Some(link) = targets.link(at) {
        left = drop_linked(slots, left, wants, members, link, pkg, version);
        at = link.before;
    }
    left
}

// ---- what members rest on

/// Adds a member under the requirement of a premise, where the cause is one.
fn add_cause(wants: &mut RequirementIndex, member: usize, cause: &Cause)
    ensures keeps { KeepsHeld wants.old wants.new }
    ensures there { IsWhole wants.new → (target : ℕ) (need : Text) → CauseRests cause.now target need → IsHeld wants.new member target need }
{
    match cause {
        Cause::Premise(premise) => wants.add(member, premise.target, &premise.need),
        Cause::Line(_) | Cause::Need(_) | Cause::NotAllowed(_, _) | Cause::Root => {}
    }
}

/// Adds a member under each requirement that it rests on.
pub fn add_rests(wants: &mut RequirementIndex, member: usize, learnt: &Learnt)
    ensures keeps { KeepsHeld wants.old wants.new }
    ensures there { IsWhole wants.new → (target : ℕ) (need : Text) → Rests learnt.now target need → IsHeld wants.new member target need }
{
    let mut left = learnt.lines();
    'add: while let [line, rest @ ..] = left {
        add_cause(wants, member, &line.causes.0);
        add_cause(wants, member, &line.causes.1);
        left = rest;
    }
}

/// Adds the place of a slot under what its member rests on.
fn add_slot_rests(wants: &mut RequirementIndex, place: usize, slot: &Option<Learnt>)
    ensures keeps { KeepsHeld wants.old wants.new }
    ensures there { IsWhole wants.new → IfSome slot.now (HoldsAt wants.new place) }
{
    if let Some(member) = slot {
        add_rests(wants, place, member);
    }
}

/// Adds the places of all members under what they rest on.
pub fn add_all_rests(wants: &mut RequirementIndex, slots: &[Option<Learnt>])
    ensures { AreHeld wants.new slots.now }
{
    for place in 0..slots.len() {
        add_slot_rests(wants, place, &slots[place]);
    }
}
