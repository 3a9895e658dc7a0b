//! The store of what was learnt.

ghost use Rattle.std.specs.Prelude.{◌≡◌, ◌<◌, ◌⊎◌, ◌++◌, ◌∷◌, [], None, Some, All, Contains, length, IfErr, IfOk, IfSome, IsOk, OnErr, OnOk};
ghost use Rattle.std.specs.Option.{option_copied};
ghost use Rattle.versions.specs.Words.{Text};
ghost use Rattle.registry.specs.Commands.{change_of};
ghost use Rattle.registry.specs.Registry.{Packages};
ghost use Rattle.registry.specs.Step.{after, refusal_of};
ghost use Rattle.derivations.specs.Learning.{AllStand};
ghost use Rattle.store.specs.Slots.{unmet};
ghost use Rattle.store.specs.Stored.{has_conclusion, last_meets, learn_refusal, meets_some, published, stored_after};

use crate::index::Index;
use crate::laws::{commands_keep, learning_keeps};
use crate::members::{Members, members_in};
use crate::requirement_index::{RequirementIndex, add_all_rests, add_rests};
use crate::slots::{add_all_names, add_key, add_keys, add_names, has_concluded, member_at};
use derivations::{DERIVATION_LINE_LIMIT, Learnt};
use registry::{Command, Registry, matching_is_what_meets};
use std::alloc::{AllocError, Global};
use std::marker::Model;
use terms::{Incompat, Pkg};
use versions::{Published, Refusal};

/// The most members of a store.
pub const STORE_LIMIT: usize = 4_096;

/// So many places may be empty, and as many as there are members.
/// Measured at half and at twice this value: docs/BENCHMARKS.md, Constants.
const MOST_EMPTY: usize = 256;

/// The most requirements that lines rest on.
const MOST_RESTS: usize = 2 * DERIVATION_LINE_LIMIT;

/// The most packages that a conclusion names.
const MOST_PACKAGES_NAMED: usize = 4 * DERIVATION_LINE_LIMIT;

/// What was learnt, in order of learning.
///
/// A member stands in its place until it goes, and leaves the place empty; from time to time the empty
/// places go too. Members are found by what they conclude, by the requirements that they rest on, and by
/// the packages that their conclusions name, each in an index.
#[derive(Drop)]
pub struct Store {
    slots: Vec<Option<Learnt>>,
    // how many of them are members
    count: usize,
    keys: Index,
    wants: RequirementIndex,
    naming: Index,
}

impl Model for Store {
    ghost use Rattle.std.specs.Prelude.{◌-◌, vec_capacity, vec_len};
    ghost use Rattle.store.specs.Slots.{kept};
    ghost use Rattle.store.specs.Stored.{Stored};
    ghost use Rattle.store.specs.RequirementIndex.{IsStore};

    ghost Value = { Stored };

    ghost view = { λ s. record { members = kept s.slots.items; room = vec_capacity s.slots - vec_len s.slots } };

    ghost invariant = { λ s. IsStore s.count s.slots.items s.keys s.wants };
}

impl Store {
    /// The empty store, which takes no memory.
    pub fn new(alloc: Global) -> Store
        ensures { result.members ≡ [] }
    {
        Store {
            slots: Vec::new(alloc),
            count: 0,
            keys: Index::new(alloc),
            wants: RequirementIndex::new(alloc),
            naming: Index::new(alloc),
        }
    }

    /// The members, in order of learning.
    pub fn members(&self) -> Members<'_>
        ensures { result ≡ self.now.members }
    {
        members_in(&self.slots)
    }

    /// How many members there are.
    pub fn len(&self) -> usize
        ensures { result ≡ length self.now.members }
    {
        self.count
    }

    /// The member in this place, if one stands there.
    pub fn member(&self, place: u32) -> Option<&Learnt>
        ensures { IfSome result (λ member. Contains self.now.members member.now) }
    {
        member_at(&self.slots, place as usize)
    }

    /// For each package the places of the members whose conclusions name it. A place may be empty, and
    /// where there was no memory for it a member may not be found.
    pub fn naming(&self) -> &Index {
        &self.naming
    }

    /// Whether a member concludes this. It asks those alone that are found under the conclusion's key.
    pub fn has(&self, conclusion: &Incompat) -> bool
        ensures { result ≡ has_conclusion self.now.members conclusion.now }
    {
        has_concluded(&self.slots, &self.keys, conclusion)
    }

    /// Whether something is learnt that is offered, or the lowest refusal that applies: a premise does
    /// not stand in the registry, its conclusion is stored, or the store is full. Takes no memory.
    pub fn check(&self, registry: &Registry, learnt: &Learnt) -> Result<(), Refusal>
        ensures accepted { OnOk result (learn_refusal registry.now.packages self.now.members learnt.now ≡ None) }
        ensures refused { IfErr result (λ e. learn_refusal registry.now.packages self.now.members learnt.now ≡ Some e) }
    {
        matching_is_what_meets();
        if !learnt.stands(registry) {
            return Err(Refusal::Stale);
        }
        if self.has(learnt.conclusion()) {
            return Err(Refusal::Known);
        }
        if self.count >= STORE_LIMIT {
            return Err(Refusal::StoreFull);
        }
        Ok(())
    }

    /// Makes room for one more member. To every other call the store is as it was. The only error is
    /// [`Refusal::NoMemory`].
    pub fn reserve(&mut self) -> Result<(), Refusal>
        ensures members { self.new.members ≡ self.old.members }
        ensures room { OnOk result (0 < self.new.room) }
        ensures only { IfErr result (λ e. e ≡ Refusal.NoMemory) }
    {
        self.slots.reserve(1)?;
        self.begin_indexes()?;
        self.keys.reserve(1)?;
        self.wants.reserve(MOST_RESTS)?;
        self.naming.reserve(MOST_PACKAGES_NAMED)?;
        Ok(())
    }

    /// Begins the indexes that are not whole.
    fn begin_indexes(&mut self) -> Result<(), AllocError>
        ensures { self.new ≡ self.old }
    {
        if !self.keys.is_whole() {
            self.keys.begin()?;
            add_keys(&mut self.keys, &self.slots);
        }
        if !self.wants.is_whole() {
            self.wants.begin()?;
            add_all_rests(&mut self.wants, &self.slots);
        }
        if !self.naming.is_whole() {
            self.naming.begin()?;
            add_all_names(&mut self.naming, &self.slots);
        }
        Ok(())
    }

    /// Adds a member, unless `check` refuses it. Where there is room, it takes no memory.
    pub fn learn(&mut self, registry: &Registry, learnt: Learnt) -> Result<(), Refusal>
        ensures accepted { OnOk result (learn_refusal registry.now.packages self.old.members learnt ≡ None) }
        ensures learnt { OnOk result (self.new.members ≡ self.old.members ++ learnt ∷ []) }
        ensures refused { IfErr result (λ e. (learn_refusal registry.now.packages self.old.members learnt ≡ Some e) ⊎ (e ≡ Refusal.NoMemory)) }
        ensures numbered { 0 < self.old.room → IfErr result (λ e. learn_refusal registry.now.packages self.old.members learnt ≡ Some e) }
        ensures unchanged { OnErr result (self.new.members ≡ self.old.members) }
        ensures succeeds { learn_refusal registry.now.packages self.old.members learnt ≡ None → 0 < self.old.room → IsOk result }
        ensures stand { All (AllStand registry.now.packages) self.old.members → All (AllStand registry.now.packages) self.new.members }
    {
        learning_keeps();
        self.add(registry, learnt)
    }

    fn add(&mut self, registry: &Registry, learnt: Learnt) -> Result<(), Refusal>
        ensures accepted { OnOk result (learn_refusal registry.now.packages self.old.members learnt ≡ None) }
        ensures learnt { OnOk result (self.new.members ≡ self.old.members ++ learnt ∷ []) }
        ensures refused { IfErr result (λ e. (learn_refusal registry.now.packages self.old.members learnt ≡ Some e) ⊎ (e ≡ Refusal.NoMemory)) }
        ensures numbered { 0 < self.old.room → IfErr result (λ e. learn_refusal registry.now.packages self.old.members learnt ≡ Some e) }
        ensures unchanged { OnErr result (self.new.members ≡ self.old.members) }
        ensures succeeds { learn_refusal registry.now.packages self.old.members learnt ≡ None → 0 < self.old.room → IsOk result }
    {
        if let Err(refusal) = self.check(registry, &learnt) {
            drop(learnt);
            return Err(refusal);
        }
        if self.slots.len() == self.slots.capacity() {
            if let Err(refusal) = self.reserve() {
                drop(learnt);
                return Err(refusal);
            }
        }
        Ok(self.push(learnt)?)
    }

    /// Puts a member into the next place.
    fn push(&mut self, learnt: Learnt) -> Result<(), AllocError>
        ensures learnt { OnOk result (self.new.members ≡ self.old.members ++ learnt ∷ []) }
        ensures unchanged { OnErr result (self.new.members ≡ self.old.members) }
        ensures succeeds { 0 < self.old.room → IsOk result }
    {
        let place = self.slots.len();
        add_key(&mut self.keys, place, &learnt);
        add_rests(&mut self.wants, place, &learnt);
        add_names(&mut self.naming, place, &learnt);
        self.slots.push(Some(learnt))?;
        self.count += 1;
        Ok(())
    }

    /// Drops what an accepted publication of a package may have ended: each member that has a premise
    /// with this target whose requirement the package's last version meets. The registry has that
    /// version already. Takes no memory. Each requirement on the package is tested once, and those
    /// members alone are asked that rest on one which is met.
    pub fn published(&mut self, registry: &Registry, pkg: Pkg)
        ensures { self.new.members ≡ published registry.now.packages pkg self.old.members }
    {
        let Some(version) = last_version(registry, pkg) else {
            return;
        };
        self.drop_met(pkg, version);
        self.tidy_if_empty();
    }

    /// What an accepted command does to the store, once the registry has carried it out: a publication
    /// drops what it may have ended, a yank or its undoing nothing. Takes no memory.
    pub fn follow(&mut self, registry: &Registry, command: &Command)
        ensures members { self.new.members ≡ stored_after registry.now.packages (change_of command.now) self.old.members }
        ensures stand { (packages : Packages) → refusal_of packages (change_of command.now) ≡ None
            → registry.now.packages ≡ after packages (change_of command.now)
            → All (AllStand packages) self.old.members → All (AllStand registry.now.packages) self.new.members }
    {
        commands_keep();
        self.drop_ended(registry, command);
    }

    #[tactic(auto, unfolding(crate::specs::Stored::stored_after))]
    fn drop_ended(&mut self, registry: &Registry, command: &Command)
        ensures { self.new.members ≡ stored_after registry.now.packages (change_of command.now) self.old.members }
    {
        if let Command::Publish(name, _, _) = command {
            if let Some(pkg) = registry.number(name) {
                self.published(registry, pkg);
            }
        }
    }

    /// Drops each member that has a premise with this target whose requirement the version meets.
    fn drop_met(&mut self, pkg: Pkg, version: &Published)
        ensures { self.new.members ≡ unmet pkg version.now self.old.members }
    {
        self.count = self
            .wants
            .drop_met(&mut self.slots, self.count, pkg, version);
    }

    /// Lets the empty places go where they are many.
    fn tidy_if_empty(&mut self)
        ensures { self.new.members ≡ self.old.members }
    {
        let empty = self.slots.len() - self.count;
        if empty > MOST_EMPTY && empty > self.count {
            self.tidy();
        }
    }

    /// Lets the empty places go, and adds the others to the indexes anew. Takes no memory.
    fn tidy(&mut self)
        ensures { self.new.members ≡ self.old.members }
    {
        self.slots.retain(|slot| slot.is_some());
        self.keys.clear();
        self.wants.clear();
        self.naming.clear();
        add_keys(&mut self.keys, &self.slots);
        add_all_rests(&mut self.wants, &self.slots);
        add_all_names(&mut self.naming, &self.slots);
    }
}

/// The version that a package published last.
fn last_version(registry: &Registry, pkg: Pkg) -> Option<&Published>
    ensures { (need : Text) → last_meets registry.now.packages pkg need ≡ meets_some (option_copied result) need }
{
    let last = registry.version_count(pkg).saturating_sub(1);
    Some(registry.facts_at(pkg, last)?.version)
}
