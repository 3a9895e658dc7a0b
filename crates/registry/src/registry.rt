//! The registry.

ghost use Rattle.std.specs.Prelude.{◌≡◌, ◌↔◌, ◌<◌, ◌≤◌, ◌+◌, ◌^◌, [], ℕ, false, length, nat_lt, None, Some, IfErr, IfNone, IfOk, IfSome, IsOk, IsTrue, OnErr, OnOk, is_some, slice_get, true};
ghost use Rattle.std.specs.Option.{option_copied, option_map};
ghost use Rattle.releases.specs.Matching.{ordinals_of};
ghost use Rattle.terms.specs.Sets.{has, IsAscending};
ghost use Rattle.terms.specs.Words.{AreLowBits};
ghost use Rattle.versions.specs.Words.{Text};
ghost use Rattle.registry.specs.Commands.{change_of};
ghost use Rattle.registry.specs.Dependencies.{IsDependency};
ghost use Rattle.registry.specs.Highest.{IsHighest};
ghost use Rattle.registry.specs.Lawful.{IsRegistry};
ghost use Rattle.registry.specs.Needs.{has_name, repeats_name};
ghost use Rattle.registry.specs.Places.{named_on, AreTold, IsPlace};
ghost use Rattle.registry.specs.Publications.{publications_in};
ghost use Rattle.registry.specs.Registry.{Repeats, equals_at, has_version, has_yank, is_published, matching, meets_at, needs_of, number_of, package_at, publication_at, versions_of, versions_or_none};
ghost use Rattle.registry.specs.Requests.{is_allowed};
ghost use Rattle.registry.specs.Rooms.{HasRoomFor};
ghost use Rattle.registry.specs.declared.place.Place.{Place};
ghost use Rattle.registry.specs.Step as step;
ghost use Rattle.registry.specs.Step.{after, publish, publish_refusal, refusal_of, with_named, with_yanked, yank_of};

use crate::Pkg;
use crate::commands::Command;
use crate::dependencies::{Dependencies, has_name};
use crate::growing::{add_names, count_new, enter_name, set_yanked_in};
use crate::place::Place;
use crate::publications::{Publications, check_unyank, check_yank, count, has_version};
use crate::ready::{Ready, make_ready, ready_for, right_places};
use crate::requests::Request;
use indexmap::IndexSet;
use releases::Matching;
use std::alloc::{AllocError, Global};
use std::marker::Model;
use terms::{GrowingSet, VSet, same_set};
use versions::{Name, Need, Published, Refusal, equal_precedence_is_an_equivalence};

/// The most names that are numbered.
pub const PACKAGE_LIMIT: usize = 65_535;

/// The most versions of a package.
pub const VERSION_LIMIT: usize = 4_096;

/// The most dependencies of a version.
pub const NEED_LIMIT: usize = 64;

/// A version, what it depends on, and whether it is yanked.
#[derive(Drop)]
pub struct Facts<'a> {
    pub version: &'a Published,
    pub needs: &'a [(Name, Need)],
    pub yanked: bool,
}

/// Packages, numbered from 1 in order of first mention, each with its publications in order.
///
/// A version is found by bisection, in rising precedence. Beside each package stand the requirements that
/// publications name on it, and the matching sets of the first of them: such a set is made with the room
/// for that publication, and each version that is published is tested once against each.
#[derive(Drop)]
pub struct Registry {
    names: IndexSet<Name>,
    lists: Vec<Publications>,
    revision: u64,
    ready: Option<Ready>,
    alloc: Global,
}

impl Model for Registry {
    ghost use Rattle.std.specs.Prelude.{◌≡◌, ◌-◌, length, vec_capacity, vec_len};
    ghost use Rattle.indexmap.specs.IndexSet.{spare};
    ghost use Rattle.registry.specs.Lawful.{IsRegistry};
    ghost use Rattle.registry.specs.Places.{named_of, AreAllPlaced};
    ghost use Rattle.registry.specs.Publications.{packages_in};
    ghost use Rattle.registry.specs.Rooms.{publication_for, IsReadyIfAny, State};

    ghost Value = { State };

    ghost view = { λ r. record {
      packages = packages_in r.names.keys r.lists.items;
      named = named_of r.lists.items;
      revision = r.revision;
      ready = publication_for r.ready;
    } };

    ghost invariant = { λ r.
        (length r.names.keys ≡ length r.lists.items)
        × IsRegistry (packages_in r.names.keys r.lists.items)
        × IsReadyIfAny r.names.keys (spare r.names) r.lists.items (vec_capacity r.lists - vec_len r.lists) r.ready
        × AreAllPlaced r.names.keys r.lists.items };
}

impl Registry {
    /// The empty registry.
    pub fn new(alloc: Global) -> Registry
        ensures packages { result.packages ≡ [] }
        ensures revision { result.revision ≡ 0 }
    {
        Registry {
            names: IndexSet::new(alloc),
            lists: Vec::new(alloc),
            revision: 0,
            ready: None,
            alloc,
        }
    }

    /// How many commands were accepted.
    pub fn revision(&self) -> u64
        ensures revision { result ≡ self.now.revision }
        ensures reachable { IsRegistry self.now.packages }
    {
        self.revision
    }

    /// How many packages are numbered.
    pub fn packages(&self) -> usize
        ensures packages { result ≡ length self.now.packages }
        ensures reachable { IsRegistry self.now.packages }
    {
        self.lists.len()
    }

    /// The number of the package of this name.
    pub fn number(&self, name: &Name) -> Option<Pkg>
        ensures { result ≡ number_of self.now.packages name.now }
    {
        let index = self.names.get_index_of(name)?;
        Some(index as u32 + 1)
    }

    /// The name of a package.
    pub fn name(&self, pkg: Pkg) -> &Name
        requires first { 1 ≤ pkg }
        requires last { pkg ≤ length self.now.packages }
        ensures { option_map (λ p. p.name) (package_at self.now.packages pkg) ≡ Some result.now }
    {
        self.names.get_index(pkg as usize - 1).unwrap()
    }

    /// The name of a package, if the package is numbered.
    pub fn name_at(&self, pkg: Pkg) -> Option<&Name>
        ensures name { option_copied result ≡ option_map (λ p. p.name) (package_at self.now.packages pkg) }
        ensures reachable { IsRegistry self.now.packages }
    {
        let names = &self.names;
        let place = (pkg as usize).checked_sub(1)?;
        names.get_index(place)
    }

    /// How many versions of a package are published; none of one that is not numbered.
    pub fn versions(&self, pkg: Pkg) -> usize
        ensures { result ≡ length (versions_or_none (package_at self.now.packages pkg)) }
    {
        count(self.publications_at(pkg))
    }

    /// As [`Registry::versions`], in the type of an ordinal.
    pub fn version_count(&self, pkg: Pkg) -> u32
        ensures { result ≡ length (versions_or_none (package_at self.now.packages pkg)) }
    {
        count(self.publications_at(pkg)) as u32
    }

    /// The version of a package with this ordinal, if it is published.
    pub fn facts_at(&self, pkg: Pkg, ordinal: u32) -> Option<Facts<'_>>
        ensures some { IfSome result (λ facts. publication_at self.now.packages pkg ordinal ≡ Some (record {
          version = facts.version.now;
          needs = facts.needs.now;
          yanked = facts.yanked;
        })) }
        ensures none { IfNone result (publication_at self.now.packages pkg ordinal ≡ None) }
    {
        if ordinal as usize >= self.versions(pkg) {
            return None;
        }
        Some(self.facts(pkg, ordinal))
    }

    /// The version of a package with this ordinal.
    pub fn facts(&self, pkg: Pkg, ordinal: u32) -> Facts<'_>
        requires { IsTrue (is_published self.now.packages pkg ordinal) }
        ensures { publication_at self.now.packages pkg ordinal ≡ Some (record {
          version = result.version.now;
          needs = result.needs.now;
          yanked = result.yanked;
        }) }
    {
        let list = &self.lists[pkg as usize - 1];
        let (release, needs) = list.at(ordinal);
        Facts {
            version: &release.version,
            needs: needs.needs(),
            yanked: release.yanked,
        }
    }

    /// Beside each version of a package, whether it depends on what the one before it does: the same
    /// names and requirements, in the same order. Each mark is made when its version is published.
    pub fn repeats(&self, pkg: Pkg) -> &[bool]
        ensures length { length result.now ≡ length (versions_or_none (package_at self.now.packages pkg)) }
        ensures marks { (k : ℕ) → slice_get result.now k ≡ Some true ↔ Repeats self.now.packages pkg k }
    {
        match self.publications_at(pkg) {
            None => &[],
            Some(publications) => publications.repeats(),
        }
    }

    /// Whether all versions of a package depend on the same, by a look at a note.
    pub fn is_alike(&self, pkg: Pkg) -> bool
        ensures { IsTrue result ↔ ((k j : ℕ) → j + 1 ≡ k → k < length (versions_or_none (package_at self.now.packages pkg))
            → needs_of self.now.packages pkg k ≡ needs_of self.now.packages pkg j) }
    {
        match self.publications_at(pkg) {
            None => true,
            Some(publications) => publications.is_alike(),
        }
    }

    /// How many packages a version depends on, by a look at a note; none where it is not published.
    pub fn needs_count(&self, pkg: Pkg, ordinal: u32) -> usize
        ensures { result ≡ length (needs_of self.now.packages pkg ordinal) }
    {
        match self.publications_at(pkg) {
            None => 0,
            Some(publications) => publications.needs_count(ordinal),
        }
    }

    /// Whether some version of a package is yanked, by a look at a note. Else each is allowed to every
    /// request.
    pub fn has_yanks(&self, pkg: Pkg) -> bool
        ensures { result ≡ has_yank (versions_or_none (package_at self.now.packages pkg)) }
    {
        match self.publications_at(pkg) {
            None => false,
            Some(publications) => publications.has_yanks(),
        }
    }

    /// Whether a version is allowed to a request: it is published, and is not yanked or is named by
    /// the lock (the Cargo Book, "cargo yank"). Takes no memory.
    #[inline(always)]
    pub fn allowed(&self, request: &Request, pkg: Pkg, ordinal: u32) -> bool
        ensures { result ≡ is_allowed self.now.packages request.now pkg ordinal }
    {
        if ordinal as usize >= self.versions(pkg) {
            return false;
        }
        let facts = self.facts(pkg, ordinal);
        !facts.yanked || request.is_locked(self.name(pkg), facts.version)
    }

    /// The ordinals of the published versions of a package that meet a requirement; none of one that
    /// is not numbered. The only error is [`Refusal::NoMemory`].
    pub fn matching(&self, pkg: Pkg, need: &Need) -> Result<VSet, Refusal>
        ensures members { IfOk result (λ set. (k : ℕ) → has set k ≡ meets_at self.now.packages pkg k need.now) }
        ensures ascending { IfOk result IsAscending }
        ensures set { IfOk result (λ set. set ≡ matching self.now.packages pkg need.now) }
        ensures only { IfErr result (λ e. e ≡ Refusal.NoMemory) }
    {
        Ok(self.matching_copy(pkg, need)?)
    }

    /// As [`Registry::matching`]: a copy of what [`Registry::matching_set`] lends.
    pub fn matching_copy(&self, pkg: Pkg, need: &Need) -> Result<VSet, AllocError>
        ensures members { IfOk result (λ set. (k : ℕ) → has set k ≡ meets_at self.now.packages pkg k need.now) }
        ensures ascending { IfOk result IsAscending }
        ensures set { IfOk result (λ set. set ≡ matching self.now.packages pkg need.now) }
    {
        same_set();
        let set = self.matching_set(pkg, need)?;
        Ok(set.set(self.alloc)?)
    }

    /// The ordinals of the published versions of a package that meet a requirement; none of one that
    /// is not numbered. Where some publication names this requirement on the package, it costs a look-up by
    /// the requirement's text, and its set is lent, if it is kept, or else its test; where none does, each
    /// version is tested.
    pub fn matching_set(&self, pkg: Pkg, need: &Need) -> Result<Matching<'_>, AllocError>
        ensures { IfOk result (λ set. (k : ℕ) → has (ordinals_of set) k ≡ meets_at self.now.packages pkg k need.now) }
    {
        match self.publications_at(pkg) {
            None => Ok(Matching::Computed(GrowingSet::new(self.alloc))),
            Some(publications) => publications.matching(need),
        }
    }

    /// The package that a version names at an index of its dependencies, and the ordinals of those of
    /// the package's versions that meet the requirement: what [`Registry::number`] and
    /// [`Registry::matching_set`] answer of them. It costs two look-ups by index: no text is looked at.
    pub fn dependency(
        &self,
        pkg: Pkg,
        ordinal: u32,
        index: usize,
    ) -> Result<(Pkg, Matching<'_>), AllocError>
        requires { index < length (needs_of self.now.packages pkg ordinal) }
        ensures { IfOk result (λ found. IsDependency self.now.packages pkg ordinal index found.0 (ordinals_of found.1)) }
    {
        match self.placed(pkg, ordinal, index) {
            Some(found) => Ok(found),
            None => self.looked_up(pkg, ordinal, index),
        }
    }

    /// As [`Registry::dependency`], where the place of the dependency is kept.
    fn placed(&self, pkg: Pkg, ordinal: u32, index: usize) -> Option<(Pkg, Matching<'_>)>
        ensures { IfSome result (λ found. IsDependency self.now.packages pkg ordinal index found.0 (ordinals_of found.1)) }
    {
        let place = self.places(pkg, ordinal).get(index)?;
        let matching = self.matching_named(place.target, place.need)?;
        Some((place.target, matching))
    }

    /// As [`Registry::dependency`], by the texts of the dependency.
    fn looked_up(
        &self,
        pkg: Pkg,
        ordinal: u32,
        index: usize,
    ) -> Result<(Pkg, Matching<'_>), AllocError>
        requires { index < length (needs_of self.now.packages pkg ordinal) }
        ensures { IfOk result (λ found. IsDependency self.now.packages pkg ordinal index found.0 (ordinals_of found.1)) }
    {
        let listed = self.dependencies(pkg, ordinal);
        let entry = &listed.needs()[index];
        let Some(target) = self.number(&entry.0) else {
            unreachable!()
        };
        let matching = self.matching_set(target, &entry.1)?;
        Ok((target, matching))
    }

    /// Where the registry keeps the name and the requirement of each dependency of a version, in their order;
    /// nothing where it is not published. Equal texts stand at the same place, so a search may compare places
    /// where it would compare texts.
    pub fn places(&self, pkg: Pkg, ordinal: u32) -> &[Place]
        ensures few { length result.now ≤ length (needs_of self.now.packages pkg ordinal) }
        ensures right { (index : ℕ) (place : Place) → slice_get result.now index ≡ Some place
            → IsPlace self.now.packages self.now.named pkg ordinal index place }
    {
        match self.publications_at(pkg) {
            None => &[],
            Some(publications) => publications.places(ordinal),
        }
    }

    /// The ordinals of the versions of a package that meet the requirement which is named at a place, if one is:
    /// its set, if it is kept, or else its test. No text is looked at, and no memory is taken.
    pub fn matching_named(&self, pkg: Pkg, place: u32) -> Option<Matching<'_>>
        ensures { IfSome result (λ set. (need : Text) × (slice_get (named_on self.now.named pkg) place ≡ Some need)
            × ((k : ℕ) → has (ordinals_of set) k ≡ meets_at self.now.packages pkg k need)) }
    {
        self.publications_at(pkg)?.matching_named(place as usize)
    }

    /// Of a package's ordinals below 64 those that meet the requirement which is named at a place, a bit each, if
    /// their set is kept: bit k stands for the ordinal k. Takes no memory.
    pub fn low_bits(&self, pkg: Pkg, place: u32) -> Option<u64>
        ensures { IfSome result (λ bits. (need : Text) × (slice_get (named_on self.now.named pkg) place ≡ Some need)
            × AreLowBits bits (λ k. meets_at self.now.packages pkg k need)) }
    {
        self.publications_at(pkg)?.low_bits(place as usize)
    }

    /// The ordinal of the version of a package with equal precedence. The cost grows with the
    /// logarithm of the number of its versions.
    pub fn find(&self, pkg: Pkg, version: &Published) -> Option<u32>
        ensures there { is_some result ≡ has_version (versions_or_none (package_at self.now.packages pkg)) version.now }
        ensures found { IfSome result (λ k. equals_at self.now.packages pkg k version.now ≡ true) }
        ensures only { IfSome result (λ k. (j : ℕ) → equals_at self.now.packages pkg j version.now ≡ true → j ≡ k) }
        ensures none { IfNone result ((k : ℕ) → equals_at self.now.packages pkg k version.now ≡ false) }
    {
        equal_precedence_is_an_equivalence();
        self.publications_at(pkg)?.find(version)
    }

    /// The version of highest precedence in a set of a package's ordinals. No versions are compared:
    /// it costs a look for each version of higher precedence, and for the one that is found.
    pub fn highest(&self, pkg: Pkg, set: &VSet) -> Option<u32>
        ensures some { IfSome result (IsHighest (λ k b. has set.now k ≡ b) (versions_or_none (package_at self.now.packages pkg))) }
        ensures none { IfNone result ((k : ℕ) → k < length (versions_or_none (package_at self.now.packages pkg)) → has set.now k ≡ false) }
    {
        self.publications_at(pkg)?.highest(set)
    }

    /// The version of highest precedence that passes a test of its ordinal, as `highest`.
    pub fn highest_where<F: Fn(u32) -> bool>(&self, pkg: Pkg, passes: F) -> Option<u32>
        requires { (k : ℕ) → k < length (versions_or_none (package_at self.now.packages pkg)) → F.pre passes k }
        ensures some { IfSome result (IsHighest (F.post passes) (versions_or_none (package_at self.now.packages pkg))) }
        ensures none { IfNone result ((k : ℕ) → k < length (versions_or_none (package_at self.now.packages pkg)) → F.post passes k false) }
    {
        self.publications_at(pkg)?.highest_where(passes)
    }

    /// Whether a command is accepted, or the lowest refusal that applies. Takes no memory.
    #[tactic(auto, unfolding(crate::specs::Step::refusal_of))]
    pub fn check(&self, command: &Command) -> Result<(), Refusal>
        ensures accepted { OnOk result (refusal_of self.now.packages (change_of command.now) ≡ None) }
        ensures refused { IfErr result (λ e. refusal_of self.now.packages (change_of command.now) ≡ Some e) }
    {
        match command {
            Command::Publish(name, version, needs) => self.check_publication(name, version, needs),
            Command::Yank(name, version) => check_yank(self.yank_of(name, version)),
            Command::Unyank(name, version) => check_unyank(self.yank_of(name, version)),
        }
    }

    /// Makes room for a command, which then needs no memory, if no other call changes the registry
    /// before it. To every other call the registry is as it was.
    pub fn reserve(&mut self, command: &Command) -> Result<(), Refusal>
        requires accepted { refusal_of self.old.packages (change_of command.now) ≡ None }
        ensures packages { self.new.packages ≡ self.old.packages }
        ensures revision { self.new.revision ≡ self.old.revision }
        ensures ok { OnOk result (HasRoomFor self.new (change_of command.now)) }
        ensures succeeds { HasRoomFor self.old (change_of command.now) → IsOk result }
        ensures err { IfErr result (λ e. e ≡ Refusal.NoMemory) }
    {
        match command {
            Command::Publish(name, _, needs) => Ok(self.make_ready(name, needs)?),
            Command::Yank(_, _) | Command::Unyank(_, _) => Ok(()),
        }
    }

    /// An equal command. Where room was made for it, it shares the texts that the registry keeps, so
    /// that equal names and requirements of many commands are kept once; no contract shows that.
    pub fn shared(&self, command: &Command) -> Result<Command, AllocError>
        ensures { IfOk result (λ copy. copy ≡ command.now) }
    {
        match command {
            Command::Publish(name, version, needs) => match ready_for(
                &self.ready,
                name,
                needs.needs(),
            ) {
                Some(ready) => Ok(Command::Publish(
                    ready.name.clone()?,
                    version.clone()?,
                    ready.needs.clone()?,
                )),
                None => command.clone(),
            },
            Command::Yank(_, _) | Command::Unyank(_, _) => command.clone(),
        }
    }

    /// Carries a command out that is accepted. Where room was made for it, it takes no memory.
    #[tactic(auto, unfolding(crate::specs::Step::after, crate::specs::Step::refusal_of))]
    pub fn apply(&mut self, command: Command) -> Result<(), Refusal>
        requires accepted { refusal_of self.old.packages (change_of command) ≡ None }
        requires revision { self.old.revision + 1 < 2 ^ 64 }
        ensures packages { OnOk result (self.new.packages ≡ after self.old.packages (change_of command)) }
        ensures revision { OnOk result (self.new.revision ≡ self.old.revision + 1) }
        ensures unchanged { OnErr result ((self.new.packages ≡ self.old.packages) × (self.new.revision ≡ self.old.revision)) }
        ensures succeeds { HasRoomFor self.old (change_of command) → IsOk result }
        ensures err { IfErr result (λ e. e ≡ Refusal.NoMemory) }
    {
        match command {
            Command::Publish(name, version, needs) => self.publish(name, version, needs)?,
            Command::Yank(name, version) => self.mark(&name, &version, true),
            Command::Unyank(name, version) => self.mark(&name, &version, false),
        }
        self.revision += 1;
        Ok(())
    }

    /// What a version depends on.
    fn dependencies(&self, pkg: Pkg, ordinal: u32) -> &Dependencies
        requires { IsTrue (is_published self.now.packages pkg ordinal) }
        ensures needs { result.now ≡ needs_of self.now.packages pkg ordinal }
        ensures reachable { IsRegistry self.now.packages }
    {
        let list = &self.lists[pkg as usize - 1];
        list.at(ordinal).1
    }

    /// The publications of the package of this number.
    fn publications_at(&self, pkg: Pkg) -> Option<&Publications>
        ensures publications { publications_in (option_copied result) ≡ versions_or_none (package_at self.now.packages pkg) }
        ensures named { IfSome result (λ list. list.now.named ≡ named_on self.now.named pkg) }
        ensures placed { IfSome result (λ list. AreTold self.now.packages self.now.named pkg list.now) }
        ensures reachable { IsRegistry self.now.packages }
    {
        let lists = &self.lists;
        let index = (pkg as usize).checked_sub(1)?;
        lists.get(index)
    }

    /// The publications of the package of this name.
    fn publications(&self, name: &Name) -> Option<&Publications>
        ensures { publications_in (option_copied result) ≡ versions_of self.now.packages name.now }
    {
        let index = self.names.get_index_of(name)?;
        Some(&self.lists[index])
    }

    /// Whether the version of equal precedence is yanked, if there is one.
    fn yank_of(&self, name: &Name, version: &Published) -> Option<bool>
        ensures { result ≡ yank_of (versions_of self.now.packages name.now) version.now }
    {
        self.publications(name)?.yank_of(version)
    }

    /// Whether a publication is accepted, or the lowest refusal that applies.
    fn check_publication(
        &self,
        name: &Name,
        version: &Published,
        needs: &Dependencies,
    ) -> Result<(), Refusal>
        ensures accepted { OnOk result (publish_refusal self.now.packages name.now version.now needs.now ≡ None) }
        ensures refused { IfErr result (λ e. publish_refusal self.now.packages name.now version.now needs.now ≡ Some e) }
    {
        if needs.repeats_name() {
            return Err(Refusal::RepeatedDependency);
        }
        let listed = needs.needs();
        if has_name(listed, name) {
            return Err(Refusal::SelfDependency);
        }
        if listed.len() > NEED_LIMIT {
            return Err(Refusal::TooManyDependencies);
        }
        let publications = self.publications(name);
        if has_version(publications, version) {
            return Err(Refusal::AlreadyPublished);
        }
        if count(publications) >= VERSION_LIMIT {
            return Err(Refusal::TooManyVersions);
        }
        if self.exceeds_numbers(name, listed) {
            return Err(Refusal::TooManyPackages);
        }
        Ok(())
    }

    /// Whether too many packages are numbered once these names are.
    fn exceeds_numbers(&self, name: &Name, needs: &[(Name, Need)]) -> bool
        requires few { length needs.now ≤ NEED_LIMIT }
        requires apart { has_name needs.now name.now ≡ false }
        requires once { repeats_name needs.now ≡ false }
        ensures { result ≡ nat_lt PACKAGE_LIMIT (length (with_named self.now.packages name.now needs.now)) }
    {
        // Only near the limit are the names looked up.
        if self.names.len() + 1 + needs.len() <= PACKAGE_LIMIT {
            return false;
        }
        self.numbered_with(name, needs) > PACKAGE_LIMIT
    }

    /// How many packages are numbered once these names are.
    fn numbered_with(&self, name: &Name, needs: &[(Name, Need)]) -> usize
        requires few { length needs.now ≤ NEED_LIMIT }
        requires apart { has_name needs.now name.now ≡ false }
        requires once { repeats_name needs.now ≡ false }
        ensures { result ≡ length (with_named self.now.packages name.now needs.now) }
    {
        let known = self.names.contains(name);
        let own: usize = if known { 0 } else { 1 };
        self.names.len() + own + count_new(&self.names, needs)
    }

    /// Makes ready for a publication, unless that is done.
    fn make_ready(&mut self, name: &Name, needs: &Dependencies) -> Result<(), AllocError>
        ensures packages { self.new.packages ≡ self.old.packages }
        ensures revision { self.new.revision ≡ self.old.revision }
        ensures ok { OnOk result (self.new.ready ≡ Some (name.now, needs.now)) }
        ensures succeeds { self.old.ready ≡ Some (name.now, needs.now) → IsOk result }
    {
        if ready_for(&self.ready, name, needs.needs()).is_some() {
            return Ok(());
        }
        drop(self.ready.take());
        let ready = make_ready(self.alloc, &mut self.names, &mut self.lists, name, needs)?;
        drop(self.ready.replace(ready));
        Ok(())
    }

    /// Publishes a version that is accepted.
    fn publish(
        &mut self,
        name: Name,
        version: Published,
        needs: Dependencies,
    ) -> Result<(), AllocError>
        requires accepted { publish_refusal self.old.packages name version needs ≡ None }
        ensures packages { OnOk result (self.new.packages ≡ publish self.old.packages name version needs) }
        ensures unchanged { OnErr result (self.new.packages ≡ self.old.packages) }
        ensures revision { self.new.revision ≡ self.old.revision }
        ensures succeeds { self.old.ready ≡ Some (name, needs) → IsOk result }
    {
        self.make_ready(&name, &needs)?;
        self.enter(name, version, needs);
        Ok(())
    }

    /// Enters a publication that was made ready.
    fn enter(&mut self, name: Name, version: Published, needs: Dependencies)
        requires ready { self.old.ready ≡ Some (name, needs) }
        requires accepted { publish_refusal self.old.packages name version needs ≡ None }
        ensures packages { self.new.packages ≡ publish self.old.packages name version needs }
        ensures revision { self.new.revision ≡ self.old.revision }
    {
        // So that no two versions of the package have equal precedence.
        equal_precedence_is_an_equivalence();
        let Some(ready) = self.ready.take() else {
            unreachable!()
        };
        let (kept, expected) = (ready.needs, ready.places);
        let index = enter_name(
            &mut self.names,
            &mut self.lists,
            name,
            ready.own,
            ready.place,
        );
        add_names(&mut self.names, &mut self.lists, ready.added);
        let places = right_places(&self.names, &self.lists, kept.needs(), &expected);
        let list = &mut self.lists[index];
        list.push(version, kept, places);
    }

    /// Marks a version as yanked or not.
    fn mark(&mut self, name: &Name, version: &Published, yanked: bool)
        ensures packages { self.new.packages ≡ with_yanked name.now version.now yanked self.old.packages }
        ensures revision { self.new.revision ≡ self.old.revision }
    {
        drop(self.ready.take());
        set_yanked_in(&self.names, &mut self.lists, name, version, yanked);
    }
}
