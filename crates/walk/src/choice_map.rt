//! Chosen versions, in the order in which they were chosen.

ghost use Rattle.std.specs.Prelude.{◌≡◌, ◌<◌, ◌≤◌, ◌^◌, ◌++◌, ◌∷◌, ℕ, [], drop, length, Contains, nat_eq, slice_get, take, is_some, None, Some, IfOk, OnOk};
ghost use Rattle.std.specs.List.{IsDistinct};
ghost use Rattle.std.specs.Map.{keys_of};
ghost use Rattle.walk.specs.Choosing.{choice_of};

use crate::chooser::Chooser;
use crate::package_table::PackageTable;
use registry::Pkg;
use std::alloc::{AllocError, Global};
use std::marker::Model;

/// For how many packages room is made before a walk, so that a short one need not move them again and
/// again.
/// Measured at half and at twice this value: docs/BENCHMARKS.md, Constants.
pub(crate) const WALK_ROOM: usize = 128;

/// Packages with the ordinals of their versions, each package once, in the order in which they came in. Contracts speak
/// of this list. A look-up takes the same time however many there are.
#[derive(Drop)]
pub struct ChoiceMap {
    entries: Vec<(Pkg, u32)>,
    /// The ordinal of each package.
    ordinals: PackageTable,
}

impl Model for ChoiceMap {
    ghost use Rattle.std.specs.Prelude.{◌≡◌, ℕ, nat_eq};
    ghost use Rattle.std.specs.List.{IsDistinct};
    ghost use Rattle.std.specs.Map.{keys_of};
    ghost use Rattle.walk.specs.Choosing.{choice_of};
    ghost use Rattle.walk.specs.Pages.{number_at, ChosenEntries};

    ghost Value = { ChosenEntries };

    ghost view = { λ m. record { entries = m.entries.items } };

    ghost invariant = { λ m. IsDistinct nat_eq (keys_of m.entries.items)
        × ((p : ℕ) → number_at m.ordinals p ≡ choice_of m.entries.items p) };
}

impl Chooser for ChoiceMap {
    ghost chooses = { λ m. choice_of m.entries };

    fn choose(&self, pkg: Pkg) -> Option<u32> {
        self.get(pkg)
    }
}

impl ChoiceMap {
    /// Nothing is chosen.
    pub fn new(alloc: Global) -> Result<ChoiceMap, AllocError>
        ensures { IfOk result (λ m. m.entries ≡ []) }
    {
        let ordinals = PackageTable::new(alloc)?;
        Ok(ChoiceMap {
            entries: Vec::with_capacity(alloc, WALK_ROOM)?,
            ordinals,
        })
    }

    /// How many packages there are.
    pub fn len(&self) -> usize
        ensures { result ≡ length self.now.entries }
    {
        self.entries.len()
    }

    /// The ordinal of a package's version.
    pub fn get(&self, pkg: Pkg) -> Option<u32>
        ensures { result ≡ choice_of self.now.entries pkg }
    {
        self.ordinals.get(pkg)
    }

    /// Whether a version of the package is chosen.
    pub fn contains(&self, pkg: Pkg) -> bool
        ensures { result ≡ is_some (choice_of self.now.entries pkg) }
    {
        self.ordinals.get(pkg).is_some()
    }

    /// The package at a place, with its version's ordinal.
    pub fn at(&self, place: usize) -> (Pkg, u32)
        requires { place < length self.now.entries }
        ensures at { slice_get self.now.entries place ≡ Some result }
        ensures chosen { choice_of self.now.entries result.0 ≡ Some result.1 }
    {
        self.entries[place]
    }

    /// Those from a place on.
    pub(crate) fn since(&self, place: usize) -> &[(Pkg, u32)]
        requires { place ≤ length self.now.entries }
        ensures since { result.now ≡ drop place self.now.entries }
        ensures chosen { (p k : ℕ) → Contains result.now (p, k) → choice_of self.now.entries p ≡ Some k }
        ensures count { length self.now.entries < 2 ^ 64 }
    {
        &self.entries[place..]
    }

    /// All of them, as a list.
    pub fn list(&self, alloc: Global) -> Result<Vec<(Pkg, u32)>, AllocError>
        ensures list { IfOk result (λ list. list.items ≡ self.now.entries) }
        ensures once { IsDistinct nat_eq (keys_of self.now.entries) }
    {
        Vec::from_slice(alloc, &self.entries)
    }

    /// The list itself.
    pub(crate) fn into_list(self) -> Vec<(Pkg, u32)>
        ensures list { result.items ≡ self.entries }
        ensures once { IsDistinct nat_eq (keys_of self.entries) }
    {
        let ChoiceMap { entries, .. } = self;
        entries
    }

    /// Puts a version behind the others, of a package that has none.
    pub fn push(&mut self, pkg: Pkg, ordinal: u32) -> Result<(), AllocError>
        requires { choice_of self.old.entries pkg ≡ None }
        ensures { OnOk result (self.new.entries ≡ self.old.entries ++ (pkg, ordinal) ∷ []) }
    {
        self.entries.reserve(1)?;
        self.ordinals.set(pkg, ordinal)?;
        self.entries.push_reserved((pkg, ordinal));
        Ok(())
    }

    /// Takes the last one away, if there is one.
    fn pop(&mut self)
        requires { 0 < length self.old.entries }
        ensures { (last : ℕ × ℕ) × (self.old.entries ≡ self.new.entries ++ last ∷ []) }
    {
        if let Some((pkg, _)) = self.entries.pop() {
            self.ordinals.set_back(pkg, None);
        }
    }

    /// Keeps the first so many. Takes no memory.
    pub fn truncate(&mut self, count: usize)
        ensures { self.new.entries ≡ take count self.old.entries }
    {
        'taken: while self.len() > count {
            self.pop();
        }
    }
}
