//! Sets that grow, with room made beforehand.

ghost use Rattle.std.specs.Prelude.{◌≡◌, ◌<◌, ◌≤◌, ◌+◌, ℕ, [], true, IfNone, IfOk, IfSome, IsOk, OnErr, OnOk};
ghost use Rattle.terms.specs.Sets.{has, AddsOrdinal, HasExactly, IsAscending};
ghost use Rattle.terms.specs.Words.{AreLowBits};

use crate::low::LowSet;
use crate::sets::VSet;
use crate::words::{Words, bits_of, has_ordinal, insert_ordinal, words_of};
use smallvec::SmallVec;
use std::alloc::{AllocError, Global};
use std::marker::Model;

/// A set of ordinals that grows by one at a time. Room for the next one can be made beforehand, so
/// that it comes in without memory.
#[derive(Drop)]
pub struct GrowingSet {
    words: Words,
}

impl Model for GrowingSet {
    ghost use Rattle.smallvec.specs.SmallVec.{small_vec_len};
    ghost use Rattle.std.specs.Prelude.{◌-◌};
    ghost use Rattle.terms.specs.Growing.{Growing};
    ghost use Rattle.terms.specs.Words.{AreWords, ordinals_of};

    ghost Value = { Growing };

    ghost view = { λ s. record {
      ordinals = ordinals_of s.words.items;
      room = s.words.capacity - small_vec_len s.words;
    } };

    ghost invariant = { λ s. AreWords s.words.items };
}

impl GrowingSet {
    /// The empty set, which takes no memory.
    pub fn new(alloc: Global) -> GrowingSet
        ensures { result.ordinals ≡ [] }
    {
        GrowingSet {
            words: SmallVec::new(alloc),
        }
    }

    /// The set of these ordinals, which may come in any order and several times. It is linear in
    /// ascending ones.
    pub fn of(alloc: Global, ordinals: &[u32]) -> Result<GrowingSet, AllocError>
        ensures { IfOk result (λ set. HasExactly set.ordinals ordinals.now) }
    {
        Ok(GrowingSet {
            words: words_of(alloc, ordinals)?,
        })
    }

    /// Makes room for one ordinal more.
    pub fn reserve(&mut self) -> Result<(), AllocError>
        ensures same { self.new.ordinals ≡ self.old.ordinals }
        ensures room { OnOk result (0 < self.new.room) }
        ensures unchanged { OnErr result (self.new ≡ self.old) }
        ensures succeeds { 0 < self.old.room → IsOk result }
    {
        self.words.reserve(1)
    }

    /// Puts an ordinal in. It costs one step where none above it is there.
    pub fn insert(&mut self, ordinal: u32) -> Result<(), AllocError>
        ensures added { OnOk result (AddsOrdinal self.old.ordinals self.new.ordinals ordinal) }
        ensures unchanged { OnErr result (self.new.ordinals ≡ self.old.ordinals) }
        ensures room { self.old.room ≤ self.new.room + 1 }
        ensures succeeds { 0 < self.old.room → IsOk result }
        ensures ascending { IsAscending self.new.ordinals }
    {
        insert_ordinal(&mut self.words, ordinal)
    }

    /// Whether an ordinal is in the set.
    pub fn has(&self, ordinal: u32) -> bool
        ensures { result ≡ has self.now.ordinals ordinal }
    {
        has_ordinal(&self.words, ordinal)
    }

    /// The ordinals below 64, a bit each: bit k stands for the ordinal k.
    pub fn low_bits(&self) -> u64
        ensures { AreLowBits result (has self.now.ordinals) }
    {
        bits_of(&self.words, 0)
    }

    /// The set as it is now, if a word has room for it.
    pub fn as_low(&self) -> Option<LowSet>
        ensures some { IfSome result (λ low. low ≡ self.now.ordinals) }
        ensures none { IfNone result ((k : ℕ) × (has self.now.ordinals k ≡ true) × (64 ≤ k)) }
    {
        LowSet::of_words(&self.words)
    }

    /// The set as it is now.
    pub fn set(&self, alloc: Global) -> Result<VSet, AllocError>
        ensures same { IfOk result (λ set. set ≡ self.now.ordinals) }
        ensures ascending { IfOk result IsAscending }
    {
        VSet::of_words(alloc, &self.words)
    }
}
