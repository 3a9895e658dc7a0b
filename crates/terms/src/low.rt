//! Sets of ordinals for which a word has room.

ghost use Rattle.std.specs.Prelude.{◌≡◌, ◌↔◌, ◌<◌, ◌≤◌, ◌&&◌, ◌∷◌, ℕ, [], nat_eq, not, true, IfNone, IfSome, IsTrue};
ghost use Rattle.terms.specs.Merges.{IsKept};
ghost use Rattle.terms.specs.Sets.{has};
ghost use Rattle.terms.specs.Words.{AreLowBits, AreWords, bits_from, ordinals_of};
ghost use Rattle.terms.specs.declared.merging.Rule.TheVariants.{Both, Either, FirstOnly};

use crate::sets::VSet;
use crate::words::{WORD_BITS, Word, word_of};
use std::alloc::Global;
use std::marker::Model;

/// A set of ordinals below 64, a bit each. It takes no memory.
#[derive(Drop)]
pub struct LowSet {
    bits: u64,
}

impl Model for LowSet {
    ghost use Rattle.std.specs.Prelude.{◌<◌, ◌^◌, ℕ, List};
    ghost use Rattle.terms.specs.Words.{bits_from};

    ghost Value = { List ℕ };

    ghost view = { λ s. bits_from 64 0 s.bits };

    ghost invariant = { λ s. s.bits < 2 ^ 64 };
}

impl LowSet {
    /// The set of these bits: bit k stands for the ordinal k.
    pub fn of_bits(bits: u64) -> LowSet
        ensures bits { AreLowBits bits (has result) }
        ensures low { (k : ℕ) → has result k ≡ true → k < 64 }
    {
        LowSet::from_bits(bits)
    }

    /// As [`LowSet::of_bits`]. The clause gives the list itself.
    pub(crate) fn from_bits(bits: u64) -> LowSet
        ensures { result ≡ bits_from 64 0 bits }
    {
        LowSet { bits }
    }

    /// The set of these words, if one has room for it.
    #[inline(always)]
    pub(crate) fn of_words(words: &[Word]) -> Option<LowSet>
        requires { AreWords words.now }
        ensures some { IfSome result (λ low. low ≡ ordinals_of words.now) }
        ensures none { IfNone result ((k : ℕ) × (has (ordinals_of words.now) k ≡ true) × (64 ≤ k)) }
    {
        match words {
            [] => Some(LowSet::from_bits(0)),
            [word] if word.number == 0 => Some(LowSet::from_bits(word.bits)),
            [_] => None,
            [_, _, ..] => None,
        }
    }

    /// The set with this member alone, if a word has room for it.
    pub fn single(ordinal: u32) -> Option<LowSet>
        ensures some { IfSome result (λ set. set ≡ ordinal ∷ []) }
        ensures none { IfNone result (ordinal < 64 → ⊥) }
    {
        if ordinal >= WORD_BITS {
            return None;
        }
        let word = word_of(ordinal);
        Some(LowSet { bits: word.bits })
    }

    /// The ordinals, a bit each.
    pub fn bits(&self) -> u64
        ensures { AreLowBits result (has self.now) }
    {
        self.bits
    }

    /// Whether an ordinal is in the set.
    pub fn has(&self, ordinal: u32) -> bool
        ensures { result ≡ has self.now ordinal }
    {
        ordinal < WORD_BITS && self.bits >> ordinal & 1 == 1
    }

    /// Whether the set has no ordinal.
    pub fn is_empty(&self) -> bool
        ensures { IsTrue result ↔ (self.now ≡ []) }
    {
        self.bits == 0
    }

    /// The ordinals that are in both sets.
    pub fn both(&self, other: &LowSet) -> LowSet
        ensures { IsKept Both self.now other.now result }
    {
        LowSet {
            bits: self.bits & other.bits,
        }
    }

    /// The ordinals that are in one of both sets.
    pub fn either(&self, other: &LowSet) -> LowSet
        ensures { IsKept Either self.now other.now result }
    {
        LowSet {
            bits: self.bits | other.bits,
        }
    }

    /// The ordinals that are in this set and not in the other.
    pub fn first_only(&self, other: &LowSet) -> LowSet
        ensures { IsKept FirstOnly self.now other.now result }
    {
        LowSet {
            bits: self.bits & !other.bits,
        }
    }

    /// What is left of the set once an ordinal is taken out, if it is there.
    pub fn without(&self, ordinal: u32) -> LowSet
        ensures { (k : ℕ) → has result k ≡ (has self.now k && not (nat_eq ordinal k)) }
    {
        let bits = self.bits;
        if ordinal >= WORD_BITS {
            return LowSet { bits };
        }
        let word = word_of(ordinal);
        LowSet {
            bits: bits & !word.bits,
        }
    }

    /// The only member, if there is one.
    pub fn only(&self) -> Option<u32>
        ensures some { IfSome result (λ k. self.now ≡ k ∷ []) }
        ensures none { IfNone result ((k : ℕ) → self.now ≡ k ∷ [] → ⊥) }
    {
        let bits = self.bits;
        if bits == 0 || bits & (bits - 1) != 0 {
            return None;
        }
        Some(bits.trailing_zeros())
    }

    /// An equal set.
    pub fn copy(&self) -> LowSet
        ensures { result ≡ self.now }
    {
        LowSet { bits: self.bits }
    }

    /// An equal set, as those of any ordinals are kept.
    pub fn set(&self, alloc: Global) -> VSet
        ensures { result ≡ self.now }
    {
        VSet::of_first_word(alloc, self.bits)
    }
}
