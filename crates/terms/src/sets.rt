//! Finite sets of ordinals.

ghost use Rattle.std.specs.Prelude.{◌≡◌, ◌↔◌, ◌≤◌, ◌∷◌, ℕ, [], count_by, find, length, reverse, true, IfNone, IfOk, IfSome, IsTrue, OnErr, OnOk};
ghost use Rattle.terms.specs.Merges.{keeps, IsKept, IsWithinFirst};
ghost use Rattle.terms.specs.Sets.{has, AddsOrdinal, HasExactly, IsAscending, IsSubset};
ghost use Rattle.terms.specs.Words.{AreWords, bits_from, ordinals_of};

use crate::low::LowSet;
use crate::merging::{Rule, combined, count_kept, first_kept};
use crate::ordinals::{Ordinals, ordinals_in};
use crate::words::{
    Word, Words, are_same, copied, count, has_ordinal, insert_ordinal, words_of, words_of_one,
};
use smallvec::SmallVec;
use std::alloc::{AllocError, Global};
use std::marker::Model;

/// A finite set of ordinals, stored as the words that have one, in order.
#[derive(Drop)]
pub struct VSet {
    words: Words,
}

impl Model for VSet {
    ghost use Rattle.std.specs.Prelude.{List, ℕ};
    ghost use Rattle.terms.specs.Words.{AreWords, ordinals_of};

    ghost Value = { List ℕ };

    ghost view = { λ s. ordinals_of s.words.items };

    ghost invariant = { λ s. AreWords s.words.items };
}

impl VSet {
    /// The empty set, which takes no memory.
    pub fn new(alloc: Global) -> VSet
        ensures { result ≡ [] }
    {
        VSet {
            words: SmallVec::new(alloc),
        }
    }

    /// The set with this member alone. It takes no memory of the heap.
    pub fn single(alloc: Global, ordinal: u32) -> Result<VSet, AllocError>
        ensures { IfOk result (λ set. set ≡ ordinal ∷ []) }
    {
        Ok(VSet::from_words(words_of_one(alloc, ordinal)))
    }

    /// The set of these ordinals, which may come in any order and several times. It is linear in
    /// ascending ones, and sorts others first.
    pub fn of(alloc: Global, ordinals: &[u32]) -> Result<VSet, AllocError>
        ensures members { IfOk result (λ set. HasExactly set ordinals.now) }
        ensures ascending { IfOk result IsAscending }
        ensures same { IsAscending ordinals.now → IfOk result (λ set. set ≡ ordinals.now) }
    {
        if ordinals.is_sorted() {
            return Ok(VSet::from_words(words_of(alloc, ordinals)?));
        }
        let mut sorted = Vec::from_slice(alloc, ordinals)?;
        sorted.sort()?;
        Ok(VSet::from_words(words_of(alloc, &sorted)?))
    }

    /// Puts an ordinal in. It costs one step where none above it is there.
    #[inline(always)]
    pub fn insert(&mut self, ordinal: u32) -> Result<(), AllocError>
        ensures added { OnOk result (AddsOrdinal self.old self.new ordinal) }
        ensures unchanged { OnErr result (self.new ≡ self.old) }
        ensures ascending { IsAscending self.new }
    {
        insert_ordinal(&mut self.words, ordinal)
    }

    /// Whether an ordinal is in the set. The cost grows with the logarithm of the set's size.
    pub fn has(&self, ordinal: u32) -> bool
        ensures { result ≡ has self.now ordinal }
    {
        has_ordinal(&self.words, ordinal)
    }

    /// How many ordinals the set has.
    pub fn len(&self) -> usize
        ensures { result ≡ length self.now }
    {
        count(&self.words)
    }

    /// Whether the set has no ordinal.
    pub fn is_empty(&self) -> bool
        ensures { IsTrue result ↔ (self.now ≡ []) }
    {
        self.words.is_empty()
    }

    /// The ordinals of the set, ascending, without memory.
    pub fn iter(&self) -> Ordinals<'_>
        ensures same { result ≡ self.now }
        ensures ascending { IsAscending self.now }
    {
        ordinals_in(&self.words)
    }

    /// The ordinals of the set, ascending.
    pub fn ordinals(&self, alloc: Global) -> Result<Vec<u32>, AllocError>
        ensures same { IfOk result (λ list. list.items ≡ self.now) }
        ensures ascending { IfOk result (λ list. IsAscending list.items) }
    {
        let list = self.iter().collect(alloc)?;
        Ok(list)
    }

    /// The last of `ranked` that is in the set: of ordinals in rising rank the one of highest rank.
    pub fn highest(&self, ranked: &[u32]) -> Option<u32>
        ensures { result ≡ find (λ k. has self.now k) (reverse ranked.now) }
    {
        ranked.iter().rev().copied().find(|k| self.has(*k))
    }

    /// Whether each ordinal of the set is in the other.
    pub fn is_subset(&self, other: &VSet) -> bool
        ensures { IsTrue result ↔ IsSubset self.now other.now }
    {
        self.first_of_rule(Rule::FirstOnly, other).is_none()
    }

    /// Whether both sets have the same ordinals.
    pub fn is_same(&self, other: &VSet) -> bool
        ensures { IsTrue result ↔ (self.now ≡ other.now) }
    {
        are_same(&self.words, &other.words)
    }

    /// An equal set.
    #[inline(always)]
    pub fn copy(&self, alloc: Global) -> Result<VSet, AllocError>
        ensures same { IfOk result (λ set. set ≡ self.now) }
        ensures ascending { IfOk result IsAscending }
    {
        VSet::of_words(alloc, &self.words)
    }

    /// The set, if a word has room for it.
    #[inline(always)]
    pub fn as_low(&self) -> Option<LowSet>
        ensures some { IfSome result (λ low. low ≡ self.now) }
        ensures none { IfNone result ((k : ℕ) × (has self.now k ≡ true) × (64 ≤ k)) }
    {
        LowSet::of_words(&self.words)
    }

    /// Tells a caller that the set ascends, as each does. It does nothing when it runs.
    pub fn ascends(&self)
        ensures { IsAscending self.now }
    {
        let _words = &self.words;
    }

    fn from_words(words: Words) -> VSet
        requires { AreWords words.items }
        ensures same { result ≡ ordinals_of words.items }
        ensures ascending { IsAscending result }
    {
        VSet { words }
    }

    /// The set of ordinals below 64, a bit each.
    pub(crate) fn of_first_word(alloc: Global, bits: u64) -> VSet
        ensures { result ≡ bits_from 64 0 bits }
    {
        if bits == 0 {
            return VSet::new(alloc);
        }
        VSet::from_words(SmallVec::from_buf(alloc, [Word { number: 0, bits }]))
    }

    /// The set of these words.
    #[inline(always)]
    pub(crate) fn of_words(alloc: Global, words: &[Word]) -> Result<VSet, AllocError>
        requires { AreWords words.now }
        ensures same { IfOk result (λ set. set ≡ ordinals_of words.now) }
        ensures ascending { IfOk result IsAscending }
    {
        Ok(VSet::from_words(copied(alloc, words)?))
    }

    /// What the rule keeps of two sets.
    #[inline(always)]
    pub(crate) fn of_rule(
        alloc: Global,
        rule: Rule,
        first: &VSet,
        second: &VSet,
    ) -> Result<VSet, AllocError>
        ensures exact { IfOk result (IsKept rule first.now second.now) }
        ensures ascending { IfOk result IsAscending }
    {
        Ok(VSet::from_words(combined(alloc, rule, &first.words, &second.words)?))
    }

    /// The lowest ordinal that the rule keeps of this set and another.
    #[inline(always)]
    pub(crate) fn first_of_rule(&self, rule: Rule, other: &VSet) -> Option<u32>
        ensures none { IfNone result (IsKept rule self.now other.now []) }
        ensures some { IfSome result (λ k. keeps rule (has self.now k) (has other.now k) ≡ true) }
    {
        first_kept(rule, &self.words, &other.words)
    }

    /// How many ordinals of this set are in the other, or are not.
    pub(crate) fn count_of_rule(&self, rule: Rule, other: &VSet) -> usize
        requires { IsWithinFirst rule }
        ensures { result ≡ count_by (λ k. keeps rule true (has other.now k)) self.now }
    {
        count_kept(rule, &self.words, &other.words)
    }
}
