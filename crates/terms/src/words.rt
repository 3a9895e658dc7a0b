//! The words of a set: where one stands, and how an ordinal comes in.

ghost use Rattle.std.specs.Prelude.{◌≡◌, ◌↔◌, ◌<◌, ◌≤◌, ◌+◌, ◌*◌, ◌/◌, ◌%◌, ◌^◌, ◌||◌, ◌∷◌, ℕ, [], length, IfOk, IsOk, IsTrue, OnErr, OnOk};
ghost use Rattle.smallvec.specs.SmallVec.{small_vec_len};
ghost use Rattle.terms.specs.Sets.{has, AddsOrdinal, HasExactly};
ghost use Rattle.terms.specs.Words.{AreWords, IsPlace, has_bit, ordinals_of};
ghost use Rattle.terms.specs.Words as spec;

use smallvec::SmallVec;
use std::alloc::{AllocError, Global};
use std::cmp::Ordering;

/// How many ordinals a word stands for.
pub(crate) const WORD_BITS: u32 = 64;

/// Neighbouring ordinals: bit i stands for the ordinal WORD_BITS * number + i.
#[derive(Clone, Copy, PartialEq, Eq, Default)]
pub struct Word {
    pub number: u32,
    pub bits: u64,
}

/// The words of a set. Most sets have at most one, which lies in the value and takes no memory.
pub type Words = SmallVec<Word, 1>;

/// The word that has one ordinal.
#[inline(always)]
pub(crate) fn word_of(ordinal: u32) -> Word
    ensures number { result.number ≡ ordinal / WORD_BITS }
    ensures bits { result.bits ≡ 2 ^ (ordinal % WORD_BITS) }
{
    Word {
        number: ordinal / WORD_BITS,
        bits: 1 << (ordinal % WORD_BITS),
    }
}

/// The place of the word with this number, or the place where it would stand. It is found at once
/// at the end, where a set mostly grows.
#[inline(always)]
fn place_of(words: &[Word], number: u32) -> Result<usize, usize>
    requires { AreWords words.now }
    ensures { IsPlace number words.now result }
{
    let Some(last) = words.last() else {
        return Err(0);
    };
    match last.number.cmp(&number) {
        Ordering::Less => Err(words.len()),
        Ordering::Equal => Ok(words.len() - 1),
        Ordering::Greater => words.binary_search_by_key(&number, |word| word.number),
    }
}

/// The bits of the word with this number, none where it is not there.
pub(crate) fn bits_of(words: &[Word], number: u32) -> u64
    requires { AreWords words.now }
    ensures { result ≡ spec.bits_of words.now number }
{
    match place_of(words, number) {
        Ok(place) => words[place].bits,
        Err(_) => 0,
    }
}

/// Whether the ordinal is in the set.
#[inline(always)]
pub(crate) fn has_ordinal(words: &[Word], ordinal: u32) -> bool
    requires { AreWords words.now }
    ensures { result ≡ has (ordinals_of words.now) ordinal }
{
    let bits = bits_of(words, ordinal / WORD_BITS);
    bits >> (ordinal % WORD_BITS) & 1 == 1
}

/// Puts the ordinals of a word in. It costs one step where no ordinal of a higher word is there, and takes
/// memory only where no ordinal of the word is.
#[inline(always)]
fn insert_word(words: &mut Words, word: Word) -> Result<(), AllocError>
    requires words { AreWords words.old.items }
    requires word { AreWords (word ∷ []) }
    ensures words { AreWords words.new.items }
    ensures added { OnOk result
        ((k : ℕ) → has (ordinals_of words.new.items) k ≡ (has (ordinals_of words.old.items) k || has_bit (word ∷ []) k)) }
    ensures unchanged { OnErr result (words.new.items ≡ words.old.items) }
    ensures room { words.old.capacity ≤ words.new.capacity }
    ensures grown { small_vec_len words.new ≤ small_vec_len words.old + 1 }
    ensures succeeds { small_vec_len words.old < words.old.capacity → IsOk result }
{
    match place_of(words, word.number) {
        Ok(place) => words[place].bits |= word.bits,
        Err(place) => words.insert(place, word)?,
    }
    Ok(())
}

/// Puts an ordinal in. It costs one step where no ordinal of a higher word is there, and takes
/// memory only where no ordinal of its word is.
#[inline(always)]
pub(crate) fn insert_ordinal(words: &mut Words, ordinal: u32) -> Result<(), AllocError>
    requires { AreWords words.old.items }
    ensures words { AreWords words.new.items }
    ensures added { OnOk result
        (AddsOrdinal (ordinals_of words.old.items) (ordinals_of words.new.items) ordinal) }
    ensures unchanged { OnErr result (words.new.items ≡ words.old.items) }
    ensures room { words.old.capacity ≤ words.new.capacity }
    ensures grown { small_vec_len words.new ≤ small_vec_len words.old + 1 }
    ensures succeeds { small_vec_len words.old < words.old.capacity → IsOk result }
{
    insert_word(words, word_of(ordinal))
}

/// The words of one ordinal, without memory.
#[inline(always)]
pub(crate) fn words_of_one(alloc: Global, ordinal: u32) -> Words
    ensures words { AreWords result.items }
    ensures added { AddsOrdinal [] (ordinals_of result.items) ordinal }
{
    let word = word_of(ordinal);
    SmallVec::from_buf(alloc, [word])
}

/// The words of these ordinals. It is linear in ascending ones: those of one word come in together.
pub(crate) fn words_of(alloc: Global, ordinals: &[u32]) -> Result<Words, AllocError>
    ensures words { IfOk result (λ words. AreWords words.items) }
    ensures members { IfOk result (λ words. HasExactly (ordinals_of words.items) ordinals.now) }
{
    let mut words = SmallVec::new(alloc);
    let [first, rest @ ..] = ordinals else {
        return Ok(words);
    };
    let mut last = word_of(*first);
    for ordinal in rest {
        let word = word_of(*ordinal);
        if word.number == last.number {
            last.bits |= word.bits;
        } else {
            insert_word(&mut words, last)?;
            last = word;
        }
    }
    insert_word(&mut words, last)?;
    Ok(words)
}

/// A copy of the words, without memory where there is at most one.
#[inline(always)]
pub(crate) fn copied(alloc: Global, words: &[Word]) -> Result<Words, AllocError>
    ensures { IfOk result (λ copy. copy.items ≡ words.now) }
{
    match words {
        [] => Ok(SmallVec::new(alloc)),
        [only] => Ok(SmallVec::from_buf(alloc, [*only])),
        _ => SmallVec::from_slice(alloc, words),
    }
}

/// How many ordinals the words have.
pub(crate) fn count(words: &[Word]) -> usize
    requires { AreWords words.now }
    ensures { result ≡ length (ordinals_of words.now) }
{
    let mut total = 0;
    for word in words {
        total += word.bits.count_ones() as usize;
    }
    total
}

/// Whether the words have the same ordinals.
pub(crate) fn are_same(first: &[Word], second: &[Word]) -> bool
    requires first { AreWords first.now }
    requires second { AreWords second.now }
    ensures { IsTrue result ↔ (ordinals_of first.now ≡ ordinals_of second.now) }
{
    first == second
}
