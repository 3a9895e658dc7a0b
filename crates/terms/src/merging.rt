//! Two sets read side by side, word by word.
//
// Most sets have one word. Where two such meet, what is left of a function here are a few steps, so
// it is inlined, and the rule is known where it is called.

ghost use Rattle.std.specs.Prelude.{◌≡◌, ℕ, [], length, List, IfNone, IfOk, IfSome, OnOk, true};
ghost use Rattle.terms.specs.Merges.{keeps, pushed, IsKept, IsOnlyWord};
ghost use Rattle.terms.specs.Merges as spec;
ghost use Rattle.terms.specs.Sets.{has, IsAscending};
ghost use Rattle.terms.specs.Words.{AreWords, ordinals_of};

use crate::words::{WORD_BITS, Word, Words};
use smallvec::SmallVec;
use std::alloc::{AllocError, Global};

/// Which ordinals of two sets are kept.
#[derive(Clone, Copy)]
pub enum Rule {
    Both,
    Either,
    FirstOnly,
}

#[inline(always)]
fn kept_bits(rule: Rule, first: u64, second: u64) -> u64
    ensures { result ≡ spec.kept_bits rule first second }
{
    match rule {
        Rule::Both => first & second,
        Rule::Either => first | second,
        Rule::FirstOnly => first & !second,
    }
}

/// Whether the rule keeps nothing of what is left of two sets, as far as their ends tell.
fn is_over(rule: Rule, left: &[Word], right: &[Word]) -> bool
    ensures { result ≡ spec.is_over rule left.now right.now }
{
    match rule {
        Rule::Both => left.is_empty() || right.is_empty(),
        Rule::Either => left.is_empty() && right.is_empty(),
        Rule::FirstOnly => left.is_empty(),
    }
}

/// The least number of two lists of words.
fn least_number(left: &[Word], right: &[Word]) -> u32
    ensures { result ≡ spec.least_number left.now right.now }
{
    match (left, right) {
        ([], [b, ..]) => b.number,
        ([a, ..], []) => a.number,
        ([a, ..], [b, ..]) => a.number.min(b.number),
        ([], []) => 0,
    }
}

/// The bits of the word at the front, where it has this number.
fn front_bits(words: &[Word], number: u32) -> u64
    ensures { result ≡ spec.front_bits words.now number }
{
    match words {
        [first, ..] if first.number == number => first.bits,
        _ => 0,
    }
}

/// The words behind the one with this number.
fn behind(words: &[Word], number: u32) -> &[Word]
    ensures { result.now ≡ spec.behind words.now number }
{
    match words {
        [first, rest @ ..] if first.number == number => rest,
        _ => words,
    }
}

/// What the rule keeps of two sets that have one word each, with the same number, as most sets do.
/// It may be zero.
#[inline(always)]
fn only_word(rule: Rule, first: &[Word], second: &[Word]) -> Option<Word>
    ensures { IfSome result (IsOnlyWord rule first.now second.now) }
{
    match (first, second) {
        ([a], [b]) if a.number == b.number => Some(Word {
            number: a.number,
            bits: kept_bits(rule, a.bits, b.bits),
        }),
        _ => None,
    }
}

/// Puts a word at the end, unless it is zero.
fn push_word(words: &mut Words, word: Word) -> Result<(), AllocError>
    ensures { OnOk result (words.new.items ≡ pushed words.old.items word.number word.bits) }
{
    if word.bits != 0 {
        words.push(word)?;
    }
    Ok(())
}

/// The words of what the rule keeps of two sets.
#[inline(always)]
pub(crate) fn combined(
    alloc: Global,
    rule: Rule,
    first: &[Word],
    second: &[Word],
) -> Result<Words, AllocError>
    requires first { AreWords first.now }
    requires second { AreWords second.now }
    ensures words { IfOk result (λ words. AreWords words.items) }
    ensures kept { IfOk result (λ words.
        IsKept rule (ordinals_of first.now) (ordinals_of second.now) (ordinals_of words.items)) }
{
    let mut kept = SmallVec::new(alloc);
    if let Some(word) = only_word(rule, first, second) {
        push_word(&mut kept, word)?;
        return Ok(kept);
    }
    let mut left = first;
    let mut right = second;
    'merge: while !is_over(rule, left, right) {
        let number = least_number(left, right);
        let bits = kept_bits(rule, front_bits(left, number), front_bits(right, number));
        push_word(&mut kept, Word { number, bits })?;
        left = behind(left, number);
        right = behind(right, number);
    }
    Ok(kept)
}

/// The lowest ordinal that the rule keeps of two sets.
#[inline(always)]
pub(crate) fn first_kept(rule: Rule, first: &[Word], second: &[Word]) -> Option<u32>
    requires first { AreWords first.now }
    requires second { AreWords second.now }
    ensures none { IfNone result (IsKept rule (ordinals_of first.now) (ordinals_of second.now) []) }
    ensures some { IfSome result (λ k.
        keeps rule (has (ordinals_of first.now) k) (has (ordinals_of second.now) k) ≡ true) }
{
    if let Some(word) = only_word(rule, first, second) {
        if word.bits == 0 {
            return None;
        }
        return Some(word.number * WORD_BITS + word.bits.trailing_zeros());
    }
    let mut left = first;
    let mut right = second;
    'merge: while !is_over(rule, left, right) {
        let number = least_number(left, right);
        let bits = kept_bits(rule, front_bits(left, number), front_bits(right, number));
        if bits != 0 {
            return Some(number * WORD_BITS + bits.trailing_zeros());
        }
        left = behind(left, number);
        right = behind(right, number);
    }
    None
}

/// How many ordinals the rule keeps of two sets: as many as the set of them has.
pub(crate) fn count_kept(rule: Rule, first: &[Word], second: &[Word]) -> usize
    requires first { AreWords first.now }
    requires second { AreWords second.now }
    ensures { (set : List ℕ) → IsAscending set
        → IsKept rule (ordinals_of first.now) (ordinals_of second.now) set → result ≡ length set }
{
    if let Some(word) = only_word(rule, first, second) {
        return word.bits.count_ones() as usize;
    }
    let mut total = 0;
    let mut left = first;
    let mut right = second;
    'merge: while !is_over(rule, left, right) {
        let number = least_number(left, right);
        let bits = kept_bits(rule, front_bits(left, number), front_bits(right, number));
        total += bits.count_ones() as usize;
        left = behind(left, number);
        right = behind(right, number);
    }
    total
}
