//! The ordinals of a set, one after another.

ghost use Rattle.std.specs.Prelude.{◌≡◌, ◌<◌, ◌∷◌, [], IfNone, IfSome};
ghost use Rattle.std.specs.Iterator.{YieldsFirst, item_count};
ghost use Rattle.terms.specs.Words.{AreWords, IsCursor, ordinals_of};

use crate::words::{WORD_BITS, Word};
use std::marker::Model;

/// An iterator over the ordinals of a set, ascending, seen as the list of those that are left.
#[derive(Drop)]
pub struct Ordinals<'a> {
    // what is left of the word at hand
    word: Word,
    rest: &'a [Word],
}

impl<'a> Model for Ordinals<'a> {
    ghost use Rattle.std.specs.Prelude.{◌∷◌, ℕ, List};
    ghost use Rattle.terms.specs.Words.{IsCursor, ordinals_of};

    ghost Value = { List ℕ };

    ghost view = { λ s. ordinals_of (s.word ∷ s.rest.now) };

    ghost invariant = { λ s. IsCursor s.word s.rest.now };
}

/// The ordinals of the words.
pub(crate) fn ordinals_in(words: &[Word]) -> Ordinals<'_>
    requires { AreWords words.now }
    ensures { result ≡ ordinals_of words.now }
{
    Ordinals {
        word: Word { number: 0, bits: 0 },
        rest: words,
    }
}

/// The word that has the next ordinal, and those behind it.
fn next_word<'a>(word: Word, rest: &'a [Word]) -> Option<(Word, &'a [Word])>
    requires { IsCursor word rest.now }
    ensures none { IfNone result (ordinals_of (word ∷ rest.now) ≡ []) }
    ensures same { IfSome result (λ left.
        ordinals_of (left.0 ∷ left.1.now) ≡ ordinals_of (word ∷ rest.now)) }
    ensures some { IfSome result (λ left. 0 < left.0.bits) }
    ensures lawful { IfSome result (λ left. IsCursor left.0 left.1.now) }
{
    if word.bits != 0 {
        return Some((word, rest));
    }
    let (first, others) = rest.split_first()?;
    Some((*first, others))
}

impl<'a> Iterator for Ordinals<'a> {
    type Item = u32;

    ghost next_gives = { YieldsFirst (λ left. left) };

    ghost remaining = { item_count (λ left. left) };

    fn next(&mut self) -> Option<u32> {
        let (word, rest) = next_word(self.word, self.rest)?;
        self.word = Word {
            number: word.number,
            bits: word.bits & (word.bits - 1),
        };
        self.rest = rest;
        Some(word.number * WORD_BITS + word.bits.trailing_zeros())
    }
}
