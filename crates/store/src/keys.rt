//! Keys of conclusions.

ghost use Rattle.std.specs.Prelude.{◌≡◌};
ghost use Rattle.store.specs.Keys.{key_of, stirred, stirred_all, stirred_term};

use terms::{Incompat, Term, VSet};

/// A number stirred into a key.
#[tactic(auto, unfolding(crate::specs::Keys::stirred))]
pub fn stirred(key: u64, number: u32) -> u64
    ensures { result ≡ stirred key number }
{
    key.wrapping_mul(1_099_511_628_211)
        .wrapping_add(u64::from(number))
}

fn stirred_all(key: u64, set: &VSet) -> u64
    ensures { result ≡ stirred_all key set.now }
{
    let mut stirring = key;
    for ordinal in set.iter() {
        stirring = stirred(stirring, ordinal);
    }
    stirring
}

fn stirred_term(key: u64, term: &Term) -> u64
    ensures { result ≡ stirred_term key term.now }
{
    match term {
        Term::In(set) => stirred_all(stirred(key, 1), set),
        Term::NotIn(set) => stirred_all(stirred(key, 2), set),
    }
}

/// The key of a conclusion: equal ones have one key, and others seldom.
pub fn key_of(conclusion: &Incompat) -> u64
    ensures { result ≡ key_of conclusion.now }
{
    let mut key = 0;
    let mut left = conclusion.terms();
    'stir: while let [entry, rest @ ..] = left {
        key = stirred_term(stirred(key, entry.0), &entry.1);
        left = rest;
    }
    key
}
