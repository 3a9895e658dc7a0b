//! What is left of a package: its versions of which a term is true.
//
// Most packages have fewer versions than a word has bits, and what is left of them is a word.

ghost use Rattle.std.specs.Prelude.{◌≡◌, ◌&&◌, ℕ, true, [], ◌∷◌, Option, Some, IfOk, IfSome};
ghost use Rattle.std.specs.Bool.{OnFalse};
ghost use Rattle.releases.specs.Matching.{ordinals_of};
ghost use Rattle.terms.specs.Sets.{has};
ghost use Rattle.terms.specs.Terms.{true_of};
ghost use Rattle.terms.specs.declared.term.Term.TheVariants.{In, NotIn};
ghost use Rattle.registry.specs.Registry.{is_published};
ghost use Rattle.walk.specs.Left.{term_of};

use registry::{Matching, Pkg, Registry};
use std::alloc::{AllocError, Global};
use terms::{LowSet, Term, VSet};

/// The versions of a package that are left.
#[derive(Drop)]
pub(crate) enum Left {
    /// Those of a set for which a word has room.
    Low(LowSet),
    /// Those of which a term is true. It stands apart, so that the others take less room.
    Any(Box<Term>),
}

/// The only version of a set, if it has one.
fn only_in(versions: &VSet) -> Option<u32>
    ensures { IfSome result (λ k. versions.now ≡ k ∷ []) }
{
    let mut ordinals = versions.iter();
    let first = ordinals.next()?;
    match ordinals.next() {
        None => Some(first),
        Some(_) => None,
    }
}

/// The versions of a set below the size of a word, a bit each. Nothing rests on it.
fn low_bits_of(versions: &VSet) -> u64 {
    let mut low = 0;
    for ordinal in versions.iter() {
        if ordinal < u64::BITS {
            low |= 1 << ordinal;
        }
    }
    low
}

impl Left {
    /// Those of which a term is true.
    pub(crate) fn any(alloc: Global, term: Term) -> Result<Left, AllocError>
        ensures { IfOk result (λ left. term_of left ≡ term) }
    {
        Ok(Left::Any(Box::new(alloc, term)?))
    }

    /// One version alone.
    pub(crate) fn single(alloc: Global, ordinal: u32) -> Result<Left, AllocError>
        ensures { IfOk result (λ left. term_of left ≡ In (ordinal ∷ [])) }
    {
        match LowSet::single(ordinal) {
            Some(set) => Ok(Left::Low(set)),
            None => Ok(Left::any(alloc, Term::In(VSet::single(alloc, ordinal)?))?),
        }
    }

    /// What is left as a term.
    fn term(&self, alloc: Global) -> Result<Term, AllocError>
        ensures { IfOk result (λ term. term ≡ term_of self.now) }
    {
        match self {
            Left::Low(set) => Ok(Term::In(set.set(alloc))),
            Left::Any(term) => term.copy(alloc),
        }
    }

    /// Whether a version is left.
    pub(crate) fn allows(&self, ordinal: u32) -> bool
        ensures { result ≡ true_of (term_of self.now) (Some ordinal) }
    {
        match self {
            Left::Low(set) => set.has(ordinal),
            Left::Any(term) => term.allows(ordinal),
        }
    }

    /// Whether some versions are left.
    pub(crate) fn is_some(&self) -> bool
        ensures { OnFalse result ((choice : Option ℕ) → true_of (term_of self.now) choice ≡ true → ⊥) }
    {
        match self {
            Left::Low(set) => !set.is_empty(),
            Left::Any(term) => match &**term {
                Term::In(versions) => !versions.is_empty(),
                Term::NotIn(_) => true,
            },
        }
    }

    /// The only version that is left, if one is.
    pub(crate) fn only(&self) -> Option<u32>
        ensures { IfSome result (λ k. term_of self.now ≡ In (k ∷ [])) }
    {
        match self {
            Left::Low(set) => set.only(),
            Left::Any(term) => match &**term {
                Term::In(versions) => only_in(versions),
                Term::NotIn(_) => None,
            },
        }
    }

    /// The versions below the size of a word that are left, a bit each. Nothing rests on it.
    pub(crate) fn low_bits(&self) -> u64 {
        match self {
            Left::Low(set) => set.bits(),
            Left::Any(term) => match &**term {
                Term::In(versions) => low_bits_of(versions),
                Term::NotIn(_) => u64::MAX,
            },
        }
    }

    /// Whether all versions that are left are in a set. Nothing rests on it.
    pub(crate) fn is_within(&self, set: &LowSet) -> bool {
        match self {
            Left::Low(left) => left.bits() & !set.bits() == 0,
            Left::Any(term) => match &**term {
                Term::In(versions) => versions.iter().all(|ordinal| set.has(ordinal)),
                Term::NotIn(_) => false,
            },
        }
    }

    /// Whether all versions that are left are in a matching set. Nothing rests on it.
    pub(crate) fn is_in(&self, matching: &Matching<'_>) -> bool {
        match self {
            Left::Low(left) => {
                (0..u64::BITS).all(|ordinal| !left.has(ordinal) || matching.has(ordinal))
            }
            Left::Any(term) => match &**term {
                Term::In(versions) => versions.iter().all(|ordinal| matching.has(ordinal)),
                Term::NotIn(_) => false,
            },
        }
    }

    /// Those of the versions of which a term is true.
    pub(crate) fn and(&self, alloc: Global, term: &Term) -> Result<Left, AllocError>
        ensures { IfOk result (λ both. (choice : Option ℕ) →
            true_of (term_of both) choice ≡ (true_of (term_of self.now) choice && true_of term.now choice)) }
    {
        let own = self.term(alloc)?;
        Ok(Left::any(alloc, own.and(alloc, term)?)?)
    }

    /// Those of the versions that are in a set.
    pub(crate) fn among(&self, alloc: Global, set: &LowSet) -> Result<Left, AllocError>
        ensures { IfOk result (λ both. (choice : Option ℕ) →
            true_of (term_of both) choice ≡ (true_of (term_of self.now) choice && true_of (In set.now) choice)) }
    {
        match self {
            Left::Low(left) => Ok(Left::Low(left.both(set))),
            Left::Any(_) => self.and(alloc, &Term::In(set.set(alloc))),
        }
    }

    /// The versions but one.
    pub(crate) fn without(&self, alloc: Global, ordinal: u32) -> Result<Left, AllocError>
        ensures { IfOk result (λ both. (choice : Option ℕ) →
            true_of (term_of both) choice ≡ (true_of (term_of self.now) choice && true_of (NotIn (ordinal ∷ [])) choice)) }
    {
        match self {
            Left::Low(left) => Ok(Left::Low(left.without(ordinal))),
            Left::Any(_) => self.and(alloc, &Term::NotIn(VSet::single(alloc, ordinal)?)),
        }
    }
}

/// Whether none of the versions of a package that are left is in a matching set.
pub(crate) fn is_apart(registry: &Registry, pkg: Pkg, left: &Left, matching: &Matching<'_>) -> bool
    ensures { result ≡ true → (k : ℕ) → is_published registry.now.packages pkg k ≡ true → true_of (term_of left.now) (Some k) ≡ true → has (ordinals_of matching.now) k ≡ true → ⊥ }
{
    let count = registry.version_count(pkg);
    for at in 0..count {
        // Those that were published last are left most often.
        let ordinal = count - 1 - at;
        if left.allows(ordinal) && matching.has(ordinal) {
            return false;
        }
    }
    true
}
