//! The precedence of versions, and its laws.
ghost use Rattle.std.specs.Prelude.{◌≡◌};
ghost use Rattle.versions.specs.Precedence.{EqualPrecedenceIsATie, EqualPrecedenceIsAnEquivalence, PrecedenceIsATotalPreorder};
ghost use Rattle.versions.specs.Words.{precedence};

use crate::published::Published;
use std::cmp::Ordering;

/// Compares two versions by precedence (Semantic Versioning 2.0.0, section 11). Build metadata
/// does not count.
pub fn order(a: &Published, b: &Published) -> Ordering
    ensures { result ≡ precedence a.now b.now }
{
    a.parsed().cmp_precedence(b.parsed())
}

/// A law of [`order`]: any two versions compare, and precedence is transitive.
pub fn precedence_is_a_total_preorder()
    ensures { PrecedenceIsATotalPreorder }
{}

/// A law of [`order`]: equal precedence is reflexive, symmetric and transitive, and it is what
/// the order answers `Equal` of.
pub fn equal_precedence_is_an_equivalence()
    ensures equivalence { EqualPrecedenceIsAnEquivalence }
    ensures tie { EqualPrecedenceIsATie }
{}
