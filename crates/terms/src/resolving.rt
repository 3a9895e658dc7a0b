//! The incompatibility that follows from two on a pivot.

ghost use Rattle.std.specs.Prelude.{◌≡◌, ℕ, Option, IfOk, IfSome};
ghost use Rattle.std.specs.Option.{option_copied};
ghost use Rattle.terms.specs.Fronts.{true_where, IsJoined};
ghost use Rattle.terms.specs.Fronts as spec;
ghost use Rattle.terms.specs.Incompats.{AreTerms, Follows, IsIncompat, IsOnlyResolvent};
ghost use Rattle.terms.specs.Terms.{true_of, CanBeFalse, IsTerm};

use crate::incompat::{Incompat, Pkg, can_be_false};
use crate::term::Term;
use std::alloc::{AllocError, Global};

/// The least package of two lists of terms.
fn least_package(left: &[(Pkg, Term)], right: &[(Pkg, Term)]) -> Pkg
    ensures { result ≡ spec.least_package left.now right.now }
{
    match (left, right) {
        ([], [b, ..]) => b.0,
        ([a, ..], []) => a.0,
        ([a, ..], [b, ..]) => a.0.min(b.0),
        ([], []) => 0,
    }
}

/// The term at the front, where it is on this package.
fn front_term(terms: &[(Pkg, Term)], pkg: Pkg) -> Option<&Term>
    ensures { option_copied result ≡ spec.front_term terms.now pkg }
{
    match terms {
        [first, ..] if first.0 == pkg => Some(&first.1),
        _ => None,
    }
}

/// The terms behind the one on this package.
fn behind_package(terms: &[(Pkg, Term)], pkg: Pkg) -> &[(Pkg, Term)]
    ensures { result.now ≡ spec.behind_package terms.now pkg }
{
    match terms {
        [first, rest @ ..] if first.0 == pkg => rest,
        _ => terms,
    }
}

/// What follows of two terms on one package: on the pivot one of both, elsewhere both.
#[inline(always)]
fn joined_term(
    alloc: Global,
    is_pivot: bool,
    first: Option<&Term>,
    second: Option<&Term>,
) -> Result<Option<Term>, AllocError>
    ensures exact { IfOk result
        (IsJoined is_pivot (option_copied first.entry) (option_copied second.entry)) }
    ensures ascending { IfOk result (λ term. IfSome term IsTerm) }
{
    match (first, second) {
        (Some(a), Some(b)) => {
            if is_pivot {
                Ok(Some(a.or(alloc, b)?))
            } else {
                Ok(Some(a.and(alloc, b)?))
            }
        }
        (Some(only), None) | (None, Some(only)) => {
            if is_pivot {
                Ok(None)
            } else {
                Ok(Some(only.copy(alloc)?))
            }
        }
        (None, None) => Ok(None),
    }
}

/// The same, left out where it always holds.
#[inline(always)]
fn kept_term(
    alloc: Global,
    is_pivot: bool,
    first: Option<&Term>,
    second: Option<&Term>,
) -> Result<Option<Term>, AllocError>
    ensures exact { IfOk result
        (IsJoined is_pivot (option_copied first.entry) (option_copied second.entry)) }
    ensures kept { IfOk result (λ term. IfSome term CanBeFalse) }
    ensures ascending { IfOk result (λ term. IfSome term IsTerm) }
{
    match joined_term(alloc, is_pivot, first, second)? {
        Some(term) => Ok(unless_always(term)),
        None => Ok(None),
    }
}

/// The term, unless it always holds.
#[inline(always)]
fn unless_always(term: Term) -> Option<Term>
    ensures same { (choice : Option ℕ) → true_where result choice ≡ true_of term choice }
    ensures kept { IfSome result CanBeFalse }
    ensures ascending { IsTerm term → IfSome result IsTerm }
{
    if can_be_false(&term) {
        Some(term)
    } else {
        None
    }
}

fn resolved(
    alloc: Global,
    first: &[(Pkg, Term)],
    second: &[(Pkg, Term)],
    pivot: Pkg,
) -> Result<Vec<(Pkg, Term)>, AllocError>
    requires first { IsIncompat first.now }
    requires second { IsIncompat second.now }
    ensures ordered { IfOk result (λ terms. IsIncompat terms.items) }
    ensures follows { IfOk result (λ terms. Follows terms.items first.now second.now pivot) }
    ensures ascending { IfOk result (λ terms. AreTerms terms.items) }
{
    // The pivot is in both, and what is left of it stands there once at most.
    let room = (first.len() + second.len()).saturating_sub(1);
    let mut kept = Vec::with_capacity(alloc, room)?;
    let mut left = first;
    let mut right = second;
    'merge: while left.len() > 0 || right.len() > 0 {
        let pkg = least_package(left, right);
        let on_left = front_term(left, pkg);
        let on_right = front_term(right, pkg);
        match kept_term(alloc, pkg == pivot, on_left, on_right)? {
            Some(term) => kept.push((pkg, term))?,
            None => {}
        }
        left = behind_package(left, pkg);
        right = behind_package(right, pkg);
    }
    Ok(kept)
}

/// The incompatibility that follows from two on a pivot: there the `or` of both terms, on every
/// other package the `and`, a missing term counting as always true. It is the prior cause of
/// doc/solver.md, "Conflict Resolution". Linear in the terms and their sets.
pub fn resolve(
    alloc: Global,
    first: &Incompat,
    second: &Incompat,
    pivot: Pkg,
) -> Result<Incompat, AllocError>
    ensures follows { IfOk result (λ incompat. Follows incompat first.now second.now pivot) }
    ensures lawful { IfOk result IsIncompat }
    ensures ascending { IfOk result AreTerms }
    ensures only { IfOk result (IsOnlyResolvent first.now second.now pivot) }
{
    Ok(Incompat::of_terms(resolved(alloc, first.terms(), second.terms(), pivot)?))
}
