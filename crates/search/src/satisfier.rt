//! The satisfier of an incompatibility, and the previous level.

ghost use Rattle.std.specs.Prelude.{◌≡◌, ◌≤◌, ◌<◌, ◌+◌, ◌||◌, Option, Some, ℕ, length, not, take, true, false, IfNone, IfOk, IfSome};
ghost use Rattle.terms.specs.Incompats.{IsIncompat};
ghost use Rattle.terms.specs.Terms.{true_of, Exception, Implies};
ghost use Rattle.search.specs.Assignments.{LevelsFrom};
ghost use Rattle.search.specs.Trail.{through, IsTrail, IsPlaceOn};
ghost use Rattle.search.specs.Reach.{Holds, IsHeldBefore, IsReach, IsShortestOn};
ghost use Rattle.search.specs.Satisfying.{Satisfied, IsSatisfier};

use crate::trail::{SHALLOW, Trail, last_on, level_of, said_at};
use std::alloc::{AllocError, Global};
use terms::{Pkg, Relation, Term, relation};

/// How far the assignments must go to satisfy terms.
#[derive(Clone, Copy)]
struct Reach {
    /// How many assignments it takes, from the first on.
    count: usize,
    /// The place of the term on the package of the last one of these.
    own: usize,
    /// How many it takes for the other terms.
    others: usize,
}

/// Whether a term must hold where another does.
#[inline(always)]
fn implies(said: &Term, term: &Term) -> bool
    ensures yes { result ≡ true → Implies said.now term.now }
    ensures no { result ≡ false → Exception said.now term.now }
{
    match relation(said, term) {
        Relation::Satisfies => true,
        Relation::Contradicts => false,
        Relation::Inconclusive => false,
    }
}

/// Whether a place, if it is one, is before another, with an assignment on a package.
fn is_before(trail: &Trail, place: Option<usize>, at: usize, pkg: Pkg) -> bool
    ensures { result ≡ true → IsPlaceOn trail.now.made.items pkg place × (through place ≤ at) }
{
    match place {
        None => true,
        Some(far) => match trail.made.as_slice().get(far) {
            None => false,
            Some(a) => far < at && a.pkg == pkg,
        },
    }
}

/// The place where a jump back along a package ends, if the term holds with the assignments up to there.
#[inline(always)]
fn jump(trail: &Trail, at: usize, entry: &(Pkg, Term)) -> Option<Option<usize>>
    requires kept { IsTrail trail.now }
    requires on { IsPlaceOn trail.now.made.items entry.now.0 (Some at) }
    ensures { IfSome result (IsHeldBefore trail.now.made.items entry.now.0 entry.now.1 at) }
{
    let note = &trail.notes[at];
    let far = note.jump.far;
    if note.jump.depth <= SHALLOW || far == note.earlier || !is_before(trail, far, at, entry.0) {
        return None;
    }
    if implies(said_at(trail, far), &entry.1) {
        Some(far)
    } else {
        None
    }
}

/// A place further back on a package up to which the term holds, if it does not only do from this one on.
#[inline(always)]
fn step_back(trail: &Trail, at: usize, entry: &(Pkg, Term)) -> Option<Option<usize>>
    requires kept { IsTrail trail.now }
    requires on { IsPlaceOn trail.now.made.items entry.now.0 (Some at) }
    requires holds { Holds (take (through (Some at)) trail.now.made.items) entry.now.0 entry.now.1 }
    ensures some { IfSome result (IsHeldBefore trail.now.made.items entry.now.0 entry.now.1 at) }
    ensures none { IfNone result (IsShortestOn trail.now.made.items entry.now.0 entry.now.1 (at + 1)) }
{
    if let Some(far) = jump(trail, at, entry) {
        return Some(far);
    }
    let earlier = trail.notes[at].earlier;
    if implies(said_at(trail, earlier), &entry.1) {
        Some(earlier)
    } else {
        None
    }
}

/// How many assignments it takes, from the first on, until a package's term must hold, where it must
/// with those up to the place `last`. Where it takes fewer than `enough`, the answer may be any number below
/// that which will do. This looks at few of the assignments on that package, and at no other.
fn shortest_on(trail: &Trail, last: Option<usize>, entry: &(Pkg, Term), enough: usize) -> usize
    requires kept { IsTrail trail.now }
    requires on { IsPlaceOn trail.now.made.items entry.now.0 last }
    requires holds { Holds (take (through last) trail.now.made.items) entry.now.0 entry.now.1 }
    ensures shortest { enough ≤ result → IsShortestOn trail.now.made.items entry.now.0 entry.now.1 result }
    ensures holds { Holds (take result trail.now.made.items) entry.now.0 entry.now.1 }
    ensures within { result ≤ through last }
{
    let mut place = last;
    'walk: while let Some(at) = place {
        if at + 1 < enough {
            return at + 1;
        }
        match step_back(trail, at, entry) {
            None => return at + 1,
            Some(before) => place = before,
        }
    }
    0
}

/// How far the assignments must go to satisfy terms, which they do.
fn reach_of(trail: &Trail, terms: &[(Pkg, Term)]) -> Reach
    requires kept { IsTrail trail.now }
    requires lawful { IsIncompat terms.now }
    requires some { 0 < length terms.now }
    requires satisfied { Satisfied trail.now.made.items terms.now }
    ensures { IsReach trail.now.made.items terms.now result.count result.own result.others }
{
    let mut reach = Reach {
        count: 0,
        own: 0,
        others: 0,
    };
    for (i, entry) in terms.iter().enumerate() {
        let count = shortest_on(trail, last_on(trail, entry.0), entry, reach.others);
        if count > reach.count {
            reach = Reach {
                count,
                own: i,
                others: reach.count,
            };
        } else {
            reach.others = reach.others.max(count);
        }
    }
    reach
}

/// The term that must hold before an assignment so that with it another term holds.
fn rest_of(alloc: Global, assigned: &Term, term: &Term) -> Result<Term, AllocError>
    ensures { IfOk result (λ rest. (choice : Option ℕ) → true_of rest choice ≡ (not (true_of assigned.now choice) || true_of term.now choice)) }
{
    let negated = assigned.copy(alloc)?.negate();
    let rest = negated.or(alloc, term);
    drop(negated);
    rest
}

/// The satisfier's place and the previous level.
pub(crate) fn satisfier_of(
    alloc: Global,
    trail: &Trail,
    terms: &[(Pkg, Term)],
) -> Result<(usize, usize), AllocError>
    requires kept { IsTrail trail.now }
    requires levels { LevelsFrom 0 trail.now.made.items }
    requires lawful { IsIncompat terms.now }
    requires some { 0 < length terms.now }
    requires satisfied { Satisfied trail.now.made.items terms.now }
    ensures { IfOk result (λ found. IsSatisfier trail.now.made.items terms.now found.0 found.1) }
{
    let reach = reach_of(trail, terms);
    let index = reach.count - 1;
    let own = &terms[reach.own];
    let rest = (own.0, rest_of(alloc, &trail.made[index].term, &own.1)?);
    let alone = shortest_on(trail, trail.notes[index].earlier, &rest, 0);
    drop(rest);
    let before = alone.max(reach.others);
    let level = level_of(&trail.made[..before]);
    Ok((index, level.max(1)))
}
