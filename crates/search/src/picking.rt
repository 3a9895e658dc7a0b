//! What is decided: whether a package, and which version of it (doc/solver.md, "Decision Making").

ghost use Rattle.std.specs.Prelude.{◌≡◌, ◌<◌, true, false, not, None, IfNone, IfOk, IfSome, IsSome};
ghost use Rattle.registry.specs.Registry.{package_at};
ghost use Rattle.terms.specs.Terms.{true_of};
ghost use Rattle.search.specs.Assignments.{is_decided, says};
ghost use Rattle.search.specs.Picking.{is_choosable, AreBarred, IsBestOf, IsHighestChoosable, IsLockedWithin, IsToDecide, NoneChoosable, NoneLockedWithin, PicksBy};

use crate::solution::Partial;
use facts::is_package;
use oracle::Task;
use registry::ordinals_are_below_the_count;
use std::alloc::AllocError;
use terms::{Pkg, Term, VSet};
use versions::precedence_is_a_total_preorder;
use walk::{ahead_is_locked_or_higher, locked_ordinal};

// ---- the package

/// Whether a term says that its package is selected.
fn is_positive(term: &Term) -> bool
    ensures { result ≡ not (true_of term.now None) }
{
    match term {
        Term::In(_) => true,
        Term::NotIn(_) => false,
    }
}

/// Whether a package is selected and has no decision, by one look at what is settled of it.
fn is_open(partial: &Partial, pkg: Pkg) -> bool
    ensures undecided { result ≡ true → is_decided partial.now pkg ≡ false }
    ensures needed { result ≡ true → says partial.now pkg None ≡ false }
{
    match partial.settled(pkg) {
        None => false,
        Some(settled) => match settled.decision {
            Some(_) => false,
            None => is_positive(settled.said),
        },
    }
}

/// Whether a package is to be decided.
pub(crate) fn is_to_decide(task: &Task<'_>, partial: &Partial, pkg: Pkg) -> bool
    ensures { result ≡ true → IsToDecide task.now partial.now pkg }
{
    is_package(task, pkg) && is_open(partial, pkg)
}

// ---- the version

/// What may be decided of a package.
#[derive(Drop)]
pub(crate) enum Picked {
    /// This version.
    Version(u32),
    /// Nothing: these are the versions that are left, and none is allowed.
    Barred(VSet),
}

/// The version that the lock names, if it is allowed and within a term.
fn locked_within(task: &Task<'_>, pkg: Pkg, said: &Term) -> Option<u32>
    ensures some { IfSome result (IsLockedWithin task.now pkg said.now) }
    ensures none { IfNone result (NoneLockedWithin task.now pkg said.now) }
{
    let ordinal = locked_ordinal(task.registry, task.request, pkg)?;
    if is_choosable(task, pkg, said, ordinal) {
        Some(ordinal)
    } else {
        None
    }
}

/// Whether a version is allowed and within a term.
#[inline(always)]
fn is_choosable(task: &Task<'_>, pkg: Pkg, said: &Term, ordinal: u32) -> bool
    ensures { result ≡ is_choosable task.now pkg said.now ordinal }
{
    said.allows(ordinal) && task.registry.allowed(task.request, pkg, ordinal)
}

/// The highest version that is allowed and within a term.
fn highest_within(task: &Task<'_>, pkg: Pkg, said: &Term) -> Option<u32>
    ensures some { IfSome result (IsHighestChoosable task.now pkg said.now) }
    ensures none { IfNone result (NoneChoosable task.now pkg said.now) }
{
    task.registry
        .highest_where(pkg, |ordinal| is_choosable(task, pkg, said, ordinal))
}

/// The version to decide for: the lock's, else the highest that is allowed and within a term.
fn version_within(task: &Task<'_>, pkg: Pkg, said: &Term) -> Option<u32>
    ensures some { IfSome result (IsBestOf task.now pkg said.now) }
    ensures none { IfNone result (AreBarred task.now pkg said.now) }
{
    ahead_is_locked_or_higher();
    precedence_is_a_total_preorder();
    ordinals_are_below_the_count();
    match locked_within(task, pkg, said) {
        Some(ordinal) => Some(ordinal),
        None => highest_within(task, pkg, said),
    }
}

/// What may be decided of a package that is selected.
pub(crate) fn pick(task: &Task<'_>, partial: &Partial, pkg: Pkg) -> Result<Picked, AllocError>
    requires { says partial.now pkg None ≡ false }
    ensures { IfOk result (PicksBy task.now partial.now pkg) }
{
    let Some(said) = partial.said(pkg) else {
        unreachable!()
    };
    if let Some(ordinal) = version_within(task, pkg, said) {
        return Ok(Picked::Version(ordinal));
    }
    match said {
        Term::In(versions) => Ok(Picked::Barred(versions.copy(task.alloc)?)),
        Term::NotIn(_versions) => unreachable!(),
    }
}
