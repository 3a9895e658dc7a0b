//! What the registry and the request say, as lines.

ghost use Rattle.std.specs.Prelude.{◌≡◌, ◌≢◌, ◌<◌, ◌∷◌, [], ℕ, Some, length, IfOk, IsSome, OnOk};
ghost use Rattle.terms.specs.Sets.{has};
ghost use Rattle.terms.specs.declared.term.Term.TheVariants.{In};
ghost use Rattle.registry.specs.Registry.{meets_at, number_of, package_at};
ghost use Rattle.derivations.specs.Derivations.{IsFact, NoneAllowed};
ghost use Rattle.derivations.specs.Facts.{dependency, premise_terms, Stands};
ghost use Rattle.facts.specs.Pushing.{AreDependents, Extends, IsForNeed, SaysAt};

use derivations::{Cause, CausedIncompatibility, Premise, Reason, need_incompat};
use oracle::Task;
use std::alloc::AllocError;
use terms::{Incompat, Pkg, Term, VSet};
use versions::{Name, Need};

/// Puts a fact behind the lines, and answers its place.
fn push_fact(
    task: &Task<'_>,
    known: &mut Vec<CausedIncompatibility>,
    conclusion: Incompat,
    cause: Cause,
) -> Result<usize, AllocError>
    requires { IsFact task.now.registry.now.packages task.now.request.now cause conclusion }
    ensures extends { OnOk result (Extends task.now known.old.items known.new.items) }
    ensures place { IfOk result (SaysAt known.new.items conclusion) }
{
    let at = known.as_slice().len();
    known.push(CausedIncompatibility {
        conclusion,
        reason: Reason::Fact(cause),
    })?;
    Ok(at)
}

// ---- dependencies

/// Puts what a premise says behind the lines.
pub fn push_premise(
    task: &Task<'_>,
    known: &mut Vec<CausedIncompatibility>,
    premise: Premise,
) -> Result<usize, AllocError>
    requires { Stands task.now.registry.now.packages premise }
    ensures extends { OnOk result (Extends task.now known.old.items known.new.items) }
    ensures place { IfOk result (SaysAt known.new.items (premise_terms premise)) }
{
    let Some(conclusion) = premise.incompat(task.alloc)? else {
        unreachable!()
    };
    push_fact(task, known, conclusion, Cause::Premise(premise))
}

/// Puts a dependency behind the lines: these versions, which have it, need a version of the target that
/// meets it, which are those within a set. Where none does, they can't be chosen.
pub fn push_dependency(
    task: &Task<'_>,
    known: &mut Vec<CausedIncompatibility>,
    pkg: Pkg,
    versions: VSet,
    entry: &(Name, Need),
    target: Pkg,
    within: VSet,
) -> Result<usize, AllocError>
    requires apart { pkg ≢ target }
    requires numbered { number_of task.now.registry.now.packages entry.now.0 ≡ Some target }
    requires dependents { AreDependents task.now.registry.now.packages pkg entry.now versions }
    requires within { (k : ℕ) → has within k ≡ meets_at task.now.registry.now.packages target k entry.now.1 }
    ensures extends { OnOk result (Extends task.now known.old.items known.new.items) }
    ensures place { IfOk result (SaysAt known.new.items (dependency pkg versions target within)) }
{
    let premise = Premise {
        package: pkg,
        versions,
        target,
        need: entry.1.clone()?,
        within,
    };
    push_premise(task, known, premise)
}

// ---- the request

/// Puts the need with this index behind the lines.
pub fn push_need(
    task: &Task<'_>,
    known: &mut Vec<CausedIncompatibility>,
    index: usize,
) -> Result<usize, AllocError>
    requires { index < length task.now.request.now.needs }
    ensures extends { OnOk result (Extends task.now known.old.items known.new.items) }
    ensures place { IfOk result (IsForNeed task.now.registry.now.packages task.now.request.now.needs known.new.items index) }
{
    let entry = &task.request.needs()[index];
    let conclusion = need_incompat(task.alloc, task.registry, &entry.0, &entry.1)?;
    push_fact(task, known, conclusion, Cause::Need(index))
}

/// Puts behind the lines that none of these versions of a package is allowed.
pub fn push_barred(
    task: &Task<'_>,
    known: &mut Vec<CausedIncompatibility>,
    pkg: Pkg,
    versions: VSet,
) -> Result<usize, AllocError>
    requires numbered { IsSome (package_at task.now.registry.now.packages pkg) }
    requires barred { NoneAllowed task.now.registry.now.packages task.now.request.now pkg versions }
    ensures extends { OnOk result (Extends task.now known.old.items known.new.items) }
    ensures place { IfOk result (SaysAt known.new.items ((pkg, In versions) ∷ [])) }
{
    let term = Term::In(versions.copy(task.alloc)?);
    let conclusion = Incompat::single(task.alloc, pkg, term)?;
    let cause = Cause::NotAllowed(pkg, versions);
    push_fact(task, known, conclusion, cause)
}
