//! Decision making (doc/solver.md, "Decision Making").

ghost use Rattle.std.specs.Prelude.{◌≡◌, ℕ, true, false, Option, Some, IfErr, IfOk, IsSome};
ghost use Rattle.registry.specs.Registry.{is_published, package_at};
ghost use Rattle.terms.specs.Terms.{is_in};
ghost use Rattle.derivations.specs.Derivations.{NoneAllowed};
ghost use Rattle.search.specs.Assignments.{is_decided, says};
ghost use Rattle.search.specs.Deciding.{IsPlaced, IsTurnOf};
ghost use Rattle.search.specs.Picking.{IsToDecide};
ghost use Rattle.search.specs.Searching.{ActsBy, Searches};
ghost use Rattle.facts.specs.Tasks.{MayRefuse};

use crate::acting::{Acted, propagate_incompatibility};
use crate::entering::enter;
use crate::picking::{Picked, pick};
use crate::propagating::use_from;
use crate::search::Search;
use crate::worklist::Worklist;
use facts::push_barred;
use oracle::Task;
use registry::allowed_is_published;
use terms::{Pkg, VSet};
use versions::Refusal;

/// Uses that none of the versions that are left of a package is allowed.
fn bar(
    task: &Task<'_>,
    search: &mut Search,
    worklist: &mut Worklist,
    pkg: Pkg,
    versions: VSet,
) -> Result<Acted, Refusal>
    requires search { Searches task.now search.old }
    requires numbered { IsSome (package_at task.now.registry.now.packages pkg) }
    requires barred { NoneAllowed task.now.registry.now.packages task.now.request.now pkg versions }
    requires left { (choice : Option ℕ) → says search.old.partial pkg choice ≡ true → is_in versions choice ≡ true }
    ensures acts { IfOk result (ActsBy task.now search.old search.new ⊥) }
    ensures only { IfErr result (MayRefuse task.now.options.budget) }
{
    let at = push_barred(task, &mut search.known, pkg, versions)?;
    worklist.note(task.alloc, &search.known, at)?;
    Ok(propagate_incompatibility(task, search, at)?)
}

/// Decides for a version, unless one of its dependencies would be satisfied then, which is used instead
/// (doc/solver.md, "Decision Making").
fn decide_for(
    task: &Task<'_>,
    search: &mut Search,
    worklist: &mut Worklist,
    pkg: Pkg,
    ordinal: u32,
) -> Result<Acted, Refusal>
    requires search { Searches task.now search.old }
    requires published { is_published task.now.registry.now.packages pkg ordinal ≡ true }
    requires undecided { is_decided search.old.partial pkg ≡ false }
    requires within { says search.old.partial pkg (Some ordinal) ≡ true }
    requires placed { IsPlaced task.now.registry.now.packages task.now.request.now search.old.partial pkg ordinal }
    ensures acts { IfOk result (ActsBy task.now search.old search.new ⊥) }
    ensures only { IfErr result (MayRefuse task.now.options.budget) }
{
    let before = search.known.as_slice().len();
    enter(task, &mut search.known, worklist, pkg, ordinal)?;
    match use_from(task, search, pkg, before)? {
        Acted::Neither => {
            search.partial.decide(pkg, ordinal)?;
            Ok(Acted::Derived(pkg))
        }
        Acted::Derived(derived) => Ok(Acted::Derived(derived)),
        Acted::Backjumped(line, derived) => Ok(Acted::Backjumped(line, derived)),
        Acted::Refused(end) => Ok(Acted::Refused(end)),
    }
}

/// Decides on a package, or learns why it can't.
pub(crate) fn decide_on(
    task: &Task<'_>,
    search: &mut Search,
    worklist: &mut Worklist,
    pkg: Pkg,
) -> Result<Acted, Refusal>
    requires search { Searches task.now search.old }
    requires decide { IsToDecide task.now search.old.partial pkg }
    requires turn { IsTurnOf task.now search.old.partial pkg }
    ensures acts { IfOk result (ActsBy task.now search.old search.new ⊥) }
    ensures only { IfErr result (MayRefuse task.now.options.budget) }
{
    allowed_is_published();
    match pick(task, &search.partial, pkg)? {
        Picked::Version(ordinal) => Ok(decide_for(task, search, worklist, pkg, ordinal)?),
        Picked::Barred(versions) => Ok(bar(task, search, worklist, pkg, versions)?),
    }
}
