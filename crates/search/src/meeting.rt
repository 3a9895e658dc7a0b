//! What stands in the way of a selection, put back into the search.
//
// Each obstacle is a line that is satisfied, or almost satisfied, or whose target is to be decided; so
// whatever propagation left out, the search goes on.

ghost use Rattle.std.specs.Prelude.{◌≡◌, IfErr, IfOk, OnOk};
ghost use Rattle.search.specs.Assignments.{decided};
ghost use Rattle.registry.specs.Registry.{needs_of};
ghost use Rattle.walk.specs.Walks.{IsUnmetAt, ReachesBy};
ghost use Rattle.walk.specs.Listing.{EndsWith, IsListing, IsOrder};
ghost use Rattle.search.specs.Deciding.{IsTurnAt};
ghost use Rattle.search.specs.Searching.{ActsBy, Searches};
ghost use Rattle.facts.specs.Tasks.{MayRefuse};

use crate::acting::{Acted, propagate_incompatibility};
use crate::deciding::decide_on;
use crate::search::Search;
use crate::solution::Partial;
use crate::worklist::Worklist;
use facts::{push_dependency, push_need, versions_with};
use oracle::Task;
use registry::{matching_is_what_meets, publications_are_lawful};
use std::alloc::AllocError;
use terms::Pkg;
use versions::Refusal;
use walk::{Chooser, NextPackage, Order, Reached, reach};

/// Chooses what is decided.
#[derive(Clone, Copy)]
struct Decided<'a> {
    partial: &'a Partial,
}

impl Chooser for Decided<'_> {
    ghost chooses = { λ c. decided c.partial.now };

    fn choose(&self, pkg: Pkg) -> Option<u32> {
        self.partial.decision(pkg)
    }
}

/// The walk by the decisions.
pub(crate) fn walk_decided(task: &Task<'_>, partial: &Partial) -> Result<Reached, AllocError>
    ensures { IfOk result (ReachesBy task.now.registry.now.packages task.now.request.now (decided partial.now)) }
{
    let chooser = Decided { partial };
    reach(task.alloc, task.registry, task.request, &chooser)
}

/// The package that comes next in the order of the walk after what is decided, which is found again from where the
/// order was come to.
pub(crate) fn next_in_order(
    task: &Task<'_>,
    partial: &Partial,
    order: &mut Order,
) -> Result<Option<NextPackage>, AllocError>
    requires { IsOrder task.now.registry.now.packages task.now.request.now.needs order.old }
    ensures order { OnOk result (IsOrder task.now.registry.now.packages task.now.request.now.needs order.new) }
    ensures listing { OnOk result (IsListing task.now.registry.now.packages task.now.request.now.needs (decided partial.now) order.new.found.entries) }
    ensures ends { IfOk result (EndsWith task.now.registry.now.packages task.now.request.now.needs (decided partial.now) order.new.found.entries) }
{
    let chooser = Decided { partial };
    order.go_on(task.alloc, task.registry, task.request, &chooser)
}

/// Uses a need that the decisions don't meet.
pub(crate) fn meet_need(
    task: &Task<'_>,
    search: &mut Search,
    worklist: &mut Worklist,
    index: usize,
) -> Result<Acted, Refusal>
    requires search { Searches task.now search.old }
    requires unmet { IsUnmetAt task.now.registry.now.packages (decided search.old.partial) task.now.request.now.needs index }
    requires turn { IsTurnAt task.now search.old.partial task.now.request.now.needs index }
    ensures acts { IfOk result (ActsBy task.now search.old search.new ⊥) }
    ensures only { IfErr result (MayRefuse task.now.options.budget) }
{
    matching_is_what_meets();
    let _made = search.partial.assignments();
    let entry = &task.request.needs()[index];
    let at = push_need(task, &mut search.known, index)?;
    worklist.note(task.alloc, &search.known, at)?;
    let acted = propagate_incompatibility(task, search, at)?;
    match acted {
        Acted::Neither => match task.registry.number(&entry.0) {
            None => unreachable!(),
            Some(target) => Ok(decide_on(task, search, worklist, target)?),
        },
        Acted::Derived(_) | Acted::Backjumped(_, _) | Acted::Refused(_) => Ok(acted),
    }
}

/// Uses a dependency of a decided version that the decisions don't meet.
pub(crate) fn meet_dependency(
    task: &Task<'_>,
    search: &mut Search,
    worklist: &mut Worklist,
    pkg: Pkg,
    ordinal: u32,
    index: usize,
) -> Result<Acted, Refusal>
    requires search { Searches task.now search.old }
    requires chosen { decided search.old.partial pkg ≡ Some ordinal }
    requires unmet { IsUnmetAt task.now.registry.now.packages (decided search.old.partial) (needs_of task.now.registry.now.packages pkg ordinal) index }
    requires turn { IsTurnAt task.now search.old.partial (needs_of task.now.registry.now.packages pkg ordinal) index }
    ensures acts { IfOk result (ActsBy task.now search.old search.new ⊥) }
    ensures only { IfErr result (MayRefuse task.now.options.budget) }
{
    publications_are_lawful();
    // That names are numbered and no package needs itself is told with the count of packages.
    let _packages = task.registry.packages();
    let _made = search.partial.assignments();
    let facts = task.registry.facts(pkg, ordinal);
    let entry = &facts.needs[index];
    let Some(target) = task.registry.number(&entry.0) else {
        unreachable!()
    };
    let versions = versions_with(task, pkg, &entry.0, &entry.1)?;
    let within = task.registry.matching(target, &entry.1)?;
    let at = push_dependency(
        task,
        &mut search.known,
        pkg,
        versions,
        entry,
        target,
        within,
    )?;
    worklist.note(task.alloc, &search.known, at)?;
    let acted = propagate_incompatibility(task, search, at)?;
    match acted {
        Acted::Neither => Ok(decide_on(task, search, worklist, target)?),
        Acted::Derived(_) | Acted::Backjumped(_, _) | Acted::Refused(_) => Ok(acted),
    }
}
