//! The turns of a search (doc/solver.md, "The Algorithm").

ghost use Rattle.std.specs.Prelude.{◌≡◌, None, IfErr, IfOk, OnOk};
ghost use Rattle.search.specs.Assignments.{decided};
ghost use Rattle.walk.specs.Listing.{IsAskedAt, IsOrder};
ghost use Rattle.search.specs.Answering.{EndsBy, TurnsBy};
ghost use Rattle.search.specs.Deciding.{IsEndOfOrder, IsTurnOf};
ghost use Rattle.search.specs.Searching.{ActsBy, Searches};
ghost use Rattle.facts.specs.Tasks.{MayRefuse};

use crate::acting::Acted;
use crate::deciding::decide_on;
use crate::meeting::{meet_dependency, meet_need, next_in_order, walk_decided};
use crate::picking::is_to_decide;
use crate::propagating::propagate;
use crate::search::Search;
use crate::worklist::Worklist;
use derivations::kept_lines_hold;
use oracle::Task;
use terms::Pkg;
use versions::Refusal;
use walk::{
    Asker, NextPackage, Order, Reached, a_list_in_order_is_its_selection,
    there_is_one_list_in_order, what_is_asked_is_listed,
};

/// What a turn of the search did.
#[derive(Drop)]
pub(crate) enum Turned {
    Acted(Acted),
    Selected(Vec<(Pkg, u32)>),
}

/// What a search ends in.
#[derive(Drop)]
pub enum Ended {
    /// The newest selection: packages with the ordinals of their versions.
    Selected(Vec<(Pkg, u32)>),
    /// The place of a line without terms.
    Refused(usize),
}

/// Walks by the decisions, where nothing comes next: to the newest selection, or to what is still in its way.
fn finish(task: &Task<'_>, search: &mut Search, worklist: &mut Worklist) -> Result<Turned, Refusal>
    requires search { Searches task.now search.old }
    requires ended { IsEndOfOrder task.now search.old.partial }
    ensures turns { IfOk result (TurnsBy task.now search.old search.new) }
    ensures only { IfErr result (MayRefuse task.now.options.budget) }
{
    kept_lines_hold();
    a_list_in_order_is_its_selection();
    what_is_asked_is_listed();
    let _made = search.partial.assignments();
    match walk_decided(task, &search.partial)? {
        Reached::Selection(list) => Ok(Turned::Selected(list)),
        Reached::Unmet(Asker::Request, index) => {
            Ok(Turned::Acted(meet_need(task, search, worklist, index)?))
        }
        Reached::Unmet(Asker::Version(pkg, ordinal), index) => Ok(Turned::Acted(meet_dependency(
            task, search, worklist, pkg, ordinal, index,
        )?)),
        Reached::NotAllowed(_pkg, _ordinal) => unreachable!(),
    }
}

/// Decides on the package that comes next in the order of the walk, or uses the line that asks for it.
fn decide_next(
    task: &Task<'_>,
    search: &mut Search,
    worklist: &mut Worklist,
    next: NextPackage,
) -> Result<Acted, Refusal>
    requires search { Searches task.now search.old }
    requires turn { IsTurnOf task.now search.old.partial next.pkg }
    requires undecided { decided search.old.partial next.pkg ≡ None }
    requires asked { IsAskedAt task.now.registry.now.packages task.now.request.now.needs (decided search.old.partial) next }
    ensures acts { IfOk result (ActsBy task.now search.old search.new ⊥) }
    ensures only { IfErr result (MayRefuse task.now.options.budget) }
{
    if is_to_decide(task, &search.partial, next.pkg) {
        return Ok(decide_on(task, search, worklist, next.pkg)?);
    }
    match next.asker {
        Asker::Request => Ok(meet_need(task, search, worklist, next.index)?),
        Asker::Version(pkg, ordinal) => Ok(meet_dependency(
            task, search, worklist, pkg, ordinal, next.index,
        )?),
    }
}

/// Goes on in the order of the walk: decides on the package that comes next, else walks.
fn go_on(
    task: &Task<'_>,
    search: &mut Search,
    worklist: &mut Worklist,
    order: &mut Order,
) -> Result<Turned, Refusal>
    requires search { Searches task.now search.old }
    requires order { IsOrder task.now.registry.now.packages task.now.request.now.needs order.old }
    ensures turns { IfOk result (TurnsBy task.now search.old search.new) }
    ensures order { OnOk result (IsOrder task.now.registry.now.packages task.now.request.now.needs order.new) }
    ensures only { IfErr result (MayRefuse task.now.options.budget) }
{
    there_is_one_list_in_order();
    let _made = search.partial.assignments();
    match next_in_order(task, &search.partial, order)? {
        Some(next) => Ok(Turned::Acted(decide_next(task, search, worklist, next)?)),
        None => Ok(finish(task, search, worklist)?),
    }
}

/// One turn: propagation, else a decision, else the walk.
fn turn(
    task: &Task<'_>,
    search: &mut Search,
    worklist: &mut Worklist,
    order: &mut Order,
) -> Result<Turned, Refusal>
    requires search { Searches task.now search.old }
    requires order { IsOrder task.now.registry.now.packages task.now.request.now.needs order.old }
    ensures turns { IfOk result (TurnsBy task.now search.old search.new) }
    ensures order { OnOk result (IsOrder task.now.registry.now.packages task.now.request.now.needs order.new) }
    ensures only { IfErr result (MayRefuse task.now.options.budget) }
{
    match propagate(task, search, worklist)? {
        Acted::Neither => Ok(go_on(task, search, worklist, order)?),
        Acted::Derived(pkg) => Ok(Turned::Acted(Acted::Derived(pkg))),
        Acted::Backjumped(line, pkg) => Ok(Turned::Acted(Acted::Backjumped(line, pkg))),
        Acted::Refused(end) => Ok(Turned::Acted(Acted::Refused(end))),
    }
}

/// Searches until there is an answer. It ends since the rank falls with each turn, without a bound
/// on turns.
pub(crate) fn run(
    task: &Task<'_>,
    search: &mut Search,
    worklist: &mut Worklist,
) -> Result<Ended, Refusal>
    requires { Searches task.now search.old }
    ensures ends { IfOk result (EndsBy task.now search.new.known.items) }
    ensures only { IfErr result (MayRefuse task.now.options.budget) }
{
    let mut order = Order::new(task.alloc);
    'search: loop {
        let before = search.known.as_slice().len();
        match turn(task, search, worklist, &mut order)? {
            Turned::Selected(list) => return Ok(Ended::Selected(list)),
            Turned::Acted(Acted::Refused(end)) => return Ok(Ended::Refused(end)),
            Turned::Acted(acted) => worklist.follow(task.alloc, &search.known, before, acted)?,
        }
    }
}
