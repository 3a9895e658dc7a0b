//! What a request is answered.

ghost use Rattle.std.specs.Prelude.{true, All, None, Some};
ghost use Rattle.derivations.specs.Learning.{AllStand};
ghost use Rattle.solver.specs.Outcomes.{Solves};
ghost use Rattle.facts.specs.Tasks.{StoreStands};

use crate::look::Look;
use crate::outcome::Outcome;
use crate::stages::find;
use crate::telling::outcome_of;
use engine::{EngineOracle, Workspace};
use oracle::{Options, Oracle, Task};
use registry::{Registry, Request};
use std::alloc::Global;
use std::mem;
use store::Store;
use versions::Refusal;

/// Answers a task at a look.
fn answer<O: Oracle>(task: &Task<'_>, look: Look, oracle: &mut O) -> Result<Outcome, Refusal>
    requires { StoreStands task.now }
    ensures { Solves task.now.registry.now.packages task.now.request.now task.now.options result }
{
    let found = find(task, look, oracle)?;
    outcome_of(task, found)
}

/// As [`solve_in`], at a look. After [`Refusal::NoMemory`] the workspace is empty.
fn solve_at(
    alloc: Global,
    registry: &Registry,
    request: &Request,
    store: &Store,
    options: Options,
    look: Look,
    workspace: &mut Workspace,
) -> Result<Outcome, Refusal>
    requires stored { All (AllStand registry.now.packages) store.now.members }
    ensures { Solves registry.now.packages request.now options result }
{
    let task = Task {
        alloc,
        registry,
        request,
        store,
        options,
    };
    let taken = mem::replace(workspace, Workspace::new(alloc));
    let mut oracle = EngineOracle::in_workspace(task, taken);
    let outcome = answer(&task, look, &mut oracle);
    *workspace = oracle.into_workspace();
    if let Err(Refusal::NoMemory) = &outcome {
        // Its memory is what the next request may lack.
        *workspace = Workspace::new(alloc);
    }
    outcome
}

/// Answers a request: by its newest selection, or that none meets it, with the derivation of that where the options
/// ask for it. What is selected, refused and offered doesn't depend on whether they do. Where the preferred
/// selection exists and meets the request, it is the newest, and nothing is searched.
///
/// Under a budget at most so many conflicts are met: at the next one the answer is [`Refusal::BudgetSpent`], and
/// nothing is offered. Under every budget, 0 included, the preferred selection is the answer where it exists and
/// meets the request. The only other error is [`Refusal::NoMemory`].
///
/// Several searches may be made, and a budget counts the conflicts of all of them together.
///
/// A search that jumps back uses of the store what acts on the packages that it comes to, each with its
/// lines, so that a derivation carries them. It asks as many members as its own size allows, and what
/// the store says of other packages costs it nothing. What is offered to be learnt, the last part of
/// an outcome, is what conflicts led to, where it rests on premises alone, by the lines of members too.
/// Nothing is offered that the store has, nor to a store that is full, nor of a refusal for which the engine needs many
/// steps; and for lack of memory nothing is offered, where there is enough for the answer.
pub fn solve_with(
    alloc: Global,
    registry: &Registry,
    request: &Request,
    store: &Store,
    options: Options,
) -> Result<Outcome, Refusal>
    requires stored { All (AllStand registry.now.packages) store.now.members }
    ensures { Solves registry.now.packages request.now options result }
{
    let mut workspace = Workspace::new(alloc);
    let outcome = solve_in(alloc, registry, request, store, options, &mut workspace);
    drop(workspace);
    outcome
}

/// As [`solve_with`], in the workspace of earlier calls, which asked this registry, before it grew or since. A hard request
/// takes less time so. What is answered is the same, and so are the errors. After [`Refusal::NoMemory`] the workspace is empty.
pub fn solve_in(
    alloc: Global,
    registry: &Registry,
    request: &Request,
    store: &Store,
    options: Options,
    workspace: &mut Workspace,
) -> Result<Outcome, Refusal>
    requires stored { All (AllStand registry.now.packages) store.now.members }
    ensures { Solves registry.now.packages request.now options result }
{
    let look = Look::Whole.by(options);
    solve_at(alloc, registry, request, store, options, look, workspace)
}

/// As [`solve_in`], for a look at what may take long: at the next conflict after so many the answer is
/// [`Refusal::BudgetSpent`], unless a selection is chosen without a search. The budget of the options says only whether the
/// request names one.
pub fn solve_at_first(
    alloc: Global,
    registry: &Registry,
    request: &Request,
    store: &Store,
    options: Options,
    conflicts: u32,
    workspace: &mut Workspace,
) -> Result<Outcome, Refusal>
    requires stored { All (AllStand registry.now.packages) store.now.members }
    ensures { Solves registry.now.packages request.now (record { budget = Some conflicts; explain = options.explain }) result }
{
    let look = Look::First.by(options);
    let few = Options {
        budget: Some(conflicts),
        explain: options.explain,
    };
    solve_at(alloc, registry, request, store, few, look, workspace)
}

/// As [`solve_in`], of a request that [`solve_at_first`] left open: it is searched at once, since that found nothing without
/// a search. Under a budget nothing is left out, since none may be spent where the preferred selection serves. The errors
/// are those of [`solve_with`].
pub fn solve_looked_at(
    alloc: Global,
    registry: &Registry,
    request: &Request,
    store: &Store,
    options: Options,
    workspace: &mut Workspace,
) -> Result<Outcome, Refusal>
    requires stored { All (AllStand registry.now.packages) store.now.members }
    ensures { Solves registry.now.packages request.now options result }
{
    let look = Look::Again.by(options);
    solve_at(alloc, registry, request, store, options, look, workspace)
}

/// As [`solve_with`], with an oracle in place of the engine: it is asked where the request is hard. Whatever it says,
/// answers are right; where it is wrong they cost more time, and more conflicts if it counts some. The errors are
/// those of `solve_with`.
pub fn solve_by<O: Oracle>(
    alloc: Global,
    registry: &Registry,
    request: &Request,
    store: &Store,
    options: Options,
    oracle: &mut O,
) -> Result<Outcome, Refusal>
    requires stored { All (AllStand registry.now.packages) store.now.members }
    ensures { Solves registry.now.packages request.now options result }
{
    let task = Task {
        alloc,
        registry,
        request,
        store,
        options,
    };
    answer(&task, Look::Whole.by(options), oracle)
}

/// As [`solve_with`], without a budget; a refusal comes with its derivation.
pub fn solve(
    alloc: Global,
    registry: &Registry,
    request: &Request,
    store: &Store,
) -> Result<Outcome, Refusal>
    requires stored { All (AllStand registry.now.packages) store.now.members }
    ensures { Solves registry.now.packages request.now (record { budget = None; explain = true }) result }
{
    let options = Options {
        budget: None,
        explain: true,
    };
    solve_with(alloc, registry, request, store, options)
}

/// As [`solve_with`], under this budget; a refusal comes with its derivation.
pub fn solve_within(
    alloc: Global,
    registry: &Registry,
    request: &Request,
    store: &Store,
    budget: u32,
) -> Result<Outcome, Refusal>
    requires stored { All (AllStand registry.now.packages) store.now.members }
    ensures { Solves registry.now.packages request.now (record { budget = Some budget; explain = true }) result }
{
    let options = Options {
        budget: Some(budget),
        explain: true,
    };
    solve_with(alloc, registry, request, store, options)
}
