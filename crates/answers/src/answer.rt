//! The answer to one line, of a session and of a seat of a race alike.
ghost use Rattle.std.specs.Prelude.{◌⊎◌, ℕ, List, IfErr, IfOk};
ghost use Rattle.registry.specs.Commands.{change_of};
ghost use Rattle.solver.specs.Outcomes.{MayStop};
ghost use Rattle.wire.specs.Shapes as shapes;
ghost use Rattle.replies.specs.Replied.{body_of};
ghost use Rattle.answers.specs.Answering.{IsRead, IsReadWithin, LeadsTo};
ghost use Rattle.answers.specs.Lawful.{IsLawfulWithin, IsStopped, MayAnswer};
ghost use Rattle.answers.specs.Outcomes.{TellsFound};
ghost use Rattle.answers.specs.declared.settings.Settings.{Settings};

use crate::backend::Backend;
use crate::settings::Settings;
use crate::told::{reply_body_of, verdict_on};
use book::Item;
use by_name::NamedDerivation;
use derivations::Learnt;
use intake::RequestReader;
use registry::{Command, Request};
use replies::Body;
use solver::{Options, solve_with};
use std::alloc::Global;
use versions::Refusal;
use wire::Asked;

/// What is answered to a line, where the backend then stands.
#[derive(Drop)]
pub enum Answer {
    Told(Body<'static>),
    /// What a search found, and what it offers to be learnt once that is told.
    Found(Body<'static>, Vec<Learnt>),
    /// What is published, which the registry lends.
    Listing,
}

/// Answers a line, as the settings say where it does not.
pub fn answer_line<L: Backend>(
    alloc: Global,
    backend: &mut L,
    intake: &mut RequestReader,
    line: &[u8],
    settings: Settings,
) -> Answer
    ensures { LeadsTo L.ways (IsLawfulWithin settings L.ways line.now backend.old) result backend.new }
{
    let read = within(intake.read(alloc, line), settings);
    answer_read(alloc, backend, read)
}

/// What was read of a line, with the budget of the settings where it asks to resolve and names none. An error stays
/// as it is.
pub fn within(read: Result<Asked, Refusal>, settings: Settings) -> Result<Asked, Refusal>
    ensures { (line : List ℕ) → IsRead read line → IsReadWithin settings result line }
{
    match read {
        Ok(
            Asked::Resolve {
                request,
                explain,
                budget,
            },
        ) => Ok(Asked::Resolve {
            request,
            explain,
            budget: budget.or(settings.budget),
        }),
        Ok(asked) => Ok(asked),
        Err(fault) => Err(fault),
    }
}

/// Answers a line of which this was read, within whichever settings.
pub fn answer_read<L: Backend>(
    alloc: Global,
    backend: &mut L,
    read: Result<Asked, Refusal>,
) -> Answer
    ensures { (settings : Settings) (line : List ℕ) → IsReadWithin settings read line → LeadsTo L.ways (IsLawfulWithin settings L.ways line backend.old) result backend.new }
{
    match read {
        Ok(Asked::Command(command)) => enter(backend, command),
        Ok(
            Asked::Resolve {
                request,
                explain,
                budget,
            },
        ) => resolve(alloc, backend, &request, Options { budget, explain }),
        Ok(
            Asked::Check {
                request,
                derivation,
            },
        ) => judge(alloc, backend, &request, &derivation),
        Ok(Asked::Listing) => list(backend),
        Err(fault) => Answer::Told(Body::Refusal(fault)),
    }
}

/// Enters a command. The answer takes no memory, so that an accepted one is never told as 18.
fn enter<L: Backend>(backend: &mut L, command: Command) -> Answer
    ensures { LeadsTo L.ways (MayAnswer L.ways (shapes.command (change_of command)) backend.old) result backend.new }
{
    match backend.enter(Item::Command(command)) {
        Ok(()) => Answer::Told(Body::Accepted),
        Err(refusal) => Answer::Told(Body::Refusal(refusal)),
    }
}

/// Answers a request, after a look, with what the solver answers.
fn resolve<L: Backend>(
    alloc: Global,
    backend: &mut L,
    request: &Request,
    options: Options,
) -> Answer
    ensures { LeadsTo L.ways (MayAnswer L.ways (shapes.resolve request.now options.explain options.budget) backend.old) result backend.new }
{
    match found_by(alloc, backend, request, options) {
        Ok((told, offered)) => Answer::Found(told, offered),
        Err(e) => Answer::Told(Body::Refusal(e)),
    }
}

/// Judges a derivation, after a look.
fn judge<L: Backend>(
    alloc: Global,
    backend: &mut L,
    request: &Request,
    derivation: &NamedDerivation,
) -> Answer
    ensures { LeadsTo L.ways (MayAnswer L.ways (shapes.check request.now derivation.now) backend.old) result backend.new }
{
    match backend.look() {
        Ok(()) => Answer::Told(verdict_on(alloc, backend.registry(), request, derivation)),
        Err(e) => Answer::Told(Body::Refusal(e)),
    }
}

/// Lists what is published, after a look.
fn list<L: Backend>(backend: &mut L) -> Answer
    ensures { LeadsTo L.ways (MayAnswer L.ways shapes.listing backend.old) result backend.new }
{
    match backend.look() {
        Ok(()) => Answer::Listing,
        Err(e) => Answer::Told(Body::Refusal(e)),
    }
}

/// What is told of a request, after a look, and what is offered to be learnt.
fn found_by<L: Backend>(
    alloc: Global,
    backend: &mut L,
    request: &Request,
    options: Options,
) -> Result<(Body<'static>, Vec<Learnt>), Refusal>
    ensures looks { L.ways.looks backend.old backend.new }
    ensures told { IfOk result (λ r. TellsFound (L.ways.packages backend.new) request.now options.explain (body_of r.0)) }
    ensures only { IfErr result (λ e. IsStopped L.ways backend.new e ⊎ MayStop (L.ways.packages backend.new) request.now options.budget e) }
{
    backend.look()?;
    found_here(alloc, backend, request, options)
}

/// What is told of a request where the backend stands, and what is offered to be learnt.
fn found_here<L: Backend>(
    alloc: Global,
    backend: &L,
    request: &Request,
    options: Options,
) -> Result<(Body<'static>, Vec<Learnt>), Refusal>
    ensures told { IfOk result (λ r. TellsFound (L.ways.packages backend.now) request.now options.explain (body_of r.0)) }
    ensures only { IfErr result (MayStop (L.ways.packages backend.now) request.now options.budget) }
{
    let registry = backend.registry();
    let outcome = solve_with(alloc, registry, request, backend.store(), options)?;
    Ok(reply_body_of(alloc, registry, request, options, outcome)?)
}
