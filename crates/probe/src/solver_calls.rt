//! Calls of the solver. Each is answered by the outcome, and by what it offers to be learnt.

ghost use Rattle.std.specs.Prelude.{All};
ghost use Rattle.derivations.specs.Learning.{AllStand};

use crate::oracles::{Liar, lie_at};
use crate::outcomes::{offered, options_at, put_outcome};
use derivations::Learnt;
use oracle::Task;
use registry::{Registry, Request};
use rows::{AnswerText, CallResult, Shows, Unread, request_at, whole_at};
use serde_json::Value;
use solver::{
    Options, Outcome, Workspace, solve, solve_at_first, solve_by, solve_in, solve_looked_at,
    solve_with, solve_within,
};
use std::alloc::Global;
use store::Store;
use versions::Refusal;

pub fn solver_call(
    alloc: Global,
    registry: &Registry,
    name: &str,
    row: &Value,
) -> Result<CallResult, Unread> {
    let request = request_at(alloc, row)?;
    let outcome = answered(alloc, registry, &request, name, row);
    drop(request);
    told(alloc, name, outcome?)
}

fn answered(
    alloc: Global,
    registry: &Registry,
    request: &Request,
    name: &str,
    row: &Value,
) -> Result<Outcome, Unread> {
    let options = options_at(row)?;
    let store = Store::new(alloc);
    let outcome = match name {
        "solve" => Ok(solved(alloc, registry, request, &store, options.budget)),
        "solve_with" => Ok(solve_with(alloc, registry, request, &store, options)),
        "solve_in" => Ok(solved_again(alloc, registry, request, &store, options)),
        "solve_at_first" => solved_at_first(alloc, registry, request, &store, options, row),
        "solve_looked_at" => solved_looked_at(alloc, registry, request, &store, options, row),
        "solve_by" => solved_by(alloc, registry, request, &store, options, row),
        _ => Err(Unread::Row),
    };
    drop(store);
    Ok(outcome??)
}

/// Without options, within the budget of conflicts that there may be.
fn solved(
    alloc: Global,
    registry: &Registry,
    request: &Request,
    store: &Store,
    budget: Option<u32>,
) -> Result<Outcome, Refusal>
    requires { All (AllStand registry.now.packages) store.now.members }
{
    match budget {
        Some(budget) => solve_within(alloc, registry, request, store, budget),
        None => solve(alloc, registry, request, store),
    }
}

/// In the workspace in which it was asked before.
fn solved_again(
    alloc: Global,
    registry: &Registry,
    request: &Request,
    store: &Store,
    options: Options,
) -> Result<Outcome, Refusal>
    requires { All (AllStand registry.now.packages) store.now.members }
{
    let mut workspace = Workspace::new(alloc);
    let outcome = asked_twice(alloc, registry, request, store, options, &mut workspace);
    drop(workspace);
    outcome
}

fn asked_twice(
    alloc: Global,
    registry: &Registry,
    request: &Request,
    store: &Store,
    options: Options,
    workspace: &mut Workspace,
) -> Result<Outcome, Refusal>
    requires { All (AllStand registry.now.packages) store.now.members }
{
    let first = solve_in(alloc, registry, request, store, options, workspace)?;
    drop(first);
    solve_in(alloc, registry, request, store, options, workspace)
}

/// At first: with few conflicts.
fn solved_at_first(
    alloc: Global,
    registry: &Registry,
    request: &Request,
    store: &Store,
    options: Options,
    row: &Value,
) -> Result<Result<Outcome, Refusal>, Unread>
    requires { All (AllStand registry.now.packages) store.now.members }
{
    let conflicts = whole_at(row, "conflicts")?;
    let mut workspace = Workspace::new(alloc);
    let outcome = solve_at_first(
        alloc,
        registry,
        request,
        store,
        options,
        conflicts,
        &mut workspace,
    );
    drop(workspace);
    Ok(outcome)
}

/// After a first look.
fn solved_looked_at(
    alloc: Global,
    registry: &Registry,
    request: &Request,
    store: &Store,
    options: Options,
    row: &Value,
) -> Result<Result<Outcome, Refusal>, Unread>
    requires { All (AllStand registry.now.packages) store.now.members }
{
    let conflicts = whole_at(row, "conflicts")?;
    let mut workspace = Workspace::new(alloc);
    let outcome = asked_after_a_look(
        alloc,
        registry,
        request,
        store,
        options,
        conflicts,
        &mut workspace,
    );
    drop(workspace);
    Ok(outcome)
}

fn asked_after_a_look(
    alloc: Global,
    registry: &Registry,
    request: &Request,
    store: &Store,
    options: Options,
    conflicts: u32,
    workspace: &mut Workspace,
) -> Result<Outcome, Refusal>
    requires { All (AllStand registry.now.packages) store.now.members }
{
    let first = solve_at_first(
        alloc, registry, request, store, options, conflicts, workspace,
    );
    drop(first);
    solve_looked_at(alloc, registry, request, store, options, workspace)
}

/// By an oracle that loses or lies.
fn solved_by(
    alloc: Global,
    registry: &Registry,
    request: &Request,
    store: &Store,
    options: Options,
    row: &Value,
) -> Result<Result<Outcome, Refusal>, Unread>
    requires { All (AllStand registry.now.packages) store.now.members }
{
    let lie = lie_at(row)?;
    let task = Task {
        alloc,
        registry,
        request,
        store,
        options: Options {
            budget: None,
            explain: options.explain,
        },
    };
    let mut oracle = Liar::new(task, lie);
    let outcome = solve_by(alloc, registry, request, store, options, &mut oracle);
    drop(oracle);
    Ok(outcome)
}

/// `{"selected":[["a","1.0.0"]],"offered":[..]}`, `{"selected":null,"offered":[..]}` or `{"derivation":[..],"offered":[..]}`. Of what
/// `solve` offers the lines are told, and else the conclusions.
fn told(alloc: Global, name: &str, outcome: Outcome) -> Result<CallResult, Unread> {
    let mut text = AnswerText::new(alloc);
    put_outcome(&mut text, &outcome);
    text.put(",\"offered\":");
    match name {
        "solve" => put_lines(&mut text, offered(&outcome)),
        _ => offered(&outcome).show(&mut text),
    }
    drop(outcome);
    text.put("}");
    text.answer()
}

fn put_lines(text: &mut AnswerText, offered: &[Learnt]) {
    let mut is_first = true;
    text.put("[");
    for learnt in offered {
        text.put_between(is_first);
        learnt.lines().show(text);
        is_first = false;
    }
    text.put("]");
}
