//! Rows, of which some change a registry.

use crate::chain_calls::chain_call;
use crate::chronicle_calls::chronicle_call;
use crate::further_calls::further_call;
use crate::partial_calls::partial_call;
use crate::pool_calls::pool_call;
use crate::registry_calls::registry_call;
use crate::solver_calls::solver_call;
use crate::term_calls::term_call;
use crate::walk_calls::walk_call;
use registry::Registry;
use rows::{CallResult, Unread, row_of, tell, text_at};
use serde_json::Value;
use std::alloc::Global;
use std::io::{self, Input, Print};
use std::sync::Wait;
use std::thread::Threads;

/// Answers each row that is read by a line.
pub fn serve<R: Input + Print + AllocGlobal + Threads + Wait + Sync>(rt: &R) -> io::Result<()> {
    let mut registry = Registry::new(rt.alloc());
    let outcome = serve_all(rt, &mut registry);
    drop(registry);
    outcome
}

fn serve_all<R: Input + Print + AllocGlobal + Threads + Wait + Sync>(
    rt: &R,
    registry: &mut Registry,
) -> io::Result<()> {
    for line in rt.lines(rt.alloc()) {
        let line = line?;
        let answer = answer_to(rt, registry, line.as_str());
        drop(line);
        tell(rt, answer)?;
    }
    Ok(())
}

fn answer_to<R: AllocGlobal + Threads + Wait + Sync>(
    rt: &R,
    registry: &mut Registry,
    line: &str,
) -> Result<CallResult, Unread> {
    let row = row_of(rt.alloc(), line)?;
    let answer = call(rt, rt.alloc(), registry, &row);
    drop(row);
    answer
}

/// Makes the call that a row names.
fn call<R: Threads + Wait + Sync>(
    rt: &R,
    alloc: Global,
    registry: &mut Registry,
    row: &Value,
) -> Result<CallResult, Unread> {
    let name = text_at(row, "call")?;
    match text_at(row, "of")? {
        "session" => anew(registry, Registry::new(alloc)),
        "registry" => registry_call(alloc, registry, name, row),
        "chronicle" => chronicle_call(rt, alloc, name, row),
        "pool" => pool_call(rt, alloc, registry, name, row),
        of => call_for(alloc, registry, of, name, row),
    }
}

fn anew(registry: &mut Registry, other: Registry) -> Result<CallResult, Unread> {
    *registry = other;
    Ok(CallResult::None)
}

fn call_for(
    alloc: Global,
    registry: &Registry,
    of: &str,
    name: &str,
    row: &Value,
) -> Result<CallResult, Unread> {
    match of {
        "solver" => solver_call(alloc, registry, name, row),
        "walk" => walk_call(alloc, registry, name, row),
        "chain" => chain_call(alloc, name, row),
        "partial" => partial_call(alloc, name, row),
        "term" => term_call(alloc, name, row),
        "further" => further_call(alloc, name, row),
        _ => Err(Unread::Row),
    }
}
