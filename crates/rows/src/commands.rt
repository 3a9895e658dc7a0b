//! Commands of one registry, which rows change.

use crate::call_result::CallResult;
use crate::reading::{Given, Unread, both, three};
use registry::{Command, Dependencies, Registry};
use serde_json::Value;
use std::alloc::Global;

/// Enters the publication, yank or unyank of a row, and answers the revision after it.
pub fn command_call(
    alloc: Global,
    registry: &mut Registry,
    name: &str,
    row: &Value,
) -> Result<CallResult, Unread> {
    let command = command_of(alloc, name, row)?;
    let answer = enter(registry, &command);
    drop(command);
    answer
}

/// The command of this kind that a row tells.
pub fn command_of(alloc: Global, kind: &str, row: &Value) -> Result<Command, Unread> {
    match kind {
        "publish" => publication(alloc, row),
        "yank" | "unyank" => yank(alloc, kind, row),
        _ => Err(Unread::Row),
    }
}

fn publication(alloc: Global, row: &Value) -> Result<Command, Unread> {
    let (name, version, needs) = three(alloc, row, "name", "version", "needs")?;
    Ok(Command::Publish(name, version, needs))
}

/// The yank of a version, or what takes it back.
fn yank(alloc: Global, kind: &str, row: &Value) -> Result<Command, Unread> {
    let (name, version) = both(alloc, row, "name", "version")?;
    match kind {
        "yank" => Ok(Command::Yank(name, version)),
        _ => Ok(Command::Unyank(name, version)),
    }
}

/// The dependencies of a publication, as `[["a","^1"]]`.
impl Given for Dependencies {
    fn of(alloc: Global, value: &Value) -> Result<Dependencies, Unread> {
        Ok(Dependencies::new(alloc, Given::of(alloc, value)?)?)
    }
}

/// Makes room for a command, carries out a copy of it, and answers the revision after it.
fn enter(registry: &mut Registry, command: &Command) -> Result<CallResult, Unread> {
    registry.check(command)?;
    registry.reserve(command)?;
    if registry.revision() == u64::MAX {
        return Ok(CallResult::Skipped);
    }
    registry.apply(command.copy()?)?;
    Ok(CallResult::Number(registry.revision() as usize))
}
