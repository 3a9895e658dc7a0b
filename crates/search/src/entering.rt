//! The dependencies of versions, put among the lines (doc/solver.md, "Decision Making").

ghost use Rattle.std.specs.Prelude.{◌≡◌, ◌<◌, true, length, OnOk};
ghost use Rattle.registry.specs.Registry.{is_published, needs_of};
ghost use Rattle.facts.specs.Pushing.{Extends};

use crate::worklist::Worklist;
use derivations::CausedIncompatibility;
use facts::push_shared;
use oracle::Task;
use std::alloc::AllocError;
use terms::Pkg;

/// As `push_shared`, unless the dependency is among the lines, and notes the line.
fn add_dependency(
    task: &Task<'_>,
    known: &mut Vec<CausedIncompatibility>,
    worklist: &mut Worklist,
    pkg: Pkg,
    ordinal: u32,
    index: usize,
) -> Result<(), AllocError>
    requires { index < length (needs_of task.now.registry.now.packages pkg ordinal) }
    ensures { OnOk result (Extends task.now known.old.items known.new.items) }
{
    let (target, matching) = task.registry.dependency(pkg, ordinal, index)?;
    drop(matching);
    if worklist.has_dependency(known, pkg, ordinal, target) {
        return Ok(());
    }
    match push_shared(task, known, &mut worklist.sharing, pkg, ordinal, index)? {
        None => Ok(()),
        Some(at) => worklist.note(task.alloc, known, at),
    }
}

/// Puts the dependencies of a version behind the lines that are not there.
pub(crate) fn enter(
    task: &Task<'_>,
    known: &mut Vec<CausedIncompatibility>,
    worklist: &mut Worklist,
    pkg: Pkg,
    ordinal: u32,
) -> Result<(), AllocError>
    requires { is_published task.now.registry.now.packages pkg ordinal ≡ true }
    ensures { OnOk result (Extends task.now known.old.items known.new.items) }
{
    let count = task.registry.facts(pkg, ordinal).needs.len();
    for index in 0..count {
        add_dependency(task, known, worklist, pkg, ordinal, index)?;
    }
    Ok(())
}
