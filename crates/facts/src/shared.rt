//! A dependency as one line for all versions that share it (doc/solver.md, "Decision Making").

ghost use Rattle.std.specs.Prelude.{◌≡◌, ◌<◌, true, length, IsSome, OnOk};
ghost use Rattle.registry.specs.Registry.{needs_of, package_at};
ghost use Rattle.facts.specs.Pushing.{Extends};

use crate::dependents::versions_sharing;
use crate::facts::push_dependency;
use crate::sharing::Sharing;
use derivations::CausedIncompatibility;
use oracle::Task;
use std::alloc::AllocError;
use terms::Pkg;

/// Whether a package is numbered.
pub fn is_package(task: &Task<'_>, pkg: Pkg) -> bool
    ensures { result ≡ true → IsSome (package_at task.now.registry.now.packages pkg) }
{
    pkg >= 1 && pkg as usize <= task.registry.packages()
}

/// Puts the dependency of a version at an index behind the lines, for all versions that share it, and answers
/// its place.
pub fn push_shared(
    task: &Task<'_>,
    known: &mut Vec<CausedIncompatibility>,
    sharing: &mut Sharing,
    pkg: Pkg,
    ordinal: u32,
    index: usize,
) -> Result<Option<usize>, AllocError>
    requires { index < length (needs_of task.now.registry.now.packages pkg ordinal) }
    ensures { OnOk result (Extends task.now known.old.items known.new.items) }
{
    let (target, matching) = task.registry.dependency(pkg, ordinal, index)?;
    if target == pkg {
        drop(matching);
        return Ok(None);
    }
    let entry = &task.registry.facts(pkg, ordinal).needs[index];
    let members = matching.set(task.alloc);
    drop(matching);
    let within = members?;
    let versions = versions_sharing(task, sharing, pkg, ordinal, entry)?;
    let at = push_dependency(task, known, pkg, versions, entry, target, within)?;
    Ok(Some(at))
}
