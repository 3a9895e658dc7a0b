//! Unit propagation (doc/solver.md, "Unit Propagation").

ghost use Rattle.std.specs.Prelude.{◌≡◌, ◌<◌, Ok, length, IfErr, IfOk};
ghost use Rattle.search.specs.Searching.{ActsBy, IsUnchanged, Searches};
ghost use Rattle.facts.specs.Tasks.{MayRefuse};

use crate::acting::{Acted, propagate_incompatibility};
use crate::satisfaction::Satisfaction;
use crate::search::Search;
use crate::worklist::Worklist;
use oracle::Task;
use terms::Pkg;
use versions::Refusal;

/// Uses the lines at these places, newest first, up to the first conflict. Answers the last
/// derivation, if there was one; the packages of those before it are changed.
fn use_places(
    task: &Task<'_>,
    search: &mut Search,
    changed: &mut Vec<Pkg>,
    places: &[usize],
) -> Result<Acted, Refusal>
    requires { Searches task.now search.old }
    ensures acts { IfOk result (ActsBy task.now search.old search.new (IsUnchanged search.old search.new)) }
    ensures left { result ≡ Ok Acted.Neither → changed.new.items ≡ changed.old.items }
    ensures only { IfErr result (MayRefuse task.now.options.budget) }
{
    let mut last: Option<Pkg> = None;
    for i in (0..places.len()).rev() {
        let at = places[i];
        if at < search.known.as_slice().len() {
            match propagate_incompatibility(task, search, at)? {
                Acted::Neither => {}
                Acted::Derived(pkg) => {
                    if let Some(before) = last {
                        changed.push(before)?;
                    }
                    last = Some(pkg);
                }
                Acted::Backjumped(line, pkg) => return Ok(Acted::Backjumped(line, pkg)),
                Acted::Refused(end) => return Ok(Acted::Refused(end)),
            }
        }
    }
    match last {
        None => Ok(Acted::Neither),
        Some(pkg) => Ok(Acted::Derived(pkg)),
    }
}

/// Uses the lines that name changed packages, up to the first package of which one moves the search.
pub(crate) fn propagate(
    task: &Task<'_>,
    search: &mut Search,
    worklist: &mut Worklist,
) -> Result<Acted, Refusal>
    requires { Searches task.now search.old }
    ensures acts { IfOk result (ActsBy task.now search.old search.new (IsUnchanged search.old search.new)) }
    ensures only { IfErr result (MayRefuse task.now.options.budget) }
{
    'packages: loop {
        let Some(pkg) = worklist.changed.pop() else {
            return Ok(Acted::Neither);
        };
        let places = worklist.lines.of(pkg);
        match use_places(task, search, &mut worklist.changed, places)? {
            Acted::Neither => {}
            Acted::Derived(derived) => return Ok(Acted::Derived(derived)),
            Acted::Backjumped(line, derived) => return Ok(Acted::Backjumped(line, derived)),
            Acted::Refused(end) => return Ok(Acted::Refused(end)),
        }
    }
}

/// Uses the first line from a place on that a decision for a package would satisfy.
pub(crate) fn use_from(
    task: &Task<'_>,
    search: &mut Search,
    pkg: Pkg,
    from: usize,
) -> Result<Acted, Refusal>
    requires { Searches task.now search.old }
    ensures acts { IfOk result (ActsBy task.now search.old search.new (IsUnchanged search.old search.new)) }
    ensures only { IfErr result (MayRefuse task.now.options.budget) }
{
    for at in from..search.known.as_slice().len() {
        if is_in_the_way(search, pkg, at) {
            return Ok(propagate_incompatibility(task, search, at)?);
        }
    }
    Ok(Acted::Neither)
}

/// Whether a line is satisfied, or is once a version of a package is decided that it forbids.
fn is_in_the_way(search: &Search, pkg: Pkg, at: usize) -> bool
    requires { at < length search.now.known.items }
{
    match search.partial.relation(&search.known[at].conclusion) {
        Satisfaction::Satisfied => true,
        Satisfaction::Almost(left) => left == pkg,
        Satisfaction::Other => false,
    }
}
