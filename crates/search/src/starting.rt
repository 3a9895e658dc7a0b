//! The start of a search: the root, and the needs of the request.

ghost use Rattle.std.specs.Prelude.{◌≡◌, ◌∷◌, [], IfOk, OnOk};
ghost use Rattle.facts.specs.Lines.{AreLines, root_known};
ghost use Rattle.facts.specs.Pushing.{Extends};
ghost use Rattle.search.specs.Searching.{Searches};

use crate::search::Search;
use crate::solution::Partial;
use crate::worklist::Worklist;
use derivations::{CausedIncompatibility, ROOT};
use facts::{begin_lines, push_need};
use oracle::Task;
use std::alloc::AllocError;
use terms::{Term, VSet};

/// Puts the root's derivation and its decision into a search that knows the root's line alone.
fn put_root(task: &Task<'_>, search: &mut Search) -> Result<(), AllocError>
    requires partial { search.old.partial ≡ [] }
    requires known { search.old.known.items ≡ root_known ∷ [] }
    requires lines { AreLines task.now.registry.now.packages task.now.request.now search.old.known.items }
    ensures { OnOk result (Searches task.now search.new) }
{
    let root = Term::In(VSet::single(task.alloc, 0)?);
    search.partial.derive(ROOT, root, 0)?;
    search.partial.decide(ROOT, 0)?;
    Ok(())
}

/// The root alone: its fact, its derivation and its decision.
fn begin(task: &Task<'_>) -> Result<Search, AllocError>
    ensures { IfOk result (Searches task.now) }
{
    let known = begin_lines(task, 0)?;
    let mut search = Search {
        partial: Partial::new(task.alloc),
        known,
        conflicts: 0,
    };
    match put_root(task, &mut search) {
        Ok(()) => Ok(search),
        Err(error) => {
            drop(search);
            Err(error)
        }
    }
}

/// Puts all needs behind the lines. They stand at the root's level, whatever is decided later.
fn add_needs(
    task: &Task<'_>,
    known: &mut Vec<CausedIncompatibility>,
    worklist: &mut Worklist,
) -> Result<(), AllocError>
    ensures { OnOk result (Extends task.now known.old.items known.new.items) }
{
    for index in 0..task.request.needs().len() {
        let at = push_need(task, known, index)?;
        worklist.note(task.alloc, known, at)?;
    }
    Ok(())
}

/// A search that has met nothing but the request.
pub(crate) fn start(task: &Task<'_>, worklist: &mut Worklist) -> Result<Search, AllocError>
    ensures { IfOk result (Searches task.now) }
{
    worklist.changed.push(ROOT)?;
    let mut search = begin(task)?;
    match add_needs(task, &mut search.known, worklist) {
        Ok(()) => Ok(search),
        Err(error) => {
            drop(search);
            Err(error)
        }
    }
}
