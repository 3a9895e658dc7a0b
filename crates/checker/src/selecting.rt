//! The selection that decisions make, as the walk finds it.

ghost use Rattle.std.specs.Prelude.{IfOk, IfSome};
ghost use Rattle.walk.specs.Choosing.{choice_of};
ghost use Rattle.facts.specs.Tasks.{IsSelectionList};

use indexmap::IndexMap;
use oracle::Task;
use std::alloc::AllocError;
use terms::Pkg;
use walk::{Chooser, Reached, reach};

/// Chooses what is decided.
#[derive(Clone, Copy)]
struct Decisions<'a> {
    decided: &'a IndexMap<Pkg, u32>,
}

impl Chooser for Decisions<'_> {
    ghost chooses = { λ c. choice_of c.decided.now.entries };

    fn choose(&self, pkg: Pkg) -> Option<u32> {
        self.decided.get(&pkg).copied()
    }
}

/// The selection that these decisions make, if they do.
pub fn selection_by(
    task: &Task<'_>,
    decided: &IndexMap<Pkg, u32>,
) -> Result<Option<Vec<(Pkg, u32)>>, AllocError>
    ensures { IfOk result (λ found. IfSome found (λ list. IsSelectionList task.now list.items)) }
{
    let chooser = Decisions { decided };
    match reach(task.alloc, task.registry, task.request, &chooser)? {
        Reached::Selection(list) => Ok(Some(list)),
        Reached::Unmet(_, _) | Reached::NotAllowed(_, _) => Ok(None),
    }
}
