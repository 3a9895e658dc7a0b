//! The search in the order of the walk, from its start to what it finds.

ghost use Rattle.std.specs.Prelude.{IfErr, IfOk};
ghost use Rattle.facts.specs.Tasks.{MayRefuse};
ghost use Rattle.search.specs.Answering.{EndsBy};

use crate::search::Search;
use crate::starting::start;
use crate::turns::{Ended, run};
use crate::worklist::Worklist;
use derivations::CausedIncompatibility;
use oracle::Task;
use versions::Refusal;

/// What a search ended with, the lines that it knew, and the places of those that conflicts led to.
#[derive(Drop)]
pub struct Searched {
    pub ended: Ended,
    pub known: Vec<CausedIncompatibility>,
    pub learnt: Vec<usize>,
}

/// As [`search_in_order`], with what it is to look at.
fn search_with(
    task: &Task<'_>,
    worklist: &mut Worklist,
    conflicts: u32,
) -> Result<(Ended, Vec<CausedIncompatibility>), Refusal>
    ensures found { IfOk result (λ r. EndsBy task.now r.1.items r.0) }
    ensures only { IfErr result (MayRefuse task.now.options.budget) }
{
    let mut search = start(task, worklist)?;
    search.conflicts = conflicts;
    match run(task, &mut search, worklist) {
        Ok(ended) => {
            let Search { partial, known, .. } = search;
            drop(partial);
            Ok((ended, known))
        }
        Err(refusal) => {
            drop(search);
            Err(refusal)
        }
    }
}

/// Finds the newest selection, or that none meets the request, by proved steps alone. Conflicts are counted on
/// from so many. Errors are [`Refusal::NoMemory`] and, where the options name a budget, [`Refusal::BudgetSpent`] at the
/// first conflict beyond it. It may take time that grows exponentially with the request.
pub fn search_in_order(task: &Task<'_>, conflicts: u32) -> Result<Searched, Refusal>
    ensures found { IfOk result (λ searched. EndsBy task.now searched.known.items searched.ended) }
    ensures only { IfErr result (MayRefuse task.now.options.budget) }
{
    let mut worklist = Worklist::new(task.alloc);
    match search_with(task, &mut worklist, conflicts) {
        Ok((ended, known)) => {
            let Worklist { learnt, .. } = worklist;
            Ok(Searched {
                ended,
                known,
                learnt,
            })
        }
        Err(refusal) => {
            drop(worklist);
            Err(refusal)
        }
    }
}
