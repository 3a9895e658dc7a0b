//! What was found, before it is told.

ghost use Rattle.search.specs.Answering.{EndsBy};
ghost use Rattle.solver.specs.Finding.{IsFound};

use checker::offered_of;
use derivations::{CausedIncompatibility, Learnt};
use oracle::Task;
use search::Ended;
use terms::Pkg;

/// What was found for a request, and what may be learnt of it.
#[derive(Drop)]
pub(crate) enum Found {
    /// Packages with the ordinals of their versions.
    Selected(Vec<(Pkg, u32)>, Vec<Learnt>),
    /// The lines of a search, and the place of one without terms.
    Refused(Vec<CausedIncompatibility>, usize, Vec<Learnt>),
    /// That no selection meets the request, and it is not asked why.
    Unexplained(Vec<Learnt>),
}

/// What a search found that ended so, with what it offers of the lines at these places and of a refusal.
pub(crate) fn found_of(
    task: &Task<'_>,
    ended: Ended,
    known: Vec<CausedIncompatibility>,
    learnt: &[usize],
) -> Found
    requires { EndsBy task.now known.items ended }
    ensures { IsFound task.now result }
{
    match ended {
        Ended::Selected(list) => {
            let offered = offered_of(task, &known, learnt, None);
            Found::Selected(list, offered)
        }
        Ended::Refused(end) => {
            let offered = offered_of(task, &known, learnt, Some(end));
            Found::Refused(known, end, offered)
        }
    }
}
