//! The lines that each search begins with: the root's.

ghost use Rattle.std.specs.Prelude.{◌≡◌, ◌∷◌, [], IfOk};
ghost use Rattle.facts.specs.Lines.{AreLines, root_known};

use derivations::{Cause, CausedIncompatibility, ROOT, Reason};
use oracle::Task;
use std::alloc::AllocError;
use terms::{Incompat, Term, VSet};

/// That the root is chosen.
fn root_line(task: &Task<'_>) -> Result<CausedIncompatibility, AllocError>
    ensures { IfOk result (λ line. line ≡ root_known) }
{
    let term = Term::NotIn(VSet::single(task.alloc, 0)?);
    Ok(CausedIncompatibility {
        conclusion: Incompat::single(task.alloc, ROOT, term)?,
        reason: Reason::Fact(Cause::Root),
    })
}

/// The root's fact alone, with room for so many lines.
pub fn begin_lines(task: &Task<'_>, room: usize) -> Result<Vec<CausedIncompatibility>, AllocError>
    ensures root { IfOk result (λ known. known.items ≡ root_known ∷ []) }
    ensures lines { IfOk result (λ known. AreLines task.now.registry.now.packages task.now.request.now known.items) }
{
    let mut known = Vec::with_capacity(task.alloc, room.saturating_add(1))?;
    let line = root_line(task)?;
    known.push(line)?;
    Ok(known)
}
