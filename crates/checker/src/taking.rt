//! What the lines of a derivation say, copied or taken from the lines of a search.

ghost use Rattle.std.specs.Prelude.{◌≡◌, ◌≢◌, ◌<◌, ◌++◌, ◌∷◌, [], ℕ, length, slice_get, IfOk, OnOk};
ghost use Rattle.checker.specs.Taking.{line_at, lines_at, said_at, ArePlaced};

use derivations::{Cause, CausedIncompatibility, Line};
use std::alloc::{AllocError, Global};
use std::mem;
use terms::{Incompat, Pkg};

/// A line of a derivation before it is said what follows: what the search's line at this place says.
#[derive(Drop)]
pub struct Step {
    pub place: usize,
    pub causes: (Cause, Cause),
    pub pivot: Pkg,
}

/// Puts the line of a step behind the others, with a copy of what the search's line says.
fn copy_line(
    alloc: Global,
    known: &[CausedIncompatibility],
    lines: &mut Vec<Line>,
    step: Step,
) -> Result<(), AllocError>
    requires { step.place < length known.now }
    ensures { OnOk result (lines.new.items ≡ lines.old.items ++ line_at known.now step ∷ []) }
{
    let Step {
        place,
        causes,
        pivot,
    } = step;
    match known[place].conclusion.copy(alloc) {
        Ok(conclusion) => {
            lines.push(Line {
                conclusion,
                causes,
                pivot,
            })?;
            Ok(())
        }
        Err(error) => {
            drop(causes);
            Err(error)
        }
    }
}

/// The lines of these steps, with copies of what the search's lines say.
pub fn lines_copied(
    alloc: Global,
    known: &[CausedIncompatibility],
    steps: Vec<Step>,
) -> Result<Vec<Line>, AllocError>
    requires { ArePlaced (length known.now) steps.items }
    ensures { IfOk result (λ lines. lines.items ≡ lines_at known.now steps.items) }
{
    let mut lines = Vec::with_capacity(alloc, steps.len())?;
    for step in steps {
        match copy_line(alloc, known, &mut lines, step) {
            Ok(()) => {}
            Err(error) => {
                drop(lines);
                return Err(error);
            }
        }
    }
    Ok(lines)
}

/// What stands where a conclusion was taken. Takes no memory.
fn nothing(alloc: Global) -> Incompat
    ensures { result ≡ [] }
{
    match Incompat::new(Vec::new(alloc)) {
        Some(incompat) => incompat,
        None => unreachable!(),
    }
}

/// Takes out what the line at a place says.
fn take_at(alloc: Global, known: &mut Vec<CausedIncompatibility>, place: usize) -> Incompat
    requires { place < length known.old.items }
    ensures said { result ≡ said_at known.old.items place }
    ensures length { length known.new.items ≡ length known.old.items }
    ensures others { (k : ℕ) → k ≢ place → slice_get known.new.items k ≡ slice_get known.old.items k }
{
    let line = &mut known[place];
    mem::replace(&mut line.conclusion, nothing(alloc))
}

/// The lines of these steps, with what the search's lines say, which are used up.
pub fn lines_taken(
    alloc: Global,
    known: Vec<CausedIncompatibility>,
    steps: Vec<Step>,
) -> Result<Vec<Line>, AllocError>
    requires { ArePlaced (length known.items) steps.items }
    ensures { IfOk result (λ lines. lines.items ≡ lines_at known.items steps.items) }
{
    let mut left = known;
    let mut lines = Vec::with_capacity(alloc, steps.len())?;
    for step in steps {
        lines.push(Line {
            conclusion: take_at(alloc, &mut left, step.place),
            causes: step.causes,
            pivot: step.pivot,
        })?;
    }
    Ok(lines)
}
