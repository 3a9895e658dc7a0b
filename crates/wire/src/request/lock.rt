//! Lock lists, by which a build stays at the versions that it has.
ghost use Rattle.serde_json.specs.View.{view};
ghost use Rattle.versions.specs.Refusals.{Gives};
ghost use Rattle.wire.specs.Locks.{judged_lines, judged_lock, lock_of};
ghost use Rattle.wire.specs.Shapes.{pairs_in};

use super::judging::{lock_in, names_in};
use super::pairs::Pairs;
use registry::Request;
use serde_json::Value;
use std::alloc::Global;
use versions::{Name, Published, Refusal};

/// The most bytes of a lock list.
pub const LOCK_BYTES: usize = 1_048_576;

/// Reads a lock list, an array of pairs of a name and a version. The lines stand in its order.
///
/// A longer text, and one that is no such array, is [`Refusal::BadLine`] and is judged for nothing else. Of the refusals
/// of its names and versions, and of what it names twice or of too many lines, it is given the lowest. The cost grows
/// with n log n of the text.
pub fn read_lock(alloc: Global, text: &[u8]) -> Result<Vec<(Name, Published)>, Refusal>
    ensures { Gives (λ lines. lines.items) result (lock_of text.now) }
{
    if text.len() > LOCK_BYTES {
        return Err(Refusal::BadLine);
    }
    match Value::from_slice(alloc, text) {
        Ok(value) => lines_in(alloc, &value),
        Err(fault) => {
            if fault.is_memory() {
                Err(Refusal::NoMemory)
            } else {
                Err(Refusal::BadLine)
            }
        }
    }
}

fn lines_in(alloc: Global, value: &Value) -> Result<Vec<(Name, Published)>, Refusal>
    ensures { Gives (λ lines. lines.items) result (judged_lines (pairs_in (view value.now))) }
{
    match Pairs::of(value) {
        Some(lock) => judge_lock(alloc, &lock),
        None => Err(Refusal::BadLine),
    }
}

/// The lines of a lock, or the lowest refusal of their texts.
fn judge_lock(alloc: Global, lock: &Pairs<'_>) -> Result<Vec<(Name, Published)>, Refusal>
    ensures { Gives (λ lines. lines.items) result (judged_lock lock.now) }
{
    let names = names_in(alloc, lock)?;
    let lines = lock_in(alloc, names, lock)?;
    // What a lock names twice, and too many lines, a request is refused.
    let request = Request::new(alloc, Vec::new(alloc), lines)?;
    Ok(request.into_lock())
}
