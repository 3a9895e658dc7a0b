//! Request lines.
//!
//! A line is first held against the shapes of the requests. Then its texts are judged in passes over the whole line,
//! all names, then versions, then requirements, so that the lowest refusal is met first. Of a resolve or a check line
//! come then a package that is named twice, and needs or lock lines that are too many. The names, numbers and sets of a
//! derivation belong to its shape.
ghost use Rattle.std.specs.Prelude.{ok_or};
ghost use Rattle.serde_json.specs.View.{view};
ghost use Rattle.versions.specs.Refusals.{Gives};
ghost use Rattle.versions.specs.declared.refusal.Refusal.TheVariants.{BadLine};
ghost use Rattle.wire.specs.Requests.{judged_shape, request_of};
ghost use Rattle.wire.specs.Shapes.{shape_of};
ghost use Rattle.wire.specs.Asked.{asked_of};

mod cause_shapes;
mod derived;
mod judging;
mod learn;
mod line_shapes;
mod lock;
mod members;
mod ordinals;
mod pairs;
mod shape;
mod term_shapes;

use by_name::NamedDerivation;
use judging::judge;
pub use learn::read_learn;
use lines::LINE_LIMIT;
pub use lock::{LOCK_BYTES, read_lock};
use registry::{Command, Request};
use serde_json::Value;
use shape::shape_of;
use std::alloc::Global;
use versions::Refusal;

/// What a line asks.
#[derive(Drop)]
pub enum Asked {
    /// That the registry be changed.
    Command(Command),
    /// Which versions meet these needs under this lock, met with no more than this many conflicts where there is a
    /// budget of them; and whether a refusal is to be explained.
    Resolve {
        request: Request,
        explain: bool,
        budget: Option<u32>,
    },
    /// Whether a derivation shows that no versions meet these needs under this lock.
    Check {
        request: Request,
        derivation: NamedDerivation,
    },
    /// What is published.
    Listing,
}

/// Reads what a line asks.
///
/// A line that is longer than [`LINE_LIMIT`] or not of its form is [`Refusal::BadLine`] and is judged for nothing else. Of the refusals of its names,
/// versions and requirements, and of what a resolve or a check line repeats or asks too much, it is given the lowest.
/// Whether the registry takes a command is not judged here, nor whether a derivation follows. The cost grows with
/// n log n of the line.
pub fn read_request(alloc: Global, line: &[u8]) -> Result<Asked, Refusal>
    ensures { Gives asked_of result (request_of line.now) }
{
    if line.len() > LINE_LIMIT {
        return Err(Refusal::BadLine);
    }
    match Value::from_slice(alloc, line) {
        Ok(value) => request_in(alloc, &value),
        Err(fault) => {
            if fault.is_memory() {
                Err(Refusal::NoMemory)
            } else {
                Err(Refusal::BadLine)
            }
        }
    }
}

fn request_in(alloc: Global, value: &Value) -> Result<Asked, Refusal>
    ensures { Gives asked_of result (judged_shape (shape_of (view value.now))) }
{
    match shape_of(value) {
        Some(shape) => judge(alloc, &shape),
        None => Err(Refusal::BadLine),
    }
}
