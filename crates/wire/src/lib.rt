//! Request lines in JSON: [`read_request`] tells what a line asks, or which refusal it is given. [`read_learn`] reads
//! the lines by which a journal's file tells what was learnt, and [`read_lock`] the list of versions that a build stays at.
#![tactic(auto)]

mod limits;
mod request;

pub use limits::limits_in_numbers;
pub use request::{Asked, LOCK_BYTES, read_learn, read_lock, read_request};
