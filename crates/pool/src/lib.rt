//! Requests that several threads resolve. Each takes the next one from a queue until none is left.
#![tactic(auto)]

mod ahead;
mod alone;
mod answers;
mod board;
mod gate;
mod in_order;
mod jobs;
mod query;
mod rule;
mod work;

pub use alone::{THREAD, effort_of, try_answer};
pub use answers::{answer_all, answer_all_with};
pub use gate::Gate;
pub use in_order::{Answers, Consumer, answer_in_order};
pub use jobs::{Jobs, Taker};
pub use query::Query;
pub use work::{RequestWithOptions, SolveResult};
