//! The forms between the stages of an answer and those who search: a request as a task, and what may be claimed of it.
#![tactic(auto)]

mod options;
mod oracle;
mod task;
mod trace;

pub use options::Options;
pub use oracle::{Claim, Oracle};
pub use propagation::Stop;
pub use task::Task;
pub use trace::{Record, Step, Trace};
