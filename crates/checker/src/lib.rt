//! Whether what an oracle claims is right: its trace is derived again line by line, or shown by chains without a line for
//! each step, and a derivation is cut from the lines that show why no selection meets a request.
//!
//! The words are those of Dart pub's doc/solver.md (PubGrub). Nothing that a trace says is believed.
#![tactic(auto)]

mod by_chains;
mod chain;
mod cutting;
mod laws;
mod learning;
mod limits;
mod members;
mod offering;
mod pairing;
mod replaying;
mod runs;
mod said;
mod selecting;
mod showing;
mod table;
mod taking;

pub use by_chains::{newest_by_chains, selects};
pub use chain::{Chain, Place, terms_at};
pub use cutting::extract_derivation;
pub use laws::{kept_lines_are_shown, shown_holds, shown_refutes};
pub use learning::offered_of;
pub use limits::limits_in_numbers;
pub use offering::offers;
pub use replaying::{Replayed, ReplayedLearnt, may_teach, replay, replay_learnt};
pub use selecting::selection_by;
pub use showing::is_refused_by_chains;
pub use table::{Conclusion, Stop};
