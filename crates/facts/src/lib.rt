//! What the registry and a request say, as lines: facts, which those who check a trace and the search that is proved
//! both begin with.
//!
//! The words are those of Dart pub's doc/solver.md (PubGrub).
#![tactic(auto)]

mod dependents;
mod facts;
mod laws;
mod lines;
mod root;
mod shared;
mod sharing;

pub use dependents::versions_with;
pub use facts::{push_barred, push_dependency, push_need, push_premise};
pub use laws::lines_grow;
pub use lines::{line_from, negation};
pub use root::begin_lines;
pub use shared::{is_package, push_shared};
pub use sharing::Sharing;
