//! The search that is proved: conflict-driven, in the order of the walk, each decision for the best version that is left.
//! It answers where nobody else did, and may take long.
//!
//! The words and the rules are those of Dart pub's doc/solver.md (PubGrub).
//!
//! | File | What it does | Section of doc/solver.md | Contract |
//! |---|---|---|---|
//! | `in_order.rt` | the search from its start to what it finds | The Algorithm | `EndsBy` |
//! | `starting.rt` | the root, and the needs of the request | The Algorithm | `Searches` |
//! | `turns.rt` | propagation, else a decision, else the walk, until there is an answer | The Algorithm | `TurnsBy`, `EndsBy` |
//! | `propagating.rt` | the lines that name what changed | Unit Propagation | `ActsBy` |
//! | `acting.rt` | one line: a derivation, or a conflict and the jump back | Unit Propagation, Conflict Resolution | `ActsBy` |
//! | `conflict.rt` | from satisfier to satisfier | Conflict Resolution | `ResolvesBy` |
//! | `picking.rt` | whether a package is to be decided, and for which version | Decision Making | `IsToDecide`, `PicksBy` |
//! | `deciding.rt` | a decision, or why there is none | Decision Making | `ActsBy` |
//! | `entering.rt` | the dependencies of a version become lines | Decision Making | `Extends` |
//! | `meeting.rt` | what stands in the way of a selection | | `ActsBy` |
//! | `search.rt` | the state of a search | | `Searches` |
//! | `worklist.rt` | the lines that name a package, and the packages that changed | Unit Propagation | none |
//! | `solution.rt`, `assignment.rt` | the partial solution: decisions and derivations, each with its level | Partial Solution | |
//! | `trail.rt`, `satisfaction.rt`, `satisfier.rt`, `undecided.rt` | the same by package, and what it says of an incompatibility | | |
#![tactic(auto)]

mod acting;
mod assignment;
mod conflict;
mod deciding;
mod entering;
mod in_order;
mod laws;
mod meeting;
mod picking;
mod propagating;
mod satisfaction;
mod satisfier;
mod search;
mod solution;
mod starting;
mod trail;
mod turns;
mod undecided;
mod worklist;

pub use assignment::{Assignment, Why};
pub use in_order::{Searched, search_in_order};
pub use laws::{
    beginnings_leave_choices, levels_count_decisions, one_standing, package_by_package,
    undecided_is_selected,
};
pub use satisfaction::Satisfaction;
pub use solution::{Partial, Settled};
pub use turns::Ended;
