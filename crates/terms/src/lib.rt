//! What a version solver says of packages: sets of ordinals, terms and incompatibilities.
//!
//! A package's versions are known by their ordinals, and a *choice* of a package is one ordinal or
//! none. The words are those of Dart pub's doc/solver.md. Contracts speak of what a set has and of
//! which choices a term is true; how a set is stored is seen in none of them.
#![tactic(auto)]

mod growing;
mod incompat;
mod laws;
mod low;
mod low_term;
mod merging;
mod ordinals;
mod relations;
mod resolving;
mod sets;
mod term;
mod term_list;
mod words;

pub use growing::GrowingSet;
pub use incompat::{Incompat, Pkg};
pub use laws::{same_incompat, same_resolvent, same_set, same_term};
pub use low::LowSet;
pub use low_term::LowTerm;
pub use ordinals::Ordinals;
pub use relations::Relation;
pub use resolving::resolve;
pub use sets::VSet;
pub use term::{Term, relation};
