//! Assignments: what a solver has settled so far, one step at a time.

use terms::{Pkg, Term};

/// Why an assignment was made: as a decision for an ordinal, or as a derivation by the incompatibility
/// at this place of the caller's list.
#[derive(Clone, Copy)]
pub enum Why {
    Decided(u32),
    Derived(usize),
}

/// One assignment (doc/solver.md, "Partial Solution"). Its level is the number of decisions at or
/// before it.
#[derive(Drop)]
pub struct Assignment {
    pub pkg: Pkg,
    pub term: Term,
    pub level: usize,
    pub why: Why,
}
