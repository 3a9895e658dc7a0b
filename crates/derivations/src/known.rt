//! Lines of a search.

use crate::facts::Cause;
use terms::{Incompat, Pkg};

/// Why a line of a search stands.
#[derive(Drop)]
pub enum Reason {
    /// It is a fact.
    Fact(Cause),
    /// It follows from the lines at these places, counted from 0, on this pivot.
    Resolved(usize, usize, Pkg),
}

/// A line of a search.
#[derive(Drop)]
pub struct CausedIncompatibility {
    pub conclusion: Incompat,
    pub reason: Reason,
}
