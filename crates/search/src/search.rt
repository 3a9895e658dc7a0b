//! The state of a search.

use crate::solution::Partial;
use derivations::CausedIncompatibility;

/// A search: what is settled, the lines that it knows, and how many conflicts it met.
#[derive(Drop)]
pub(crate) struct Search {
    pub partial: Partial,
    pub known: Vec<CausedIncompatibility>,
    pub conflicts: u32,
}
