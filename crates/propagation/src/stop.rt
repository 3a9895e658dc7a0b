//! Why a search stops without a verdict.

use std::alloc::{AllocError, AllocFailed};

/// Why a search stops without a verdict.
#[derive(Clone, Copy, Debug, PartialEq, Eq)]
pub enum Stop {
    NoMemory,
    /// More conflicts were met than the budget allows.
    Spent,
    /// It can't be told: an index is out of its row, or the search does not end. Another search is to answer.
    Lost,
}

impl From<AllocError> for Stop {
    fn from(_error: AllocError) -> Stop {
        Stop::NoMemory
    }
}

impl<T: Drop> From<AllocFailed<T>> for Stop {
    fn from(_error: AllocFailed<T>) -> Stop {
        Stop::NoMemory
    }
}
