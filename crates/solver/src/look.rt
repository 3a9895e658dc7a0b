//! Which look at a request it is.

use oracle::Options;

/// Which look at a request it is.
#[derive(Clone, Copy, PartialEq, Eq)]
pub(crate) enum Look {
    /// The request names a budget, so each conflict counts.
    Budgeted,
    /// The request names no budget, and is looked at once.
    Whole,
    /// The first of two looks at a request without a budget: it stops where a search would take long.
    First,
    /// The second look, after the first left the request open.
    Again,
}

impl Look {
    /// This look, where the options name no budget.
    pub fn by(self, options: Options) -> Look {
        if options.budget.is_some() {
            Look::Budgeted
        } else {
            self
        }
    }
}
