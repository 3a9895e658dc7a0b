//! What stands before and behind each answer.

/// Called by the thread that answers the request at index `i`, before that and after it.
pub trait Gate {
    /// Returns once the search for that answer may begin.
    fn before(&self, i: usize);

    /// Returns once that thread may take another request.
    fn after(&self, i: usize);
}

/// The gate that holds nobody up.
pub(crate) struct Idle;

impl Gate for Idle {
    fn before(&self, _i: usize) {}

    fn after(&self, _i: usize) {}
}
