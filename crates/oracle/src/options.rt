//! How a request is to be answered.

/// How a request is to be answered.
#[derive(Clone, Copy)]
pub struct Options {
    /// The most conflicts that the search may meet, if there is a limit.
    pub budget: Option<u32>,
    /// Whether a refusal comes with its derivation.
    pub explain: bool,
}
