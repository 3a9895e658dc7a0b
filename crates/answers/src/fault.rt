//! Why lines are answered no further.

use thiserror::Error;

/// Why serving, or a race, ended early.
#[derive(Clone, Copy, Debug, PartialEq, Eq, Error)]
pub enum RunFault {
    /// A read failed. Each whole line that was read has its reply.
    #[error("input failed")]
    Input,
    /// A write failed. A beginning of the replies is written.
    #[error("output failed")]
    Output,
    /// No memory was there before the first line. Nothing was read or written.
    #[error("no memory")]
    Memory,
}
