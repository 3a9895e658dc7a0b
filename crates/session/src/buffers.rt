//! What lines are read into, and what waits of them.
ghost use Rattle.std.specs.Prelude.{◌≡◌, [], IfOk};
ghost use Rattle.lines.specs.Unread.{StandsFor};

use crate::batch::Batch;
use crate::committed::Committed;
use intake::RequestReader;
use lines::{LineBuffer, Outbox};
use std::alloc::{AllocError, Global};

/// The room of a session beside its registry: for lines, for requests that wait, and for replies that do.
#[derive(Drop)]
pub struct Buffers {
    pub batch: Batch,
    pub lines: LineBuffer,
    pub outgoing: Outgoing,
    pub intake: RequestReader,
}

/// Replies that wait, and how far the items are committed on which replies rest.
#[derive(Drop)]
pub struct Outgoing {
    pub outbox: Outbox,
    pub committed: Committed,
}

impl Buffers {
    /// Nothing was read, nothing waits, and so many items are committed, each with a line.
    pub(crate) fn new(alloc: Global, workers: usize, count: usize) -> Result<Buffers, AllocError>
        ensures fresh { IfOk result (λ buffers. StandsFor buffers.lines []) }
        ensures none { IfOk result (λ buffers. buffers.batch ≡ []) }
        ensures sent { IfOk result (λ buffers. buffers.outgoing.outbox ≡ []) }
        ensures committed { IfOk result (λ buffers. buffers.outgoing.committed ≡ record { items = count; lines = count }) }
    {
        Ok(Buffers {
            batch: Batch::new(alloc, workers)?,
            lines: LineBuffer::new(alloc)?,
            outgoing: Outgoing {
                outbox: Outbox::new(alloc)?,
                committed: Committed::all(count),
            },
            intake: RequestReader::new(alloc),
        })
    }
}
