//! Requests of neighbouring lines, which are answered together by several threads.
ghost use Rattle.std.specs.Prelude.{◌≡◌, ◌↔◌, ◌∷◌, ◌++◌, ◌<◌, ◌≤◌, [], List, drop, length, take, IfOk, IsTrue, vec_capacity};
ghost use Rattle.session.specs.Batches.{Tells};
ghost use Rattle.session.specs.Committing.{TellsOn, outlet};

use crate::buffers::Outgoing;
use crate::keeper::Keeper;
use crate::putting::try_put;
use crate::session_state::SessionState;
use crate::telling::tell_in_order;
use derivations::Learnt;
use lines::Outbox;
use pool::{RequestWithOptions, THREAD};
use registry::Request;
use solver::{Options, Workspace};
use std::alloc::{AllocError, Global};
use std::io;
use std::io::Write;
use std::marker::Model;
use std::sync::Wait;
use std::thread::Threads;

/// The most requests that are answered together.
pub const BATCH_LIMIT: usize = 256;

/// Requests that wait to be answered, and how many threads may answer them. A contract sees the requests.
#[derive(Drop)]
pub struct Batch {
    asked: Vec<RequestWithOptions>,
    /// Whether [`Batch::try_reply`] tried the first of them and left it open.
    is_tried: bool,
    workers: usize,
    workspace: Workspace,
}

impl Model for Batch {
    ghost use Rattle.std.specs.Prelude.{◌≤◌, List, vec_capacity};
    ghost use Rattle.session.specs.Batches.{Question};
    ghost use Rattle.session.specs.declared.batch.TheConstants.{BATCH_LIMIT};

    ghost Value = { List Question };

    ghost view = { λ b. b.asked.items };

    ghost invariant = { λ b. BATCH_LIMIT ≤ vec_capacity b.asked };
}

impl Batch {
    /// No requests. Room for as many as are answered together is made.
    pub fn new(alloc: Global, workers: usize) -> Result<Batch, AllocError>
        ensures { IfOk result (λ batch. batch ≡ []) }
    {
        Ok(Batch {
            asked: Vec::with_capacity(alloc, BATCH_LIMIT)?,
            is_tried: false,
            workers,
            workspace: Workspace::new(alloc),
        })
    }

    /// Has a request wait behind the others, to be answered so.
    pub fn push(&mut self, request: Request, options: Options)
        requires { length self.old < BATCH_LIMIT }
        ensures { self.new ≡ self.old ++ (request, options) ∷ [] }
    {
        self.asked.push_reserved((request, options));
    }

    /// How many wait.
    pub fn len(&self) -> usize
        ensures { result ≡ length self.now }
    {
        self.asked.len()
    }

    /// Whether none waits.
    pub fn is_empty(&self) -> bool
        ensures { IsTrue result ↔ (self.now ≡ []) }
    {
        self.asked.is_empty()
    }

    /// Replies to the first requests, so many at most, until one asks for a longer search, or where several threads may
    /// answer, until as much was done as starting one takes. Answers whether the next one, if any, may be replied to so.
    pub fn try_reply<W: Write>(
        &mut self,
        alloc: Global,
        state: &SessionState,
        outbox: &mut Outbox,
        writer: &mut W,
        most: usize,
        offered: &mut Vec<Learnt>,
    ) -> io::Result<bool>
        ensures { Tells (W.contents writer.old) (W.contents writer.new) outbox.old outbox.new result
            self.old self.new state.now offered.old.items offered.new.items }
    {
        let mut count = 0;
        let mut is_tried = false;
        let effort = if self.workers < 2 { usize::MAX } else { THREAD };
        let put = try_put(
            alloc,
            state,
            outbox,
            writer,
            first_of(self.asked.as_slice(), most),
            effort,
            &mut self.workspace,
            offered,
            &mut count,
            &mut is_tried,
        );
        self.leave_out(count, is_tried);
        put
    }

    /// Replies as [`Batch::try_reply`]. Where `is_free`, so that replies may go out before any search, it replies to
    /// nothing if one request waits alone: its search holds no other back, and one that is given up would be made again.
    pub fn reply_first<W: Write>(
        &mut self,
        alloc: Global,
        state: &SessionState,
        outbox: &mut Outbox,
        writer: &mut W,
        most: usize,
        is_free: bool,
        offered: &mut Vec<Learnt>,
    ) -> io::Result<bool>
        ensures { Tells (W.contents writer.old) (W.contents writer.new) outbox.old outbox.new result
            self.old self.new state.now offered.old.items offered.new.items }
    {
        if is_free && self.asked.len() == 1 {
            return Ok(false);
        }
        self.try_reply(alloc, state, outbox, writer, most, offered)
    }

    /// Replies to the first request, or where several threads may answer, to all that wait, however long the searches are.
    /// All replies go out before an answer is waited for.
    pub fn reply_next<H: Threads + Wait + Sync, W: Write, K: Keeper<W>>(
        &mut self,
        rt: &H,
        alloc: Global,
        keeper: &mut K,
        writer: &mut W,
        state: &SessionState,
        outgoing: &mut Outgoing,
        offered: &mut Vec<Learnt>,
    ) -> io::Result<()>
        ensures { TellsOn result (outlet K.has_file (K.done keeper.old) (W.contents writer.old) outgoing.old.committed)
            (outlet K.has_file (K.done keeper.new) (W.contents writer.new) outgoing.new.committed) state.now outgoing.old.outbox outgoing.new.outbox
            self.old self.new offered.old.items offered.new.items }
    {
        let most = if self.workers < 2 { 1 } else { BATCH_LIMIT };
        let asked = first_of(self.asked.as_slice(), most);
        let count = asked.len();
        let is_tried = self.is_tried;
        let workers = self.workers;
        let workspace = &mut self.workspace;
        let put = tell_in_order(
            rt, alloc, keeper, writer, state, outgoing, asked, is_tried, workers, workspace,
            offered,
        );
        self.leave_out(count, false);
        put
    }

    /// Leaves out the first requests, and keeps whether the next one was tried.
    fn leave_out(&mut self, count: usize, is_tried: bool)
        requires { count ≤ length self.old }
        ensures { self.new ≡ drop count self.old }
    {
        drop_first(&mut self.asked, count);
        self.is_tried = is_tried;
    }
}

/// Takes the first requests away. The room stays.
fn drop_first(asked: &mut Vec<RequestWithOptions>, count: usize)
    requires { count ≤ length asked.old.items }
    ensures items { asked.new.items ≡ drop count asked.old.items }
    ensures room { vec_capacity asked.new ≡ vec_capacity asked.old }
{
    asked.rotate_left(count);
    asked.truncate(asked.len() - count);
}

/// The first requests, so many at most.
fn first_of(asked: &[RequestWithOptions], most: usize) -> &[RequestWithOptions]
    ensures { result.now ≡ take most asked.now }
{
    &asked[..most.min(asked.len())]
}
