//! Requests that are told their answers in order, while threads search for those behind the next.
ghost use Rattle.std.specs.Prelude.{◌≡◌, ◌++◌, List, length};
ghost use Rattle.book.specs.Items.{packages_of};
ghost use Rattle.session.specs.Batches.{Question};
ghost use Rattle.session.specs.Committing.{TellsOn, outlet};

use crate::buffers::Outgoing;
use crate::keeper::Keeper;
use crate::laws::sessions_go_on;
use crate::putting::put_answer;
use crate::replying::commit_if;
use crate::session_state::SessionState;
use answers::Backend;
use derivations::Learnt;
use pool::{Answers, Consumer, Gate, Query, RequestWithOptions, answer_in_order};
use solver::Workspace;
use std::alloc::Global;
use std::io;
use std::io::Write;
use std::sync::Wait;
use std::thread::Threads;

/// Who replies to requests, and has all replies go out before it waits for an answer.
#[derive(Drop)]
struct Telling<'k, 'w, 'a, K, W> {
    alloc: Global,
    keeper: &'k mut K,
    writer: &'w mut W,
    state: &'a SessionState,
    outgoing: &'a mut Outgoing,
    asked: &'a [RequestWithOptions],
    offered: &'a mut Vec<Learnt>,
}

impl<'k, 'w, 'a, W: Write, K: Keeper<W>> Consumer for Telling<'k, 'w, 'a, K, W> {
    ghost use Rattle.std.specs.Prelude.{◌≡◌, ◌++◌, List};
    ghost use Rattle.book.specs.Items.{packages_of};
    ghost use Rattle.session.specs.Batches.{Question};
    ghost use Rattle.session.specs.Committing.{TellsOn, outlet};

    type Output = io::Result<()>;

    ghost can_consume = { λ t packages asked. (packages ≡ packages_of t.state.now) × (asked ≡ t.asked.now) };

    ghost consumes = { λ t packages asked result then. (then.keeper.ghost_name ≡ t.keeper.ghost_name)
        × (then.writer.ghost_name ≡ t.writer.ghost_name) × (then.outgoing.ghost_name ≡ t.outgoing.ghost_name)
        × (then.offered.ghost_name ≡ t.offered.ghost_name)
        × ((behind : List Question) → TellsOn result (outlet K.has_file (K.done t.keeper.now) (W.contents t.writer.now) t.outgoing.now.committed)
        (outlet K.has_file (K.done then.keeper.now) (W.contents then.writer.now) then.outgoing.now.committed) t.state.now t.outgoing.now.outbox then.outgoing.now.outbox
        (t.asked.now ++ behind) behind t.offered.now.items then.offered.now.items) };

    fn consume<G: Gate, Q: Query, R: Wait>(
        &mut self,
        rt: &R,
        answers: &mut Answers<'_, G, Q>,
    ) -> io::Result<()> {
        tell_each(
            rt,
            answers,
            self.alloc,
            self.keeper,
            self.writer,
            self.state,
            self.outgoing,
            self.asked,
            self.offered,
        )
    }
}

/// Replies to requests in order, the first of which was tried or not, each as soon as its answer and all before it are
/// there. All replies go out before an answer is waited for, and where some are held for want of room.
pub(crate) fn tell_in_order<H: Threads + Wait + Sync, W: Write, K: Keeper<W>>(
    rt: &H,
    alloc: Global,
    keeper: &mut K,
    writer: &mut W,
    state: &SessionState,
    outgoing: &mut Outgoing,
    asked: &[RequestWithOptions],
    is_tried: bool,
    workers: usize,
    workspace: &mut Workspace,
    offered: &mut Vec<Learnt>,
) -> io::Result<()>
    ensures { (behind : List Question) → TellsOn result (outlet K.has_file (K.done keeper.old) (W.contents writer.old) outgoing.old.committed)
        (outlet K.has_file (K.done keeper.new) (W.contents writer.new) outgoing.new.committed) state.now outgoing.old.outbox outgoing.new.outbox
        (asked.now ++ behind) behind offered.old.items offered.new.items }
{
    let mut telling = Telling {
        alloc,
        keeper,
        writer,
        state,
        outgoing,
        asked,
        offered,
    };
    answer_in_order(
        rt,
        alloc,
        state.registry(),
        state.store(),
        asked,
        is_tried,
        workers,
        workspace,
        &mut telling,
    )
}

/// Puts the replies to requests, in order, and has them go out where the next answer isn't there yet.
fn tell_each<G: Gate, Q: Query, R: Wait, W: Write, K: Keeper<W>>(
    rt: &R,
    answers: &mut Answers<'_, G, Q>,
    alloc: Global,
    keeper: &mut K,
    writer: &mut W,
    state: &SessionState,
    outgoing: &mut Outgoing,
    asked: &[RequestWithOptions],
    offered: &mut Vec<Learnt>,
) -> io::Result<()>
    requires packages { Q.packages ≡ packages_of state.now }
    requires asked { Q.asked ≡ asked.now }
    requires none { answers.old ≡ 0 }
    ensures { (behind : List Question) → TellsOn result (outlet K.has_file (K.done keeper.old) (W.contents writer.old) outgoing.old.committed)
        (outlet K.has_file (K.done keeper.new) (W.contents writer.new) outgoing.new.committed) state.now outgoing.old.outbox outgoing.new.outbox
        (asked.now ++ behind) behind offered.old.items offered.new.items }
{
    sessions_go_on();
    for place in 0..asked.len() {
        let is_ready = answers.is_ready(rt);
        commit_if(!is_ready, alloc, keeper, writer, state, outgoing)?;
        let answer = answers.next(rt);
        put_answer(
            alloc,
            state,
            &mut outgoing.outbox,
            writer,
            &asked[place],
            answer,
            offered,
        )?;
    }
    Ok(())
}
