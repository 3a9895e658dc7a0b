//! Replies to requests of neighbouring lines that were answered, and what their answers offer to be learnt.
ghost use Rattle.std.specs.Prelude.{◌≡◌, ◌∷◌, ◌++◌, ◌≤◌, [], List, drop, length, IfErr, IfOk, IfSome};
ghost use Rattle.book.specs.Items.{packages_of};
ghost use Rattle.pool.specs.Answering.{IsAnswerTo};
ghost use Rattle.solver.specs.Outcomes.{MayStop};
ghost use Rattle.replies.specs.Replied.{body_of};
ghost use Rattle.session.specs.Batches.{LearnsOf, Tells};
ghost use Rattle.derivations.specs.Lines.{Line};
ghost use Rattle.answers.specs.Outcomes.{TellsFound};

use crate::session_state::SessionState;
use answers::{Backend, lawful_replies_add_up, learn_all, put_reply, reply_body_of};
use book::journals_grow;
use derivations::Learnt;
use lines::Outbox;
use pool::{RequestWithOptions, SolveResult, effort_of, try_answer};
use registry::Registry;
use replies::{Body, puts_add_up};
use solver::Workspace;
use std::alloc::Global;
use std::io;
use std::io::Write;
use versions::Refusal;

/// Puts the replies to the first requests for which few conflicts do, with this effort at most, and counts them. Answers
/// whether the next one may be answered so, and tells whether that was tried and left open.
pub(crate) fn try_put<W: Write>(
    alloc: Global,
    served: &SessionState,
    outbox: &mut Outbox,
    writer: &mut W,
    asked: &[RequestWithOptions],
    most: usize,
    workspace: &mut Workspace,
    offered: &mut Vec<Learnt>,
    count: &mut usize,
    is_tried: &mut bool,
) -> io::Result<bool>
    requires { count.old ≡ 0 }
    ensures told { Tells (W.contents writer.old) (W.contents writer.new) outbox.old outbox.new result
        asked.now (drop count.new asked.now) served.now offered.old.items offered.new.items }
    ensures within { count.new ≤ length asked.now }
{
    puts_add_up();
    journals_grow();
    let mut effort: usize = 0;
    for at in 0..asked.len() {
        if effort >= most {
            return Ok(false);
        }
        let one = &asked[at];
        let Some(answer) = try_one(alloc, served, one, workspace) else {
            *is_tried = true;
            return Ok(false);
        };
        effort = effort.saturating_add(effort_of(&answer));
        *count = at + 1;
        put_answer(alloc, served, outbox, writer, one, answer, offered)?;
    }
    Ok(true)
}

/// What a request is answered, unless more than a few conflicts stand in its way.
fn try_one(
    alloc: Global,
    served: &SessionState,
    asked: &RequestWithOptions,
    workspace: &mut Workspace,
) -> Option<SolveResult>
    ensures { IfSome result (IsAnswerTo (packages_of served.now) asked.now) }
{
    try_answer(alloc, served.registry(), served.store(), asked, workspace)
}

/// Puts the reply to a request that was answered so, and has what the answer offers stand behind what was offered before.
pub(crate) fn put_answer<W: Write>(
    alloc: Global,
    served: &SessionState,
    outbox: &mut Outbox,
    writer: &mut W,
    asked: &RequestWithOptions,
    answer: SolveResult,
    offered: &mut Vec<Learnt>,
) -> io::Result<()>
    requires { IsAnswerTo (packages_of served.now) asked.now answer }
    ensures { Tells (W.contents writer.old) (W.contents writer.new) outbox.old outbox.new result
        (asked.now ∷ []) [] served.now offered.old.items offered.new.items }
{
    lawful_replies_add_up::<SessionState>();
    match told_to(alloc, served.registry(), asked, answer) {
        Ok((body, more)) => {
            add_offers(offered, more);
            put_reply(outbox, writer, served.standing(), body)
        }
        Err(e) => put_reply(outbox, writer, served.standing(), Body::Refusal(e)),
    }
}

/// Puts offers behind others. Where there is no room for them, they are dropped.
fn add_offers(offered: &mut Vec<Learnt>, mut more: Vec<Learnt>)
    ensures { (added : List (List Line)) × (offered.new.items ≡ offered.old.items ++ added) }
{
    let _ = offered.append(&mut more);
}

/// Learns what is offered, in order. Where nothing is, nothing changes.
pub fn learn_offered(served: &mut SessionState, offered: Vec<Learnt>)
    ensures { LearnsOf offered.items served.old served.new }
{
    if offered.is_empty() {
        return;
    }
    learn_all(served, offered);
}

/// What is told of a request that was answered so, and what the answer offers to be learnt.
fn told_to(
    alloc: Global,
    registry: &Registry,
    asked: &RequestWithOptions,
    answer: SolveResult,
) -> Result<(Body<'static>, Vec<Learnt>), Refusal>
    requires { IsAnswerTo registry.now.packages asked.now answer }
    ensures told { IfOk result (λ r. TellsFound registry.now.packages asked.now.0 asked.now.1.explain (body_of r.0)) }
    ensures only { IfErr result (MayStop registry.now.packages asked.now.0 asked.now.1.budget) }
{
    let outcome = answer?;
    Ok(reply_body_of(alloc, registry, &asked.0, asked.1, outcome)?)
}
