//! Calls that answer many requests.

use crate::order::InOrder;
use crate::outcomes::{options_at, put_outcome};
use pool::{
    Answers, Consumer, Gate, Query, RequestWithOptions, answer_all, answer_all_with,
    answer_in_order,
};
use registry::Registry;
use rows::{AnswerText, CallResult, Shows, Unread, items, member, request_at, size_at, whole_at};
use serde_json::Value;
use solver::{Outcome, Workspace};
use std::alloc::{AllocError, Global};
use std::sync::Wait;
use std::thread::Threads;
use store::Store;

/// `"workers":2,"requests":[{"needs":[["a","^1"]],"lock":[],"budget":3}]`: the answers, in order.
pub fn pool_call<R: Threads + Wait + Sync>(
    rt: &R,
    alloc: Global,
    registry: &Registry,
    name: &str,
    row: &Value,
) -> Result<CallResult, Unread> {
    match name {
        "answer_all" => all_answered(rt, alloc, registry, row),
        "answer_all_with" => in_order(rt, alloc, registry, row),
        "answer_in_order" => handed_over(rt, alloc, registry, row),
        _ => Err(Unread::Row),
    }
}

fn all_answered<R: Threads + Wait + Sync>(
    rt: &R,
    alloc: Global,
    registry: &Registry,
    row: &Value,
) -> Result<CallResult, Unread> {
    let workers = size_at(row, "workers")?;
    let requests = requests_at(alloc, row)?;
    let store = Store::new(alloc);
    let answers = answer_all(rt, alloc, registry, &store, requests, workers);
    drop(store);
    if_answered(alloc, true, answers)
}

/// With `"first":1,"later":0,"turns":1000` the request at 0 is begun once the one at 1 was answered, or
/// after so many turns in vain.
fn in_order<R: Threads + Wait + Sync>(
    rt: &R,
    alloc: Global,
    registry: &Registry,
    row: &Value,
) -> Result<CallResult, Unread> {
    let workers = size_at(row, "workers")?;
    let order = order_at(row)?;
    let requests = requests_at(alloc, row)?;
    let store = Store::new(alloc);
    let answers = answer_all_with(rt, alloc, registry, &store, requests, workers, &order);
    drop(store);
    if_answered(alloc, order.is_kept(), answers)
}

/// Takes the first answers, so many, each once it was asked whether it is there.
#[derive(Drop)]
struct First {
    count: usize,
    taken: Vec<pool::SolveResult>,
}

impl Consumer for First {
    ghost use Rattle.std.specs.Prelude.{◌≤◌, length, IfOk};
    ghost use Rattle.pool.specs.Answering.{AreAnswers};

    type Output = Result<(), AllocError>;

    ghost can_consume = { λ first packages asked. first.count ≤ length asked };

    ghost consumes = { λ first packages asked result then. Unit {0} };

    fn consume<G: Gate, Q: Query, R: Wait>(
        &mut self,
        rt: &R,
        answers: &mut Answers<'_, G, Q>,
    ) -> Result<(), AllocError> {
        for _at in 0..self.count {
            let _is_there = answers.is_ready(rt);
            self.taken.push(answers.next(rt))?;
        }
        Ok(())
    }
}

/// With `"count":2` the first two answers, of as many requests as there are.
fn handed_over<R: Threads + Wait + Sync>(
    rt: &R,
    alloc: Global,
    registry: &Registry,
    row: &Value,
) -> Result<CallResult, Unread> {
    let workers = size_at(row, "workers")?;
    let count = size_at(row, "count")?;
    let requests = requests_at(alloc, row)?;
    let mut first = First {
        count: count.min(requests.len()),
        taken: Vec::new(alloc),
    };
    let store = Store::new(alloc);
    let mut workspace = Workspace::new(alloc);
    let all = answer_in_order(
        rt,
        alloc,
        registry,
        &store,
        &requests,
        false,
        workers,
        &mut workspace,
        &mut first,
    );
    drop(workspace);
    drop(store);
    drop(requests);
    let First { count: _, taken } = first;
    match all {
        Ok(()) => if_answered(alloc, true, Ok(taken)),
        Err(e) => if_answered(alloc, true, Err(e)),
    }
}

/// The answers, if there is memory for them and nobody waited in vain.
fn if_answered(
    alloc: Global,
    is_kept: bool,
    answers: Result<Vec<pool::SolveResult>, AllocError>,
) -> Result<CallResult, Unread> {
    let answers = answers?;
    let answer = if is_kept {
        answers_told(alloc, &answers)
    } else {
        Ok(CallResult::Word("waited in vain"))
    };
    drop(answers);
    answer
}

/// The answers in order, each `{"selected":[["a","1.0.0"]]}`, `{"selected":null}`, `{"derivation":[..]}` or
/// `{"refused":22}`.
fn answers_told(alloc: Global, answers: &[pool::SolveResult]) -> Result<CallResult, Unread> {
    let mut is_first = true;
    let mut text = AnswerText::new(alloc);
    text.put("[");
    for answer in answers {
        text.put_between(is_first);
        put_answer(&mut text, answer);
        is_first = false;
    }
    text.put("]");
    text.answer()
}

fn put_answer(text: &mut AnswerText, answer: &pool::SolveResult) {
    match answer {
        Ok(outcome) => put_lawful(text, outcome),
        Err(refusal) => CallResult::Refused(*refusal).show(text),
    }
}

fn put_lawful(text: &mut AnswerText, outcome: &Outcome) {
    put_outcome(text, outcome);
    text.put("}");
}

fn order_at(row: &Value) -> Result<InOrder, Unread> {
    let (first, later) = (size_at(row, "first")?, size_at(row, "later")?);
    Ok(InOrder::new(first, later, whole_at(row, "turns")?))
}

fn requests_at(alloc: Global, row: &Value) -> Result<Vec<RequestWithOptions>, Unread> {
    let mut requests = Vec::new(alloc);
    match put_requests(alloc, row, &mut requests) {
        Ok(()) => Ok(requests),
        Err(why) => {
            drop(requests);
            Err(why)
        }
    }
}

fn put_requests(
    alloc: Global,
    row: &Value,
    requests: &mut Vec<RequestWithOptions>,
) -> Result<(), Unread> {
    for one in items(member(row, "requests")?)? {
        requests.push(asked(alloc, one)?)?;
    }
    Ok(())
}

fn asked(alloc: Global, one: &Value) -> Result<RequestWithOptions, Unread> {
    let options = options_at(one)?;
    Ok((request_at(alloc, one)?, options))
}
