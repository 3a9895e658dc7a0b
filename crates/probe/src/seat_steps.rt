//! Steps of one seat, and what they answer. A step that memory was refused to is made once more: it has left its seat
//! as it was.

ghost use Rattle.std.specs.Prelude.{◌≡◌, IfOk};

use crate::item_texts::put_item;
use crate::outcomes::{offered, options_at};
use chronicle::{Entry, Mark, Seat, Stamp};
use derivations::Learnt;
use registry::Request;
use rows::{
    AnswerText, CallResult, Shows, Unread, both, command_of, given_if, learnt_at, request_at,
    shown, text_at, three, whole,
};
use serde_json::Value;
use solver::{Options, Outcome};
use std::alloc::{AllocError, Global};
use store::Store;
use versions::Refusal;

pub fn seat_step(
    alloc: Global,
    name: &str,
    given: &Value,
    seat: &mut Seat,
    mark: &mut Mark,
) -> Result<CallResult, Unread>
    requires { mark.old.row ≡ seat.old.row }
    ensures seat { seat.new.row ≡ seat.old.row }
    ensures mark { mark.new.row ≡ seat.old.row }
{
    match name {
        "mark" | "meet" | "catch_up" | "publish" | "yank" | "unyank" | "enter" | "learn" => {
            changed_told(alloc, name, given, seat, mark)
        }
        "resolve" => resolve(alloc, false, given, seat),
        "resolve_and_learn" => resolve(alloc, true, given, seat),
        "named" => given_if(alloc, named(alloc, seat.store(), whole(given)?)),
        _ => about(alloc, name, seat),
    }
}

// ---- what a seat stands for

fn about(alloc: Global, name: &str, seat: &mut Seat) -> Result<CallResult, Unread>
    ensures { seat.new.row ≡ seat.old.row }
{
    match name {
        "place" => Ok(CallResult::Number(seat.place())),
        "revision" => Ok(CallResult::Number(seat.revision() as usize)),
        "number" => Ok(CallResult::Number(seat.number() as usize)),
        "registry" => Ok(CallResult::Number(seat.registry().revision() as usize)),
        "journal" => journal_told(alloc, seat.mark()?),
        "stored" => shown(alloc, seat.store()),
        _ => Err(Unread::Row),
    }
}

/// The members of a store that are found by a package, newest first.
fn named(alloc: Global, store: &Store, pkg: u32) -> Result<Vec<&Learnt>, AllocError> {
    let number = u64::from(pkg);
    let mut found = Vec::new(alloc);
    let mut at = store.naming().first(number);
    'walk: while let Some(link) = store.naming().link(at) {
        if link.number == number {
            if let Some(member) = store.member(link.place) {
                found.push(member)?;
            }
        }
        at = link.before;
    }
    Ok(found)
}

/// Of each entry the number of the seat that made it, its serial, and its item.
fn journal_told(alloc: Global, mut seen: Mark) -> Result<CallResult, Unread> {
    let journal = seen.entries(alloc)?;
    let mut is_first = true;
    let mut text = AnswerText::new(alloc);
    text.put("[");
    for entry in journal.as_slice() {
        text.put_between(is_first);
        put_entry(&mut text, *entry);
        is_first = false;
    }
    text.put("]");
    text.answer()
}

fn put_entry(text: &mut AnswerText, entry: &Entry) {
    text.put("[");
    text.put_plain(entry.seat);
    text.put(",");
    text.put_plain(entry.serial);
    text.put(",");
    put_item(text, &entry.item);
    text.put("]");
}

// ---- marking, meeting and entering

fn changed_told(
    alloc: Global,
    name: &str,
    given: &Value,
    seat: &mut Seat,
    mark: &mut Mark,
) -> Result<CallResult, Unread>
    requires { mark.old.row ≡ seat.old.row }
    ensures seat { seat.new.row ≡ seat.old.row }
    ensures mark { mark.new.row ≡ seat.old.row }
{
    match changed_again(alloc, name, given, seat, mark) {
        Err(why) => refusal_told(why),
        answer => answer,
    }
}

/// A refusal of a step; lack of memory, and a row that can't be read, are the whole row's answer.
fn refusal_told(why: Unread) -> Result<CallResult, Unread> {
    match why {
        Unread::Refused(Refusal::NoMemory) => Err(why),
        Unread::Refused(refusal) => Ok(CallResult::Refused(refusal)),
        Unread::Row => Err(why),
    }
}

/// Takes a step, and once more where memory is refused: then it has done nothing.
fn changed_again(
    alloc: Global,
    name: &str,
    given: &Value,
    seat: &mut Seat,
    mark: &mut Mark,
) -> Result<CallResult, Unread>
    requires { mark.old.row ≡ seat.old.row }
    ensures seat { seat.new.row ≡ seat.old.row }
    ensures mark { mark.new.row ≡ seat.old.row }
{
    match changed(alloc, name, given, seat, mark) {
        Err(Unread::Refused(Refusal::NoMemory)) => changed(alloc, name, given, seat, mark),
        outcome => outcome,
    }
}

/// Takes a step whose answer takes no memory. What a seat had seen is kept until the next mark is made; the answer of
/// that is its place.
fn changed(
    alloc: Global,
    name: &str,
    given: &Value,
    seat: &mut Seat,
    mark: &mut Mark,
) -> Result<CallResult, Unread>
    requires { mark.old.row ≡ seat.old.row }
    ensures seat { seat.new.row ≡ seat.old.row }
    ensures mark { mark.new.row ≡ seat.old.row }
{
    match name {
        "mark" => {
            *mark = seat.mark()?;
            Ok(CallResult::Number(mark.place()))
        }
        "meet" => {
            seat.meet(mark)?;
            Ok(CallResult::None)
        }
        "catch_up" => {
            seat.catch_up()?;
            Ok(CallResult::None)
        }
        _ => entered_told(alloc, name, given, seat),
    }
}

fn entered_told(
    alloc: Global,
    name: &str,
    given: &Value,
    seat: &mut Seat,
) -> Result<CallResult, Unread>
    ensures { seat.new.row ≡ seat.old.row }
{
    let stamp = entered(alloc, name, given, seat)?;
    Ok(CallResult::Places(stamp.place, stamp.revision as usize))
}

fn entered(alloc: Global, name: &str, given: &Value, seat: &mut Seat) -> Result<Stamp, Unread>
    ensures { seat.new.row ≡ seat.old.row }
{
    match name {
        "publish" => published(alloc, given, seat),
        "yank" | "unyank" => yanked(alloc, name, given, seat),
        "learn" => learn_lines(alloc, given, seat),
        _ => commanded(alloc, given, seat),
    }
}

fn learn_lines(alloc: Global, given: &Value, seat: &mut Seat) -> Result<Stamp, Unread>
    ensures { seat.new.row ≡ seat.old.row }
{
    let learnt = learnt_at(alloc, given)?;
    Ok(seat.learn(learnt)?)
}

fn commanded(alloc: Global, given: &Value, seat: &mut Seat) -> Result<Stamp, Unread>
    ensures { seat.new.row ≡ seat.old.row }
{
    let kind = text_at(given, "op")?;
    let command = command_of(alloc, kind, given)?;
    Ok(seat.enter(command)?)
}

fn published(alloc: Global, given: &Value, seat: &mut Seat) -> Result<Stamp, Unread>
    ensures { seat.new.row ≡ seat.old.row }
{
    let (name, version, needs) = three(alloc, given, "name", "version", "needs")?;
    Ok(seat.publish(name, version, needs)?)
}

/// Yanks a version, or takes its yank back.
fn yanked(alloc: Global, kind: &str, given: &Value, seat: &mut Seat) -> Result<Stamp, Unread>
    ensures { seat.new.row ≡ seat.old.row }
{
    let (name, version) = both(alloc, given, "name", "version")?;
    match kind {
        "yank" => Ok(seat.yank(name, version)?),
        _ => Ok(seat.unyank(name, version)?),
    }
}

// ---- resolving

/// Resolves, and then maybe learns at once what is offered, refusals dropped. The answer then has also how many are
/// stored.
fn resolve(
    alloc: Global,
    learns: bool,
    given: &Value,
    seat: &mut Seat,
) -> Result<CallResult, Unread>
    ensures { seat.new.row ≡ seat.old.row }
{
    let options = options_at(given)?;
    let request = request_at(alloc, given)?;
    let answer = resolve_told(alloc, learns, seat, &request, options);
    drop(request);
    answer
}

fn resolve_told(
    alloc: Global,
    learns: bool,
    seat: &mut Seat,
    request: &Request,
    options: Options,
) -> Result<CallResult, Unread>
    ensures { seat.new.row ≡ seat.old.row }
{
    match resolved_again(seat, request, options) {
        Ok((stamp, outcome)) => {
            let answer = outcome_told(alloc, learns, stamp, &outcome, seat);
            drop(outcome);
            answer
        }
        Err(why) => refusal_told(Unread::Refused(why)),
    }
}

fn outcome_told(
    alloc: Global,
    learns: bool,
    stamp: Stamp,
    outcome: &Outcome,
    seat: &mut Seat,
) -> Result<CallResult, Unread>
    ensures { seat.new.row ≡ seat.old.row }
{
    if learns {
        learnt_told(alloc, stamp, outcome, seat)
    } else {
        resolved_told(alloc, stamp, outcome)
    }
}

fn learnt_told(
    alloc: Global,
    stamp: Stamp,
    outcome: &Outcome,
    seat: &mut Seat,
) -> Result<CallResult, Unread>
    ensures { seat.new.row ≡ seat.old.row }
{
    learn_all(alloc, offered(outcome), seat)?;
    stored_told(alloc, stamp, outcome, seat.store().len())
}

fn learn_all(alloc: Global, offered: &[Learnt], seat: &mut Seat) -> Result<(), Unread>
    ensures { seat.new.row ≡ seat.old.row }
{
    for learnt in offered {
        learn_one(learnt.copy(alloc)?, seat)?;
    }
    Ok(())
}

fn learn_one(learnt: Learnt, seat: &mut Seat) -> Result<(), Unread>
    ensures { seat.new.row ≡ seat.old.row }
{
    match seat.learn(learnt) {
        Err(Refusal::NoMemory) => Err(Unread::Refused(Refusal::NoMemory)),
        _ => Ok(()),
    }
}

/// Resolves, and once more where memory is refused.
fn resolved_again(
    seat: &mut Seat,
    request: &Request,
    options: Options,
) -> Result<(Stamp, Outcome), Refusal>
    ensures { seat.new.row ≡ seat.old.row }
{
    match resolved(seat, request, options) {
        Err(Refusal::NoMemory) => resolved(seat, request, options),
        outcome => outcome,
    }
}

fn resolved(
    seat: &mut Seat,
    request: &Request,
    options: Options,
) -> Result<(Stamp, Outcome), Refusal>
    ensures { seat.new.row ≡ seat.old.row }
{
    if !options.explain {
        return seat.resolve_with(request, options);
    }
    match options.budget {
        Some(budget) => seat.resolve_within(request, budget),
        None => seat.resolve(request),
    }
}

fn resolved_told(alloc: Global, stamp: Stamp, outcome: &Outcome) -> Result<CallResult, Unread> {
    let mut text = AnswerText::new(alloc);
    put_resolved(&mut text, stamp, outcome);
    text.answer()
}

fn stored_told(
    alloc: Global,
    stamp: Stamp,
    outcome: &Outcome,
    stored: usize,
) -> Result<CallResult, Unread> {
    let mut text = AnswerText::new(alloc);
    text.put("[");
    put_resolved(&mut text, stamp, outcome);
    text.put(",");
    text.put_plain(stored);
    text.put("]");
    text.answer()
}

/// `{"at":[1,1],"selected":[["a","1.0.0"]]}`, where nothing was selected with null.
fn put_resolved(text: &mut AnswerText, stamp: Stamp, outcome: &Outcome) {
    text.put("{\"at\":[");
    text.put_plain(stamp.place);
    text.put(",");
    text.put_plain(stamp.revision);
    text.put("],\"selected\":");
    match outcome {
        Outcome::Selection(items, _) => items.show(text),
        Outcome::NoSelection(_) | Outcome::Refused(_, _) => text.put("null"),
    }
    text.put("}");
}
