//! Two seats of one row: one publishes, then each asks in a thread of its own, and the journal is saved.
//!
//! What is told goes into a text that each function is lent, so that few of them own anything where a call may be
//! refused: a proof grows with the values that a function owns, times its ways out.

ghost use Rattle.std.specs.Prelude.{◌≡◌, All};

use chronicle::{Entry, Mark, Row, Seat, Stamp, seats};
use explain::write_lines;
use journals::{all_have_names, save_journal};
use registry::Request;
use replies::write_lock;
use solver::Outcome;
use std::alloc::Global;
use std::thread::{Threads, join};
use versions::Refusal;
use wire::{Asked, read_request};

const LOG: &str = r#"{"op":"publish","name":"log","version":"1.2.0","needs":[]}"#;

const NEXT: &str = r#"{"op":"publish","name":"log","version":"1.3.0","needs":[]}"#;

const APP: &str = r#"{"op":"publish","name":"app","version":"1.0.0","needs":[["log","^1"]]}"#;

const BOLD: &str = r#"{"op":"publish","name":"app","version":"2.0.0","needs":[["log","^2"]]}"#;

const LOCKED: &str = r#"{"op":"resolve","needs":[["app","^1"]],"lock":[["log","1.2.0"]]}"#;

const BAD: &str = r#"{"op":"resolve","needs":[["app","^2"]]}"#;

// Done, or why a call was refused.
type Done = Result<(), Refusal>;

// Lets go of what was owned: one call, where the end of a scope would be proved anew at each way out.
fn ending<D, T: Drop>(done: D, owned: T) -> D {
    drop(owned);
    done
}

/// Puts what is told behind a text, or tells why a call was refused.
pub fn run(rt: &impl Threads, alloc: Global, text: &mut Vec<u8>) -> Result<(), Refusal> {
    let row = Row::open(alloc, 64)?;
    ending(seated(rt, alloc, &row, text), row)
}

fn seated(rt: &impl Threads, alloc: Global, row: &Row, text: &mut Vec<u8>) -> Done {
    let mut both = seats(alloc, row, 2)?;
    ending(work(rt, alloc, row, both.as_mut_slice(), text), both)
}

fn work(rt: &impl Threads, alloc: Global, row: &Row, both: &mut [Seat], text: &mut Vec<u8>) -> Done
    requires { All (λ s. s.row ≡ row.now) both.old }
{
    let Some((one, others)) = both.split_first_mut() else {
        return Err(Refusal::Stray);
    };
    let Some((two, _)) = others.split_first_mut() else {
        return Err(Refusal::Stray);
    };
    publish(alloc, one)?;
    ask(rt, alloc, one, two, text)?;
    save(alloc, two, text)
}

fn publish(alloc: Global, one: &mut Seat) -> Done
    ensures { one.new.row ≡ one.old.row }
{
    enter(alloc, one, LOG)?;
    enter(alloc, one, NEXT)?;
    enter(alloc, one, APP)?;
    enter(alloc, one, BOLD)?;
    Ok(())
}

// Enters a command.
fn enter(alloc: Global, seat: &mut Seat, line: &str) -> Result<Stamp, Refusal>
    ensures { seat.new.row ≡ seat.old.row }
{
    match read_request(alloc, line.as_bytes())? {
        Asked::Command(command) => seat.enter(command),
        other => ending(Err(Refusal::BadLine), other),
    }
}

// One hands two a mark of what it is to have seen before it builds on that.
fn ask(rt: &impl Threads, alloc: Global, one: &mut Seat, two: &mut Seat, text: &mut Vec<u8>) -> Done
    requires { one.old.row ≡ two.old.row }
{
    let mut seen = one.mark()?;
    ending(meet(rt, alloc, one, two, &mut seen, text), seen)
}

fn meet(
    rt: &impl Threads,
    alloc: Global,
    one: &mut Seat,
    two: &mut Seat,
    seen: &mut Mark,
    text: &mut Vec<u8>,
) -> Done
    requires { seen.old.row ≡ two.old.row }
{
    let mut why = Vec::new(alloc);
    let (met, told) = join(rt, || two.meet(seen), || tell(alloc, one, BAD, &mut why));
    met.and(told)?;
    tell(alloc, two, LOCKED, text)?;
    Ok(text.append(&mut why)?)
}

// Answers a request: with a lock list, or with why there is none.
fn tell(alloc: Global, seat: &mut Seat, line: &str, text: &mut Vec<u8>) -> Done {
    match read_request(alloc, line.as_bytes())? {
        Asked::Resolve { request, .. } => ending(answer(alloc, seat, &request, text), request),
        other => ending(Err(Refusal::BadLine), other),
    }
}

fn answer(alloc: Global, seat: &mut Seat, request: &Request, text: &mut Vec<u8>) -> Done {
    let (_stamp, mut outcome) = seat.resolve(request)?;
    let written = match &mut outcome {
        Outcome::Selection(list, _offered) => write_lock(alloc, list, text),
        Outcome::NoSelection(_offered) => unreachable!(),
        Outcome::Refused(why, _offered) => write_lines(alloc, seat.registry(), request, why, text),
    };
    ending(written.map_err(|_| Refusal::NoMemory), outcome)
}

// Saves what a seat has seen.
fn save(alloc: Global, seat: &mut Seat, text: &mut Vec<u8>) -> Done {
    let mut seen = seat.mark()?;
    ending(save_seen(alloc, seat, &mut seen, text), seen)
}

fn save_seen(alloc: Global, seat: &Seat, seen: &mut Mark, text: &mut Vec<u8>) -> Done {
    let entries = seen.entries(alloc)?;
    ending(save_entries(alloc, seat, entries.as_slice(), text), entries)
}

fn save_entries(alloc: Global, seat: &Seat, entries: &[&Entry], text: &mut Vec<u8>) -> Done {
    let mut items = Vec::new(alloc);
    for entry in entries {
        items.push(&entry.item)?;
    }
    if !all_have_names(seat.registry(), items.as_slice()) {
        return Err(Refusal::Stale);
    }
    save_journal(alloc, seat.registry(), items.as_slice(), text).map_err(|_| Refusal::NoMemory)
}
