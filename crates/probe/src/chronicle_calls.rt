//! Calls of chronicle: a row with two or three seats and a mark, and steps over them in one call. The mark is at the row's
//! beginning until a seat makes one.

ghost use Rattle.std.specs.Prelude.{◌≡◌, ◌≤◌, true, IfOk};

use crate::seat_steps::seat_step;
use chronicle::{CAPACITY_LIMIT, Mark, Row, SEAT_LIMIT, Seat, agree, seats};
use rows::{CallResult, Unread, given, items, member, size_at, text, whole};
use serde_json::Value;
use std::alloc::Global;
use std::thread::{Threads, join_mut};
use versions::Refusal;

pub fn chronicle_call<R: Threads>(
    rt: &R,
    alloc: Global,
    name: &str,
    row: &Value,
) -> Result<CallResult, Unread> {
    let capacity = size_at(row, "capacity")?;
    if capacity < 1 || capacity > CAPACITY_LIMIT {
        return Ok(CallResult::Skipped);
    }
    let cells = Row::open(alloc, capacity)?;
    let answer = of_row(rt, alloc, &cells, name, row);
    drop(cells);
    answer
}

fn of_row<R: Threads>(
    rt: &R,
    alloc: Global,
    cells: &Row,
    name: &str,
    row: &Value,
) -> Result<CallResult, Unread> {
    match name {
        "open" => Ok(CallResult::Number(cells.capacity())),
        "steps" => seated(rt, alloc, cells, row),
        _ => Err(Unread::Row),
    }
}

/// `"seats":[1,2]` are the numbers of the seats, of which there may be three. Each comes of a call of its own, so that two may
/// have one number. Where there are two, nobody moves the third.
fn seated<R: Threads>(
    rt: &R,
    alloc: Global,
    cells: &Row,
    row: &Value,
) -> Result<CallResult, Unread> {
    match items(member(row, "seats")?)? {
        [one, two] => with_seats(rt, alloc, cells, whole(one)?, whole(two)?, SEAT_LIMIT, row),
        [one, two, three] => {
            with_seats(
                rt,
                alloc,
                cells,
                whole(one)?,
                whole(two)?,
                whole(three)?,
                row,
            )
        }
        _ => Err(Unread::Row),
    }
}

fn with_seats<R: Threads>(
    rt: &R,
    alloc: Global,
    cells: &Row,
    one: u32,
    two: u32,
    three: u32,
    row: &Value,
) -> Result<CallResult, Unread> {
    if !is_seat(one) || !is_seat(two) || !is_seat(three) {
        return Ok(CallResult::Skipped);
    }
    let steps = items(member(row, "steps")?)?;
    let mut first = last_of(alloc, cells, one)?;
    let answer = with_first(rt, alloc, cells, two, three, steps, &mut first);
    drop(first);
    answer
}

fn is_seat(number: u32) -> bool
    ensures { result ≡ true → (1 ≤ number) × (number ≤ 64) }
{
    1 <= number && number <= SEAT_LIMIT
}

fn with_first<R: Threads>(
    rt: &R,
    alloc: Global,
    cells: &Row,
    two: u32,
    three: u32,
    steps: &[Value],
    first: &mut Seat,
) -> Result<CallResult, Unread>
    requires row { first.old.row ≡ cells.now }
    requires two { (1 ≤ two) × (two ≤ 64) }
    requires three { (1 ≤ three) × (three ≤ 64) }
{
    let mut second = last_of(alloc, cells, two)?;
    let answer = with_second(rt, alloc, cells, three, steps, first, &mut second);
    drop(second);
    answer
}

fn with_second<R: Threads>(
    rt: &R,
    alloc: Global,
    cells: &Row,
    three: u32,
    steps: &[Value],
    first: &mut Seat,
    second: &mut Seat,
) -> Result<CallResult, Unread>
    requires rows { (first.old.row ≡ cells.now) × (second.old.row ≡ cells.now) }
    requires three { (1 ≤ three) × (three ≤ 64) }
{
    let mut third = last_of(alloc, cells, three)?;
    let answer = all_told(rt, alloc, steps, first, second, &mut third);
    drop(third);
    answer
}

/// The last of so many seats.
fn last_of(alloc: Global, cells: &Row, count: u32) -> Result<Seat, Unread>
    requires { (1 ≤ count) × (count ≤ 64) }
    ensures { IfOk result (λ s. s.row ≡ cells.now) }
{
    let mut all = seats(alloc, cells, count)?;
    let last = all.pop();
    drop(all);
    match last {
        Some(seat) => Ok(seat),
        None => Err(Unread::Row),
    }
}

fn all_told<R: Threads>(
    rt: &R,
    alloc: Global,
    steps: &[Value],
    first: &mut Seat,
    second: &mut Seat,
    third: &mut Seat,
) -> Result<CallResult, Unread>
    requires { (first.old.row ≡ second.old.row) × (first.old.row ≡ third.old.row) }
{
    let mut mark = first.mark()?;
    let mut answers = Vec::new(alloc);
    let outcome = take_all(
        rt,
        alloc,
        steps,
        first,
        second,
        third,
        &mut mark,
        &mut answers,
    );
    drop(mark);
    match outcome {
        Ok(()) => given(alloc, answers),
        Err(why) => {
            drop(answers);
            Err(why)
        }
    }
}

fn take_all<R: Threads>(
    rt: &R,
    alloc: Global,
    steps: &[Value],
    first: &mut Seat,
    second: &mut Seat,
    third: &mut Seat,
    mark: &mut Mark,
    answers: &mut Vec<CallResult>,
) -> Result<(), Unread>
    requires rows { (first.old.row ≡ second.old.row) × (first.old.row ≡ third.old.row) }
    requires mark { mark.old.row ≡ first.old.row }
{
    for step in steps {
        let answer = take(rt, alloc, items(step)?, first, second, third, mark)?;
        answers.push(answer)?;
    }
    Ok(())
}

/// A step of all seats: `["agree"]`, of each two, or `["across"]`; or a step of one: `[1,"place"]` or `[3,"publish",{..}]`.
fn take<R: Threads>(
    rt: &R,
    alloc: Global,
    step: &[Value],
    first: &mut Seat,
    second: &mut Seat,
    third: &mut Seat,
    mark: &mut Mark,
) -> Result<CallResult, Unread>
    requires rows { (first.old.row ≡ second.old.row) × (first.old.row ≡ third.old.row) }
    requires mark { mark.old.row ≡ first.old.row }
    ensures first { first.new.row ≡ first.old.row }
    ensures second { second.new.row ≡ first.old.row }
    ensures third { third.new.row ≡ first.old.row }
    ensures mark { mark.new.row ≡ first.old.row }
{
    match step {
        [name] => of_all(rt, text(name)?, first, second, third, mark),
        [number, name] => of_seat(alloc, number, name, name, first, second, third, mark),
        [number, name, given] => of_seat(alloc, number, name, given, first, second, third, mark),
        _ => Err(Unread::Row),
    }
}

fn of_all<R: Threads>(
    rt: &R,
    name: &str,
    first: &mut Seat,
    second: &mut Seat,
    third: &mut Seat,
    mark: &mut Mark,
) -> Result<CallResult, Unread>
    requires rows { (first.old.row ≡ second.old.row) × (first.old.row ≡ third.old.row) }
    requires mark { mark.old.row ≡ first.old.row }
    ensures first { first.new.row ≡ first.old.row }
    ensures second { second.new.row ≡ first.old.row }
    ensures third { third.new.row ≡ first.old.row }
    ensures mark { mark.new.row ≡ first.old.row }
{
    match name {
        "agree" => agreed(first, second, third),
        "across" => across(rt, first, second, third, mark),
        _ => Err(Unread::Row),
    }
}

/// In threads of their own the first seat tells its place, the second meets the mark, and the third looks. The answer is the
/// place of the first, and the third's behind its look.
fn across<R: Threads>(
    rt: &R,
    first: &mut Seat,
    second: &mut Seat,
    third: &mut Seat,
    mark: &mut Mark,
) -> Result<CallResult, Unread>
    requires { mark.old.row ≡ second.old.row }
    ensures first { first.new.row ≡ first.old.row }
    ensures second { second.new.row ≡ second.old.row }
    ensures third { third.new.row ≡ third.old.row }
    ensures mark { mark.new.row ≡ mark.old.row }
{
    let (met, (looked, place)) = join_mut(
        rt,
        &mut || second.meet(mark),
        &mut || look_beside(rt, first, third),
    );
    met?;
    looked?;
    Ok(CallResult::Places(place, third.place()))
}

/// In threads of their own a seat tells its place, and another one looks.
fn look_beside<R: Threads>(rt: &R, told: &Seat, looking: &mut Seat) -> (Result<(), Refusal>, usize)
    ensures { looking.new.row ≡ looking.old.row }
{
    join_mut(rt, &mut || looking.catch_up(), &mut || told.place())
}

fn agreed(first: &mut Seat, second: &mut Seat, third: &mut Seat) -> Result<CallResult, Unread>
    requires { (first.old.row ≡ second.old.row) × (first.old.row ≡ third.old.row) }
    ensures first { first.new.row ≡ first.old.row }
    ensures second { second.new.row ≡ second.old.row }
    ensures third { third.new.row ≡ third.old.row }
{
    agree(first, second);
    agree(first, third);
    agree(second, third);
    Ok(CallResult::None)
}

fn of_seat(
    alloc: Global,
    number: &Value,
    name: &Value,
    given: &Value,
    first: &mut Seat,
    second: &mut Seat,
    third: &mut Seat,
    mark: &mut Mark,
) -> Result<CallResult, Unread>
    requires rows { (first.old.row ≡ second.old.row) × (first.old.row ≡ third.old.row) }
    requires mark { mark.old.row ≡ first.old.row }
    ensures first { first.new.row ≡ first.old.row }
    ensures second { second.new.row ≡ first.old.row }
    ensures third { third.new.row ≡ first.old.row }
    ensures mark { mark.new.row ≡ first.old.row }
{
    let name = text(name)?;
    match whole(number)? {
        1 => seat_step(alloc, name, given, first, mark),
        2 => seat_step(alloc, name, given, second, mark),
        3 => seat_step(alloc, name, given, third, mark),
        _ => Err(Unread::Row),
    }
}
