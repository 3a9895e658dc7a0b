//! Seats that live between calls: each answers a line, and keeps its reply until the next one.
ghost use Rattle.std.specs.Prelude.{◌≡◌, ◌≤◌, ◌<◌, ◌∷◌, [], length, map, IfErr, IfNone, IfOk, IfSome, IsOk, OnOk, vec_len};
ghost use Rattle.replies.specs.Replies.{Reply, reply_text};
ghost use Rattle.answers.specs.Lawful.{IsLawfulWithin};
ghost use Rattle.chronicle.specs.Seats.{MayHaveSeen};
ghost use Rattle.race.specs.Racing.{Loads, file_of, lines_past, seat_ways};
ghost use Rattle.race.specs.Seated.{AreOpened, Enters, waiting};

use crate::kept_reply::{KeptReply, put_line};
use crate::running::answer;
use crate::seat::{Racer, enter};
use answers::{Backend, Settings};
use book::Item;
use chronicle::{CAPACITY_LIMIT, Row, SEAT_LIMIT, Seat, seats};
use intake::RequestReader;
use lines::Outbox;
use std::alloc::{AllocError, Global};
use std::io;
use std::io::ErrorKind;
use std::marker::Model;
use versions::Refusal;

/// A seat with what it needs to answer lines, and its last reply. A contract sees the seat, and the line of that reply, which is
/// empty before the first.
#[derive(Drop)]
pub struct Seated {
    racer: Racer,
    intake: RequestReader,
    outbox: Outbox,
    kept: KeptReply,
}

impl Model for Seated {
    ghost use Rattle.std.specs.Prelude.{◌≡◌, []};
    ghost use Rattle.race.specs.KeptReply.{kept_line};
    ghost use Rattle.race.specs.Seated.{SeatedState};

    ghost Value = { SeatedState };

    ghost view = { λ s. record { seat = s.racer; reply = kept_line s.kept } };

    ghost invariant = { λ s. s.outbox ≡ [] };
}

impl Seated {
    /// A seat that has answered nothing.
    fn new(alloc: Global, seat: Seat) -> Result<Seated, AllocError>
        ensures { IfOk result (λ s. s ≡ waiting seat) }
    {
        Ok(Seated {
            racer: Racer::new(seat),
            intake: RequestReader::new(alloc),
            outbox: Outbox::new(alloc)?,
            kept: KeptReply::Line(Vec::new(alloc)),
        })
    }

    /// Answers a line, and keeps the reply.
    pub fn ask(&mut self, alloc: Global, line: &[u8], settings: Settings)
        ensures { (reply : Reply) × IsLawfulWithin settings seat_ways line.now self.old.seat reply self.new.seat
            × (self.new.reply ≡ reply_text reply) }
    {
        self.kept = answer(alloc, &mut self.racer, &mut self.intake, line, settings);
    }

    /// The line of the last reply. That is kept, also where there is no memory for its line.
    pub fn reply(&mut self, alloc: Global) -> Result<Vec<u8>, AllocError>
        ensures text { IfOk result (λ text. text.items ≡ self.old.reply) }
        ensures same { self.new ≡ self.old }
    {
        let mut text = Vec::new(alloc);
        let put = put_line(&mut self.outbox, &mut text, &self.kept);
        let sent = self.outbox.send(&mut text);
        match (put, sent) {
            (Ok(()), Ok(())) => Ok(text),
            _ => Err(AllocError),
        }
    }

    /// Looks for what others entered, and gives the file of the journal that the seat has seen then. The last reply stays.
    pub fn journal(&mut self, alloc: Global) -> io::Result<Vec<u8>>
        ensures seen { MayHaveSeen self.old.seat self.new.seat }
        ensures text { IfOk result (λ text. text.items ≡ file_of self.new.seat.journal) }
        ensures loads { OnOk result (Loads self.new.seat.journal) }
        ensures reply { self.new.reply ≡ self.old.reply }
    {
        self.racer.journal(alloc)
    }

    /// Looks for what others entered, and gives the lines that the entries behind the first `from` have in a journal's file, and how many
    /// entries the seat has seen then: nothing where these are fewer than `from`. Beside the look it is linear in what it gives. The last
    /// reply stays.
    pub fn lines(&mut self, alloc: Global, from: usize) -> io::Result<Option<(Vec<u8>, usize)>>
        ensures seen { MayHaveSeen self.old.seat self.new.seat }
        ensures within { IfOk result (λ o. IfSome o (λ r. from ≤ length self.new.seat.journal)) }
        ensures lines { IfOk result (λ o. IfSome o (λ r. r.0.items ≡ lines_past from self.new.seat.journal)) }
        ensures place { IfOk result (λ o. IfSome o (λ r. r.1 ≡ length self.new.seat.journal)) }
        ensures fewer { IfOk result (λ o. IfNone o (length self.new.seat.journal < from)) }
        ensures reply { self.new.reply ≡ self.old.reply }
    {
        self.racer.lines(alloc, from)
    }
}

/// The seats of a new row, numbered from 1. The first enters these items. Errors are [`Refusal::NoMemory`], and where there are items
/// those of [`Seat::enter`].
pub fn open_seats(
    alloc: Global,
    count: u32,
    capacity: usize,
    items: Vec<Item>,
) -> Result<Vec<Box<Seated>>, Refusal>
    requires some { 1 ≤ count }
    requires few { count ≤ SEAT_LIMIT }
    requires cells { 1 ≤ capacity }
    requires limit { capacity ≤ CAPACITY_LIMIT }
    ensures opened { IfOk result (λ v. AreOpened capacity items.items (map (λ b. b.value) v.items)) }
    ensures count { IfOk result (λ v. vec_len v ≡ count) }
    ensures only { items.items ≡ [] → IfErr result (λ e. e ≡ Refusal.NoMemory) }
{
    let row = Row::open(alloc, capacity)?;
    let mut all = seats(alloc, &row, count)?;
    enter_all(&mut all[0], items)?;
    Ok(seat_all(alloc, all)?)
}

/// Enters items, in order, with nothing of others behind any of them.
fn enter_all(seat: &mut Seat, items: Vec<Item>) -> Result<(), Refusal>
    requires { seat.old.row.capacity ≤ CAPACITY_LIMIT }
    ensures entered { OnOk result (Enters seat.old items.items seat.new) }
    ensures only { items.items ≡ [] → IsOk result }
{
    for item in items {
        enter_next(seat, item)?;
    }
    Ok(())
}

/// Enters an item, with nothing of others before or behind it. Else the error is [`Refusal::Stray`], or one of [`Seat::enter`].
fn enter_next(seat: &mut Seat, item: Item) -> Result<(), Refusal>
    requires { seat.old.row.capacity ≤ CAPACITY_LIMIT }
    ensures { OnOk result (Enters seat.old (item ∷ []) seat.new) }
{
    let next = seat.place() + 1;
    let _stamp = enter(seat, item)?;
    seat.catch_up()?;
    if seat.place() == next {
        Ok(())
    } else {
        Err(Refusal::Stray)
    }
}

/// Has each seat answer lines.
fn seat_all(alloc: Global, all: Vec<Seat>) -> Result<Vec<Box<Seated>>, AllocError>
    ensures { IfOk result (λ v. map (λ b. b.value) v.items ≡ map waiting all.items) }
{
    let mut seated = Vec::with_capacity(alloc, all.len())?;
    for seat in all {
        seated.push_reserved(Box::new(alloc, Seated::new(alloc, seat)?)?);
    }
    Ok(seated)
}
