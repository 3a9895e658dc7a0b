//! A seat of a race as a backend.
ghost use Rattle.std.specs.Prelude.{◌≡◌, ◌⊎◌, ◌≤◌, ◌<◌, All, Some, IfErr, IfNone, IfOk, IfSome, OnOk, length};
ghost use Rattle.chronicle.specs.Calls.{Enter};
ghost use Rattle.chronicle.specs.Seats.{HasCalled, MayHaveSeen};
ghost use Rattle.race.specs.Racing.{Loads, file_of, lines_past, seat_ways};

use crate::racing::{journal_text, text_past};
use answers::{Backend, ReplyStamp};
use book::Item;
use chronicle::{Mark, Seat, Stamp};
use registry::Registry;
use replies::SeatStamp;
use std::alloc::Global;
use std::io;
use std::io::ErrorKind;
use std::marker::Model;
use store::Store;
use versions::Refusal;

/// A seat that answers lines. A contract sees the seat.
#[derive(Drop)]
pub struct Racer {
    seat: Seat,
}

impl Model for Racer {
    ghost use Rattle.chronicle.specs.Seats.{SeatState};

    ghost Value = { SeatState };

    ghost view = { λ r. r.seat };
}

impl Racer {
    /// The seat, to answer lines.
    pub fn new(seat: Seat) -> Racer
        ensures { result ≡ seat }
    {
        Racer { seat }
    }

    /// Looks for what others entered, and gives the file of the journal that the seat has seen then.
    pub fn journal(&mut self, alloc: Global) -> io::Result<Vec<u8>>
        ensures seen { MayHaveSeen self.old self.new }
        ensures text { IfOk result (λ text. text.items ≡ file_of self.new.journal) }
        ensures loads { OnOk result (Loads self.new.journal) }
    {
        self.catch_up()?;
        journal_text(alloc, &mut self.seat)
    }

    /// Looks for what others entered, and gives the lines that the entries behind the first `from` have in a journal's file, and how many
    /// entries the seat has seen then: nothing where these are fewer than `from`. Beside the look it is linear in what it gives.
    pub fn lines(&mut self, alloc: Global, from: usize) -> io::Result<Option<(Vec<u8>, usize)>>
        ensures seen { MayHaveSeen self.old self.new }
        ensures within { IfOk result (λ o. IfSome o (λ r. from ≤ length self.new.journal)) }
        ensures lines { IfOk result (λ o. IfSome o (λ r. r.0.items ≡ lines_past from self.new.journal)) }
        ensures place { IfOk result (λ o. IfSome o (λ r. r.1 ≡ length self.new.journal)) }
        ensures fewer { IfOk result (λ o. IfNone o (length self.new.journal < from)) }
    {
        self.catch_up()?;
        let place = self.seat.place();
        if place < from {
            return Ok(None);
        }
        let text = text_past(alloc, &mut self.seat, from)?;
        Ok(Some((text, place)))
    }

    /// Looks for what others entered.
    fn catch_up(&mut self) -> io::Result<()>
        ensures { MayHaveSeen self.old self.new }
    {
        match self.seat.catch_up() {
            Ok(()) => Ok(()),
            Err(Refusal::NoMemory) => Err(io::Error::from(ErrorKind::OutOfMemory)),
            Err(_) => Err(io::Error::from(ErrorKind::InvalidData)),
        }
    }

    /// A mark of all that the seat has seen. The only error is [`Refusal::NoMemory`].
    pub fn mark(&mut self) -> Result<Mark, Refusal>
        ensures row { IfOk result (λ m. m.row ≡ self.old.row) }
        ensures whole { IfOk result (λ m. m.entries ≡ self.old.journal) }
        ensures stray { IfOk result (λ m. m.stray ≡ self.old.stray) }
    {
        self.seat.mark()
    }
}

impl Backend for Racer {
    ghost ways = { seat_ways };

    fn standing(&self) -> ReplyStamp {
        let spot = SeatStamp {
            place: self.seat.place(),
            seat: self.seat.number(),
        };
        ReplyStamp {
            revision: self.seat.revision(),
            stamp: Some(spot),
        }
    }

    fn registry(&self) -> &Registry {
        self.seat.registry()
    }

    fn store(&self) -> &Store {
        self.seat.store()
    }

    fn look(&mut self) -> Result<(), Refusal> {
        self.seat.catch_up()
    }

    fn enter(&mut self, item: Item) -> Result<(), Refusal> {
        let _stamp = enter(&mut self.seat, item)?;
        Ok(())
    }
}

/// Enters an item. Errors are those of [`Seat::enter`].
pub fn enter(seat: &mut Seat, item: Item) -> Result<Stamp, Refusal>
    ensures { HasCalled seat.old seat.new (Enter item) result }
{
    match item {
        Item::Command(command) => seat.enter(command),
        Item::Learnt(learnt) => seat.learn(learnt),
    }
}
