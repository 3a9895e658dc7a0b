//! Text that waits to be written, so that many short texts become one write.
ghost use Rattle.std.specs.Prelude.{◌≡◌, ◌≢◌, ◌+◌, ◌≤◌, true, List, [], ◌++◌, ℕ, length, IsOk, IfOk, IfErr, OnErr, vec_len, vec_capacity, flat_map, Option};
ghost use Rattle.std.specs.Io.KnownBytes.{Appends};
ghost use Rattle.std.specs.IoError.{error_kind};
ghost use Rattle.lines.specs.Texts.{Writes, Puts, outbox_room};

use crate::write::{flush, write_text};
use std::alloc::{AllocError, Global};
use std::io;
use std::io::{ErrorKind, Write};
use std::marker::Model;

/// How many bytes may wait.
/// Measured at half and at twice this value: docs/BENCHMARKS.md, Constants.
const OUTBOX_ROOM: usize = 65_536;

/// Up to how many bytes a text is short.
/// Measured at half and at twice this value: docs/BENCHMARKS.md, Constants.
const SHORT: usize = 8;

/// Holds text that waits to be written. A contract sees the text that waits.
///
/// Its room, 65,536 bytes, is made once, by `new`. A longer text is written without waiting.
/// After an `Err` a beginning of all that was put is written, and the rest of it is given up.
#[derive(Drop)]
pub struct Outbox {
    waiting: Vec<u8>,
}

impl Model for Outbox {
    ghost Value = { List ℕ };

    ghost view = { λ o. o.waiting.items };

    ghost invariant = { λ o. outbox_room ≤ vec_capacity o.waiting };
}

impl Outbox {
    /// Makes the room.
    pub fn new(alloc: Global) -> Result<Outbox, AllocError>
        ensures { IfOk result (λ o. o ≡ []) }
    {
        Ok(Outbox {
            waiting: Vec::with_capacity(alloc, OUTBOX_ROOM)?,
        })
    }

    /// Writes what waits, and flushes the writer. Call it before a read that may wait for an answer.
    pub fn send<W: Write>(&mut self, writer: &mut W) -> io::Result<()>
        ensures sent { Writes (W.contents writer.old) (W.contents writer.new) result self.old }
        // Where a part of a text was written and the rest waits, all of the text is written.
        ensures rest { (before : Option (List ℕ)) (written text : List ℕ) → Appends before (W.contents writer.old) written
            → written ++ self.old ≡ text → Writes before (W.contents writer.new) result text }
        ensures empty { self.new ≡ [] }
        ensures retried { IfErr result (λ e. error_kind e ≢ ErrorKind.Interrupted) }
    {
        let outcome = write_flushed(writer, self.waiting.as_slice());
        self.waiting.clear();
        outcome
    }

    /// Puts a text behind what waits, and writes only where there is no room for both.
    pub fn put<W: Write>(&mut self, writer: &mut W, text: &[u8]) -> io::Result<()>
        ensures text { Puts (W.contents writer.old) (W.contents writer.new) self.old self.new result text.now }
        // A text for which there is room is not written yet.
        ensures waits { length self.old + length text.now ≤ outbox_room → IsOk result × (self.new ≡ self.old ++ text.now) }
        ensures err { OnErr result (self.new ≡ []) }
        ensures retried { IfErr result (λ e. error_kind e ≢ ErrorKind.Interrupted) }
    {
        if text.len() <= self.waiting.capacity() - self.waiting.len() {
            append(&mut self.waiting, text);
            return Ok(());
        }
        self.send(writer)?;
        if text.len() > self.waiting.capacity() {
            return write_text(writer, text);
        }
        append(&mut self.waiting, text);
        Ok(())
    }

    /// Puts texts one behind another. Room is asked for once, for all of them.
    pub fn put_all<W: Write>(&mut self, writer: &mut W, texts: &[&[u8]]) -> io::Result<()>
        ensures texts { Puts (W.contents writer.old) (W.contents writer.new) self.old self.new result (flat_map (λ t. t.now) texts.now) }
        ensures waits { length self.old + length (flat_map (λ t. t.now) texts.now) ≤ outbox_room
            → IsOk result × (self.new ≡ self.old ++ flat_map (λ t. t.now) texts.now) }
        ensures err { OnErr result (self.new ≡ []) }
        ensures retried { IfErr result (λ e. error_kind e ≢ ErrorKind.Interrupted) }
    {
        if fit(texts, self.waiting.capacity() - self.waiting.len()) {
            append_all(&mut self.waiting, texts);
            return Ok(());
        }
        for text in texts {
            self.put(writer, *text)?;
        }
        Ok(())
    }
}

/// Writes a text, and has it leave the writer.
fn write_flushed<W: Write>(writer: &mut W, text: &[u8]) -> io::Result<()>
    ensures written { Writes (W.contents writer.old) (W.contents writer.new) result text.now }
    ensures retried { IfErr result (λ e. error_kind e ≢ ErrorKind.Interrupted) }
{
    write_text(writer, text)?;
    flush(writer)
}

/// Copies a short text behind what waits, where there is room for it: byte by byte, which takes less time than a call that
/// copies memory.
fn append_short(waiting: &mut Vec<u8>, text: &[u8])
    requires { vec_len waiting.old + length text.now ≤ vec_capacity waiting.old }
    ensures items { waiting.new.items ≡ waiting.old.items ++ text.now }
    ensures capacity { vec_capacity waiting.old ≤ vec_capacity waiting.new }
{
    for index in 0..text.len() {
        waiting.push_reserved(text[index]);
    }
}

/// Copies a text behind what waits, where there is room for it.
fn append(waiting: &mut Vec<u8>, text: &[u8])
    requires { vec_len waiting.old + length text.now ≤ vec_capacity waiting.old }
    ensures items { waiting.new.items ≡ waiting.old.items ++ text.now }
    ensures capacity { vec_capacity waiting.old ≤ vec_capacity waiting.new }
{
    if text.len() <= SHORT {
        append_short(waiting, text);
        return;
    }
    let Ok(()) = waiting.extend_from_slice(text) else {
        unreachable!()
    };
}

/// Whether these texts together have at most so many bytes.
fn fit(texts: &[&[u8]], room: usize) -> bool
    ensures { result ≡ true → length (flat_map (λ t. t.now) texts.now) ≤ room }
{
    let mut left = room;
    for text in texts {
        if text.len() > left {
            return false;
        }
        left -= text.len();
    }
    true
}

/// Copies texts behind what waits, where there is room for all of them.
fn append_all(waiting: &mut Vec<u8>, texts: &[&[u8]])
    requires { vec_len waiting.old + length (flat_map (λ t. t.now) texts.now) ≤ vec_capacity waiting.old }
    ensures items { waiting.new.items ≡ waiting.old.items ++ flat_map (λ t. t.now) texts.now }
    ensures capacity { vec_capacity waiting.old ≤ vec_capacity waiting.new }
{
    for text in texts {
        append(waiting, *text);
    }
}
