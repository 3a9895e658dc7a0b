//! Lines that are taken off a reader, in whatever pieces they come.
ghost use Rattle.std.specs.Prelude.{◌≡◌, ◌≢◌, ℕ, ◌+◌, ◌<◌, ◌≤◌, ◌-◌, List, [], ◌∷◌, Bool, length, take, drop, slice_range, IfNone, IfSome, IfOk, IfErr, OnErr, vec_len, vec_capacity};
ghost use Rattle.std.specs.Io.KnownBytes.{Keeps};
ghost use Rattle.std.specs.IoError.{error_kind};
ghost use Rattle.lines.specs.declared.buffer.TheConstants.{LINE_LIMIT};
ghost use Rattle.lines.specs.declared.read.TheConstants.{READ_SIZE};
ghost use Rattle.lines.specs.Lines.{HasNoFeed, line_feed};
ghost use Rattle.lines.specs.Unread.{Unread, StandsFor, Finds, FindsLast, ReadsMore, line_limit};

use crate::read::{READ_SIZE, read_at};
use memchr::memchr;
use std::alloc::{AllocError, Global};
use std::io;
use std::io::{ErrorKind, Read};
use std::marker::Model;

/// The most bytes that a line may have without its line feed.
pub const LINE_LIMIT: usize = 1_048_576;

/// What stands at the front of the bytes that were read.
#[derive(Clone, Copy, Debug, PartialEq, Eq)]
pub enum Next {
    /// A line within the limit, which `line` shows.
    Line,
    /// A longer line, of which nothing is kept.
    TooLong,
    /// No line that has ended.
    More,
}

/// Takes lines off a reader. A contract sees what was read and not yet taken.
///
/// Call `next` until it answers `More`, then `read_more`, and so on until that answers `false`; then
/// `last`. So each byte is looked at once, and moved at most once, in whatever pieces it comes, and
/// `next` never waits for a reader. Room for one line and one read is taken once, by `new`; it is filled as far as
/// lines and reads have needed so far.
#[derive(Drop)]
pub struct LineBuffer {
    held: Vec<u8>,
    /// The line that was found last.
    line_start: usize,
    line_end: usize,
    /// What was read and not yet taken; there is no line feed before `scanned`.
    start: usize,
    scanned: usize,
    end: usize,
    /// The front of the line that begins at `start` was too long to be held.
    is_long: bool,
}

impl Model for LineBuffer {
    ghost Value = { Unread };

    ghost view = { λ b. record {
      line = slice_range b.held.items b.line_start b.line_end;
      is_long = b.is_long;
      bytes = slice_range b.held.items b.start b.end;
    } };

    ghost invariant = { λ b. record {
      room : LINE_LIMIT + READ_SIZE ≤ vec_capacity b.held;
      line_ordered : b.line_start ≤ b.line_end;
      line_within : b.line_end ≤ vec_len b.held;
      start_ordered : b.start ≤ b.scanned;
      scanned_ordered : b.scanned ≤ b.end;
      end_within : b.end ≤ vec_len b.held;
      no_feed : HasNoFeed (slice_range b.held.items b.start b.scanned);
    } };
}

impl LineBuffer {
    /// Takes the room, about 1.1 MB.
    pub fn new(alloc: Global) -> Result<LineBuffer, AllocError>
        ensures taken { IfOk result (λ b. StandsFor b []) }
        ensures shown { IfOk result (λ b. b.line ≡ []) }
    {
        Ok(LineBuffer {
            held: Vec::with_capacity(alloc, LINE_LIMIT + READ_SIZE)?,
            line_start: 0,
            line_end: 0,
            start: 0,
            scanned: 0,
            end: 0,
            is_long: false,
        })
    }

    /// The line that the last call found, without its line feed, and nothing where that found none.
    pub fn line(&self) -> &[u8]
        ensures { result.now ≡ self.now.line }
    {
        let held = self.held.as_slice();
        &held[self.line_start..self.line_end]
    }

    /// Takes the next line of the bytes that were read, and its line feed. It reads nothing.
    pub fn next(&mut self) -> Next
        ensures found { (text : List ℕ) → StandsFor self.old text → Finds result text self.new }
        ensures shown { result ≢ Next.Line → self.new.line ≡ [] }
        ensures room { result ≡ Next.More → length self.new.bytes ≤ line_limit }
    {
        let held = self.held.as_slice();
        match find_feed(&held[self.scanned..self.end]) {
            Some(offset) => {
                let feed = self.scanned + offset;
                let is_long = self.is_long || feed - self.start > LINE_LIMIT;
                self.line_start = if is_long { feed } else { self.start };
                self.line_end = feed;
                self.start = feed + 1;
                self.scanned = feed + 1;
                self.is_long = false;
                if is_long { Next::TooLong } else { Next::Line }
            }
            None => {
                self.line_start = 0;
                self.line_end = 0;
                self.scanned = self.end;
                if self.is_long || self.end - self.start > LINE_LIMIT {
                    self.is_long = true;
                    self.start = 0;
                    self.scanned = 0;
                    self.end = 0;
                }
                Next::More
            }
        }
    }

    /// Reads once, at most 65,536 bytes, and answers whether there was anything left to read.
    /// A read that a signal breaks off is made again. An `Err` loses nothing of what was read before.
    pub fn read_more<R: Read>(&mut self, reader: &mut R) -> io::Result<bool>
        requires { length self.old.bytes ≤ line_limit }
        ensures more { IfOk result (ReadsMore (R.remaining reader.old) (R.remaining reader.new) self.old.bytes self.new.bytes) }
        ensures front { self.new.is_long ≡ self.old.is_long }
        ensures shown { self.new.line ≡ [] }
        ensures err { OnErr result ((self.new.bytes ≡ self.old.bytes) × Keeps (R.remaining reader.old) (R.remaining reader.new)) }
        ensures retried { IfErr result (λ e. error_kind e ≢ ErrorKind.Interrupted) }
    {
        let (start, end) = (self.start, self.end);
        make_room(&mut self.held, start, end);
        self.line_start = 0;
        self.line_end = 0;
        self.start = 0;
        self.scanned -= start;
        self.end -= start;
        let n = read_at(reader, &mut self.held, end - start)?;
        self.end += n;
        Ok(n > 0)
    }

    /// Takes the last line, which has no line feed, of a text that has ended.
    pub fn last(&mut self) -> Next
        ensures found { (text : List ℕ) → StandsFor self.old text → HasNoFeed text → FindsLast result text self.new }
        ensures shown { result ≢ Next.Line → self.new.line ≡ [] }
        ensures taken { StandsFor self.new [] }
    {
        let found = if self.is_long || self.end - self.start > LINE_LIMIT {
            Next::TooLong
        } else if self.start < self.end {
            Next::Line
        } else {
            Next::More
        };
        self.line_start = if found == Next::Line {
            self.start
        } else {
            self.end
        };
        self.line_end = self.end;
        self.start = self.end;
        self.scanned = self.end;
        self.is_long = false;
        found
    }
}

/// The index of the first line feed, if there is one. Linear in the bytes before it.
pub fn find_feed(bytes: &[u8]) -> Option<usize>
    ensures none { IfNone result (HasNoFeed bytes.now) }
    ensures within { IfSome result (λ k. k < length bytes.now) }
    ensures before { IfSome result (λ k. HasNoFeed (take k bytes.now)) }
    ensures found { IfSome result (λ k. drop k bytes.now ≡ line_feed ∷ drop (k + 1) bytes.now) }
{
    memchr(b'\n', bytes)
}

/// Moves the part from `start` to `end` to the front. A part that does not stand there yet is what the
/// last read gave behind a line feed, so in all no more bytes are moved than are read.
fn move_to_front(held: &mut Vec<u8>, start: usize, end: usize)
    requires ordered { start ≤ end }
    requires within { end ≤ vec_len held.old }
    ensures moved { take (end - start) held.new.items ≡ slice_range held.old.items start end }
    ensures len { vec_len held.new ≡ vec_len held.old }
    ensures capacity { vec_capacity held.new ≡ vec_capacity held.old }
{
    if start > 0 {
        held.as_mut_slice().copy_within(start..end, 0);
    }
}

/// Moves the part from `start` to `end` to the front, and has bytes for one read behind it.
fn make_room(held: &mut Vec<u8>, start: usize, end: usize)
    requires ordered { start ≤ end }
    requires within { end ≤ vec_len held.old }
    requires room { end - start + READ_SIZE ≤ vec_capacity held.old }
    ensures moved { take (end - start) held.new.items ≡ slice_range held.old.items start end }
    ensures len { end - start + READ_SIZE ≤ vec_len held.new }
    ensures kept { vec_len held.old ≤ vec_len held.new }
    ensures capacity { vec_capacity held.old ≤ vec_capacity held.new }
{
    move_to_front(held, start, end);
    lengthen(held, end - start + READ_SIZE);
}

/// Has at least so many bytes, where there is room for them: what comes behind is 0.
fn lengthen(held: &mut Vec<u8>, len: usize)
    requires { len ≤ vec_capacity held.old }
    ensures front { take (vec_len held.old) held.new.items ≡ held.old.items }
    ensures len { len ≤ vec_len held.new }
    ensures kept { vec_len held.old ≤ vec_len held.new }
    ensures capacity { vec_capacity held.old ≤ vec_capacity held.new }
{
    if held.len() >= len {
        return;
    }
    let Ok(()) = held.resize(len, 0) else {
        unreachable!()
    };
}
