//! One read, into a part of what is held.
ghost use Rattle.std.specs.Prelude.{◌≡◌, ◌≢◌, ℕ, ◌+◌, ◌<◌, ◌≤◌, length, take, slice_range, IfOk, IfErr, OnErr, vec_len, vec_capacity};
ghost use Rattle.std.specs.Io.KnownBytes.{Keeps, Consumes, IsAtEnd};
ghost use Rattle.std.specs.IoError.{error_kind};

use crate::retry::{is_interrupted, too_many_tries};
use std::io;
use std::io::{ErrorKind, Read};

/// The most bytes that one read gives.
/// Measured at half and at twice this value: docs/BENCHMARKS.md, Constants.
pub const READ_SIZE: usize = 65_536;

/// Reads once, into the places from `at` on, and answers how many bytes came: 0 at the reader's end. A read that a
/// signal interrupts is made again; any other error is the reader's.
pub fn read_at<R: Read>(reader: &mut R, held: &mut Vec<u8>, at: usize) -> io::Result<usize>
    requires { at + READ_SIZE ≤ vec_len held.old }
    ensures front { take at held.new.items ≡ take at held.old.items }
    ensures len { vec_len held.new ≡ vec_len held.old }
    ensures capacity { vec_capacity held.new ≡ vec_capacity held.old }
    ensures within { IfOk result (λ n. at + n ≤ vec_len held.new) }
    ensures ok { IfOk result (λ n. Consumes (R.remaining reader.old) (R.remaining reader.new) (slice_range held.new.items at (at + n))) }
    ensures end { IfOk result (λ n. n ≡ 0 → IsAtEnd (R.remaining reader.new)) }
    ensures err { OnErr result (Keeps (R.remaining reader.old) (R.remaining reader.new)) }
    ensures retried { IfErr result (λ e. error_kind e ≢ ErrorKind.Interrupted) }
{
    read_into(reader, held.as_mut_slice(), at)
}

/// The same over the slice, since the prover wants one borrow a function.
fn read_into<R: Read>(reader: &mut R, held: &mut [u8], at: usize) -> io::Result<usize>
    requires { at + READ_SIZE ≤ length held.old }
    ensures front { take at held.new ≡ take at held.old }
    ensures within { IfOk result (λ n. at + n ≤ length held.new) }
    ensures ok { IfOk result (λ n. Consumes (R.remaining reader.old) (R.remaining reader.new) (slice_range held.new at (at + n))) }
    ensures end { IfOk result (λ n. n ≡ 0 → IsAtEnd (R.remaining reader.new)) }
    ensures err { OnErr result (Keeps (R.remaining reader.old) (R.remaining reader.new)) }
    ensures retried { IfErr result (λ e. error_kind e ≢ ErrorKind.Interrupted) }
{
    read_retrying(reader, &mut held[at..at + READ_SIZE])
}

/// Fills a beginning of the room, by one read that no signal broke off.
fn read_retrying<R: Read>(reader: &mut R, room: &mut [u8]) -> io::Result<usize>
    requires { 0 < length room.old }
    ensures within { IfOk result (λ n. n ≤ length room.new) }
    ensures ok { IfOk result (λ n. Consumes (R.remaining reader.old) (R.remaining reader.new) (take n room.new)) }
    ensures end { IfOk result (λ n. n ≡ 0 → IsAtEnd (R.remaining reader.new)) }
    ensures err { OnErr result (Keeps (R.remaining reader.old) (R.remaining reader.new)) }
    ensures retried { IfErr result (λ e. error_kind e ≢ ErrorKind.Interrupted) }
{
    for _ in 0..u64::MAX {
        match reader.read(room) {
            Err(e) if is_interrupted(&e) => {}
            outcome => return outcome,
        }
    }
    Err(too_many_tries())
}
