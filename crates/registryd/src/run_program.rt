//! The program, but for what the system gives it.
ghost use Rattle.std.specs.Prelude.{List, ℕ};
ghost use Rattle.std.specs.Io.KnownBytes.{Appends};
ghost use Rattle.session.specs.Streams.{streams_of};
ghost use Rattle.command_line.specs.Words.{texts};
ghost use Rattle.registryd.specs.Behaves.{Advises, Ran};
ghost use Rattle.registryd.specs.Calls.{file_view, io_of};

use crate::device_calls::DeviceCalls;
use crate::ends::End;
use crate::run_command::{CommandOutcome, run_command};
use crate::system::SystemFile;
use crate::written::ending;
use command_line::advice_on;
use lines::write_text;
use std::alloc::Global;
use std::io::{Read, Write};
use std::rt::Files;
use std::sync::Wait;
use std::thread::Threads;

/// The exit status, the writer of replies with what it took, and who made the calls at a kept journal.
pub struct Exit<W, C> {
    pub status: u8,
    pub writer: W,
    pub calls: C,
}

/// Does what the words after the program's name ask for, over standard input and output, and tells on standard error how that ended.
pub fn run_program<
    H: Wait + Threads + Sync + Files + AllocGlobal,
    R: Read,
    W: Write,
    E: Write,
    C: DeviceCalls,
>(
    rt: &H,
    alloc: Global,
    words: &[String],
    reader: &mut R,
    writer: W,
    errors: &mut E,
    calls: C,
) -> Exit<W, C>
where
    H::File: SystemFile,
    ensures { Ran (texts words.now) (io_of (streams_of R.remaining W.contents reader.old reader.new writer result.writer)
        (C.events calls) (C.events result.calls) (file_view H.File.remaining H.File.contents H.File.bytes)) (E.contents errors.old) (E.contents errors.new) result.status }
{
    let CommandOutcome { end, writer, calls } = run_command(
        rt, alloc, words, reader, writer, calls,
    );
    advise(alloc, words, &end, errors);
    let status = ending(&end, errors);
    Exit {
        status,
        writer,
        calls,
    }
}

// Tells what is wrong in the words, where the program ends for that.
fn advise<W: Write>(alloc: Global, words: &[String], end: &End, writer: &mut W)
    ensures { Advises (W.contents writer.old) (W.contents writer.new) end.now }
{
    match end {
        End::Words => show_advice(alloc, words, writer),
        _ => {}
    }
}

// Shows what is wrong in the words. What can't be written is given up: the status tells that something is.
fn show_advice<W: Write>(alloc: Global, words: &[String], writer: &mut W)
    ensures { (text : List ℕ) × Appends (W.contents writer.old) (W.contents writer.new) text }
{
    if let Ok(text) = advice_on(alloc, words) {
        let _ = write_text(writer, text.as_bytes());
    }
}
