//! The program `registryd`: a package registry that reads request lines and writes reply lines.
#![tactic(auto)]

ghost use Rattle.std.specs.Prelude.{◌≡◌, drop};

mod device_calls;
mod ends;
mod fault;
mod files;
mod folder;
mod freed;
mod journal_devices;
mod journal_file;
mod links;
mod recovered;
mod run_command;
mod run_program;
mod system;
mod target;
mod written;

use command_line::{Words, read_words};
use device_calls::PlainCalls;
use ends::End;
use freed::keep_what_is_freed;
use lines::write_text;
use run_program::{Exit, run_program};
use std::alloc::{Alloc, Global};
use std::env::Env;
use std::io::{ErrorKind, IsTerminal, Write};
use std::process::ExitCode;
use std::{env, io};
use written::ending;

// What a session at a terminal says before its first line.
const WAITING: &str =
    "registryd: waiting for request lines, such as {\"op\":\"list\"}; Ctrl-D ends them\n";

fn main(rt: HostRuntime) -> ExitCode {
    match begin(&rt) {
        Ok(words) => {
            let words = after_name(words.as_slice());
            let mut input = rt.stdin();
            if input.is_terminal() {
                greet(rt.alloc(), words, &mut rt.stderr());
            }
            let Exit {
                status,
                writer: _,
                calls: _,
            } = run_program(
                &rt,
                rt.alloc(),
                words,
                &mut input,
                rt.stdout(),
                &mut rt.stderr(),
                PlainCalls,
            );
            ExitCode::from(status)
        }
        Err(e) => ExitCode::from(ending(&end_without_words(&e), &mut rt.stderr())),
    }
}

// How the program ends where its words are not had: memory lacks, or a word is no text.
fn end_without_words(e: &io::Error) -> End {
    match e.kind() {
        ErrorKind::OutOfMemory => End::Memory,
        _ => End::Words,
    }
}

// Settles what is done with freed memory, and gives the words of the command line.
fn begin<R: Env + AllocGlobal>(rt: &R) -> io::Result<Vec<String>> {
    keep_what_is_freed(rt.alloc());
    words_given(rt)
}

// The words of the command line, the program's name among them.
fn words_given<R: Env + Alloc>(rt: &R) -> io::Result<Vec<String<R::A>, R::A>> {
    Ok(env::args(rt)?.collect(rt.alloc())?)
}

// Tells a person at a terminal what `serve` waits for. A line that can't be written is given up.
fn greet<W: Write>(alloc: Global, words: &[String], writer: &mut W) {
    if let Ok(Words::Serve { .. } | Words::Keep { .. }) = read_words(alloc, words) {
        let _ = write_text(writer, WAITING.as_bytes());
    }
}

// The words after the program's name.
fn after_name(words: &[String]) -> &[String]
    ensures { result.now ≡ drop 1 words.now }
{
    if words.is_empty() { words } else { &words[1..] }
}
