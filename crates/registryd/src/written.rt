//! The line on standard error that tells how the program ends.
ghost use Rattle.std.specs.Prelude.{◌≡◌, ◌≢◌, ◌++◌, IfErr};
ghost use Rattle.std.specs.IoError.{error_kind};
ghost use Rattle.std.specs.declared.io.ErrorKind.TheVariants.{Interrupted};
ghost use Rattle.lines.specs.Texts.{Writes};
ghost use Rattle.registryd.specs.Ending.{TellsAtMost, journal_text, status_of, text_of};
ghost use Rattle.registryd.specs.Faults.{colon_text, fault_text, line_text, what_text};

use crate::ends::End;
use crate::fault::{FileFault, What};
use itoa::Buffer;
use lines::{write_text, write_texts};
use std::io;
use std::io::Write;

/// Writes the line that tells how the program ends, and answers the exit status. It takes no memory.
///
/// A line that can't be written is given up: the status tells the end too. [`write_ending`] says whether it was written.
pub fn ending<W: Write>(end: &End, writer: &mut W) -> u8
    ensures status { result ≡ status_of end.now }
    ensures told { TellsAtMost (W.contents writer.old) (W.contents writer.new) (text_of end.now) }
{
    let _ = write_ending(end, writer);
    end.status()
}

/// Writes the line that tells how the program ends. It takes no memory.
fn write_ending<W: Write>(end: &End, writer: &mut W) -> io::Result<()>
    ensures written { Writes (W.contents writer.old) (W.contents writer.new) result (text_of end.now) }
    ensures retried { IfErr result (λ e. error_kind e ≢ Interrupted) }
{
    match end {
        End::Done => Ok(()),
        End::Input => write_text(writer, "registryd: input failed\n".as_bytes()),
        End::Output => write_text(writer, "registryd: output failed\n".as_bytes()),
        End::Journal(line) => write_journal_line(writer, *line),
        End::Kept(fault) => write_fault(writer, fault),
        End::Memory => write_text(writer, "registryd: no memory\n".as_bytes()),
        End::Words => write_text(writer, "registryd: bad words\n".as_bytes()),
    }
}

fn write_journal_line<W: Write>(writer: &mut W, line: usize) -> io::Result<()>
    ensures written { Writes (W.contents writer.old) (W.contents writer.new) result (journal_text line) }
    ensures retried { IfErr result (λ e. error_kind e ≢ Interrupted) }
{
    let mut digits = Buffer::new();
    let texts = [
        "registryd: journal line ".as_bytes(),
        digits.format(line).as_bytes(),
        "\n".as_bytes(),
    ];
    write_texts(writer, &texts)
}

fn write_fault<W: Write>(writer: &mut W, fault: &FileFault) -> io::Result<()>
    ensures written { Writes (W.contents writer.old) (W.contents writer.new) result (fault_text fault.now) }
    ensures retried { IfErr result (λ e. error_kind e ≢ Interrupted) }
{
    let name = fault.name.as_slice();
    let words = fault.words.as_slice();
    write_between(writer, b"registryd: journal ", name, b": ")?;
    write_what(writer, fault.what)?;
    write_between(writer, colon_before(words).as_bytes(), words, b"\n")
}

/// What stands before the words of the system, if it says anything.
fn colon_before(words: &[u8]) -> &'static str
    ensures { result.now ≡ colon_text words.now }
{
    if words.is_empty() { "" } else { ": " }
}

fn write_what<W: Write>(writer: &mut W, what: What) -> io::Result<()>
    ensures written { Writes (W.contents writer.old) (W.contents writer.new) result (what_text what) }
    ensures retried { IfErr result (λ e. error_kind e ≢ Interrupted) }
{
    match what {
        What::Line(line) => write_line(writer, line),
        what => write_text(writer, what.words().as_bytes()),
    }
}

fn write_line<W: Write>(writer: &mut W, line: usize) -> io::Result<()>
    ensures written { Writes (W.contents writer.old) (W.contents writer.new) result (line_text line) }
    ensures retried { IfErr result (λ e. error_kind e ≢ Interrupted) }
{
    let mut digits = Buffer::new();
    let texts = [
        "line ".as_bytes(),
        digits.format(line).as_bytes(),
        " is not a journal's, and nothing was changed".as_bytes(),
    ];
    write_texts(writer, &texts)
}

fn write_between<'a, W: Write>(
    writer: &mut W,
    before: &'a [u8],
    text: &'a [u8],
    after: &'a [u8],
) -> io::Result<()>
    ensures written { Writes (W.contents writer.old) (W.contents writer.new) result (before.now ++ (text.now ++ after.now)) }
    ensures retried { IfErr result (λ e. error_kind e ≢ Interrupted) }
{
    let texts = [before, text, after];
    write_texts(writer, &texts)
}
