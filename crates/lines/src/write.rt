//! Texts that are written whole, or as far as the writer takes them.
ghost use Rattle.std.specs.Prelude.{◌≡◌, ◌≢◌, ℕ, List, IfErr, flat_map};
ghost use Rattle.std.specs.Io.KnownBytes.{Keeps};
ghost use Rattle.std.specs.IoError.{error_kind};
ghost use Rattle.lines.specs.Texts.{Writes};

use crate::retry::{is_interrupted, too_many_tries};
use std::io;
use std::io::{ErrorKind, Write};

/// Writes all of a text, in as many writes as the writer asks for. It does not flush.
///
/// A write that a signal breaks off is made again. After an `Err` a beginning of the text is written.
pub fn write_text<W: Write>(writer: &mut W, text: &[u8]) -> io::Result<()>
    ensures written { Writes (W.contents writer.old) (W.contents writer.new) result text.now }
    ensures retried { IfErr result (λ e. error_kind e ≢ ErrorKind.Interrupted) }
{
    let mut written = 0;
    for _ in 0..u64::MAX {
        if written >= text.len() {
            return Ok(());
        }
        match writer.write(&text[written..]) {
            Ok(0) => return Err(io::Error::from(ErrorKind::WriteZero)),
            Ok(n) => written += n,
            Err(e) if is_interrupted(&e) => {}
            Err(e) => return Err(e),
        }
    }
    Err(too_many_tries())
}

/// Writes texts one behind another, as `write_text` writes one.
pub fn write_texts<W: Write>(writer: &mut W, texts: &[&[u8]]) -> io::Result<()>
    ensures written { Writes (W.contents writer.old) (W.contents writer.new) result (flat_map (λ t. t.now) texts.now) }
    ensures retried { IfErr result (λ e. error_kind e ≢ ErrorKind.Interrupted) }
{
    for text in texts {
        write_text(writer, *text)?;
    }
    Ok(())
}

/// Has the writer pass on the bytes that it has kept back. A call that a signal interrupts is made again; any other
/// error is the writer's.
pub fn flush<W: Write>(writer: &mut W) -> io::Result<()>
    ensures kept { Keeps (W.contents writer.old) (W.contents writer.new) }
    ensures retried { IfErr result (λ e. error_kind e ≢ ErrorKind.Interrupted) }
{
    for _ in 0..u64::MAX {
        match writer.flush() {
            Err(e) if is_interrupted(&e) => {}
            outcome => return outcome,
        }
    }
    Err(too_many_tries())
}
