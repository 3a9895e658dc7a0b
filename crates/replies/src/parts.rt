//! Texts that are put in parts.
ghost use Rattle.std.specs.Prelude.{◌≡◌, ◌≢◌, ◌++◌, [], codes, IfErr, OnErr};
ghost use Rattle.std.specs.IoError.{error_kind};
ghost use Rattle.lines.specs.Texts.{Puts};
ghost use Rattle.serde_json.specs.Written.{comma_if};
ghost use Rattle.replies.specs.Joined.{Waits};

use lines::Outbox;
use std::io;
use std::io::{ErrorKind, Write};

/// Puts a text between two others.
pub fn put_parts<'p, W: Write>(
    outbox: &mut Outbox,
    writer: &mut W,
    before: &'p str,
    text: &'p str,
    after: &'p str,
) -> io::Result<()>
    ensures text { Puts (W.contents writer.old) (W.contents writer.new) outbox.old outbox.new result (before.now ++ (text.now ++ after.now)) }
    ensures waits { Waits outbox.old outbox.new result (before.now ++ (text.now ++ after.now)) }
    ensures err { OnErr result (outbox.new ≡ []) }
    ensures retried { IfErr result (λ e. error_kind e ≢ ErrorKind.Interrupted) }
{
    outbox.put_all(
        writer,
        &[before.as_bytes(), text.as_bytes(), after.as_bytes()],
    )
}

/// What begins a pair that starts with a text.
pub fn opening(later: bool) -> &'static str
    ensures { result.now ≡ comma_if later ++ codes "[\"" }
{
    if later { ",[\"" } else { "[\"" }
}

/// Puts what begins a pair, and the two texts of the pair, between quotes.
pub fn put_quoted<'p, W: Write>(
    outbox: &mut Outbox,
    writer: &mut W,
    before: &'p str,
    first: &'p str,
    second: &'p str,
) -> io::Result<()>
    ensures text { Puts (W.contents writer.old) (W.contents writer.new) outbox.old outbox.new result
        (before.now ++ (first.now ++ (codes "\",\"" ++ (second.now ++ codes "\"]")))) }
    ensures waits { Waits outbox.old outbox.new result
        (before.now ++ (first.now ++ (codes "\",\"" ++ (second.now ++ codes "\"]")))) }
    ensures err { OnErr result (outbox.new ≡ []) }
    ensures retried { IfErr result (λ e. error_kind e ≢ ErrorKind.Interrupted) }
{
    outbox.put_all(
        writer,
        &[
            before.as_bytes(),
            first.as_bytes(),
            b"\",\"",
            second.as_bytes(),
            b"\"]",
        ],
    )
}
