//! The text of a selection, put in parts.
ghost use Rattle.std.specs.Prelude.{◌≡◌, ◌≢◌, ◌++◌, [], map, IfErr, OnErr};
ghost use Rattle.std.specs.IoError.{error_kind};
ghost use Rattle.lines.specs.Texts.{Puts};
ghost use Rattle.serde_json.specs.Written.{comma_if, compact_text};
ghost use Rattle.replies.specs.Joined.{Waits, joined};
ghost use Rattle.replies.specs.Replies.{pair_json};

use crate::parts::{opening, put_quoted};
use lines::Outbox;
use std::io;
use std::io::{ErrorKind, Write};
use versions::{Name, Published};

/// Puts packages with their versions as JSON, in their order, with commas between. It takes no memory, however many
/// they are.
pub fn put_selected<W: Write>(
    outbox: &mut Outbox,
    writer: &mut W,
    pairs: &[(Name, Published)],
) -> io::Result<()>
    ensures text { Puts (W.contents writer.old) (W.contents writer.new) outbox.old outbox.new result
        (joined (map pair_json pairs.now)) }
    ensures waits { Waits outbox.old outbox.new result
        (joined (map pair_json pairs.now)) }
    ensures err { OnErr result (outbox.new ≡ []) }
    ensures retried { IfErr result (λ e. error_kind e ≢ ErrorKind.Interrupted) }
{
    for (place, pair) in pairs.iter().enumerate() {
        put_pair(outbox, writer, pair, place > 0)?;
    }
    Ok(())
}

/// Puts a package and its version, after a comma where they are not the first.
fn put_pair<W: Write>(
    outbox: &mut Outbox,
    writer: &mut W,
    pair: &(Name, Published),
    later: bool,
) -> io::Result<()>
    ensures text { Puts (W.contents writer.old) (W.contents writer.new) outbox.old outbox.new result
        (comma_if later ++ compact_text (pair_json pair.now)) }
    ensures waits { Waits outbox.old outbox.new result
        (comma_if later ++ compact_text (pair_json pair.now)) }
    ensures err { OnErr result (outbox.new ≡ []) }
    ensures retried { IfErr result (λ e. error_kind e ≢ ErrorKind.Interrupted) }
{
    put_quoted(outbox, writer, opening(later), pair.0.text(), pair.1.text())
}
