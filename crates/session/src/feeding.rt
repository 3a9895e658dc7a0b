//! Replies to lines that are fed, each made whole or not at all.
ghost use Rattle.std.specs.Prelude.{◌≡◌, ℕ, List, [], OnErr, OnOk, if◌then◌else◌, length};
ghost use Rattle.std.specs.Io.KnownBytes.{IsAtEnd, prepend_known};
ghost use Rattle.lines.specs.Unread.{StandsFor};
ghost use Rattle.lines.specs.Texts.{Writes};
ghost use Rattle.answers.specs.Answering.{IsReadWithin};
ghost use Rattle.answers.specs.Lawful.{IsLawfulWithin};
ghost use Rattle.answers.specs.declared.settings.Settings.{Settings};
ghost use Rattle.replies.specs.Replies.{Reply, reply_text};
ghost use Rattle.session.specs.Fed.{IsFed, IsStopped, RepliesWhole, is_read_search};
ghost use Rattle.session.specs.Session.{session_ways};

use crate::found::{read_found, reply_to};
use crate::session_state::SessionState;
use answers::Settings;
use intake::RequestReader;
use lines::{LineBuffer, Next, Outbox, reading_goes_on};
use std::alloc::{AllocError, Global};
use std::io;
use std::io::{Read, Write};
use versions::Refusal;
use wire::Asked;

/// Replies to each whole line of a reader, the first of which may have begun before, and keeps what stands behind them.
pub(crate) fn feed_lines<R: Read>(
    alloc: Global,
    reader: &mut R,
    served: &mut SessionState,
    intake: &mut RequestReader,
    lines: &mut LineBuffer,
    outbox: &mut Outbox,
    replies: &mut Vec<u8>,
    needs: &mut usize,
    settings: Settings,
) -> Result<(), AllocError>
    requires sent { outbox.old ≡ [] }
    ensures fed { (text : List ℕ) → StandsFor lines.old text → OnOk result (IsAtEnd (R.remaining reader.new)
        × IsFed settings (prepend_known text (R.remaining reader.old)) (R.remaining reader.new) served.old served.new lines.new replies.old.items replies.new.items needs.old needs.new) }
    ensures stopped { (text : List ℕ) → StandsFor lines.old text → OnErr result
        (IsStopped settings (prepend_known text (R.remaining reader.old)) (R.remaining reader.new) served.old served.new replies.old.items replies.new.items needs.old needs.new) }
    ensures sent { OnOk result (outbox.new ≡ []) }
{
    reading_goes_on();
    for _ in 0..u64::MAX {
        match lines.next() {
            Next::More => match lines.read_more(reader) {
                Ok(true) => {}
                Ok(false) => return Ok(()),
                Err(_) => return Err(AllocError),
            },
            found => {
                let read = read_found(alloc, intake, lines, found, settings);
                match reply_whole(alloc, served, outbox, replies, read) {
                    Ok(rests_on) => *needs = rests_on,
                    Err(e) => return Err(e),
                }
            }
        }
    }
    Err(AllocError)
}

/// Replies to a line of which this was read, and tells on how many items the reply rests. Where there is no memory for all of the
/// reply, none of it is left.
fn reply_whole(
    alloc: Global,
    served: &mut SessionState,
    outbox: &mut Outbox,
    replies: &mut Vec<u8>,
    read: Result<Asked, Refusal>,
) -> Result<usize, AllocError>
    requires sent { outbox.old ≡ [] }
    ensures replied { (settings : Settings) (line : List ℕ) → IsReadWithin settings read line → RepliesWhole settings line served.old served.new replies.old.items replies.new.items result }
    ensures sent { OnOk result (outbox.new ≡ []) }
{
    let before = replies.len();
    let count = served.items().len();
    let searches = is_search(&read);
    match reply_at_once(alloc, served, outbox, replies, read) {
        Ok(()) => Ok(rests_on(searches, count, served)),
        Err(_) => {
            replies.truncate(before);
            Err(AllocError)
        }
    }
}

/// On how many items a reply rests: on those that a search found, or else on all that are there once the line is answered.
fn rests_on(searches: bool, found: usize, served: &SessionState) -> usize
    ensures { result ≡ (if searches then found else length served.now) }
{
    if searches {
        found
    } else {
        served.items().len()
    }
}

/// Whether a line of which this was read begins a search.
fn is_search(read: &Result<Asked, Refusal>) -> bool
    ensures { result ≡ is_read_search read.now }
{
    matches!(read, Ok(Asked::Resolve { .. }))
}

/// Replies to a line of which this was read, and writes the reply.
fn reply_at_once<W: Write>(
    alloc: Global,
    served: &mut SessionState,
    outbox: &mut Outbox,
    writer: &mut W,
    read: Result<Asked, Refusal>,
) -> io::Result<()>
    requires sent { outbox.old ≡ [] }
    ensures replied { (settings : Settings) (line : List ℕ) → IsReadWithin settings read line → (reply : Reply) × IsLawfulWithin settings session_ways line served.old reply served.new
        × Writes (W.contents writer.old) (W.contents writer.new) result (reply_text reply) }
    ensures sent { OnOk result (outbox.new ≡ []) }
{
    match reply_to(alloc, served, outbox, writer, read) {
        Ok(()) => outbox.send(writer),
        Err(e) => Err(e),
    }
}
