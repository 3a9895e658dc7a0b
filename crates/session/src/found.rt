//! Lines that were found: what each asks, and the reply to it.
ghost use Rattle.std.specs.Prelude.{ℕ, List};
ghost use Rattle.lines.specs.Unread.{IsFound};
ghost use Rattle.answers.specs.Answering.{IsReadWithin};
ghost use Rattle.answers.specs.Lawful.{IsLawfulWithin};
ghost use Rattle.answers.specs.declared.settings.Settings.{Settings};
ghost use Rattle.session.specs.Putting.{PutsReply};
ghost use Rattle.session.specs.Session.{session_ways};

use crate::session_state::SessionState;
use answers::{
    Answer, Backend, Settings, answer_read, learn_all, put_listing, put_reply, send_told, within,
};
use intake::RequestReader;
use lines::{LineBuffer, Next, Outbox};
use std::alloc::Global;
use std::io;
use std::io::Write;
use versions::Refusal;
use wire::Asked;

/// Reads what the line asks that was found, within these settings. An error is the lowest that the line alone
/// shows, or [`Refusal::NoMemory`].
pub fn read_found(
    alloc: Global,
    intake: &mut RequestReader,
    lines: &LineBuffer,
    found: Next,
    settings: Settings,
) -> Result<Asked, Refusal>
    requires { (line : List ℕ) × IsFound found lines.now line }
    ensures { (line : List ℕ) → IsFound found lines.now line → IsReadWithin settings result line }
{
    match found {
        Next::Line => within(intake.read(alloc, lines.line()), settings),
        Next::TooLong => Err(Refusal::BadLine),
        Next::More => unreachable!(),
    }
}

/// Replies to a line of which this was read. The reply waits in the outbox where there is room. That of a search is written at
/// once, and then it is learnt what the search offers: such a line comes here only as the last one of a text.
pub fn reply_to<W: Write>(
    alloc: Global,
    served: &mut SessionState,
    outbox: &mut Outbox,
    writer: &mut W,
    read: Result<Asked, Refusal>,
) -> io::Result<()>
    ensures { (settings : Settings) (line : List ℕ) → IsReadWithin settings read line
        → PutsReply (λ reply. IsLawfulWithin settings session_ways line served.old reply served.new) (W.contents writer.old) (W.contents writer.new) outbox.old outbox.new result }
{
    match answer_read(alloc, served, read) {
        Answer::Told(body) => put_reply(outbox, writer, served.standing(), body),
        Answer::Found(body, offered) => {
            let put = send_told(outbox, writer, served.standing(), body);
            learn_all(served, offered);
            put
        }
        Answer::Listing => {
            put_listing(alloc, outbox, writer, served.standing(), served.registry())
        }
    }
}
