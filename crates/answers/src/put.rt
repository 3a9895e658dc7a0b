//! The lines of replies, put into an outbox, or sent at once with all that waits there.
ghost use Rattle.lines.specs.Texts.{Puts};
ghost use Rattle.replies.specs.Replied.{body_of};
ghost use Rattle.replies.specs.Replies.{reply_text};
ghost use Rattle.replies.specs.Replies as texts;
ghost use Rattle.answers.specs.Outcomes.{MayTell, TellsListing};
ghost use Rattle.answers.specs.Told.{reply_from};

use crate::told::ReplyStamp;
use lines::Outbox;
use registry::Registry;
use replies::{Body, Listing, reply_line};
use std::alloc::Global;
use std::io;
use std::io::Write;
use versions::Refusal;

/// Puts the line of what is told. It takes no memory.
pub fn put_reply<W: Write>(
    outbox: &mut Outbox,
    writer: &mut W,
    at: ReplyStamp,
    body: Body<'_>,
) -> io::Result<()>
    ensures { Puts (W.contents writer.old) (W.contents writer.new) outbox.old outbox.new result
        (reply_text (reply_from at (body_of body.entry))) }
{
    let reply = at.reply(body);
    let put = reply_line(outbox, writer, &reply);
    drop(reply);
    put
}

/// As [`put_reply`], and writes it at once with all that waits.
pub fn send_told<W: Write>(
    outbox: &mut Outbox,
    writer: &mut W,
    at: ReplyStamp,
    body: Body<'_>,
) -> io::Result<()>
    ensures { Puts (W.contents writer.old) (W.contents writer.new) outbox.old outbox.new result
        (reply_text (reply_from at (body_of body.entry))) }
{
    match put_reply(outbox, writer, at, body) {
        Ok(()) => outbox.send(writer),
        Err(e) => Err(e),
    }
}

/// Puts the line that lists what is published, or that no memory is there for it.
pub fn put_listing<W: Write>(
    alloc: Global,
    outbox: &mut Outbox,
    writer: &mut W,
    at: ReplyStamp,
    registry: &Registry,
) -> io::Result<()>
    ensures { (body : texts.Body) × MayTell (TellsListing registry.now.packages) body
        × Puts (W.contents writer.old) (W.contents writer.new) outbox.old outbox.new result (reply_text (reply_from at body)) }
{
    match Listing::new(alloc, registry) {
        Ok(listing) => put_reply(outbox, writer, at, Body::Listing(listing)),
        Err(_) => put_reply(outbox, writer, at, Body::Refusal(Refusal::NoMemory)),
    }
}
