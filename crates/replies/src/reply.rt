//! Replies, and the lines that tell them.
ghost use Rattle.std.specs.Prelude.{◌≡◌, ◌≢◌, ◌++◌, [], flat_map, IfErr, OnErr};
ghost use Rattle.std.specs.IoError.{error_kind};
ghost use Rattle.lines.specs.Texts.{Puts};
ghost use Rattle.replies.specs.Joined.{Waits, found_text, verdict};
ghost use Rattle.replies.specs.Replied.{reply_of};
ghost use Rattle.replies.specs.Replies.{accepted, explained, follows, listed, no_selection, refused, reply_text, selected};

use crate::listing::{Listing, put_packages};
use crate::selection::put_selected;
use crate::told::Explained;
use itoa::Buffer;
use lines::Outbox;
use std::io;
use std::io::{ErrorKind, Write};
use versions::{Name, Published, Refusal};

/// Where a reply of a race was found: after so many entries of the journal, by the seat of this number.
#[derive(Clone, Copy, Debug, PartialEq, Eq)]
pub struct SeatStamp {
    pub place: usize,
    pub seat: u32,
}

/// What is replied to a line.
#[derive(Drop)]
pub struct Reply<'r> {
    /// The revision of the registry at which the line was answered.
    pub revision: u64,
    /// Where it was answered, in a race.
    pub stamp: Option<SeatStamp>,
    pub body: Body<'r>,
}

/// What a reply tells. Of what is published it tells what the registry lends.
#[derive(Drop)]
pub enum Body<'r> {
    /// The command was accepted.
    Accepted,
    /// The line was refused.
    Refusal(Refusal),
    /// The packages that are selected, each with its version. The caller gives them in byte order of their names.
    Selection(Vec<(Name, Published)>),
    /// No selection meets the request.
    NoSelection,
    /// No selection meets the request, by this derivation.
    Explained(Explained),
    /// Whether a derivation follows.
    Follows(bool),
    /// What is published.
    Listing(Listing<'r>),
}

/// Puts the line of a reply behind what waits. It takes no memory, however long a listing, a
/// selection or an explanation is.
pub fn reply_line<W: Write>(
    outbox: &mut Outbox,
    writer: &mut W,
    reply: &Reply<'_>,
) -> io::Result<()>
    ensures text { Puts (W.contents writer.old) (W.contents writer.new) outbox.old outbox.new result (reply_text (reply_of reply.now)) }
    ensures waits { Waits outbox.old outbox.new result (reply_text (reply_of reply.now)) }
    ensures err { OnErr result (outbox.new ≡ []) }
    ensures retried { IfErr result (λ e. error_kind e ≢ ErrorKind.Interrupted) }
{
    let (revision, stamp) = (reply.revision, reply.stamp);
    match &reply.body {
        Body::Accepted => put_accepted(outbox, writer, revision, stamp),
        Body::Refusal(refusal) => put_refusal(outbox, writer, *refusal, revision, stamp),
        Body::Selection(pairs) => put_selection(outbox, writer, pairs.as_slice(), revision, stamp),
        Body::NoSelection => put_no_selection(outbox, writer, revision, stamp),
        Body::Explained(reason) => put_explained(outbox, writer, reason, revision, stamp),
        Body::Follows(yes) => put_follows(outbox, writer, *yes, revision, stamp),
        Body::Listing(listing) => put_listing(outbox, writer, listing, revision, stamp),
    }
}

fn put_accepted<W: Write>(
    outbox: &mut Outbox,
    writer: &mut W,
    revision: u64,
    stamp: Option<SeatStamp>,
) -> io::Result<()>
    ensures text { Puts (W.contents writer.old) (W.contents writer.new) outbox.old outbox.new result
        (reply_text (record { revision = revision; stamp = stamp; body = accepted })) }
    ensures waits { Waits outbox.old outbox.new result
        (reply_text (record { revision = revision; stamp = stamp; body = accepted })) }
    ensures err { OnErr result (outbox.new ≡ []) }
    ensures retried { IfErr result (λ e. error_kind e ≢ ErrorKind.Interrupted) }
{
    put_around(
        outbox,
        writer,
        &[b"{\"ok\":true,"],
        revision,
        stamp,
        "",
        b"}\n",
    )
}

fn put_refusal<W: Write>(
    outbox: &mut Outbox,
    writer: &mut W,
    refusal: Refusal,
    revision: u64,
    stamp: Option<SeatStamp>,
) -> io::Result<()>
    ensures text { Puts (W.contents writer.old) (W.contents writer.new) outbox.old outbox.new result
        (reply_text (record { revision = revision; stamp = stamp; body = refused refusal })) }
    ensures waits { Waits outbox.old outbox.new result
        (reply_text (record { revision = revision; stamp = stamp; body = refused refusal })) }
    ensures err { OnErr result (outbox.new ≡ []) }
    ensures retried { IfErr result (λ e. error_kind e ≢ ErrorKind.Interrupted) }
{
    let mut number = Buffer::new();
    put_around(
        outbox,
        writer,
        &[
            b"{\"error\":",
            number.format(refusal.number()).as_bytes(),
            b",\"name\":\"",
            refusal.name().as_bytes(),
            b"\",",
        ],
        revision,
        stamp,
        "",
        b"}\n",
    )
}

fn put_selection<W: Write>(
    outbox: &mut Outbox,
    writer: &mut W,
    pairs: &[(Name, Published)],
    revision: u64,
    stamp: Option<SeatStamp>,
) -> io::Result<()>
    ensures text { Puts (W.contents writer.old) (W.contents writer.new) outbox.old outbox.new result
        (reply_text (record { revision = revision; stamp = stamp; body = selected pairs.now })) }
    ensures waits { Waits outbox.old outbox.new result
        (reply_text (record { revision = revision; stamp = stamp; body = selected pairs.now })) }
    ensures err { OnErr result (outbox.new ≡ []) }
    ensures retried { IfErr result (λ e. error_kind e ≢ ErrorKind.Interrupted) }
{
    put_around(
        outbox,
        writer,
        &[b"{"],
        revision,
        stamp,
        "",
        b",\"selected\":[",
    )?;
    put_selected(outbox, writer, pairs)?;
    outbox.put(writer, b"]}\n")
}

fn put_no_selection<W: Write>(
    outbox: &mut Outbox,
    writer: &mut W,
    revision: u64,
    stamp: Option<SeatStamp>,
) -> io::Result<()>
    ensures text { Puts (W.contents writer.old) (W.contents writer.new) outbox.old outbox.new result
        (reply_text (record { revision = revision; stamp = stamp; body = no_selection })) }
    ensures waits { Waits outbox.old outbox.new result
        (reply_text (record { revision = revision; stamp = stamp; body = no_selection })) }
    ensures err { OnErr result (outbox.new ≡ []) }
    ensures retried { IfErr result (λ e. error_kind e ≢ ErrorKind.Interrupted) }
{
    put_around(
        outbox,
        writer,
        &[b"{"],
        revision,
        stamp,
        "\"refused\":true,",
        b"}\n",
    )
}

fn put_explained<W: Write>(
    outbox: &mut Outbox,
    writer: &mut W,
    reason: &Explained,
    revision: u64,
    stamp: Option<SeatStamp>,
) -> io::Result<()>
    ensures text { Puts (W.contents writer.old) (W.contents writer.new) outbox.old outbox.new result
        (reply_text (record { revision = revision; stamp = stamp; body = explained reason.now.lines reason.now.texts })) }
    ensures waits { Waits outbox.old outbox.new result
        (reply_text (record { revision = revision; stamp = stamp; body = explained reason.now.lines reason.now.texts })) }
    ensures err { OnErr result (outbox.new ≡ []) }
    ensures retried { IfErr result (λ e. error_kind e ≢ ErrorKind.Interrupted) }
{
    put_around(
        outbox,
        writer,
        &[
            b"{\"derivation\":",
            reason.derivation_text().as_bytes(),
            b",\"explanation\":",
            reason.lines_text().as_bytes(),
            b",",
        ],
        revision,
        stamp,
        "\"refused\":true,",
        b"}\n",
    )
}

/// What begins the reply to a check line, up to where and when it was found.
fn verdict(yes: bool) -> &'static str
    ensures { result.now ≡ verdict yes }
{
    if yes {
        "{\"follows\":true,"
    } else {
        "{\"follows\":false,"
    }
}

fn put_follows<W: Write>(
    outbox: &mut Outbox,
    writer: &mut W,
    yes: bool,
    revision: u64,
    stamp: Option<SeatStamp>,
) -> io::Result<()>
    ensures text { Puts (W.contents writer.old) (W.contents writer.new) outbox.old outbox.new result
        (reply_text (record { revision = revision; stamp = stamp; body = follows yes })) }
    ensures waits { Waits outbox.old outbox.new result
        (reply_text (record { revision = revision; stamp = stamp; body = follows yes })) }
    ensures err { OnErr result (outbox.new ≡ []) }
    ensures retried { IfErr result (λ e. error_kind e ≢ ErrorKind.Interrupted) }
{
    put_around(
        outbox,
        writer,
        &[verdict(yes).as_bytes()],
        revision,
        stamp,
        "",
        b"}\n",
    )
}

fn put_listing<W: Write>(
    outbox: &mut Outbox,
    writer: &mut W,
    listing: &Listing<'_>,
    revision: u64,
    stamp: Option<SeatStamp>,
) -> io::Result<()>
    ensures text { Puts (W.contents writer.old) (W.contents writer.new) outbox.old outbox.new result
        (reply_text (record { revision = revision; stamp = stamp; body = listed listing.now })) }
    ensures waits { Waits outbox.old outbox.new result
        (reply_text (record { revision = revision; stamp = stamp; body = listed listing.now })) }
    ensures err { OnErr result (outbox.new ≡ []) }
    ensures retried { IfErr result (λ e. error_kind e ≢ ErrorKind.Interrupted) }
{
    outbox.put(writer, b"{\"packages\":")?;
    put_packages(outbox, writer, listing)?;
    put_around(outbox, writer, &[b","], revision, stamp, "", b"}\n")
}

/// Puts where and at which revision a line was answered, between other texts.
fn put_around<W: Write>(
    outbox: &mut Outbox,
    writer: &mut W,
    before: &[&[u8]],
    revision: u64,
    stamp: Option<SeatStamp>,
    between: &str,
    after: &[u8],
) -> io::Result<()>
    ensures text { Puts (W.contents writer.old) (W.contents writer.new) outbox.old outbox.new result
        (flat_map (λ t. t.now) before.now ++ (found_text stamp revision between.now ++ after.now)) }
    ensures waits { Waits outbox.old outbox.new result
        (flat_map (λ t. t.now) before.now ++ (found_text stamp revision between.now ++ after.now)) }
    ensures err { OnErr result (outbox.new ≡ []) }
    ensures retried { IfErr result (λ e. error_kind e ≢ ErrorKind.Interrupted) }
{
    outbox.put_all(writer, before)?;
    put_found(outbox, writer, revision, stamp, between)?;
    outbox.put(writer, after)
}

/// Puts the revision, behind the place and before the seat where there are some.
fn put_found<W: Write>(
    outbox: &mut Outbox,
    writer: &mut W,
    revision: u64,
    stamp: Option<SeatStamp>,
    between: &str,
) -> io::Result<()>
    ensures text { Puts (W.contents writer.old) (W.contents writer.new) outbox.old outbox.new result
        (found_text stamp revision between.now) }
    ensures waits { Waits outbox.old outbox.new result
        (found_text stamp revision between.now) }
    ensures err { OnErr result (outbox.new ≡ []) }
    ensures retried { IfErr result (λ e. error_kind e ≢ ErrorKind.Interrupted) }
{
    let mut digits = Buffer::new();
    match stamp {
        None => outbox.put_all(
            writer,
            &[
                between.as_bytes(),
                b"\"revision\":",
                digits.format(revision).as_bytes(),
            ],
        ),
        Some(spot) => {
            let (mut place, mut seat) = (Buffer::new(), Buffer::new());
            outbox.put_all(
                writer,
                &[
                    b"\"place\":",
                    place.format(spot.place).as_bytes(),
                    b",",
                    between.as_bytes(),
                    b"\"revision\":",
                    digits.format(revision).as_bytes(),
                    b",\"seat\":",
                    seat.format(spot.seat).as_bytes(),
                ],
            )
        }
    }
}
