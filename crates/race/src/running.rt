//! One seat of a race, which answers the lines of a file.
ghost use Rattle.std.specs.Prelude.{◌≡◌, ◌≤◌, List, [], length, vec_capacity, IfOk};
ghost use Rattle.lines.specs.Lines.{lines_of};
ghost use Rattle.replies.specs.Replies.{Reply, replies_text, reply_text};
ghost use Rattle.race.specs.KeptReply.{Answered, AnsweredTo, kept_line, kept_text};
ghost use Rattle.answers.specs.Lawful.{AreLawfulWithin, IsLawfulWithin};
ghost use Rattle.race.specs.Racing.{seat_ways};

use crate::kept_reply::{KeptReply, keep_listing};
use crate::seat::Racer;
use answers::{Answer, Backend, Settings, answer_line, lawful_replies_add_up, learn_all};
use chronicle::{Mark, Seat};
use intake::RequestReader;
use lines::{count_lines, first_line};
use std::alloc::{AllocError, Global};
use versions::Refusal;

/// What a thread of a race is given: a seat, the file whose lines it answers, and room for a reply a
/// line.
#[derive(Drop)]
pub struct Job {
    pub seat: Seat,
    pub file: Vec<u8>,
    pub replies: Vec<KeptReply>,
    pub alloc: Global,
}

/// What it hands back: its replies, and a mark of all that its seat has seen.
#[derive(Drop)]
pub struct FileRun {
    pub replies: Vec<KeptReply>,
    pub mark: Result<Mark, Refusal>,
}

/// Makes room for a reply to each line of a file.
pub fn room_for(alloc: Global, file: &[u8]) -> Result<Vec<KeptReply>, AllocError>
    ensures empty { IfOk result (λ replies. replies.items ≡ []) }
    ensures room { IfOk result (λ replies. length (lines_of file.now) ≤ vec_capacity replies) }
{
    Vec::with_capacity(alloc, count_lines(file))
}

/// Answers the lines of a file, in order, with the seat.
pub fn run_file(job: Job, settings: Settings) -> FileRun
    requires empty { job.replies.items ≡ [] }
    requires room { length (lines_of job.file.items) ≤ vec_capacity job.replies }
    ensures row { IfOk result.mark (λ m. m.row ≡ job.seat.row) }
    ensures answered { IfOk result.mark (AnsweredTo settings job.seat job.file.items result.replies.items) }
{
    let Job {
        seat,
        file,
        replies,
        alloc,
    } = job;
    let mut racer = Racer::new(seat);
    let mut replies = replies;
    answer_lines(alloc, &mut racer, file.as_slice(), &mut replies, settings);
    let mark = racer.mark();
    drop(racer);
    drop(file);
    FileRun { replies, mark }
}

/// Answers lines one after another, and keeps the replies.
fn answer_lines(
    alloc: Global,
    seat: &mut Racer,
    file: &[u8],
    replies: &mut Vec<KeptReply>,
    settings: Settings,
)
    requires empty { replies.old.items ≡ [] }
    requires room { length (lines_of file.now) ≤ vec_capacity replies.old }
    ensures row { seat.new.row ≡ seat.old.row }
    ensures answered { Answered settings seat.old file.now replies.new.items seat.new }
{
    lawful_replies_add_up::<Racer>();
    let mut rest = file;
    let mut intake = RequestReader::new(alloc);
    'answering: while let Some((line, behind)) = first_line(rest) {
        let kept = answer(alloc, seat, &mut intake, line, settings);
        replies.push_reserved(kept);
        rest = behind;
    }
}

/// Answers a line, and keeps the reply.
pub fn answer(
    alloc: Global,
    seat: &mut Racer,
    intake: &mut RequestReader,
    line: &[u8],
    settings: Settings,
) -> KeptReply
    ensures { (reply : Reply) × IsLawfulWithin settings seat_ways line.now seat.old reply seat.new × (kept_line result ≡ reply_text reply) }
{
    match answer_line(alloc, seat, intake, line, settings) {
        Answer::Told(body) => KeptReply::Reply(seat.standing().reply(body)),
        Answer::Found(body, offered) => {
            let reply = seat.standing().reply(body);
            learn_all(seat, offered);
            KeptReply::Reply(reply)
        }
        Answer::Listing => keep_listing(alloc, seat.standing(), seat.registry()),
    }
}
