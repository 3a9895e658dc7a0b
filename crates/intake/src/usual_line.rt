//! Lines in their usual form, read in one pass over their tokens: publish lines, and resolve lines with needs alone.
//!
//! Of any other line nothing is said here, nor of one with a fault, nor where there is no memory.
ghost use Rattle.std.specs.Prelude.{◌≡◌, IfSome};
ghost use Rattle.json.specs.Lex.{tokens};
ghost use Rattle.wire.specs.Asked.{asked_of};
ghost use Rattle.intake.specs.UsualLines.{IsUsual, op_tokens};

use crate::publication::take_publication;
use crate::read_texts::ReadTexts;
use crate::resolution::take_resolution;
use crate::tokens::take_text;
use json::{Reader, Scratch, Token};
use registry::Command;
use std::alloc::Global;
use wire::Asked;

/// What is asked by a text in a usual form, whose first member is its `op`.
pub fn usual_line(
    alloc: Global,
    known: &mut ReadTexts,
    scratch: &mut Scratch,
    text: &str,
) -> Option<Asked>
    ensures { IfSome result (λ asked. IsUsual (asked_of asked) (tokens text.now)) }
{
    let Ok(mut reader) = Reader::new(text, scratch) else {
        return None;
    };
    match take_op(&mut reader)? {
        "publish" => {
            let (name, version, needs) = take_publication(alloc, known, &mut reader)?;
            Some(Asked::Command(Command::Publish(name, version, needs)))
        }
        "resolve" => Some(Asked::Resolve {
            request: take_resolution(alloc, known, &mut reader)?,
            explain: false,
            budget: None,
        }),
        _ => None,
    }
}

/// The text of the first member, where that is `op`.
fn take_op<'a>(reader: &mut Reader<'a>) -> Option<&'a str>
    ensures { IfSome result (λ op. reader.old ≡ op_tokens op.now reader.new) }
{
    let Token::BeginObject = reader.next()? else {
        return None;
    };
    take_text(reader, "op")
}
