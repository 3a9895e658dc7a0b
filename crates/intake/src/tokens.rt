//! What lines in their usual form are made of, taken from their tokens.
//!
//! Where None is the answer nothing is said, neither of the tokens nor of what is left of them.
ghost use Rattle.std.specs.Prelude.{◌≡◌, [], ◌∷◌, IfSome, IsTrue, true};
ghost use Rattle.json.specs.Token as token;
ghost use Rattle.versions.specs.Words.{is_name, is_requirement};
ghost use Rattle.intake.specs.Needs.{AreNeeds, needs_tokens, pair_tokens};

use crate::read_texts::ReadTexts;
use json::{Reader, Token};
use std::alloc::Global;
use versions::{Name, Need};

/// The most needs of a line that is read in one pass.
pub const MOST_NEEDS_IN_ONE_PASS: usize = 64;

/// The room for needs that a line begins with.
/// Measured at half and at twice this value: docs/BENCHMARKS.md, Constants.
pub const NEEDS_ROOM: usize = 12;

/// A member of this name that is a text.
#[inline(always)]
pub fn take_text<'a>(reader: &mut Reader<'a>, name: &str) -> Option<&'a str>
    ensures { IfSome result (λ s. reader.old ≡ token.key name.now ∷ token.string s.now ∷ reader.new) }
{
    if !take_key(reader, name) {
        return None;
    }
    take_string(reader)
}

/// The needs of a line, where they are few and its last member.
pub fn take_last_needs(
    alloc: Global,
    known: &mut ReadTexts,
    reader: &mut Reader<'_>,
) -> Option<Vec<(Name, Need)>>
    ensures told { IfSome result (λ needs. reader.old ≡ needs_tokens needs.items) }
    ensures needs { IfSome result (λ needs. AreNeeds needs.items) }
{
    if !take_key(reader, "needs") {
        return None;
    }
    let Token::BeginArray = reader.next()? else {
        return None;
    };
    let needs = take_needs(alloc, known, reader)?;
    if !take_end(reader) {
        return None;
    }
    Some(needs)
}

/// Whether a key is next and is this one.
#[inline(always)]
fn take_key(reader: &mut Reader<'_>, name: &str) -> bool
    ensures { result ≡ true → reader.old ≡ token.key name.now ∷ reader.new }
{
    match reader.next() {
        Some(Token::Key(key)) => key == name,
        _ => false,
    }
}

/// A text, where it is next.
#[inline(always)]
fn take_string<'a>(reader: &mut Reader<'a>) -> Option<&'a str>
    ensures { IfSome result (λ s. reader.old ≡ token.string s.now ∷ reader.new) }
{
    match reader.next() {
        Some(Token::String(text)) => Some(text),
        _ => None,
    }
}

/// The needs of an array behind its bracket, and the bracket that closes it.
fn take_needs(
    alloc: Global,
    known: &mut ReadTexts,
    reader: &mut Reader<'_>,
) -> Option<Vec<(Name, Need)>>
    ensures told { IfSome result (λ needs. reader.old ≡ pair_tokens needs.items (token.end_array ∷ reader.new)) }
    ensures needs { IfSome result (λ needs. AreNeeds needs.items) }
{
    let Ok(mut needs) = Vec::with_capacity(alloc, NEEDS_ROOM) else {
        return None;
    };
    for _ in 0..=MOST_NEEDS_IN_ONE_PASS {
        match reader.next()? {
            Token::EndArray => return Some(needs),
            Token::BeginArray => {
                let need = take_need(alloc, known, reader)?;
                let Ok(()) = needs.push(need) else {
                    return None;
                };
            }
            _ => return None,
        }
    }
    None
}

/// A need behind its bracket, and the bracket that closes it.
fn take_need(alloc: Global, known: &mut ReadTexts, reader: &mut Reader<'_>) -> Option<(Name, Need)>
    ensures told { IfSome result (λ need. reader.old ≡ token.string need.0 ∷ token.string need.1 ∷ token.end_array ∷ reader.new) }
    ensures name { IfSome result (λ need. IsTrue (is_name need.0)) }
    ensures requirement { IfSome result (λ need. IsTrue (is_requirement need.1)) }
{
    let name = take_string(reader)?;
    let need = take_string(reader)?;
    let Token::EndArray = reader.next()? else {
        return None;
    };
    let name = known.name(alloc, name)?;
    let need = known.need(alloc, need)?;
    Some((name, need))
}

/// Whether the object and the text end here.
fn take_end(reader: &mut Reader<'_>) -> bool
    ensures { result ≡ true → reader.old ≡ token.end_object ∷ [] }
{
    match reader.next() {
        Some(Token::EndObject) => reader.next().is_none(),
        _ => false,
    }
}
