//! Calls of one registry: commands, and what is kept beside its packages so that a search need not compute it.

use registry::{Matching, Place, Registry};
use rows::{AnswerText, CallResult, Unread, at, command_call, whole_at};
use serde_json::Value;
use std::alloc::{AllocError, Global};
use versions::Need;

pub fn registry_call(
    alloc: Global,
    registry: &mut Registry,
    name: &str,
    row: &Value,
) -> Result<CallResult, Unread> {
    match name {
        "publish" | "yank" | "unyank" => command_call(alloc, registry, name, row),
        _ => kept(alloc, registry, name, row),
    }
}

fn kept(alloc: Global, registry: &Registry, name: &str, row: &Value) -> Result<CallResult, Unread> {
    let pkg = whole_at(row, "pkg")?;
    match (name, whole_at(row, "k")) {
        ("places", Ok(ordinal)) => places(alloc, registry.places(pkg, ordinal)),
        ("low_bits", Ok(place)) => low_bits(alloc, registry.low_bits(pkg, place)),
        ("is_kept", _) => {
            let need = at::<Need>(alloc, row, "need")?;
            let answer = is_kept(registry.matching_set(pkg, &need));
            drop(need);
            answer
        }
        _ => Err(Unread::Row),
    }
}

/// The places of dependencies: that of each name, and that of its requirement.
fn places(alloc: Global, places: &[Place]) -> Result<CallResult, Unread> {
    let mut text = AnswerText::new(alloc);
    let mut is_first = true;
    text.put("[");
    for place in places {
        text.put_between(is_first);
        put_place(&mut text, place);
        is_first = false;
    }
    text.put("]");
    text.answer()
}

fn put_place(text: &mut AnswerText, place: &Place) {
    text.put("[");
    text.put_plain(place.target.saturating_sub(1));
    text.put(",");
    text.put_plain(place.need);
    text.put("]");
}

/// The bits as a number.
fn low_bits(alloc: Global, bits: Option<u64>) -> Result<CallResult, Unread> {
    let Some(bits) = bits else {
        return Ok(CallResult::None);
    };
    let mut text = AnswerText::new(alloc);
    text.put_plain(bits);
    text.answer()
}

/// Whether a matching set is kept, and was not computed for this call.
fn is_kept(set: Result<Matching<'_>, AllocError>) -> Result<CallResult, Unread> {
    let set = set?;
    let is_kept = matches!(&set, Matching::Known(_));
    drop(set);
    Ok(CallResult::Bool(is_kept))
}
