//! Calls of terms.

use rows::{CallResult, Unread, at, both, given};
use serde_json::Value;
use std::alloc::Global;
use terms::{Relation, Term, relation};

pub fn term_call(alloc: Global, name: &str, row: &Value) -> Result<CallResult, Unread> {
    match name {
        "negate" => given(alloc, at::<Term>(alloc, row, "a")?.negate()),
        "relation" => related(alloc, row),
        _ => Err(Unread::Row),
    }
}

fn related(alloc: Global, row: &Value) -> Result<CallResult, Unread> {
    let terms = both::<Term, Term>(alloc, row, "a", "b")?;
    let found = relation(&terms.0, &terms.1);
    drop(terms);
    Ok(CallResult::Word(match found {
        Relation::Satisfies => "satisfies",
        Relation::Contradicts => "contradicts",
        Relation::Inconclusive => "inconclusive",
    }))
}
