//! From lines to rows, and from calls to answers.

use crate::call_result::CallResult;
use crate::reading::Unread;
use serde_json::Value;
use std::alloc::Global;
use std::io::{self, Print};
use versions::Refusal;

/// The row of a line.
pub fn row_of(alloc: Global, line: &str) -> Result<Value, Unread> {
    match Value::from_str(alloc, line) {
        Ok(row) => Ok(row),
        Err(fault) if fault.is_memory() => Err(Unread::Refused(Refusal::NoMemory)),
        Err(_) => Err(Unread::Row),
    }
}

/// Writes what a call answered.
pub fn tell<R: Print>(rt: &R, outcome: Result<CallResult, Unread>) -> io::Result<()> {
    let answer = answer_of(outcome);
    println!(rt; "{answer}")
}

fn answer_of(outcome: Result<CallResult, Unread>) -> CallResult {
    match outcome {
        Ok(answer) => answer,
        Err(Unread::Refused(refusal)) => CallResult::Refused(refusal),
        Err(Unread::Row) => CallResult::BadRow,
    }
}
