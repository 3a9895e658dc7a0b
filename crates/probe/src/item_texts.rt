//! Items of rows and of answers.

use book::Item;
use rows::{AnswerText, Shows, Unread, command_of, learnt_at, text_at};
use serde_json::Value;
use std::alloc::Global;

/// A command, or `{"op":"learn","lines":[..]}`.
pub fn item_at(alloc: Global, row: &Value) -> Result<Item, Unread> {
    match text_at(row, "op")? {
        "learn" => Ok(Item::Learnt(learnt_at(alloc, row)?)),
        kind => Ok(Item::Command(command_of(alloc, kind, row)?)),
    }
}

/// A command, or what was learnt by what it concludes, as `["learn",[[1,{"in":[0]}]]]`.
pub fn put_item(text: &mut AnswerText, item: &Item) {
    match item {
        Item::Command(command) => command.show(text),
        Item::Learnt(learnt) => ("learn", learnt).show(text),
    }
}
