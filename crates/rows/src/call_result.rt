//! What a call answers, as a row has it.

use std::fmt;
use versions::Refusal;

/// What a call answered.
#[derive(Drop)]
pub enum CallResult {
    Bool(bool),
    Number(usize),
    Word(&'static str),
    Places(usize, usize),
    /// JSON of what the call gave.
    Text(String),
    None,
    /// What the call requires does not hold.
    Skipped,
    Refused(Refusal),
    /// The row names no call, or lacks what the call takes.
    BadRow,
}

impl CallResult {
    /// A number that may be none.
    pub fn choice(choice: Option<u32>) -> CallResult {
        match choice {
            Some(number) => CallResult::Number(number as usize),
            None => CallResult::None,
        }
    }
}

/// As JSON. Only a text takes memory, and it has taken it before.
impl fmt::Display for CallResult {
    fn fmt<W: fmt::Write>(&self, f: &mut fmt::Formatter<W>) -> fmt::Result {
        match self {
            CallResult::Bool(is) => write!(f, "{is}"),
            CallResult::Number(number) => write!(f, "{number}"),
            CallResult::Word(word) => write!(f, "\"{word}\""),
            CallResult::Places(first, second) => write!(f, "[{first},{second}]"),
            CallResult::Text(text) => f.write_str(text.as_str()),
            CallResult::None => f.write_str("null"),
            CallResult::Skipped => f.write_str("{\"skipped\":true}"),
            CallResult::Refused(refusal) => write!(f, "{{\"refused\":{}}}", refusal.number()),
            CallResult::BadRow => f.write_str("{\"bad\":true}"),
        }
    }
}
