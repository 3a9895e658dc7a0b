//! Lines that are read from any reader or stand in bytes that are there, and texts that are written to
//! any writer.
//!
//! All room is taken beforehand, by `LineBuffer::new` and `Outbox::new`. No other call takes memory.
#![tactic(auto)]

mod buffer;
mod laws;
mod limits;
mod outbox;
mod read;
mod retry;
mod slices;
mod write;

pub use buffer::{LINE_LIMIT, LineBuffer, Next};
pub use laws::{lines_end_at_feeds, reading_goes_on};
pub use limits::limits_in_numbers;
pub use outbox::Outbox;
pub use slices::{count_lines, first_line};
pub use write::{write_text, write_texts};
