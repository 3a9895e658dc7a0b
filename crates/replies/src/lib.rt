//! What is told of requests, in JSON: [`reply_line`] writes the line that answers one, and [`write_lock`] the list of the
//! versions that a build is to stay at.
//!
//! What a journal's file says in the same JSON is put by [`put_parts`] and [`put_needs`]; laws say what one may build
//! on texts that are put one behind another.
#![tactic(auto)]

mod laws;
mod listing;
mod lock;
mod needs;
mod parts;
mod reply;
mod selection;
mod told;
mod written;

pub use laws::{puts_add_up, replies_are_lines, texts_are_utf8, texts_need_no_escapes};
pub use listing::Listing;
pub use lock::write_lock;
pub use needs::put_needs;
pub use parts::put_parts;
pub use reply::{Body, Reply, SeatStamp, reply_line};
pub use told::Explained;
pub use written::derivation_text;
