//! A race: [`race`] answers files of lines, each by a seat of one row in a thread of its own. Of
//! [`open_seats`] a program has the seats themselves.
//!
//! | File | What it does |
//! |---|---|
//! | `seat` | a seat as a backend |
//! | `running` | one seat, which answers the lines of a file |
//! | `kept_reply` | replies, which are kept until all seats are done |
//! | `racing` | all seats, and what is written of them |
//! | `seated` | seats that live between calls, each with its last reply |
#![tactic(auto)]

mod kept_reply;
mod racing;
mod running;
mod seat;
mod seated;

pub use racing::race;
pub use seated::{Seated, open_seats};
