//! Rows of tables, as the program `probe` reads them, and what it answers.
//!
//! A row is a line of JSON. Its members `of` and `call` name the call, the others give its arguments. Nothing here
//! has a clause: it is proved to be safe, and what is answered is compared with what the tables want.
#![tactic(auto)]

mod answer_text;
mod call_result;
mod command_texts;
mod commands;
mod line_rows;
mod line_texts;
mod published;
mod reading;
mod serving;
mod showing;

pub use answer_text::AnswerText;
pub use call_result::CallResult;
pub use commands::{command_call, command_of};
pub use line_rows::learnt_at;
pub use published::request_at;
pub use reading::{
    Given, Unread, at, both, items, member, size_at, text, text_at, three, whole, whole_at,
};
pub use serving::{row_of, tell};
pub use showing::{Shows, given, given_if, shown};
