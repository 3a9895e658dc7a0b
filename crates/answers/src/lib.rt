//! The answer to one line, by a session or by a seat of a race: [`answer_line`] asks the registry of a [`Backend`], and
//! [`put_reply`] writes what is told as a reply.
//!
//! | File | What it does |
//! |---|---|
//! | `backend` | what lines are answered by |
//! | `answer` | the answer to a line: a command is entered, a request resolved, a derivation judged, a listing lent |
//! | `told` | what is told of what the solver found, and of a derivation |
//! | `reasons` | why no selection meets a request, by names and with its explanation |
//! | `put` | the lines of replies |
//! | `settings` | how requests are answered, as far as their lines do not say |
//! | `fault` | why lines are answered no further |
//! | `laws` | what one may build on lawful replies |
#![tactic(auto)]

mod answer;
mod backend;
mod fault;
mod laws;
mod put;
mod reasons;
mod settings;
mod told;

pub use answer::{Answer, answer_line, answer_read, within};
pub use backend::{Backend, learn_all};
pub use fault::RunFault;
pub use laws::{lawful_replies_add_up, one_selection_is_told};
pub use put::{put_listing, put_reply, send_told};
pub use settings::Settings;
pub use told::{ReplyStamp, reply_body_of};
