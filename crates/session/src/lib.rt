//! A session: [`serve_session`] replies to the lines of a reader, one after another, and keeps what it accepts in a
//! [`SessionState`], which [`load`] begins from a journal's file and [`save_session`] writes to one.
//!
//! | File | What it does |
//! |---|---|
//! | `session_state` | the registry of the session, with the items that it accepted |
//! | `serve` | serving the lines of a reader, with a file that has what was accepted before it is told, or without |
//! | `serving` | the lines of a reader, one after another |
//! | `found` | lines that were found: what each asks, and the reply to it |
//! | `replying` | the replies to lines, and to requests that wait, with a commit before each search that may be long |
//! | `batch` | requests of neighbouring lines, which are answered together by several threads |
//! | `telling` | the replies to such requests, while threads search for those behind the next |
//! | `putting` | the replies to such requests, put one behind another, and what their answers offer to be learnt |
//! | `buffers` | what lines are read into, and what waits of them |
//! | `keeper` | who commits what was accepted before replies go out: devices with a file, or nobody |
//! | `committing` | the lines of what was accepted go to that file, and then the replies go out |
//! | `committed` | how far a session's journal is in its file |
//! | `devices` | a file that grows and where replies go, watched together |
//! | `group` | append, sync, reply |
//! | `fed` | a session that lives between calls: it is fed bytes, and its replies are taken |
//! | `feeding` | the replies to lines that are fed |
//! | `journal` | the journal's file from which a session begins, and the one that it leaves |
#![tactic(auto)]

mod batch;
mod buffers;
mod committed;
mod committing;
mod devices;
mod fed;
mod feeding;
mod found;
mod group;
mod journal;
mod keeper;
mod laws;
mod limits;
mod putting;
mod replying;
mod serve;
mod serving;
mod session_state;
mod telling;

pub use devices::Devices;
pub use fed::Fed;
pub use journal::{Begun, load, recover_session, save_session};
pub use laws::{
    each_line_has_a_reply_line, fed_calls_add_up, no_generation_is_lost, nothing_told_is_lost,
    saved_sessions_load, sessions_are_reachable, sessions_select_the_same,
};
pub use limits::limits_in_numbers;
pub use serve::{run, serve_durably, serve_session};
pub use session_state::SessionState;
