//! Lines, read one after another by one [`RequestReader`]: request lines, each as `wire` reads it, and the publish lines of a
//! journal's file. A publish line in its usual form takes one pass, as does a resolve line with needs alone. Their names,
//! versions and requirements are judged where they come for the first time.
#![tactic(auto)]

mod publication;
mod read_texts;
mod reading;
mod resolution;
mod tokens;
mod usual_line;
mod written;

pub use reading::RequestReader;
