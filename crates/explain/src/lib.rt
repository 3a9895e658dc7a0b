//! Why no selection meets a request, in numbered lines that a person can follow.
//!
//! What the lines say is a function of the derivation alone; [`write_lines`] writes that text and
//! nothing else, and [`explanation`] hands the same lines out one by one.
#![tactic(auto)]

mod causes;
mod choices;
mod conclusions;
mod explaining;

pub use explaining::{explanation, write_lines};
