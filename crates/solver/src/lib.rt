//! The answer of a request: its newest selection, or that none meets it, by one stage after another.
//!
//! | File | What it does | Contract |
//! |---|---|---|
//! | `solving.rt` | the calls | `Solves` |
//! | `outcome.rt` | what a request comes to | `IsLawful` |
//! | `look.rt` | which look at the request it is | |
//! | `stages.rt` | the stages, one after another | `IsFound`, `MayStop` |
//! | `validating.rt` | what an oracle claims, checked | `IsValidated` |
//! | `found.rt`, `telling.rt` | what was found, and what is told of it | `IsFound`, `Tells` |
#![tactic(auto)]

mod found;
mod laws;
mod look;
mod outcome;
mod solving;
mod stages;
mod telling;
mod validating;

pub use engine::{EngineOracle, Workspace};
pub use laws::an_outcome_is_the_answer;
pub use oracle::{Options, Oracle};
pub use outcome::Outcome;
pub use solving::{
    solve, solve_at_first, solve_by, solve_in, solve_looked_at, solve_with, solve_within,
};
