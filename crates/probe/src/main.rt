//! The program `probe`: makes one public call of a crate for each row that it reads, and writes what the call answered.
//! The calls are those that no contract says exactly, those that no program of this repository makes, and those whose definitions
//! no answer of a program depends on.
//!
//! A call is guarded by what the crate offers to test what the call requires; where that does not hold, the answer
//! says that the call was left out.
//!
//! With the word `team` it reads no rows: it runs the example of that name, and writes what that tells.
#![tactic(auto)]

mod chain_calls;
mod chronicle_calls;
mod further_calls;
mod item_texts;
mod oracles;
mod order;
mod outcomes;
mod partial_calls;
mod pool_calls;
mod registry_calls;
mod seat_steps;
mod session;
mod solver_calls;
mod team;
mod term_calls;
mod walk_calls;

use std::env::{self, Env};
use std::io::{self, Write};

fn main(rt: HostRuntime) -> io::Result<()> {
    if !is_for_team(&rt)? {
        return session::serve(&rt);
    }
    let mut text = Vec::new(rt.alloc());
    match team::run(&rt, rt.alloc(), &mut text) {
        Ok(()) => rt.stdout().write_all(text.as_slice()),
        Err(refusal) => println!(rt; "{}", refusal.name()),
    }
}

// Whether the first word behind the program's name is `team`.
fn is_for_team<R: Env + AllocGlobal>(rt: &R) -> io::Result<bool> {
    let mut words = env::args(rt)?;
    Ok(words.nth(1).is_some_and(|word| word.as_str() == "team"))
}
