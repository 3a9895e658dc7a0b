//! The command line of the program: [`read_words`] tells what its words ask for, as clap reads them.
#![tactic(auto)]

mod command_line;
mod limits;
mod words;

pub use limits::limits_in_numbers;
pub use words::{
    MOST_CONFLICTS, MOST_FILES, MOST_WORKERS, WordFault, Words, advice_on, read_words,
};
