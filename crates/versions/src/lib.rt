//! Names, versions and requirements of packages, and the refusals of the whole product.
//!
//! A value of this crate was read from a text and keeps it: what a contract sees of a [`Name`], a
//! [`Published`] or a [`Need`] is its text. Versions are those of Semantic Versioning 2.0.0, and
//! requirements those of the Cargo Book, "Specifying Dependencies". The [`Bounds`] of a requirement
//! answer the same as it does, and cost less where a version is tested by many requirements.
#![tactic(auto)]

mod bounds;
mod faults;
mod limits;
mod name;
mod need;
mod parsed_text;
mod precedence;
mod published;
mod refusal;

pub use bounds::Bounds;
pub use limits::limits_in_numbers;
pub use name::{NAME_LIMIT, Name, is_name_text};
pub use need::{Need, REQUIREMENT_LIMIT, pre_releases_are_named};
pub use precedence::{equal_precedence_is_an_equivalence, order, precedence_is_a_total_preorder};
pub use published::{Published, VERSION_TEXT_LIMIT, versions_are_those_of_the_grammar};
pub use refusal::Refusal;
