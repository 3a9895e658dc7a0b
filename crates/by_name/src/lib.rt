//! Derivations that name their packages, as request lines and replies carry them: a line knows no numbers.
//!
//! [`named`] and [`numbered`] turn a derivation by the numbers of a registry into one by names, and back.
#![tactic(auto)]

mod derivation;
mod laws;
mod naming;
mod numbering;

pub use derivation::{NamedCause, NamedDerivation, NamedLine, NamedPremise, NamedTerms};
pub use laws::{
    derived_packages_have_names, learnt_packages_have_names, named_again, names_stand_for_one,
};
pub use naming::{named, named_lines};
pub use numbering::{numbered, numbered_lines};
