//! The registry of packages.
#![tactic(auto)]

mod by_name;
mod commands;
mod dependencies;
mod growing;
mod laws;
mod limits;
mod need_list;
mod place;
mod publications;
mod ready;
mod registry;
mod requests;
mod span;

pub use commands::Command;
pub use dependencies::Dependencies;
pub use laws::{
    allowed_is_published, matching_is_what_meets, names_have_their_numbers, numbers_last,
    one_preferred_selection, ordinals_are_below_the_count, publications_are_lawful,
    registries_stay_lawful, the_highest_is_one,
};
pub use limits::limits_in_numbers;
pub use place::Place;
pub use registry::{Facts, NEED_LIMIT, PACKAGE_LIMIT, Registry, VERSION_LIMIT};
pub use releases::Matching;
pub use requests::{LOCK_LIMIT, Request, admits, locks};

/// The number of a package, from 1 on.
pub type Pkg = u32;
