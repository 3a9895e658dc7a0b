//! The walk of a version solver: from the needs of a request along dependencies, by the versions
//! that a chooser gives.
//!
//! A walk answers a selection that meets the request, or the first thing that stands in its way.
//! What it answers is right whatever the chooser says, so nothing of a search need be trusted. By
//! the preferred versions it answers the preferred selection, wherever that meets the request.
#![tactic(auto)]

mod backward;
mod best;
mod checking;
mod choice_map;
mod chooser;
mod choosing;
mod dependency;
mod dependents;
mod evidence;
mod laws;
mod left;
mod listing;
mod meeting;
mod names;
mod newest;
mod newest_choice;
mod order;
mod package_table;
mod preferred;
mod reached;
mod trial;
mod walking;

pub use choice_map::ChoiceMap;
pub use chooser::Chooser;
pub use evidence::Evidence;
pub use laws::{
    a_list_in_order_is_its_selection, ahead_is_locked_or_higher, one_answer, some_answer,
    the_preferred_is_the_newest, there_is_one_list_in_order, there_is_one_newest_selection,
    what_is_asked_is_listed,
};
pub use listing::{NextPackage, WalkListing, list_in_order};
pub use names::sort_by_name;
pub use newest::{is_newest_by, is_plainly_newest};
pub use newest_choice::{NewestChoice, choose_newest, choose_newest_by_propagation};
pub use order::Order;
pub use preferred::{Preferred, locked_ordinal, preferred_version, reach_preferred};
pub use reached::{Asker, Reached};
pub use walking::reach;
