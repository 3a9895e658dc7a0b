//! The store: what was learnt of searches, found by what it concludes, by the requirements that it rests
//! on, and by the packages that its conclusions name.
//!
//! A publication drops what it may have ended, so that what is stored holds of the registry.
#![tactic(auto)]

mod index;
mod keys;
mod laws;
mod limits;
mod member;
mod members;
mod requirement_index;
mod slots;
mod store;

pub use index::{Index, Link};
pub use laws::{commands_keep, learning_keeps};
pub use limits::limits_in_numbers;
pub use members::Members;
pub use store::{STORE_LIMIT, Store};
