//! What a search by conflicts rests on, whatever it searches: the trail, unit propagation, conflict analysis and the order of
//! decisions. It is proved to be safe and to end, and nothing else.
#![tactic(auto)]

mod analysis;
mod bits;
mod incompats;
mod look_ups;
mod order;
mod origins;
mod stop;
mod trail;
mod watches;

pub use analysis::{Analysis, level_of};
pub use bits::{Bits, MOST_CHOICES, choice_of};
pub use incompats::{Incompats, Term};
pub use look_ups::{at, at_mut, count_of, index_of, rows_from};
pub use order::Order;
pub use origins::{Origin, Step, learnt_from};
pub use stop::Stop;
pub use trail::{Entry, Trail, Variable};
