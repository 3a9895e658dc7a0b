//! Who is asked for the answer of a hard request. What it says is checked, so no proof rests on it.

use crate::trace::Trace;
use indexmap::IndexMap;
use propagation::Stop;
use terms::Pkg;

/// What an oracle claims.
#[derive(Drop)]
pub enum Claim {
    /// Packages with the ordinals of their versions, which may make a selection, and the trace of what conflicts
    /// led to first.
    Selected(IndexMap<Pkg, u32>, Trace),
    /// That no selection meets the request, as the trace is to show.
    Refused(Trace),
}

/// Who is asked for the answer of a hard request. What it says is checked: where it is wrong, or says nothing,
/// the search that is proved answers. So whatever it says, answers are right, and come later at most.
pub trait Oracle {
    /// A selection, or the trace of what shows that there is none.
    fn search(&mut self) -> Result<Claim, Stop>;

    /// Once a selection was found, the trace of what shows that none is newer than the newest.
    fn search_newest(&mut self) -> Result<Trace, Stop>;

    /// How many conflicts were met.
    fn conflicts(&self) -> u32;
}
