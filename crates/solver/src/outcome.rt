//! What a request is answered.

use derivations::{Derivation, Learnt};
use versions::{Name, Published};

/// What a request is answered, and what may be learnt of it.
#[derive(Drop)]
pub enum Outcome {
    /// Packages with their versions, in the order of the bytes of their names.
    Selection(Vec<(Name, Published)>, Vec<Learnt>),
    /// No selection meets the request, and it is not asked why.
    NoSelection(Vec<Learnt>),
    /// Why no selection meets the request.
    Refused(Derivation, Vec<Learnt>),
}
