//! Derivations: why no selection meets a request.
//!
//! The words are those of Dart pub's doc/solver.md. A derivation is a list of lines, each of which
//! follows from facts of a registry and a request or from earlier lines; [`check`] judges one. The lines
//! of a search are [`CausedIncompatibility`], each with its reason. What follows from premises alone may be learnt
//! ([`Learnt`]), and serves every request.
#![tactic(auto)]

mod causes;
mod cited;
mod derivation;
mod facts;
mod following;
mod known;
mod laws;
mod learnt;
mod limits;
mod line;
mod standing;

pub use causes::{ROOT, need_incompat};
pub use derivation::{Derivation, check};
pub use facts::{Cause, Premise};
pub use following::has_pivot;
pub use known::{CausedIncompatibility, Reason};
pub use laws::{
    derivations_refute, derived_lines_stand, empty_is_no_fact, kept_lines_hold, kept_lines_refute,
    learnt_holds, premises_hold, resolvents_hold,
};
pub use learnt::{DERIVATION_LINE_LIMIT, Learnt};
pub use limits::limits_in_numbers;
pub use line::{Line, is_root_alone};
