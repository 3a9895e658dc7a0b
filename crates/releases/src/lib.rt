//! The releases of one package, kept so that the questions of a solver are quick to answer.
//!
//! Beside the releases in order of publication stand their ordinals in rising precedence, by which
//! a version is found and the highest of a set is told without comparing versions, and the matching
//! sets of the requirements that were named first on the package, which a publication keeps up. What a
//! release depends on is kept by the caller, by ordinal: nothing here reads it.
//!
//! # Costs
//!
//! The dear step is the test whether a version meets a requirement. For the 128 requirements that were
//! named first it is made at each publication, so that a publication costs at most 128 tests. A set that is
//! not kept, or is made when a requirement is named, lies between two places among the rising ordinals.
//! Bisection finds them, and a release between them costs a few steps and no test. Where a version of the
//! package has a pre-release, each release is tested instead. Where it is asked whether one release is in a
//! set that is not kept, that release is tested. A test is mostly a few comparisons of numbers, which are kept
//! for each requirement side by side. A named requirement takes its text's place in a table, 64 bytes for
//! these numbers, and, if it is one of the first, one word for each 64 ordinals that have one in its set.
#![tactic(auto)]

mod matching;
mod ranked;
mod release;
mod releases;
mod rising;
mod tested;

pub use matching::Matching;
pub use release::Release;
pub use releases::Releases;
pub use tested::Tested;
