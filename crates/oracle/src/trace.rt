//! The trace of a refusal, or of a selection: what follows from what, so that it can be derived again by another.
//
// It holds no terms: who reads it derives each conclusion anew, so there is nothing in it to believe. That is
// the form of proofs of unsatisfiability with hints: Cruz-Filipe et al., "Efficient certified RAT
// verification" (LRAT), 2017.

use terms::Pkg;

/// Something that is known of all selections that meet the request.
#[derive(Clone, Copy)]
pub enum Record {
    /// By the need with this index.
    Need(usize),
    /// By the dependency at this index of a version, and of all that share it.
    Dependency {
        pkg: Pkg,
        ordinal: u32,
        index: usize,
    },
    /// Since versions of this package are not allowed.
    NotAllowed(Pkg),
    /// By the member in this place of the store.
    Member(u32),
    /// From an earlier record, by some of the steps, in order.
    Follows {
        from: u32,
        first: u32,
        end: u32,
    },
}

/// A step: resolve with a record, on a package.
#[derive(Clone, Copy)]
pub struct Step {
    pub with: u32,
    pub on: Pkg,
}

/// Records in order, each by earlier ones. By the last one of a refusal no selection meets the request.
#[derive(Drop)]
pub struct Trace {
    pub records: Vec<Record>,
    pub steps: Vec<Step>,
    /// Of the newest selection, packages with the ordinals of their versions.
    pub selected: Vec<(Pkg, u32)>,
    /// Of the newest selection, packages in rising order, each with the index of a record that rules better versions
    /// of it out: its other terms are true of the versions of packages that come earlier in the walk.
    pub ruling: Vec<(Pkg, u32)>,
}
