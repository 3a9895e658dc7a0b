//! What is told by membership alone: sets, terms and incompatibilities that say the same are equal.

ghost use Rattle.terms.specs.Incompats.{SameIncompat, SameResolvent};
ghost use Rattle.terms.specs.Sets.{SameSet};
ghost use Rattle.terms.specs.Terms.{SameTerm};

/// Sets with the same ordinals are equal. It does nothing when it runs.
pub fn same_set()
    ensures { SameSet }
{}

/// Terms that are true of the same choices are equal. It does nothing when it runs.
pub fn same_term()
    ensures { SameTerm }
{}

/// Incompatibilities that say the same of all choices are equal. It does nothing when it runs.
pub fn same_incompat()
    ensures { SameIncompat }
{}

/// What follows from two incompatibilities on a pivot is one incompatibility. It does nothing when
/// it runs.
pub fn same_resolvent()
    ensures { SameResolvent }
{}
