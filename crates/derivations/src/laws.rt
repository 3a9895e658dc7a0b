//! Laws: why derivations and what is learnt can be trusted.

ghost use Rattle.derivations.specs.Laws.{DerivationsRefute, DerivedLinesStand, EmptyIsNoFact, KeptLinesHold, KeptLinesRefute, LearntHolds, PremisesHold, ResolventsHold};

use registry::matching_is_what_meets;

/// What a premise that stands says holds of the registry. It does nothing when it runs.
pub fn premises_hold()
    ensures { PremisesHold }
{}

/// What follows from two incompatibilities that hold of a registry holds. It does nothing when it
/// runs.
pub fn resolvents_hold()
    ensures { ResolventsHold }
{}

/// What is learnt holds where its premises stand. It does nothing when it runs.
pub fn learnt_holds()
    ensures { LearntHolds }
{}

/// Where there is a derivation, no selection meets the request. It does nothing when it runs.
pub fn derivations_refute()
    ensures { DerivationsRefute }
{
    matching_is_what_meets();
}

/// In the lines of a search one without terms is no fact, so that what it rests on can be
/// extracted. It does nothing when it runs.
pub fn empty_is_no_fact()
    ensures { EmptyIsNoFact }
{}

/// Where the lines of a search have one without terms, there is a derivation, also where none is cut
/// from them, and so no selection meets the request. It does nothing when it runs.
pub fn kept_lines_refute()
    ensures { KeptLinesRefute }
{
    matching_is_what_meets();
}

/// No selection that meets the request makes all terms of a line of a search true. It does nothing when
/// it runs.
pub fn kept_lines_hold()
    ensures { KeptLinesHold }
{
    matching_is_what_meets();
}

/// Each premise of lines that are derived from facts stands. It does nothing when it runs.
pub fn derived_lines_stand()
    ensures { DerivedLinesStand }
{}
