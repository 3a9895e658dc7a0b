//! Laws of partial solutions.

ghost use Rattle.search.specs.Assignments.{LevelsCountDecisions, UndecidedIsSelected};
ghost use Rattle.search.specs.Satisfying.{BeginningsLeaveChoices, OneStanding, PackageByPackage};

/// Assignments satisfy an incompatibility package by package exactly where every choice of all
/// packages that makes them true makes its terms true. It does nothing when it runs.
pub fn package_by_package()
    ensures { PackageByPackage }
{}

/// The lists of assignments among which a satisfier is sought leave choices, so that the law above
/// speaks of them. It does nothing when it runs.
pub fn beginnings_leave_choices()
    ensures { BeginningsLeaveChoices }
{}

/// An undecided package is selected, whatever is chosen. It does nothing when it runs.
pub fn undecided_is_selected()
    ensures { UndecidedIsSelected }
{}

/// No incompatibility stands to assignments in two ways, so each answer comes exactly where its
/// definition holds. It does nothing when it runs.
pub fn one_standing()
    ensures { OneStanding }
{}

/// The level that an assignment carries is the number of decisions at or before it. It does nothing
/// when it runs.
pub fn levels_count_decisions()
    ensures { LevelsCountDecisions }
{}
