//! Why what is told by names can be trusted.
ghost use Rattle.by_name.specs.NameLaws.{DerivedPackagesHaveNames, LearntPackagesHaveNames, OneNumbering};
ghost use Rattle.by_name.specs.Naming.{NamedAgain};

/// Every package of a derivation has a name, so that it can be told by names.
pub fn derived_packages_have_names()
    ensures { DerivedPackagesHaveNames }
{}

/// So has every package of what was learnt, where its premises stand.
pub fn learnt_packages_have_names()
    ensures { LearntPackagesHaveNames }
{}

/// A derivation in names stands for one derivation at most, so that naming one and numbering it again gives the same.
pub fn names_stand_for_one()
    ensures { OneNumbering }
{}

/// What was numbered is named as it was.
pub fn named_again()
    ensures { NamedAgain }
{}
