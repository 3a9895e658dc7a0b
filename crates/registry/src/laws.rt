//! Laws: what holds of each registry, whatever commands made it.

ghost use Rattle.registry.specs.Laws.{AllowedIsPublished, HighestIsOne, MatchingIsWhatMeets, NamesHaveTheirNumbers, NeedsAreNumbered, NumbersLast, OnePreferredSelection, PublicationsAreLawful, PublishedBelow, PublishedIsNumbered, RegistriesStayLawful, UnpublishedFrom};
ghost use Rattle.registry.specs.Lawful.{IsRegistry};
ghost use Rattle.std.specs.Prelude.{[]};

use versions::{equal_precedence_is_an_equivalence, precedence_is_a_total_preorder};

/// The ordinals of a package's versions are those below their count, and one that has versions has a
/// number. It does nothing when it runs.
pub fn ordinals_are_below_the_count()
    ensures published { PublishedBelow }
    ensures no_other { UnpublishedFrom }
    ensures numbered { PublishedIsNumbered }
{}

/// The matching set of a requirement has what meets it. It does nothing when it runs.
pub fn matching_is_what_meets()
    ensures { MatchingIsWhatMeets }
{}

/// The number of a package is the one of its name. It does nothing when it runs.
pub fn names_have_their_numbers()
    ensures { NamesHaveTheirNumbers }
{}

/// What is published meets the rules of a publication, and each name that it depends on has a number.
/// It does nothing when it runs.
pub fn publications_are_lawful()
    ensures lawful { PublicationsAreLawful }
    ensures numbered { NeedsAreNumbered }
{}

/// A package has one highest version that passes a test, at most. It does nothing when it runs.
pub fn the_highest_is_one()
    ensures { HighestIsOne }
{
    precedence_is_a_total_preorder();
    equal_precedence_is_an_equivalence();
}

/// A name keeps its number where names are added. It does nothing when it runs.
pub fn numbers_last()
    ensures { NumbersLast }
{}

/// What holds of every registry holds of the empty one, and is kept by each accepted command. It does nothing when it
/// runs.
pub fn registries_stay_lawful()
    ensures empty { IsRegistry [] }
    ensures kept { RegistriesStayLawful }
{
    equal_precedence_is_an_equivalence();
}

/// There is one preferred selection at most. It does nothing when it runs.
pub fn one_preferred_selection()
    ensures { OnePreferredSelection }
{}

/// What is allowed to a request is published. It does nothing when it runs.
pub fn allowed_is_published()
    ensures { AllowedIsPublished }
{}
