//! Laws: the newest selection, and lists in the order of the walk.

ghost use Rattle.walk.specs.Answer.{OneAnswer, SomeAnswer};
ghost use Rattle.walk.specs.Listing.{ListIsSelection, NothingComesNext, OneListInOrder};
ghost use Rattle.walk.specs.Newest.{NewestIsPreferred, OneNewestSelection, PreferredIsNewest};
ghost use Rattle.walk.specs.PlainlyNewest.{AheadIsLockedOrHigher};

use registry::{
    allowed_is_published, names_have_their_numbers, ordinals_are_below_the_count,
    the_highest_is_one,
};
use versions::{equal_precedence_is_an_equivalence, precedence_is_a_total_preorder};

/// A request has one answer at most. It does nothing when it runs.
pub fn one_answer()
    ensures { OneAnswer }
{
    the_highest_is_one();
    names_have_their_numbers();
    precedence_is_a_total_preorder();
}

/// Each request has an answer: a newest selection, or none meets it. It does nothing when it runs.
pub fn some_answer()
    ensures { SomeAnswer }
{
    ordinals_are_below_the_count();
    allowed_is_published();
    precedence_is_a_total_preorder();
}

/// There is one newest selection of a request at most. It does nothing when it runs.
pub fn there_is_one_newest_selection()
    ensures { OneNewestSelection }
{
    the_highest_is_one();
    precedence_is_a_total_preorder();
}

/// Where the preferred selection meets a request, it is the newest one. It does nothing when it runs.
pub fn the_preferred_is_the_newest()
    ensures preferred { PreferredIsNewest }
    ensures newest { NewestIsPreferred }
{
    there_is_one_newest_selection();
    names_have_their_numbers();
    ordinals_are_below_the_count();
    equal_precedence_is_an_equivalence();
}

/// Where a version is preferred to another, the lock names it alone, or it has higher precedence and the
/// lock does not name the other alone. It does nothing when it runs.
pub fn ahead_is_locked_or_higher()
    ensures { AheadIsLockedOrHigher }
{}

/// There is one list in the order of the walk by given versions, to its end. It does nothing when it runs.
pub fn there_is_one_list_in_order()
    ensures { OneListInOrder }
{}

/// A list in the order of the walk, which has all that is chosen, selects what a selection does that meets
/// the request and follows the choices. It does nothing when it runs.
pub fn a_list_in_order_is_its_selection()
    ensures { ListIsSelection }
{}

/// Behind a list after which nothing comes next, what the needs and each version of it ask for is listed. It
/// does nothing when it runs.
pub fn what_is_asked_is_listed()
    ensures { NothingComesNext }
{}
