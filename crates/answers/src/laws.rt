//! What one may build on lawful replies.

ghost use Rattle.answers.specs.Laws.{OneSelectionIsTold, RepliesAddUp};

use crate::backend::Backend;
use walk::one_answer;

/// Replies that are lawful one after another are lawful together, and what answers a request is so for a line that asks
/// it. It does nothing when it runs.
pub fn lawful_replies_add_up<L: Backend>()
    ensures { RepliesAddUp L.ways }
{}

/// One selection is told of the same packages and the same request: by any backend, whatever it learnt before. It does
/// nothing when it runs.
pub fn one_selection_is_told()
    ensures { OneSelectionIsTold }
{
    one_answer();
}
