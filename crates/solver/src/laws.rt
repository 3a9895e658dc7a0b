//! Laws: what holds of every outcome.

ghost use Rattle.solver.specs.Laws.{OutcomeIsAnswer};

use derivations::derivations_refute;

/// A lawful outcome is the answer of its request. It does nothing when it runs.
pub fn an_outcome_is_the_answer()
    ensures { OutcomeIsAnswer }
{
    derivations_refute();
}
