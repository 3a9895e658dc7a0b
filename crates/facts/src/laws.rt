//! Laws: how lines grow.

ghost use Rattle.facts.specs.Laws.{LinesGrow};

/// Where a fact, or a line that follows from two before it, is put behind lines, each of them is still a fact or follows
/// from lines before it. It does nothing when it runs.
pub fn lines_grow()
    ensures { LinesGrow }
{}
