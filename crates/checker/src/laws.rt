//! Laws: why what is shown can be trusted.

ghost use Rattle.checker.specs.Laws.{KeptLinesAreShown, ShownHolds, ShownRefutes};

use derivations::{kept_lines_hold, kept_lines_refute};

/// Where an incompatibility without terms is shown, there is a derivation, also where none is made, and so no
/// selection meets the request. It does nothing when it runs.
pub fn shown_refutes()
    ensures { ShownRefutes }
{
    kept_lines_refute();
}

/// No selection that meets the request makes all terms true of an incompatibility that is shown. It does
/// nothing when it runs.
pub fn shown_holds()
    ensures { ShownHolds }
{
    kept_lines_hold();
}

/// What each line of a search says is shown. It does nothing when it runs.
pub fn kept_lines_are_shown()
    ensures { KeptLinesAreShown }
{}
