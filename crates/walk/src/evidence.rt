//! What shows that versions are not to be had.

ghost use Rattle.std.specs.Prelude.{◌≡◌, ℕ, true, List};

use crate::choice_map::ChoiceMap;
use registry::Pkg;

/// Shows of some versions that they are not to be had behind others.
pub trait Evidence {
    /// What is shown of a version of a package, behind packages with their versions.
    ghost shows: { Self → List (ℕ × ℕ) → ℕ → ℕ → Type 0 };

    /// Whether a version of a package is ruled out behind these packages with their versions. Where it answers no,
    /// nothing follows.
    fn rules_out(&self, before: &ChoiceMap, pkg: Pkg, ordinal: u32) -> bool
        ensures { result ≡ true → shows self.now before.now.entries pkg ordinal };
}

/// Shows nothing of any version.
#[derive(Clone, Copy)]
pub(crate) struct NoEvidence;

impl Evidence for NoEvidence {
    ghost shows = { λ evidence before p j. ⊥ };

    fn rules_out(&self, _before: &ChoiceMap, _pkg: Pkg, _ordinal: u32) -> bool {
        false
    }
}
