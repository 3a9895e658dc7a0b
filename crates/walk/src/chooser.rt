//! What a walk asks for versions.

ghost use Rattle.std.specs.Prelude.{◌≡◌, ℕ, Option};

use registry::Pkg;

/// Chooses at most one version of each package. What it chooses does not change while it is lent.
pub trait Chooser {
    /// What is chosen of each package: an ordinal or none.
    ghost chooses: { Self → ℕ → Option ℕ };

    /// The ordinal of the version of this package.
    fn choose(&self, pkg: Pkg) -> Option<u32>
        ensures { result ≡ chooses self.now pkg };
}
