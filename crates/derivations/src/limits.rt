//! The limit of what is learnt, in a number.
ghost use Rattle.std.specs.Prelude.{◌≡◌};
ghost use Rattle.derivations.specs.declared.learnt.TheConstants.{DERIVATION_LINE_LIMIT};

/// The number of the limit, which definitions cite by its name. It does nothing when it runs.
pub fn limits_in_numbers()
    ensures { DERIVATION_LINE_LIMIT ≡ 256 }
{}
