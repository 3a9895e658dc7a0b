//! The limit of what a search offers, in a number.
ghost use Rattle.std.specs.Prelude.{◌≡◌};
ghost use Rattle.checker.specs.declared.offering.TheConstants.{OFFERED_LIMIT};

/// The number of the limit, which definitions cite by its name. It does nothing when it runs.
pub fn limits_in_numbers()
    ensures { OFFERED_LIMIT ≡ 1024 }
{}
