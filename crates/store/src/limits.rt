//! The limit of a store, in a number.
ghost use Rattle.std.specs.Prelude.{◌≡◌};
ghost use Rattle.store.specs.declared.store.TheConstants.{STORE_LIMIT};

/// The number of the limit, which definitions cite by its name. It does nothing when it runs.
pub fn limits_in_numbers()
    ensures { STORE_LIMIT ≡ 4096 }
{}
