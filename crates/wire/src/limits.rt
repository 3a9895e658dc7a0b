//! The limit of a lock list, in numbers.
ghost use Rattle.std.specs.Prelude.{◌≡◌};
ghost use Rattle.wire.specs.declared.request.lock.TheConstants.{LOCK_BYTES};

/// The number of the limit, which definitions cite by its name. It does nothing when it runs.
pub fn limits_in_numbers()
    ensures { LOCK_BYTES ≡ 1048576 }
{}
