//! The limits of a registry and of requests, in numbers.
ghost use Rattle.std.specs.Prelude.{◌≡◌};
ghost use Rattle.registry.specs.declared.registry.TheConstants.{NEED_LIMIT, PACKAGE_LIMIT, VERSION_LIMIT};
ghost use Rattle.registry.specs.declared.requests.TheConstants.{LOCK_LIMIT};

/// The numbers of the limits, which definitions cite by their names. It does nothing when it runs.
pub fn limits_in_numbers()
    ensures packages { PACKAGE_LIMIT ≡ 65535 }
    ensures versions { VERSION_LIMIT ≡ 4096 }
    ensures needs { NEED_LIMIT ≡ 64 }
    ensures lock { LOCK_LIMIT ≡ 65535 }
{}
