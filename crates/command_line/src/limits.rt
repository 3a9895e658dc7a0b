//! The limits of the command line, in numbers.
ghost use Rattle.std.specs.Prelude.{◌≡◌};
ghost use Rattle.command_line.specs.declared.words.TheConstants.{MOST_CONFLICTS, MOST_FILES, MOST_WORKERS};

/// The numbers of the limits, which definitions cite by their names. It does nothing when it runs.
pub fn limits_in_numbers()
    ensures workers { MOST_WORKERS ≡ 64 }
    ensures files { MOST_FILES ≡ 63 }
    ensures conflicts { MOST_CONFLICTS ≡ 4294967295 }
{}
