//! The limits of a session, in numbers.
ghost use Rattle.std.specs.Prelude.{◌≡◌};
ghost use Rattle.session.specs.declared.batch.TheConstants.{BATCH_LIMIT};
ghost use Rattle.session.specs.declared.session_state.TheConstants.{MOST_COMMANDS, MOST_LEARNT};

/// The numbers of the limits, which definitions cite by their names. It does nothing when it runs.
pub fn limits_in_numbers()
    ensures commands { MOST_COMMANDS ≡ 49152 }
    ensures learnt { MOST_LEARNT ≡ 16384 }
    ensures together { BATCH_LIMIT ≡ 256 }
{}
