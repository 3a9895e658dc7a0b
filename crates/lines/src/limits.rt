//! The limit of a line, in numbers.
ghost use Rattle.std.specs.Prelude.{◌≡◌};
ghost use Rattle.lines.specs.declared.buffer.TheConstants.{LINE_LIMIT};

/// The number of the limit, which definitions cite by its name. It does nothing when it runs.
pub fn limits_in_numbers()
    ensures { LINE_LIMIT ≡ 1048576 }
{}
