//! The limits of texts, in numbers.
ghost use Rattle.std.specs.Prelude.{◌≡◌};
ghost use Rattle.versions.specs.declared.name.TheConstants.{NAME_LIMIT};
ghost use Rattle.versions.specs.declared.need.TheConstants.{REQUIREMENT_LIMIT};
ghost use Rattle.versions.specs.declared.published.TheConstants.{VERSION_TEXT_LIMIT};

/// The numbers of the limits, which definitions cite by their names. It does nothing when it runs.
pub fn limits_in_numbers()
    ensures names { NAME_LIMIT ≡ 64 }
    ensures versions { VERSION_TEXT_LIMIT ≡ 256 }
    ensures requirements { REQUIREMENT_LIMIT ≡ 256 }
{}
