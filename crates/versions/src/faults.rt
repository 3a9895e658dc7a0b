//! What a fault of `semver`'s readers says of the text.
ghost use Rattle.std.specs.Prelude.{◌≡◌};
ghost use Rattle.semver.specs.Parse.{memory_error};

use crate::refusal::Refusal;
use semver::Error;
use std::alloc::AllocError;

/// The refusal for a fault of the reader, which is `bad` unless memory was short.
pub fn refusal_of(fault: Error, bad: Refusal) -> Refusal
    ensures memory { fault ≡ memory_error → result ≡ Refusal.NoMemory }
    ensures bad { (fault ≡ memory_error → ⊥) → result ≡ bad }
{
    if fault == Error::from(AllocError) {
        Refusal::NoMemory
    } else {
        bad
    }
}
