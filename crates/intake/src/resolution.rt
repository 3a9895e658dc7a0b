//! What a resolve line in its usual form says behind its `op`.
ghost use Rattle.std.specs.Prelude.{◌≡◌, IfSome};
ghost use Rattle.intake.specs.Needs.{needs_tokens};
ghost use Rattle.intake.specs.UsualLines.{IsWanted};

use crate::read_texts::ReadTexts;
use crate::tokens::take_last_needs;
use json::Reader;
use registry::Request;
use std::alloc::Global;

/// The request of the member `needs` alone, where the needs are few, name no package twice, and each text is what it is to
/// be.
pub fn take_resolution(
    alloc: Global,
    known: &mut ReadTexts,
    reader: &mut Reader<'_>,
) -> Option<Request>
    ensures told { IfSome result (λ request. reader.old ≡ needs_tokens request.needs) }
    ensures wanted { IfSome result (λ request. IsWanted request) }
{
    let needs = take_last_needs(alloc, known, reader)?;
    Request::new(alloc, needs, Vec::new(alloc)).ok()
}
