//! Where the places of what a publication needs are kept.

ghost use Rattle.std.specs.Prelude.{◌≡◌, ◌⊎◌, ◌≤◌, ◌+◌, ◌++◌, ℕ, List, [], length, slice_get, slice_range, Some, IsTrue};
ghost use Rattle.registry.specs.Publications.{EndWithin};
ghost use Rattle.registry.specs.declared.place.Place.{Place};
ghost use Rattle.registry.specs.declared.span.Span.{Span};

use crate::place::Place;

/// Where the places of a publication's needs begin and end, and how many needs it has.
#[derive(Clone, Copy)]
pub(crate) struct Span {
    pub(crate) from: u32,
    pub(crate) to: u32,
    pub(crate) needs: usize,
}

/// A part of the places.
pub(crate) fn part_of(places: &[Place], span: Span) -> &[Place]
    requires { span.to ≤ length places.now }
    ensures { result.now ≡ slice_range places.now span.from span.to }
{
    match places.get(span.from as usize..span.to as usize) {
        Some(part) => part,
        None => &[],
    }
}

/// Puts places at the end, and answers where they begin and end, beside so many needs. Where there is no room, none are
/// kept.
fn add_places(all: &mut Vec<Place>, places: &[Place], count: usize) -> Span
    ensures grown { (more : List Place) × (all.new.items ≡ all.old.items ++ more) }
    ensures within { result.to ≤ length all.new.items }
    ensures part { (slice_range all.new.items result.from result.to ≡ places.now) ⊎ (slice_range all.new.items result.from result.to ≡ []) }
    ensures counted { result.needs ≡ count }
{
    let from = all.len();
    if all.extend_from_slice(places).is_err() || all.len() > u32::MAX as usize {
        return Span {
            from: 0,
            to: 0,
            needs: count,
        };
    }
    Span {
        from: from as u32,
        to: all.len() as u32,
        needs: count,
    }
}

/// Where the places of the next one begin and end, which has so many needs: where those of the last do if it needs the
/// same, else at the end.
pub(crate) fn next_span(
    all: &mut Vec<Place>,
    spans: &[Span],
    repeats: bool,
    places: &[Place],
    count: usize,
) -> Span
    requires { EndWithin (length all.old.items) spans.now }
    ensures grown { (more : List Place) × (all.new.items ≡ all.old.items ++ more) }
    ensures within { result.to ≤ length all.new.items }
    ensures part { (slice_range all.new.items result.from result.to ≡ places.now) ⊎ (slice_range all.new.items result.from result.to ≡ [])
        ⊎ (IsTrue repeats × (j : ℕ) × (last : Span) × (j + 1 ≡ length spans.now) × (slice_get spans.now j ≡ Some last)
        × (result.from ≡ last.from) × (result.to ≡ last.to)) }
    ensures counted { result.needs ≡ count }
{
    match spans {
        [.., last] if repeats => Span {
            from: last.from,
            to: last.to,
            needs: count,
        },
        _ => add_places(all, places, count),
    }
}
