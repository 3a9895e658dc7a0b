//! Lines that begin with a name: whether a name comes twice, and the line of a name.

ghost use Rattle.std.specs.Prelude.{◌≡◌, false, IfOk};
ghost use Rattle.std.specs.List.{range_with_len};
ghost use Rattle.std.specs.Map.{keys_of, lookup};
ghost use Rattle.std.specs.Option.{option_copied};
ghost use Rattle.std.specs.Str.{bytes_eq};
ghost use Rattle.registry.specs.ByName.{by_name, name_at, IsByName};
ghost use Rattle.registry.specs.Needs.{repeats};

use std::alloc::{AllocError, Global};
use std::cmp::Ordering;
use versions::Name;

/// The name of the line at a place; no text where there is no line.
fn name_at<V>(lines: &[(Name, V)], place: usize) -> &str
    ensures { result.now ≡ name_at (keys_of lines.now) place }
{
    match lines.get(place) {
        None => "",
        Some(line) => line.0.text(),
    }
}

/// How the names at two places compare.
fn compare_names<V>(lines: &[(Name, V)], a: usize, b: usize) -> Ordering
    ensures { result ≡ by_name (keys_of lines.now) a b }
{
    name_at(lines, a).cmp(name_at(lines, b))
}

/// The places below a number, in order.
fn places_below(alloc: Global, count: usize) -> Result<Vec<usize>, AllocError>
    ensures { IfOk result (λ places. places.items ≡ range_with_len 0 count) }
{
    (0..count).collect(alloc)
}

/// The places of the lines in the order of their names. The cost grows with n log n.
pub fn places_by_name<V>(alloc: Global, lines: &[(Name, V)]) -> Result<Vec<usize>, AllocError>
    ensures { IfOk result (λ places. IsByName (keys_of lines.now) places.items) }
{
    let mut places = places_below(alloc, lines.len())?;
    places.sort_unstable_by(|a, b| compare_names(lines, *a, *b));
    Ok(places)
}

/// Whether a name comes twice among lines with these places in the order of their names.
pub fn repeats<V>(lines: &[(Name, V)], places: &[usize]) -> bool
    requires { IsByName (keys_of lines.now) places.now }
    ensures { result ≡ repeats (keys_of lines.now) }
{
    for i in 1..places.len() {
        if name_at(lines, places[i - 1]) == name_at(lines, places[i]) {
            return true;
        }
    }
    false
}

/// What the line of a name says. The cost grows with the logarithm of the number of lines.
pub fn find<'a, V>(lines: &'a [(Name, V)], places: &[usize], name: &Name) -> Option<&'a V>
    requires sorted { IsByName (keys_of lines.now) places.now }
    requires once { repeats (keys_of lines.now) ≡ false }
    ensures { option_copied result ≡ lookup (bytes_eq name.now) lines.now }
{
    let mut low = 0;
    let mut high = places.len();
    'halve: while low < high {
        let middle = low + (high - low) / 2;
        let line = &lines[places[middle]];
        match line.0.cmp(name) {
            Ordering::Less => low = middle + 1,
            Ordering::Equal => return Some(&line.1),
            Ordering::Greater => high = middle,
        }
    }
    None
}
