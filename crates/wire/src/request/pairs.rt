//! Arrays of pairs of texts.
ghost use Rattle.std.specs.Prelude.{◌≡◌, ◌<◌, is_some, length, option_map, slice_get, true, unwrap_or, Some, []};
ghost use Rattle.serde_json.specs.View.{items_view, view};
ghost use Rattle.wire.specs.Members.{each_of};
ghost use Rattle.wire.specs.Shapes.{pair_of, pair_of_items, pairs_in};

use serde_json::Value;
use std::marker::Model;

/// Pairs of texts, as they stand in a line.
#[derive(Drop)]
pub struct Pairs<'v> {
    items: &'v [Value],
}

impl<'v> Model for Pairs<'v> {
    ghost use Rattle.std.specs.Prelude.{◌≡◌, List, [], is_some, true, unwrap_or};
    ghost use Rattle.serde_json.specs.View.{items_view};
    ghost use Rattle.versions.specs.Words.{Text};
    ghost use Rattle.wire.specs.Members.{each_of};
    ghost use Rattle.wire.specs.Shapes.{pair_of};

    ghost Value = { List (Text × Text) };

    ghost view = { λ p. unwrap_or (each_of pair_of (items_view p.items.now)) [] };

    ghost invariant = { λ p. is_some (each_of pair_of (items_view p.items.now)) ≡ true };
}

impl<'v> Pairs<'v> {
    /// No pairs.
    pub fn none() -> Pairs<'v>
        ensures { result ≡ [] }
    {
        Pairs { items: &[] }
    }

    /// The pairs that this value is, if it is an array of pairs of texts and of nothing else.
    pub fn of(value: &'v Value) -> Option<Pairs<'v>>
        ensures { result ≡ pairs_in (view value.now) }
    {
        let items = value.as_array()?.as_slice();
        if are_pairs(items) {
            Some(Pairs { items })
        } else {
            None
        }
    }

    /// How many pairs there are.
    pub fn len(&self) -> usize
        ensures { result ≡ length self.now }
    {
        self.items.len()
    }

    /// The pair at this place, counted from 0.
    pub fn at(&self, place: usize) -> (&'v str, &'v str)
        requires { place < length self.now }
        ensures { slice_get self.now place ≡ Some (result.0.now, result.1.now) }
    {
        pair_at(self.items, place)
    }
}

/// The pair at this place of values that are pairs.
fn pair_at(items: &[Value], place: usize) -> (&str, &str)
    requires within { place < length items.now }
    requires pairs { is_some (each_of pair_of (items_view items.now)) ≡ true }
    ensures { slice_get (unwrap_or (each_of pair_of (items_view items.now)) []) place ≡ Some (result.0.now, result.1.now) }
{
    pair_of(&items[place]).unwrap()
}

/// Whether these values are pairs of texts.
fn are_pairs(items: &[Value]) -> bool
    ensures { result ≡ is_some (each_of pair_of (items_view items.now)) }
{
    for item in items {
        if pair_of(item).is_none() {
            return false;
        }
    }
    true
}

/// The two texts of a pair.
fn pair_of(value: &Value) -> Option<(&str, &str)>
    ensures { option_map (λ p. (p.0.now, p.1.now)) result ≡ pair_of (view value.now) }
{
    let items = value.as_array()?.as_slice();
    pair_in(items)
}

fn pair_in(items: &[Value]) -> Option<(&str, &str)>
    ensures { option_map (λ p. (p.0.now, p.1.now)) result ≡ pair_of_items (items_view items.now) }
{
    if items.len() != 2 {
        return None;
    }
    Some((items[0].as_str()?, items[1].as_str()?))
}
