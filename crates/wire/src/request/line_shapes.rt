//! The lines of a derivation, as they stand in a request line.
ghost use Rattle.std.specs.Prelude.{◌≡◌, ◌<◌, Some, [], is_some, length, option_map, slice_get, true, unwrap_or};
ghost use Rattle.serde_json.specs.View.{items_view, view};
ghost use Rattle.wire.specs.DerivedShapes.{line_said};
ghost use Rattle.wire.specs.Members.{each_of, member};
ghost use Rattle.wire.specs.NamedShapes.{derivation_in, line_in};

use super::cause_shapes::{CauseShape, causes_at};
use super::members::member_count;
use super::term_shapes::{NameText, TermItems, terms_at, whose_at};
use serde_json::Value;
use std::marker::Model;

/// A line of a derivation as it stands in a request line, once its members have the right types.
#[derive(Drop)]
pub struct LineShape<'v> {
    pub causes: (CauseShape<'v>, CauseShape<'v>),
    pub conclusion: TermItems<'v>,
    pub pivot: Option<NameText<'v>>,
}

/// The lines of a derivation, as they stand in a request line.
#[derive(Drop)]
pub struct Lines<'v> {
    items: &'v [Value],
}

impl<'v> Model for Lines<'v> {
    ghost use Rattle.std.specs.Prelude.{◌≡◌, List, [], is_some, true, unwrap_or};
    ghost use Rattle.serde_json.specs.View.{items_view};
    ghost use Rattle.wire.specs.Members.{each_of};
    ghost use Rattle.wire.specs.NamedShapes.{line_in};
    ghost use Rattle.by_name.specs.NamedLines.{NamedLine};

    ghost Value = { List NamedLine };

    ghost view = { λ l. unwrap_or (each_of line_in (items_view l.items.now)) [] };

    ghost invariant = { λ l. is_some (each_of line_in (items_view l.items.now)) ≡ true };
}

impl<'v> Lines<'v> {
    /// How many lines there are.
    pub fn len(&self) -> usize
        ensures { result ≡ length self.now }
    {
        self.items.len()
    }

    /// The line at this place, counted from 0.
    pub fn at(&self, place: usize) -> LineShape<'v>
        requires { place < length self.now }
        ensures { slice_get self.now place ≡ Some (line_said result) }
    {
        line_at(self.items, place)
    }
}

/// The derivation of a member.
pub fn derivation_at<'v>(value: &'v Value, name: &str) -> Option<Lines<'v>>
    ensures { result ≡ member derivation_in name.now (view value.now) }
{
    let items = value.get(name)?.as_array()?.as_slice();
    if are_lines(items) {
        Some(Lines { items })
    } else {
        None
    }
}

/// The line at this place of values that are lines.
fn line_at(items: &[Value], place: usize) -> LineShape<'_>
    requires within { place < length items.now }
    requires lines { is_some (each_of line_in (items_view items.now)) ≡ true }
    ensures { slice_get (unwrap_or (each_of line_in (items_view items.now)) []) place ≡ Some (line_said result) }
{
    line_in(&items[place]).unwrap()
}

/// Whether these values are lines.
fn are_lines(items: &[Value]) -> bool
    ensures { result ≡ is_some (each_of line_in (items_view items.now)) }
{
    for item in items {
        if line_in(item).is_none() {
            return false;
        }
    }
    true
}

fn line_in(value: &Value) -> Option<LineShape<'_>>
    ensures { option_map line_said result ≡ line_in (view value.now) }
{
    if member_count(value) != 3 {
        return None;
    }
    let causes = causes_at(value, "causes")?;
    let conclusion = terms_at(value, "conclusion")?;
    let pivot = whose_at(value, "pivot")?;
    Some(LineShape {
        causes,
        conclusion,
        pivot,
    })
}
