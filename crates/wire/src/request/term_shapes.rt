//! The terms of a conclusion, as they stand in a line.
ghost use Rattle.std.specs.Prelude.{◌≡◌, ◌<◌, Some, [], is_some, length, option_and_then, option_map, slice_get, true, unwrap_or, IfErr, IfOk};
ghost use Rattle.serde_json.specs.Find.{as_array, as_str};
ghost use Rattle.serde_json.specs.View.{items_view, view};
ghost use Rattle.wire.specs.DerivedShapes.{term_said};
ghost use Rattle.wire.specs.Members.{each_of, member};
ghost use Rattle.wire.specs.NamedShapes.{name_in, term_in, term_of_items, whose_in};

use super::members::text_at;
use super::ordinals::OrdinalItems;
use serde_json::Value;
use std::alloc::Global;
use std::marker::Model;
use versions::{Name, Refusal, is_name_text};

/// A text that is a package name.
#[derive(Drop)]
pub struct NameText<'v> {
    text: &'v str,
}

impl<'v> Model for NameText<'v> {
    ghost use Rattle.std.specs.Prelude.{◌≡◌, true};
    ghost use Rattle.versions.specs.Words.{Text, is_name};

    ghost Value = { Text };

    ghost view = { λ n. n.text.now };

    ghost invariant = { λ n. is_name n.text.now ≡ true };
}

impl<'v> NameText<'v> {
    /// A name of its own, for a value that outlives the line. The only error is [`Refusal::NoMemory`].
    pub fn read(&self, alloc: Global) -> Result<Name, Refusal>
        ensures same { IfOk result (λ name. name ≡ self.now) }
        ensures only { IfErr result (λ e. e ≡ Refusal.NoMemory) }
    {
        Ok(Name::read(alloc, self.text)?)
    }
}

/// The text, if it is a package name.
pub fn name_in(text: &str) -> Option<NameText<'_>>
    ensures { result ≡ name_in text.now }
{
    if is_name_text(text) {
        Some(NameText { text })
    } else {
        None
    }
}

/// The package name that a text is, none where it is empty, which stands for the request.
pub fn whose_in(text: &str) -> Option<Option<NameText<'_>>>
    ensures { result ≡ whose_in text.now }
{
    if text.is_empty() {
        return Some(None);
    }
    Some(Some(name_in(text)?))
}

/// The package name of a member.
pub fn name_at<'v>(value: &'v Value, name: &str) -> Option<NameText<'v>>
    ensures { result ≡ option_and_then name_in (member as_str name.now (view value.now)) }
{
    name_in(text_at(value, name)?)
}

/// The package name of a member, which may be empty.
pub fn whose_at<'v>(value: &'v Value, name: &str) -> Option<Option<NameText<'v>>>
    ensures { result ≡ option_and_then whose_in (member as_str name.now (view value.now)) }
{
    whose_in(text_at(value, name)?)
}

/// A term: a package or the request, whether its choice is in a set, and the set.
#[derive(Drop)]
pub struct TermShape<'v> {
    pub name: Option<NameText<'v>>,
    pub positive: bool,
    pub set: OrdinalItems<'v>,
}

/// Terms, as they stand in a line.
#[derive(Drop)]
pub struct TermItems<'v> {
    items: &'v [Value],
}

impl<'v> Model for TermItems<'v> {
    ghost use Rattle.std.specs.Prelude.{◌≡◌, List, Option, [], is_some, true, unwrap_or};
    ghost use Rattle.serde_json.specs.View.{items_view};
    ghost use Rattle.versions.specs.Words.{Text};
    ghost use Rattle.terms.specs.declared.term.Term.{Term};
    ghost use Rattle.wire.specs.Members.{each_of};
    ghost use Rattle.wire.specs.NamedShapes.{term_in};

    ghost Value = { List (Option Text × Term) };

    ghost view = { λ t. unwrap_or (each_of term_in (items_view t.items.now)) [] };

    ghost invariant = { λ t. is_some (each_of term_in (items_view t.items.now)) ≡ true };
}

impl<'v> TermItems<'v> {
    /// How many terms there are.
    pub fn len(&self) -> usize
        ensures { result ≡ length self.now }
    {
        self.items.len()
    }

    /// The term at this place, counted from 0.
    pub fn at(&self, place: usize) -> TermShape<'v>
        requires { place < length self.now }
        ensures { slice_get self.now place ≡ Some (term_said result) }
    {
        term_at(self.items, place)
    }
}

/// The terms of a member.
pub fn terms_at<'v>(value: &'v Value, name: &str) -> Option<TermItems<'v>>
    ensures { result ≡ option_and_then (each_of term_in) (member as_array name.now (view value.now)) }
{
    let items = value.get(name)?.as_array()?.as_slice();
    if are_terms(items) {
        Some(TermItems { items })
    } else {
        None
    }
}

/// The term at this place of values that are terms.
fn term_at(items: &[Value], place: usize) -> TermShape<'_>
    requires within { place < length items.now }
    requires terms { is_some (each_of term_in (items_view items.now)) ≡ true }
    ensures { slice_get (unwrap_or (each_of term_in (items_view items.now)) []) place ≡ Some (term_said result) }
{
    term_in(&items[place]).unwrap()
}

/// Whether these values are terms.
fn are_terms(items: &[Value]) -> bool
    ensures { result ≡ is_some (each_of term_in (items_view items.now)) }
{
    for item in items {
        if term_in(item).is_none() {
            return false;
        }
    }
    true
}

fn term_in(value: &Value) -> Option<TermShape<'_>>
    ensures { option_map term_said result ≡ term_in (view value.now) }
{
    let items = value.as_array()?.as_slice();
    term_of_items(items)
}

fn term_of_items(items: &[Value]) -> Option<TermShape<'_>>
    ensures { option_map term_said result ≡ term_of_items (items_view items.now) }
{
    if items.len() != 3 {
        return None;
    }
    let name = whose_in(items[0].as_str()?)?;
    let positive = items[1].as_bool()?;
    let set = OrdinalItems::of(&items[2])?;
    Some(TermShape {
        name,
        positive,
        set,
    })
}
