//! Sets of ordinals, as arrays of whole numbers that ascend.
ghost use Rattle.std.specs.Prelude.{◌≡◌, [], is_some, option_and_then, true, unwrap_or, IfOk};
ghost use Rattle.serde_json.specs.View.{items_view, view};
ghost use Rattle.wire.specs.Members.{member, whole_of};
ghost use Rattle.wire.specs.NamedShapes.{at_least, ordinals_from, ordinals_in};

use super::members::whole_of;
use serde_json::Value;
use std::alloc::{AllocError, Global};
use std::marker::Model;
use terms::VSet;

/// Ordinals, each above the one before, as they stand in a line.
#[derive(Drop)]
pub struct OrdinalItems<'v> {
    items: &'v [Value],
}

impl<'v> Model for OrdinalItems<'v> {
    ghost use Rattle.std.specs.Prelude.{◌≡◌, ℕ, List, [], is_some, true, unwrap_or};
    ghost use Rattle.serde_json.specs.View.{items_view};
    ghost use Rattle.wire.specs.NamedShapes.{ordinals_from};

    ghost Value = { List ℕ };

    ghost view = { λ o. unwrap_or (ordinals_from 0 (items_view o.items.now)) [] };

    ghost invariant = { λ o. is_some (ordinals_from 0 (items_view o.items.now)) ≡ true };
}

impl<'v> OrdinalItems<'v> {
    /// The ordinals that this value is, if it is an array of whole numbers that ascend.
    pub fn of(value: &'v Value) -> Option<OrdinalItems<'v>>
        ensures { result ≡ ordinals_in (view value.now) }
    {
        let items = value.as_array()?.as_slice();
        if are_ordinals(items) {
            Some(OrdinalItems { items })
        } else {
            None
        }
    }

    /// The set of them.
    pub fn set(&self, alloc: Global) -> Result<VSet, AllocError>
        ensures { IfOk result (λ set. set ≡ self.now) }
    {
        set_of(alloc, self.items)
    }
}

/// The ordinals of a member.
pub fn ordinals_at<'v>(value: &'v Value, name: &str) -> Option<OrdinalItems<'v>>
    ensures { result ≡ member ordinals_in name.now (view value.now) }
{
    OrdinalItems::of(value.get(name)?)
}

/// The whole number that a value is, if it is at least this.
fn at_least(low: u64, value: &Value) -> Option<u32>
    ensures { result ≡ option_and_then (at_least low) (whole_of (view value.now)) }
{
    let ordinal = whole_of(value)?;
    if low <= ordinal as u64 {
        Some(ordinal)
    } else {
        None
    }
}

/// Whether these values are whole numbers, each above the one before.
fn are_ordinals(items: &[Value]) -> bool
    ensures { result ≡ is_some (ordinals_from 0 (items_view items.now)) }
{
    let mut low = 0;
    for item in items {
        match at_least(low, item) {
            Some(ordinal) => low = ordinal as u64 + 1,
            None => return false,
        }
    }
    true
}

/// The ordinals that values are which ascend.
fn listed(alloc: Global, items: &[Value]) -> Result<Vec<u32>, AllocError>
    requires { is_some (ordinals_from 0 (items_view items.now)) ≡ true }
    ensures { IfOk result (λ list. list.items ≡ unwrap_or (ordinals_from 0 (items_view items.now)) []) }
{
    let mut ordinals = Vec::with_capacity(alloc, items.len())?;
    for item in items {
        ordinals.push(whole_of(item).unwrap())?;
    }
    Ok(ordinals)
}

/// The set of values that are ordinals which ascend.
fn set_of(alloc: Global, items: &[Value]) -> Result<VSet, AllocError>
    requires { is_some (ordinals_from 0 (items_view items.now)) ≡ true }
    ensures { IfOk result (λ set. set ≡ unwrap_or (ordinals_from 0 (items_view items.now)) []) }
{
    let ordinals = listed(alloc, items)?;
    let set = VSet::of(alloc, &ordinals)?;
    Ok(set)
}
