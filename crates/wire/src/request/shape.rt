//! The shapes of request lines.
ghost use Rattle.std.specs.Prelude.{◌≡◌, [], None, codes, false, option_map};
ghost use Rattle.serde_json.specs.Find.{as_bool};
ghost use Rattle.serde_json.specs.View.{view};
ghost use Rattle.wire.specs.Members.{member, member_or};
ghost use Rattle.wire.specs.Shapes.{budget_of, checking_in, marking_in, pairs_in, publication_in, resolution_in, shape_of};
ghost use Rattle.wire.specs.Asked.{texts_of};
ghost use Rattle.registry.specs.Step.{Yank, Unyank};

use super::line_shapes::{Lines, derivation_at};
use super::members::{has_member, member_count, text_at, whole_of};
use super::pairs::Pairs;
use serde_json::Value;

/// What a line asks, in texts that are not yet judged.
#[derive(Drop)]
pub enum Shape<'v> {
    Publish(&'v str, &'v str, Pairs<'v>),
    Yank(&'v str, &'v str),
    Unyank(&'v str, &'v str),
    /// The needs, the lock, whether to explain, and the budget.
    Resolve(Pairs<'v>, Pairs<'v>, bool, Option<u32>),
    /// The needs, the lock and the derivation.
    Check(Pairs<'v>, Pairs<'v>, Lines<'v>),
    Listing,
}

/// The shape of a line, if it is of one.
pub fn shape_of(value: &Value) -> Option<Shape<'_>>
    ensures { option_map texts_of result ≡ shape_of (view value.now) }
{
    match text_at(value, "op")? {
        "publish" => publication_in(value),
        "yank" => {
            let (name, version) = marking_in(value)?;
            Some(Shape::Yank(name, version))
        }
        "unyank" => {
            let (name, version) = marking_in(value)?;
            Some(Shape::Unyank(name, version))
        }
        "resolve" => resolution_in(value),
        "check" => checking_in(value),
        "list" if member_count(value) == 1 => Some(Shape::Listing),
        _ => None,
    }
}

fn publication_in(value: &Value) -> Option<Shape<'_>>
    ensures { option_map texts_of result ≡ publication_in (view value.now) }
{
    if member_count(value) != 4 {
        return None;
    }
    let name = text_at(value, "name")?;
    let version = text_at(value, "version")?;
    let needs = pairs_at(value, "needs")?;
    Some(Shape::Publish(name, version, needs))
}

/// The name and the version of a yank or an unyank.
fn marking_in(value: &Value) -> Option<(&str, &str)>
    ensures { option_map (λ p. (p.0.now, p.1.now)) result ≡ marking_in (view value.now) }
{
    if member_count(value) != 3 {
        return None;
    }
    Some((text_at(value, "name")?, text_at(value, "version")?))
}

fn resolution_in(value: &Value) -> Option<Shape<'_>>
    ensures { option_map texts_of result ≡ resolution_in (view value.now) }
{
    let optional = has_member(value, "lock")
        + has_member(value, "budget")
        + has_member(value, "explain");
    if member_count(value) != 2 + optional {
        return None;
    }
    let lock = lock_in(value)?;
    let needs = pairs_at(value, "needs")?;
    let explain = explain_in(value)?;
    let budget = budget_in(value)?;
    Some(Shape::Resolve(needs, lock, explain, budget))
}

fn checking_in(value: &Value) -> Option<Shape<'_>>
    ensures { option_map texts_of result ≡ checking_in (view value.now) }
{
    if member_count(value) != 3 + has_member(value, "lock") {
        return None;
    }
    let lock = lock_in(value)?;
    let needs = pairs_at(value, "needs")?;
    let lines = derivation_at(value, "derivation")?;
    Some(Shape::Check(needs, lock, lines))
}

/// Whether a resolve line asks to explain a refusal, which may be left out.
fn explain_in(value: &Value) -> Option<bool>
    ensures { result ≡ member_or as_bool false (codes "explain") (view value.now) }
{
    match value.get("explain") {
        Some(explain) => explain.as_bool(),
        None => Some(false),
    }
}

/// The lock of a resolve or a check line, which may be left out.
fn lock_in(value: &Value) -> Option<Pairs<'_>>
    ensures { result ≡ member_or pairs_in [] (codes "lock") (view value.now) }
{
    match value.get("lock") {
        Some(lock) => Pairs::of(lock),
        None => Some(Pairs::none()),
    }
}

/// The budget of a resolve line, which may be left out.
fn budget_in(value: &Value) -> Option<Option<u32>>
    ensures { result ≡ member_or budget_of None (codes "budget") (view value.now) }
{
    match value.get("budget") {
        Some(budget) => Some(Some(whole_of(budget)?)),
        None => Some(None),
    }
}

/// The pairs of a member.
fn pairs_at<'v>(value: &'v Value, name: &str) -> Option<Pairs<'v>>
    ensures { result ≡ member pairs_in name.now (view value.now) }
{
    Pairs::of(value.get(name)?)
}
