//! The causes of a line, as they stand in it.
ghost use Rattle.std.specs.Prelude.{◌≡◌, option_and_then, option_map};
ghost use Rattle.serde_json.specs.Find.{as_array};
ghost use Rattle.serde_json.specs.View.{items_view, view};
ghost use Rattle.wire.specs.DerivedShapes.{cause_said, premise_said};
ghost use Rattle.wire.specs.Members.{member};
ghost use Rattle.wire.specs.NamedShapes.{barred_in, cause_in, causes_of, fact_by, need_in, premise_in, root_in};

use super::members::{member_count, text_at, whole_at, whole_of};
use super::ordinals::{OrdinalItems, ordinals_at};
use super::term_shapes::{NameText, name_at, whose_at};
use serde_json::Value;

/// A premise, whose requirement is not yet judged.
#[derive(Drop)]
pub struct PremiseShape<'v> {
    pub package: NameText<'v>,
    pub versions: OrdinalItems<'v>,
    pub target: Option<NameText<'v>>,
    pub need: &'v str,
    pub within: OrdinalItems<'v>,
}

/// A cause as it stands in a request line, once its members have the right types.
#[derive(Drop)]
pub enum CauseShape<'v> {
    Line(u32),
    Premise(PremiseShape<'v>),
    Need(u32),
    NotAllowed(NameText<'v>, OrdinalItems<'v>),
    Root,
}

/// The two causes of a member.
pub fn causes_at<'v>(value: &'v Value, name: &str) -> Option<(CauseShape<'v>, CauseShape<'v>)>
    ensures { option_map (λ c. (cause_said c.0, cause_said c.1)) result ≡ option_and_then causes_of (member as_array name.now (view value.now)) }
{
    let items = value.get(name)?.as_array()?.as_slice();
    causes_of(items)
}

fn causes_of(items: &[Value]) -> Option<(CauseShape<'_>, CauseShape<'_>)>
    ensures { option_map (λ c. (cause_said c.0, cause_said c.1)) result ≡ causes_of (items_view items.now) }
{
    if items.len() != 2 {
        return None;
    }
    cause_in(&items[0]).zip(cause_in(&items[1]))
}

fn cause_in(value: &Value) -> Option<CauseShape<'_>>
    ensures { option_map cause_said result ≡ cause_in (view value.now) }
{
    match value.get("line") {
        None => fact_by(text_at(value, "fact")?, value),
        Some(line) => {
            if member_count(value) != 1 {
                return None;
            }
            Some(CauseShape::Line(whole_of(line)?))
        }
    }
}

fn fact_by<'v>(fact: &str, value: &'v Value) -> Option<CauseShape<'v>>
    ensures { option_map cause_said result ≡ fact_by fact.now (view value.now) }
{
    match fact {
        "premise" => Some(CauseShape::Premise(premise_in(value)?)),
        "disallowed" => barred_in(value),
        "need" => need_in(value),
        "root" => root_in(value),
        _ => None,
    }
}

fn premise_in(value: &Value) -> Option<PremiseShape<'_>>
    ensures { option_map premise_said result ≡ premise_in (view value.now) }
{
    if member_count(value) != 6 {
        return None;
    }
    let package = name_at(value, "name")?;
    let need = text_at(value, "need")?;
    let target = whose_at(value, "target")?;
    let versions = ordinals_at(value, "versions")?;
    let within = ordinals_at(value, "within")?;
    Some(PremiseShape {
        package,
        versions,
        target,
        need,
        within,
    })
}

fn barred_in(value: &Value) -> Option<CauseShape<'_>>
    ensures { option_map cause_said result ≡ barred_in (view value.now) }
{
    if member_count(value) != 3 {
        return None;
    }
    let name = name_at(value, "name")?;
    let versions = ordinals_at(value, "versions")?;
    Some(CauseShape::NotAllowed(name, versions))
}

fn need_in(value: &Value) -> Option<CauseShape<'_>>
    ensures { option_map cause_said result ≡ need_in (view value.now) }
{
    if member_count(value) != 2 {
        return None;
    }
    Some(CauseShape::Need(whole_at(value, "index")?))
}

fn root_in<'v>(value: &'v Value) -> Option<CauseShape<'v>>
    ensures { option_map cause_said result ≡ root_in (view value.now) }
{
    if member_count(value) == 1 {
        Some(CauseShape::Root)
    } else {
        None
    }
}
