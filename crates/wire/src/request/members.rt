//! Members of objects.
ghost use Rattle.std.specs.Prelude.{◌≡◌, option_map};
ghost use Rattle.serde_json.specs.Find.{as_str};
ghost use Rattle.serde_json.specs.View.{view};
ghost use Rattle.wire.specs.Members.{has_member, member, member_count, whole_of};

use serde_json::Value;

/// The whole number of 32 bits that a value is, written without a fraction and without an exponent.
pub fn whole_of(value: &Value) -> Option<u32>
    ensures { result ≡ whole_of (view value.now) }
{
    let whole = value.as_u64()?;
    if whole <= u32::MAX as u64 {
        Some(whole as u32)
    } else {
        None
    }
}

/// 1 for a member that an object has, and else 0.
pub fn has_member(value: &Value, name: &str) -> usize
    ensures { result ≡ has_member name.now (view value.now) }
{
    if value.get(name).is_some() { 1 } else { 0 }
}

/// How many members an object has.
pub fn member_count(value: &Value) -> usize
    ensures { result ≡ member_count (view value.now) }
{
    match value.as_object() {
        Some(members) => members.len(),
        None => 0,
    }
}

/// The text of a member.
pub fn text_at<'v>(value: &'v Value, name: &str) -> Option<&'v str>
    ensures { option_map (λ s. s.now) result ≡ member as_str name.now (view value.now) }
{
    value.get(name).and_then(Value::as_str)
}

/// The whole number of a member.
pub fn whole_at(value: &Value, name: &str) -> Option<u32>
    ensures { result ≡ member whole_of name.now (view value.now) }
{
    whole_of(value.get(name)?)
}
