//! Derivations by name as JSON.
ghost use Rattle.std.specs.Prelude.{◌≡◌, IfOk, OnOk, codes, map, string_bytes};
ghost use Rattle.serde_json.specs.Data.{array, boolean, item, no_items, no_members, object, put as with_member, string};
ghost use Rattle.serde_json.specs.View.{members_view, view};
ghost use Rattle.serde_json.specs.Written.{compact_text};
ghost use Rattle.replies.specs.NamedJson.{cause_json, derivation_json, line_json, name_json, number_json, ordinals_json, term_json, terms_json};
ghost use Rattle.replies.specs.Replies.{texts_json};

use by_name::{NamedCause, NamedDerivation, NamedLine, NamedPremise};
use serde_json::{Map, Value, json, put};
use std::alloc::{AllocError, Global};
use terms::{Term, VSet};
use versions::Name;

fn text_json(alloc: Global, text: &str) -> Result<Value, AllocError>
    ensures { IfOk result (λ v. view v ≡ string text.now) }
{
    Ok(Value::from(String::from_str(alloc, text)?))
}

fn name_json(alloc: Global, name: &Option<Name>) -> Result<Value, AllocError>
    ensures { IfOk result (λ v. view v ≡ name_json name.now) }
{
    match name {
        None => text_json(alloc, ""),
        Some(name) => text_json(alloc, name.text()),
    }
}

fn numbers_json(alloc: Global, ordinals: &[u32]) -> Result<Value, AllocError>
    ensures { IfOk result (λ v. view v ≡ ordinals_json ordinals.now) }
{
    let mut values = Vec::with_capacity(alloc, ordinals.len())?;
    for ordinal in ordinals {
        values.push(Value::from(*ordinal))?;
    }
    Ok(Value::from(values))
}

fn ordinals_json(alloc: Global, set: &VSet) -> Result<Value, AllocError>
    ensures { IfOk result (λ v. view v ≡ ordinals_json set.now) }
{
    let ordinals = set.ordinals(alloc)?;
    numbers_json(alloc, &ordinals)
}

/// A package, whether its choice is in the set, and the set.
fn choice_json(
    alloc: Global,
    name: &Option<Name>,
    positive: bool,
    set: &VSet,
) -> Result<Value, AllocError>
    ensures { IfOk result (λ v. view v ≡ array (item (name_json name.now) (item (boolean positive) (item (ordinals_json set.now) no_items)))) }
{
    json!(in alloc; [name_json(alloc, name)?, positive, ordinals_json(alloc, set)?])
}

fn term_json(alloc: Global, entry: &(Option<Name>, Term)) -> Result<Value, AllocError>
    ensures { IfOk result (λ v. view v ≡ term_json entry.now.0 entry.now.1) }
{
    match &entry.1 {
        Term::In(set) => choice_json(alloc, &entry.0, true, set),
        Term::NotIn(set) => choice_json(alloc, &entry.0, false, set),
    }
}

fn terms_json(alloc: Global, terms: &[(Option<Name>, Term)]) -> Result<Value, AllocError>
    ensures { IfOk result (λ v. view v ≡ terms_json terms.now) }
{
    let mut values = Vec::with_capacity(alloc, terms.len())?;
    for entry in terms {
        values.push(term_json(alloc, entry)?)?;
    }
    Ok(Value::from(values))
}

// The members of an object are put into a map that is lent, so that one function alone has to drop it where memory is
// refused.

/// Puts a member that is a text.
fn put_text(
    alloc: Global,
    members: &mut Map<String, Value>,
    key: &str,
    text: &str,
) -> Result<(), AllocError>
    ensures { OnOk result (members_view members.new.entries ≡ with_member key.now (string text.now) (members_view members.old.entries)) }
{
    put(members, alloc, key, text_json(alloc, text)?)?;
    Ok(())
}

/// Puts a member that is a number.
fn put_number(
    alloc: Global,
    members: &mut Map<String, Value>,
    key: &str,
    number: usize,
) -> Result<(), AllocError>
    ensures { OnOk result (members_view members.new.entries ≡ with_member key.now (number_json number) (members_view members.old.entries)) }
{
    put(members, alloc, key, Value::from(number))?;
    Ok(())
}

/// Puts a member that is a name, or none.
fn put_name(
    alloc: Global,
    members: &mut Map<String, Value>,
    key: &str,
    name: &Option<Name>,
) -> Result<(), AllocError>
    ensures { OnOk result (members_view members.new.entries ≡ with_member key.now (name_json name.now) (members_view members.old.entries)) }
{
    put(members, alloc, key, name_json(alloc, name)?)?;
    Ok(())
}

/// Puts a member that is a set.
fn put_set(
    alloc: Global,
    members: &mut Map<String, Value>,
    key: &str,
    set: &VSet,
) -> Result<(), AllocError>
    ensures { OnOk result (members_view members.new.entries ≡ with_member key.now (ordinals_json set.now) (members_view members.old.entries)) }
{
    put(members, alloc, key, ordinals_json(alloc, set)?)?;
    Ok(())
}

/// Puts the members of a premise.
fn put_premise(
    alloc: Global,
    members: &mut Map<String, Value>,
    premise: &NamedPremise,
) -> Result<(), AllocError>
    ensures { OnOk result (members_view members.new.entries ≡
        with_member (codes "within") (ordinals_json premise.now.within)
        (with_member (codes "versions") (ordinals_json premise.now.versions)
        (with_member (codes "target") (name_json premise.now.target)
        (with_member (codes "need") (string premise.now.need)
        (with_member (codes "name") (string premise.now.package)
        (with_member (codes "fact") (string (codes "premise")) (members_view members.old.entries))))))) }
{
    put_text(alloc, members, "fact", "premise")?;
    put_text(alloc, members, "name", premise.package.text())?;
    put_text(alloc, members, "need", premise.need.text())?;
    put_name(alloc, members, "target", &premise.target)?;
    put_set(alloc, members, "versions", &premise.versions)?;
    put_set(alloc, members, "within", &premise.within)?;
    Ok(())
}

/// Puts the members of a package at versions that are not allowed.
fn put_barred(
    alloc: Global,
    members: &mut Map<String, Value>,
    name: &Name,
    versions: &VSet,
) -> Result<(), AllocError>
    ensures { OnOk result (members_view members.new.entries ≡
        with_member (codes "versions") (ordinals_json versions.now)
        (with_member (codes "name") (string name.now)
        (with_member (codes "fact") (string (codes "disallowed")) (members_view members.old.entries)))) }
{
    put_text(alloc, members, "fact", "disallowed")?;
    put_text(alloc, members, "name", name.text())?;
    put_set(alloc, members, "versions", versions)?;
    Ok(())
}

/// Puts the members of a cause.
fn put_cause(
    alloc: Global,
    members: &mut Map<String, Value>,
    cause: &NamedCause,
) -> Result<(), AllocError>
    ensures { members_view members.old.entries ≡ no_members → OnOk result (object (members_view members.new.entries) ≡ cause_json cause.now) }
{
    match cause {
        NamedCause::Line(number) => {
            put_number(alloc, members, "line", *number)?;
            Ok(())
        }
        NamedCause::Premise(premise) => {
            put_premise(alloc, members, premise)?;
            Ok(())
        }
        NamedCause::Need(index) => {
            let index = *index;
            put_text(alloc, members, "fact", "need")?;
            put_number(alloc, members, "index", index)?;
            Ok(())
        }
        NamedCause::NotAllowed(name, versions) => {
            put_barred(alloc, members, name, versions)?;
            Ok(())
        }
        NamedCause::Root => {
            put_text(alloc, members, "fact", "root")?;
            Ok(())
        }
    }
}

fn cause_json(alloc: Global, cause: &NamedCause) -> Result<Value, AllocError>
    ensures { IfOk result (λ v. view v ≡ cause_json cause.now) }
{
    let mut members = Map::new(alloc);
    put_cause(alloc, &mut members, cause)?;
    Ok(Value::Object(members))
}

/// The two causes of a line.
fn causes_json(alloc: Global, causes: &(NamedCause, NamedCause)) -> Result<Value, AllocError>
    ensures { IfOk result (λ v. view v ≡ array (item (cause_json causes.now.0) (item (cause_json causes.now.1) no_items))) }
{
    json!(in alloc; [cause_json(alloc, &causes.0)?, cause_json(alloc, &causes.1)?])
}

/// Puts the members of a line.
fn put_line(
    alloc: Global,
    members: &mut Map<String, Value>,
    line: &NamedLine,
) -> Result<(), AllocError>
    ensures { OnOk result (members_view members.new.entries ≡
        with_member (codes "pivot") (name_json line.now.pivot)
        (with_member (codes "conclusion") (terms_json line.now.conclusion)
        (with_member (codes "causes") (array (item (cause_json line.now.causes.0) (item (cause_json line.now.causes.1) no_items))) (members_view members.old.entries)))) }
{
    put(members, alloc, "causes", causes_json(alloc, &line.causes)?)?;
    put(
        members,
        alloc,
        "conclusion",
        terms_json(alloc, line.conclusion.terms())?,
    )?;
    put_name(alloc, members, "pivot", &line.pivot)?;
    Ok(())
}

fn line_json(alloc: Global, line: &NamedLine) -> Result<Value, AllocError>
    ensures { IfOk result (λ v. view v ≡ line_json line.now) }
{
    let mut members = Map::new(alloc);
    put_line(alloc, &mut members, line)?;
    Ok(Value::Object(members))
}

/// The value that replies have as `derivation`. Linear in its lines.
pub fn derivation_json(alloc: Global, derivation: &NamedDerivation) -> Result<Value, AllocError>
    ensures { IfOk result (λ v. view v ≡ derivation_json derivation.now) }
{
    let lines = derivation.lines();
    let mut values = Vec::with_capacity(alloc, lines.len())?;
    for line in lines {
        values.push(line_json(alloc, line)?)?;
    }
    Ok(Value::from(values))
}

/// The JSON of a derivation, as text.
pub fn derivation_text(alloc: Global, derivation: &NamedDerivation) -> Result<String, AllocError>
    ensures { IfOk result (λ text. string_bytes text ≡ compact_text (derivation_json derivation.now)) }
{
    let text = derivation_json(alloc, derivation)?.to_string(alloc)?;
    Ok(text)
}

/// The array that replies have as `explanation`.
pub fn texts_json(alloc: Global, texts: &[String]) -> Result<Value, AllocError>
    ensures { IfOk result (λ v. view v ≡ texts_json (map (λ t. string_bytes t) texts.now)) }
{
    let mut values = Vec::with_capacity(alloc, texts.len())?;
    for text in texts {
        values.push(text_json(alloc, text.as_str())?)?;
    }
    Ok(Value::from(values))
}
