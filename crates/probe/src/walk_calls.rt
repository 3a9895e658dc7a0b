//! Calls of walks.

ghost use Rattle.std.specs.Prelude.{nat_eq, IfSome};
ghost use Rattle.std.specs.List.{IsDistinct};
ghost use Rattle.std.specs.Map.{keys_of};

use registry::{Pkg, Registry, Request};
use rows::{AnswerText, CallResult, Shows, Unread, at, request_at};
use serde_json::Value;
use std::alloc::Global;
use versions::{Name, Published};
use walk::{
    ChoiceMap, Evidence, NewestChoice, Preferred, WalkListing, choose_newest,
    choose_newest_by_propagation, is_newest_by, is_plainly_newest, list_in_order, sort_by_name,
};

pub fn walk_call(
    alloc: Global,
    registry: &Registry,
    name: &str,
    row: &Value,
) -> Result<CallResult, Unread> {
    let request = request_at(alloc, row)?;
    let answer = about(alloc, registry, name, row, &request);
    drop(request);
    answer
}

fn about(
    alloc: Global,
    registry: &Registry,
    name: &str,
    row: &Value,
    request: &Request,
) -> Result<CallResult, Unread> {
    match name {
        "list_in_order" => {
            let listed = list_in_order(alloc, registry, request, &Preferred { registry, request })?;
            listed_in_order(alloc, registry, &listed)
        }
        "choose_newest" => chosen_newest(alloc, registry, choose_newest(alloc, registry, request)?),
        "choose_newest_by_propagation" => {
            let choice = choose_newest_by_propagation(alloc, registry, request)?;
            chosen_newest(alloc, registry, choice)
        }
        "is_newest_by" => newest_by_nothing(alloc, registry, row, request),
        "is_plainly_newest" => plainly_newest(alloc, registry, row, request),
        _ => Err(Unread::Row),
    }
}

/// What is listed in the order of the walk, and the name of the package that comes next: `{"found":[["a","1.0.0"]],"next":"b"}`;
/// without a next one, none is there.
fn listed_in_order(
    alloc: Global,
    registry: &Registry,
    listed: &WalkListing,
) -> Result<CallResult, Unread> {
    let mut text = AnswerText::new(alloc);
    text.put("{\"found\":[");
    put_versions(&mut text, registry, &listed.found);
    text.put("]");
    if let Some(next) = listed.next {
        text.put(",\"next\":");
        registry.name_at(next.pkg).show(&mut text);
    }
    text.put("}");
    text.answer()
}

/// The selection, or `{"selected":null}` where a search is needed.
fn chosen_newest(
    alloc: Global,
    registry: &Registry,
    choice: Option<NewestChoice>,
) -> Result<CallResult, Unread>
    requires { IfSome choice (λ choice. IsDistinct nat_eq (keys_of choice.list.items)) }
{
    match choice {
        Some(choice) => {
            let mut list = choice.list;
            sort_by_name(alloc, registry, &mut list);
            selected(alloc, registry, &list)
        }
        None => {
            let mut text = AnswerText::new(alloc);
            text.put("{\"selected\":null}");
            text.answer()
        }
    }
}

/// Shows nothing of any version.
#[derive(Clone, Copy)]
struct NoEvidence;

impl Evidence for NoEvidence {
    ghost shows = { λ evidence before p j. ⊥ };

    fn rules_out(&self, _before: &ChoiceMap, _pkg: Pkg, _ordinal: u32) -> bool {
        false
    }
}

/// Whether what a row selects is seen to be the newest where nothing else shows it.
fn newest_by_nothing(
    alloc: Global,
    registry: &Registry,
    row: &Value,
    request: &Request,
) -> Result<CallResult, Unread> {
    let selection = at::<Vec<(Pkg, u32)>>(alloc, row, "selection")?;
    let newest = is_newest_by(alloc, registry, request, &selection, &NoEvidence)?;
    Ok(CallResult::Bool(newest))
}

/// Whether what a row selects is plainly the newest.
fn plainly_newest(
    alloc: Global,
    registry: &Registry,
    row: &Value,
    request: &Request,
) -> Result<CallResult, Unread> {
    let selection = at::<Vec<(Pkg, u32)>>(alloc, row, "selection")?;
    let plain = is_plainly_newest(alloc, registry, request, &selection)?;
    Ok(CallResult::Bool(plain))
}

fn selected(alloc: Global, registry: &Registry, list: &[(Pkg, u32)]) -> Result<CallResult, Unread> {
    let mut text = AnswerText::new(alloc);
    text.put("{\"selected\":[");
    put_versions(&mut text, registry, list);
    text.put("]}");
    text.answer()
}

fn put_versions(text: &mut AnswerText, registry: &Registry, list: &[(Pkg, u32)]) {
    let mut is_first = true;
    for (pkg, ordinal) in list {
        text.put_between(is_first);
        version_of(registry, *pkg, *ordinal).show(text);
        is_first = false;
    }
}

/// A version by its package's name and its own text.
fn version_of(registry: &Registry, pkg: Pkg, ordinal: u32) -> Option<(&Name, &Published)> {
    let name = registry.name_at(pkg)?;
    Some((name, registry.facts_at(pkg, ordinal)?.version))
}
