//! Why a line stands: two causes, each an earlier line or a fact.
ghost use Rattle.std.specs.Prelude.{◌≡◌, ◌++◌, string_bytes, Some, OnOk};
ghost use Rattle.registry.specs.Registry.{matching, number_of};
ghost use Rattle.explain.specs.Choices.{set_text};
ghost use Rattle.explain.specs.Explanations.{cause_text, matching_text, need_text, needs_text, premise_text};

use crate::choices::{name_of, put_choice, put_number, put_set};
use derivations::{Cause, Premise};
use registry::{Registry, Request};
use std::alloc::{AllocError, Global};
use terms::Pkg;
use versions::{Name, Need};

/// Puts that what is named is needed with this requirement, up to the set that it leaves.
fn put_needs(text: &mut String, name: &str, need: &Need) -> Result<(), AllocError>
    ensures { OnOk result (string_bytes text.new
        ≡ string_bytes text.old ++ needs_text name.now need.now) }
{
    text.push_str(" needs ")?;
    text.push_str(name)?;
    text.push_str(" \"")?;
    text.push_str(need.text())?;
    Ok(text.push_str("\" in ")?)
}

fn put_premise(
    alloc: Global,
    text: &mut String,
    registry: &Registry,
    premise: &Premise,
) -> Result<(), AllocError>
    ensures { OnOk result (string_bytes text.new
        ≡ string_bytes text.old ++ premise_text registry.now.packages premise.now) }
{
    put_choice(alloc, text, registry, premise.package, &premise.versions)?;
    put_needs(text, name_of(registry, premise.target), &premise.need)?;
    put_set(alloc, text, registry, premise.target, &premise.within)
}

/// Puts the published versions of the package of this name that meet a requirement.
fn put_matching(
    alloc: Global,
    text: &mut String,
    registry: &Registry,
    name: &Name,
    need: &Need,
) -> Result<(), AllocError>
    ensures { OnOk result (string_bytes text.new
        ≡ string_bytes text.old ++ matching_text registry.now.packages (number_of registry.now.packages name.now) need.now) }
{
    match registry.number(name) {
        None => Ok(text.push_str("{}")?),
        Some(pkg) => put_met(alloc, text, registry, pkg, need),
    }
}

/// Puts the published versions of a package that meet a requirement.
fn put_met(
    alloc: Global,
    text: &mut String,
    registry: &Registry,
    pkg: Pkg,
    need: &Need,
) -> Result<(), AllocError>
    ensures { OnOk result (string_bytes text.new
        ≡ string_bytes text.old ++ set_text registry.now.packages pkg (matching registry.now.packages pkg need.now)) }
{
    let matching = registry.matching_copy(pkg, need)?;
    put_set(alloc, text, registry, pkg, &matching)
}

/// Puts a need of the request.
fn put_need(
    alloc: Global,
    text: &mut String,
    registry: &Registry,
    need: &(Name, Need),
) -> Result<(), AllocError>
    ensures { OnOk result (string_bytes text.new
        ≡ string_bytes text.old ++ need_text registry.now.packages (Some need.now)) }
{
    text.push_str("the request")?;
    put_needs(text, need.0.text(), &need.1)?;
    put_matching(alloc, text, registry, &need.0, &need.1)
}

/// Puts why a cause holds: a fact in words, or an earlier line by its number.
pub fn put_cause(
    alloc: Global,
    text: &mut String,
    registry: &Registry,
    request: &Request,
    cause: &Cause,
) -> Result<(), AllocError>
    ensures { OnOk result (string_bytes text.new
        ≡ string_bytes text.old ++ cause_text registry.now.packages request.now cause.now) }
{
    match cause {
        Cause::Line(number) => {
            text.push_str("line ")?;
            put_number(text, *number)
        }
        Cause::Premise(premise) => put_premise(alloc, text, registry, premise),
        Cause::Need(index) => match request.needs().get(*index) {
            // A derivation of the request names no other need.
            None => Ok(()),
            Some(need) => put_need(alloc, text, registry, need),
        },
        Cause::NotAllowed(pkg, versions) => {
            put_choice(alloc, text, registry, *pkg, versions)?;
            Ok(text.push_str(" is not allowed")?)
        }
        Cause::Root => Ok(text.push_str("the request must be met")?),
    }
}
