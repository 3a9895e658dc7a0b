//! Calls of a partial solution, by steps over one that is empty at first.

ghost use Rattle.std.specs.Prelude.{◌≡◌, ℕ, Option, Some, true, false, ◌<◌, length};
ghost use Rattle.terms.specs.Terms.{true_of};
ghost use Rattle.search.specs.Assignments.{is_decided, says, IsOpenTo};

use rows::{AnswerText, CallResult, Given, Unread, given, given_if, items, member, text, whole};
use search::{Partial, Satisfaction};
use serde_json::Value;
use std::alloc::Global;
use terms::{Incompat, Pkg, Relation, Term, VSet, relation};

/// What each step of a row answers.
pub fn partial_call(alloc: Global, name: &str, row: &Value) -> Result<CallResult, Unread> {
    if name != "steps" {
        return Err(Unread::Row);
    }
    let steps = items(member(row, "steps")?)?;
    let mut partial = Partial::new(alloc);
    let mut answers = Vec::new(alloc);
    let outcome = take_all(alloc, steps, &mut partial, &mut answers);
    drop(partial);
    match outcome {
        Ok(()) => given(alloc, answers),
        Err(why) => {
            drop(answers);
            Err(why)
        }
    }
}

fn take_all(
    alloc: Global,
    steps: &[Value],
    partial: &mut Partial,
    answers: &mut Vec<CallResult>,
) -> Result<(), Unread> {
    for step in steps {
        answers.push(take(alloc, items(step)?, partial)?)?;
    }
    Ok(())
}

/// `["derive",1,{"in":[0]}]`, `["decide",1,0]`, `["back_to",1]`, `["relation",[[1,{"in":[0]}]]]`, `["satisfier",[[1,{"in":[0]}]]]`,
/// `["level"]` or `["undecided"]`.
fn take(alloc: Global, step: &[Value], partial: &mut Partial) -> Result<CallResult, Unread> {
    match step {
        [name] => about(alloc, text(name)?, partial),
        [name, given] => looked(alloc, text(name)?, given, partial),
        [name, pkg, given] => assigned(alloc, text(name)?, whole(pkg)?, given, partial),
        _ => Err(Unread::Row),
    }
}

fn about(alloc: Global, name: &str, partial: &Partial) -> Result<CallResult, Unread> {
    match name {
        "level" => Ok(CallResult::Number(partial.level())),
        "undecided" => given_if(alloc, partial.undecided()),
        _ => Err(Unread::Row),
    }
}

fn looked(
    alloc: Global,
    name: &str,
    given: &Value,
    partial: &mut Partial,
) -> Result<CallResult, Unread> {
    if name == "back_to" {
        partial.back_to(whole(given)? as usize);
        return Ok(CallResult::None);
    }
    let incompat = Incompat::of(alloc, given)?;
    let answer = on_terms(alloc, name, partial, &incompat);
    drop(incompat);
    answer
}

fn on_terms(
    alloc: Global,
    name: &str,
    partial: &Partial,
    incompat: &Incompat,
) -> Result<CallResult, Unread> {
    match name {
        "relation" => relation_to(alloc, partial, incompat),
        "satisfier" => satisfier(partial, incompat),
        _ => Err(Unread::Row),
    }
}

fn relation_to(
    alloc: Global,
    partial: &Partial,
    incompat: &Incompat,
) -> Result<CallResult, Unread> {
    match partial.relation(incompat) {
        Satisfaction::Satisfied => Ok(CallResult::Word("satisfied")),
        Satisfaction::Almost(pkg) => almost(alloc, pkg),
        Satisfaction::Other => Ok(CallResult::Word("other")),
    }
}

fn satisfier(partial: &Partial, incompat: &Incompat) -> Result<CallResult, Unread> {
    if incompat.terms().is_empty() {
        return Ok(CallResult::Skipped);
    }
    match partial.relation(incompat) {
        Satisfaction::Satisfied => {
            let (first, second) = partial.satisfier(incompat)?;
            Ok(CallResult::Places(first, second))
        }
        _ => Ok(CallResult::Skipped),
    }
}

fn almost(alloc: Global, pkg: Pkg) -> Result<CallResult, Unread> {
    let mut text = AnswerText::new(alloc);
    text.put("{\"almost\":");
    text.put_plain(pkg);
    text.put("}");
    text.answer()
}

fn assigned(
    alloc: Global,
    name: &str,
    pkg: Pkg,
    given: &Value,
    partial: &mut Partial,
) -> Result<CallResult, Unread> {
    match name {
        "derive" => derive(alloc, partial, pkg, Term::of(alloc, given)?),
        "decide" => decide(partial, pkg, whole(given)?),
        _ => Err(Unread::Row),
    }
}

fn derive(
    alloc: Global,
    partial: &mut Partial,
    pkg: Pkg,
    term: Term,
) -> Result<CallResult, Unread> {
    if !is_open_to(alloc, partial, pkg, &term) {
        drop(term);
        return Ok(CallResult::Skipped);
    }
    partial.derive(pkg, term, 0)?;
    Ok(CallResult::None)
}

fn decide(partial: &mut Partial, pkg: Pkg, ordinal: u32) -> Result<CallResult, Unread> {
    if !is_left(partial, pkg, ordinal) || partial.decision(pkg).is_some() {
        return Ok(CallResult::Skipped);
    }
    partial.decide(pkg, ordinal)?;
    Ok(CallResult::None)
}

/// Whether some choice makes both terms true, where one makes the first true.
fn agree(first: &Term, second: &Term) -> bool
    requires { (choice : Option ℕ) × (true_of first.now choice ≡ true) }
    ensures { result ≡ true → (choice : Option ℕ) × (true_of first.now choice ≡ true) × (true_of second.now choice ≡ true) }
{
    match relation(first, second) {
        Relation::Satisfies => true,
        Relation::Contradicts => false,
        Relation::Inconclusive => true,
    }
}

/// Whether the assignments do not contradict a term.
fn is_open_to(alloc: Global, partial: &Partial, pkg: Pkg, term: &Term) -> bool
    ensures { result ≡ true → IsOpenTo partial.now pkg term.now }
{
    match partial.said(pkg) {
        None => agree(&Term::NotIn(VSet::new(alloc)), term),
        Some(said) => agree(said, term),
    }
}

/// Whether the assignments leave an ordinal.
fn is_left(partial: &Partial, pkg: Pkg, ordinal: u32) -> bool
    ensures { result ≡ true → says partial.now pkg (Some ordinal) ≡ true }
{
    match partial.said(pkg) {
        None => true,
        Some(said) => said.allows(ordinal),
    }
}
