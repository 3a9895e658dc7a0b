//! Calls of chains, over lines that a row gives.

use checker::{Chain, Conclusion, Place, Stop};
use derivations::{CausedIncompatibility, Learnt};
use rows::{AnswerText, CallResult, Shows, Unread, both, learnt_at, size_at};
use serde_json::Value;
use std::alloc::{AllocError, Global};
use terms::Pkg;

/// A place, and steps from it: each a place and a package. A place behind the lines is that of a conclusion.
type Steps = (u32, Vec<(u32, Pkg)>);

pub fn chain_call(alloc: Global, name: &str, row: &Value) -> Result<CallResult, Unread> {
    match name {
        "follow" => followed(alloc, row),
        "conclude_member" => member_told(alloc, row),
        _ => Err(Unread::Row),
    }
}

/// What each of some chains concludes; nothing where a place or a package is not there.
fn followed(alloc: Global, row: &Value) -> Result<CallResult, Unread> {
    let packages = size_at(row, "packages")?;
    let (known, chains) = both::<Vec<CausedIncompatibility>, Vec<Steps>>(
        alloc, row, "known", "chains",
    )?;
    let mut chain = Chain::new(alloc, packages)?;
    let mut made = Vec::new(alloc);
    let concluded = conclude_all(alloc, &known, &chains, &mut chain, &mut made);
    drop(chain);
    drop(chains);
    drop(known);
    concluded_told(alloc, concluded, &made)
}

fn concluded_told(
    alloc: Global,
    concluded: Result<(), Stop>,
    made: &[Conclusion],
) -> Result<CallResult, Unread> {
    match concluded {
        Ok(()) => told(alloc, made),
        Err(Stop::Unknown) => Ok(CallResult::None),
        Err(Stop::NoMemory) => Err(Unread::from(AllocError)),
    }
}

/// What a member of a store says, of which the row has the lines.
fn member_told(alloc: Global, row: &Value) -> Result<CallResult, Unread> {
    let packages = size_at(row, "packages")?;
    let member = learnt_at(alloc, row)?;
    let mut chain = Chain::new(alloc, packages)?;
    let mut made = Vec::new(alloc);
    let concluded = conclude_member(alloc, &mut chain, &member, &mut made);
    drop(chain);
    drop(member);
    concluded_told(alloc, concluded, &made)
}

fn conclude_member(
    alloc: Global,
    chain: &mut Chain,
    member: &Learnt,
    made: &mut Vec<Conclusion>,
) -> Result<(), Stop> {
    let conclusion = chain.conclude_member(alloc, member)?;
    made.push(conclusion)?;
    Ok(())
}

fn conclude_all(
    alloc: Global,
    known: &[CausedIncompatibility],
    chains: &[Steps],
    chain: &mut Chain,
    made: &mut Vec<Conclusion>,
) -> Result<(), Stop> {
    for (from, steps) in chains {
        let conclusion = conclude(alloc, known, made, chain, *from, steps)?;
        made.push(conclusion)?;
    }
    Ok(())
}

fn conclude(
    alloc: Global,
    known: &[CausedIncompatibility],
    made: &[Conclusion],
    chain: &mut Chain,
    from: u32,
    steps: &[(u32, Pkg)],
) -> Result<Conclusion, Stop> {
    chain.start(alloc, known, made, place_of(known, from))?;
    for (with, on) in steps {
        chain.resolve(alloc, known, made, place_of(known, *with), *on)?;
    }
    Ok(chain.conclusion(alloc)?)
}

fn place_of(known: &[CausedIncompatibility], at: u32) -> Place {
    let at = at as usize;
    if at < known.len() {
        return Place::Line(at);
    }
    Place::Conclusion(at - known.len())
}

fn told(alloc: Global, made: &[Conclusion]) -> Result<CallResult, Unread> {
    let mut text = AnswerText::new(alloc);
    text.put("[");
    let mut is_first = true;
    for conclusion in made {
        text.put_between(is_first);
        conclusion.terms().show(&mut text);
        is_first = false;
    }
    text.put("]");
    text.answer()
}
