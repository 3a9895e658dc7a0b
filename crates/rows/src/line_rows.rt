//! Lines of derivations and of searches that rows give.

use crate::reading::{Given, Unread, at, both, size_at, three, whole_at};
use derivations::{Cause, CausedIncompatibility, Learnt, Line, Premise, Reason};
use serde_json::Value;
use std::alloc::Global;
use terms::Incompat;

/// What is learnt of the lines of a row.
pub fn learnt_at(alloc: Global, row: &Value) -> Result<Learnt, Unread> {
    Ok(Learnt::new(alloc, at(alloc, row, "lines")?)?)
}

/// A line of a derivation, as `{"conclusion":[..],"causes":[..,..],"pivot":1}`.
impl Given for Line {
    fn of(alloc: Global, value: &Value) -> Result<Line, Unread> {
        let pivot = whole_at(value, "pivot")?;
        let (causes, conclusion) = both(alloc, value, "causes", "conclusion")?;
        Ok(Line {
            conclusion,
            causes,
            pivot,
        })
    }
}

/// A cause, by the member that it has: `{"line":1}` counted from 1, `{"need_at":0}` counted from 0,
/// `{"not_allowed":[2,[0]]}`, `{"root":true}`, or a premise.
impl Given for Cause {
    fn of(alloc: Global, value: &Value) -> Result<Cause, Unread> {
        if value.get("line").is_some() {
            return Ok(Cause::Line(size_at(value, "line")?));
        }
        if value.get("need_at").is_some() {
            return Ok(Cause::Need(size_at(value, "need_at")?));
        }
        if value.get("root").is_some() {
            return Ok(Cause::Root);
        }
        match value.get("not_allowed") {
            Some(barred) => not_allowed(alloc, barred),
            None => Ok(Cause::Premise(Premise::of(alloc, value)?)),
        }
    }
}

fn not_allowed(alloc: Global, value: &Value) -> Result<Cause, Unread> {
    let (pkg, versions) = Given::of(alloc, value)?;
    Ok(Cause::NotAllowed(pkg, versions))
}

/// `{"package":1,"versions":[0],"target":2,"need":"^2.0.0","within":[0]}`.
impl Given for Premise {
    fn of(alloc: Global, value: &Value) -> Result<Premise, Unread> {
        let package = whole_at(value, "package")?;
        let target = whole_at(value, "target")?;
        let (versions, need, within) = three(alloc, value, "versions", "need", "within")?;
        Ok(Premise {
            package,
            versions,
            target,
            need,
            within,
        })
    }
}

/// A line of a search, as `{"conclusion":[..],"fact":..}`, where the fact is a cause, or as
/// `{"conclusion":[..],"from":[0,1],"pivot":1}`, where it follows from the lines at two places counted
/// from 0.
impl Given for CausedIncompatibility {
    fn of(alloc: Global, value: &Value) -> Result<CausedIncompatibility, Unread> {
        let conclusion = at::<Incompat>(alloc, value, "conclusion")?;
        match Reason::of(alloc, value) {
            Ok(reason) => Ok(CausedIncompatibility { conclusion, reason }),
            Err(why) => {
                drop(conclusion);
                Err(why)
            }
        }
    }
}

impl Given for Reason {
    fn of(alloc: Global, value: &Value) -> Result<Reason, Unread> {
        match value.get("fact") {
            Some(fact) => Ok(Reason::Fact(Cause::of(alloc, fact)?)),
            None => resolved(alloc, value),
        }
    }
}

fn resolved(alloc: Global, value: &Value) -> Result<Reason, Unread> {
    let pivot = whole_at(value, "pivot")?;
    let (one, two) = at::<(u32, u32)>(alloc, value, "from")?;
    Ok(Reason::Resolved(one as usize, two as usize, pivot))
}
