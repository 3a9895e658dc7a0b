//! Entries that need not be cited, since the check of a selection sees by itself that what they took away is out.
//
// The check keeps which versions of each package are left by the needs and by what the selected versions before depend
// on. A version is plainly out if it is not left, or if it depends on a package of which no version that is left meets
// the requirement.

use crate::cited::is_set;
use crate::engine::Engine;
use propagation::{Entry, Origin, Stop, Term};

/// Whether the package of a term comes before.
fn is_passed(engine: &Engine<'_>, passed: &[bool], term: &Term) -> Result<bool, Stop> {
    Ok(is_set(passed, engine.package(term.variable)?))
}

/// Whether all packages of an incompatibility but one come before.
fn are_passed(
    engine: &Engine<'_>,
    passed: &[bool],
    incompat: u32,
    variable: u32,
) -> Result<bool, Stop> {
    for term in engine.incompats.terms(incompat)? {
        if term.variable != variable && !is_passed(engine, passed, term)? {
            return Ok(false);
        }
    }
    Ok(true)
}

/// Whether an incompatibility says what a need asks of a package, or a version of a package before.
fn is_asked(
    engine: &Engine<'_>,
    passed: &[bool],
    incompat: u32,
    variable: u32,
) -> Result<bool, Stop> {
    match engine.incompats.origin(incompat)? {
        Origin::Need(_) => Ok(true),
        Origin::Dependency { pkg, .. } => {
            let own = engine.trail.variable(variable)?.pkg;
            Ok(pkg != own && are_passed(engine, passed, incompat, variable)?)
        }
        Origin::Member(_) | Origin::Page | Origin::Learnt { .. } => Ok(false),
    }
}

/// Whether a term is true by what is asked of its package before.
fn is_true_so(engine: &Engine<'_>, passed: &[bool], term: &Term) -> Result<bool, Stop> {
    let row = engine.trail.variable(term.variable)?;
    let mut choices = term.choices;
    let mut place = engine.trail.satisfier(row.last, choices)?;
    for _ in 0..engine.trail.entries().len() {
        let Some(here) = place else {
            return Ok(false);
        };
        let entry = engine.trail.entry(here)?;
        let Some(reason) = entry.reason else {
            return Ok(false);
        };
        if !is_asked(engine, passed, reason, term.variable)? {
            return Ok(false);
        }
        choices = choices.or(engine.incompats.choices_on(reason, term.variable)?);
        if row.all.is_within(choices) {
            return Ok(true);
        }
        place = engine.trail.satisfier(entry.previous, choices)?;
    }
    Ok(false)
}

/// Whether an incompatibility says what versions of a package depend on, and what is left of that other package is at
/// odds with it.
fn is_at_odds(
    engine: &Engine<'_>,
    passed: &[bool],
    incompat: u32,
    variable: u32,
) -> Result<bool, Stop> {
    let Origin::Dependency { pkg, .. } = engine.incompats.origin(incompat)? else {
        return Ok(false);
    };
    if pkg != engine.trail.variable(variable)?.pkg {
        return Ok(false);
    }
    for term in engine.incompats.terms(incompat)? {
        if term.variable != variable {
            return Ok(is_passed(engine, passed, term)? || is_true_so(engine, passed, term)?);
        }
    }
    Ok(false)
}

/// Whether what an entry took away is plainly out, where these packages come before in the walk.
pub(crate) fn is_plain(engine: &Engine<'_>, passed: &[bool], entry: &Entry) -> Result<bool, Stop> {
    let Some(reason) = entry.reason else {
        return Ok(false);
    };
    let variable = entry.variable;
    Ok(is_asked(engine, passed, reason, variable)? || is_at_odds(engine, passed, reason, variable)?)
}
