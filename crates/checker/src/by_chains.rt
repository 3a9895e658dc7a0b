//! A selection that chains show to be the newest: for each better version something is shown whose terms it satisfies,
//! with the versions before.

ghost use Rattle.std.specs.Prelude.{◌≡◌, true, IfOk, IfSome};
ghost use Rattle.walk.specs.PlainlyNewest.{IsNewestIfMet};
ghost use Rattle.facts.specs.Tasks.{IsNewestList, IsSelectionList, StoreStands};
ghost use Rattle.checker.specs.Ruling.{HasWith, IsRuledOut, RulesOut};

use crate::chain::{Place, terms_at};
use crate::laws::shown_holds;
use crate::replaying::terms_room;
use crate::selecting::selection_by;
use crate::showing::{Showing, show_records};
use crate::table::{Conclusion, Stop};
use derivations::{CausedIncompatibility, ROOT};
use facts::begin_lines;
use indexmap::IndexMap;
use oracle::{Task, Trace};
use std::alloc::AllocError;
use terms::{Pkg, Term};
use walk::{ChoiceMap, Evidence, is_newest_by};

/// What is shown of a trace, and what of that is named for packages, of which it rules versions out.
#[derive(Clone, Copy)]
struct NamedShown<'a> {
    known: &'a [CausedIncompatibility],
    made: &'a [Conclusion],
    /// By record of the trace, where it is shown.
    places: &'a [Place],
    /// Packages with the records that are named for them, in order of packages.
    named: &'a [(Pkg, u32)],
}

/// What a package has with a version behind others: the root its own, else this version, or one of the others.
fn chosen_with(before: &ChoiceMap, pkg: Pkg, ordinal: u32, on: Pkg) -> Option<u32>
    ensures { IfSome result (HasWith before.now.entries pkg ordinal on) }
{
    if on == ROOT {
        return Some(0);
    }
    if on == pkg {
        return Some(ordinal);
    }
    before.get(on)
}

/// Whether all terms are true with a version behind others, so that no selection has them together.
fn are_all_true(terms: &[(Pkg, Term)], before: &ChoiceMap, pkg: Pkg, ordinal: u32) -> bool
    ensures { result ≡ true → RulesOut terms.now before.now.entries pkg ordinal }
{
    for (on, term) in terms {
        match chosen_with(before, pkg, ordinal, *on) {
            None => return false,
            Some(chosen) => {
                if !term.allows(chosen) {
                    return false;
                }
            }
        }
    }
    true
}

/// Whether what a record says, if it is shown, rules a version out.
fn is_ruled_out_by(
    shown: &NamedShown<'_>,
    record: u32,
    before: &ChoiceMap,
    pkg: Pkg,
    ordinal: u32,
) -> bool
    ensures { result ≡ true → IsRuledOut shown.now.known.now shown.now.made.now before.now.entries pkg ordinal }
{
    let Some(place) = shown.places.get(record as usize).copied() else {
        return false;
    };
    match terms_at(shown.known, shown.made, place) {
        None => false,
        Some(terms) => are_all_true(terms, before, pkg, ordinal),
    }
}

impl Evidence for NamedShown<'_> {
    ghost shows = { λ shown before p j. IsRuledOut shown.known.now shown.made.now before p j };

    /// The cost grows with the logarithm of the number of records that are named, and with those that are named for the package.
    fn rules_out(&self, before: &ChoiceMap, pkg: Pkg, ordinal: u32) -> bool {
        let first = self.named.partition_point(|named| named.0 < pkg);
        for i in first..self.named.len() {
            let (named, record) = self.named[i];
            if named != pkg {
                return false;
            }
            if is_ruled_out_by(self, record, before, pkg, ordinal) {
                return true;
            }
        }
        false
    }
}

/// What a trace selects.
fn selected_by(task: &Task<'_>, trace: &Trace) -> Result<IndexMap<Pkg, u32>, AllocError> {
    let mut selected = IndexMap::with_capacity(task.alloc, trace.selected.len())?;
    for (pkg, ordinal) in trace.selected.as_slice() {
        selected.insert(*pkg, *ordinal)?;
    }
    Ok(selected)
}

/// Whether chains show by a trace that a selection is the newest.
fn is_shown_newest(task: &Task<'_>, trace: &Trace, list: &[(Pkg, u32)]) -> Result<bool, Stop>
    requires { StoreStands task.now }
    ensures { IfOk result (λ yes. yes ≡ true → IsNewestIfMet task.now.registry.now.packages task.now.request.now list.now) }
{
    shown_holds();
    let mut showing = Showing::new(task, terms_room(trace))?;
    // Facts alone become lines.
    let mut known = begin_lines(task, trace.records.len() / 2)?;
    let _last = show_records(task, &mut known, &mut showing, trace)?;
    let shown = NamedShown {
        known: &known,
        made: &showing.conclusions,
        places: &showing.places,
        named: &trace.ruling,
    };
    Ok(is_newest_by(task.alloc, task.registry, task.request, list, &shown)?)
}

/// Whether a trace selects what was decided.
pub fn selects(trace: &Trace, decided: &IndexMap<Pkg, u32>) -> bool {
    trace.selected.len() == decided.len()
        && trace.selected.iter().all(|(pkg, ordinal)| decided.get(pkg).copied() == Some(*ordinal))
}

/// The selection of a trace, if it is one: this one, where the trace selects the same.
fn selection_in(
    task: &Task<'_>,
    trace: &Trace,
    same: Option<Vec<(Pkg, u32)>>,
) -> Result<Option<Vec<(Pkg, u32)>>, AllocError>
    requires { IfSome same (λ list. IsSelectionList task.now list.items) }
    ensures { IfOk result (λ found. IfSome found (λ list. IsSelectionList task.now list.items)) }
{
    if let Some(list) = same {
        return Ok(Some(list));
    }
    let selected = selected_by(task, trace)?;
    selection_by(task, &selected)
}

/// The selection of a trace, if it is one and chains show by the trace that it is the newest. Where a selection is given,
/// it is what the trace selects. An error is [`Stop::Unknown`] where chains do not come to the trace's end, or have no
/// room for what it says.
pub fn newest_by_chains(
    task: &Task<'_>,
    trace: &Trace,
    same: Option<Vec<(Pkg, u32)>>,
) -> Result<Option<Vec<(Pkg, u32)>>, Stop>
    requires stored { StoreStands task.now }
    requires same { IfSome same (λ list. IsSelectionList task.now list.items) }
    ensures { IfOk result (λ found. IfSome found (λ list. IsNewestList task.now list.items)) }
{
    let Some(list) = selection_in(task, trace, same)? else {
        return Ok(None);
    };
    if is_shown_newest(task, trace, &list)? {
        Ok(Some(list))
    } else {
        Ok(None)
    }
}
