//! What meets the requirements by which packages are reached.

use crate::engine::Engine;
use crate::view::Dependency;
use oracle::Task;
use propagation::{Bits, Origin, Stop, choice_of};
use terms::{Pkg, VSet};
use versions::Need;

/// The requirement of a need or of a dependency; Lost for another origin.
fn requirement<'a>(task: &Task<'a>, by: Origin) -> Result<&'a Need, Stop> {
    let found = match by {
        Origin::Need(index) => task.request.needs().get(index),
        Origin::Dependency {
            pkg,
            ordinal,
            index,
        } => match task.registry.facts_at(pkg, ordinal) {
            None => None,
            Some(facts) => facts.needs.get(index),
        },
        Origin::Member(_) | Origin::Page | Origin::Learnt { .. } => None,
    };
    match found {
        None => Err(Stop::Lost),
        Some((_, need)) => Ok(need),
    }
}

/// The versions of a package that meet the requirement of a need or of a dependency.
pub(crate) fn versions_meeting(task: &Task<'_>, pkg: Pkg, by: Origin) -> Result<VSet, Stop> {
    let need = requirement(task, by)?;
    let matching = task.registry.matching_set(pkg, need)?;
    let set = matching.set(task.alloc);
    drop(matching);
    Ok(set?)
}

/// The choices of these versions, among all.
pub(crate) fn choices_among(all: Bits, versions: &VSet) -> Bits {
    let mut choices = Bits::none();
    for ordinal in versions.iter() {
        let choice = choice_of(ordinal);
        if Bits::holds(choice) {
            choices = choices.or(Bits::of(choice));
        }
    }
    choices.and(all)
}

impl Engine<'_> {
    /// The choices of a package that has no pages, and has this index, which stand for versions that meet the requirement of
    /// a need or of a dependency.
    pub(crate) fn meeting(&self, variable: u32, pkg: Pkg, by: Origin) -> Result<Bits, Stop> {
        let versions = versions_meeting(&self.task, pkg, by)?;
        let choices = self.choices(variable, &versions, false);
        drop(versions);
        choices
    }

    /// As `meeting`, of a dependency: mostly their set is kept.
    #[inline(always)]
    pub(crate) fn within(
        &self,
        variable: u32,
        dependency: &Dependency,
        by: Origin,
    ) -> Result<Bits, Stop> {
        let (pkg, need) = (dependency.target, dependency.need);
        match self.task.registry.low_bits(pkg, need) {
            Some(versions) => Ok(Bits::of_versions(versions)),
            None => self.meeting(variable, pkg, by),
        }
    }
}
