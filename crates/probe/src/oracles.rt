//! Oracles that lose or lie, so that rows show that no answer depends on what an oracle says.

use engine::{Engine, Workspace};
use indexmap::IndexMap;
use oracle::{Claim, Oracle, Stop, Task, Trace};
use rows::{Unread, text_at};
use serde_json::Value;
use std::alloc::Global;
use terms::Pkg;

/// What an oracle says wrongly.
#[derive(Clone, Copy, PartialEq, Eq)]
pub enum Lie {
    /// That it is lost.
    Lost,
    /// Other versions than those that make a selection, and where there is none, that nothing makes one.
    Selection,
    /// That there is no selection, and where there is none, why: by steps on other packages.
    Refusal,
    /// Why no other selection is newer: by steps on other packages.
    Newest,
    /// Why no other selection is newer: by other lines for each package.
    Ruling,
    /// Which selection is the newest: the one that was found first.
    First,
}

/// What the oracle of a row says wrongly, as `"oracle":"lost"`.
pub fn lie_at(row: &Value) -> Result<Lie, Unread> {
    match text_at(row, "oracle")? {
        "lost" => Ok(Lie::Lost),
        "selection" => Ok(Lie::Selection),
        "refusal" => Ok(Lie::Refusal),
        "newest" => Ok(Lie::Newest),
        "ruling" => Ok(Lie::Ruling),
        "first" => Ok(Lie::First),
        _ => Err(Unread::Row),
    }
}

/// The engine, of which some answers are changed.
#[derive(Drop)]
pub struct Liar<'a> {
    alloc: Global,
    engine: Engine<'a>,
    lie: Lie,
    /// What the selection has that was found first.
    first: Vec<(Pkg, u32)>,
}

/// The same packages in other versions.
fn with_other_versions(
    alloc: Global,
    decided: &IndexMap<Pkg, u32>,
) -> Result<IndexMap<Pkg, u32>, Stop> {
    let mut others = IndexMap::new(alloc);
    for (pkg, ordinal) in decided.iter() {
        others.insert(*pkg, ordinal.wrapping_add(1))?;
    }
    Ok(others)
}

/// The same steps on other packages.
fn on_other_packages(trace: Trace) -> Trace {
    let mut changed = trace;
    for step in changed.steps.iter_mut() {
        step.on = step.on.wrapping_add(1);
    }
    changed
}

/// The same packages, each ruled out by the line behind its own.
fn by_other_lines(trace: Trace) -> Trace {
    let mut changed = trace;
    for named in changed.ruling.iter_mut() {
        named.1 = named.1.wrapping_add(1);
    }
    changed
}

/// The versions of a selection.
fn listed(alloc: Global, decided: &IndexMap<Pkg, u32>) -> Result<Vec<(Pkg, u32)>, Stop> {
    let mut list = Vec::with_capacity(alloc, decided.len())?;
    for (pkg, ordinal) in decided.iter() {
        list.push((*pkg, *ordinal))?;
    }
    Ok(list)
}

impl<'a> Liar<'a> {
    pub fn new(task: Task<'a>, lie: Lie) -> Liar<'a> {
        Liar {
            alloc: task.alloc,
            engine: Engine::new(&task, Workspace::new(task.alloc)),
            lie,
            first: Vec::new(task.alloc),
        }
    }

    /// What is said in place of a selection.
    fn changed_selection(
        &mut self,
        decided: IndexMap<Pkg, u32>,
        trace: Trace,
    ) -> Result<Claim, Stop> {
        match self.lie {
            Lie::Selection => {
                let others = with_other_versions(self.alloc, &decided)?;
                Ok(Claim::Selected(others, trace))
            }
            Lie::Refusal => Ok(Claim::Refused(self.engine.search_newest()?)),
            Lie::First => {
                self.first = listed(self.alloc, &decided)?;
                Ok(Claim::Selected(decided, trace))
            }
            Lie::Lost | Lie::Newest | Lie::Ruling => Ok(Claim::Selected(decided, trace)),
        }
    }

    /// What is said in place of a refusal.
    fn changed_refusal(&self, trace: Trace) -> Claim {
        match self.lie {
            Lie::Selection => Claim::Selected(IndexMap::new(self.alloc), trace),
            Lie::Refusal => Claim::Refused(on_other_packages(trace)),
            Lie::Lost | Lie::Newest | Lie::Ruling | Lie::First => Claim::Refused(trace),
        }
    }

    /// What is said in place of the newest selection, and of why no other one is newer.
    fn changed_newest(&self, trace: Trace) -> Result<Trace, Stop> {
        match self.lie {
            Lie::Ruling => Ok(by_other_lines(trace)),
            Lie::First => {
                let mut changed = trace;
                changed.selected.clear();
                for chosen in self.first.as_slice() {
                    changed.selected.push(*chosen)?;
                }
                Ok(changed)
            }
            Lie::Lost | Lie::Selection | Lie::Refusal | Lie::Newest => Ok(on_other_packages(trace)),
        }
    }
}

impl Oracle for Liar<'_> {
    fn search(&mut self) -> Result<Claim, Stop> {
        if self.lie == Lie::Lost {
            return Err(Stop::Lost);
        }
        match self.engine.search()? {
            Claim::Selected(decided, trace) => self.changed_selection(decided, trace),
            Claim::Refused(trace) => Ok(self.changed_refusal(trace)),
        }
    }

    fn search_newest(&mut self) -> Result<Trace, Stop> {
        let trace = self.engine.search_newest()?;
        self.changed_newest(trace)
    }

    fn conflicts(&self) -> u32 {
        self.engine.conflicts()
    }
}
