//! What a search finds.

use crate::engine::{Engine, Verdict};
use crate::trace::{trace_of, trace_of_learnt, trace_of_need, trace_of_selection};
use indexmap::IndexMap;
use oracle::{Claim, Trace};
use propagation::{Stop, count_of};
use terms::Pkg;

impl Engine<'_> {
    /// How many conflicts were met.
    pub fn conflicts(&self) -> u32 {
        self.conflicts
    }

    /// What is selected, by package.
    fn selection(&self) -> Result<IndexMap<Pkg, u32>, Stop> {
        let variables = self.trail.variables();
        let mut selection = IndexMap::with_capacity(self.task.alloc, variables.len())?;
        for variable in 0..count_of(variables.len()) {
            if let Some(ordinal) = self.selected(variable)? {
                selection.insert(self.trail.variable(variable)?.pkg, ordinal)?;
            }
        }
        Ok(selection)
    }

    fn found(&self, verdict: Verdict) -> Result<Claim, Stop> {
        match verdict {
            Verdict::Selected => {
                let trace = trace_of_learnt(self)?;
                Ok(Claim::Selected(self.selection()?, trace))
            }
            Verdict::Refused(conflict) => Ok(Claim::Refused(trace_of(self, conflict)?)),
            Verdict::Unnumbered(need) => Ok(Claim::Refused(trace_of_need(self, need)?)),
        }
    }

    /// Searches for a selection, whichever is found first.
    pub fn search(&mut self) -> Result<Claim, Stop> {
        let verdict = self.run_first()?;
        self.found(verdict)
    }

    /// Once a selection was found, searches on for the newest one, over what was learnt, and answers the trace
    /// of what rules better versions out than those it has.
    pub fn search_newest(&mut self) -> Result<Trace, Stop> {
        match self.run_in_order()? {
            Verdict::Selected => trace_of_selection(self),
            Verdict::Refused(_) | Verdict::Unnumbered(_) => Err(Stop::Lost),
        }
    }
}
