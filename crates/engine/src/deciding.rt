//! Decisions (doc/solver.md, "Decision Making").

use crate::engine::{Engine, Verdict};
use propagation::{Bits, Stop, choice_of};
use terms::Pkg;

impl Engine<'_> {
    /// The choice of the version that the lock names, if it is among these.
    fn locked_choice(&self, pkg: Pkg, choices: Bits) -> Option<u32> {
        let version = self.task.locked_version(pkg)?;
        let choice = choice_of(self.task.registry.find(pkg, version)?);
        if choices.has(choice) {
            Some(choice)
        } else {
            None
        }
    }

    /// The choice of the highest version among these.
    fn highest_choice(&self, pkg: Pkg, choices: Bits) -> Result<u32, Stop> {
        let highest = self
            .task
            .registry
            .highest_where(pkg, |ordinal| choices.has(choice_of(ordinal)));
        match highest {
            None => Err(Stop::Lost),
            Some(ordinal) => Ok(choice_of(ordinal)),
        }
    }

    /// What is to be decided of a package, of these choices: for the lock's version, else for the highest.
    pub(crate) fn best_choice(&self, variable: u32, pkg: Pkg, choices: Bits) -> Result<u32, Stop> {
        if let Some(only) = choices.only() {
            return Ok(only);
        }
        if self.page_of(variable).is_some() {
            return match choices.minus(Bits::absence()).lowest() {
                None => Err(Stop::Lost),
                Some(choice) => Ok(choice),
            };
        }
        match self.locked_choice(pkg, choices) {
            Some(choice) => Ok(choice),
            None => self.highest_choice(pkg, choices),
        }
    }

    /// Decides for the best version of a package, or derives what its dependencies say. Where it stands on a further page it is
    /// decided there, and the pages before follow: so it is looked at before anything is decided.
    fn decide_on(&mut self, package: u32) -> Result<(), Stop> {
        let before = self.trail.entries().len();
        let mut page = package;
        for _ in 0..u32::MAX {
            let row = self.trail.variable(page)?;
            let choice = self.best_choice(page, row.pkg, row.left)?;
            if choice == 0 {
                // A page without versions: its tie was missed.
                return Err(Stop::Lost);
            }
            self.enter(page, choice)?;
            if self.pending.is_some() || self.trail.entries().len() > before {
                return Ok(());
            }
            let Some(further) = self.opened(page, choice)? else {
                return self.decide_for(page, choice);
            };
            page = further;
        }
        Err(Stop::Lost)
    }

    /// Decides for a choice, unless it is the only one.
    fn decide_for(&mut self, variable: u32, choice: u32) -> Result<(), Stop> {
        if self.trail.left(variable)?.has_several() {
            self.trail.decide(variable, choice)?;
        }
        Ok(())
    }

    /// Decides on the package that comes next, or derives what its dependencies say. Answers that a selection
    /// was found, where none does.
    pub(crate) fn decide_next(&mut self) -> Result<Option<Verdict>, Stop> {
        match self.next_open()? {
            None => Ok(Some(Verdict::Selected)),
            Some(package) => {
                self.decide_on(package)?;
                Ok(None)
            }
        }
    }
}
