//! The state of a search, and its turns (doc/solver.md, "The Algorithm").

use crate::opening::PageOf;
use crate::pages::Paged;
use crate::turn::Turn;
use crate::view::View;
use oracle::Task;
use propagation::{
    Analysis, Incompats, Order, Step, Stop, Term, Trail, count_of, learnt_from, level_of,
};

/// For so many conflicts the dependencies of a version become incompatibilities when it is about to be
/// decided, as in doc/solver.md. Few requests meet more, and those that do are hard. With 4 in place of 2
/// stairs take 14 % longer and random formulas 3 %, with 32 the formulas twice as long.
const FIRST_CONFLICTS: u32 = 2;

/// After so many assignments a conflict is taken for the last one of those.
/// Measured at half and at twice this value: docs/BENCHMARKS.md, Constants.
const FIRST_ASSIGNMENTS: u64 = 4096;

/// More turns than any search makes.
const TURNS: u64 = 1 << 48;

/// When dependencies become incompatibilities.
#[derive(Clone, Copy, PartialEq, Eq)]
pub(crate) enum Phase {
    /// Those of a version, when it is about to be decided.
    Lazy,
    /// Those of all versions of a package, when it is needed.
    Ahead,
}

/// What a search comes to.
#[derive(Clone, Copy, PartialEq, Eq)]
pub(crate) enum Verdict {
    /// Each package that is needed has one choice left.
    Selected,
    /// No selection meets the request, by a conflict of level 0.
    Refused(u32),
    /// Nor does one here: the package of the need with this index is not numbered.
    Unnumbered(usize),
}

/// An incompatibility that propagation may miss after a jump back.
#[derive(Clone, Copy)]
pub(crate) struct Late {
    id: u32,
    /// The level at which it was looked at last. What it says holds until the search jumps below.
    level: u32,
}

/// A search.
#[derive(Drop)]
pub struct Engine<'a> {
    pub(crate) task: Task<'a>,
    pub(crate) view: View,
    pub(crate) trail: Trail,
    pub(crate) incompats: Incompats,
    pub(crate) order: Order,
    pub(crate) analysis: Analysis,
    /// What the incompatibilities that were learnt follow from.
    pub(crate) steps: Vec<Step>,
    pub(crate) phase: Phase,
    /// By number of the package, its index on the trail.
    pub(crate) numbers: Vec<Option<u32>>,
    /// The packages that have pages.
    pub(crate) paged: Vec<Paged>,
    /// By index on the trail, which page it is, up to the last one.
    pub(crate) page_of: Vec<Option<PageOf>>,
    /// How many packages were asked for in the store, and how many members were looked at.
    pub(crate) asked: u32,
    pub(crate) looks: u32,
    /// The terms of the member that is looked at.
    pub(crate) named: Vec<Term>,
    /// Of how many entries of the trail it was seen whether all versions of their packages depend on the same.
    pub(crate) looked: u32,
    /// Incompatibilities to look at again after a jump back: those of one term that came in above level 0, and
    /// conflicts behind a first one. The levels rise.
    pub(crate) late: Vec<Late>,
    /// A conflict that was met outside of propagation.
    pub(crate) pending: Option<u32>,
    pub(crate) conflicts: u32,
    /// Whether it decides in the order of the walk, and whose turn it is there.
    pub(crate) in_order: bool,
    pub(crate) turn: Turn,
}

impl Engine<'_> {
    // ---- assignments

    /// Takes the choices of a term away by an incompatibility whose other terms are satisfied, or notes the
    /// conflict. A second one at a time is looked at again when the first was resolved: it may still be one then,
    /// and nothing else would show it.
    pub(crate) fn exclude(&mut self, term: &Term, by: u32) -> Result<(), Stop> {
        if self.trail.exclude(term.variable, term.choices, by)? {
            return Ok(());
        }
        match self.pending {
            None => self.pending = Some(by),
            Some(_) => self.put_late(by)?,
        }
        Ok(())
    }

    /// Has an incompatibility looked at again after each jump back, unless the search is at level 0.
    pub(crate) fn put_late(&mut self, id: u32) -> Result<(), Stop> {
        let level = self.trail.level();
        if level > 0 {
            self.late.push(Late { id, level })?;
        }
        Ok(())
    }

    /// Takes back what was decided and derived above a level. A conflict there is none any more.
    pub(crate) fn back_to(&mut self, level: u32) -> Result<(), Stop> {
        if level >= self.trail.level() {
            return Ok(());
        }
        self.pending = None;
        if !self.in_order {
            self.order.go_back(&self.trail, level)?;
        }
        self.trail.back_to(level)?;
        self.looked = self.looked.min(count_of(self.trail.entries().len()));
        self.turn.go_back(&self.trail)
    }

    /// The term of an incompatibility that alone is not satisfied, its first one where all are; none where
    /// several are not.
    fn last_term(&self, id: u32) -> Result<Option<Term>, Stop> {
        let terms = self.incompats.terms(id)?;
        let mut last = None;
        for term in terms {
            if !self.trail.left(term.variable)?.is_within(term.choices) {
                if last.is_some() {
                    return Ok(None);
                }
                last = Some(*term);
            }
        }
        match last {
            Some(_) => Ok(last),
            None => Ok(terms.first().copied()),
        }
    }

    /// Derives what an incompatibility says now, or notes the conflict.
    fn derive_by(&mut self, id: u32) -> Result<(), Stop> {
        let Some(term) = self.last_term(id)? else {
            return Ok(());
        };
        if !self.trail.exclude(term.variable, term.choices, id)? && self.pending.is_none() {
            self.pending = Some(id);
        }
        Ok(())
    }

    /// Looks again at the incompatibility that came in late and stands there.
    fn derive_late_at(&mut self, index: usize, level: u32) -> Result<(), Stop> {
        let Some(late) = self.late.as_mut_slice().get_mut(index) else {
            return Ok(());
        };
        late.level = level;
        let id = late.id;
        self.derive_by(id)
    }

    /// Derives again what came in late and was taken back as the search jumped to its level.
    pub(crate) fn derive_late(&mut self) -> Result<(), Stop> {
        let level = self.trail.level();
        let kept = self
            .late
            .as_slice()
            .partition_point(|late| late.level <= level);
        for index in kept..self.late.len() {
            self.derive_late_at(index, level)?;
        }
        if level == 0 {
            self.late.clear();
        }
        Ok(())
    }

    /// Derives all that follows. Answers a conflict, if there is one.
    pub(crate) fn propagate(&mut self) -> Result<Option<u32>, Stop> {
        if let Some(conflict) = self.pending.take() {
            return Ok(Some(conflict));
        }
        for _ in 0..TURNS {
            let Some(variable) = self.trail.next_changed()? else {
                return Ok(None);
            };
            if let Some(conflict) = self.incompats.derive(&mut self.trail, variable)? {
                return Ok(Some(conflict));
            }
        }
        Err(Stop::Lost)
    }

    // ---- conflicts

    /// Counts a conflict, if the budget has one left.
    fn count_conflict(&mut self) -> Result<(), Stop> {
        if self.task.options.budget == Some(self.conflicts) {
            return Err(Stop::Spent);
        }
        self.conflicts = self.conflicts.saturating_add(1);
        Ok(())
    }

    /// Jumps back, and derives what the incompatibility that was learnt says there.
    fn jump_back(&mut self, conflict: u32) -> Result<(), Stop> {
        self.back_to(self.analysis.back)?;
        let origin = learnt_from(&mut self.steps, conflict, &self.analysis.steps)?;
        let id = self.incompats.add(&self.analysis.learnt, origin)?;
        self.incompats.watch_first(&self.trail, id)?;
        if let Some(term) = self.analysis.learnt.first().copied() {
            self.exclude(&term, id)?;
        }
        self.derive_late()
    }

    /// Learns from a conflict and jumps back. Answers whether it could: a conflict of level 0 says that no
    /// selection meets the request.
    fn resolve_conflict(&mut self, conflict: u32) -> Result<bool, Stop> {
        self.count_conflict()?;
        let level = level_of(&self.trail, self.incompats.terms(conflict)?)?;
        if level == 0 {
            return Ok(false);
        }
        // One that came in late may be of a lower level than the last.
        self.back_to(level)?;
        self.analysis
            .learn(&self.trail, &self.incompats, conflict, level)?;
        self.order.bump_all(&self.trail, self.analysis.touched())?;
        self.jump_back(conflict)?;
        Ok(true)
    }

    /// Whether dependencies are to be entered ahead of decisions from now on.
    fn is_hard(&self) -> bool {
        self.phase == Phase::Lazy
            && (self.conflicts >= FIRST_CONFLICTS || self.trail.made >= FIRST_ASSIGNMENTS)
    }

    // ---- turns

    /// Adds what is known of packages before one is decided. Answers whether something follows.
    fn enter_known(&mut self) -> Result<bool, Stop> {
        let made = self.trail.entries().len();
        self.enter_alike()?;
        self.enter_members()?;
        Ok(self.pending.is_some() || self.trail.entries().len() > made)
    }

    /// A turn: propagation, and then a conflict or a decision.
    fn go_on(&mut self) -> Result<Option<Verdict>, Stop> {
        let Some(conflict) = self.propagate()? else {
            if self.enter_known()? {
                return Ok(None);
            }
            return self.decide_next();
        };
        if !self.resolve_conflict(conflict)? {
            self.back_to(0)?;
            return Ok(Some(Verdict::Refused(conflict)));
        }
        if self.is_hard() {
            self.enter_ahead()?;
        }
        Ok(None)
    }

    /// Searches until there is a verdict.
    fn run(&mut self) -> Result<Verdict, Stop> {
        for _ in 0..TURNS {
            if let Some(verdict) = self.go_on()? {
                return Ok(verdict);
            }
        }
        Err(Stop::Lost)
    }

    /// Searches from the start on.
    pub(crate) fn run_first(&mut self) -> Result<Verdict, Stop> {
        if let Some(need) = self.enter_needs()? {
            self.count_conflict()?;
            return Ok(Verdict::Unnumbered(need));
        }
        self.run()
    }

    /// Searches once more, in the order of the walk, over what was learnt.
    pub(crate) fn run_in_order(&mut self) -> Result<Verdict, Stop> {
        self.in_order = true;
        self.back_to(0)?;
        self.derive_late()?;
        self.list_needs()?;
        self.run()
    }

    /// The package to go on with.
    pub(crate) fn next_open(&mut self) -> Result<Option<u32>, Stop> {
        if self.in_order {
            self.next_in_walk()
        } else {
            self.order.next(&self.trail)
        }
    }
}
