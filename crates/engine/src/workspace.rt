//! What a search hands on to the next one: its memory, and what it knows of the dependencies of packages.
//
// Most of what a search of few conflicts does is to take memory and to list dependencies.

use crate::engine::{Engine, Late, Phase};
use crate::opening::PageOf;
use crate::pages::Paged;
use crate::turn::Turn;
use crate::view::View;
use oracle::Task;
use propagation::{Analysis, Incompats, Order, Step, Term, Trail, at_mut};
use std::alloc::Global;

/// The memory of a search that had more incompatibilities is not kept: some 4 MB.
const MOST_KEPT: u32 = 1 << 14;

/// What searches in one registry hand on, from one to the next. The registry may grow between them.
///
/// Searches find the same with it as without it.
#[derive(Drop)]
pub struct Workspace {
    view: View,
    trail: Trail,
    incompats: Incompats,
    order: Order,
    analysis: Analysis,
    steps: Vec<Step>,
    numbers: Vec<Option<u32>>,
    paged: Vec<Paged>,
    page_of: Vec<Option<PageOf>>,
    named: Vec<Term>,
    late: Vec<Late>,
    turn: Turn,
}

impl Workspace {
    /// That of a first search. Nothing is allocated before it begins.
    pub fn new(alloc: Global) -> Workspace {
        Workspace {
            view: View::new(alloc),
            trail: Trail::new(alloc),
            incompats: Incompats::new(alloc),
            order: Order::new(alloc),
            analysis: Analysis::new(alloc),
            steps: Vec::new(alloc),
            numbers: Vec::new(alloc),
            paged: Vec::new(alloc),
            page_of: Vec::new(alloc),
            named: Vec::new(alloc),
            late: Vec::new(alloc),
            turn: Turn::new(alloc),
        }
    }
}

impl<'a> Engine<'a> {
    /// A search for a selection that meets a request, with what is stored of earlier ones, in what earlier searches handed
    /// on. At the first conflict beyond the budget it stops.
    pub fn new(task: &Task<'a>, workspace: Workspace) -> Engine<'a> {
        let Workspace {
            view,
            trail,
            incompats,
            order,
            analysis,
            steps,
            numbers,
            paged,
            page_of,
            named,
            late,
            turn,
        } = workspace;
        Engine {
            task: *task,
            view,
            trail,
            incompats,
            order,
            analysis,
            steps,
            phase: Phase::Lazy,
            numbers,
            paged,
            page_of,
            asked: 0,
            looks: 0,
            named,
            looked: 0,
            late,
            pending: None,
            conflicts: 0,
            in_order: false,
            turn,
        }
    }

    /// What the next search is handed.
    pub fn into_workspace(self) -> Workspace {
        let mut engine = self;
        let alloc = engine.task.alloc;
        if engine.incompats.count() > MOST_KEPT {
            drop(engine);
            return Workspace::new(alloc);
        }
        engine.clear();
        engine.into_parts()
    }

    fn into_parts(self) -> Workspace {
        let Engine {
            view,
            trail,
            incompats,
            order,
            analysis,
            steps,
            numbers,
            paged,
            page_of,
            named,
            late,
            turn,
            ..
        } = self;
        Workspace {
            view,
            trail,
            incompats,
            order,
            analysis,
            steps,
            numbers,
            paged,
            page_of,
            named,
            late,
            turn,
        }
    }

    /// Takes all indexes of packages back.
    fn clear_numbers(&mut self) {
        for variable in self.trail.variables() {
            if let Ok(number) = at_mut(&mut self.numbers, variable.pkg) {
                *number = None;
            }
        }
    }

    /// Takes back all but the count of conflicts.
    fn clear(&mut self) {
        self.clear_numbers();
        self.view.begin_next(self.task.alloc);
        self.trail.clear();
        self.incompats.clear();
        self.order.clear();
        self.analysis.clear();
        self.steps.clear();
        self.phase = Phase::Lazy;
        self.paged.clear();
        self.page_of.clear();
        self.asked = 0;
        self.looks = 0;
        self.looked = 0;
        self.late.clear();
        self.pending = None;
        self.in_order = false;
        self.turn.clear();
    }
}
