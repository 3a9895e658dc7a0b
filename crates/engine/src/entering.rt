//! Needs and dependencies become incompatibilities (doc/solver.md, "Decision Making").

use crate::engine::{Engine, Phase};
use crate::opening::PageOf;
use crate::pages::Page;
use crate::view::{Span, several_depend_alike};
use propagation::{Bits, Origin, Stop, Term, at, at_mut, choice_of, count_of};
use terms::Pkg;
use versions::Name;

/// How many dependencies are entered ahead of decisions at once, and how many more for each that was
/// entered before: so this takes a share of what the search took already.
///
/// So what is not needed yet restricts what is, as in solvers of formulas, which know all clauses from the
/// start. Without it random formulas of 40 and 80 variables take 5 times as long, towers of diamonds 3 times;
/// pigeons take as long.
const AHEAD: u32 = 1024;

const AHEAD_EACH: u32 = 8;

impl Engine<'_> {
    // ---- packages

    /// Those that are allowed, of a package whose choices stand for a version each.
    fn allowed_choices(&self, pkg: Pkg, all: Bits) -> Bits {
        let registry = self.task.registry;
        if !registry.has_yanks(pkg) {
            return all;
        }
        let mut choices = Bits::absence();
        for ordinal in 0..registry.version_count(pkg) {
            if registry.allowed(self.task.request, pkg, ordinal) {
                choices = choices.or(Bits::of(choice_of(ordinal)));
            }
        }
        choices
    }

    /// Puts a package on the trail, and answers its index.
    #[inline(never)]
    fn add_variable(&mut self, pkg: Pkg) -> Result<u32, Stop> {
        for _ in self.numbers.len()..pkg as usize + 1 {
            self.numbers.push(None)?;
        }
        let count = self.task.registry.version_count(pkg);
        let variable = if Bits::holds(count) {
            let all = Bits::up_to(count);
            self.add_row(pkg, all, self.allowed_choices(pkg, all))?
        } else {
            self.add_paged(pkg)?
        };
        *at_mut(&mut self.numbers, pkg)? = Some(variable);
        Ok(variable)
    }

    /// The index of a package on the trail.
    #[inline(always)]
    pub(crate) fn variable_of(&mut self, pkg: Pkg) -> Result<u32, Stop> {
        match self.numbers.as_slice().get(pkg as usize) {
            Some(Some(variable)) => Ok(*variable),
            _ => self.add_variable(pkg),
        }
    }

    // ---- incompatibilities

    /// Adds that no choice of a term may be selected, at whatever level. Answers its index.
    fn add_one(&mut self, term: Term, origin: Origin) -> Result<u32, Stop> {
        let id = self.incompats.add(&[term], origin)?;
        self.put_late(id)?;
        Ok(id)
    }

    /// Adds that no choice of a term may be selected, at whatever level, and takes them away.
    pub(crate) fn enter_one(&mut self, term: Term, origin: Origin) -> Result<(), Stop> {
        let id = self.add_one(term, origin)?;
        self.exclude(&term, id)
    }

    /// Adds that two terms do not go together. Answers its index.
    pub(crate) fn add_two(&mut self, a: Term, b: Term, origin: Origin) -> Result<u32, Stop> {
        let id = self.incompats.add(&[a, b], origin)?;
        self.incompats.pair(id, a, b)?;
        Ok(id)
    }

    /// Derives what follows now from one of two terms.
    pub(crate) fn derive_entered_two(&mut self, a: Term, b: Term, id: u32) -> Result<(), Stop> {
        if self.trail.left(a.variable)?.is_within(a.choices) {
            return self.exclude(&b, id);
        }
        if self.trail.left(b.variable)?.is_within(b.choices) {
            return self.exclude(&a, id);
        }
        Ok(())
    }

    /// Derives what follows now from one of one or two terms.
    fn derive_entered(&mut self, id: u32) -> Result<(), Stop> {
        let terms = self.incompats.terms(id)?;
        match (terms.first().copied(), terms.get(1).copied()) {
            (Some(a), Some(b)) => self.derive_entered_two(a, b, id),
            (Some(a), None) => self.exclude(&a, id),
            (None, _) => Ok(()),
        }
    }

    /// As `derive_entered`, from each incompatibility from one on, from the newest to the oldest (doc/solver.md, "Unit
    /// Propagation").
    fn derive_entered_from(&mut self, first: u32) -> Result<(), Stop> {
        for id in (first..self.incompats.count()).rev() {
            self.derive_entered(id)?;
        }
        Ok(())
    }

    /// Adds a dependency of a package, in a row of the view.
    fn enter_row(&mut self, variable: u32, pkg: Pkg, row: u32) -> Result<(), Stop> {
        let dependency = *self.view.row(row)?;
        let origin = Origin::Dependency {
            pkg,
            ordinal: dependency.ordinal,
            index: dependency.index,
        };
        let target = self.variable_of(dependency.target)?;
        let needing = Term {
            variable,
            choices: dependency.sharing,
        };
        if let Some(own) = self.page_of(target) {
            for missing in self.taken(own.paged, dependency.target, origin)?.as_slice() {
                self.add_needing(needing, *missing, origin)?;
            }
            return Ok(());
        }
        let within = self.within(target, &dependency, origin)?;
        let choices = self.trail.variable(target)?.all.minus(within);
        let missing = Term {
            variable: target,
            choices,
        };
        self.add_needing(needing, missing, origin)
    }

    /// Adds that versions depend on what is missing; where that is the whole package, that they can't be selected.
    fn add_needing(&mut self, needing: Term, missing: Term, origin: Origin) -> Result<(), Stop> {
        let all = self.trail.variable(missing.variable)?.all;
        let _id = if all.is_within(missing.choices) {
            self.add_one(needing, origin)?
        } else {
            self.add_two(needing, missing, origin)?
        };
        Ok(())
    }

    /// Lists the dependencies of a page.
    fn list_page(&mut self, own: PageOf, page: &Page, pkg: Pkg) -> Result<Span, Stop> {
        let registry = self.task.registry;
        let paged = at(&self.paged, own.paged)?;
        if !registry.is_alike(pkg) {
            return self.view.list_page(registry, pkg, paged.singles(page));
        }
        // Those of the first page stand for those of the others.
        if own.page > 0 {
            return Ok(Span { first: 0, end: 0 });
        }
        let all = page.all().minus(Bits::absence());
        self.view.list_alike(registry, pkg, all)
    }

    /// Where the dependencies of a page stand.
    fn span_of_page(&mut self, own: PageOf, pkg: Pkg) -> Result<Span, Stop> {
        let page = *at(&self.paged, own.paged)?.page(own.page)?;
        if let Some(span) = page.span {
            return Ok(span);
        }
        let span = self.list_page(own, &page, pkg)?;
        let paged = at_mut(&mut self.paged, own.paged)?;
        paged.page_mut(own.page)?.span = Some(span);
        Ok(span)
    }

    /// Where the dependencies of a package or a page stand.
    fn span_of(&mut self, variable: u32, pkg: Pkg) -> Result<Span, Stop> {
        match self.page_of(variable) {
            None => self.view.span(self.task.registry, pkg),
            Some(own) => self.span_of_page(own, pkg),
        }
    }

    /// Adds the dependencies of a package that versions among these have, and derives what follows now.
    fn enter_rows(&mut self, variable: u32, having: Bits) -> Result<(), Stop> {
        let pkg = self.trail.variable(variable)?.pkg;
        let span = self.span_of(variable, pkg)?;
        let first = self.incompats.count();
        for row in span.first..span.end {
            if self.view.enters(row, having)? {
                self.enter_row(variable, pkg, row)?;
            }
        }
        self.derive_entered_from(first)
    }

    /// Adds the dependencies that are to be among the incompatibilities before a version of a package is
    /// decided: those of this version, or of all that level 0 leaves.
    pub(crate) fn enter(&mut self, variable: u32, choice: u32) -> Result<(), Stop> {
        let row = *self.trail.variable(variable)?;
        if row.entered.has(choice) {
            return Ok(());
        }
        let own = Bits::of(choice);
        let having = match self.phase {
            Phase::Lazy => own,
            Phase::Ahead if self.trail.level() == 0 => row.left,
            Phase::Ahead => row.all,
        };
        self.open(variable, choice)?;
        let known = self.known_of(variable, having)?.or(own);
        self.trail.variable_mut(variable)?.entered = row.entered.or(known);
        self.enter_rows(variable, having)
    }

    /// Adds the dependencies of a package that is needed, where several versions, which are all, have the same.
    fn enter_if_alike(&mut self, variable: u32) -> Result<(), Stop> {
        let row = *self.trail.variable(variable)?;
        if row.left.has_absence()
            || !row.entered.is_empty()
            || !several_depend_alike(self.task.registry, row.pkg)
        {
            return Ok(());
        }
        let known = self.known_of(variable, row.all)?;
        self.trail.variable_mut(variable)?.entered = known;
        self.enter_rows(variable, row.all)
    }

    /// Adds the dependencies of the packages that are needed since this was done last, where all versions of one
    /// have the same: they follow before one is decided.
    pub(crate) fn enter_alike(&mut self) -> Result<(), Stop> {
        let made = count_of(self.trail.entries().len());
        for place in self.looked..made {
            let variable = self.trail.entry(place)?.variable;
            self.enter_if_alike(variable)?;
        }
        self.looked = made;
        Ok(())
    }

    /// Adds the dependencies of all packages that were reached, breadth first, up to a limit: so that what
    /// is not needed yet restricts what is.
    pub(crate) fn enter_ahead(&mut self) -> Result<(), Stop> {
        self.phase = Phase::Ahead;
        self.back_to(0)?;
        self.derive_late()?;
        let limit = self
            .incompats
            .count()
            .saturating_mul(AHEAD_EACH)
            .saturating_add(AHEAD);
        for variable in 0..u32::MAX {
            if self.incompats.count() >= limit
                || variable as usize >= self.trail.variables().len()
            {
                return Ok(());
            }
            self.enter_all(variable)?;
            self.pending = self.propagate()?;
            if self.pending.is_some() {
                return Ok(());
            }
        }
        Ok(())
    }

    /// Adds the dependencies of all versions of a package that are left at level 0.
    fn enter_all(&mut self, variable: u32) -> Result<(), Stop> {
        let row = *self.trail.variable(variable)?;
        let known = self.known_of(variable, row.all)?;
        self.trail.variable_mut(variable)?.entered = row.entered.or(known);
        self.enter_rows(variable, row.left)
    }

    // ---- the request

    /// Adds a need of the request. Answers whether its package is numbered.
    fn enter_need(&mut self, index: usize, name: &Name) -> Result<bool, Stop> {
        let Some(pkg) = self.task.registry.number(name) else {
            return Ok(false);
        };
        let origin = Origin::Need(index);
        let variable = self.variable_of(pkg)?;
        if let Some(own) = self.page_of(variable) {
            for term in self.taken(own.paged, pkg, origin)?.as_slice() {
                self.enter_one(*term, origin)?;
            }
            return Ok(true);
        }
        let within = self.meeting(variable, pkg, origin)?;
        let choices = self.trail.variable(variable)?.all.minus(within);
        self.enter_one(Term { variable, choices }, origin)?;
        Ok(true)
    }

    /// Adds the needs of the request, the last one first, up to the first whose package is not numbered, which it
    /// answers: nothing meets that. So what follows from a later need is explained by the earlier ones, as lines are
    /// used newest first (doc/solver.md, "Unit Propagation").
    pub(crate) fn enter_needs(&mut self) -> Result<Option<usize>, Stop> {
        let needs = self.task.request.needs();
        for index in (0..needs.len()).rev() {
            if let Some((name, _)) = needs.get(index) {
                if !self.enter_need(index, name)? {
                    return Ok(Some(index));
                }
            }
        }
        Ok(None)
    }
}
