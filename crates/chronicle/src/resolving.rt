//! What a seat answers to requests.
ghost use Rattle.std.specs.Prelude.{◌≡◌, ◌⊎◌, true, Err, IfErr, IfOk, IfSome, Some, None};
ghost use Rattle.solver.specs.Outcomes.{IsAnswer, IsLawful, MayStop, NonePreferred, answer_of};
ghost use Rattle.chronicle.specs.Calls.{Resolve};
ghost use Rattle.chronicle.specs.Journals.{packages_of, stamp_of};
ghost use Rattle.chronicle.specs.Seats.{HasCalled, IsStopped, told_of};

use crate::entry::Stamp;
use crate::seat::Seat;
use registry::Request;
use solver::{Options, Outcome, an_outcome_is_the_answer, solve_with};
use versions::Refusal;

impl Seat {
    /// Resolves a request at the place where the seat then stands, which the stamp names: by the newest
    /// selection, or by why there is none. Errors are [`Refusal::NoMemory`] and [`Refusal::Stray`].
    pub fn resolve(&mut self, request: &Request) -> Result<(Stamp, Outcome), Refusal>
        ensures again { IfSome self.old.stray (λ e. result ≡ Err Refusal.Stray) }
        ensures call { HasCalled self.old self.new (Resolve request.now None) (told_of result) }
        ensures lawful { IfOk result (λ r. IsLawful (packages_of self.new.journal) request.now true r.1) }
        ensures reason { IfErr result (IsStopped self.new) }
    {
        self.resolve_with(
            request,
            Options {
                budget: None,
                explain: true,
            },
        )
    }

    /// As [`Seat::resolve`], with at most so many conflicts: at the next one the answer is
    /// [`Refusal::BudgetSpent`]. Under every budget, 0 included, the preferred selection is the answer where
    /// it exists and meets the request.
    pub fn resolve_within(
        &mut self,
        request: &Request,
        budget: u32,
    ) -> Result<(Stamp, Outcome), Refusal>
        ensures again { IfSome self.old.stray (λ e. result ≡ Err Refusal.Stray) }
        ensures call { HasCalled self.old self.new (Resolve request.now (Some budget)) (told_of result) }
        ensures lawful { IfOk result (λ r. IsLawful (packages_of self.new.journal) request.now true r.1) }
        ensures reason { IfErr result (λ e. IsStopped self.new e ⊎ ((e ≡ Refusal.BudgetSpent) × NonePreferred (packages_of self.new.journal) request.now)) }
    {
        self.resolve_with(
            request,
            Options {
                budget: Some(budget),
                explain: true,
            },
        )
    }

    /// As [`Seat::resolve`], by options: under a budget, or without the reason of a refusal.
    pub fn resolve_with(
        &mut self,
        request: &Request,
        options: Options,
    ) -> Result<(Stamp, Outcome), Refusal>
        ensures again { IfSome self.old.stray (λ e. result ≡ Err Refusal.Stray) }
        ensures call { HasCalled self.old self.new (Resolve request.now options.budget) (told_of result) }
        ensures lawful { IfOk result (λ r. IsLawful (packages_of self.new.journal) request.now options.explain r.1) }
        ensures reason { IfErr result (λ e. IsStopped self.new e ⊎ MayStop (packages_of self.new.journal) request.now options.budget e) }
    {
        self.catch_up()?;
        Ok(answer_here(self, request, options)?)
    }
}

/// Answers a request where a seat stands.
fn answer_here(
    seat: &Seat,
    request: &Request,
    options: Options,
) -> Result<(Stamp, Outcome), Refusal>
    ensures stamp { IfOk result (λ r. r.0 ≡ stamp_of seat.now.journal) }
    ensures lawful { IfOk result (λ r. IsLawful (packages_of seat.now.journal) request.now options.explain r.1) }
    ensures answer { IfOk result (λ r. IsAnswer (packages_of seat.now.journal) request.now (answer_of r.1)) }
    ensures only { IfErr result (MayStop (packages_of seat.now.journal) request.now options.budget) }
{
    an_outcome_is_the_answer();
    let stamp = seat.stamp();
    let registry = seat.registry();
    let outcome = solve_with(seat.alloc(), registry, request, seat.store(), options)?;
    Ok((stamp, outcome))
}
