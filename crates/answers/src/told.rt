//! What is told in reply to a line, by a session and by the seats of a race alike.
ghost use Rattle.std.specs.Prelude.{◌≡◌, IfOk};
ghost use Rattle.solver.specs.Outcomes.{IsLawful};
ghost use Rattle.replies.specs.Replied.{body_of, reply_of};
ghost use Rattle.answers.specs.Outcomes.{MayTell, TellsFound, TellsVerdict};
ghost use Rattle.answers.specs.Told.{reply_from};

use crate::reasons::{explained, follows};
use by_name::NamedDerivation;
use derivations::{Learnt, derivations_refute};
use registry::{Registry, Request};
use replies::{Body, Reply, SeatStamp};
use solver::{Options, Outcome};
use std::alloc::{AllocError, Global};
use versions::Refusal;

/// Where a line is answered, which its reply tells too.
#[derive(Clone, Copy)]
pub struct ReplyStamp {
    /// How many commands were accepted.
    pub revision: u64,
    /// In a race, how many entries the seat has seen, and its number.
    pub stamp: Option<SeatStamp>,
}

impl ReplyStamp {
    /// The reply that tells this here.
    pub fn reply(self, body: Body<'_>) -> Reply<'_>
        ensures { reply_of result ≡ reply_from self (body_of body.entry) }
    {
        Reply {
            revision: self.revision,
            stamp: self.stamp,
            body,
        }
    }
}

/// What is told of a request for which the solver found this, and what it offers to be learnt.
pub fn reply_body_of(
    alloc: Global,
    registry: &Registry,
    request: &Request,
    options: Options,
    outcome: Outcome,
) -> Result<(Body<'static>, Vec<Learnt>), AllocError>
    requires { IsLawful registry.now.packages request.now options.explain outcome }
    ensures { IfOk result (λ r. TellsFound registry.now.packages request.now options.explain (body_of r.0)) }
{
    derivations_refute();
    match outcome {
        Outcome::Selection(list, offered) => Ok((Body::Selection(list), offered)),
        Outcome::NoSelection(offered) => Ok((Body::NoSelection, offered)),
        Outcome::Refused(derivation, offered) => {
            let reason = explained(alloc, registry, request, &derivation)?;
            Ok((Body::Explained(reason), offered))
        }
    }
}

/// What is told of a derivation that a request is given with.
pub fn verdict_on(
    alloc: Global,
    registry: &Registry,
    request: &Request,
    derivation: &NamedDerivation,
) -> Body<'static>
    ensures { MayTell (TellsVerdict registry.now.packages request.now derivation.now) (body_of result) }
{
    match follows(alloc, registry, request, derivation) {
        Ok(verdict) => Body::Follows(verdict),
        Err(_) => Body::Refusal(Refusal::NoMemory),
    }
}
