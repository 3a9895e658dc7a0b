//! What a store asks of a member.

ghost use Rattle.std.specs.Prelude.{◌≡◌};
ghost use Rattle.versions.specs.Words.{meets};
ghost use Rattle.store.specs.Keys.{key_of};
ghost use Rattle.store.specs.Slots.{concludes, is_met};
ghost use Rattle.store.specs.Stored.{cause_is_on, conclusion_of, is_on};

use crate::keys::key_of;
use derivations::{Cause, Learnt, Line};
use terms::{Incompat, Pkg};
use versions::Published;

/// Whether the cause is a premise with this target whose requirement the version meets.
fn cause_is_on(cause: &Cause, target: Pkg, version: &Published) -> bool
    ensures { result ≡ cause_is_on target (λ need. meets need version.now) cause.now }
{
    match cause {
        Cause::Premise(premise) => premise.target == target && premise.need.admits(version),
        Cause::Line(_) | Cause::Need(_) | Cause::NotAllowed(_, _) | Cause::Root => false,
    }
}

/// Whether the lines have such a premise.
fn is_on(lines: &[Line], target: Pkg, version: &Published) -> bool
    ensures { result ≡ is_on target (λ need. meets need version.now) lines.now }
{
    lines.iter().any(|line| {
        cause_is_on(&line.causes.0, target, version) || cause_is_on(&line.causes.1, target, version)
    })
}

/// Whether a member has a premise with this target whose requirement the version meets. Where it does not
/// rest on the target, that is one look.
pub fn is_met(member: &Learnt, target: Pkg, version: &Published) -> bool
    ensures { result ≡ is_met target version.now member.now }
{
    member.rests_on().has(target) && is_on(member.lines(), target, version)
}

/// Whether a member concludes this.
pub fn concludes(member: &Learnt, conclusion: &Incompat) -> bool
    ensures { result ≡ concludes conclusion.now member.now }
{
    member.conclusion().is_same(conclusion)
}

/// The key of a member's conclusion.
pub fn member_key(member: &Learnt) -> u64
    ensures { result ≡ key_of (conclusion_of member.now) }
{
    key_of(member.conclusion())
}
