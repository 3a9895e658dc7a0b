//! What is learnt of a search.

ghost use Rattle.std.specs.Prelude.{◌≡◌, ◌<◌, ◌⊎◌, ◌↔◌, ◌++◌, Some, Err, length, IfErr, IfOk, IfSome, IsTrue, OnOk};
ghost use Rattle.std.specs.Bool.{OnTrue};
ghost use Rattle.terms.specs.Sets.{HasExactly};
ghost use Rattle.derivations.specs.Derivations.{last_conclusion};
ghost use Rattle.derivations.specs.Facts.{Holds};
ghost use Rattle.derivations.specs.Learning.{target_of, targets_of, AllStand, CauseStands, IsLearnt};

use crate::facts::Cause;
use crate::following::are_offered;
use crate::line::{Line, copied, last_conclusion};
use registry::Registry;
use std::alloc::{AllocError, Global};
use std::marker::Model;
use terms::{Incompat, VSet};
use versions::Refusal;

/// The most lines of what is learnt.
pub const DERIVATION_LINE_LIMIT: usize = 256;

/// An incompatibility that holds wherever certain premises stand, with the lines that show it. It
/// serves every request.
#[derive(Drop)]
pub struct Learnt {
    lines: Vec<Line>,
    targets: VSet,
}

impl Model for Learnt {
    ghost use Rattle.std.specs.Prelude.{List};
    ghost use Rattle.terms.specs.Sets.{HasExactly};
    ghost use Rattle.derivations.specs.Lines.{Line};
    ghost use Rattle.derivations.specs.Learning.{targets_of, IsLearnt};

    ghost Value = { List Line };

    ghost view = { λ l. l.lines.items };

    ghost invariant = { λ l. IsLearnt l.lines.items × HasExactly l.targets (targets_of l.lines.items) };
}

impl Learnt {
    /// What these lines show, where they follow from premises and earlier lines. The request's needs
    /// and what is allowed to it may not be learnt. Linear in the lines.
    ///
    /// More lines than [`DERIVATION_LINE_LIMIT`] are [`Refusal::TooLong`]. Lines that may not be learnt are
    /// [`Refusal::NotADerivation`]. The third error is [`Refusal::NoMemory`].
    pub fn new(alloc: Global, lines: Vec<Line>) -> Result<Learnt, Refusal>
        ensures made { IfOk result (λ learnt. (learnt ≡ lines.items) × IsLearnt lines.items) }
        ensures too_long { (result ≡ Err Refusal.TooLong) ↔ (DERIVATION_LINE_LIMIT < length lines.items) }
        ensures underived { result ≡ Err Refusal.NotADerivation → ¬ IsLearnt lines.items }
        ensures only { IfErr result (λ e.
            (e ≡ Refusal.TooLong) ⊎ (e ≡ Refusal.NotADerivation) ⊎ (e ≡ Refusal.NoMemory)) }
    {
        if lines.len() > DERIVATION_LINE_LIMIT {
            return Err(Refusal::TooLong);
        }
        if lines.is_empty() {
            return Err(Refusal::NotADerivation);
        }
        if !are_offered(alloc, &lines)? {
            return Err(Refusal::NotADerivation);
        }
        let targets = targets_in(alloc, &lines)?;
        Ok(Learnt { lines, targets })
    }

    /// What these lines show, which a caller knows to follow from premises and earlier lines. They are
    /// not judged again. Linear in the lines.
    pub fn of_derived(alloc: Global, lines: Vec<Line>) -> Result<Learnt, AllocError>
        requires { IsLearnt lines.items }
        ensures { IfOk result (λ learnt. learnt ≡ lines.items) }
    {
        let targets = targets_in(alloc, &lines)?;
        Ok(Learnt { lines, targets })
    }

    /// The derivation whose last conclusion was learnt.
    pub fn lines(&self) -> &[Line]
        ensures same { result.now ≡ self.now }
        ensures lawful { IsLearnt self.now }
    {
        &self.lines
    }

    /// What the last line says.
    pub fn conclusion(&self) -> &Incompat
        ensures { last_conclusion self.now ≡ Some result.now }
    {
        last_conclusion(&self.lines).unwrap()
    }

    /// The packages whose further publications can end what the premises say: their targets.
    pub fn rests_on(&self) -> &VSet
        ensures { HasExactly result.now (targets_of self.now) }
    {
        &self.targets
    }

    /// Whether each premise stands in the registry, so that the conclusion holds of it. Takes no
    /// memory.
    pub fn stands(&self, registry: &Registry) -> bool
        ensures exact { IsTrue result ↔ AllStand registry.now.packages self.now }
        ensures sound { OnTrue result
            (IfSome (last_conclusion self.now) (Holds registry.now.packages)) }
    {
        all_stand(registry, &self.lines)
    }

    /// An equal value. Linear in the lines. The only error is [`Refusal::NoMemory`].
    pub fn copy(&self, alloc: Global) -> Result<Learnt, Refusal>
        ensures same { IfOk result (λ learnt. learnt ≡ self.now) }
        ensures only { IfErr result (λ e. e ≡ Refusal.NoMemory) }
    {
        Ok(self.cloned(alloc)?)
    }

    /// As [`Learnt::copy`].
    pub fn cloned(&self, alloc: Global) -> Result<Learnt, AllocError>
        ensures { IfOk result (λ learnt. learnt ≡ self.now) }
    {
        Ok(Learnt {
            lines: copied(alloc, &self.lines)?,
            targets: self.targets.copy(alloc)?,
        })
    }
}

fn cause_stands(registry: &Registry, cause: &Cause) -> bool
    ensures { IsTrue result ↔ CauseStands registry.now.packages cause.now }
{
    match cause {
        Cause::Premise(premise) => premise.stands(registry),
        Cause::Line(_) | Cause::Need(_) | Cause::NotAllowed(_, _) | Cause::Root => true,
    }
}

/// Whether each premise of the lines stands.
fn all_stand(registry: &Registry, lines: &[Line]) -> bool
    ensures { IsTrue result ↔ AllStand registry.now.packages lines.now }
{
    let mut left = lines;
    'ask: while let [line, rest @ ..] = left {
        if !cause_stands(registry, &line.causes.0) || !cause_stands(registry, &line.causes.1) {
            return false;
        }
        left = rest;
    }
    true
}

/// Puts the target at the end, where the cause is a premise.
fn push_target(targets: &mut Vec<u32>, cause: &Cause) -> Result<(), AllocError>
    ensures { OnOk result (targets.new.items ≡ targets.old.items ++ target_of cause.now) }
{
    match cause {
        Cause::Premise(premise) => targets.push(premise.target)?,
        Cause::Line(_) | Cause::Need(_) | Cause::NotAllowed(_, _) | Cause::Root => {}
    }
    Ok(())
}

/// The targets of the lines' premises.
fn targets_in(alloc: Global, lines: &[Line]) -> Result<VSet, AllocError>
    ensures { IfOk result (λ targets. HasExactly targets (targets_of lines.now)) }
{
    let mut targets = Vec::new(alloc);
    let mut left = lines;
    'gather: while let [line, rest @ ..] = left {
        push_target(&mut targets, &line.causes.0)?;
        push_target(&mut targets, &line.causes.1)?;
        left = rest;
    }
    Ok(VSet::of(alloc, &targets)?)
}
