//! What lines are answered by: a session, or a seat of a race.
ghost use Rattle.std.specs.Prelude.{◌≡◌, ◌⊎◌, All, Some, IfErr, OnOk};
ghost use Rattle.derivations.specs.Learning.{AllStand};
ghost use Rattle.answers.specs.Lawful.{IsStopped, LearnsSome, Ways};

use crate::told::ReplyStamp;
use book::Item;
use derivations::Learnt;
use registry::Registry;
use store::Store;
use versions::Refusal;

/// A registry and a store, with the items that made them.
pub trait Backend {
    /// Where it stands, and what its calls do.
    ghost ways: { Ways Self };

    /// Where it stands.
    fn standing(&self) -> ReplyStamp
        ensures { result ≡ ways.standing self.now };

    /// The registry there.
    fn registry(&self) -> &Registry
        ensures { result.now.packages ≡ ways.packages self.now };

    /// What is stored there. Each member stands in the registry.
    fn store(&self) -> &Store
        ensures { All (AllStand (ways.packages self.now)) result.now.members };

    /// Looks for what others entered, as far as it can. `Err` tells what stopped it: no memory, or an entry that
    /// nobody made.
    fn look(&mut self) -> Result<(), Refusal>
        ensures looks { ways.looks self.old self.new }
        ensures stopped { IfErr result (IsStopped ways self.new) };

    /// Enters an item, or answers the lowest refusal that applies to it.
    fn enter(&mut self, item: Item) -> Result<(), Refusal>
        ensures entered { OnOk result (ways.enters self.old item self.new) }
        ensures refused { IfErr result (λ e. ways.looks self.old self.new × (IsStopped ways self.new e ⊎ (ways.refusal self.new item ≡ Some e))) };
}

/// Learns what is offered, in order. What is refused, or finds no memory, is dropped.
pub fn learn_all<L: Backend>(backend: &mut L, offered: Vec<Learnt>)
    ensures { LearnsSome L.ways backend.old backend.new }
{
    for learnt in offered {
        // That it follows from premises is told with its lines.
        let _lines = learnt.lines();
        let _ = backend.enter(Item::Learnt(learnt));
    }
}
