//! What lines follow from.

ghost use Rattle.std.specs.Prelude.{◌≡◌, ◌↔◌, IfErr, IfOk, IsTrue};
ghost use Rattle.std.specs.Bool.{OnTrue};
ghost use Rattle.derivations.specs.Derivations.{Finds};
ghost use Rattle.derivations.specs.Facts.{premise_terms, Holds, Says, Stands};

use crate::standing::{covers, is_dependent};
use registry::Registry;
use std::alloc::{AllocError, Global};
use terms::{Incompat, Pkg, Term, VSet};
use versions::{Need, Refusal};

/// That each of these versions of a package depends on a target with this requirement, and that the
/// versions of the target that meet it are within a set.
///
/// `Package` tells a package, and `PackageOrRoot` a package or the root: both by number, where no
/// other type is given.
#[derive(Drop)]
pub struct Premise<Package = Pkg, PackageOrRoot = Pkg> {
    pub package: Package,
    pub versions: VSet,
    pub target: PackageOrRoot,
    pub need: Need,
    pub within: VSet,
}

/// What a line follows from. The types are those of [`Premise`].
#[derive(Drop)]
pub enum Cause<Package = Pkg, PackageOrRoot = Pkg> {
    /// The conclusion of the line with this number, counted from 1.
    Line(usize),
    /// That versions of a package depend on a target.
    Premise(Premise<Package, PackageOrRoot>),
    /// The request's need at this place, counted from 0.
    Need(usize),
    /// That none of these versions of a package is allowed to the request.
    NotAllowed(Package, VSet),
    /// That the request must be met.
    Root,
}

impl Premise {
    /// Whether the premise is true of the registry. Takes no memory. The cost grows with the
    /// dependencies of its versions and with the published versions of the target.
    pub fn stands(&self, registry: &Registry) -> bool
        ensures exact { IsTrue result ↔ Stands registry.now.packages self.now }
        ensures sound { OnTrue result (Holds registry.now.packages (premise_terms self.now)) }
    {
        is_dependent(registry, self) && covers(registry, self)
    }

    /// What the premise says: package In(versions), target NotIn(within); without the term on the
    /// target where nothing is within. A premise on its own package says nothing.
    pub fn incompat(&self, alloc: Global) -> Result<Option<Incompat>, AllocError>
        ensures { IfOk result (Finds (Says self.now)) }
    {
        if self.package == self.target {
            return Ok(None);
        }
        let versions = Term::In(self.versions.copy(alloc)?);
        let within = Term::NotIn(self.within.copy(alloc)?);
        let said = Incompat::pair(alloc, self.package, versions, self.target, within)?;
        Ok(Some(said))
    }

    /// An equal premise, which shares the requirement with this one. The only error is
    /// [`Refusal::NoMemory`].
    pub fn copy(&self, alloc: Global) -> Result<Premise, Refusal>
        ensures same { IfOk result (λ premise. premise ≡ self.now) }
        ensures only { IfErr result (λ e. e ≡ Refusal.NoMemory) }
    {
        Ok(self.cloned(alloc)?)
    }

    /// As [`Premise::copy`].
    pub fn cloned(&self, alloc: Global) -> Result<Premise, AllocError>
        ensures { IfOk result (λ premise. premise ≡ self.now) }
    {
        Ok(Premise {
            package: self.package,
            versions: self.versions.copy(alloc)?,
            target: self.target,
            need: self.need.clone()?,
            within: self.within.copy(alloc)?,
        })
    }
}

impl Cause {
    /// An equal cause.
    pub fn copy(&self, alloc: Global) -> Result<Cause, AllocError>
        ensures { IfOk result (λ cause. cause ≡ self.now) }
    {
        Ok(match self {
            Cause::Line(number) => Cause::Line(*number),
            Cause::Premise(premise) => Cause::Premise(premise.cloned(alloc)?),
            Cause::Need(index) => Cause::Need(*index),
            Cause::NotAllowed(pkg, versions) => Cause::NotAllowed(*pkg, versions.copy(alloc)?),
            Cause::Root => Cause::Root,
        })
    }
}
