//! Why no selection meets a request: told by names, and judged.
ghost use Rattle.std.specs.Prelude.{◌≡◌, ◌↔◌, IfOk, IsTrue};
ghost use Rattle.derivations.specs.Derivations.{IsDerivation};
ghost use Rattle.explain.specs.Explanations.{explanation};
ghost use Rattle.by_name.specs.Named.{IsNumbered};
ghost use Rattle.answers.specs.Outcomes.{Proves};

use by_name::{NamedDerivation, derived_packages_have_names, named, numbered};
use derivations::{Derivation, check};
use explain::explanation;
use registry::{Registry, Request};
use replies::Explained;
use std::alloc::{AllocError, Global};

/// A derivation of the refusal of a request, by the names of its packages, with the lines that explain it.
pub fn explained(
    alloc: Global,
    registry: &Registry,
    request: &Request,
    derivation: &Derivation,
) -> Result<Explained, AllocError>
    requires { IsDerivation registry.now.packages request.now derivation.now }
    ensures named { IfOk result (λ e. IsNumbered registry.now.packages e.lines derivation.now) }
    ensures told { IfOk result (λ e. e.texts ≡ explanation registry.now.packages request.now derivation.now) }
{
    // Known of every derivation, and asked by `named`: each of its packages has a name.
    derivation.conclusions_are_lawful();
    derived_packages_have_names();
    let by_name = named(alloc, registry, derivation)?;
    let lines = explanation(alloc, registry, request, derivation)?;
    Explained::new(alloc, by_name, lines)
}

/// Whether a derivation in names shows that no selection meets the request. One whose names have no number, or of
/// which a conclusion is no incompatibility, does not.
pub fn follows(
    alloc: Global,
    registry: &Registry,
    request: &Request,
    derivation: &NamedDerivation,
) -> Result<bool, AllocError>
    ensures { IfOk result (λ verdict. IsTrue verdict ↔ Proves registry.now.packages request.now derivation.now) }
{
    match numbered(alloc, registry, derivation)? {
        None => Ok(false),
        Some(lines) => check(alloc, registry, request, &lines),
    }
}
