//! Derivations, and their checker.

ghost use Rattle.std.specs.Prelude.{◌≡◌, ◌↔◌, IfOk, IsTrue};
ghost use Rattle.std.specs.Bool.{OnTrue};
ghost use Rattle.derivations.specs.Derivations.{AreIncompats, IsDerivation, NoSelection};

use crate::following::are_derived;
use crate::laws::derivations_refute;
use crate::line::{Line, conclusions_are_lawful, copied, is_end, last_conclusion};
use registry::{Registry, Request};
use std::alloc::{AllocError, Global};
use std::marker::Model;
use terms::{Incompat, Pkg};

/// Lines that may show that no selection meets a request. Any lines make one; [`check`] judges it.
/// The types are those of [`Line`].
#[derive(Drop)]
pub struct Derivation<Package = Pkg, PackageOrRoot = Pkg, Conclusion = Incompat> {
    lines: Vec<Line<Package, PackageOrRoot, Conclusion>>,
}

impl<Package, PackageOrRoot, Conclusion> Model for Derivation<Package, PackageOrRoot, Conclusion> {
    ghost use Rattle.std.specs.Prelude.{List};
    ghost use Rattle.derivations.specs.declared.line.Line.{Line};

    ghost Value = { List (Line Package PackageOrRoot Conclusion) };

    ghost view = { λ d. d.lines.items };
}

impl<Package, PackageOrRoot, Conclusion> Derivation<Package, PackageOrRoot, Conclusion> {
    /// A derivation of these lines.
    pub fn new(lines: Vec<Line<Package, PackageOrRoot, Conclusion>>) -> Self
        ensures { result ≡ lines.items }
    {
        Derivation { lines }
    }

    /// The lines, in order.
    pub fn lines(&self) -> &[Line<Package, PackageOrRoot, Conclusion>]
        ensures { result.now ≡ self.now }
    {
        self.lines.as_slice()
    }
}

impl Derivation {
    /// Tells a caller that each conclusion is an incompatibility, as its type has it. What it reads
    /// decides nothing.
    pub fn conclusions_are_lawful(&self)
        ensures { AreIncompats self.now }
    {
        conclusions_are_lawful(self.lines.as_slice());
    }

    /// An equal derivation.
    pub fn copy(&self, alloc: Global) -> Result<Derivation, AllocError>
        ensures { IfOk result (λ derivation. derivation ≡ self.now) }
    {
        Ok(Derivation {
            lines: copied(alloc, &self.lines)?,
        })
    }
}

/// Whether the lines show that no selection meets the request: each follows from facts of the
/// registry and the request and from earlier lines, and the last says that the root is not chosen,
/// or that nothing can be. Linear in the lines, but for matching versions that the registry has not
/// at hand.
pub fn check(
    alloc: Global,
    registry: &Registry,
    request: &Request,
    derivation: &Derivation,
) -> Result<bool, AllocError>
    ensures exact { IfOk result (λ yes. IsTrue yes
        ↔ IsDerivation registry.now.packages request.now derivation.now) }
    ensures sound { IfOk result (λ yes.
        OnTrue yes (NoSelection registry.now.packages request.now)) }
{
    derivations_refute();
    let lines = derivation.lines();
    match last_conclusion(lines) {
        None => Ok(false),
        Some(conclusion) => {
            if is_end(conclusion) {
                are_derived(alloc, registry, request, lines)
            } else {
                Ok(false)
            }
        }
    }
}
