//! What a walk answers.

ghost use Rattle.std.specs.Prelude.{◌≡◌, length};
ghost use Rattle.walk.specs.Walks.{AreAskedAt, asked_by};

use registry::{Pkg, Place, Registry, Request};
use versions::{Name, Need};

/// Who asks for packages: the request by its needs, or a version by its dependencies.
#[derive(Clone, Copy, PartialEq, Eq, Debug)]
pub enum Asker {
    Request,
    Version(Pkg, u32),
}

impl Asker {
    /// What is asked, in order; nothing by a version that is not published.
    pub fn needs<'a>(self, registry: &'a Registry, request: &'a Request) -> &'a [(Name, Need)]
        ensures { result.now ≡ asked_by registry.now.packages request.now self }
    {
        match self {
            Asker::Request => request.needs(),
            Asker::Version(pkg, ordinal) => match registry.facts_at(pkg, ordinal) {
                None => &[],
                Some(facts) => facts.needs,
            },
        }
    }

    /// How much is asked; nothing by a version that is not published.
    pub(crate) fn needs_count(self, registry: &Registry, request: &Request) -> usize
        ensures { result ≡ length (asked_by registry.now.packages request.now self) }
    {
        match self {
            Asker::Request => request.needs().len(),
            Asker::Version(pkg, ordinal) => registry.needs_count(pkg, ordinal),
        }
    }

    /// Where the registry keeps what is asked, in order, as far as a version asks.
    pub(crate) fn places(self, registry: &Registry) -> &[Place]
        ensures { AreAskedAt registry.now.packages registry.now.named self result.now }
    {
        match self {
            Asker::Request => &[],
            Asker::Version(pkg, ordinal) => registry.places(pkg, ordinal),
        }
    }
}

/// A selection, or the first thing that stands in its way.
#[derive(Drop)]
pub enum Reached {
    /// Packages with the ordinals of their versions, each package once, in the order in which they
    /// were found.
    Selection(Vec<(Pkg, u32)>),
    /// What is asked at this index has no package, no choice, or one that does not meet it.
    Unmet(Asker, usize),
    /// A chosen version is not allowed to the request.
    NotAllowed(Pkg, u32),
}
