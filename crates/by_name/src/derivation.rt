//! What a derivation says, by names.
ghost use Rattle.std.specs.Prelude.{◌≡◌};

use derivations::{Cause, Derivation, Line, Premise};
use std::marker::Model;
use terms::Term;
use versions::Name;

/// A premise by names. A target without a name is the request itself, on which no premise stands.
pub type NamedPremise = Premise<Name, Option<Name>>;

/// What a line follows from, by names.
pub type NamedCause = Cause<Name, Option<Name>>;

/// A line by names. Whether it follows is not known.
pub type NamedLine = Line<Name, Option<Name>, NamedTerms>;

/// A derivation as request lines and replies have it: packages by their names, so that it is the same for every
/// registry.
pub type NamedDerivation = Derivation<Name, Option<Name>, NamedTerms>;

/// Terms by the names of their packages, in any order; the request has no name.
#[derive(Drop)]
pub struct NamedTerms {
    terms: Vec<(Option<Name>, Term)>,
}

impl Model for NamedTerms {
    ghost use Rattle.std.specs.Prelude.{List, Option};
    ghost use Rattle.versions.specs.Words.{Text};
    ghost use Rattle.terms.specs.declared.term.Term.{Term};

    ghost Value = { List (Option Text × Term) };

    ghost view = { λ t. t.terms.items };
}

impl NamedTerms {
    /// These terms.
    pub fn new(terms: Vec<(Option<Name>, Term)>) -> NamedTerms
        ensures { result ≡ terms.items }
    {
        NamedTerms { terms }
    }

    /// The terms, in order.
    pub fn terms(&self) -> &[(Option<Name>, Term)]
        ensures { result.now ≡ self.now }
    {
        self.terms.as_slice()
    }
}
