//! The packages that are still to be decided.

ghost use Rattle.std.specs.Prelude.{◌≡◌, ℕ, None, not, IfOk};
ghost use Rattle.std.specs.List.Sorted.{IsStrictlyIncreasing};
ghost use Rattle.terms.specs.Sets.{has};
ghost use Rattle.terms.specs.Terms.{true_of};
ghost use Rattle.search.specs.Assignments.{is_undecided};
ghost use Rattle.search.specs.Trail.{IsTrail};

use crate::trail::{Trail, decided_at, last_on, said_at};
use std::alloc::{AllocError, Global};
use terms::{Pkg, Term};

/// Whether a term says that its package is selected.
fn is_positive(term: &Term) -> bool
    ensures { result ≡ not (true_of term.now None) }
{
    match term {
        Term::In(_) => true,
        Term::NotIn(_) => false,
    }
}

/// Whether a package is to be decided, by one look at it.
fn is_undecided(trail: &Trail, pkg: Pkg) -> bool
    requires { IsTrail trail.now }
    ensures { result ≡ is_undecided trail.now.made.items pkg }
{
    let last = last_on(trail, pkg);
    match decided_at(trail, last) {
        Some(_) => false,
        None => is_positive(said_at(trail, last)),
    }
}

/// The packages to decide, in rising order.
pub(crate) fn undecided_in(alloc: Global, trail: &Trail) -> Result<Vec<Pkg>, AllocError>
    requires { IsTrail trail.now }
    ensures exactly { IfOk result (λ found. (pkg : ℕ) → has found.items pkg ≡ is_undecided trail.now.made.items pkg) }
    ensures rising { IfOk result (λ found. IsStrictlyIncreasing found.items) }
{
    let mut found = Vec::new(alloc);
    'heads: for index in 0..trail.heads.len() {
        let pkg = index as Pkg;
        if is_undecided(trail, pkg) {
            found.push(pkg)?;
        }
    }
    Ok(found)
}
