//! How an incompatibility stands to a partial solution.

ghost use Rattle.std.specs.Prelude.{List};
ghost use Rattle.terms.specs.Incompats.{IsIncompat};
ghost use Rattle.search.specs.Trail.{IsTrail};
ghost use Rattle.search.specs.Satisfying.{Stands};

use crate::trail::{Trail, said_on};
use terms::{Pkg, Relation, Term, relation};

/// How an incompatibility stands to a partial solution: each term must hold, each but the one on a
/// package, which can hold or not, or neither.
#[derive(Clone, Copy, PartialEq, Eq, Debug)]
pub enum Satisfaction {
    Satisfied,
    Almost(Pkg),
    Other,
}

/// How terms stand to the assignments, by one look at each term's package.
pub(crate) fn standing_of(trail: &Trail, terms: &[(Pkg, Term)]) -> Satisfaction
    requires kept { IsTrail trail.now }
    requires lawful { IsIncompat terms.now }
    ensures { Stands trail.now.made.items terms.now result }
{
    let mut out: Option<Pkg> = None;
    for entry in terms {
        let said = said_on(trail, entry.0);
        match relation(said, &entry.1) {
            Relation::Satisfies => {}
            Relation::Contradicts => return Satisfaction::Other,
            Relation::Inconclusive => {
                if out.is_some() {
                    return Satisfaction::Other;
                }
                out = Some(entry.0);
            }
        }
    }
    match out {
        None => Satisfaction::Satisfied,
        Some(pkg) => Satisfaction::Almost(pkg),
    }
}
