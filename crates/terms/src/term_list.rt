//! Terms by package as an incompatibility stores them.

ghost use Rattle.std.specs.Prelude.{◌≡◌, IfOk};
ghost use Rattle.terms.specs.TermLists.{listed};

use crate::incompat::Pkg;
use crate::term::Term;
use std::alloc::{AllocError, Global};

/// Terms by package. Two, as most lines of a search have, lie in the value itself and take no memory.
#[derive(Drop)]
pub(crate) enum TermList {
    Two([(Pkg, Term); 2]),
    Others(Vec<(Pkg, Term)>),
}

impl TermList {
    /// These terms. Two are moved out of their vector.
    pub fn of(terms: Vec<(Pkg, Term)>) -> TermList
        ensures { listed result ≡ terms.items }
    {
        if terms.len() != 2 {
            return TermList::Others(terms);
        }
        let mut left = terms;
        let second = left.pop().unwrap();
        let first = left.pop().unwrap();
        TermList::Two([first, second])
    }

    /// The terms, in order of packages. Costs a look at which form it has.
    #[inline(always)]
    pub fn as_slice(&self) -> &[(Pkg, Term)]
        ensures { result.now ≡ listed self.now }
    {
        match self {
            TermList::Two(terms) => terms.as_slice(),
            TermList::Others(terms) => terms.as_slice(),
        }
    }

    /// Equal terms.
    pub fn copy(&self, alloc: Global) -> Result<TermList, AllocError>
        ensures { IfOk result (λ copy. listed copy ≡ listed self.now) }
    {
        match self {
            TermList::Two([first, second]) => Ok(TermList::Two([
                (first.0, first.1.copy(alloc)?),
                (second.0, second.1.copy(alloc)?),
            ])),
            TermList::Others(terms) => Ok(TermList::Others(copied(alloc, terms)?)),
        }
    }
}

fn copied(alloc: Global, terms: &[(Pkg, Term)]) -> Result<Vec<(Pkg, Term)>, AllocError>
    ensures { IfOk result (λ copy. copy.items ≡ terms.now) }
{
    let mut copy = Vec::with_capacity(alloc, terms.len())?;
    for (pkg, term) in terms {
        copy.push((*pkg, term.copy(alloc)?))?;
    }
    Ok(copy)
}
