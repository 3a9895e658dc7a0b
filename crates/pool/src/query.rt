//! What one call asks, as contracts see it, and an answer that was found for it.
ghost use Rattle.std.specs.Prelude.{◌≡◌, ℕ, List, IfSome};
ghost use Rattle.registry.specs.Registry.{Packages};
ghost use Rattle.registry.specs.Requests.{Wanted};
ghost use Rattle.oracle.specs.declared.options.Options.{Options};
ghost use Rattle.pool.specs.Answering.{IsAnswerAt};

use crate::work::SolveResult;
use std::marker::{Brand, Model, PhantomData};

/// The packages and the requests of one call. What crosses threads has them in its type, so that an answer is known
/// to be one to a request of this call.
pub trait Query {
    ghost use Rattle.std.specs.Prelude.{List};
    ghost use Rattle.registry.specs.Registry.{Packages};
    ghost use Rattle.registry.specs.Requests.{Wanted};
    ghost use Rattle.oracle.specs.declared.options.Options.{Options};

    ghost packages: { Packages };

    ghost asked: { List (Wanted × Options) };
}

impl Query for Brand {
    ghost use Rattle.std.specs.Prelude.{[]};

    ghost packages = { [] };

    ghost asked = { [] };
}

/// An answer, with the index of its request. Contracts see the index.
#[derive(Drop)]
pub(crate) struct Answered<Q: Query> {
    index: usize,
    answer: SolveResult,
    query: PhantomData<Q>,
}

impl<Q: Query> Model for Answered<Q> {
    ghost use Rattle.std.specs.Prelude.{ℕ};
    ghost use Rattle.pool.specs.Answering.{IsAnswerAt};

    ghost Value = { ℕ };

    ghost view = { λ f. f.index };

    ghost invariant = { λ f. IsAnswerAt Q.packages Q.asked f.index f.answer };
}

impl<Q: Query> Answered<Q> {
    /// The answer to the request at an index.
    pub(crate) fn new(index: usize, answer: SolveResult) -> Answered<Q>
        requires { IsAnswerAt Q.packages Q.asked index answer }
        ensures { result ≡ index }
    {
        Answered {
            index,
            answer,
            query: PhantomData,
        }
    }

    /// The index of the request that is answered.
    pub(crate) fn index(&self) -> usize
        ensures { result ≡ self.now }
    {
        self.index
    }

    /// The answer.
    pub(crate) fn answer(&self) -> &SolveResult {
        &self.answer
    }

    /// The answer, to keep.
    pub(crate) fn into_answer(self) -> SolveResult
        ensures { IsAnswerAt Q.packages Q.asked self result }
    {
        let Answered {
            index: _,
            answer,
            query: _,
        } = self;
        answer
    }
}
