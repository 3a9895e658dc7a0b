//! How one term can stand to another.

/// How one term stands to another. Where it both satisfies and contradicts it, as a term that no
/// choice makes true does, the answer is `Satisfies`.
#[derive(Clone, Copy, PartialEq, Eq, Debug, Drop)]
pub enum Relation {
    Satisfies,
    Contradicts,
    Inconclusive,
}
