//! What a version depends on.

ghost use Rattle.std.specs.Prelude.{◌≡◌, ◌≢◌, ◌↔◌, ◌≤◌, ◌∷◌, ℕ, List, length, IfNone, IfOk, IfSome, IsTrue};
ghost use Rattle.registry.specs.Needs.{has_name, repeats_name};

use crate::by_name::{places_by_name, repeats};
use std::alloc::{AllocError, Global};
use std::marker::Model;
use std::sync::Arc;
use versions::{Name, Need};

/// Up to this many needs are compared each with each, which takes less time than to sort them.
/// Measured at half and at twice this value: docs/BENCHMARKS.md, Constants.
const MOST_COMPARED_NEEDS: usize = 8;

/// What a version depends on: names of packages, each with a requirement, in order.
///
/// Copies share the list. Whether a name comes twice is found once, when the list is made.
#[derive(Drop)]
pub struct Dependencies {
    listed: Arc<Vec<(Name, Need)>, Global>,
    repeats: bool,
    /// Whether its texts are those that a registry keeps. Registries that carry out the same commands share such a list.
    is_kept: bool,
}

impl Model for Dependencies {
    ghost use Rattle.std.specs.Prelude.{◌≡◌, List, ℕ};
    ghost use Rattle.std.specs.Arc.{arc_value};
    ghost use Rattle.registry.specs.Needs.{repeats_name};

    ghost Value = { List (List ℕ × List ℕ) };

    ghost view = { λ d. (arc_value d.listed).items };

    ghost invariant = { λ d. d.repeats ≡ repeats_name (arc_value d.listed).items };
}

impl Clone for Dependencies {
    ghost is_clone = { λ dependencies copy. copy ≡ dependencies };

    /// Shares the list.
    fn clone(&self) -> Result<Dependencies, AllocError> {
        Ok(Dependencies {
            listed: Arc::try_clone(&self.listed)?,
            repeats: self.repeats,
            is_kept: self.is_kept,
        })
    }
}

impl Dependencies {
    /// Keeps these needs in their order. Takes time in proportion to n log n.
    pub fn new(alloc: Global, needs: Vec<(Name, Need)>) -> Result<Dependencies, AllocError>
        ensures { IfOk result (λ dependencies. dependencies ≡ needs.items) }
    {
        let repeats = repeats_name(alloc, &needs)?;
        Ok(Dependencies {
            listed: Arc::new(alloc, needs)?,
            repeats,
            is_kept: false,
        })
    }

    /// The names with their requirements, in the order that was given.
    pub fn needs(&self) -> &[(Name, Need)]
        ensures { result.now ≡ self.now }
    {
        &self.listed
    }

    /// Whether a name comes twice; takes no time.
    pub fn repeats_name(&self) -> bool
        ensures { result ≡ repeats_name self.now }
    {
        self.repeats
    }

    /// The same list in these handles, which are of texts that a registry keeps; in its own where they are, too.
    pub(crate) fn with_handles(
        &self,
        alloc: Global,
        needs: Vec<(Name, Need)>,
    ) -> Result<Dependencies, AllocError>
        requires { needs.items ≡ self.now }
        ensures { IfOk result (λ dependencies. dependencies ≡ self.now) }
    {
        if self.is_kept {
            return self.clone();
        }
        Ok(Dependencies {
            listed: Arc::new(alloc, needs)?,
            repeats: self.repeats,
            is_kept: true,
        })
    }
}

/// The needs after the first, where the first is this need.
fn after_first<'a>(needs: &'a [(Name, Need)], need: &(Name, Need)) -> Option<&'a [(Name, Need)]>
    ensures some { IfSome result (λ rest. needs.now ≡ need.now ∷ rest.now) }
    ensures none { IfNone result ((rest : List (List ℕ × List ℕ)) → needs.now ≢ need.now ∷ rest) }
{
    let (first, rest) = needs.split_first()?;
    if first.0 != need.0 || first.1 != need.1 {
        return None;
    }
    Some(rest)
}

/// Whether two lists of needs are the same.
pub fn are_same(first: &[(Name, Need)], second: &[(Name, Need)]) -> bool
    ensures { IsTrue result ↔ (first.now ≡ second.now) }
{
    let mut rest = first;
    for need in second {
        match after_first(rest, need) {
            Some(others) => rest = others,
            None => return false,
        }
    }
    rest.is_empty()
}

/// Whether a name is among the needs.
pub fn has_name(needs: &[(Name, Need)], name: &Name) -> bool
    ensures { result ≡ has_name needs.now name.now }
{
    needs.iter().any(|need| *name == need.0)
}

/// Whether a name comes twice, for few needs: compares each with each.
fn repeats_among_few(needs: &[(Name, Need)]) -> bool
    ensures { result ≡ repeats_name needs.now }
{
    match needs {
        [] => false,
        [first, rest @ ..] => has_name(rest, &first.0) || repeats_among_few(rest),
    }
}

/// Whether a name comes twice.
fn repeats_name(alloc: Global, needs: &[(Name, Need)]) -> Result<bool, AllocError>
    ensures { IfOk result (λ repeats. repeats ≡ repeats_name needs.now) }
{
    if needs.len() <= MOST_COMPARED_NEEDS {
        return Ok(repeats_among_few(needs));
    }
    let places = places_by_name(alloc, needs)?;
    Ok(repeats(needs, &places))
}
